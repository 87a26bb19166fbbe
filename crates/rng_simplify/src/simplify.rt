//! The grammar that schema files define.

ghost use Rattle.std.specs.Prelude.{◌≡◌, ◌≤◌};
ghost use Rattle.rng_simplify.specs.Refusals.{cells_of};
ghost use Rattle.rng_simplify.specs.CellTexts.{AreTexts};
ghost use Rattle.rng_simplify.specs.Composition.{GivesWhole};
ghost use Rattle.rng_simplify.specs.Grammars.{GivesGrammar};
ghost use Rattle.rng_simplify.specs.Simplified.{Answers};
ghost use Rattle.rng_simplify.specs.NodePlaces.{AreWellFormed};

use crate::build::Builder;
use crate::class::check_classes;
use crate::compose::{Whole, compose};
use crate::copies::check_copies;
use crate::fault::SchemaFault;
use crate::form::forms_of;
use crate::limit::check_size;
use crate::load::load;
use crate::order::order;
use crate::resolve::resolve;
use crate::types::types_of;
use nx_base::steps::Steps;
use nx_host::files::Files;
use rng_core::grammar::Grammar;
use std::alloc::Global;
use std::sync::ledger::Ledger;

/// The grammar that the file of the URI defines, with those that it leads to (ISO/IEC 19757-2, section 7). They are fetched depth
/// first, in the order of their references, an outer file before those that it refers to, and a file that is named twice is
/// fetched twice. Each is read in the syntax that its first character tells, the compact one or XML; the tokens of the latter
/// are counted.
pub fn simplify<F: Files, L: Ledger>(
    alloc: Global,
    uri: &str,
    files: &mut F,
    steps: &mut Steps<L>,
) -> Result<Grammar, SchemaFault>
    ensures answers { Answers (F.told files.old) uri.now (F.faults files.old) (F.faults files.new) result }
    ensures map { F.told files.new ≡ F.told files.old }
    ensures steps { steps.old ≤ steps.new }
{
    let whole = whole_schema(alloc, uri, files, steps)?;
    grammar_of(alloc, &whole)
}

/// The files that are reached from the URI, in one piece.
fn whole_schema<F: Files, L: Ledger>(
    alloc: Global,
    uri: &str,
    files: &mut F,
    steps: &mut Steps<L>,
) -> Result<Whole, SchemaFault>
    ensures gives { GivesWhole (F.told files.old) uri.now (F.faults files.old) (F.faults files.new) result }
    ensures map { F.told files.new ≡ F.told files.old }
    ensures steps { steps.old ≤ steps.new }
{
    let loaded = load(alloc, uri, files, steps)?;
    compose(alloc, loaded)
}

/// The grammar of a schema in one piece. Forms are known, and how large they are, before any of them is spelled out.
fn grammar_of(alloc: Global, whole: &Whole) -> Result<Grammar, SchemaFault>
    requires formed { AreWellFormed (cells_of whole.now) whole.now.root }
    requires texts { AreTexts (cells_of whole.now) }
    ensures { GivesGrammar (cells_of whole.now) whole.now.root result }
{
    let found = resolve(alloc, whole)?;
    check_classes(whole, &found)?;
    let order = order(alloc, whole, &found)?;
    let nodes = whole.nodes.as_slice();
    let ordered = order.as_slice();
    let forms = forms_of(alloc, nodes, &found, ordered)?;
    let node_types = types_of(alloc, nodes, &forms, ordered)?;
    let types = node_types.as_slice();
    let elements = found.elements.as_slice();
    check_size(nodes, &forms, whole.root, elements)?;
    check_copies(alloc, nodes, types, &forms, whole.root, elements)?;
    let builder = Builder {
        alloc,
        nodes,
        forms: &forms,
        types,
    };
    builder.grammar(whole.root, elements)
}
