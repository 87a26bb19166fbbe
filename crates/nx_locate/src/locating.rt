//! The schema of a document.

ghost use Rattle.std.specs.Prelude.{◌≡◌, ◌≤◌, option_copied};
ghost use Rattle.std.specs.Str.{IsAscii};
ghost use Rattle.nx_locate.specs.Locates.{Locates, LocatesBy};

use crate::document_element::document_element;
use crate::leading::all_give;
use crate::load::load;
use nx_base::locate_fault::LocateFault;
use nx_base::sequence::Bytes;
use nx_base::steps::Steps;
use nx_host::files::Files;
use nx_text::text::Text;
use std::alloc::Global;
use std::sync::ledger::Ledger;

/// The URI of the schema for the document of this URI and text, by the rules in the file under the URI `rules`; none where no rule
/// yields one, and where there are no rules. Both are URIs as `url` prints them.
///
/// All rules files are fetched first, depth first in the order of their includes. Then the text is read up to its document
/// element, and rules are tried in order, where `has` is asked of each URI that a rule makes.
pub fn locate<F: Files, L: Ledger>(
    alloc: Global,
    rules: Option<&str>,
    document: &str,
    text: &Text,
    files: &mut F,
    steps: &mut Steps<L>,
) -> Result<Option<Bytes>, LocateFault>
    requires { IsAscii document.now }
    ensures located { Locates (F.told files.old) (option_copied rules.entry) document.now text.now (F.faults files.old) (F.faults files.new) result }
    ensures map { F.told files.new ≡ F.told files.old }
    ensures steps { steps.old ≤ steps.new }
{
    match rules {
        Some(rules) => locate_by(alloc, rules, document, text, files, steps),
        None => Ok(None),
    }
}

/// The same where there are rules.
fn locate_by<F: Files, L: Ledger>(
    alloc: Global,
    rules: &str,
    document: &str,
    text: &Text,
    files: &mut F,
    steps: &mut Steps<L>,
) -> Result<Option<Bytes>, LocateFault>
    requires { IsAscii document.now }
    ensures located { LocatesBy (F.told files.old) rules.now document.now text.now (F.faults files.old) (F.faults files.new) result }
    ensures map { F.told files.new ≡ F.told files.old }
    ensures steps { steps.old ≤ steps.new }
{
    let all = load(alloc, rules, files, steps)?;
    let element = document_element(alloc, text, steps)?;
    all_give(alloc, document, &element, all.as_slice(), files)
}
