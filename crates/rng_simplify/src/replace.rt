//! Definitions of an included grammar, some of them replaced (ISO/IEC 19757-2, section 7.8).

ghost use Rattle.std.specs.Prelude.{◌≡◌, ◌++◌, is_some, not, filter, IfOk, OnOk};
ghost use Rattle.std.specs.List.{list_all};
ghost use Rattle.rnc_parse.specs.declared.surface.Defined.{Defined};
ghost use Rattle.rng_simplify.specs.NameTables.{kept_for};
ghost use Rattle.rng_simplify.specs.MadeCells.{IsReplaced, is_defined};

use crate::names::Names;
use crate::node::Clause;
use crate::stop::Stop;
use nx_base::cause::Cause;
use nx_base::memory::NoMemory;
use std::alloc::Global;

/// The names of definitions.
fn names_of(alloc: Global, clauses: &[Clause]) -> Result<Names<()>, NoMemory>
    ensures { IfOk result (λ names. (name : Defined) → is_some (kept_for names name) ≡ is_defined clauses.now name) }
{
    let mut names = Names::new(alloc);
    for clause in clauses {
        names.add(&clause.name, ())?;
    }
    Ok(names)
}

/// Whether each of the definitions is of one of the names.
fn are_of(clauses: &[Clause], names: &Names<()>) -> bool
    ensures { result ≡ list_all (λ clause. is_some (kept_for names.now clause.name)) clauses.now }
{
    clauses.iter().all(|clause| names.has(&clause.name))
}

/// The definitions that are of none of the names.
fn without(clauses: Vec<Clause>, names: &Names<()>) -> Vec<Clause>
    ensures { result.items ≡ filter (λ clause. not (is_some (kept_for names.now clause.name))) clauses.items }
{
    let mut kept = clauses;
    kept.retain(|clause| !names.has(&clause.name));
    kept
}

/// Puts definitions behind others. An include often stands before all else, and a chain of files does no more for each of them
/// than to hand its definitions on.
pub(crate) fn put_behind(clauses: &mut Vec<Clause>, more: Vec<Clause>) -> Result<(), NoMemory>
    ensures { OnOk result (clauses.new.items ≡ clauses.old.items ++ more.items) }
{
    if clauses.is_empty() {
        *clauses = more;
        return Ok(());
    }
    let mut more = more;
    clauses.append(&mut more)?;
    Ok(())
}

/// The definitions of a grammar, but for those of names that are defined anew, and behind them the new ones. The grammar must
/// define each of these names.
pub(crate) fn replaced(
    alloc: Global,
    old: Vec<Clause>,
    new: Vec<Clause>,
) -> Result<Vec<Clause>, Stop>
    ensures { IsReplaced old.items new.items result }
{
    if new.is_empty() {
        return Ok(old);
    }
    let names = names_of(alloc, old.as_slice())?;
    if !are_of(new.as_slice(), &names) {
        return Err(Stop::Unreadable(Cause::NoDefinition));
    }
    let anew = names_of(alloc, new.as_slice())?;
    let mut kept = without(old, &anew);
    let mut new = new;
    kept.append(&mut new)?;
    Ok(kept)
}
