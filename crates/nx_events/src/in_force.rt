//! The elements that are open at a place, and the namespace declarations in force there.

ghost use Rattle.std.specs.Prelude.{◌≡◌, ◌++◌, IfOk, OnOk};
ghost use Rattle.nx_events.specs.InForce.{pairs_of, pair_unless_xml, scope_of};

use crate::scope::{Binding, SharedBinding};
use crate::state::{EventState, OpenElement};
use nx_base::memory::NoMemory;
use nx_base::name::{Name, Names};
use nx_base::sequence::TryCopy;
use std::alloc::Global;

// Adds the pair, unless it is of the prefix `xml`, which is bound without a declaration.
fn push_pair(names: &mut Names, pair: &Binding) -> Result<(), NoMemory>
    ensures { OnOk result (names.new ≡ names.old ++ pair_unless_xml pair.now) }
{
    if pair.prefix.as_slice() == b"xml".as_slice() {
        return Ok(());
    }
    let ns = pair.uri.copy()?;
    let local = pair.prefix.copy()?;
    names.push(Name { ns, local })
}

// Adds the pairs, in order.
#[tactic(auto, unfolding(crate::specs::InForce::pairs_of))]
fn push_pairs(names: &mut Names, pairs: &[SharedBinding]) -> Result<(), NoMemory>
    ensures { OnOk result (names.new ≡ names.old ++ pairs_of pairs.now) }
{
    let mut rest = pairs;
    'pairs: while let Some((first, behind)) = rest.split_first() {
        push_pair(names, first.get())?;
        rest = behind;
    }
    Ok(())
}

/// The namespace declarations in force at the innermost open element, the innermost last: each as a name with the URI as its
/// namespace and the prefix as its local part, without those of the prefix `xml`. None where no element is open.
#[tactic(auto, unfolding(crate::specs::InForce::scope_of))]
pub fn scope(alloc: Global, state: &EventState) -> Result<Names, NoMemory>
    ensures { IfOk result (λ names. names ≡ scope_of state.now) }
{
    let mut names = Names::new(alloc);
    if state.elements.len() > 0 {
        push_pairs(&mut names, state.scope.as_slice())?;
    }
    Ok(names)
}

/// The open elements, the innermost last.
pub fn open_elements(state: &EventState) -> &[OpenElement]
    ensures { result.now ≡ state.now.elements }
{
    state.elements.as_slice()
}

/// The pairs that are declared by the open elements, the innermost last.
pub fn bindings(state: &EventState) -> &[SharedBinding]
    ensures { result.now ≡ state.now.scope }
{
    state.scope.as_slice()
}
