//! Elements that every way to go on needs where content is skipped.

ghost use Rattle.std.specs.Prelude.{◌≡◌, ◌<◌, length, IfOk, None, Some, map, option_copied};
ghost use Rattle.rng_core.specs.Meaning.{definition_of};
ghost use Rattle.rng_kept.specs.Needed as s;
ghost use Rattle.rng_live.specs.Order.{name_order, SortsOnce};
ghost use Rattle.deriv_nodes.specs.Numbers.{at};
ghost use Rattle.deriv_states.specs.Places.{IsThere, outer_in, state_in, way_in};
ghost use Rattle.deriv_pool.specs.Kept.{AreKept, ordered, view_names as names_of_view};

use crate::kept_names::{KeptNames, own_names};
use deriv_pattern::needed::common;
use deriv_states::around::Around;
use deriv_states::branch::{Branch, Row};
use deriv_states::states::States;
use nx_base::memory::NoMemory;
use nx_base::name::{Name, Names};
use nx_base::sequence::TryCopyAll;
use rng_core::grammar::Def;
use rng_live::shared_names::SharedNames;
use rng_live::sorting::sort_names;
use std::alloc::Global;

/// What is needed at a node up to an element of a name, or, without one, up to the end; none where nothing can be skipped so.
fn node_names(
    alloc: Global,
    states: &States,
    defs: &[Def],
    skip: Option<&Name>,
    p: usize,
) -> Result<Option<Names>, NoMemory>
    requires { p < length states.now.patterns }
    ensures { IfOk result (λ names. names ≡ names_of_view (map definition_of defs.now) (option_copied skip.entry) (at states.now.patterns p)) }
{
    match skip {
        Some(name) => states.front_names(alloc, defs, name, p),
        None => states.content_names(alloc, defs, p),
    }
}

/// A list of names in order and each once, or none.
#[tactic(auto, using(crate::proofs::Kept::ordered_is))]
fn in_order(alloc: Global, found: Option<Names>) -> Result<Option<SharedNames>, NoMemory>
    ensures { IfOk result (λ names. names ≡ ordered found) }
{
    match found {
        Some(names) => {
            let mut names = names.into_vec();
            sort_names(&mut names);
            let shared = SharedNames::of(alloc, Names::from_vec(names))?;
            Ok(Some(shared))
        }
        None => Ok(None),
    }
}

/// Those of the first that are in the second, too.
fn common_names(alloc: Global, names: &[Name], others: &[Name]) -> Result<SharedNames, NoMemory>
    ensures { IfOk result (λ found. found ≡ s.common names.now others.now) }
{
    let names = Names::from_vec(Name::copy_all(alloc, names)?);
    SharedNames::of(alloc, common(names, others))
}

/// What is needed either way, of lists in order; none where there is no way, in which case each name is.
fn either_names(
    alloc: Global,
    first: Option<SharedNames>,
    second: Option<SharedNames>,
) -> Result<Option<SharedNames>, NoMemory>
    ensures { IfOk result (λ names. names ≡ s.either_way first second) }
{
    match first {
        None => Ok(second),
        Some(names) => match second {
            None => Ok(Some(names)),
            Some(others) => {
                let found = common_names(alloc, names.as_slice(), others.as_slice())?;
                Ok(Some(found))
            }
        },
    }
}

/// The same, and it is kept from now on.
fn new_names(
    alloc: Global,
    states: &States,
    kept: &mut KeptNames,
    defs: &[Def],
    skip: Option<&Name>,
    p: usize,
) -> Result<Option<SharedNames>, NoMemory>
    requires node { p < length states.now.patterns }
    requires right { ∥ AreKept (map definition_of defs.now) states.now.patterns kept.old.entries.items ∥₁ }
    ensures right { ∥ AreKept (map definition_of defs.now) states.now.patterns kept.new.entries.items ∥₁ }
    ensures gives { IfOk result (λ names. names ≡ ordered (names_of_view (map definition_of defs.now) (option_copied skip.entry) (at states.now.patterns p))) }
{
    let found = node_names(alloc, states, defs, skip, p)?;
    let names = in_order(alloc, found)?;
    kept.keep(p, skip, &names)?;
    Ok(names)
}

/// The same, as it is kept, if it is.
fn view_names(
    alloc: Global,
    states: &States,
    kept: &mut KeptNames,
    defs: &[Def],
    skip: Option<&Name>,
    p: usize,
) -> Result<Option<SharedNames>, NoMemory>
    requires node { p < length states.now.patterns }
    requires right { ∥ AreKept (map definition_of defs.now) states.now.patterns kept.old.entries.items ∥₁ }
    ensures right { ∥ AreKept (map definition_of defs.now) states.now.patterns kept.new.entries.items ∥₁ }
    ensures gives { IfOk result (λ names. names ≡ ordered (names_of_view (map definition_of defs.now) (option_copied skip.entry) (at states.now.patterns p))) }
{
    match kept.of(p, skip) {
        Some(names) => own_names(names),
        None => new_names(alloc, states, kept, defs, skip, p),
    }
}

/// What is needed in the children that are left, as they stand and without blank strings. Mostly both are one node.
#[tactic(auto, using(crate::proofs::Kept::either_ordered, crate::proofs::Kept::ordered_itself))]
fn both_views(
    alloc: Global,
    states: &States,
    kept: &mut KeptNames,
    defs: &[Def],
    skip: Option<&Name>,
    strict: usize,
    loose: usize,
) -> Result<Option<SharedNames>, NoMemory>
    requires strict { strict < length states.now.patterns }
    requires loose { loose < length states.now.patterns }
    requires right { ∥ AreKept (map definition_of defs.now) states.now.patterns kept.old.entries.items ∥₁ }
    ensures right { ∥ AreKept (map definition_of defs.now) states.now.patterns kept.new.entries.items ∥₁ }
    ensures gives { IfOk result (λ names. names ≡ ordered (s.either_way
        (names_of_view (map definition_of defs.now) (option_copied skip.entry) (at states.now.patterns strict))
        (names_of_view (map definition_of defs.now) (option_copied skip.entry) (at states.now.patterns loose)))) }
{
    let first = view_names(alloc, states, kept, defs, skip, strict)?;
    if strict == loose {
        return Ok(first);
    }
    let second = view_names(alloc, states, kept, defs, skip, loose)?;
    either_names(alloc, first, second)
}

/// What is needed up to the end of the element that is open.
#[tactic(auto, using(crate::proofs::Kept::either_ordered))]
fn up_to_end(
    alloc: Global,
    states: &States,
    kept: &mut KeptNames,
    defs: &[Def],
    here: usize,
) -> Result<Option<SharedNames>, NoMemory>
    requires there { here < length states.now.outers }
    requires right { ∥ AreKept (map definition_of defs.now) states.now.patterns kept.old.entries.items ∥₁ }
    ensures right { ∥ AreKept (map definition_of defs.now) states.now.patterns kept.new.entries.items ∥₁ }
    ensures gives { IfOk result (λ names. names ≡ ordered (s.outer_names (map definition_of defs.now) None (outer_in states.now.outers here))) }
{
    match states.around(here) {
        Around::Document(_) => Ok(None),
        Around::Inside {
            strict,
            loose,
            void,
            outer: _,
        } => {
            if void {
                return Ok(Some(SharedNames::new(alloc)));
            }
            both_views(alloc, states, kept, defs, None, strict, loose)
        }
        Around::OneOf(this, other) => {
            let first = up_to_end(alloc, states, kept, defs, this)?;
            let second = up_to_end(alloc, states, kept, defs, other)?;
            either_names(alloc, first, second)
        }
    }
}

/// What is needed up to an element of the name among the children of what is open.
#[tactic(auto, using(crate::proofs::Kept::either_ordered))]
fn up_to_element(
    alloc: Global,
    states: &States,
    kept: &mut KeptNames,
    defs: &[Def],
    name: &Name,
    here: usize,
) -> Result<Option<SharedNames>, NoMemory>
    requires there { here < length states.now.outers }
    requires right { ∥ AreKept (map definition_of defs.now) states.now.patterns kept.old.entries.items ∥₁ }
    ensures right { ∥ AreKept (map definition_of defs.now) states.now.patterns kept.new.entries.items ∥₁ }
    ensures gives { IfOk result (λ names. names ≡ ordered (s.outer_names (map definition_of defs.now) (Some name.now) (outer_in states.now.outers here))) }
{
    match states.around(here) {
        Around::Document(rest) => view_names(alloc, states, kept, defs, Some(name), rest),
        Around::Inside {
            strict,
            loose,
            void: _,
            outer: _,
        } => both_views(alloc, states, kept, defs, Some(name), strict, loose),
        Around::OneOf(this, other) => {
            let first = up_to_element(alloc, states, kept, defs, name, this)?;
            let second = up_to_element(alloc, states, kept, defs, name, other)?;
            either_names(alloc, first, second)
        }
    }
}

/// What one way needs; none where it can't go on so.
fn way_skips(
    alloc: Global,
    states: &States,
    kept: &mut KeptNames,
    defs: &[Def],
    skip: Option<&Name>,
    one: Branch,
) -> Result<Option<SharedNames>, NoMemory>
    requires there { IsThere states.now one }
    requires right { ∥ AreKept (map definition_of defs.now) states.now.patterns kept.old.entries.items ∥₁ }
    ensures right { ∥ AreKept (map definition_of defs.now) states.now.patterns kept.new.entries.items ∥₁ }
    ensures gives { IfOk result (λ names. names ≡ ordered (s.way_skips (map definition_of defs.now) (option_copied skip.entry) (way_in states.now one))) }
{
    match one {
        Branch::Among(here) => match skip {
            Some(name) => up_to_element(alloc, states, kept, defs, name, here),
            None => up_to_end(alloc, states, kept, defs, here),
        },
        Branch::InTag(_, _) => Ok(None),
    }
}

/// What each way of a state needs that can go on so, in order and each once; none where none can.
#[tactic(auto, using(crate::proofs::Kept::either_ordered))]
fn skip_names(
    alloc: Global,
    states: &States,
    kept: &mut KeptNames,
    defs: &[Def],
    skip: Option<&Name>,
    state: usize,
) -> Result<Option<SharedNames>, NoMemory>
    requires state { state < length states.now.states }
    requires right { ∥ AreKept (map definition_of defs.now) states.now.patterns kept.old.entries.items ∥₁ }
    ensures right { ∥ AreKept (map definition_of defs.now) states.now.patterns kept.new.entries.items ∥₁ }
    ensures gives { IfOk result (λ names. names ≡ ordered (s.skip_names (map definition_of defs.now) (option_copied skip.entry) (state_in states.now.states state))) }
{
    match states.row(state) {
        Row::End => Ok(None),
        Row::Way(one, more) => {
            let first = way_skips(alloc, states, kept, defs, skip, one)?;
            let others = skip_names(alloc, states, kept, defs, skip, more)?;
            either_names(alloc, first, others)
        }
    }
}

/// The names, or no name where there is no list.
fn or_no_names(alloc: Global, found: Option<SharedNames>) -> SharedNames
    ensures { result ≡ s.or_none found }
{
    match found {
        Some(names) => names,
        None => SharedNames::new(alloc),
    }
}

/// The names that are needed, in order and each once; none where nothing can be skipped.
#[tactic(auto, using(crate::proofs::Kept::found_sorts))]
pub(crate) fn needed_names(
    alloc: Global,
    states: &States,
    kept: &mut KeptNames,
    defs: &[Def],
    skip: Option<&Name>,
    state: usize,
) -> Result<SharedNames, NoMemory>
    requires state { state < length states.now.states }
    requires right { ∥ AreKept (map definition_of defs.now) states.now.patterns kept.old.entries.items ∥₁ }
    ensures right { ∥ AreKept (map definition_of defs.now) states.now.patterns kept.new.entries.items ∥₁ }
    ensures gives { IfOk result (SortsOnce name_order (s.needed (map definition_of defs.now) (option_copied skip.entry) (state_in states.now.states state))) }
{
    let found = skip_names(alloc, states, kept, defs, skip, state)?;
    Ok(or_no_names(alloc, found))
}
