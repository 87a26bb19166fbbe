//! Elements that a pattern needs where content is skipped.

ghost use Rattle.std.specs.Prelude.{◌≡◌, ◌++◌, ◌∷◌, [], ◌↔◌, List, Option, Some, IfOk, IsTrue, if◌then◌else◌, map, option_map, slice_get};
ghost use Rattle.std.specs.List.{filter};
ghost use Rattle.nx_base.specs.declared.name.Name.{Name as TheName};
ghost use Rattle.nx_base.specs.Names.{is_xml_name as is_name_of_xml, same_name as same_name_as};
ghost use Rattle.rng_core.specs.Meaning.{class_of, definition_of, pattern_of};
ghost use Rattle.rng_core.specs.Names.{any_name, the_name, without, Overlap};
ghost use Rattle.rng_kept.specs.Needed as s;

use crate::required::add_mentioned;
use crate::small::is_not_allowed;
use nx_base::memory::NoMemory;
use nx_base::name::{Name, Names};
use nx_base::sequence::TryCopy;
use rng_core::grammar::{Def, Pat};
use rng_core::name_class::{Bearer, NameClass, is_xml_name};
use std::alloc::Global;

// ---- lists of names

/// Whether the two are one.
pub fn same_name(a: &Name, b: &Name) -> bool
    ensures { result ≡ same_name_as a.now b.now }
{
    a.ns.as_slice() == b.ns.as_slice() && a.local.as_slice() == b.local.as_slice()
}

/// Whether a name is one of these.
fn is_in(name: &Name, names: &[Name]) -> bool
    ensures { result ≡ s.is_in name.now names.now }
{
    names.iter().any(|other| same_name(name, other))
}

/// Those of the first that are in the second, too.
pub fn common(names: Names, others: &[Name]) -> Names
    ensures { result ≡ s.common names others.now }
{
    let mut kept = names.into_vec();
    kept.retain(|name| is_in(name, others));
    Names::from_vec(kept)
}

/// What is needed either way; none where there is no way, in which case each name is.
pub fn either_way(first: Option<Names>, second: Option<Names>) -> Option<Names>
    ensures { result ≡ s.either_way first second }
{
    match first {
        None => second,
        Some(names) => match second {
            None => Some(names),
            Some(others) => Some(common(names, others.as_slice())),
        },
    }
}

/// What is needed either way, of two walks that may have wanted memory. It isn't inlined into the walks, whose frames are then small.
#[inline(never)]
pub fn either_found(
    first: Result<Option<Names>, NoMemory>,
    second: Result<Option<Names>, NoMemory>,
) -> Result<Option<Names>, NoMemory>
    ensures { (x y : Option (List TheName)) → IfOk first (λ names. names ≡ x) → IfOk second (λ names. names ≡ y)
        → IfOk result (λ names. names ≡ s.either_way x y) }
{
    let first = first?;
    let second = second?;
    Ok(either_way(first, second))
}

/// Whether nothing is needed one way, so that nothing is needed by either.
pub fn is_nothing(names: &Option<Names>) -> bool
    ensures { IsTrue result → names.now ≡ Some [] }
{
    match names {
        Some(names) => names.is_empty(),
        None => false,
    }
}

/// The names with those of another list behind them.
pub fn joined(names: Names, more: Names) -> Result<Names, NoMemory>
    ensures { IfOk result (λ all. all ≡ names ++ more) }
{
    let mut all = names;
    all.append(more)?;
    Ok(all)
}

// ---- classes of one name

/// Whether the class has another name than this one.
fn has_others(alloc: Global, class: &NameClass, name: &Name) -> Result<bool, NoMemory>
    ensures { IfOk result (λ found. IsTrue found ↔ Overlap (without (class_of class.now) (the_name name.now)) any_name) }
{
    let class = Box::new(alloc, class.copy(alloc)?)?;
    let name = Box::new(alloc, NameClass::Name(name.copy()?))?;
    let others = NameClass::Except(class, name);
    Ok(others.overlaps(alloc, &NameClass::AnyName, Bearer::Element))
}

/// Whether the class has the name, and no other one.
#[tactic(auto, using(crate::proofs::Sole::sole_told))]
fn is_sole(alloc: Global, class: &NameClass, name: &Name) -> Result<bool, NoMemory>
    ensures { IfOk result (λ sole. sole ≡ s.is_sole (class_of class.now) name.now) }
{
    if !class.has(name) {
        return Ok(false);
    }
    let others = has_others(alloc, class, name)?;
    Ok(!others)
}

/// Those of the names that the class has alone.
fn sole_among(alloc: Global, class: &NameClass, names: &[Name]) -> Result<Names, NoMemory>
    ensures { IfOk result (λ found. found ≡ filter (s.is_sole (class_of class.now)) names.now) }
{
    let mut found = Names::new(alloc);
    let mut left = names;
    while let Some((name, rest)) = left.split_first() {
        if is_sole(alloc, class, name)? {
            found.push(name.copy()?)?;
        }
        left = rest;
    }
    Ok(found)
}

/// Those of the names that a class mentions which it has alone.
fn sole_mentioned(alloc: Global, class: &NameClass) -> Result<Names, NoMemory>
    ensures { IfOk result (λ found. found ≡ filter (s.is_sole (class_of class.now)) (s.class_names (class_of class.now))) }
{
    let mut mentioned = Names::new(alloc);
    add_mentioned(&mut mentioned, class)?;
    let found = sole_among(alloc, class, mentioned.as_slice())?;
    Ok(found)
}

/// A name, if a document can have it.
fn name_alone(alloc: Global, name: &Name) -> Result<Names, NoMemory>
    ensures { IfOk result (λ names. names ≡ if is_name_of_xml name.now then name.now ∷ [] else []) }
{
    let mut names = Names::new(alloc);
    if is_xml_name(name) {
        names.push(name.copy()?)?;
    }
    Ok(names)
}

/// The name of a class that has one alone.
pub fn sole_names(alloc: Global, class: &NameClass) -> Result<Names, NoMemory>
    ensures { IfOk result (λ names. names ≡ s.sole_names (class_of class.now)) }
{
    match class {
        NameClass::Name(name) => name_alone(alloc, name),
        NameClass::AnyName => sole_mentioned(alloc, class),
        NameClass::NsName(_) => sole_mentioned(alloc, class),
        NameClass::Choice(_, _) => sole_mentioned(alloc, class),
        NameClass::Except(_, _) => sole_mentioned(alloc, class),
    }
}

// ---- patterns

/// The name of a definition's elements, if they have one alone.
pub fn defined_names(alloc: Global, defs: &[Def], number: u32) -> Result<Names, NoMemory>
    ensures { IfOk result (λ names. names ≡ s.defined_names (slice_get (map definition_of defs.now) number)) }
{
    match defs.get(number as usize) {
        Some(def) => sole_names(alloc, &def.class),
        None => Ok(Names::new(alloc)),
    }
}

/// The names of which all children that a pattern matches have an element, in no order, some perhaps twice. Where one side of a choice
/// needs nothing the other isn't looked at.
#[tactic(auto, using(crate::proofs::Sole::nothing_common))]
pub fn child_names(alloc: Global, defs: &[Def], p: &Pat) -> Result<Names, NoMemory>
    ensures { IfOk result (λ names. names ≡ s.child_names (map definition_of defs.now) (pattern_of p.now)) }
{
    match p {
        Pat::NotAllowed => Ok(Names::new(alloc)),
        Pat::Empty => Ok(Names::new(alloc)),
        Pat::Text => Ok(Names::new(alloc)),
        Pat::Typed(_, _) => Ok(Names::new(alloc)),
        Pat::Value(_, _) => Ok(Names::new(alloc)),
        Pat::List(_) => Ok(Names::new(alloc)),
        Pat::Attribute(_, _) => Ok(Names::new(alloc)),
        Pat::Ref(number) => defined_names(alloc, defs, *number),
        Pat::OneOrMore(body) => child_names(alloc, defs, body),
        Pat::Choice(a, b) => {
            let names = child_names(alloc, defs, a)?;
            if names.is_empty() {
                return Ok(names);
            }
            let others = child_names(alloc, defs, b)?;
            Ok(common(names, others.as_slice()))
        }
        Pat::Group(a, b) => {
            let first = child_names(alloc, defs, a)?;
            let second = child_names(alloc, defs, b)?;
            joined(first, second)
        }
        Pat::Interleave(a, b) => {
            let one = child_names(alloc, defs, a)?;
            let other = child_names(alloc, defs, b)?;
            joined(one, other)
        }
    }
}

/// What is needed in front of an element of a definition: nothing, where it can have the name.
pub fn in_front(alloc: Global, defs: &[Def], name: &Name, number: u32) -> Option<Names>
    ensures { result ≡ s.in_front (slice_get (map definition_of defs.now) number) name.now }
{
    match defs.get(number as usize) {
        Some(def) => {
            if def.class.has(name) {
                Some(Names::new(alloc))
            } else {
                None
            }
        }
        None => None,
    }
}

/// What is needed in front of an element behind children that this pattern matches.
fn behind(
    alloc: Global,
    defs: &[Def],
    p: &Pat,
    names: Option<Names>,
) -> Result<Option<Names>, NoMemory>
    ensures { IfOk result (λ found. found
        ≡ option_map (λ more. s.child_names (map definition_of defs.now) (pattern_of p.now) ++ more) names) }
{
    match names {
        Some(more) => {
            let front = child_names(alloc, defs, p)?;
            let all = joined(front, more)?;
            Ok(Some(all))
        }
        None => Ok(None),
    }
}

/// What is needed in front of an element of a group, by what is needed in its parts: the first, and one behind it.
#[tactic(auto, using(crate::proofs::Sole::nothing_either))]
#[inline(never)]
fn one_behind(
    alloc: Global,
    defs: &[Def],
    p: &Pat,
    first: Result<Option<Names>, NoMemory>,
    second: Result<Option<Names>, NoMemory>,
) -> Result<Option<Names>, NoMemory>
    ensures { (x y : Option (List TheName)) → IfOk first (λ names. names ≡ x) → IfOk second (λ names. names ≡ y)
        → IfOk result (λ names. names ≡ s.either_way x (option_map (λ more. s.child_names (map definition_of defs.now) (pattern_of p.now) ++ more) y)) }
{
    let first = first?;
    if is_nothing(&first) {
        return Ok(first);
    }
    let second = behind(alloc, defs, p, second?)?;
    Ok(either_way(first, second))
}

/// The names of which such children have an element in front of each element of this name, in no order, some perhaps twice; none
/// where no element of them can have the name.
pub fn front_names(
    alloc: Global,
    defs: &[Def],
    name: &Name,
    p: &Pat,
) -> Result<Option<Names>, NoMemory>
    ensures { IfOk result (λ names. names ≡ s.front_names (map definition_of defs.now) name.now (pattern_of p.now)) }
{
    match p {
        Pat::NotAllowed => Ok(None),
        Pat::Empty => Ok(None),
        Pat::Text => Ok(None),
        Pat::Typed(_, _) => Ok(None),
        Pat::Value(_, _) => Ok(None),
        Pat::List(_) => Ok(None),
        Pat::Attribute(_, _) => Ok(None),
        Pat::Ref(number) => Ok(in_front(alloc, defs, name, *number)),
        Pat::OneOrMore(body) => front_names(alloc, defs, name, body),
        Pat::Choice(a, b) => either_found(
            front_names(alloc, defs, name, a),
            front_names(alloc, defs, name, b),
        ),
        Pat::Group(a, b) => one_behind(
            alloc,
            defs,
            a,
            front_names(alloc, defs, name, a),
            front_names(alloc, defs, name, b),
        ),
        Pat::Interleave(a, b) => either_found(
            front_names(alloc, defs, name, a),
            front_names(alloc, defs, name, b),
        ),
    }
}

/// What all content needs that a pattern matches; none where it matches none.
pub fn content_names(alloc: Global, defs: &[Def], p: &Pat) -> Result<Option<Names>, NoMemory>
    ensures { IfOk result (λ names. names ≡ s.content_names (map definition_of defs.now) (pattern_of p.now)) }
{
    if is_not_allowed(p) {
        return Ok(None);
    }
    let names = child_names(alloc, defs, p)?;
    Ok(Some(names))
}
