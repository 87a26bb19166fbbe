//! Some name of a class.
//!
//! What is tried has a name exactly where the class has one: the names that the class mentions; in each namespace that it mentions
//! a local part that it doesn't mention; and a name in a namespace that it doesn't mention. Names that it mentions outside of
//! excepts come first, and the letter `a` before anything longer, since that is what somebody would write.
//!
//! Each name that is tried takes a look at the whole class. So each part of a choice is first asked by itself for a name that it
//! doesn't mention (`simple_name`), and the class for that one alone: classes of schemas that have a name have one of these, and
//! thousands of names in an except are read a few times, not thousands of times.
//!
//! Choices nest to the left, so the walks here go down their left side in a loop, as those of rng_core do.

ghost use Rattle.std.specs.Prelude.{◌≡◌, ◌+◌, None, true, false, replicate, IfOk, option_copied};
ghost use Rattle.rng_core.specs.Meaning.{class_of};
ghost use Rattle.rng_core.specs.declared.name_class.Bearer.TheVariants.{Element, Attribute};
ghost use Rattle.rng_fill.specs.Strings.{has_name_as, IsNameAnswer};
ghost use Rattle.rng_fill.specs.ClassNames.{longest as longest_in, HasNoneOf, HasNoneWith, IsNameElse};

use crate::leaf::letters;
use nx_base::memory::NoMemory;
use nx_base::name::Name;
use nx_base::sequence::{Bytes, TryCopy};
use rng_core::name_class::{Bearer, NameClass};
use std::alloc::Global;

/// Whether a class has the name as one of an element, or of an attribute.
fn has_as(bearer: Bearer, class: &NameClass, name: &Name) -> bool
    ensures { result ≡ has_name_as bearer (class_of class.now) name.now }
{
    match bearer {
        Bearer::Element => class.has(name),
        Bearer::Attribute => class.has_attribute(name),
    }
}

/// The name, if the class has it.
fn if_had<'a>(bearer: Bearer, class: &NameClass, name: &'a Name) -> Option<&'a Name>
    ensures { IsNameElse (has_name_as bearer (class_of class.now) name.now ≡ false) bearer (class_of class.now) (option_copied result) }
{
    if has_as(bearer, class, name) {
        Some(name)
    } else {
        None
    }
}

/// A name that a part of a class mentions and the class has; those that stand in excepts are looked at where that is asked for.
fn mentioned_name<'a>(
    bearer: Bearer,
    class: &NameClass,
    part: &'a NameClass,
    excepts: bool,
) -> Option<&'a Name>
    ensures { IsNameElse (excepts ≡ true → HasNoneOf bearer (class_of class.now) (class_of part.now)) bearer (class_of class.now)
        (option_copied result) }
{
    let mut left = part;
    loop {
        match left {
            NameClass::AnyName => return None,
            NameClass::NsName(_) => return None,
            NameClass::Name(name) => return if_had(bearer, class, name),
            NameClass::Except(all, taken) => {
                if excepts {
                    if let Some(name) = mentioned_name(bearer, class, taken, excepts) {
                        return Some(name);
                    }
                }
                left = all;
            }
            NameClass::Choice(front, last) => {
                if let Some(name) = mentioned_name(bearer, class, last, excepts) {
                    return Some(name);
                }
                left = front;
            }
        }
    }
}

/// The part of a class that is written first.
fn first_part(class: &NameClass) -> &NameClass {
    let mut left = class;
    loop {
        match left {
            NameClass::Choice(front, _) => left = front,
            NameClass::AnyName => return left,
            NameClass::NsName(_) => return left,
            NameClass::Name(_) => return left,
            NameClass::Except(_, _) => return left,
        }
    }
}

/// How long the longest namespace or local part is that a class mentions, in bytes.
fn longest(class: &NameClass) -> usize
    ensures { result ≡ longest_in (class_of class.now) }
{
    let mut left = class;
    let mut most: usize = 0;
    loop {
        match left {
            NameClass::AnyName => return most,
            NameClass::NsName(ns) => return most.max(ns.len()),
            NameClass::Name(name) => return most.max(name.ns.len().max(name.local.len())),
            NameClass::Except(all, taken) => {
                most = most.max(longest(taken));
                left = all;
            }
            NameClass::Choice(front, last) => {
                most = most.max(longest(last));
                left = front;
            }
        }
    }
}

/// One letter `a` more than any text has that the class mentions.
fn longer(alloc: Global, class: &NameClass) -> Result<Bytes, NoMemory>
    ensures { IfOk result (λ text. text ≡ replicate (longest_in (class_of class.now) + 1) 97) }
{
    let Some(count) = longest(class).checked_add(1) else {
        return Err(NoMemory);
    };
    let text = letters(alloc, count)?;
    Ok(text)
}

/// The name of these two parts, if the class has it.
#[inline(never)]
fn tried(
    alloc: Global,
    bearer: Bearer,
    class: &NameClass,
    ns: &[u8],
    local: &[u8],
) -> Result<Option<Name>, NoMemory>
    ensures { IfOk result (IsNameElse
        (has_name_as bearer (class_of class.now) (record { ns = ns.now; local = local.now }) ≡ false) bearer (class_of class.now)) }
{
    let name = Name {
        ns: Bytes::from_vec(Vec::from_slice(alloc, ns)?),
        local: Bytes::from_vec(Vec::from_slice(alloc, local)?),
    };
    if has_as(bearer, class, &name) {
        return Ok(Some(name));
    }
    Ok(None)
}

/// A name with this local part, in a namespace that a part of the class mentions.
fn in_mentioned(
    alloc: Global,
    bearer: Bearer,
    class: &NameClass,
    part: &NameClass,
    local: &[u8],
) -> Result<Option<Name>, NoMemory>
    ensures { IfOk result (IsNameElse (HasNoneWith bearer (class_of class.now) local.now (class_of part.now)) bearer (class_of class.now)) }
{
    let mut left = part;
    loop {
        match left {
            NameClass::AnyName => return Ok(None),
            NameClass::NsName(ns) => return tried(alloc, bearer, class, ns.as_slice(), local),
            NameClass::Name(name) => {
                return tried(alloc, bearer, class, name.ns.as_slice(), local);
            }
            NameClass::Except(all, taken) => {
                if let Some(name) = in_mentioned(alloc, bearer, class, taken, local)? {
                    return Ok(Some(name));
                }
                left = all;
            }
            NameClass::Choice(front, last) => {
                if let Some(name) = in_mentioned(alloc, bearer, class, last, local)? {
                    return Ok(Some(name));
                }
                left = front;
            }
        }
    }
}

/// A name with this local part, in no namespace or in one that the class mentions.
fn with_local(
    alloc: Global,
    bearer: Bearer,
    class: &NameClass,
    local: &[u8],
) -> Result<Option<Name>, NoMemory>
    ensures { IfOk result (IsNameElse (HasNoneWith bearer (class_of class.now) local.now (class_of class.now)) bearer (class_of class.now)) }
{
    if let Some(name) = tried(alloc, bearer, class, b"", local)? {
        return Ok(Some(name));
    }
    in_mentioned(alloc, bearer, class, class, local)
}

/// A name that the class doesn't mention.
fn unmentioned_name(
    alloc: Global,
    bearer: Bearer,
    class: &NameClass,
) -> Result<Option<Name>, NoMemory>
    ensures { IfOk result (IsNameElse
        (HasNoneOf bearer (class_of class.now) (class_of class.now) → IsNameAnswer bearer (class_of class.now) None)
        bearer (class_of class.now)) }
{
    let short = letters(alloc, 1)?;
    if let Some(name) = with_local(alloc, bearer, class, short.as_slice())? {
        return Ok(Some(name));
    }
    let long = longer(alloc, class)?;
    if let Some(name) = with_local(alloc, bearer, class, long.as_slice())? {
        return Ok(Some(name));
    }
    let found = tried(alloc, bearer, class, long.as_slice(), short.as_slice())?;
    Ok(found)
}

/// The namespace in which a part of a class has names that is no choice; no namespace, where it has them in any.
fn namespace_of(part: &NameClass) -> &[u8] {
    let mut left = part;
    loop {
        match left {
            NameClass::AnyName => return b"",
            NameClass::NsName(ns) => return ns.as_slice(),
            NameClass::Name(name) => return name.ns.as_slice(),
            NameClass::Except(all, _) => left = all,
            NameClass::Choice(_, _) => return b"",
        }
    }
}

/// The name with this local part in the namespace of a part of the class, if both have it.
#[inline(never)]
fn tried_alone(
    alloc: Global,
    bearer: Bearer,
    class: &NameClass,
    part: &NameClass,
    local: &[u8],
) -> Result<Option<Name>, NoMemory>
    ensures { IfOk result (IsNameElse (Unit {0}) bearer (class_of class.now)) }
{
    let Some(name) = tried(alloc, bearer, part, namespace_of(part), local)? else {
        return Ok(None);
    };
    if has_as(bearer, class, &name) {
        return Ok(Some(name));
    }
    Ok(None)
}

/// A name with this local part that a part of the class has which isn't a choice, nor a name alone. Each such part is asked by itself.
fn in_some_part(
    alloc: Global,
    bearer: Bearer,
    class: &NameClass,
    part: &NameClass,
    local: &[u8],
) -> Result<Option<Name>, NoMemory>
    ensures { IfOk result (IsNameElse (Unit {0}) bearer (class_of class.now)) }
{
    let mut left = part;
    loop {
        match left {
            NameClass::Name(_) => return Ok(None),
            NameClass::AnyName => return tried_alone(alloc, bearer, class, left, local),
            NameClass::NsName(_) => return tried_alone(alloc, bearer, class, left, local),
            NameClass::Except(_, _) => return tried_alone(alloc, bearer, class, left, local),
            NameClass::Choice(front, last) => {
                if let Some(name) = in_some_part(alloc, bearer, class, last, local)? {
                    return Ok(Some(name));
                }
                left = front;
            }
        }
    }
}

/// A name with this local part, in no namespace or in that of a part of the class.
fn simple_name_with(
    alloc: Global,
    bearer: Bearer,
    class: &NameClass,
    local: &[u8],
) -> Result<Option<Name>, NoMemory>
    ensures { IfOk result (IsNameElse (Unit {0}) bearer (class_of class.now)) }
{
    if let Some(name) = tried(alloc, bearer, class, b"", local)? {
        return Ok(Some(name));
    }
    in_some_part(alloc, bearer, class, class, local)
}

/// A name that the class doesn't mention, found by asking each part of a choice by itself.
fn simple_name(alloc: Global, bearer: Bearer, class: &NameClass) -> Result<Option<Name>, NoMemory>
    ensures { IfOk result (IsNameElse (Unit {0}) bearer (class_of class.now)) }
{
    let short = letters(alloc, 1)?;
    if let Some(name) = simple_name_with(alloc, bearer, class, short.as_slice())? {
        return Ok(Some(name));
    }
    let long = longer(alloc, class)?;
    if let Some(name) = simple_name_with(alloc, bearer, class, long.as_slice())? {
        return Ok(Some(name));
    }
    let found = tried(alloc, bearer, class, long.as_slice(), short.as_slice())?;
    Ok(found)
}

/// A name of a class that an element, or an attribute, can have.
fn some_name(alloc: Global, bearer: Bearer, class: &NameClass) -> Result<Option<Name>, NoMemory>
    ensures { IfOk result (IsNameAnswer bearer (class_of class.now)) }
{
    if let Some(name) = mentioned_name(bearer, class, first_part(class), false) {
        return Ok(Some(name.copy()?));
    }
    if let Some(name) = mentioned_name(bearer, class, class, false) {
        return Ok(Some(name.copy()?));
    }
    if let Some(name) = simple_name(alloc, bearer, class)? {
        return Ok(Some(name));
    }
    if let Some(name) = unmentioned_name(alloc, bearer, class)? {
        return Ok(Some(name));
    }
    match mentioned_name(bearer, class, class, true) {
        Some(name) => Ok(Some(name.copy()?)),
        None => Ok(None),
    }
}

/// A name of the class that an element can have; none exactly where there is none. Of the names that the class mentions one
/// comes first, and of others `a`.
pub fn element_name(alloc: Global, class: &NameClass) -> Result<Option<Name>, NoMemory>
    ensures { IfOk result (IsNameAnswer Element (class_of class.now)) }
{
    some_name(alloc, Bearer::Element, class)
}

/// A name of the class that an attribute can have; none exactly where there is none. Of the names that the class mentions one
/// comes first, and of others `a`.
pub fn attribute_name(alloc: Global, class: &NameClass) -> Result<Option<Name>, NoMemory>
    ensures { IfOk result (IsNameAnswer Attribute (class_of class.now)) }
{
    some_name(alloc, Bearer::Attribute, class)
}
