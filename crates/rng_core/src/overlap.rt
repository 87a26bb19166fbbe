//! Whether two name classes share a name.
//!
//! Choices are taken apart, and the single names of the second class are sorted, so that two choices of n and m names
//! cost n + m look-ups. Where there is no memory for that, each name is compared with each. Only where both sides are
//! wildcards are their excepts searched.

ghost use Rattle.std.specs.Prelude.{◌≡◌, ◌||◌, ◌↔◌, [], IsTrue, IsOk, IfOk, IfSome};
ghost use Rattle.nx_base.specs.declared.name.Name.{Name};
ghost use Rattle.rng_core.specs.Names.{Overlap, covers, has_name};
ghost use Rattle.rng_core.specs.SortedClasses.{covers_sorted};
ghost use Rattle.rng_core.specs.Meaning.{class_of};
ghost use Rattle.rng_core.specs.declared.name_class.Bearer.TheVariants.{Attribute};
ghost use Rattle.rng_core.specs.Unmentioned.{OverlapAs, covers_others_in, covers_others};
ghost use Rattle.rng_core.specs.Unmentioned.{share_others_in as share_others_of, meets_as, overlaps as overlaps_of};
ghost use Rattle.rng_core.specs.Unmentioned.{meets_part, borne, tries, parts_meet};

use crate::name_class::{Bearer, NameClass, is_namespace};
use crate::sorted_class::SortedClass;
use nx_base::memory::NoMemory;
use nx_base::name::Name;
use std::alloc::Global;

impl NameClass {
    /// Whether the class covers the names of a namespace that aren't mentioned in it.
    fn covers_others_in(&self, ns: &[u8]) -> bool
        ensures { result ≡ covers_others_in (class_of self.now) ns.now }
    {
        let mut class = self;
        loop {
            match class {
                NameClass::AnyName => return true,
                NameClass::NsName(of) => return ns == of.as_slice(),
                NameClass::Name(_) => return false,
                NameClass::Except(all, taken) => {
                    return all.covers_others_in(ns) && !taken.covers_others_in(ns);
                }
                NameClass::Choice(front, last) => {
                    if last.covers_others_in(ns) {
                        return true;
                    }
                    class = front;
                }
            }
        }
    }

    /// Whether the class covers the names of the namespaces that aren't mentioned in it.
    fn covers_others(&self) -> bool
        ensures { result ≡ covers_others (class_of self.now) }
    {
        let mut class = self;
        loop {
            match class {
                NameClass::AnyName => return true,
                NameClass::NsName(_) => return false,
                NameClass::Name(_) => return false,
                NameClass::Except(all, taken) => return all.covers_others()
                    && !taken.covers_others(),
                NameClass::Choice(front, last) => {
                    if last.covers_others() {
                        return true;
                    }
                    class = front;
                }
            }
        }
    }
}

/// Whether two classes share the names of a namespace that neither mentions.
fn share_others_in(ns: &[u8], a: &NameClass, b: &NameClass) -> bool
    ensures { result ≡ share_others_of (class_of a.now) (class_of b.now) ns.now }
{
    is_namespace(ns) && a.covers_others_in(ns) && b.covers_others_in(ns)
}

/// Whether two classes share a name that is mentioned in a third, or other names of a namespace that is mentioned
/// there.
fn meet_at(bearer: Bearer, mentioned: &NameClass, a: &NameClass, b: &NameClass) -> bool
    ensures { result ≡ meets_as bearer (class_of mentioned.now) (class_of a.now) (class_of b.now) }
{
    let mut left = mentioned;
    loop {
        match left {
            NameClass::AnyName => return false,
            NameClass::NsName(ns) => return share_others_in(ns.as_slice(), a, b),
            NameClass::Name(name) => {
                return (a.has_as(bearer, name) && b.has(name))
                    || share_others_in(name.ns.as_slice(), a, b);
            }
            NameClass::Except(all, taken) => {
                return meet_at(bearer, all, a, b) || meet_at(bearer, taken, a, b);
            }
            NameClass::Choice(front, last) => {
                if meet_at(bearer, last, a, b) {
                    return true;
                }
                left = front;
            }
        }
    }
}

/// Whether two classes share one of those that the two mention, or other names that both cover.
fn share_tried(bearer: Bearer, a: &NameClass, b: &NameClass) -> bool
    ensures { result ≡ tries bearer (class_of a.now) (class_of b.now) }
{
    let others = a.covers_others() && b.covers_others();
    others || meet_at(bearer, a, a, b) || meet_at(bearer, b, a, b)
}

/// The same of names of attributes. Those of no namespace are tried, too, since `xmlns` is none of them.
fn share_attributes(a: &NameClass, b: &NameClass) -> bool
    ensures { result ≡ (tries Attribute (class_of a.now) (class_of b.now) || share_others_of (class_of a.now) (class_of b.now) []) }
{
    share_tried(Bearer::Attribute, a, b) || share_others_in(b"", a, b)
}

/// Whether two classes share a name. Those that are tried suffice: the names that one of them mentions, the other names of
/// the namespaces that one mentions, and the names of all other namespaces.
fn share_mentioned(bearer: Bearer, a: &NameClass, b: &NameClass) -> bool
    ensures { result ≡ overlaps_of (borne bearer (class_of a.now)) (class_of b.now) }
{
    match bearer {
        Bearer::Element => share_tried(Bearer::Element, a, b),
        Bearer::Attribute => share_attributes(a, b),
    }
}

/// Whether a wildcard shares a name with another class.
fn wildcard_overlaps(bearer: Bearer, wildcard: &NameClass, other: &NameClass) -> bool
    ensures { result ≡ meets_part (borne bearer (class_of wildcard.now)) (class_of other.now) }
{
    let mut left = other;
    loop {
        match left {
            NameClass::AnyName => return share_mentioned(bearer, wildcard, left),
            NameClass::NsName(_) => return share_mentioned(bearer, wildcard, left),
            NameClass::Except(_, _) => return share_mentioned(bearer, wildcard, left),
            NameClass::Name(name) => return wildcard.has_as(bearer, name),
            NameClass::Choice(front, last) => {
                if wildcard_overlaps(bearer, wildcard, last) {
                    return true;
                }
                left = front;
            }
        }
    }
}

/// Whether a class has the name as one of an element, or of an attribute: told by the class sorted, if there is that.
fn has_sorted<'a>(
    bearer: Bearer,
    class: &NameClass,
    sorted: Option<&SortedClass<'a>>,
    name: &'a Name,
) -> bool
    requires { IfSome sorted (λ s. (n : Name) → covers_sorted s.now n ≡ covers (class_of class.now) n) }
    ensures { result ≡ has_name (borne bearer (class_of class.now)) name.now }
{
    match sorted {
        Some(sorted) => sorted.has_as(bearer, name),
        None => class.has_as(bearer, name),
    }
}

/// Whether some name of an element, or of an attribute, is in both classes.
fn overlaps<'a>(
    bearer: Bearer,
    a: &'a NameClass,
    b: &NameClass,
    sorted: Option<&SortedClass<'a>>,
) -> bool
    requires { IfSome sorted (λ s. (n : Name) → covers_sorted s.now n ≡ covers (class_of b.now) n) }
    ensures { result ≡ parts_meet bearer (class_of a.now) (class_of b.now) }
{
    let mut left = a;
    loop {
        match left {
            NameClass::AnyName => return wildcard_overlaps(bearer, left, b),
            NameClass::NsName(_) => return wildcard_overlaps(bearer, left, b),
            NameClass::Except(_, _) => return wildcard_overlaps(bearer, left, b),
            NameClass::Name(name) => return has_sorted(bearer, b, sorted, name),
            NameClass::Choice(front, last) => {
                if overlaps(bearer, last, b, sorted) {
                    return true;
                }
                left = front;
            }
        }
    }
}

/// The same with the second class sorted, where there is memory for that.
fn overlaps_sorted<'a>(alloc: Global, bearer: Bearer, a: &'a NameClass, b: &'a NameClass) -> bool
    ensures { result ≡ parts_meet bearer (class_of a.now) (class_of b.now) }
{
    match SortedClass::sorted(alloc, b) {
        Ok(sorted) => overlaps(bearer, a, b, Some(&sorted)),
        Err(_) => overlaps(bearer, a, b, None),
    }
}

impl NameClass {
    /// Whether some name that an element, or an attribute, can have is in both classes.
    pub fn overlaps(&self, alloc: Global, other: &NameClass, bearer: Bearer) -> bool
        ensures { IsTrue result ↔ OverlapAs bearer (class_of self.now) (class_of other.now) }
    {
        match (self, other) {
            (NameClass::Choice(_, _), NameClass::Choice(_, _)) => {
                overlaps_sorted(alloc, bearer, self, other)
            }
            _ => overlaps(bearer, self, other, None),
        }
    }
}

/// Whether some name is in both classes. It never fails.
pub fn overlap(alloc: Global, a: &NameClass, b: &NameClass) -> Result<bool, NoMemory>
    ensures succeeds { IsOk result }
    ensures found { IfOk result (λ some. IsTrue some ↔ Overlap (class_of a.now) (class_of b.now)) }
{
    Ok(a.overlaps(alloc, b, Bearer::Element))
}
