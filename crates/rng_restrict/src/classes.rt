//! Classes of both sides of a pattern, compared pair by pair.

ghost use Rattle.std.specs.Prelude.{◌≡◌, ◌≤◌, map, length};
ghost use Rattle.std.specs.List.{list_any};
ghost use Rattle.rng_core.specs.Meaning.{class_of};
ghost use Rattle.rng_core.specs.declared.name_class.Bearer.TheVariants.{Element};
ghost use Rattle.rng_restrict.specs.Finding.{share_name as share_name_of, sides_share as sides_share_of, any_share as any_share_of};

use rng_core::name_class::{Bearer, NameClass};
use std::alloc::Global;

/// Whether two classes have a name of such a bearer in common.
fn share_name(alloc: Global, bearer: Bearer, a: &NameClass, b: &NameClass) -> bool
    ensures { result ≡ share_name_of bearer (class_of a.now) (class_of b.now) }
{
    a.overlaps(alloc, b, bearer)
}

/// Whether a class has one in common with one of others.
fn shares_any(alloc: Global, bearer: Bearer, class: &NameClass, others: &[&NameClass]) -> bool
    ensures { result ≡ list_any (λ o. share_name_of bearer (class_of class.now) (class_of o.now)) others.now }
{
    for other in others {
        if share_name(alloc, bearer, class, other) {
            return true;
        }
    }
    false
}

/// Whether one of the classes has one in common with one of others.
fn any_share(alloc: Global, bearer: Bearer, classes: &[&NameClass], others: &[&NameClass]) -> bool
    ensures { result ≡ list_any (λ c. list_any (λ o. share_name_of bearer (class_of c.now) (class_of o.now)) others.now) classes.now }
{
    for class in classes {
        if shares_any(alloc, bearer, class, others) {
            return true;
        }
    }
    false
}

/// Whether some name of an element is in one of the classes and in one of others.
pub(crate) fn some_share(alloc: Global, classes: &[&NameClass], others: &[&NameClass]) -> bool
    ensures { result ≡ any_share_of Element (map (λ c. class_of c.now) classes.now) (map (λ c. class_of c.now) others.now) }
{
    any_share(alloc, Bearer::Element, classes, others)
}

/// Whether some name of an attribute is in one of the classes from `before` to `between` and in one of those behind.
pub(crate) fn sides_share(
    alloc: Global,
    classes: &[&NameClass],
    before: usize,
    between: usize,
) -> bool
    requires ordered { before ≤ between }
    requires within { between ≤ length classes.now }
    ensures { result ≡ sides_share_of before between (map (λ c. class_of c.now) classes.now) }
{
    any_share(
        alloc,
        Bearer::Attribute,
        &classes[before..between],
        &classes[between..],
    )
}
