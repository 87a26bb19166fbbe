//! Attributes with wildcards.

ghost use Rattle.std.specs.Prelude.{◌≡◌};
ghost use Rattle.rng_core.specs.Meaning.{class_of, pattern_of};
ghost use Rattle.rng_restrict.specs.Finding.{is_wildcard as is_wildcard_of, has_wildcard_once as has_wildcard_once_of};

use rng_core::grammar::Pat;
use rng_core::name_class::NameClass;

/// Whether anyName or nsName stands in a class. A choice of many names nests to the left, so its left side is walked
/// in a loop.
fn is_wildcard(class: &NameClass) -> bool
    ensures { result ≡ is_wildcard_of (class_of class.now) }
{
    let mut left = class;
    loop {
        match left {
            NameClass::AnyName => return true,
            NameClass::NsName(_) => return true,
            NameClass::Name(_) => return false,
            NameClass::Except(all, taken) => return is_wildcard(all) || is_wildcard(taken),
            NameClass::Choice(front, last) => {
                if is_wildcard(last) {
                    return true;
                }
                left = front;
            }
        }
    }
}

/// Whether an attribute with such a class stands in a pattern without a oneOrMore above it.
pub(crate) fn has_wildcard_once(pattern: &Pat) -> bool
    ensures { result ≡ has_wildcard_once_of (pattern_of pattern.now) }
{
    match pattern {
        Pat::NotAllowed => false,
        Pat::Empty => false,
        Pat::Text => false,
        Pat::Typed(_, _) => false,
        Pat::Value(_, _) => false,
        Pat::List(body) => has_wildcard_once(body),
        Pat::Attribute(class, body) => is_wildcard(class) || has_wildcard_once(body),
        Pat::Ref(_) => false,
        Pat::OneOrMore(_) => false,
        Pat::Choice(a, b) => has_wildcard_once(a) || has_wildcard_once(b),
        Pat::Group(a, b) => has_wildcard_once(a) || has_wildcard_once(b),
        Pat::Interleave(a, b) => has_wildcard_once(a) || has_wildcard_once(b),
    }
}
