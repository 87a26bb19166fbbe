//! Whether two values are equal.

ghost use Rattle.std.specs.Prelude.{◌≡◌, ◌↔◌, IsTrue};

use crate::name::Name;
use crate::sequence::Sequence;

/// A value that can be compared with another of its type.
pub trait Equal {
    /// Whether the two are equal.
    fn equals(&self, other: &Self) -> bool
        ensures { IsTrue result ↔ (self.now ≡ other.now) };
}

/// A value of which lists can be compared.
pub trait EqualAll {
    /// Whether two lists have equal items in the same order.
    fn all_equal(a: &[Self], b: &[Self]) -> bool
        ensures { IsTrue result ↔ (a.now ≡ b.now) };
}

/// Whether two lists have equal items in the same order, one by one.
pub fn same_each<T: Equal>(a: &[T], b: &[T]) -> bool
    ensures { IsTrue result ↔ (a.now ≡ b.now) }
{
    if a.len() != b.len() {
        return false;
    }
    for (i, item) in a.iter().enumerate() {
        if !item.equals(&b[i]) {
            return false;
        }
    }
    true
}

impl Equal for u8 {
    fn equals(&self, other: &u8) -> bool {
        *self == *other
    }
}

// Bytes are compared at once.
impl EqualAll for u8 {
    fn all_equal(a: &[u8], b: &[u8]) -> bool {
        a == b
    }
}

impl<T: EqualAll> Equal for Sequence<T> {
    fn equals(&self, other: &Sequence<T>) -> bool {
        T::all_equal(self.items.as_slice(), other.items.as_slice())
    }
}

impl<T: EqualAll> EqualAll for Sequence<T> {
    fn all_equal(a: &[Sequence<T>], b: &[Sequence<T>]) -> bool {
        same_each(a, b)
    }
}

impl Equal for Name {
    fn equals(&self, other: &Name) -> bool {
        self.local.equals(&other.local) && self.ns.equals(&other.ns)
    }
}

impl EqualAll for Name {
    fn all_equal(a: &[Name], b: &[Name]) -> bool {
        same_each(a, b)
    }
}

impl<T: Equal> Equal for Option<T> {
    fn equals(&self, other: &Option<T>) -> bool {
        match (self, other) {
            (Some(value), Some(other)) => value.equals(other),
            (None, None) => true,
            _ => false,
        }
    }
}
