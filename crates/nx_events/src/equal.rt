//! Whether two values are equal.

ghost use Rattle.std.specs.Prelude.{◌≡◌, ◌↔◌, IsTrue};

use crate::scope::SharedBinding;
use crate::state::{EventState, OpenElement, Pending, Run};
use nx_base::equal::{Equal, same_each};

impl Equal for SharedBinding {
    fn equals(&self, other: &SharedBinding) -> bool {
        let (a, b) = (self.get(), other.get());
        a.prefix.equals(&b.prefix) && a.uri.equals(&b.uri)
    }
}

impl Equal for OpenElement {
    fn equals(&self, other: &OpenElement) -> bool {
        self.outer == other.outer && self.written.equals(&other.written)
    }
}

impl Equal for Run {
    fn equals(&self, other: &Run) -> bool {
        self.len == other.len && self.gap == other.gap && self.string.equals(&other.string)
    }
}

impl Equal for Pending {
    fn equals(&self, other: &Pending) -> bool {
        match (self.get(), other.get()) {
            (Some(run), Some(other)) => run.equals(other),
            (None, None) => true,
            _ => false,
        }
    }
}

/// Whether two states are equal: their open elements, scopes, flags, and the pending runs' strings and distances.
pub fn same(a: &EventState, b: &EventState) -> bool
    ensures { IsTrue result ↔ (a.now ≡ b.now) }
{
    a.came == b.came
        && a.doctype == b.doctype
        && a.started == b.started
        && same_each(a.elements.as_slice(), b.elements.as_slice())
        && same_each(a.scope.as_slice(), b.scope.as_slice())
        && a.run.equals(&b.run)
}
