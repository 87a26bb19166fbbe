//! What is left around an open element, by numbers.

ghost use Rattle.std.specs.Prelude.{◌≡◌, Some, slice_get, IfOk};
ghost use Rattle.deriv_nodes.specs.Reading.{AreOnce, HasKey};

use deriv_nodes::table::keep;
use indexmap::IndexSet;
use nx_base::memory::NoMemory;

/// What is left of the children of an open element, and around it, out to the document: numbers of nodes, and of what lies
/// around the element.
#[derive(Clone, Copy, Debug, PartialEq, Eq, Hash)]
pub enum Around {
    /// What is left outside of the root.
    Document(usize),
    /// What is left of the children as they stand, of the children without blank strings, and whether there may be none; and
    /// what is left around the element.
    Inside {
        strict: usize,
        loose: usize,
        void: bool,
        outer: usize,
    },
    /// What is left in one way, or in another: numbers of two that lie around.
    OneOf(usize, usize),
}

/// The place of what lies around an element, which is added where it isn't there.
pub(crate) fn keep_around(set: &mut IndexSet<Around>, around: Around) -> Result<usize, NoMemory>
    ensures once { AreOnce set.new.keys }
    ensures kept { HasKey set.old.keys set.new.keys around }
    ensures there { IfOk result (λ place. slice_get set.new.keys place ≡ Some around) }
{
    keep(set, around)
}
