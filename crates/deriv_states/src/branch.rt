//! Ways to go on, by numbers.

ghost use Rattle.std.specs.Prelude.{◌≡◌, Some, slice_get, IfOk};
ghost use Rattle.deriv_nodes.specs.Reading.{AreOnce, HasKey};

use deriv_nodes::table::keep;
use indexmap::IndexSet;
use nx_base::memory::NoMemory;

/// One way to go on: numbers of nodes, and of what lies around elements.
#[derive(Clone, Copy, Debug, PartialEq, Eq, Hash)]
pub enum Branch {
    /// Among the children of what is open.
    Among(usize),
    /// In a start tag: what is left of the element's content, and around the element.
    InTag(usize, usize),
}

/// The ways of a state: none, or one of them and the state of the others.
#[derive(Clone, Copy, Debug, PartialEq, Eq, Hash)]
pub enum Row {
    /// No way.
    End,
    /// This one, and those of a state.
    Way(Branch, usize),
}

/// The place of a row, which is added where it isn't there.
pub(crate) fn keep_row(set: &mut IndexSet<Row>, row: Row) -> Result<usize, NoMemory>
    ensures once { AreOnce set.new.keys }
    ensures kept { HasKey set.old.keys set.new.keys row }
    ensures there { IfOk result (λ place. slice_get set.new.keys place ≡ Some row) }
{
    keep(set, row)
}
