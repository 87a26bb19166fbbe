//! Ways through the elements of a text.

/// A way from a place of a text along its tags.
#[derive(Clone, Copy, Debug, PartialEq, Eq)]
pub enum Way {
    /// Behind the next element.
    Forward,
    /// In front of the element before.
    Backward,
    /// Behind the element around.
    Up,
    /// In front of the element around.
    BackUp,
    /// Into the next element.
    Down,
}
