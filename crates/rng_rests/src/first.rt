//! What a rest begins with.

use nx_base::name::Name;

/// The first event of a rest.
#[derive(Drop)]
pub enum First {
    /// The start of an element of this name.
    Enter(Name),
    /// An attribute of this name, with some value.
    Att(Name),
    /// The end of the innermost element.
    Leave,
}
