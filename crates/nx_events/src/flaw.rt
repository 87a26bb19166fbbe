//! What is wrong with a name, without where it stands.

use nx_base::detail::Detail;
use nx_base::fault::Kind;
use nx_base::name::Name;

/// The kind and the detail of a fault.
#[derive(Drop)]
pub struct Flaw {
    pub kind: Kind,
    pub detail: Detail,
}

/// The expanded name of an element or an attribute, or why it has none.
#[derive(Drop)]
pub enum Resolved {
    Named(Name),
    Flawed(Flaw),
}
