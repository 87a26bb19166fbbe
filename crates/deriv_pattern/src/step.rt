//! What a matcher goes on by: one step for each kind of event, and for each recovery from one that isn't admitted.

use nx_base::name::Name;
use rng_core::grammar::Def;

/// What a matcher goes on by.
#[derive(Clone, Copy)]
pub enum Step<'a> {
    /// An element's name; the definitions are those of the schema.
    Enter(&'a [Def], &'a Name),
    /// Children that are left out and an element's name.
    EnterSkip(&'a [Def], &'a Name),
    /// An attribute: its name and its value.
    Attribute(&'a Name, &'a str),
    /// An attribute of the name, whatever its value.
    AttributeAny(&'a Name),
    /// The end of a start tag.
    TagEnd,
    /// Attributes that are missing and the end of a start tag.
    TagEndMissing,
    /// A string.
    Chars(&'a str),
    /// Some string that isn't blank.
    CharsAny,
    /// An element's end.
    Leave,
    /// Children that are left out and an element's end.
    LeaveSkip,
}
