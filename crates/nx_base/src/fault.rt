//! Faults of a text.

ghost use Rattle.std.specs.Prelude.{◌≡◌, ◌<◌, ◌^◌, IfOk, map};
ghost use Rattle.nx_base.specs.Shifting.{moved_fault};

use crate::detail::Detail;
use crate::edit::{Edit, moved};
use crate::memory::NoMemory;
use crate::sequence::{Sequence, TryCopy, TryCopyAll, copy_each};
use std::alloc::Global;

/// Bytes of a text, from the byte offset `from` to the byte offset `to`.
#[derive(Clone, Copy, Debug, PartialEq, Eq)]
pub struct Span {
    pub from: usize,
    pub to: usize,
}

/// What is wrong with a text. The detail that a fault has beside its kind stands behind each.
#[derive(Clone, Copy, Debug, PartialEq, Eq)]
pub enum Kind {
    /// Markup that is no token of XML. No detail.
    BadMarkup,
    /// A character that XML doesn't allow. No detail.
    BadChar,
    /// A `&` that begins no reference that is known. No detail.
    BadReference,
    /// `]]>` in character data. No detail.
    BadText,
    /// `--` in a comment, or `-` at its end. No detail.
    BadComment,
    /// A processing instruction whose target is no Name without a colon, is `xml`, or is followed by neither S nor the end. No detail.
    BadPi,
    /// An XML declaration that is not of its form. No detail.
    BadDecl,
    /// Markup that has no end. No detail.
    Unclosed,
    /// A declaration or document type where none may stand. No detail.
    Misplaced,
    /// Character data outside of the root. No detail.
    TextOutside,
    /// An element that another's end tag closed. Its written name.
    MissingEnd,
    /// An end tag with no element to close. Its written name.
    ExtraEnd,
    /// An element that the end of the text closed. Its written name.
    UnclosedElement,
    /// An element behind the root. Its written name.
    SecondRoot,
    /// A text without an element. No detail.
    NoRoot,
    /// A name that isn't a qualified name. The written name.
    BadName,
    /// A prefix that nothing declares. The prefix.
    UndeclaredPrefix,
    /// An attribute that stands twice in its tag. Its written name.
    DuplicateAttribute,
    /// A namespace declaration that may not be. Its written name.
    BadBinding,
    /// An element that the schema doesn't know. Its name.
    Unknown,
    /// An element that may not stand here. Its name.
    NotAllowed,
    /// An element in front of which others are missing. Its name, and the names of those that every repair puts there.
    NotYet,
    /// An attribute that may not stand here. Its name.
    UnknownAttribute,
    /// A value that may not stand here. The attribute's name, or nothing for text.
    BadValue,
    /// Attributes that are missing. Their names, separated by a space.
    MissingAttributes,
    /// Text that may not stand here. No detail.
    TextNotAllowed,
    /// An element with missing content. Its name, and the names of the elements that every repair puts at its end.
    Incomplete,
}

/// A fault of a text, at a span of it.
#[derive(Drop)]
pub struct Fault {
    pub span: Span,
    pub kind: Kind,
    pub detail: Detail,
}

/// A list of faults.
pub type Faults = Sequence<Fault>;

impl Fault {
    /// Moves both ends of the span with the text.
    pub fn shift(&mut self, edit: &Edit)
        ensures { self.new ≡ moved_fault edit.now self.old }
    {
        self.span.from = moved(self.span.from, edit);
        self.span.to = moved(self.span.to, edit);
    }
}

impl TryCopy for Fault {
    fn copy(&self) -> Result<Fault, NoMemory> {
        Ok(Fault {
            span: self.span,
            kind: self.kind,
            detail: self.detail.copy()?,
        })
    }
}

impl TryCopyAll for Fault {
    fn copy_all(alloc: Global, items: &[Fault]) -> Result<Vec<Fault>, NoMemory> {
        copy_each(alloc, items)
    }
}

impl Sequence<Fault> {
    /// Moves both ends of each span with the text.
    pub fn shift(&mut self, edit: &Edit)
        ensures { self.new ≡ map (moved_fault edit.now) self.old }
    {
        for fault in self.items.iter_mut() {
            fault.shift(edit);
        }
    }
}
