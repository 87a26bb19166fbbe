//! Open elements: the frame that goes on here, and those that go on around it.
//!
//! A frame goes through the elements of a document from one on. The document's frame begins with the schema's start. An element
//! that the frame doesn't admit, but that the schema knows, begins a frame of its own, and the frame around it goes on behind its
//! end as if it weren't there. Of an element that the schema doesn't know nothing is known: it is lost.
//!
//! What stands for a frame is the type `S`: the state of a matcher in the code, its meaning in the rules of the machine, and the
//! frame itself, with its moves, in the definition.

use crate::open_name::OpenName;
use crate::packed::Packed;
use nx_events::flaw::Flaw;
use std::alloc::Global;

/// An open element.
#[derive(Drop)]
pub enum Open<S> {
    /// One of the frame in which it stands, which goes on in it and behind it.
    In(OpenName),
    /// The first of a frame of its own, and the frame that goes on behind it: none in a lost element.
    Begins(OpenName, Option<S>),
    /// One of which nothing is known, and the frame that goes on behind it.
    Lost(Option<S>),
}

/// The frame that goes on here, none in a lost element, and the open elements, the innermost last.
#[derive(Drop)]
pub struct Levels<S> {
    pub here: Option<S>,
    pub elements: Vec<Packed<S>>,
}

/// What an event inside of an element does: the frame that goes on, none where it stays as it is; and what is wrong.
#[derive(Drop)]
pub struct Turn<S> {
    pub next: Option<S>,
    pub flaw: Option<Flaw>,
}

/// What the start of an element does: the frame that goes on in it, none where it is lost; the element; and what is wrong.
#[derive(Drop)]
pub struct Begun<S> {
    pub here: Option<S>,
    pub element: Open<S>,
    pub flaw: Option<Flaw>,
}

/// What the end of an element does: the frame that goes on behind it, none in a lost element; and what is wrong.
#[derive(Drop)]
pub struct Ended<S> {
    pub here: Option<S>,
    pub flaw: Option<Flaw>,
}

/// Other levels, aside: of the open elements so many are the old ones, and the others stand above them. It is kept from token to token,
/// since each start tag would take and free a list otherwise.
#[derive(Drop)]
pub struct Change<S> {
    /// The frame that goes on here, where it isn't the old one.
    pub here: Option<Option<S>>,
    pub kept: usize,
    pub above: Vec<Packed<S>>,
}

impl<S: Drop> Change<S> {
    /// No levels at all, and no memory yet.
    pub(crate) fn new(alloc: Global) -> Change<S> {
        Change {
            here: None,
            kept: 0,
            above: Vec::new(alloc),
        }
    }
}
