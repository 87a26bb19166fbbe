//! A text that is written event by event.

ghost use Rattle.std.specs.Prelude.{◌≡◌, ◌++◌, drop, IfOk, OnOk, IsTrue};
ghost use Rattle.nx_base.specs.Names.{is_xml_name};
ghost use Rattle.nx_base.specs.Trees.{IsWritable, AreWritable, Leave};
ghost use Rattle.rng_fill.specs.Moves.{event_of, events_of};
ghost use Rattle.nx_written.specs.Writing.{held, end_by, opening_end, EntersElement, AddsString, WritesEvent, WritesAll};
ghost use Rattle.nx_written.specs.Documents.{end_tag};
ghost use Rattle.nx_written.specs.Written.{IsRestText, IsBegunText};

use crate::declaration::Declaration;
use crate::escape::push_escaped;
use crate::open_tag::OpenTag;
use crate::scope::Scope;
use crate::tag::{begin_tag, push_attribute};
use nx_base::memory::NoMemory;
use nx_base::name::Name;
use nx_base::sequence::Bytes;
use rng_fill::moves::Move;
use std::alloc::Global;

/// How far the innermost start tag is written.
#[derive(Clone, Copy, Debug, PartialEq, Eq)]
pub(crate) enum Stage {
    /// It is whole, or none is open.
    Inside,
    /// Its name and some attributes are.
    InTag,
    /// All but its end is: `>` in front of content, and `/>` where there is none.
    Ended,
}

/// A writer, with the elements that are open and the declarations in force.
#[derive(Drop)]
pub(crate) struct Writer {
    alloc: Global,
    /// The open elements, the innermost last.
    pub(crate) open_tags: Vec<OpenTag>,
    /// The declarations in force, the innermost last.
    pub(crate) scope: Scope,
    pub(crate) stage: Stage,
    /// The text so far.
    pub(crate) out: Vec<u8>,
}

/// Ends a start tag in front of content.
fn end_start_tag(out: &mut Vec<u8>, stage: Stage) -> Result<(), NoMemory>
    ensures { OnOk result (out.new.items ≡ out.old.items ++ opening_end stage) }
{
    match stage {
        Stage::Inside => Ok(()),
        Stage::InTag => Ok(()),
        Stage::Ended => {
            out.push(b'>')?;
            Ok(())
        }
    }
}

/// Adds an end tag.
fn push_end_tag(out: &mut Vec<u8>, written: &[u8]) -> Result<(), NoMemory>
    ensures { OnOk result (out.new.items ≡ out.old.items ++ end_tag written.now) }
{
    out.extend_from_slice(b"</")?;
    out.extend_from_slice(written)?;
    out.push(b'>')?;
    Ok(())
}

/// Ends an element: an empty one by `/>`, and any other by its end tag.
fn end_element(out: &mut Vec<u8>, stage: Stage, written: &[u8]) -> Result<(), NoMemory>
    ensures { OnOk result (out.new.items ≡ out.old.items ++ end_by stage written.now) }
{
    match stage {
        Stage::Inside => push_end_tag(out, written),
        Stage::InTag => push_end_tag(out, written),
        Stage::Ended => {
            out.extend_from_slice(b"/>")?;
            Ok(())
        }
    }
}

impl Writer {
    /// Writes the start of an element.
    fn enter(&mut self, name: &Name) -> Result<(), NoMemory>
        requires { IsTrue (is_xml_name name.now) }
        ensures { OnOk result (EntersElement name.now (held self.old) (held self.new)) }
    {
        end_start_tag(&mut self.out, self.stage)?;
        let outer = self.scope.len();
        let written = begin_tag(self.alloc, &mut self.out, &mut self.scope, name)?;
        self.open_tags.push(OpenTag::new(written, outer))?;
        self.stage = Stage::InTag;
        Ok(())
    }

    /// Writes a string.
    fn string(&mut self, text: &Bytes) -> Result<(), NoMemory>
        ensures { OnOk result (AddsString text.now (held self.old) (held self.new)) }
    {
        end_start_tag(&mut self.out, self.stage)?;
        push_escaped(&mut self.out, text.as_slice())?;
        self.stage = Stage::Inside;
        Ok(())
    }

    /// Writes the end of the innermost element, if one is open.
    fn leave(&mut self) -> Result<(), NoMemory>
        ensures { OnOk result (WritesEvent Leave (held self.old) (held self.new)) }
    {
        if let Some(tag) = self.open_tags.pop() {
            end_element(&mut self.out, self.stage, tag.written())?;
            self.scope.truncate(tag.outer())?;
        }
        self.stage = Stage::Inside;
        Ok(())
    }

    /// Writes one event.
    fn write(&mut self, event: &Move) -> Result<(), NoMemory>
        requires { IsWritable (event_of event.now) }
        ensures { OnOk result (WritesEvent (event_of event.now) (held self.old) (held self.new)) }
    {
        match event {
            Move::Enter(name) => {
                self.enter(name)?;
                Ok(())
            }
            Move::Att(name, value) => {
                push_attribute(self.alloc, &mut self.out, &mut self.scope, name, value)?;
                Ok(())
            }
            Move::TagEnd => {
                self.stage = Stage::Ended;
                Ok(())
            }
            Move::Chars(text) => {
                self.string(text)?;
                Ok(())
            }
            Move::Leave => {
                self.leave()?;
                Ok(())
            }
        }
    }

    /// Writes events, in order.
    fn write_all(&mut self, events: &[Move]) -> Result<(), NoMemory>
        requires { AreWritable (events_of events.now) }
        ensures { OnOk result (WritesAll (events_of events.now) (held self.old) (held self.new)) }
    {
        let mut rest = events;
        'events: while let Some((first, behind)) = rest.split_first() {
            self.write(first)?;
            rest = behind;
        }
        Ok(())
    }
}

/// The text of events inside of elements that are open: these, the innermost last, inside of these declarations. It ends them all. What is
/// written is read back as these events; one that was given no memory is told, and nothing else can go wrong.
pub fn write_rest(
    alloc: Global,
    open_tags: Vec<OpenTag>,
    scope: Vec<Declaration>,
    events: &[Move],
) -> Result<Bytes, NoMemory>
    requires { AreWritable (events_of events.now) }
    ensures { IfOk result (IsRestText open_tags.items scope.items (events_of events.now)) }
{
    let scope = Scope::new(alloc, scope)?;
    let mut writer = Writer {
        alloc,
        open_tags,
        scope,
        stage: Stage::Inside,
        out: Vec::new(alloc),
    };
    writer.write_all(events)?;
    Ok(Bytes::from_vec(writer.out))
}

/// Without the first byte.
fn without_first(text: Bytes) -> Bytes
    ensures { result ≡ drop 1 text }
{
    let mut text = text;
    if !text.is_empty() {
        text.cut(0, 1);
    }
    text
}

/// The text of events that go on behind the white space of a start tag that is begun, from its next attribute on. The tag is the innermost of
/// the open ones, and what it declares so far is in force. All that is open ends.
pub fn write_attributes(
    alloc: Global,
    open_tags: Vec<OpenTag>,
    scope: Vec<Declaration>,
    events: &[Move],
) -> Result<Bytes, NoMemory>
    requires { AreWritable (events_of events.now) }
    ensures { IfOk result (IsBegunText open_tags.items scope.items (events_of events.now)) }
{
    let scope = Scope::new(alloc, scope)?;
    let mut writer = Writer {
        alloc,
        open_tags,
        scope,
        stage: Stage::InTag,
        out: Vec::new(alloc),
    };
    writer.write_all(events)?;
    Ok(without_first(Bytes::from_vec(writer.out)))
}
