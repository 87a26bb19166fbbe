//! What is known between two tokens.

ghost use Rattle.std.specs.Prelude.{◌≡◌, ◌+◌, ◌<◌, ◌≤◌, ◌^◌, ◌++◌, length, None, option_copied, IfOk, OnOk, OnErr};
ghost use Rattle.nx_events.specs.Strings.{string_of};
ghost use Rattle.nx_events.specs.PlainTokens.{StandsForItself};
ghost use Rattle.nx_events.specs.Runs.{run_passed, run_joined, run_back, run_items};

use crate::buffer::Buffer;
use crate::item::{Event, Item, Items};
use crate::reading::Reading;
use crate::scope::Bindings;
use crate::stack::{Named, Stack};
use crate::written_name::WrittenName;
use nx_base::fault::Span;
use nx_base::memory::NoMemory;
use nx_base::sequence::TryCopy;
use std::alloc::Global;
use std::marker::Model;

/// An open element.
#[derive(Drop)]
pub struct OpenElement {
    /// The name as it is written in its start tag.
    pub written: WrittenName,
    /// How many of the pairs in scope are declared around it.
    pub outer: usize,
}

/// A run of text that may go on. It holds no place: its end is a distance, in bytes, back from the end of
/// the last token, and its begin is one from its end.
#[derive(Drop)]
pub struct Run {
    /// The strings of its tokens, joined.
    pub string: Buffer,
    /// How many bytes there are from its first token's start to its last one's end.
    pub len: usize,
    /// How many bytes there are from its last token's end to the last token's.
    pub gap: usize,
}

/// The run that is pending, if one is. One that is over stays, so that the next one's string is put in its memory. To a
/// contract it is the run that is pending.
#[derive(Drop)]
pub struct Pending {
    alloc: Global,
    is_pending: bool,
    // on the heap, since states are kept by the ten thousand and most of them have none
    last: Option<Box<Run>>,
}

impl Model for Pending {
    ghost use Rattle.std.specs.Prelude.{Option, None, if◌then◌else◌};
    ghost use Rattle.std.specs.Option.{option_map};
    ghost use Rattle.nx_events.specs.declared.state.Run.{Run};

    ghost Value = { Option Run };

    ghost view = { λ p. if p.is_pending then option_map (λ run. run.value) p.last else None };
}

/// What is known of the tokens so far. It holds no place of the text.
#[derive(Drop)]
pub struct EventState {
    /// The open elements, the innermost last.
    pub(crate) elements: Stack<OpenElement>,
    /// The namespace declarations in force, the innermost last.
    pub(crate) scope: Bindings,
    /// Whether a token other than a byte order mark came.
    pub(crate) came: bool,
    /// Whether a document type declaration came.
    pub(crate) doctype: bool,
    /// Whether a start tag or an empty-element tag came.
    pub(crate) started: bool,
    /// The text run that is pending.
    pub(crate) run: Pending,
}

impl OpenElement {
    /// Puts another element in the place of one that is over, or leaves that.
    pub(crate) fn renew(&mut self, written: &[u8], outer: usize) -> Result<(), NoMemory>
        ensures ok { OnOk result (self.new ≡ record { written = written.now; outer = outer }) }
        ensures err { OnErr result (self.new ≡ self.old) }
    {
        self.written.fill(written)?;
        self.outer = outer;
        Ok(())
    }
}

impl TryCopy for OpenElement {
    fn copy(&self) -> Result<OpenElement, NoMemory> {
        Ok(OpenElement {
            written: self.written.copy()?,
            outer: self.outer,
        })
    }
}

impl Named for OpenElement {
    ghost name_of = { λ element. element.written };

    fn name(&self) -> &[u8] {
        self.written.as_slice()
    }
}

impl TryCopy for Run {
    fn copy(&self) -> Result<Run, NoMemory> {
        Ok(Run {
            string: self.string.copy()?,
            len: self.len,
            gap: self.gap,
        })
    }
}

impl Pending {
    /// No run.
    pub(crate) fn new(alloc: Global) -> Pending
        ensures { result ≡ None }
    {
        Pending {
            alloc,
            is_pending: false,
            last: None,
        }
    }

    /// The run.
    pub(crate) fn get(&self) -> Option<&Run>
        ensures { option_copied result ≡ self.now }
    {
        match &self.last {
            Some(run) if self.is_pending => Some(run),
            _ => None,
        }
    }

    /// The run is over.
    pub(crate) fn end(&mut self)
        ensures { self.new ≡ None }
    {
        self.is_pending = false;
    }

    /// The run behind one more token of `n` bytes that isn't part of it.
    pub(crate) fn pass(&mut self, n: usize)
        requires { run_back self.old + n < 2 ^ 64 }
        ensures { self.new ≡ run_passed n self.old }
    {
        if self.is_pending {
            if let Some(run) = &mut self.last {
                run.gap += n;
            }
        }
    }

    // The first run of all.
    fn begin(&mut self, reading: Reading, text: &[u8], n: usize) -> Result<(), NoMemory>
        requires { self.old ≡ None }
        ensures ok { OnOk result (self.new ≡ run_joined (string_of reading text.now) n self.old) }
        ensures err { OnErr result (self.new ≡ self.old) }
    {
        let mut string = Buffer::new(self.alloc);
        string.fill_with_string(reading, text)?;
        let run = Run {
            string,
            len: n,
            gap: 0,
        };
        self.last = Some(Box::new(self.alloc, run)?);
        self.is_pending = true;
        Ok(())
    }

    /// The run behind one more token of `n` bytes whose text is this.
    pub(crate) fn join(&mut self, reading: Reading, text: &[u8], n: usize) -> Result<(), NoMemory>
        requires { run_back self.old + n < 2 ^ 64 }
        ensures ok { OnOk result (self.new ≡ run_joined (string_of reading text.now) n self.old) }
        ensures err { OnErr result (self.new ≡ self.old) }
    {
        let Some(run) = &mut self.last else {
            return self.begin(reading, text, n);
        };
        if self.is_pending {
            run.string.append_string(reading, text)?;
            run.len += run.gap + n;
        } else {
            run.string.fill_with_string(reading, text)?;
            run.len = n;
            self.is_pending = true;
        }
        run.gap = 0;
        Ok(())
    }

    /// The run behind one more token of bytes that stand for themselves.
    #[inline(always)]
    pub(crate) fn join_plain(&mut self, bytes: &[u8]) -> Result<(), NoMemory>
        requires room { run_back self.old + length bytes.now < 2 ^ 64 }
        requires plain { StandsForItself bytes.now }
        ensures ok { OnOk result (self.new ≡ run_joined bytes.now (length bytes.now) self.old) }
        ensures err { OnErr result (self.new ≡ self.old) }
    {
        // Most texts are a run of their own.
        if let Some(run) = &mut self.last {
            if !self.is_pending {
                run.string.fill(bytes)?;
                run.len = bytes.len();
                run.gap = 0;
                self.is_pending = true;
                return Ok(());
            }
        }
        self.join(Reading::Text, bytes, bytes.len())
    }
}

impl TryCopy for Pending {
    // The memory of runs that are over stays behind.
    fn copy(&self) -> Result<Pending, NoMemory> {
        let Some(run) = self.get() else {
            return Ok(Pending::new(self.alloc));
        };
        Ok(Pending {
            alloc: self.alloc,
            is_pending: true,
            last: Some(Box::new(self.alloc, run.copy()?)?),
        })
    }
}

/// Adds what a run gives that ends, where the last token ended at the place `at`.
#[tactic(auto, unfolding(crate::specs::Runs::run_items))]
pub(crate) fn push_run(items: &mut Items, at: usize, run: &Pending) -> Result<(), NoMemory>
    requires { run_back run.now ≤ at }
    ensures { OnOk result (items.new ≡ items.old ++ run_items at run.now) }
{
    if let Some(run) = run.get() {
        if !run.string.is_empty() {
            let to = at - run.gap;
            let span = Span {
                from: to - run.len,
                to,
            };
            let string = items.copied(run.string.as_slice())?;
            items.push(Item::Event(Event::Chars(string), span))?;
        }
    }
    Ok(())
}
