//! What stands behind a place, towards the start of the text.

ghost use Rattle.std.specs.Prelude.{◌≡◌, IfOk, OnOk};
ghost use Rattle.nx_base.specs.Text.{IsPlace};
ghost use Rattle.nx_move.specs.Tags.{tags_of};
ghost use Rattle.nx_move.specs.Ways.{behind};
ghost use Rattle.nx_move.specs.Walks.{trail_left, nothing_left, left_by, left_of, first_of, others_of};

use crate::tag::{Tag, TagKind, next_tag};
use nx_base::memory::NoMemory;
use nx_base::steps::Steps;
use nx_text::text::Text;
use std::alloc::Global;
use std::sync::ledger::Ledger;

/// What the tags up to a place leave. Places are byte offsets.
#[derive(Drop)]
pub(crate) struct Trail {
    /// Where the starts begin that no End closed, the innermost last.
    pub(crate) starts: Vec<usize>,
    /// Where the element begins that the last tag ends; none where it ends none.
    pub(crate) last: Option<usize>,
}

impl Trail {
    /// No tag yet.
    fn new(alloc: Global) -> Trail
        ensures { trail_left result ≡ nothing_left }
    {
        Trail {
            starts: Vec::new(alloc),
            last: None,
        }
    }

    /// Closes the innermost start that is open, and answers where it begins.
    pub(crate) fn close(&mut self) -> Option<usize>
        ensures closed { result ≡ first_of (trail_left self.old).starts }
        ensures left { (trail_left self.new).starts ≡ others_of (trail_left self.old).starts }
    {
        self.starts.pop()
    }

    /// One tag more.
    fn pass(&mut self, tag: Tag) -> Result<(), NoMemory>
        ensures { OnOk result (trail_left self.new ≡ left_by tag.kind tag.from (trail_left self.old).starts) }
    {
        match tag.kind {
            TagKind::Start => {
                self.starts.push(tag.from)?;
                self.last = None;
            }
            TagKind::Empty => self.last = Some(tag.from),
            TagKind::End => self.last = self.close(),
        }
        Ok(())
    }
}

/// What the tags leave that end at a place or before.
pub(crate) fn trail_behind<L: Ledger>(
    alloc: Global,
    text: &Text,
    at: usize,
    steps: &mut Steps<L>,
) -> Result<Trail, NoMemory>
    requires { IsPlace text.now at }
    ensures { IfOk result (λ trail. trail_left trail ≡ left_of nothing_left (behind at (tags_of text.now))) }
{
    let _len = text.len();
    let mut trail = Trail::new(alloc);
    let mut place = 0;
    loop {
        let Some(tag) = next_tag(alloc, text, place, steps)? else {
            return Ok(trail);
        };
        if tag.to > at {
            return Ok(trail);
        }
        trail.pass(tag)?;
        place = tag.to;
    }
}
