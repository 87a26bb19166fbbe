//! Commands on the caret alone.

ghost use Rattle.std.specs.Prelude.{◌≡◌};
ghost use Rattle.nx_script.specs.Replies.{reply_of, ReplyIsText};
ghost use Rattle.nx_session.specs.Moving.{GotoStep, NextStep, PreviousStep, PositionStep, MoveStep};

use super::Session;
use nx_base::steps::Steps;
use nx_base::way::Way;
use nx_move::moving::go;
use nx_script::reply::{Refusal, Reply};
use std::sync::ledger::Ledger;

impl Session {
    /// Puts the caret at the byte offset.
    pub(super) fn go_to(&mut self, at: u64) -> Result<Reply, Refusal>
        ensures step { GotoStep at self.old.editor (reply_of result) self.new.editor }
        ensures marks { self.new.marks ≡ self.old.marks }
        ensures text { ReplyIsText (reply_of result) }
    {
        let place = at as usize;
        if !self.text.is_place(place) {
            let len = self.text.len();
            return Err(Refusal::BadPosition { at, len });
        }
        self.caret = place;
        Ok(Reply::Silent)
    }

    /// Takes the caret over the grapheme cluster behind it.
    pub(super) fn next(&mut self) -> Result<Reply, Refusal>
        ensures step { NextStep self.old.editor (reply_of result) self.new.editor }
        ensures marks { self.new.marks ≡ self.old.marks }
        ensures text { ReplyIsText (reply_of result) }
    {
        match self.text.next_grapheme(self.caret) {
            Some(at) => {
                self.caret = at;
                Ok(Reply::Caret(at))
            }
            None => Ok(Reply::Stay),
        }
    }

    /// Takes the caret over the grapheme cluster before it.
    pub(super) fn previous(&mut self) -> Result<Reply, Refusal>
        ensures step { PreviousStep self.old.editor (reply_of result) self.new.editor }
        ensures marks { self.new.marks ≡ self.old.marks }
        ensures text { ReplyIsText (reply_of result) }
    {
        match self.text.prev_grapheme(self.caret) {
            Some(at) => {
                self.caret = at;
                Ok(Reply::Caret(at))
            }
            None => Ok(Reply::Stay),
        }
    }

    /// The caret's line and column.
    pub(super) fn position(&mut self) -> Result<Reply, Refusal>
        ensures step { PositionStep self.old.editor (reply_of result) self.new.editor }
        ensures marks { self.new.marks ≡ self.old.marks }
        ensures text { ReplyIsText (reply_of result) }
    {
        let line = self.text.line_of(self.caret);
        let column = self.text.column_of(self.caret);
        Ok(Reply::Position { line, column })
    }

    /// Takes the caret along the tags of the text.
    pub(super) fn move_along<L: Ledger>(
        &mut self,
        way: Way,
        steps: &mut Steps<L>,
    ) -> Result<Reply, Refusal>
        ensures step { MoveStep way self.old.editor (reply_of result) self.new.editor }
        ensures marks { self.new.marks ≡ self.old.marks }
        ensures text { ReplyIsText (reply_of result) }
    {
        let _len = self.text.len();
        match go(self.alloc, &self.text, self.caret, way, steps)? {
            Some(at) => {
                self.caret = at;
                Ok(Reply::Caret(at))
            }
            None => Ok(Reply::Stay),
        }
    }
}
