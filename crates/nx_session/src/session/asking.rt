//! The command that asks what may stand at a place.

ghost use Rattle.std.specs.Prelude.{◌≡◌};
ghost use Rattle.nx_script.specs.Replies.{reply_of, ReplyIsText};
ghost use Rattle.nx_session.specs.Asking.{CompleteStep};

use super::Session;
use super::reading::offered;
use nx_base::steps::Steps;
use nx_script::reply::{Refusal, Reply};
use std::sync::ledger::Ledger;

impl Session {
    /// Lists what may stand at the byte offset.
    pub(super) fn complete<L: Ledger>(
        &mut self,
        at: u64,
        steps: &mut Steps<L>,
    ) -> Result<Reply, Refusal>
        ensures step { CompleteStep at self.old.editor (reply_of result) self.new.editor }
        ensures marks { self.new.marks ≡ self.old.marks }
        ensures text { ReplyIsText (reply_of result) }
    {
        let place = at as usize;
        if !self.text.is_place(place) {
            let len = self.text.len();
            return Err(Refusal::BadPosition { at, len });
        }
        let offers = offered(
            self.alloc,
            &mut self.machine,
            &self.marks,
            &self.text,
            place,
            steps,
        )?;
        Ok(Reply::Offered(offers))
    }
}
