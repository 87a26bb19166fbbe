//! Commands that read the text for its faults.

ghost use Rattle.std.specs.Prelude.{map};
ghost use Rattle.nx_script.specs.Replies.{reply_of, ReplyIsText};
ghost use Rattle.nx_session.specs.Marks.{ReadsMarks};
ghost use Rattle.nx_session.specs.Validating.{ErrorsStep, SliceStep};
ghost use Rattle.nx_session.specs.Viewing.{ShowsViews, ViewsAreText};

use super::Session;
use super::reading::{caught_up, found, sliced};
use nx_base::steps::Steps;
use nx_script::reply::{Refusal, Reply};
use nx_views::refresh::refresh;
use nx_views::view::View;
use std::sync::ledger::Ledger;

impl Session {
    /// Reads the text to its end, lists its faults, and shows them to the views.
    pub(super) fn errors<L: Ledger>(
        &mut self,
        views: &mut Vec<Box<dyn View>>,
        steps: &mut Steps<L>,
    ) -> Result<Reply, Refusal>
        ensures step { ErrorsStep self.old.editor steps.old (reply_of result) self.new.editor steps.new }
        ensures marks { ReadsMarks self.old (reply_of result) self.new }
        ensures views { ShowsViews self.old.editor (map (λ b. state b) views.old.items) (reply_of result) (map (λ b. state b) views.new.items) }
        ensures text { ReplyIsText (reply_of result) }
        ensures views_text { ViewsAreText (map (λ b. state b) views.old.items) → ViewsAreText (map (λ b. state b) views.new.items) }
    {
        caught_up(&mut self.machine, &mut self.marks, &self.text, steps)?;
        let faults = found(&mut self.machine, &self.marks, &self.text)?;
        refresh(views, &faults)?;
        Ok(Reply::Errors(faults))
    }

    /// Reads so many tokens of the text on.
    pub(super) fn slice<L: Ledger>(
        &mut self,
        count: u64,
        steps: &mut Steps<L>,
    ) -> Result<Reply, Refusal>
        ensures step { SliceStep count self.old.editor steps.old (reply_of result) self.new.editor steps.new }
        ensures marks { ReadsMarks self.old (reply_of result) self.new }
        ensures text { ReplyIsText (reply_of result) }
    {
        sliced(&mut self.machine, &mut self.marks, &self.text, count, steps)?;
        Ok(Reply::Frontier {
            at: self.marks.frontier(),
            len: self.text.len(),
        })
    }
}
