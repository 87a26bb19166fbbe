//! Commands on tags: the changes of the text that they make.

ghost use Rattle.std.specs.Prelude.{◌≡◌, map, IfOk, IfSome, OnErr, OnOk};
ghost use Rattle.nx_base.specs.Text.{IsPlace};
ghost use Rattle.nx_script.specs.QualifiedNames.{IsQName};
ghost use Rattle.nx_script.specs.Replies.{reply_of, ReplyIsText};
ghost use Rattle.nx_session.specs.Marks.{ChangesMarks};
ghost use Rattle.nx_session.specs.Tagging.{TagStep, AreMade, shifted_by, told_by};
ghost use Rattle.nx_session.specs.Telling.{FitsThen};
ghost use Rattle.nx_session.specs.Viewing.{ViewsAreText};
ghost use Rattle.nx_tags.specs.Answers.{Answers, PutsInQName, place_of};
ghost use Rattle.nx_tags.specs.declared.command.TagCommand.TheVariants.{Finish, Split, Pair, Rename};
ghost use Rattle.nx_text.specs.Changing.{AreChanges};

use super::Session;
use super::reading::tag_changes;
use super::telling::{caret_behind, shift_by, tell};
use deriv_pool::pool::Pool;
use nx_base::change::Changes;
use nx_base::edit::edited_keeps_rest;
use nx_base::memory::NoMemory;
use nx_base::sequence::{Bytes, TryCopy};
use nx_base::steps::Steps;
use nx_marks::law::{edits_look_at_no_state, frontier_is_border};
use nx_recover::recover::Recover;
use nx_script::reply::{Refusal, Reply};
use nx_tags::TagCommand;
use nx_views::view::View;
use std::sync::ledger::Ledger;

impl Session {
    /// Ends the innermost element that is open at the byte offset.
    pub(super) fn finish<L: Ledger>(
        &mut self,
        at: u64,
        views: &mut Vec<Box<dyn View>>,
        steps: &mut Steps<L>,
    ) -> Result<Reply, Refusal>
        ensures step { TagStep (Finish at) self.old.editor (map (λ b. state b) views.old.items) (reply_of result) self.new.editor
            (map (λ b. state b) views.new.items) }
        ensures marks { ChangesMarks (Finish at) self.old (reply_of result) self.new }
        ensures views_text { ViewsAreText (map (λ b. state b) views.old.items) → ViewsAreText (map (λ b. state b) views.new.items) }
        ensures text { ReplyIsText (reply_of result) }
    {
        let place = at as usize;
        if !self.text.is_place(place) {
            let len = self.text.len();
            return Err(Refusal::BadPosition { at, len });
        }
        self.change_tags(&TagCommand::Finish(place), views, steps)
    }

    /// Ends the innermost element that is open at the byte offset, and begins another of its name.
    pub(super) fn split<L: Ledger>(
        &mut self,
        at: u64,
        views: &mut Vec<Box<dyn View>>,
        steps: &mut Steps<L>,
    ) -> Result<Reply, Refusal>
        ensures step { TagStep (Split at) self.old.editor (map (λ b. state b) views.old.items) (reply_of result) self.new.editor
            (map (λ b. state b) views.new.items) }
        ensures marks { ChangesMarks (Split at) self.old (reply_of result) self.new }
        ensures views_text { ViewsAreText (map (λ b. state b) views.old.items) → ViewsAreText (map (λ b. state b) views.new.items) }
        ensures text { ReplyIsText (reply_of result) }
    {
        let place = at as usize;
        if !self.text.is_place(place) {
            let len = self.text.len();
            return Err(Refusal::BadPosition { at, len });
        }
        self.change_tags(&TagCommand::Split(place), views, steps)
    }

    /// Puts an element of this written name in at the byte offset, without content.
    #[tactic(auto, using(crate::proofs::Tagging::pair_again, crate::proofs::Tagging::pair_marks_again, crate::proofs::Tagging::copied_name))]
    pub(super) fn pair<L: Ledger>(
        &mut self,
        at: u64,
        name: &Bytes,
        views: &mut Vec<Box<dyn View>>,
        steps: &mut Steps<L>,
    ) -> Result<Reply, Refusal>
        requires { IsQName name.now }
        ensures step { TagStep (Pair at name.now) self.old.editor (map (λ b. state b) views.old.items) (reply_of result) self.new.editor
            (map (λ b. state b) views.new.items) }
        ensures marks { ChangesMarks (Pair at name.now) self.old (reply_of result) self.new }
        ensures views_text { ViewsAreText (map (λ b. state b) views.old.items) → ViewsAreText (map (λ b. state b) views.new.items) }
        ensures text { ReplyIsText (reply_of result) }
    {
        let place = at as usize;
        if !self.text.is_place(place) {
            let len = self.text.len();
            return Err(Refusal::BadPosition { at, len });
        }
        let name = name.copy()?;
        self.change_tags(&TagCommand::Pair(place, name), views, steps)
    }

    /// Gives the element whose tag begins at the byte offset this written name.
    #[tactic(auto, using(crate::proofs::Tagging::rename_again, crate::proofs::Tagging::rename_marks_again, crate::proofs::Tagging::copied_name))]
    pub(super) fn rename<L: Ledger>(
        &mut self,
        at: u64,
        name: &Bytes,
        views: &mut Vec<Box<dyn View>>,
        steps: &mut Steps<L>,
    ) -> Result<Reply, Refusal>
        requires { IsQName name.now }
        ensures step { TagStep (Rename at name.now) self.old.editor (map (λ b. state b) views.old.items) (reply_of result) self.new.editor
            (map (λ b. state b) views.new.items) }
        ensures marks { ChangesMarks (Rename at name.now) self.old (reply_of result) self.new }
        ensures views_text { ViewsAreText (map (λ b. state b) views.old.items) → ViewsAreText (map (λ b. state b) views.new.items) }
        ensures text { ReplyIsText (reply_of result) }
    {
        let place = at as usize;
        if !self.text.is_place(place) {
            let len = self.text.len();
            return Err(Refusal::BadPosition { at, len });
        }
        let name = name.copy()?;
        self.change_tags(&TagCommand::Rename(place, name), views, steps)
    }

    /// What a command at a place of the text changes; none exactly where it may not be carried out.
    fn wanted<L: Ledger>(
        &self,
        command: &TagCommand,
        steps: &mut Steps<L>,
    ) -> Result<Option<Changes>, NoMemory>
        requires place { IsPlace self.now.editor.text (place_of command.now) }
        requires name { PutsInQName command.now }
        ensures answer { IfOk result (Answers self.now.editor.text command.now) }
        ensures changes { IfOk result (λ found. IfSome found (AreChanges self.now.editor.text)) }
        ensures fit { IfOk result (λ found. IfSome found (FitsThen self.now.editor.text)) }
    {
        tag_changes(
            self.alloc,
            &self.machine,
            &self.marks,
            &self.text,
            command,
            steps,
        )
    }

    /// Makes the changes of a command at a place of the text, if it has some.
    fn change_tags<L: Ledger>(
        &mut self,
        command: &TagCommand,
        views: &mut Vec<Box<dyn View>>,
        steps: &mut Steps<L>,
    ) -> Result<Reply, Refusal>
        requires place { IsPlace self.old.editor.text (place_of command.now) }
        requires name { PutsInQName command.now }
        ensures step { TagStep command.now self.old.editor (map (λ b. state b) views.old.items) (reply_of result) self.new.editor
            (map (λ b. state b) views.new.items) }
        ensures marks { ChangesMarks command.now self.old (reply_of result) self.new }
        ensures views_text { ViewsAreText (map (λ b. state b) views.old.items) → ViewsAreText (map (λ b. state b) views.new.items) }
        ensures text { ReplyIsText (reply_of result) }
    {
        match self.wanted(command, steps)? {
            Some(changes) => {
                self.make_changes(&changes, views)?;
                Ok(Reply::Silent)
            }
            None => Ok(Reply::Stay),
        }
    }

    /// Makes changes of the text one after another, and tells them to what stands beside it; or there is no memory, and all is as it was.
    fn make_changes(
        &mut self,
        changes: &Changes,
        views: &mut Vec<Box<dyn View>>,
    ) -> Result<(), NoMemory>
        requires changes { AreChanges self.old.editor.text changes.now }
        requires fit { FitsThen self.old.editor.text changes.now }
        ensures made { OnOk result (AreMade changes.now self.old.editor self.new.editor) }
        ensures marks { OnOk result (self.new.marks ≡ told_by changes.now self.old.marks) }
        ensures moved { OnOk result (map (λ b. state b) views.new.items ≡ shifted_by changes.now (map (λ b. state b) views.old.items)) }
        ensures refused { OnErr result ((self.new ≡ self.old) × (map (λ b. state b) views.new.items ≡ map (λ b. state b) views.old.items)) }
    {
        let _len = self.text.len();
        self.text.apply(changes)?;
        let _new_len = self.text.len();
        edited_keeps_rest();
        frontier_is_border::<Recover<Pool>>();
        edits_look_at_no_state::<Recover<Pool>>();
        tell(&mut self.marks, changes);
        self.caret = caret_behind(self.caret, changes);
        shift_by(views, changes);
        Ok(())
    }
}
