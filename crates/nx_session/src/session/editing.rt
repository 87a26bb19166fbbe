//! Commands on the text alone.

ghost use Rattle.std.specs.Prelude.{◌≡◌, [], map, IsUtf8, IfOk};
ghost use Rattle.nx_script.specs.Replies.{reply_of, ReplyIsText};
ghost use Rattle.nx_session.specs.Editor.{caret_after, edit_of};
ghost use Rattle.nx_session.specs.Editing.{InsertStep, DeleteStep, PrintStep};
ghost use Rattle.nx_session.specs.Marks.{EditsMarks};
ghost use Rattle.nx_session.specs.Viewing.{MovesViews, ViewsAreText};

use super::Session;
use deriv_pool::pool::Pool;
use nx_base::edit::{Edit, edited_keeps_rest, moved};
use nx_base::memory::NoMemory;
use nx_base::sequence::Bytes;
use nx_host::utf8::text_of;
use nx_marks::law::{edits_look_at_no_state, frontier_is_border};
use nx_recover::recover::Recover;
use nx_script::reply::{Refusal, Reply};
use nx_text::text::TextFault;
use nx_views::shift::shift_all;
use nx_views::view::View;

/// Where a caret goes with an edit: with the text, but it stays where text is put in at it.
pub(super) fn moved_caret(caret: usize, edit: &Edit) -> usize
    ensures { result ≡ caret_after edit.now caret }
{
    if caret == edit.from {
        caret
    } else {
        moved(caret, edit)
    }
}

impl Session {
    /// Puts the text in at the byte offset.
    pub(super) fn insert(
        &mut self,
        at: u64,
        added: &Bytes,
        views: &mut Vec<Box<dyn View>>,
    ) -> Result<Reply, Refusal>
        requires { IsUtf8 added.now }
        ensures step { InsertStep at added.now self.old.editor (reply_of result) self.new.editor }
        ensures marks { EditsMarks (edit_of at at added.now) self.old (reply_of result) self.new }
        ensures views { MovesViews (edit_of at at added.now) (map (λ b. state b) views.old.items) (reply_of result)
            (map (λ b. state b) views.new.items) }
        ensures views_text { ViewsAreText (map (λ b. state b) views.old.items) → ViewsAreText (map (λ b. state b) views.new.items) }
        ensures text { ReplyIsText (reply_of result) }
    {
        let place = at as usize;
        let _len = self.text.len();
        match self.text.insert(place, text_of(added)) {
            Ok(()) => {
                let edit = Edit {
                    from: place,
                    to: place,
                    added: added.len(),
                };
                let _new_len = self.text.len();
                edited_keeps_rest();
                frontier_is_border::<Recover<Pool>>();
                edits_look_at_no_state::<Recover<Pool>>();
                self.marks.edit(&edit);
                self.caret = moved_caret(self.caret, &edit);
                shift_all(views, &edit);
                Ok(Reply::Silent)
            }
            Err(TextFault::BadPosition { at: _, len }) => Err(Refusal::BadPosition { at, len }),
            Err(TextFault::NoMemory) => Err(Refusal::NoMemory),
        }
    }

    /// Takes the bytes from the first offset to the second away.
    pub(super) fn delete(
        &mut self,
        from: u64,
        to: u64,
        views: &mut Vec<Box<dyn View>>,
    ) -> Result<Reply, Refusal>
        ensures step { DeleteStep from to self.old.editor (reply_of result) self.new.editor }
        ensures marks { EditsMarks (edit_of from to []) self.old (reply_of result) self.new }
        ensures views { MovesViews (edit_of from to []) (map (λ b. state b) views.old.items) (reply_of result)
            (map (λ b. state b) views.new.items) }
        ensures views_text { ViewsAreText (map (λ b. state b) views.old.items) → ViewsAreText (map (λ b. state b) views.new.items) }
        ensures text { ReplyIsText (reply_of result) }
    {
        let (from, to) = (from as usize, to as usize);
        let _len = self.text.len();
        match self.text.delete(from, to) {
            Ok(()) => {
                let edit = Edit { from, to, added: 0 };
                let _new_len = self.text.len();
                edited_keeps_rest();
                frontier_is_border::<Recover<Pool>>();
                edits_look_at_no_state::<Recover<Pool>>();
                self.marks.edit(&edit);
                self.caret = moved_caret(self.caret, &edit);
                shift_all(views, &edit);
                Ok(Reply::Silent)
            }
            Err(TextFault::BadPosition { at, len }) => Err(Refusal::BadPosition {
                at: at as u64,
                len,
            }),
            Err(TextFault::NoMemory) => unreachable!(),
        }
    }

    /// A copy of the whole text.
    pub(super) fn whole_text(&self) -> Result<Bytes, NoMemory>
        ensures bytes { IfOk result (λ text. text ≡ self.now.editor.text) }
        ensures text { IfOk result IsUtf8 }
    {
        self.text.copy_range(0, self.text.len())
    }

    /// The text.
    pub(super) fn print(&self) -> Result<Reply, Refusal>
        ensures step { PrintStep self.now.editor (reply_of result) self.now.editor }
        ensures text { ReplyIsText (reply_of result) }
    {
        Ok(Reply::Printed(self.whole_text()?))
    }
}
