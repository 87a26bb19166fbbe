//! Commands on one view.

ghost use Rattle.std.specs.Prelude.{◌≡◌, map};
ghost use Rattle.nx_script.specs.Replies.{reply_of, ReplyIsText};
ghost use Rattle.nx_session.specs.Viewing.{ViewStep, CloseStep, ViewsAreText};

use super::Session;
use nx_base::sequence::TryCopy;
use nx_script::reply::{Refusal, Reply};
use nx_views::numbered::{close_at, shown_at};
use nx_views::view::View;

impl Session {
    /// The faults that the view of this number shows.
    pub(super) fn show_view(&self, index: u64, views: &Vec<Box<dyn View>>) -> Result<Reply, Refusal>
        ensures step { ViewStep index (map (λ b. state b) views.now.items) (reply_of result) (map (λ b. state b) views.now.items) }
        ensures text { ViewsAreText (map (λ b. state b) views.now.items) → ReplyIsText (reply_of result) }
    {
        match shown_at(views, index as usize) {
            Some(faults) => Ok(Reply::Shown(index, faults.copy()?)),
            None => Err(Refusal::NoView(index)),
        }
    }

    /// Closes the view of this number.
    pub(super) fn close_view(
        &self,
        index: u64,
        views: &mut Vec<Box<dyn View>>,
    ) -> Result<Reply, Refusal>
        ensures step { CloseStep index (map (λ b. state b) views.old.items) (reply_of result) (map (λ b. state b) views.new.items) }
        ensures views_text { ViewsAreText (map (λ b. state b) views.old.items) → ViewsAreText (map (λ b. state b) views.new.items) }
        ensures text { ReplyIsText (reply_of result) }
    {
        let at = index as usize;
        if at >= views.len() {
            return Err(Refusal::NoView(index));
        }
        close_at(views, at);
        Ok(Reply::Silent)
    }
}
