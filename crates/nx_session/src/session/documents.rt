//! Commands on files.

ghost use Rattle.std.specs.Prelude.{◌≡◌, length, map, IsAscii, IsUtf8, IfOk, string_bytes};
ghost use Rattle.nx_script.specs.Replies.{reply_of, ReplyIsText};
ghost use Rattle.nx_session.specs.Editor.{files_state, opened};
ghost use Rattle.nx_session.specs.Documents.{OpenStep, OpensBytes, SaveStep, MakeStep};
ghost use Rattle.nx_session.specs.Viewing.{MovesViews, ViewsAreText, whole_edit};
ghost use Rattle.nx_marks.specs.Editing.{edit_kept};
ghost use Rattle.nx_session.specs.Held.{IsWellHeld};
ghost use Rattle.nx_session.specs.Marks.{EditsMarks, MarksAreRight};
ghost use Rattle.nx_session.specs.LargeDocuments.{large_document};
ghost use Rattle.nx_views.specs.States.{moved_view};

use super::Session;
use crate::document_uri::DocumentUri;
use crate::large_document::large_document;
use deriv_pool::pool::Pool;
use nx_base::edit::Edit;
use nx_base::memory::NoMemory;
use nx_base::sequence::Bytes;
use nx_host::files::Files;
use nx_host::uri::{self, WORK_FOLDER};
use nx_host::utf8::{text_front, text_of};
use nx_marks::law::edits_look_at_no_state;
use nx_recover::recover::Recover;
use nx_script::reply::{Refusal, Reply};
use nx_text::text::Text;
use nx_views::shift::shift_all;
use nx_views::view::View;
use std::alloc::Global;
use std::str;

/// The text of the large document of this seed, with so many pieces.
fn large_text(alloc: Global, seed: u64, pieces: u64) -> Result<Text, NoMemory>
    ensures { IfOk result (λ text. text ≡ large_document seed pieces) }
{
    let content = large_document(alloc, seed, pieces)?;
    Text::from_bytes(Bytes::from_vec(content.into_bytes()))
}

impl Session {
    /// Edits the text of the file under the URI from now on.
    pub(super) fn open_file<F: Files>(
        &mut self,
        uri_text: &Bytes,
        files: &mut F,
        views: &mut Vec<Box<dyn View>>,
    ) -> Result<Reply, Refusal>
        requires { IsUtf8 uri_text.now }
        ensures step { OpenStep uri_text.now self.old.editor (files_state (F.told files.old) (F.faults files.old)) (reply_of result)
            self.new.editor (files_state (F.told files.new) (F.faults files.new)) }
        ensures marks { EditsMarks (whole_edit self.old.editor self.new.editor) self.old (reply_of result) self.new }
        ensures views { MovesViews (whole_edit self.old.editor self.new.editor) (map (λ b. state b) views.old.items) (reply_of result)
            (map (λ b. state b) views.new.items) }
        ensures views_text { ViewsAreText (map (λ b. state b) views.old.items) → ViewsAreText (map (λ b. state b) views.new.items) }
        ensures text { ReplyIsText (reply_of result) }
    {
        let uri = uri::join(self.alloc, WORK_FOLDER, text_of(uri_text))?;
        match files.fetch(self.alloc, text_of(&uri))? {
            Some(bytes) => self.open_bytes(uri, bytes, views),
            None => Err(Refusal::Absent(uri)),
        }
    }

    /// Edits these bytes under this URI, as `url` prints it, from now on. Bytes that are no text are refused.
    pub fn hold_text(&mut self, uri: Bytes, bytes: Bytes, views: &mut Vec<Box<dyn View>>) -> Reply
        requires { IsAscii uri }
        ensures step { OpensBytes uri bytes self.old.editor result self.new.editor }
        ensures marks { EditsMarks (whole_edit self.old.editor self.new.editor) self.old result self.new }
        ensures right { MarksAreRight self.new }
        ensures held { IsWellHeld self.new }
        ensures views { MovesViews (whole_edit self.old.editor self.new.editor) (map (λ b. state b) views.old.items) result
            (map (λ b. state b) views.new.items) }
        ensures views_text { ViewsAreText (map (λ b. state b) views.old.items) → ViewsAreText (map (λ b. state b) views.new.items) }
        ensures text { ReplyIsText result }
    {
        let answer = self.open_bytes(uri, bytes, views);
        self.reads_right();
        match answer {
            Ok(reply) => reply,
            Err(cause) => Reply::Refused(cause),
        }
    }

    /// Takes the bytes for the text, where they are one.
    fn open_bytes(
        &mut self,
        uri: Bytes,
        bytes: Bytes,
        views: &mut Vec<Box<dyn View>>,
    ) -> Result<Reply, Refusal>
        requires utf8 { IsUtf8 uri }
        requires ascii { IsAscii uri }
        ensures step { OpensBytes uri bytes self.old.editor (reply_of result) self.new.editor }
        ensures marks { EditsMarks (whole_edit self.old.editor self.new.editor) self.old (reply_of result) self.new }
        ensures views { MovesViews (whole_edit self.old.editor self.new.editor) (map (λ b. state b) views.old.items) (reply_of result)
            (map (λ b. state b) views.new.items) }
        ensures views_text { ViewsAreText (map (λ b. state b) views.old.items) → ViewsAreText (map (λ b. state b) views.new.items) }
        ensures text { ReplyIsText (reply_of result) }
    {
        let Ok(_) = str::from_utf8(bytes.as_slice()) else {
            return Err(Refusal::NotUtf8(uri, text_front(bytes.as_slice())));
        };
        let text = Text::from_bytes(bytes)?;
        self.show(text, views);
        self.document = DocumentUri::new(uri);
        Ok(Reply::Silent)
    }

    /// Edits the large document of this seed, with so many pieces, from now on.
    pub(super) fn make(
        &mut self,
        seed: u64,
        pieces: u64,
        views: &mut Vec<Box<dyn View>>,
    ) -> Result<Reply, Refusal>
        ensures step { MakeStep seed pieces self.old.editor (reply_of result) self.new.editor }
        ensures marks { EditsMarks (whole_edit self.old.editor self.new.editor) self.old (reply_of result) self.new }
        ensures views { MovesViews (whole_edit self.old.editor self.new.editor) (map (λ b. state b) views.old.items) (reply_of result)
            (map (λ b. state b) views.new.items) }
        ensures views_text { ViewsAreText (map (λ b. state b) views.old.items) → ViewsAreText (map (λ b. state b) views.new.items) }
        ensures text { ReplyIsText (reply_of result) }
    {
        let text = large_text(self.alloc, seed, pieces)?;
        self.show(text, views);
        Ok(Reply::Silent)
    }

    /// Replaces the whole text.
    fn show(&mut self, text: Text, views: &mut Vec<Box<dyn View>>)
        ensures editor { self.new.editor ≡ opened self.old.editor self.old.editor.document text }
        ensures marks { self.new.marks ≡ edit_kept 0 (length self.old.editor.text) (length text) self.old.marks }
        ensures views { (map (λ b. state b) views.new.items) ≡ map (moved_view (whole_edit self.old.editor self.new.editor))
            (map (λ b. state b) views.old.items) }
    {
        let edit = Edit {
            from: 0,
            to: self.text.len(),
            added: text.len(),
        };
        edits_look_at_no_state::<Recover<Pool>>();
        self.marks.edit(&edit);
        self.text = text;
        self.caret = 0;
        shift_all(views, &edit);
    }

    /// Stores the text under the URI.
    pub(super) fn save<F: Files>(&self, uri_text: &Bytes, files: &mut F) -> Result<Reply, Refusal>
        requires { IsUtf8 uri_text.now }
        ensures step { SaveStep uri_text.now self.now.editor (files_state (F.told files.old) (F.faults files.old)) (reply_of result)
            self.now.editor (files_state (F.told files.new) (F.faults files.new)) }
        ensures text { ReplyIsText (reply_of result) }
    {
        let uri = uri::join(self.alloc, WORK_FOLDER, text_of(uri_text))?;
        let text = self.whole_text()?;
        files.store(self.alloc, text_of(&uri), &text)?;
        Ok(Reply::Silent)
    }
}
