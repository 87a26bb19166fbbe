//! The command that locates the schema of the document.

ghost use Rattle.std.specs.Prelude.{◌≡◌, IsUtf8, IfOk, IfErr, IfSome};
ghost use Rattle.nx_script.specs.Replies.{reply_of, LocatedIsText, RefusalIsText, ReplyIsText};
ghost use Rattle.nx_session.specs.Editor.{files_state};
ghost use Rattle.nx_session.specs.Marks.{BeginsMarks};
ghost use Rattle.nx_session.specs.Locating.{RulesAre, LacksRules, LocatingAnswers, SchemaAutoStep};

use super::Session;
use nx_base::sequence::Bytes;
use nx_base::steps::Steps;
use nx_host::files::Files;
use nx_host::uri::{self, WORK_FOLDER};
use nx_host::utf8::text_of;
use nx_locate::locate;
use nx_script::reply::{Refusal, Reply};
use std::str;
use std::sync::ledger::Ledger;

impl Session {
    /// Locates the schema of the document, and holds the document against it, or against none, from now on.
    pub(super) fn locate_schema<F: Files, L: Ledger>(
        &mut self,
        files: &mut F,
        steps: &mut Steps<L>,
    ) -> Result<Reply, Refusal>
        ensures step { SchemaAutoStep self.old.editor (files_state (F.told files.old) (F.faults files.old)) (reply_of result)
            self.new.editor (files_state (F.told files.new) (F.faults files.new)) }
        ensures marks { BeginsMarks self.old (reply_of result) self.new }
        ensures text { ReplyIsText (reply_of result) }
    {
        match self.located(files, steps)? {
            Some(uri) => {
                self.hold_file(text_of(&uri), files, steps)?;
                Ok(Reply::Located(Some(uri)))
            }
            None => {
                self.hold_schema(None)?;
                Ok(Reply::Located(None))
            }
        }
    }

    /// The URI of the schema that the rules give for the document; none where they give none, and where there are no rules.
    fn located<F: Files, L: Ledger>(
        &self,
        files: &mut F,
        steps: &mut Steps<L>,
    ) -> Result<Option<Bytes>, Refusal>
        ensures located { LocatingAnswers self.now.editor (files_state (F.told files.old) (F.faults files.old)) (F.faults files.new) result }
        ensures map { F.told files.new ≡ F.told files.old }
        ensures found { IfOk result LocatedIsText }
        ensures text { IfErr result RefusalIsText }
    {
        let rules = self.rules_uri()?;
        let rules = match &rules {
            Some(uri) => Some(text_of(uri)),
            None => None,
        };
        let document = self.document.as_str();
        let found = locate(self.alloc, rules, document, &self.text, files, steps)?;
        Ok(found)
    }

    /// The URI of the rules that were given, if any were.
    fn rules_uri(&self) -> Result<Option<Bytes>, Refusal>
        ensures given { IfOk result (RulesAre self.now.editor.locating) }
        ensures utf8 { IfOk result (λ found. IfSome found IsUtf8) }
        ensures lacks { IfErr result (LacksRules self.now.editor.locating) }
    {
        let Some(given) = &self.locating else {
            return Ok(None);
        };
        let Ok(text) = str::from_utf8(given.as_slice()) else {
            return Err(Refusal::BadUri);
        };
        Ok(Some(uri::join(self.alloc, WORK_FOLDER, text)?))
    }
}
