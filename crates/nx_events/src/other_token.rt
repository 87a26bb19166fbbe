//! Tokens that are no tags, no character data and no byte order mark.

ghost use Rattle.std.specs.Prelude.{◌≡◌, ◌+◌, ◌<◌, ◌≤◌, ◌^◌, ◌++◌, length, OnOk, OnErr};
ghost use Rattle.nx_events.specs.Runs.{run_back};
ghost use Rattle.nx_events.specs.Items.{declaration_items, doctype_items, IsOther, is_doctype, passed_other, items_of_token};

use crate::declaration::is_xml_declaration;
use crate::item::Items;
use crate::markup::{is_bad_comment, is_bad_pi};
use crate::reading::Reading;
use crate::stage::pass;
use crate::state::EventState;
use crate::token_fault::{push_characters, push_token_fault_if};
use nx_base::fault::Kind;
use nx_base::memory::NoMemory;
use nx_base::token::{Token, TokenKind};

// Adds the items of an XML declaration.
#[tactic(auto, unfolding(crate::specs::Items::declaration_items))]
fn push_declaration(items: &mut Items, state: &EventState, token: &Token) -> Result<(), NoMemory>
    requires { token.now.from + length token.now.bytes < 2 ^ 64 }
    ensures { OnOk result (items.new ≡ items.old ++ declaration_items state.now token.now) }
{
    if state.came {
        push_token_fault_if(items, true, Kind::Misplaced, token)?;
    } else {
        let bad = !is_xml_declaration(token.bytes.as_slice());
        push_token_fault_if(items, bad, Kind::BadDecl, token)?;
    }
    Ok(())
}

// Adds the items of a document type declaration.
#[tactic(auto, unfolding(crate::specs::Items::doctype_items))]
fn push_doctype(items: &mut Items, state: &EventState, token: &Token) -> Result<(), NoMemory>
    requires { token.now.from + length token.now.bytes < 2 ^ 64 }
    ensures { OnOk result (items.new ≡ items.old ++ doctype_items state.now token.now) }
{
    let misplaced = state.started || state.doctype;
    push_token_fault_if(items, misplaced, Kind::Misplaced, token)?;
    Ok(())
}

// Adds the items of a token that isn't a tag, character data or a byte order mark.
#[tactic(auto, unfolding(crate::specs::Items::comment_items, crate::specs::Items::pi_items, crate::specs::Items::items_of_token))]
pub(crate) fn push_other(
    items: &mut Items,
    state: &EventState,
    token: &Token,
) -> Result<(), NoMemory>
    requires kind { IsOther token.now.kind }
    requires room { token.now.from + length token.now.bytes < 2 ^ 64 }
    ensures { OnOk result (items.new ≡ items.old ++ items_of_token state.now token.now) }
{
    let bytes = token.bytes.as_slice();
    match token.kind {
        TokenKind::Decl => push_declaration(items, state, token)?,
        TokenKind::Doctype => push_doctype(items, state, token)?,
        TokenKind::Comment => {
            let bad = is_bad_comment(bytes);
            push_characters(items, Reading::Plain, bad, Kind::BadComment, token)?;
        }
        TokenKind::Pi => {
            let bad = is_bad_pi(bytes);
            push_characters(items, Reading::Plain, bad, Kind::BadPi, token)?;
        }
        TokenKind::Bad => push_token_fault_if(items, true, Kind::BadMarkup, token)?,
        TokenKind::Unclosed => push_token_fault_if(items, true, Kind::Unclosed, token)?,
        _ => {}
    }
    Ok(())
}

fn is_doctype(kind: TokenKind) -> bool
    ensures { result ≡ is_doctype kind }
{
    matches!(kind, TokenKind::Doctype)
}

/// The state behind such a token.
pub(crate) fn pass_other(state: &mut EventState, token: &Token)
    requires { run_back state.old.run + length token.now.bytes < 2 ^ 64 }
    ensures { state.new ≡ passed_other state.old token.now }
{
    pass(state, token);
    state.doctype = state.doctype || is_doctype(token.kind);
}
