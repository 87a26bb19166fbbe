//! Tokens as text, with `|` between two. In front of a token's own text stands a mark of its kind:
//!
//! | mark | kind | mark | kind | mark | kind |
//! |---|---|---|---|---|---|
//! | `B` | byte order mark | `e` | end tag | `D` | document type |
//! | `t` | text | `c` | comment | `x` | XML declaration |
//! | `s` | start tag | `p` | processing instruction | `b` | bad markup |
//! | `m` | empty-element tag | `d` | CDATA section | `u` | unclosed markup |

ghost use Rattle.std.specs.Prelude.{◌≡◌, ◌≤◌, IfOk, IsUtf8, codes};
ghost use Rattle.nx_base.specs.Tokens.{begins_with};
ghost use Rattle.nx_events.specs.Runs.{run_back};

use nx_base::sequence::Bytes;
use nx_base::token::{Token, TokenKind};
use nx_events::item::Items;
use nx_events::prefix::{TagPrefix, tag_prefix};
use nx_events::reader::{begin, finish, take};
use nx_events::state::EventState;
use std::alloc::Global;
use std::test::Fail;

/// A state, and the place where the last token before it ends.
#[derive(Drop)]
pub(crate) struct Behind {
    pub(crate) state: EventState,
    pub(crate) at: usize,
}

fn kind_of(mark: u8) -> TokenKind {
    match mark {
        b't' => TokenKind::Text,
        b's' => TokenKind::Start,
        b'm' => TokenKind::Empty,
        b'e' => TokenKind::End,
        b'c' => TokenKind::Comment,
        b'p' => TokenKind::Pi,
        b'd' => TokenKind::Cdata,
        b'D' => TokenKind::Doctype,
        b'x' => TokenKind::Decl,
        b'b' => TokenKind::Bad,
        b'u' => TokenKind::Unclosed,
        _ => TokenKind::Bom,
    }
}

/// The token of a part, at a place.
fn token_of(alloc: Global, from: usize, part: &str) -> Result<Token, Fail>
    ensures { IfOk result (λ token. token.from ≡ from) }
{
    let (mark, bytes) = part.as_bytes().split_first().ok_or("no mark")?;
    Ok(Token {
        kind: kind_of(*mark),
        from,
        bytes: Bytes::from_vec(Vec::from_slice(alloc, bytes)?),
    })
}

/// Takes the token of one more part, adds its items, and answers where it ends.
#[tactic(auto, using(nx_events::specs::RunsGrow::back_grows))]
fn take_part(
    alloc: Global,
    state: &mut EventState,
    at: usize,
    part: &str,
    items: &mut Items,
) -> Result<usize, Fail>
    requires { run_back state.old.run ≤ at }
    ensures { IfOk result (λ end. run_back state.new.run ≤ end) }
{
    let token = token_of(alloc, at, part)?;
    let end = at.checked_add(token.bytes.len()).ok_or("too long")?;
    items.append(take(alloc, state, &token)?)?;
    Ok(end)
}

/// The state behind the tokens of these parts. Their items are added.
pub(crate) fn read(alloc: Global, parts: &str, items: &mut Items) -> Result<Behind, Fail>
    ensures { IfOk result (λ behind. run_back behind.state.run ≤ behind.at) }
{
    let mut state = begin(alloc)?;
    let mut at = 0;
    for part in parts.split_terminator('|') {
        at = take_part(alloc, &mut state, at, part, items)?;
    }
    Ok(Behind { state, at })
}

/// The state behind the tokens of these parts.
pub(crate) fn state_behind(alloc: Global, parts: &str) -> Result<EventState, Fail> {
    let mut items = Items::new(alloc);
    Ok(read(alloc, parts, &mut items)?.state)
}

/// The items of the text of these parts.
pub(crate) fn items_of(alloc: Global, parts: &str) -> Result<Items, Fail> {
    let mut items = Items::new(alloc);
    let behind = read(alloc, parts, &mut items)?;
    items.append(finish(alloc, &behind.state, behind.at)?)?;
    Ok(items)
}

/// Whether bytes begin with `<`.
#[tactic(auto, unfolding(nx_base::specs::Tokens::begins_with))]
fn begins_tag(bytes: &[u8]) -> bool
    ensures { result ≡ begins_with (codes "<") bytes.now }
{
    match bytes {
        [] => false,
        [first, ..] => *first == b'<',
    }
}

fn bytes_of(alloc: Global, text: &str) -> Result<Bytes, Fail>
    ensures { IfOk result (λ bytes. IsUtf8 bytes) }
{
    Ok(Bytes::from_vec(Vec::from_slice(alloc, text.as_bytes())?))
}

/// The prefix that a tag's text is behind these parts.
pub(crate) fn prefix_behind(alloc: Global, parts: &str, text: &str) -> Result<TagPrefix, Fail> {
    let state = state_behind(alloc, parts)?;
    let bytes = bytes_of(alloc, text)?;
    if begins_tag(bytes.as_slice()) {
        Ok(tag_prefix(alloc, &state, &bytes)?)
    } else {
        Err("no tag")?
    }
}
