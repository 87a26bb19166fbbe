//! The token at a border, and the end tag of a start tag.

ghost use Rattle.std.specs.Prelude.{◌≡◌, ◌≤◌, IfOk};
ghost use Rattle.nx_base.specs.Text.{IsPlace};
ghost use Rattle.nx_base.specs.Tokens.{tokens_from};
ghost use Rattle.nx_events.specs.Tags.{end_name};
ghost use Rattle.nx_tags.specs.Closing.{FoundToken, FoundEnd, Closes, PassesNested};
ghost use Rattle.nx_tags.specs.Parts.{IsTokenBorder};

use nx_base::memory::NoMemory;
use nx_base::sequence::Sequence;
use nx_base::steps::Steps;
use nx_base::token::{Token, TokenKind};
use nx_events::start_name;
use nx_scan::scan::scan_token;
use nx_text::text::Text;
use std::alloc::Global;
use std::sync::ledger::Ledger;

/// What a token does to start tags that are open.
#[derive(Clone, Copy, Debug, PartialEq, Eq)]
pub(crate) enum Nesting {
    /// Some are open behind it.
    Inside,
    /// It closes the last one.
    Closed,
    /// It is an end tag, but not that of the innermost one.
    Broken,
}

/// The token that begins at a place; none exactly where none does. `from` is a border in front of it, and the tokens from there on are read.
pub(crate) fn token_at<L: Ledger>(
    alloc: Global,
    text: &Text,
    from: usize,
    at: usize,
    steps: &mut Steps<L>,
) -> Result<Option<Token>, NoMemory>
    requires border { IsTokenBorder text.now from }
    requires before { from ≤ at }
    ensures token { IfOk result (FoundToken text.now at) }
{
    let _len = text.len();
    let mut place = from;
    while place < at {
        let Some(token) = scan_token(alloc, text, place, steps)? else {
            return Ok(None);
        };
        place += token.bytes.len();
    }
    if place > at {
        return Ok(None);
    }
    scan_token(alloc, text, place, steps)
}

/// The name of an end tag: behind its first byte there is one, as in a start tag.
fn end_name(bytes: &[u8]) -> &[u8]
    ensures { result.now ≡ end_name bytes.now }
{
    if bytes.is_empty() {
        return start_name(bytes);
    }
    start_name(&bytes[1..])
}

/// Closes the innermost of these start tags by an end tag.
fn close(open_tags: &mut Sequence<Token>, end: &Token) -> Nesting
    ensures { Closes end.now open_tags.old open_tags.new result }
{
    let Some(innermost) = open_tags.pop() else {
        return Nesting::Broken;
    };
    if start_name(innermost.bytes.as_slice()) != end_name(end.bytes.as_slice()) {
        return Nesting::Broken;
    }
    if open_tags.is_empty() {
        Nesting::Closed
    } else {
        Nesting::Inside
    }
}

/// One token more behind start tags that are open, the innermost last.
fn pass_nested(open_tags: &mut Sequence<Token>, token: Token) -> Result<Nesting, NoMemory>
    ensures { IfOk result (PassesNested token.kind token open_tags.old open_tags.new) }
{
    match token.kind {
        TokenKind::Start => {
            open_tags.push(token)?;
            Ok(Nesting::Inside)
        }
        TokenKind::End => Ok(close(open_tags, &token)),
        _ => Ok(Nesting::Inside),
    }
}

/// Where the end tag of a start tag begins; none exactly where the tags behind it don't nest up to there. `from` is the border behind the
/// start tag, and the tokens from there on are read.
pub(crate) fn end_tag_of<L: Ledger>(
    alloc: Global,
    text: &Text,
    start: Token,
    from: usize,
    steps: &mut Steps<L>,
) -> Result<Option<usize>, NoMemory>
    requires { IsPlace text.now from }
    ensures { IfOk result (FoundEnd start (tokens_from text.now from)) }
{
    let _len = text.len();
    let mut open_tags = Sequence::new(alloc);
    open_tags.push(start)?;
    let mut place = from;
    loop {
        let Some(token) = scan_token(alloc, text, place, steps)? else {
            return Ok(None);
        };
        let to = place + token.bytes.len();
        match pass_nested(&mut open_tags, token)? {
            Nesting::Inside => {}
            Nesting::Closed => return Ok(Some(place)),
            Nesting::Broken => return Ok(None),
        }
        place = to;
    }
}
