//! What is known of the tokens in front of a place.

ghost use Rattle.std.specs.Prelude.{◌≡◌, ◌↔◌, ◌+◌, ◌<◌, ◌≤◌, ◌⊎◌, ◌^◌, [], length, IsTrue, IfOk, OnOk};
ghost use Rattle.nx_base.specs.Text.{IsPlace};
ghost use Rattle.nx_base.specs.Tokens.{end_of, tokens_of};
ghost use Rattle.nx_events.specs.Items.{state_behind};
ghost use Rattle.nx_events.specs.Runs.{run_back};
ghost use Rattle.nx_scan.specs.Markup.{IsEnded};
ghost use Rattle.nx_tags.specs.Parts.{ending_by};
ghost use Rattle.nx_tags.specs.Reading.{IsRead, IsOpen, StopsAt, starts_by_kind};

use nx_base::memory::NoMemory;
use nx_base::steps::Steps;
use nx_base::token::{Token, TokenKind};
use nx_events::{EventState, copy, depth, take};
use nx_scan::scan::scan_token;
use nx_text::text::Text;
use std::alloc::Global;
use std::sync::ledger::Ledger;

/// What is known behind some tokens, and the byte offsets at which start tags begin that are open behind them, the innermost last. Those
/// are left out that stand in front of the border at which reading began.
#[derive(Drop)]
pub(crate) struct Front {
    pub(crate) state: EventState,
    pub(crate) starts: Vec<usize>,
}

/// Where reading towards a place stops.
#[derive(Drop)]
pub(crate) enum Stop {
    /// At the place, and whether each token that ends there is neither Bad nor Unclosed.
    Border(bool),
    /// At this token, which the place cuts.
    Inside(Token),
}

/// Whether a token of this kind is neither Bad nor Unclosed.
fn is_ended(kind: TokenKind) -> bool
    ensures { IsTrue result ↔ IsEnded kind }
{
    match kind {
        TokenKind::Bad | TokenKind::Unclosed => false,
        TokenKind::Bom
        | TokenKind::Text
        | TokenKind::Start
        | TokenKind::Empty
        | TokenKind::End
        | TokenKind::Comment
        | TokenKind::Pi
        | TokenKind::Cdata
        | TokenKind::Doctype
        | TokenKind::Decl => true,
    }
}

/// The start tags that are open behind a token, where `outer` elements were open in front of it and `left` are behind it.
fn pass_tag(
    starts: &mut Vec<usize>,
    token: &Token,
    outer: usize,
    left: usize,
) -> Result<(), NoMemory>
    ensures { OnOk result (starts.new.items ≡ starts_by_kind token.now.kind token.now.from outer left starts.old.items) }
{
    match token.kind {
        TokenKind::Start => starts.push(token.from)?,
        TokenKind::End => {
            let unknown = outer.saturating_sub(starts.len());
            starts.truncate(left.saturating_sub(unknown));
        }
        _ => {}
    }
    Ok(())
}

impl Front {
    /// What is known at a border, of which no start tag is known.
    pub(crate) fn new(alloc: Global, state: &EventState) -> Result<Front, NoMemory>
        ensures state { IfOk result (λ front. front.state ≡ state.now) }
        ensures starts { IfOk result (λ front. front.starts.items ≡ []) }
    {
        Ok(Front {
            state: copy(alloc, state)?,
            starts: Vec::new(alloc),
        })
    }

    /// One token more.
    fn pass(&mut self, alloc: Global, token: &Token) -> Result<(), NoMemory>
        requires place { run_back self.old.state.run ≤ token.now.from }
        requires room { end_of token.now < 2 ^ 64 }
        ensures state { OnOk result (self.new.state ≡ state_behind self.old.state token.now) }
        ensures starts { OnOk result (self.new.starts.items ≡ starts_by_kind token.now.kind token.now.from
            (length self.old.state.elements) (length self.new.state.elements) self.old.starts.items) }
    {
        let outer = depth(&self.state);
        let _items = take(alloc, &mut self.state, token)?;
        pass_tag(&mut self.starts, token, outer, depth(&self.state))
    }

    /// Takes the tokens that end at a place or before.
    pub(crate) fn read_to<L: Ledger>(
        &mut self,
        alloc: Global,
        text: &Text,
        from: usize,
        at: usize,
        steps: &mut Steps<L>,
    ) -> Result<Stop, NoMemory>
        requires place { IsPlace text.now at }
        requires before { (from < at) ⊎ (from ≡ 0) }
        requires read { IsRead text.now from self.old.state }
        requires opened { IsOpen text.now from (ending_by from (tokens_of text.now)) self.old.starts.items }
        ensures { IfOk result (StopsAt text.now from at self.new) }
    {
        let _len = text.len();
        let mut place = from;
        let mut ended = true;
        while place < at {
            let Some(token) = scan_token(alloc, text, place, steps)? else {
                unreachable!()
            };
            let to = place + token.bytes.len();
            if to > at {
                return Ok(Stop::Inside(token));
            }
            self.pass(alloc, &token)?;
            ended = is_ended(token.kind);
            place = to;
        }
        Ok(Stop::Border(ended))
    }
}
