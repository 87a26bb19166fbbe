//! States that are kept at places.

ghost use Rattle.std.specs.Prelude.{◌≡◌, ◌+◌, ◌-◌, ◌<◌, ◌≤◌, ◌^◌, length, IfOk, OnOk, OnErr, IsUtf8};
ghost use Rattle.nx_base.specs.Rules.{lexeme_of, IsLexeme};
ghost use Rattle.nx_base.specs.Shifting.{placed};
ghost use Rattle.nx_marks.specs.Chain.{is_mark};
ghost use Rattle.nx_marks.specs.Tags.{tag_of};
ghost use Rattle.nx_marks.specs.Taking.{longer};

use nx_base::fault::Faults;
use nx_base::machine::Machine;
use nx_base::memory::NoMemory;
use nx_base::token::{Token, TokenKind};
use std::alloc::Global;

/// A state at a place, how many bytes on the next one is, and what lies between: where `whole`, the tags and the faults of the
/// tokens from here up to the next one, whose state is the one behind them; otherwise nothing is known of it. The places of the
/// faults are counted from here. Where it isn't `whole`, `saved` tells whether the state was saved as a mark; the state at which a row
/// ends was kept without. What is `whole` is a mark.
///
/// A mark stands in a node of its own on the heap and is moved with it, but for the one that changes places with the mark at hand
/// (`Single::swap`).
#[derive(Drop)]
pub struct Mark<S> {
    pub state: S,
    pub len: usize,
    pub tags: usize,
    pub faults: Faults,
    pub whole: bool,
    pub saved: bool,
}

impl<S> Mark<S> {
    /// Whether it is a mark, or only the state at which a row ends.
    pub(crate) fn is_mark(&self) -> bool
        ensures { result ≡ is_mark self.now }
    {
        self.whole || self.saved
    }
}

/// How many tags a token of a kind is.
fn tags_of(kind: TokenKind) -> usize
    ensures { result ≡ tag_of kind }
{
    match kind {
        TokenKind::Start | TokenKind::Empty | TokenKind::End => 1,
        _ => 0,
    }
}

/// Has the machine take one more token, and makes the segment that ends in front of it longer by it, with its faults. How many tags
/// the segment has then.
#[inline(always)]
pub(crate) fn lengthen<A: Machine>(
    alloc: Global,
    machine: &mut A,
    state: &mut A::State,
    token: &mut Token,
    mark: &mut Mark<A::State>,
) -> Result<usize, NoMemory>
    requires state { A.is_state machine.old state.old }
    requires place { (A.rules machine.old).back (A.means machine.old state.old) ≤ mark.old.len }
    requires room { mark.old.len + length token.old.bytes < 2 ^ 64 }
    requires tags { mark.old.tags + 1 < 2 ^ 64 }
    requires text { IsUtf8 token.old.bytes }
    requires kind { IsLexeme (lexeme_of token.old) }
    ensures later { A.later machine.old machine.new }
    ensures state { A.is_state machine.new state.new }
    ensures after { OnOk result (A.means machine.new state.new
        ≡ (A.rules machine.old).after (A.means machine.old state.old) (lexeme_of token.old)) }
    ensures longer { OnOk result (mark.new ≡ longer mark.old (lexeme_of token.old)
        (placed (mark.old.len - (A.rules machine.old).back (A.means machine.old state.old))
        ((A.rules machine.old).gives (A.means machine.old state.old) (lexeme_of token.old)))) }
    ensures tags { IfOk result (λ tags. tags ≡ mark.new.tags) }
    ensures bytes { token.new.bytes ≡ token.old.bytes }
    ensures unchanged { OnErr result (A.means machine.new state.new ≡ A.means machine.old state.old) }
    ensures same { OnErr result (mark.new ≡ mark.old) }
{
    // The faults of a segment are counted from its mark.
    token.from = mark.len;
    machine.step(alloc, state, token, &mut mark.faults)?;
    mark.len += token.bytes.len();
    mark.tags += tags_of(token.kind);
    Ok(mark.tags)
}
