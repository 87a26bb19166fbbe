//! Faults of the characters and references in a token.

ghost use Rattle.std.specs.Prelude.{◌≡◌, ◌+◌, ◌<◌, ◌^◌, ◌++◌, length, OnOk, IfOk, IsTrue};
ghost use Rattle.nx_events.specs.Faults.{bare_fault, bare_faults, faults_as_items};
ghost use Rattle.nx_events.specs.CharacterFaults.{character_flaw, tag_flaw, text_flaw, piece_flaw, is_bad_char, is_bad_text, is_told};
ghost use Rattle.nx_events.specs.CharacterFaults.{told_behind, new_faults, character_faults, faults_behind};

use crate::item::{Item, Items};
use crate::piece::front_piece;
use crate::plain::{are_plain, plain_len};
use crate::reading::Reading;
use crate::reference::referenced;
use crate::utf8::{front_char, is_char};
use nx_base::detail::Detail;
use nx_base::fault::{Fault, Kind, Span};
use nx_base::memory::NoMemory;

/// Which of the kinds of faults that are told once in a token were told.
#[derive(Clone, Copy)]
pub struct Told {
    pub bad_char: bool,
    pub bad_text: bool,
}

// What is wrong with a piece where characters stand for themselves.
#[tactic(auto, unfolding(crate::specs::CharacterFaults::character_flaw))]
fn character_flaw(piece: &[u8]) -> Option<Kind>
    ensures { result ≡ character_flaw piece.now }
{
    if is_char(front_char(piece)) {
        None
    } else {
        Some(Kind::BadChar)
    }
}

// What is wrong with a piece in a tag, where references are read.
#[tactic(auto, unfolding(crate::specs::CharacterFaults::tag_flaw))]
fn tag_flaw(piece: &[u8]) -> Option<Kind>
    ensures { result ≡ tag_flaw piece.now }
{
    if !piece.is_empty() && piece[0] == b'&' {
        if referenced(piece).is_some() {
            None
        } else {
            Some(Kind::BadReference)
        }
    } else {
        character_flaw(piece)
    }
}

// What is wrong with a piece of character data, where `]]>` may not stand.
#[tactic(auto, unfolding(crate::specs::CharacterFaults::text_flaw))]
fn text_flaw(piece: &[u8]) -> Option<Kind>
    ensures { result ≡ text_flaw piece.now }
{
    if piece.len() == 3 && piece[0] == b']' {
        Some(Kind::BadText)
    } else {
        tag_flaw(piece)
    }
}

// What is wrong with a piece in this reading.
fn piece_flaw(reading: Reading, piece: &[u8]) -> Option<Kind>
    ensures { result ≡ piece_flaw reading piece.now }
{
    match reading {
        Reading::Plain => character_flaw(piece),
        Reading::Text => text_flaw(piece),
        Reading::Value => tag_flaw(piece),
    }
}

fn is_bad_char(kind: Kind) -> bool
    ensures { result ≡ is_bad_char kind }
{
    matches!(kind, Kind::BadChar)
}

fn is_bad_text(kind: Kind) -> bool
    ensures { result ≡ is_bad_text kind }
{
    matches!(kind, Kind::BadText)
}

impl Told {
    // Whether a fault of this kind was told and isn't told again.
    fn has(self, kind: Kind) -> bool
        ensures { result ≡ is_told self kind }
    {
        (self.bad_char && is_bad_char(kind)) || (self.bad_text && is_bad_text(kind))
    }

    // What was told behind one more piece.
    fn behind(self, flaw: Option<Kind>) -> Told
        ensures { result ≡ told_behind self flaw }
    {
        match flaw {
            None => self,
            Some(kind) => Told {
                bad_char: self.bad_char || is_bad_char(kind),
                bad_text: self.bad_text || is_bad_text(kind),
            },
        }
    }
}

/// Adds a fault without a detail.
pub(crate) fn push_bare(items: &mut Items, kind: Kind, span: Span) -> Result<(), NoMemory>
    ensures { OnOk result (items.new ≡ items.old ++ faults_as_items (bare_faults (Some kind) span)) }
{
    items.push(Item::Fault(Fault {
        span,
        kind,
        detail: Detail::new(),
    }))?;
    Ok(())
}

// Adds the fault of a piece, unless it was told.
fn push_new(items: &mut Items, told: Told, flaw: Option<Kind>, span: Span) -> Result<(), NoMemory>
    ensures { OnOk result (items.new ≡ items.old ++ faults_as_items (new_faults told flaw span)) }
{
    if let Some(kind) = flaw {
        if !told.has(kind) {
            push_bare(items, kind, span)?;
        }
    }
    Ok(())
}

// What is left of a text: where it begins, its bytes, and what was told of the bytes before it.
#[derive(Clone, Copy)]
struct Left<'a> {
    told: Told,
    at: usize,
    bytes: &'a [u8],
}

// Passes the front of a text, a run of plain bytes or one piece, and adds its fault.
fn pass_front<'a>(
    items: &mut Items,
    reading: Reading,
    told: Told,
    at: usize,
    bytes: &'a [u8],
) -> Result<Left<'a>, NoMemory>
    requires some { 0 < length bytes.now }
    requires room { at + length bytes.now < 2 ^ 64 }
    ensures faults { IfOk result (λ left. items.new ++ faults_as_items (faults_behind left.told reading left.at left.bytes.now)
        ≡ items.old ++ faults_as_items (faults_behind told reading at bytes.now)) }
    ensures room { IfOk result (λ left. left.at + length left.bytes.now < 2 ^ 64) }
    ensures shorter { IfOk result (λ left. length left.bytes.now < length bytes.now) }
{
    let n = plain_len(reading, bytes);
    if n > 0 {
        return Ok(Left {
            told,
            at: at + n,
            bytes: &bytes[n..],
        });
    }
    let piece = front_piece(reading, bytes);
    let flaw = piece_flaw(reading, piece);
    let to = at + piece.len();
    push_new(items, told, flaw, Span { from: at, to })?;
    Ok(Left {
        told: told.behind(flaw),
        at: to,
        bytes: &bytes[piece.len()..],
    })
}

/// Adds the faults of the characters and references in bytes that begin at the place `at`.
pub(crate) fn push_character_faults(
    items: &mut Items,
    reading: Reading,
    at: usize,
    bytes: &[u8],
) -> Result<(), NoMemory>
    requires { at + length bytes.now < 2 ^ 64 }
    ensures { OnOk result (items.new ≡ items.old ++ faults_as_items (character_faults reading at bytes.now)) }
{
    if are_plain(reading, bytes) {
        return Ok(());
    }
    push_faults_one_by_one(items, reading, at, bytes)?;
    Ok(())
}

// Adds the faults of bytes some of which aren't plain, a run or a piece at a time.
#[inline(never)]
fn push_faults_one_by_one(
    items: &mut Items,
    reading: Reading,
    at: usize,
    bytes: &[u8],
) -> Result<(), NoMemory>
    requires { at + length bytes.now < 2 ^ 64 }
    ensures { OnOk result (items.new ≡ items.old ++ faults_as_items (character_faults reading at bytes.now)) }
{
    let mut told = Told {
        bad_char: false,
        bad_text: false,
    };
    let mut at = at;
    let mut rest = bytes;
    while !rest.is_empty() {
        let left = pass_front(items, reading, told, at, rest)?;
        told = left.told;
        at = left.at;
        rest = left.bytes;
    }
    Ok(())
}
