//! Texts of one token with a given value.

ghost use Rattle.std.specs.Prelude.{◌≡◌, ◌&&◌, true, false, not, [], ◌∷◌, ◌++◌, MatchOption, IfOk, OnOk, IsTrue};
ghost use Rattle.std.specs.List.{list_all};
ghost use Rattle.nx_base.specs.Characters.{is_space as is_space_code, is_of_chars};
ghost use Rattle.rng_types.specs.Spaces.{collapsed, normalized};
ghost use Rattle.rng_more_types.specs.Spaces.{unspaced};
ghost use Rattle.rng_types.specs.Words.{whitespace_of};
ghost use Rattle.rng_types.specs.Members.{is_one_token as is_one};
ghost use Rattle.rng_types.specs.OneToken.{IsOneTokenAnswer, tight, token_or_none, one_token_of};
ghost use Rattle.rng_types.specs.Types.{Accepts};

use crate::datatype::Datatype;
use crate::kind::{Form, Whitespace};
use crate::naming::bytes_of;
use crate::spaces::first_word_of;
use nx_base::character::is_space;
use nx_base::memory::NoMemory;
use nx_base::sequence::Bytes;
use std::alloc::Global;

/// Whether bytes hold no white space.
fn is_bare(bytes: &[u8]) -> bool
    ensures { result ≡ list_all (λ c. not (is_space_code c)) bytes.now }
{
    bytes.iter().all(|byte| !is_space(char::from(*byte)))
}

/// Whether bytes are one token.
pub(crate) fn is_one_token(bytes: &[u8]) -> bool
    ensures { result ≡ is_one bytes.now }
{
    !bytes.is_empty() && is_bare(bytes)
}

/// The only word of bytes, if there is one.
fn lone_word(bytes: &[u8]) -> Option<&[u8]>
    ensures { MatchOption result (is_one (collapsed bytes.now) ≡ false)
        (λ word. (is_one (collapsed bytes.now) ≡ true) × (word.now ≡ collapsed bytes.now)) }
{
    let Some((word, rest)) = first_word_of(bytes) else {
        return None;
    };
    match first_word_of(rest) {
        None => Some(word),
        Some(_) => None,
    }
}

/// Bytes, if they are one token.
fn whole_token(bytes: &[u8]) -> Option<&[u8]>
    ensures { MatchOption result (is_one bytes.now ≡ false) (λ word. (is_one bytes.now ≡ true) × (word.now ≡ bytes.now)) }
{
    if is_one_token(bytes) {
        Some(bytes)
    } else {
        None
    }
}

impl Whitespace {
    /// Bytes after this treatment, if they are one token then.
    fn token(self, bytes: &[u8]) -> Option<&[u8]>
        ensures { MatchOption result (is_one (normalized self bytes.now) ≡ false)
            (λ word. (is_one (normalized self bytes.now) ≡ true) × (word.now ≡ normalized self bytes.now)) }
    {
        match self {
            Whitespace::Preserve => whole_token(bytes),
            Whitespace::Replace => whole_token(bytes),
            Whitespace::Collapse => lone_word(bytes),
        }
    }
}

/// A copy of bytes after this treatment, if they are one token then.
fn copied_token(
    alloc: Global,
    whitespace: Whitespace,
    bytes: &[u8],
) -> Result<Option<Bytes>, NoMemory>
    ensures { IfOk result (λ found. found ≡ token_or_none (normalized whitespace bytes.now)) }
{
    match whitespace.token(bytes) {
        Some(word) => Ok(Some(bytes_of(alloc, word)?)),
        None => Ok(None),
    }
}

/// Adds a byte, unless it is white space.
fn push_solid(kept: &mut Bytes, byte: u8) -> Result<(), NoMemory>
    ensures { OnOk result (kept.new ≡ kept.old ++ unspaced (byte ∷ [])) }
{
    if is_space(char::from(byte)) {
        return Ok(());
    }
    kept.push(byte)?;
    Ok(())
}

/// A copy of what is no white space among bytes.
fn without_space(alloc: Global, bytes: &[u8]) -> Result<Bytes, NoMemory>
    ensures { IfOk result (λ kept. kept ≡ unspaced bytes.now) }
{
    let mut kept = Bytes::new(alloc);
    for byte in bytes {
        push_solid(&mut kept, *byte)?;
    }
    Ok(kept)
}

/// The same, if there is anything.
fn tight_token(alloc: Global, bytes: &[u8]) -> Result<Option<Bytes>, NoMemory>
    ensures { IfOk result (λ found. found ≡ token_or_none (unspaced bytes.now)) }
{
    let kept = without_space(alloc, bytes)?;
    if kept.is_empty() {
        return Ok(None);
    }
    Ok(Some(kept))
}

impl Form {
    /// A copy of a text as a type of the form sees it, without what may be left out of it, if that is one token.
    fn token(self, alloc: Global, bytes: &[u8]) -> Result<Option<Bytes>, NoMemory>
        ensures { IfOk result (λ found. found ≡ token_or_none (tight self (normalized (whitespace_of self) bytes.now))) }
    {
        match self {
            Form::Any(whitespace) => copied_token(alloc, whitespace, bytes),
            Form::One(_) => copied_token(alloc, Whitespace::Collapse, bytes),
            Form::Several(_) => copied_token(alloc, Whitespace::Collapse, bytes),
            Form::More(_) => tight_token(alloc, bytes),
        }
    }
}

impl Datatype {
    /// A text of one token that has the same value as this one; none where there is no such text. That is so of a text of
    /// the type, of characters that XML allows: of others the answer is what is left of it after the type's white space.
    pub fn as_one_token(&self, alloc: Global, value: &str) -> Result<Option<Bytes>, NoMemory>
        ensures told { IfOk result (λ found.
            Accepts self.now value.now → IsTrue (is_of_chars value.now) → IsOneTokenAnswer self.now value.now found) }
        ensures value { IfOk result (λ found. found ≡ one_token_of self.now value.now) }
    {
        self.form.token(alloc, value.as_bytes())
    }
}
