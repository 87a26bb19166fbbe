//! Texts that are tried: the first that is a member.
//!
//! Of each family of types there are more texts than there can be excepts, each taken away by another one: words of one letter, a
//! literal behind more and more spaces or zeros, longer and longer language tags, dates and octets of other values. Where there is
//! a member one of them is.

ghost use Rattle.std.specs.Prelude.{◌≡◌, ◌≤◌, ◌<◌, ◌+◌, ℕ, false, true, IfOk, IsTrue, MatchOption};
ghost use Rattle.std.specs.List.{list_all};
ghost use Rattle.rng_more_types.specs.Laws.{candidate};
ghost use Rattle.rng_types.specs.Giving.{is_member, word_of, pad, many, tag, zeroed as with_zeros};
ghost use Rattle.rng_types.specs.WellMade.{is_sound_except};

use crate::datatype::{Datatype, Except};
use crate::left_numbers::limit_of;
use crate::members::TRIALS;
use crate::more_texts::more_text;
use crate::naming::bytes_of;
use crate::number_texts::zeroed;
use crate::one_token::is_one_token;
use crate::spelling::{letter_of, many, padded, tag, word_of};
use crate::word::is_of_chars;
use nx_base::memory::NoMemory;
use nx_base::sequence::Bytes;
use rng_more_types::MoreType;
use std::alloc::Global;

impl Datatype {
    /// Whether a text of characters that XML allows is a member.
    fn is_member(&self, excepts: &[Except], one_token: bool, text: &str) -> bool
        requires { IsTrue (list_all (is_sound_except self.now) excepts.now) }
        ensures { result ≡ is_member self.now excepts.now one_token text.now }
    {
        is_of_chars(text.as_bytes())
            && self.accepts(text)
            && self.is_left(excepts, text)
            && (!one_token || is_one_token(text.as_bytes()))
    }

    /// Whether bytes are such a text that is a member.
    fn is_member_in_bytes(&self, excepts: &[Except], one_token: bool, bytes: &[u8]) -> bool
        requires { IsTrue (list_all (is_sound_except self.now) excepts.now) }
        ensures { result ≡ is_member self.now excepts.now one_token bytes.now }
    {
        match str::from_utf8(bytes) {
            Ok(text) => self.is_member(excepts, one_token, text),
            Err(_) => false,
        }
    }

    /// A literal, if it is a member.
    fn literal_left(
        &self,
        alloc: Global,
        excepts: &[Except],
        one_token: bool,
        literal: &[u8],
    ) -> Result<Option<Bytes>, NoMemory>
        requires { IsTrue (list_all (is_sound_except self.now) excepts.now) }
        ensures { IfOk result (λ found. MatchOption found (Unit {0}) (λ text. is_member self.now excepts.now one_token text ≡ true)) }
    {
        if !self.is_member_in_bytes(excepts, one_token, literal) {
            return Ok(None);
        }
        let text = bytes_of(alloc, literal)?;
        Ok(Some(text))
    }

    /// The first of some literals that is a member.
    pub(crate) fn first_literal_left(
        &self,
        alloc: Global,
        excepts: &[Except],
        one_token: bool,
        literals: &[&str],
    ) -> Result<Option<Bytes>, NoMemory>
        requires { IsTrue (list_all (is_sound_except self.now) excepts.now) }
        ensures { IfOk result (λ found. MatchOption found (Unit {0}) (λ text. is_member self.now excepts.now one_token text ≡ true)) }
    {
        for literal in literals {
            let found = self.literal_left(alloc, excepts, one_token, literal.as_bytes())?;
            if found.is_some() {
                return Ok(found);
            }
        }
        Ok(None)
    }

    /// The first of the limits of bounds that is a member.
    pub(crate) fn first_limit_left(
        &self,
        alloc: Global,
        excepts: &[Except],
        one_token: bool,
    ) -> Result<Option<Bytes>, NoMemory>
        requires { IsTrue (list_all (is_sound_except self.now) excepts.now) }
        ensures { IfOk result (λ found. MatchOption found (Unit {0}) (λ text. is_member self.now excepts.now one_token text ≡ true)) }
    {
        for facet in self.facets.as_slice() {
            let found = self.literal_left(alloc, excepts, one_token, limit_of(facet))?;
            if found.is_some() {
                return Ok(found);
            }
        }
        Ok(None)
    }

    /// The first of the words of one small letter of ASCII, of that many, that is a member.
    fn first_ascii_word_left(
        &self,
        alloc: Global,
        excepts: &[Except],
        one_token: bool,
        count: u64,
    ) -> Result<Option<Bytes>, NoMemory>
        requires { IsTrue (list_all (is_sound_except self.now) excepts.now) }
        ensures { IfOk result (λ found. MatchOption found (Unit {0}) (λ text. is_member self.now excepts.now one_token text ≡ true)) }
    {
        for letter in b'a'..=b'z' {
            let text = word_of(alloc, char::from(letter), count)?;
            if self.is_member(excepts, one_token, text.as_str()) {
                return Ok(Some(Bytes::from_vec(text.into_bytes())));
            }
        }
        Ok(None)
    }

    /// The first of the words of one letter, of that many, that is a member. Letters of ASCII come first.
    pub(crate) fn first_word_left(
        &self,
        alloc: Global,
        excepts: &[Except],
        one_token: bool,
        count: u64,
    ) -> Result<Option<Bytes>, NoMemory>
        requires { IsTrue (list_all (is_sound_except self.now) excepts.now) }
        ensures { IfOk result (λ found. MatchOption found
            ((i : ℕ) → i < 130 → is_member self.now excepts.now one_token (word_of count (256 + i)) ≡ false)
            (λ text. is_member self.now excepts.now one_token text ≡ true)) }
    {
        let plain = self.first_ascii_word_left(alloc, excepts, one_token, count)?;
        if plain.is_some() {
            return Ok(plain);
        }
        let mut number: u32 = 0;
        while number < TRIALS {
            let text = word_of(alloc, letter_of(number), count)?;
            if self.is_member(excepts, one_token, text.as_str()) {
                return Ok(Some(Bytes::from_vec(text.into_bytes())));
            }
            number += 1;
        }
        Ok(None)
    }

    /// The first of a text and those with spaces before it that is a member.
    pub(crate) fn first_padded_left(
        &self,
        alloc: Global,
        excepts: &[Except],
        one_token: bool,
        literal: &str,
    ) -> Result<Option<Bytes>, NoMemory>
        requires { IsTrue (list_all (is_sound_except self.now) excepts.now) }
        ensures { IfOk result (λ found. MatchOption found
            ((i : ℕ) → i < 130 → is_member self.now excepts.now one_token (pad i literal.now) ≡ false)
            (λ text. is_member self.now excepts.now one_token text ≡ true)) }
    {
        let mut number: u32 = 0;
        while number < TRIALS {
            let text = padded(alloc, literal, number)?;
            if self.is_member(excepts, one_token, text.as_str()) {
                return Ok(Some(Bytes::from_vec(text.into_bytes())));
            }
            number += 1;
        }
        Ok(None)
    }

    /// The first of the texts of so many words, each the same small letter of ASCII, that is a member.
    fn first_ascii_words_left(
        &self,
        alloc: Global,
        excepts: &[Except],
        one_token: bool,
        count: u64,
    ) -> Result<Option<Bytes>, NoMemory>
        requires sound { IsTrue (list_all (is_sound_except self.now) excepts.now) }
        requires some { 1 ≤ count }
        ensures { IfOk result (λ found. MatchOption found (Unit {0}) (λ text. is_member self.now excepts.now one_token text ≡ true)) }
    {
        for letter in b'a'..=b'z' {
            let word = word_of(alloc, char::from(letter), 1)?;
            let text = many(alloc, word.as_str(), count)?;
            if self.is_member(excepts, one_token, text.as_str()) {
                return Ok(Some(Bytes::from_vec(text.into_bytes())));
            }
        }
        Ok(None)
    }

    /// The first of the texts of so many words, each the same letter, that is a member. Letters of ASCII come first.
    pub(crate) fn first_words_left(
        &self,
        alloc: Global,
        excepts: &[Except],
        one_token: bool,
        count: u64,
    ) -> Result<Option<Bytes>, NoMemory>
        requires sound { IsTrue (list_all (is_sound_except self.now) excepts.now) }
        requires some { 1 ≤ count }
        ensures { IfOk result (λ found. MatchOption found
            ((i : ℕ) → i < 130 → is_member self.now excepts.now one_token (many count (word_of 1 (256 + i))) ≡ false)
            (λ text. is_member self.now excepts.now one_token text ≡ true)) }
    {
        let plain = self.first_ascii_words_left(alloc, excepts, one_token, count)?;
        if plain.is_some() {
            return Ok(plain);
        }
        let mut number: u32 = 0;
        while number < TRIALS {
            let word = word_of(alloc, letter_of(number), 1)?;
            let text = many(alloc, word.as_str(), count)?;
            if self.is_member(excepts, one_token, text.as_str()) {
                return Ok(Some(Bytes::from_vec(text.into_bytes())));
            }
            number += 1;
        }
        Ok(None)
    }

    /// The first of the language tags a, a-a, a-a-a.. that is a member.
    pub(crate) fn first_tag_left(
        &self,
        alloc: Global,
        excepts: &[Except],
        one_token: bool,
    ) -> Result<Option<Bytes>, NoMemory>
        requires { IsTrue (list_all (is_sound_except self.now) excepts.now) }
        ensures { IfOk result (λ found. MatchOption found
            ((i : ℕ) → i < 130 → is_member self.now excepts.now one_token (tag i) ≡ false)
            (λ text. is_member self.now excepts.now one_token text ≡ true)) }
    {
        let mut number: u32 = 0;
        while number < TRIALS {
            let text = tag(alloc, number)?;
            if self.is_member(excepts, one_token, text.as_str()) {
                return Ok(Some(Bytes::from_vec(text.into_bytes())));
            }
            number += 1;
        }
        Ok(None)
    }

    /// The first of a number's literal and those with zeros behind its sign that is a member.
    pub(crate) fn first_zeroed_left(
        &self,
        alloc: Global,
        excepts: &[Except],
        one_token: bool,
        literal: &[u8],
    ) -> Result<Option<Bytes>, NoMemory>
        requires { IsTrue (list_all (is_sound_except self.now) excepts.now) }
        ensures { IfOk result (λ found. MatchOption found
            ((i : ℕ) → i < 130 → is_member self.now excepts.now one_token (with_zeros i literal.now) ≡ false)
            (λ text. is_member self.now excepts.now one_token text ≡ true)) }
    {
        for number in 0..TRIALS {
            let text = zeroed(alloc, literal, number)?;
            if self.is_member_in_bytes(excepts, one_token, text.as_slice()) {
                return Ok(Some(text));
            }
        }
        Ok(None)
    }

    /// The first of the texts of a date, a time or octets, of which so many but the first are 0, that is a member.
    pub(crate) fn first_more_left(
        &self,
        alloc: Global,
        excepts: &[Except],
        one_token: bool,
        more: MoreType,
        zeros: u64,
    ) -> Result<Option<Bytes>, NoMemory>
        requires sound { IsTrue (list_all (is_sound_except self.now) excepts.now) }
        requires few { zeros ≤ 16000000 }
        ensures { IfOk result (λ found. MatchOption found
            ((i : ℕ) → i < 130 → is_member self.now excepts.now one_token (candidate more zeros i) ≡ false)
            (λ text. is_member self.now excepts.now one_token text ≡ true)) }
    {
        for number in 0..TRIALS {
            let text = more_text(alloc, more, zeros, number)?;
            if self.is_member_in_bytes(excepts, one_token, text.as_slice()) {
                return Ok(Some(text));
            }
        }
        Ok(None)
    }
}
