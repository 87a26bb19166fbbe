//! Members of types, by their families.

ghost use Rattle.std.specs.Prelude.{◌≡◌, ◌≤◌, ◌<◌, true, false, length, IfOk, IsErrOf, IsOkUnless, IsTrue, MatchOption};
ghost use Rattle.std.specs.List.{list_all};
ghost use Rattle.rng_more_types.specs.Laws.{is_octets};
ghost use Rattle.rng_types.specs.Giving.{IsMemberAnswer, is_member, words_asked};
ghost use Rattle.rng_types.specs.WellMade.{is_list_word, is_sound_except, is_well_made};
ghost use Rattle.rng_types.specs.MemberTest.{most_excepts};
ghost use Rattle.rng_types.specs.declared.fault.TypeFault.TheVariants.{TooManyExcepts, NoMemory as OutOfMemory};
ghost use Rattle.rng_types.specs.declared.kind.Form.TheVariants.{Any, One, Several, More};
ghost use Rattle.rng_types.specs.declared.kind.Word.TheVariants.{Boolean, Language, Decimal, Integer};

use crate::datatype::{Datatype, Except};
use crate::facet::Facet;
use crate::fault::TypeFault;
use crate::kind::{Form, Whitespace, Word};
use crate::left_numbers::{left_decimal, left_integer};
use crate::length_range::{allows, has_length, least_length};
use crate::members::MOST_EXCEPTS;
use nx_base::memory::NoMemory;
use nx_base::sequence::Bytes;
use rng_more_types::MoreType;
use std::alloc::Global;

/// The literals of truth values, as a reader would write them first.
const TRUTHS: [&str; 4] = ["true", "false", "1", "0"];

/// Numbers as a reader would write them, before any limit of a bound and behind those.
const FIRST_NUMBERS: [&str; 2] = ["0", "1"];

const MORE_NUMBERS: [&str; 11] = ["2", "3", "4", "5", "6", "7", "8", "9", "-1", "0.5", "-0.5"];

/// How many characters, words or octets a text is made of at most.
const MOST_MADE: u64 = 16_000_000;

/// A length, if texts of it are made: otherwise memory is said to be wanting.
fn length_made(length: u64) -> Result<u64, NoMemory>
    ensures value { IfOk result (λ made. made ≡ length) }
    ensures few { IfOk result (λ made. made ≤ 16000000) }
{
    if length > MOST_MADE {
        return Err(NoMemory);
    }
    Ok(length)
}

/// How many words are tried: one where one token is asked for, and else the least that the facets allow.
fn words_asked(facets: &[Facet], one_token: bool) -> u64
    ensures value { result ≡ words_asked facets.now one_token }
    ensures some { 1 ≤ result }
{
    if one_token { 1 } else { least_length(facets) }
}

impl Datatype {
    /// A member of a type of texts.
    fn text_member(
        &self,
        alloc: Global,
        whitespace: Whitespace,
        excepts: &[Except],
        one_token: bool,
    ) -> Result<Option<Bytes>, NoMemory>
        requires form { self.now.form ≡ Any whitespace }
        requires made { IsTrue (is_well_made self.now) }
        requires sound { IsTrue (list_all (is_sound_except self.now) excepts.now) }
        requires few { length excepts.now ≤ most_excepts }
        ensures { IfOk result (IsMemberAnswer self.now excepts.now one_token) }
    {
        if has_length(self.facets.as_slice()) {
            let least = least_length(self.facets.as_slice());
            let length = length_made(least)?;
            let word = self.first_word_left(alloc, excepts, one_token, length)?;
            return Ok(word);
        }
        let text = self.first_padded_left(alloc, excepts, one_token, "")?;
        Ok(text)
    }

    /// A member of a type of names, or of what is made of their characters.
    fn name_member(
        &self,
        alloc: Global,
        word: Word,
        excepts: &[Except],
        one_token: bool,
    ) -> Result<Option<Bytes>, NoMemory>
        requires form { self.now.form ≡ One word }
        requires name { is_list_word word ≡ true }
        requires made { IsTrue (is_well_made self.now) }
        requires sound { IsTrue (list_all (is_sound_except self.now) excepts.now) }
        requires few { length excepts.now ≤ most_excepts }
        ensures { IfOk result (IsMemberAnswer self.now excepts.now one_token) }
    {
        if !has_length(self.facets.as_slice()) {
            return Ok(None);
        }
        let least = least_length(self.facets.as_slice());
        let length = length_made(least)?;
        let found = self.first_word_left(alloc, excepts, one_token, length)?;
        Ok(found)
    }

    /// A member of a type of truth values.
    fn truth_member(
        &self,
        alloc: Global,
        excepts: &[Except],
        one_token: bool,
    ) -> Result<Option<Bytes>, NoMemory>
        requires form { self.now.form ≡ One Boolean }
        requires made { IsTrue (is_well_made self.now) }
        requires sound { IsTrue (list_all (is_sound_except self.now) excepts.now) }
        requires few { length excepts.now ≤ most_excepts }
        ensures { IfOk result (IsMemberAnswer self.now excepts.now one_token) }
    {
        let plain = self.first_literal_left(alloc, excepts, one_token, &TRUTHS)?;
        if plain.is_some() {
            return Ok(plain);
        }
        let first = self.first_padded_left(alloc, excepts, one_token, "true")?;
        if first.is_some() {
            return Ok(first);
        }
        let second = self.first_padded_left(alloc, excepts, one_token, "1")?;
        if second.is_some() {
            return Ok(second);
        }
        let third = self.first_padded_left(alloc, excepts, one_token, "false")?;
        if third.is_some() {
            return Ok(third);
        }
        let last = self.first_padded_left(alloc, excepts, one_token, "0")?;
        Ok(last)
    }

    /// A member of a type of several words.
    fn words_member(
        &self,
        alloc: Global,
        word: Word,
        excepts: &[Except],
        one_token: bool,
    ) -> Result<Option<Bytes>, NoMemory>
        requires form { self.now.form ≡ Several word }
        requires made { IsTrue (is_well_made self.now) }
        requires sound { IsTrue (list_all (is_sound_except self.now) excepts.now) }
        requires few { length excepts.now ≤ most_excepts }
        ensures { IfOk result (IsMemberAnswer self.now excepts.now one_token) }
    {
        let asked = words_asked(self.facets.as_slice(), one_token);
        if !allows(self.facets.as_slice(), asked) {
            return Ok(None);
        }
        let count = length_made(asked)?;
        let found = self.first_words_left(alloc, excepts, one_token, count)?;
        Ok(found)
    }

    /// A member of a type of language tags.
    fn language_member(
        &self,
        alloc: Global,
        excepts: &[Except],
        one_token: bool,
    ) -> Result<Option<Bytes>, NoMemory>
        requires form { self.now.form ≡ One Language }
        requires made { IsTrue (is_well_made self.now) }
        requires sound { IsTrue (list_all (is_sound_except self.now) excepts.now) }
        requires few { length excepts.now ≤ most_excepts }
        ensures { IfOk result (IsMemberAnswer self.now excepts.now one_token) }
    {
        let found = self.first_tag_left(alloc, excepts, one_token)?;
        Ok(found)
    }

    /// The first of some small numbers and of the limits of bounds that is a member.
    fn simple_number_left(
        &self,
        alloc: Global,
        excepts: &[Except],
        one_token: bool,
    ) -> Result<Option<Bytes>, NoMemory>
        requires { IsTrue (list_all (is_sound_except self.now) excepts.now) }
        ensures { IfOk result (λ found. MatchOption found (Unit {0}) (λ text. is_member self.now excepts.now one_token text ≡ true)) }
    {
        let first = self.first_literal_left(alloc, excepts, one_token, &FIRST_NUMBERS)?;
        if first.is_some() {
            return Ok(first);
        }
        let limit = self.first_limit_left(alloc, excepts, one_token)?;
        if limit.is_some() {
            return Ok(limit);
        }
        let more = self.first_literal_left(alloc, excepts, one_token, &MORE_NUMBERS)?;
        Ok(more)
    }

    /// A member of a type of whole numbers.
    fn integer_member(
        &self,
        alloc: Global,
        excepts: &[Except],
        one_token: bool,
    ) -> Result<Option<Bytes>, NoMemory>
        requires form { self.now.form ≡ One Integer }
        requires made { IsTrue (is_well_made self.now) }
        requires sound { IsTrue (list_all (is_sound_except self.now) excepts.now) }
        requires few { length excepts.now ≤ most_excepts }
        ensures { IfOk result (IsMemberAnswer self.now excepts.now one_token) }
    {
        let simple = self.simple_number_left(alloc, excepts, one_token)?;
        if simple.is_some() {
            return Ok(simple);
        }
        let Some(literal) = left_integer(alloc, self.facets.as_slice(), excepts)? else {
            return Ok(None);
        };
        let found = self.first_zeroed_left(alloc, excepts, one_token, literal.as_slice())?;
        Ok(found)
    }

    /// A member of a type of decimals.
    fn decimal_member(
        &self,
        alloc: Global,
        excepts: &[Except],
        one_token: bool,
    ) -> Result<Option<Bytes>, NoMemory>
        requires form { self.now.form ≡ One Decimal }
        requires made { IsTrue (is_well_made self.now) }
        requires sound { IsTrue (list_all (is_sound_except self.now) excepts.now) }
        requires few { length excepts.now ≤ most_excepts }
        ensures { IfOk result (IsMemberAnswer self.now excepts.now one_token) }
    {
        let simple = self.simple_number_left(alloc, excepts, one_token)?;
        if simple.is_some() {
            return Ok(simple);
        }
        let Some(literal) = left_decimal(alloc, self.facets.as_slice(), excepts)? else {
            return Ok(None);
        };
        let found = self.first_zeroed_left(alloc, excepts, one_token, literal.as_slice())?;
        Ok(found)
    }

    /// A member of a type of dates or times.
    fn date_member(
        &self,
        alloc: Global,
        more: MoreType,
        excepts: &[Except],
        one_token: bool,
    ) -> Result<Option<Bytes>, NoMemory>
        requires form { self.now.form ≡ More more }
        requires date { is_octets more ≡ false }
        requires made { IsTrue (is_well_made self.now) }
        requires sound { IsTrue (list_all (is_sound_except self.now) excepts.now) }
        requires few { length excepts.now ≤ most_excepts }
        ensures { IfOk result (IsMemberAnswer self.now excepts.now one_token) }
    {
        let found = self.first_more_left(alloc, excepts, one_token, more, 0)?;
        Ok(found)
    }

    /// A member of a type of octets.
    fn octets_member(
        &self,
        alloc: Global,
        more: MoreType,
        excepts: &[Except],
        one_token: bool,
    ) -> Result<Option<Bytes>, NoMemory>
        requires form { self.now.form ≡ More more }
        requires octets { is_octets more ≡ true }
        requires made { IsTrue (is_well_made self.now) }
        requires sound { IsTrue (list_all (is_sound_except self.now) excepts.now) }
        requires few { length excepts.now ≤ most_excepts }
        ensures { IfOk result (IsMemberAnswer self.now excepts.now one_token) }
    {
        if has_length(self.facets.as_slice()) {
            let least = least_length(self.facets.as_slice());
            let length = length_made(least)?;
            let found = self.first_more_left(alloc, excepts, one_token, more, length - 1)?;
            return Ok(found);
        }
        let blank = self.first_padded_left(alloc, excepts, one_token, "")?;
        Ok(blank)
    }

    /// A member of a date, a time or a type of octets.
    fn more_member(
        &self,
        alloc: Global,
        more: MoreType,
        excepts: &[Except],
        one_token: bool,
    ) -> Result<Option<Bytes>, NoMemory>
        requires form { self.now.form ≡ More more }
        requires made { IsTrue (is_well_made self.now) }
        requires sound { IsTrue (list_all (is_sound_except self.now) excepts.now) }
        requires few { length excepts.now ≤ most_excepts }
        ensures { IfOk result (IsMemberAnswer self.now excepts.now one_token) }
    {
        match more {
            MoreType::Date => Ok(self.date_member(alloc, more, excepts, one_token)?),
            MoreType::Time => Ok(self.date_member(alloc, more, excepts, one_token)?),
            MoreType::DateTime => Ok(self.date_member(alloc, more, excepts, one_token)?),
            MoreType::GYear => Ok(self.date_member(alloc, more, excepts, one_token)?),
            MoreType::GYearMonth => Ok(self.date_member(alloc, more, excepts, one_token)?),
            MoreType::HexBinary => Ok(self.octets_member(alloc, more, excepts, one_token)?),
            MoreType::Base64Binary => Ok(self.octets_member(alloc, more, excepts, one_token)?),
        }
    }

    /// A member of a type of one word.
    fn word_member(
        &self,
        alloc: Global,
        word: Word,
        excepts: &[Except],
        one_token: bool,
    ) -> Result<Option<Bytes>, NoMemory>
        requires form { self.now.form ≡ One word }
        requires made { IsTrue (is_well_made self.now) }
        requires sound { IsTrue (list_all (is_sound_except self.now) excepts.now) }
        requires few { length excepts.now ≤ most_excepts }
        ensures { IfOk result (IsMemberAnswer self.now excepts.now one_token) }
    {
        match word {
            Word::Name => Ok(self.name_member(alloc, word, excepts, one_token)?),
            Word::NcName => Ok(self.name_member(alloc, word, excepts, one_token)?),
            Word::NmToken => Ok(self.name_member(alloc, word, excepts, one_token)?),
            Word::Language => Ok(self.language_member(alloc, excepts, one_token)?),
            Word::Boolean => Ok(self.truth_member(alloc, excepts, one_token)?),
            Word::Decimal => Ok(self.decimal_member(alloc, excepts, one_token)?),
            Word::Integer => Ok(self.integer_member(alloc, excepts, one_token)?),
        }
    }

    /// A member of a type beside so few excepts.
    fn member_beside(
        &self,
        alloc: Global,
        excepts: &[Except],
        one_token: bool,
    ) -> Result<Option<Bytes>, NoMemory>
        requires made { IsTrue (is_well_made self.now) }
        requires sound { IsTrue (list_all (is_sound_except self.now) excepts.now) }
        requires few { length excepts.now ≤ most_excepts }
        ensures { IfOk result (IsMemberAnswer self.now excepts.now one_token) }
    {
        match self.form {
            Form::Any(whitespace) => Ok(self.text_member(alloc, whitespace, excepts, one_token)?),
            Form::One(word) => Ok(self.word_member(alloc, word, excepts, one_token)?),
            Form::Several(word) => Ok(self.words_member(alloc, word, excepts, one_token)?),
            Form::More(more) => Ok(self.more_member(alloc, more, excepts, one_token)?),
        }
    }

    /// A text of which `has_member` speaks: of characters that XML allows, of the type, taken away by none of the excepts and, where
    /// one token is asked for, with a character and no white space; none exactly where there is no such text. It is one that a
    /// reader would write, as `a`, `0` or `true`, where such a text is a member.
    ///
    /// `TooManyExcepts` beside more than 129 excepts. A text is as long as the type's facets ask for; where that is more than 16
    /// million characters, words or octets it isn't made, and the answer is `NoMemory`.
    pub fn member(
        &self,
        alloc: Global,
        excepts: &[Except],
        one_token: bool,
    ) -> Result<Option<Bytes>, TypeFault>
        requires made { IsTrue (is_well_made self.now) }
        requires sound { IsTrue (list_all (is_sound_except self.now) excepts.now) }
        ensures answer { IfOk result (IsMemberAnswer self.now excepts.now one_token) }
        ensures many { most_excepts < length excepts.now → IsErrOf result TooManyExcepts }
        ensures few { length excepts.now ≤ most_excepts → IsOkUnless result OutOfMemory }
    {
        if excepts.len() > MOST_EXCEPTS {
            return Err(TypeFault::TooManyExcepts);
        }
        let found = self.member_beside(alloc, excepts, one_token)?;
        Ok(found)
    }
}
