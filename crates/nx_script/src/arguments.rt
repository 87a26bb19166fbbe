//! What stands behind a command's word: numbers and texts.

ghost use Rattle.std.specs.Prelude.{◌≡◌, ◌≤◌, length, take, drop, option_copied, Some, None, if◌then◌else◌};
ghost use Rattle.std.specs.List.{prefix_len};
ghost use Rattle.std.specs.Char.{is_ascii_digit};
ghost use Rattle.std.specs.Str.{bytes_eq};
ghost use Rattle.std.specs.Str.Parse.{AllDigits, digits_value};
ghost use Rattle.nx_script.specs.Reading.{Finds, is_blank, after_gap, digits_at, number_at, text_at, name_at, word_at, along_at, way_at, ended};

use crate::command::Command;
use crate::qualified_name::is_qname;
use crate::quoted::{after_quote, pieces};
use crate::read::ScriptFault;
use crate::way_word::way_word;
use nx_base::sequence::Bytes;
use nx_base::way::Way;
use std::alloc::Global;
use std::marker::Model;

/// The most digits that a number may have.
const MOST_DIGITS: usize = 18;

/// What is left of a line. Numbers and texts are taken from its front, each with the gap before it. After
/// a fault nothing is said of what is left.
#[derive(Drop)]
pub(crate) struct Arguments<'a> {
    rest: &'a [u8],
}

impl<'a> Model for Arguments<'a> {
    ghost use Rattle.std.specs.Prelude.{ℕ, List};

    ghost Value = { List ℕ };

    ghost view = { λ a. a.rest.now };
}

impl<'a> Arguments<'a> {
    /// What is left behind the command's word.
    pub(crate) fn new(rest: &'a [u8]) -> Self
        ensures { result ≡ rest.now }
    {
        Arguments { rest }
    }

    /// A number of 1 to 18 digits.
    #[tactic(auto, unfolding(crate::specs::Reading::number_at))]
    pub(crate) fn number(&mut self) -> Result<u64, ScriptFault>
        ensures { Finds (λ number. (number, self.new)) result (number_at self.old) }
    {
        let (number, rest) = digits(after_gap(self.rest)?)?;
        self.rest = rest;
        Ok(number)
    }

    /// A text between quotes, its escapes replaced by what they mean.
    #[tactic(auto, unfolding(crate::specs::Reading::text_at))]
    pub(crate) fn text(&mut self, alloc: Global) -> Result<Bytes, ScriptFault>
        ensures { Finds (λ text. (text, self.new)) result (text_at self.old) }
    {
        let (text, rest) = pieces(alloc, after_quote(after_gap(self.rest)?)?)?;
        self.rest = rest;
        Ok(Bytes::from_vec(text))
    }

    /// A QName between quotes.
    #[tactic(auto, unfolding(crate::specs::Reading::name_at))]
    pub(crate) fn name(&mut self, alloc: Global) -> Result<Bytes, ScriptFault>
        ensures { Finds (λ name. (name, self.new)) result (name_at self.old) }
    {
        let name = self.text(alloc)?;
        if is_qname(name.as_slice()) {
            Ok(name)
        } else {
            Err(ScriptFault::BadCommand)
        }
    }

    /// What is left behind this word, where it stands there; nothing is taken.
    #[tactic(auto, unfolding(crate::specs::Reading::word_at))]
    pub(crate) fn behind(&self, word: &str) -> Option<Arguments<'a>>
        ensures { result ≡ word_at word.now self.now }
    {
        match behind_gap(self.rest) {
            Some(gone) => match behind_word(gone, word.as_bytes()) {
                Some(rest) => Some(Arguments { rest }),
                None => None,
            },
            None => None,
        }
    }

    /// This way, where its word stands there, and what is left behind it; nothing is taken.
    fn along(&self, way: Way) -> Option<(Way, Arguments<'a>)>
        ensures { result ≡ along_at way self.now }
    {
        match self.behind(way_word(way)) {
            Some(rest) => Some((way, rest)),
            None => None,
        }
    }

    /// The way whose word stands there, and what is left behind it; nothing is taken.
    #[tactic(auto, unfolding(crate::specs::Reading::way_at))]
    fn along_any(&self) -> Option<(Way, Arguments<'a>)>
        ensures { result ≡ way_at self.now }
    {
        self.along(Way::Forward)
            .or(self.along(Way::Backward))
            .or(self.along(Way::Up))
            .or(self.along(Way::BackUp))
            .or(self.along(Way::Down))
    }

    /// A way by its word.
    pub(crate) fn way(&mut self) -> Result<Way, ScriptFault>
        ensures { Finds (λ way. (way, self.new)) result (way_at self.old) }
    {
        match self.along_any() {
            Some((way, arguments)) => {
                self.rest = arguments.rest;
                Ok(way)
            }
            None => Err(ScriptFault::BadCommand),
        }
    }

    /// The command, where blanks alone are left.
    #[tactic(auto, unfolding(crate::specs::Reading::ended))]
    pub(crate) fn end(self, command: Command) -> Result<Command, ScriptFault>
        ensures { Finds (λ ended. ended) result (ended command self.entry) }
    {
        if leading_blanks(self.rest) == self.rest.len() {
            Ok(command)
        } else {
            Err(ScriptFault::BadCommand)
        }
    }
}

/// Whether the byte is a space or a tab.
pub(crate) fn is_blank(byte: u8) -> bool
    ensures { result ≡ is_blank byte }
{
    byte == b' ' || byte == b'\t'
}

/// How many blanks stand at the front.
pub(crate) fn leading_blanks(bytes: &[u8]) -> usize
    ensures counted { result ≡ prefix_len is_blank bytes.now }
    ensures within { result ≤ length bytes.now }
{
    bytes.iter().take_while(|byte| is_blank(**byte)).count()
}

/// What follows the gap at the front.
#[tactic(auto, unfolding(crate::specs::Reading::after_blanks, crate::specs::Reading::after_gap))]
fn behind_gap(bytes: &[u8]) -> Option<&[u8]>
    ensures { option_copied result ≡ after_gap bytes.now }
{
    let blanks = leading_blanks(bytes);
    if blanks == 0 {
        return None;
    }
    Some(&bytes[blanks..])
}

/// What follows the gap at the front, which is to be there.
fn after_gap(bytes: &[u8]) -> Result<&[u8], ScriptFault>
    ensures { Finds (λ rest. rest.now) result (after_gap bytes.now) }
{
    match behind_gap(bytes) {
        Some(rest) => Ok(rest),
        None => Err(ScriptFault::BadCommand),
    }
}

/// What follows the word at the front.
fn behind_word<'a>(bytes: &'a [u8], word: &[u8]) -> Option<&'a [u8]>
    ensures { option_copied result ≡ (if bytes_eq (take (length word.now) bytes.now) word.now
        then Some (drop (length word.now) bytes.now) else None) }
{
    bytes.strip_prefix(word)
}

/// How many digits stand at the front.
fn leading_digits(bytes: &[u8]) -> usize
    ensures counted { result ≡ prefix_len is_ascii_digit bytes.now }
    ensures within { result ≤ length bytes.now }
{
    bytes
        .iter()
        .take_while(|byte| byte.is_ascii_digit())
        .count()
}

/// The number that the digits at the front spell, and what follows them.
#[tactic(auto, unfolding(crate::specs::Reading::digits_at))]
fn digits(bytes: &[u8]) -> Result<(u64, &[u8]), ScriptFault>
    ensures { Finds (λ x. (x.0, x.1.now)) result (digits_at bytes.now) }
{
    let count = leading_digits(bytes);
    if count == 0 || count > MOST_DIGITS {
        return Err(ScriptFault::BadCommand);
    }
    let (digits, rest) = bytes.split_at(count);
    Ok((number_of(digits), rest))
}

/// The number that the digits spell.
fn number_of(digits: &[u8]) -> u64
    requires digits { AllDigits 10 digits.now }
    requires short { length digits.now ≤ 19 }
    ensures { result ≡ digits_value 10 digits.now }
{
    let mut number = 0u64;
    for digit in digits {
        number = number * 10 + u64::from(*digit - b'0');
    }
    number
}
