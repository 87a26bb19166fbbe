//! The types.

ghost use Rattle.std.specs.Prelude.{◌≡◌, ◌↔◌, IsTrue, Some, is_some};
ghost use Rattle.rng_more_types.specs.MoreTypes.{more_type_named, IsLiteral, HaveSameValue, octets_of, is_literal, is_same, are_same_moment};
ghost use Rattle.rng_more_types.specs.Reading.{moment_read};
ghost use Rattle.rng_more_types.specs.Told.{Finds, told};

use crate::laws::answers_are_right;
use crate::moment::Instant;
use crate::octets::{count_base64, count_hex, is_base64, is_hex, is_same_base64, is_same_hex};
use crate::reading::{date, date_time, time, whole_month, whole_year};
use crate::spaces::trimmed;

/// A type of dates, times or octets (XML Schema Part 2, sections 3.2.7 to 3.2.11, 3.2.15 and 3.2.16). Years have at most nine
/// digits.
#[derive(Clone, Copy, Debug, PartialEq, Eq)]
pub enum MoreType {
    /// A day, as 2002-10-10, perhaps with a zone.
    Date,
    /// A time of any day, as 13:20:00.
    Time,
    /// A time of a day, as 2002-10-10T13:20:00.
    DateTime,
    /// A year, as 2002.
    GYear,
    /// A month of a year, as 2002-10.
    GYearMonth,
    /// Octets, two hexadecimal digits each.
    HexBinary,
    /// Octets in base64.
    Base64Binary,
}

/// The moment that a text without white space at its ends stands for, as a literal of the type.
fn moment(kind: MoreType, text: &[u8]) -> Option<Instant<'_>>
    ensures { Finds (λ x. told x) result (moment_read kind text.now) }
{
    match kind {
        MoreType::Date => date(text),
        MoreType::Time => time(text),
        MoreType::DateTime => date_time(text),
        MoreType::GYear => whole_year(text),
        MoreType::GYearMonth => whole_month(text),
        MoreType::HexBinary => None,
        MoreType::Base64Binary => None,
    }
}

/// Whether a text without white space at its ends is a literal of a date or time.
fn is_moment(kind: MoreType, text: &[u8]) -> bool
    ensures { result ≡ is_some (moment_read kind text.now) }
{
    moment(kind, text).is_some()
}

/// Whether two such texts are literals of the same moment.
fn is_same_moment(kind: MoreType, a: &[u8], b: &[u8]) -> bool
    ensures { result ≡ are_same_moment (moment_read kind a.now) (moment_read kind b.now) }
{
    match (moment(kind, a), moment(kind, b)) {
        (Some(first), Some(second)) => first.is_same(&second),
        _ => false,
    }
}

impl MoreType {
    /// The type of that name; none where there is none of these.
    pub fn named(name: &str) -> Option<MoreType>
        ensures { result ≡ more_type_named name.now }
    {
        match name {
            "date" => Some(MoreType::Date),
            "time" => Some(MoreType::Time),
            "dateTime" => Some(MoreType::DateTime),
            "gYear" => Some(MoreType::GYear),
            "gYearMonth" => Some(MoreType::GYearMonth),
            "hexBinary" => Some(MoreType::HexBinary),
            "base64Binary" => Some(MoreType::Base64Binary),
            _ => None,
        }
    }

    /// Whether a text is of the type, white space at its ends and between characters of base64 left out.
    pub fn accepts(&self, text: &str) -> bool
        ensures decides { IsTrue result ↔ IsLiteral self.now text.now }
        ensures value { result ≡ is_literal self.now text.now }
    {
        answers_are_right();
        let kind = *self;
        match kind {
            MoreType::HexBinary => is_hex(trimmed(text.as_bytes())),
            MoreType::Base64Binary => is_base64(text.as_bytes()),
            _ => is_moment(kind, trimmed(text.as_bytes())),
        }
    }

    /// Whether two texts of the type have the same value.
    pub fn same(&self, a: &str, b: &str) -> bool
        requires first { IsLiteral self.now a.now }
        requires second { IsLiteral self.now b.now }
        ensures decides { IsTrue result ↔ HaveSameValue self.now a.now b.now }
        ensures value { result ≡ is_same self.now a.now b.now }
    {
        answers_are_right();
        let kind = *self;
        match kind {
            MoreType::HexBinary => is_same_hex(trimmed(a.as_bytes()), trimmed(b.as_bytes())),
            MoreType::Base64Binary => is_same_base64(a.as_bytes(), b.as_bytes()),
            _ => is_same_moment(kind, trimmed(a.as_bytes()), trimmed(b.as_bytes())),
        }
    }

    /// How many octets a text of the type is; none where it is a date or time.
    pub fn octets(&self, text: &str) -> Option<usize>
        requires { IsLiteral self.now text.now }
        ensures { result ≡ octets_of self.now text.now }
    {
        match *self {
            MoreType::HexBinary => Some(count_hex(trimmed(text.as_bytes()))),
            MoreType::Base64Binary => Some(count_base64(text.as_bytes())),
            _ => None,
        }
    }
}
