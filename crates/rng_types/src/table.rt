//! The types that a schema can name.

ghost use Rattle.std.specs.Prelude.{◌≡◌, map};
ghost use Rattle.std.specs.List.{find};
ghost use Rattle.std.specs.Str.{bytes_eq};
ghost use Rattle.std.specs.Option.{option_map, option_copied};
ghost use Rattle.rng_types.specs.Table.{builtin_types, schema_types, type_named as type_of_name};
ghost use Rattle.rng_types.specs.Rows.{row_of};

use crate::kind::{Form, Takes, Whitespace, Word};
use rng_more_types::MoreType;

/// A type: its name, its form, the facets that may be put on it, and the literals at the ends of its range, each
/// empty where there is none.
#[derive(Clone, Copy)]
pub(crate) struct Row {
    pub(crate) name: &'static str,
    pub(crate) form: Form,
    pub(crate) takes: Takes,
    pub(crate) low: &'static str,
    pub(crate) high: &'static str,
}

#[rattlefmt::skip]
static BUILTIN_TYPES: [Row; 2] = [
    Row { name: "string", form: Form::Any(Whitespace::Preserve), takes: Takes::Nothing, low: "", high: "" },
    Row { name: "token", form: Form::Any(Whitespace::Collapse), takes: Takes::Nothing, low: "", high: "" },
];

#[rattlefmt::skip]
static SCHEMA_TYPES: [Row; 34] = [
    Row { name: "string", form: Form::Any(Whitespace::Preserve), takes: Takes::Lengths, low: "", high: "" },
    Row { name: "normalizedString", form: Form::Any(Whitespace::Replace), takes: Takes::Lengths, low: "", high: "" },
    Row { name: "token", form: Form::Any(Whitespace::Collapse), takes: Takes::Lengths, low: "", high: "" },
    Row { name: "anyURI", form: Form::Any(Whitespace::Collapse), takes: Takes::Lengths, low: "", high: "" },
    Row { name: "Name", form: Form::One(Word::Name), takes: Takes::Lengths, low: "", high: "" },
    Row { name: "NCName", form: Form::One(Word::NcName), takes: Takes::Lengths, low: "", high: "" },
    Row { name: "NMTOKEN", form: Form::One(Word::NmToken), takes: Takes::Lengths, low: "", high: "" },
    Row { name: "ID", form: Form::One(Word::NcName), takes: Takes::Lengths, low: "", high: "" },
    Row { name: "IDREF", form: Form::One(Word::NcName), takes: Takes::Lengths, low: "", high: "" },
    Row { name: "NMTOKENS", form: Form::Several(Word::NmToken), takes: Takes::Lengths, low: "", high: "" },
    Row { name: "IDREFS", form: Form::Several(Word::NcName), takes: Takes::Lengths, low: "", high: "" },
    Row { name: "language", form: Form::One(Word::Language), takes: Takes::Nothing, low: "", high: "" },
    Row { name: "boolean", form: Form::One(Word::Boolean), takes: Takes::Nothing, low: "", high: "" },
    Row { name: "decimal", form: Form::One(Word::Decimal), takes: Takes::Bounds, low: "", high: "" },
    Row { name: "integer", form: Form::One(Word::Integer), takes: Takes::Bounds, low: "", high: "" },
    Row { name: "nonPositiveInteger", form: Form::One(Word::Integer), takes: Takes::Bounds, low: "", high: "0" },
    Row { name: "negativeInteger", form: Form::One(Word::Integer), takes: Takes::Bounds, low: "", high: "-1" },
    Row { name: "nonNegativeInteger", form: Form::One(Word::Integer), takes: Takes::Bounds, low: "0", high: "" },
    Row { name: "positiveInteger", form: Form::One(Word::Integer), takes: Takes::Bounds, low: "1", high: "" },
    Row { name: "long", form: Form::One(Word::Integer), takes: Takes::Bounds, low: "-9223372036854775808", high: "9223372036854775807" },
    Row { name: "int", form: Form::One(Word::Integer), takes: Takes::Bounds, low: "-2147483648", high: "2147483647" },
    Row { name: "short", form: Form::One(Word::Integer), takes: Takes::Bounds, low: "-32768", high: "32767" },
    Row { name: "byte", form: Form::One(Word::Integer), takes: Takes::Bounds, low: "-128", high: "127" },
    Row { name: "unsignedLong", form: Form::One(Word::Integer), takes: Takes::Bounds, low: "0", high: "18446744073709551615" },
    Row { name: "unsignedInt", form: Form::One(Word::Integer), takes: Takes::Bounds, low: "0", high: "4294967295" },
    Row { name: "unsignedShort", form: Form::One(Word::Integer), takes: Takes::Bounds, low: "0", high: "65535" },
    Row { name: "unsignedByte", form: Form::One(Word::Integer), takes: Takes::Bounds, low: "0", high: "255" },
    Row { name: "date", form: Form::More(MoreType::Date), takes: Takes::Nothing, low: "", high: "" },
    Row { name: "time", form: Form::More(MoreType::Time), takes: Takes::Nothing, low: "", high: "" },
    Row { name: "dateTime", form: Form::More(MoreType::DateTime), takes: Takes::Nothing, low: "", high: "" },
    Row { name: "gYear", form: Form::More(MoreType::GYear), takes: Takes::Nothing, low: "", high: "" },
    Row { name: "gYearMonth", form: Form::More(MoreType::GYearMonth), takes: Takes::Nothing, low: "", high: "" },
    Row { name: "hexBinary", form: Form::More(MoreType::HexBinary), takes: Takes::Lengths, low: "", high: "" },
    Row { name: "base64Binary", form: Form::More(MoreType::Base64Binary), takes: Takes::Lengths, low: "", high: "" },
];

/// The first of the rows with that name.
fn first_row<'a>(rows: &'a [Row], name: &str) -> Option<&'a Row>
    ensures { option_copied result ≡ find (λ row. bytes_eq row.name.now name.now) rows.now }
{
    rows.iter().find(|row| row.name == name)
}

/// The same, as the type that it stands for.
fn find_row(rows: &[Row], name: &str) -> Option<Row>
    ensures { option_map row_of result ≡ find (λ row. bytes_eq row.name name.now) (map row_of rows.now) }
{
    first_row(rows, name).copied()
}

/// RELAX NG's own type of that name.
fn builtin_type(name: &str) -> Option<Row>
    ensures { option_map row_of result ≡ find (λ row. bytes_eq row.name name.now) builtin_types }
{
    find_row(&BUILTIN_TYPES, name)
}

/// The type of that name of XML Schema Part 2.
fn schema_type(name: &str) -> Option<Row>
    ensures { option_map row_of result ≡ find (λ row. bytes_eq row.name name.now) schema_types }
{
    find_row(&SCHEMA_TYPES, name)
}

/// The library of XML Schema Part 2.
const SCHEMA_LIBRARY: &str = "http://www.w3.org/2001/XMLSchema-datatypes";

/// The type of that name in the library of that URI.
pub(crate) fn type_named(library: &str, name: &str) -> Option<Row>
    ensures { option_map row_of result ≡ type_of_name library.now name.now }
{
    if library.is_empty() {
        return builtin_type(name);
    }
    if library == SCHEMA_LIBRARY {
        return schema_type(name);
    }
    None
}
