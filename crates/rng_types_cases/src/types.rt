//! Literals, params and members of types, in tables.

ghost use Rattle.std.specs.Prelude.{IsTrue};
ghost use Rattle.std.specs.List.{list_all};
ghost use Rattle.rng_types.specs.WellMade.{is_well_made, is_sound_except};

use crate::described::{XSD, are_sound, bytes, described};
use nx_base::sequence::TryCopy;
use rng_types::datatype::{Datatype, Except, Param};
use rng_types::fault::TypeFault;
use std::alloc::Global;
use std::test::Fail;

// The type of that name, with one param, or with none where its name is empty.
fn narrowed(
    alloc: Global,
    library: &str,
    name: &str,
    param: &str,
    value: &str,
) -> Result<Result<Datatype, TypeFault>, Fail> {
    let mut params = Vec::new(alloc);
    if !param.is_empty() {
        params.push(Param {
            name: bytes(alloc, param)?,
            value: bytes(alloc, value)?,
        })?;
    }
    Ok(Datatype::named(alloc, library, name, params.as_slice()))
}

// A type, a literal and whether it is of the type, by XML Schema Part 2, sections 3.2 and 3.3.
#[rattlefmt::skip]
static LITERALS: [(&str, &str, bool); 73] = [
    ("string", "", true), ("string", " a\t", true), ("normalizedString", "a\tb", true), ("token", "  a  b ", true),
    ("anyURI", "http://a b", true),
    ("Name", "a:b", true), ("Name", "1a", false), ("Name", "", false),
    ("NCName", "a:b", false), ("NCName", " \u{e9}-1\n", true), ("NCName", "a b", false), ("ID", "_x", true), ("IDREF", "x y", false),
    ("NMTOKEN", "-1", true), ("NMTOKEN", "a b", false), ("NMTOKEN", "", false),
    ("NMTOKENS", "", false), ("NMTOKENS", " a  b ", true), ("IDREFS", "a b", true), ("IDREFS", "a 1", false),
    ("language", "en-US", true), ("language", "i-klingon22", false), ("language", "x-1", true), ("language", "en-", false),
    ("language", "abcdefghi", false), ("language", "d1", false),
    ("boolean", "true", true), ("boolean", " 0 ", true), ("boolean", "TRUE", false), ("boolean", "", false),
    ("decimal", "+1.50", true), ("decimal", ".5", true), ("decimal", "5.", true), ("decimal", ".", false),
    ("decimal", "1e3", false), ("decimal", "1.2.3", false), ("decimal", "-", false), ("decimal", "1 2", false),
    ("integer", "+007", true), ("integer", "1.0", false), ("integer", "123456789012345678901234567890123456789", true),
    ("nonPositiveInteger", "0", true), ("nonPositiveInteger", "1", false), ("negativeInteger", "-0", false),
    ("negativeInteger", "-1", true),
    ("nonNegativeInteger", "-0", true), ("nonNegativeInteger", "-1", false), ("positiveInteger", "+0", false),
    ("byte", "128", false), ("byte", "-128", true), ("byte", " +7 ", true), ("short", "32768", false),
    ("int", "-2147483648", true), ("int", "2147483648", false), ("long", "9223372036854775808", false),
    ("unsignedByte", "0255", true), ("unsignedShort", "65536", false), ("unsignedInt", "4294967296", false),
    ("unsignedLong", "18446744073709551615", true), ("unsignedLong", "18446744073709551616", false),
    ("date", " 2000-02-29\n", true), ("date", "1900-02-29", false), ("date", "2000-02-29 Z", false), ("time", "24:00:00.0", true),
    ("dateTime", "2002-10-10T12:00:00.5-05:00", true), ("gYear", "-0001", true), ("gYear", "0000", false),
    ("gYearMonth", "2002-13", false),
    ("hexBinary", "0fB7", true), ("hexBinary", "0fB", false), ("hexBinary", " ", true), ("base64Binary", " Q Q\t= = ", true),
    ("base64Binary", "QR==", false),
];

#[test]
fn accepts_literals(rt: HostRuntime) -> Result<(), Fail> {
    for row in &LITERALS {
        let (name, literal, expected) = *row;
        let datatype = Datatype::named(rt.alloc(), XSD, name, &[])?;
        assert_eq!(rt; (literal, datatype.accepts(literal)), (literal, expected));
    }
    Ok(())
}

#[rattlefmt::skip]
static PAIRS: [(&str, &str, &str, bool); 20] = [
    ("decimal", "1.50", "01.5", true), ("decimal", "1.5", "1.51", false), ("decimal", "-0.0", "0", true), ("decimal", "-1", "1", false),
    ("integer", "-0", "+0", true), ("integer", "10", "9", false), ("integer", " 7", "007", true),
    ("boolean", "true", "1", true), ("boolean", "1", "0", false),
    ("string", "a ", "a", false), ("normalizedString", "a\tb", "a b", true), ("token", "a  b", " a b", true),
    ("NMTOKENS", "a b", " a   b ", true), ("NMTOKENS", "a b", "b a", false),
    ("date", "2002-10-10+13:00", " 2002-10-09-11:00", true), ("date", "2002-10-10Z", "2002-10-10", false),
    ("dateTime", "2000-12-31T24:00:00Z", "2001-01-01T01:00:00.0+01:00", true),
    ("hexBinary", "0fb7", " 0FB7 ", true), ("base64Binary", "QQ==", "Q Q = =", true), ("base64Binary", "QQ==", "Qg==", false),
];

#[test]
fn compares_values(rt: HostRuntime) -> Result<(), Fail> {
    for row in &PAIRS {
        let (name, a, b, expected) = *row;
        let datatype = Datatype::named(rt.alloc(), XSD, name, &[])?;
        assert!(rt; datatype.accepts(a) && datatype.accepts(b));
        assert_eq!(rt; (a, b, datatype.same(a, b)), (a, b, expected));
    }
    Ok(())
}

#[rattlefmt::skip]
static FACETS: [(&str, &str, &str, &str, bool); 19] = [
    ("decimal", "minInclusive", "0001234567890123456789012345.678900", "1", false),
    ("string", "length", "2", "\u{e9}\u{e9}", true), ("string", "minLength", "2", "a", false), ("token", "maxLength", "3", " a  b ", true),
    ("NMTOKENS", "maxLength", "1", "abc", true), ("NMTOKENS", "maxLength", "1", "a b", false),
    ("normalizedString", "length", "3", "a\tb", true),
    ("int", "minInclusive", "5", " +007 ", true), ("int", "minInclusive", " 5 ", "4", false), ("integer", "minInclusive", "10", "9", false),
    ("decimal", "maxInclusive", "1.50", "1.5", true), ("decimal", "maxExclusive", "1.50", "1.5", false),
    ("decimal", "minExclusive", "-0.1", "-0.09", true), ("decimal", "minExclusive", "-0.1", "-0.11", false),
    ("byte", "maxInclusive", "1000", "128", false),
    ("hexBinary", "length", "2", "0fb7", true), ("hexBinary", "maxLength", "1", "0fb7", false),
    ("base64Binary", "length", "1", "Q Q==", true), ("base64Binary", "minLength", "1", " ", false),
];

#[test]
fn narrows_by_params(rt: HostRuntime) -> Result<(), Fail> {
    for row in &FACETS {
        let (name, param, value, literal, expected) = *row;
        let datatype = narrowed(rt.alloc(), XSD, name, param, value)??;
        assert_eq!(rt; (literal, datatype.accepts(literal)), (literal, expected));
    }
    Ok(())
}

#[rattlefmt::skip]
static REFUSALS: [(&str, &str, &str, &str, TypeFault); 17] = [
    (XSD, "QName", "length", "1", TypeFault::UnknownType), ("", "boolean", "length", "1", TypeFault::UnknownType),
    ("", "string", "length", "1", TypeFault::UnknownParam), (XSD, "boolean", "length", "1", TypeFault::UnknownParam),
    (XSD, "string", "minInclusive", "1", TypeFault::UnknownParam), (XSD, "string", "length", "1234567890", TypeFault::BadParam),
    (XSD, "int", "minInclusive", "x", TypeFault::BadParam), (XSD, "int", "minInclusive", "1.0", TypeFault::BadParam),
    (XSD, "decimal", "minInclusive", "1234567890123456789012345678901", TypeFault::BadParam),
    (XSD, "gMonth", "length", "1", TypeFault::UnknownType), (XSD, "gDay", "length", "1", TypeFault::UnknownType),
    (XSD, "gMonthDay", "length", "1", TypeFault::UnknownType), ("", "date", "length", "1", TypeFault::UnknownType),
    (XSD, "date", "minInclusive", "2000-01-01", TypeFault::UnknownParam), (XSD, "time", "length", "8", TypeFault::UnknownParam),
    (XSD, "hexBinary", "maxInclusive", "0f", TypeFault::UnknownParam), (XSD, "base64Binary", "length", "-1", TypeFault::BadParam),
];

#[test]
fn refuses_names_and_params(rt: HostRuntime) -> Result<(), Fail> {
    for row in &REFUSALS {
        let (library, name, param, value, fault) = *row;
        let refused = narrowed(rt.alloc(), library, name, param, value)?.err();
        assert_eq!(rt; (name, refused), (name, Some(fault)));
    }
    Ok(())
}

// A type, a literal, and whether it is no longer than a schema may write it.
#[rattlefmt::skip]
static LENGTHS: [(&str, &str, bool); 6] = [
    ("decimal", "-0001234567890123456789012345.678900", true), ("decimal", ".1234567890123456789012345678901", false),
    ("integer", " 123456789012345678901234567890 ", true), ("integer", "1234567890123456789012345678900", false),
    ("string", "1234567890123456789012345678901", true), ("time", "00:00:00.1234567890123456789012345678901", true),
];

#[test]
fn counts_digits(rt: HostRuntime) -> Result<(), Fail> {
    for row in &LENGTHS {
        let (name, literal, expected) = *row;
        let datatype = Datatype::named(rt.alloc(), XSD, name, &[])?.copy()?;
        assert!(rt; datatype.accepts(literal));
        assert_eq!(rt;
            (literal, datatype.has_few_digits(literal)),
            (literal, expected)
        );
    }
    Ok(())
}

fn answer(datatype: &Datatype, excepts: &[Except]) -> &'static str
    requires made { IsTrue (is_well_made datatype.now) }
    requires sound { IsTrue (list_all (is_sound_except datatype.now) excepts.now) }
{
    match (
        datatype.has_member(excepts, false),
        datatype.has_member(excepts, true),
    ) {
        (Ok(true), Ok(true)) => "one",
        (Ok(true), Ok(false)) => "some",
        (Ok(false), Ok(false)) => "none",
        (Err(TypeFault::TooManyExcepts), Err(TypeFault::TooManyExcepts)) => "many",
        _ => "wrong",
    }
}

// What is told of a type with excepts.
fn told_of(datatype: &Datatype, excepts: &[Except]) -> &'static str
    requires { IsTrue (is_well_made datatype.now) }
{
    if are_sound(datatype, excepts) {
        answer(datatype, excepts)
    } else {
        "unsound"
    }
}

// What is told of a row's type beside its excepts.
fn told(alloc: Global, row: &str) -> &'static str {
    match described(alloc, row) {
        Ok(case) => told_of(&case.datatype, case.excepts.as_slice()),
        Err(_) => "wrong",
    }
}

// What is told, a type, and its params and excepts, each with its name before `=`. It is `none` where there is no member,
// `some` where there is one, `one` where there is one of one token, and `many` beside too many excepts. `owns` is an except
// of each number from one to another.
pub(crate) const MEMBERS: &str = "\
some|string|length=0
one|string|minLength=999999999
none|string|length=2|length=3
none|string|length=0|string=
none|string|length=0|token=
one|string|minLength=1|owns=0 128
many|string|maxLength=3|owns=0 129
none|normalizedString|minLength=3|maxLength=2
none|normalizedString|maxLength=0|string=
some|token|length=0|string=
none|token|length=0|own= |string=
none|token|maxLength=0|token=
one|anyURI|
none|NCName|length=0
one|Name|maxLength=1|own=a|string=b|token=c
one|NMTOKEN|length=1|owns=0 9
none|ID|minLength=2|maxLength=1
some|NMTOKENS|minLength=2
none|NMTOKENS|maxLength=0
one|IDREFS|length=1|own=a
none|IDREFS|length=1|length=2
one|language|
one|language|own=en|string=en|token=en
none|boolean|own=true|own=false
one|boolean|own=1|string=0
some|boolean|own=true|string=0|string=false
none|boolean|own=true|token=0|token=false
some|boolean|string=true|string=1|string=0|string=false
none|boolean|token=true|token=1|token=0|token=false
one|decimal|minInclusive=1.50|maxInclusive=1.5|string=1.5|token=1.5
none|decimal|minInclusive=1.50|maxInclusive=1.5|own=01.5
none|decimal|minExclusive=1.5|maxInclusive=1.5
one|decimal|minExclusive=1.5|maxExclusive=1.51|own=1.505
one|decimal|minInclusive=0|owns=0 128
none|int|minInclusive=5|maxInclusive=4
none|int|minInclusive=2147483648
one|integer|minInclusive=-123456789012345678901234567890|maxInclusive=-123456789012345678901234567890
none|integer|minExclusive=-1|maxExclusive=1|own=-0
one|integer|maxInclusive=0|own=0
one|byte|minInclusive=0|owns=0 126
none|byte|minInclusive=0|owns=0 127
none|byte|minInclusive=0|owns=0 127|own=0
many|byte|minInclusive=0|owns=0 127|own=0|own=1
one|unsignedByte|minExclusive=126|owns=128 255
none|unsignedByte|minExclusive=126|owns=127 255
one|date|own=2000-01-01|string=2000-01-02|token=2000-01-03
one|gYear|own=2000Z
one|time|
one|hexBinary|length=1|owns=10 99
none|hexBinary|length=0|minLength=1
some|hexBinary|length=0|string=|string= |token=00
none|hexBinary|length=0|own=
none|base64Binary|maxLength=0|own= 
none|base64Binary|maxLength=0|token= 
one|base64Binary|minLength=1|maxLength=1|own=Q Q = =";

#[test]
fn tells_members(rt: HostRuntime) {
    for row in MEMBERS.split("\n") {
        let (want, named) = row.split_once("|").unwrap_or(("no row", row));
        assert_eq!(rt; (row, told(rt.alloc(), named)), (row, want));
    }
}

// Whether a type reads a text as this token; as `none`, where it reads none.
fn is_read(alloc: Global, datatype: &Datatype, text: &str, wanted: &str) -> bool {
    match datatype.as_one_token(alloc, text) {
        Ok(Some(token)) => token.as_slice() == wanted.as_bytes(),
        Ok(None) => wanted == "none",
        Err(_) => false,
    }
}

// The same of a type of a library.
fn reads(alloc: Global, library: &str, name: &str, text: &str, wanted: &str) -> bool {
    match Datatype::named(alloc, library, name, &[]) {
        Ok(datatype) => is_read(alloc, &datatype, text, wanted),
        Err(_) => false,
    }
}

#[test]
fn reads_one_token(rt: HostRuntime) {
    assert!(rt; reads(rt.alloc(), "", "token", " a ", "a"));
    assert!(rt; reads(rt.alloc(), "", "string", " a ", "none"));
    assert!(rt; reads(rt.alloc(), "", "token", "a b", "none"));
    assert!(rt; reads(rt.alloc(), XSD, "base64Binary", " Q Q\n= = ", "QQ=="));
    assert!(rt; reads(rt.alloc(), XSD, "hexBinary", " ", "none"));
    assert!(rt; reads(rt.alloc(), XSD, "date", " 2000-01-01Z ", "2000-01-01Z"));
}
