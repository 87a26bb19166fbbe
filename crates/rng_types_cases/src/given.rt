//! Members that types give, each judged by `accepts` and by the excepts.

ghost use Rattle.std.specs.Prelude.{IsTrue};
ghost use Rattle.std.specs.List.{list_all};
ghost use Rattle.rng_types.specs.WellMade.{is_well_made, is_sound_except};

use crate::described::{are_sound, described};
use crate::types::MEMBERS;
use nx_base::sequence::Bytes;
use rng_types::datatype::{Datatype, Except};
use rng_types::fault::TypeFault;
use rng_types::word::is_of_chars;
use std::alloc::Global;

// Whether a text has a character and no white space.
fn is_token(text: &str) -> bool {
    !text.is_empty() && !text.contains(' ') && !text.contains('\t') && !text.contains('\n')
}

// Whether a text is a member.
fn is_right(datatype: &Datatype, excepts: &[Except], one_token: bool, text: &str) -> bool
    requires { IsTrue (list_all (is_sound_except datatype.now) excepts.now) }
{
    is_of_chars(text.as_bytes())
        && datatype.accepts(text)
        && datatype.is_left(excepts, text)
        && (!one_token || is_token(text))
}

// Whether bytes are.
fn are_right(datatype: &Datatype, excepts: &[Except], one_token: bool, given: &Bytes) -> bool
    requires { IsTrue (list_all (is_sound_except datatype.now) excepts.now) }
{
    match str::from_utf8(given.as_slice()) {
        Ok(text) => is_right(datatype, excepts, one_token, text),
        Err(_) => false,
    }
}

// Whether what is given is a member, or nothing where there is none.
fn is_answered(alloc: Global, datatype: &Datatype, excepts: &[Except], one_token: bool) -> bool
    requires made { IsTrue (is_well_made datatype.now) }
    requires sound { IsTrue (list_all (is_sound_except datatype.now) excepts.now) }
{
    match (
        datatype.member(alloc, excepts, one_token),
        datatype.has_member(excepts, one_token),
    ) {
        (Ok(Some(given)), Ok(true)) => are_right(datatype, excepts, one_token, &given),
        (Ok(None), Ok(false)) => true,
        (Err(TypeFault::TooManyExcepts), Err(TypeFault::TooManyExcepts)) => true,
        _ => false,
    }
}

fn are_answered(alloc: Global, datatype: &Datatype, excepts: &[Except]) -> bool
    requires { IsTrue (is_well_made datatype.now) }
{
    are_sound(datatype, excepts)
        && is_answered(alloc, datatype, excepts, false)
        && is_answered(alloc, datatype, excepts, true)
}

// The same of a row.
fn is_row_answered(alloc: Global, row: &str) -> bool {
    match described(alloc, row) {
        Ok(case) => are_answered(alloc, &case.datatype, case.excepts.as_slice()),
        Err(_) => false,
    }
}

#[test]
fn gives_members_where_there_are_some(rt: HostRuntime) {
    for row in MEMBERS.split("\n") {
        let (_, named) = row.split_once("|").unwrap_or(("", row));
        let is_made = !named.contains("999999999");
        assert_eq!(rt; (row, is_row_answered(rt.alloc(), named)), (row, is_made));
    }
}

// A type with params, and what is given of it beside no excepts: what a reader would write.
const FIRST: &str = "\
string||a
string|minLength=3|aaa
normalizedString||a
token|length=0|
anyURI||a
Name||a
NCName|minLength=2|aa
NMTOKEN||a
NMTOKENS|minLength=3|a a a
language||a
boolean||true
decimal||0
decimal|minInclusive=1.50|1.50
decimal|minExclusive=9|maxExclusive=10|9.00001
decimal|minExclusive=0|maxExclusive=1|0.5
integer||0
integer|minExclusive=0|1
integer|minExclusive=-100|maxInclusive=-90|-90
integer|minInclusive=10000000000000000000000000000|10000000000000000000000000000
integer|minExclusive=9999|10000
integer|minExclusive=-10000|maxExclusive=-9000|-9999
negativeInteger||-1
unsignedByte||0
date||2000-01-01
time||00:00:00
dateTime||2000-01-01T00:00:00
gYear||2000
gYearMonth||2000-01
hexBinary||00
hexBinary|minLength=3|000000
hexBinary|length=0|
base64Binary||AA==
base64Binary|length=2|AAA=
base64Binary|length=3|AAAA
base64Binary|length=7|AAAAAAAAAA==";

// Whether that is given.
fn is_given(alloc: Global, datatype: &Datatype, wanted: &str) -> bool
    requires { IsTrue (is_well_made datatype.now) }
{
    match datatype.member(alloc, &[], false) {
        Ok(Some(given)) => given.as_slice() == wanted.as_bytes(),
        _ => false,
    }
}

fn is_row_given(alloc: Global, row: &str) -> bool {
    let (named, wanted) = row.rsplit_once("|").unwrap_or((row, ""));
    match described(alloc, named) {
        Ok(case) => is_given(alloc, &case.datatype, wanted),
        Err(_) => false,
    }
}

#[test]
fn gives_what_a_reader_would_write(rt: HostRuntime) {
    for row in FIRST.split("\n") {
        assert_eq!(rt; (row, is_row_given(rt.alloc(), row)), (row, true));
    }
}

// An except of the kind that has this letter.
fn except_of(kind: u8, text: Bytes) -> Except {
    match kind {
        b'o' | b'O' => Except::Own(text),
        b's' | b'S' => Except::BuiltinString(text),
        _ => Except::BuiltinToken(text),
    }
}

// The kind of the except with this number, where kinds come in turn.
fn kind_at(kinds: &str, number: usize) -> u8 {
    let kinds = kinds.as_bytes();
    if kinds.is_empty() {
        return b'o';
    }
    kinds[number % kinds.len()]
}

// Whether so many members are given, one after another, where each becomes an except, and then none, or more where that is said.
fn are_given(
    alloc: Global,
    datatype: &Datatype,
    kinds: &str,
    one_token: bool,
    wanted: usize,
    is_all: bool,
) -> bool
    requires { IsTrue (is_well_made datatype.now) }
{
    let mut excepts = Vec::new(alloc);
    for count in 0..wanted {
        if !are_sound(datatype, excepts.as_slice()) {
            return false;
        }
        let Ok(Some(given)) = datatype.member(alloc, excepts.as_slice(), one_token) else {
            return false;
        };
        if !are_right(datatype, excepts.as_slice(), one_token, &given) {
            return false;
        }
        if excepts
            .push(except_of(kind_at(kinds, count), given))
            .is_err()
        {
            return false;
        }
    }
    are_sound(datatype, excepts.as_slice())
        && match datatype.member(alloc, excepts.as_slice(), one_token) {
            Ok(found) => found.is_none() == is_all,
            Err(fault) => fault == TypeFault::TooManyExcepts && wanted == 130,
        }
}

// Whether a row's type gives so many.
fn is_row_counted(alloc: Global, kinds: &str, named: &str, wanted: usize, is_all: bool) -> bool {
    let one_token = kinds.starts_with('O') || kinds.starts_with('S');
    match described(alloc, named) {
        Ok(case) => are_given(alloc, &case.datatype, kinds, one_token, wanted, is_all),
        Err(_) => false,
    }
}

// How many members there are (`+`: and more), of what kind each that is given becomes an except (`o` of the type's own values,
// `s` of built-in strings, `t` of built-in tokens, in turn; a capital says that one token is asked for), and a type with params.
fn is_count_right(alloc: Global, row: &str) -> bool {
    let (count, described) = row.split_once("|").unwrap_or(("no row", row));
    let (kinds, named) = described.split_once("|").unwrap_or((described, ""));
    match count.trim_end_matches('+').parse::<usize>() {
        Ok(wanted) => is_row_counted(alloc, kinds, named, wanted, !count.ends_with('+')),
        Err(_) => false,
    }
}

const FEW: &str = "\
3+|OST|string|maxLength=1
1|s|string|length=0
1|t|string|length=0
0|O|string|length=0
1|o|token|maxLength=0
30+|tso|normalizedString|minLength=40|maxLength=40
30+|ost|token|maxLength=2
30+|ost|Name
30+|OST|NCName|length=1
30+|ost|NMTOKEN|minLength=3
30+|ost|NMTOKENS
0|O|NMTOKENS|minLength=2
30+|ost|IDREFS|minLength=17
9+|OST|language
2|o|boolean
4|S|boolean
4|t|boolean
3|Os|boolean
20+|ost|decimal
20+|OST|decimal|minInclusive=0
1|o|decimal|minInclusive=0|maxInclusive=-0.0
20+|ost|decimal|minExclusive=-0.5|maxExclusive=0
20+|ost|decimal|minExclusive=-0.51|maxExclusive=-0.5
20+|ost|decimal|maxExclusive=-123456789012345678901234567890
20+|ost|decimal|minExclusive=.000000000000000000000000000001
20+|ost|decimal|minExclusive=-0|maxExclusive=.000000000000000000000000000001
20+|ost|decimal|minExclusive=-1|maxExclusive=1
0|o|decimal|minExclusive=1|maxInclusive=1.0
20+|OST|integer
20+|ost|integer|minExclusive=99999999999999999999999999999
7|o|integer|minInclusive=99999|maxInclusive=100005
7|o|integer|minInclusive=-3|maxInclusive=3
12|o|integer|minInclusive=-1003|maxExclusive=-991
20+|st|integer|minInclusive=-0|maxInclusive=0
0|o|integer|minExclusive=3|maxExclusive=4
20+|ost|negativeInteger
20+|ost|positiveInteger
8|o|byte|minInclusive=120
0|o|byte|minInclusive=128
9+|ost|dateTime
9+|OST|gYear
9+|ost|gYearMonth
20+|OST|hexBinary
20+|ost|hexBinary|length=3
1|o|hexBinary|length=0
20+|s|hexBinary|length=0
1|t|hexBinary|length=0
0|O|hexBinary|length=0
9+|OST|base64Binary|minLength=2
9+|ost|base64Binary|length=3
9+|ost|base64Binary|length=4
1|o|base64Binary|maxLength=0
9+|s|base64Binary|maxLength=0";

#[test]
fn gives_as_many_as_there_are(rt: HostRuntime) {
    for row in FEW.split("\n") {
        assert_eq!(rt; (row, is_count_right(rt.alloc(), row)), (row, true));
    }
}

// As many as excepts can be, and one.
const MANY: &str = "\
130+|ost|string
130+|s|token|length=0
130+|OST|NMTOKENS
130+|ost|language
130+|s|boolean
130+|s|decimal|minInclusive=1.5|maxInclusive=01.50
130+|o|decimal|minExclusive=1.5|maxExclusive=1.51
130+|o|integer|maxExclusive=-123456789012345678901234567890
130+|ost|integer|minExclusive=-1100
130+|ost|byte
130+|ost|date
130+|o|time
130+|o|hexBinary
130+|o|base64Binary";

#[test]
fn gives_one_more_than_there_are_excepts(rt: HostRuntime) {
    for row in MANY.split("\n") {
        assert_eq!(rt; (row, is_count_right(rt.alloc(), row)), (row, true));
    }
}

// Whether a row's type wants memory for its members, since they are longer than is made.
fn is_too_long(alloc: Global, datatype: &Datatype) -> bool
    requires { IsTrue (is_well_made datatype.now) }
{
    match datatype.member(alloc, &[], false) {
        Err(fault) => fault == TypeFault::NoMemory,
        Ok(_) => false,
    }
}

fn is_row_too_long(alloc: Global, row: &str) -> bool {
    match described(alloc, row) {
        Ok(case) => is_too_long(alloc, &case.datatype),
        Err(_) => false,
    }
}

#[test]
fn makes_no_text_beyond_a_length(rt: HostRuntime) {
    let alloc = rt.alloc();
    let are_refused = is_row_too_long(alloc, "string|minLength=16000001")
        && is_row_too_long(alloc, "NMTOKENS|length=999999999")
        && is_row_too_long(alloc, "hexBinary|minLength=999999999")
        && !is_row_too_long(alloc, "string|minLength=100000");
    assert!(rt; are_refused);
}
