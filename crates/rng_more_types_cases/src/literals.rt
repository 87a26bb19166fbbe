//! Which texts are literals of a type, and how many octets they are.

use rng_more_types::MoreType;

// A type, whether it accepts a text, and the text: XML Schema Part 2, sections 3.2.7 to 3.2.11.
const LITERALS: &str = "date|yes|2002-10-10
date|yes|2002-10-10Z
date|yes|2002-10-10+13:00
date|yes|2002-10-10-05:30
date|yes| \t2002-10-10\r 
date|no|2002-10-10 Z
date|no|2002 -10-10
date|no|
date|no|  
date|no|2002-10
date|no|2002-10-1
date|no|2002-1-10
date|no|02-10-10
date|no|2002-13-01
date|no|2002-00-01
date|no|2002-01-00
date|no|2002-10-10T00:00:00
date|no|+2002-10-10
date|no|2002/10/10
date|no|20021010
date|no|2002-10-10z
date|no|2002-10-10ZZ
date|no|2002-10-10+14:01
date|yes|2002-10-10+14:00
date|yes|2002-10-10-14:00
date|no|2002-10-10+15:00
date|no|2002-10-10+13:60
date|yes|2002-10-10+13:59
date|no|2002-10-10+1:00
date|no|2002-10-10+13
date|no|2002-10-10+13:0
date|no|2002-10-10+13:000
date|no|2002-10-10:13:00
date|yes|2002-10-10-00:00
date|yes|0001-01-01
date|yes|-0001-01-01
date|no|0000-01-01
date|no|-0000-01-01
date|no|00001-01-01
date|no|02002-10-10
date|yes|12002-10-10
date|yes|-12002-10-10
date|no|-02002-10-10
date|yes|123456789-12-31
date|yes|-999999999-01-01
date|yes|999999999-12-31-14:00
date|no|1234567890-01-01
date|no|-1234567890-01-01
date|no|--2002-10-10
date|no|-002-10-10
date|no|002-10-10
date|yes|2000-02-29
date|no|1900-02-29
date|yes|1904-02-29
date|no|2023-02-29
date|yes|2024-02-29
date|no|2100-02-29
date|yes|2400-02-29
date|no|2000-02-30
date|yes|-0001-02-29
date|no|-0004-02-29
date|yes|-0005-02-29
date|no|-0101-02-29
date|no|-0100-02-29
date|yes|-0401-02-29
date|no|0100-02-29
date|yes|0004-02-29
date|no|0001-02-29
date|yes|400000000-02-29
date|no|400000100-02-29
date|yes|2001-01-31
date|yes|2001-03-31
date|yes|2001-04-30
date|no|2001-04-31
date|yes|2001-05-31
date|yes|2001-06-30
date|no|2001-06-31
date|yes|2001-07-31
date|yes|2001-08-31
date|yes|2001-09-30
date|no|2001-09-31
date|yes|2001-10-31
date|yes|2001-11-30
date|no|2001-11-31
date|yes|2001-12-31
date|no|2001-12-32
date|no|2001-01-32
date|yes|2001-02-28
date|no|\u{662}002-10-10
date|no|2002-10-10\u{e9}
time|yes|13:20:00
time|yes|00:00:00
time|yes|23:59:59
time|yes|24:00:00
time|yes|24:00:00.000
time|no|24:00:00.001
time|no|24:00:01
time|no|24:01:00
time|no|25:00:00
time|no|12:60:00
time|no|12:00:60
time|yes|13:20:00.5
time|no|13:20:00.
time|no|13:20:00.5.5
time|no|13:20:00,5
time|no|13:20
time|no|1:20:00
time|no|13:2:00
time|no|132000
time|yes|13:20:00-05:00
time|yes|13:20:00.123Z
time|no|13:20:00.Z
time|no|-13:20:00
time|yes|\t13:20:00 
time|no|13:20:0
time|no|13:20:00 Z
time|no|T13:20:00
time|no|
time|yes|24:00:00+14:00
time|no|2002-10-10T13:20:00
dateTime|yes|2002-10-10T12:00:00
dateTime|yes|2002-10-10T12:00:00-05:00
dateTime|yes|2002-10-10T17:00:00Z
dateTime|no|2002-10-10
dateTime|no|2002-10-10T12:00
dateTime|no|2002-10-10t12:00:00
dateTime|no|2002-10-10 12:00:00
dateTime|no|2002-10-10T
dateTime|no|T12:00:00
dateTime|yes|1999-12-31T24:00:00
dateTime|no|1999-12-31T24:00:00.01
dateTime|yes|-0001-02-29T23:59:59.999999999999999999999Z
dateTime|no|2001-02-29T00:00:00
dateTime|no|2002-10-10T12:00:00+24:00
dateTime|no|2002-10-10Z12:00:00
dateTime|no|2002-10-10T12:00:00T
gYear|yes|1999
gYear|yes|-1999
gYear|yes|1999-05:00
gYear|yes|1999Z
gYear|yes|0999
gYear|no|0000
gYear|no|-0000
gYear|no|999
gYear|no|99999999999
gYear|yes|999999999
gYear|no|0999999
gYear|no|1234567890
gYear|no|1999-05
gYear|no|+1999
gYear|no|19x9
gYear|yes| 1999 
gYear|no|19 99
gYear|no|-
gYear|no|1999-
gYear|no|
gYearMonth|yes|1999-05
gYearMonth|yes|-0001-12
gYearMonth|yes|1999-05-05:00
gYearMonth|yes|1999-05Z
gYearMonth|no|1999-05-05
gYearMonth|no|1999-13
gYearMonth|no|1999-00
gYearMonth|no|1999
gYearMonth|no|--05
gYearMonth|no|1999-5
gYearMonth|no|0000-05
gYearMonth|yes|100000000-01+00:00
date|yes|310992886-12-31+06:52
gYearMonth|no|-0005-03114:00
date|no|0001-11-31
gYearMonth|yes|0207-07
dateTime|yes|572456679-05-29T23:30:00.5+01:58
date|yes|1900-08-01+14:00
dateTime|yes|-0005-03-28T23:00:00.0+00:53
date|no|1900-05-30+08:1+
date|yes|-0005-09-30+07:20
date|no|621.60035-09-28+14:00
date|yes|964900780-08-30
date|yes|1382-05-01Z
date|no|2000-11-01+.8:03
date|yes|-0001-02-01Z
gYearMonth|no|2000102+14:00
date|no|-0005-09-31+09:34
date|yes|253586210-12-28+12:32
date|yes|-0001-01-01Z
gYearMonth|yes|345054438-03-14:00
date|no|0001-97-30Z
dateTime|no|0001-11-28T23T59:00.500
dateTime|yes|0001-06-28T23:30:00.0-07:06
date|yes|0408-05-30+02:02
date|yes|1900-09-29+14:00
date|yes|1900-10-29-07:21
dateTime|no|-2462-06-31T12:30:00-14:00
dateTime|yes|0001-01-29T00:59:00-14:00
gYearMonth|no|-0069-07-1Z:03
gYearMonth|yes|778382949-02
date|yes|-0005-07-29+12:47
gYearMonth|yes|2000-10-05:52
dateTime|no|1900-01-29T23:30:-9
gYearMonth|no|-0Z01-10Z
dateTime|yes|2944-01-28T24:00:00.0
date|no|200:-07-29-01:15
gYearMonth|yes|-0005-01
dateTime|yes|2000-09-28T12:59:00.500-14:00
date|yes|0001-10-01-09:51
dateTime|yes|-0001-12-28T23:30:59.0-14:00";

// A type of octets, how many octets a text is, or that it isn't accepted, and the text: sections 3.2.15 and 3.2.16.
const OCTETS: &str = "hexBinary|0|
hexBinary|0| \t 
hexBinary|2|0FB7
hexBinary|2|0fB7
hexBinary|no|0F B7
hexBinary|no|0
hexBinary|no|0FB
hexBinary|no|0G
hexBinary|1| ff 
hexBinary|no|0x0F
hexBinary|no|g0
hexBinary|no|@0
hexBinary|no|/0
hexBinary|no|:0
hexBinary|no|`0
hexBinary|16|00112233445566778899AABBCCDDEEFF
base64Binary|0|
base64Binary|0|  
base64Binary|1|QQ==
base64Binary|no|QR==
base64Binary|1| Q Q = = 
base64Binary|1|Q\tQ\r==
base64Binary|2|QUI=
base64Binary|no|QUJ=
base64Binary|3|QUJD
base64Binary|no|QUJ
base64Binary|no|QQ=
base64Binary|no|Q===
base64Binary|no|====
base64Binary|no|=
base64Binary|no|QQ==QQ==
base64Binary|no|QQ=A
base64Binary|no|QQ==A
base64Binary|3|+/+/
base64Binary|no|-_-_
base64Binary|no|QU,D
base64Binary|no|QUI==
base64Binary|no|QUJD=
base64Binary|6|QUJDQUJD
base64Binary|no|QUJDQ
base64Binary|no|QUJDQU
base64Binary|5|QUJDQUI=
base64Binary|4|QUJDQQ==
base64Binary|no|QUJDQUJDQ==
base64Binary|no|QU\u{e9}D
base64Binary|no|Q*==
base64Binary|no|[]==
base64Binary|no|@@==
base64Binary|no|{{==
base64Binary|1|fA==
hexBinary|1|7c
base64Binary|no|fZ==
base64Binary|2|EGA=
hexBinary|2|1060
base64Binary|no|EGB=
base64Binary|3|WJMs
hexBinary|3|58932c
base64Binary|4|fCW64Q==
hexBinary|4|7c25bae1
base64Binary|no|fCW641==
base64Binary|5|MJrc1oA=
hexBinary|5|309adcd680
base64Binary|no|MJrc1o1=
base64Binary|6|uWZPE67K
hexBinary|6|b9664f13aeca
base64Binary|7|u1XwYX+7/g==
hexBinary|7|bb55f0617fbbfe
base64Binary|no|u1XwYX+7/Z==
base64Binary|8|fvOZRG/eiIo=
hexBinary|8|7ef399446fde888a
base64Binary|8|fvOZRG/eiIY=
base64Binary|9|1/CHcT3gMwqO
hexBinary|9|d7f087713de0330a8e
base64Binary|10|oz9TVohWOSoLbQ==
hexBinary|10|a33f53568856392a0b6d
base64Binary|no|oz9TVohWOSoLbG==
base64Binary|11|G63ivdkkuZKixQ8=
hexBinary|11|1bade2bdd924b992a2c50f
base64Binary|no|G63ivdkkuZKixQH=";

// The first part of a row, and the others.
fn cut(row: &str) -> (&str, &str) {
    row.split_once("|").unwrap_or((row, "no row"))
}

// Whether so many octets are those that are wanted; a date or time has none.
fn are_wanted(octets: Option<usize>, wanted: &str) -> bool {
    match octets {
        Some(count) => wanted.parse::<usize>().is_ok_and(|number| number == count),
        None => wanted == "yes",
    }
}

// Whether a text of a type is what is wanted.
fn is_wanted(kind: MoreType, text: &str, wanted: &str) -> bool {
    if kind.accepts(text) {
        kind.same(text, text) && are_wanted(kind.octets(text), wanted)
    } else {
        wanted == "no"
    }
}

fn is_told(row: &str) -> bool {
    let (name, rest) = cut(row);
    let (wanted, text) = cut(rest);
    match MoreType::named(name) {
        Some(kind) => is_wanted(kind, text, wanted),
        None => false,
    }
}

#[test]
fn accepts_literals(rt: HostRuntime) {
    for row in LITERALS.split("\n") {
        assert!(rt; is_told(row), "{row}");
    }
}

#[test]
fn counts_octets(rt: HostRuntime) {
    for row in OCTETS.split("\n") {
        assert!(rt; is_told(row), "{row}");
    }
}

#[test]
fn knows_seven_names(rt: HostRuntime) {
    for name in [
        "",
        "Date",
        "gMonth",
        "gDay",
        "gMonthDay",
        "datetime",
        "hexbinary",
        "base64",
        "date ",
    ] {
        assert!(rt; MoreType::named(name).is_none(), "{name}");
    }
}
