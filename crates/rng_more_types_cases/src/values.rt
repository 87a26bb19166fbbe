//! Which literals have the same value.

use rng_more_types::MoreType;

// A type, whether two texts of it have the same value, and the texts.
const VALUES: &str = "date|same|2002-10-10+13:00|2002-10-09-11:00
date|differ|2002-10-10+13:00|2002-10-09
date|differ|2002-10-10|2002-10-10Z
date|same|2002-10-10Z|2002-10-10+00:00
date|same|2002-10-10Z|2002-10-10-00:00
date|same| 2002-10-10|2002-10-10\t
date|differ|2002-10-10|2002-10-11
date|same|2001-01-01+14:00|2000-12-31-10:00
date|same|0001-01-01+12:00|-0001-12-31-12:00
date|differ|-0001-01-01|0001-01-01
date|differ|12002-10-10|2002-10-10
date|same|999999999-12-31-14:00|999999999-12-31-14:00
date|differ|2002-10-10-11:00|2002-10-10+13:00
time|same|24:00:00|00:00:00
time|same|24:00:00.0|00:00:00.000
time|same|10:00:00+11:00|23:00:00Z
time|same|23:00:00-03:00|02:00:00Z
time|same|00:30:00+14:00|10:30:00Z
time|differ|10:00:00|10:00:00Z
time|same|12:00:00.50|12:00:00.5
time|same|12:00:00.000|12:00:00
time|differ|12:00:00.05|12:00:00.5
time|differ|12:00:00.500001|12:00:00.5
time|same|24:00:00Z|14:00:00+14:00
time|same|13:00:00+14:00|23:00:00Z
time|differ|23:59:59.9|00:00:00
dateTime|same|2000-12-31T24:00:00Z|2001-01-01T01:00:00.0+01:00
dateTime|same|1999-12-31T24:00:00|2000-01-01T00:00:00
dateTime|same|2002-10-10T12:00:00-05:00|2002-10-10T17:00:00Z
dateTime|differ|2002-10-10T12:00:00|2002-10-10T12:00:00Z
dateTime|same|-0001-12-31T24:00:00Z|0001-01-01T00:00:00Z
dateTime|same|2000-02-28T24:00:00|2000-02-29T00:00:00
dateTime|same|1900-02-28T24:00:00|1900-03-01T00:00:00
dateTime|same|-0001-02-28T24:00:00|-0001-02-29T00:00:00
dateTime|same|-0004-02-28T24:00:00|-0004-03-01T00:00:00
dateTime|same|-0005-02-29T24:00:00|-0005-03-01T00:00:00
dateTime|same|2000-12-31T23:30:00-01:00|2001-01-01T00:30:00Z
dateTime|same|2001-01-01T00:30:00+01:00|2000-12-31T23:30:00Z
dateTime|same|2002-10-10T12:00:00.1000Z|2002-10-10T12:00:00.1Z
dateTime|differ|2002-10-10T12:00:00.1001Z|2002-10-10T12:00:00.1Z
dateTime|differ|2002-10-10T12:00:00|2003-10-10T12:00:00
dateTime|same|9999-12-31T24:00:00|10000-01-01T00:00:00
dateTime|same|99999999-12-31T24:00:00Z|100000000-01-01T00:00:00Z
gYear|same|1999| 1999
gYear|differ|1999|-1999
gYear|differ|1999|1999Z
gYear|same|1999Z|1999+00:00
gYear|differ|1999Z|1999+01:00
gYear|differ|1999|2000
gYearMonth|same|1999-05|1999-05
gYearMonth|differ|1999-05|1999-06
gYearMonth|differ|1999-05|1999-05Z
gYearMonth|same|1999-05-05:00|1999-05-05:00
gYearMonth|differ|1999-05-05:00|1999-05+05:00
gYearMonth|differ|-0001-01|0001-01
hexBinary|same|0fb7|0FB7
hexBinary|differ|0FB7|0FB8
hexBinary|same|| 
hexBinary|differ||00
hexBinary|differ|00|0000
hexBinary|same|aBcDeF| AbCdEf 
hexBinary|differ|1a|3a
base64Binary|same|QUJD|Q U J D
base64Binary|differ|QUJD|QUJE
base64Binary|same| QQ==|Q Q = =\t
base64Binary|differ|QQ==|Qg==
base64Binary|differ||QQ==
base64Binary|same||\t
base64Binary|differ|QUJDQUJD|QUJD
base64Binary|differ|qujd|QUJD
dateTime|same|231849023-10-31T24:00:00.000+14:00|231849023-10-31T21:31:00+11:31
dateTime|same|1900-02-01T23:59:00.0Z|1900-02-02T02:50:00+02:51
dateTime|same|995958146-08-30T12:59:00.500+14:00|995958146-08-29T15:34:00.500000-07:25
dateTime|differ|2000-08-29T23:59:00.5+07:09|2000-08-29T12:15:01.500000-04:35
dateTime|same|0001-07-01T12:30:59-11:03|0001-07-01T19:14:59-04:19
dateTime|same|1900-09-29T23:59:00-07:04|1900-09-29T18:09:00-12:54
dateTime|same|2000-10-29T23:59:59+00:16|2000-10-29T10:07:59-13:36
dateTime|same|881803247-11-30T00:30:00.5+00:12|881803247-11-30T05:28:00.500000+05:10
dateTime|same|-0005-02-29T23:59:59.0+14:00|-0005-02-29T19:31:59+09:32
dateTime|same|1900-02-28T00:00:00.0+12:14|1900-02-27T14:34:00+02:48
dateTime|same|0001-10-28T00:59:59.500+14:00|0001-10-27T10:56:59.500000-00:03
dateTime|differ|2511-05-29T12:00:00.500+11:47|2511-05-29T08:54:01.500000+08:41
dateTime|same|388881710-09-29T00:00:59.5+10:35|388881710-09-28T19:26:59.500000+06:01
dateTime|same|2000-05-29T24:00:00.000Z|2000-05-29T19:06:00-04:54
dateTime|same|-0005-06-28T12:30:59Z|-0005-06-28T01:46:59-10:44
dateTime|same|2114-04-28T12:30:59+14:00|2114-04-28T08:36:59+10:06
dateTime|same|0692-01-31T00:30:59.0+09:57|0692-01-30T10:03:59-04:30
dateTime|same|527490084-01-29T12:00:00.0-12:03|527490084-01-30T02:09:00+02:06
dateTime|same|-0215-04-01T00:59:00.0Z|-0215-03-31T22:10:00-02:49
dateTime|same|515358324-03-28T24:00:00+14:00|515358324-03-28T12:41:00+02:41
dateTime|same|-2843-11-30T12:59:59.5-14:00|-2843-11-30T18:22:59.500000-08:37
dateTime|same|170608686-03-28T23:30:00.5+06:40|170608686-03-28T03:54:00.500000-12:56
dateTime|same|1900-09-28T12:59:00+09:36|1900-09-28T01:37:00-01:46
dateTime|same|1732-04-30T00:30:59-08:34|1732-04-30T01:06:59-07:58
dateTime|same|-1256-09-30T12:59:00.500+04:20|-1256-09-30T11:24:00.500000+02:45
dateTime|same|1900-07-30T23:00:00.5Z|1900-07-30T21:57:00.500000-01:03
dateTime|same|-0605-02-29T12:59:00.5-14:00|-0605-02-29T19:50:00.500000-07:09
dateTime|same|-1568-07-01T24:00:00.0-06:19|-1568-07-02T03:12:00-03:07
dateTime|same|-0005-03-29T12:00:59.0-14:00|-0005-03-29T17:54:59-08:06
dateTime|same|-0001-04-30T00:00:59.500Z|-0001-04-30T03:15:59.500000+03:15
dateTime|same|1900-11-30T23:00:59.0+04:14|1900-12-01T07:27:59+12:41
dateTime|same|0001-05-28T24:00:00-14:00|0001-05-29T04:37:00-09:23
dateTime|same|1900-10-30T24:00:00+00:59|1900-10-30T23:03:00+00:02
dateTime|same|1900-08-29T23:30:59-04:27|1900-08-29T23:00:59-04:57
dateTime|same|2000-04-29T23:59:59.0+07:27|2000-04-29T16:12:59-00:20
dateTime|same|0075-07-30T23:30:59.0-05:04|0075-07-30T17:20:59-11:14
dateTime|same|-0079-07-01T23:59:59.0+00:14|-0079-07-01T10:24:59-13:21
dateTime|same|1737-08-31T24:00:00.0-03:00|1737-08-31T17:44:00-09:16
dateTime|differ|-0005-10-31T24:00:00.000Z|-0005-10-31T17:30:01-06:30
dateTime|differ|0956-09-30T24:00:00.0-14:00|0956-10-01T01:20:01-12:40
dateTime|same|2000-07-01T24:00:00+01:41|2000-07-02T06:49:00+08:30
dateTime|differ|0143-08-31T24:00:00.0Z|0143-09-01T11:26:01+11:26
dateTime|same|673492968-10-01T23:00:59.0+04:54|673492968-10-01T20:07:59+02:01
dateTime|same|0001-12-29T00:00:00-08:32|0001-12-29T14:27:00+05:55
dateTime|same|2000-03-30T23:30:59.0+14:00|2000-03-30T09:05:59-00:25
date|differ|2000-09-28+14:00|2000-09-28Z
date|differ|0001-09-30-14:00|0001-09-30Z
date|differ|1900-08-31+14:00|1900-08-31Z
date|differ|2015-03-30-14:00|2015-03-30Z
date|differ|0001-11-28-04:40|0001-11-28Z
date|same|0523-05-01+14:00|0523-05-01+14:00
date|differ|2895-12-28+14:00|2895-12-28Z
date|differ|0988-06-01-14:00|0988-06-01Z
date|differ|0800-05-28-14:00|0800-05-28Z
date|differ|2000-12-30-08:47|2000-12-30Z
date|differ|0001-06-29-14:00|0001-06-29Z
date|same|2000-06-01Z|2000-06-01+00:00
date|differ|0113-03-31-08:04|0113-03-31Z
date|same|692696703-04-01+14:00|692696703-04-01+14:00
date|differ|0001-05-31-14:00|0001-05-31Z
date|differ|1900-05-01-14:00|1900-05-01Z
date|same|-1366-05-31+14:00|-1366-05-30-10:00
date|differ|0001-05-01-14:00|0001-05-01Z
date|differ|0001-08-29-08:37|0001-08-29Z
date|differ|1900-04-30-14:00|1900-04-30Z";

// The first part of a row, and the others.
fn cut(row: &str) -> (&str, &str) {
    row.split_once("|").unwrap_or((row, "no row"))
}

// Whether two texts of a type are told as they are to be, either way round.
fn are_told(kind: MoreType, a: &str, b: &str, same: bool) -> bool {
    kind.accepts(a) && kind.accepts(b) && kind.same(a, b) == same && kind.same(b, a) == same
}

fn is_told(row: &str) -> bool {
    let (name, rest) = cut(row);
    let (wanted, texts) = cut(rest);
    let (a, b) = cut(texts);
    match MoreType::named(name) {
        Some(kind) => are_told(kind, a, b, wanted == "same"),
        None => false,
    }
}

#[test]
fn compares_values(rt: HostRuntime) {
    for row in VALUES.split("\n") {
        assert!(rt; is_told(row), "{row}");
    }
}
