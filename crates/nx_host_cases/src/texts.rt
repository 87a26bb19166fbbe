//! Bytes, and where they stop being text.

use nx_host::utf8::text_front;

/// Bytes, and where they stop being text.
const ROWS: [(&[u8], usize); 12] = [
    (b"", 0),
    (b"a\xC3\xA9\xE2\x82\xAC\xF0\x9F\x98\x80", 10),
    (b"a\xE2\x82A", 3),
    (b"a\xE2\x82", 3),
    (b"\xFF", 0),
    (b"ab\x80", 2),
    (b"\xC3", 1),
    (b"\xC3A", 1),
    (b"\xE0\x80\x80", 1),
    (b"\xED\xA0\x80", 1),
    (b"\xF4\x8F\xBFA", 3),
    (b"a\xC0\xAF", 1),
];

#[test]
fn bytes_stop_being_text(rt: HostRuntime) {
    for (bytes, want) in &ROWS {
        assert_eq!(rt; text_front(*bytes), *want);
    }
}
