//! Texts of a million characters.

use rng_more_types::MoreType;
use std::alloc::{AllocError, Global};
use std::test::Fail;

// A text, with so many times another behind it.
fn extended(alloc: Global, front: &str, part: &str, count: u32) -> Result<String, AllocError> {
    let mut text = String::new(alloc);
    text.push_str(front)?;
    for _ in 0..count {
        text.push_str(part)?;
    }
    Ok(text)
}

#[test]
fn compares_long_fractions(rt: HostRuntime) -> Result<(), Fail> {
    let kind = MoreType::DateTime;
    let digits = extended(rt.alloc(), "2000-12-31T24:00:00.", "0", 1_000_000)?;
    let wrong = extended(rt.alloc(), digits.as_str(), "1", 1)?;
    let text = digits.as_str();
    assert!(rt; kind.accepts(text));
    assert!(rt; !kind.accepts(wrong.as_str()));
    assert!(rt; kind.accepts("2001-01-01T00:00:00"));
    assert!(rt; kind.same(text, "2001-01-01T00:00:00"));
    Ok(())
}

#[test]
fn counts_long_octets(rt: HostRuntime) -> Result<(), Fail> {
    let kind = MoreType::Base64Binary;
    let digits = extended(rt.alloc(), "", "QUJD", 250_000)?;
    let text = digits.as_str();
    assert!(rt; kind.accepts(text));
    assert_eq!(rt; kind.octets(text), Some(750_000));
    assert!(rt; kind.same(text, text));
    Ok(())
}
