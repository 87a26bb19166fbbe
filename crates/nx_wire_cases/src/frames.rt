//! Heads that tell a length, and what is none.

use nx_wire::frame::{Frame, next_frame};
use std::test::*;

fn is_wrong(text: &str) -> bool {
    matches!(next_frame(text.as_bytes()), Frame::Wrong)
}

fn is_partial(text: &str) -> bool {
    matches!(next_frame(text.as_bytes()), Frame::Partial)
}

fn is_whole(text: &str, at: usize, len: usize) -> bool {
    next_frame(text.as_bytes()) == Frame::Whole { at, len }
}

#[test]
fn messages_are_found(rt: HostRuntime) -> Result<(), Fail> {
    assert!(rt; is_whole("Content-Length: 2\r\n\r\n{}", 21, 2));
    assert!(rt; is_whole("content-length:2\r\n\r\n{}Content", 20, 2));
    assert!(rt;
        is_whole(
            "Content-Type: x; charset=utf-8\r\nContent-Length: 002 \r\n\r\n{}",
            56,
            2
        )
    );
    assert!(rt; is_whole("Content-Length: 0\r\n\r\n", 21, 0));
    assert!(rt; is_whole("CONTENT-LENGTH: 1\r\nContent-Length: 9\r\n\r\n{}", 40, 1));
    Ok(())
}

#[test]
fn messages_may_come_yet(rt: HostRuntime) -> Result<(), Fail> {
    assert!(rt; is_partial(""));
    assert!(rt; is_partial("Content-Le"));
    assert!(rt; is_partial("Content-Length: 2\r\n"));
    assert!(rt; is_partial("Content-Length: 2\r\n\r\n{"));
    assert!(rt; is_partial("Content-Length: 1073741824\r\n\r\n{"));
    Ok(())
}

#[test]
fn what_is_no_message_never_is(rt: HostRuntime) -> Result<(), Fail> {
    assert!(rt; is_wrong("\r\n\r\n"));
    assert!(rt; is_wrong("Content-Type: x\r\n\r\n{}"));
    assert!(rt; is_wrong("Content-Length: x\r\n\r\n"));
    assert!(rt; is_wrong("Content-Length: +2\r\n\r\n{}"));
    assert!(rt; is_wrong("Content-Length:\r\n\r\n"));
    assert!(rt; is_wrong("Content-Length: 1073741825\r\n\r\n"));
    assert!(rt; is_wrong("Content-Length: 00000000000000000001\r\n\r\n{"));
    assert!(rt; is_wrong("{}"));
    Ok(())
}
