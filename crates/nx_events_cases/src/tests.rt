//! Each text of the tables against what it gives, and what no table has: deep texts, whole texts, states that are the same.

use crate::printer::Printer;
use crate::reader::{items_of, prefix_behind, state_behind};
use crate::tables::{EVENTS, FAULTS, OTHER, PREFIXES, SAME, SCOPES, STATES};
use nx_base::fault::Faults;
use nx_base::machine::Machine;
use nx_base::sequence::{Bytes, TryCopy};
use nx_base::token::{Token, TokenKind};
use nx_events::bare::Bare;
use nx_events::equal::same;
use nx_events::fold::items_of_tokens;
use nx_events::in_force::scope;
use nx_events::prefix::run_of;
use nx_events::reader::{copy, depth, pending};
use std::alloc::Global;
use std::process::Abort;
use std::test::Fail;

fn faults_told(alloc: Global, parts: &str) -> Result<String, Fail> {
    let mut printer = Printer::new(alloc);
    printer.faults(items_of(alloc, parts)?.as_slice());
    printer.finish()
}

fn items_told(alloc: Global, parts: &str) -> Result<String, Fail> {
    let mut printer = Printer::new(alloc);
    printer.items(items_of(alloc, parts)?.as_slice());
    printer.finish()
}

fn state_told(alloc: Global, parts: &str) -> Result<String, Fail> {
    let mut printer = Printer::new(alloc);
    let state = state_behind(alloc, parts)?;
    printer.number(depth(&state));
    if pending(&state) {
        printer.word(" pending");
    }
    if let Some(string) = run_of(&state)? {
        printer.word(" ");
        printer.text(string.as_slice());
    }
    printer.finish()
}

fn scope_told(alloc: Global, parts: &str) -> Result<String, Fail> {
    let mut printer = Printer::new(alloc);
    let state = state_behind(alloc, parts)?;
    printer.names(scope(alloc, &state)?.as_slice());
    printer.finish()
}

/// What is told of a text: its faults, its items, or the declarations in force or the state behind its tokens.
fn told(alloc: Global, what: &str, parts: &str) -> Result<String, Fail> {
    match what {
        "faults" => faults_told(alloc, parts),
        "items" => items_told(alloc, parts),
        "scopes" => scope_told(alloc, parts),
        _ => state_told(alloc, parts),
    }
}

/// Adds what was told of a text, where that isn't what was wanted.
fn compare(wrong: &mut String, parts: &str, told: &str, want: &str) -> Result<(), Fail> {
    if told != want {
        write!(wrong, "{parts}\n  is: {told}\n  want: {want}\n")?;
    }
    Ok(())
}

fn compare_told(
    alloc: Global,
    wrong: &mut String,
    what: &str,
    parts: &str,
    want: &str,
) -> Result<(), Fail> {
    let told = told(alloc, what, parts)?;
    compare(wrong, parts, told.as_str(), want)
}

/// The rows of which something else is told than what is wanted.
fn differences(alloc: Global, what: &str, rows: &[(&str, &str)]) -> Result<String, Fail> {
    let mut wrong = String::new(alloc);
    for (parts, want) in rows {
        compare_told(alloc, &mut wrong, what, parts, want)?;
    }
    Ok(wrong)
}

#[test]
fn faults(rt: HostRuntime) -> Result<(), Fail> {
    let wrong = differences(rt.alloc(), "faults", &FAULTS)?;
    assert_eq!(rt; wrong.as_str(), "");
    Ok(())
}

#[test]
fn events(rt: HostRuntime) -> Result<(), Fail> {
    let wrong = differences(rt.alloc(), "items", &EVENTS)?;
    assert_eq!(rt; wrong.as_str(), "");
    Ok(())
}

#[test]
fn states(rt: HostRuntime) -> Result<(), Fail> {
    let wrong = differences(rt.alloc(), "states", &STATES)?;
    assert_eq!(rt; wrong.as_str(), "");
    Ok(())
}

#[test]
fn scopes(rt: HostRuntime) -> Result<(), Fail> {
    let wrong = differences(rt.alloc(), "scopes", &SCOPES)?;
    assert_eq!(rt; wrong.as_str(), "");
    Ok(())
}

fn prefix_told(alloc: Global, parts: &str, text: &str) -> Result<String, Fail> {
    let mut printer = Printer::new(alloc);
    printer.prefix(&prefix_behind(alloc, parts, text)?);
    printer.finish()
}

fn compare_prefix(
    alloc: Global,
    wrong: &mut String,
    parts: &str,
    text: &str,
    want: &str,
) -> Result<(), Fail> {
    let told = prefix_told(alloc, parts, text)?;
    compare(wrong, text, told.as_str(), want)
}

#[test]
fn prefixes(rt: HostRuntime) -> Result<(), Fail> {
    let mut wrong = String::new(rt.alloc());
    for (parts, text, want) in &PREFIXES {
        compare_prefix(rt.alloc(), &mut wrong, parts, text, want)?;
    }
    assert_eq!(rt; wrong.as_str(), "");
    Ok(())
}

/// Whether the same is known behind these tokens, either way round, and of a copy.
fn are_same(alloc: Global, one: &str, other: &str) -> Result<bool, Fail> {
    let one = state_behind(alloc, one)?;
    let other = state_behind(alloc, other)?;
    let copied = copy(alloc, &other)?;
    Ok(same(&one, &other) && same(&copied, &one))
}

#[test]
fn sameness(rt: HostRuntime) -> Result<(), Fail> {
    for (one, other) in &SAME {
        assert!(rt; are_same(rt.alloc(), one, other)?, "for {one} and {other}");
    }
    for (one, other) in &OTHER {
        assert!(rt; !are_same(rt.alloc(), one, other)?, "for {one} and {other}");
    }
    Ok(())
}

/// More open elements and declarations than are looked through.
fn deep_parts(alloc: Global) -> Result<String, Fail> {
    let mut parts = String::new(alloc);
    for _ in 0..40 {
        parts.push_str("s<a xmlns:p='u'>|s<p:b>|")?;
    }
    for _ in 0..40 {
        parts.push_str("e</c>|e</a>|")?;
    }
    Ok(parts)
}

// Each name and prefix is found, and lost again.
#[test]
fn deep(rt: HostRuntime) -> Result<(), Fail> {
    let told = faults_told(rt.alloc(), deep_parts(rt.alloc())?.as_str())?;
    assert_eq!(rt;
        [
            told.as_str().matches("MissingEnd p:b;").count(),
            told.as_str().matches("ExtraEnd c;").count(),
            told.as_str().matches(";").count(),
        ],
        [40, 40, 80]
    );
    Ok(())
}

fn bare_told(alloc: Global) -> Result<String, Fail> {
    let mut machine = Bare;
    let mut faults = Faults::new(alloc);
    let state = machine.start(alloc)?;
    machine.at_end(alloc, &state, 0, &mut faults)?;
    let mut printer = Printer::new(alloc);
    for fault in faults.as_slice() {
        printer.fault(fault);
    }
    printer.finish()
}

// What the machine without a schema tells of the empty text.
#[test]
fn bare(rt: HostRuntime) -> Result<(), Fail> {
    let told = bare_told(rt.alloc())?;
    assert_eq!(rt; told.as_str(), "0-0 NoRoot ;");
    Ok(())
}

#[tactic(auto, unfolding(nx_base::specs::Tokens::AreTokensFrom))]
fn whole_text_told(alloc: Global) -> Result<String, Fail> {
    let tokens = [Token {
        kind: TokenKind::Empty,
        from: 0,
        bytes: Bytes::from_vec(Vec::from_slice(alloc, b"<a/>")?),
    }];
    let items = items_of_tokens(alloc, &tokens, 4)?.copy()?;
    let mut printer = Printer::new(alloc);
    printer.items(items.as_slice());
    printer.finish()
}

#[test]
fn whole_texts(rt: HostRuntime) -> Result<(), Fail> {
    let told = whole_text_told(rt.alloc())?;
    assert_eq!(rt; told.as_str(), "0-4 Enter {}a;0-4 TagEnd;0-4 Leave;");
    Ok(())
}
