//! Each matcher against each case, and the two against one another on all lists of a few events.

use crate::lists::{FIVE_EVENTS, FOUR_EVENTS, wrong_lists};
use crate::matchers::{Made, matcher_of};
use crate::needed::NEEDED;
use crate::reader::answers;
use crate::tables::CASES;
use deriv_plain::plain::Plain;
use deriv_pool::pool::Pool;
use std::alloc::Global;
use std::process::Abort;
use std::test::Fail;

/// Adds a case that a matcher answers otherwise.
fn compare_case<M: Made>(
    alloc: Global,
    matcher: &mut M,
    case: &str,
    wrong: &mut String,
) -> Result<(), Fail> {
    let (events, want) = case.split_once(" => ").ok_or("no answer")?;
    if !answers(alloc, matcher, events, want) {
        write!(wrong, "{case}\n")?;
    }
    Ok(())
}

/// Adds those cases of a schema that a matcher answers otherwise.
fn compare_cases<M: Made>(
    alloc: Global,
    matcher: &mut M,
    cases: &str,
    wrong: &mut String,
) -> Result<(), Fail> {
    for case in cases.lines() {
        compare_case(alloc, matcher, case.trim(), wrong)?;
    }
    Ok(())
}

/// Adds those of a schema and the cases behind it, or that it can't be used.
fn compare_group<M: Made>(alloc: Global, group: &str, wrong: &mut String) -> Result<(), Fail> {
    let (schema, cases) = group.split_once("\n  ").ok_or("no case")?;
    match matcher_of::<M>(alloc, schema) {
        Some(mut matcher) => compare_cases(alloc, &mut matcher, cases, wrong),
        None => Ok(write!(wrong, "refused: {schema}\n")?),
    }
}

/// Those cases of a table that a matcher answers otherwise. Between schemas is a blank line.
fn wrong_cases<M: Made>(alloc: Global, table: &str) -> Result<String, Fail> {
    let mut wrong = String::new(alloc);
    for group in table.trim().split("\n\n") {
        compare_group::<M>(alloc, group, &mut wrong)?;
    }
    Ok(wrong)
}

/// What is told of wrong answers is nothing.
fn none_is_wrong(rt: &impl Abort, wrong: Result<String, Fail>) -> Result<(), Fail> {
    let wrong = wrong?;
    assert_eq!(rt; wrong.as_str(), "");
    Ok(())
}

fn compare<M: Made>(rt: &impl Abort, alloc: Global, table: &str) -> Result<(), Fail> {
    none_is_wrong(rt, wrong_cases::<M>(alloc, table))
}

#[test]
fn plain_answers_cases(rt: HostRuntime) -> Result<(), Fail> {
    compare::<Plain>(&rt, rt.alloc(), CASES)
}

#[test]
fn pool_answers_cases(rt: HostRuntime) -> Result<(), Fail> {
    compare::<Pool>(&rt, rt.alloc(), CASES)
}

#[test]
fn plain_names_what_is_needed(rt: HostRuntime) -> Result<(), Fail> {
    compare::<Plain>(&rt, rt.alloc(), NEEDED)
}

#[test]
fn pool_names_what_is_needed(rt: HostRuntime) -> Result<(), Fail> {
    compare::<Pool>(&rt, rt.alloc(), NEEDED)
}

#[test]
fn plain_and_pool_answer_all_lists_alike(rt: HostRuntime) -> Result<(), Fail> {
    none_is_wrong(&rt, wrong_lists::<Plain, Pool>(rt.alloc(), FIVE_EVENTS, 5))
}

#[test]
fn plain_and_pool_answer_lists_of_mentioned_names_alike(rt: HostRuntime) -> Result<(), Fail> {
    none_is_wrong(&rt, wrong_lists::<Plain, Pool>(rt.alloc(), FOUR_EVENTS, 4))
}
