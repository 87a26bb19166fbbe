use crate::costs::COSTS;
use crate::doubling::{is_just_large, is_just_small};
use crate::fillings::FILLINGS;
use crate::telling::{Asked, answer};
use std::alloc::Global;
use std::process::Abort;
use std::test::Fail;

/// Adds a case that is answered otherwise, with its answer.
fn compare_case(alloc: Global, asked: Asked, case: &str, wrong: &mut String) -> Result<(), Fail> {
    let (schema, want) = case.split_once(" => ").ok_or("no answer")?;
    match answer(alloc, asked, schema) {
        Some(got) if got.as_slice() == want.as_bytes() => Ok(()),
        Some(got) => {
            let got = str::from_utf8(got.as_slice()).unwrap_or("no text");
            Ok(write!(wrong, "{case}, but: {got}\n")?)
        }
        None => Ok(write!(wrong, "refused: {schema}\n")?),
    }
}

/// Those cases of a table that are answered otherwise are none.
fn compare(rt: &impl Abort, alloc: Global, asked: Asked, table: &str) -> Result<(), Fail> {
    let mut wrong = String::new(alloc);
    for case in table.lines() {
        compare_case(alloc, asked, case, &mut wrong)?;
    }
    assert_eq!(rt; wrong.as_str(), "");
    Ok(())
}

#[test]
fn contents_cost_what_is_counted(rt: HostRuntime) -> Result<(), Fail> {
    compare(&rt, rt.alloc(), Asked::Cost, COSTS)
}

#[test]
fn roots_are_filled(rt: HostRuntime) -> Result<(), Fail> {
    compare(&rt, rt.alloc(), Asked::Filling, FILLINGS)
}

#[test]
fn doubling_elements_are_large_from_the_eleventh_on(rt: HostRuntime) {
    assert!(&rt; is_just_small(rt.alloc()));
    assert!(&rt; is_just_large(rt.alloc()));
}
