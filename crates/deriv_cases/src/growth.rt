//! Documents and schemas that a matcher is to follow without growing with them.

use crate::matchers::{Made, matcher_of};
use crate::reader::answers;
use deriv_plain::plain::Plain;
use deriv_pool::pool::Pool;
use nx_base::memory::NoMemory;
use std::alloc::Global;
use std::process::Abort;
use std::test::Fail;

/// These events, with others between them many times.
fn repeated(
    alloc: Global,
    first: &str,
    again: &str,
    times: usize,
    last: &str,
) -> Result<String, NoMemory> {
    let middle = again.repeat(alloc, times)?;
    Ok(format!(in alloc; "{first}{middle}{last}")?)
}

/// Whether a matcher of this schema answers this to events.
fn is_answered<M: Made>(
    alloc: Global,
    schema: &str,
    events: Result<String, NoMemory>,
    wanted: &str,
) -> bool {
    match (matcher_of::<M>(alloc, schema), events) {
        (Some(mut matcher), Ok(events)) => answers(alloc, &mut matcher, events.as_str(), wanted),
        _ => false,
    }
}

const PARAGRAPHS: &str = "element doc { element para { (text | element em { empty })* }* }";

/// Two definitions allow each element, and each repetition stands in others.
const AMBIGUOUS: &str = "start = element doc { ((para | note)*, para?)* }
para = element para { ((em*, em?)*)* }
note = element para { text | em+ }
em = element em { empty }";

const PARAGRAPH: &str = "  <para  >  <em  >  </  </";

fn follows_paragraphs<M: Made>(alloc: Global, schema: &str) -> bool {
    let events = repeated(alloc, "<doc  >", PARAGRAPH, 200, "  </");
    is_answered::<M>(alloc, schema, events, "-")
}

fn paragraphs<M: Made>(rt: &impl Abort, alloc: Global) {
    assert!(rt;
        follows_paragraphs::<M>(alloc, PARAGRAPHS) && follows_paragraphs::<M>(alloc, AMBIGUOUS)
    );
}

#[test]
fn plain_follows_paragraphs(rt: HostRuntime) {
    paragraphs::<Plain>(&rt, rt.alloc());
}

#[test]
fn pool_follows_paragraphs(rt: HostRuntime) {
    paragraphs::<Pool>(&rt, rt.alloc());
}

const REPEATED: &str =
    "start = element r { ((a*, b?)*)* } a = element a { empty } b = element b { empty }";

fn repetitions<M: Made>(rt: &impl Abort, alloc: Global) {
    let events = repeated(alloc, "<r  >", "  <a  >  </  <b  >  </", 200, "  </");
    assert!(rt; is_answered::<M>(alloc, REPEATED, events, "-"));
}

#[test]
fn plain_follows_repetitions(rt: HostRuntime) {
    repetitions::<Plain>(&rt, rt.alloc());
}

#[test]
fn pool_follows_repetitions(rt: HostRuntime) {
    repetitions::<Pool>(&rt, rt.alloc());
}

const NESTED: &str = "start = p  p = element p { p* }";

/// Two definitions allow each element, and the same may come behind either.
const NESTED_TWICE: &str =
    "start = p | q  p = element p { (p | q)* }  q = element p { text | (p | q)* }";

/// What lies outside of an element is shared by the states inside of it, so that each event takes as long at any depth.
fn nested(alloc: Global, depth: usize) -> Result<String, NoMemory> {
    let ends = "  </".repeat(alloc, depth)?;
    repeated(alloc, "copy", "  <p  >", depth, ends.as_str())
}

fn nesting<M: Made>(rt: &impl Abort, alloc: Global) {
    assert!(rt;
        is_answered::<M>(alloc, NESTED, nested(alloc, 10_000), "-")
            && is_answered::<M>(alloc, NESTED_TWICE, nested(alloc, 500), "-")
    );
}

#[test]
fn plain_follows_deep_nesting(rt: HostRuntime) {
    nesting::<Plain>(&rt, rt.alloc());
}

#[test]
fn pool_follows_deep_nesting(rt: HostRuntime) {
    nesting::<Pool>(&rt, rt.alloc());
}

/// The start of an element that holds any of 1,000 others.
fn wide_schema(alloc: Global) -> Result<String, NoMemory> {
    let mut schema = String::new(alloc);
    schema.push_str("element r { (")?;
    for i in 0..1000 {
        write!(schema, "element n{i} {{ empty }} | ")?;
    }
    schema.push_str("text)* }")?;
    Ok(schema)
}

/// Children of that element so many times, and then this.
fn children(alloc: Global, times: usize, last: &str) -> Result<String, NoMemory> {
    let again = "  <n0  >  </  <n999  >  </  \"x\"  <n500  >  </";
    repeated(alloc, "<r  >", again, times, last)
}

fn follows_width<M: Made>(alloc: Global, schema: &str) -> bool {
    is_answered::<M>(alloc, schema, children(alloc, 10, "  </"), "-")
        && is_answered::<M>(alloc, schema, children(alloc, 1, "  <n1000"), "13")
}

fn width<M: Made>(rt: &impl Abort, alloc: Global) -> Result<(), Fail> {
    let schema = wide_schema(alloc)?;
    assert!(rt; follows_width::<M>(alloc, schema.as_str()));
    Ok(())
}

#[test]
fn plain_follows_wide_choices(rt: HostRuntime) -> Result<(), Fail> {
    width::<Plain>(&rt, rt.alloc())
}

#[test]
fn pool_follows_wide_choices(rt: HostRuntime) -> Result<(), Fail> {
    width::<Pool>(&rt, rt.alloc())
}
