//! That a state is the same however much its matcher was asked before.

use crate::matchers::matcher_of;
use crate::reader::{answers, state_behind};
use deriv_pool::pool::Pool;
use nx_base::memory::NoMemory;
use std::alloc::Global;
use std::process::Abort;

const SCHEMA: &str = "start = element doc { attribute id { xsd:NCName }, element title { text },
  element para { (text | element em { text })* }* }";

/// A document with two paragraphs, up to the end of the second.
const TWO_PARAGRAPHS: &str =
    r##"<doc  @id="a"  >  <title  >  "T"  </  <para  >  "x"  </  <para  >  <em  >  "y"  </  "z"  </"##;

/// Another document up to a paragraph, and what comes in that one many times.
const ANOTHER: &str = r##"<doc  @id="b"  >  <title  >  </  <para  >"##;

const MORE: &str = r##"  "x"  <em  >  </  <?em  >?  </?"##;

/// Calls on other states, so many times seven.
fn others(alloc: Global, times: usize) -> Result<String, NoMemory> {
    let more = MORE.repeat(alloc, times)?;
    Ok(format!(in alloc; "{ANOTHER}{more}")?)
}

/// Whether a pool follows other events, a thousand in one document and two hundred of unknown names.
fn follows_others(alloc: Global, pool: &mut Pool) -> bool {
    match others(alloc, 150) {
        Ok(events) => answers(alloc, pool, events.as_str(), "-") && follows_no_unknown(alloc, pool),
        Err(NoMemory) => false,
    }
}

/// Whether it doesn't follow a hundred names that the schema doesn't have.
fn follows_no_unknown(alloc: Global, pool: &mut Pool) -> bool {
    for number in 0..100usize {
        if !is_unknown(alloc, pool, number) {
            return false;
        }
    }
    true
}

/// Whether it doesn't follow an element of this number, neither in its place nor behind children that are left out.
fn is_unknown(alloc: Global, pool: &mut Pool, number: usize) -> bool {
    match (
        format!(in alloc; "{ANOTHER}  <n{number}"),
        format!(in alloc; "{ANOTHER}  <?n{number}"),
    ) {
        (Ok(next), Ok(later)) => {
            answers(alloc, pool, next.as_str(), "9") && answers(alloc, pool, later.as_str(), "9")
        }
        _ => false,
    }
}

/// Whether the state behind two paragraphs is the same before other calls and behind them.
fn comes_again(alloc: Global, pool: &mut Pool) -> bool {
    let first = state_behind(alloc, pool, TWO_PARAGRAPHS);
    let is_followed = follows_others(alloc, pool);
    let second = state_behind(alloc, pool, TWO_PARAGRAPHS);
    match (first, second) {
        (Some(first), Some(second)) => is_followed && first == second,
        _ => false,
    }
}

fn gives_the_same_again(alloc: Global) -> bool {
    match matcher_of::<Pool>(alloc, SCHEMA) {
        Some(mut pool) => {
            let same = comes_again(alloc, &mut pool);
            drop(pool);
            same
        }
        None => false,
    }
}

#[test]
fn pool_gives_the_same_state_again(rt: HostRuntime) {
    assert!(rt; gives_the_same_again(rt.alloc()));
}
