//! Lists in a sentence.

ghost use Rattle.std.specs.Prelude.{◌≡◌, ◌++◌, [], IfOk, OnOk, cond, nat_lt, map, codes, string_bytes};
ghost use Rattle.std.specs.Fmt.{decimal};
ghost use Rattle.nx_report.specs.Lists.{more_text, introduced};
ghost use Rattle.nx_report.specs.Names.{quoted_name};
ghost use Rattle.nx_report.specs.Words.{words, words_behind};

use crate::name::push_quoted_name;
use crate::printed::push_words;
use crate::word::split_word;
use nx_base::memory::NoMemory;
use std::alloc::{AllocError, Global};

/// How many items of a list are told behind the first.
pub(crate) const OTHERS_TOLD: usize = 7;

/// How many items there are besides those that are told.
fn more(alloc: Global, count: usize) -> Result<String, AllocError>
    ensures { IfOk result (λ text. string_bytes text ≡ codes " and " ++ decimal count ++ codes " more") }
{
    format!(in alloc; " and {count} more")
}

/// Adds how many items there are besides, if there are any.
pub(crate) fn push_more(alloc: Global, out: &mut Vec<u8>, count: usize) -> Result<(), NoMemory>
    ensures { OnOk result (out.new.items ≡ out.old.items ++ more_text count) }
{
    if count == 0 {
        return Ok(());
    }
    out.extend_from_slice(more(alloc, count)?.as_bytes())?;
    Ok(())
}

/// Adds a name behind the first of a list, where so many others stand between, if it is still told.
fn push_other_name(
    alloc: Global,
    out: &mut Vec<u8>,
    own: &[u8],
    between: usize,
    name: &[u8],
) -> Result<(), NoMemory>
    ensures { OnOk result (out.new.items ≡ out.old.items ++ cond (nat_lt between 7) (codes ", " ++ quoted_name own.now name.now) []) }
{
    if between >= OTHERS_TOLD {
        return Ok(());
    }
    push_words(out, ", ")?;
    push_quoted_name(alloc, out, own, name)
}

/// Adds the names that a text has as its words, behind words that introduce them. A namespace goes without saying.
#[tactic(auto, using(crate::proofs::Listing::begun))]
pub(crate) fn push_names(
    alloc: Global,
    out: &mut Vec<u8>,
    introduction: &str,
    own: &[u8],
    text: &[u8],
) -> Result<(), NoMemory>
    ensures { OnOk result (out.new.items ≡ out.old.items ++ introduced introduction.now (map (quoted_name own.now) (words text.now))) }
{
    let (first, mut left) = split_word(text);
    push_words(out, introduction)?;
    push_quoted_name(alloc, out, own, first)?;
    let mut others: usize = 0;
    while let Some((_space, names)) = left.split_first() {
        let (name, behind) = split_word(names);
        push_other_name(alloc, out, own, others, name)?;
        others += 1;
        left = behind;
    }
    push_more(alloc, out, others.saturating_sub(OTHERS_TOLD))?;
    Ok(())
}

/// Adds the names behind a word, if there are any.
pub(crate) fn push_names_behind(
    alloc: Global,
    out: &mut Vec<u8>,
    introduction: &str,
    own: &[u8],
    rest: &[u8],
) -> Result<(), NoMemory>
    ensures { OnOk result (out.new.items ≡ out.old.items ++ introduced introduction.now (map (quoted_name own.now) (words_behind rest.now))) }
{
    match rest.split_first() {
        None => Ok(()),
        Some((_space, names)) => push_names(alloc, out, introduction, own, names),
    }
}
