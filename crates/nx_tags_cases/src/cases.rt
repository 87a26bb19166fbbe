//! Cases of commands on tags, worked out by hand. All of this is for tests.

ghost use Rattle.std.specs.Prelude.{◌≡◌, ◌<◌, IfOk, IfSome, IsUtf8};
ghost use Rattle.nx_base.specs.Text.{IsPlace};
ghost use Rattle.nx_tags.specs.Answers.{IsQName, PutsInQName, place_of};
ghost use Rattle.nx_text.specs.Changing.{AreChanges};

use crate::reading::{faults_told, mark_before, reading_of, text_of};
use crate::table::{BAD_AND_NESTED, Done, IN_MARKUP, IN_TEXT, Name, OUTSIDE_AND_NAMES, Row};
use nx_base::change::Changes;
use nx_base::memory::NoMemory;
use nx_base::sequence::Bytes;
use nx_base::steps::Steps;
use nx_tags::{TagCommand, changes, changes_from};
use nx_text::text::Text;
use std::alloc::Global;
use std::marker::Brand;
use std::process::Abort;
use std::sync::ledger::{Blank, Ledger};
use std::test::Fail;

/// The bytes of a word.
fn bytes_of(alloc: Global, word: &str) -> Result<Bytes, NoMemory>
    ensures bytes { IfOk result (λ bytes. bytes ≡ word.now) }
    ensures utf8 { IfOk result IsUtf8 }
{
    Ok(Bytes::from_vec(Vec::from_slice(alloc, word.as_bytes())?))
}

/// A name that is put in.
fn name_of(alloc: Global, name: Name) -> Result<Bytes, NoMemory>
    ensures { IfOk result IsQName }
{
    match name {
        Name::Q => bytes_of(alloc, "q"),
        Name::X => bytes_of(alloc, "x"),
        Name::Long => bytes_of(alloc, "long"),
        Name::Prefixed => bytes_of(alloc, "p:q"),
    }
}

/// The command that does this at a place.
fn command_of(alloc: Global, done: Done, at: usize) -> Result<TagCommand, NoMemory>
    ensures place { IfOk result (λ command. place_of command ≡ at) }
    ensures name { IfOk result PutsInQName }
{
    match done {
        Done::Finish => Ok(TagCommand::Finish(at)),
        Done::Split => Ok(TagCommand::Split(at)),
        Done::Pair(name) => Ok(TagCommand::Pair(at, name_of(alloc, name)?)),
        Done::Rename(name) => Ok(TagCommand::Rename(at, name_of(alloc, name)?)),
    }
}

/// The answer to a command. The text is read from its start or, where `back` isn't 0, from the last border of tokens that stands so many bytes
/// in front of the place or more, with what is known there.
fn answered<L: Ledger>(
    alloc: Global,
    text: &Text,
    command: &TagCommand,
    back: usize,
    steps: &mut Steps<L>,
) -> Result<Option<Changes>, Fail>
    requires place { IsPlace text.now (place_of command.now) }
    requires name { PutsInQName command.now }
    ensures { IfOk result (λ found. IfSome found (AreChanges text.now)) }
{
    if back == 0 {
        Ok(changes(alloc, text, command, steps)?)
    } else {
        let mark = mark_before(alloc, text, command.place(), back, steps)?;
        Ok(changes_from(alloc, text, mark.place, &mark.state, command, steps)?)
    }
}

/// The words of the text behind a command, or `stay`, and `no place` where there is none.
pub(crate) fn made<L: Ledger>(
    alloc: Global,
    words: &str,
    done: Done,
    at: usize,
    back: usize,
    steps: &mut Steps<L>,
) -> Result<Bytes, Fail> {
    let mut text = text_of(alloc, words)?;
    if !text.is_place(at) {
        return Ok(bytes_of(alloc, "no place")?);
    }
    let command = command_of(alloc, done, at)?;
    match answered(alloc, &text, &command, back, steps)? {
        Some(found) => all_of(&mut text, &found),
        None => Ok(bytes_of(alloc, "stay")?),
    }
}

/// All bytes of a text, when it is changed.
fn all_of(text: &mut Text, found: &Changes) -> Result<Bytes, Fail>
    requires { AreChanges text.old found.now }
{
    text.apply(found)?;
    let len = text.len();
    if !text.is_place(0) || !text.is_place(len) {
        return Err("no text".into());
    }
    Ok(text.copy_range(0, len)?)
}

/// Whether a command makes of a text what is wanted, wherever reading begins.
fn makes<L: Ledger>(
    alloc: Global,
    words: &str,
    done: Done,
    at: usize,
    want: &str,
    steps: &mut Steps<L>,
) -> Result<bool, Fail> {
    for back in [0, 1, 5] {
        let found = made(alloc, words, done, at, back, steps)?;
        if found.as_slice() != want.as_bytes() {
            return Ok(false);
        }
    }
    Ok(true)
}

/// Whether a text has these faults.
fn has_faults<L: Ledger>(
    alloc: Global,
    words: &str,
    faults: &str,
    steps: &mut Steps<L>,
) -> Result<bool, Fail> {
    let reading = reading_of(alloc, words, steps)?;
    let told = faults_told(alloc, &reading)?;
    Ok(told.as_str() == faults)
}

/// Whether a command does what a row says.
fn row_holds<L: Ledger>(alloc: Global, row: &Row, steps: &mut Steps<L>) -> Result<bool, Fail> {
    let (words, done, at, want, faults) = *row;
    let behind = if want == "stay" { words } else { want };
    Ok(makes(alloc, words, done, at, want, steps)? && has_faults(alloc, behind, faults, steps)?)
}

/// The first row of a table that doesn't hold.
fn first_wrong<L: Ledger>(
    alloc: Global,
    rows: &[Row],
    steps: &mut Steps<L>,
) -> Result<Option<usize>, Fail> {
    for (number, row) in rows.iter().enumerate() {
        if !row_holds(alloc, row, steps)? {
            return Ok(Some(number));
        }
    }
    Ok(None)
}

fn in_text<L: Ledger>(alloc: Global, steps: &mut Steps<L>) -> Result<Option<usize>, Fail> {
    first_wrong(alloc, &IN_TEXT, steps)
}

fn in_markup<L: Ledger>(alloc: Global, steps: &mut Steps<L>) -> Result<Option<usize>, Fail> {
    first_wrong(alloc, &IN_MARKUP, steps)
}

fn bad_and_nested<L: Ledger>(alloc: Global, steps: &mut Steps<L>) -> Result<Option<usize>, Fail> {
    first_wrong(alloc, &BAD_AND_NESTED, steps)
}

fn outside_and_names<L: Ledger>(
    alloc: Global,
    steps: &mut Steps<L>,
) -> Result<Option<usize>, Fail> {
    first_wrong(alloc, &OUTSIDE_AND_NAMES, steps)
}

fn all_made<R: Abort, L: Ledger>(rt: &R, alloc: Global, blank: Blank) -> Result<(), Fail>
    requires name { blank.name ≡ L.name }
    requires parts { blank.parts ≡ L.parts }
    requires some { 0 < L.parts }
{
    let mut steps = Steps::<L>::new(blank);
    assert!(rt; in_text(alloc, &mut steps)?.is_none());
    assert!(rt; in_markup(alloc, &mut steps)?.is_none());
    assert!(rt; bad_and_nested(alloc, &mut steps)?.is_none());
    assert!(rt; outside_and_names(alloc, &mut steps)?.is_none());
    Ok(())
}

#[test]
fn commands_make_what_the_table_says(rt: HostRuntime) -> Result<(), Fail> {
    all_made::<_, Brand>(&rt, rt.alloc(), Blank::new(1))
}
