//! Commands on many small texts, held against a direct reading of what they promise. All of this is for tests.

ghost use Rattle.std.specs.Prelude.{◌≡◌, ◌<◌};

use crate::cases::made;
use crate::reading::{
    Passed, Reading, breaks_nesting, has_fault, read_to, reading_of, tell, tell_chars, tell_token,
    text_of, told_renamed, words_in,
};
use crate::table::{Done, Name};
use nx_base::sequence::Bytes;
use nx_base::steps::Steps;
use nx_base::token::TokenKind;
use nx_events::run_of;
use std::alloc::Global;
use std::marker::Brand;
use std::process::Abort;
use std::sync::ledger::{Blank, Ledger};
use std::test::Fail;

/// How many texts are drawn, and how far apart their numbers stand, of 10,000. `bench/tags` draws more of them.
const TEXTS: usize = 164;

const STRIDE: usize = 61;

/// What texts are made of.
const PIECES: [&str; 10] = [
    "<a>",
    "</a>",
    "<b x='1'>",
    "</b>",
    "<c/>",
    "t",
    "&lt;",
    "\r\n",
    "<!",
    "]]>",
];

/// What is done at each place.
const ALL: [Done; 4] = [
    Done::Finish,
    Done::Pair(Name::Q),
    Done::Split,
    Done::Rename(Name::Q),
];

/// A text with this number: its digits to the base of ten are pieces.
fn words_of(alloc: Global, number: usize) -> Result<String, Fail> {
    let mut words = String::new(alloc);
    let mut left = number;
    for _ in 0..4 {
        words.push_str(PIECES[left % 10])?;
        left /= 10;
    }
    Ok(words)
}

/// A text, and what stands in it.
#[derive(Drop)]
struct Case {
    words: String,
    reading: Reading,
}

fn case_of<L: Ledger>(alloc: Global, words: String, steps: &mut Steps<L>) -> Result<Case, Fail> {
    let reading = reading_of(alloc, words.as_str(), steps)?;
    Ok(Case { words, reading })
}

/// A tag that is put in: its kind and length.
#[derive(Clone, Copy)]
struct PutIn {
    kind: TokenKind,
    len: usize,
}

const END: PutIn = PutIn {
    kind: TokenKind::End,
    len: 4,
};

const START: PutIn = PutIn {
    kind: TokenKind::Start,
    len: 3,
};

/// The tokens of a text, each with its kind and its places.
fn told_of(alloc: Global, tokens: &[Passed]) -> Result<String, Fail> {
    let mut told = String::new(alloc);
    for token in tokens {
        tell_token(&mut told, token.kind, token.from, token.to)?;
    }
    Ok(told)
}

/// The tokens that are to be there where tags are put in at a place: a token that lies around it is cut in two.
fn promised(alloc: Global, tokens: &[Passed], at: usize, tags: &[PutIn]) -> Result<String, Fail> {
    let mut told = String::new(alloc);
    for token in tokens {
        if token.from < at {
            tell_token(&mut told, token.kind, token.from, token.to.min(at))?;
        }
    }
    let mut place = at;
    for tag in tags {
        let end = place.saturating_add(tag.len);
        tell_token(&mut told, tag.kind, place, end)?;
        place = end;
    }
    tell_behind(&mut told, tokens, at, place.saturating_sub(at))?;
    Ok(told)
}

/// Writes the tokens behind a place, moved on.
fn tell_behind(told: &mut String, tokens: &[Passed], at: usize, on: usize) -> Result<(), Fail> {
    for token in tokens {
        if token.to > at {
            let from = token.from.max(at).saturating_add(on);
            tell_token(told, token.kind, from, token.to.saturating_add(on))?;
        }
    }
    Ok(())
}

/// What the tokens between two places give.
fn given_between(alloc: Global, tokens: &[Passed], from: usize, to: usize) -> Result<String, Fail> {
    let mut told = String::new(alloc);
    for token in tokens {
        if from <= token.from && token.to <= to {
            tell(&mut told, &token.items, false)?;
        }
    }
    Ok(told)
}

/// The first letter of the name of the innermost element that is open at a place: of the last start tag in front of it behind which as many are
/// open as there.
fn innermost(tokens: &[Passed], at: usize) -> Option<char> {
    let open = open_at(tokens, at);
    let mut found = None;
    for token in tokens {
        if token.to <= at && token.kind == TokenKind::Start && token.depth == open {
            found = token.bytes.as_slice().get(1);
        }
    }
    Some(char::from(*found?))
}

/// How many elements are open at a place.
fn open_at(tokens: &[Passed], at: usize) -> usize {
    let mut open = 0;
    for token in tokens {
        if token.to <= at {
            open = token.depth;
        }
    }
    open
}

/// Writes the string in front of a place that no tag has given yet.
fn tell_run<L: Ledger>(
    alloc: Global,
    told: &mut String,
    words: &str,
    at: usize,
    steps: &mut Steps<L>,
) -> Result<(), Fail> {
    let Some((front, _)) = words.split_at_checked(at) else {
        return Err("no place".into());
    };
    let text = text_of(alloc, front)?;
    let mut tokens = Vec::new(alloc);
    let border = read_to(alloc, &text, front.len(), &mut tokens, steps)?;
    if let Some(run) = run_of(&border.state)? {
        tell_chars(told, run.as_slice())?;
    }
    Ok(())
}

/// What the tags that are put in are to give: the string in front of them, and their own events. Names are in no namespace.
fn to_be_given<L: Ledger>(
    alloc: Global,
    case: &Case,
    done: Done,
    at: usize,
    steps: &mut Steps<L>,
) -> Result<String, Fail> {
    let mut told = String::new(alloc);
    tell_run(alloc, &mut told, case.words.as_str(), at, steps)?;
    match done {
        Done::Finish => told.push_str("leave; ")?,
        Done::Pair(_) => told.push_str("enter  q; end; leave; ")?,
        Done::Split => {
            let name = innermost(case.reading.tokens.as_slice(), at).unwrap_or('?');
            write!(told, "leave; enter  {name}; end; ")?;
        }
        Done::Rename(_) => {}
    }
    Ok(told)
}

/// The string of character data inside of an element, and none where it has a fault or is empty.
fn string_of<L: Ledger>(
    alloc: Global,
    bytes: &[u8],
    steps: &mut Steps<L>,
) -> Result<Option<Bytes>, Fail> {
    let Ok(words) = str::from_utf8(bytes) else {
        return Err("no text".into());
    };
    let mut text = text_of(alloc, "<a>")?;
    text.insert(3, words)?;
    let mut tokens = Vec::new(alloc);
    let border = read_to(alloc, &text, text.len(), &mut tokens, steps)?;
    if tokens
        .as_slice()
        .iter()
        .any(|token| has_fault(&token.items))
    {
        return Ok(None);
    }
    Ok(run_of(&border.state)?)
}

/// Whether a place that cuts a token cuts it into two that say the same.
fn cuts_well<L: Ledger>(
    alloc: Global,
    token: &Passed,
    at: usize,
    steps: &mut Steps<L>,
) -> Result<bool, Fail> {
    let bytes = token.bytes.as_slice();
    let Some((front, back)) = bytes.split_at_checked(at.saturating_sub(token.from)) else {
        return Ok(false);
    };
    let (Some(whole), Some(mut both), Some(back)) = (
        string_of(alloc, bytes, steps)?,
        string_of(alloc, front, steps)?,
        string_of(alloc, back, steps)?,
    ) else {
        return Ok(false);
    };
    both.append(back)?;
    Ok(token.kind == TokenKind::Text && both.as_slice() == whole.as_slice())
}

/// Whether tags may be put in at a place, read off what is asked of it.
fn is_free<L: Ledger>(
    alloc: Global,
    tokens: &[Passed],
    at: usize,
    steps: &mut Steps<L>,
) -> Result<bool, Fail> {
    for token in tokens {
        if token.to == at && matches!(token.kind, TokenKind::Bad | TokenKind::Unclosed) {
            return Ok(false);
        }
        if token.from < at && at < token.to && !cuts_well(alloc, token, at, steps)? {
            return Ok(false);
        }
    }
    Ok(open_at(tokens, at) > 0)
}

/// Whether a tag at a place may get another name, read off what is asked of it: an empty-element tag begins there, or a start tag that an end tag
/// closes, and no token up to that one gives a MissingEnd or an ExtraEnd.
fn is_renamed(tokens: &[Passed], at: usize) -> bool {
    let mut outer = None;
    let mut depth = 0;
    for token in tokens {
        match outer {
            None => {
                if token.from == at && token.kind == TokenKind::Empty {
                    return true;
                }
                if token.from == at && token.kind == TokenKind::Start {
                    outer = Some(depth);
                }
            }
            Some(outer) => {
                if breaks_nesting(&token.items) {
                    return false;
                }
                if token.depth <= outer {
                    return true;
                }
            }
        }
        depth = token.depth;
    }
    false
}

/// Whether a command has to be carried out at a place. Nothing declares in these texts.
fn is_asked(case: &Case, done: Done, at: usize, free: bool) -> bool {
    let tokens = case.reading.tokens.as_slice();
    match done {
        Done::Finish | Done::Pair(_) => free,
        Done::Split => free && open_at(tokens, at) > 1,
        Done::Rename(_) => is_renamed(tokens, at),
    }
}

/// The tags that a command puts in. Names are of one letter.
fn tags_of(done: Done) -> &'static [PutIn] {
    match done {
        Done::Finish => &[END],
        Done::Pair(_) => &[START, END],
        Done::Split => &[END, START],
        Done::Rename(_) => &[],
    }
}

/// Whether a text is the one of a case with tags put in at a place: the old tokens stay, but that one is cut where the place cuts it, and the
/// tags give what they are to give.
fn has_put_in<L: Ledger>(
    alloc: Global,
    case: &Case,
    done: Done,
    at: usize,
    behind: &Reading,
    steps: &mut Steps<L>,
) -> Result<bool, Fail> {
    let tags = tags_of(done);
    let len: usize = if tags.len() > 1 { 7 } else { 4 };
    let want = promised(alloc, case.reading.tokens.as_slice(), at, tags)?;
    let made = told_of(alloc, behind.tokens.as_slice())?;
    let gives = to_be_given(alloc, case, done, at, steps)?;
    let given = given_between(alloc, behind.tokens.as_slice(), at, at.saturating_add(len))?;
    Ok(want.as_str() == made.as_str() && gives.as_str() == given.as_str())
}

/// Whether a text is the one of a case with another name of the element at a place: all tokens give what they gave, but for the name.
fn has_renamed(alloc: Global, case: &Case, at: usize, behind: &Reading) -> Result<bool, Fail> {
    let want = told_renamed(alloc, &case.reading, at)?;
    let made = told_renamed(alloc, behind, usize::MAX)?;
    Ok(want.as_str() == made.as_str())
}

/// Whether a command does at a place what it promises, and the same wherever reading begins.
fn holds<L: Ledger>(
    alloc: Global,
    case: &Case,
    done: Done,
    at: usize,
    free: bool,
    steps: &mut Steps<L>,
) -> Result<bool, Fail> {
    let behind = made(alloc, case.words.as_str(), done, at, 0, steps)?;
    let marked = made(alloc, case.words.as_str(), done, at, 1, steps)?;
    if behind.as_slice() != marked.as_slice() {
        return Ok(false);
    }
    if !is_asked(case, done, at, free) {
        return Ok(behind.as_slice() == b"stay".as_slice());
    }
    let reading = reading_of(alloc, words_in(behind.as_slice()), steps)?;
    match done {
        Done::Rename(_) => has_renamed(alloc, case, at, &reading),
        _ => has_put_in(alloc, case, done, at, &reading, steps),
    }
}

/// Adds what is wrong at the places of a text.
fn hold<L: Ledger>(
    alloc: Global,
    case: &Case,
    wrong: &mut String,
    steps: &mut Steps<L>,
) -> Result<(), Fail> {
    for at in 0..case.words.as_str().len() {
        let free = is_free(alloc, case.reading.tokens.as_slice(), at, steps)?;
        for done in &ALL {
            if !holds(alloc, case, *done, at, free, steps)? {
                write!(wrong, "{:?} {at}\n", case.words.as_str())?;
            }
        }
    }
    Ok(())
}

fn all_hold<R: Abort, L: Ledger>(rt: &R, alloc: Global, blank: Blank) -> Result<(), Fail>
    requires name { blank.name ≡ L.name }
    requires parts { blank.parts ≡ L.parts }
    requires some { 0 < L.parts }
{
    let mut steps = Steps::<L>::new(blank);
    let mut wrong = String::new(alloc);
    for number in 0..TEXTS {
        let case = case_of(alloc, words_of(alloc, number * STRIDE)?, &mut steps)?;
        hold(alloc, &case, &mut wrong, &mut steps)?;
    }
    assert_eq!(rt; wrong.as_str(), "");
    Ok(())
}

#[test]
fn commands_keep_what_they_promise(rt: HostRuntime) -> Result<(), Fail> {
    all_hold::<_, Brand>(&rt, rt.alloc(), Blank::new(1))
}
