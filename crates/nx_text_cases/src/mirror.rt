//! Edits by a rule, of a text and of a plain string beside it.

use nx_text::Text;
use std::alloc::Global;
use std::test::Fail;

/// How many numbers the sequence of edits may take.
const RANGE: usize = 2147483648;

/// The same edit of a text and of a plain string: a line is put in or a byte is taken out, where and whether by a
/// number.
fn edit_both(number: usize, text: &mut Text, plain: &mut String) -> Result<(), Fail> {
    let len = plain.as_str().len();
    if number / 65536 % 2 == 0 {
        let at = number % len.saturating_add(1);
        if plain.as_str().is_char_boundary(at) {
            plain.insert_str(at, "a\n")?;
        }
        text.insert(at, "a\n")?;
    } else if len != 0 {
        let at = number % len;
        if plain.as_str().is_char_boundary(at) {
            let _taken = plain.remove(at);
        }
        text.delete(at, at + 1)?;
    }
    Ok(())
}

/// The first offset at which a text isn't the plain string, or a place has another line in it.
fn difference(text: &Text, plain: &str) -> Option<usize> {
    let mut line: usize = 1;
    for (at, byte) in plain.bytes().enumerate() {
        if text.byte_at(at) != Some(byte) || !text.is_place(at) || text.line_of(at) != line {
            return Some(at);
        }
        if byte == b'\n' {
            line = line.saturating_add(1);
        }
    }
    let end = plain.len();
    if text.len() == end && text.is_place(end) && text.line_of(end) == line {
        None
    } else {
        Some(end)
    }
}

/// The number of the first edit of a sequence behind which a text differs from a plain string.
fn first_difference(alloc: Global, first: usize) -> Result<Option<usize>, Fail> {
    let mut text = Text::new(alloc);
    let mut plain = String::new(alloc);
    let mut number = first % RANGE;
    for edit in 0..500 {
        edit_both(number, &mut text, &mut plain)?;
        if difference(&text, plain.as_str()).is_some() {
            return Ok(Some(edit));
        }
        number = (number % RANGE * 1103515245 + 12345) % RANGE;
    }
    Ok(None)
}

#[test]
fn edits_are_those_of_a_string(rt: HostRuntime) -> Result<(), Fail> {
    assert_eq!(rt; first_difference(rt.alloc(), 7)?, None);
    assert_eq!(rt; first_difference(rt.alloc(), 20261127)?, None);
    Ok(())
}

const PAIRS: usize = 4_000_000;

/// A text of so many lines of one letter, put in at once.
fn lines(alloc: Global) -> Result<Text, Fail> {
    let mut plain = String::new(alloc);
    for _ in 0..PAIRS {
        plain.push_str("a\n")?;
    }
    let mut text = Text::new(alloc);
    text.insert(0, plain.as_str())?;
    Ok(text)
}

/// Puts letters in one behind the other in the middle; the first that doesn't go in, or whose place has another line.
fn first_misplaced(text: &mut Text) -> Result<Option<usize>, Fail> {
    for i in 0..1_000_000 {
        let at = PAIRS + i;
        text.insert(at, "b")?;
        if !text.is_place(at + 1) || text.line_of(at + 1) != 2_000_001 {
            return Ok(Some(at));
        }
    }
    Ok(None)
}

#[test]
fn typing_in_a_large_text_moves_nothing(rt: HostRuntime) -> Result<(), Fail> {
    let mut text = lines(rt.alloc())?;
    assert_eq!(rt; first_misplaced(&mut text)?, None);
    assert_eq!(rt; text.len(), 9_000_000);
    Ok(())
}
