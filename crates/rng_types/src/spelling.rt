//! Texts that are tried for members, of letters, words and spaces.

ghost use Rattle.std.specs.Prelude.{◌≡◌, ◌≤◌, ◌<◌, ◌+◌, IfOk, string_bytes};
ghost use Rattle.rng_types.specs.Giving.{word_of, pad, many, tag};

use nx_base::memory::NoMemory;
use std::alloc::Global;

/// One of the letters from U+0100 on, all of which may stand anywhere in a name.
pub(crate) fn letter_of(number: u32) -> char
    requires { number < 130 }
    ensures { result ≡ 256 + number }
{
    match char::from_u32(256 + number) {
        Some(letter) => letter,
        None => unreachable!(),
    }
}

/// So many times the letter.
pub(crate) fn word_of(alloc: Global, letter: char, count: u64) -> Result<String, NoMemory>
    ensures { IfOk result (λ text. string_bytes text ≡ word_of count letter) }
{
    let mut text = String::new(alloc);
    let mut made: u64 = 0;
    while made < count {
        text.push(letter)?;
        made += 1;
    }
    Ok(text)
}

/// A text with so many spaces before it.
pub(crate) fn padded(alloc: Global, text: &str, spaces: u32) -> Result<String, NoMemory>
    ensures { IfOk result (λ padded. string_bytes padded ≡ pad spaces text.now) }
{
    let mut padded = String::new(alloc);
    let mut made: u32 = 0;
    while made < spaces {
        padded.push(' ')?;
        made += 1;
    }
    padded.push_str(text)?;
    Ok(padded)
}

/// That many times a word, with a space between each two.
pub(crate) fn many(alloc: Global, word: &str, count: u64) -> Result<String, NoMemory>
    requires { 1 ≤ count }
    ensures { IfOk result (λ text. string_bytes text ≡ many count word.now) }
{
    let mut text = String::new(alloc);
    text.push_str(word)?;
    let mut made: u64 = 1;
    while made < count {
        text.push(' ')?;
        text.push_str(word)?;
        made += 1;
    }
    Ok(text)
}

/// A language tag of that many further subtags.
pub(crate) fn tag(alloc: Global, count: u32) -> Result<String, NoMemory>
    ensures { IfOk result (λ text. string_bytes text ≡ tag count) }
{
    let mut text = String::new(alloc);
    text.push('a')?;
    let mut made: u32 = 0;
    while made < count {
        text.push_str("-a")?;
        made += 1;
    }
    Ok(text)
}
