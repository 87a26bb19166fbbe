//! Patterns of URIs, held against a text.

ghost use Rattle.std.specs.Prelude.{◌≡◌, ◌+◌, ◌≤◌, length, IfOk, IfSome};
ghost use Rattle.nx_locate.specs.Patterns.{folder_len, has_slash, has_scheme};
ghost use Rattle.nx_locate.specs.Running.{front_len, next_stretch, HasRuns};

use nx_base::memory::NoMemory;
use nx_base::sequence::{Bytes, Sequence};
use std::alloc::Global;

/// The parts of a text that the stars of a pattern stand for, in order.
pub(crate) type Runs = Sequence<Bytes>;

/// What one star stands for, and what follows up to the next one, as numbers of bytes.
#[derive(Clone, Copy)]
struct Stretch {
    /// Those that the star stands for.
    run: usize,
    /// Those that the pattern itself has behind the star.
    front: usize,
}

/// How many bytes the pattern has before its first star, where the text begins with them. Where no star is left, they must be
/// all of the text.
fn front_len(pattern: &[u8], text: &[u8]) -> Option<usize>
    ensures value { result ≡ front_len pattern.now text.now }
    ensures within_pattern { IfSome result (λ len. len ≤ length pattern.now) }
    ensures within_text { IfSome result (λ len. len ≤ length text.now) }
{
    let mut len = 0;
    let mut rest = pattern;
    let mut left = text;
    while let Some((byte, more)) = rest.split_first() {
        if *byte == b'*' {
            return Some(len);
        }
        let Some((other, behind)) = left.split_first() else {
            return None;
        };
        if *byte != *other {
            return None;
        }
        len += 1;
        rest = more;
        left = behind;
    }
    if left.is_empty() { Some(len) } else { None }
}

/// The shortest run of a star behind which the rest of the pattern, up to its next star, stands in the text. As a star passes no
/// slash, a later place than the first one never serves where that doesn't: the next star can go on from there as well.
fn next_stretch(pattern: &[u8], text: &[u8]) -> Option<Stretch>
    ensures value { result ≡ next_stretch pattern.now text.now }
    ensures run { IfSome result (λ stretch. stretch.run + stretch.front ≤ length text.now) }
    ensures front { IfSome result (λ stretch. stretch.front ≤ length pattern.now) }
{
    let mut run = 0;
    let mut left = text;
    while let Some((byte, behind)) = left.split_first() {
        if let Some(front) = front_len(pattern, left) {
            return Some(Stretch { run, front });
        }
        if *byte == b'/' {
            return None;
        }
        run += 1;
        left = behind;
    }
    match front_len(pattern, left) {
        Some(front) => Some(Stretch { run, front }),
        None => None,
    }
}

/// A copy of the bytes.
pub(crate) fn bytes_of(alloc: Global, bytes: &[u8]) -> Result<Bytes, NoMemory>
    ensures { IfOk result (λ copied. copied ≡ bytes.now) }
{
    Ok(Bytes::from_vec(Vec::from_slice(alloc, bytes)?))
}

/// What the stars of the pattern stand for in the text; none where it doesn't fit.
pub(crate) fn runs_of(alloc: Global, pattern: &[u8], text: &[u8]) -> Result<Option<Runs>, NoMemory>
    ensures { IfOk result (HasRuns pattern.now text.now) }
{
    let mut runs = Runs::new(alloc);
    let Some(front) = front_len(pattern, text) else {
        return Ok(None);
    };
    let mut rest = &pattern[front..];
    let mut left = &text[front..];
    while let Some((_star, more)) = rest.split_first() {
        let Some(stretch) = next_stretch(more, left) else {
            return Ok(None);
        };
        runs.push(bytes_of(alloc, &left[..stretch.run])?)?;
        rest = &more[stretch.front..];
        left = &left[stretch.run + stretch.front..];
    }
    Ok(Some(runs))
}
