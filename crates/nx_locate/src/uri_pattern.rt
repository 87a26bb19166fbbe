//! Patterns of a rules file, held against the URI of a document, and URIs that are made of it.

ghost use Rattle.std.specs.Prelude.{◌≡◌, ◌++◌, ◌≤◌, List, length, reverse, IfOk, OnOk, IsUtf8};
ghost use Rattle.std.specs.Char.{is_ascii_alphabetic};
ghost use Rattle.std.specs.List.{prefix_len};
ghost use Rattle.std.specs.Str.{IsAscii};
ghost use Rattle.nx_locate.specs.Patterns.{has_slash, is_colon_at, has_scheme, folder_len, folder_of, file_name_of, stars, filled, made_in};
ghost use Rattle.nx_locate.specs.Patterns.{made_text, PatternFits};
ghost use Rattle.nx_locate.specs.Making.{HasPatternRuns, filled_by, runs_behind};

use crate::pattern::{Runs, runs_of};
use nx_base::memory::NoMemory;
use nx_base::sequence::Bytes;
use std::alloc::Global;

/// Whether a slash stands in it.
fn has_slash(bytes: &[u8]) -> bool
    ensures { result ≡ has_slash bytes.now }
{
    bytes.iter().any(|byte| *byte == b'/')
}

/// How many ASCII letters stand at the front.
fn letters_len(pattern: &[u8]) -> usize
    ensures { result ≡ prefix_len is_ascii_alphabetic pattern.now }
{
    pattern
        .iter()
        .take_while(|byte| byte.is_ascii_alphabetic())
        .count()
}

/// Whether a colon stands at that place.
fn has_colon_at(pattern: &[u8], at: usize) -> bool
    ensures { result ≡ is_colon_at pattern.now at }
{
    match pattern.get(at) {
        Some(byte) => *byte == b':',
        None => false,
    }
}

/// Whether ASCII letters and a colon stand at the front.
#[tactic(auto, unfolding(crate::specs::Patterns::has_scheme))]
fn has_scheme(pattern: &[u8]) -> bool
    ensures { result ≡ has_scheme pattern.now }
{
    let letters = letters_len(pattern);
    letters > 0 && has_colon_at(pattern, letters)
}

/// How many bytes of a URI there are up to its last slash, with it.
fn folder_len(uri: &[u8]) -> usize
    ensures len { result ≡ folder_len uri.now }
    ensures within { result ≤ length uri.now }
{
    let mut len = uri.len();
    while len > 0 {
        if uri[len - 1] == b'/' {
            return len;
        }
        len -= 1;
    }
    len
}

/// The URI up to its last slash, with it.
fn folder_of(uri: &[u8]) -> &[u8]
    ensures { result.now ≡ folder_of uri.now }
{
    &uri[..folder_len(uri)]
}

/// What follows the last slash of a URI.
fn file_name_of(uri: &[u8]) -> &[u8]
    ensures { result.now ≡ file_name_of uri.now }
{
    &uri[folder_len(uri)..]
}

/// What the stars of a pattern stand for in the document's URI; none where it doesn't fit. `base` is the URI of the rules file.
pub(crate) fn pattern_runs(
    alloc: Global,
    base: &[u8],
    document: &[u8],
    pattern: &[u8],
) -> Result<Option<Runs>, NoMemory>
    ensures { IfOk result (HasPatternRuns base.now document.now pattern.now) }
{
    if !has_slash(pattern) {
        return runs_of(alloc, pattern, file_name_of(document));
    }
    if has_scheme(pattern) {
        return runs_of(alloc, pattern, document);
    }
    match document.strip_prefix(folder_of(base)) {
        Some(rest) => runs_of(alloc, pattern, rest),
        None => Ok(None),
    }
}

/// How many stars there are.
pub(crate) fn stars(pattern: &[u8]) -> usize
    ensures { result ≡ stars pattern.now }
{
    pattern.iter().filter(|byte| **byte == b'*').count()
}

/// Adds a byte of a pattern, or the first run in its place, where it is a star.
fn fill<'a>(out: &mut Vec<u8>, byte: u8, runs: &'a [Bytes]) -> Result<&'a [Bytes], NoMemory>
    ensures filled { OnOk result (out.new.items ≡ out.old.items ++ filled_by byte runs.now) }
    ensures behind { IfOk result (λ rest. rest.now ≡ runs_behind byte runs.now) }
{
    if byte != b'*' {
        out.push(byte)?;
        return Ok(runs);
    }
    match runs.split_first() {
        Some((run, rest)) => {
            out.extend_from_slice(run.as_slice())?;
            Ok(rest)
        }
        None => {
            out.push(byte)?;
            Ok(runs)
        }
    }
}

/// Adds the pattern with each star replaced by its run.
fn fill_all(out: &mut Vec<u8>, pattern: &[u8], runs: &[Bytes]) -> Result<(), NoMemory>
    ensures { OnOk result (out.new.items ≡ out.old.items ++ filled pattern.now runs.now) }
{
    let mut left = runs;
    for byte in pattern {
        left = fill(out, *byte, left)?;
    }
    Ok(())
}

/// What stands before the text that a pattern makes.
#[tactic(auto, unfolding(crate::specs::Patterns::made_in))]
fn made_in<'a>(base: &'a [u8], document: &'a [u8], to: &[u8]) -> &'a [u8]
    ensures { result.now ≡ made_in base.now document.now to.now }
{
    if has_slash(to) {
        if has_scheme(to) { &[] } else { folder_of(base) }
    } else {
        folder_of(document)
    }
}

/// The text that a pattern makes of the document's URI, with these runs for its stars.
pub(crate) fn made_text(
    alloc: Global,
    base: &[u8],
    document: &[u8],
    to: &[u8],
    runs: &Runs,
) -> Result<Bytes, NoMemory>
    ensures { IfOk result (λ made. made ≡ made_text base.now document.now to.now runs.now) }
{
    let mut made = Vec::from_slice(alloc, made_in(base, document, to))?;
    fill_all(&mut made, to, runs.as_slice())?;
    Ok(Bytes::from_vec(made))
}
