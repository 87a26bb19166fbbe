//! The URIs of what words of the command line name.

ghost use Rattle.std.specs.Prelude.{◌≡◌, ◌∷◌, ◌++◌, ◌≤◌, ◌<◌, [], map, length, codes, IfOk, OnOk, IfSome, IfNone, IsAscii, IsUtf8, false};
ghost use Rattle.std.specs.List.{flat_map, position_or_len, slice_split};
ghost use Rattle.nx_host.specs.PathUri.{is_slash, joined_path, stays, names_behind, names_along, names_of, path_of_names, plain_path};
ghost use Rattle.nx_host.specs.PathUri.{is_plain, written, is_uri, uri_of_path, PathUrisLeadBack};

use nx_base::memory::NoMemory;
use nx_base::sequence::Bytes;
use percent_encoding::percent_encode_byte;
use std::alloc::Global;

/// With what a word begins that is the text of a URI.
const SCHEME: &[u8] = b"file:";

/// The path that is meant by one that is written in this folder.
fn joined_path(alloc: Global, folder: &[u8], path: &[u8]) -> Result<Vec<u8>, NoMemory>
    ensures { IfOk result (λ joined. joined.items ≡ joined_path folder.now path.now) }
{
    if path.starts_with(b"/") {
        return Ok(Vec::from_slice(alloc, path)?);
    }
    let mut joined = Vec::from_slice(alloc, folder)?;
    joined.push(b'/')?;
    joined.extend_from_slice(path)?;
    Ok(joined)
}

/// Whether a piece of a path stays where it is: it is empty, as between two slashes, or a dot.
fn stays(piece: &[u8]) -> bool
    ensures { result ≡ stays piece.now }
{
    piece.is_empty() || piece == b".".as_slice()
}

/// Goes on along a path by one piece.
#[tactic(auto, unfolding(crate::specs::PathUri::names_behind))]
fn follow<'a>(names: &mut Vec<&'a [u8]>, piece: &'a [u8]) -> Result<(), NoMemory>
    ensures { OnOk result (map (λ name. name.now) names.new.items ≡ names_behind (map (λ name. name.now) names.old.items) piece.now) }
{
    if stays(piece) {
        return Ok(());
    }
    if piece == b"..".as_slice() {
        let _left = names.pop();
        return Ok(());
    }
    names.push(piece)?;
    Ok(())
}

/// Where the first slash stands, or the length.
fn slash_place(path: &[u8]) -> usize
    ensures place { result ≡ position_or_len is_slash path.now }
    ensures within { result ≤ length path.now }
{
    path.iter().take_while(|byte| **byte != b'/').count()
}

/// What stands before the first slash, and what stands behind it, if there is one.
fn first_piece(path: &[u8]) -> (&[u8], Option<&[u8]>)
    ensures alone { IfNone result.1 (slice_split is_slash path.now ≡ result.0.now ∷ []) }
    ensures more { IfSome result.1 (λ rest. slice_split is_slash path.now ≡ result.0.now ∷ slice_split is_slash rest.now) }
    ensures shorter { IfSome result.1 (λ rest. length rest.now < length path.now) }
{
    let end = slash_place(path);
    let piece = &path[..end];
    if end == path.len() {
        return (piece, None);
    }
    let rest = &path[end + 1..];
    (piece, Some(rest))
}

/// The names on the way from the root along a path.
fn names_of(alloc: Global, path: &[u8]) -> Result<Vec<&[u8]>, NoMemory>
    ensures { IfOk result (λ names. map (λ name. name.now) names.items ≡ names_of path.now) }
{
    let mut names = Vec::new(alloc);
    let mut left = path;
    loop {
        let (piece, rest) = first_piece(left);
        follow(&mut names, piece)?;
        match rest {
            Some(rest) => left = rest,
            None => return Ok(names),
        }
    }
}

/// The path of such names.
#[tactic(auto, unfolding(crate::specs::PathUri::path_of_names))]
fn path_of_names(alloc: Global, names: &[&[u8]]) -> Result<Vec<u8>, NoMemory>
    ensures { IfOk result (λ path. path.items ≡ path_of_names (map (λ name. name.now) names.now)) }
{
    let mut path = Vec::new(alloc);
    if names.is_empty() {
        path.push(b'/')?;
    }
    for name in names {
        path.push(b'/')?;
        path.extend_from_slice(name)?;
    }
    Ok(path)
}

/// The path from the root, without pieces that lead nowhere, of one that is written in this folder.
fn plain_path(alloc: Global, folder: &[u8], path: &[u8]) -> Result<Vec<u8>, NoMemory>
    ensures { IfOk result (λ plain. plain.items ≡ plain_path folder.now path.now) }
{
    let joined = joined_path(alloc, folder, path)?;
    let names = names_of(alloc, joined.as_slice())?;
    path_of_names(alloc, names.as_slice())
}

/// Whether a byte stands for itself in the path of a URI.
fn is_plain(byte: u8) -> bool
    ensures { result ≡ is_plain byte }
{
    byte.is_ascii_alphanumeric() || matches!(byte, b'-' | b'.' | b'_' | b'~' | b'/')
}

/// Adds a byte as it is written in the path of a URI.
fn push_written(uri: &mut Vec<u8>, byte: u8) -> Result<(), NoMemory>
    ensures { OnOk result (uri.new.items ≡ uri.old.items ++ written byte) }
{
    if is_plain(byte) {
        uri.push(byte)?;
    } else {
        uri.extend_from_slice(percent_encode_byte(byte).as_bytes())?;
    }
    Ok(())
}

/// The text of the URI of a path from the root.
fn path_text(alloc: Global, path: &[u8]) -> Result<Bytes, NoMemory>
    ensures { IfOk result (λ uri. uri ≡ codes "file://" ++ flat_map written path.now) }
{
    let mut uri = Vec::from_slice(alloc, b"file://")?;
    for byte in path {
        push_written(&mut uri, *byte)?;
    }
    Ok(Bytes::from_vec(uri))
}

/// The text of the URI that a word of the command line names. A word that begins with `file:` is that text itself. Any other is a
/// path, from the root or in the folder, of which a path from the root is given: `.` and doubled slashes fall away in the URI, `..`
/// takes back the name before it, and each byte but letters, digits, `-`, `.`, `_` and `~` is percent-encoded. Such a URI is ASCII, and
/// `DiskFiles::rooted` opens that path for it. A slash at the end of a path falls away, too; and where the name before `..` is a link,
/// the system would go another way.
#[tactic(auto, unfolding(crate::specs::PathUri::uri_of_path))]
pub fn path_uri(alloc: Global, folder: &[u8], word: &[u8]) -> Result<Bytes, NoMemory>
    ensures uri { IfOk result (λ uri. uri ≡ uri_of_path folder.now word.now) }
    ensures ascii { is_uri word.now ≡ false → IfOk result IsAscii }
    ensures utf8 { IsUtf8 word.now → IfOk result IsUtf8 }
{
    if word.starts_with(SCHEME) {
        return Ok(Bytes::from_vec(Vec::from_slice(alloc, word)?));
    }
    let path = plain_path(alloc, folder, word)?;
    path_text(alloc, path.as_slice())
}

/// The URI of a path names that path from the root, and no other.
pub fn path_uris_lead_back()
    ensures { PathUrisLeadBack }
{}
