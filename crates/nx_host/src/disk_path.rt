//! The paths that URIs of files name.

ghost use Rattle.std.specs.Prelude.{◌≡◌, ◌++◌, List, ℕ, codes, option_map, string_bytes, IfOk, IsUtf8, MatchOption};
ghost use Rattle.percent_encoding.specs.Percent.{percent_decode};
ghost use Rattle.nx_host.specs.Disk.{IsNowhere};
ghost use Rattle.nx_host.specs.DiskPath.{IsPathAlone, NamesPath, NamesFromRoot};
ghost use Rattle.nx_host.specs.DiskRoot.{IsNowhereFromRoot, IsPathFrom};

use nx_base::memory::NoMemory;
use std::alloc::Global;

/// Where the paths of URIs begin.
#[derive(Clone, Copy)]
pub(crate) enum Start {
    /// At the root, but for those below `file:///work/`, which begin at the folder of the process.
    Work,
    /// At the root, all of them.
    Root,
}

/// The path that the URI names where paths begin there; none where it names none that is a text.
pub(crate) fn path_from(start: Start, alloc: Global, uri: &str) -> Result<Option<String>, NoMemory>
    ensures { IfOk result (λ named. IsPathFrom start uri.now (option_map string_bytes named)) }
{
    match start {
        Start::Work => path_of(alloc, uri),
        Start::Root => rooted_path(alloc, uri),
    }
}

/// The path that the URI names where the disk is seen from its root; none for another scheme, where there is a host, a query or a
/// fragment, and where the path is no UTF-8.
fn rooted_path(alloc: Global, uri: &str) -> Result<Option<String>, NoMemory>
    ensures { IfOk result (λ named. MatchOption named (IsNowhereFromRoot uri.now) (λ path. NamesFromRoot uri.now (string_bytes path))) }
{
    match uri.as_bytes().strip_prefix(b"file:///") {
        Some(rest) => path_below(alloc, "/", rest),
        None => Ok(None),
    }
}

/// The path that the URI names; none for another scheme, where there is a host, a query or a fragment, and
/// where the path is no UTF-8.
fn path_of(alloc: Global, uri: &str) -> Result<Option<String>, NoMemory>
    ensures { IfOk result (λ named. MatchOption named (IsNowhere uri.now) (λ path. NamesPath uri.now (string_bytes path))) }
{
    let bytes = uri.as_bytes();
    match bytes.strip_prefix(b"file:///work/") {
        Some(rest) => path_below(alloc, "./", rest),
        None => match bytes.strip_prefix(b"file:///") {
            Some(rest) => path_below(alloc, "/", rest),
            None => Ok(None),
        },
    }
}

/// The path of this folder and what the rest of a URI names, if there is no query and no fragment and that
/// is UTF-8.
fn path_below(alloc: Global, folder: &str, rest: &[u8]) -> Result<Option<String>, NoMemory>
    ensures { IfOk result (λ named. MatchOption named
        (IsPathAlone rest.now → ¬ IsUtf8 (folder.now ++ percent_decode rest.now))
        (λ path. IsPathAlone rest.now × (string_bytes path ≡ folder.now ++ percent_decode rest.now))) }
{
    if rest.contains(&b'?') || rest.contains(&b'#') {
        return Ok(None);
    }
    let mut path = Vec::from_slice(alloc, folder.as_bytes())?;
    percent_encoding::percent_decode(rest).append_to(&mut path)?;
    Ok(String::from_utf8(path).ok())
}
