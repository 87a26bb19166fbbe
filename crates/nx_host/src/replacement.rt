//! Files that take the place of others, so that a write that fails leaves what was there whole.

use crate::streams::write_whole;
use std::alloc::Global;
use std::fs::{OpenFile, OpenOptions, Permissions};
use std::io::{ErrorKind, Write};
use std::os::unix::fs::OpenOptionsExt;
use std::{fs, io, rt};

/// How many names are tried for a new file beside another one.
const NAMES: u32 = 1000;

/// Who may read and write a file that is to get the permissions of another: until then its owner alone.
const OWNER_ALONE: u32 = 0o600;

/// Who may read and write a file of which no older one says it. The process's mask takes bits away.
const EVERYBODY: u32 = 0o666;

/// Puts the bytes into the file at the path. A regular file, and one that isn't there yet, is made beside
/// its place and takes it when it is whole. What is no regular file, as a terminal, a file that is reached by
/// a name that the system makes for it, and a link that leads to nothing are written where they are.
pub(crate) fn put<R: rt::Files>(rt: &R, alloc: Global, path: &str, bytes: &[u8]) -> io::Result<()> {
    match fs::metadata(rt, path) {
        Ok(there) if there.is_file() && !is_of_system(path) => put_over(rt, alloc, path, bytes),
        Ok(_) => put_in_place(rt, path, bytes),
        Err(error) if error.kind() == ErrorKind::NotFound => put_new(rt, alloc, path, bytes),
        Err(error) => Err(error),
    }
}

/// Whether the path is one of those that the system makes, as `/dev/fd/3`: what it leads to is open, and a new file in its place
/// would be nobody's.
fn is_of_system(path: &str) -> bool {
    ["/dev/", "/proc/"]
        .iter()
        .any(|folder| path.starts_with(*folder))
}

/// Puts the bytes in the place of a regular file, or of the one that a link leads to. The new file has
/// the permissions of the old one.
fn put_over<R: rt::Files>(rt: &R, alloc: Global, path: &str, bytes: &[u8]) -> io::Result<()> {
    // What the caller may not write it may not replace either.
    let old = OpenOptions::new().write(true).open(rt, path)?;
    let permissions = Some(old.metadata()?.permissions());
    if is_link(rt, path)? {
        let target = rt.canonicalize(alloc, path)?;
        replace(rt, alloc, target.as_str(), bytes, permissions)
    } else {
        replace(rt, alloc, path, bytes, permissions)
    }
}

/// Puts the bytes where no file is.
fn put_new<R: rt::Files>(rt: &R, alloc: Global, path: &str, bytes: &[u8]) -> io::Result<()> {
    match is_link(rt, path) {
        Ok(true) => put_in_place(rt, path, bytes),
        _ => replace(rt, alloc, path, bytes, None),
    }
}

/// Writes the bytes to what is at the path, in place of what was in it.
fn put_in_place<R: rt::Files>(rt: &R, path: &str, bytes: &[u8]) -> io::Result<()> {
    let mut file = fs::create(rt, path)?;
    write_whole(&mut file, bytes)
}

/// Whether a link stands at the path itself.
fn is_link<R: rt::Files>(rt: &R, path: &str) -> io::Result<bool> {
    Ok(fs::symlink_metadata(rt, path)?.is_symlink())
}

/// Makes a file of the bytes, and moves it to the path when they are on the disk. Where anything fails it
/// is removed, and what is at the path stays.
fn replace<R: rt::Files>(
    rt: &R,
    alloc: Global,
    path: &str,
    bytes: &[u8],
    permissions: Option<Permissions>,
) -> io::Result<()> {
    let mode = if permissions.is_some() {
        OWNER_ALONE
    } else {
        EVERYBODY
    };
    let (made, file) = make_beside(rt, alloc, path, mode)?;
    let moved = match fill(file, bytes, permissions) {
        Ok(()) => fs::rename(rt, made.as_str(), path),
        Err(error) => Err(error),
    };
    if moved.is_err() {
        // The caller is told what failed first.
        let _left_over = fs::remove_file(rt, made.as_str());
    }
    moved
}

/// A new file in the folder of the path, and its own path. It is never one that was there before.
fn make_beside<R: rt::Files>(
    rt: &R,
    alloc: Global,
    path: &str,
    mode: u32,
) -> io::Result<(String, R::File)> {
    for number in 0..NAMES {
        let name = beside(alloc, path, number)?;
        match OpenOptions::new()
            .write(true)
            .create_new(true)
            .mode(mode)
            .open(rt, name.as_str())
        {
            Ok(file) => return Ok((name, file)),
            Err(error) if error.kind() == ErrorKind::AlreadyExists => {}
            Err(error) => return Err(error),
        }
    }
    Err(io::Error::from(ErrorKind::AlreadyExists))
}

/// The path of a hidden file in the folder of this path, with the number in its name.
fn beside(alloc: Global, path: &str, number: u32) -> io::Result<String> {
    let folder = match path.rsplit_once('/') {
        Some((folder, _)) => folder,
        None => ".",
    };
    Ok(format!(in alloc; "{folder}/.nxml-{number}.tmp")?)
}

/// Gives the new file its permissions and bytes, and waits until they are on the disk.
fn fill<F: Write + OpenFile + Drop>(
    mut file: F,
    bytes: &[u8],
    permissions: Option<Permissions>,
) -> io::Result<()> {
    if let Some(permissions) = permissions
        && file.metadata()?.permissions() != permissions
    {
        file.set_permissions(permissions)?;
    }
    write_whole(&mut file, bytes)?;
    file.sync_all()
}
