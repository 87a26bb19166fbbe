//! A disk on which one thing fails that a store asks of it, and all else goes as on the disk below.

use std::alloc::Allocator;
use std::fmt::Display;
use std::fs::{Metadata, OpenFile, OpenOptions, Permissions};
use std::io::{Error, ErrorKind, PipeReader, PipeWriter, Read, Seek, SeekFrom, Write};
use std::os::fd::BorrowedFd;
use std::os::unix::net::SocketAddr;
use std::path::PathBuf;
use std::{io, rt};

/// What fails.
#[derive(Clone, Copy, Debug, PartialEq, Eq)]
pub enum Failure {
    Permissions,
    /// A write, after one that took a part of the bytes.
    Write,
    Sync,
    Rename,
}

/// The disk below, but for one failure.
#[derive(Drop)]
pub struct FailingDisk<'a, R> {
    pub disk: &'a R,
    pub failure: Failure,
}

/// A file of such a disk.
#[derive(Drop)]
pub struct FailingFile<F> {
    file: F,
    failure: Failure,
    has_written: bool,
}

fn full_disk() -> Error {
    Error::from(ErrorKind::StorageFull)
}

// Standard output goes as below.
impl<R: Print> Print for FailingDisk<'_, R> {
    fn print<D: Display + Drop>(&self, value: D) -> io::Result<()> {
        self.disk.print(value)
    }

    fn println<D: Display + Drop>(&self, value: D) -> io::Result<()> {
        self.disk.println(value)
    }

    fn write_all(&self, bytes: &[u8]) -> io::Result<()> {
        self.disk.write_all(bytes)
    }

    fn write_some(&self, bytes: &[u8]) -> io::Result<usize> {
        self.disk.write_some(bytes)
    }
}

impl<F: Read> Read for FailingFile<F> {
    fn read(&mut self, buf: &mut [u8]) -> io::Result<usize> {
        self.file.read(buf)
    }
}

impl<F: Write> Write for FailingFile<F> {
    fn write(&mut self, buf: &[u8]) -> io::Result<usize> {
        if self.failure != Failure::Write {
            return self.file.write(buf);
        }
        if self.has_written || buf.is_empty() {
            return Err(full_disk());
        }
        self.has_written = true;
        self.file.write(&buf[..1])
    }

    fn flush(&mut self) -> io::Result<()> {
        self.file.flush()
    }
}

impl<F: Seek> Seek for FailingFile<F> {
    fn seek(&mut self, to: SeekFrom) -> io::Result<u64> {
        self.file.seek(to)
    }
}

impl<F: OpenFile> OpenFile for FailingFile<F> {
    fn metadata(&self) -> io::Result<Metadata> {
        self.file.metadata()
    }

    fn set_len(&self, size: u64) -> io::Result<()> {
        self.file.set_len(size)
    }

    fn sync_all(&self) -> io::Result<()> {
        if self.failure == Failure::Sync {
            return Err(full_disk());
        }
        self.file.sync_all()
    }

    fn sync_data(&self) -> io::Result<()> {
        self.file.sync_data()
    }

    fn set_permissions(&self, permissions: Permissions) -> io::Result<()> {
        if self.failure == Failure::Permissions {
            return Err(full_disk());
        }
        self.file.set_permissions(permissions)
    }
}

impl<R: rt::Files> rt::Files for FailingDisk<'_, R> {
    type File = FailingFile<R::File>;

    type Dir = R::Dir;

    fn open_file(&self, how: &OpenOptions, path: &str) -> io::Result<FailingFile<R::File>> {
        Ok(FailingFile {
            file: self.disk.open_file(how, path)?,
            failure: self.failure,
            has_written: false,
        })
    }

    fn open_dir(&self, path: &str) -> io::Result<R::Dir> {
        self.disk.open_dir(path)
    }

    fn metadata(&self, path: &str) -> io::Result<Metadata> {
        self.disk.metadata(path)
    }

    fn symlink_metadata(&self, path: &str) -> io::Result<Metadata> {
        self.disk.symlink_metadata(path)
    }

    fn copy(&self, from: &str, to: &str) -> io::Result<u64> {
        self.disk.copy(from, to)
    }

    fn rename(&self, from: &str, to: &str) -> io::Result<()> {
        if self.failure == Failure::Rename {
            return Err(full_disk());
        }
        self.disk.rename(from, to)
    }

    fn remove_file(&self, path: &str) -> io::Result<()> {
        self.disk.remove_file(path)
    }

    fn create_dir(&self, path: &str) -> io::Result<()> {
        self.disk.create_dir(path)
    }

    fn remove_dir(&self, path: &str) -> io::Result<()> {
        self.disk.remove_dir(path)
    }

    fn remove_dir_all<B: Allocator>(&self, alloc: B, path: &str) -> io::Result<()> {
        self.disk.remove_dir_all(alloc, path)
    }

    fn canonicalize<B: Allocator>(&self, alloc: B, path: &str) -> io::Result<PathBuf<B>> {
        self.disk.canonicalize(alloc, path)
    }

    fn read_link<B: Allocator>(&self, alloc: B, path: &str) -> io::Result<PathBuf<B>> {
        self.disk.read_link(alloc, path)
    }

    fn hard_link(&self, original: &str, link: &str) -> io::Result<()> {
        self.disk.hard_link(original, link)
    }

    fn set_permissions(&self, path: &str, permissions: Permissions) -> io::Result<()> {
        self.disk.set_permissions(path, permissions)
    }

    fn symlink(&self, original: &str, link: &str) -> io::Result<()> {
        self.disk.symlink(original, link)
    }

    fn pipe(&self) -> io::Result<(PipeReader, PipeWriter)> {
        self.disk.pipe()
    }

    fn chown(&self, path: &str, user: Option<u32>, group: Option<u32>) -> io::Result<()> {
        self.disk.chown(path, user, group)
    }

    fn lchown(&self, path: &str, user: Option<u32>, group: Option<u32>) -> io::Result<()> {
        self.disk.lchown(path, user, group)
    }

    fn create_dir_with_mode(&self, path: &str, mode: u32) -> io::Result<()> {
        self.disk.create_dir_with_mode(path, mode)
    }

    fn bind_unix(&self, socket: BorrowedFd<'_>, addr: &SocketAddr) -> io::Result<()> {
        self.disk.bind_unix(socket, addr)
    }
}
