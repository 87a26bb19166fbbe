//! Changes of a text.

use crate::memory::NoMemory;
use crate::sequence::{Bytes, Sequence, TryCopy, TryCopyAll, copy_each};
use std::alloc::Global;

/// Puts a text in the place of the bytes from one byte offset to another.
#[derive(Drop)]
pub struct Change {
    pub from: usize,
    pub to: usize,
    pub text: Bytes,
}

/// A list of changes that are made one after another. Each lies in front of the one before it, so all offsets are those of the text before the first.
pub type Changes = Sequence<Change>;

impl TryCopy for Change {
    fn copy(&self) -> Result<Change, NoMemory> {
        Ok(Change {
            from: self.from,
            to: self.to,
            text: self.text.copy()?,
        })
    }
}

impl TryCopyAll for Change {
    fn copy_all(alloc: Global, items: &[Change]) -> Result<Vec<Change>, NoMemory> {
        copy_each(alloc, items)
    }
}
