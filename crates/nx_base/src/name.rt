//! Expanded names.

ghost use Rattle.std.specs.Prelude.{◌≡◌, IfOk};

use crate::memory::NoMemory;
use crate::sequence::{Bytes, Sequence, TryCopy, TryCopyAll, copy_each};
use std::alloc::Global;

/// An expanded name (Namespaces in XML 1.0, section 2.1): a namespace, empty for none, and a local part.
#[derive(Drop)]
pub struct Name {
    pub ns: Bytes,
    pub local: Bytes,
}

/// The namespace in which the prefix `xmlns` is (Namespaces in XML 1.0, section 3). No name of a document
/// is in it.
pub const XMLNS_NAMESPACE: &str = "http://www.w3.org/2000/xmlns/";

/// A list of names.
pub type Names = Sequence<Name>;

impl TryCopy for Name {
    fn copy(&self) -> Result<Name, NoMemory> {
        Ok(Name {
            ns: self.ns.copy()?,
            local: self.local.copy()?,
        })
    }
}

impl TryCopyAll for Name {
    fn copy_all(alloc: Global, items: &[Name]) -> Result<Vec<Name>, NoMemory> {
        copy_each(alloc, items)
    }
}
