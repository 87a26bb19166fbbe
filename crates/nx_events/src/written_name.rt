//! Names as they are written in tags.

use crate::name_bytes::NameBytes;

/// A name as it is written in a tag.
pub(crate) type WrittenName = NameBytes;
