//! What reads the parts of a schema.

use crate::scope::LookUps;
use std::alloc::Global;

/// What reads the parts of a schema, each from a cursor.
#[derive(Drop)]
pub(crate) struct Reader {
    pub(crate) alloc: Global,
    pub(crate) look_ups: LookUps,
}
