//! Files and output: what the editor asks of the world outside, what the world may answer, and the
//! objects that answer.
#![tactic(auto)]

mod calls;
mod count;
pub mod disk;
mod disk_path;
mod file_table;
pub mod files;
pub mod memory_files;
pub mod memory_out;
pub mod out;
pub mod path_uri;
pub mod process;
mod replacement;
pub mod streams;
pub mod uri;
pub mod utf8;

pub use disk::{DiskFiles, StdOut};
pub use files::{FileFault, Files};
pub use memory_files::{MemFiles, SureFiles};
pub use memory_out::{MemOut, SureOut};
pub use out::{Out, OutFault};
