//! What the process was started with.

use nx_base::memory::NoMemory;
use nx_base::sequence::Bytes;
use std::env;
use std::io::ErrorKind;
use std::rt::Env;

/// The words behind the program's name. Where one can't be had, as one that isn't UTF-8, there are none.
pub fn process_words<R: Env + AllocGlobal>(rt: &R) -> Result<Vec<Bytes>, NoMemory> {
    let mut words = Vec::new(rt.alloc());
    match env::args(rt) {
        Ok(arguments) => {
            for word in arguments.skip(1) {
                words.push(Bytes::from_vec(word.into_bytes()))?;
            }
            Ok(words)
        }
        Err(error) if error.kind() == ErrorKind::OutOfMemory => Err(NoMemory),
        Err(_) => Ok(words),
    }
}

/// The path of the folder that the process is in, from the root; none where it can't be had, as one that isn't UTF-8.
pub fn process_folder<R: Env + AllocGlobal>(rt: &R) -> Result<Option<Bytes>, NoMemory> {
    match env::current_dir(rt) {
        Ok(path) => Ok(Some(Bytes::from_vec(path.into_string().into_bytes()))),
        Err(error) if error.kind() == ErrorKind::OutOfMemory => Err(NoMemory),
        Err(_) => Ok(None),
    }
}
