//! What is kept under URIs.

ghost use Rattle.std.specs.Prelude.{◌≡◌, ℕ, List, None, Some, cond, OnErr, OnOk};
ghost use Rattle.std.specs.Str.{bytes_eq};
ghost use Rattle.indexmap.specs.IndexMap.{get_by_text};

use indexmap::IndexMap;
use nx_base::memory::NoMemory;
use std::alloc::Global;

/// Takes what is under a URI.
pub fn take<V: Drop>(kept: &mut IndexMap<String, V>, uri: &str) -> Option<V>
    ensures taken { result ≡ get_by_text kept.old uri.now }
    ensures left { (asked : List ℕ) → get_by_text kept.new asked ≡ cond (bytes_eq uri.now asked) None (get_by_text kept.old asked) }
{
    kept.swap_remove(uri)
}

/// Puts something under a URI, in the place of what was there; nothing is there where there is no memory.
pub fn put<V: Drop>(
    alloc: Global,
    kept: &mut IndexMap<String, V>,
    uri: &str,
    value: V,
) -> Result<(), NoMemory>
    ensures ok { OnOk result ((asked : List ℕ) → get_by_text kept.new asked ≡ cond (bytes_eq uri.now asked) (Some value) (get_by_text kept.old asked)) }
    ensures err { OnErr result ((asked : List ℕ) → get_by_text kept.new asked ≡ cond (bytes_eq uri.now asked) None (get_by_text kept.old asked)) }
{
    match String::from_str(alloc, uri) {
        Ok(key) => match kept.insert(key, value) {
            Ok(_) => Ok(()),
            Err(_) => {
                let _old = take(kept, uri);
                Err(NoMemory)
            }
        },
        Err(_) => {
            let _old = take(kept, uri);
            Err(NoMemory)
        }
    }
}
