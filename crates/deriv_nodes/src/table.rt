//! Keys that are kept once.

ghost use Rattle.std.specs.Prelude.{◌≡◌, Some, slice_get, true, IfOk};
ghost use Rattle.std.specs.List.{IsDistinct};
ghost use Rattle.deriv_nodes.specs.Reading.{AreOnce, HasKey};

use indexmap::IndexSet;
use nx_base::memory::NoMemory;
use std::hash::Hash;

/// The place of a key, which is added where none is equal to it.
pub fn keep<T: Eq + Hash + Drop>(set: &mut IndexSet<T>, key: T) -> Result<usize, NoMemory>
    ensures single { IsDistinct T.eq set.new.keys }
    ensures once { AreOnce set.new.keys }
    ensures kept { HasKey set.old.keys set.new.keys key }
    ensures there { IfOk result (λ place. (k : T) × (slice_get set.new.keys place ≡ Some k) × (T.eq key k ≡ true)) }
{
    let (place, _) = set.insert_full(key)?;
    Ok(place)
}
