//! What a fault tells beside its kind.

ghost use Rattle.std.specs.Prelude.{◌≡◌, ◌↔◌, ◌≤◌, ◌++◌, [], length, IfOk, IsTrue};

use crate::equal::{Equal, EqualAll};
use crate::memory::NoMemory;
use crate::sequence::{Bytes, TryCopy};
use crate::shared_bytes::SharedBytes;
use std::alloc::Global;
use std::marker::Model;

/// What a fault tells beside its kind. Its end may be one that very many faults have, as the names of all elements that are missing;
/// that stands once then. To a contract it is a list of bytes.
#[derive(Drop)]
pub struct Detail {
    front: SharedBytes,
    end: SharedBytes,
}

impl Model for Detail {
    ghost use Rattle.std.specs.Prelude.{ℕ, List, ◌++◌};

    ghost Value = { List ℕ };

    ghost view = { λ detail. detail.front ++ detail.end };
}

impl Detail {
    /// Nothing.
    pub fn new() -> Detail
        ensures { result ≡ [] }
    {
        Detail {
            front: SharedBytes::new(),
            end: SharedBytes::new(),
        }
    }

    /// These bytes.
    pub fn of(bytes: Bytes) -> Result<Detail, NoMemory>
        ensures { IfOk result (λ detail. detail ≡ bytes) }
    {
        Detail::with_end(bytes, SharedBytes::new())
    }

    /// These bytes, and behind them an end that other details have, too.
    pub fn with_end(front: Bytes, end: SharedBytes) -> Result<Detail, NoMemory>
        ensures { IfOk result (λ detail. detail ≡ front ++ end) }
    {
        Ok(Detail {
            front: SharedBytes::of(front)?,
            end,
        })
    }

    /// The bytes, as two pieces.
    pub fn pieces(&self) -> (&[u8], &[u8])
        ensures { result.0.now ++ result.1.now ≡ self.now }
    {
        (self.front.as_slice(), self.end.as_slice())
    }

    /// Whether it tells nothing.
    #[tactic(auto, using(crate::proofs::Joined::nothing_in_front, crate::proofs::Joined::nothing_behind, crate::proofs::Joined::nothing_at_all))]
    pub fn is_empty(&self) -> bool
        ensures { IsTrue result ↔ (self.now ≡ []) }
    {
        let (front, end) = self.pieces();
        front.is_empty() && end.is_empty()
    }

    /// The bytes, as one list.
    pub fn to_bytes(&self, alloc: Global) -> Result<Bytes, NoMemory>
        ensures { IfOk result (λ bytes. bytes ≡ self.now) }
    {
        let (front, end) = self.pieces();
        let mut bytes = Vec::from_slice(alloc, front)?;
        bytes.extend_from_slice(end)?;
        Ok(Bytes::from_vec(bytes))
    }
}

impl TryCopy for Detail {
    fn copy(&self) -> Result<Detail, NoMemory> {
        Ok(Detail {
            front: self.front.copy()?,
            end: self.end.copy()?,
        })
    }
}

/// Whether two lists are equal that stand in two pieces each. The first piece of the one is no longer than that of the other.
#[tactic(auto, using(crate::proofs::Joined::front_begins))]
fn same_joined(front: &[u8], end: &[u8], longer: &[u8], rest: &[u8]) -> bool
    requires { length front.now ≤ length longer.now }
    ensures { IsTrue result ↔ (front.now ++ end.now ≡ longer.now ++ rest.now) }
{
    let (first, second) = longer.split_at(front.len());
    u8::all_equal(first, front) && is_joined(end, second, rest)
}

/// Whether a list is two others, one behind the other.
#[tactic(auto, using(crate::proofs::Joined::front_of_joined, crate::proofs::Joined::end_of_joined, crate::proofs::Joined::no_longer, crate::proofs::Joined::joined_again))]
fn is_joined(whole: &[u8], front: &[u8], end: &[u8]) -> bool
    ensures { IsTrue result ↔ (whole.now ≡ front.now ++ end.now) }
{
    if whole.len() < front.len() {
        return false;
    }
    let (first, rest) = whole.split_at(front.len());
    u8::all_equal(first, front) && u8::all_equal(rest, end)
}

impl Equal for Detail {
    fn equals(&self, other: &Detail) -> bool {
        let (front, end) = self.pieces();
        let (other_front, other_end) = other.pieces();
        if front.len() <= other_front.len() {
            same_joined(front, end, other_front, other_end)
        } else {
            same_joined(other_front, other_end, front, end)
        }
    }
}
