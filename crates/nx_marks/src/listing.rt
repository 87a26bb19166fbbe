//! Faults of segments, in their places.

ghost use Rattle.std.specs.Prelude.{◌≡◌, ◌-◌, ◌+◌, ◌<◌, ◌≤◌, ◌^◌, ◌++◌, take, length, OnOk};
ghost use Rattle.std.specs.List.{AllByRecursion};
ghost use Rattle.nx_base.specs.Rules.{IsWithin};
ghost use Rattle.nx_base.specs.Shifting.{placed};
ghost use Rattle.nx_marks.specs.Chain.{FaultsFit, faults_in, reach};

use crate::tree::Tree;
use nx_base::edit::Edit;
use nx_base::fault::Faults;
use nx_base::memory::NoMemory;
use nx_base::sequence::TryCopy;

/// Adds faults whose places are counted from a place.
pub(crate) fn add_faults(faults: &mut Faults, more: &Faults, place: usize) -> Result<(), NoMemory>
    requires { AllByRecursion (IsWithin (2 ^ 64 - 1 - place)) more.now }
    ensures { OnOk result (faults.new ≡ faults.old ++ placed place more.now) }
{
    if more.is_empty() {
        return Ok(());
    }
    let mut moved = more.copy()?;
    moved.shift(&Edit {
        from: 0,
        to: 0,
        added: place,
    });
    faults.append(moved)?;
    Ok(())
}

impl<S: Drop> Tree<S> {
    /// Adds the faults of the first so many segments, the first of which lies at a place.
    pub(crate) fn add_faults(
        &self,
        count: usize,
        faults: &mut Faults,
        place: usize,
    ) -> Result<(), NoMemory>
        requires fit { FaultsFit (take count self.now) }
        requires fits { place + reach self.now < 2 ^ 64 }
        requires count { count ≤ length self.now }
        ensures { OnOk result (faults.new ≡ faults.old ++ faults_in place (take count self.now)) }
    {
        let Some(node) = &self.root else {
            return Ok(());
        };
        if count == 0 || !node.sums.faulty {
            return Ok(());
        }
        let before = node.left.sums();
        let earlier = before.count as usize;
        if count <= earlier {
            return node.left.add_faults(count, faults, place);
        }
        node.left.add_faults(earlier, faults, place)?;
        add_faults(faults, &node.mark.faults, place + before.reach)?;
        node.right.add_faults(
            count - earlier - 1,
            faults,
            place + before.reach + node.mark.len,
        )
    }
}
