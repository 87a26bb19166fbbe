//! Names in the details of faults.

ghost use Rattle.std.specs.Prelude.{◌≡◌, ◌++◌, IfOk, OnOk};
ghost use Rattle.nx_base.specs.PrintedNames.{name_text};
ghost use Rattle.nx_recover.specs.Details.{names_text, needed_text, needs_text};

use nx_base::detail::Detail;
use nx_base::memory::NoMemory;
use nx_base::name::Name;
use nx_base::printed_name::{name_text, push_name};
use nx_base::sequence::{Bytes, Sequence};
use rng_live::shared_names::{SharedNames, push_names};
use std::alloc::Global;

// Names, separated by a space.
fn names_text(alloc: Global, names: &[Name]) -> Result<Bytes, NoMemory>
    ensures { IfOk result (λ text. text ≡ names_text names.now) }
{
    let Some((first, others)) = names.split_first() else {
        return Ok(Sequence::new(alloc));
    };
    let mut text = Vec::new(alloc);
    push_name(&mut text, first)?;
    push_names(&mut text, others)?;
    Ok(Sequence::from_vec(text))
}

/// A name.
pub(crate) fn name_detail(alloc: Global, name: &Name) -> Result<Detail, NoMemory>
    ensures { IfOk result (λ detail. detail ≡ name_text name.now) }
{
    Detail::of(name_text(alloc, name)?)
}

/// Names, separated by a space.
pub(crate) fn names_detail(alloc: Global, names: &[Name]) -> Result<Detail, NoMemory>
    ensures { IfOk result (λ detail. detail ≡ names_text names.now) }
{
    Detail::of(names_text(alloc, names)?)
}

/// A name, and what is needed: all faults at which the same is needed share that.
pub(crate) fn needs_detail(
    alloc: Global,
    name: &Name,
    needed: &SharedNames,
) -> Result<Detail, NoMemory>
    ensures { IfOk result (λ detail. detail ≡ needs_text name.now needed.now) }
{
    if needed.as_slice().is_empty() {
        return name_detail(alloc, name);
    }
    let mut front = Vec::new(alloc);
    push_name(&mut front, name)?;
    front.extend_from_slice(b" needs")?;
    Detail::with_end(Bytes::from_vec(front), needed.text()?)
}
