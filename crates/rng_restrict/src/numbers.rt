//! Numbers of definitions, each once, and the classes of those definitions.

ghost use Rattle.std.specs.Prelude.{◌≡◌, ◌++◌, map, slice_get, IfOk, OnOk};
ghost use Rattle.rng_core.specs.Meaning.{class_of, definition_of};
ghost use Rattle.rng_restrict.specs.Finding.{class_at, classes_at, PassAlike};

use nx_base::memory::NoMemory;
use rng_core::grammar::Defs;
use rng_core::name_class::NameClass;
use std::alloc::Global;

/// Leaves each number once, in ascending order.
pub(crate) fn keep_once(numbers: &mut Vec<u32>)
    ensures { PassAlike numbers.new.items numbers.old.items }
{
    numbers.sort_unstable();
    numbers.dedup();
}

/// Adds the class of the definition of a number, if there is one.
fn add_class<'a>(
    defs: &'a Defs,
    found: &mut Vec<&'a NameClass>,
    number: u32,
) -> Result<(), NoMemory>
    ensures { OnOk result (map (λ c. class_of c.now) found.new.items
        ≡ map (λ c. class_of c.now) found.old.items ++ class_at (slice_get (map definition_of defs.now) number)) }
{
    if let Some(def) = defs.get(number as usize) {
        found.push(&def.class)?;
    }
    Ok(())
}

/// The classes of the definitions of these numbers.
pub(crate) fn classes_of_numbers<'a>(
    alloc: Global,
    defs: &'a Defs,
    numbers: &[u32],
) -> Result<Vec<&'a NameClass>, NoMemory>
    ensures { IfOk result (λ classes. map (λ c. class_of c.now) classes.items ≡ classes_at (map definition_of defs.now) numbers.now) }
{
    let mut found = Vec::new(alloc);
    for number in numbers {
        add_class(defs, &mut found, *number)?;
    }
    Ok(found)
}
