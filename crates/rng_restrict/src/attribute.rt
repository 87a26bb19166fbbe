//! Attributes with a name in common in both sides of a group or an interleave.

ghost use Rattle.std.specs.Prelude.{◌≡◌, ◌++◌, ◌||◌, map, IfOk};
ghost use Rattle.rng_core.specs.Meaning.{class_of, pattern_of};
ghost use Rattle.rng_core.specs.declared.name_class.Bearer.TheVariants.{Attribute};
ghost use Rattle.rng_restrict.specs.Finding.{has_part, any_share, attribute_classes, is_attribute_overlap};

use crate::classes::sides_share;
use crate::fault::any_fault;
use nx_base::memory::NoMemory;
use rng_core::grammar::Pat;
use rng_core::name_class::NameClass;
use std::alloc::Global;

/// Adds the classes of the attributes that occur in a pattern. Answers whether two of them overlap in a group or an
/// interleave that stands there.
#[cycle(attributes)]
fn gather<'a>(
    alloc: Global,
    found: &mut Vec<&'a NameClass>,
    pattern: &'a Pat,
) -> Result<bool, NoMemory>
    ensures { IfOk result (λ fault. (fault ≡ has_part is_attribute_overlap (pattern_of pattern.now))
        × (map (λ c. class_of c.now) found.new.items
        ≡ map (λ c. class_of c.now) found.old.items ++ attribute_classes (pattern_of pattern.now))) }
{
    match pattern {
        Pat::NotAllowed => Ok(false),
        Pat::Empty => Ok(false),
        Pat::Text => Ok(false),
        Pat::Typed(_, _) => Ok(false),
        Pat::Value(_, _) => Ok(false),
        Pat::Ref(_) => Ok(false),
        Pat::List(body) => has_attribute_overlap(alloc, body),
        Pat::Attribute(class, body) => {
            found.push(class)?;
            has_attribute_overlap(alloc, body)
        }
        Pat::OneOrMore(body) => gather(alloc, found, body),
        Pat::Choice(a, b) => {
            let first = gather(alloc, found, a)?;
            let second = gather(alloc, found, b)?;
            Ok(first || second)
        }
        Pat::Group(a, b) => gather_sides(alloc, found, a, b),
        Pat::Interleave(a, b) => gather_sides(alloc, found, a, b),
    }
}

/// The same for the sides of a group or an interleave.
#[cycle(attributes)]
fn gather_sides<'a>(
    alloc: Global,
    found: &mut Vec<&'a NameClass>,
    a: &'a Pat,
    b: &'a Pat,
) -> Result<bool, NoMemory>
    ensures { IfOk result (λ fault.
        (fault ≡ (any_share Attribute (attribute_classes (pattern_of a.now)) (attribute_classes (pattern_of b.now))
        || (has_part is_attribute_overlap (pattern_of a.now) || has_part is_attribute_overlap (pattern_of b.now))))
        × (map (λ c. class_of c.now) found.new.items
        ≡ map (λ c. class_of c.now) found.old.items
        ++ (attribute_classes (pattern_of a.now) ++ attribute_classes (pattern_of b.now)))) }
{
    let before = found.len();
    let first = gather(alloc, found, a)?;
    let between = found.len();
    let second = gather(alloc, found, b)?;
    let shared = sides_share(alloc, found.as_slice(), before, between);
    Ok(any_fault(shared, first, second))
}

/// Whether attributes overlap in a group or an interleave that stands in a pattern.
#[cycle(attributes)]
pub(crate) fn has_attribute_overlap(alloc: Global, pattern: &Pat) -> Result<bool, NoMemory>
    ensures { IfOk result (λ fault. fault ≡ has_part is_attribute_overlap (pattern_of pattern.now)) }
{
    let mut found = Vec::new(alloc);
    gather(alloc, &mut found, pattern)
}
