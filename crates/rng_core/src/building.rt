//! Patterns put together from their parts. A part that was given is dropped where there is no memory.

ghost use Rattle.std.specs.Prelude.{◌≡◌, IfOk};
ghost use Rattle.rng_core.specs.Patterns.{listed, attribute, one_or_more, choice, group, interleave};
ghost use Rattle.rng_core.specs.Meaning.{class_of, pattern_of};

use crate::grammar::Pat;
use crate::name_class::NameClass;
use nx_base::memory::NoMemory;
use std::alloc::Global;

/// A list of words that match the body.
pub fn list_of(alloc: Global, body: Pat) -> Result<Pat, NoMemory>
    ensures { IfOk result (λ built. pattern_of built ≡ listed (pattern_of body)) }
{
    Ok(Pat::List(Box::new(alloc, body)?))
}

/// An attribute with a name of the class and a value that matches the body.
pub fn attribute_of(alloc: Global, class: NameClass, body: Pat) -> Result<Pat, NoMemory>
    ensures { IfOk result (λ built. pattern_of built ≡ attribute (class_of class) (pattern_of body)) }
{
    Ok(Pat::Attribute(class, Box::new(alloc, body)?))
}

/// One or more parts that match the body.
pub fn one_or_more_of(alloc: Global, body: Pat) -> Result<Pat, NoMemory>
    ensures { IfOk result (λ built. pattern_of built ≡ one_or_more (pattern_of body)) }
{
    Ok(Pat::OneOrMore(Box::new(alloc, body)?))
}

/// What either side matches.
pub fn choice_of(alloc: Global, a: Pat, b: Pat) -> Result<Pat, NoMemory>
    ensures { IfOk result (λ built. pattern_of built ≡ choice (pattern_of a) (pattern_of b)) }
{
    let a = Box::new(alloc, a)?;
    Ok(Pat::Choice(a, Box::new(alloc, b)?))
}

/// What the one side matches, and then what the other does.
pub fn group_of(alloc: Global, a: Pat, b: Pat) -> Result<Pat, NoMemory>
    ensures { IfOk result (λ built. pattern_of built ≡ group (pattern_of a) (pattern_of b)) }
{
    let a = Box::new(alloc, a)?;
    Ok(Pat::Group(a, Box::new(alloc, b)?))
}

/// What the sides match, shuffled.
pub fn interleave_of(alloc: Global, a: Pat, b: Pat) -> Result<Pat, NoMemory>
    ensures { IfOk result (λ built. pattern_of built ≡ interleave (pattern_of a) (pattern_of b)) }
{
    let a = Box::new(alloc, a)?;
    Ok(Pat::Interleave(a, Box::new(alloc, b)?))
}
