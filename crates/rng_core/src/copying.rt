//! Copies of name classes, patterns and definitions.
//!
//! A contract sees where a box stands, so a copy isn't equal to what it was made from: each call here says that both
//! stand for the same class, pattern or definition, which is all that any definition speaks of.

ghost use Rattle.std.specs.Prelude.{◌≡◌, IfOk, map};
ghost use Rattle.rng_core.specs.Meaning.{class_of, pattern_of, definition_of};
ghost use Rattle.rng_core.specs.Patterns.{not_allowed, empty, any_text, typed, literal, listed, attribute, ref};
ghost use Rattle.rng_core.specs.Patterns.{one_or_more, choice, group, interleave};
ghost use Rattle.rng_core.specs.Spine.{choices};

use crate::grammar::{Def, Pat};
use crate::name_class::NameClass;
use nx_base::memory::NoMemory;
use nx_base::sequence::{Bytes, TryCopy};
use rng_types::datatype::{Datatype, Excepts};
use std::alloc::Global;

/// The choice of a class and others, the last of the others being its innermost.
fn class_choice_of(
    alloc: Global,
    first: NameClass,
    mut others: Vec<NameClass>,
) -> Result<NameClass, NoMemory>
    ensures { IfOk result (λ built. class_of built ≡ choices (class_of first) (map class_of others.items)) }
{
    let mut built = first;
    while let Some(other) = others.pop() {
        let front = Box::new(alloc, built)?;
        built = NameClass::Choice(front, Box::new(alloc, other)?);
    }
    Ok(built)
}

impl NameClass {
    /// The same class once more.
    #[cycle(class_copy)]
    pub fn copy(&self, alloc: Global) -> Result<NameClass, NoMemory>
        ensures { IfOk result (λ copied. class_of copied ≡ class_of self.now) }
    {
        let mut lasts = Vec::new(alloc);
        let mut front = self;
        while let NameClass::Choice(more, last) = front {
            lasts.push(last.copy(alloc)?)?;
            front = more;
        }
        let first = front.copy_alone(alloc)?;
        class_choice_of(alloc, first, lasts)
    }

    /// The same of a class that is no choice.
    #[cycle(class_copy)]
    fn copy_alone(&self, alloc: Global) -> Result<NameClass, NoMemory>
        ensures { IfOk result (λ copied. class_of copied ≡ class_of self.now) }
    {
        match self {
            NameClass::AnyName => Ok(NameClass::AnyName),
            NameClass::NsName(ns) => Ok(NameClass::NsName(ns.copy()?)),
            NameClass::Name(name) => Ok(NameClass::Name(name.copy()?)),
            NameClass::Except(all, taken) => {
                let all = Box::new(alloc, all.copy(alloc)?)?;
                let taken = Box::new(alloc, taken.copy(alloc)?)?;
                Ok(NameClass::Except(all, taken))
            }
            NameClass::Choice(front, last) => {
                let front = Box::new(alloc, front.copy(alloc)?)?;
                let last = Box::new(alloc, last.copy(alloc)?)?;
                Ok(NameClass::Choice(front, last))
            }
        }
    }
}

// A copy of a pattern goes as deep as the pattern does, which may be thousands of nodes. So what calls itself holds
// boxes alone, and what holds patterns is called for one node at a time.

/// A pattern in a box.
#[inline(never)]
fn boxed(alloc: Global, pattern: Pat) -> Result<Box<Pat>, NoMemory>
    ensures { IfOk result (λ made. pattern_of made.value ≡ pattern_of pattern) }
{
    Ok(Box::new(alloc, pattern)?)
}

/// The pattern that nothing matches, in a box.
#[inline(never)]
fn boxed_not_allowed(alloc: Global) -> Result<Box<Pat>, NoMemory>
    ensures { IfOk result (λ made. pattern_of made.value ≡ not_allowed) }
{
    boxed(alloc, Pat::NotAllowed)
}

/// The empty pattern in a box.
#[inline(never)]
fn boxed_empty(alloc: Global) -> Result<Box<Pat>, NoMemory>
    ensures { IfOk result (λ made. pattern_of made.value ≡ empty) }
{
    boxed(alloc, Pat::Empty)
}

/// The text pattern in a box.
#[inline(never)]
fn boxed_text(alloc: Global) -> Result<Box<Pat>, NoMemory>
    ensures { IfOk result (λ made. pattern_of made.value ≡ any_text) }
{
    boxed(alloc, Pat::Text)
}

/// A reference in a box.
#[inline(never)]
fn boxed_ref(alloc: Global, number: u32) -> Result<Box<Pat>, NoMemory>
    ensures { IfOk result (λ made. pattern_of made.value ≡ ref number) }
{
    boxed(alloc, Pat::Ref(number))
}

/// A list in a box.
#[inline(never)]
fn boxed_list(alloc: Global, body: Box<Pat>) -> Result<Box<Pat>, NoMemory>
    ensures { IfOk result (λ made. pattern_of made.value ≡ listed (pattern_of body.value)) }
{
    boxed(alloc, Pat::List(body))
}

/// An attribute in a box.
#[inline(never)]
fn boxed_attribute(alloc: Global, class: &NameClass, body: Box<Pat>) -> Result<Box<Pat>, NoMemory>
    ensures { IfOk result (λ made. pattern_of made.value ≡ attribute (class_of class.now) (pattern_of body.value)) }
{
    boxed(alloc, Pat::Attribute(class.copy(alloc)?, body))
}

/// A repetition in a box.
#[inline(never)]
fn boxed_one_or_more(alloc: Global, body: Box<Pat>) -> Result<Box<Pat>, NoMemory>
    ensures { IfOk result (λ made. pattern_of made.value ≡ one_or_more (pattern_of body.value)) }
{
    boxed(alloc, Pat::OneOrMore(body))
}

/// A choice in a box.
#[inline(never)]
fn boxed_choice(alloc: Global, a: Box<Pat>, b: Box<Pat>) -> Result<Box<Pat>, NoMemory>
    ensures { IfOk result (λ made. pattern_of made.value ≡ choice (pattern_of a.value) (pattern_of b.value)) }
{
    boxed(alloc, Pat::Choice(a, b))
}

/// A group in a box.
#[inline(never)]
fn boxed_group(alloc: Global, a: Box<Pat>, b: Box<Pat>) -> Result<Box<Pat>, NoMemory>
    ensures { IfOk result (λ made. pattern_of made.value ≡ group (pattern_of a.value) (pattern_of b.value)) }
{
    boxed(alloc, Pat::Group(a, b))
}

/// An interleave in a box.
#[inline(never)]
fn boxed_interleave(alloc: Global, a: Box<Pat>, b: Box<Pat>) -> Result<Box<Pat>, NoMemory>
    ensures { IfOk result (λ made. pattern_of made.value ≡ interleave (pattern_of a.value) (pattern_of b.value)) }
{
    boxed(alloc, Pat::Interleave(a, b))
}

/// A type with its excepts in a box.
#[inline(never)]
fn boxed_data(alloc: Global, datatype: &Datatype, excepts: &Excepts) -> Result<Box<Pat>, NoMemory>
    ensures { IfOk result (λ made. pattern_of made.value ≡ typed datatype.now excepts.now) }
{
    boxed(alloc, Pat::Typed(datatype.copy()?, excepts.copy()?))
}

/// A value in a box.
#[inline(never)]
fn boxed_value(alloc: Global, datatype: &Datatype, text: &Bytes) -> Result<Box<Pat>, NoMemory>
    ensures { IfOk result (λ made. pattern_of made.value ≡ literal datatype.now text.now) }
{
    boxed(alloc, Pat::Value(datatype.copy()?, text.copy()?))
}

/// The same pattern once more, in a box.
fn boxed_copy(alloc: Global, pattern: &Pat) -> Result<Box<Pat>, NoMemory>
    ensures { IfOk result (λ made. pattern_of made.value ≡ pattern_of pattern.now) }
{
    match pattern {
        Pat::NotAllowed => boxed_not_allowed(alloc),
        Pat::Empty => boxed_empty(alloc),
        Pat::Text => boxed_text(alloc),
        Pat::Typed(datatype, excepts) => boxed_data(alloc, datatype, excepts),
        Pat::Value(datatype, text) => boxed_value(alloc, datatype, text),
        Pat::Ref(number) => boxed_ref(alloc, *number),
        Pat::List(body) => boxed_list(alloc, boxed_copy(alloc, body)?),
        Pat::Attribute(class, body) => boxed_attribute(alloc, class, boxed_copy(alloc, body)?),
        Pat::OneOrMore(body) => boxed_one_or_more(alloc, boxed_copy(alloc, body)?),
        Pat::Choice(a, b) => boxed_choice(alloc, boxed_copy(alloc, a)?, boxed_copy(alloc, b)?),
        Pat::Group(a, b) => boxed_group(alloc, boxed_copy(alloc, a)?, boxed_copy(alloc, b)?),
        Pat::Interleave(a, b) => {
            boxed_interleave(alloc, boxed_copy(alloc, a)?, boxed_copy(alloc, b)?)
        }
    }
}

impl Pat {
    /// The same pattern once more. It calls itself as deep as the pattern is (see `Pat`).
    pub fn copy(&self, alloc: Global) -> Result<Pat, NoMemory>
        ensures { IfOk result (λ copied. pattern_of copied ≡ pattern_of self.now) }
    {
        Ok(Box::into_inner(boxed_copy(alloc, self)?))
    }
}

impl Def {
    /// The same definition once more. It calls itself as deep as the content is (see `Pat`).
    pub fn copy(&self, alloc: Global) -> Result<Def, NoMemory>
        ensures { IfOk result (λ copied. definition_of copied ≡ definition_of self.now) }
    {
        Ok(Def {
            class: self.class.copy(alloc)?,
            content: self.content.copy(alloc)?,
        })
    }
}
