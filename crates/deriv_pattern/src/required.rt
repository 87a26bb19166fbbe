//! Attributes that a pattern requires.

ghost use Rattle.std.specs.Prelude.{◌≡◌, ◌++◌, ◌↔◌, IfOk, OnOk, IsTrue, Contains};
ghost use Rattle.nx_base.specs.declared.name.Name.{Name as TheName};
ghost use Rattle.rng_core.specs.Meaning.{class_of, pattern_of};
ghost use Rattle.rng_core.specs.Names.{any_name, the_name, without, AttributeOverlap};
ghost use Rattle.rng_kept.specs.Required as s;
ghost use Rattle.rng_kept.specs.Needed.{class_names};
ghost use Rattle.deriv_pattern.specs.Mentions.{names_of};

use nx_base::memory::NoMemory;
use nx_base::name::{Name, Names};
use nx_base::sequence::TryCopy;
use rng_core::grammar::Pat;
use rng_core::name_class::{Bearer, NameClass};
use std::alloc::Global;

/// Whether the class has another name than this one that an attribute can have.
fn has_others(alloc: Global, class: &NameClass, name: &Name) -> Result<bool, NoMemory>
    ensures { IfOk result (λ found. IsTrue found ↔ AttributeOverlap (without (class_of class.now) (the_name name.now)) any_name) }
{
    let class = Box::new(alloc, class.copy(alloc)?)?;
    let name = Box::new(alloc, NameClass::Name(name.copy()?))?;
    let others = NameClass::Except(class, name);
    Ok(others.overlaps(alloc, &NameClass::AnyName, Bearer::Attribute))
}

/// Whether the class has the name, and no other one that an attribute can have.
#[tactic(auto, using(crate::proofs::Mentioned::only_told))]
pub fn has_only(alloc: Global, class: &NameClass, name: &Name) -> Result<bool, NoMemory>
    ensures { IfOk result (λ found. found ≡ s.has_only (class_of class.now) name.now) }
{
    if !class.has_attribute(name) {
        return Ok(false);
    }
    let others = has_others(alloc, class, name)?;
    Ok(!others)
}

/// Whether each list of attributes that is matched has one of the name.
pub fn needs(alloc: Global, name: &Name, p: &Pat) -> Result<bool, NoMemory>
    ensures { IfOk result (λ found. found ≡ s.needs name.now (pattern_of p.now)) }
{
    match p {
        Pat::NotAllowed
        | Pat::Empty
        | Pat::Text
        | Pat::Typed(_, _)
        | Pat::Value(_, _)
        | Pat::List(_)
        | Pat::Ref(_) => Ok(false),
        Pat::Attribute(class, _) => has_only(alloc, class, name),
        Pat::OneOrMore(body) => needs(alloc, name, body),
        Pat::Choice(a, b) => match needs(alloc, name, a) {
            Ok(true) => needs(alloc, name, b),
            Ok(false) => Ok(false),
            Err(fault) => Err(fault),
        },
        Pat::Group(a, b) | Pat::Interleave(a, b) => match needs(alloc, name, a) {
            Ok(true) => Ok(true),
            Ok(false) => needs(alloc, name, b),
            Err(fault) => Err(fault),
        },
    }
}

/// Adds the names that a class mentions. A choice of very many names nests to the left, so the left side is gone down in a loop.
pub fn add_mentioned(names: &mut Names, class: &NameClass) -> Result<(), NoMemory>
    ensures { OnOk result (names.new ≡ names.old ++ class_names (class_of class.now)) }
{
    let mut left = class;
    loop {
        match left {
            NameClass::AnyName => return Ok(()),
            NameClass::NsName(_) => return Ok(()),
            NameClass::Name(name) => {
                names.push(name.copy()?)?;
                return Ok(());
            }
            NameClass::Choice(front, last) => {
                add_mentioned(names, last)?;
                left = front;
            }
            NameClass::Except(all, taken) => {
                add_mentioned(names, taken)?;
                left = all;
            }
        }
    }
}

/// Adds the names of attributes that a pattern may need.
fn add_names(names: &mut Names, p: &Pat) -> Result<(), NoMemory>
    ensures { OnOk result (names.new ≡ names.old ++ names_of (pattern_of p.now)) }
{
    match p {
        Pat::NotAllowed
        | Pat::Empty
        | Pat::Text
        | Pat::Typed(_, _)
        | Pat::Value(_, _)
        | Pat::List(_)
        | Pat::Ref(_) => Ok(()),
        Pat::Attribute(class, _) => add_mentioned(names, class),
        Pat::OneOrMore(body) => add_names(names, body),
        Pat::Choice(a, _) => add_names(names, a),
        Pat::Group(a, b) | Pat::Interleave(a, b) => {
            add_names(names, a)?;
            add_names(names, b)
        }
    }
}

/// Names among which are all that the pattern needs, in no order, some perhaps twice.
#[tactic(auto, using(crate::proofs::Mentioned::needed_mentioned))]
pub fn candidates(alloc: Global, p: &Pat) -> Result<Names, NoMemory>
    ensures { IfOk result (λ names. (n : TheName) → IsTrue (s.needs n (pattern_of p.now)) → Contains names n) }
{
    let mut names = Names::new(alloc);
    add_names(&mut names, p)?;
    Ok(names)
}
