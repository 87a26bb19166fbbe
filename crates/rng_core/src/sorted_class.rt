//! A class sorted for look-ups of many names.

ghost use Rattle.std.specs.Prelude.{◌≡◌, ◌&&◌, ◌||◌, false, IfOk, OnOk};
ghost use Rattle.nx_base.specs.declared.name.Name.{Name};
ghost use Rattle.nx_base.specs.Names.{same_name};
ghost use Rattle.rng_core.specs.Names.{covers};
ghost use Rattle.rng_core.specs.Unmentioned.{is_borne_name};
ghost use Rattle.rng_core.specs.Meaning.{class_of};
ghost use Rattle.rng_core.specs.SortedClasses.{some_covers, covers_sorted};

use crate::name_class::{Bearer, NameClass, is_attribute_name, is_xml_name};
use nx_base::memory::NoMemory;
use nx_base::name::Name;
use std::alloc::Global;
use std::collections::BTreeSet;

/// The single names that the choices of a class hold, in order, and what else they hold.
#[derive(Drop)]
pub(crate) struct SortedClass<'a> {
    pub(crate) names: BTreeSet<(&'a [u8], &'a [u8])>,
    pub(crate) others: Vec<&'a NameClass>,
}

/// Whether one of the classes covers a name.
fn one_covers(classes: &[&NameClass], name: &Name) -> bool
    ensures { result ≡ some_covers classes.now name.now }
{
    for class in classes {
        if class.covers(name) {
            return true;
        }
    }
    false
}

/// Whether an element, or an attribute, can have the name.
fn is_borne(bearer: Bearer, name: &Name) -> bool
    ensures { result ≡ is_borne_name bearer name.now }
{
    match bearer {
        Bearer::Element => is_xml_name(name),
        Bearer::Attribute => is_attribute_name(name),
    }
}

impl<'a> SortedClass<'a> {
    /// The class with no names.
    fn new(alloc: Global) -> SortedClass<'a>
        ensures { (name : Name) → covers_sorted result name ≡ false }
    {
        SortedClass {
            names: BTreeSet::new(alloc),
            others: Vec::new(alloc),
        }
    }

    /// Adds a single name.
    fn add_name(&mut self, name: &'a Name) -> Result<(), NoMemory>
        ensures { OnOk result ((n : Name) → covers_sorted self.new n ≡ (covers_sorted self.old n || same_name n name.now)) }
    {
        self.names
            .insert((name.ns.as_slice(), name.local.as_slice()))?;
        Ok(())
    }

    /// Adds what is no single name.
    fn add_other(&mut self, class: &'a NameClass) -> Result<(), NoMemory>
        ensures { OnOk result ((n : Name) → covers_sorted self.new n ≡ (covers_sorted self.old n || covers (class_of class.now) n)) }
    {
        self.others.push(class)?;
        Ok(())
    }

    /// Adds the names of a class.
    fn add(&mut self, class: &'a NameClass) -> Result<(), NoMemory>
        ensures { OnOk result ((n : Name) → covers_sorted self.new n ≡ (covers_sorted self.old n || covers (class_of class.now) n)) }
    {
        let mut left = class;
        loop {
            match left {
                NameClass::Name(name) => return self.add_name(name),
                NameClass::AnyName => return self.add_other(left),
                NameClass::NsName(_) => return self.add_other(left),
                NameClass::Except(_, _) => return self.add_other(left),
                NameClass::Choice(front, last) => {
                    self.add(last)?;
                    left = front;
                }
            }
        }
    }

    /// A class, sorted.
    pub(crate) fn sorted(alloc: Global, class: &'a NameClass) -> Result<SortedClass<'a>, NoMemory>
        ensures { IfOk result (λ made. (n : Name) → covers_sorted made n ≡ covers (class_of class.now) n) }
    {
        let mut sorted = SortedClass::new(alloc);
        sorted.add(class)?;
        Ok(sorted)
    }

    /// Whether the class covers a name.
    fn covers(&self, name: &'a Name) -> bool
        ensures { result ≡ covers_sorted self.now name.now }
    {
        self.names
            .contains(&(name.ns.as_slice(), name.local.as_slice()))
            || one_covers(self.others.as_slice(), name)
    }

    /// Whether the class has the name as one of an element, or of an attribute.
    pub(crate) fn has_as(&self, bearer: Bearer, name: &'a Name) -> bool
        ensures { result ≡ (is_borne_name bearer name.now && covers_sorted self.now name.now) }
    {
        is_borne(bearer, name) && self.covers(name)
    }
}
