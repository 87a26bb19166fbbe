//! Datatypes.

ghost use Rattle.std.specs.Prelude.{◌≡◌, ◌↔◌, IsTrue};
ghost use Rattle.rng_types.specs.Types.{Accepts, SameValue, has_few_digits, seen_by};
ghost use Rattle.rng_types.specs.Answers.{is_accepted, is_same_value};

use crate::facet::Facets;
use crate::kind::Form;
use crate::meeting::all_are_met;
use nx_base::equal::{Equal, EqualAll, same_each};
use nx_base::memory::NoMemory;
use nx_base::sequence::{Bytes, Sequence, TryCopy, TryCopyAll, copy_each};
use std::alloc::Global;

/// A type of a schema, with its params.
#[derive(Drop)]
pub struct Datatype {
    pub(crate) form: Form,
    pub(crate) facets: Facets,
}

impl Datatype {
    /// Whether a text is of the type.
    pub fn accepts(&self, text: &str) -> bool
        ensures decides { IsTrue result ↔ Accepts self.now text.now }
        ensures value { result ≡ is_accepted self.now text.now }
    {
        self.form.has(text) && all_are_met(self.facets.as_slice(), self.form, text)
    }

    /// Whether two texts of the type have the same value.
    pub fn same(&self, a: &str, b: &str) -> bool
        requires first { Accepts self.now a.now }
        requires second { Accepts self.now b.now }
        ensures decides { IsTrue result ↔ SameValue self.now a.now b.now }
        ensures value { result ≡ is_same_value self.now a.now b.now }
    {
        self.form.same(a, b)
    }

    /// Whether a literal of the type is no longer than a schema may write it: a number has at most 30 digits, beside
    /// zeros at the start of its whole part and at the end of its fraction. Literals of other types may have any length.
    pub fn has_few_digits(&self, literal: &str) -> bool
        requires { Accepts self.now literal.now }
        ensures { result ≡ has_few_digits self.now.form (seen_by self.now literal.now) }
    {
        match self.form {
            Form::One(word) => word.has_few_digits(literal),
            Form::Any(_) => true,
            Form::Several(_) => true,
            Form::More(_) => true,
        }
    }
}

impl Equal for Datatype {
    fn equals(&self, other: &Datatype) -> bool {
        self.form == other.form && self.facets.equals(&other.facets)
    }
}

impl EqualAll for Datatype {
    fn all_equal(a: &[Datatype], b: &[Datatype]) -> bool {
        same_each(a, b)
    }
}

impl TryCopy for Datatype {
    fn copy(&self) -> Result<Datatype, NoMemory> {
        Ok(Datatype {
            form: self.form,
            facets: self.facets.copy()?,
        })
    }
}

impl TryCopyAll for Datatype {
    fn copy_all(alloc: Global, items: &[Datatype]) -> Result<Vec<Datatype>, NoMemory> {
        copy_each(alloc, items)
    }
}

/// A param of a type: its name, and its value as it is written.
#[derive(Drop)]
pub struct Param {
    pub name: Bytes,
    pub value: Bytes,
}

/// What a type's values are to differ from.
#[derive(Drop)]
pub enum Except {
    /// A value of the type itself, by its literal.
    Own(Bytes),
    /// This text alone.
    BuiltinString(Bytes),
    /// Each text that is this one after collapsing.
    BuiltinToken(Bytes),
}

/// A list of excepts.
pub type Excepts = Sequence<Except>;

impl Equal for Except {
    fn equals(&self, other: &Except) -> bool {
        match (self, other) {
            (Except::Own(literal), Except::Own(other)) => literal.equals(other),
            (Except::BuiltinString(text), Except::BuiltinString(other)) => text.equals(other),
            (Except::BuiltinToken(text), Except::BuiltinToken(other)) => text.equals(other),
            _ => false,
        }
    }
}

impl EqualAll for Except {
    fn all_equal(a: &[Except], b: &[Except]) -> bool {
        same_each(a, b)
    }
}

impl TryCopy for Except {
    fn copy(&self) -> Result<Except, NoMemory> {
        match self {
            Except::Own(literal) => Ok(Except::Own(literal.copy()?)),
            Except::BuiltinString(text) => Ok(Except::BuiltinString(text.copy()?)),
            Except::BuiltinToken(text) => Ok(Except::BuiltinToken(text.copy()?)),
        }
    }
}

impl TryCopyAll for Except {
    fn copy_all(alloc: Global, items: &[Except]) -> Result<Vec<Except>, NoMemory> {
        copy_each(alloc, items)
    }
}
