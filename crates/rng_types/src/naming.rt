//! Types by their names and params.

ghost use Rattle.std.specs.Prelude.{◌≡◌, ◌++◌, ◌∷◌, [], is_some, false, true, MatchOption, IsTrue, IfOk, OnOk};
ghost use Rattle.std.specs.List.{list_all, filter_map};
ghost use Rattle.std.specs.Str.Parse.{digits_value};
ghost use Rattle.rng_types.specs.Spaces.{collapsed};
ghost use Rattle.rng_types.specs.declared.kind.Form.TheVariants.{One};
ghost use Rattle.rng_types.specs.declared.kind.Takes.TheVariants.{Bounds};
ghost use Rattle.rng_types.specs.declared.facet.Relation.{Relation};
ghost use Rattle.rng_types.specs.Rows.{row_of};
ghost use Rattle.rng_types.specs.WellMade.{is_well_made};
ghost use Rattle.rng_types.specs.Naming.{length_relation as length_relation_of, bound_relation as bound_relation_of};
ghost use Rattle.rng_types.specs.Naming.{param_relation, is_length as is_length_text, is_bound as is_bound_text};
ghost use Rattle.rng_types.specs.Naming.{facet_with, facet_of, is_taken, is_literal, range_end, range_of, type_of};
ghost use Rattle.rng_types.specs.Naming.{IsUnlessMemory};

use crate::datatype::{Datatype, Param};
use crate::facet::{Facet, Facets, Relation};
use crate::fault::TypeFault;
use crate::form::only_word;
use crate::kind::{Form, Takes, Word};
use crate::number::{has_few_digits, is_digits};
use crate::table::{Row, type_named};
use nx_base::memory::NoMemory;
use nx_base::sequence::Bytes;
use std::alloc::Global;

/// What the name of a facet on lengths says.
fn length_relation(name: &[u8]) -> Option<Relation>
    ensures { result ≡ length_relation_of name.now }
{
    if name == b"length".as_slice() {
        Some(Relation::Exactly)
    } else if name == b"minLength".as_slice() {
        Some(Relation::AtLeast)
    } else if name == b"maxLength".as_slice() {
        Some(Relation::AtMost)
    } else {
        None
    }
}

/// What the name of a facet on numbers says.
fn bound_relation(name: &[u8]) -> Option<Relation>
    ensures { result ≡ bound_relation_of name.now }
{
    if name == b"minInclusive".as_slice() {
        Some(Relation::AtLeast)
    } else if name == b"maxInclusive".as_slice() {
        Some(Relation::AtMost)
    } else if name == b"minExclusive".as_slice() {
        Some(Relation::Above)
    } else if name == b"maxExclusive".as_slice() {
        Some(Relation::Below)
    } else {
        None
    }
}

impl Takes {
    /// What a param's name says of a type that takes these facets.
    fn relation(self, name: &[u8]) -> Option<Relation>
        ensures { result ≡ param_relation self name.now }
    {
        match self {
            Takes::Nothing => None,
            Takes::Lengths => length_relation(name),
            Takes::Bounds => bound_relation(name),
        }
    }
}

/// Whether a value is one to nine digits.
fn is_length(value: &[u8]) -> bool
    ensures { result ≡ is_length_text value.now }
{
    is_digits(value) && value.len() <= 9
}

/// The number that one to nine digits write.
fn length_of(value: &[u8]) -> u32
    requires { IsTrue (is_length_text value.now) }
    ensures { result ≡ digits_value 10 value.now }
{
    let mut number: u32 = 0;
    for byte in value {
        number = number * 10 + u32::from(*byte - b'0');
    }
    number
}

/// The word of a value that is a bound for a word of the form.
fn bound_word(form: Word, text: &str) -> Option<&str>
    ensures { MatchOption result
        (is_bound_text (One form) text.now ≡ false)
        (λ word. (is_bound_text (One form) text.now ≡ true) × (word.now ≡ collapsed text.now)) }
{
    let word = only_word(text)?;
    if form.fits(word) && has_few_digits(word.as_bytes()) {
        Some(word)
    } else {
        None
    }
}

/// The word of a value that is a bound for a text of the form.
fn bound_of(form: Form, value: &[u8]) -> Option<&str>
    ensures { MatchOption result
        (is_bound_text form value.now ≡ false)
        (λ word. (is_bound_text form value.now ≡ true) × (word.now ≡ collapsed value.now)) }
{
    match form {
        Form::One(word) => match str::from_utf8(value) {
            Ok(text) => bound_word(word, text),
            Err(_) => None,
        },
        Form::Any(_) => None,
        Form::Several(_) => None,
        Form::More(_) => None,
    }
}

/// Whether a value is a literal for a facet of a type that takes these facets and has this form.
fn is_value(takes: Takes, form: Form, value: &[u8]) -> bool
    ensures { (relation : Relation) → result ≡ is_some (facet_with takes form relation value.now) }
{
    match takes {
        Takes::Nothing => false,
        Takes::Lengths => is_length(value),
        Takes::Bounds => bound_of(form, value).is_some(),
    }
}

/// A copy of bytes.
pub(crate) fn bytes_of(alloc: Global, bytes: &[u8]) -> Result<Bytes, NoMemory>
    ensures { IfOk result (λ copied. copied ≡ bytes.now) }
{
    Ok(Bytes::from_vec(Vec::from_slice(alloc, bytes)?))
}

/// A bound with that relation and value on a type of the form, if the value is a literal for it.
fn bound_with(
    alloc: Global,
    form: Form,
    relation: Relation,
    value: &[u8],
) -> Result<Option<Facet>, NoMemory>
    ensures { IfOk result (λ facet. facet ≡ facet_with Bounds form relation value.now) }
{
    match bound_of(form, value) {
        Some(word) => Ok(Some(Facet::Bound(relation, bytes_of(alloc, word.as_bytes())?))),
        None => Ok(None),
    }
}

/// A facet with that relation and value on a type that takes these facets and has this form, if the value is a
/// literal for it.
fn facet_for(
    alloc: Global,
    takes: Takes,
    form: Form,
    relation: Relation,
    value: &[u8],
) -> Result<Option<Facet>, NoMemory>
    ensures { IfOk result (λ facet. facet ≡ facet_with takes form relation value.now) }
{
    match takes {
        Takes::Nothing => Ok(None),
        Takes::Lengths => {
            if is_length(value) {
                Ok(Some(Facet::Length(relation, length_of(value))))
            } else {
                Ok(None)
            }
        }
        Takes::Bounds => bound_with(alloc, form, relation, value),
    }
}

impl Row {
    /// Whether the type takes the param.
    fn takes_param(&self, param: &Param) -> bool
        ensures { result ≡ is_taken (row_of self.now) param.now }
    {
        self.takes.relation(param.name.as_slice()).is_some()
    }

    /// Whether the param's value is a literal for it.
    fn reads_param(&self, param: &Param) -> bool
        ensures { result ≡ is_literal (row_of self.now) param.now }
    {
        match self.takes.relation(param.name.as_slice()) {
            Some(_) => is_value(self.takes, self.form, param.value.as_slice()),
            None => false,
        }
    }

    /// The param's facet on the type, if it has one.
    fn facet(&self, alloc: Global, param: &Param) -> Result<Option<Facet>, NoMemory>
        ensures { IfOk result (λ facet. facet ≡ facet_of (row_of self.now) param.now) }
    {
        match self.takes.relation(param.name.as_slice()) {
            Some(relation) => facet_for(
                alloc,
                self.takes,
                self.form,
                relation,
                param.value.as_slice(),
            ),
            None => Ok(None),
        }
    }
}

/// Adds the bound at an end of a range, if there is one.
fn push_end(
    facets: &mut Facets,
    alloc: Global,
    relation: Relation,
    literal: &str,
) -> Result<(), NoMemory>
    ensures { OnOk result (facets.new ≡ facets.old ++ range_end relation literal.now) }
{
    if literal.is_empty() {
        return Ok(());
    }
    facets.push(Facet::Bound(relation, bytes_of(alloc, literal.as_bytes())?))?;
    Ok(())
}

/// Adds the facet of a param, if it has one.
fn push_param(facets: &mut Facets, alloc: Global, row: &Row, param: &Param) -> Result<(), NoMemory>
    ensures { OnOk result (facets.new ≡ facets.old ++ filter_map (facet_of (row_of row.now)) (param.now ∷ [])) }
{
    if let Some(facet) = row.facet(alloc, param)? {
        facets.push(facet)?;
    }
    Ok(())
}

/// The facets of a type with these params: the ends of its own range, and those of the params.
fn facets_of(alloc: Global, row: &Row, params: &[Param]) -> Result<Facets, NoMemory>
    ensures { IfOk result (λ facets. facets ≡ range_of (row_of row.now) ++ filter_map (facet_of (row_of row.now)) params.now) }
{
    let mut facets = Facets::new(alloc);
    push_end(&mut facets, alloc, Relation::AtLeast, row.low)?;
    push_end(&mut facets, alloc, Relation::AtMost, row.high)?;
    for param in params {
        push_param(&mut facets, alloc, row, param)?;
    }
    Ok(facets)
}

/// Whether the type takes all params.
fn all_taken(row: &Row, params: &[Param]) -> bool
    ensures { result ≡ list_all (is_taken (row_of row.now)) params.now }
{
    params.iter().all(|param| row.takes_param(param))
}

/// Whether all params' values are literals for them.
fn all_read(row: &Row, params: &[Param]) -> bool
    ensures { result ≡ list_all (is_literal (row_of row.now)) params.now }
{
    params.iter().all(|param| row.reads_param(param))
}

impl Datatype {
    /// The type that has this name in the library of this URI, with these params.
    ///
    /// `UnknownType` where there is no such type, otherwise `UnknownParam` where it doesn't take one of the params,
    /// otherwise `BadParam` where the value of one is no literal for it.
    pub fn named(
        alloc: Global,
        library: &str,
        name: &str,
        params: &[Param],
    ) -> Result<Datatype, TypeFault>
        ensures value { IsUnlessMemory result (type_of library.now name.now params.now) }
        ensures made { IfOk result (λ type. IsTrue (is_well_made type)) }
    {
        let Some(row) = type_named(library, name) else {
            return Err(TypeFault::UnknownType);
        };
        if !all_taken(&row, params) {
            return Err(TypeFault::UnknownParam);
        }
        if !all_read(&row, params) {
            return Err(TypeFault::BadParam);
        }
        let facets = facets_of(alloc, &row, params)?;
        Ok(Datatype {
            form: row.form,
            facets,
        })
    }
}
