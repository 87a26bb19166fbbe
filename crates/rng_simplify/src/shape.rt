//! Simple forms, in which nothing is left of what is not allowed, or empty, where it counts for nothing (ISO/IEC 19757-2,
//! sections 7.21 and 7.22).
//!
//! A shape is a form by the numbers of its parts. A form that stands in many places is one shape, so that even a form of very
//! many nodes is known by few shapes; how large it is, is known without spelling it out.

ghost use Rattle.std.specs.Prelude.{◌≡◌, ◌≢◌, ◌<◌, ℕ, [], Some, length, slice_get};
ghost use Rattle.rng_simplify.specs.Forms.{list_of, attribute_of, one_or_more_of};
ghost use Rattle.rng_simplify.specs.Shown.{size_alone, size_around, size_beside, values_beside, class_in, joined_of};
ghost use Rattle.rng_simplify.specs.Shown.{IsBehindParts, IsSizeAt, IsSizeOf, head_by, IsHeadAt, Shows, Adds};
ghost use Rattle.rng_simplify.specs.declared.shape.Shape.TheVariants as variant;
ghost use Rattle.rng_simplify.specs.declared.node.Sign.TheVariants as signs;

use crate::fault::SchemaFault;
use crate::node::{NodeNumber, Sign};
use crate::resolve::ElementNumber;
use std::alloc::Global;
use std::marker::Model;

/// A shape, by its place among the shapes. To a contract it is that place.
#[derive(Clone, Copy, Debug, PartialEq, Eq)]
pub(crate) struct ShapeNumber(pub(crate) usize);

impl Model for ShapeNumber {
    ghost use Rattle.std.specs.Prelude.{ℕ};

    ghost Value = { ℕ };

    ghost view = { λ number. number.0 };

    ghost inverse = { λ n. record { 0 = n } };
}

/// A form, whose parts are shapes with smaller numbers.
#[derive(Clone, Copy, Debug, PartialEq, Eq)]
pub(crate) enum Shape {
    NotAllowed,
    Empty,
    Text,
    /// The value of a node.
    Value(NodeNumber),
    /// The type of a node.
    Typed(NodeNumber),
    /// An element by the number of its definition.
    Ref(ElementNumber),
    List(ShapeNumber),
    /// An attribute with the class of a node.
    Attribute(NodeNumber, ShapeNumber),
    OneOrMore(ShapeNumber),
    Joined(Sign, ShapeNumber, ShapeNumber),
}

/// How large a form is. Numbers stop at the greatest.
#[derive(Clone, Copy, Debug, PartialEq, Eq)]
pub(crate) struct Size {
    /// How many nodes it has.
    pub(crate) nodes: u64,
    /// How many of them are on its longest path.
    pub(crate) depth: u64,
    /// How many values it has, where it is a choice of values, or not allowed.
    pub(crate) values: Option<u64>,
}

/// What a form counts for in others.
#[derive(Clone, Copy, Debug, PartialEq, Eq)]
enum Head {
    NotAllowed,
    Empty,
    Other,
}

/// A shape with its size.
#[derive(Clone, Copy, Debug, PartialEq, Eq)]
struct Entry {
    shape: Shape,
    size: Size,
}

/// Shapes with their sizes. To a contract they are the list of the shapes.
#[derive(Drop)]
pub(crate) struct Shapes {
    entries: Vec<Entry>,
}

impl Model for Shapes {
    ghost use Rattle.std.specs.Prelude.{List};
    ghost use Rattle.rng_simplify.specs.declared.shape.Shape.{Shape};
    ghost use Rattle.rng_simplify.specs.Shown.{shapes_of, AreSized};

    ghost Value = { List Shape };

    ghost view = { λ s. shapes_of s.entries.items };

    ghost invariant = { λ s. AreSized s.entries.items };
}

/// The size of a form without parts.
fn single(values: Option<u64>) -> Size
    ensures { result ≡ size_alone values }
{
    Size {
        nodes: 1,
        depth: 1,
        values,
    }
}

/// The size of a form with one part, which is no choice.
fn around(part: Size) -> Size
    ensures { result ≡ size_around part }
{
    Size {
        nodes: part.nodes.saturating_add(1),
        depth: part.depth.saturating_add(1),
        values: None,
    }
}

/// How many values a form with two parts has.
fn values_of(sign: Sign, first: Option<u64>, second: Option<u64>) -> Option<u64>
    ensures { result ≡ values_beside sign first second }
{
    match sign {
        Sign::Choice => match first {
            Some(first) => match second {
                Some(second) => Some(first.saturating_add(second)),
                None => None,
            },
            None => None,
        },
        Sign::Group => None,
        Sign::Interleave => None,
    }
}

/// The size of a form with two parts.
fn beside(sign: Sign, first: Size, second: Size) -> Size
    ensures { result ≡ size_beside sign first second }
{
    Size {
        nodes: first.nodes.saturating_add(second.nodes).saturating_add(1),
        depth: first.depth.max(second.depth).saturating_add(1),
        values: values_of(sign, first.values, second.values),
    }
}

/// What a form of this shape counts for.
fn head_of(shape: Shape) -> Head
    ensures { result ≡ head_by shape }
{
    match shape {
        Shape::NotAllowed => Head::NotAllowed,
        Shape::Empty => Head::Empty,
        Shape::Text => Head::Other,
        Shape::Value(_) => Head::Other,
        Shape::Typed(_) => Head::Other,
        Shape::Ref(_) => Head::Other,
        Shape::List(_) => Head::Other,
        Shape::Attribute(_, _) => Head::Other,
        Shape::OneOrMore(_) => Head::Other,
        Shape::Joined(_, _, _) => Head::Other,
    }
}

impl Shapes {
    pub(crate) fn new(alloc: Global) -> Shapes
        ensures { result ≡ [] }
    {
        Shapes {
            entries: Vec::new(alloc),
        }
    }

    /// How many shapes there are.
    pub(crate) fn len(&self) -> usize
        ensures { result ≡ length self.now }
    {
        self.entries.len()
    }

    /// The shape of a number.
    pub(crate) fn shape(&self, number: ShapeNumber) -> Shape
        requires { number < length self.now }
        ensures there { slice_get self.now number ≡ Some result }
        ensures behind { IsBehindParts number result }
    {
        self.entries[number.0].shape
    }

    /// Its size.
    pub(crate) fn size(&self, number: ShapeNumber) -> Size
        requires { number < length self.now }
        ensures { IsSizeAt self.now number result }
    {
        self.entries[number.0].size
    }

    /// The size of a form of this shape.
    fn size_of(&self, shape: Shape) -> Size
        requires { IsBehindParts (length self.now) shape }
        ensures { IsSizeOf self.now shape result }
    {
        match shape {
            Shape::NotAllowed => single(Some(0)),
            Shape::Empty => single(None),
            Shape::Text => single(None),
            Shape::Value(_) => single(Some(1)),
            Shape::Typed(_) => single(None),
            Shape::Ref(_) => single(None),
            Shape::List(part) => around(self.size(part)),
            Shape::Attribute(_, part) => around(self.size(part)),
            Shape::OneOrMore(part) => around(self.size(part)),
            Shape::Joined(sign, first, second) => {
                beside(sign, self.size(first), self.size(second))
            }
        }
    }

    /// A further shape, by its number.
    pub(crate) fn add(&mut self, shape: Shape) -> Result<ShapeNumber, SchemaFault>
        requires { IsBehindParts (length self.old) shape }
        ensures { Adds self.old self.new shape result }
    {
        let number = ShapeNumber(self.entries.len());
        let measured = shape;
        let size = self.size_of(measured);
        self.entries.push(Entry { shape, size })?;
        Ok(number)
    }

    /// What a form counts for in others.
    fn head(&self, number: ShapeNumber) -> Head
        requires { number < length self.now }
        ensures { IsHeadAt self.now number result }
    {
        head_of(self.shape(number))
    }

    /// Words of this form.
    pub(crate) fn list(&mut self, part: ShapeNumber) -> Result<ShapeNumber, SchemaFault>
        requires { part < length self.old }
        ensures { Shows self.old self.new variant.Empty (λ cells at. list_of (at part)) result }
    {
        match self.head(part) {
            Head::NotAllowed => Ok(part),
            Head::Empty => self.add(Shape::List(part)),
            Head::Other => self.add(Shape::List(part)),
        }
    }

    /// An attribute with the class of the node and this value.
    pub(crate) fn attribute(
        &mut self,
        node: NodeNumber,
        part: ShapeNumber,
    ) -> Result<ShapeNumber, SchemaFault>
        requires { part < length self.old }
        ensures { Shows self.old self.new (variant.Attribute node part)
            (λ cells at. attribute_of (class_in (slice_get cells node)) (at part)) result }
    {
        match self.head(part) {
            Head::NotAllowed => Ok(part),
            Head::Empty => self.add(Shape::Attribute(node, part)),
            Head::Other => self.add(Shape::Attribute(node, part)),
        }
    }

    /// One or more of this form.
    pub(crate) fn one_or_more(&mut self, part: ShapeNumber) -> Result<ShapeNumber, SchemaFault>
        requires { part < length self.old }
        ensures { Shows self.old self.new variant.Empty (λ cells at. one_or_more_of (at part)) result }
    {
        match self.head(part) {
            Head::NotAllowed => Ok(part),
            Head::Empty => Ok(part),
            Head::Other => self.add(Shape::OneOrMore(part)),
        }
    }

    /// The two joined.
    pub(crate) fn joined(
        &mut self,
        sign: Sign,
        first: ShapeNumber,
        second: ShapeNumber,
    ) -> Result<ShapeNumber, SchemaFault>
        requires one { first < length self.old }
        requires other { second < length self.old }
        ensures { Shows self.old self.new variant.Empty (λ cells at. joined_of sign (at first) (at second)) result }
    {
        match sign {
            Sign::Choice => self.choice(first, second),
            Sign::Group => self.both(sign, first, second),
            Sign::Interleave => self.both(sign, first, second),
        }
    }

    /// Either of the two.
    fn choice(
        &mut self,
        first: ShapeNumber,
        second: ShapeNumber,
    ) -> Result<ShapeNumber, SchemaFault>
        requires one { first < length self.old }
        requires other { second < length self.old }
        ensures { Shows self.old self.new variant.Empty (λ cells at. joined_of signs.Choice (at first) (at second)) result }
    {
        match self.head(first) {
            Head::NotAllowed => Ok(second),
            Head::Empty => match self.head(second) {
                Head::NotAllowed => Ok(first),
                Head::Empty => Ok(first),
                Head::Other => self.add(Shape::Joined(Sign::Choice, first, second)),
            },
            Head::Other => match self.head(second) {
                Head::NotAllowed => Ok(first),
                Head::Empty => self.add(Shape::Joined(Sign::Choice, second, first)),
                Head::Other => self.add(Shape::Joined(Sign::Choice, first, second)),
            },
        }
    }

    /// The two of them, by a sign that is no choice.
    fn both(
        &mut self,
        sign: Sign,
        first: ShapeNumber,
        second: ShapeNumber,
    ) -> Result<ShapeNumber, SchemaFault>
        requires no_choice { sign ≢ signs.Choice }
        requires one { first < length self.old }
        requires other { second < length self.old }
        ensures { Shows self.old self.new variant.Empty (λ cells at. joined_of sign (at first) (at second)) result }
    {
        match self.head(first) {
            Head::NotAllowed => Ok(first),
            Head::Empty => Ok(second),
            Head::Other => match self.head(second) {
                Head::NotAllowed => Ok(second),
                Head::Empty => Ok(first),
                Head::Other => self.add(Shape::Joined(sign, first, second)),
            },
        }
    }
}
