//! What an element's name opens: the definitions whose elements may begin here, with what is left behind the element.

ghost use Rattle.std.specs.Prelude.{◌≡◌, List, [], ◌∷◌, ◌==◌, ◌<◌, ◌≤◌, length, IfOk, IfSome, map, filter, slice_get};
ghost use Rattle.std.specs.List.{list_any, position_or_len};
ghost use Rattle.rng_core.specs.Meaning.{definition_of};
ghost use Rattle.rng_core.specs.Patterns.{Pattern, empty};
ghost use Rattle.rng_kept.specs.SmallPatterns.{star as star_of};
ghost use Rattle.rng_kept.specs.Openings as s;
ghost use Rattle.rng_kept.specs.Entering as entering;
ghost use Rattle.deriv_nodes.specs.Kept.{IsKept};
ghost use Rattle.deriv_nodes.specs.Numbers.{at, Later, IsAt};
ghost use Rattle.deriv_nodes.specs.Opened.{openings_at, AreNodes, AreOpened, rest_of, placed};
ghost use Rattle.deriv_nodes.specs.Wanted.{is_named, opens_by, reference_opens};

use crate::node::Node;
use crate::nodes::Nodes;
use nx_base::memory::NoMemory;
use nx_base::name::Name;
use rng_core::grammar::Def;
use std::alloc::Global;

/// A definition whose element may begin here.
#[derive(Clone, Copy)]
pub struct Open {
    /// The number of the definition.
    pub number: u32,
    /// The number of what is left behind its element.
    pub rest: usize,
}

/// Where an element stands that begins a part of a whole.
#[derive(Clone, Copy)]
pub enum Place {
    /// In the first side of a group.
    InGroup,
    /// In the first side of an interleave.
    InFirst,
    /// In the second one.
    InSecond,
}

/// Which openings are asked for.
#[derive(Clone, Copy)]
pub enum Wanted<'a> {
    /// Those of all definitions.
    Any,
    /// Those of the definitions that have the name.
    Named(&'a [Def], &'a Name),
}

/// How many groups and repetitions may lie around an opening that is kept, as in `(a | b)*, c*`.
const MOST_AROUND: usize = 4;

/// The place of the opening of a number, or how many openings there are.
fn place_of(number: u32, opened: &[Open]) -> usize
    ensures place { result ≡ position_or_len (λ one. number == one.number) opened.now }
    ensures within { result ≤ length opened.now }
{
    opened.iter().take_while(|one| number != one.number).count()
}

/// Whether one of the openings has the number.
fn some_has(number: u32, opened: &[Open]) -> bool
    ensures { result ≡ list_any (λ one. number == one.number) opened.now }
{
    opened.iter().any(|one| number == one.number)
}

/// Whether there is a definition of the number, and it has the name.
fn is_named(defs: &[Def], name: &Name, number: u32) -> bool
    ensures { result ≡ is_named (map definition_of defs.now) name.now number }
{
    match defs.get(number as usize) {
        Some(def) => def.class.has(name),
        None => false,
    }
}

/// Those of the openings whose definitions have the name.
fn named(alloc: Global, defs: &[Def], name: &Name, opened: &[Open]) -> Result<Vec<Open>, NoMemory>
    ensures { IfOk result (λ made. made.items ≡ filter (λ one. is_named (map definition_of defs.now) name.now one.number) opened.now) }
{
    let mut made = Vec::new(alloc);
    let mut left = opened;
    while let Some((one, rest)) = left.split_first() {
        if is_named(defs, name, one.number) {
            made.push(*one)?;
        }
        left = rest;
    }
    Ok(made)
}

impl Nodes {
    /// The openings with one more; of each number there is one, with the rests of all.
    fn added(&mut self, opened: Vec<Open>, more: Open) -> Result<Vec<Open>, NoMemory>
        requires opened { AreNodes self.old opened.items }
        requires more { more.rest < length self.old }
        ensures later { Later self.old self.new }
        ensures made { IfOk result (λ made. AreOpened self.new
            (s.added more.number (at self.old more.rest) (openings_at self.old opened.items)) made.items) }
    {
        let mut opened = opened;
        let place = place_of(more.number, opened.as_slice());
        if place == opened.len() {
            opened.push(more)?;
            return Ok(opened);
        }
        let one = opened[place];
        let rest = self.choice_of(one.rest, more.rest)?;
        opened[place] = Open {
            number: one.number,
            rest,
        };
        Ok(opened)
    }

    /// The openings with those of another list.
    fn joined(&mut self, opened: Vec<Open>, more: &[Open]) -> Result<Vec<Open>, NoMemory>
        requires opened { AreNodes self.old opened.items }
        requires more { AreNodes self.old more.now }
        ensures later { Later self.old self.new }
        ensures made { IfOk result (λ made. AreOpened self.new
            (s.joined (openings_at self.old opened.items) (openings_at self.old more.now)) made.items) }
    {
        let mut opened = opened;
        let mut left = more;
        while let Some((one, rest)) = left.split_first() {
            opened = self.added(opened, *one)?;
            left = rest;
        }
        Ok(opened)
    }

    /// What is left of a whole, where this is left of the part, and the other side of the whole is this.
    fn placed_rest(&mut self, place: Place, rest: usize, side: usize) -> Result<usize, NoMemory>
        requires rest { rest < length self.old }
        requires side { side < length self.old }
        ensures later { Later self.old self.new }
        ensures made { IfOk result (IsAt self.new (rest_of place (at self.old side) (at self.old rest))) }
    {
        match place {
            Place::InGroup => self.group_of(rest, side),
            Place::InFirst => self.interleave_of(rest, side),
            Place::InSecond => self.interleave_of(side, rest),
        }
    }

    /// The openings of a part as those of the whole, of which this is the other side.
    pub(crate) fn all_placed(
        &mut self,
        alloc: Global,
        place: Place,
        opened: &[Open],
        side: usize,
    ) -> Result<Vec<Open>, NoMemory>
        requires opened { AreNodes self.old opened.now }
        requires side { side < length self.old }
        ensures later { Later self.old self.new }
        ensures made { IfOk result (λ made. AreOpened self.new
            (map (placed place (at self.old side)) (openings_at self.old opened.now)) made.items) }
    {
        let mut made = Vec::new(alloc);
        let mut left = opened;
        while let Some((one, rest)) = left.split_first() {
            let number = one.number;
            let rest_placed = self.placed_rest(place, one.rest, side)?;
            made.push(Open {
                number,
                rest: rest_placed,
            })?;
            left = rest;
        }
        Ok(made)
    }

    /// The opening of a definition, where it has the name.
    pub(crate) fn definition_opens(
        &mut self,
        alloc: Global,
        defs: &[Def],
        name: &Name,
        number: u32,
    ) -> Result<Vec<Open>, NoMemory>
        ensures later { Later self.old self.new }
        ensures made { IfOk result (λ made. AreOpened self.new
            (s.open_definition (slice_get (map definition_of defs.now) number) name.now number) made.items) }
    {
        let mut made = Vec::new(alloc);
        match defs.get(number as usize) {
            Some(def) => {
                if def.class.has(name) {
                    let rest = self.empty()?;
                    made.push(Open { number, rest })?;
                }
                Ok(made)
            }
            None => Ok(made),
        }
    }

    /// The openings of a repetition, of which these are those of a part.
    pub(crate) fn of_many(
        &mut self,
        alloc: Global,
        opened: &[Open],
        body: usize,
    ) -> Result<Vec<Open>, NoMemory>
        requires opened { AreNodes self.old opened.now }
        requires body { body < length self.old }
        ensures later { Later self.old self.new }
        ensures made { IfOk result (λ made. AreOpened self.new
            (map (s.then_group (star_of (at self.old body))) (openings_at self.old opened.now)) made.items) }
    {
        let more = self.star(body)?;
        self.all_placed(alloc, Place::InGroup, opened, more)
    }

    /// The openings of an interleave, of which these are those of the sides.
    pub(crate) fn of_interleave(
        &mut self,
        alloc: Global,
        first: &[Open],
        a: usize,
        b: usize,
        second: &[Open],
    ) -> Result<Vec<Open>, NoMemory>
        requires first { AreNodes self.old first.now }
        requires a { a < length self.old }
        requires b { b < length self.old }
        requires second { AreNodes self.old second.now }
        ensures later { Later self.old self.new }
        ensures made { IfOk result (λ made. AreOpened self.new (s.joined
            (map (s.then_interleave (at self.old b)) (openings_at self.old first.now))
            (map (s.under_interleave (at self.old a)) (openings_at self.old second.now))) made.items) }
    {
        let first = self.all_placed(alloc, Place::InFirst, first, b)?;
        let second = self.all_placed(alloc, Place::InSecond, second, a)?;
        self.joined(first, second.as_slice())
    }

    /// The openings of both sides of a choice.
    pub(crate) fn of_choice(
        &mut self,
        first: Vec<Open>,
        second: Vec<Open>,
    ) -> Result<Vec<Open>, NoMemory>
        requires first { AreNodes self.old first.items }
        requires second { AreNodes self.old second.items }
        ensures later { Later self.old self.new }
        ensures made { IfOk result (λ made. AreOpened self.new
            (s.joined (openings_at self.old first.items) (openings_at self.old second.items)) made.items) }
    {
        self.joined(first, second.as_slice())
    }

    /// The opening of a definition, whatever its names.
    fn sole_opening(&mut self, alloc: Global, number: u32) -> Result<Vec<Open>, NoMemory>
        ensures later { Later self.old self.new }
        ensures made { IfOk result (λ made. AreOpened self.new (s.opening number empty ∷ []) made.items) }
    {
        let mut made = Vec::new(alloc);
        let rest = self.empty()?;
        made.push(Open { number, rest })?;
        Ok(made)
    }

    /// What a reference opens.
    fn reference_opens(
        &mut self,
        alloc: Global,
        wanted: Wanted<'_>,
        number: u32,
    ) -> Result<Vec<Open>, NoMemory>
        ensures later { Later self.old self.new }
        ensures made { IfOk result (λ made. AreOpened self.new (reference_opens wanted.entry number) made.items) }
    {
        match wanted {
            Wanted::Any => self.sole_opening(alloc, number),
            Wanted::Named(defs, name) => self.definition_opens(alloc, defs, name, number),
        }
    }

    /// The openings that are asked for, each number once.
    fn opened(&mut self, alloc: Global, wanted: Wanted<'_>, p: usize) -> Result<Vec<Open>, NoMemory>
        requires { p < length self.old }
        ensures later { Later self.old self.new }
        ensures made { IfOk result (λ made. AreOpened self.new
            (opens_by (reference_opens wanted.entry) (at self.old p)) made.items) }
    {
        match self.node(p) {
            Node::NotAllowed => Ok(Vec::new(alloc)),
            Node::Empty => Ok(Vec::new(alloc)),
            Node::Text => Ok(Vec::new(alloc)),
            Node::Typed(_, _) => Ok(Vec::new(alloc)),
            Node::Value(_, _) => Ok(Vec::new(alloc)),
            Node::List(_) => Ok(Vec::new(alloc)),
            Node::Attribute(_, _) => Ok(Vec::new(alloc)),
            Node::Ref(number) => self.reference_opens(alloc, wanted, number),
            Node::OneOrMore(body) => {
                let opened = self.opened(alloc, wanted, body)?;
                self.of_many(alloc, opened.as_slice(), body)
            }
            Node::Choice(a, b) => {
                let first = self.opened(alloc, wanted, a)?;
                let second = self.opened(alloc, wanted, b)?;
                self.of_choice(first, second)
            }
            Node::Group(a, b) => {
                let first = self.opened(alloc, wanted, a)?;
                let first = self.all_placed(alloc, Place::InGroup, first.as_slice(), b)?;
                if !self.nullable(a) {
                    return Ok(first);
                }
                let second = self.opened(alloc, wanted, b)?;
                self.of_choice(first, second)
            }
            Node::Interleave(a, b) => {
                let first = self.opened(alloc, wanted, a)?;
                let second = self.opened(alloc, wanted, b)?;
                self.of_interleave(alloc, first.as_slice(), a, b, second.as_slice())
            }
        }
    }

    /// Whether the openings of a node leave few wholes: none stands in an interleave, and none in more than a few groups and
    /// repetitions, this many of which lie around it. Else each opening would make many nodes of its own.
    fn leave_few(&self, p: usize, around: usize) -> bool
        requires { p < length self.now }
    {
        match self.node(p) {
            Node::Interleave(_, _) => false,
            Node::OneOrMore(body) => around < MOST_AROUND && self.leave_few(body, around + 1),
            Node::Choice(a, b) => self.leave_few(a, around) && self.leave_few(b, around),
            Node::Group(a, b) => {
                around < MOST_AROUND
                    && self.leave_few(a, around + 1)
                    && (!self.nullable(a) || self.leave_few(b, around))
            }
            Node::NotAllowed => true,
            Node::Empty => true,
            Node::Text => true,
            Node::Typed(_, _) => true,
            Node::Value(_, _) => true,
            Node::List(_) => true,
            Node::Attribute(_, _) => true,
            Node::Ref(_) => true,
        }
    }

    /// The openings of a node by whatever name, if they are kept.
    fn kept_openings(&self, p: usize) -> Option<&[Open]>
        ensures { IfSome result (λ opened. IsKept self.now p opened.now) }
    {
        self.kept.of(p)
    }

    /// Whether those of a node are to be kept: there is room, and they leave few nodes.
    fn are_to_be_kept(&mut self, p: usize) -> bool
        requires { p < length self.old }
        ensures { self.new ≡ self.old }
    {
        if self.kept.are_many() || self.kept.is_passed_over(p) {
            return false;
        }
        if self.leave_few(p, 0) {
            return true;
        }
        self.kept.pass_over(p);
        false
    }

    /// The definitions that a name opens, each number once. What opens by whatever name is kept: states differ by what lies around
    /// them, and many of them ask the same node.
    pub fn opens(
        &mut self,
        alloc: Global,
        defs: &[Def],
        name: &Name,
        p: usize,
    ) -> Result<Vec<Open>, NoMemory>
        requires { p < length self.old }
        ensures later { Later self.old self.new }
        ensures made { IfOk result (λ made. AreOpened self.new
            (s.opens (map definition_of defs.now) name.now (at self.old p)) made.items) }
    {
        if let Some(opened) = self.kept_openings(p) {
            return named(alloc, defs, name, opened);
        }
        if !self.are_to_be_kept(p) {
            return self.opened(alloc, Wanted::Named(defs, name), p);
        }
        let opened = self.opened(alloc, Wanted::Any, p)?;
        let found = named(alloc, defs, name, opened.as_slice())?;
        self.kept.keep(p, opened)?;
        Ok(found)
    }

    /// What is left by the opening of a number; notAllowed where there is none.
    pub fn rest_at(&mut self, number: u32, opened: &[Open]) -> Result<usize, NoMemory>
        requires { AreNodes self.old opened.now }
        ensures later { Later self.old self.new }
        ensures made { IfOk result (IsAt self.new (entering.rest_at number (openings_at self.old opened.now))) }
    {
        match opened.split_first() {
            None => self.not_allowed(),
            Some((one, rest)) => {
                let left = self.rest_at(number, rest)?;
                if number != one.number {
                    return Ok(left);
                }
                self.choice_of(one.rest, left)
            }
        }
    }
}

/// Whether there is an opening of the number.
pub fn has_number(number: u32, opened: &[Open]) -> bool
    ensures { (nodes : List Pattern) → result ≡ entering.has_number number (openings_at nodes opened.now) }
{
    some_has(number, opened)
}
