//! States by their numbers, and what they are made of.

ghost use Rattle.std.specs.Prelude.{◌≡◌, ◌<◌, ◌++◌, [], ◌∷◌, length, map, IfOk, OnOk, IsTrue, Contains};
ghost use Rattle.nx_base.specs.declared.name.Name.{Name as TheName};
ghost use Rattle.rng_core.specs.Meaning.{definition_of, pattern_of};
ghost use Rattle.rng_core.specs.Equality.{same_pattern};
ghost use Rattle.rng_core.specs.Patterns.{not_allowed, ref};
ghost use Rattle.rng_kept.specs.SmallPatterns as small;
ghost use Rattle.rng_kept.specs.Nullable.{nullable as is_nullable};
ghost use Rattle.rng_kept.specs.Strings as strings;
ghost use Rattle.rng_kept.specs.SolidStrings as solid;
ghost use Rattle.rng_kept.specs.Attributes as attributes;
ghost use Rattle.rng_kept.specs.Openings as openings;
ghost use Rattle.rng_kept.specs.Skipping as skipping;
ghost use Rattle.rng_kept.specs.Entering as entering;
ghost use Rattle.rng_kept.specs.Merging as merging;
ghost use Rattle.rng_kept.specs.Needed as needed;
ghost use Rattle.rng_kept.specs.Required as required;
ghost use Rattle.rng_kept.specs.Residuals as residual;
ghost use Rattle.deriv_pattern.specs.Leaves.{ContentsAreInOrder, IsInOrder};
ghost use Rattle.deriv_nodes.specs.Numbers.{at, IsAt};
ghost use Rattle.deriv_nodes.specs.Opened.{openings_at, AreNodes, AreOpened};
ghost use Rattle.deriv_nodes.specs.Telling as telling;
ghost use Rattle.deriv_states.specs.Parts.{outer_made, state_made, IsAroundBelow, IsRowBelow};
ghost use Rattle.deriv_states.specs.Places.{AreContents, IsOuter, IsState, IsThere, LaterPlaces, outer_in, state_in, way_in};
ghost use Rattle.deriv_states.specs.Tables.{AreApart};

use crate::around::{Around, keep_around};
use crate::branch::{Branch, Row, keep_row};
use deriv_nodes::nodes::Nodes;
use deriv_nodes::openings::Open;
use indexmap::IndexSet;
use nx_base::memory::NoMemory;
use nx_base::name::{Name, Names};
use rng_core::grammar::{Def, Pat};
use std::alloc::Global;
use std::marker::Model;

/// States, what lies around elements, and nodes: each is kept once, and none is taken out; and the numbers of the contents of
/// definitions. To a contract they are the residuals, the outers, the patterns and the contents, by their numbers.
#[derive(Drop)]
pub struct States {
    nodes: Nodes,
    arounds: IndexSet<Around>,
    rows: IndexSet<Row>,
    contents: Vec<usize>,
}

impl Model for States {
    ghost use Rattle.deriv_states.specs.Codes.{places_code};
    ghost use Rattle.deriv_states.specs.Parts.{places_of, AreTables};
    ghost use Rattle.deriv_states.specs.Places.{Places};

    ghost Value = { Places };

    ghost coded = { places_code };

    ghost view = { λ s. places_of s.nodes s.arounds.keys s.rows.keys s.contents.items };

    ghost invariant = { λ s. AreTables s.nodes s.arounds.keys s.rows.keys s.contents.items };
}

impl States {
    /// Nothing kept.
    #[tactic(auto, unfolding(crate::specs::Tables::wholes_of))]
    fn nothing(alloc: Global) -> States
        ensures { result.contents ≡ [] }
    {
        States {
            nodes: Nodes::new(alloc),
            arounds: IndexSet::new(alloc),
            rows: IndexSet::new(alloc),
            contents: Vec::new(alloc),
        }
    }

    /// With the content of one definition more.
    fn add_content(&mut self, alloc: Global, content: &Pat) -> Result<(), NoMemory>
        requires { IsInOrder (pattern_of content.now) }
        ensures { OnOk result (self.new.contents ≡ self.old.contents ++ pattern_of content.now ∷ []) }
    {
        let number = self.nodes.imported(alloc, content)?;
        self.contents.push(number)?;
        Ok(())
    }

    /// The states of a schema with these definitions, of which there are none yet.
    pub fn new(alloc: Global, defs: &[Def]) -> Result<States, NoMemory>
        requires { ContentsAreInOrder (map definition_of defs.now) }
        ensures { IfOk result (λ made. AreContents made (map definition_of defs.now)) }
    {
        let mut states = States::nothing(alloc);
        let mut left = defs;
        while let Some((def, rest)) = left.split_first() {
            states.add_content(alloc, &def.content)?;
            left = rest;
        }
        Ok(states)
    }

    /// The number of a reference.
    pub fn reference(&mut self, number: u32) -> Result<usize, NoMemory>
        ensures later { LaterPlaces self.old self.new }
        ensures made { IfOk result (IsAt self.new.patterns (ref number)) }
    {
        self.nodes.reference(number)
    }

    /// A choice with the sides of a second pattern, those alone that it doesn't have.
    pub fn choice_of(&mut self, p: usize, q: usize) -> Result<usize, NoMemory>
        requires p { p < length self.old.patterns }
        requires q { q < length self.old.patterns }
        ensures later { LaterPlaces self.old self.new }
        ensures made { IfOk result (IsAt self.new.patterns (small.choice_of (at self.old.patterns p) (at self.old.patterns q))) }
    {
        self.nodes.choice_of(p, q)
    }

    /// Behind a string.
    pub(crate) fn after(&mut self, alloc: Global, p: usize, text: &str) -> Result<usize, NoMemory>
        requires { p < length self.old.patterns }
        ensures later { LaterPlaces self.old self.new }
        ensures made { IfOk result (IsAt self.new.patterns (strings.after text.now (at self.old.patterns p))) }
    {
        self.nodes.after(alloc, p, text)
    }

    /// Behind some string that isn't blank.
    pub(crate) fn after_solid(&mut self, alloc: Global, p: usize) -> Result<usize, NoMemory>
        requires { p < length self.old.patterns }
        ensures later { LaterPlaces self.old self.new }
        ensures made { IfOk result (IsAt self.new.patterns (solid.after_solid (at self.old.patterns p))) }
    {
        self.nodes.after_solid(alloc, p)
    }

    /// Without the leaves that take no strings but blank ones.
    pub(crate) fn loosen(&mut self, alloc: Global, p: usize) -> Result<usize, NoMemory>
        requires { p < length self.old.patterns }
        ensures later { LaterPlaces self.old self.new }
        ensures made { IfOk result (IsAt self.new.patterns (solid.loosen (at self.old.patterns p))) }
    {
        self.nodes.loosen(alloc, p)
    }

    /// Behind an attribute.
    pub(crate) fn after_attribute(
        &mut self,
        alloc: Global,
        p: usize,
        name: &Name,
        value: &str,
    ) -> Result<usize, NoMemory>
        requires { p < length self.old.patterns }
        ensures later { LaterPlaces self.old self.new }
        ensures made { IfOk result (IsAt self.new.patterns (attributes.after_attribute name.now value.now (at self.old.patterns p))) }
    {
        self.nodes.after_attribute(alloc, p, name, value)
    }

    /// Behind an attribute of the name, whatever its value.
    pub(crate) fn after_any_attribute(
        &mut self,
        alloc: Global,
        p: usize,
        name: &Name,
    ) -> Result<usize, NoMemory>
        requires { p < length self.old.patterns }
        ensures later { LaterPlaces self.old self.new }
        ensures made { IfOk result (IsAt self.new.patterns (attributes.after_any_attribute name.now (at self.old.patterns p))) }
    {
        self.nodes.after_any_attribute(alloc, p, name)
    }

    /// Where no attribute comes any more.
    pub(crate) fn close(&mut self, p: usize) -> Result<usize, NoMemory>
        requires { p < length self.old.patterns }
        ensures later { LaterPlaces self.old self.new }
        ensures made { IfOk result (IsAt self.new.patterns (attributes.close (at self.old.patterns p))) }
    {
        self.nodes.close(p)
    }

    /// Where attributes that don't come are passed over.
    pub(crate) fn drop_attributes(&mut self, p: usize) -> Result<usize, NoMemory>
        requires { p < length self.old.patterns }
        ensures later { LaterPlaces self.old self.new }
        ensures made { IfOk result (IsAt self.new.patterns (attributes.drop (at self.old.patterns p))) }
    {
        self.nodes.drop_attributes(p)
    }

    /// The number of the pattern that nothing matches.
    pub fn not_allowed(&mut self) -> Result<usize, NoMemory>
        ensures later { LaterPlaces self.old self.new }
        ensures made { IfOk result (IsAt self.new.patterns (not_allowed)) }
    {
        self.nodes.not_allowed()
    }

    /// The number of a pattern's node.
    pub fn imported(&mut self, alloc: Global, pattern: &Pat) -> Result<usize, NoMemory>
        requires { IsInOrder (pattern_of pattern.now) }
        ensures later { LaterPlaces self.old self.new }
        ensures made { IfOk result (IsAt self.new.patterns (pattern_of pattern.now)) }
    {
        self.nodes.imported(alloc, pattern)
    }

    /// The definitions that a name opens, each number once.
    pub(crate) fn opens(
        &mut self,
        alloc: Global,
        defs: &[Def],
        name: &Name,
        p: usize,
    ) -> Result<Vec<Open>, NoMemory>
        requires { p < length self.old.patterns }
        ensures later { LaterPlaces self.old self.new }
        ensures made { IfOk result (λ made. AreOpened self.new.patterns
            (openings.opens (map definition_of defs.now) name.now (at self.old.patterns p)) made.items) }
    {
        self.nodes.opens(alloc, defs, name, p)
    }

    /// The definitions that a name opens behind any children that are left out, each number once.
    pub(crate) fn skip_opens(
        &mut self,
        alloc: Global,
        defs: &[Def],
        name: &Name,
        p: usize,
    ) -> Result<Vec<Open>, NoMemory>
        requires { p < length self.old.patterns }
        ensures later { LaterPlaces self.old self.new }
        ensures made { IfOk result (λ made. AreOpened self.new.patterns
            (skipping.skip_opens (map definition_of defs.now) name.now (at self.old.patterns p)) made.items) }
    {
        self.nodes.skip_opens(alloc, defs, name, p)
    }

    /// What is left by the opening of a number; notAllowed where there is none.
    pub(crate) fn rest_at(&mut self, number: u32, opened: &[Open]) -> Result<usize, NoMemory>
        requires { AreNodes self.old.patterns opened.now }
        ensures later { LaterPlaces self.old self.new }
        ensures made { IfOk result (IsAt self.new.patterns (entering.rest_at number (openings_at self.old.patterns opened.now))) }
    {
        self.nodes.rest_at(number, opened)
    }

    /// Whether it is the pattern that nothing matches.
    pub fn is_not_allowed(&self, p: usize) -> bool
        requires { p < length self.now.patterns }
        ensures { result ≡ small.is_not_allowed (at self.now.patterns p) }
    {
        self.nodes.is_not_allowed(p)
    }

    /// Whether the text of a string can matter to the pattern, beside whether it is blank.
    pub(crate) fn node_tells(&self, p: usize) -> bool
        requires { p < length self.now.patterns }
        ensures { result ≡ telling.tells_strings (at self.now.patterns p) }
    {
        self.nodes.tells_strings(p)
    }

    /// Whether that of a value can, of an attribute of the name.
    pub(crate) fn node_tells_values(&self, name: &Name, p: usize) -> bool
        requires { p < length self.now.patterns }
        ensures { result ≡ telling.tells_values name.now (at self.now.patterns p) }
    {
        self.nodes.tells_values(name, p)
    }

    /// Whether no attributes and no children match.
    pub(crate) fn nullable(&self, p: usize) -> bool
        requires { p < length self.now.patterns }
        ensures { result ≡ is_nullable (at self.now.patterns p) }
    {
        self.nodes.nullable(p)
    }

    /// What lies around an element, by its number.
    pub fn around(&self, o: usize) -> Around
        requires { o < length self.now.outers }
        ensures is { outer_in self.now.outers o ≡ outer_made self.now.patterns self.now.outers result }
        ensures parts { IsAroundBelow (length self.now.patterns) o result }
    {
        match self.arounds.get_index(o) {
            Some(around) => *around,
            None => unreachable!(),
        }
    }

    /// The number of what lies around an element.
    fn put_around(&mut self, around: Around) -> Result<usize, NoMemory>
        requires { IsAroundBelow (length self.old.patterns) (length self.old.outers) around }
        ensures later { LaterPlaces self.old self.new }
        ensures made { IfOk result (IsOuter self.new (outer_made self.old.patterns self.old.outers around)) }
    {
        keep_around(&mut self.arounds, around)
    }

    /// Outside of the root.
    pub fn document(&mut self, rest: usize) -> Result<usize, NoMemory>
        requires { rest < length self.old.patterns }
        ensures later { LaterPlaces self.old self.new }
        ensures made { IfOk result (IsOuter self.new (residual.document (at self.old.patterns rest))) }
    {
        self.put_around(Around::Document(rest))
    }

    /// Inside of an element.
    pub(crate) fn inside(
        &mut self,
        strict: usize,
        loose: usize,
        void: bool,
        outer: usize,
    ) -> Result<usize, NoMemory>
        requires strict { strict < length self.old.patterns }
        requires loose { loose < length self.old.patterns }
        requires outer { outer < length self.old.outers }
        ensures later { LaterPlaces self.old self.new }
        ensures made { IfOk result (IsOuter self.new
            (residual.inside (at self.old.patterns strict) (at self.old.patterns loose) void (outer_in self.old.outers outer))) }
    {
        self.put_around(Around::Inside {
            strict,
            loose,
            void,
            outer,
        })
    }

    /// One of two outers.
    pub(crate) fn one_of(&mut self, this: usize, other: usize) -> Result<usize, NoMemory>
        requires this { this < length self.old.outers }
        requires other { other < length self.old.outers }
        ensures later { LaterPlaces self.old self.new }
        ensures made { IfOk result (IsOuter self.new (residual.one_of (outer_in self.old.outers this) (outer_in self.old.outers other))) }
    {
        self.put_around(Around::OneOf(this, other))
    }

    /// Whether two nodes are one.
    pub(crate) fn same_node(&self, p: usize, q: usize) -> bool
        requires p { p < length self.now.patterns }
        requires q { q < length self.now.patterns }
        ensures { result ≡ same_pattern (at self.now.patterns p) (at self.now.patterns q) }
    {
        self.nodes.same(p, q)
    }

    /// Whether two outers are one.
    pub(crate) fn same_outer(&self, o: usize, u: usize) -> bool
        requires o { o < length self.now.outers }
        requires u { u < length self.now.outers }
        ensures { result ≡ merging.same_outer (outer_in self.now.outers o) (outer_in self.now.outers u) }
    {
        self.nodes.no_doubles();
        o == u
    }

    /// The content of a definition; notAllowed where there is none.
    #[tactic(auto, using(crate::proofs::Places::contents_read))]
    pub(crate) fn content(&mut self, number: u32) -> Result<usize, NoMemory>
        ensures later { LaterPlaces self.old self.new }
        ensures made { IfOk result (IsAt self.new.patterns (at self.old.contents number)) }
    {
        match self.contents.as_slice().get(number as usize) {
            Some(content) => Ok(*content),
            None => self.not_allowed(),
        }
    }

    /// Whether each list of attributes that is matched has one of the name.
    pub fn needs(&self, alloc: Global, name: &Name, p: usize) -> Result<bool, NoMemory>
        requires { p < length self.now.patterns }
        ensures { IfOk result (λ found. found ≡ required.needs name.now (at self.now.patterns p)) }
    {
        self.nodes.needs(alloc, name, p)
    }

    /// Names among which are all that the node needs, in no order, some perhaps twice.
    pub fn candidates(&self, alloc: Global, p: usize) -> Result<Names, NoMemory>
        requires { p < length self.now.patterns }
        ensures { IfOk result (λ names. (n : TheName) → IsTrue (required.needs n (at self.now.patterns p)) → Contains names n) }
    {
        self.nodes.candidates(alloc, p)
    }

    /// What all content needs that the node matches; none where it matches none.
    pub fn content_names(
        &self,
        alloc: Global,
        defs: &[Def],
        p: usize,
    ) -> Result<Option<Names>, NoMemory>
        requires { p < length self.now.patterns }
        ensures { IfOk result (λ names. names ≡ needed.content_names (map definition_of defs.now) (at self.now.patterns p)) }
    {
        self.nodes.content_names(alloc, defs, p)
    }

    /// The names of which children that the node matches have an element in front of each element of this name; none where no
    /// element of them can have the name.
    pub fn front_names(
        &self,
        alloc: Global,
        defs: &[Def],
        name: &Name,
        p: usize,
    ) -> Result<Option<Names>, NoMemory>
        requires { p < length self.now.patterns }
        ensures { IfOk result (λ names. names ≡ needed.front_names (map definition_of defs.now) name.now (at self.now.patterns p)) }
    {
        self.nodes.front_names(alloc, defs, name, p)
    }

    /// The ways of a state.
    pub fn row(&self, s: usize) -> Row
        requires { s < length self.now.states }
        ensures is { state_in self.now.states s ≡ state_made self.now.patterns self.now.outers self.now.states result }
        ensures parts { IsRowBelow (length self.now.patterns) (length self.now.outers) s result }
    {
        match self.rows.get_index(s) {
            Some(row) => *row,
            None => unreachable!(),
        }
    }

    /// The number of the state of these ways.
    fn put_row(&mut self, row: Row) -> Result<usize, NoMemory>
        requires { IsRowBelow (length self.old.patterns) (length self.old.outers) (length self.old.states) row }
        ensures later { LaterPlaces self.old self.new }
        ensures made { IfOk result (IsState self.new (state_made self.old.patterns self.old.outers self.old.states row)) }
    {
        keep_row(&mut self.rows, row)
    }

    /// The state of no way.
    pub fn end(&mut self) -> Result<usize, NoMemory>
        ensures later { LaterPlaces self.old self.new }
        ensures made { IfOk result (IsState self.new []) }
    {
        self.put_row(Row::End)
    }

    /// The state of one way before those of another state.
    pub(crate) fn with_first(&mut self, one: Branch, more: usize) -> Result<usize, NoMemory>
        requires one { IsThere self.old one }
        requires more { more < length self.old.states }
        ensures later { LaterPlaces self.old self.new }
        ensures made { IfOk result (IsState self.new (way_in self.old one ∷ state_in self.old.states more)) }
    {
        self.put_row(Row::Way(one, more))
    }

    /// The state of one way.
    pub fn just(&mut self, one: Branch) -> Result<usize, NoMemory>
        requires { IsThere self.old one }
        ensures later { LaterPlaces self.old self.new }
        ensures made { IfOk result (IsState self.new (way_in self.old one ∷ [])) }
    {
        let end = self.end()?;
        self.with_first(one, end)
    }

    /// No two nodes stand for the same pattern, no two outers are the same, and no two states mean the same. Nothing here runs.
    pub fn no_doubles(&self)
        ensures patterns { AreApart not_allowed self.now.patterns }
        ensures outers { AreApart (residual.document not_allowed) self.now.outers }
        ensures states { AreApart [] self.now.states }
    {
        self.nodes.no_doubles();
    }
}
