//! Ways to go on behind an element's name, and behind children that are left out and an element's name.

ghost use Rattle.std.specs.Prelude.{◌≡◌, ◌<◌, ◌++◌, length, map, IfOk, false};
ghost use Rattle.rng_core.specs.Meaning.{definition_of};
ghost use Rattle.rng_kept.specs.Entering as entering;
ghost use Rattle.deriv_nodes.specs.Numbers.{at};
ghost use Rattle.deriv_nodes.specs.Opened.{opening_at, openings_at, AreNodes};
ghost use Rattle.deriv_states.specs.Places.{AreContents, IsState, IsThere, IsWay, LaterPlaces, outer_in, state_in, way_in};

use crate::around::Around;
use crate::branch::Branch;
use crate::states::States;
use deriv_nodes::openings::{Open, has_number};
use nx_base::memory::NoMemory;
use nx_base::name::Name;
use rng_core::grammar::Def;
use std::alloc::Global;

impl States {
    /// In the start tag of the root.
    #[tactic(auto, using(crate::proofs::Carried::opened))]
    fn tag_at_top(&mut self, defs: &[Def], one: Open) -> Result<Branch, NoMemory>
        requires rest { one.rest < length self.old.patterns }
        requires contents { AreContents self.old (map definition_of defs.now) }
        ensures later { LaterPlaces self.old self.new }
        ensures made { IfOk result (IsWay self.new
            (entering.tag_at_top (map definition_of defs.now) (opening_at self.old.patterns one))) }
    {
        let content = self.content(one.number)?;
        let outer = self.document(one.rest)?;
        Ok(Branch::InTag(content, outer))
    }

    /// In the start tag of an element that opens among children as they stand, and perhaps without blank strings, too.
    #[tactic(auto, using(crate::proofs::Carried::opened))]
    fn tag_of_both(
        &mut self,
        defs: &[Def],
        loose: &[Open],
        outer: usize,
        one: Open,
    ) -> Result<Branch, NoMemory>
        requires rest { one.rest < length self.old.patterns }
        requires loose { AreNodes self.old.patterns loose.now }
        requires outer { outer < length self.old.outers }
        requires contents { AreContents self.old (map definition_of defs.now) }
        ensures later { LaterPlaces self.old self.new }
        ensures made { IfOk result (IsWay self.new (entering.tag_of_both (map definition_of defs.now)
            (openings_at self.old.patterns loose.now) (outer_in self.old.outers outer) (opening_at self.old.patterns one))) }
    {
        let loose = self.rest_at(one.number, loose)?;
        let content = self.content(one.number)?;
        let outer = self.inside(one.rest, loose, false, outer)?;
        Ok(Branch::InTag(content, outer))
    }

    /// In the start tag of an element that opens among children without blank strings alone.
    #[tactic(auto, using(crate::proofs::Carried::opened))]
    fn tag_of_loose(&mut self, defs: &[Def], outer: usize, one: Open) -> Result<Branch, NoMemory>
        requires rest { one.rest < length self.old.patterns }
        requires outer { outer < length self.old.outers }
        requires contents { AreContents self.old (map definition_of defs.now) }
        ensures later { LaterPlaces self.old self.new }
        ensures made { IfOk result (IsWay self.new (entering.tag_of_loose (map definition_of defs.now)
            (outer_in self.old.outers outer) (opening_at self.old.patterns one))) }
    {
        let content = self.content(one.number)?;
        let none = self.not_allowed()?;
        let outer = self.inside(none, one.rest, false, outer)?;
        Ok(Branch::InTag(content, outer))
    }

    /// In the start tags of what opens at the root.
    #[tactic(auto, using(crate::proofs::Carried::opened_ways))]
    fn tags_at_top(&mut self, defs: &[Def], opened: &[Open]) -> Result<usize, NoMemory>
        requires opened { AreNodes self.old.patterns opened.now }
        requires contents { AreContents self.old (map definition_of defs.now) }
        ensures later { LaterPlaces self.old self.new }
        ensures made { IfOk result (IsState self.new
            (map (entering.tag_at_top (map definition_of defs.now)) (openings_at self.old.patterns opened.now))) }
    {
        match opened.split_first() {
            None => self.end(),
            Some((one, rest)) => {
                let more = self.tags_at_top(defs, rest)?;
                let first = self.tag_at_top(defs, *one)?;
                self.with_first(first, more)
            }
        }
    }

    /// In the start tags of what opens among children without blank strings alone.
    #[tactic(auto, using(crate::proofs::Carried::opened))]
    fn tags_of_loose(
        &mut self,
        defs: &[Def],
        strict: &[Open],
        loose: &[Open],
        outer: usize,
    ) -> Result<usize, NoMemory>
        requires strict { AreNodes self.old.patterns strict.now }
        requires loose { AreNodes self.old.patterns loose.now }
        requires outer { outer < length self.old.outers }
        requires contents { AreContents self.old (map definition_of defs.now) }
        ensures later { LaterPlaces self.old self.new }
        ensures made { IfOk result (IsState self.new
            (map (entering.tag_of_loose (map definition_of defs.now) (outer_in self.old.outers outer))
            (entering.others (openings_at self.old.patterns strict.now) (openings_at self.old.patterns loose.now)))) }
    {
        match loose.split_first() {
            None => self.end(),
            Some((one, rest)) => {
                let more = self.tags_of_loose(defs, strict, rest, outer)?;
                if has_number(one.number, strict) {
                    return Ok(more);
                }
                let first = self.tag_of_loose(defs, outer, *one)?;
                self.with_first(first, more)
            }
        }
    }

    /// In the start tags of what opens among children as they stand, before the ways of a state.
    #[tactic(auto, using(crate::proofs::Carried::opened))]
    fn tags_of_both(
        &mut self,
        defs: &[Def],
        strict: &[Open],
        loose: &[Open],
        outer: usize,
        behind: usize,
    ) -> Result<usize, NoMemory>
        requires strict { AreNodes self.old.patterns strict.now }
        requires loose { AreNodes self.old.patterns loose.now }
        requires outer { outer < length self.old.outers }
        requires behind { behind < length self.old.states }
        requires contents { AreContents self.old (map definition_of defs.now) }
        ensures later { LaterPlaces self.old self.new }
        ensures made { IfOk result (IsState self.new
            (map (entering.tag_of_both (map definition_of defs.now) (openings_at self.old.patterns loose.now)
            (outer_in self.old.outers outer)) (openings_at self.old.patterns strict.now) ++ state_in self.old.states behind)) }
    {
        match strict.split_first() {
            None => Ok(behind),
            Some((one, rest)) => {
                let more = self.tags_of_both(defs, rest, loose, outer, behind)?;
                let first = self.tag_of_both(defs, loose, outer, *one)?;
                self.with_first(first, more)
            }
        }
    }

    /// In the start tags of what opens inside of an element.
    #[tactic(auto, using(crate::proofs::Carried::opened))]
    fn tags_inside(
        &mut self,
        defs: &[Def],
        strict: &[Open],
        loose: &[Open],
        outer: usize,
    ) -> Result<usize, NoMemory>
        requires strict { AreNodes self.old.patterns strict.now }
        requires loose { AreNodes self.old.patterns loose.now }
        requires outer { outer < length self.old.outers }
        requires contents { AreContents self.old (map definition_of defs.now) }
        ensures later { LaterPlaces self.old self.new }
        ensures made { IfOk result (IsState self.new
            (map (entering.tag_of_both (map definition_of defs.now) (openings_at self.old.patterns loose.now)
            (outer_in self.old.outers outer)) (openings_at self.old.patterns strict.now)
            ++ map (entering.tag_of_loose (map definition_of defs.now) (outer_in self.old.outers outer))
            (entering.others (openings_at self.old.patterns strict.now) (openings_at self.old.patterns loose.now)))) }
    {
        let behind = self.tags_of_loose(defs, strict, loose, outer)?;
        self.tags_of_both(defs, strict, loose, outer, behind)
    }

    /// Behind an element's name among children.
    #[tactic(auto, using(crate::proofs::Carried::opened))]
    fn entered(
        &mut self,
        alloc: Global,
        here: usize,
        defs: &[Def],
        name: &Name,
    ) -> Result<usize, NoMemory>
        requires here { here < length self.old.outers }
        requires contents { AreContents self.old (map definition_of defs.now) }
        ensures later { LaterPlaces self.old self.new }
        ensures made { IfOk result (IsState self.new
            (entering.enter_outer (map definition_of defs.now) name.now (outer_in self.old.outers here))) }
    {
        match self.around(here) {
            Around::Document(rest) => {
                let opened = self.opens(alloc, defs, name, rest)?;
                self.tags_at_top(defs, opened.as_slice())
            }
            Around::Inside {
                strict,
                loose,
                outer,
                ..
            } => {
                let opened = self.opens(alloc, defs, name, strict)?;
                if strict == loose {
                    return self.tags_inside(defs, opened.as_slice(), opened.as_slice(), outer);
                }
                let more = self.opens(alloc, defs, name, loose)?;
                self.tags_inside(defs, opened.as_slice(), more.as_slice(), outer)
            }
            Around::OneOf(this, other) => {
                let first = self.entered(alloc, this, defs, name)?;
                let second = self.entered(alloc, other, defs, name)?;
                self.with_ways(first, second)
            }
        }
    }

    /// Behind an element's name.
    pub(crate) fn enter_way(
        &mut self,
        alloc: Global,
        way: Branch,
        defs: &[Def],
        name: &Name,
    ) -> Result<usize, NoMemory>
        requires way { IsThere self.old way }
        requires contents { AreContents self.old (map definition_of defs.now) }
        ensures later { LaterPlaces self.old self.new }
        ensures made { IfOk result (IsState self.new
            (entering.enter_way (map definition_of defs.now) name.now (way_in self.old way))) }
    {
        match way {
            Branch::Among(here) => self.entered(alloc, here, defs, name),
            Branch::InTag(_, _) => self.end(),
        }
    }

    /// Behind children that are left out and an element's name, among children.
    #[tactic(auto, using(crate::proofs::Carried::opened))]
    fn skipped(
        &mut self,
        alloc: Global,
        here: usize,
        defs: &[Def],
        name: &Name,
    ) -> Result<usize, NoMemory>
        requires here { here < length self.old.outers }
        requires contents { AreContents self.old (map definition_of defs.now) }
        ensures later { LaterPlaces self.old self.new }
        ensures made { IfOk result (IsState self.new
            (entering.skip_outer (map definition_of defs.now) name.now (outer_in self.old.outers here))) }
    {
        match self.around(here) {
            Around::Document(rest) => {
                let opened = self.skip_opens(alloc, defs, name, rest)?;
                self.tags_at_top(defs, opened.as_slice())
            }
            Around::Inside {
                strict,
                loose,
                outer,
                ..
            } => {
                let opened = self.skip_opens(alloc, defs, name, strict)?;
                if strict == loose {
                    return self.tags_inside(defs, opened.as_slice(), opened.as_slice(), outer);
                }
                let more = self.skip_opens(alloc, defs, name, loose)?;
                self.tags_inside(defs, opened.as_slice(), more.as_slice(), outer)
            }
            Around::OneOf(this, other) => {
                let first = self.skipped(alloc, this, defs, name)?;
                let second = self.skipped(alloc, other, defs, name)?;
                self.with_ways(first, second)
            }
        }
    }

    /// Behind children that are left out and an element's name.
    pub(crate) fn skip_way(
        &mut self,
        alloc: Global,
        way: Branch,
        defs: &[Def],
        name: &Name,
    ) -> Result<usize, NoMemory>
        requires way { IsThere self.old way }
        requires contents { AreContents self.old (map definition_of defs.now) }
        ensures later { LaterPlaces self.old self.new }
        ensures made { IfOk result (IsState self.new
            (entering.skip_way (map definition_of defs.now) name.now (way_in self.old way))) }
    {
        match way {
            Branch::Among(here) => self.skipped(alloc, here, defs, name),
            Branch::InTag(_, _) => self.end(),
        }
    }
}
