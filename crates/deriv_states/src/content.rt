//! Ways to go on behind a string, and behind an element's end.

ghost use Rattle.std.specs.Prelude.{◌≡◌, ◌<◌, length, IfOk};
ghost use Rattle.rng_kept.specs.Content as content;
ghost use Rattle.deriv_nodes.specs.Numbers.{at, IsAt};
ghost use Rattle.deriv_states.specs.Places.{IsOuter, IsState, IsThere, LaterPlaces, outer_in, way_in};

use crate::around::Around;
use crate::branch::Branch;
use crate::states::States;
use deriv_pattern::leaves::is_blank;
use nx_base::memory::NoMemory;
use std::alloc::Global;

impl States {
    /// Whether nothing is taken.
    fn is_dead(&self, here: usize) -> bool
        requires { here < length self.now.outers }
        ensures { result ≡ content.is_dead_outer (outer_in self.now.outers here) }
    {
        match self.around(here) {
            Around::Document(rest) => self.is_not_allowed(rest),
            Around::Inside {
                strict,
                loose,
                void,
                ..
            } => self.is_not_allowed(strict) && self.is_not_allowed(loose) && !void,
            Around::OneOf(this, other) => self.is_dead(this) && self.is_dead(other),
        }
    }

    /// One way to go on among children, unless nothing is taken.
    pub(crate) fn among_of(&mut self, here: usize) -> Result<usize, NoMemory>
        requires { here < length self.old.outers }
        ensures later { LaterPlaces self.old self.new }
        ensures made { IfOk result (IsState self.new (content.among_of (outer_in self.old.outers here))) }
    {
        if self.is_dead(here) {
            self.end()
        } else {
            self.just(Branch::Among(here))
        }
    }

    /// What is left of children without blank strings behind a string.
    fn loose_after(&mut self, alloc: Global, loose: usize, text: &str) -> Result<usize, NoMemory>
        requires { loose < length self.old.patterns }
        ensures later { LaterPlaces self.old self.new }
        ensures made { IfOk result (IsAt self.new.patterns (content.loose_after text.now (at self.old.patterns loose))) }
    {
        if is_blank(text.as_bytes()) {
            Ok(loose)
        } else {
            self.after(alloc, loose, text)
        }
    }

    /// Behind a string among children.
    fn chars_outer(&mut self, alloc: Global, here: usize, text: &str) -> Result<usize, NoMemory>
        requires { here < length self.old.outers }
        ensures later { LaterPlaces self.old self.new }
        ensures made { IfOk result (IsState self.new (content.chars_outer text.now (outer_in self.old.outers here))) }
    {
        match self.around(here) {
            Around::Document(rest) => {
                let left = self.after(alloc, rest, text)?;
                let left = self.document(left)?;
                self.among_of(left)
            }
            Around::Inside {
                strict,
                loose,
                outer,
                ..
            } => {
                let strict = self.after(alloc, strict, text)?;
                let loose = self.loose_after(alloc, loose, text)?;
                let left = self.inside(strict, loose, false, outer)?;
                self.among_of(left)
            }
            Around::OneOf(this, other) => {
                let first = self.chars_outer(alloc, this, text)?;
                let second = self.chars_outer(alloc, other, text)?;
                self.with_ways(first, second)
            }
        }
    }

    /// Behind some string that isn't blank, among children.
    fn any_string_outer(&mut self, alloc: Global, here: usize) -> Result<usize, NoMemory>
        requires { here < length self.old.outers }
        ensures later { LaterPlaces self.old self.new }
        ensures made { IfOk result (IsState self.new (content.any_string_outer (outer_in self.old.outers here))) }
    {
        match self.around(here) {
            Around::Document(rest) => {
                let left = self.after_solid(alloc, rest)?;
                let left = self.document(left)?;
                self.among_of(left)
            }
            Around::Inside {
                strict,
                loose,
                outer,
                ..
            } => {
                let strict = self.after_solid(alloc, strict)?;
                let loose = self.after_solid(alloc, loose)?;
                let left = self.inside(strict, loose, false, outer)?;
                self.among_of(left)
            }
            Around::OneOf(this, other) => {
                let first = self.any_string_outer(alloc, this)?;
                let second = self.any_string_outer(alloc, other)?;
                self.with_ways(first, second)
            }
        }
    }

    /// Behind a string.
    pub(crate) fn chars_way(
        &mut self,
        alloc: Global,
        way: Branch,
        text: &str,
    ) -> Result<usize, NoMemory>
        requires { IsThere self.old way }
        ensures later { LaterPlaces self.old self.new }
        ensures made { IfOk result (IsState self.new (content.chars_way text.now (way_in self.old way))) }
    {
        match way {
            Branch::Among(here) => self.chars_outer(alloc, here, text),
            Branch::InTag(_, _) => self.end(),
        }
    }

    /// Behind some string that isn't blank.
    pub(crate) fn any_string_way(&mut self, alloc: Global, way: Branch) -> Result<usize, NoMemory>
        requires { IsThere self.old way }
        ensures later { LaterPlaces self.old self.new }
        ensures made { IfOk result (IsState self.new (content.any_string_way (way_in self.old way))) }
    {
        match way {
            Branch::Among(here) => self.any_string_outer(alloc, here),
            Branch::InTag(_, _) => self.end(),
        }
    }

    /// Each way to go on among what is left around.
    fn ways_of(&mut self, here: usize) -> Result<usize, NoMemory>
        requires { here < length self.old.outers }
        ensures later { LaterPlaces self.old self.new }
        ensures made { IfOk result (IsState self.new (content.ways_of (outer_in self.old.outers here))) }
    {
        match self.around(here) {
            Around::Document(_) => self.just(Branch::Among(here)),
            Around::Inside { .. } => self.just(Branch::Among(here)),
            Around::OneOf(this, other) => {
                let first = self.ways_of(this)?;
                let second = self.ways_of(other)?;
                self.with_ways(first, second)
            }
        }
    }

    /// Whether an element may end: its children as they stand, without blank strings, or none at all.
    fn may_leave(&self, strict: usize, loose: usize, void: bool) -> bool
        requires strict { strict < length self.now.patterns }
        requires loose { loose < length self.now.patterns }
        ensures { result ≡ content.may_leave (at self.now.patterns strict) (at self.now.patterns loose) void }
    {
        self.nullable(strict) || self.nullable(loose) || void
    }

    /// Outside of an element that ends.
    fn ways_outside(&mut self, here: usize) -> Result<usize, NoMemory>
        requires { here < length self.old.outers }
        ensures later { LaterPlaces self.old self.new }
        ensures made { IfOk result (IsState self.new (content.leave_outer (outer_in self.old.outers here))) }
    {
        match self.around(here) {
            Around::Document(_) => self.end(),
            Around::Inside {
                strict,
                loose,
                void,
                outer,
            } => {
                if self.may_leave(strict, loose, void) {
                    self.ways_of(outer)
                } else {
                    self.end()
                }
            }
            Around::OneOf(this, other) => {
                let first = self.ways_outside(this)?;
                let second = self.ways_outside(other)?;
                self.with_ways(first, second)
            }
        }
    }

    /// Behind an element's end.
    pub(crate) fn leave_way(&mut self, way: Branch) -> Result<usize, NoMemory>
        requires { IsThere self.old way }
        ensures later { LaterPlaces self.old self.new }
        ensures made { IfOk result (IsState self.new (content.leave_way (way_in self.old way))) }
    {
        match way {
            Branch::Among(here) => self.ways_outside(here),
            Branch::InTag(_, _) => self.end(),
        }
    }

    /// Outside of an element whose further children are left out.
    fn ways_further_out(&mut self, here: usize) -> Result<usize, NoMemory>
        requires { here < length self.old.outers }
        ensures later { LaterPlaces self.old self.new }
        ensures made { IfOk result (IsState self.new (content.leave_skip_outer (outer_in self.old.outers here))) }
    {
        match self.around(here) {
            Around::Document(_) => self.end(),
            Around::Inside { outer, .. } => self.ways_of(outer),
            Around::OneOf(this, other) => {
                let first = self.ways_further_out(this)?;
                let second = self.ways_further_out(other)?;
                self.with_ways(first, second)
            }
        }
    }

    /// Behind children that are left out and an element's end.
    pub(crate) fn leave_skip_way(&mut self, way: Branch) -> Result<usize, NoMemory>
        requires { IsThere self.old way }
        ensures later { LaterPlaces self.old self.new }
        ensures made { IfOk result (IsState self.new (content.leave_skip_way (way_in self.old way))) }
    {
        match way {
            Branch::Among(here) => self.ways_further_out(here),
            Branch::InTag(_, _) => self.end(),
        }
    }
}
