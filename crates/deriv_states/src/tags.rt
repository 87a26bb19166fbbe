//! Ways to go on behind an attribute, and behind the end of a start tag.

ghost use Rattle.std.specs.Prelude.{◌≡◌, ◌<◌, [], length, IfOk};
ghost use Rattle.rng_kept.specs.Nullable.{nullable as is_nullable};
ghost use Rattle.rng_kept.specs.Strings.{after};
ghost use Rattle.rng_kept.specs.Tags as tags;
ghost use Rattle.deriv_nodes.specs.Numbers.{at};
ghost use Rattle.deriv_states.specs.Places.{IsOuter, IsState, IsThere, LaterPlaces, outer_in, way_in};

use crate::branch::Branch;
use crate::states::States;
use nx_base::memory::NoMemory;
use nx_base::name::Name;
use std::alloc::Global;

impl States {
    /// A way in a start tag, unless nothing is taken.
    fn tag_of(&mut self, content: usize, outer: usize) -> Result<usize, NoMemory>
        requires content { content < length self.old.patterns }
        requires outer { outer < length self.old.outers }
        ensures later { LaterPlaces self.old self.new }
        ensures made { IfOk result (IsState self.new (tags.tag_of (at self.old.patterns content) (outer_in self.old.outers outer))) }
    {
        if self.is_not_allowed(content) {
            self.end()
        } else {
            self.just(Branch::InTag(content, outer))
        }
    }

    /// Behind an attribute.
    pub(crate) fn attribute_way(
        &mut self,
        alloc: Global,
        way: Branch,
        name: &Name,
        value: &str,
    ) -> Result<usize, NoMemory>
        requires { IsThere self.old way }
        ensures later { LaterPlaces self.old self.new }
        ensures made { IfOk result (IsState self.new (tags.attribute_way name.now value.now (way_in self.old way))) }
    {
        match way {
            Branch::Among(_) => self.end(),
            Branch::InTag(content, outer) => {
                let left = self.after_attribute(alloc, content, name, value)?;
                self.tag_of(left, outer)
            }
        }
    }

    /// Behind an attribute of the name, whatever its value.
    pub(crate) fn any_value_way(
        &mut self,
        alloc: Global,
        way: Branch,
        name: &Name,
    ) -> Result<usize, NoMemory>
        requires { IsThere self.old way }
        ensures later { LaterPlaces self.old self.new }
        ensures made { IfOk result (IsState self.new (tags.any_value_way name.now (way_in self.old way))) }
    {
        match way {
            Branch::Among(_) => self.end(),
            Branch::InTag(content, outer) => {
                let left = self.after_any_attribute(alloc, content, name)?;
                self.tag_of(left, outer)
            }
        }
    }

    /// Whether an element of this content, as it stands, may have no children.
    fn may_be_void(&mut self, alloc: Global, strict: usize) -> Result<bool, NoMemory>
        requires { strict < length self.old.patterns }
        ensures later { LaterPlaces self.old self.new }
        ensures made { IfOk result (λ found. found ≡ is_nullable (after [] (at self.old.patterns strict))) }
    {
        let left = self.after(alloc, strict, "")?;
        Ok(self.nullable(left))
    }

    /// Among the children of an element of this content, of which no attribute comes any more.
    fn children_of(
        &mut self,
        alloc: Global,
        content: usize,
        outer: usize,
    ) -> Result<usize, NoMemory>
        requires content { content < length self.old.patterns }
        requires outer { outer < length self.old.outers }
        ensures later { LaterPlaces self.old self.new }
        ensures made { IfOk result (IsOuter self.new
            (tags.children_of (at self.old.patterns content) (outer_in self.old.outers outer))) }
    {
        let strict = self.close(content)?;
        let loose = self.loosen(alloc, strict)?;
        let void = self.may_be_void(alloc, strict)?;
        self.inside(strict, loose, void, outer)
    }

    /// Behind the end of a start tag.
    pub(crate) fn tag_end_way(&mut self, alloc: Global, way: Branch) -> Result<usize, NoMemory>
        requires { IsThere self.old way }
        ensures later { LaterPlaces self.old self.new }
        ensures made { IfOk result (IsState self.new (tags.tag_end_way (way_in self.old way))) }
    {
        match way {
            Branch::Among(_) => self.end(),
            Branch::InTag(content, outer) => {
                let here = self.children_of(alloc, content, outer)?;
                self.among_of(here)
            }
        }
    }

    /// Behind attributes that are missing and the end of a start tag.
    pub(crate) fn missing_way(&mut self, alloc: Global, way: Branch) -> Result<usize, NoMemory>
        requires { IsThere self.old way }
        ensures later { LaterPlaces self.old self.new }
        ensures made { IfOk result (IsState self.new (tags.missing_way (way_in self.old way))) }
    {
        match way {
            Branch::Among(_) => self.end(),
            Branch::InTag(content, outer) => {
                let content = self.drop_attributes(content)?;
                let here = self.children_of(alloc, content, outer)?;
                self.among_of(here)
            }
        }
    }
}
