//! Ways to go on that are merged: those with the same outside are one, and so are those that differ in what lies around alone.

ghost use Rattle.std.specs.Prelude.{◌≡◌, ◌<◌, length, IfOk};
ghost use Rattle.rng_kept.specs.Merging as merging;
ghost use Rattle.deriv_nodes.specs.Numbers.{at};
ghost use Rattle.deriv_states.specs.Places.{IsOuter, IsState, IsThere, IsWay, LaterPlaces, outer_in, state_in, way_in};

use crate::around::Around;
use crate::branch::{Branch, Row};
use crate::states::States;
use nx_base::memory::NoMemory;

/// Whether two flags are one.
fn same_flag(v: bool, w: bool) -> bool
    ensures { result ≡ merging.same_flag v w }
{
    v == w
}

impl States {
    /// Whether an outer is one that there is a choice of, or the whole.
    fn is_outer_in(&self, u: usize, o: usize) -> bool
        requires u { u < length self.now.outers }
        requires o { o < length self.now.outers }
        ensures { result ≡ merging.is_outer_in (outer_in self.now.outers u) (outer_in self.now.outers o) }
    {
        match self.around(o) {
            Around::Document(_) => self.same_outer(u, o),
            Around::Inside { .. } => self.same_outer(u, o),
            Around::OneOf(this, other) => self.is_outer_in(u, this) || self.same_outer(u, other),
        }
    }

    /// A choice with one outer more, unless it is there.
    fn with_outer(&mut self, o: usize, u: usize) -> Result<usize, NoMemory>
        requires o { o < length self.old.outers }
        requires u { u < length self.old.outers }
        ensures later { LaterPlaces self.old self.new }
        ensures made { IfOk result (IsOuter self.new (merging.with_outer (outer_in self.old.outers o) (outer_in self.old.outers u))) }
    {
        if self.is_outer_in(u, o) {
            Ok(o)
        } else {
            self.one_of(o, u)
        }
    }

    /// A choice with each outer that there is a choice of in a second one.
    fn either_outer(&mut self, o: usize, u: usize) -> Result<usize, NoMemory>
        requires o { o < length self.old.outers }
        requires u { u < length self.old.outers }
        ensures later { LaterPlaces self.old self.new }
        ensures made { IfOk result (IsOuter self.new (merging.either_outer (outer_in self.old.outers o) (outer_in self.old.outers u))) }
    {
        match self.around(u) {
            Around::Document(_) => self.with_outer(o, u),
            Around::Inside { .. } => self.with_outer(o, u),
            Around::OneOf(this, other) => {
                let both = self.either_outer(o, this)?;
                self.either_outer(both, other)
            }
        }
    }

    /// Whether what is left of the children is the same.
    fn same_children(
        &self,
        strict: usize,
        loose: usize,
        void: bool,
        other_strict: usize,
        other_loose: usize,
        other_void: bool,
    ) -> bool
        requires strict { strict < length self.now.patterns }
        requires loose { loose < length self.now.patterns }
        requires other_strict { other_strict < length self.now.patterns }
        requires other_loose { other_loose < length self.now.patterns }
        ensures { result ≡ merging.same_children (at self.now.patterns strict) (at self.now.patterns loose) void
            (at self.now.patterns other_strict) (at self.now.patterns other_loose) other_void }
    {
        self.same_node(strict, other_strict)
            && self.same_node(loose, other_loose)
            && same_flag(void, other_void)
    }

    /// Whether two outers are merged.
    fn can_join(&self, o: usize, u: usize) -> bool
        requires o { o < length self.now.outers }
        requires u { u < length self.now.outers }
        ensures { result ≡ merging.can_join (outer_in self.now.outers o) (outer_in self.now.outers u) }
    {
        match (self.around(o), self.around(u)) {
            (Around::Document(_), Around::Document(_)) => true,
            (Around::Document(_), Around::Inside { .. }) => false,
            (Around::Document(_), Around::OneOf(_, _)) => false,
            (Around::Inside { .. }, Around::Document(_)) => false,
            (Around::Inside { .. }, Around::OneOf(_, _)) => false,
            (Around::OneOf(_, _), _) => false,
            (
                Around::Inside {
                    strict,
                    loose,
                    void,
                    outer,
                },
                Around::Inside {
                    strict: other_strict,
                    loose: other_loose,
                    void: other_void,
                    outer: other_outer,
                },
            ) => {
                self.same_outer(outer, other_outer)
                    || self.same_children(
                        strict,
                        loose,
                        void,
                        other_strict,
                        other_loose,
                        other_void,
                    )
            }
        }
    }

    /// Whether two ways are merged.
    fn can_join_ways(&self, a: Branch, b: Branch) -> bool
        requires a { IsThere self.now a }
        requires b { IsThere self.now b }
        ensures { result ≡ merging.can_join_ways (way_in self.now a) (way_in self.now b) }
    {
        match (a, b) {
            (Branch::Among(here), Branch::Among(other)) => self.can_join(here, other),
            (Branch::Among(_), Branch::InTag(_, _)) => false,
            (Branch::InTag(_, _), Branch::Among(_)) => false,
            (Branch::InTag(content, _), Branch::InTag(other, _)) => self.same_node(content, other),
        }
    }

    /// Two outers that are merged, as one.
    fn joined_outer(&mut self, o: usize, u: usize) -> Result<usize, NoMemory>
        requires o { o < length self.old.outers }
        requires u { u < length self.old.outers }
        ensures later { LaterPlaces self.old self.new }
        ensures made { IfOk result (IsOuter self.new (merging.joined_outer (outer_in self.old.outers o) (outer_in self.old.outers u))) }
    {
        match (self.around(o), self.around(u)) {
            (Around::Document(rest), Around::Document(other)) => {
                let rest = self.choice_of(rest, other)?;
                self.document(rest)
            }
            (Around::Document(_), Around::Inside { .. }) => Ok(o),
            (Around::Document(_), Around::OneOf(_, _)) => Ok(o),
            (Around::Inside { .. }, Around::Document(_)) => Ok(o),
            (Around::Inside { .. }, Around::OneOf(_, _)) => Ok(o),
            (Around::OneOf(_, _), _) => Ok(o),
            (
                Around::Inside {
                    strict,
                    loose,
                    void,
                    outer,
                },
                Around::Inside {
                    strict: other_strict,
                    loose: other_loose,
                    void: other_void,
                    outer: other_outer,
                },
            ) => {
                if self.same_outer(outer, other_outer) {
                    let strict = self.choice_of(strict, other_strict)?;
                    let loose = self.choice_of(loose, other_loose)?;
                    return self.inside(strict, loose, void || other_void, outer);
                }
                let both = self.either_outer(outer, other_outer)?;
                self.inside(strict, loose, void, both)
            }
        }
    }

    /// Two ways that are merged, as one.
    fn joined_way(&mut self, a: Branch, b: Branch) -> Result<Branch, NoMemory>
        requires a { IsThere self.old a }
        requires b { IsThere self.old b }
        ensures later { LaterPlaces self.old self.new }
        ensures made { IfOk result (IsWay self.new
            (merging.joined_way (way_in self.old a) (way_in self.old b))) }
    {
        match (a, b) {
            (Branch::Among(here), Branch::Among(other)) => {
                let here = self.joined_outer(here, other)?;
                Ok(Branch::Among(here))
            }
            (Branch::Among(_), Branch::InTag(_, _)) => Ok(a),
            (Branch::InTag(_, _), Branch::Among(_)) => Ok(a),
            (Branch::InTag(content, outer), Branch::InTag(_, other)) => {
                let outer = self.either_outer(outer, other)?;
                Ok(Branch::InTag(content, outer))
            }
        }
    }

    /// A state with one way more.
    #[tactic(auto, using(crate::proofs::Carried::ways))]
    fn with_way(&mut self, ways: usize, way: Branch) -> Result<usize, NoMemory>
        requires ways { ways < length self.old.states }
        requires way { IsThere self.old way }
        ensures later { LaterPlaces self.old self.new }
        ensures made { IfOk result (IsState self.new
            (merging.with_way (state_in self.old.states ways) (way_in self.old way))) }
    {
        match self.row(ways) {
            Row::End => self.just(way),
            Row::Way(one, more) => {
                if self.can_join_ways(one, way) {
                    let both = self.joined_way(one, way)?;
                    return self.with_first(both, more);
                }
                let more = self.with_way(more, way)?;
                self.with_first(one, more)
            }
        }
    }

    /// A state with the ways of another.
    #[tactic(auto, using(crate::proofs::Carried::ways))]
    pub(crate) fn with_ways(&mut self, ways: usize, others: usize) -> Result<usize, NoMemory>
        requires ways { ways < length self.old.states }
        requires others { others < length self.old.states }
        ensures later { LaterPlaces self.old self.new }
        ensures made { IfOk result (IsState self.new
            (merging.with_ways (state_in self.old.states ways) (state_in self.old.states others))) }
    {
        match self.row(others) {
            Row::End => Ok(ways),
            Row::Way(one, more) => {
                let with_one = self.with_way(ways, one)?;
                self.with_ways(with_one, more)
            }
        }
    }
}
