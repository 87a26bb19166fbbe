//! Joins the marks aside that the frontier reaches.

ghost use Rattle.std.specs.Prelude.{◌≡◌, ◌<◌, ◌||◌, length};
ghost use Rattle.nx_marks.specs.Chain.{FirstMeans};
ghost use Rattle.nx_marks.specs.Right.{IsRightForSome};
ghost use Rattle.nx_marks.specs.Joined.{seen};
ghost use Rattle.nx_marks.specs.Ruling.{is_due};
ghost use Rattle.nx_marks.specs.Rejoining.{Joins, RejoinsOne, Rejoins};

use crate::kept::Kept;
use crate::line::{Line, is_due, next_is_same};
use crate::mark::Mark;
use nx_base::machine::Machine;

/// Whether one of two holds.
fn either(a: bool, b: bool) -> bool
    ensures { result ≡ (a || b) }
{
    a || b
}

/// Whether the end of a row that has a segment, and so many tags behind the last mark, is a mark: where it was one, or where one is due.
fn ends_marked<A: Machine>(machine: &A, end: &Mark<A::State>, tags: usize) -> bool
    requires { A.is_state machine.now end.now.state }
    ensures { result ≡ (end.now.saved || is_due (A.rules machine.now) (A.means machine.now end.now.state) tags) }
{
    let due = is_due(machine, &end.state, tags);
    either(end.saved, due)
}

/// Makes the first row aside, which begins at the frontier with a state that means the same, a part of the front, and tells whether
/// that is done by having all that is aside in front of the frontier. Where the row has a segment, its end is a mark where it was
/// one, or where one is due.
fn join<A: Machine>(machine: &A, line: &mut Line<A::State>) -> bool
    requires right { IsRightForSome (A.is_state machine.now) (A.means machine.now) (A.rules machine.now) line.old }
    requires here { line.old.here.len ≡ 0 }
    requires same { FirstMeans (A.means machine.now) (A.means machine.now line.old.here.state) line.old.aside }
    ensures { Joins (A.means machine.now) (A.rules machine.now) line.old (seen result line.new) }
{
    line.take_next();
    if line.is_row() {
        let marked = ends_marked(machine, line.last(), line.tags_before_last());
        line.marked = marked;
        return true;
    }
    let count = line.front_len();
    line.follow();
    if line.front_len() == count {
        let stays = either(line.marked, line.here.saved);
        line.marked = stays;
        return false;
    }
    let tags = line.last_tags();
    let marked = ends_marked(machine, &line.here, tags);
    line.marked = marked;
    false
}

/// Joins the first mark aside, which lies at the frontier, or drops it. Tells whether all that is aside is in front of the frontier now.
/// It stands outside of the loop over tokens, where it is seldom called.
#[inline(never)]
fn rejoin_one<A: Machine>(machine: &A, line: &mut Line<A::State>) -> bool
    requires right { IsRightForSome (A.is_state machine.now) (A.means machine.now) (A.rules machine.now) line.old }
    requires here { line.old.here.len ≡ 0 }
    requires some { 0 < length line.old.aside }
    ensures { RejoinsOne (A.is_state machine.now) (A.means machine.now) (A.rules machine.now) line.old (seen result line.new) }
{
    if next_is_same(machine, line) {
        return join(machine, line);
    }
    line.pass_next();
    false
}

/// Joins the rows aside that begin at the frontier with a state that means the same, and drops the other marks that lie there.
pub(crate) fn rejoin<A: Machine>(machine: &A, kept: &mut Kept<A::State>)
    requires { IsRightForSome (A.is_state machine.now) (A.means machine.now) (A.rules machine.now) kept.old }
    ensures { Rejoins (A.is_state machine.now) (A.means machine.now) (A.rules machine.now) kept.old kept.new }
{
    while kept.line.is_at_next() && !kept.joined {
        kept.joined = rejoin_one(machine, &mut kept.line);
    }
}
