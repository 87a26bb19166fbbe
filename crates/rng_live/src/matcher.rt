//! The contract of matchers, which follow the events of a document through a schema.

ghost use Rattle.std.specs.Prelude.{◌≡◌, ◌↔◌, IsTrue, IsUtf8, IsOk, IfOk, OnOk, Bool, option_copied};
ghost use Rattle.nx_base.specs.Rules.{LaterLaws};
ghost use Rattle.rng_core.specs.Patterns.{Language};
ghost use Rattle.rng_kept.specs.Live.{IsLive};
ghost use Rattle.rng_kept.specs.Residuals.{Residual};
ghost use Rattle.rng_kept.specs.Merging.{answered};
ghost use Rattle.rng_kept.specs.Needed as needs;
ghost use Rattle.rng_kept.specs.Standing.{first_residual};
ghost use Rattle.rng_kept.specs.Entering as entering;
ghost use Rattle.rng_kept.specs.Tags as tags;
ghost use Rattle.rng_kept.specs.Content as content;
ghost use Rattle.rng_live.specs.Calls as calls;
ghost use Rattle.rng_live.specs.Calls.{Gives, Answers, AreRequired, Call, call_enter, call_tag_end, call_leave, KeepsMemory};
ghost use Rattle.rng_live.specs.Order.{name_order, SortsOnce};
ghost use Rattle.rng_live.specs.Schemas.{schema_language};

use crate::schema::Schema;
use crate::shared_names::SharedNames;
use nx_base::memory::NoMemory;
use nx_base::name::{Name, Names};
use std::alloc::Global;

/// Follows events through a schema.
///
/// What a state means is a residual: the ways in which the events may go on. Each call says which residual its answer
/// means, and answers none exactly where that residual is nothing. That a residual stands for the lists of events that are
/// kept behind moves, and how each call goes on with them, so that none is answered exactly where no kept list is viable
/// behind its move, is the law `moves_stand` of the crate rng_residual, for any live schema; `frames_stand` and
/// `known_frames_begin` say it of `begin` and `begin_known`. So what stands for a list of moves goes on standing for it, and
/// equal events lead from equal meanings to equal meanings.
///
/// One matcher is `later` than another where calls made it of the other, and then each state of the earlier one is a state of
/// the later one and means the same. Where there was no memory, the states mean what they meant.
///
/// No call has a condition on the order of events: one that can't come behind a state, as an attribute behind the end of the
/// tag, is answered none. A name in which a document can't have an attribute or an element is in no class. An attribute's
/// name is to be new in its tag for the law, not for the call.
pub trait Matcher: Drop {
    /// What is left of the schema between two events.
    type State: Drop;

    ghost later: { Self → Self → Type 0 };

    ghost is_state: { Self → Self.State → Type 0 };

    ghost means: { Self → Self.State → Residual };

    ghost language: { Self → Language };

    /// The calls that are remembered: `enter`, `tag_end` or `leave`, of a state that means this. Made again, such a call
    /// answers, whatever memory there is, and changes nothing.
    ghost remembers: { Self → Residual → Call → Type 0 };

    /// Whether each such call that was answered is remembered.
    ghost remembers_answers: { Bool };

    /// Before the document's root.
    fn begin(&mut self, alloc: Global) -> Result<Self::State, NoMemory>
        ensures later { later self.old self.new }
        ensures gives { IfOk result (Gives (is_state self.new) (means self.new) (first_residual (language self.old).start)) };

    /// Before an element that one of the definitions with the name allows; none exactly where no definition has it.
    fn begin_known(&mut self, alloc: Global, name: &Name) -> Result<Option<Self::State>, NoMemory>
        ensures later { later self.old self.new }
        ensures gives { IfOk result (Answers (is_state self.new) (means self.new) (calls.begin_known (language self.old) name.now)) };

    /// Behind the start of an element, in its start tag.
    fn enter(
        &mut self,
        alloc: Global,
        s: &Self::State,
        name: &Name,
    ) -> Result<Option<Self::State>, NoMemory>
        requires { is_state self.old s.now }
        ensures later { later self.old self.new }
        ensures gives { IfOk result (Answers (is_state self.new) (means self.new)
            (answered (entering.enter (language self.old).definitions name.now (means self.old s.now)))) }
        ensures remembered { IsTrue remembers_answers → OnOk result (remembers self.new (means self.old s.now) (call_enter name.now)) }
        ensures again { remembers self.old (means self.old s.now) (call_enter name.now) → IsOk result }
        ensures still { remembers self.old (means self.old s.now) (call_enter name.now) → self.new ≡ self.old };

    /// Behind children that are missing and the start of an element.
    fn enter_skip(
        &mut self,
        alloc: Global,
        s: &Self::State,
        name: &Name,
    ) -> Result<Option<Self::State>, NoMemory>
        requires { is_state self.old s.now }
        ensures later { later self.old self.new }
        ensures gives { IfOk result (Answers (is_state self.new) (means self.new)
            (answered (entering.enter_skip (language self.old).definitions name.now (means self.old s.now)))) };

    /// Behind an attribute.
    fn attribute(
        &mut self,
        alloc: Global,
        s: &Self::State,
        name: &Name,
        value: &[u8],
    ) -> Result<Option<Self::State>, NoMemory>
        requires state { is_state self.old s.now }
        requires text { IsUtf8 value.now }
        ensures later { later self.old self.new }
        ensures gives { IfOk result (Answers (is_state self.new) (means self.new)
            (answered (tags.attribute_of name.now value.now (means self.old s.now)))) };

    /// Behind an attribute of the name, whatever value it should have had.
    fn attribute_any(
        &mut self,
        alloc: Global,
        s: &Self::State,
        name: &Name,
    ) -> Result<Option<Self::State>, NoMemory>
        requires { is_state self.old s.now }
        ensures later { later self.old self.new }
        ensures gives { IfOk result (Answers (is_state self.new) (means self.new)
            (answered (tags.attribute_any name.now (means self.old s.now)))) };

    /// Behind the end of a start tag, among the element's children.
    fn tag_end(&mut self, alloc: Global, s: &Self::State) -> Result<Option<Self::State>, NoMemory>
        requires { is_state self.old s.now }
        ensures later { later self.old self.new }
        ensures gives { IfOk result (Answers (is_state self.new) (means self.new) (answered (tags.tag_end (means self.old s.now)))) }
        ensures remembered { IsTrue remembers_answers → OnOk result (remembers self.new (means self.old s.now) call_tag_end) }
        ensures again { remembers self.old (means self.old s.now) call_tag_end → IsOk result }
        ensures still { remembers self.old (means self.old s.now) call_tag_end → self.new ≡ self.old };

    /// Behind attributes that are missing and the end of a start tag.
    fn tag_end_missing(&mut self, alloc: Global, s: &Self::State) -> Result<Self::State, NoMemory>
        requires { is_state self.old s.now }
        ensures later { later self.old self.new }
        ensures gives { IfOk result (Gives (is_state self.new) (means self.new) (tags.tag_end_missing (means self.old s.now))) };

    /// The names of which an attribute stands in every list of attributes behind which the tag may end, in order and
    /// without doubles; no name where no start tag is open.
    fn required(&mut self, alloc: Global, s: &Self::State) -> Result<Names, NoMemory>
        requires { is_state self.old s.now }
        ensures later { later self.old self.new }
        ensures gives { IfOk result (AreRequired (means self.old s.now)) };

    /// Behind a string.
    fn chars(
        &mut self,
        alloc: Global,
        s: &Self::State,
        text: &[u8],
    ) -> Result<Option<Self::State>, NoMemory>
        requires state { is_state self.old s.now }
        requires text { IsUtf8 text.now }
        ensures later { later self.old self.new }
        ensures gives { IfOk result (Answers (is_state self.new) (means self.new)
            (answered (content.chars text.now (means self.old s.now)))) };

    /// Behind a string that isn't blank, whatever it should have been.
    fn chars_any(&mut self, alloc: Global, s: &Self::State) -> Result<Option<Self::State>, NoMemory>
        requires { is_state self.old s.now }
        ensures later { later self.old self.new }
        ensures gives { IfOk result (Answers (is_state self.new) (means self.new) (answered (content.chars_any (means self.old s.now)))) };

    /// Behind the end of an element.
    fn leave(&mut self, alloc: Global, s: &Self::State) -> Result<Option<Self::State>, NoMemory>
        requires { is_state self.old s.now }
        ensures later { later self.old self.new }
        ensures gives { IfOk result (Answers (is_state self.new) (means self.new) (answered (content.leave (means self.old s.now)))) }
        ensures remembered { IsTrue remembers_answers → OnOk result (remembers self.new (means self.old s.now) call_leave) }
        ensures again { remembers self.old (means self.old s.now) call_leave → IsOk result }
        ensures still { remembers self.old (means self.old s.now) call_leave → self.new ≡ self.old };

    /// Behind children that are missing and the end of an element.
    fn leave_skip(&mut self, alloc: Global, s: &Self::State) -> Result<Self::State, NoMemory>
        requires { is_state self.old s.now }
        ensures later { later self.old self.new }
        ensures gives { IfOk result (Gives (is_state self.new) (means self.new) (content.leave_skip (means self.old s.now))) };

    /// The names of which an element stands in every content that can be skipped up to an element of this name, or, without one,
    /// up to the end of the element that is open, in order and without doubles; no name where nothing can be skipped so. What
    /// stands inside of elements of the content doesn't count. That the clause says this of the state is the law `needed_is_exact`
    /// of rng_residual.
    fn needed(
        &mut self,
        alloc: Global,
        s: &Self::State,
        name: Option<&Name>,
    ) -> Result<SharedNames, NoMemory>
        requires { is_state self.old s.now }
        ensures later { later self.old self.new }
        ensures gives { IfOk result (SortsOnce name_order
            (needs.needed (language self.old).definitions (option_copied name.entry) (means self.old s.now))) };

    /// Whether the two mean the same, so that equal events lead on from both alike.
    fn same(&self, a: &Self::State, b: &Self::State) -> bool
        requires a { is_state self.now a.now }
        requires b { is_state self.now b.now }
        ensures { IsTrue result ↔ (means self.now a.now ≡ means self.now b.now) };

    /// A state that means the same.
    fn copy(&self, alloc: Global, s: &Self::State) -> Result<Self::State, NoMemory>
        requires { is_state self.now s.now }
        ensures { IfOk result (Gives (is_state self.now) (means self.now) (means self.now s.now)) };

    /// The schema.
    fn schema(&self) -> &Schema
        ensures { schema_language result.now ≡ language self.now };

    ghost laws: { LaterLaws later is_state means language };

    ghost memory: { KeepsMemory later remembers };

    // Liveness is told by witnesses, of which no struct can hold one; that there are some, each matcher holds.
    ghost live: { (m : Self) → ∥ IsLive (language m) ∥₁ };
}
