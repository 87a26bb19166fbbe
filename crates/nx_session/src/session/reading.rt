//! The text, read by the machine, and what is kept of that. The machine holds the schema, and reading leaves it.

ghost use Rattle.std.specs.Prelude.{◌≡◌, ◌⊎◌, ℕ, ◌+◌, ◌-◌, ◌≤◌, List, [], length, option_map, IsUtf8, IfOk, IfSome, OnOk};
ghost use Rattle.std.specs.List.{AllByRecursion};
ghost use Rattle.nx_base.specs.Text.{IsPlace};
ghost use Rattle.nx_base.specs.declared.fault.Fault.{Fault};
ghost use Rattle.nx_marks.specs.Bound.{WillJoin, WillReach};
ghost use Rattle.nx_marks.specs.Chain.{frontier_of};
ghost use Rattle.nx_marks.specs.Frontier.{IsBorder, MovesOver};
ghost use Rattle.nx_marks.specs.Keeping.{KeepsMarks};
ghost use Rattle.nx_marks.specs.Meant.{itself};
ghost use Rattle.nx_marks.specs.Starting.{started};
ghost use Rattle.nx_recover.specs.Faults.{AreFaultsOf};
ghost use Rattle.nx_script.specs.Replies.{OffersAreText};
ghost use Rattle.nx_session.specs.Asking.{AreOffersAt};
ghost use Rattle.nx_session.specs.Reading.{grammar_of, followed, meant, rules_for, IsWellKept};
ghost use Rattle.nx_session.specs.Telling.{FitsThen};
ghost use Rattle.nx_tags.specs.Answers.{Answers, PutsInQName, place_of};
ghost use Rattle.nx_text.specs.Changing.{AreChanges};
ghost use Rattle.rng_core.specs.Meaning.{language_of};
ghost use Rattle.rng_core.specs.Soundness.{IsSound};
ghost use Rattle.rng_kept.specs.Live.{IsLive};

use deriv_pool::pool::Pool;
use nx_base::change::Changes;
use nx_base::fault::Faults;
use nx_base::memory::NoMemory;
use nx_base::offer::Offers;
use nx_base::steps::Steps;
use nx_complete::law::offers_are_exact;
use nx_complete::place::offers;
use nx_marks::law::{
    frontier_is_border, later_machines_keep_it_right, later_machines_mean_the_same,
    meanings_reach_as_states, reading_on_keeps_meanings,
};
use nx_marks::marks::Marks;
use nx_recover::recover::Recover;
use nx_tags::{TagCommand, changes_from};
use nx_text::text::Text;
use std::alloc::Global;
use std::sync::ledger::Ledger;

/// Before the first token of whatever text.
pub(super) fn begun(
    alloc: Global,
    machine: &mut Recover<Pool>,
) -> Result<Marks<Recover<Pool>>, NoMemory>
    requires live { IfSome (followed machine.old.matcher) IsLive }
    requires sound { IfSome (grammar_of machine.old.matcher) IsSound }
    ensures well { IfOk result (λ marks. (text : List ℕ) → IsUtf8 text → IsWellKept text machine.new.matcher marks.kept) }
    ensures grammar { grammar_of machine.new.matcher ≡ grammar_of machine.old.matcher }
    ensures frontier { IfOk result (λ marks. frontier_of marks.kept ≡ 0) }
    ensures taken { IfOk result (λ marks. marks.taken ≡ 0) }
    ensures marks { IfOk result (λ marks. meant machine.new.matcher marks.kept ≡ started (rules_for (grammar_of machine.old.matcher)).first) }
{
    let marks = Marks::new(alloc, machine)?;
    Ok(marks)
}

/// Reads the text to its end.
pub(super) fn caught_up<L: Ledger>(
    machine: &mut Recover<Pool>,
    marks: &mut Marks<Recover<Pool>>,
    text: &Text,
    steps: &mut Steps<L>,
) -> Result<(), NoMemory>
    requires { IsWellKept text.now machine.old.matcher marks.old.kept }
    ensures well { IsWellKept text.now machine.new.matcher marks.new.kept }
    ensures grammar { grammar_of machine.new.matcher ≡ grammar_of machine.old.matcher }
    ensures steps { steps.new ≡ steps.old + marks.new.taken }
    ensures frontier { frontier_of marks.old.kept ≤ frontier_of marks.new.kept }
    ensures on { OnOk result (MovesOver text.now (frontier_of marks.old.kept) marks.new.taken (frontier_of marks.new.kept)) }
    ensures all { OnOk result (frontier_of marks.new.kept ≡ length text.now) }
    ensures border { IsBorder text.now (frontier_of marks.new.kept) }
    ensures marks { KeepsMarks itself (rules_for (grammar_of machine.old.matcher)) text.now (meant machine.old.matcher marks.old.kept)
        (meant machine.new.matcher marks.new.kept) }
    ensures aside { frontier_of marks.new.kept ≡ length text.now → marks.new.kept.aside ≡ [] }
    ensures few { OnOk result ((count : ℕ) → WillJoin itself (rules_for (grammar_of machine.old.matcher)) text.now count
        (meant machine.old.matcher marks.old.kept) → marks.new.taken ≤ count) }
    ensures row { OnOk result ((count end : ℕ) → WillReach itself (rules_for (grammar_of machine.old.matcher)) text.now count end
        (meant machine.old.matcher marks.old.kept)
        → count ≤ marks.new.taken → MovesOver text.now end (marks.new.taken - count) (frontier_of marks.new.kept)) }
{
    frontier_is_border::<Recover<Pool>>();
    reading_on_keeps_meanings::<Recover<Pool>>();
    meanings_reach_as_states::<Recover<Pool>>();
    let _len = text.len();
    marks.catch_up(machine, text, steps)
}

/// Reads so many tokens of the text on.
pub(super) fn sliced<L: Ledger>(
    machine: &mut Recover<Pool>,
    marks: &mut Marks<Recover<Pool>>,
    text: &Text,
    count: u64,
    steps: &mut Steps<L>,
) -> Result<(), NoMemory>
    requires { IsWellKept text.now machine.old.matcher marks.old.kept }
    ensures well { IsWellKept text.now machine.new.matcher marks.new.kept }
    ensures grammar { grammar_of machine.new.matcher ≡ grammar_of machine.old.matcher }
    ensures steps { steps.new ≡ steps.old + marks.new.taken }
    ensures most { marks.new.taken ≤ count }
    ensures frontier { frontier_of marks.old.kept ≤ frontier_of marks.new.kept }
    ensures on { OnOk result (MovesOver text.now (frontier_of marks.old.kept) marks.new.taken (frontier_of marks.new.kept)) }
    ensures enough { OnOk result ((marks.new.taken ≡ count) ⊎ (frontier_of marks.new.kept ≡ length text.now)) }
    ensures border { IsBorder text.now (frontier_of marks.new.kept) }
    ensures marks { KeepsMarks itself (rules_for (grammar_of machine.old.matcher)) text.now (meant machine.old.matcher marks.old.kept)
        (meant machine.new.matcher marks.new.kept) }
    ensures aside { frontier_of marks.new.kept ≡ length text.now → marks.new.kept.aside ≡ [] }
    ensures few { OnOk result ((count : ℕ) → WillJoin itself (rules_for (grammar_of machine.old.matcher)) text.now count
        (meant machine.old.matcher marks.old.kept) → marks.new.taken ≤ count) }
    ensures row { OnOk result ((count end : ℕ) → WillReach itself (rules_for (grammar_of machine.old.matcher)) text.now count end
        (meant machine.old.matcher marks.old.kept)
        → count ≤ marks.new.taken → MovesOver text.now end (marks.new.taken - count) (frontier_of marks.new.kept)) }
{
    frontier_is_border::<Recover<Pool>>();
    reading_on_keeps_meanings::<Recover<Pool>>();
    meanings_reach_as_states::<Recover<Pool>>();
    let _len = text.len();
    marks.slice(machine, text, count, steps)
}

/// The faults of the whole text, which is read to its end.
pub(super) fn found(
    machine: &mut Recover<Pool>,
    marks: &Marks<Recover<Pool>>,
    text: &Text,
) -> Result<Faults, NoMemory>
    requires well { IsWellKept text.now machine.old.matcher marks.now.kept }
    requires all { frontier_of marks.now.kept ≡ length text.now }
    ensures well { IsWellKept text.now machine.new.matcher marks.now.kept }
    ensures marks { meant machine.new.matcher marks.now.kept ≡ meant machine.old.matcher marks.now.kept }
    ensures grammar { grammar_of machine.new.matcher ≡ grammar_of machine.old.matcher }
    ensures faults { IfOk result (AreFaultsOf (option_map language_of (grammar_of machine.old.matcher)) text.now) }
    ensures text { IfOk result (AllByRecursion (λ (fault : Fault). IsUtf8 fault.detail)) }
{
    later_machines_keep_it_right::<Recover<Pool>>();
    later_machines_mean_the_same::<Recover<Pool>>();
    let len = text.len();
    let faults = marks.faults(machine, len)?;
    Ok(faults)
}

/// What a command on tags changes. Reading goes on from the last mark in front of its place, or at the start.
pub(super) fn tag_changes<L: Ledger>(
    alloc: Global,
    machine: &Recover<Pool>,
    marks: &Marks<Recover<Pool>>,
    text: &Text,
    command: &TagCommand,
    steps: &mut Steps<L>,
) -> Result<Option<Changes>, NoMemory>
    requires well { IsWellKept text.now machine.now.matcher marks.now.kept }
    requires place { IsPlace text.now (place_of command.now) }
    requires name { PutsInQName command.now }
    ensures answer { IfOk result (Answers text.now command.now) }
    ensures changes { IfOk result (λ found. IfSome found (AreChanges text.now)) }
    ensures fit { IfOk result (λ found. IfSome found (FitsThen text.now)) }
{
    let _len = text.len();
    let (from, state) = marks.mark_before(machine, command.place().saturating_sub(1))?;
    changes_from(alloc, text, from, &state.events, command, steps)
}

/// What may stand at a place of the text. Reading goes on from the last mark in front of it, or at the start.
pub(super) fn offered<L: Ledger>(
    alloc: Global,
    machine: &mut Recover<Pool>,
    marks: &Marks<Recover<Pool>>,
    text: &Text,
    at: usize,
    steps: &mut Steps<L>,
) -> Result<Offers, NoMemory>
    requires well { IsWellKept text.now machine.old.matcher marks.now.kept }
    requires place { IsPlace text.now at }
    ensures well { IsWellKept text.now machine.new.matcher marks.now.kept }
    ensures marks { meant machine.new.matcher marks.now.kept ≡ meant machine.old.matcher marks.now.kept }
    ensures grammar { grammar_of machine.new.matcher ≡ grammar_of machine.old.matcher }
    ensures offers { IfOk result (AreOffersAt (option_map language_of (grammar_of machine.old.matcher)) text.now at) }
    ensures text { IfOk result OffersAreText }
{
    later_machines_keep_it_right::<Recover<Pool>>();
    later_machines_mean_the_same::<Recover<Pool>>();
    offers_are_exact();
    let _len = text.len();
    let (from, state) = marks.mark_before(machine, at.saturating_sub(1))?;
    offers(alloc, machine, from, &state, text, at, steps)
}
