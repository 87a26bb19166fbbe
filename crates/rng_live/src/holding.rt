//! Which conditions hold, by a work list.

ghost use Rattle.std.specs.Prelude.{◌≡◌, [], length, IfOk, OnOk};
ghost use Rattle.rng_restrict.specs.Finding.{IsMarked};
ghost use Rattle.rng_live.specs.Conditions.{AreHeld};
ghost use Rattle.rng_live.specs.Marking.{list_of, AreOrdered, judged, AreWoken};

use crate::condition::{Condition, condition_at};
use crate::waiting::Waiting;
use nx_base::memory::NoMemory;
use std::alloc::Global;

/// The conditions that were found to hold.
#[derive(Drop)]
struct Held {
    /// Their numbers, each once, in the order in which they were found.
    found: Vec<usize>,
    /// Whether each condition is among them.
    marks: Vec<bool>,
    ghost marked: { IsMarked found.items marks.items },
}

impl Held {
    /// None of so many conditions.
    fn new(alloc: Global, count: usize) -> Result<Held, NoMemory>
        ensures { IfOk result (λ held. (held.found.items ≡ []) × (length held.marks.items ≡ count)) }
    {
        let marks = vec![in alloc; false; count]?;
        Ok(Held {
            found: Vec::new(alloc),
            marks,
        })
    }

    /// Adds the condition of a number, if it wasn't found and holds by those that were.
    fn judge(&mut self, conditions: &[Condition], number: usize) -> Result<(), NoMemory>
        ensures found { OnOk result (self.new.found.items
            ≡ judged conditions.now (length self.old.marks.items) number self.old.found.items) }
        ensures steady { length self.new.marks.items ≡ length self.old.marks.items }
    {
        let Some(condition) = condition_at(conditions, number) else {
            return Ok(());
        };
        if number >= self.marks.len() {
            return Ok(());
        }
        if self.marks[number] {
            return Ok(());
        }
        if !condition.holds(self.marks.as_slice()) {
            return Ok(());
        }
        self.found.push(number)?;
        self.marks[number] = true;
        Ok(())
    }

    /// Judges those that rest on the condition of a number.
    fn wake(
        &mut self,
        conditions: &[Condition],
        waiting: &Waiting,
        number: usize,
    ) -> Result<(), NoMemory>
        requires ordered { AreOrdered waiting.now.waiters.items waiting.now.lists.items }
        requires whole { length self.old.marks.items ≡ length conditions.now }
        ensures woken { OnOk result (AreWoken conditions.now waiting.now.waiters.items (list_of waiting.now.lists.items number) number
            self.old.found.items self.new.found.items) }
        ensures steady { length self.new.marks.items ≡ length self.old.marks.items }
    {
        let mut list = waiting.list(number);
        while let Some(place) = list {
            let Some(waiter) = waiting.waiter(place) else {
                return Ok(());
            };
            self.judge(conditions, waiter.number)?;
            list = waiter.before;
        }
        Ok(())
    }
}

/// Marks the conditions that hold. It takes a step for each condition, and one for each that a condition rests on.
pub(crate) fn marks_of(alloc: Global, conditions: &[Condition]) -> Result<Vec<bool>, NoMemory>
    ensures { IfOk result (λ marks. AreHeld conditions.now marks.items) }
{
    let waiting = Waiting::new(alloc, conditions)?;
    let mut held = Held::new(alloc, conditions.len())?;
    for number in 0..conditions.len() {
        held.judge(conditions, number)?;
    }
    let mut next: usize = 0;
    while next < held.found.len() {
        let number = held.found[next];
        held.wake(conditions, &waiting, number)?;
        next += 1;
    }
    let Held { found: _, marks } = held;
    Ok(marks)
}
