//! Which conditions rest on which.

ghost use Rattle.std.specs.Prelude.{◌≡◌, IfOk, OnOk, length, option_copied, replicate, slice_get};
ghost use Rattle.rng_live.specs.Marking.{list_of, IsNoted, IsNotedAt, AreListed};

use crate::condition::Condition;
use nx_base::memory::NoMemory;
use std::alloc::Global;

/// A condition on the list of one that it rests on.
#[derive(Clone, Copy, Debug, PartialEq, Eq)]
pub(crate) struct Waiter {
    /// The condition's number.
    pub(crate) number: usize,
    /// The place of the next one on the list, which was put there before.
    pub(crate) before: Option<usize>,
}

/// For each condition a list of those that rest on it.
#[derive(Drop)]
pub(crate) struct Waiting {
    /// What stands on the lists.
    pub(crate) waiters: Vec<Waiter>,
    /// Where each condition's list begins.
    pub(crate) lists: Vec<Option<usize>>,
}

/// So many lists on which nothing stands.
fn no_lists(alloc: Global, count: usize) -> Result<Vec<Option<usize>>, NoMemory>
    ensures { IfOk result (λ lists. lists.items ≡ replicate count None) }
{
    let mut lists = Vec::with_capacity(alloc, count)?;
    while lists.len() < count {
        lists.push(None)?;
    }
    Ok(lists)
}

impl Waiting {
    /// The place where the list of a condition begins.
    pub(crate) fn list(&self, number: usize) -> Option<usize>
        ensures { result ≡ list_of self.now.lists.items number }
    {
        match self.lists.as_slice().get(number) {
            Some(list) => *list,
            None => None,
        }
    }

    /// What stands at a place.
    pub(crate) fn waiter(&self, place: usize) -> Option<&Waiter>
        ensures { option_copied result ≡ slice_get self.now.waiters.items place }
    {
        self.waiters.as_slice().get(place)
    }

    /// Puts a condition on the list of one that it rests on.
    fn add(&mut self, on: usize, number: usize) -> Result<(), NoMemory>
        ensures { OnOk result (IsNoted on number self.old.waiters.items self.old.lists.items self.new.waiters.items self.new.lists.items) }
    {
        if on >= self.lists.len() {
            return Ok(());
        }
        let before = self.lists[on];
        let place = self.waiters.len();
        self.waiters.push(Waiter { number, before })?;
        self.lists[on] = Some(place);
        Ok(())
    }

    /// Puts a condition on the lists of those that it rests on.
    fn add_all(&mut self, number: usize, condition: Condition) -> Result<(), NoMemory>
        ensures { OnOk result (IsNotedAt number condition self.old.waiters.items self.old.lists.items
            self.new.waiters.items self.new.lists.items) }
    {
        match condition {
            Condition::Known(_) => Ok(()),
            Condition::If(_, on) => {
                self.add(on, number)?;
                Ok(())
            }
            Condition::Both(a, b) => {
                self.add(a, number)?;
                self.add(b, number)?;
                Ok(())
            }
            Condition::Either(a, b) => {
                self.add(a, number)?;
                self.add(b, number)?;
                Ok(())
            }
        }
    }

    /// The lists of all conditions.
    pub(crate) fn new(alloc: Global, conditions: &[Condition]) -> Result<Waiting, NoMemory>
        ensures { IfOk result (λ made. AreListed conditions.now (length conditions.now) made.waiters.items made.lists.items) }
    {
        let lists = no_lists(alloc, conditions.len())?;
        let mut waiting = Waiting {
            waiters: Vec::new(alloc),
            lists,
        };
        for number in 0..conditions.len() {
            waiting.add_all(number, conditions[number])?;
        }
        Ok(waiting)
    }
}
