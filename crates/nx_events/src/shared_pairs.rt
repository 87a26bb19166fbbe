//! Pairs that the copies of a list hold in one place.

ghost use Rattle.std.specs.Prelude.{◌≡◌, ◌≤◌, ◌++◌, ◌∷◌, [], length, take, option_copied, IfOk, OnOk, OnErr};
ghost use Rattle.nx_events.specs.declared.scope.Binding.{Binding};
ghost use Rattle.nx_events.specs.Places.{last_named};

use crate::scope::SharedBinding;
use crate::stack::{Stack, last_place_in};
use nx_base::memory::NoMemory;
use std::alloc::Global;
use std::marker::Model;
use std::rc::Rc;

/// Pairs in the order of their declarations. Copies of a list hold one stack, each the pairs at its front, until one of them takes another
/// pair: a root may declare a thousand, and states are kept by the ten thousand. To a contract they are the list.
#[derive(Drop)]
pub struct SharedPairs {
    alloc: Global,
    stack: Rc<Stack<SharedBinding>>,
    /// How many pairs of the stack are in this list.
    len: usize,
}

impl Model for SharedPairs {
    ghost use Rattle.std.specs.Prelude.{◌≤◌, List, length, take};
    ghost use Rattle.nx_events.specs.declared.scope.Binding.{Binding};

    ghost Value = { List Binding };

    ghost view = { λ pairs. take pairs.len pairs.stack.value };

    ghost invariant = { λ pairs. pairs.len ≤ length pairs.stack.value };
}

// Leaves so many pairs in a stack, and makes it one that no other list holds.
fn own_front(
    alloc: Global,
    stack: &mut Rc<Stack<SharedBinding>>,
    len: usize,
) -> Result<(), NoMemory>
    requires { len ≤ length stack.old.value }
    ensures ok { OnOk result (stack.new.value ≡ take len stack.old.value) }
    ensures err { OnErr result (stack.new.value ≡ stack.old.value) }
{
    if let Some(own) = Rc::get_mut(stack) {
        own.shorten(len);
        return Ok(());
    }
    let front = stack.front(len)?;
    *stack = Rc::new(alloc, front)?;
    Ok(())
}

// Adds a pair to a stack that no other list holds.
fn push_own(stack: &mut Rc<Stack<SharedBinding>>, pair: SharedBinding) -> Result<(), NoMemory>
    ensures ok { OnOk result (stack.new.value ≡ stack.old.value ++ pair ∷ []) }
    ensures err { OnErr result (stack.new.value ≡ stack.old.value) }
{
    match Rc::get_mut(stack) {
        Some(own) => own.push(pair),
        None => Err(NoMemory),
    }
}

// Adds copies of pairs to a stack that no other list holds.
fn append_own(stack: &mut Rc<Stack<SharedBinding>>, more: &[SharedBinding]) -> Result<(), NoMemory>
    ensures ok { OnOk result (stack.new.value ≡ stack.old.value ++ more.now) }
    ensures err { OnErr result (stack.new.value ≡ stack.old.value) }
{
    match Rc::get_mut(stack) {
        Some(own) => own.append(more),
        None => Err(NoMemory),
    }
}

impl SharedPairs {
    /// No pairs.
    pub(crate) fn new(alloc: Global) -> Result<SharedPairs, NoMemory>
        ensures { IfOk result (λ pairs. pairs ≡ []) }
    {
        Ok(SharedPairs {
            alloc,
            stack: Rc::new(alloc, Stack::new(alloc))?,
            len: 0,
        })
    }

    /// The pairs, in order.
    pub(crate) fn as_slice(&self) -> &[SharedBinding]
        ensures { result.now ≡ self.now }
    {
        &self.stack.as_slice()[..self.len]
    }

    /// The last pair of the prefix.
    pub(crate) fn last_named(&self, prefix: &[u8]) -> Option<&SharedBinding>
        ensures { option_copied result ≡ last_named (λ (binding : Binding). binding.prefix) prefix.now self.now }
    {
        if self.len == self.stack.len() {
            return self.stack.last_named(prefix);
        }
        let pairs = self.as_slice();
        pairs.get(last_place_in(pairs, prefix)?)
    }

    /// Adds a pair at the end.
    pub(crate) fn push(&mut self, pair: SharedBinding) -> Result<(), NoMemory>
        ensures ok { OnOk result (self.new ≡ self.old ++ pair ∷ []) }
        ensures err { OnErr result (self.new ≡ self.old) }
    {
        own_front(self.alloc, &mut self.stack, self.len)?;
        push_own(&mut self.stack, pair)?;
        self.len = self.stack.len();
        Ok(())
    }

    /// Adds copies of pairs at the end, or leaves the list as it is.
    pub(crate) fn append(&mut self, more: &[SharedBinding]) -> Result<(), NoMemory>
        ensures ok { OnOk result (self.new ≡ self.old ++ more.now) }
        ensures err { OnErr result (self.new ≡ self.old) }
    {
        own_front(self.alloc, &mut self.stack, self.len)?;
        append_own(&mut self.stack, more)?;
        self.len = self.stack.len();
        Ok(())
    }

    /// Leaves so many pairs at the front. Where other lists hold them too, the others stay in the stack unless there is memory for one of its own.
    pub(crate) fn shorten(&mut self, n: usize)
        ensures { self.new ≡ take n self.old }
    {
        if n < self.len {
            // Without memory the front is looked through for a name, which is slower and finds the same.
            let _own = own_front(self.alloc, &mut self.stack, n);
            self.len = n;
        }
    }

    /// The same pairs, which both lists hold.
    pub(crate) fn share(&self) -> Result<SharedPairs, NoMemory>
        ensures { IfOk result (λ pairs. pairs ≡ self.now) }
    {
        Ok(SharedPairs {
            alloc: self.alloc,
            stack: self.stack.clone()?,
            len: self.len,
        })
    }
}
