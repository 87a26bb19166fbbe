//! How an element begins.

ghost use Rattle.std.specs.Prelude.{◌≡◌, ◌<◌, [], ◌∷◌, ◌++◌, map, length, reverse, false, OnOk, IfOk, IsTrue};
ghost use Rattle.std.specs.Option.{option_map};
ghost use Rattle.std.specs.List.{AllByRecursion};
ghost use Rattle.rng_core.specs.Meaning.{pattern_of};
ghost use Rattle.rng_cost.specs.Leaves.{patterns_of};
ghost use Rattle.rng_fill.specs.declared.element.Task.TheVariants as task;
ghost use Rattle.rng_fill.specs.Contents.{definitions_in, costs_in, AreRead};
ghost use Rattle.rng_fill.specs.Fillable.{CanBeFilled, HasFilling, IsNamed};
ghost use Rattle.rng_fill.specs.Sorted.{ref_leaves, string_leaves, first_of, takes_string};
ghost use Rattle.rng_fill.specs.Strings.{AreSoundTexts, has_some_string};
ghost use Rattle.rng_fill.specs.Doing.{AddsString, Begins, Steps, AreTasksOf};
ghost use Rattle.rng_fill.specs.Heads.{AddsStringOf, IsBeginning, IsBeginningOf, AreHeads};

use crate::attributes::write_attributes;
use crate::contents::Contents;
use crate::element::Task;
use crate::heads::{Head, Heads};
use crate::moves::{Move, Moves};
use crate::strings::string_of;
use nx_base::memory::NoMemory;
use rng_core::grammar::Pat;
use std::alloc::Global;

/// Puts the element of a leaf on the stack, if it is one's.
fn push_if_element(leaf: &Pat, tasks: &mut Vec<Task>) -> Result<(), NoMemory>
    ensures { OnOk result (tasks.new.items ≡ tasks.old.items ++ map task.Element (ref_leaves (pattern_of leaf.now ∷ []))) }
{
    match leaf {
        Pat::Ref(number) => {
            tasks.push(Task::Element(*number))?;
            Ok(())
        }
        Pat::NotAllowed
        | Pat::Empty
        | Pat::Text
        | Pat::Typed(_, _)
        | Pat::Value(_, _)
        | Pat::List(_)
        | Pat::Attribute(_, _)
        | Pat::OneOrMore(_)
        | Pat::Choice(_, _)
        | Pat::Group(_, _)
        | Pat::Interleave(_, _) => Ok(()),
    }
}

/// Puts the elements among leaves on the stack, so that the first of them is the next.
fn push_elements(leaves: &[&Pat], tasks: &mut Vec<Task>) -> Result<(), NoMemory>
    ensures { OnOk result (tasks.new.items ≡ tasks.old.items ++ reverse (map task.Element (ref_leaves (patterns_of leaves.now)))) }
{
    let mut left = leaves.len();
    while left > 0 {
        left -= 1;
        push_if_element(leaves[left], tasks)?;
    }
    Ok(())
}

/// Whether a leaf is that of a string.
fn is_string(leaf: &Pat) -> bool
    ensures { result ≡ takes_string (pattern_of leaf.now) }
{
    match leaf {
        Pat::Attribute(_, _) => false,
        Pat::Ref(_) => false,
        Pat::NotAllowed
        | Pat::Empty
        | Pat::Text
        | Pat::Typed(_, _)
        | Pat::Value(_, _)
        | Pat::List(_)
        | Pat::OneOrMore(_)
        | Pat::Choice(_, _)
        | Pat::Group(_, _)
        | Pat::Interleave(_, _) => true,
    }
}

/// The first leaf that is that of a string.
fn string_leaf<'a>(leaves: &[&'a Pat]) -> Option<&'a Pat>
    ensures { option_map (λ leaf. pattern_of leaf.now) result ≡ first_of (string_leaves (patterns_of leaves.now)) }
{
    for &leaf in leaves {
        if is_string(leaf) {
            return Some(leaf);
        }
    }
    None
}

/// Writes the string of a leaf, but for the empty one.
fn write_string(alloc: Global, leaf: &Pat, moves: &mut Moves) -> Result<(), NoMemory>
    requires sound { AreSoundTexts (pattern_of leaf.now) }
    requires some { IsTrue (has_some_string false (pattern_of leaf.now)) }
    ensures { OnOk result (AddsString (pattern_of leaf.now) moves.old moves.new) }
{
    let Some(text) = string_of(alloc, leaf, false)? else {
        unreachable!();
    };
    if text.is_empty() {
        return Ok(());
    }
    moves.push(Move::Chars(text))?;
    Ok(())
}

/// Writes the string among leaves, if one of them is a string's, but for the empty one.
fn write_some_string(alloc: Global, leaves: &[&Pat], moves: &mut Moves) -> Result<(), NoMemory>
    requires { AllByRecursion HasFilling (patterns_of leaves.now) }
    ensures { OnOk result (AddsStringOf (first_of (string_leaves (patterns_of leaves.now))) moves.old moves.new) }
{
    match string_leaf(leaves) {
        Some(leaf) => {
            write_string(alloc, leaf, moves)?;
            Ok(())
        }
        None => Ok(()),
    }
}

/// What elements with these leaves begin with, behind their name: attributes, the end of the start tag, and the string, if there is one.
pub(crate) fn beginning(alloc: Global, leaves: &[&Pat]) -> Result<Moves, NoMemory>
    requires { AllByRecursion HasFilling (patterns_of leaves.now) }
    ensures { IfOk result (IsBeginning (patterns_of leaves.now)) }
{
    let mut moves = Moves::new(alloc);
    write_attributes(alloc, leaves, &mut moves)?;
    moves.push(Move::TagEnd)?;
    write_some_string(alloc, leaves, &mut moves)?;
    Ok(moves)
}

impl Contents<'_> {
    /// Begins what is in an element of a definition by the moves that it begins with; its elements are put on the stack.
    pub(crate) fn begin(
        &self,
        number: u32,
        beginning: Moves,
        tasks: &mut Vec<Task>,
        moves: &mut Moves,
    ) -> Result<(), NoMemory>
        requires read { AreRead self.now }
        requires fit { CanBeFilled (definitions_in self.now) (costs_in self.now) }
        requires inside { number < length (definitions_in self.now) }
        requires beginning { IsBeginningOf (definitions_in self.now) (costs_in self.now) number beginning }
        requires tasks { AreTasksOf (definitions_in self.now) tasks.old.items }
        ensures { OnOk result (Begins (definitions_in self.now) (costs_in self.now) number tasks.old.items tasks.new.items
            moves.old moves.new) }
    {
        moves.append(beginning)?;
        tasks.push(Task::Leave)?;
        let leaves = self.leaves_at(number);
        match string_leaf(leaves) {
            Some(_) => Ok(()),
            None => {
                push_elements(leaves, tasks)?;
                Ok(())
            }
        }
    }

    /// Writes the start of an element of a definition, with some name of its class, and begins what is in it.
    pub(crate) fn start(
        &self,
        number: u32,
        heads: &mut Heads,
        tasks: &mut Vec<Task>,
        moves: &mut Moves,
    ) -> Result<(), NoMemory>
        requires read { AreRead self.now }
        requires fit { CanBeFilled (definitions_in self.now) (costs_in self.now) }
        requires named { IsNamed (definitions_in self.now) number }
        requires heads { AreHeads (definitions_in self.now) (costs_in self.now) heads.old }
        requires tasks { AreTasksOf (definitions_in self.now) tasks.old.items }
        ensures steps { OnOk result (Steps (definitions_in self.now) (costs_in self.now) (task.Element number) tasks.old.items tasks.new.items
            moves.old moves.new) }
        ensures heads { AreHeads (definitions_in self.now) (costs_in self.now) heads.new }
    {
        let Head {
            name,
            moves: beginning,
        } = self.head(number, heads)?;
        let Some(name) = name else {
            unreachable!();
        };
        moves.push(Move::Enter(name))?;
        self.begin(number, beginning, tasks, moves)?;
        Ok(())
    }
}
