//! Elements of a definition, written along a stack of what is still to be done.

ghost use Rattle.std.specs.Prelude.{◌<◌, [], length, OnOk};
ghost use Rattle.rng_fill.specs.Contents.{definitions_in, costs_in, AreRead};
ghost use Rattle.rng_fill.specs.Fillable.{CanBeFilled, IsNamed};
ghost use Rattle.rng_fill.specs.Heads.{AreHeads};
ghost use Rattle.rng_fill.specs.Doing.{AddsElement, AddsInside, Continues, IsTaskOf, AreTasksOf, Steps};

use crate::contents::Contents;
use crate::heads::Heads;
use crate::moves::{Move, Moves};
use nx_base::memory::NoMemory;

/// What is still to be written.
#[derive(Clone, Copy, Debug, PartialEq, Eq)]
pub(crate) enum Task {
    /// An element of the definition of this number.
    Element(u32),
    /// The end of one.
    Leave,
}

impl Contents<'_> {
    /// Writes the next of what is to be done.
    fn step(
        &self,
        task: Task,
        heads: &mut Heads,
        tasks: &mut Vec<Task>,
        moves: &mut Moves,
    ) -> Result<(), NoMemory>
        requires read { AreRead self.now }
        requires fit { CanBeFilled (definitions_in self.now) (costs_in self.now) }
        requires task { IsTaskOf (definitions_in self.now) task }
        requires heads { AreHeads (definitions_in self.now) (costs_in self.now) heads.old }
        requires tasks { AreTasksOf (definitions_in self.now) tasks.old.items }
        ensures steps { OnOk result (Steps (definitions_in self.now) (costs_in self.now) task tasks.old.items tasks.new.items
            moves.old moves.new) }
        ensures heads { AreHeads (definitions_in self.now) (costs_in self.now) heads.new }
    {
        match task {
            Task::Element(number) => {
                self.start(number, heads, tasks, moves)?;
                Ok(())
            }
            Task::Leave => {
                moves.push(Move::Leave)?;
                Ok(())
            }
        }
    }

    /// Writes all that is to be done.
    fn finish(
        &self,
        heads: &mut Heads,
        tasks: &mut Vec<Task>,
        moves: &mut Moves,
    ) -> Result<(), NoMemory>
        requires read { AreRead self.now }
        requires fit { CanBeFilled (definitions_in self.now) (costs_in self.now) }
        requires heads { AreHeads (definitions_in self.now) (costs_in self.now) heads.old }
        requires tasks { AreTasksOf (definitions_in self.now) tasks.old.items }
        ensures continues { OnOk result (Continues (definitions_in self.now) tasks.old.items [] moves.old moves.new) }
        ensures heads { AreHeads (definitions_in self.now) (costs_in self.now) heads.new }
    {
        while let Some(task) = tasks.pop() {
            self.step(task, heads, tasks, moves)?;
        }
        Ok(())
    }

    /// Adds the moves of an element that the definition of a number allows, with a name of its class. It takes as many steps as it adds
    /// moves, and what the heads take that weren't known. Without memory some of the moves may have been added.
    pub fn write_element(
        &self,
        number: u32,
        heads: &mut Heads,
        moves: &mut Moves,
    ) -> Result<(), NoMemory>
        requires read { AreRead self.now }
        requires fit { CanBeFilled (definitions_in self.now) (costs_in self.now) }
        requires heads { AreHeads (definitions_in self.now) (costs_in self.now) heads.old }
        requires named { IsNamed (definitions_in self.now) number }
        ensures added { OnOk result (AddsElement (definitions_in self.now) number moves.old moves.new) }
        ensures heads { AreHeads (definitions_in self.now) (costs_in self.now) heads.new }
    {
        let mut tasks: Vec<Task> = Vec::new(self.alloc);
        tasks.push(Task::Element(number))?;
        self.finish(heads, &mut tasks, moves)?;
        Ok(())
    }

    /// Adds the moves of what is in an element that the definition of a number allows, behind its name: attributes, the end of the
    /// start tag, children, and the element's end. The name is given.
    pub fn write_inside(
        &self,
        number: u32,
        heads: &mut Heads,
        moves: &mut Moves,
    ) -> Result<(), NoMemory>
        requires read { AreRead self.now }
        requires fit { CanBeFilled (definitions_in self.now) (costs_in self.now) }
        requires heads { AreHeads (definitions_in self.now) (costs_in self.now) heads.old }
        requires inside { number < length (definitions_in self.now) }
        ensures added { OnOk result (AddsInside (definitions_in self.now) number moves.old moves.new) }
        ensures heads { AreHeads (definitions_in self.now) (costs_in self.now) heads.new }
    {
        let mut tasks: Vec<Task> = Vec::new(self.alloc);
        let head = self.head(number, heads)?;
        self.begin(number, head.moves, &mut tasks, moves)?;
        self.finish(heads, &mut tasks, moves)?;
        Ok(())
    }
}
