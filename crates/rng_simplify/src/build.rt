//! The grammar of forms: patterns spelled out, and a definition for each element.

ghost use Rattle.std.specs.Prelude.{◌≡◌, ◌∷◌, ◌++◌, [], ◌<◌, ℕ, List, map, length, IfOk};
ghost use Rattle.rng_core.specs.Meaning.{pattern_of};
ghost use Rattle.rng_simplify.specs.declared.build.Task.{Task as TaskOf};
ghost use Rattle.rng_simplify.specs.declared.build.Task.TheVariants.{Spell, Wrap};
ghost use Rattle.rng_simplify.specs.Cells.{cell_of};
ghost use Rattle.rng_simplify.specs.NodeForms.{IsKnown};
ghost use Rattle.rng_simplify.specs.Limits.{AreElements, IsElement, content_of};
ghost use Rattle.rng_simplify.specs.NodeTypes.{IsValue};
ghost use Rattle.rng_simplify.specs.SpelledShapes.{IsReady, HasAttribute, HasType, Leaves, IsAttribute, IsLiteral, IsTyped};
ghost use Rattle.rng_simplify.specs.SpelledShapes.{BuildsPattern, IsUnderWay, Does, BuildsDefinition, Builds};
ghost use Rattle.rng_simplify.specs.SpelledShapes.{joined_pattern};

use crate::fault::SchemaFault;
use crate::form::Forms;
use crate::node::{Node, NodeNumber, Sign};
use crate::order::Place;
use crate::shape::{Shape, ShapeNumber};
use crate::types::NodeType;
use nx_base::memory::NoMemory;
use nx_base::sequence::TryCopy;
use rng_core::building::{
    attribute_of, choice_of, group_of, interleave_of, list_of, one_or_more_of,
};
use rng_core::grammar::{Def, Defs, Grammar, Pat};
use std::alloc::Global;

/// What is still to be done for a pattern.
#[derive(Clone, Copy, Debug)]
enum Task {
    /// The pattern of this shape.
    Spell(ShapeNumber),
    /// The pattern of this shape, whose parts are the patterns built last.
    Wrap(ShapeNumber),
}

/// What patterns are built of.
#[derive(Drop)]
pub(crate) struct Builder<'a> {
    pub(crate) alloc: Global,
    pub(crate) nodes: &'a [Node],
    pub(crate) forms: &'a Forms,
    /// The types of the nodes that have one.
    pub(crate) types: &'a [Option<NodeType>],
}

/// The two joined.
fn joined(alloc: Global, sign: Sign, first: Pat, second: Pat) -> Result<Pat, NoMemory>
    ensures { IfOk result (λ built. pattern_of built ≡ joined_pattern sign (pattern_of first) (pattern_of second)) }
{
    match sign {
        Sign::Choice => choice_of(alloc, first, second),
        Sign::Group => group_of(alloc, first, second),
        Sign::Interleave => interleave_of(alloc, first, second),
    }
}

/// The pattern that was built last.
fn last_of(built: &mut Vec<Pat>) -> Pat
    requires { 0 < length built.old.items }
    ensures { built.old.items ≡ built.new.items ++ result ∷ [] }
{
    match built.pop() {
        Some(pattern) => pattern,
        None => unreachable!(),
    }
}

/// Leaves a shape's only part to be built, and then the shape around it.
fn leave_one(
    shape: ShapeNumber,
    part: ShapeNumber,
    tasks: &mut Vec<Task>,
) -> Result<(), SchemaFault>
    ensures { Leaves tasks.old.items (Wrap shape ∷ Spell part ∷ []) tasks.new.items result }
{
    tasks.push(Task::Wrap(shape))?;
    tasks.push(Task::Spell(part))?;
    Ok(())
}

/// Leaves a shape's two parts to be built, and then the shape around them.
fn leave_two(
    shape: ShapeNumber,
    first: ShapeNumber,
    second: ShapeNumber,
    tasks: &mut Vec<Task>,
) -> Result<(), SchemaFault>
    ensures { Leaves tasks.old.items (Wrap shape ∷ Spell second ∷ Spell first ∷ []) tasks.new.items result }
{
    tasks.push(Task::Wrap(shape))?;
    tasks.push(Task::Spell(second))?;
    tasks.push(Task::Spell(first))?;
    Ok(())
}

impl Builder<'_> {
    /// The pattern of a shape. It is as deep as the limit allows, so it isn't built by recursion.
    fn pattern(&self, shape: ShapeNumber) -> Result<Pat, SchemaFault>
        requires ready { IsReady (map cell_of self.now.nodes.now) self.now.types.now self.now.forms.now.shapes }
        requires within { shape < length self.now.forms.now.shapes }
        ensures { BuildsPattern (map cell_of self.now.nodes.now) self.now.types.now self.now.forms.now.shapes shape result }
    {
        let mut tasks = Vec::new(self.alloc);
        tasks.push(Task::Spell(shape))?;
        let mut built = Vec::new(self.alloc);
        while let Some(task) = tasks.pop() {
            self.step(task, &mut tasks, &mut built)?;
        }
        match built.pop() {
            Some(pattern) => Ok(pattern),
            None => unreachable!(),
        }
    }

    /// Does a task.
    fn step(
        &self,
        task: Task,
        tasks: &mut Vec<Task>,
        built: &mut Vec<Pat>,
    ) -> Result<(), SchemaFault>
        requires ready { IsReady (map cell_of self.now.nodes.now) self.now.types.now self.now.forms.now.shapes }
        requires under_way { (root : ℕ) × IsUnderWay
            (map cell_of self.now.nodes.now) self.now.types.now self.now.forms.now.shapes root
            (tasks.old.items ++ task ∷ []) built.old.items }
        ensures { Does (map cell_of self.now.nodes.now) self.now.types.now self.now.forms.now.shapes task
            tasks.old.items tasks.new.items built.old.items built.new.items result }
    {
        match task {
            Task::Spell(shape) => self.spell(shape, tasks, built),
            Task::Wrap(shape) => self.wrap(shape, built),
        }
    }

    /// Builds a shape without parts, or leaves its parts to be built, and then the shape around them.
    fn spell(
        &self,
        shape: ShapeNumber,
        tasks: &mut Vec<Task>,
        built: &mut Vec<Pat>,
    ) -> Result<(), SchemaFault>
        requires ready { IsReady (map cell_of self.now.nodes.now) self.now.types.now self.now.forms.now.shapes }
        requires within { shape < length self.now.forms.now.shapes }
        ensures { Does (map cell_of self.now.nodes.now) self.now.types.now self.now.forms.now.shapes
            (Spell shape) tasks.old.items tasks.new.items built.old.items built.new.items result }
    {
        match self.forms.shapes.shape(shape) {
            Shape::NotAllowed => {
                built.push(Pat::NotAllowed)?;
                Ok(())
            }
            Shape::Empty => {
                built.push(Pat::Empty)?;
                Ok(())
            }
            Shape::Text => {
                built.push(Pat::Text)?;
                Ok(())
            }
            Shape::Value(node) => {
                built.push(self.value(node)?)?;
                Ok(())
            }
            Shape::Typed(node) => {
                built.push(self.typed(node)?)?;
                Ok(())
            }
            Shape::Ref(number) => {
                built.push(Pat::Ref(number.0 as u32))?;
                Ok(())
            }
            Shape::List(part) => leave_one(shape, part, tasks),
            Shape::Attribute(_, part) => leave_one(shape, part, tasks),
            Shape::OneOrMore(part) => leave_one(shape, part, tasks),
            Shape::Joined(_, first, second) => leave_two(shape, first, second, tasks),
        }
    }

    /// Builds a shape around the parts that were built last.
    fn wrap(&self, shape: ShapeNumber, built: &mut Vec<Pat>) -> Result<(), SchemaFault>
        requires ready { IsReady (map cell_of self.now.nodes.now) self.now.types.now self.now.forms.now.shapes }
        requires under_way { (root : ℕ) × (tasks : List TaskOf) × IsUnderWay
            (map cell_of self.now.nodes.now) self.now.types.now self.now.forms.now.shapes root
            (tasks ++ Wrap shape ∷ []) built.old.items }
        ensures { (tasks : List TaskOf) → Does (map cell_of self.now.nodes.now) self.now.types.now self.now.forms.now.shapes
            (Wrap shape) tasks tasks built.old.items built.new.items result }
    {
        match self.forms.shapes.shape(shape) {
            Shape::List(_) => {
                let body = last_of(built);
                built.push(list_of(self.alloc, body)?)?;
                Ok(())
            }
            Shape::Attribute(node, _) => {
                let value = last_of(built);
                built.push(self.attribute(node, value)?)?;
                Ok(())
            }
            Shape::OneOrMore(_) => {
                let body = last_of(built);
                built.push(one_or_more_of(self.alloc, body)?)?;
                Ok(())
            }
            Shape::Joined(sign, _, _) => {
                let second = last_of(built);
                let first = last_of(built);
                built.push(joined(self.alloc, sign, first, second)?)?;
                Ok(())
            }
            _ => unreachable!(),
        }
    }

    /// An attribute with the class of a node and this value.
    fn attribute(&self, node: NodeNumber, value: Pat) -> Result<Pat, NoMemory>
        requires { HasAttribute (map cell_of self.now.nodes.now) node }
        ensures { IfOk result (λ built. IsAttribute (map cell_of self.now.nodes.now) node (pattern_of value) (pattern_of built)) }
    {
        match &self.nodes[node.0] {
            Node::Attribute(class, _) => {
                let class = class.copy(self.alloc)?;
                attribute_of(self.alloc, class, value)
            }
            _ => unreachable!(),
        }
    }

    /// The value of a node.
    fn value(&self, node: NodeNumber) -> Result<Pat, NoMemory>
        requires value { IsValue (map cell_of self.now.nodes.now) node }
        requires known { HasType self.now.types.now node }
        ensures { IfOk result (λ built. IsLiteral (map cell_of self.now.nodes.now) self.now.types.now node (pattern_of built)) }
    {
        match &self.nodes[node.0] {
            Node::Value(_, text) => match &self.types[node.0] {
                Some(of) => Ok(Pat::Value(of.datatype.copy()?, text.copy()?)),
                None => unreachable!(),
            },
            _ => unreachable!(),
        }
    }

    /// The type of a node.
    fn typed(&self, node: NodeNumber) -> Result<Pat, NoMemory>
        requires { HasType self.now.types.now node }
        ensures { IfOk result (λ built. IsTyped self.now.types.now node (pattern_of built)) }
    {
        match &self.types[node.0] {
            Some(of) => Ok(Pat::Typed(of.datatype.copy()?, of.excepts.copy()?)),
            None => unreachable!(),
        }
    }

    /// The definition of an element.
    fn definition(&self, element: NodeNumber) -> Result<Def, SchemaFault>
        requires ready { IsReady (map cell_of self.now.nodes.now) self.now.types.now self.now.forms.now.shapes }
        requires element { IsElement (map cell_of self.now.nodes.now) element }
        requires content { IsKnown self.now.forms.now.shapes self.now.forms.now.of.items
            (content_of (map cell_of self.now.nodes.now) element) }
        ensures { BuildsDefinition (map cell_of self.now.nodes.now) self.now.types.now self.now.forms.now element result }
    {
        match &self.nodes[element.0] {
            Node::Element(class, content) => Ok(Def {
                class: class.copy(self.alloc)?,
                content: self.pattern(self.forms.of(Place(content.0)))?,
            }),
            _ => unreachable!(),
        }
    }

    /// The grammar with this start and definitions of these elements. What is built is no deeper and no larger than the
    /// limits.
    pub(crate) fn grammar(
        &self,
        root: NodeNumber,
        elements: &[NodeNumber],
    ) -> Result<Grammar, SchemaFault>
        requires ready { IsReady (map cell_of self.now.nodes.now) self.now.types.now self.now.forms.now.shapes }
        requires start { IsKnown self.now.forms.now.shapes self.now.forms.now.of.items root }
        requires elements { AreElements (map cell_of self.now.nodes.now) self.now.forms.now elements.now }
        ensures { Builds (map cell_of self.now.nodes.now) self.now.types.now self.now.forms.now root elements.now result }
    {
        let mut defs = Defs::new(self.alloc);
        for element in elements {
            defs.push(self.definition(*element)?)?;
        }
        Ok(Grammar {
            start: self.pattern(self.forms.of(Place(root.0)))?,
            defs,
        })
    }
}
