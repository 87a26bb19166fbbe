//! References resolved to what grammars define (ISO/IEC 19757-2, sections 7.18 and 7.19).
//!
//! A node's parts have smaller numbers than the node, so that one walk from the whole down meets each grammar before what
//! stands in it. Definitions that were replaced are never met.

ghost use Rattle.std.specs.Prelude.{◌≡◌, ℕ, ◌+◌, ◌<◌, ◌&&◌, ◌||◌, List, [], ◌∷◌, length, map, replicate, Some, Contains, IfOk, OnOk};
ghost use Rattle.rng_simplify.specs.declared.node.Clause.{Clause};
ghost use Rattle.rng_simplify.specs.Broken.{is_alone as says_nothing};
ghost use Rattle.rng_simplify.specs.Refusals.{cells_of, OkOrRefused};
ghost use Rattle.rng_simplify.specs.Cells.{cell_of};
ghost use Rattle.rng_simplify.specs.NameTables.{kept_for};
ghost use Rattle.rng_simplify.specs.ResolvedNodes.{IsResolved, IsToDefinitions, IsToElement, combined_number, element_number};
ghost use Rattle.rng_simplify.specs.Findings.{AddsTo, both_say, HasSigns, IsGathered, GathersOne, Gathers, given};
ghost use Rattle.rng_simplify.specs.Findings.{with_given, findings_of, findings_at_first, outer_in, combined_in, Links};
ghost use Rattle.rng_simplify.specs.Findings.{TakesGrammar, TakesCell, IsMidway, numbering_of, with_number};
ghost use Rattle.rng_simplify.specs.Findings.{with_numbered, AreNumbered};
ghost use Rattle.rng_simplify.specs.NodePlaces.{AreWellFormed, bodies_of, inner_nodes};

use crate::compose::Whole;
use crate::fault::SchemaFault;
use crate::names::Names;
use crate::node::{Clause, Node, NodeNumber};
use nx_base::cause::Cause;
use nx_base::memory::NoMemory;
use nx_base::sequence::Bytes;
use rnc_parse::surface::{Combine, Defined};
use std::alloc::Global;
use std::marker::Model;

/// The grammar in which a node stands.
#[derive(Clone, Copy, Debug, PartialEq, Eq)]
pub(crate) enum Scope {
    /// The node stands nowhere: what it is a part of was replaced.
    Nowhere,
    /// It stands outside of every grammar.
    Outside,
    /// It stands in the grammar of this number.
    In(usize),
}

/// Combined definitions, by their place among all of them. To a contract they are that place.
#[derive(Clone, Copy, Debug, PartialEq, Eq)]
pub(crate) struct CombinedNumber(pub(crate) usize);

impl Model for CombinedNumber {
    ghost use Rattle.std.specs.Prelude.{ℕ};

    ghost Value = { ℕ };

    ghost view = { λ number. number.0 };

    ghost inverse = { λ n. record { 0 = n } };
}

/// An element that stands in the schema, by its place among them. Its definition has that number in the grammar. To a contract it
/// is that place.
#[derive(Clone, Copy, Debug, PartialEq, Eq)]
pub(crate) struct ElementNumber(pub(crate) usize);

impl Model for ElementNumber {
    ghost use Rattle.std.specs.Prelude.{ℕ};

    ghost Value = { ℕ };

    ghost view = { λ number. number.0 };

    ghost inverse = { λ n. record { 0 = n } };
}

/// To what a node leads beside its parts.
#[derive(Clone, Copy, Debug, PartialEq, Eq)]
pub(crate) enum Target {
    /// To nothing.
    Nothing,
    /// A reference to the combined definitions of its name, a grammar to those of its start.
    Definitions(CombinedNumber),
    /// An element to its own definition.
    Element(ElementNumber),
}

impl Target {
    /// The combined definitions to which a reference or a grammar leads.
    pub(crate) fn combined(self) -> CombinedNumber
        requires { IsToDefinitions self }
        ensures { result ≡ combined_number self }
    {
        match self {
            Target::Definitions(number) => number,
            Target::Nothing | Target::Element(_) => unreachable!(),
        }
    }

    /// The number of an element that stands in the schema.
    pub(crate) fn element(self) -> ElementNumber
        requires { IsToElement self }
        ensures { result ≡ element_number self }
    {
        match self {
            Target::Element(number) => number,
            Target::Nothing | Target::Definitions(_) => unreachable!(),
        }
    }
}

/// The definitions of one name in one grammar, combined.
#[derive(Drop)]
pub(crate) struct Combined {
    /// How they are combined; nothing is said where one stands alone.
    pub(crate) combine: Combine,
    /// Whether one of them says nothing of how it is combined.
    has_alone: bool,
    /// Their nodes, in order.
    pub(crate) bodies: Vec<NodeNumber>,
}

/// A grammar that was met.
#[derive(Drop)]
struct Table {
    /// The grammar around it.
    outer: Scope,
    /// The number of the combined definitions of each name.
    combined: Names<CombinedNumber>,
}

/// What is known of each node.
#[derive(Drop)]
pub(crate) struct Resolved {
    pub(crate) scopes: Vec<Scope>,
    pub(crate) links: Vec<Target>,
    pub(crate) combined: Vec<Combined>,
    /// The elements' nodes by the numbers of their definitions.
    pub(crate) elements: Vec<NodeNumber>,
}

/// A walk over the nodes.
#[derive(Drop)]
struct Resolver {
    alloc: Global,
    tables: Vec<Table>,
    scopes: Vec<Scope>,
    links: Vec<Target>,
    combined: Vec<Combined>,
}

/// A list of so many times the same value.
fn filled<T: Copy + Drop>(alloc: Global, value: T, count: usize) -> Result<Vec<T>, NoMemory>
    ensures { IfOk result (λ values. values.items ≡ replicate count value) }
{
    let mut values = Vec::with_capacity(alloc, count)?;
    for _ in 0..count {
        values.push(value)?;
    }
    Ok(values)
}

/// Resolves the references of a whole schema.
pub(crate) fn resolve(alloc: Global, whole: &Whole) -> Result<Resolved, SchemaFault>
    requires { AreWellFormed (cells_of whole.now) whole.now.root }
    ensures { OkOrRefused (cells_of whole.now) whole.now.root (IsResolved (cells_of whole.now) whole.now.root) result }
{
    let mut resolver = Resolver::begin(alloc, whole.nodes.len(), whole.root)?;
    resolver.walk(whole)?;
    let Resolver {
        scopes,
        links,
        combined,
        ..
    } = resolver;
    let mut links = links;
    let elements = numbered(alloc, whole.nodes.as_slice(), scopes.as_slice(), &mut links)?;
    Ok(Resolved {
        scopes,
        links,
        combined,
        elements,
    })
}

/// The elements that stand somewhere, in order; each is linked to its number.
fn numbered(
    alloc: Global,
    nodes: &[Node],
    scopes: &[Scope],
    links: &mut Vec<Target>,
) -> Result<Vec<NodeNumber>, NoMemory>
    requires within { length scopes.now ≡ length nodes.now }
    requires known { length links.old.items ≡ length nodes.now }
    ensures { IfOk result (λ elements. AreNumbered (map cell_of nodes.now) scopes.now (length nodes.now) links.old.items
        (numbering_of links.new elements)) }
{
    let mut elements = Vec::new(alloc);
    for i in 0..nodes.len() {
        number(NodeNumber(i), &nodes[i], scopes[i], links, &mut elements)?;
    }
    Ok(elements)
}

/// Numbers a node that stands in this scope, if it is an element that stands somewhere.
fn number(
    i: NodeNumber,
    node: &Node,
    scope: Scope,
    links: &mut Vec<Target>,
    elements: &mut Vec<NodeNumber>,
) -> Result<(), NoMemory>
    requires { i < length links.old.items }
    ensures { OnOk result (numbering_of links.new elements.new ≡ with_numbered i scope (cell_of node.now)
        (numbering_of links.old elements.old)) }
{
    match scope {
        Scope::Nowhere => Ok(()),
        Scope::Outside | Scope::In(_) => number_standing(i, node, links, elements),
    }
}

/// Numbers a node, if it is an element.
fn number_standing(
    i: NodeNumber,
    node: &Node,
    links: &mut Vec<Target>,
    elements: &mut Vec<NodeNumber>,
) -> Result<(), NoMemory>
    requires { i < length links.old.items }
    ensures { OnOk result (numbering_of links.new elements.new ≡ with_number i (cell_of node.now) (numbering_of links.old elements.old)) }
{
    match node {
        Node::Element(_, _) => {
            links[i.0] = Target::Element(ElementNumber(elements.len()));
            elements.push(i)?;
            Ok(())
        }
        _ => Ok(()),
    }
}

/// How definitions are combined; nothing, where some are combined in the one way and another in the other way.
fn both(before: Combine, combine: Combine) -> Option<Combine>
    ensures { result ≡ both_say before combine }
{
    match (before, combine) {
        (before, Combine::Alone) => Some(before),
        (Combine::Alone, combine) => Some(combine),
        (Combine::Choice, Combine::Choice) => Some(Combine::Choice),
        (Combine::Interleave, Combine::Interleave) => Some(Combine::Interleave),
        (Combine::Choice, Combine::Interleave) | (Combine::Interleave, Combine::Choice) => None,
    }
}

/// Whether a definition says nothing of how it is combined.
fn is_alone(combine: Combine) -> bool
    ensures { result ≡ says_nothing combine }
{
    match combine {
        Combine::Alone => true,
        Combine::Choice | Combine::Interleave => false,
    }
}

/// Whether one of several definitions, or one more, says nothing of how it is combined.
fn one_alone(has_alone: bool, combine: Combine) -> bool
    ensures { result ≡ (has_alone || says_nothing combine) }
{
    has_alone || is_alone(combine)
}

/// Whether one of several definitions and one more say nothing of how they are combined.
fn two_alone(has_alone: bool, combine: Combine) -> bool
    ensures { result ≡ (has_alone && says_nothing combine) }
{
    has_alone && is_alone(combine)
}

impl Combined {
    /// One definition alone.
    fn of(alloc: Global, combine: Combine, body: NodeNumber) -> Result<Combined, NoMemory>
        ensures { IfOk result (λ made. (made.bodies.items ≡ body ∷ []) × HasSigns (combine ∷ []) made) }
    {
        let mut bodies = Vec::new(alloc);
        bodies.push(body)?;
        Ok(Combined {
            combine,
            has_alone: is_alone(combine),
            bodies,
        })
    }

    /// Adds a definition behind those that are there.
    fn add(&mut self, combine: Combine, body: NodeNumber) -> Result<(), SchemaFault>
        ensures { AddsTo combine body self.old self.new result }
    {
        if two_alone(self.has_alone, combine) {
            return Err(SchemaFault::Unreadable(Cause::CombineClash));
        }
        match both(self.combine, combine) {
            Some(said) => {
                self.combine = said;
                self.has_alone = one_alone(self.has_alone, combine);
                self.bodies.push(body)?;
                Ok(())
            }
            None => Err(SchemaFault::Unreadable(Cause::CombineClash)),
        }
    }
}

/// Adds a definition to those of its name.
fn gather(
    alloc: Global,
    names: &mut Names<CombinedNumber>,
    combined: &mut Vec<Combined>,
    clause: &Clause,
) -> Result<(), SchemaFault>
    requires { (number : ℕ) → kept_for names.old clause.now.name ≡ Some number → number < length combined.old.items }
    ensures { (first : ℕ) (before : List Clause) → IsGathered first before names.old combined.old.items
        → GathersOne first before clause.now combined.old.items names.new combined.new.items result }
{
    match names.get(&clause.name).copied() {
        Some(number) => combined[number.0].add(clause.combine, clause.body),
        None => {
            let alone = Combined::of(alloc, clause.combine, clause.body)?;
            names.add(&clause.name, CombinedNumber(combined.len()))?;
            combined.push(alone)?;
            Ok(())
        }
    }
}

/// Combines definitions; the answer has their numbers by their names.
fn gathered(
    alloc: Global,
    combined: &mut Vec<Combined>,
    clauses: &[Clause],
) -> Result<Names<CombinedNumber>, SchemaFault>
    ensures { Gathers clauses.now combined.old.items combined.new.items result }
{
    let mut names = Names::new(alloc);
    for clause in clauses {
        gather(alloc, &mut names, combined, clause)?;
    }
    Ok(names)
}

/// What definitions are stands in this scope.
fn give(scopes: &mut Vec<Scope>, clauses: &[Clause], scope: Scope)
    requires { (body : ℕ) → Contains (bodies_of clauses.now) body → body < length scopes.old.items }
    ensures { scopes.new.items ≡ given (bodies_of clauses.now) scope scopes.old.items }
{
    for clause in clauses {
        let body = clause.body;
        scopes[body.0] = scope;
    }
}

impl Resolver {
    /// Nothing is known of so many nodes, but that one of them is the whole schema.
    fn begin(alloc: Global, count: usize, root: NodeNumber) -> Result<Resolver, NoMemory>
        requires { root < count }
        ensures { IfOk result (λ resolver. findings_of resolver ≡ findings_at_first count root) }
    {
        let mut scopes = filled(alloc, Scope::Nowhere, count)?;
        scopes[root.0] = Scope::Outside;
        let links = filled(alloc, Target::Nothing, count)?;
        Ok(Resolver {
            alloc,
            tables: Vec::new(alloc),
            scopes,
            links,
            combined: Vec::new(alloc),
        })
    }

    /// Takes all nodes, from the last one on.
    fn walk(&mut self, whole: &Whole) -> Result<(), SchemaFault>
        requires formed { AreWellFormed (cells_of whole.now) whole.now.root }
        requires begun { IsMidway (cells_of whole.now) whole.now.root (length whole.now.nodes.items) (findings_of self.old) }
        ensures { OkOrRefused (cells_of whole.now) whole.now.root
            (λ done. IsMidway (cells_of whole.now) whole.now.root 0 (findings_of self.new)) result }
    {
        let mut rest = whole.nodes.len();
        while rest > 0 {
            rest -= 1;
            self.node(whole, NodeNumber(rest))?;
        }
        Ok(())
    }

    /// Takes a node with all that is known of what stands around it.
    fn node(&mut self, whole: &Whole, i: NodeNumber) -> Result<(), SchemaFault>
        requires within { i < length whole.now.nodes.items }
        requires formed { AreWellFormed (cells_of whole.now) whole.now.root }
        requires behind { IsMidway (cells_of whole.now) whole.now.root (i + 1) (findings_of self.old) }
        ensures { OkOrRefused (cells_of whole.now) whole.now.root
            (λ done. IsMidway (cells_of whole.now) whole.now.root i (findings_of self.new)) result }
    {
        match self.scopes[i.0] {
            Scope::Nowhere => Ok(()),
            scope => self.standing(i, scope, &whole.nodes[i.0]),
        }
    }

    /// Takes a node that stands in this scope.
    fn standing(&mut self, i: NodeNumber, scope: Scope, node: &Node) -> Result<(), SchemaFault>
        requires known { i < length (findings_of self.old).links }
        requires within { (inner : ℕ) → Contains (inner_nodes (cell_of node.now)) inner → inner < length (findings_of self.old).scopes }
        ensures { TakesCell i scope (cell_of node.now) (findings_of self.old) (findings_of self.new) result }
    {
        match node {
            Node::Element(_, part) => self.part(*part, scope),
            Node::Attribute(_, part) => self.part(*part, scope),
            Node::List(part) => self.part(*part, scope),
            Node::Typed(_, _, part) => self.part(*part, scope),
            Node::OneOrMore(part) => self.part(*part, scope),
            Node::Joined(_, first, second) => {
                self.part(*first, scope);
                self.part(*second, scope);
            }
            Node::Ref(name) => return self.refer(i, scope, name),
            Node::ParentRef(name) => return self.refer(i, self.outer(scope), name),
            Node::Grammar(clauses) => return self.grammar(i, scope, clauses.as_slice()),
            Node::Empty | Node::Text | Node::NotAllowed | Node::Value(_, _) => {}
        }
        Ok(())
    }

    /// A part of a node stands in this scope.
    fn part(&mut self, part: NodeNumber, scope: Scope)
        requires { part < length (findings_of self.old).scopes }
        ensures { findings_of self.new ≡ with_given (part ∷ []) scope (findings_of self.old) }
    {
        self.scopes[part.0] = scope;
    }

    /// The grammar around a grammar.
    fn outer(&self, scope: Scope) -> Scope
        ensures { result ≡ outer_in (findings_of self.now).tables scope }
    {
        match scope {
            Scope::In(grammar) => match self.tables.get(grammar) {
                Some(table) => table.outer,
                None => Scope::Outside,
            },
            Scope::Outside | Scope::Nowhere => Scope::Outside,
        }
    }

    /// The combined definitions of a name in a grammar.
    fn combined_of(&self, scope: Scope, name: &Bytes) -> Option<CombinedNumber>
        ensures { result ≡ combined_in (findings_of self.now).tables scope name.now }
    {
        match scope {
            Scope::In(grammar) => match self.tables.get(grammar) {
                Some(table) => table.combined.named(name).copied(),
                None => None,
            },
            Scope::Outside | Scope::Nowhere => None,
        }
    }

    /// Links a reference to the combined definitions of the name in a grammar.
    fn refer(&mut self, i: NodeNumber, scope: Scope, name: &Bytes) -> Result<(), SchemaFault>
        requires { i < length (findings_of self.old).links }
        ensures { Links i (combined_in (findings_of self.old).tables scope name.now) (findings_of self.old) (findings_of self.new) result }
    {
        match self.combined_of(scope, name) {
            Some(number) => {
                self.links[i.0] = Target::Definitions(number);
                Ok(())
            }
            None => Err(SchemaFault::Unreadable(Cause::NoDefinition)),
        }
    }

    /// Takes a grammar, and links it to the combined definitions of its start.
    fn grammar(
        &mut self,
        i: NodeNumber,
        outer: Scope,
        clauses: &[Clause],
    ) -> Result<(), SchemaFault>
        requires known { i < length (findings_of self.old).links }
        requires within { (body : ℕ) → Contains (bodies_of clauses.now) body → body < length (findings_of self.old).scopes }
        ensures { TakesGrammar i outer clauses.now (findings_of self.old) (findings_of self.new) result }
    {
        let scope = Scope::In(self.tables.len());
        let names = gathered(self.alloc, &mut self.combined, clauses)?;
        match names.get(&Defined::Start).copied() {
            Some(start) => {
                give(&mut self.scopes, clauses, scope);
                self.links[i.0] = Target::Definitions(start);
                self.tables.push(Table {
                    outer,
                    combined: names,
                })?;
                Ok(())
            }
            None => Err(SchemaFault::Unreadable(Cause::NoStart)),
        }
    }
}
