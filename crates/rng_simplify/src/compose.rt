//! Files put into one piece (ISO/IEC 19757-2, sections 7.6 to 7.16).
//!
//! The files that a file mentions stand before it, the last one that it mentions first. Each file leaves a piece on a stack.
//! Where a file mentions another one, the piece of that one is the next on the stack.

ghost use Rattle.std.specs.Prelude.{◌≡◌, ◌≢◌, []};
ghost use Rattle.rnc_parse.specs.Views.{pattern_of, surface_of, item_of, items_in, replacement_of, replacements_in};
ghost use Rattle.rnc_parse.specs.Written as written;
ghost use Rattle.rnc_parse.specs.declared.surface.FileReference.{FileReference};
ghost use Rattle.rnc_parse.specs.Views.{class_of as written_class_of};
ghost use Rattle.rng_simplify.specs.Cells.{cell_of};
ghost use Rattle.rng_simplify.specs.MadeCells.{Makes, stock_of, cell_made, or_empty_made, make, make_item, make_items};
ghost use Rattle.rng_simplify.specs.MadeCells.{make_replacement, make_anew, behind, next_pattern, next_grammar, make_row};
ghost use Rattle.rng_simplify.specs.MadeCells.{make_next, none_made, make_file, lone_made, piece_of, whole_made};
ghost use Rattle.rng_simplify.specs.MadeCells.{whole_made_from, files_made, file_made, no_piece, MakesWhole, IsFaultOf};
ghost use Rattle.rnc_parse.specs.Written.{a_grammar, a_pattern};
ghost use Rattle.rng_simplify.specs.declared.stop.Stop.TheVariants.{NoPiece};
ghost use Rattle.rng_simplify.specs.Rows.{row_of};

use crate::class::class_in;
use crate::fault::SchemaFault;
use crate::load::Loaded;
use crate::node::{Clause, Node, NodeNumber, Sign};
use crate::replace::{put_behind, replaced};
use crate::stop::Stop;
use nx_base::cause::Cause;
use nx_base::sequence::Bytes;
use rnc_parse::surface::{
    Combine, Defined, Item, NameClass as WrittenClass, Params, Pattern, Replacement, Surface,
    TypeName,
};
use std::alloc::Global;

/// What a file is in the schema.
#[derive(Drop)]
enum Piece {
    /// A pattern, by its node.
    Pattern(NodeNumber),
    /// A grammar, by its definitions, be it alone in a pattern.
    Grammar(Vec<Clause>),
}

/// A schema in one piece: its nodes, and the one that it is.
#[derive(Drop)]
pub(crate) struct Whole {
    pub(crate) nodes: Vec<Node>,
    pub(crate) root: NodeNumber,
}

/// The nodes so far, and the pieces of the files behind.
#[derive(Drop)]
struct Composer {
    alloc: Global,
    nodes: Vec<Node>,
    pieces: Vec<Piece>,
}

/// The files in one piece.
pub(crate) fn compose(alloc: Global, loaded: Vec<Loaded>) -> Result<Whole, SchemaFault>
    requires { whole_made loaded.items ≢ no_piece }
    ensures { MakesWhole loaded.items result }
{
    let mut composer = Composer {
        alloc,
        nodes: Vec::new(alloc),
        pieces: Vec::new(alloc),
    };
    match composer.whole(loaded) {
        Ok(root) => {
            let Composer { nodes, .. } = composer;
            Ok(Whole { nodes, root })
        }
        Err(stop) => Err(fault_of(stop)),
    }
}

/// The refusal of a schema that wasn't composed.
fn fault_of(stop: Stop) -> SchemaFault
    requires { stop ≢ NoPiece }
    ensures { IsFaultOf stop result }
{
    match stop {
        Stop::Unreadable(cause) => SchemaFault::Unreadable(cause),
        Stop::NoPiece => unreachable!(),
        Stop::NoMemory => SchemaFault::NoMemory,
    }
}

// A value that a refusal leaves over is dropped by a call: a drop that no call makes, the checker unfolds down to each part.
impl Composer {
    /// A further node, by its number.
    fn node(&mut self, node: Node) -> Result<NodeNumber, Stop>
        ensures { Makes (stock_of self.new) (λ i. i) (cell_made (cell_of node) (stock_of self.old)) result }
    {
        let number = NodeNumber(self.nodes.len());
        self.nodes.push(node)?;
        Ok(number)
    }

    /// All files in order, and the node of the one that is left.
    fn whole(&mut self, loaded: Vec<Loaded>) -> Result<NodeNumber, Stop>
        ensures { Makes (stock_of self.new) (λ i. i) (whole_made_from loaded.items (stock_of self.old)) result }
    {
        self.files(loaded)?;
        self.mentioned()
    }

    /// Files in order.
    fn files(&mut self, loaded: Vec<Loaded>) -> Result<(), Stop>
        ensures { Makes (stock_of self.new) (λ done. done) (files_made loaded.items (stock_of self.old)) result }
    {
        for file in loaded {
            self.take(file)?;
        }
        Ok(())
    }

    /// A file, which leaves its piece for what mentions it.
    fn take(&mut self, file: Loaded) -> Result<(), Stop>
        ensures { Makes (stock_of self.new) (λ done. done) (file_made file (stock_of self.old)) result }
    {
        let piece = self.file(file)?;
        self.pieces.push(piece)?;
        Ok(())
    }

    /// A whole file.
    fn file(&mut self, file: Loaded) -> Result<Piece, Stop>
        ensures { Makes (stock_of self.new) piece_of (make_file file.inherited (surface_of file.surface) (stock_of self.old)) result }
    {
        let Loaded { inherited, surface } = file;
        match surface {
            Surface::Grammar(items) => self.grammar_file(&inherited, items),
            Surface::Pattern(pattern) => self.pattern_file(&inherited, pattern),
        }
    }

    /// A file of these items.
    fn grammar_file(&mut self, inherited: &Bytes, items: Vec<Item>) -> Result<Piece, Stop>
        ensures { Makes (stock_of self.new) piece_of
            (make_file inherited.now (a_grammar (items_in items.items)) (stock_of self.old)) result }
    {
        let mut clauses = Vec::new(self.alloc);
        self.items(inherited, items, &mut clauses)?;
        Ok(Piece::Grammar(clauses))
    }

    /// A file that is this pattern, which may be a grammar alone.
    #[cycle(file)]
    fn pattern_file(&mut self, inherited: &Bytes, pattern: Pattern) -> Result<Piece, Stop>
        ensures { Makes (stock_of self.new) piece_of
            (make_file inherited.now (a_pattern (pattern_of pattern)) (stock_of self.old)) result }
    {
        match pattern {
            Pattern::Grammar(items) => self.grammar_file(inherited, items),
            Pattern::Choice(patterns) => self.row_file(inherited, Sign::Choice, patterns),
            Pattern::Group(patterns) => self.row_file(inherited, Sign::Group, patterns),
            Pattern::Interleave(patterns) => self.row_file(inherited, Sign::Interleave, patterns),
            other => self.lone_pattern(inherited, other),
        }
    }

    /// A file that is these patterns joined by a sign. One alone stands for itself.
    #[cycle(file)]
    fn row_file(
        &mut self,
        inherited: &Bytes,
        sign: Sign,
        patterns: Vec<Pattern>,
    ) -> Result<Piece, Stop>
        ensures { Makes (stock_of self.new) piece_of
            (make_file inherited.now (a_pattern (row_of sign patterns.items)) (stock_of self.old)) result }
    {
        if patterns.len() != 1 {
            let root = self.joined(inherited, sign, patterns)?;
            return Ok(Piece::Pattern(root));
        }
        let mut patterns = patterns;
        match patterns.pop() {
            Some(only) => self.pattern_file(inherited, only),
            None => unreachable!(),
        }
    }

    /// A file that is this pattern, and no grammar alone.
    fn lone_pattern(&mut self, inherited: &Bytes, pattern: Pattern) -> Result<Piece, Stop>
        ensures { Makes (stock_of self.new) piece_of (lone_made inherited.now (pattern_of pattern) (stock_of self.old)) result }
    {
        let root = self.pattern(inherited, pattern)?;
        Ok(Piece::Pattern(root))
    }

    /// The pattern of the file that is mentioned next.
    fn mentioned(&mut self) -> Result<NodeNumber, Stop>
        ensures { Makes (stock_of self.new) (λ i. i) (next_pattern (stock_of self.old)) result }
    {
        match self.pieces.pop() {
            Some(piece) => match piece {
                Piece::Pattern(root) => Ok(root),
                Piece::Grammar(clauses) => self.node(Node::Grammar(clauses)),
            },
            None => Err(Stop::NoPiece),
        }
    }

    /// The definitions of the file that is mentioned next, which must be a grammar.
    fn included(&mut self) -> Result<Vec<Clause>, Stop>
        ensures { Makes (stock_of self.new) (λ clauses. clauses.items) (next_grammar (stock_of self.old)) result }
    {
        match self.pieces.pop() {
            Some(piece) => match piece {
                Piece::Pattern(_) => Err(Stop::Unreadable(Cause::NotGrammar)),
                Piece::Grammar(clauses) => Ok(clauses),
            },
            None => Err(Stop::NoPiece),
        }
    }

    /// A pattern of a file that inherits the namespace.
    #[cycle(compose)]
    fn pattern(&mut self, inherited: &Bytes, pattern: Pattern) -> Result<NodeNumber, Stop>
        ensures { Makes (stock_of self.new) (λ i. i) (make inherited.now (pattern_of pattern) (stock_of self.old)) result }
    {
        match pattern {
            Pattern::Element(class, content) => {
                self.element(inherited, Box::into_inner(content), class)
            }
            Pattern::Attribute(class, value) => {
                self.attribute(inherited, Box::into_inner(value), class)
            }
            Pattern::List(body) => {
                let body = self.pattern(inherited, Box::into_inner(body))?;
                self.node(Node::List(body))
            }
            Pattern::Mixed(body) => self.mixed(inherited, Box::into_inner(body)),
            Pattern::Ref(name) => self.node(Node::Ref(name)),
            Pattern::ParentRef(name) => self.node(Node::ParentRef(name)),
            Pattern::Empty => self.node(Node::Empty),
            Pattern::Text => self.node(Node::Text),
            Pattern::NotAllowed => self.node(Node::NotAllowed),
            Pattern::Value(name, text) => self.node(Node::Value(name, text)),
            Pattern::Data(name, params) => self.data(name, params),
            Pattern::DataExcept(name, params, except) => {
                self.data_except(inherited, Box::into_inner(except), name, params)
            }
            Pattern::External(reference) => {
                drop(reference);
                self.mentioned()
            }
            Pattern::Grammar(items) => self.grammar(inherited, items),
            Pattern::Optional(body) => {
                let body = self.pattern(inherited, Box::into_inner(body))?;
                self.or_empty(body)
            }
            Pattern::ZeroOrMore(body) => {
                let body = self.pattern(inherited, Box::into_inner(body))?;
                let repeated = self.node(Node::OneOrMore(body))?;
                self.or_empty(repeated)
            }
            Pattern::OneOrMore(body) => {
                let body = self.pattern(inherited, Box::into_inner(body))?;
                self.node(Node::OneOrMore(body))
            }
            Pattern::Choice(patterns) => self.joined(inherited, Sign::Choice, patterns),
            Pattern::Group(patterns) => self.joined(inherited, Sign::Group, patterns),
            Pattern::Interleave(patterns) => self.joined(inherited, Sign::Interleave, patterns),
        }
    }

    #[cycle(compose)]
    fn element(
        &mut self,
        inherited: &Bytes,
        content: Pattern,
        class: WrittenClass,
    ) -> Result<NodeNumber, Stop>
        ensures { Makes (stock_of self.new) (λ i. i)
            (make inherited.now (written.element (written_class_of class) (pattern_of content)) (stock_of self.old)) result }
    {
        match self.pattern(inherited, content) {
            Ok(content) => {
                let class = class_in(self.alloc, inherited, class)?;
                self.node(Node::Element(class, content))
            }
            Err(stop) => {
                drop(class);
                Err(stop)
            }
        }
    }

    #[cycle(compose)]
    fn attribute(
        &mut self,
        inherited: &Bytes,
        value: Pattern,
        class: WrittenClass,
    ) -> Result<NodeNumber, Stop>
        ensures { Makes (stock_of self.new) (λ i. i)
            (make inherited.now (written.attribute (written_class_of class) (pattern_of value)) (stock_of self.old)) result }
    {
        match self.pattern(inherited, value) {
            Ok(value) => {
                let class = class_in(self.alloc, inherited, class)?;
                self.node(Node::Attribute(class, value))
            }
            Err(stop) => {
                drop(class);
                Err(stop)
            }
        }
    }

    /// The pattern with text anywhere.
    #[cycle(compose)]
    fn mixed(&mut self, inherited: &Bytes, body: Pattern) -> Result<NodeNumber, Stop>
        ensures { Makes (stock_of self.new) (λ i. i)
            (make inherited.now (written.mixed (pattern_of body)) (stock_of self.old)) result }
    {
        match self.node(Node::Text) {
            Ok(text) => {
                let body = self.pattern(inherited, body)?;
                self.node(Node::Joined(Sign::Interleave, text, body))
            }
            Err(stop) => {
                drop(body);
                Err(stop)
            }
        }
    }

    /// A datatype with its params, from which nothing is taken away.
    fn data(&mut self, name: TypeName, params: Params) -> Result<NodeNumber, Stop>
        ensures { Makes (stock_of self.new) (λ i. i)
            (make [] (written.typed name params) (stock_of self.old)) result }
    {
        match self.node(Node::NotAllowed) {
            Ok(nothing) => self.node(Node::Typed(name, params, nothing)),
            Err(stop) => {
                drop(name);
                drop(params);
                Err(stop)
            }
        }
    }

    /// A datatype with its params, without what the pattern takes away.
    #[cycle(compose)]
    fn data_except(
        &mut self,
        inherited: &Bytes,
        except: Pattern,
        name: TypeName,
        params: Params,
    ) -> Result<NodeNumber, Stop>
        ensures { Makes (stock_of self.new) (λ i. i)
            (make inherited.now (written.typed_but name params (pattern_of except)) (stock_of self.old)) result }
    {
        match self.pattern(inherited, except) {
            Ok(except) => self.node(Node::Typed(name, params, except)),
            Err(stop) => {
                drop(name);
                drop(params);
                Err(stop)
            }
        }
    }

    /// The choice of the pattern and nothing at all.
    fn or_empty(&mut self, body: NodeNumber) -> Result<NodeNumber, Stop>
        ensures { Makes (stock_of self.new) (λ i. i) (or_empty_made body (stock_of self.old)) result }
    {
        let empty = self.node(Node::Empty)?;
        self.node(Node::Joined(Sign::Choice, body, empty))
    }

    /// Patterns joined by a sign; they nest to the left. None joined are what leaves no trace among others.
    #[cycle(compose)]
    fn joined(
        &mut self,
        inherited: &Bytes,
        sign: Sign,
        patterns: Vec<Pattern>,
    ) -> Result<NodeNumber, Stop>
        ensures { Makes (stock_of self.new) (λ i. i) (make_row inherited.now sign patterns.items (stock_of self.old)) result }
    {
        let mut joined = None;
        for pattern in patterns {
            joined = Some(self.joined_next(inherited, sign, joined, pattern)?);
        }
        match joined {
            Some(joined) => Ok(joined),
            None => self.none_joined(sign),
        }
    }

    /// The patterns so far, if there are some, and the next one.
    #[cycle(compose)]
    fn joined_next(
        &mut self,
        inherited: &Bytes,
        sign: Sign,
        joined: Option<NodeNumber>,
        next: Pattern,
    ) -> Result<NodeNumber, Stop>
        ensures { Makes (stock_of self.new) (λ i. i) (make_next inherited.now sign joined next (stock_of self.old)) result }
    {
        let next = self.pattern(inherited, next)?;
        match joined {
            Some(first) => self.node(Node::Joined(sign, first, next)),
            None => Ok(next),
        }
    }

    /// No patterns joined by a sign.
    fn none_joined(&mut self, sign: Sign) -> Result<NodeNumber, Stop>
        ensures { Makes (stock_of self.new) (λ i. i) (none_made sign (stock_of self.old)) result }
    {
        match sign {
            Sign::Choice => self.node(Node::NotAllowed),
            Sign::Group => self.node(Node::Empty),
            Sign::Interleave => self.node(Node::Empty),
        }
    }

    #[cycle(compose)]
    fn grammar(&mut self, inherited: &Bytes, items: Vec<Item>) -> Result<NodeNumber, Stop>
        ensures { Makes (stock_of self.new) (λ i. i)
            (make inherited.now (written.grammar (items_in items.items)) (stock_of self.old)) result }
    {
        let mut clauses = Vec::new(self.alloc);
        self.items(inherited, items, &mut clauses)?;
        self.node(Node::Grammar(clauses))
    }

    /// Adds the definitions of items.
    #[cycle(compose)]
    fn items(
        &mut self,
        inherited: &Bytes,
        items: Vec<Item>,
        clauses: &mut Vec<Clause>,
    ) -> Result<(), Stop>
        ensures { Makes (stock_of self.new) (λ _. clauses.new.items)
            (behind clauses.old.items (make_items inherited.now (items_in items.items) (stock_of self.old))) result }
    {
        for item in items {
            self.item(inherited, item, clauses)?;
        }
        Ok(())
    }

    /// Adds those of an item.
    #[cycle(compose)]
    fn item(&mut self, inherited: &Bytes, item: Item, clauses: &mut Vec<Clause>) -> Result<(), Stop>
        ensures { Makes (stock_of self.new) (λ _. clauses.new.items)
            (behind clauses.old.items (make_item inherited.now (item_of item) (stock_of self.old))) result }
    {
        match item {
            Item::Define(name, combine, pattern) => {
                self.definition(inherited, name, combine, pattern, clauses)
            }
            Item::Div(inside) => self.items(inherited, inside, clauses),
            Item::Include(_, replacements) => self.inclusion(inherited, replacements, clauses),
        }
    }

    /// Adds those of the file that is mentioned next, some of them replaced.
    #[cycle(compose)]
    fn inclusion(
        &mut self,
        inherited: &Bytes,
        replacements: Vec<Replacement>,
        clauses: &mut Vec<Clause>,
    ) -> Result<(), Stop>
        ensures { (reference : FileReference) → Makes (stock_of self.new) (λ _. clauses.new.items)
            (behind clauses.old.items
            (make_item inherited.now (written.include reference (replacements_in replacements.items)) (stock_of self.old)))
            result }
    {
        let old = self.included()?;
        let mut new = Vec::new(self.alloc);
        self.replacements(inherited, replacements, &mut new)?;
        let kept = replaced(self.alloc, old, new)?;
        put_behind(clauses, kept)?;
        Ok(())
    }

    /// Adds the definitions in the braces of an include.
    #[cycle(compose)]
    fn replacements(
        &mut self,
        inherited: &Bytes,
        replacements: Vec<Replacement>,
        clauses: &mut Vec<Clause>,
    ) -> Result<(), Stop>
        ensures { Makes (stock_of self.new) (λ _. clauses.new.items)
            (behind clauses.old.items (make_anew inherited.now (replacements_in replacements.items) (stock_of self.old))) result }
    {
        for replacement in replacements {
            self.replacement(inherited, replacement, clauses)?;
        }
        Ok(())
    }

    /// Adds those of one of them.
    #[cycle(compose)]
    fn replacement(
        &mut self,
        inherited: &Bytes,
        replacement: Replacement,
        clauses: &mut Vec<Clause>,
    ) -> Result<(), Stop>
        ensures { Makes (stock_of self.new) (λ _. clauses.new.items)
            (behind clauses.old.items (make_replacement inherited.now (replacement_of replacement) (stock_of self.old))) result }
    {
        match replacement {
            Replacement::Define(name, combine, pattern) => {
                self.definition(inherited, name, combine, pattern, clauses)
            }
            Replacement::Div(inside) => self.replacements(inherited, inside, clauses),
        }
    }

    /// Adds a definition.
    #[cycle(compose)]
    fn definition(
        &mut self,
        inherited: &Bytes,
        name: Defined,
        combine: Combine,
        pattern: Pattern,
        clauses: &mut Vec<Clause>,
    ) -> Result<(), Stop>
        ensures { Makes (stock_of self.new) (λ _. clauses.new.items)
            (behind clauses.old.items
            (make_item inherited.now (written.define name combine (pattern_of pattern)) (stock_of self.old))) result }
    {
        let body = self.pattern(inherited, pattern)?;
        clauses.push(Clause {
            name,
            combine,
            body,
        })?;
        Ok(())
    }
}
