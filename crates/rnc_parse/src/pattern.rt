//! Patterns and the items of grammars.
//!
//! The functions here call one another, and go deeper only through a bracket: `left` is how many may still be opened.
//! Whatever brackets don't bound is read by a loop.
//!
//! What is left of a pattern where reading stops is dropped by a call, since the checker unfolds each drop that no call makes.

ghost use Rattle.std.specs.Prelude.{◌≡◌, IfOk, if◌then◌else◌, [], Some, option_map, OnOk};
ghost use Rattle.rnc_lex.specs.declared.token.Symbol.TheVariants.{LeftBrace, RightBrace, Minus};
ghost use Rattle.rnc_parse.specs.Looking.{scope_in};
ghost use Rattle.rnc_parse.specs.Views.{class_of, pattern_of, item_of, items_in, replacement_of, replacements_in};
ghost use Rattle.rnc_parse.specs.Written.{element, attribute, typed, typed_but, grammar, div, include, div_anew};
ghost use Rattle.rnc_parse.specs.Reading.{Finds, read, ◌>>=◌ as and_then, first, behind, stands};
ghost use Rattle.rnc_parse.specs.ReadingAnnotations.{follow_at};
ghost use Rattle.rnc_parse.specs.ReadingClasses.{class_at};
ghost use Rattle.rnc_parse.specs.declared.surface.Namespace.TheVariants.{Uri};
ghost use Rattle.rnc_parse.specs.ReadingPatterns.{defined_of, combine_of, begins_annotation, add_item, add_replacement, joined_all};
ghost use Rattle.rnc_parse.specs.ReadingPatterns.{inside_at, between, pattern_within, data_at, behind_primary_at, joined_by};
ghost use Rattle.rnc_parse.specs.ReadingPatterns.{named_at, opened_primary_at, particle_at};
ghost use Rattle.rnc_parse.specs.ReadingPatterns.{primary_at, items_within, item_at, definition_at, include_at, replacements_within};
ghost use Rattle.rnc_parse.specs.ReadingPatterns.{replacement_at};

use crate::annotation::{follow, group, is_element_name, opening};
use crate::cursor::Cursor;
use crate::leaf::marked;
use crate::part::{begins_data, params};
use crate::reader::Reader;
use crate::sign::{Sign, sign_of, sign_symbol};
use crate::stop::Stop;
use crate::surface::{
    Combine, Defined, FileReference, Item, NameClass, Namespace, Params, Pattern, Replacement,
    TypeName,
};
use nx_base::memory::NoMemory;
use nx_base::sequence::{Bytes, TryCopy};
use rnc_lex::token::{Keyword, Lexeme, Symbol};
use std::alloc::Global;

/// What a definition defines.
fn defined(cursor: &mut Cursor<'_>) -> Result<Defined, Stop>
    ensures { Finds (λ name. name) cursor.new result (defined_of (first cursor.old) (behind cursor.old)) }
{
    match cursor.first() {
        Some(Lexeme::Keyword(Keyword::Start)) => {
            cursor.advance();
            Ok(Defined::Start)
        }
        Some(Lexeme::Identifier(name)) => {
            cursor.advance();
            Ok(Defined::Name(name.copy()?))
        }
        _ => Err(Stop::Syntax),
    }
}

/// How a definition is joined to others.
fn combine(cursor: &mut Cursor<'_>) -> Result<Combine, Stop>
    ensures { Finds (λ combine. combine) cursor.new result (combine_of (first cursor.old) (behind cursor.old)) }
{
    let combine = match cursor.first() {
        Some(Lexeme::Symbol(Symbol::Equals)) => Combine::Alone,
        Some(Lexeme::Symbol(Symbol::BarEquals)) => Combine::Choice,
        Some(Lexeme::Symbol(Symbol::AmpersandEquals)) => Combine::Interleave,
        _ => return Err(Stop::Syntax),
    };
    cursor.advance();
    Ok(combine)
}

/// Whether a name stands here with a group behind it.
fn begins_annotation(cursor: &Cursor<'_>) -> bool
    ensures { result ≡ begins_annotation cursor.now }
{
    is_element_name(cursor.first())
        && matches!(cursor.second(), Some(Lexeme::Symbol(Symbol::LeftBracket)))
}

/// Adds an item, if there is one.
#[tactic(auto, using(crate::proofs::PatternViews::items_in_push))]
fn add_item(items: &mut Vec<Item>, item: Option<Item>) -> Result<(), NoMemory>
    ensures { OnOk result (items_in items.new.items ≡ add_item (items_in items.old.items) (option_map item_of item)) }
{
    match item {
        Some(item) => {
            items.push(item)?;
            Ok(())
        }
        None => Ok(()),
    }
}

/// Adds an item of an include's braces, if there is one.
#[tactic(auto, using(crate::proofs::PatternViews::replacements_in_push))]
fn add_replacement(
    replacements: &mut Vec<Replacement>,
    one: Option<Replacement>,
) -> Result<(), NoMemory>
    ensures { OnOk result (replacements_in replacements.new.items ≡ add_replacement (replacements_in replacements.old.items)
        (option_map replacement_of one)) }
{
    match one {
        Some(one) => {
            replacements.push(one)?;
            Ok(())
        }
        None => Ok(()),
    }
}

/// Several particles joined by a sign.
fn joined(sign: Sign, particles: Vec<Pattern>) -> Pattern
    ensures { pattern_of result ≡ joined_all sign particles.items }
{
    match sign {
        Sign::Group => Pattern::Group(particles),
        Sign::Choice => Pattern::Choice(particles),
        Sign::Interleave => Pattern::Interleave(particles),
    }
}

/// A grammar of items.
fn grammar_of(items: Vec<Item>) -> Pattern
    ensures { pattern_of result ≡ grammar (items_in items.items) }
{
    Pattern::Grammar(items)
}

/// Items in braces, as one.
fn div_of(items: Vec<Item>) -> Item
    ensures { item_of result ≡ div (items_in items.items) }
{
    Item::Div(items)
}

/// An include of a file, but for what is defined anew.
fn include_of(file: FileReference, replacements: Vec<Replacement>) -> Item
    ensures { item_of result ≡ include file (replacements_in replacements.items) }
{
    Item::Include(file, replacements)
}

/// Items in braces within those of an include, as one.
fn div_anew_of(replacements: Vec<Replacement>) -> Replacement
    ensures { replacement_of result ≡ div_anew (replacements_in replacements.items) }
{
    Replacement::Div(replacements)
}

/// A datatype without what a pattern takes away.
fn data_except(
    alloc: Global,
    name: TypeName,
    params: Params,
    except: Pattern,
) -> Result<Pattern, NoMemory>
    ensures { IfOk result (λ p. pattern_of p ≡ typed_but name params (pattern_of except)) }
{
    match boxed(alloc, except) {
        Ok(except) => Ok(Pattern::DataExcept(name, params, except)),
        Err(no_memory) => {
            drop((name, params));
            Err(no_memory)
        }
    }
}

/// A datatype without what the pattern takes away, and what follows it.
fn behind_except(
    alloc: Global,
    name: TypeName,
    params: Params,
    except: Pattern,
    cursor: &mut Cursor<'_>,
) -> Result<Pattern, Stop>
    ensures { Finds pattern_of cursor.new result
        (and_then (follow_at cursor.old) (λ _ rest. read (typed_but name params (pattern_of except)) rest)) }
{
    match follow(alloc, cursor) {
        Ok(()) => Ok(data_except(alloc, name, params, except)?),
        Err(stop) => {
            drop((name, params, except));
            Err(stop)
        }
    }
}

/// The pattern in a box.
fn boxed(alloc: Global, pattern: Pattern) -> Result<Box<Pattern>, NoMemory>
    ensures { IfOk result (λ boxed. boxed.value ≡ pattern) }
{
    Ok(Box::new(alloc, pattern)?)
}

impl Reader {
    /// A pattern.
    #[tactic(auto, unfolding(crate::specs::ReadingPatterns::pattern_within))]
    #[cycle(pattern)]
    pub(crate) fn pattern(&self, left: usize, cursor: &mut Cursor<'_>) -> Result<Pattern, Stop>
        ensures { Finds pattern_of cursor.new result
            (pattern_within (scope_in self.now.look_ups) left (inside_at (scope_in self.now.look_ups) left) cursor.old) }
    {
        opening(self.alloc, cursor)?;
        if begins_data(cursor) {
            return self.data(left, cursor);
        }
        let first = self.primary(left, cursor)?;
        self.behind_primary(first, left, cursor)
    }

    /// A pattern that begins with a type and no literal.
    #[tactic(auto, unfolding(crate::specs::ReadingPatterns::data_at))]
    #[cycle(pattern)]
    fn data(&self, left: usize, cursor: &mut Cursor<'_>) -> Result<Pattern, Stop>
        ensures { Finds pattern_of cursor.new result
            (data_at (scope_in self.now.look_ups) left (inside_at (scope_in self.now.look_ups) left) cursor.old) }
    {
        let name = self.type_name(cursor)?;
        match params(self.alloc, cursor) {
            Ok(params) => self.behind_type(name, params, left, cursor),
            Err(stop) => {
                drop(name);
                Err(stop)
            }
        }
    }

    /// A pattern behind its type and params.
    #[cycle(pattern)]
    fn behind_type(
        &self,
        name: TypeName,
        params: Params,
        left: usize,
        cursor: &mut Cursor<'_>,
    ) -> Result<Pattern, Stop>
        ensures { Finds pattern_of cursor.new result
            (if stands Minus cursor.old
            then and_then
            (opened_primary_at (scope_in self.now.look_ups) left (inside_at (scope_in self.now.look_ups) left) (behind cursor.old))
            (λ p followed. and_then (follow_at followed) (λ _ rest. read (typed_but name params p) rest))
            else behind_primary_at (scope_in self.now.look_ups) left (inside_at (scope_in self.now.look_ups) left)
            (typed name params) cursor.old) }
    {
        if !cursor.stands(Symbol::Minus) {
            return self.behind_primary(Pattern::Data(name, params), left, cursor);
        }
        cursor.advance();
        match self.opened_primary(left, cursor) {
            Ok(except) => behind_except(self.alloc, name, params, except, cursor),
            Err(stop) => {
                drop((name, params));
                Err(stop)
            }
        }
    }

    /// A primary with a group before it.
    #[tactic(auto, unfolding(crate::specs::ReadingPatterns::opened_primary_at))]
    #[cycle(pattern)]
    fn opened_primary(&self, left: usize, cursor: &mut Cursor<'_>) -> Result<Pattern, Stop>
        ensures { Finds pattern_of cursor.new result
            (opened_primary_at (scope_in self.now.look_ups) left (inside_at (scope_in self.now.look_ups) left) cursor.old) }
    {
        opening(self.alloc, cursor)?;
        self.primary(left, cursor)
    }

    /// A pattern behind its first primary.
    #[tactic(auto, unfolding(crate::specs::ReadingPatterns::behind_primary_at))]
    #[cycle(pattern)]
    fn behind_primary(
        &self,
        first: Pattern,
        left: usize,
        cursor: &mut Cursor<'_>,
    ) -> Result<Pattern, Stop>
        ensures { Finds pattern_of cursor.new result
            (behind_primary_at (scope_in self.now.look_ups) left (inside_at (scope_in self.now.look_ups) left)
            (pattern_of first) cursor.old) }
    {
        let first = marked(self.alloc, first, cursor)?;
        match sign_of(cursor.first()) {
            None => Ok(first),
            Some(sign) => self.particles(sign, first, left, cursor),
        }
    }

    /// The first particle, and those behind it, with the sign before each.
    #[cycle(pattern)]
    fn particles(
        &self,
        sign: Sign,
        first: Pattern,
        left: usize,
        cursor: &mut Cursor<'_>,
    ) -> Result<Pattern, Stop>
        ensures { Finds pattern_of cursor.new result
            (joined_by (scope_in self.now.look_ups) left (inside_at (scope_in self.now.look_ups) left)
            (pattern_of first) cursor.old (Some sign)) }
    {
        let mut particles = Vec::new(self.alloc);
        particles.push(first)?;
        'particles: while cursor.stands(sign_symbol(sign)) {
            cursor.advance();
            let next = self.particle(left, cursor)?;
            particles.push(next)?;
        }
        Ok(joined(sign, particles))
    }

    /// A particle.
    #[tactic(auto, unfolding(crate::specs::ReadingPatterns::particle_at))]
    #[cycle(pattern)]
    fn particle(&self, left: usize, cursor: &mut Cursor<'_>) -> Result<Pattern, Stop>
        ensures { Finds pattern_of cursor.new result
            (particle_at (scope_in self.now.look_ups) left (inside_at (scope_in self.now.look_ups) left) cursor.old) }
    {
        let primary = self.opened_primary(left, cursor)?;
        marked(self.alloc, primary, cursor)
    }

    /// A primary.
    #[tactic(auto, unfolding(crate::specs::ReadingPatterns::primary_at))]
    #[cycle(pattern)]
    fn primary(&self, left: usize, cursor: &mut Cursor<'_>) -> Result<Pattern, Stop>
        ensures { Finds pattern_of cursor.new result
            (primary_at (scope_in self.now.look_ups) left (inside_at (scope_in self.now.look_ups) left) cursor.old) }
    {
        match cursor.first() {
            Some(Lexeme::Keyword(Keyword::Element)) => {
                cursor.advance();
                self.element(left, cursor)
            }
            Some(Lexeme::Keyword(Keyword::Attribute)) => {
                cursor.advance();
                self.attribute(left, cursor)
            }
            Some(Lexeme::Keyword(Keyword::List)) => {
                cursor.advance();
                Ok(Pattern::List(self.boxed_body(left, cursor)?))
            }
            Some(Lexeme::Keyword(Keyword::Mixed)) => {
                cursor.advance();
                Ok(Pattern::Mixed(self.boxed_body(left, cursor)?))
            }
            Some(Lexeme::Keyword(Keyword::Grammar)) => {
                cursor.advance();
                Ok(grammar_of(self.braced_items(left, cursor)?))
            }
            Some(Lexeme::Symbol(Symbol::LeftParenthesis)) => {
                self.enclosed(
                    Symbol::LeftParenthesis,
                    Symbol::RightParenthesis,
                    left,
                    cursor,
                )
            }
            _ => self.leaf(cursor),
        }
    }

    /// The class of an element.
    fn element_class(&self, left: usize, cursor: &mut Cursor<'_>) -> Result<NameClass, Stop>
        ensures { Finds class_of cursor.new result
            (class_at (scope_in self.now.look_ups) (scope_in self.now.look_ups).unprefixed left cursor.old) }
    {
        let unprefixed = self.look_ups.unprefixed()?;
        let class = self.class(&unprefixed, left, cursor);
        drop(unprefixed);
        class
    }

    /// The class of an attribute.
    fn attribute_class(&self, left: usize, cursor: &mut Cursor<'_>) -> Result<NameClass, Stop>
        ensures { Finds class_of cursor.new result (class_at (scope_in self.now.look_ups) (Uri []) left cursor.old) }
    {
        let unprefixed = Namespace::Uri(Bytes::new(self.alloc));
        let class = self.class(&unprefixed, left, cursor);
        drop(unprefixed);
        class
    }

    /// An element, behind its word.
    #[cycle(pattern)]
    fn element(&self, left: usize, cursor: &mut Cursor<'_>) -> Result<Pattern, Stop>
        ensures { Finds pattern_of cursor.new result
            (named_at (scope_in self.now.look_ups) left (inside_at (scope_in self.now.look_ups) left)
            (scope_in self.now.look_ups).unprefixed element cursor.old) }
    {
        let class = self.element_class(left, cursor)?;
        match self.boxed_body(left, cursor) {
            Ok(content) => Ok(Pattern::Element(class, content)),
            Err(stop) => {
                drop(class);
                Err(stop)
            }
        }
    }

    /// An attribute, behind its word.
    #[cycle(pattern)]
    fn attribute(&self, left: usize, cursor: &mut Cursor<'_>) -> Result<Pattern, Stop>
        ensures { Finds pattern_of cursor.new result
            (named_at (scope_in self.now.look_ups) left (inside_at (scope_in self.now.look_ups) left)
            (Uri []) attribute cursor.old) }
    {
        let class = self.attribute_class(left, cursor)?;
        match self.boxed_body(left, cursor) {
            Ok(value) => Ok(Pattern::Attribute(class, value)),
            Err(stop) => {
                drop(class);
                Err(stop)
            }
        }
    }

    /// A pattern in braces.
    #[cycle(pattern)]
    fn boxed_body(&self, left: usize, cursor: &mut Cursor<'_>) -> Result<Box<Pattern>, Stop>
        ensures { Finds (λ body. pattern_of body.value) cursor.new result
            (between LeftBrace RightBrace (inside_at (scope_in self.now.look_ups) left).pattern cursor.old) }
    {
        let body = self.enclosed(Symbol::LeftBrace, Symbol::RightBrace, left, cursor)?;
        Ok(Box::new(self.alloc, body)?)
    }

    /// A pattern between two brackets.
    #[tactic(auto, unfolding(crate::specs::ReadingPatterns::inside_at))]
    #[cycle(pattern)]
    fn enclosed(
        &self,
        opening: Symbol,
        closing: Symbol,
        left: usize,
        cursor: &mut Cursor<'_>,
    ) -> Result<Pattern, Stop>
        ensures { Finds pattern_of cursor.new result
            (between opening closing (inside_at (scope_in self.now.look_ups) left).pattern cursor.old) }
    {
        cursor.expect(opening)?;
        if left == 0 {
            return Err(Stop::Syntax);
        }
        let body = self.pattern(left - 1, cursor)?;
        match cursor.expect(closing) {
            Ok(()) => Ok(body),
            Err(stop) => {
                drop(body);
                Err(stop)
            }
        }
    }

    /// Items in braces.
    #[tactic(auto, unfolding(crate::specs::ReadingPatterns::inside_at))]
    #[cycle(pattern)]
    fn braced_items(&self, left: usize, cursor: &mut Cursor<'_>) -> Result<Vec<Item>, Stop>
        ensures { Finds (λ items. items_in items.items) cursor.new result
            (between LeftBrace RightBrace (inside_at (scope_in self.now.look_ups) left).items cursor.old) }
    {
        cursor.expect(Symbol::LeftBrace)?;
        if left == 0 {
            return Err(Stop::Syntax);
        }
        let items = self.items(left - 1, cursor)?;
        cursor.expect(Symbol::RightBrace)?;
        Ok(items)
    }

    /// Items, up to a brace that closes or the end.
    #[tactic(auto, unfolding(crate::specs::ReadingPatterns::items_within))]
    #[cycle(pattern)]
    pub(crate) fn items(&self, left: usize, cursor: &mut Cursor<'_>) -> Result<Vec<Item>, Stop>
        ensures { Finds (λ items. items_in items.items) cursor.new result
            (items_within (scope_in self.now.look_ups) left (inside_at (scope_in self.now.look_ups) left) cursor.old) }
    {
        let mut items = Vec::new(self.alloc);
        'items: while cursor.goes_on() {
            let item = self.item(left, cursor)?;
            add_item(&mut items, item)?;
        }
        Ok(items)
    }

    /// An item; none where it is an annotation.
    #[tactic(auto, unfolding(crate::specs::ReadingPatterns::item_at))]
    #[cycle(pattern)]
    fn item(&self, left: usize, cursor: &mut Cursor<'_>) -> Result<Option<Item>, Stop>
        ensures { Finds (option_map item_of) cursor.new result
            (item_at (scope_in self.now.look_ups) left (inside_at (scope_in self.now.look_ups) left) cursor.old) }
    {
        opening(self.alloc, cursor)?;
        if begins_annotation(cursor) {
            cursor.advance();
            group(self.alloc, cursor)?;
            return Ok(None);
        }
        match cursor.first() {
            Some(Lexeme::Keyword(Keyword::Div)) => {
                cursor.advance();
                Ok(Some(div_of(self.braced_items(left, cursor)?)))
            }
            Some(Lexeme::Keyword(Keyword::Include)) => {
                cursor.advance();
                Ok(Some(self.include(left, cursor)?))
            }
            _ => {
                let (name, combine, body) = self.definition(left, cursor)?;
                Ok(Some(Item::Define(name, combine, body)))
            }
        }
    }

    /// What a definition defines, how, and as what.
    #[tactic(auto, unfolding(crate::specs::ReadingPatterns::definition_at))]
    #[cycle(pattern)]
    fn definition(
        &self,
        left: usize,
        cursor: &mut Cursor<'_>,
    ) -> Result<(Defined, Combine, Pattern), Stop>
        ensures { Finds (λ d. (d.0, d.1, pattern_of d.2)) cursor.new result
            (definition_at (scope_in self.now.look_ups) left (inside_at (scope_in self.now.look_ups) left) cursor.old) }
    {
        let name = defined(cursor)?;
        let combine = combine(cursor)?;
        let body = self.pattern(left, cursor)?;
        Ok((name, combine, body))
    }

    /// An include, behind its word.
    #[tactic(auto, unfolding(crate::specs::ReadingPatterns::include_at))]
    #[cycle(pattern)]
    fn include(&self, left: usize, cursor: &mut Cursor<'_>) -> Result<Item, Stop>
        ensures { Finds item_of cursor.new result
            (include_at (scope_in self.now.look_ups) left (inside_at (scope_in self.now.look_ups) left) cursor.old) }
    {
        let file = self.reference(cursor)?;
        if !cursor.stands(Symbol::LeftBrace) {
            return Ok(include_of(file, Vec::new(self.alloc)));
        }
        Ok(include_of(file, self.braced_replacements(left, cursor)?))
    }

    /// The items in the braces of an include.
    #[tactic(auto, unfolding(crate::specs::ReadingPatterns::inside_at))]
    #[cycle(pattern)]
    fn braced_replacements(
        &self,
        left: usize,
        cursor: &mut Cursor<'_>,
    ) -> Result<Vec<Replacement>, Stop>
        ensures { Finds (λ rs. replacements_in rs.items) cursor.new result
            (between LeftBrace RightBrace (inside_at (scope_in self.now.look_ups) left).replacements cursor.old) }
    {
        cursor.expect(Symbol::LeftBrace)?;
        if left == 0 {
            return Err(Stop::Syntax);
        }
        let replacements = self.replacements(left - 1, cursor)?;
        cursor.expect(Symbol::RightBrace)?;
        Ok(replacements)
    }

    /// The items in the braces of an include, up to the brace that closes or the end.
    #[tactic(auto, unfolding(crate::specs::ReadingPatterns::replacements_within))]
    #[cycle(pattern)]
    fn replacements(&self, left: usize, cursor: &mut Cursor<'_>) -> Result<Vec<Replacement>, Stop>
        ensures { Finds (λ rs. replacements_in rs.items) cursor.new result
            (replacements_within (scope_in self.now.look_ups) left (inside_at (scope_in self.now.look_ups) left) cursor.old) }
    {
        let mut replacements = Vec::new(self.alloc);
        'replacements: while cursor.goes_on() {
            let one = self.replacement(left, cursor)?;
            add_replacement(&mut replacements, one)?;
        }
        Ok(replacements)
    }

    /// An item in the braces of an include; none where it is an annotation.
    #[tactic(auto, unfolding(crate::specs::ReadingPatterns::replacement_at))]
    #[cycle(pattern)]
    fn replacement(&self, left: usize, cursor: &mut Cursor<'_>) -> Result<Option<Replacement>, Stop>
        ensures { Finds (option_map replacement_of) cursor.new result
            (replacement_at (scope_in self.now.look_ups) left (inside_at (scope_in self.now.look_ups) left) cursor.old) }
    {
        opening(self.alloc, cursor)?;
        if begins_annotation(cursor) {
            cursor.advance();
            group(self.alloc, cursor)?;
            return Ok(None);
        }
        if let Some(Lexeme::Keyword(Keyword::Div)) = cursor.first() {
            cursor.advance();
            return Ok(Some(div_anew_of(self.braced_replacements(left, cursor)?)));
        }
        let (name, combine, body) = self.definition(left, cursor)?;
        Ok(Some(Replacement::Define(name, combine, body)))
    }
}
