//! Primaries with no pattern in them, and the marks behind primaries.

ghost use Rattle.std.specs.Prelude.{◌≡◌, IfOk};
ghost use Rattle.rnc_parse.specs.Looking.{scope_in};
ghost use Rattle.rnc_parse.specs.Views.{pattern_of};
ghost use Rattle.rnc_parse.specs.Reading.{Finds, first};
ghost use Rattle.rnc_parse.specs.ReadingPatterns.{repeats, repeat_of, marked_by, marked_at, leaf_at, leaf_by_word, typed_at};

use crate::annotation::follow;
use crate::cursor::Cursor;
use crate::part::{built_in, identifier, is_literal, literal, params};
use crate::reader::Reader;
use crate::sign::{Repeat, repeat_of};
use crate::stop::Stop;
use crate::surface::Pattern;
use nx_base::memory::NoMemory;
use nx_base::sequence::TryCopy;
use rnc_lex::token::{Keyword, Lexeme};
use std::alloc::Global;

/// A pattern with a mark behind it.
fn repeated(alloc: Global, repeat: Repeat, body: Pattern) -> Result<Pattern, NoMemory>
    ensures { IfOk result (λ p. pattern_of p ≡ repeats repeat (pattern_of body)) }
{
    let body = Box::new(alloc, body)?;
    match repeat {
        Repeat::Optional => Ok(Pattern::Optional(body)),
        Repeat::ZeroOrMore => Ok(Pattern::ZeroOrMore(body)),
        Repeat::OneOrMore => Ok(Pattern::OneOrMore(body)),
    }
}

/// A primary, behind which what follows it was read, with the mark behind it, if there is one.
fn with_mark(alloc: Global, primary: Pattern, cursor: &mut Cursor<'_>) -> Result<Pattern, Stop>
    ensures { Finds pattern_of cursor.new result (marked_by (pattern_of primary) cursor.old (repeat_of (first cursor.old))) }
{
    match repeat_of(cursor.first()) {
        None => Ok(primary),
        Some(repeat) => {
            cursor.advance();
            match follow(alloc, cursor) {
                Ok(()) => Ok(repeated(alloc, repeat, primary)?),
                Err(stop) => {
                    // The checker unfolds a drop that no call makes.
                    drop(primary);
                    Err(stop)
                }
            }
        }
    }
}

/// A primary with what follows it and the mark behind it, if there is one.
#[tactic(auto, unfolding(crate::specs::ReadingPatterns::marked_at))]
pub(crate) fn marked(
    alloc: Global,
    primary: Pattern,
    cursor: &mut Cursor<'_>,
) -> Result<Pattern, Stop>
    ensures { Finds pattern_of cursor.new result (marked_at (pattern_of primary) cursor.old) }
{
    match follow(alloc, cursor) {
        Ok(()) => with_mark(alloc, primary, cursor),
        Err(stop) => {
            // The checker unfolds a drop that no call makes.
            drop(primary);
            Err(stop)
        }
    }
}

impl Reader {
    /// A primary with no pattern in it.
    #[tactic(auto, unfolding(crate::specs::ReadingPatterns::leaf_at))]
    pub(crate) fn leaf(&self, cursor: &mut Cursor<'_>) -> Result<Pattern, Stop>
        ensures { Finds pattern_of cursor.new result (leaf_at (scope_in self.now.look_ups) cursor.old) }
    {
        match cursor.first() {
            Some(Lexeme::Identifier(name)) => {
                cursor.advance();
                Ok(Pattern::Ref(name.copy()?))
            }
            Some(Lexeme::Literal(_)) => {
                let text = literal(self.alloc, cursor)?;
                Ok(Pattern::Value(built_in(self.alloc, "token")?, text))
            }
            Some(Lexeme::Keyword(word)) => self.leaf_of_word(*word, cursor),
            _ => self.typed(cursor),
        }
    }

    /// A primary with no pattern in it, that begins with a keyword.
    fn leaf_of_word(&self, word: Keyword, cursor: &mut Cursor<'_>) -> Result<Pattern, Stop>
        ensures { Finds pattern_of cursor.new result (leaf_by_word (scope_in self.now.look_ups) cursor.old word) }
    {
        match word {
            Keyword::Empty => {
                cursor.advance();
                Ok(Pattern::Empty)
            }
            Keyword::Text => {
                cursor.advance();
                Ok(Pattern::Text)
            }
            Keyword::NotAllowed => {
                cursor.advance();
                Ok(Pattern::NotAllowed)
            }
            Keyword::Parent => {
                cursor.advance();
                Ok(Pattern::ParentRef(identifier(cursor)?))
            }
            Keyword::External => {
                cursor.advance();
                Ok(Pattern::External(self.reference(cursor)?))
            }
            _ => self.typed(cursor),
        }
    }

    /// A literal of a type, or a type with its params.
    #[tactic(auto, unfolding(crate::specs::ReadingPatterns::typed_at))]
    fn typed(&self, cursor: &mut Cursor<'_>) -> Result<Pattern, Stop>
        ensures { Finds pattern_of cursor.new result (typed_at (scope_in self.now.look_ups) cursor.old) }
    {
        let name = self.type_name(cursor)?;
        if is_literal(cursor.first()) {
            return Ok(Pattern::Value(name, literal(self.alloc, cursor)?));
        }
        Ok(Pattern::Data(name, params(self.alloc, cursor)?))
    }
}
