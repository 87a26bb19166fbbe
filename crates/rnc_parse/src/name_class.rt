//! Name classes.
//!
//! What is left of a class where reading stops is dropped by a call, since the checker unfolds each drop that no call makes.

ghost use Rattle.std.specs.Prelude.{◌≡◌, option_copied};
ghost use Rattle.rnc_parse.specs.Looking.{scope_in};
ghost use Rattle.rnc_parse.specs.Views.{class_of};
ghost use Rattle.rnc_parse.specs.Reading.{Finds};
ghost use Rattle.rnc_parse.specs.ReadingClasses.{is_wildcard, begins_except, wildcard_at, class_at, class_inside, except_class_at};
ghost use Rattle.rnc_parse.specs.ReadingClasses.{several_classes_at, more_classes_at, annotated_class_at, one_class_at, parenthesized_at};

use crate::annotation::{follow, opening};
use crate::cursor::Cursor;
use crate::reader::Reader;
use crate::scope::bytes_of;
use crate::stop::Stop;
use crate::surface::{NameClass, Namespace};
use nx_base::sequence::TryCopy;
use rnc_lex::keyword::spelling;
use rnc_lex::token::{Lexeme, Symbol};

/// Whether the token stands for all names, or for those of a namespace.
fn is_wildcard(token: Option<&Lexeme>) -> bool
    ensures { result ≡ is_wildcard (option_copied token.entry) }
{
    matches!(
        token,
        Some(Lexeme::NamespaceWildcard(_) | Lexeme::Symbol(Symbol::Star))
    )
}

/// Whether a class stands here with something to leave out.
fn begins_except(cursor: &Cursor<'_>) -> bool
    ensures { result ≡ begins_except cursor.now }
{
    is_wildcard(cursor.first()) && matches!(cursor.second(), Some(Lexeme::Symbol(Symbol::Minus)))
}

impl Reader {
    /// All names, or those of a prefix's namespace.
    #[tactic(auto, unfolding(crate::specs::ReadingClasses::wildcard_at))]
    fn wildcard(&self, cursor: &mut Cursor<'_>) -> Result<NameClass, Stop>
        ensures { Finds class_of cursor.new result (wildcard_at (scope_in self.now.look_ups) cursor.old) }
    {
        match cursor.first() {
            Some(Lexeme::NamespaceWildcard(prefix)) => {
                cursor.advance();
                Ok(NameClass::NsName(self.look_ups.namespace(prefix)?))
            }
            Some(Lexeme::Symbol(Symbol::Star)) => {
                cursor.advance();
                Ok(NameClass::AnyName)
            }
            _ => Err(Stop::Syntax),
        }
    }

    /// A name class. A name without a prefix is in the namespace `unprefixed`. So many brackets, `left`, may still be
    /// opened.
    #[tactic(auto, unfolding(crate::specs::ReadingClasses::class_at, crate::specs::ReadingClasses::class_within))]
    #[cycle(class)]
    pub(crate) fn class(
        &self,
        unprefixed: &Namespace,
        left: usize,
        cursor: &mut Cursor<'_>,
    ) -> Result<NameClass, Stop>
        ensures { Finds class_of cursor.new result (class_at (scope_in self.now.look_ups) unprefixed.now left cursor.old) }
    {
        opening(self.alloc, cursor)?;
        if begins_except(cursor) {
            return self.except_class(unprefixed, left, cursor);
        }
        self.several_classes(unprefixed, left, cursor)
    }

    /// A class but for another.
    #[tactic(auto, unfolding(crate::specs::ReadingClasses::except_class_at))]
    #[cycle(class)]
    fn except_class(
        &self,
        unprefixed: &Namespace,
        left: usize,
        cursor: &mut Cursor<'_>,
    ) -> Result<NameClass, Stop>
        ensures { Finds class_of cursor.new result
            (except_class_at (scope_in self.now.look_ups) unprefixed.now
            (class_inside (scope_in self.now.look_ups) unprefixed.now left) cursor.old) }
    {
        let class = self.wildcard(cursor)?;
        cursor.advance();
        match self.annotated_class(unprefixed, left, cursor) {
            Ok(except) => Ok(NameClass::Except(
                Box::new(self.alloc, class)?,
                Box::new(self.alloc, except)?,
            )),
            Err(stop) => {
                drop(class);
                Err(stop)
            }
        }
    }

    /// Classes with `|` between them.
    #[tactic(auto, unfolding(crate::specs::ReadingClasses::several_classes_at))]
    #[cycle(class)]
    fn several_classes(
        &self,
        unprefixed: &Namespace,
        left: usize,
        cursor: &mut Cursor<'_>,
    ) -> Result<NameClass, Stop>
        ensures { Finds class_of cursor.new result
            (several_classes_at (scope_in self.now.look_ups) unprefixed.now
            (class_inside (scope_in self.now.look_ups) unprefixed.now left) cursor.old) }
    {
        let first = self.one_class(unprefixed, left, cursor)?;
        follow(self.alloc, cursor)?;
        if !cursor.stands(Symbol::Bar) {
            return Ok(first);
        }
        self.more_classes(first, unprefixed, left, cursor)
    }

    /// The first class, and those behind it, with `|` before each.
    #[cycle(class)]
    fn more_classes(
        &self,
        first: NameClass,
        unprefixed: &Namespace,
        left: usize,
        cursor: &mut Cursor<'_>,
    ) -> Result<NameClass, Stop>
        ensures { Finds class_of cursor.new result
            (more_classes_at (scope_in self.now.look_ups) unprefixed.now
            (class_inside (scope_in self.now.look_ups) unprefixed.now left) (class_of first) cursor.old) }
    {
        let mut classes = Vec::new(self.alloc);
        classes.push(first)?;
        'classes: while cursor.stands(Symbol::Bar) {
            cursor.advance();
            let next = self.annotated_class(unprefixed, left, cursor)?;
            classes.push(next)?;
        }
        Ok(NameClass::Choice(classes))
    }

    /// One class with the annotations around it.
    #[tactic(auto, unfolding(crate::specs::ReadingClasses::annotated_class_at))]
    #[cycle(class)]
    fn annotated_class(
        &self,
        unprefixed: &Namespace,
        left: usize,
        cursor: &mut Cursor<'_>,
    ) -> Result<NameClass, Stop>
        ensures { Finds class_of cursor.new result
            (annotated_class_at (scope_in self.now.look_ups) unprefixed.now
            (class_inside (scope_in self.now.look_ups) unprefixed.now left) cursor.old) }
    {
        opening(self.alloc, cursor)?;
        let class = self.one_class(unprefixed, left, cursor)?;
        match follow(self.alloc, cursor) {
            Ok(()) => Ok(class),
            Err(stop) => {
                drop(class);
                Err(stop)
            }
        }
    }

    /// One class.
    #[tactic(auto, unfolding(crate::specs::ReadingClasses::one_class_at))]
    #[cycle(class)]
    fn one_class(
        &self,
        unprefixed: &Namespace,
        left: usize,
        cursor: &mut Cursor<'_>,
    ) -> Result<NameClass, Stop>
        ensures { Finds class_of cursor.new result
            (one_class_at (scope_in self.now.look_ups) unprefixed.now
            (class_inside (scope_in self.now.look_ups) unprefixed.now left) cursor.old) }
    {
        match cursor.first() {
            Some(Lexeme::Identifier(name)) => {
                cursor.advance();
                Ok(NameClass::Name(unprefixed.copy()?, name.copy()?))
            }
            Some(Lexeme::Keyword(keyword)) => {
                cursor.advance();
                let name = bytes_of(self.alloc, spelling(*keyword))?;
                Ok(NameClass::Name(unprefixed.copy()?, name))
            }
            Some(Lexeme::PrefixedName(prefix, local)) => {
                cursor.advance();
                let ns = self.look_ups.namespace(prefix)?;
                Ok(NameClass::Name(ns, local.copy()?))
            }
            Some(Lexeme::Symbol(Symbol::LeftParenthesis)) => {
                cursor.advance();
                self.parenthesized_class(unprefixed, left, cursor)
            }
            _ => self.wildcard(cursor),
        }
    }

    /// What stands behind `(`, and the `)` behind it.
    #[tactic(auto, unfolding(crate::specs::ReadingClasses::class_inside, crate::specs::ReadingClasses::class_at))]
    #[cycle(class)]
    fn parenthesized_class(
        &self,
        unprefixed: &Namespace,
        left: usize,
        cursor: &mut Cursor<'_>,
    ) -> Result<NameClass, Stop>
        ensures { Finds class_of cursor.new result
            (parenthesized_at (scope_in self.now.look_ups) unprefixed.now
            (class_inside (scope_in self.now.look_ups) unprefixed.now left) cursor.old) }
    {
        if left == 0 {
            return Err(Stop::Syntax);
        }
        let class = self.class(unprefixed, left - 1, cursor)?;
        match cursor.expect(Symbol::RightParenthesis) {
            Ok(()) => Ok(class),
            Err(stop) => {
                drop(class);
                Err(stop)
            }
        }
    }
}
