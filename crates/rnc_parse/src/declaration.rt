//! Declarations at the head of a schema file.

ghost use Rattle.std.specs.Prelude.{◌≡◌, option_copied};
ghost use Rattle.rnc_parse.specs.Reading.{Finds};
ghost use Rattle.rnc_parse.specs.ReadingFiles.{namespace_uri_at, namespace_declaration_at, default_prefix_at, default_declaration_at};
ghost use Rattle.rnc_parse.specs.ReadingFiles.{library_declaration_at, declaration_at, is_declaration, is_namespace_word};
ghost use Rattle.rnc_parse.specs.ReadingFiles.{declarations_at};

use crate::cursor::Cursor;
use crate::part::{any_id, is_inherit, literal};
use crate::stop::Stop;
use crate::surface::Namespace;
use nx_base::sequence::{Bytes, Sequence};
use rnc_lex::token::{Keyword, Lexeme, Symbol};
use std::alloc::Global;

/// A declaration.
#[derive(Drop)]
pub enum Declaration {
    /// `namespace`: what a prefix of names stands for.
    Namespace(Bytes, Namespace),
    /// `default namespace`: what names of elements without a prefix are in, and so are those of the prefix, if there is
    /// one.
    Default(Option<Bytes>, Namespace),
    /// `datatypes`: the library that a prefix of types stands for.
    Datatypes(Bytes, Bytes),
}

/// The declarations of a file, in order.
pub type Declarations = Sequence<Declaration>;

/// The namespace that a declaration binds to.
#[tactic(auto, unfolding(crate::specs::ReadingFiles::namespace_uri_at))]
fn namespace_uri(alloc: Global, cursor: &mut Cursor<'_>) -> Result<Namespace, Stop>
    ensures { Finds (λ one. one) cursor.new result (namespace_uri_at cursor.old) }
{
    if is_inherit(cursor.first()) {
        cursor.advance();
        return Ok(Namespace::Inherited);
    }
    Ok(Namespace::Uri(literal(alloc, cursor)?))
}

/// A declaration of a prefix of names, behind its word.
#[tactic(auto, unfolding(crate::specs::ReadingFiles::namespace_declaration_at))]
fn namespace_declaration(alloc: Global, cursor: &mut Cursor<'_>) -> Result<Declaration, Stop>
    ensures { Finds (λ one. one) cursor.new result (namespace_declaration_at cursor.old) }
{
    let prefix = any_id(alloc, cursor)?;
    cursor.expect(Symbol::Equals)?;
    Ok(Declaration::Namespace(prefix, namespace_uri(alloc, cursor)?))
}

/// The prefix in front of a `=`, if there is one.
#[tactic(auto, unfolding(crate::specs::ReadingFiles::default_prefix_at))]
fn default_prefix(alloc: Global, cursor: &mut Cursor<'_>) -> Result<Option<Bytes>, Stop>
    ensures { Finds (λ one. one) cursor.new result (default_prefix_at cursor.old) }
{
    if cursor.stands(Symbol::Equals) {
        return Ok(None);
    }
    Ok(Some(any_id(alloc, cursor)?))
}

/// Whether the token is the word `namespace`.
fn is_namespace_word(token: Option<&Lexeme>) -> bool
    ensures { result ≡ is_namespace_word (option_copied token.entry) }
{
    matches!(token, Some(Lexeme::Keyword(Keyword::Namespace)))
}

/// A declaration of the default namespace, behind its first word.
#[tactic(auto, unfolding(crate::specs::ReadingFiles::default_declaration_at))]
fn default_declaration(alloc: Global, cursor: &mut Cursor<'_>) -> Result<Declaration, Stop>
    ensures { Finds (λ one. one) cursor.new result (default_declaration_at cursor.old) }
{
    if !is_namespace_word(cursor.first()) {
        return Err(Stop::Syntax);
    }
    cursor.advance();
    let prefix = default_prefix(alloc, cursor)?;
    cursor.expect(Symbol::Equals)?;
    Ok(Declaration::Default(prefix, namespace_uri(alloc, cursor)?))
}

/// A declaration of a prefix of types, behind its word.
#[tactic(auto, unfolding(crate::specs::ReadingFiles::library_declaration_at))]
fn library_declaration(alloc: Global, cursor: &mut Cursor<'_>) -> Result<Declaration, Stop>
    ensures { Finds (λ one. one) cursor.new result (library_declaration_at cursor.old) }
{
    let prefix = any_id(alloc, cursor)?;
    cursor.expect(Symbol::Equals)?;
    Ok(Declaration::Datatypes(prefix, literal(alloc, cursor)?))
}

/// A declaration.
#[tactic(auto, unfolding(crate::specs::ReadingFiles::declaration_at))]
fn one_declaration(alloc: Global, cursor: &mut Cursor<'_>) -> Result<Declaration, Stop>
    ensures { Finds (λ one. one) cursor.new result (declaration_at cursor.old) }
{
    match cursor.first() {
        Some(Lexeme::Keyword(Keyword::Namespace)) => {
            cursor.advance();
            namespace_declaration(alloc, cursor)
        }
        Some(Lexeme::Keyword(Keyword::Default)) => {
            cursor.advance();
            default_declaration(alloc, cursor)
        }
        Some(Lexeme::Keyword(Keyword::Datatypes)) => {
            cursor.advance();
            library_declaration(alloc, cursor)
        }
        _ => Err(Stop::Syntax),
    }
}

/// Whether the token begins a declaration.
fn is_declaration(token: Option<&Lexeme>) -> bool
    ensures { result ≡ is_declaration (option_copied token.entry) }
{
    matches!(
        token,
        Some(
            Lexeme::Keyword(Keyword::Namespace)
                | Lexeme::Keyword(Keyword::Default)
                | Lexeme::Keyword(Keyword::Datatypes)
        )
    )
}

/// The declarations at the head of a file.
#[tactic(auto, unfolding(crate::specs::ReadingFiles::declarations_at))]
pub(crate) fn declarations(alloc: Global, cursor: &mut Cursor<'_>) -> Result<Declarations, Stop>
    ensures { Finds (λ one. one) cursor.new result (declarations_at cursor.old) }
{
    let mut declarations = Declarations::new(alloc);
    'declarations: while is_declaration(cursor.first()) {
        declarations.push(one_declaration(alloc, cursor)?)?;
    }
    Ok(declarations)
}
