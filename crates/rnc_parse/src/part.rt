//! Literals, names, datatypes and references to files.

ghost use Rattle.std.specs.Prelude.{◌≡◌, option_copied, IfOk};
ghost use Rattle.rnc_parse.specs.Parts.{built_in};
ghost use Rattle.rnc_parse.specs.Looking.{scope_in};
ghost use Rattle.rnc_parse.specs.Reading.{Finds};
ghost use Rattle.rnc_parse.specs.ReadingParts.{one_literal_at, literal_at, is_literal, any_id_at, identifier_at, is_type, begins_data};
ghost use Rattle.rnc_parse.specs.ReadingParts.{param_at, all_params_at, params_at, type_at, handed_on_at, reference_at, is_inherit};

use crate::annotation::opening;
use crate::cursor::Cursor;
use crate::reader::Reader;
use crate::scope::bytes_of;
use crate::stop::Stop;
use crate::surface::{FileReference, Namespace, Param, Params, TypeName};
use nx_base::memory::NoMemory;
use nx_base::sequence::{Bytes, TryCopy};
use rnc_lex::keyword::spelling;
use rnc_lex::token::{Keyword, Lexeme, Symbol};
use std::alloc::Global;

/// One literal.
#[tactic(auto, unfolding(crate::specs::ReadingParts::one_literal_at))]
fn one_literal<'a>(cursor: &mut Cursor<'a>) -> Result<&'a Bytes, Stop>
    ensures { Finds (λ text. text.now) cursor.new result (one_literal_at cursor.old) }
{
    match cursor.first() {
        Some(Lexeme::Literal(text)) => {
            cursor.advance();
            Ok(text)
        }
        _ => Err(Stop::Syntax),
    }
}

/// Literals joined by `~`.
#[tactic(auto, unfolding(crate::specs::ReadingParts::literal_at))]
pub(crate) fn literal(alloc: Global, cursor: &mut Cursor<'_>) -> Result<Bytes, Stop>
    ensures { Finds (λ text. text) cursor.new result (literal_at cursor.old) }
{
    let first = one_literal(cursor)?;
    let mut text = Vec::from_slice(alloc, first.as_slice())?;
    'literals: while cursor.stands(Symbol::Tilde) {
        cursor.advance();
        let next = one_literal(cursor)?;
        text.extend_from_slice(next.as_slice())?;
    }
    Ok(Bytes::from_vec(text))
}

/// Whether the token is a literal.
pub(crate) fn is_literal(token: Option<&Lexeme>) -> bool
    ensures { result ≡ is_literal (option_copied token.entry) }
{
    matches!(token, Some(Lexeme::Literal(_)))
}

/// An identifier, or a keyword as a name.
#[tactic(auto, unfolding(crate::specs::ReadingParts::any_id_at))]
pub(crate) fn any_id(alloc: Global, cursor: &mut Cursor<'_>) -> Result<Bytes, Stop>
    ensures { Finds (λ name. name) cursor.new result (any_id_at cursor.old) }
{
    match cursor.first() {
        Some(Lexeme::Identifier(name)) => {
            cursor.advance();
            Ok(name.copy()?)
        }
        Some(Lexeme::Keyword(keyword)) => {
            cursor.advance();
            Ok(bytes_of(alloc, spelling(*keyword))?)
        }
        _ => Err(Stop::Syntax),
    }
}

/// An identifier.
#[tactic(auto, unfolding(crate::specs::ReadingParts::identifier_at))]
pub(crate) fn identifier(cursor: &mut Cursor<'_>) -> Result<Bytes, Stop>
    ensures { Finds (λ name. name) cursor.new result (identifier_at cursor.old) }
{
    match cursor.first() {
        Some(Lexeme::Identifier(name)) => {
            cursor.advance();
            Ok(name.copy()?)
        }
        _ => Err(Stop::Syntax),
    }
}

/// A type of the built-in library.
pub(crate) fn built_in(alloc: Global, name: &str) -> Result<TypeName, NoMemory>
    ensures { IfOk result (λ type. type ≡ built_in name.now) }
{
    Ok(TypeName {
        library: Bytes::new(alloc),
        name: bytes_of(alloc, name)?,
    })
}

/// Whether a type stands here, with no literal behind it.
pub(crate) fn begins_data(cursor: &Cursor<'_>) -> bool
    ensures { result ≡ begins_data cursor.now }
{
    is_type(cursor.first()) && !is_literal(cursor.second())
}

/// Whether the token is a type.
fn is_type(token: Option<&Lexeme>) -> bool
    ensures { result ≡ is_type (option_copied token.entry) }
{
    matches!(
        token,
        Some(
            Lexeme::PrefixedName(_, _)
                | Lexeme::Keyword(Keyword::String)
                | Lexeme::Keyword(Keyword::Token)
        )
    )
}

/// A param.
#[tactic(auto, unfolding(crate::specs::ReadingParts::param_at))]
fn param(alloc: Global, cursor: &mut Cursor<'_>) -> Result<Param, Stop>
    ensures { Finds (λ param. param) cursor.new result (param_at cursor.old) }
{
    opening(alloc, cursor)?;
    let name = any_id(alloc, cursor)?;
    cursor.expect(Symbol::Equals)?;
    let value = literal(alloc, cursor)?;
    Ok(Param { name, value })
}

/// Params, up to a brace that closes or the end.
fn all_params(alloc: Global, cursor: &mut Cursor<'_>) -> Result<Params, Stop>
    ensures { Finds (λ params. params) cursor.new result (all_params_at cursor.old) }
{
    let mut params = Params::new(alloc);
    'params: while cursor.goes_on() {
        params.push(param(alloc, cursor)?)?;
    }
    Ok(params)
}

/// The params of a type in braces, if there are some.
#[tactic(auto, unfolding(crate::specs::ReadingParts::params_at))]
pub(crate) fn params(alloc: Global, cursor: &mut Cursor<'_>) -> Result<Params, Stop>
    ensures { Finds (λ params. params) cursor.new result (params_at cursor.old) }
{
    if !cursor.stands(Symbol::LeftBrace) {
        return Ok(Params::new(alloc));
    }
    cursor.advance();
    let params = all_params(alloc, cursor)?;
    cursor.expect(Symbol::RightBrace)?;
    Ok(params)
}

impl Reader {
    /// A type.
    #[tactic(auto, unfolding(crate::specs::ReadingParts::type_at))]
    pub(crate) fn type_name(&self, cursor: &mut Cursor<'_>) -> Result<TypeName, Stop>
        ensures { Finds (λ type. type) cursor.new result (type_at (scope_in self.now.look_ups) cursor.old) }
    {
        match cursor.first() {
            Some(Lexeme::PrefixedName(prefix, local)) => {
                cursor.advance();
                let library = self.look_ups.library(prefix)?;
                let name = local.copy()?;
                Ok(TypeName { library, name })
            }
            Some(Lexeme::Keyword(Keyword::String)) => {
                cursor.advance();
                Ok(built_in(self.alloc, "string")?)
            }
            Some(Lexeme::Keyword(Keyword::Token)) => {
                cursor.advance();
                Ok(built_in(self.alloc, "token")?)
            }
            _ => Err(Stop::Syntax),
        }
    }

    /// The namespace that is handed on to a file.
    #[tactic(auto, unfolding(crate::specs::ReadingParts::handed_on_at))]
    fn handed_on(&self, cursor: &mut Cursor<'_>) -> Result<Namespace, Stop>
        ensures { Finds (λ ns. ns) cursor.new result (handed_on_at (scope_in self.now.look_ups) cursor.old) }
    {
        if !is_inherit(cursor.first()) {
            return Ok(self.look_ups.unprefixed()?);
        }
        cursor.advance();
        cursor.expect(Symbol::Equals)?;
        let prefix = any_id(self.alloc, cursor)?;
        self.look_ups.namespace(&prefix)
    }

    /// A reference to a file.
    #[tactic(auto, unfolding(crate::specs::ReadingParts::reference_at))]
    pub(crate) fn reference(&self, cursor: &mut Cursor<'_>) -> Result<FileReference, Stop>
        ensures { Finds (λ file. file) cursor.new result (reference_at (scope_in self.now.look_ups) cursor.old) }
    {
        let uri = literal(self.alloc, cursor)?;
        let namespace = self.handed_on(cursor)?;
        Ok(FileReference { uri, namespace })
    }
}

/// Whether the token is the word `inherit`.
pub(crate) fn is_inherit(token: Option<&Lexeme>) -> bool
    ensures { result ≡ is_inherit (option_copied token.entry) }
{
    matches!(token, Some(Lexeme::Keyword(Keyword::Inherit)))
}
