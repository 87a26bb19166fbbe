//! A schema file read.

ghost use Rattle.std.specs.Prelude.{◌≡◌, ◌≤◌, ◌∷◌, [], option_copied, IfOk, MatchOption};
ghost use Rattle.rnc_lex.specs.declared.token.Symbol.TheVariants.{LeftBracket};
ghost use Rattle.rnc_parse.specs.Files.{lexemes, StandsAt, IsShallow, IsTooDeepAt, open_behind};
ghost use Rattle.rnc_parse.specs.Answering.{AnswersText};
ghost use Rattle.rnc_parse.specs.Texts.{HasUtf8Texts};
ghost use Rattle.rnc_parse.specs.AnsweringParts.{IsBehindDeclarations, IsBodyOrNot, Leaves, RefusesPrefix, RefusesBody, RefusesClash};
ghost use Rattle.rnc_parse.specs.AnsweringParts.{RefusesDeclarations, Answers, AnswersTokens};
ghost use Rattle.rnc_parse.specs.Looking.{scope_in};
ghost use Rattle.rnc_parse.specs.Views.{surface_of};
ghost use Rattle.rnc_parse.specs.Reading.{Finds, read, is_symbol};
ghost use Rattle.rnc_parse.specs.ReadingFiles.{declarations_at, is_combine, begins_items, only_read, body_at};

use crate::annotation::opening;
use crate::cursor::Cursor;
use crate::declaration::{Declarations, declarations};
use crate::reader::Reader;
use crate::scope::{Clash, LookUps};
use crate::stop::Stop;
use crate::surface::Surface;
use nx_base::memory::NoMemory;
use nx_base::sequence::Bytes;
use rnc_lex::fault::LexFault;
use rnc_lex::lex::tokens;
use rnc_lex::token::{Keyword, Lexeme, RncToken, Symbol};
use std::alloc::Global;

/// How many brackets may be open at once.
pub const MOST_BRACKETS: usize = 200;

/// Why a text was not read.
#[derive(Drop)]
pub enum ReadFault {
    /// The text isn't tokens.
    Lex(LexFault),
    /// The 201st of the brackets that are open at once stands at the place.
    TooDeep(usize),
    /// The tokens are in no reading. The place is that of some token, or the text's length.
    Syntax(usize),
    /// The prefix stands for nothing.
    UndeclaredPrefix(Bytes),
    /// The prefix, empty for the default namespace, is declared twice, or though it may not be.
    Twice(Bytes),
    /// There was no memory.
    NoMemory,
}

/// Reads a schema file: what it says, or the one cause for which it says nothing. It takes time and memory in proportion to
/// the text and to the namespaces of its names, each of which holds its own.
pub fn read(alloc: Global, text: &str) -> Result<Surface, ReadFault>
    ensures answers { AnswersText text.now result }
    ensures texts { IfOk result (λ surface. HasUtf8Texts (surface_of surface)) }
{
    match tokens(alloc, text) {
        Ok(tokens) => read_tokens(alloc, tokens.as_slice(), text.len()),
        Err(LexFault::NoMemory) => Err(ReadFault::NoMemory),
        Err(fault) => Err(ReadFault::Lex(fault)),
    }
}

/// How many brackets are open behind a token, where so many are open before it.
fn open_with(before: usize, token: &Lexeme) -> usize
    requires few { before ≤ 200 }
    ensures { result ≡ open_behind before (token.now ∷ []) }
{
    match token {
        Lexeme::Symbol(Symbol::LeftBrace)
        | Lexeme::Symbol(Symbol::LeftParenthesis)
        | Lexeme::Symbol(Symbol::LeftBracket) => before + 1,
        Lexeme::Symbol(Symbol::RightBrace)
        | Lexeme::Symbol(Symbol::RightParenthesis)
        | Lexeme::Symbol(Symbol::RightBracket) => before.saturating_sub(1),
        _ => before,
    }
}

/// The place of the 201st bracket, if so many are open at once.
fn too_deep_at(tokens: &[RncToken]) -> Option<usize>
    ensures { MatchOption result (IsShallow (lexemes tokens.now)) (λ at. IsTooDeepAt tokens.now at) }
{
    let mut open: usize = 0;
    let mut rest = tokens;
    'brackets: while let Some((token, behind)) = rest.split_first() {
        open = open_with(open, &token.lexeme);
        if open > MOST_BRACKETS {
            return Some(token.at);
        }
        rest = behind;
    }
    None
}

/// The place of the token behind which so many are left, or the end of the text.
fn place(tokens: &[RncToken], left: usize, end: usize) -> usize
    ensures { StandsAt tokens.now end result }
{
    match tokens.len().checked_sub(left) {
        Some(i) if i < tokens.len() => tokens[i].at,
        _ => end,
    }
}

/// Reads the tokens of a text that ends at `end`.
fn read_tokens(alloc: Global, tokens: &[RncToken], end: usize) -> Result<Surface, ReadFault>
    ensures { AnswersTokens tokens.now end result }
{
    match too_deep_at(tokens) {
        Some(at) => Err(ReadFault::TooDeep(at)),
        None => said(alloc, tokens, end),
    }
}

/// What tokens say in which no brackets are too deep.
fn said(alloc: Global, tokens: &[RncToken], end: usize) -> Result<Surface, ReadFault>
    requires shallow { IsShallow (lexemes tokens.now) }
    ensures { Answers tokens.now end result }
{
    let mut cursor = Cursor::new(tokens);
    match declarations(alloc, &mut cursor) {
        Ok(declarations) => behind_declarations(alloc, declarations, cursor, tokens, end),
        Err(stop) => no_declarations(stop, cursor.len(), tokens, end),
    }
}

/// The refusal where declarations stop with so many tokens left.
fn no_declarations(
    stop: Stop,
    left: usize,
    tokens: &[RncToken],
    end: usize,
) -> Result<Surface, ReadFault>
    ensures { RefusesDeclarations tokens.now end stop result }
{
    match stop {
        Stop::NoMemory => Err(ReadFault::NoMemory),
        Stop::Syntax => Err(ReadFault::Syntax(place(tokens, left, end))),
        Stop::NamePrefix(_) => Err(ReadFault::Syntax(place(tokens, left, end))),
        Stop::TypePrefix(_) => Err(ReadFault::Syntax(place(tokens, left, end))),
    }
}

/// What tokens say that begin with these declarations, and go on where the cursor is.
fn behind_declarations(
    alloc: Global,
    declarations: Declarations,
    cursor: Cursor<'_>,
    tokens: &[RncToken],
    end: usize,
) -> Result<Surface, ReadFault>
    requires shallow { IsShallow (lexemes tokens.now) }
    requires declared { declarations_at (lexemes tokens.now) ≡ read declarations cursor }
    ensures { Answers tokens.now end result }
{
    match LookUps::declared(alloc, declarations.as_slice()) {
        Ok(look_ups) => body_said(alloc, look_ups, cursor, tokens, end),
        Err(clash) => clashed(alloc, clash, cursor, tokens, end),
    }
}

/// The refusal where declarations clash: the body may still be in no reading.
fn clashed(
    alloc: Global,
    clash: Clash,
    cursor: Cursor<'_>,
    tokens: &[RncToken],
    end: usize,
) -> Result<Surface, ReadFault>
    ensures { RefusesClash tokens.now end clash cursor.entry result }
{
    match clash {
        Clash::NoMemory => Err(ReadFault::NoMemory),
        Clash::Twice(prefix) => match syntax(alloc, cursor) {
            Err(_) => Err(ReadFault::NoMemory),
            Ok(None) => Err(ReadFault::Twice(prefix)),
            Ok(Some(left)) => Err(ReadFault::Syntax(place(tokens, left, end))),
        },
    }
}

/// What the body at the cursor says, where prefixes stand for what is declared.
fn body_said(
    alloc: Global,
    look_ups: LookUps,
    cursor: Cursor<'_>,
    tokens: &[RncToken],
    end: usize,
) -> Result<Surface, ReadFault>
    requires shallow { IsShallow (lexemes tokens.now) }
    requires declared { IsBehindDeclarations (lexemes tokens.now) (scope_in look_ups) cursor }
    ensures { Answers tokens.now end result }
{
    let mut ahead = cursor.ahead();
    match (Reader { alloc, look_ups }).body(&mut ahead) {
        Ok(surface) => Ok(surface),
        Err(stop) => no_body(alloc, stop, cursor, ahead.len(), tokens, end),
    }
}

/// The refusal where the body at the cursor stops with so many tokens left.
fn no_body(
    alloc: Global,
    stop: Stop,
    cursor: Cursor<'_>,
    left: usize,
    tokens: &[RncToken],
    end: usize,
) -> Result<Surface, ReadFault>
    ensures { RefusesBody tokens.now end stop cursor.entry result }
{
    match stop {
        Stop::NoMemory => Err(ReadFault::NoMemory),
        Stop::Syntax => Err(ReadFault::Syntax(place(tokens, left, end))),
        Stop::NamePrefix(prefix) => undeclared(alloc, prefix, cursor, tokens, end),
        Stop::TypePrefix(prefix) => undeclared(alloc, prefix, cursor, tokens, end),
    }
}

/// The refusal for a prefix that stands for nothing: the body may still be in no reading.
fn undeclared(
    alloc: Global,
    prefix: Bytes,
    cursor: Cursor<'_>,
    tokens: &[RncToken],
    end: usize,
) -> Result<Surface, ReadFault>
    ensures { RefusesPrefix tokens.now end prefix cursor.entry result }
{
    match syntax(alloc, cursor) {
        Err(_) => Err(ReadFault::NoMemory),
        Ok(None) => Err(ReadFault::UndeclaredPrefix(prefix)),
        Ok(Some(left)) => Err(ReadFault::Syntax(place(tokens, left, end))),
    }
}

/// Where the body at the cursor is in no reading, whatever prefixes stand for, how many tokens are left there.
fn syntax(alloc: Global, mut cursor: Cursor<'_>) -> Result<Option<usize>, NoMemory>
    ensures { IfOk result (IsBodyOrNot cursor.entry) }
{
    let look_ups = LookUps::new(alloc, true);
    match (Reader { alloc, look_ups }).body(&mut cursor) {
        Ok(_) => Ok(None),
        Err(stop) => left_at(stop, cursor.len()),
    }
}

/// How many tokens are left where reading stops, unless memory ran out.
fn left_at(stop: Stop, left: usize) -> Result<Option<usize>, NoMemory>
    ensures { Leaves stop left result }
{
    match stop {
        Stop::NoMemory => Err(NoMemory),
        Stop::Syntax => Ok(Some(left)),
        Stop::NamePrefix(_) => Ok(Some(left)),
        Stop::TypePrefix(_) => Ok(Some(left)),
    }
}

/// Whether the token joins a definition to its name.
fn is_combine(token: Option<&Lexeme>) -> bool
    ensures { result ≡ is_combine (option_copied token.entry) }
{
    matches!(
        token,
        Some(
            Lexeme::Symbol(Symbol::Equals)
                | Lexeme::Symbol(Symbol::BarEquals)
                | Lexeme::Symbol(Symbol::AmpersandEquals)
        )
    )
}

/// Whether the token is `[`.
fn is_left_bracket(token: Option<&Lexeme>) -> bool
    ensures { result ≡ is_symbol LeftBracket (option_copied token.entry) }
{
    matches!(token, Some(Lexeme::Symbol(Symbol::LeftBracket)))
}

/// Whether items stand here, with no group before the first.
#[tactic(auto, unfolding(crate::specs::ReadingFiles::begins_items))]
fn begins_items(cursor: &Cursor<'_>) -> bool
    ensures { result ≡ begins_items cursor.now }
{
    match cursor.first() {
        None => true,
        Some(Lexeme::Keyword(word)) => {
            matches!(word, Keyword::Start | Keyword::Div | Keyword::Include)
        }
        Some(Lexeme::Identifier(_)) => {
            is_combine(cursor.second()) || is_left_bracket(cursor.second())
        }
        Some(Lexeme::PrefixedName(_, _)) => is_left_bracket(cursor.second()),
        _ => false,
    }
}

/// The surface, where nothing is left.
#[tactic(auto, unfolding(crate::specs::Reading::first))]
fn ended(surface: Surface, cursor: &mut Cursor<'_>) -> Result<Surface, Stop>
    ensures { Finds surface_of cursor.new result (only_read (surface_of surface) cursor.old) }
{
    if cursor.first().is_some() {
        return Err(Stop::Syntax);
    }
    Ok(surface)
}

impl Reader {
    /// The body of a file.
    #[tactic(auto, unfolding(crate::specs::ReadingFiles::body_at, crate::specs::ReadingPatterns::items_at, crate::specs::ReadingPatterns::pattern_at))]
    fn body(&self, cursor: &mut Cursor<'_>) -> Result<Surface, Stop>
        ensures { Finds surface_of cursor.new result (body_at (scope_in self.now.look_ups) 200 cursor.old) }
    {
        opening(self.alloc, cursor)?;
        let mut ahead = cursor.ahead();
        opening(self.alloc, &mut ahead)?;
        if begins_items(&ahead) {
            let items = self.items(MOST_BRACKETS, cursor)?;
            ended(Surface::Grammar(items), cursor)
        } else {
            let pattern = self.pattern(MOST_BRACKETS, cursor)?;
            ended(Surface::Pattern(pattern), cursor)
        }
    }
}
