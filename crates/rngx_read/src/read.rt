//! A schema file read.

ghost use Rattle.std.specs.Prelude.{◌≡◌, ◌<◌, ◌≤◌, ℕ, List, [], codes, length, IfOk, IsUtf8};
ghost use Rattle.nx_base.specs.Tokens.{begins_with, tokens_of, AreTokensOf};
ghost use Rattle.rnc_parse.specs.Texts.{HasUtf8Texts};
ghost use Rattle.rnc_parse.specs.Views.{surface_of};
ghost use Rattle.rngx_read.specs.Elements.{IsReadAs, Nodes, no_elements, elements_in};
ghost use Rattle.rngx_read.specs.Files.{behind_mark, is_markup};
ghost use Rattle.rngx_read.specs.Names.{bound_in};
ghost use Rattle.rngx_read.specs.Reading.{Finds};
ghost use Rattle.rngx_read.specs.ReadingPatterns.{grammar_file_by, lone_surface, surface_at};
ghost use Rattle.rngx_read.specs.Reads.{AnswersText};
ghost use Rattle.rngx_read.specs.Answering.{RefusesAt, AnswersNodes, BeginsOne};
ghost use Rattle.rngx_read.specs.Forms.{form_of};
ghost use Rattle.rngx_read.specs.Views.{children_of, listed, tag_of};
ghost use Rattle.rngx_read.specs.declared.read.XReadFault.TheVariants.{NoMemory as no_memory};

use crate::defaults::{inside, outermost};
use crate::element::Element;
use crate::grammar::items;
use crate::kind::Kind;
use crate::markup::{all_tokens, as_text, declared_of};
use crate::name::behind_spaces;
use crate::pattern::pattern;
use crate::stop::Stop;
use crate::walk::elements_of;
use nx_base::memory::NoMemory;
use nx_base::sequence::Bytes;
use nx_base::steps::Steps;
use nx_base::token::Token;
use nx_scan::border::tokens_join;
use rnc_parse::surface::Surface;
use std::alloc::Global;
use std::sync::ledger::Ledger;

/// Why a text was not read.
#[derive(Drop)]
pub enum XReadFault {
    /// The text is no well-formed document. Its first fault begins there.
    BadMarkup(usize),
    /// The tag at the place opens the 201st of the elements that are open at once.
    TooDeep(usize),
    /// The elements are in no reading. The place is that of some token.
    BadForm(usize),
    /// The prefix of a name stands for nothing.
    UndeclaredPrefix(Bytes),
    /// There was no memory.
    NoMemory,
}

impl From<NoMemory> for XReadFault {
    ghost from_gives = { λ _ fault. fault ≡ no_memory };

    fn from(_error: NoMemory) -> XReadFault {
        XReadFault::NoMemory
    }
}

/// The bytes of a byte order mark.
const ORDER_MARK: &[u8] = &[0xEF, 0xBB, 0xBF];

/// What stands behind a byte order mark at the front.
#[tactic(auto, using(crate::proofs::Marks::mark_is_passed, crate::proofs::Marks::no_mark_is_passed))]
fn behind_mark(text: &[u8]) -> &[u8]
    ensures { result.now ≡ behind_mark text.now }
{
    match text.strip_prefix(ORDER_MARK) {
        Some(rest) => rest,
        None => text,
    }
}

/// Whether a tag begins there.
#[tactic(auto, using(crate::proofs::Marks::begins_is))]
fn begins_markup(text: &[u8]) -> bool
    ensures { result ≡ begins_with (codes "<") text.now }
{
    match text.strip_prefix(b"<") {
        Some(_) => true,
        None => false,
    }
}

/// Whether a schema file is in the XML syntax: its first character other than a byte order mark and white space is `<`.
#[tactic(auto, unfolding(crate::specs::Files::is_markup))]
pub fn is_markup(text: &str) -> bool
    ensures { result ≡ is_markup text.now }
{
    begins_markup(behind_spaces(behind_mark(text.as_bytes())))
}

/// Reads a schema file in the XML syntax: what it says, or one cause for which it says nothing. It takes memory in proportion to the
/// text, and to the names in what it says with their namespaces.
pub fn read<L: Ledger>(
    alloc: Global,
    text: &str,
    steps: &mut Steps<L>,
) -> Result<Surface, XReadFault>
    ensures answers { AnswersText text.now result }
    ensures texts { IfOk result (λ surface. HasUtf8Texts (surface_of surface)) }
    ensures steps { steps.old ≤ steps.new }
{
    let whole = as_text(alloc, text)?;
    let tokens = all_tokens(alloc, &whole, steps)?;
    tokens_join();
    read_tokens(alloc, tokens.as_slice(), text.len())
}

/// Reads a text of `len` bytes that is cut into these tokens.
fn read_tokens(alloc: Global, tokens: &[Token], len: usize) -> Result<Surface, XReadFault>
    requires { AreTokensOf len tokens.now }
    ensures { (text : List ℕ) → IsUtf8 text → tokens.now ≡ tokens_of text → len ≡ length text → AnswersText text result }
{
    let declared = declared_of(alloc, tokens, len)?;
    let elements = elements_of(alloc, tokens, declared, len)?;
    said(alloc, tokens, elements.as_slice())
}

/// What the elements of the schema outside of all others say, in a text that is cut into these tokens.
fn said(alloc: Global, tokens: &[Token], elements: &[Element]) -> Result<Surface, XReadFault>
    ensures { (text : List ℕ) (nodes : Nodes) → tokens.now ≡ tokens_of text → IsReadAs text nodes →
        listed elements.now ≡ elements_in [] nodes → AnswersNodes text nodes result }
{
    match surface(alloc, elements) {
        Ok(surface) => Ok(surface),
        Err(stop) => Err(refused(stop, tokens)),
    }
}

/// The refusal where reading stops.
fn refused(stop: Stop, tokens: &[Token]) -> XReadFault
    ensures { 0 < length tokens.now → RefusesAt tokens.now stop result }
{
    match stop {
        Stop::Form(at) => XReadFault::BadForm(place(tokens, at)),
        Stop::Prefix(prefix) => XReadFault::UndeclaredPrefix(prefix),
        Stop::NoMemory => XReadFault::NoMemory,
    }
}

/// The place, if a token begins there, and otherwise that of the first token.
fn place(tokens: &[Token], at: usize) -> usize
    ensures { 0 < length tokens.now → BeginsOne tokens.now result }
{
    let mut rest = tokens;
    'tokens: while let Some((token, behind)) = rest.split_first() {
        if token.from == at {
            return at;
        }
        rest = behind;
    }
    match tokens.split_first() {
        Some((first, _)) => first.from,
        None => 0,
    }
}

/// What the elements of the schema outside of all others say: there is one, a grammar or another pattern.
#[tactic(auto, unfolding(crate::specs::ReadingPatterns::surface_at), using(crate::proofs::Answering::not_alone))]
fn surface(alloc: Global, elements: &[Element]) -> Result<Surface, Stop>
    ensures { Finds surface_of result (surface_at bound_in (listed elements.now)) }
{
    match elements {
        [] => Err(Stop::Form(0)),
        [root] => of_root(alloc, root),
        [_, _, ..] => Err(Stop::Form(0)),
    }
}

/// What the element outside of all others says.
fn of_root(alloc: Global, root: &Element) -> Result<Surface, Stop>
    ensures { Finds surface_of result (lone_surface bound_in (tag_of root.now) (children_of root.now) no_elements) }
{
    if root.tag.local.as_slice() == b"grammar".as_slice() {
        return grammar(alloc, root);
    }
    Ok(Surface::Pattern(pattern(alloc, &outermost(), root)?))
}

/// The grammar that is a whole file.
#[tactic(auto, using(crate::proofs::Children::children_are))]
fn grammar(alloc: Global, root: &Element) -> Result<Surface, Stop>
    ensures { Finds surface_of result
        (grammar_file_by bound_in (tag_of root.now) (children_of root.now) (form_of (tag_of root.now))) }
{
    let outer = outermost();
    let defaults = inside(&outer, &root.tag);
    match root.tag.form() {
        Some(Kind::Grammar) => {
            let items = items(alloc, &defaults, root.children.as_slice())?;
            Ok(Surface::Grammar(items))
        }
        _ => Err(Stop::Form(root.at)),
    }
}
