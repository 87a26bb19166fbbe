//! The schema that a document names itself, by an instruction in front of its root (Associating XML Documents with Schemas 1.0).

ghost use Rattle.std.specs.Prelude.{◌≡◌, ◌≤◌, [], drop, option_map, IfOk, IfSome, IsUtf8, None};
ghost use Rattle.std.specs.List.{list_any};
ghost use Rattle.nx_base.specs.Tokens.{tokens_of};
ghost use Rattle.nx_events.specs.Tags.{start_name};
ghost use Rattle.nx_locate.specs.NamedSchemas.{is_given, is_relax_ng, is_named_so, reference, schema_among, as_tag, is_faultless};
ghost use Rattle.nx_locate.specs.NamedSchemas.{schema_in, is_instruction, is_model, named_by, is_tag, named_schema};

use crate::read::{has_fault, value};
use crate::rules_file::{all_items, as_text};
use nx_base::memory::NoMemory;
use nx_base::sequence::Bytes;
use nx_base::steps::Steps;
use nx_base::token::{Token, TokenKind};
use nx_events::item::Item;
use nx_events::start_name;
use nx_scan::border::{tokens_fit, tokens_go_on};
use nx_scan::scan::scan_token;
use nx_text::text::Text;
use std::alloc::Global;
use std::str;
use std::sync::ledger::Ledger;

/// The target of such an instruction.
const TARGET: &[u8] = b"xml-model";

/// The media type of the compact syntax.
const COMPACT_TYPE: &[u8] = b"application/relax-ng-compact-syntax";

/// The media type of XML, in which the other syntax is.
const XML_TYPE: &[u8] = b"application/xml";

/// The namespace of the XML syntax.
const RELAX_NG: &[u8] = b"http://relaxng.org/ns/structure/1.0";

/// Whether the value is there, and this text.
fn is_given(text: &[u8], value: &Option<Bytes>) -> bool
    ensures { result ≡ is_given text.now value.now }
{
    match value {
        Some(value) => value.as_slice() == text,
        None => false,
    }
}

/// Whether by their types the schema is one of RELAX NG.
fn is_relax_ng(media_type: &Option<Bytes>, schema_types: &Option<Bytes>) -> bool
    ensures { result ≡ is_relax_ng media_type.now schema_types.now }
{
    is_given(COMPACT_TYPE, media_type)
        || is_given(XML_TYPE, media_type) && is_given(RELAX_NG, schema_types)
}

/// Whether its name ends as those of such schemas do.
fn is_named_so(href: &[u8]) -> bool
    ensures { result ≡ is_named_so href.now }
{
    href.ends_with(b".rnc") || href.ends_with(b".rng")
}

/// The reference to the schema, where it is one of RELAX NG by its types or its name.
fn reference(href: Option<Bytes>, typed: bool) -> Option<Bytes>
    ensures { result ≡ reference href typed }
{
    match href {
        Some(href) if typed || is_named_so(href.as_slice()) => Some(href),
        Some(_) => None,
        None => None,
    }
}

/// What these attributes refer to.
#[tactic(auto, unfolding(crate::specs::NamedSchemas::schema_among))]
fn schema_among(attributes: &[Item]) -> Result<Option<Bytes>, NoMemory>
    ensures { IfOk result (λ found. found ≡ schema_among attributes.now) }
{
    let href = value(attributes, b"href")?;
    let media_type = value(attributes, b"type")?;
    let schema_types = value(attributes, b"schematypens")?;
    Ok(reference(href, is_relax_ng(&media_type, &schema_types)))
}

/// The empty tag that has the content of an instruction.
#[tactic(auto, unfolding(crate::specs::NamedSchemas::as_tag))]
fn as_tag(alloc: Global, bytes: &[u8]) -> Result<Vec<u8>, NoMemory>
    ensures { IfOk result (λ tag. tag.items ≡ as_tag bytes.now) }
{
    let mut tag = Vec::from_slice(alloc, b"<")?;
    if bytes.len() >= 4 {
        tag.extend_from_slice(&bytes[2..bytes.len() - 2])?;
    }
    tag.extend_from_slice(b"/>")?;
    Ok(tag)
}

/// What stands behind the first item.
fn behind_first(items: &[Item]) -> &[Item]
    ensures { result.now ≡ drop 1 items.now }
{
    match items.split_first() {
        Some((_, behind)) => behind,
        None => items,
    }
}

/// What a tag without fault refers to by its attributes.
#[tactic(auto, unfolding(crate::specs::NamedSchemas::schema_in, crate::specs::NamedSchemas::is_faultless))]
fn schema_in<L: Ledger>(
    alloc: Global,
    tag: &[u8],
    steps: &mut Steps<L>,
) -> Result<Option<Bytes>, NoMemory>
    ensures schema { IfOk result (λ found. found ≡ schema_in tag.now) }
    ensures utf8 { IfOk result (λ found. IfSome found IsUtf8) }
    ensures steps { steps.old ≤ steps.new }
{
    let Ok(written) = str::from_utf8(tag) else {
        return Ok(None);
    };
    let text = as_text(alloc, written)?;
    let items = all_items(alloc, &text, steps)?;
    if has_fault(items.as_slice()) {
        return Ok(None);
    }
    schema_among(behind_first(items.as_slice()))
}

/// Whether a token of this kind is an instruction.
fn is_instruction(kind: TokenKind) -> bool
    ensures { result ≡ is_instruction kind }
{
    matches!(kind, TokenKind::Pi)
}

/// Whether a token of this kind is a tag.
fn is_tag(kind: TokenKind) -> bool
    ensures { result ≡ is_tag kind }
{
    matches!(kind, TokenKind::Start | TokenKind::Empty | TokenKind::End)
}

/// The target of an instruction.
fn target(bytes: &[u8]) -> &[u8]
    ensures { result.now ≡ start_name (drop 1 bytes.now) }
{
    match bytes.split_first() {
        Some((_, behind)) => start_name(behind),
        None => start_name(bytes),
    }
}

/// Whether the token is an instruction whose target is `xml-model`.
#[tactic(auto, unfolding(crate::specs::NamedSchemas::is_model))]
fn is_model(token: &Token) -> bool
    ensures { result ≡ is_model token.now }
{
    is_instruction(token.kind) && target(token.bytes.as_slice()) == TARGET
}

/// The schema that a token names.
#[tactic(auto, unfolding(crate::specs::NamedSchemas::named_by))]
fn named_by<L: Ledger>(
    alloc: Global,
    token: &Token,
    steps: &mut Steps<L>,
) -> Result<Option<Bytes>, NoMemory>
    ensures schema { IfOk result (λ found. found ≡ named_by token.now) }
    ensures utf8 { IfOk result (λ found. IfSome found IsUtf8) }
    ensures steps { steps.old ≤ steps.new }
{
    if !is_model(token) {
        return Ok(None);
    }
    let tag = as_tag(alloc, token.bytes.as_slice())?;
    schema_in(alloc, tag.as_slice(), steps)
}

/// The reference to the schema that a document names, a URI reference to be joined to the document's own URI: the `href` of the first
/// `<?xml-model ..?>` in front of the first tag that says by `type` (and `schematypens`), or by how `href` ends, that the schema is one
/// of RELAX NG. An instruction whose pseudo-attributes aren't written as attributes are is passed over. The text is read up to there.
pub fn named_schema<L: Ledger>(
    alloc: Global,
    text: &Text,
    steps: &mut Steps<L>,
) -> Result<Option<Bytes>, NoMemory>
    ensures named { IfOk result (λ found. found ≡ named_schema text.now) }
    ensures utf8 { IfOk result (λ found. IfSome found IsUtf8) }
    ensures steps { steps.old ≤ steps.new }
{
    tokens_fit();
    tokens_go_on();
    let len = text.len();
    let mut at = 0;
    while at < len {
        let Some(token) = scan_token(alloc, text, at, steps)? else {
            return Ok(None);
        };
        if is_tag(token.kind) {
            return Ok(None);
        }
        let named = named_by(alloc, &token, steps)?;
        if named.is_some() {
            return Ok(named);
        }
        at += token.bytes.len();
    }
    Ok(None)
}
