//! The rules of one rules file.

ghost use Rattle.std.specs.Prelude.{◌≡◌, ◌≤◌, ◌<◌, length, List, ℕ, Err, IfOk, IfSome, IsUtf8};
ghost use Rattle.std.specs.List.{AllByRecursion};
ghost use Rattle.nx_base.specs.Tokens.{tokens_of, IsOfKind};
ghost use Rattle.nx_events.specs.Items.{items_of_text};
ghost use Rattle.nx_events.specs.Texts.{ItemsAreText};
ghost use Rattle.nx_locate.specs.Loading.{AreTextTokens, Fetches, SaysBytes, ReadsFile, IsAbsence, IsNamed};
ghost use Rattle.nx_locate.specs.RulesRead.{FindsRules, AreTextRules};

use crate::read::{begins_rules, has_fault, rules_of};
use crate::rule::Rule;
use nx_base::locate_fault::LocateFault;
use nx_base::memory::NoMemory;
use nx_base::sequence::{Bytes, TryCopy};
use nx_base::steps::Steps;
use nx_base::token::Token;
use nx_document::law::well_formed_is_document;
use nx_events::fold::items_of_tokens;
use nx_events::item::{Item, Items};
use nx_events::law::all_tokens_give_text;
use nx_host::files::{FileFault, Files};
use nx_host::utf8::{text_front, text_of};
use nx_scan::border::{tokens_are_of_kind, tokens_fit, tokens_go_on, tokens_join};
use nx_scan::scan::scan_token;
use nx_text::text::Text;
use std::alloc::Global;
use std::sync::ledger::Ledger;

/// The bytes as a text.
pub(crate) fn as_text(alloc: Global, bytes: &str) -> Result<Text, NoMemory>
    ensures { IfOk result (λ text. text ≡ bytes.now) }
{
    let mut text = Text::new(alloc);
    match text.insert(0, bytes) {
        Ok(()) => Ok(text),
        Err(_) => Err(NoMemory),
    }
}

/// All tokens of the text.
fn all_tokens<L: Ledger>(
    alloc: Global,
    text: &Text,
    steps: &mut Steps<L>,
) -> Result<Vec<Token>, NoMemory>
    ensures tokens { IfOk result (λ tokens. tokens.items ≡ tokens_of text.now) }
    ensures texts { IfOk result (λ tokens. AreTextTokens tokens.items) }
    ensures steps { steps.old ≤ steps.new }
{
    tokens_fit();
    tokens_are_of_kind();
    tokens_go_on();
    let len = text.len();
    let mut tokens = Vec::new(alloc);
    let mut at = 0;
    while at < len {
        let Some(token) = scan_token(alloc, text, at, steps)? else {
            return Err(NoMemory);
        };
        at += token.bytes.len();
        tokens.push(token)?;
    }
    Ok(tokens)
}

/// What the text holds, read without a schema.
pub(crate) fn all_items<L: Ledger>(
    alloc: Global,
    text: &Text,
    steps: &mut Steps<L>,
) -> Result<Items, NoMemory>
    ensures items { IfOk result (λ items. items ≡ items_of_text text.now) }
    ensures texts { IfOk result ItemsAreText }
    ensures steps { steps.old ≤ steps.new }
{
    tokens_join();
    all_tokens_give_text();
    let len = text.len();
    let tokens = all_tokens(alloc, text, steps)?;
    let items = items_of_tokens(alloc, tokens.as_slice(), len)?;
    Ok(items)
}

/// The rules of a text that holds these items; none where it has a fault or another root.
fn rules_among(alloc: Global, items: &[Item]) -> Result<Option<Vec<Rule>>, NoMemory>
    ensures found { (text : List ℕ) → IsUtf8 text → items.now ≡ items_of_text text → IfOk result (FindsRules text) }
    ensures texts { ItemsAreText items.now → IfOk result (λ found. IfSome found (λ rules. AreTextRules rules.items)) }
{
    well_formed_is_document();
    if has_fault(items) {
        return Ok(None);
    }
    if !begins_rules(items) {
        return Ok(None);
    }
    Ok(Some(rules_of(alloc, items)?))
}

/// The rules of a text.
fn rules_of_text<L: Ledger>(
    alloc: Global,
    text: &str,
    steps: &mut Steps<L>,
) -> Result<Option<Vec<Rule>>, NoMemory>
    ensures found { IfOk result (FindsRules text.now) }
    ensures texts { IfOk result (λ found. IfSome found (λ rules. AreTextRules rules.items)) }
    ensures steps { steps.old ≤ steps.new }
{
    let whole = as_text(alloc, text)?;
    let items = all_items(alloc, &whole, steps)?;
    rules_among(alloc, items.as_slice())
}

/// The refusal of a file that isn't UTF-8.
fn not_utf8(uri: &Bytes, bytes: &Bytes) -> LocateFault
    requires { IsUtf8 bytes.now → ⊥ }
    ensures { SaysBytes uri.now bytes.now (Err result) }
{
    match uri.copy() {
        Ok(uri) => LocateFault::RulesNotUtf8(uri, text_front(bytes.as_slice())),
        Err(_) => LocateFault::NoMemory,
    }
}

/// The refusal of a file that has no rules.
fn no_rules(uri: &Bytes) -> LocateFault
    ensures { IsNamed uri.now result }
{
    match uri.copy() {
        Ok(uri) => LocateFault::BadRules(uri),
        Err(_) => LocateFault::NoMemory,
    }
}

/// What the bytes of a file say.
fn rules_of_bytes<L: Ledger>(
    alloc: Global,
    uri: &Bytes,
    bytes: &Bytes,
    steps: &mut Steps<L>,
) -> Result<Vec<Rule>, LocateFault>
    ensures says { SaysBytes uri.now bytes.now result }
    ensures steps { steps.old ≤ steps.new }
{
    match str::from_utf8(bytes.as_slice()) {
        Ok(text) => match rules_of_text(alloc, text, steps)? {
            Some(rules) => Ok(rules),
            None => Err(no_rules(uri)),
        },
        Err(_) => Err(not_utf8(uri, bytes)),
    }
}

/// The bytes under a URI.
fn fetched<F: Files>(alloc: Global, uri: &Bytes, files: &mut F) -> Result<Bytes, LocateFault>
    requires { IsUtf8 uri.now }
    ensures found { Fetches (F.told files.old) uri.now (F.faults files.old) (F.faults files.new) result }
    ensures map { F.told files.new ≡ F.told files.old }
{
    match files.fetch(alloc, text_of(uri)) {
        Ok(Some(bytes)) => Ok(bytes),
        Ok(None) => Err(absent(uri)),
        Err(FileFault::Failed) => Err(LocateFault::Failed),
        Err(FileFault::NoMemory) => Err(LocateFault::NoMemory),
    }
}

/// The refusal of a URI with nothing under it.
fn absent(uri: &Bytes) -> LocateFault
    ensures { IsAbsence uri.now result }
{
    match uri.copy() {
        Ok(uri) => LocateFault::RulesAbsent(uri),
        Err(_) => LocateFault::NoMemory,
    }
}

/// The rules of the file of a URI.
pub(crate) fn rules_at<F: Files, L: Ledger>(
    alloc: Global,
    uri: &Bytes,
    files: &mut F,
    steps: &mut Steps<L>,
) -> Result<Vec<Rule>, LocateFault>
    requires { IsUtf8 uri.now }
    ensures file { ReadsFile (F.told files.old) uri.now (F.faults files.old) (F.faults files.new) result }
    ensures map { F.told files.new ≡ F.told files.old }
    ensures steps { steps.old ≤ steps.new }
{
    let bytes = fetched(alloc, uri, files)?;
    rules_of_bytes(alloc, uri, &bytes, steps)
}
