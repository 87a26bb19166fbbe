//! The tokens of a text in the XML syntax.

ghost use Rattle.std.specs.Prelude.{◌≡◌, ◌≤◌, IfOk};
ghost use Rattle.nx_base.specs.Tokens.{tokens_of};

use nx_base::memory::NoMemory;
use nx_base::steps::Steps;
use nx_base::token::Token;
use nx_scan::border::{tokens_fit, tokens_go_on};
use nx_scan::scan::scan_token;
use nx_text::text::Text;
use std::alloc::Global;
use std::sync::ledger::Ledger;

/// The bytes as a text.
pub(crate) fn as_text(alloc: Global, bytes: &str) -> Result<Text, NoMemory>
    ensures { IfOk result (λ text. text ≡ bytes.now) }
{
    let mut text = Text::new(alloc);
    match text.insert(0, bytes) {
        Ok(()) => Ok(text),
        Err(_) => Err(NoMemory),
    }
}

/// All tokens of the text.
pub(crate) fn all_tokens<L: Ledger>(
    alloc: Global,
    text: &Text,
    steps: &mut Steps<L>,
) -> Result<Vec<Token>, NoMemory>
    ensures { IfOk result (λ tokens. tokens.items ≡ tokens_of text.now) }
{
    tokens_fit();
    tokens_go_on();
    let len = text.len();
    let mut tokens = Vec::new(alloc);
    let mut at = 0;
    while at < len {
        let Some(token) = scan_token(alloc, text, at, steps)? else {
            return Err(NoMemory);
        };
        at += token.bytes.len();
        tokens.push(token)?;
    }
    Ok(tokens)
}
