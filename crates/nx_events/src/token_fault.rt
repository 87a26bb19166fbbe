//! Faults of a token's characters, and of the whole token.

ghost use Rattle.std.specs.Prelude.{◌≡◌, ◌+◌, ◌<◌, ◌^◌, ◌++◌, length, true, IfOk, OnOk};
ghost use Rattle.nx_events.specs.Items.{token_span, token_fault_if, character_items};

use crate::character_fault::{push_bare, push_character_faults};
use crate::item::Items;
use crate::reading::Reading;
use nx_base::fault::{Kind, Span};
use nx_base::memory::NoMemory;
use nx_base::token::Token;

/// The token's own span.
pub(crate) fn token_span(token: &Token) -> Span
    requires { token.now.from + length token.now.bytes < 2 ^ 64 }
    ensures { result ≡ token_span token.now }
{
    Span {
        from: token.from,
        to: token.from + token.bytes.len(),
    }
}

/// Adds a fault over the whole token where the test holds.
pub(crate) fn push_token_fault_if(
    items: &mut Items,
    test: bool,
    kind: Kind,
    token: &Token,
) -> Result<(), NoMemory>
    requires { token.now.from + length token.now.bytes < 2 ^ 64 }
    ensures { OnOk result (items.new ≡ items.old ++ token_fault_if test kind token.now) }
{
    if test {
        push_bare(items, kind, token_span(token))?;
    }
    Ok(())
}

/// Adds the faults of a token of characters, and a fault over the whole where the test holds.
pub(crate) fn push_characters(
    items: &mut Items,
    reading: Reading,
    test: bool,
    kind: Kind,
    token: &Token,
) -> Result<(), NoMemory>
    requires { token.now.from + length token.now.bytes < 2 ^ 64 }
    ensures { OnOk result (items.new ≡ items.old ++ character_items reading test kind token.now) }
{
    push_character_faults(items, reading, token.from, token.bytes.as_slice())?;
    push_token_fault_if(items, test, kind, token)?;
    Ok(())
}
