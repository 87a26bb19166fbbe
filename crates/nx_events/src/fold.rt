//! The items of all tokens of a text.

ghost use Rattle.std.specs.Prelude.{◌≡◌, ◌<◌, ◌^◌, ◌++◌, ℕ, List, length, IfOk};
ghost use Rattle.nx_base.specs.Tokens.{AreTokensOf, tokens_of};
ghost use Rattle.nx_events.specs.Items.{items_of, items_of_text};

use crate::item::Items;
use crate::reader::{begin, finish, take};
use nx_base::memory::NoMemory;
use nx_base::token::Token;
use std::alloc::Global;

/// The items of the tokens that a text of `len` bytes is cut into: of the whole text.
pub fn items_of_tokens(alloc: Global, tokens: &[Token], len: usize) -> Result<Items, NoMemory>
    requires { AreTokensOf len tokens.now }
    ensures items { IfOk result (λ items. items ≡ items_of tokens.now len) }
    ensures text { (text : List ℕ) → tokens.now ≡ tokens_of text → len ≡ length text → IfOk result (λ items. items ≡ items_of_text text) }
{
    let mut state = begin(alloc)?;
    let mut items = Items::new(alloc);
    for token in tokens {
        let more = take(alloc, &mut state, token)?;
        items.append(more)?;
    }
    let more = finish(alloc, &state, len)?;
    items.append(more)?;
    Ok(items)
}
