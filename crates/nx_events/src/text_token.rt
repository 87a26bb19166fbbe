//! Character data and CDATA sections.

ghost use Rattle.std.specs.Prelude.{◌≡◌, ◌+◌, ◌<◌, ◌≤◌, ◌^◌, ◌++◌, length, OnOk, OnErr};
ghost use Rattle.nx_events.specs.Strings.{cdata_content, string_of};
ghost use Rattle.nx_events.specs.Runs.{run_back};
ghost use Rattle.nx_events.specs.Items.{cdata_items, text_items, joined};

use crate::front::are_spaces;
use crate::item::Items;
use crate::reading::Reading;
use crate::stage::{is_inside, pass};
use crate::state::EventState;
use crate::token_fault::push_characters;
use nx_base::fault::Kind;
use nx_base::memory::NoMemory;
use nx_base::token::Token;

// The content of a CDATA section.
pub(crate) fn cdata_content(bytes: &[u8]) -> &[u8]
    ensures { result.now ≡ cdata_content bytes.now }
{
    if bytes.len() < 12 {
        return &[];
    }
    &bytes[9..bytes.len() - 3]
}

// The state behind character data with this content.
pub(crate) fn join(
    state: &mut EventState,
    token: &Token,
    reading: Reading,
    content: &[u8],
) -> Result<(), NoMemory>
    requires { run_back state.old.run + length token.now.bytes < 2 ^ 64 }
    ensures ok { OnOk result (state.new ≡ joined state.old token.now (string_of reading content.now)) }
    ensures err { OnErr result (state.new ≡ state.old) }
{
    if is_inside(state) {
        state.run.join(reading, content, token.bytes.len())?;
        state.came = true;
    } else {
        pass(state, token);
    }
    Ok(())
}

/// Adds the items of character data.
#[tactic(auto, unfolding(crate::specs::Items::text_items))]
pub(crate) fn push_text(
    items: &mut Items,
    state: &EventState,
    token: &Token,
) -> Result<(), NoMemory>
    requires room { token.now.from + length token.now.bytes < 2 ^ 64 }
    ensures { OnOk result (items.new ≡ items.old ++ text_items state.now token.now) }
{
    let outside = !is_inside(state) && !are_spaces(token.bytes.as_slice());
    push_characters(items, Reading::Text, outside, Kind::TextOutside, token)?;
    Ok(())
}

/// Adds the items of a CDATA section.
#[tactic(auto, unfolding(crate::specs::Items::cdata_items))]
pub(crate) fn push_cdata(
    items: &mut Items,
    state: &EventState,
    token: &Token,
) -> Result<(), NoMemory>
    requires room { token.now.from + length token.now.bytes < 2 ^ 64 }
    ensures { OnOk result (items.new ≡ items.old ++ cdata_items state.now token.now) }
{
    let outside = !is_inside(state);
    push_characters(items, Reading::Plain, outside, Kind::TextOutside, token)?;
    Ok(())
}
