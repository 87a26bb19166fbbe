//! Where in a document a state is, and how a token passes.

ghost use Rattle.std.specs.Prelude.{◌≡◌, ◌+◌, ◌<◌, ◌^◌, length};
ghost use Rattle.nx_events.specs.Runs.{run_back};
ghost use Rattle.nx_events.specs.Items.{is_inside, is_behind, passed};

use crate::state::EventState;
use nx_base::token::Token;

/// Whether an element is open.
pub(crate) fn is_inside(state: &EventState) -> bool
    ensures { result ≡ is_inside state.now }
{
    state.elements.len() > 0
}

/// Whether the root has ended.
pub(crate) fn is_behind(state: &EventState) -> bool
    ensures { result ≡ is_behind state.now }
{
    state.started && !is_inside(state)
}

/// The state behind a token that neither opens, closes nor adds to a run.
pub(crate) fn pass(state: &mut EventState, token: &Token)
    requires { run_back state.old.run + length token.now.bytes < 2 ^ 64 }
    ensures { state.new ≡ passed state.old token.now }
{
    state.run.pass(token.bytes.len());
    state.came = true;
}
