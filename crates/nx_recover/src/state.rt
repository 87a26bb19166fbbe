//! A state of recovery.

use crate::levels::Levels;
use nx_events::state::EventState;

/// The state of events, and the levels; without a schema there are none.
#[derive(Drop)]
pub struct RecoverState<S> {
    pub events: EventState,
    pub levels: Levels<S>,
}
