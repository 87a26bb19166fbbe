//! Views of the list of faults: objects that a caller hands in, and that are shown the faults through a trait.
//!
//! To a contract a view is its `ViewState`: the list that it shows, whether it is live, whether it is steady, and for how many more
//! faults it has room. A list of views is the list of their states. `refresh` shows the faults to all views, and drops those that
//! aren't live behind it; `shift_all` moves what they show with the text. `pane` has three views.
#![tactic(auto)]

pub mod numbered;
pub mod pane;
pub mod refresh;
pub mod shift;
pub mod view;

pub use pane::{FaultPane, LimitedPane, RefusingPane};
pub use view::{View, ViewFault};
