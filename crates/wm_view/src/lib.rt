//! A view of one root in one incarnation: what is there, when each path last changed and came into
//! being, and from which tick and which moment on it can tell what changed.
//!
//! The definition is the history of the root (specs/Histories.antt): a list of operations makes a list
//! of maps, one a tick. A contract sees a [`View`] as its history's summary (specs/Summaries.antt), and
//! says of each operation what every history with this summary makes of it, and the same as a function
//! of the summary (specs/Steps.antt). [`every_operation`] ties the two.
//!
//! Tests: view_tests/src/views.
#![tactic(auto)]

mod changes;
mod files;
mod known;
mod known_paths;
mod laws;
mod listing;
mod op;
mod view;
mod view_state;

pub use known::Known;
pub use laws::every_operation;
pub use listing::Listing;
pub use op::{Op, Pairs};
pub use view::View;
pub use view_state::MAX_PAIRS;
