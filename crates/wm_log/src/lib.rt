//! The log of a server, as values: what happened, the line of it, which lines are let through, and which events wait to be written.
//!
//! An [`Event`] is one thing that happened, with its time and its root. [`line_of`] is its line, and a [`LogLimiter`] lets equal texts
//! through once a second. An [`EventQueue`] has the events that wait, and
//! [`write_event`] writes the line of one. Nothing here waits.
//!
//! | Of | Definitions |
//! |---|---|
//! | events, and the line of each | specs/LogLines.antt, and of a trigger that couldn't be started specs/StartTexts.antt |
//! | which lines are let through | specs/LogLimits.antt, and a law of them specs/LogLaws.antt |
//! | which events wait | specs/EventQueues.antt |
//!
//! Tests: leaf_tests/src/logs.rt.
#![tactic(auto)]

mod event;
mod event_queue;
mod laws;
mod limiter;
mod lines;
mod start_fault;
mod time;
mod writing;

pub use event::{Event, What};
pub use event_queue::EventQueue;
pub use laws::one_line_a_second;
pub use limiter::LogLimiter;
pub use lines::line_of;
pub use start_fault::StartFault;
pub use writing::write_event;
