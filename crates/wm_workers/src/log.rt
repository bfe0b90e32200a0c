//! The log of a server: what is logged, what waits, and how it is written.
mod events;
mod queue;
mod writer;

pub use events::{crawl_failure, run_event, took_too_long};
pub use queue::EventLog;
pub use writer::write_log;
