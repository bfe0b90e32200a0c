//! The real file as a disk.
//!
//! A [`FileDisk`] is an open file with a log of its calls (specs/FileDisks.antt). It is honest where each
//! answer in the log is that of the model (specs/FileEvents.antt). Its failures are counted, honest or not.
//!
//! Tests: session_tests/src/programs (files.rt, owners.rt, second_reader.rt).
#![tactic(auto)]

mod call_log;
pub mod file;

pub use file::{FileDisk, Start, Unknown};
