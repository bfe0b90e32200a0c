//! The watches and triggers of a server, on a disk: complete after any crash.
//!
//! [`Store::commit_batch`] answers a batch of commands when all that it accepted are durable. A crash at
//! any moment of it leaves the registry after a prefix of the accepted commands, and [`Store::open`]
//! finds it, and makes the next incarnation durable before it answers.
//!
//! [`migrate`] moves the registry of a file of version 1 into one of version 2. A crash at any moment leaves an
//! old file that means the registry, or a retired one beside a new one that means it.
//!
//! Tests: file_tests/src/store.
#![tactic(auto)]

mod arming;
mod batch;
mod begin;
mod filed_store;
mod formatting;
mod idle;
mod laws;
mod migrating;
mod store;

pub use formatting::format;
pub use laws::every_file;
pub use migrating::{is_retired, migrate};
pub use store::Store;
