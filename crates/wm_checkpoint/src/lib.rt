//! A machine's state in a file of fixed size, whose meaning is always a replay, whatever a crash left.
//!
//! The file has two slots, each with a journal behind it. The open slot with the greater number holds a
//! state, and its journal the commands since then. [`Keeper::commit`] writes a group of commands into the
//! journal; [`Keeper::checkpoint`] puts the state into the other slot, under the next number, and opens its
//! gate last. A crash at any moment leaves a content that means the state after a prefix of the commands
//! in flight, and [`Keeper::open`] finds it.
//!
//! [`Keeper::read`] and [`Keeper::retire`] serve whoever moves a state into another file.
//!
//! A [`Layout`] says where the slots and journals of a version of the file lie, and how long a state may be.
//!
//! Tests: file_tests/src/checkpoint.
#![tactic(auto)]

mod commit;
mod either;
mod format;
mod keeper;
mod laws;
mod layout;
mod machine;
mod read;
mod retire;
mod slot_bytes;
mod write;

pub use either::EitherKeeper;
pub use keeper::Keeper;
pub use laws::every_content;
pub use layout::{Layout, Slot, Version1, Version2};
pub use machine::Machine;
