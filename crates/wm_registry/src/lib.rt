//! The watched roots with their triggers, and the commands that change them.
//!
//! A [`Registry`] changes by [`Registry::apply`] alone. A command that changes it is *accepted*: the
//! spellings of the accepted commands are what a state file keeps, and their replay is the registry
//! again. A registry has the version of its file: version 1 has no place for the number of files that
//! a trigger tells its program by its standard input. A [`FiledRegistry`] and a [`FiledCommand`] are
//! the registry and the command as a file of one version spells them.
//!
//! Tests: registry_tests/src.
#![tactic(auto)]

mod changes;
mod command;
mod draft;
mod ending;
mod entry;
mod filed_trigger;
mod laws;
mod limits;
mod machine;
mod meeting;
mod moved;
mod path_spelling;
mod registry;
mod reply;
mod root;
mod roots;
mod stdin;
mod trigger;
mod trigger_name;
mod version;
mod wire;

pub use command::{Command, FiledCommand};
pub use draft::Draft;
pub use laws::every_registry;
pub use limits::{
    MAX_BATCH, MAX_EXPRESSION, MAX_ROOTS, MAX_TRIGGER_NAME, MAX_TRIGGERS, MAX_WORD, MAX_WORDS,
};
pub use machine::Watches;
pub use registry::Registry;
pub use reply::Reply;
pub use root::Root;
pub use stdin::Stdin;
pub use trigger::{Trigger, Word};
pub use trigger_name::TriggerName;
pub use version::{Filed, Version};
pub use wire::FiledRegistry;
