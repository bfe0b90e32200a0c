//! Names of what is watched: values that keep the rules of paths, and what is known of a file.
//!
//! A [`RootPath`] or [`RelPath`] is made by its `read` alone, so whoever holds one need not test it
//! again.
//!
//! Tests: leaf_tests/src/names.
#![tactic(auto)]

mod components;
mod entry;
mod path_text;
mod rel_path;
mod root_path;
mod subtree;
mod text_order;

pub use entry::{Entry, Kind, Meta};
pub use rel_path::{MAX_REL_PATH, RelPath};
pub use root_path::{MAX_ROOT_PATH, RootPath};
pub use subtree::Subtree;
pub use text_order::compare_texts;
