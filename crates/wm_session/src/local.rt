//! The front of one thread: a store on a disk, and a view of each watched root; and how the store is opened, for a
//! server of many sessions too. Its definitions are in specs/local.
//! Tests: session_tests/src/lines.

mod local_front;
mod opening;
mod questions;
mod root_views;

pub use local_front::LocalFront;
pub use opening::{open_file, open_store};
pub use root_views::RootView;
