//! The crawl of a root, or of part of it: every path below its top, with its metadata.
//!
//! [`crawl`] is generic over a [`Tree`] and proved once. Level by level it reads the folders, and then
//! what each path has, both by as many threads as it is given workers. [`crawl_root`] crawls one of many roots.
#![tactic(auto)]

mod crawling;
mod dir;
mod file_system;
mod folder_names;
mod folder_tree;
mod gate;
mod listed;
mod memory;
mod name;
mod reading;
mod roots;
mod stat;
mod telling;
mod top;
mod tree;

pub use crawling::{Crawled, MAX_WORKERS, crawl};
pub use dir::Dir;
pub use file_system::{FileSystem, NameReader, SystemNames};
pub use folder_tree::FolderTree;
pub use gate::{Open, Turnstile};
pub use memory::MemTree;
pub use roots::{Folders, SystemFolders, crawl_root};
pub use stat::Stat;
pub use tree::Tree;
