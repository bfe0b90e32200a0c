//! The workers that crawl the roots.
mod failed_place;
mod folders;
mod worker;

pub use worker::run_crawls;
