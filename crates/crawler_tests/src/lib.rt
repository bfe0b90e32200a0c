//! Tests of crawls: over trees in memory, and over real folders.
//!
//! What a crawl lists, counts and refuses stands in its contract; here is that a crawl can succeed, with any
//! number of workers, that it passes its gate, that two workers are at work at once, and what the system gives.
#![tactic(auto)]

#[cfg(test)]
mod checks;
#[cfg(test)]
mod crawls;
#[cfg(test)]
mod folders;
#[cfg(test)]
mod gates;
#[cfg(test)]
mod trees;
