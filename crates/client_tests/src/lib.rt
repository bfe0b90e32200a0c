//! Tests of the clients' words, and of `wmctl`: its talk with a server that a test itself serves, its syncs, the part of a request
//! that it names, and the further lines that it prints.
//!
//! They stand in a crate of their own beside `serve_tests`, which waits for the proof of `wm_serve`.
#![tactic(auto)]

#[cfg(test)]
mod checks;
#[cfg(test)]
mod feed_words;
#[cfg(test)]
mod hints;
#[cfg(test)]
mod parts;
#[cfg(test)]
mod programs;
#[cfg(test)]
mod wmctl;
