//! Tests of a server: its words and requests in tables, and sessions over a socket that a test serves, with the
//! system's folders and programs.
//!
//! Each server stands on files of its own names in the folder where the tests run.
#![tactic(auto)]

#[cfg(test)]
mod checks;
#[cfg(test)]
mod client;
#[cfg(test)]
mod contradictions;
#[cfg(test)]
mod crawls;
#[cfg(test)]
mod forgetting;
#[cfg(test)]
mod moments;
#[cfg(test)]
mod places;
#[cfg(test)]
mod readings;
#[cfg(test)]
mod requests;
#[cfg(test)]
mod restarts;
#[cfg(test)]
mod roots;
#[cfg(test)]
mod sessions;
#[cfg(test)]
mod sockets;
#[cfg(test)]
mod triggers;
#[cfg(test)]
mod words;
