//! Tests of a feed: what inotifywait and the system tell, as values, and a feed over a system in memory, what it sends to a server, how
//! it ends, and what `wmfeed` tells of it.
//!
//! They stand in a crate of their own beside `serve_tests`, which waits for the proof of `wm_serve`, and with them stand no
//! sockets, programs or files: what a server answers, what inotifywait tells and what stands at each path are tables.
#![tactic(auto)]

#[cfg(test)]
mod all_roots;
#[cfg(test)]
mod batches;
#[cfg(test)]
mod begins;
#[cfg(test)]
mod bursts;
#[cfg(test)]
mod changes;
#[cfg(test)]
mod checked_folders;
#[cfg(test)]
mod checks;
#[cfg(test)]
mod done;
#[cfg(test)]
mod ends;
#[cfg(test)]
mod every_event;
#[cfg(test)]
mod flows;
#[cfg(test)]
mod lasting;
#[cfg(test)]
mod memory;
#[cfg(test)]
mod moves;
#[cfg(test)]
mod new_folders;
#[cfg(test)]
mod numbered;
#[cfg(test)]
mod observes;
#[cfg(test)]
mod orphans;
#[cfg(test)]
mod paths;
#[cfg(test)]
mod records;
#[cfg(test)]
mod refused_crawls;
#[cfg(test)]
mod renames;
#[cfg(test)]
mod renewed;
#[cfg(test)]
mod root_lists;
#[cfg(test)]
mod roots;
#[cfg(test)]
mod runs;
#[cfg(test)]
mod steps;
#[cfg(test)]
mod sync;
#[cfg(test)]
mod sync_runs;
#[cfg(test)]
mod sync_watches;
#[cfg(test)]
mod syncs;
#[cfg(test)]
mod watches;
#[cfg(test)]
mod words;
