//! Tests of the three layers of a state file: a journal, a keeper of a machine's state, and a store of watches; and of the
//! desk before it.
//!
//! They compare the bytes on the disk, count the disk's calls, and cut every call of it in turn. What a layer
//! promises to its callers stands in its contracts; here is what no contract says, and that a call can succeed.
#![tactic(auto)]

#[cfg(test)]
mod checkpoint;
#[cfg(test)]
mod checks;
#[cfg(test)]
mod desk;
#[cfg(test)]
mod disks;
#[cfg(test)]
mod journal;
#[cfg(test)]
mod store;
#[cfg(test)]
mod versions;
