//! Tests of `wm_registry`, by what it shows to the crates above, and of `wm_triggers`.
//!
//! They stand in a crate of their own, so that the registry isn't proved once more with each change of
//! a test. What a test can't name, as the place of a trigger among the others, it reads off what a
//! command leaves.
#![tactic(auto)]

#[cfg(test)]
mod checks;
#[cfg(test)]
mod commands;
#[cfg(test)]
mod drafts;
#[cfg(test)]
mod filed;
#[cfg(test)]
mod lines;
#[cfg(test)]
mod long_states;
#[cfg(test)]
mod names;
#[cfg(test)]
mod other_bytes;
#[cfg(test)]
mod plans;
#[cfg(test)]
mod registries;
#[cfg(test)]
mod room;
#[cfg(test)]
mod roots;
#[cfg(test)]
mod spelling;
#[cfg(test)]
mod states;
#[cfg(test)]
mod trigger_lengths;
#[cfg(test)]
mod trigger_runs;
#[cfg(test)]
mod triggers;
#[cfg(test)]
mod versions;
