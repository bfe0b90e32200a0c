//! Tests of disks, spellings, names, clocks, explanations and logs, by the public functions of `wm_disk`, `wm_wire`, `wm_names`,
//! `wm_clock`, `wm_explain`, `wm_findings` and `wm_log`.
//!
//! They stand in a crate of their own, since a crate with tests is proved twice.
#![tactic(auto)]

#[cfg(test)]
mod advice;
#[cfg(test)]
mod checks;
#[cfg(test)]
mod clocks;
#[cfg(test)]
mod disks;
#[cfg(test)]
mod explanations;
#[cfg(test)]
mod heads;
#[cfg(test)]
mod logs;
#[cfg(test)]
mod names;
#[cfg(test)]
mod places;
#[cfg(test)]
mod spellings;
