//! Tests of what the commands of `wm` decide, by tables.
#![tactic(auto)]

#[cfg(test)]
mod advice;
#[cfg(test)]
mod answers;
#[cfg(test)]
mod checks;
#[cfg(test)]
mod feedings;
#[cfg(test)]
mod folders;
#[cfg(test)]
mod patterns;
#[cfg(test)]
mod presences;
#[cfg(test)]
mod questions;
#[cfg(test)]
mod root_looks;
#[cfg(test)]
mod runs;
#[cfg(test)]
mod starts;
#[cfg(test)]
mod words;
