//! Tests of a session's front over what sessions share, beside the front of one thread: the same lines, the same replies.
#![tactic(auto)]

#[cfg(test)]
mod checks;
#[cfg(test)]
mod desks;
#[cfg(test)]
mod ended;
#[cfg(test)]
mod failures;
#[cfg(test)]
mod fronts;
#[cfg(test)]
mod overlays;
#[cfg(test)]
mod watched;
