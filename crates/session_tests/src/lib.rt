//! Tests of whole sessions: lines with their replies and the bytes in their files, the words and files of
//! the program, and worlds that events drive.
//!
//! What is expected is written out in tables. A test walks its tables and asks for each row whether it
//! stands; what a row compares is in a function beside it.
#![tactic(auto)]

#[cfg(test)]
mod checks;
#[cfg(test)]
mod disks;
#[cfg(test)]
mod ends;
#[cfg(test)]
mod lines;
#[cfg(test)]
mod programs;
#[cfg(test)]
mod requests;
#[cfg(test)]
mod world;
