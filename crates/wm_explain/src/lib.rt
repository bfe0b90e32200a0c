//! The further line by which a program explains a refusal on a terminal: which file or socket, why, and what to do.
//!
//! The program looks at its files and its socket after the failure. What it [`Found`] there leads to a [`Cause`]
//! ([`file_cause`], [`socket_cause`]), and the cause to the line ([`line_of`]). Nothing here talks to the system.
//!
//! | Of | Definitions |
//! |---|---|
//! | which cause it is | specs/Causes.antt |
//! | the line of a cause | specs/CauseLines.antt |
//! | a text from outside, as a line has it | specs/Shown.antt |
//! | what is said of a program that couldn't be started | specs/StartCauses.antt |
//!
//! Tests: leaf_tests/src/explanations.rt, leaf_tests/src/logs.rt; of the built programs tools/try/messages.py.
#![tactic(auto)]

mod causes;
mod escapes;
mod found;
mod lines;
mod start_cause;

pub use causes::{Doing, End, MAX_SOCKET_PATH, file_cause, refusal_said, socket_cause};
pub use escapes::shown;
pub use found::{Found, Head, Lock};
pub use lines::{Cause, Trouble, line_of};
pub use start_cause::StartCause;
