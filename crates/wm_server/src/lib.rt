//! `watchmand format`, `lines` and `migrate` whole, by their words and over any system of files.
//!
//! What a line is answered is `wm_session`'s. Sockets are `wm_serve`'s, and all the words of `watchmand` are `wm_program`'s.
//!
//! Tests: session_tests/src (programs, lines/failures.rt, ends.rt).
#![tactic(auto)]

mod laws;
pub mod program;

pub use laws::every_restart;
pub use program::{lines, system, words};
