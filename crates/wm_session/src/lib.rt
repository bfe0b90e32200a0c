//! Request lines in, reply lines out, over any front.
//!
//! A line is read as a `Request` of `wm_lines`, the request is met on a [`Front`], and its reply is written:
//! [`Session::line`] does so for one line, and [`run`](run::run) for the lines of a reader. What a line is
//! answered, and the state after it, is `line_met` of specs/session/Sessions.antt.
//!
//! The rooms, each with a folder in src, specs and proofs: `session` answers lines on a front, `local` is
//! the front of one thread over a disk, and the opening of a state file. Programs are `wm_server`'s, and sockets `wm_serve`'s.
//!
//! Tests: session_tests/src (lines, requests, ends.rt).
#![tactic(auto)]

mod laws;
mod local;
mod session;

pub use laws::{every_line, every_part};
pub use local::{LocalFront, RootView, open_file, open_store};
pub use session::{Front, Input, Output, OwnFront, Session, input, run};
