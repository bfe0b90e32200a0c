//! How far a view has come, as replies tell it. Their definitions are `clock_reply`, `floor_reply` and
//! `operation_reply` of specs/Replies.
//! Tests: session_tests/src/lines.

use wm_clock::ClockId;

/// Where the view of a root stands.
#[derive(Clone, Copy, Debug, PartialEq, Eq)]
pub struct Progress {
    pub clock: ClockId,
    /// The tick from which on all changes can be told.
    pub floor: u64,
}
