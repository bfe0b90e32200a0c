//! A program of a trigger that couldn't be started. Definitions: specs/StartTexts. Tests: leaf_tests/src/logs.rt.
use wm_explain::StartCause;

/// A program that couldn't be started, and why.
#[derive(Drop)]
pub struct StartFault {
    pub program: String,
    pub cause: StartCause,
}
