//! An entry of the log: an operation, and the share on which it was handed in.
//! Definitions: specs/Logs.antt. Tests: view_tests/src/shared/shares.rt.
use wm_view::Op;

/// An operation of the share with this number.
#[derive(Drop)]
pub struct Entry {
    pub share: u64,
    pub op: Op,
}
