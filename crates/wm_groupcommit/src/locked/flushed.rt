//! What a flush did, for its caller, who can't know what the lock protects.
//! Definitions: specs/LockedState.antt. Tests: file_tests/src/desk.

use crate::queued::Call;
use std::marker::Model;
use std::snapshot::Snapshot;

/// The calls that a flush took, and how many of them it answered. The locked desk alone makes it, when it has answered them.
#[derive(Drop)]
pub struct Flushed {
    pub(super) count: usize,
    pub(super) taken: Snapshot<Vec<Call>>,
}

impl Model for Flushed {
    ghost use Rattle.std.specs.Prelude.{◌≡◌, ℕ, List, length};
    ghost use Rattle.wm_groupcommit.specs.Counting.{newer_of};
    ghost use Rattle.wm_groupcommit.specs.LockedState.{FlushedState};

    ghost Value = { FlushedState };

    ghost view = { λ f. record { calls = f.taken.value.items; count = f.count } };

    // Each call that was newer than its seat's last was answered.
    ghost invariant = { λ f. (counts : List ℕ) × (f.count ≡ length (newer_of counts f.taken.value.items)) };
}

impl Flushed {
    ghost use Rattle.std.specs.Prelude.{◌≡◌};

    /// How many calls were answered.
    pub fn count(&self) -> usize
        ensures { result ≡ self.now.count }
    {
        self.count
    }
}
