//! How many commands were accepted, for a caller, who can't know what the lock protects.
//! Tests: file_tests/src/desk/receipts.rt.

use crate::history::History;
use std::marker::Model;
use std::snapshot::Snapshot;

/// How many commands had been accepted when the locked desk was asked, which alone makes it. Contracts see these commands.
#[derive(Drop)]
pub struct Accepted {
    pub(super) count: u64,
    pub(super) seen: Snapshot<History>,
}

impl Model for Accepted {
    ghost use Rattle.std.specs.Prelude.{◌≡◌, List, length};
    ghost use Rattle.wm_groupcommit.specs.declared.queued.Call.{Call};

    ghost Value = { List Call };

    ghost view = { λ a. a.seen.value.list };

    ghost invariant = { λ a. a.count ≡ length a.seen.value.list };
}

impl Accepted {
    ghost use Rattle.std.specs.Prelude.{◌≡◌, length};

    /// How many they are.
    pub fn count(&self) -> u64
        ensures { result ≡ length self.now }
    {
        self.count
    }
}
