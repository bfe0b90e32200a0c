//! A copy of the registry, for a caller, who can't know what the lock protects.
//! Definitions: specs/Histories.antt. Tests: file_tests/src/desk/receipts.rt.

use crate::history::History;
use std::marker::Model;
use std::snapshot::Snapshot;
use wm_registry::Registry;

/// A copy of the registry with how many commands had been accepted by then. The locked desk alone makes it. Contracts see the registry that the desk
/// found, and these commands.
#[derive(Drop)]
pub struct RegistryCopy {
    pub(super) registry: Registry,
    pub(super) count: u64,
    pub(super) seen: Snapshot<History>,
}

impl Model for RegistryCopy {
    ghost use Rattle.std.specs.Prelude.{◌≡◌, length};
    ghost use Rattle.wm_groupcommit.specs.Histories.{HistoryState, last_state};

    ghost Value = { HistoryState };

    ghost view = { λ r. r.seen.value };

    ghost invariant = { λ r. (r.registry ≡ last_state r.seen.value) × (r.count ≡ length r.seen.value.list) };
}

impl RegistryCopy {
    ghost use Rattle.std.specs.Prelude.{◌≡◌, length};
    ghost use Rattle.wm_groupcommit.specs.Histories.{last_state};

    /// How many commands had been accepted.
    pub fn count(&self) -> u64
        ensures { result ≡ length self.now.list }
    {
        self.count
    }

    /// The registry after all of these.
    pub fn into_registry(self) -> Registry
        ensures { result ≡ last_state self }
    {
        let RegistryCopy {
            registry,
            count: _,
            seen: _,
        } = self;
        registry
    }
}
