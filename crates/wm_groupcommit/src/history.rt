//! The registry that the desk found, and the calls accepted since. They stand in proofs alone: no code reads them.
//! Definitions: specs/Histories.antt. Tests: file_tests/src/desk/receipts.rt.
ghost use Rattle.std.specs.Prelude.{◌≡◌, [], ◌∷◌, ◌++◌};

use crate::queued::Call;
use std::marker::Model;
use std::snapshot::Snapshot;
use wm_registry::Registry;

/// An accepted call behind those before it. Contracts see the list that it ends.
#[derive(Drop)]
pub struct Past {
    before: Option<Snapshot<Past>>,
    call: Snapshot<Call>,
}

impl Model for Past {
    ghost use Rattle.std.specs.Prelude.{List, [], ◌∷◌, ◌++◌, length};
    ghost use Rattle.wm_groupcommit.specs.declared.queued.Call.{Call};
    ghost use Rattle.wm_groupcommit.specs.Histories.{calls_to};

    ghost Value = { List Call };

    ghost view = { λ p. calls_to p.before ++ p.call.value ∷ [] };

    ghost size = { length };
}

/// The registry that the desk found, and the calls accepted since, in their order. It takes no memory.
#[derive(Drop)]
pub struct History {
    base: Snapshot<Registry>,
    last: Option<Snapshot<Past>>,
}

impl Model for History {
    ghost use Rattle.wm_groupcommit.specs.Histories.{HistoryState, calls_to};

    ghost Value = { HistoryState };

    ghost view = { λ h. record { base = h.base.value; list = calls_to h.last } };
}

impl History {
    /// That of a desk which finds this registry.
    pub fn of(registry: &Registry) -> History
        ensures { (result.base ≡ registry.now) × (result.list ≡ []) }
    {
        History {
            base: Snapshot::of(registry),
            last: None,
        }
    }

    /// The call was accepted behind the others.
    pub fn push(&mut self, call: &Call)
        ensures { (self.new.base ≡ self.old.base) × (self.new.list ≡ self.old.list ++ call.now ∷ []) }
    {
        let past = Past {
            before: self.last.take(),
            call: Snapshot::of(call),
        };
        self.last = Some(Snapshot::of(&past));
    }
}
