//! The start of a trigger of a root: it is permitted while the definition is there and the root is watched.
//! Definitions: specs/Starts.antt; specs/Tables.antt of wm_triggers. Tests: serve_tests/src/triggers.rt.
ghost use Rattle.std.specs.Prelude.{◌≡◌, true, false, MatchOption};
ghost use Rattle.wm_triggers.specs.Tables.{may_begin, table_begun, table_idle};

use std::marker::Model;
use std::snapshot::Snapshot;
use wm_triggers::{DefinedTrigger, TriggerTable};

/// The program of a trigger may be started: the root's table makes it, and nobody can drop it. The start is under way until the root has it
/// back. Contracts see the number of the root, and the definition.
pub struct StartPermit {
    root: u64,
    one: Snapshot<DefinedTrigger>,
}

impl Model for StartPermit {
    ghost use Rattle.wm_root.specs.Starts.{PermittedStart};

    ghost Value = { PermittedStart };

    ghost view = { λ p. record { root = p.root; one = p.one.value } };
}

/// The permit to start this definition's program now in the root of this number, as `TriggerTable::begin` decides.
pub(crate) fn begin(table: &mut TriggerTable, root: u64, one: DefinedTrigger) -> Option<StartPermit>
    ensures permit { MatchOption result (may_begin one table.old ≡ false) (λ permit. (may_begin one table.old ≡ true) × (permit ≡ record { root = root; one = one })) }
    ensures begun { table.new ≡ table_begun one table.old }
{
    let permitted = Snapshot::of(&one);
    if table.begin(one) {
        Some(StartPermit {
            root,
            one: permitted,
        })
    } else {
        None
    }
}

/// The start that was permitted is over.
pub(crate) fn end(table: &mut TriggerTable, permit: StartPermit)
    ensures { table.new ≡ table_idle table.old }
{
    let StartPermit { root: _, one: _ } = permit;
    table.end();
}
