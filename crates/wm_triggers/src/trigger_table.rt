//! The triggers of a root and the start that is under way, as they lie under the root's lock.
//! Definitions: specs/Tables.antt. Tests: registry_tests/src/trigger_runs/tables.rt.
ghost use Rattle.std.specs.Prelude.{◌≡◌, ◌≤◌, false, length, OnOk, OnErr, IfOk};
ghost use Rattle.wm_registry.specs.Limits.{max_triggers};
ghost use Rattle.wm_triggers.specs.Definitions.{is_defined};
ghost use Rattle.wm_triggers.specs.Tables.{empty_table, may_begin, may_reply, may_start, table_begun, table_ended, table_idle, table_with, table_without};

use crate::defined_trigger::DefinedTrigger;
use crate::defined_triggers::DefinedTriggers;
use std::alloc::Global;
use std::marker::Model;
use wm_disk::NoMemory;
use wm_registry::Trigger;

/// The triggers of a root, which of them is being started, and whether the root is still watched. What was deleted, replaced,
/// or belongs to a root that isn't watched any longer never begins; who deletes it replies once `may_reply`, and then no start
/// of it comes any more (`every_table`).
#[derive(Drop)]
pub struct TriggerTable {
    defined: DefinedTriggers,
    starting: Option<DefinedTrigger>,
    has_ended: bool,
}

impl Model for TriggerTable {
    ghost use Rattle.wm_triggers.specs.Tables.{Table};

    ghost Value = { Table };

    ghost view = { λ t. record { defined = t.defined; starting = t.starting; has_ended = t.has_ended } };
}

impl TriggerTable {
    /// The table of a watched root without triggers, of which none is being started. `NoMemory`.
    pub fn new(alloc: Global) -> Result<TriggerTable, NoMemory>
        ensures { IfOk result (λ t. t ≡ empty_table) }
    {
        let defined = DefinedTriggers::new(alloc)?;
        Ok(TriggerTable {
            defined,
            starting: None,
            has_ended: false,
        })
    }

    /// The triggers.
    pub fn defined(&self) -> &DefinedTriggers
        ensures { result.now ≡ self.now.defined }
    {
        &self.defined
    }

    /// As `DefinedTriggers::define`. A start of the definition that is replaced may still be under way.
    pub fn define(&mut self, number: u64, trigger: Trigger) -> Result<(), NoMemory>
        ensures ok { OnOk result (self.new ≡ table_with (record { number = number; trigger = trigger }) self.old) }
        ensures err { OnErr result (self.new ≡ self.old) }
        ensures full { OnErr result (max_triggers ≤ length self.old.defined) }
        ensures other { OnErr result (is_defined trigger.name self.old.defined ≡ false) }
    {
        self.defined.define(number, trigger)
    }

    /// As `DefinedTriggers::remove`. A start of the definition may still be under way.
    pub fn remove(&mut self, name: &str)
        ensures { self.new ≡ table_without name.now self.old }
    {
        self.defined.remove(name);
    }

    /// The root isn't watched any longer: nothing begins from now on. A start may still be under way.
    pub fn end_root(&mut self)
        ensures { self.new ≡ table_ended self.old }
    {
        self.has_ended = true;
    }

    /// Whether this definition may be started: it stands, and the root is watched.
    fn may_start(&self, one: &DefinedTrigger) -> bool
        ensures { result ≡ may_start one.now self.now }
    {
        !self.has_ended && self.defined.stands(one.trigger.name(), one.number)
    }

    /// Whether this definition's program may be started now: it stands, the root is watched, and no other start is under way.
    /// Then its start is under way until `end`. It takes no memory.
    pub fn begin(&mut self, one: DefinedTrigger) -> bool
        ensures told { result ≡ may_begin one self.old }
        ensures begun { self.new ≡ table_begun one self.old }
    {
        let may_begin = self.starting.is_none() && self.may_start(&one);
        if may_begin {
            self.starting = Some(one);
        }
        may_begin
    }

    /// The start that was under way is over.
    pub fn end(&mut self)
        ensures { self.new ≡ table_idle self.old }
    {
        self.starting = None;
    }

    /// Whether who deleted or replaced a trigger, or ended the root, may reply: no start of what may not be started any more is
    /// under way.
    pub fn may_reply(&self) -> bool
        ensures { result ≡ may_reply self.now }
    {
        match &self.starting {
            Some(one) => self.may_start(one),
            None => true,
        }
    }
}
