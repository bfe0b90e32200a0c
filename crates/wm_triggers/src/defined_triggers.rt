//! The triggers of a root with the numbers of their definitions, no name twice.
//! Definitions: specs/Definitions.antt. Tests: registry_tests/src/trigger_runs/tables.rt.
ghost use Rattle.std.specs.Prelude.{◌≡◌, ◌≤◌, [], true, false, length, position, vec_capacity, OnOk, OnErr, IfOk};
ghost use Rattle.wm_registry.specs.Limits.{max_triggers};
ghost use Rattle.wm_triggers.specs.Definitions.{names_are_apart, has_name, is_defined, stands, with_definition, without_definition};

use crate::defined_trigger::DefinedTrigger;
use std::alloc::Global;
use std::marker::Model;
use wm_disk::NoMemory;
use wm_registry::{MAX_TRIGGERS, Trigger};

/// The triggers of a root, in the order of their first definition: no name twice. There is always room for the first
/// `MAX_TRIGGERS`. Contracts see the list.
#[derive(Drop)]
pub struct DefinedTriggers {
    all: Vec<DefinedTrigger>,
}

impl Model for DefinedTriggers {
    ghost use Rattle.std.specs.Prelude.{◌≡◌, ◌≤◌, List, true, vec_capacity};
    ghost use Rattle.wm_registry.specs.Limits.{max_triggers};
    ghost use Rattle.wm_triggers.specs.Definitions.{names_are_apart};
    ghost use Rattle.wm_triggers.specs.declared.defined_trigger.DefinedTrigger.{DefinedTrigger};

    ghost Value = { List DefinedTrigger };

    ghost view = { λ s. s.all.items };

    ghost invariant = { λ s. (names_are_apart s.all.items ≡ true) × (max_triggers ≤ vec_capacity s.all) };
}

/// The place of the definition of the name.
fn place_of(all: &[DefinedTrigger], name: &str) -> Option<usize>
    ensures { result ≡ position (has_name name.now) all.now }
{
    all.iter()
        .position(|defined| defined.trigger.name() == name)
}

/// No definitions, with room for `MAX_TRIGGERS`.
fn with_room(alloc: Global) -> Result<Vec<DefinedTrigger>, NoMemory>
    ensures empty { IfOk result (λ v. v.items ≡ []) }
    ensures room { IfOk result (λ v. max_triggers ≤ vec_capacity v) }
{
    let mut all = Vec::new(alloc);
    all.try_reserve(usize::from(MAX_TRIGGERS))?;
    Ok(all)
}

/// The same definitions again, with room for `MAX_TRIGGERS`.
fn copied(alloc: Global, all: &[DefinedTrigger]) -> Result<Vec<DefinedTrigger>, NoMemory>
    ensures items { IfOk result (λ v. v.items ≡ all.now) }
    ensures room { IfOk result (λ v. max_triggers ≤ vec_capacity v) }
{
    let mut copies = with_room(alloc)?;
    for defined in all {
        let copy = defined.copy()?;
        copies.push(copy)?;
    }
    Ok(copies)
}

impl DefinedTriggers {
    /// No triggers, with room for `MAX_TRIGGERS`. `NoMemory`.
    pub fn new(alloc: Global) -> Result<DefinedTriggers, NoMemory>
        ensures { IfOk result (λ all. all ≡ []) }
    {
        let all = with_room(alloc)?;
        Ok(DefinedTriggers { all })
    }

    /// How many there are.
    pub fn len(&self) -> usize
        ensures { result ≡ length self.now }
    {
        self.all.len()
    }

    /// The definitions, in the order of their first definition.
    pub fn as_slice(&self) -> &[DefinedTrigger]
        ensures value { result.now ≡ self.now }
        ensures apart { names_are_apart self.now ≡ true }
    {
        &self.all
    }

    /// Whether this definition is still there.
    pub fn stands(&self, name: &str, number: u64) -> bool
        ensures { result ≡ stands name.now number self.now }
    {
        self.all.iter().any(|defined| defined.is(name, number))
    }

    /// Puts the definition in the place of that of its name, or else last. `NoMemory` comes only where there are
    /// `MAX_TRIGGERS` or more already and none of them has the name; all stays as it was then, and the definition is gone.
    pub fn define(&mut self, number: u64, trigger: Trigger) -> Result<(), NoMemory>
        ensures ok { OnOk result (self.new ≡ with_definition (record { number = number; trigger = trigger }) self.old) }
        ensures err { OnErr result (self.new ≡ self.old) }
        ensures full { OnErr result (max_triggers ≤ length self.old) }
        ensures other { OnErr result (is_defined trigger.name self.old ≡ false) }
    {
        let place = place_of(&self.all, trigger.name());
        let defined = DefinedTrigger { number, trigger };
        match place {
            Some(place) => self.all[place] = defined,
            None => self.all.push(defined)?,
        }
        Ok(())
    }

    /// Takes out the definition of the name, if there is one. It takes no memory.
    pub fn remove(&mut self, name: &str)
        ensures { self.new ≡ without_definition name.now self.old }
    {
        if let Some(place) = place_of(&self.all, name) {
            self.all.remove(place);
        }
    }

    /// The same definitions again, which share the triggers' parts. `NoMemory`.
    pub fn copy(&self, alloc: Global) -> Result<DefinedTriggers, NoMemory>
        ensures { IfOk result (λ copy. copy ≡ self.now) }
    {
        let all = copied(alloc, self.as_slice())?;
        Ok(DefinedTriggers { all })
    }
}
