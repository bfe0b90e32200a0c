//! The runs of one definition of a trigger.
//! Definitions: specs/KeptRuns.antt. Tests: registry_tests/src/trigger_runs/rounds.rt.
ghost use Rattle.std.specs.Prelude.{◌≡◌, ◌≢◌, Some, None, IfOk, IfErr};
ghost use Rattle.wm_triggers.specs.Due.{term_for};
ghost use Rattle.wm_triggers.specs.KeptRuns.{are_of, new_runs};
ghost use Rattle.wm_triggers.specs.TriggerRuns.{chosen_term, last_started};

use crate::defined_trigger::DefinedTrigger;
use crate::run::Run;
use crate::trigger_run::TriggerRun;
use std::alloc::Global;
use std::marker::Model;
use wm_disk::{NoMemory, Refusal};
use wm_registry::Trigger;

/// The runs of one definition of a trigger. Contracts see the number, the trigger, and the clock of the last run that was
/// started; which files they are for follows from the trigger.
#[derive(Drop)]
pub struct DefinitionRuns {
    number: u64,
    trigger: Trigger,
    runs: TriggerRun,
}

impl Model for DefinitionRuns {
    ghost use Rattle.std.specs.Prelude.{◌≡◌, Some};
    ghost use Rattle.wm_triggers.specs.Due.{term_for};
    ghost use Rattle.wm_triggers.specs.KeptRuns.{KeptRuns};
    ghost use Rattle.wm_triggers.specs.TriggerRuns.{chosen_term, last_started};

    ghost Value = { KeptRuns };

    ghost view = { λ k. record { number = k.number; trigger = k.trigger; last = last_started k.runs } };

    ghost invariant = { λ k. term_for k.trigger ≡ Some (chosen_term k.runs) };
}

impl DefinitionRuns {
    /// The runs of the definition, of which none was started yet. `BadExpression` where the text that the trigger keeps is
    /// no expression, and `NoMemory`.
    pub(crate) fn new(alloc: Global, defined: &DefinedTrigger) -> Result<DefinitionRuns, Refusal>
        ensures ok { IfOk result (λ k. k ≡ new_runs defined.now) }
        ensures refused { IfErr result (λ e. e ≢ Refusal.NoMemory → (e ≡ Refusal.BadExpression) × (term_for defined.now.trigger ≡ None)) }
    {
        let runs = TriggerRun::new(alloc, &defined.trigger)?;
        let trigger = defined.trigger.copy()?;
        Ok(DefinitionRuns {
            number: defined.number,
            trigger,
            runs,
        })
    }

    /// Whether they are those of this definition.
    pub(crate) fn are_of(&self, defined: &DefinedTrigger) -> bool
        ensures { result ≡ are_of defined.now self.now }
    {
        defined.trigger.name() == self.trigger.name() && self.number == defined.number
    }

    /// The same runs again. `NoMemory`.
    pub(crate) fn copy(&self, alloc: Global) -> Result<DefinitionRuns, NoMemory>
        ensures { IfOk result (λ k. k ≡ self.now) }
    {
        let trigger = self.trigger.copy()?;
        let runs = self.runs.copy(alloc)?;
        Ok(DefinitionRuns {
            number: self.number,
            trigger,
            runs,
        })
    }

    /// The number of the command that defined the trigger.
    pub fn number(&self) -> u64
        ensures { result ≡ self.now.number }
    {
        self.number
    }

    /// The trigger.
    pub fn trigger(&self) -> &Trigger
        ensures { result.now ≡ self.now.trigger }
    {
        &self.trigger
    }

    /// Its runs: by what they ask it is told which one is due.
    pub fn runs(&self) -> &TriggerRun
        ensures clock { last_started result.now ≡ self.now.last }
        ensures test { term_for self.now.trigger ≡ Some (chosen_term result.now) }
    {
        &self.runs
    }

    /// The definition, as a permit hands it to the root's table. `NoMemory` as `Trigger::copy`.
    pub fn definition(&self) -> Result<DefinedTrigger, NoMemory>
        ensures number { IfOk result (λ d. d.number ≡ self.now.number) }
        ensures trigger { IfOk result (λ d. d.trigger ≡ self.now.trigger) }
    {
        let trigger = self.trigger.copy()?;
        Ok(DefinedTrigger {
            number: self.number,
            trigger,
        })
    }

    /// The run was started: the next one tells what changed since its clock. It takes no memory.
    pub(crate) fn started(&mut self, run: &Run)
        ensures { self.new ≡ record self.old { last = Some run.now.clock } }
    {
        self.runs.started(run);
    }
}
