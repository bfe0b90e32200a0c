//! The runs of a root's triggers, which their worker keeps from round to round.
//! Definitions: specs/KeptRuns.antt. Tests: registry_tests/src/trigger_runs/rounds.rt.
ghost use Rattle.std.specs.Prelude.{◌≡◌, ◌≢◌, ◌<◌, [], true, length, map, find, is_none, option_map, slice_get, Some, OnOk, OnErr, IfOk, IfErr};
ghost use Rattle.std.specs.List.{list_any};
ghost use Rattle.wm_triggers.specs.Due.{term_for};
ghost use Rattle.wm_triggers.specs.KeptRuns.{are_of, kept_for, started_at};

use crate::defined_trigger::DefinedTrigger;
use crate::defined_triggers::DefinedTriggers;
use crate::definition_runs::DefinitionRuns;
use crate::run::Run;
use std::alloc::Global;
use std::marker::Model;
use wm_disk::Refusal;

/// The runs of a root's triggers. Contracts see the list.
#[derive(Drop)]
pub struct TriggerRuns {
    all: Vec<DefinitionRuns>,
}

impl Model for TriggerRuns {
    ghost use Rattle.std.specs.Prelude.{List};
    ghost use Rattle.wm_triggers.specs.KeptRuns.{KeptRuns};

    ghost Value = { List KeptRuns };

    ghost view = { λ r. r.all.items };
}

/// The runs that were kept of this definition.
fn kept_of<'a>(kept: &'a [DefinitionRuns], defined: &DefinedTrigger) -> Option<&'a DefinitionRuns>
    ensures { option_map (λ runs. runs.now) result ≡ find (are_of defined.now) kept.now }
{
    kept.iter().find(|runs| runs.are_of(defined))
}

/// The runs that were kept of this definition, or else new ones.
fn kept_or_new(
    alloc: Global,
    kept: &[DefinitionRuns],
    defined: &DefinedTrigger,
) -> Result<DefinitionRuns, Refusal>
    ensures ok { IfOk result (λ k. k ≡ kept_for kept.now defined.now) }
    ensures refused { IfErr result (λ e. e ≢ Refusal.NoMemory → (e ≡ Refusal.BadExpression) × (is_none (term_for defined.now.trigger) ≡ true)) }
{
    match kept_of(kept, defined) {
        Some(runs) => Ok(runs.copy(alloc)?),
        None => DefinitionRuns::new(alloc, defined),
    }
}

/// The runs of each of these definitions: those that were kept of it, or else new ones.
fn next_round(
    alloc: Global,
    kept: &[DefinitionRuns],
    defined: &[DefinedTrigger],
) -> Result<Vec<DefinitionRuns>, Refusal>
    ensures ok { IfOk result (λ all. all.items ≡ map (kept_for kept.now) defined.now) }
    ensures refused { IfErr result (λ e. e ≢ Refusal.NoMemory → (e ≡ Refusal.BadExpression) × (list_any (λ d. is_none (term_for d.trigger)) defined.now ≡ true)) }
{
    let mut all = Vec::new(alloc);
    for one in defined {
        let runs = kept_or_new(alloc, kept, one)?;
        all.push(runs)?;
    }
    Ok(all)
}

impl TriggerRuns {
    /// No runs. It takes no memory.
    pub fn new(alloc: Global) -> TriggerRuns
        ensures { result ≡ [] }
    {
        TriggerRuns {
            all: Vec::new(alloc),
        }
    }

    /// How many triggers there are.
    pub fn len(&self) -> usize
        ensures { result ≡ length self.now }
    {
        self.all.len()
    }

    /// Keeps the runs of just these definitions, in their order: of a definition that was there its own with their clock, and of
    /// each other one new runs, of which none was started. `BadExpression` where the text that one of these triggers keeps is no
    /// expression, and `NoMemory`; each run and each clock stays then.
    pub fn keep(&mut self, alloc: Global, defined: &DefinedTriggers) -> Result<(), Refusal>
        ensures ok { OnOk result (self.new ≡ map (kept_for self.old) defined.now) }
        ensures err { OnErr result (self.new ≡ self.old) }
        ensures refused { IfErr result (λ e. e ≢ Refusal.NoMemory → (e ≡ Refusal.BadExpression) × (list_any (λ d. is_none (term_for d.trigger)) defined.now ≡ true)) }
    {
        let all = next_round(alloc, &self.all, defined.as_slice())?;
        self.all = all;
        Ok(())
    }

    /// The runs at the place.
    pub fn at(&self, place: usize) -> &DefinitionRuns
        requires { place < length self.now }
        ensures { slice_get self.now place ≡ Some result.now }
    {
        &self.all[place]
    }

    /// A run of those at the place was started: their next one tells what changed since its clock. All others stay. It takes
    /// no memory.
    pub fn started(&mut self, place: usize, run: &Run)
        requires { place < length self.old }
        ensures { self.new ≡ started_at place run.now.clock self.old }
    {
        self.all[place].started(run);
    }
}
