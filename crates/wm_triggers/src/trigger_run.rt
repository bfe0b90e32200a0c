//! Which run of a trigger is due: what changed since the last run that was started.
//! Definitions: specs/Due.antt, specs/TriggerRuns.antt, specs/Applying.antt. Tests: registry_tests/src/trigger_runs/runs.rt.
ghost use Rattle.std.specs.Prelude.{◌≡◌, ◌≢◌, Some, None, option_map, IfOk, IfErr, IfSome};
ghost use Rattle.serde_json.specs.Read.{read};
ghost use Rattle.serde_json.specs.View.{view};
ghost use Rattle.wm_expr.specs.Views.{term};
ghost use Rattle.wm_view.specs.Histories.{History};
ghost use Rattle.wm_since.specs.Answers.{answer_to, question};
ghost use Rattle.wm_triggers.specs.Applying.{BringsUpToNow, MissesNothing};
ghost use Rattle.wm_triggers.specs.Due.{run_by, term_for, term_in};
ghost use Rattle.wm_triggers.specs.TriggerRuns.{is_for, last_started, next_run, chosen_term};

use crate::run::Run;
use serde_json::Value;
use std::alloc::Global;
use wm_clock::ClockId;
use wm_disk::{NoMemory, Refusal};
use wm_expr::Expr;
use wm_registry::Trigger;
use wm_since::{Answer, Query, Since, every_client};

/// The runs of one trigger: which files they are for, and since when the next one tells.
#[derive(Drop)]
pub struct TriggerRun {
    expr: Expr,
    // the clock of the last run that was started
    since: Option<ClockId>,
}

/// The JSON value that a text is. `BadExpression` where it is none, and `NoMemory`.
fn value_in(alloc: Global, text: &str) -> Result<Value, Refusal>
    ensures ok { IfOk result (λ v. read text.now ≡ Some (view v)) }
    ensures refused { IfErr result (λ e. e ≢ Refusal.NoMemory → (e ≡ Refusal.BadExpression) × (read text.now ≡ None)) }
{
    match Value::from_str(alloc, text) {
        Ok(value) => Ok(value),
        Err(error) => {
            if error.is_memory() {
                Err(Refusal::NoMemory)
            } else {
                Err(Refusal::BadExpression)
            }
        }
    }
}

/// The expression that a trigger's text is, and where it has none that of each file.
fn expression_in(alloc: Global, text: Option<&str>) -> Result<Expr, Refusal>
    ensures ok { IfOk result (λ e. term_in (option_map (λ t. t.now) text.entry) ≡ Some (term e)) }
    ensures refused { IfErr result (λ e. e ≢ Refusal.NoMemory → (e ≡ Refusal.BadExpression) × (term_in (option_map (λ t. t.now) text.entry) ≡ None)) }
{
    let Some(text) = text else {
        return Ok(Expr::True);
    };
    let value = value_in(alloc, text)?;
    Expr::read(alloc, &value)
}

impl TriggerRun {
    /// The runs of the trigger, of which none was started yet. `BadExpression` where the text that
    /// the trigger keeps is no expression, and `NoMemory`.
    pub fn new(alloc: Global, trigger: &Trigger) -> Result<TriggerRun, Refusal>
        ensures ok { IfOk result (λ runs. term_for trigger.now ≡ Some (chosen_term runs)) }
        ensures first { IfOk result (λ runs. last_started runs ≡ None) }
        ensures refused { IfErr result (λ e. e ≢ Refusal.NoMemory → (e ≡ Refusal.BadExpression) × (term_for trigger.now ≡ None)) }
    {
        let expr = expression_in(alloc, trigger.expression())?;
        Ok(TriggerRun { expr, since: None })
    }

    /// The same runs again. `NoMemory`.
    pub(crate) fn copy(&self, alloc: Global) -> Result<TriggerRun, NoMemory>
        ensures clock { IfOk result (λ runs. last_started runs ≡ last_started self.now) }
        ensures test { IfOk result (λ runs. chosen_term runs ≡ chosen_term self.now) }
    {
        let expr = self.expr.copy(alloc)?;
        Ok(TriggerRun {
            expr,
            since: self.since,
        })
    }

    /// The question whose answer says which run is due: what changed since the last run that was
    /// started, and before the first of them all that is there. A refusal is `NoMemory`.
    pub fn ask(&self, alloc: Global) -> Result<Query<Expr>, Refusal>
        ensures question { IfOk result (λ q. question q ≡ next_run self.now) }
        ensures test { IfOk result (λ q. term q.test ≡ chosen_term self.now) }
        ensures kinds { IfErr result (λ e. e ≡ Refusal.NoMemory) }
    {
        let test = self.expr.copy(alloc)?;
        Ok(Query {
            since: Since::from_clock(self.since),
            test,
            empty_on_fresh: false,
        })
    }

    /// The run that is due by the answer to what was asked, and `None` if the answer lists no file. A program that applies each run
    /// has all matching files of the root's history, of which no change goes without a run. It takes no memory.
    pub fn run_of(&self, answer: Answer) -> Option<Run>
        ensures value { result ≡ run_by answer }
        ensures applied { IfSome result (λ run. (h : History) → answer ≡ answer_to (is_for self.now) h (next_run self.now) → BringsUpToNow (is_for self.now) (last_started self.now) h run) }
        ensures missed { result ≡ None → (h : History) → answer ≡ answer_to (is_for self.now) h (next_run self.now) → MissesNothing (is_for self.now) (last_started self.now) h }
    {
        every_client();
        Run::of(answer)
    }

    /// The run was started: the next one tells what changed since its clock. It takes no memory.
    pub fn started(&mut self, run: &Run)
        ensures clock { last_started self.new ≡ Some run.now.clock }
        ensures test { chosen_term self.new ≡ chosen_term self.old }
    {
        self.since = Some(run.clock());
    }
}
