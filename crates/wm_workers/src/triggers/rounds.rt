//! The rounds of a root's triggers: which of them are defined, which run is due, and that none is started once it was deleted, is decided by
//! the machines of wm_triggers.
//! Definitions: specs/TriggerWork.antt. Tests: serve_tests/src/triggers.rt.
ghost use Rattle.std.specs.Prelude.{◌≡◌, ◌⊎◌, ◌<◌, false, length, map, IfErr, IfOk, IsErrOf, OnErr, OnOk};
ghost use Rattle.wm_explain.specs.declared.start_cause.StartCause.{StartCause};
ghost use Rattle.wm_share.specs.PublishedLists.{Begins, disconnected, history};
ghost use Rattle.wm_view.specs.Histories.{is_ready};
ghost use Rattle.wm_triggers.specs.KeptRuns.{kept_for};
ghost use Rattle.wm_triggers.specs.Starting.{launch_for};
ghost use Rattle.wm_workers.specs.TriggerWork.{EachInTurn, FailsAt, IsNotDone, RunsAt, RunsDefined, RunsIfDue, RunsOrStays, RunsToEnd, due_for};

use std::alloc::Global;
use std::sync::Wait;
use wm_disk::{NoMemory, Refusal};
use wm_root::{StartPermit, WatchedRoot};
use wm_share::{Naming, Viewer};
use wm_triggers::{
    DefinedTrigger, DefinedTriggers, DefinitionRuns, NotRun, Permit, Run, Starter, TriggerRuns,
};

/// A root, and what starts the programs of its triggers.
#[derive(Drop)]
pub struct RootPrograms<'a, J: Naming, K: Wait + Drop, S> {
    pub root: &'a WatchedRoot<J, K>,
    pub starter: &'a S,
}

/// The permit to start a definition of a trigger, which the root gives while the definition is there.
#[derive(Drop)]
struct StandingPermit<'a, R: Wait, J: Naming, K: Wait + Drop> {
    rt: &'a R,
    root: &'a WatchedRoot<J, K>,
    one: DefinedTrigger,
}

impl<R: Wait, J: Naming, K: Wait + Drop> Permit for StandingPermit<'_, R, J, K> {
    ghost use Rattle.std.specs.Prelude.{◌≡◌, ⊤};

    type Given = StartPermit;

    type Ended = ();

    ghost shows_given = { λ permit given. given ≡ record { root = permit.root.now.number; one = permit.one } };

    ghost shows_ended = { λ permit ended. ⊤ };

    fn begin(&self) -> Option<StartPermit> {
        let one = self.one.copy().ok()?;
        self.root.begin_start(self.rt, one)
    }

    fn end(&self, given: StartPermit) {
        self.root.end_start(self.rt, given);
    }
}

/// The permit to start the definition of these runs in a root.
fn permit_for<'a, R: Wait, J: Naming, K: Wait + Drop>(
    rt: &'a R,
    root: &'a WatchedRoot<J, K>,
    one: &DefinitionRuns,
) -> Result<StandingPermit<'a, R, J, K>, NoMemory>
    ensures root { IfOk result (λ permit. permit.root.now ≡ root.now) }
    ensures definition { IfOk result (λ permit. permit.one ≡ record { number = one.now.number; trigger = one.now.trigger }) }
{
    let one = one.definition()?;
    Ok(StandingPermit { rt, root, one })
}

/// Why a run wasn't done.
#[derive(Clone, Copy)]
pub enum NotDone {
    /// What it would list was refused.
    Refused(Refusal),
    /// Its program didn't run.
    Unstarted(NotRun),
}

/// The run of a definition that is due, as the viewer sees the root: its files are those that changed since the last run that was
/// started. `NotReady` before the first whole listing, `NoPlace` if the root is gone, and `NoMemory`.
fn due_run<J: Naming>(
    alloc: Global,
    viewer: &mut Viewer<J>,
    one: &DefinitionRuns,
) -> Result<Option<Run>, Refusal>
    ensures seen { Begins viewer.old.list viewer.new.list }
    ensures due { IfOk result (λ run. run ≡ due_for one.now (history viewer.new.list)) }
    ensures refused { IfErr result (λ e. (e ≡ Refusal.NoMemory) ⊎ ((e ≡ Refusal.NoPlace) × (viewer.new ≡ disconnected viewer.old)) ⊎ ((e ≡ Refusal.NotReady) × (is_ready (history viewer.new.list) ≡ false))) }
{
    let query = one.runs().ask(alloc)?;
    let answer = viewer.answer(alloc, &query);
    drop(query);
    Ok(one.runs().run_of(answer?))
}

impl<J: Naming, K: Wait + Drop, S: Starter> RootPrograms<'_, J, K, S> {
    /// Starts the program of a run that is due, and waits for its end, however it ends. `NotPermitted` if its definition isn't there any
    /// longer.
    fn start<R: Wait>(
        &self,
        rt: &R,
        alloc: Global,
        one: &DefinitionRuns,
        run: &Run,
    ) -> Result<(), NotRun>
        ensures ran { OnOk result (RunsToEnd (S.has_run self.now.starter.now) self.now.root.now.path one.now.trigger run.now) }
        ensures failed { (cause : StartCause) → IsErrOf result (NotRun.DeviceFailed cause) → S.has_failed self.now.starter.now (launch_for self.now.root.now.path one.now.trigger run.now) cause }
    {
        let permit = permit_for(rt, self.root, one)?;
        let (_end, _ended) = self
            .starter
            .run(alloc, &self.root.path, one.trigger(), run, permit)?;
        Ok(())
    }

    /// Runs the definition at a place if a run of it is due. It is refused as `due_run` and `start` are: its next run then lists the
    /// same files again.
    fn run_at<R: Wait>(
        &self,
        rt: &R,
        alloc: Global,
        viewer: &mut Viewer<J>,
        runs: &mut TriggerRuns,
        place: usize,
    ) -> Result<(), NotDone>
        requires { place < length runs.old }
        ensures seen { Begins viewer.old.list viewer.new.list }
        ensures ran { OnOk result (RunsAt (RunsToEnd (S.has_run self.now.starter.now)) self.now.root.now.path (history viewer.new.list) place runs.old runs.new) }
        ensures same { OnErr result (runs.new ≡ runs.old) }
        ensures refused { IfErr result (IsNotDone viewer.old viewer.new (FailsAt (S.has_failed self.now.starter.now) self.now.root.now.path (history viewer.new.list) place runs.old)) }
    {
        let one = runs.at(place);
        let run = match due_run(alloc, viewer, one) {
            Ok(Some(run)) => run,
            Ok(None) => return Ok(()),
            Err(refusal) => return Err(NotDone::Refused(refusal)),
        };
        match self.start(rt, alloc, one, &run) {
            Ok(()) => {
                runs.started(place, &run);
                Ok(())
            }
            Err(not_run) => Err(NotDone::Unstarted(not_run)),
        }
    }

    /// Runs each definition of which a run is due, one after another, whether or not others are done: why the last one wasn't that was not,
    /// if there is one.
    fn run_each<R: Wait>(
        &self,
        rt: &R,
        alloc: Global,
        viewer: &mut Viewer<J>,
        runs: &mut TriggerRuns,
    ) -> Result<(), NotDone>
        ensures each { EachInTurn (RunsOrStays (RunsToEnd (S.has_run self.now.starter.now)) self.now.root.now.path) viewer.old.list runs.old runs.new viewer.new.list }
        ensures ok { OnOk result (EachInTurn (RunsIfDue (RunsToEnd (S.has_run self.now.starter.now)) self.now.root.now.path) viewer.old.list runs.old runs.new viewer.new.list) }
    {
        let mut met = Ok(());
        for place in 0..runs.len() {
            if let Err(not_done) = self.run_at(rt, alloc, viewer, runs, place) {
                met = Err(not_done);
            }
        }
        met
    }

    /// A round: the runs of just these definitions are kept, and each of which a run is due is run, in their order. One that is refused is
    /// tried again with the next change.
    fn run_round<R: Wait>(
        &self,
        rt: &R,
        alloc: Global,
        viewer: &mut Viewer<J>,
        defined: &DefinedTriggers,
        runs: &mut TriggerRuns,
    ) -> Result<(), NotDone>
        ensures each { (runs.new ≡ runs.old) ⊎ EachInTurn (RunsOrStays (RunsToEnd (S.has_run self.now.starter.now)) self.now.root.now.path) viewer.old.list (map (kept_for runs.old) defined.now) runs.new viewer.new.list }
        ensures ok { OnOk result (EachInTurn (RunsIfDue (RunsToEnd (S.has_run self.now.starter.now)) self.now.root.now.path) viewer.old.list (map (kept_for runs.old) defined.now) runs.new viewer.new.list) }
    {
        if let Err(refusal) = runs.keep(alloc, defined) {
            return Err(NotDone::Refused(refusal));
        }
        self.run_each(rt, alloc, viewer, runs)
    }

    /// A round of the triggers that are defined now, once the viewer has caught up with what was published last. It begins with the runs
    /// that the last round left. `NoMemory` for the definitions.
    pub fn run_all<R: Wait>(
        &self,
        rt: &R,
        alloc: Global,
        viewer: &mut Viewer<J>,
        runs: &mut TriggerRuns,
    ) -> Result<(), NotDone>
        ensures each { (runs.new ≡ runs.old) ⊎ RunsDefined (RunsOrStays (RunsToEnd (S.has_run self.now.starter.now)) self.now.root.now.path) viewer.old.list runs.old runs.new viewer.new.list }
        ensures ok { OnOk result (RunsDefined (RunsIfDue (RunsToEnd (S.has_run self.now.starter.now)) self.now.root.now.path) viewer.old.list runs.old runs.new viewer.new.list) }
    {
        self.root.catch_up(rt, viewer);
        let Ok(defined) = self.root.defined(rt, alloc) else {
            return Err(NotDone::Refused(Refusal::NoMemory));
        };
        self.run_round(rt, alloc, viewer, &defined, runs)
    }
}
