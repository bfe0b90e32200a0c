//! Which run of a trigger is due.
use crate::checks::check;
use crate::trigger_runs::making::{
    answer_with, due, empty_view, has_files, observe, run_of, run_with, runs_for, trigger_for,
};
use std::alloc::Global;
use std::process::Abort;
use wm_disk::Refusal;
use wm_since::answer;
use wm_triggers::{Run, TriggerRun};
use wm_view::View;

/// A view in which `a.c` and then `b.c` was observed, and `b.c` once more as it was: tick 3.
fn two_files(rt: &impl Abort, alloc: Global) -> View {
    let mut view = empty_view(rt, alloc, 1);
    observe(
        rt,
        alloc,
        &mut view,
        &[("a.c", Some(3)), ("b.c", Some(4)), ("b.c", Some(4))],
    );
    view
}

/// Whether a run is due with these files, at this tick and fresh or not; none where there are no
/// files.
fn is_due(
    rt: &impl Abort,
    alloc: Global,
    runs: &TriggerRun,
    view: &View,
    wanted: &[&str],
    tick: u64,
    fresh: bool,
) -> bool {
    match due(alloc, runs, view).expect(rt, "an answer") {
        Some(run) => {
            let is_so = has_files(&run, wanted) && run.clock().tick == tick && run.fresh() == fresh;
            drop(run);
            is_so
        }
        None => wanted.is_empty(),
    }
}

/// The run that is due.
fn due_run(rt: &impl Abort, alloc: Global, runs: &TriggerRun, view: &View) -> Run {
    let run = due(alloc, runs, view).expect(rt, "an answer");
    run.expect(rt, "a run")
}

/// The program of the run that is due is started.
fn start(rt: &impl Abort, alloc: Global, view: &View, runs: &mut TriggerRun) {
    let run = due_run(rt, alloc, runs, view);
    runs.started(&run);
    drop(run);
}

/// Whether a copy of the run has its clock and these files, and is fresh.
fn is_copied(rt: &impl Abort, alloc: Global, run: &Run, wanted: &[&str]) -> bool {
    let copy = run.copy(alloc).expect(rt, "memory");
    let is_copied = has_files(&copy, wanted) && copy.clock() == run.clock() && copy.fresh();
    drop(copy);
    is_copied
}

/// Asserts that the run is the first one over the two files.
fn see_first_run(rt: &impl Abort, alloc: Global, run: &Run) {
    check!(rt; has_files(run, &["b.c", "a.c"]));
    let clock = run.clock();
    check!(rt; clock.incarnation == 1 && clock.root == 1 && clock.tick == 3);
    check!(rt; is_copied(rt, alloc, run, &["b.c", "a.c"]));
}

/// The run that the trigger asks for, which was never run.
fn asked_run(rt: &impl Abort, alloc: Global, view: &View, runs: &TriggerRun) -> Run {
    let query = runs.ask(alloc).expect(rt, "a query");
    check!(rt; query.since.is_none() && !query.empty_on_fresh);
    let answer = answer(alloc, view, &query).expect(rt, "an answer");
    drop(query);
    run_of(rt, runs, answer)
}

/// Asserts that a run for the two files is due, and that the trigger asks for just that.
fn ask_for_run(rt: &impl Abort, alloc: Global, view: &View, runs: &TriggerRun) {
    check!(rt; is_due(rt, alloc, runs, view, &["b.c", "a.c"], 3, true));
    let run = asked_run(rt, alloc, view, runs);
    see_first_run(rt, alloc, &run);
    drop(run);
}

#[test]
fn due_is_run(rt: HostRuntime) {
    let alloc = rt.alloc();
    let view = two_files(&rt, alloc);
    let runs = runs_for(&rt, alloc, None);
    ask_for_run(&rt, alloc, &view, &runs);
    drop(runs);
    drop(view);
}

/// Whether the first file of the run that is due is gone.
fn lists_a_deletion(rt: &impl Abort, alloc: Global, runs: &TriggerRun, view: &View) -> bool {
    let run = due_run(rt, alloc, runs, view);
    let is_gone = !run.files()[0].entry.exists;
    drop(run);
    is_gone
}

/// Asserts that a run behind the first one lists what changed since.
fn tell_changes(rt: &impl Abort, alloc: Global, view: &mut View, runs: &mut TriggerRun) {
    start(rt, alloc, view, runs);
    check!(rt; is_due(rt, alloc, runs, view, &[], 3, false));
    observe(rt, alloc, view, &[("c.c", Some(1)), ("a.c", None)]);
    check!(rt; is_due(rt, alloc, runs, view, &["a.c", "c.c"], 5, false));
    check!(rt; lists_a_deletion(rt, alloc, runs, view));
}

#[test]
fn tells_what_changed_since_the_last_run(rt: HostRuntime) {
    let alloc = rt.alloc();
    let mut view = two_files(&rt, alloc);
    let mut runs = runs_for(&rt, alloc, None);
    tell_changes(&rt, alloc, &mut view, &mut runs);
    drop(runs);
    drop(view);
}

/// Asserts that what a run that wasn't started was to list is listed by the next one, of the first runs as of
/// later ones.
fn list_again(rt: &impl Abort, alloc: Global, view: &mut View, runs: &mut TriggerRun) {
    for _ in 0..2 {
        check!(rt; is_due(rt, alloc, runs, view, &["b.c", "a.c"], 3, true));
    }
    start(rt, alloc, view, runs);
    observe(rt, alloc, view, &[("c.c", Some(1))]);
    check!(rt; is_due(rt, alloc, runs, view, &["c.c"], 4, false));
    observe(rt, alloc, view, &[("d.c", Some(1))]);
    check!(rt; is_due(rt, alloc, runs, view, &["d.c", "c.c"], 5, false));
}

#[test]
fn lists_again_what_was_not_started(rt: HostRuntime) {
    let alloc = rt.alloc();
    let mut view = two_files(&rt, alloc);
    let mut runs = runs_for(&rt, alloc, None);
    list_again(&rt, alloc, &mut view, &mut runs);
    drop(runs);
    drop(view);
}

/// The view of a later incarnation, in which `a.c` was observed.
fn view_after_restart(rt: &impl Abort, alloc: Global) -> View {
    let mut view = empty_view(rt, alloc, 2);
    observe(rt, alloc, &mut view, &[("a.c", Some(3))]);
    view
}

/// A trigger whose last run was one for `a.c`.
fn runs_with_a_start(rt: &impl Abort, alloc: Global) -> TriggerRun {
    let run = run_with(rt, alloc, &["a.c"]);
    let mut runs = runs_for(rt, alloc, None);
    runs.started(&run);
    drop(run);
    runs
}

#[test]
fn begins_anew_after_a_restart(rt: HostRuntime) {
    let alloc = rt.alloc();
    let runs = runs_with_a_start(&rt, alloc);
    let view = view_after_restart(&rt, alloc);
    check!(rt; is_due(&rt, alloc, &runs, &view, &["a.c"], 2, true));
    drop(view);
    drop(runs);
}

/// Whether no run is due by a view of no files.
fn is_idle(rt: &impl Abort, alloc: Global, runs: &TriggerRun) -> bool {
    let view = empty_view(rt, alloc, 1);
    let run = due(alloc, runs, &view).expect(rt, "an answer");
    drop(view);
    let is_idle = run.is_none();
    drop(run);
    is_idle
}

/// Whether an answer of no files makes no run.
fn has_no_run(rt: &impl Abort, alloc: Global, runs: &TriggerRun) -> bool {
    let answer = answer_with(rt, alloc, &[]);
    let run = runs.run_of(answer);
    let has_none = run.is_none();
    drop(run);
    has_none
}

/// How a view that isn't ready is refused.
fn refusal(alloc: Global, runs: &TriggerRun) -> Option<Refusal> {
    let view = View::new(alloc, 1, 1);
    let refused = due(alloc, runs, &view).err();
    drop(view);
    refused
}

#[test]
fn has_no_run_without_files(rt: HostRuntime) {
    let alloc = rt.alloc();
    let runs = runs_for(&rt, alloc, None);
    check!(rt; is_idle(&rt, alloc, &runs));
    check!(rt; has_no_run(&rt, alloc, &runs));
    check!(rt; refusal(alloc, &runs) == Some(Refusal::NotReady));
    drop(runs);
}

/// Asserts that the runs of a trigger for `a.c` alone list no other file.
fn tell_a(rt: &impl Abort, alloc: Global, view: &mut View, runs: &mut TriggerRun) {
    check!(rt; is_due(rt, alloc, runs, view, &["a.c"], 3, true));
    start(rt, alloc, view, runs);
    observe(rt, alloc, view, &[("b.c", Some(9))]);
    check!(rt; is_due(rt, alloc, runs, view, &[], 4, false));
}

#[test]
fn tells_the_files_of_the_expression(rt: HostRuntime) {
    let alloc = rt.alloc();
    let mut view = two_files(&rt, alloc);
    let mut runs = runs_for(&rt, alloc, Some("[\"name\",\"a.c\"]"));
    tell_a(&rt, alloc, &mut view, &mut runs);
    drop(runs);
    drop(view);
}

#[test]
fn refuses_a_text_that_is_no_expression(rt: HostRuntime) {
    let alloc = rt.alloc();
    for text in ["", "[\"suffix\",", "[\"suffix\"]", "\"never\"", "7"] {
        let trigger = trigger_for(&rt, alloc, Some(text));
        let refused = TriggerRun::new(alloc, &trigger).err();
        drop(trigger);
        check!(rt; refused == Some(Refusal::BadExpression), text);
    }
}
