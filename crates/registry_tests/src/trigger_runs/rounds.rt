//! The runs of a root's triggers from round to round.
use crate::checks::check;
use crate::trigger_runs::making;
use crate::trigger_runs::making::{defined, empty_view, has_files, named, named_for, observe};
use std::alloc::Global;
use std::process::Abort;
use wm_disk::Refusal;
use wm_triggers::{DefinedTriggers, Run, TriggerRuns};
use wm_view::View;

/// A view in which `a.c` and then `b.c` was observed: tick 2.
fn two_files(rt: &impl Abort, alloc: Global) -> View {
    let mut view = empty_view(rt, alloc, 1);
    observe(rt, alloc, &mut view, &[("a.c", Some(3)), ("b.c", Some(4))]);
    view
}

/// The runs of these definitions, of which none was started.
fn runs_of(rt: &impl Abort, alloc: Global, all: &DefinedTriggers) -> TriggerRuns {
    let mut runs = TriggerRuns::new(alloc);
    runs.keep(alloc, all).expect(rt, "a round");
    runs
}

/// The run that is due of the trigger at the place.
fn due(
    rt: &impl Abort,
    alloc: Global,
    runs: &TriggerRuns,
    place: usize,
    view: &View,
) -> Option<Run> {
    if place >= runs.len() {
        return None;
    }
    making::due(alloc, runs.at(place).runs(), view).expect(rt, "an answer")
}

/// Whether the run that is due at the place lists these files; none is due where there are no files.
fn is_due(
    rt: &impl Abort,
    alloc: Global,
    runs: &TriggerRuns,
    place: usize,
    view: &View,
    wanted: &[&str],
) -> bool {
    match due(rt, alloc, runs, place, view) {
        Some(run) => {
            let is_so = has_files(&run, wanted);
            drop(run);
            is_so
        }
        None => wanted.is_empty(),
    }
}

/// The run that is due at the place is started.
fn start(rt: &impl Abort, alloc: Global, runs: &mut TriggerRuns, place: usize, view: &View) {
    let run = due(rt, alloc, runs, place, view).expect(rt, "a run");
    if place < runs.len() {
        runs.started(place, &run);
    }
    drop(run);
}

/// Whether the trigger at the place has this name and number.
fn is_at(runs: &TriggerRuns, place: usize, name: &str, number: u64) -> bool {
    place < runs.len()
        && runs.at(place).trigger().name() == name
        && runs.at(place).number() == number
}

/// Deletes `t` and defines it anew with the same words, and keeps the runs.
fn define_anew(
    rt: &impl Abort,
    alloc: Global,
    all: &mut DefinedTriggers,
    runs: &mut TriggerRuns,
    number: u64,
) {
    all.remove("t");
    all.define(number, named(rt, alloc, "t"))
        .expect(rt, "memory");
    runs.keep(alloc, all).expect(rt, "a round");
}

/// Asserts that a trigger which was deleted and defined anew with the same words has a first run, with all files, and that one
/// which just stays has none.
fn begin_anew(rt: &impl Abort, alloc: Global, all: &mut DefinedTriggers, runs: &mut TriggerRuns) {
    let view = two_files(rt, alloc);
    start(rt, alloc, runs, 0, &view);
    runs.keep(alloc, all).expect(rt, "a round");
    check!(rt; is_due(rt, alloc, runs, 0, &view, &[]));
    define_anew(rt, alloc, all, runs, 5);
    check!(rt; is_at(runs, 0, "t", 5));
    check!(rt; is_due(rt, alloc, runs, 0, &view, &["b.c", "a.c"]));
    drop(view);
}

#[test]
fn defined_anew_with_the_same_words_has_a_first_run(rt: HostRuntime) {
    let alloc = rt.alloc();
    let mut all = defined(&rt, alloc, &[("t", 3)]);
    let mut runs = runs_of(&rt, alloc, &all);
    begin_anew(&rt, alloc, &mut all, &mut runs);
    drop(runs);
    drop(all);
}

/// Asserts that the runs of `t` and of `u` stand behind one another, the first of which has run until tick 2, and the
/// other one until tick 3.
fn see_clocks(rt: &impl Abort, alloc: Global, runs: &TriggerRuns, view: &View) {
    check!(rt; is_at(runs, 0, "t", 1) && is_at(runs, 1, "u", 2));
    check!(rt; is_due(rt, alloc, runs, 0, view, &["d.c", "c.c"]));
    check!(rt; is_due(rt, alloc, runs, 1, view, &["d.c"]));
}

/// The view after the trigger at place 0 ran at tick 2 and that at place 1 at tick 3.
fn run_both(rt: &impl Abort, alloc: Global, runs: &mut TriggerRuns) -> View {
    let mut view = two_files(rt, alloc);
    start(rt, alloc, runs, 0, &view);
    observe(rt, alloc, &mut view, &[("c.c", Some(1))]);
    start(rt, alloc, runs, 1, &view);
    observe(rt, alloc, &mut view, &[("d.c", Some(1))]);
    view
}

/// Asserts that a round which is refused keeps each run and each clock.
fn refuse(rt: &impl Abort, alloc: Global, all: &mut DefinedTriggers, runs: &mut TriggerRuns) {
    let view = run_both(rt, alloc, runs);
    see_clocks(rt, alloc, runs, &view);
    // behind `t`, whose runs the round has kept already
    all.define(7, named_for(rt, alloc, "u", "[\"never\"]"))
        .expect(rt, "memory");
    let refused = runs.keep(alloc, all).err();
    check!(rt; refused == Some(Refusal::BadExpression));
    check!(rt; runs.len() == 2);
    see_clocks(rt, alloc, runs, &view);
    drop(view);
}

#[test]
fn a_refused_round_keeps_every_clock(rt: HostRuntime) {
    let alloc = rt.alloc();
    let mut all = defined(&rt, alloc, &[("t", 1), ("u", 2)]);
    let mut runs = runs_of(&rt, alloc, &all);
    refuse(&rt, alloc, &mut all, &mut runs);
    drop(runs);
    drop(all);
}

/// Asserts that a round keeps every clock, whether it finds memory or not, and that it is refused for memory alone.
fn keep_by_chance(rt: &impl Abort, alloc: Global, all: &DefinedTriggers, runs: &mut TriggerRuns) {
    let view = run_both(rt, alloc, runs);
    let refused = runs.keep(alloc, all).err();
    check!(rt; refused.is_none() || refused == Some(Refusal::NoMemory));
    check!(rt; runs.len() == 2);
    see_clocks(rt, alloc, runs, &view);
    drop(view);
}

/// Definitions of `t` and `u` for files of C, whose expressions take memory in each round.
fn with_expressions(rt: &impl Abort, alloc: Global) -> DefinedTriggers {
    let mut all = defined(rt, alloc, &[]);
    for (name, number) in [("t", 1), ("u", 2)] {
        let trigger = named_for(rt, alloc, name, "[\"suffix\",\"c\"]");
        all.define(number, trigger).expect(rt, "memory");
    }
    all
}

// Memory is ample here. Where one growth after another is refused (tools/try/refuse_growth.c), some of them are the round's.
#[test]
fn a_round_without_memory_keeps_every_clock(rt: HostRuntime) {
    let alloc = rt.alloc();
    let all = with_expressions(&rt, alloc);
    let mut runs = runs_of(&rt, alloc, &all);
    keep_by_chance(&rt, alloc, &all, &mut runs);
    drop(runs);
    drop(all);
}

/// Asserts that the others keep their clocks, in the order of their definitions, where one goes and one comes.
fn go_on(rt: &impl Abort, alloc: Global, all: &mut DefinedTriggers, runs: &mut TriggerRuns) {
    let view = run_both(rt, alloc, runs);
    all.remove("t");
    all.define(9, named(rt, alloc, "v")).expect(rt, "memory");
    runs.keep(alloc, all).expect(rt, "a round");
    check!(rt; runs.len() == 2 && is_at(runs, 0, "u", 2) && is_at(runs, 1, "v", 9));
    check!(rt; is_due(rt, alloc, runs, 0, &view, &["d.c"]));
    check!(rt; is_due(rt, alloc, runs, 1, &view, &["d.c", "c.c", "b.c", "a.c"]));
    drop(view);
}

#[test]
fn the_others_keep_their_clocks(rt: HostRuntime) {
    let alloc = rt.alloc();
    let mut all = defined(&rt, alloc, &[("t", 1), ("u", 2)]);
    let mut runs = runs_of(&rt, alloc, &all);
    go_on(&rt, alloc, &mut all, &mut runs);
    drop(runs);
    drop(all);
}
