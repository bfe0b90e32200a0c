//! The worker that runs the triggers of a root with each of its changes.
//! Tests: serve_tests/src/triggers.rt.
use super::rounds::RootPrograms;
use std::alloc::Global;
use std::sync::Wait;
use wm_root::WatchedRoot;
use wm_share::{Naming, Viewer};
use wm_triggers::{Starter, TriggerRuns};

/// Runs the triggers with each change, until the root has ended. What a round refuses is tried again with the next change.
fn run_on_changes<R: Wait, J: Naming, K: Wait + Drop, S: Starter>(
    rt: &R,
    alloc: Global,
    root: &RootPrograms<'_, J, K, S>,
    viewer: &mut Viewer<J>,
) {
    let mut runs = TriggerRuns::new(alloc);
    let mut seen = None;
    for _ in rt.forever() {
        let Some(change) = root.root.next_change(rt, seen) else {
            return;
        };
        seen = Some(change);
        let _ran = root.run_all(rt, alloc, viewer, &mut runs);
    }
    unreachable!()
}

/// Waits until a root has ended.
fn await_end<R: Wait, J: Naming, K: Wait + Drop>(rt: &R, root: &WatchedRoot<J, K>) {
    let mut seen = None;
    for _ in rt.forever() {
        let Some(change) = root.next_change(rt, seen) else {
            return;
        };
        seen = Some(change);
    }
    unreachable!()
}

/// The worker that runs the triggers of a root, with a viewer of its own from its start on. If none is left then, it runs none.
pub fn run_triggers<R: Wait, J: Naming, K: Wait + Drop, S: Starter>(
    rt: &R,
    alloc: Global,
    root: &WatchedRoot<J, K>,
    starter: &S,
) {
    match root.acquire_viewer(rt) {
        Ok(mut viewer) => {
            let programs = RootPrograms { root, starter };
            run_on_changes(rt, alloc, &programs, &mut viewer);
            root.release_viewer(rt, viewer);
        }
        Err(_) => await_end(rt, root),
    }
}
