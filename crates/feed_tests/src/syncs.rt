//! When syncs are released: which watches reported them, and what the server has answered.
use crate::checks::check;
use std::alloc::Global;
use std::process::Abort;
use wm_feed::{Batch, Checks, Orphans, Syncs};
use wm_names::RelPath;

/// Syncs that these watches reported once the first crawl was answered, with nothing in front of them.
fn told(rt: &impl Abort, alloc: Global, pairs: &[(&str, u64)]) -> Syncs {
    let mut syncs = Syncs::new(alloc);
    syncs.answer();
    let nothing = Batch::new(alloc);
    for (name, watch) in pairs {
        syncs
            .told(alloc, name, *watch, &nothing)
            .expect(rt, "memory");
    }
    syncs
}

fn ready(rt: &impl Abort, alloc: Global, syncs: &Syncs, watches: &[u64]) -> String {
    let mut text = String::new(alloc);
    for name in &syncs.ready(alloc, watches).expect(rt, "memory") {
        text.push_str(name.as_str()).expect(rt, "memory");
        text.push(' ').expect(rt, "memory");
    }
    text
}

/// What was told by which watches, the watches of the root, and what is ready.
const READY: &[(&[(&str, u64)], &[u64], &str)] = &[
    (&[], &[1], ""),
    (&[("a", 1)], &[1], "a "),
    (&[("a", 1)], &[1, 2], ""),
    (&[("a", 1), ("a", 2)], &[1, 2], "a "),
    (&[("a", 2), ("a", 1), ("a", 2)], &[2, 1, 2], "a "),
    (&[("a", 1), ("b", 2)], &[1, 2], ""),
    (
        &[("b", 1), ("a", 1), ("a", 2), ("c", 2), ("b", 2)],
        &[1, 2],
        "b a ",
    ),
    // a watch that ended is asked no longer, and one of another root never
    (&[("a", 1), ("a", 3)], &[3], "a "),
    (&[("a", 1), ("a", 3)], &[2], ""),
    (&[("a", 1)], &[], ""),
];

#[test]
fn ready_of_the_table(rt: HostRuntime) {
    let alloc = rt.alloc();
    for (pairs, watches, wanted) in READY {
        let syncs = told(&rt, alloc, pairs);
        let is = ready(&rt, alloc, &syncs, watches);
        check!(rt; is.as_str() == *wanted, (pairs, watches, is));
    }
}

#[test]
fn forgets_what_was_released(rt: HostRuntime) {
    let alloc = rt.alloc();
    let mut syncs = told(&rt, alloc, &[("a", 1), ("b", 1), ("a", 2)]);
    let names = syncs.ready(alloc, &[1, 2]).expect(&rt, "memory");
    syncs.forget(&names);
    check!(rt; syncs.are_any());
    check!(rt; ready(&rt, alloc, &syncs, &[1]).as_str() == "b ");
    let names = syncs.ready(alloc, &[1]).expect(&rt, "memory");
    syncs.forget(&names);
    check!(rt; !syncs.are_any());
}

#[test]
fn keeps_few(rt: HostRuntime) {
    let alloc = rt.alloc();
    let mut syncs = Syncs::new(alloc);
    syncs.answer();
    let nothing = Batch::new(alloc);
    for watch in 0..4_096 {
        syncs
            .told(alloc, "a", watch, &nothing)
            .expect(&rt, "memory");
    }
    syncs.told(alloc, "b", 7, &nothing).expect(&rt, "memory");
    syncs
        .told(alloc, "a", 4_095, &nothing)
        .expect(&rt, "memory");
    check!(rt; ready(&rt, alloc, &syncs, &[7]).as_str() == "a ");
    let names = syncs.ready(alloc, &[0]).expect(&rt, "memory");
    syncs.forget(&names);
    syncs.told(alloc, "b", 7, &nothing).expect(&rt, "memory");
    check!(rt; ready(&rt, alloc, &syncs, &[7]).as_str() == "b ");
}

/// What happens to a feed.
#[derive(Clone, Copy, Debug)]
enum Step {
    /// Something comes that is to be sent.
    Came,
    /// What came is sent.
    Sent,
    /// The server has answered what was sent last.
    Answered,
    /// The server was away.
    Lost,
    /// The sync `a` is reported.
    Told,
}

use Step::{Answered, Came, Lost, Sent, Told};

/// What happens, and whether the sync is ready then.
const STEPS: &[(&[Step], bool)] = &[
    // the crawl by which a feed begins isn't answered
    (&[Told], false),
    (&[Told, Answered], true),
    (&[Answered, Told], true),
    // behind a batch
    (&[Answered, Came, Told], false),
    (&[Answered, Came, Told, Sent], false),
    (&[Answered, Came, Told, Sent, Answered], true),
    (&[Answered, Came, Sent, Told], false),
    (&[Answered, Came, Sent, Told, Answered], true),
    (&[Answered, Came, Sent, Came, Told, Answered], false),
    // what comes later doesn't hold it back
    (&[Answered, Told, Came], true),
    (&[Answered, Told, Came, Sent], true),
    (&[Answered, Told, Lost], false),
    (&[Answered, Lost, Told], false),
    (&[Answered, Told, Lost, Sent, Answered], true),
];

#[test]
fn behind_batches(rt: HostRuntime) {
    let alloc = rt.alloc();
    let path = RelPath::read(alloc, "x").expect(&rt, "a path");
    for (steps, is_ready) in STEPS {
        let mut syncs = Syncs::new(alloc);
        let mut gathered = Batch::new(alloc);
        for step in *steps {
            match step {
                Came => gathered.add_folder(&path).expect(&rt, "memory"),
                Sent => {
                    gathered = Batch::new(alloc);
                    syncs.send();
                }
                Answered => syncs.answer(),
                Lost => syncs.lose(),
                Told => syncs.told(alloc, "a", 1, &gathered).expect(&rt, "memory"),
            }
        }
        let wanted = if *is_ready { "a " } else { "" };
        check!(rt; ready(&rt, alloc, &syncs, &[1]).as_str() == wanted, steps);
    }
}

#[test]
fn released_once_all_is_certain(rt: HostRuntime) {
    let alloc = rt.alloc();
    let syncs = told(&rt, alloc, &[("a", 1)]);
    let mut checks = Checks::all(alloc);
    let mut orphans = Orphans::new(alloc);
    let none = syncs.released(alloc, &[1], &checks, &orphans, false);
    check!(rt; none.expect(&rt, "memory").is_empty());
    checks.clear();
    let released = syncs.released(alloc, &[1], &checks, &orphans, false);
    check!(rt; released.expect(&rt, "memory").len() == 1);
    let moved = syncs.released(alloc, &[1], &checks, &orphans, true);
    check!(rt; moved.expect(&rt, "memory").is_empty());
    let name = RelPath::read(alloc, "o").expect(&rt, "a path");
    orphans.add(name).expect(&rt, "memory");
    let none = syncs.released(alloc, &[1], &checks, &orphans, false);
    check!(rt; none.expect(&rt, "memory").is_empty());
}

#[test]
fn forgets_what_was_withdrawn(rt: HostRuntime) {
    let alloc = rt.alloc();
    let mut syncs = told(&rt, alloc, &[("a", 1), ("b", 1), ("a", 2), ("c", 2)]);
    let names = told(&rt, alloc, &[("b", 1), ("x", 1)])
        .ready(alloc, &[1])
        .expect(&rt, "memory");
    syncs.keep(&names);
    check!(rt; ready(&rt, alloc, &syncs, &[1]).as_str() == "b ");
    check!(rt; ready(&rt, alloc, &syncs, &[2]).as_str() == "");
}
