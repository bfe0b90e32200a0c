//! How long a batch is held back.
use crate::checks::check;
use wm_feed::{Batch, Burst};
use wm_names::RelPath;

/// Five batches in a row, answered at 100, 101, 102, 103 and 104.
fn five() -> Burst {
    let mut burst = Burst::new();
    for now in 100..105 {
        burst.count(now, false);
        burst.answer(now);
    }
    burst
}

/// Moments, whether a client waits, whether anything came, and how long it is held back behind five in a row.
const HELD: &[(u64, bool, bool, u64)] = &[
    (104, false, true, 3),
    (106, false, true, 1),
    (107, false, true, 0),
    (9_000, false, true, 0),
    (104, true, true, 0),
    (104, false, false, 0),
];

#[test]
fn many_in_a_row(rt: HostRuntime) {
    let alloc = rt.alloc();
    let nothing = Batch::new(alloc);
    let mut batch = Batch::new(alloc);
    let path = RelPath::read(alloc, "x").expect(&rt, "a path");
    batch.add_folder(&path).expect(&rt, "memory");
    let mut first = Burst::new();
    for now in 100..104 {
        check!(rt; first.held_back(now, false, &batch) == 0, now);
        first.count(now, false);
        first.answer(now);
    }
    check!(rt; first.held_back(104, false, &batch) == 0);
    let burst = five();
    for (now, is_awaited, is_any, wanted) in HELD {
        let gathered = if *is_any { &batch } else { &nothing };
        check!(rt; burst.held_back(*now, *is_awaited, gathered) == *wanted, now);
    }
    let mut later = five();
    later.count(109, false);
    check!(rt; later.held_back(104, false, &batch) == 0);
    let mut next = five();
    next.count(108, false);
    check!(rt; next.held_back(104, false, &batch) == 3);
    next.count(108, true);
    check!(rt; next.held_back(104, false, &batch) == 0);
}
