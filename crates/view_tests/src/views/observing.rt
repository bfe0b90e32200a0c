//! What an observation makes of a view, and how many pairs one may have.
use super::{Shown, exists_so, stands};
use crate::checks::check;
use crate::making::{Told, file, observe_at, pair, ready_with};
use std::alloc::Global;
use std::process::Abort;
use wm_disk::Refusal;
use wm_names::{Kind, Meta, RelPath};
use wm_view::{Known, Pairs, View};

/// What is told at once, and the newest tick and what has changed after tick 1 then.
type Observation = (Told, u64, &'static [Shown]);

const OBSERVATIONS: &[Observation] = &[
    (
        &[
            ("b", Some(1)),
            ("a", Some(5)),
            ("k", Some(1)),
            ("b", Some(3)),
        ],
        2,
        &[
            ("a", true, 5, (1, 10), (2, 20)),
            ("b", true, 3, (2, 20), (2, 20)),
        ],
    ),
    (&[("a", None), ("a", Some(2))], 1, &[]),
    (&[("k", Some(1))], 1, &[]),
    (&[("k", Some(2)), ("k", Some(1))], 1, &[]),
    (&[("z", None)], 1, &[]),
    (&[("z", Some(1)), ("z", None)], 1, &[]),
    (&[], 1, &[]),
    (
        &[
            ("x/a", Some(1)),
            ("x0", Some(1)),
            ("x", Some(1)),
            ("k", None),
            ("x.c", Some(1)),
        ],
        2,
        &[
            ("k", false, 1, (1, 10), (2, 20)),
            ("x", true, 1, (2, 20), (2, 20)),
            ("x.c", true, 1, (2, 20), (2, 20)),
            ("x/a", true, 1, (2, 20), (2, 20)),
            ("x0", true, 1, (2, 20), (2, 20)),
        ],
    ),
    (
        &[("k", None), ("k", Some(8))],
        2,
        &[("k", true, 8, (1, 10), (2, 20))],
    ),
];

/// Whether an observation of many pairs makes this of a view with `a` and `k`.
fn takes_so(rt: &impl Abort, alloc: Global, row: &Observation) -> bool {
    let (told, tick, shown) = *row;
    let mut view = ready_with(rt, alloc, &[("a", 2), ("k", 1)]);
    observe_at(rt, alloc, &mut view, 20, told);
    let is_so = stands(rt, alloc, &view, (tick, 0), 1, shown);
    drop(view);
    is_so
}

#[test]
fn takes_many_pairs_at_once(rt: HostRuntime) {
    for (i, row) in OBSERVATIONS.iter().enumerate() {
        check!(rt; takes_so(&rt, rt.alloc(), row), i);
    }
}

/// What is told of `a`, which was a regular file of one byte, and the tick then.
const METADATA: &[(Kind, u64, u64, u64)] = &[
    (Kind::File, 1, 0, 1),
    (Kind::File, 2, 0, 2),
    (Kind::File, 1, 1, 2),
    (Kind::Folder, 1, 0, 2),
];

/// What an observation of `a` alone makes of a view with it.
fn with_metadata(rt: &impl Abort, alloc: Global, meta: Meta) -> View {
    let mut view = ready_with(rt, alloc, &[("a", 1)]);
    let pairs = pair(rt, alloc, "a", Some(meta));
    view.observe(alloc, 20, &pairs).expect(rt, "an observation");
    drop(pairs);
    view
}

/// Whether one path is listed, with this metadata.
fn has_one(listed: &[(RelPath, Known)], meta: Meta) -> bool {
    match listed {
        [entry] => entry.1.meta() == meta,
        _ => false,
    }
}

/// Whether such an observation leads to this tick, and what it told is there then.
fn changes_so(rt: &impl Abort, alloc: Global, meta: Meta, tick: u64) -> bool {
    let view = with_metadata(rt, alloc, meta);
    let existing = view.existing(alloc).expect(rt, "memory");
    let is_so = view.tick() == tick && has_one(&existing, meta);
    drop(existing);
    drop(view);
    is_so
}

#[test]
fn changes_by_each_part_of_the_metadata(rt: HostRuntime) {
    for (kind, size, mtime_ms, tick) in METADATA {
        let meta = Meta {
            kind: *kind,
            size: *size,
            mtime_ms: *mtime_ms,
        };
        check!(rt; changes_so(&rt, rt.alloc(), meta, *tick), meta);
    }
}

/// So many pairs, the result of an observation of them, and the tick then.
const COUNTS: &[(u32, Result<(), Refusal>, u64)] = &[
    (65_537, Err(Refusal::TooMany), 1),
    (65_536, Ok(()), 2),
];

/// So many pairs of one path.
fn pairs_of_one_path(rt: &impl Abort, alloc: Global, count: u32) -> Pairs {
    let mut pairs = Vec::new(alloc);
    for _ in 0..count {
        let path = RelPath::read(alloc, "a").expect(rt, "a path");
        pairs.push((path, Some(file(1)))).expect(rt, "memory");
    }
    Pairs::new(pairs)
}

/// Whether an observation of so many pairs has this result, and leads to this tick.
fn takes_count(
    rt: &impl Abort,
    alloc: Global,
    view: &mut View,
    count: u32,
    wanted: Result<(), Refusal>,
    tick: u64,
) -> bool {
    let pairs = pairs_of_one_path(rt, alloc, count);
    let is_so_long = pairs.as_slice().len() == count as usize;
    let is_so = is_so_long && view.observe(alloc, 20, &pairs) == wanted && view.tick() == tick;
    drop(pairs);
    is_so
}

fn assert_counts(rt: &impl Abort, alloc: Global, view: &mut View) {
    for (count, result, tick) in COUNTS {
        check!(rt; takes_count(rt, alloc, view, *count, *result, *tick), count);
    }
    check!(rt; exists_so(rt, alloc, view, &[("a", true, 1, (2, 20), (2, 20))]));
}

#[test]
fn takes_so_many_pairs(rt: HostRuntime) {
    let mut view = ready_with(&rt, rt.alloc(), &[]);
    assert_counts(&rt, rt.alloc(), &mut view);
    drop(view);
}
