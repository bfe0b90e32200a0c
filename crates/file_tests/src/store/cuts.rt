//! Stores whose disk fails, and closed ones.
use super::{Kept, checkpointed, had, open, open_bytes, opened, watch, watches, watching_one};
use crate::checks::check;
use crate::disks::content_of;
use crate::versions::{VERSIONS, formatted};
use std::alloc::Global;
use std::process::Abort;
use wm_disk::{Crashed, MemDisk, Refusal};
use wm_registry::Version;

/// Whether each call of the store is answered that it is down.
fn is_down(rt: &impl Abort, alloc: Global, store: &mut Kept) -> bool {
    let down = Err(Refusal::StoreFailed);
    let refused = watch(rt, alloc, store, &["/d"]) == Err(Refusal::StoreFailed);
    refused && store.checkpoint(alloc) == down && store.close() == down
}

/// A batch of three, and what is watched after each prefix of it.
const BATCH: &[&str] = &["/a", "/b", "/c"];

const FOUND: &[&[&str]] = &[&[], &["/a"], &["/a", "/b"], &["/a", "/b", "/c"]];

/// Whether the batch fails where the disk lets so many calls pass.
fn fails(rt: &impl Abort, alloc: Global, store: &mut Kept, passing: u64) -> bool {
    store.arm(passing);
    watch(rt, alloc, store, BATCH) == Err(Refusal::DeviceFailed)
}

/// Whether the batch fails so, has no effect on the registry, and leaves the store down.
fn goes_down(rt: &impl Abort, alloc: Global, store: &mut Kept, passing: u64) -> bool {
    let failed = fails(rt, alloc, store, passing);
    failed && store.registry().roots().is_empty() && is_down(rt, alloc, store)
}

/// Whether a next store on this disk has these roots.
fn is_found(rt: &impl Abort, alloc: Global, disk: MemDisk, roots: &[&str]) -> bool {
    let store = open(rt, alloc, disk);
    let is_found = watches(&store, roots);
    drop(store);
    is_found
}

/// How many device calls of the batch pass, and the roots that are then found.
type Stop = (u64, &'static [&'static str]);

/// Whether the store goes down so, and leaves these roots on the disk.
fn leaves(rt: &impl Abort, alloc: Global, version: Version, (passing, roots): Stop) -> bool {
    let mut store = opened(rt, alloc, version);
    let is_down = goes_down(rt, alloc, &mut store, passing);
    let is_found = is_found(rt, alloc, store.into_disk().stop(), roots);
    is_down && is_found
}

const STOPS: &[Stop] = &[
    (0, &[]),
    (1, &[]),
    (2, &[]),
    (3, &["/a"]),
    (4, &["/a", "/b"]),
    (5, &["/a", "/b", "/c"]),
];

/// Each of the stops has to leave its roots.
fn assert_leaves(rt: &impl Abort, alloc: Global, version: Version) {
    for row in STOPS {
        check!(rt; leaves(rt, alloc, version, *row), (version, row));
    }
}

/// A write and a sync, a write for each of the three gates, and a sync.
#[test]
fn finds_a_prefix_of_a_cut_batch(rt: HostRuntime) {
    for version in VERSIONS {
        assert_leaves(&rt, rt.alloc(), *version);
    }
}

/// What the crashes of [`MemDisk::new`] leave: its choices 0 to 3, and every other bit; of a file of version 2, which takes over
/// three times as long, half of them.
fn choices(version: Version) -> &'static [u64] {
    match version {
        Version::One => &[0, 1, 2, 3, 0x5555_5555_5555_5555, 0xaaaa_aaaa_aaaa_aaaa],
        Version::Two => &[0, 3, 0x5555_5555_5555_5555],
    }
}

/// Where a call is cut: behind so many of its device calls, by a crash that leaves what the choice says.
type Cut = (u64, u64);

/// Whether the store has at most so many commands of the batch, and a prefix of it.
fn has_prefix(store: &Kept, most: usize) -> bool {
    let count = store.registry().roots().len();
    match FOUND.get(count) {
        Some(found) => count <= most && watches(store, found),
        None => false,
    }
}

/// Whether a crash in the batch leaves at most so many of its commands, and a prefix of it.
fn begins(
    rt: &impl Abort,
    alloc: Global,
    content: &[u8],
    (passing, choice): Cut,
    most: usize,
) -> bool {
    let mut store = open_bytes(rt, alloc, choice, content);
    let failed = fails(rt, alloc, &mut store, passing);
    let store = open(rt, alloc, store.into_disk().crash());
    let has_prefix = has_prefix(&store, most);
    drop(store);
    failed && has_prefix
}

/// How many device calls pass, and how many commands are left at most. The gates are written one after the
/// other behind the first sync.
const CRASHES: &[(u64, usize)] = &[(0, 0), (1, 0), (2, 0), (3, 1), (4, 2), (5, 3)];

/// Each crash has to leave a prefix, in a file of this version.
fn assert_begins(rt: &impl Abort, alloc: Global, version: Version) {
    let content = content_of(rt, alloc, formatted(rt, alloc, version));
    for (passing, most) in CRASHES {
        for choice in choices(version) {
            let cut = (*passing, *choice);
            check!(rt; begins(rt, alloc, &content, cut, *most), (version, cut));
        }
    }
}

#[test]
fn finds_a_prefix_after_a_crash(rt: HostRuntime) {
    for version in VERSIONS {
        assert_begins(&rt, rt.alloc(), *version);
    }
}

/// Whether a checkpoint into a slot with an open gate is answered as it has to be and keeps the registry: four writes, three
/// syncs and a look at the length.
fn stays(alloc: Global, store: &mut Kept, passing: u64) -> bool {
    store.arm(passing);
    let answered = store.checkpoint(alloc).is_ok() == (passing >= 8);
    answered && watches(store, &["/r"])
}

/// Whether such a checkpoint keeps the registry, also in a next store on what a crash leaves.
fn keeps(rt: &impl Abort, alloc: Global, content: &[u8], (passing, choice): Cut) -> bool {
    let mut store = open_bytes(rt, alloc, choice, content);
    let stays = stays(alloc, &mut store, passing);
    let store = open(rt, alloc, store.into_disk().crash());
    let is_found = watches(&store, &["/r"]) && store.registry().incarnation() == 3;
    drop(store);
    stays && is_found
}

/// Each cut of a checkpoint of a file of this version has to leave the registry.
fn assert_keeps(rt: &impl Abort, alloc: Global, version: Version) {
    let content = checkpointed(rt, alloc, version);
    for passing in 0..9u64 {
        for choice in choices(version) {
            let cut = (passing, *choice);
            check!(rt; keeps(rt, alloc, &content, cut), (version, cut));
        }
    }
}

/// Before, within and after each of the device calls.
#[test]
fn keeps_its_registry_through_a_cut_checkpoint(rt: HostRuntime) {
    for version in VERSIONS {
        assert_keeps(&rt, rt.alloc(), *version);
    }
}

/// Whether the batch is answered with three commands accepted, and the roots are the batch's.
fn is_answered(rt: &impl Abort, alloc: Global, store: &mut Kept) -> bool {
    store.arm(6);
    watch(rt, alloc, store, BATCH) == Ok(3) && watches(store, BATCH)
}

/// Whether an answered batch outlasts a crash.
fn keeps_batch(rt: &impl Abort, alloc: Global, version: Version) -> bool {
    let mut store = opened(rt, alloc, version);
    let is_answered = is_answered(rt, alloc, &mut store);
    let is_found = is_found(rt, alloc, store.into_disk().crash(), BATCH);
    is_answered && is_found
}

#[test]
fn keeps_an_answered_batch(rt: HostRuntime) {
    for version in VERSIONS {
        check!(rt; keeps_batch(&rt, rt.alloc(), *version), version);
    }
}

/// Whether the store can be closed, is down then, and keeps its registry.
fn closes(rt: &impl Abort, alloc: Global, store: &mut Kept) -> bool {
    store.close() == Ok(()) && is_down(rt, alloc, store) && watches(store, &["/r"])
}

/// Whether a closed store made a sync beside a batch of one command, and its registry is found.
fn stays_closed(rt: &impl Abort, alloc: Global, version: Version) -> bool {
    let mut store = watching_one(rt, alloc, version);
    let is_closed = closes(rt, alloc, &mut store);
    let disk = store.into_disk();
    let is_counted = had(&disk, version, (2, 2 + 1, 0));
    let is_found = is_found(rt, alloc, disk.crash(), &["/r"]);
    is_closed && is_counted && is_found
}

#[test]
fn is_down_once_closed(rt: HostRuntime) {
    for version in VERSIONS {
        check!(rt; stays_closed(&rt, rt.alloc(), *version), version);
    }
}

/// Whether a failing last sync is told, and leaves the store down.
fn fails_to_close(rt: &impl Abort, alloc: Global, store: &mut Kept) -> bool {
    store.arm(0);
    store.close() == Err(Refusal::DeviceFailed) && is_down(rt, alloc, store)
}

/// Whether a store of a file of this version fails to close so.
fn fails_at_last(rt: &impl Abort, alloc: Global, version: Version) -> bool {
    let mut store = watching_one(rt, alloc, version);
    let fails = fails_to_close(rt, alloc, &mut store);
    drop(store);
    fails
}

#[test]
fn is_down_where_the_last_sync_fails(rt: HostRuntime) {
    for version in VERSIONS {
        check!(rt; fails_at_last(&rt, rt.alloc(), *version), version);
    }
}
