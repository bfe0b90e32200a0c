//! A start, a batch and a checkpoint that are cut at each of their device calls, and what a next start finds: after a crash
//! under each choice of what it leaves, or after a stop and a start that is cut as well. Two cuts are enough, since a cut
//! start leaves nothing that a first cut doesn't.
use super::{Kept, START_CALLS, checkpointed, open, watch, watches};
use crate::checks::check;
use crate::disks::disk_of;
use std::alloc::Global;
use std::process::Abort;
use wm_disk::{Crashed, MemDisk, Refusal};
use wm_registry::Version;
use wm_store::Store;

/// What is cut: the start of a store, or a call on it.
#[derive(Clone, Copy)]
enum Work {
    Start,
    Batch,
    Checkpoint,
}

/// What may be found on a disk: how many commands of the batch, and the incarnation that a next start begins.
#[derive(Clone, Copy, Debug)]
struct Found {
    least: usize,
    most: usize,
    first: u64,
    last: u64,
}

/// A disk behind a call, what may be found on it, and whether the call was cut.
#[derive(Drop)]
struct Left {
    disk: MemDisk,
    found: Found,
    is_cut: bool,
}

/// The batch, and what is watched after each prefix of it.
const BATCH: &[&str] = &["/a", "/b", "/c"];

const AFTER: &[&[&str]] = &[
    &["/r"],
    &["/r", "/a"],
    &["/r", "/a", "/b"],
    &["/r", "/a", "/b", "/c"],
];

/// What a file means that watches `/r` since its first start.
const BEFORE: Found = Found {
    least: 0,
    most: 0,
    first: 2,
    last: 2,
};

/// The choices of what a crash leaves: what was durable, what a read gives, two bytes in each written place, and
/// single bits. Of these a test takes a quarter, each fourth one, since all take some minutes.
fn choices(rt: &impl Abort, alloc: Global, quarter: u32) -> Vec<u64> {
    let mut choices = Vec::new(alloc);
    choices.push(u64::from(quarter)).expect(rt, "memory");
    for bit in 2..64u32 {
        if bit % 4 == quarter {
            choices.push(1 << bit).expect(rt, "memory");
        }
    }
    choices
}

/// A start where the disk lets so many calls pass: its `Begin` is found where it isn't cut, and perhaps where it is.
fn start(rt: &impl Abort, alloc: Global, mut disk: MemDisk, found: Found, passing: u64) -> Left {
    disk.arm(passing);
    let last = found.last.saturating_add(1);
    match Store::open(alloc, disk) {
        Ok(store) => Left {
            disk: store.into_disk(),
            found: Found {
                first: found.first.saturating_add(1),
                last,
                ..found
            },
            is_cut: false,
        },
        Err((refusal, disk)) => {
            check!(rt; refusal == Refusal::DeviceFailed);
            Left {
                disk,
                found: Found { last, ..found },
                is_cut: true,
            }
        }
    }
}

/// Whether the batch is cut where the disk lets so many calls pass. All of it is accepted where it isn't.
fn is_batch_cut(rt: &impl Abort, alloc: Global, store: &mut Kept, passing: u64) -> bool {
    store.arm(passing);
    let answer = watch(rt, alloc, store, BATCH);
    check!(rt; answer == Ok(BATCH.len()) || answer == Err(Refusal::DeviceFailed));
    answer.is_err()
}

/// A batch where the disk lets so many calls pass: all of it is found where it was answered, and perhaps a prefix where
/// it is cut.
fn batch(rt: &impl Abort, alloc: Global, disk: MemDisk, passing: u64) -> Left {
    let mut store = open(rt, alloc, disk);
    let is_cut = is_batch_cut(rt, alloc, &mut store, passing);
    Left {
        disk: store.into_disk(),
        found: Found {
            least: if is_cut { 0 } else { BATCH.len() },
            most: BATCH.len(),
            first: 3,
            last: 3,
        },
        is_cut,
    }
}

/// Whether a checkpoint is cut where the disk lets so many calls pass.
fn is_checkpoint_cut(rt: &impl Abort, alloc: Global, store: &mut Kept, passing: u64) -> bool {
    store.arm(passing);
    let answer = store.checkpoint(alloc);
    check!(rt; answer == Ok(()) || answer == Err(Refusal::DeviceFailed));
    answer.is_err()
}

/// A checkpoint where the disk lets so many calls pass, which changes nothing that is found.
fn checkpoint(rt: &impl Abort, alloc: Global, disk: MemDisk, passing: u64) -> Left {
    let mut store = open(rt, alloc, disk);
    let is_cut = is_checkpoint_cut(rt, alloc, &mut store, passing);
    Left {
        disk: store.into_disk(),
        found: Found {
            first: 3,
            last: 3,
            ..BEFORE
        },
        is_cut,
    }
}

/// The work on such a file, where the disk lets so many calls pass and crashes by this choice.
fn cut(
    rt: &impl Abort,
    alloc: Global,
    (content, work): (&[u8], Work),
    choice: u64,
    passing: u64,
) -> Left {
    let disk = disk_of(rt, alloc, choice, content);
    match work {
        Work::Start => start(rt, alloc, disk, BEFORE, passing),
        Work::Batch => batch(rt, alloc, disk, passing),
        Work::Checkpoint => checkpoint(rt, alloc, disk, passing),
    }
}

/// Whether the store has what may be found, with the root numbers that it took.
fn has(store: &Kept, found: Found) -> bool {
    let registry = store.registry();
    let count = registry.roots().len().saturating_sub(1);
    let Some(paths) = AFTER.get(count) else {
        return false;
    };
    let begun = registry.incarnation();
    let is_begun = found.first <= begun && begun <= found.last;
    let is_counted = found.least <= count && count <= found.most;
    let is_numbered = registry.next_root() == (count as u64).saturating_add(2);
    is_begun && is_counted && is_numbered && watches(store, paths)
}

/// Whether a crash of this disk leaves what may be found.
fn is_found(rt: &impl Abort, alloc: Global, left: Left) -> bool {
    let store = open(rt, alloc, left.disk.crash());
    let has = has(&store, left.found);
    drop(store);
    has
}

/// More device calls than any work here makes.
const MANY_CALLS: u64 = 20;

/// Cuts the work at each of its calls, each time with a crash under the choice, and tells how many calls it makes. None
/// where something else is found, or it is always cut.
fn crashed(rt: &impl Abort, alloc: Global, on: (&[u8], Work), choice: u64) -> Option<u64> {
    for passing in 0..MANY_CALLS {
        let left = cut(rt, alloc, on, choice, passing);
        let is_cut = left.is_cut;
        if !is_found(rt, alloc, left) {
            return None;
        }
        if !is_cut {
            return Some(passing);
        }
    }
    None
}

/// The same of a start behind the work, which is cut behind so many calls, by a stop.
fn stopped(
    rt: &impl Abort,
    alloc: Global,
    on: (&[u8], Work),
    choice: u64,
    passing: u64,
) -> Option<u64> {
    for next in 0..MANY_CALLS {
        let left = cut(rt, alloc, on, choice, passing);
        let left = start(rt, alloc, left.disk.stop(), left.found, next);
        let is_cut = left.is_cut;
        if !is_found(rt, alloc, left) {
            return None;
        }
        if !is_cut {
            return Some(next);
        }
    }
    None
}

/// Cuts the work, which makes so many calls, in each of these ways.
fn assert_found(rt: &impl Abort, alloc: Global, on: (&[u8], Work), calls: u64, choices: &[u64]) {
    for choice in choices {
        let crashed = crashed(rt, alloc, on, *choice);
        check!(rt; crashed == Some(calls), choice);
        for passing in 0..calls.saturating_add(1) {
            let stopped = stopped(rt, alloc, on, *choice, passing);
            check!(rt; stopped == Some(START_CALLS), (choice, passing));
        }
    }
}

/// Sweeps over the work on a file of version 1, which makes so many calls, under a quarter of the choices.
fn assert_sweeps(rt: &impl Abort, alloc: Global, work: Work, calls: u64, quarter: u32) {
    let content = checkpointed(rt, alloc, Version::One);
    let choices = choices(rt, alloc, quarter);
    assert_found(rt, alloc, (&content, work), calls, &choices);
}

/// Sweeps over the work on a file of version 2, which makes so many calls, under few choices: it takes over three times as long.
fn assert_sweeps_longer(rt: &impl Abort, alloc: Global, work: Work, calls: u64) {
    const CHOICES: &[u64] = &[3, 0x5555_5555_5555_5555];
    let content = checkpointed(rt, alloc, Version::Two);
    for choice in CHOICES {
        let crashed = crashed(rt, alloc, (&content, work), *choice);
        check!(rt; crashed == Some(calls), choice);
    }
    for passing in 0..calls.saturating_add(1) {
        let stopped = stopped(rt, alloc, (&content, work), CHOICES[1], passing);
        check!(rt; stopped == Some(START_CALLS), passing);
    }
}

#[test]
fn a_start_is_cut_at_each_call_first_quarter(rt: HostRuntime) {
    assert_sweeps(&rt, rt.alloc(), Work::Start, START_CALLS, 0);
}

#[test]
fn a_start_is_cut_at_each_call_second_quarter(rt: HostRuntime) {
    assert_sweeps(&rt, rt.alloc(), Work::Start, START_CALLS, 1);
}

#[test]
fn a_start_is_cut_at_each_call_third_quarter(rt: HostRuntime) {
    assert_sweeps(&rt, rt.alloc(), Work::Start, START_CALLS, 2);
}

#[test]
fn a_start_is_cut_at_each_call_fourth_quarter(rt: HostRuntime) {
    assert_sweeps(&rt, rt.alloc(), Work::Start, START_CALLS, 3);
}

#[test]
fn a_start_in_version_2_is_cut_at_each_call(rt: HostRuntime) {
    assert_sweeps_longer(&rt, rt.alloc(), Work::Start, START_CALLS);
}

/// A batch makes a write and a sync, three gates and a sync.
const BATCH_CALLS: u64 = 6;

#[test]
fn a_batch_is_cut_at_each_call_first_quarter(rt: HostRuntime) {
    assert_sweeps(&rt, rt.alloc(), Work::Batch, BATCH_CALLS, 0);
}

#[test]
fn a_batch_is_cut_at_each_call_second_quarter(rt: HostRuntime) {
    assert_sweeps(&rt, rt.alloc(), Work::Batch, BATCH_CALLS, 1);
}

#[test]
fn a_batch_is_cut_at_each_call_third_quarter(rt: HostRuntime) {
    assert_sweeps(&rt, rt.alloc(), Work::Batch, BATCH_CALLS, 2);
}

#[test]
fn a_batch_is_cut_at_each_call_fourth_quarter(rt: HostRuntime) {
    assert_sweeps(&rt, rt.alloc(), Work::Batch, BATCH_CALLS, 3);
}

#[test]
fn a_batch_in_version_2_is_cut_at_each_call(rt: HostRuntime) {
    assert_sweeps_longer(&rt, rt.alloc(), Work::Batch, BATCH_CALLS);
}

/// A checkpoint makes four writes and three syncs, and asks the length.
const CHECKPOINT_CALLS: u64 = 8;

#[test]
fn a_checkpoint_is_cut_at_each_call_first_quarter(rt: HostRuntime) {
    assert_sweeps(&rt, rt.alloc(), Work::Checkpoint, CHECKPOINT_CALLS, 0);
}

#[test]
fn a_checkpoint_is_cut_at_each_call_second_quarter(rt: HostRuntime) {
    assert_sweeps(&rt, rt.alloc(), Work::Checkpoint, CHECKPOINT_CALLS, 1);
}

#[test]
fn a_checkpoint_is_cut_at_each_call_third_quarter(rt: HostRuntime) {
    assert_sweeps(&rt, rt.alloc(), Work::Checkpoint, CHECKPOINT_CALLS, 2);
}

#[test]
fn a_checkpoint_is_cut_at_each_call_fourth_quarter(rt: HostRuntime) {
    assert_sweeps(&rt, rt.alloc(), Work::Checkpoint, CHECKPOINT_CALLS, 3);
}

#[test]
fn a_checkpoint_in_version_2_is_cut_at_each_call(rt: HostRuntime) {
    assert_sweeps_longer(&rt, rt.alloc(), Work::Checkpoint, CHECKPOINT_CALLS);
}
