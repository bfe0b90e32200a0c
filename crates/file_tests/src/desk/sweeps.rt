//! Four threads at a desk whose device fails from some call on: what was answered is found behind each crash and each stop,
//! and what was refused as no longer asked of the device isn't.
use crate::checks::check;
use crate::desk::desks::{Kept, desk_over, flush_for, refusal_of, watch};
use crate::store::open;
use crate::versions::formatted_with;
use std::alloc::Global;
use std::process::Abort;
use std::sync::Wait;
use std::thread::{Threads, join};
use wm_disk::{Crashed, Disk, MemDisk, Refusal};
use wm_registry::Version;
use wm_store::Store;

/// What each thread watches.
const PATHS: [&str; 4] = ["/a", "/b", "/c", "/d"];

/// What each thread is refused.
type Refusals = [Option<Refusal>; 4];

/// Four groups of one command make the most device calls: a write, a sync, a gate and a sync each.
const MOST_CALLS: u64 = 16;

/// A start behind a stop makes at most so many device calls.
const START_CALLS: u64 = 7;

/// The choices of what a crash leaves: what was durable, what a read gives, two bytes in each written place, and
/// single bits. Of these a test takes a quarter, each fourth one, since all take half a minute.
fn choices(rt: &impl Abort, alloc: Global, quarter: u32) -> Vec<u64> {
    let mut choices = Vec::new(alloc);
    choices.push(u64::from(quarter)).expect(rt, "memory");
    for bit in 2..64u32 {
        if bit % 4 == quarter {
            choices.push(1 << bit).expect(rt, "memory");
        }
    }
    choices
}

/// A desk over a store on a new file of this version, on a disk that lets so many calls pass.
fn faulty(rt: &impl Abort, alloc: Global, version: Version, choice: u64, passing: u64) -> Kept {
    let mut store = open(rt, alloc, formatted_with(rt, alloc, version, choice));
    store.arm(passing);
    desk_over(rt, alloc, store)
}

fn pair<R: Threads + Wait + Abort + Sync>(
    rt: &R,
    alloc: Global,
    desk: &Kept,
    paths: (&'static str, &'static str),
) -> [Option<Refusal>; 2] {
    let (first, second) = paths;
    let (a, b) = join(
        rt,
        move || refusal_of(rt, desk, watch(rt, alloc, first)),
        move || refusal_of(rt, desk, watch(rt, alloc, second)),
    );
    [a, b]
}

fn four<R: Threads + Wait + Abort + Sync>(rt: &R, alloc: Global, desk: &Kept) -> Refusals {
    let ([a, b], [c, d]) = join(
        rt,
        move || pair(rt, alloc, desk, ("/a", "/b")),
        move || pair(rt, alloc, desk, ("/c", "/d")),
    );
    [a, b, c, d]
}

/// What may be found of a command: of one that was answered, of one that the device failed, and of one behind it.
fn may_be(refused: Option<Refusal>, is_found: bool) -> bool {
    match refused {
        None => is_found,
        Some(Refusal::DeviceFailed) => true,
        Some(Refusal::StoreFailed) => !is_found,
        Some(_) => false,
    }
}

/// Whether a start on this disk finds what may be found.
fn finds(rt: &impl Abort, alloc: Global, disk: MemDisk, refusals: &Refusals) -> bool {
    let store = open(rt, alloc, disk);
    let holds = holds(&store, refusals);
    drop(store);
    holds
}

/// Whether the store watches what may be found.
fn holds(store: &Store<MemDisk>, refusals: &Refusals) -> bool {
    let roots = store.registry().roots();
    refusals.iter().zip(&PATHS).all(|(refused, path)| {
        may_be(
            *refused,
            roots.iter().any(|(root, _)| root.as_str() == *path),
        )
    })
}

/// What ends a store.
#[derive(Clone, Copy)]
enum End {
    Crash,
    /// A stop, and behind it a start of which so many device calls pass before a crash.
    Stop(u64),
}

/// The disk behind a start of which so many calls pass.
fn started(alloc: Global, mut disk: MemDisk, passing: u64) -> MemDisk {
    disk.arm(passing);
    match Store::open(alloc, disk) {
        Ok(store) => store.into_disk(),
        Err((_, disk)) => disk,
    }
}

/// The version of a file, what the crashes of its disk leave, and what ends its store.
type Case = (Version, u64, End);

/// Four threads on a disk that lets so many calls pass: whether a start behind the end finds what may be found, and whether
/// any thread was refused.
fn cut<R: Threads + Wait + Abort + Sync>(
    rt: &R,
    alloc: Global,
    (version, choice, end): Case,
    passing: u64,
) -> Option<bool> {
    let desk = faulty(rt, alloc, version, choice, passing);
    let shared = &desk;
    let (count, refusals) = join(rt, || flush_for(rt, shared, 4), || four(rt, alloc, shared));
    let disk = desk.into_store().into_disk();
    let disk = match end {
        End::Crash => disk.crash(),
        End::Stop(calls) => started(alloc, disk.stop(), calls).crash(),
    };
    let is_found = finds(rt, alloc, disk, &refusals);
    if count != 4 || !is_found {
        return None;
    }
    Some(refusals.iter().any(|refused| refused.is_some()))
}

/// Whether each device call in turn may be the first that fails. Behind the last of them nothing is refused.
fn stands<R: Threads + Wait + Abort + Sync>(rt: &R, alloc: Global, case: Case) -> bool {
    for passing in 0..MOST_CALLS + 1 {
        let Some(is_cut) = cut(rt, alloc, case, passing) else {
            return false;
        };
        if passing < 7 && !is_cut || passing == MOST_CALLS && is_cut {
            return false;
        }
    }
    true
}

/// They have to be found under a quarter of the choices, in a file of version 1.
fn assert_found<R: Threads + Wait + Abort + Sync>(rt: &R, alloc: Global, quarter: u32) {
    for choice in &choices(rt, alloc, quarter) {
        let case = (Version::One, *choice, End::Crash);
        check!(rt; stands(rt, alloc, case), choice);
    }
}

#[test]
fn answered_commands_are_found_first_quarter(rt: HostRuntime) {
    assert_found(&rt, rt.alloc(), 0);
}

#[test]
fn answered_commands_are_found_second_quarter(rt: HostRuntime) {
    assert_found(&rt, rt.alloc(), 1);
}

#[test]
fn answered_commands_are_found_third_quarter(rt: HostRuntime) {
    assert_found(&rt, rt.alloc(), 2);
}

#[test]
fn answered_commands_are_found_fourth_quarter(rt: HostRuntime) {
    assert_found(&rt, rt.alloc(), 3);
}

#[test]
fn answered_commands_are_found_behind_a_stop(rt: HostRuntime) {
    let alloc = rt.alloc();
    for choice in 0..4u64 {
        for calls in 0..START_CALLS + 1 {
            let case = (Version::One, choice, End::Stop(calls));
            check!(rt; stands(&rt, alloc, case), (choice, calls));
        }
    }
}

/// A file of version 2 takes over three times as long.
#[test]
fn answered_commands_are_found_in_version_2(rt: HostRuntime) {
    let alloc = rt.alloc();
    for choice in [3u64, 0x5555_5555_5555_5555] {
        for end in [End::Crash, End::Stop(3)] {
            let case = (Version::Two, choice, end);
            check!(rt; stands(&rt, alloc, case), choice);
        }
    }
}
