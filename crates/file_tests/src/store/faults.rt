//! A device of which one call fails, behind which it would do every other: the store tells it once, and asks for nothing
//! from then on.
use super::{START_CALLS, checkpointed, watching};
use crate::checks::check;
use crate::disks::disk_of;
use crate::versions::VERSIONS;
use std::alloc::Global;
use std::process::Abort;
use wm_disk::{MemDisk, OneFault, Refusal};
use wm_registry::{MAX_BATCH, Version};
use wm_store::Store;

/// A store on a disk of which one call fails.
type Faulty = Store<OneFault<MemDisk>>;

/// A store on such a disk: the call that fails comes so many calls after the start.
fn faulty(rt: &impl Abort, alloc: Global, content: &[u8], calls: u64) -> Faulty {
    let disk = disk_of(rt, alloc, 0, content);
    let faulty = OneFault::new(disk, START_CALLS.saturating_add(calls));
    let opened = Store::open(alloc, faulty).map_err(|(refusal, _)| refusal);
    opened.expect(rt, "a start")
}

/// What the watch of a path is refused.
fn refusal(rt: &impl Abort, alloc: Global, store: &mut Faulty, path: &str) -> Option<Refusal> {
    let batch = watching(rt, alloc, &[path]);
    assert!(rt; batch.len() <= MAX_BATCH);
    store.commit_batch(alloc, batch).err()
}

/// What a batch, a checkpoint, another batch and the closing are refused.
fn refusals(rt: &impl Abort, alloc: Global, store: &mut Faulty) -> [Option<Refusal>; 4] {
    [
        refusal(rt, alloc, store, "/a"),
        store.checkpoint(alloc).err(),
        refusal(rt, alloc, store, "/b"),
        store.close().err(),
    ]
}

/// What they are refused where the call fails that comes so many calls after the start: a batch of one command makes
/// four, the checkpoint eight, and the closing one.
fn wanted(calls: u64) -> [Option<Refusal>; 4] {
    let fails = Some(Refusal::DeviceFailed);
    let is_down = Some(Refusal::StoreFailed);
    match calls {
        0..=3 => [fails, is_down, is_down, is_down],
        4..=11 => [None, fails, is_down, is_down],
        12..=15 => [None, None, fails, is_down],
        16 => [None, None, None, fails],
        _ => [None, None, None, None],
    }
}

/// Whether the calls are refused so where the one fails that comes so many calls after the start.
fn refuses(rt: &impl Abort, alloc: Global, content: &[u8], calls: u64) -> bool {
    let mut store = faulty(rt, alloc, content, calls);
    let refusals = refusals(rt, alloc, &mut store);
    drop(store);
    refusals == wanted(calls)
}

/// Each call in turn has to fail once on a file of this version.
fn assert_refuses(rt: &impl Abort, alloc: Global, version: Version) {
    let content = checkpointed(rt, alloc, version);
    for calls in 0..18u64 {
        check!(rt; refuses(rt, alloc, &content, calls), (version, calls));
    }
}

/// The device would do every call behind the one that failed, and isn't asked for any.
#[test]
fn a_device_fails_once(rt: HostRuntime) {
    for version in VERSIONS {
        assert_refuses(&rt, rt.alloc(), *version);
    }
}
