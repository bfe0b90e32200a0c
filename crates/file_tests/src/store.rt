//! Stores on disks in memory, of files of both versions.
mod calls;
mod cuts;
mod faults;
mod files;
mod longest;
mod migration_cuts;
mod migration_refusals;
mod migrations;
mod openings;
mod sweeps;
mod triggers;

use crate::disks::{content_of, disk_of, overwrite};
use crate::versions::{Part, formatted, place};
use std::alloc::Global;
use std::process::Abort;
use wm_disk::{MemDisk, Refusal};
use wm_names::RootPath;
use wm_registry::{Command, MAX_BATCH, Reply, Version};
use wm_store::Store;

/// A store on a disk in memory.
pub(crate) type Kept = Store<MemDisk>;

/// A start asks the length, syncs and reads, and commits its `Begin`: a write, a sync, its gate and a sync.
const START_CALLS: u64 = 7;

/// A store on this disk.
pub(crate) fn open(rt: &impl Abort, alloc: Global, disk: MemDisk) -> Kept {
    let opened = Store::open(alloc, disk).map_err(|(refusal, _)| refusal);
    opened.expect(rt, "a start")
}

/// A store on a disk with these bytes; the choice says what its crashes leave.
fn open_bytes(rt: &impl Abort, alloc: Global, choice: u64, content: &[u8]) -> Kept {
    open(rt, alloc, disk_of(rt, alloc, choice, content))
}

/// A new file of this version, opened once.
pub(crate) fn opened(rt: &impl Abort, alloc: Global, version: Version) -> Kept {
    open(rt, alloc, formatted(rt, alloc, version))
}

/// Whether a disk had so many writes, syncs and other calls beside those that made its file and opened it once: the zeros
/// in 41 or 137 writes, four writes and four syncs of the slot and the header; and the start's.
fn had(disk: &MemDisk, version: Version, (writes, syncs, others): (u64, u64, u64)) -> bool {
    let zeros: u64 = match version {
        Version::One => 41,
        Version::Two => 137,
    };
    let written = writes.saturating_add(zeros + 4 + 2);
    disk.calls()
        == (
            written,
            syncs.saturating_add(4 + 3),
            others.saturating_add(2),
        )
}

/// Whether these are the paths of the roots.
fn watches(store: &Kept, paths: &[&str]) -> bool {
    let roots = store.registry().roots();
    roots.len() == paths.len()
        && roots
            .iter()
            .zip(paths)
            .all(|((root, _), path)| root.as_str() == *path)
}

/// Whether the registry has these numbers.
fn is_numbered(store: &Kept, incarnation: u64, next_root: u64) -> bool {
    store.registry().incarnation() == incarnation && store.registry().next_root() == next_root
}

/// A batch that watches these paths.
fn watching(rt: &impl Abort, alloc: Global, paths: &[&str]) -> Vec<Command> {
    let mut commands = Vec::new(alloc);
    for path in paths {
        let path = RootPath::read(alloc, path).expect(rt, "a path");
        commands.push(Command::Watch(path)).expect(rt, "memory");
    }
    commands
}

/// Meets a batch, which has to be no longer than a batch may be.
fn meet(
    rt: &impl Abort,
    alloc: Global,
    store: &mut Kept,
    commands: Vec<Command>,
) -> Result<Vec<Reply>, Refusal> {
    assert!(rt; commands.len() <= MAX_BATCH);
    store.commit_batch(alloc, commands)
}

/// Whether a batch is met with these replies.
fn replies(
    rt: &impl Abort,
    alloc: Global,
    store: &mut Kept,
    commands: Vec<Command>,
    wanted: &[Reply],
) -> bool {
    let replies = meet(rt, alloc, store, commands).expect(rt, "replies");
    replies.as_slice() == wanted
}

/// How many commands of a batch are accepted.
fn accept(
    rt: &impl Abort,
    alloc: Global,
    store: &mut Kept,
    commands: Vec<Command>,
) -> Result<usize, Refusal> {
    let replies = meet(rt, alloc, store, commands)?;
    Ok(replies.iter().filter(|reply| reply.is_change()).count())
}

/// How many of these paths are accepted, watched in one batch.
fn watch(
    rt: &impl Abort,
    alloc: Global,
    store: &mut Kept,
    paths: &[&str],
) -> Result<usize, Refusal> {
    accept(rt, alloc, store, watching(rt, alloc, paths))
}

/// A new file of this version, opened once, which watches `/r`.
fn watching_one(rt: &impl Abort, alloc: Global, version: Version) -> Kept {
    let mut store = opened(rt, alloc, version);
    watch(rt, alloc, &mut store, &["/r"]).expect(rt, "a watch");
    store
}

/// The disk of a store that watches `/r` and made a checkpoint.
fn checkpointed_disk(rt: &impl Abort, alloc: Global, version: Version) -> MemDisk {
    let mut store = watching_one(rt, alloc, version);
    store.checkpoint(alloc).expect(rt, "a checkpoint");
    store.into_disk()
}

/// The bytes of a file of this version that watches `/r` since its first start, behind a checkpoint: so the next start finds an
/// open gate to close.
fn checkpointed(rt: &impl Abort, alloc: Global, version: Version) -> Vec<u8> {
    content_of(rt, alloc, checkpointed_disk(rt, alloc, version))
}

/// A new file of this version with other bytes, so far behind the beginning of a part.
fn edited(
    rt: &impl Abort,
    alloc: Global,
    version: Version,
    (part, offset): (Part, usize),
    bytes: &[u8],
) -> Vec<u8> {
    let mut content = content_of(rt, alloc, formatted(rt, alloc, version));
    let at = place(version, part).saturating_add(offset);
    overwrite(rt, &mut content, at, bytes);
    content
}
