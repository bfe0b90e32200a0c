//! The bytes of files, and what a store finds in them.
use super::{
    Kept, checkpointed_disk, edited, had, is_numbered, open, open_bytes, opened, replies, watches,
    watching,
};
use crate::checks::check;
use crate::disks::{content_of, disk_of, stands};
use crate::versions::{Part, VERSIONS, formatted, place};
use std::alloc::Global;
use std::process::Abort;
use wm_disk::{Crashed, MemDisk, Refusal};
use wm_registry::{Command, Reply, Version};
use wm_store::Store;

/// The version that the header says.
fn version_byte(version: Version) -> u8 {
    match version {
        Version::One => 1,
        Version::Two => 2,
    }
}

/// Whether a new store is one of this version, as its header says.
fn is_of(rt: &impl Abort, alloc: Global, version: Version) -> bool {
    let store = opened(rt, alloc, version);
    let told = store.registry().version() == version;
    let content = content_of(rt, alloc, store.into_disk());
    let header = [
        165,
        87,
        77,
        83,
        84,
        65,
        84,
        69,
        0,
        0,
        0,
        version_byte(version),
        0,
    ];
    told && stands(&content, 0, &header)
}

#[test]
fn has_the_version_of_its_file(rt: HostRuntime) {
    for version in VERSIONS {
        check!(rt; is_of(&rt, rt.alloc(), *version), version);
    }
}

/// Opens a new file three times.
fn begin_thrice(rt: &impl Abort, alloc: Global, version: Version) {
    let mut disk = formatted(rt, alloc, version);
    for incarnation in 1..4u64 {
        let store = open(rt, alloc, disk);
        let is_new = is_numbered(&store, incarnation, 1) && store.registry().roots().is_empty();
        check!(rt; is_new, (version, incarnation));
        // The incarnation is durable.
        disk = store.into_disk().crash();
    }
    drop(disk);
}

#[test]
fn begins_at_each_opening(rt: HostRuntime) {
    for version in VERSIONS {
        begin_thrice(&rt, rt.alloc(), *version);
    }
}

/// Whether a `Begin` is refused.
fn refuses_begin(rt: &impl Abort, alloc: Global, store: &mut Kept) -> bool {
    let wanted = [Reply::Refused(Refusal::BadArguments)];
    let mut commands = Vec::new(alloc);
    commands.push(Command::Begin).expect(rt, "memory");
    replies(rt, alloc, store, commands, &wanted)
}

/// Whether a `Begin` is refused with no call of the disk.
fn keeps_to_one_begin(rt: &impl Abort, alloc: Global, version: Version) -> bool {
    let mut store = opened(rt, alloc, version);
    let is_refused = refuses_begin(rt, alloc, &mut store);
    let incarnation = store.registry().incarnation();
    let disk = store.into_disk();
    let is_idle = had(&disk, version, (0, 0, 0));
    drop(disk);
    is_refused && incarnation == 1 && is_idle
}

#[test]
fn refuses_a_begin(rt: HostRuntime) {
    for version in VERSIONS {
        check!(rt; keeps_to_one_begin(&rt, rt.alloc(), *version), version);
    }
}

/// The bytes of this disk. A next store on it has to have the incarnation 2, the next root 2 and these roots.
fn found(rt: &impl Abort, alloc: Global, disk: MemDisk, roots: &[&str]) -> Vec<u8> {
    let store = open(rt, alloc, disk);
    check!(rt; is_numbered(&store, 2, 2) && watches(&store, roots));
    content_of(rt, alloc, store.into_disk())
}

/// Whether a watch of `/r` is replied that it changes the registry.
fn takes_root(rt: &impl Abort, alloc: Global, store: &mut Kept) -> bool {
    let commands = watching(rt, alloc, &["/r"]);
    replies(rt, alloc, store, commands, &[Reply::Changed])
}

/// Whether a `Begin`, a watch and the next `Begin` stand in the journal.
fn writes_watch(rt: &impl Abort, alloc: Global, version: Version) -> bool {
    const JOURNAL: &[u8] = b"\xa5\x00\xa5\x01\x00\x00\x00\x02\x2f\x72\xa5\x00\x00";
    let mut store = opened(rt, alloc, version);
    let is_taken = takes_root(rt, alloc, &mut store);
    let disk = store.into_disk().crash();
    let content = found(rt, alloc, disk, &["/r"]);
    is_taken && stands(&content, place(version, Part::JournalA), JOURNAL)
}

#[test]
fn writes_what_it_accepts(rt: HostRuntime) {
    for version in VERSIONS {
        check!(rt; writes_watch(&rt, rt.alloc(), *version), version);
    }
}

/// Slot B: its head, and the registry in it.
const CHECKPOINTED: &[u8] =
    b"\xa5\x00\x00\x00\x00\x00\x00\x00\x02\x00\x00\x00\x26\x00\x00\x00\x00\x00\x00\x00\x01\x00\x00\x00\x00\x00\x00\x00\x02\x00\x00\x00\x01\x00\x00\x00\x02\x2f\x72\x00\x00\x00\x00\x00\x00\x00\x01\x00\x00\x00\x00";

/// Whether a next store on these bytes has the incarnation 2 and watches `/r`.
fn reads(rt: &impl Abort, alloc: Global, content: &[u8]) -> bool {
    let store = open_bytes(rt, alloc, 0, content);
    let reads = store.registry().incarnation() == 2 && watches(&store, &["/r"]);
    drop(store);
    reads
}

/// Whether a batch of one command and a checkpoint make so many calls, and slot B and the closed gate of its journal stand.
fn writes_slot(rt: &impl Abort, alloc: Global, version: Version) -> bool {
    let disk = checkpointed_disk(rt, alloc, version);
    let is_counted = had(&disk, version, (2 + 3, 2 + 3, 1));
    let content = content_of(rt, alloc, disk.crash());
    let is_written = stands(&content, place(version, Part::SlotB), CHECKPOINTED)
        && stands(&content, place(version, Part::JournalB), b"\x00");
    is_counted && is_written && reads(rt, alloc, &content)
}

#[test]
fn writes_its_registry_into_the_other_slot(rt: HostRuntime) {
    for version in VERSIONS {
        check!(rt; writes_slot(&rt, rt.alloc(), *version), version);
    }
}

/// The disk of a new file of which the journal begins with these bytes.
fn with_journal(rt: &impl Abort, alloc: Global, version: Version, journal: &[u8]) -> MemDisk {
    let content = edited(rt, alloc, version, (Part::JournalA, 0), journal);
    disk_of(rt, alloc, 0, &content)
}

/// Whether a start behind the first of three watches, of which the first and the third are open, stands in the second's place.
fn leaves_rest(rt: &impl Abort, alloc: Global, version: Version) -> bool {
    const FOUND: &[u8] =
        b"\xa5\x00\xa5\x01\x00\x00\x00\x02\x2f\x61\x00\x01\x00\x00\x00\x02\x2f\x62\xa5\x01\x00\x00\x00\x02\x2f\x63\x00";
    let disk = with_journal(rt, alloc, version, FOUND);
    let content = found(rt, alloc, disk, &["/a"]);
    let at = place(version, Part::JournalA).saturating_add(10);
    stands(&content, at, b"\xa5\x00\x00")
}

#[test]
fn leaves_what_is_behind_a_closed_gate(rt: HostRuntime) {
    for version in VERSIONS {
        check!(rt; leaves_rest(&rt, rt.alloc(), *version), version);
    }
}

#[test]
fn refuses_an_empty_disk(rt: HostRuntime) {
    let answer = Store::open(rt.alloc(), MemDisk::new(rt.alloc(), 0));
    let (refusal, disk) = answer.err().expect(&rt, "a refusal");
    let (writes, _, _) = disk.calls();
    drop(disk);
    check!(rt; refusal == Refusal::Damaged && writes == 0);
}
