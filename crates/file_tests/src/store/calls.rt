//! How many calls the disk has.
use super::{Kept, accept, had, opened, replies, watching, watching_one};
use crate::checks::check;
use crate::disks::{Calls, content_of, stands};
use crate::versions::{Part, VERSIONS, place};
use std::alloc::Global;
use std::process::Abort;
use wm_disk::{Crashed, Refusal};
use wm_names::RootPath;
use wm_registry::{Command, Reply, Version};

/// The watch of a path of so many bytes, which two letters distinguish.
fn long_watch(rt: &impl Abort, alloc: Global, first: u8, second: u8, len: usize) -> Command {
    let mut text = String::new(alloc);
    text.push_str("/").expect(rt, "memory");
    text.push(first as char).expect(rt, "memory");
    text.push(second as char).expect(rt, "memory");
    for _ in text.len()..len {
        text.push('x').expect(rt, "memory");
    }
    Command::Watch(RootPath::read(alloc, &text).expect(rt, "a path"))
}

/// A batch of so many watches, of paths of so many bytes.
pub(super) fn many(
    rt: &impl Abort,
    alloc: Global,
    first: u8,
    count: u8,
    len: usize,
) -> Vec<Command> {
    let mut commands = Vec::new(alloc);
    for i in 0..count {
        let command = long_watch(rt, alloc, first, i.saturating_add(48), len);
        commands.push(command).expect(rt, "memory");
    }
    commands
}

/// How many are accepted of such a batch.
fn watch_many(
    rt: &impl Abort,
    alloc: Global,
    store: &mut Kept,
    first: u8,
    count: u8,
    len: usize,
) -> usize {
    let commands = many(rt, alloc, first, count, len);
    accept(rt, alloc, store, commands).expect(rt, "replies")
}

/// Whether a batch of so many watches is accepted whole, and makes these calls.
fn writes(rt: &impl Abort, alloc: Global, version: Version, (count, calls): (u8, Calls)) -> bool {
    let mut store = opened(rt, alloc, version);
    let accepted = watch_many(rt, alloc, &mut store, b'a', count, 3);
    let roots = store.registry().roots().len();
    let disk = store.into_disk();
    let counted = had(&disk, version, calls);
    drop(disk);
    let count = usize::from(count);
    accepted == count && roots == count && counted
}

/// The commands of a batch, and its calls.
const BATCHES: &[(u8, Calls)] = &[(1, (2, 2, 0)), (8, (9, 2, 0)), (64, (65, 2, 0))];

/// Each of the batches has to be written so.
fn assert_writes(rt: &impl Abort, alloc: Global, version: Version) {
    for row in BATCHES {
        check!(rt; writes(rt, alloc, version, *row), (version, row));
    }
}

/// A write for the group and one for each gate, with a sync behind each of the two.
#[test]
fn writes_a_group_at_once(rt: HostRuntime) {
    for version in VERSIONS {
        assert_writes(&rt, rt.alloc(), *version);
    }
}

/// Whether nothing is accepted of a watch of a root that is watched, and of the end of the watch of another.
fn accepts_none(rt: &impl Abort, alloc: Global, store: &mut Kept) -> bool {
    let wanted = [Reply::Unchanged, Reply::Refused(Refusal::NotWatched)];
    let other = RootPath::read(alloc, "/other").expect(rt, "a path");
    let mut commands = watching(rt, alloc, &["/r"]);
    let pushed = commands.push(Command::WatchDel(other));
    pushed.expect(rt, "memory");
    replies(rt, alloc, store, commands, &wanted)
}

/// Meets a batch that isn't accepted, and one of no command.
fn meet_nothing(rt: &impl Abort, alloc: Global, store: &mut Kept) {
    check!(rt; accepts_none(rt, alloc, store));
    check!(rt; replies(rt, alloc, store, Vec::new(alloc), &[]));
}

/// Whether such batches make no call beside those of a batch of one.
fn is_idle(rt: &impl Abort, alloc: Global, version: Version) -> bool {
    let mut store = watching_one(rt, alloc, version);
    meet_nothing(rt, alloc, &mut store);
    let disk = store.into_disk();
    let is_idle = had(&disk, version, (2, 2, 0));
    drop(disk);
    is_idle
}

#[test]
fn makes_no_call_for_what_it_does_not_accept(rt: HostRuntime) {
    for version in VERSIONS {
        check!(rt; is_idle(&rt, rt.alloc(), *version), version);
    }
}

fn checkpoint_twice(rt: &impl Abort, alloc: Global, store: &mut Kept) {
    store.checkpoint(alloc).expect(rt, "a checkpoint");
    store.checkpoint(alloc).expect(rt, "a second checkpoint");
}

/// Whether the first checkpoint makes three writes, into the slot with a closed gate, and the second four, into the other.
fn closes_gate(rt: &impl Abort, alloc: Global, version: Version) -> bool {
    let mut store = opened(rt, alloc, version);
    checkpoint_twice(rt, alloc, &mut store);
    let disk = store.into_disk();
    let closes = had(&disk, version, (3 + 4, 3 + 3, 2));
    drop(disk);
    closes
}

#[test]
fn writes_into_a_slot_with_an_open_gate(rt: HostRuntime) {
    for version in VERSIONS {
        check!(rt; closes_gate(&rt, rt.alloc(), *version), version);
    }
}

/// Meets three batches of 64 watches of long paths.
pub(super) fn fill(rt: &impl Abort, alloc: Global, store: &mut Kept) {
    for first in b"abc" {
        watch_many(rt, alloc, store, *first, 64, 1_024);
    }
}

/// The length of the body of slot B, and the two records of its journal with the closed gate behind these: so far behind the beginning
/// of these parts.
const SPLIT: &[(Part, usize, &[u8])] = &[
    (Part::SlotB, 9, b"\x00\x04\x07\xf4"),
    (Part::JournalB, 0, b"\xa5\x01"),
    (Part::JournalB, 1_030, b"\xa5\x01"),
    (Part::JournalB, 2_060, b"\x00"),
];

/// Whether they stand in a file of this version.
fn is_split(content: &[u8], version: Version) -> bool {
    SPLIT.iter().all(|(part, offset, bytes)| {
        let at = place(version, *part).saturating_add(*offset);
        stands(content, at, bytes)
    })
}

/// Whether the last of four batches is accepted whole, and all 256 roots are there.
fn takes_four_batches(rt: &impl Abort, alloc: Global, store: &mut Kept) -> bool {
    fill(rt, alloc, store);
    let accepted = watch_many(rt, alloc, store, b'd', 64, 1_024);
    accepted == 64 && store.registry().roots().len() == 256
}

/// Whether the batches make 65 writes and two syncs for each of the first three, and then 63 + 3 + 3 and 2 + 3 + 2.
fn splits_batch(rt: &impl Abort, alloc: Global, version: Version) -> bool {
    let mut store = opened(rt, alloc, version);
    let is_whole = takes_four_batches(rt, alloc, &mut store);
    let disk = store.into_disk();
    let is_counted = had(&disk, version, (195 + 69, 6 + 7, 1));
    let content = content_of(rt, alloc, disk.crash());
    is_whole && is_counted && is_split(&content, version)
}

/// The journal takes 62 watches of the fourth batch, and a checkpoint stands between them and the last two.
#[test]
fn makes_room_within_a_batch(rt: HostRuntime) {
    for version in VERSIONS {
        check!(rt; splits_batch(&rt, rt.alloc(), *version), version);
    }
}
