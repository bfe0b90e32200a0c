//! A registry that is moved from a file of version 1 into one of version 2: the bytes of both files, the calls of both disks, and what
//! a store finds then.
use super::longest::fill_up;
use super::openings::begun_from;
use super::triggers::{defined, definition, has};
use super::{Kept, is_numbered, meet, open, open_bytes, opened, watch, watches};
use crate::checks::check;
use crate::disks::{Calls, content_of, disk_of, overwrite, stands};
use crate::versions::formatted;
use std::alloc::Global;
use std::process::Abort;
use wm_disk::{Crashed, MemDisk, Refusal};
use wm_registry::{Reply, Trigger, Version};
use wm_store::migrate;

/// A file of version 1 on which the first start watched `/r` and defined the trigger `t` of `true`: all of it stands in the
/// journal.
pub(super) fn first_file(rt: &impl Abort, alloc: Global) -> Vec<u8> {
    let (store, is_met) = defined(rt, alloc, Version::One);
    check!(rt; is_met);
    content_of(rt, alloc, store.into_disk())
}

/// The bytes with others at a place.
fn changed(rt: &impl Abort, mut content: Vec<u8>, at: usize, bytes: &[u8]) -> Vec<u8> {
    overwrite(rt, &mut content, at, bytes);
    content
}

/// A migration: its answer, and the bytes that a crash leaves then and the calls of each disk, beside the write and the sync that
/// put the bytes on it.
#[derive(Drop)]
struct Migrated {
    answer: Result<(), Refusal>,
    old: Vec<u8>,
    old_calls: Calls,
    new: Vec<u8>,
    new_calls: Calls,
}

/// How many calls a disk had beside the write and the sync that put its bytes on it.
pub(super) fn calls_since(disk: &MemDisk) -> Calls {
    let (writes, syncs, others) = disk.calls();
    (writes.saturating_sub(1), syncs.saturating_sub(1), others)
}

/// Migrates from a disk with these bytes to one with those.
fn moved(rt: &impl Abort, alloc: Global, old: &[u8], new: &[u8]) -> Migrated {
    let mut old = disk_of(rt, alloc, 0, old);
    let mut new = disk_of(rt, alloc, 0, new);
    let answer = migrate(alloc, &mut old, &mut new);
    let old_calls = calls_since(&old);
    let new_calls = calls_since(&new);
    Migrated {
        answer,
        old: content_of(rt, alloc, old.crash()),
        old_calls,
        new: content_of(rt, alloc, new.crash()),
        new_calls,
    }
}

/// The old file: a length, a sync and a reading, and at the end a write and a sync.
const OLD_CALLS: Calls = (1, 2, 2);

/// The new file: 137 writes of zeros and a sync, slot A and the header and a sync, the slot's gate and a sync, the header's gate
/// and a sync.
const NEW_CALLS: Calls = (137 + 4, 4, 0);

/// Length, sync and reading of a file that nothing is written to.
pub(super) const READ: Calls = (0, 1, 2);

/// Whether that many calls were made, and the answer is `Ok`.
fn is_done(moved: &Migrated, old_calls: Calls, new_calls: Calls) -> bool {
    moved.answer == Ok(()) && moved.old_calls == old_calls && moved.new_calls == new_calls
}

/// The header of a file of version 2.
const HEADER: &[u8] = b"\xa5\x57\x4d\x53\x54\x41\x54\x45\x00\x00\x00\x02";

/// Slot A under number 1: 59 bytes of the incarnation 1, the next root 2, and the root `/r` of number 1 with the trigger `t`.
const SLOT: &[u8] =
    b"\xa5\0\0\0\0\0\0\0\x01\0\0\0\x3b\0\0\0\0\0\0\0\x01\0\0\0\0\0\0\0\x02\0\0\0\x01\0\0\0\x02/r\0\0\0\0\0\0\0\x01\0\0\0\x01\0\0\0\x01t\0\0\0\x01\0\0\0\x04true\0\0\0\0";

/// A file of version 2 with this slot A, and zeros.
fn second_file(rt: &impl Abort, alloc: Global, slot: &[u8]) -> Vec<u8> {
    let zeros = vec![in alloc; 0u8; 8_916_992].expect(rt, "memory");
    let content = changed(rt, zeros, 0, HEADER);
    changed(rt, content, 4_096, slot)
}

/// Whether the old file has no other byte changed than the retired gate.
fn retires_old(rt: &impl Abort, moved: &Migrated, old: Vec<u8>) -> bool {
    let wanted = changed(rt, old, 12, b"\xa5");
    moved.old.as_slice() == wanted.as_slice()
}

/// Whether the new file has this slot A, and is as new but for that.
fn writes_new(rt: &impl Abort, alloc: Global, moved: &Migrated, slot: &[u8]) -> bool {
    let wanted = second_file(rt, alloc, slot);
    moved.new.as_slice() == wanted.as_slice()
}

/// Whether the migration of this file makes a new one with this slot A by the calls that it needs.
fn moves(rt: &impl Abort, alloc: Global, old: Vec<u8>, slot: &[u8]) -> bool {
    let moved = moved(rt, alloc, &old, &[]);
    let is_done = is_done(&moved, OLD_CALLS, NEW_CALLS);
    let is_written = writes_new(rt, alloc, &moved, slot);
    let is_retired = retires_old(rt, &moved, old);
    drop(moved);
    is_done && is_written && is_retired
}

/// 150 calls in all.
#[test]
fn moves_a_registry(rt: HostRuntime) {
    let old = first_file(&rt, rt.alloc());
    check!(rt; moves(&rt, rt.alloc(), old, SLOT));
}

/// The same registry behind a checkpoint and a second start, which watched `/s`.
const SLOT_OF_TWO: &[u8] =
    b"\xa5\0\0\0\0\0\0\0\x01\0\0\0\x4d\0\0\0\0\0\0\0\x02\0\0\0\0\0\0\0\x03\0\0\0\x02\0\0\0\x02/r\0\0\0\0\0\0\0\x01\0\0\0\x01\0\0\0\x01t\0\0\0\x01\0\0\0\x04true\0\0\0\0\0\0\0\x02/s\0\0\0\0\0\0\0\x02\0\0\0\0";

/// A file of version 1 whose registry stands in slot B, under number 2, with a start and a watch behind it.
fn checkpointed_file(rt: &impl Abort, alloc: Global) -> Vec<u8> {
    let (mut store, is_met) = defined(rt, alloc, Version::One);
    store.checkpoint(alloc).expect(rt, "a checkpoint");
    let mut store = open(rt, alloc, store.into_disk());
    let is_watched = watch(rt, alloc, &mut store, &["/s"]) == Ok(1);
    check!(rt; is_met && is_watched);
    content_of(rt, alloc, store.into_disk())
}

#[test]
fn moves_what_slot_b_and_its_journal_mean(rt: HostRuntime) {
    let old = checkpointed_file(&rt, rt.alloc());
    check!(rt; moves(&rt, rt.alloc(), old, SLOT_OF_TWO));
}

/// Slot A of a registry with no roots, which no start has begun.
const EMPTY_SLOT: &[u8] =
    b"\xa5\0\0\0\0\0\0\0\x01\0\0\0\x14\0\0\0\0\0\0\0\0\0\0\0\0\0\0\0\x01\0\0\0\0";

#[test]
fn moves_an_empty_registry(rt: HostRuntime) {
    let old = formatted(&rt, rt.alloc(), Version::One);
    let old = content_of(&rt, rt.alloc(), old);
    check!(rt; moves(&rt, rt.alloc(), old, EMPTY_SLOT));
}

/// Whether the store takes a trigger with a number of files.
fn takes_number(rt: &impl Abort, alloc: Global, store: &mut Kept) -> bool {
    let mut commands = Vec::new(alloc);
    let command = definition(rt, alloc, ("/r", "u"), Some(3));
    commands.push(command).expect(rt, "memory");
    let replies = meet(rt, alloc, store, commands).expect(rt, "replies");
    replies.as_slice() == [Reply::Changed].as_slice()
}

/// Whether the store has the registry of [`first_file`] in a file of this version, begun so often.
pub(super) fn has_registry(store: &Kept, version: Version, incarnation: u64) -> bool {
    is_numbered(store, incarnation, 2)
        && store.registry().version() == version
        && watches(store, &["/r"])
        && has(store, &[("t", None)])
}

/// Whether a store on these bytes has that registry in version 2, at its second start, and takes what version 1 had no place for.
fn serves(rt: &impl Abort, alloc: Global, content: &[u8]) -> bool {
    let mut store = open_bytes(rt, alloc, 0, content);
    let has = has_registry(&store, Version::Two, 2);
    let takes = takes_number(rt, alloc, &mut store);
    drop(store);
    has && takes
}

#[test]
fn serves_the_new_file(rt: HostRuntime) {
    let old = first_file(&rt, rt.alloc());
    let moved = moved(&rt, rt.alloc(), &old, &[]);
    check!(rt; serves(&rt, rt.alloc(), &moved.new));
    check!(rt; begun_from(&rt, rt.alloc(), &moved.old) == Err(Refusal::Retired));
    drop(moved);
}

/// What a disk holds.
#[derive(Clone, Copy, Debug)]
pub(super) enum Held {
    Nothing,
    /// More bytes than a file of version 2 has, and none of them zero.
    Ones,
    /// The file of version 1 that is moved, and the same with another byte at a place.
    First,
    FirstWith(usize, u8),
    /// A file of version 2 with another registry, and the same with another byte at a place.
    Second,
    SecondWith(usize, u8),
}

/// A file of version 2 that watches `/other`.
pub(super) fn other_file(rt: &impl Abort, alloc: Global) -> Vec<u8> {
    let mut store = opened(rt, alloc, Version::Two);
    check!(rt; watch(rt, alloc, &mut store, &["/other"]) == Ok(1));
    content_of(rt, alloc, store.into_disk())
}

/// The bytes on such a disk.
pub(super) fn bytes_of(rt: &impl Abort, alloc: Global, held: Held) -> Vec<u8> {
    match held {
        Held::Nothing => Vec::new(alloc),
        Held::Ones => vec![in alloc; 0xffu8; 8_916_997].expect(rt, "memory"),
        Held::First => first_file(rt, alloc),
        Held::FirstWith(at, byte) => changed(rt, first_file(rt, alloc), at, &[byte]),
        Held::Second => other_file(rt, alloc),
        Held::SecondWith(at, byte) => changed(rt, other_file(rt, alloc), at, &[byte]),
    }
}

/// What is written over: also another registry, a retired file, and what is longer.
const WRITTEN_OVER: &[Held] = &[
    Held::Ones,
    Held::First,
    Held::FirstWith(12, 0xa5),
    Held::Second,
    Held::SecondWith(12, 0xa5),
];

/// Whether the file that is moved stands on this disk then, and behind it what stood there.
fn writes_over(rt: &impl Abort, alloc: Global, old: &[u8], held: Held) -> bool {
    let moved = moved(rt, alloc, old, &bytes_of(rt, alloc, held));
    let is_done = is_done(&moved, OLD_CALLS, NEW_CALLS);
    let mut wanted = second_file(rt, alloc, SLOT);
    if let Held::Ones = held {
        wanted.extend_from_slice(&[0xff; 5]).expect(rt, "memory");
    }
    let is_written = moved.new.as_slice() == wanted.as_slice();
    drop(moved);
    drop(wanted);
    is_done && is_written
}

#[test]
fn writes_over_what_the_new_disk_holds(rt: HostRuntime) {
    let old = first_file(&rt, rt.alloc());
    for held in WRITTEN_OVER {
        check!(rt; writes_over(&rt, rt.alloc(), &old, *held), held);
    }
}

/// Whether a trigger of that place is one of those of which the longest registry of version 1 is made.
fn is_long(trigger: &Trigger, place: usize) -> bool {
    let (count, last) = if place < 63 { (16, 1_024) } else { (12, 157) };
    let name = [48 + (place % 100 / 10) as u8, 48 + (place % 10) as u8];
    let words = trigger.command();
    trigger.name().as_bytes() == name.as_slice()
        && words.len() == count
        && words
            .iter()
            .take(count - 1)
            .all(|word| word.as_str().len() == 1_024)
        && words
            .iter()
            .skip(count - 1)
            .all(|word| word.as_str().len() == last)
}

/// Whether the store has the longest registry of version 1: the root `/a` with its 64 triggers, each of which has a byte more in version 2.
fn has_longest(store: &Kept) -> bool {
    let Some((_, root)) = store.registry().roots().iter().next() else {
        return false;
    };
    let triggers = root.triggers.as_slice();
    let are_long = triggers
        .iter()
        .enumerate()
        .all(|(place, trigger)| is_long(trigger, place));
    are_long && triggers.len() == 64 && store.registry().size() == 1_048_563 + 64
}

/// The file of version 1 with the longest registry.
fn longest_file(rt: &impl Abort, alloc: Global) -> Vec<u8> {
    let mut store = opened(rt, alloc, Version::One);
    check!(rt; fill_up(rt, alloc, &mut store));
    content_of(rt, alloc, store.into_disk())
}

/// Whether it is moved whole.
fn moves_longest(rt: &impl Abort, alloc: Global) -> bool {
    let moved = moved(rt, alloc, &longest_file(rt, alloc), &[]);
    let is_done = is_done(&moved, OLD_CALLS, NEW_CALLS);
    let is_long = stands(&moved.new, 4_096, b"\xa5\0\0\0\0\0\0\0\x01\x00\x10\x00\x33");
    let store = open_bytes(rt, alloc, 0, &moved.new);
    drop(moved);
    let has = has_longest(&store) && is_numbered(&store, 2, 2) && watches(&store, &["/a"]);
    drop(store);
    is_done && is_long && has
}

#[test]
fn moves_the_longest_registry(rt: HostRuntime) {
    check!(rt; moves_longest(&rt, rt.alloc()));
}

/// Whether a migration of such files has that answer, makes these calls, and leaves both files as they are.
pub(super) fn leaves(
    rt: &impl Abort,
    alloc: Global,
    (old, new): (&[u8], &[u8]),
    answer: Result<(), Refusal>,
    new_calls: Calls,
) -> bool {
    let moved = moved(rt, alloc, old, new);
    let is_answered = moved.answer == answer;
    let is_counted = moved.old_calls == READ && moved.new_calls == new_calls;
    let is_left = moved.old.as_slice() == old && moved.new.as_slice() == new;
    drop(moved);
    is_answered && is_counted && is_left
}

/// Whether a migration behind one that was done is done too, and writes nothing.
fn is_done_again(rt: &impl Abort, alloc: Global, old: &[u8]) -> bool {
    let done = moved(rt, alloc, old, &[]);
    let leaves = leaves(rt, alloc, (&done.old, &done.new), Ok(()), READ);
    drop(done);
    leaves
}

#[test]
fn writes_nothing_the_second_time(rt: HostRuntime) {
    let old = first_file(&rt, rt.alloc());
    check!(rt; is_done_again(&rt, rt.alloc(), &old));
    let old = checkpointed_file(&rt, rt.alloc());
    check!(rt; is_done_again(&rt, rt.alloc(), &old));
}
