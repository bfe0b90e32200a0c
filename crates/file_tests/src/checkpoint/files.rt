//! The bytes of files, and what they mean.
use super::{
    Call, Kept, RegisterKeeper, TWO_SLOTS, content_after, edited, formatted, found, meet_all, open,
};
use crate::checks::check;
use crate::disks::{assert_stand, content_of, disk_of, stands};
use std::alloc::Global;
use std::process::Abort;
use wm_disk::{Crashed, Disk};

/// Bytes at their places.
type Parts = &'static [(usize, &'static [u8])];

/// The header and slot A, right after the format.
const LAID_OUT: Parts = &[
    (0, b"\xa5\x57\x4d\x53\x54\x41\x54\x45\x00\x00\x00\x01\x00"),
    (
        4_096,
        b"\xa5\x00\x00\x00\x00\x00\x00\x00\x01\x00\x00\x00\x08\x00\x11\x22\x33\x44\x55\x66\x77\x00",
    ),
];

/// The bytes of a disk after a format, which was longer than a file, and whose bytes weren't zeros.
fn laid_out(rt: &impl Abort, alloc: Global) -> Vec<u8> {
    let filled = vec![in alloc; 0xffu8; 2_625_540].expect(rt, "memory");
    let mut disk = disk_of(rt, alloc, 0, &filled);
    let formatted = RegisterKeeper::format(alloc, &mut disk, &0x0011_2233_4455_6677);
    formatted.expect(rt, "a file");
    content_of(rt, alloc, disk.crash())
}

#[test]
fn lays_files_out(rt: HostRuntime) {
    let content = laid_out(&rt, rt.alloc());
    check!(rt; content.len() == 2_625_540);
    assert_stand(&rt, &content, LAID_OUT);
    // the bytes of the header, the slot and what is behind the file
    let count = content.iter().filter(|byte| **byte != 0).count();
    check!(rt; count == 9 + 10 + 4, count);
}

/// The journal of slot A, slot B and its journal.
const WRITTEN: Parts = &[
    (
        1_052_672,
        b"\xa5\x00\x00\x00\x00\x00\x00\x00\x02\xa5\x00\x00\x00\x00\x00\x00\x00\x03\x00",
    ),
    (
        1_314_816,
        b"\xa5\x00\x00\x00\x00\x00\x00\x00\x02\x00\x00\x00\x08\x00\x00\x00\x00\x00\x00\x00\x03\x00",
    ),
    (2_363_392, b"\xa5\x00\x00\x00\x00\x00\x00\x00\x04\x00"),
];

#[test]
fn writes_commands_and_states(rt: HostRuntime) {
    let content = content_after(&rt, rt.alloc(), TWO_SLOTS);
    check!(rt; content.len() == 2_625_536);
    assert_stand(&rt, &content, WRITTEN);
}

/// The keeper of what a crash leaves.
fn reopened(rt: &impl Abort, alloc: Global, kept: Kept) -> Kept {
    open(rt, alloc, kept.keeper.into_disk().crash())
}

/// What a keeper does at first.
const BEGUN: &[Call] = &[Call::Set(2), Call::SetThree(3, 4, 5)];

/// What it does behind its first checkpoint.
const GONE_ON: &[Call] = &[Call::Set(6), Call::Checkpoint, Call::Set(7)];

/// A keeper that was opened, committed two groups, was opened again, checkpointed, was opened again, and then
/// committed, checkpointed, committed and was opened again: after so many of these seven.
fn kept_at(rt: &impl Abort, alloc: Global, stage: u32) -> Kept {
    let mut kept = open(rt, alloc, formatted(rt, alloc, 1));
    if stage == 0 {
        return kept;
    }
    meet_all(rt, alloc, &mut kept, BEGUN);
    if stage == 1 {
        return kept;
    }
    let mut kept = reopened(rt, alloc, kept);
    if stage == 2 {
        return kept;
    }
    kept.keeper.checkpoint(alloc).expect(rt, "a checkpoint");
    if stage == 3 {
        return kept;
    }
    let mut kept = reopened(rt, alloc, kept);
    if stage == 4 {
        return kept;
    }
    meet_all(rt, alloc, &mut kept, GONE_ON);
    reopened(rt, alloc, kept)
}

/// Whether the two slots have these numbers; 0 where one was never written.
fn has_numbers(content: &[u8], (a, b): (u8, u8)) -> bool {
    let gate = if b == 0 { 0 } else { 0xa5 };
    stands(content, 4_096, &[0xa5, 0, 0, 0, 0, 0, 0, 0, a])
        && stands(content, 1_314_816, &[gate, 0, 0, 0, 0, 0, 0, 0, b])
}

/// A stage, the state and the room of the keeper there, the numbers of the two slots, and these after one more
/// checkpoint.
type Stage = (u32, u64, u64, (u8, u8), (u8, u8));

/// The slot with the greater number is the keeper's.
const STAGES: &[Stage] = &[
    (0, 1, 262_143, (1, 0), (1, 2)),
    (1, 5, 262_107, (1, 0), (1, 2)),
    (2, 5, 262_107, (1, 0), (1, 2)),
    (3, 5, 262_143, (1, 2), (3, 2)),
    (4, 5, 262_143, (1, 2), (3, 2)),
    (5, 7, 262_134, (3, 2), (3, 4)),
];

/// Whether the keeper at a stage has this state and room, and the file these numbers.
fn keeps(rt: &impl Abort, alloc: Global, (stage, state, room, numbers, _): Stage) -> bool {
    let kept = kept_at(rt, alloc, stage);
    let told = *kept.keeper.state() == state && kept.keeper.room() == room;
    let content = content_of(rt, alloc, kept.keeper.into_disk());
    told && has_numbers(&content, numbers)
}

/// Whether the keeper at a stage knows its number and slot: its next checkpoint goes into the other one, under
/// the next number.
fn goes_on(rt: &impl Abort, alloc: Global, (stage, state, _, _, numbers): Stage) -> bool {
    let mut kept = kept_at(rt, alloc, stage);
    kept.keeper.checkpoint(alloc).expect(rt, "a checkpoint");
    let content = content_of(rt, alloc, kept.keeper.into_disk().crash());
    let found = found(rt, alloc, disk_of(rt, alloc, 0, &content));
    has_numbers(&content, numbers) && found == state
}

/// What was acknowledged outlasts a crash.
#[test]
fn opens_what_it_keeps(rt: HostRuntime) {
    let alloc = rt.alloc();
    for row in STAGES {
        check!(rt; keeps(&rt, alloc, *row) && goes_on(&rt, alloc, *row), row);
    }
}

/// Changes of a good file that leave it good: places with their new bytes, and the state that it means then.
const GOOD: &[(&str, &[(usize, &[u8])], u64)] = &[
    ("none", &[], 4),
    ("a closed retired gate", &[(12, b"\x01")], 4),
    ("bytes behind the header", &[(13, b"\xa5\xff")], 4),
    ("slot A is closed", &[(4_096, b"\x00")], 4),
    ("slot A is damaged", &[(4_105, b"\xff\xff\xff\xff")], 4),
    (
        "the journal of slot A is damaged",
        &[(1_052_680, b"\x01")],
        4,
    ),
    ("slot B is closed", &[(1_314_816, b"\xa4")], 3),
    ("slot A has a greater number", &[(4_104, b"\x03")], 3),
    ("slot A has a far greater number", &[(4_097, b"\xff")], 3),
    ("bytes behind the body", &[(1_314_837, b"\xa5\xff")], 4),
    ("the journal's gate is closed", &[(2_363_392, b"\xa4")], 3),
    (
        "bytes behind the closed gate",
        &[(2_363_402, b"\xa5\xa5")],
        4,
    ),
    (
        "another command",
        &[(2_363_401, b"\xa5\x00\x00\x00\x00\x00\x00\x01\x04")],
        260,
    ),
];

/// The state that is found in the content with other bytes at these places.
fn found_with(rt: &impl Abort, alloc: Global, content: &[u8], edits: &[(usize, &[u8])]) -> u64 {
    let content = edited(rt, alloc, content, edits);
    found(rt, alloc, disk_of(rt, alloc, 0, &content))
}

#[test]
fn reads_only_what_counts(rt: HostRuntime) {
    let content = content_after(&rt, rt.alloc(), TWO_SLOTS);
    for (about, edits, state) in GOOD {
        let found = found_with(&rt, rt.alloc(), &content, edits);
        check!(rt; found == *state, about);
    }
}

/// Whether a file with bytes behind it means its state, and keeps these bytes when it is written again.
fn keeps_more(rt: &impl Abort, alloc: Global, content: &[u8]) -> bool {
    let mut kept = open(rt, alloc, disk_of(rt, alloc, 0, content));
    let began = *kept.keeper.state() == 4;
    meet_all(rt, alloc, &mut kept, &[Call::Set(5), Call::Checkpoint]);
    let mut disk = kept.keeper.into_disk();
    let is_long = disk.len().expect(rt, "a length") == 2_625_541;
    let kept = open(rt, alloc, disk);
    let went_on = *kept.keeper.state() == 5;
    let content = content_of(rt, alloc, kept.keeper.into_disk());
    began && is_long && went_on && content.ends_with(b"\xa5more")
}

#[test]
fn ignores_bytes_behind_the_file(rt: HostRuntime) {
    let mut content = content_after(&rt, rt.alloc(), TWO_SLOTS);
    content.extend_from_slice(b"\xa5more").expect(&rt, "memory");
    check!(rt; keeps_more(&rt, rt.alloc(), &content));
}
