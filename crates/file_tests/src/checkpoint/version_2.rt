//! The register in files of version 2, whose slots are four times as long.
ghost use Rattle.std.specs.Prelude.{ℕ};
ghost use Rattle.wm_checkpoint.specs.Kept.{state_of, Keeps};
ghost use Rattle.wm_checkpoint.specs.Layout.{sizes_2};
ghost use Rattle.wm_checkpoint.specs.Machines.{meaning};

use super::register::Register;
use super::{RegisterKeeper, TWO_SLOTS, content_after, edited};
use crate::checks::check;
use crate::disks::{assert_stand, content_of, disk_of};
use std::alloc::Global;
use std::marker::Model;
use std::process::Abort;
use wm_checkpoint::{Keeper, Machine, Version2};
use wm_disk::{Crashed, MemDisk, Refusal};
use wm_wire::Wire;

/// A keeper of a register in a file of version 2.
pub(super) type LongKeeper = Keeper<MemDisk, Register, Version2>;

/// Such a keeper, in tests always one that keeps to its disk.
#[derive(Drop)]
struct LongKept {
    keeper: LongKeeper,
}

impl Model for LongKept {
    ghost Value = { ℕ };

    ghost view = { λ k. state_of k.keeper };

    ghost invariant = { λ k. Keeps (meaning ⟦<Register as Machine>⟧ ⟦<u64 as Wire>⟧ ⟦<u64 as Wire>⟧ sizes_2) k.keeper };
}

/// Bytes at their places.
type Parts = &'static [(usize, &'static [u8])];

/// The header and slot A, right after the format.
const LAID_OUT: Parts = &[
    (0, b"\xa5\x57\x4d\x53\x54\x41\x54\x45\x00\x00\x00\x02\x00"),
    (
        4_096,
        b"\xa5\x00\x00\x00\x00\x00\x00\x00\x01\x00\x00\x00\x08\x00\x11\x22\x33\x44\x55\x66\x77\x00",
    ),
];

/// The disk was longer than a file, and its bytes weren't zeros.
#[test]
fn lays_out_version_2(rt: HostRuntime) {
    let alloc = rt.alloc();
    let filled = vec![in alloc; 0xffu8; 8_916_996].expect(&rt, "memory");
    let mut disk = disk_of(&rt, alloc, 0, &filled);
    LongKeeper::format(alloc, &mut disk, &0x0011_2233_4455_6677).expect(&rt, "a file");
    // the write and the sync that made the disk; 137 writes of zeros, the slot, the header, the slot's gate and
    // the header's
    check!(rt; disk.calls() == (1 + 137 + 4, 1 + 4, 0));
    let content = content_of(&rt, alloc, disk.crash());
    check!(rt; content.len() == 8_916_996);
    assert_stand(&rt, &content, LAID_OUT);
    // the bytes of the header, the slot and what is behind the file
    let count = content.iter().filter(|byte| **byte != 0).count();
    check!(rt; count == 9 + 10 + 4, count);
}

/// Opens the register on this disk.
fn open_long(rt: &impl Abort, alloc: Global, disk: MemDisk) -> LongKept {
    let opened = LongKeeper::open(alloc, disk).map_err(|(refusal, _)| refusal);
    LongKept {
        keeper: opened.expect(rt, "a keeper"),
    }
}

/// Commits one command, which has to differ from the state.
fn set_long(rt: &impl Abort, alloc: Global, kept: &mut LongKept, to: u64) {
    let keeper = &mut kept.keeper;
    assert!(rt; *keeper.state() != to && keeper.room() >= 9);
    keeper.commit(alloc, &[to], to).expect(rt, "a commit");
}

/// A file of version 2 with slot A under number 1, the state 1 and the commands 2 and 3, and slot B under
/// number 2, the state 3 and the command 4.
pub(super) fn two_slots(rt: &impl Abort, alloc: Global) -> Vec<u8> {
    let mut disk = MemDisk::new(alloc, 0);
    LongKeeper::format(alloc, &mut disk, &1).expect(rt, "a file");
    let mut kept = open_long(rt, alloc, disk);
    set_long(rt, alloc, &mut kept, 2);
    set_long(rt, alloc, &mut kept, 3);
    kept.keeper.checkpoint(alloc).expect(rt, "a checkpoint");
    set_long(rt, alloc, &mut kept, 4);
    content_of(rt, alloc, kept.keeper.into_disk().crash())
}

/// The state and the room of a keeper of these bytes.
fn state_and_room(rt: &impl Abort, alloc: Global, content: &[u8]) -> (u64, u64) {
    let kept = open_long(rt, alloc, disk_of(rt, alloc, 0, content));
    let found = (*kept.keeper.state(), kept.keeper.room());
    drop(kept);
    found
}

/// The slots and their journals.
const WRITTEN: Parts = &[
    (
        4_096,
        b"\xa5\x00\x00\x00\x00\x00\x00\x00\x01\x00\x00\x00\x08\x00\x00\x00\x00\x00\x00\x00\x01\x00",
    ),
    (
        4_198_400,
        b"\xa5\x00\x00\x00\x00\x00\x00\x00\x02\xa5\x00\x00\x00\x00\x00\x00\x00\x03\x00",
    ),
    (
        4_460_544,
        b"\xa5\x00\x00\x00\x00\x00\x00\x00\x02\x00\x00\x00\x08\x00\x00\x00\x00\x00\x00\x00\x03\x00",
    ),
    (8_654_848, b"\xa5\x00\x00\x00\x00\x00\x00\x00\x04\x00"),
];

#[test]
fn writes_in_version_2(rt: HostRuntime) {
    let content = two_slots(&rt, rt.alloc());
    check!(rt; content.len() == 8_916_992);
    assert_stand(&rt, &content, WRITTEN);
    // all bytes of an empty journal but its closed gate, and those of one command
    check!(rt; state_and_room(&rt, rt.alloc(), &content) == (4, 262_143 - 9));
}

/// Whether these bytes are damaged to a keeper of version 2.
fn is_damaged_long(rt: &impl Abort, alloc: Global, content: &[u8]) -> bool {
    let answer = LongKeeper::open(alloc, disk_of(rt, alloc, 0, content));
    let (refusal, disk) = answer.err().expect(rt, "a refusal");
    drop(disk);
    refusal == Refusal::Damaged
}

/// What makes the file damaged: places with their new bytes. The body of slot B would be longer than a register.
const DAMAGED: &[(&str, Parts)] = &[
    ("version 1", &[(11, b"\x01")]),
    ("version 3", &[(11, b"\x03")]),
    (
        "a longer body than may be",
        &[(4_460_553, b"\x00\x3f\xff\xf4")],
    ),
    (
        "the longest body that may be",
        &[(4_460_553, b"\x00\x3f\xff\xf3")],
    ),
];

#[test]
fn refuses_damaged_files_of_version_2(rt: HostRuntime) {
    let alloc = rt.alloc();
    let mut content = two_slots(&rt, alloc);
    for (about, edits) in DAMAGED {
        let edited = edited(&rt, alloc, &content, edits);
        check!(rt; is_damaged_long(&rt, alloc, &edited), about);
    }
    content.truncate(8_916_991);
    check!(rt; is_damaged_long(&rt, alloc, &content));
}

/// Whether these bytes are damaged to a keeper of version 1.
fn is_damaged(rt: &impl Abort, alloc: Global, content: &[u8]) -> bool {
    let answer = RegisterKeeper::open(alloc, disk_of(rt, alloc, 0, content));
    let (refusal, disk) = answer.err().expect(rt, "a refusal");
    drop(disk);
    refusal == Refusal::Damaged
}

/// A file of one version is damaged to a keeper of the other, also where it is long enough.
#[test]
fn tells_the_versions_apart(rt: HostRuntime) {
    let alloc = rt.alloc();
    check!(rt; is_damaged(&rt, alloc, &two_slots(&rt, alloc)));
    let mut content = content_after(&rt, alloc, TWO_SLOTS);
    check!(rt; is_damaged_long(&rt, alloc, &content));
    content.resize(8_916_992, 0).expect(&rt, "memory");
    check!(rt; is_damaged_long(&rt, alloc, &content));
}
