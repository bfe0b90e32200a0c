//! Keepers of a register, on disks in memory.
ghost use Rattle.std.specs.Prelude.{ℕ};
ghost use Rattle.wm_checkpoint.specs.Kept.{state_of, Keeps};
ghost use Rattle.wm_checkpoint.specs.Layout.{sizes_1};
ghost use Rattle.wm_checkpoint.specs.Machines.{meaning};

mod calls;
mod cuts;
mod damage;
mod files;
mod register;
mod retired;
mod switch;
mod version_2;
mod versions;

use crate::disks::{content_of, overwrite};
use register::Register;
use std::alloc::Global;
use std::marker::Model;
use std::process::Abort;
use wm_checkpoint::{Keeper, Machine, Version1};
use wm_disk::{MemDisk, Refusal};
use wm_wire::Wire;

/// A keeper of a register on a disk in memory.
type RegisterKeeper = Keeper<MemDisk, Register, Version1>;

/// A keeper of a register, in tests always one that keeps to its disk.
#[derive(Drop)]
struct Kept {
    keeper: RegisterKeeper,
}

impl Model for Kept {
    ghost Value = { ℕ };

    ghost view = { λ k. state_of k.keeper };

    ghost invariant = { λ k. Keeps (meaning ⟦<Register as Machine>⟧ ⟦<u64 as Wire>⟧ ⟦<u64 as Wire>⟧ sizes_1) k.keeper };
}

/// A disk with a formatted file.
fn formatted(rt: &impl Abort, alloc: Global, first: u64) -> MemDisk {
    let mut disk = MemDisk::new(alloc, 0);
    RegisterKeeper::format(alloc, &mut disk, &first).expect(rt, "a file");
    disk
}

fn open(rt: &impl Abort, alloc: Global, disk: MemDisk) -> Kept {
    let opened = RegisterKeeper::open(alloc, disk).map_err(|(refusal, _)| refusal);
    Kept {
        keeper: opened.expect(rt, "a keeper"),
    }
}

/// The refusal of an opening on this disk, and the disk that it hands back.
fn refused(rt: &impl Abort, alloc: Global, disk: MemDisk) -> (Refusal, MemDisk) {
    let answer = RegisterKeeper::open(alloc, disk);
    answer.err().expect(rt, "a refusal")
}

/// The state that is found on a disk.
fn found(rt: &impl Abort, alloc: Global, disk: MemDisk) -> u64 {
    let kept = open(rt, alloc, disk);
    let state = *kept.keeper.state();
    drop(kept);
    state
}

/// Commits one command, which has to differ from the state.
fn set(alloc: Global, kept: &mut Kept, to: u64) -> Result<(), Refusal> {
    if *kept.keeper.state() == to || kept.keeper.room() < 9 {
        return Err(Refusal::BadArguments);
    }
    kept.keeper.commit(alloc, &[to], to)
}

/// Commits a group of three commands, each of which has to differ from the one before it.
fn set_three(alloc: Global, kept: &mut Kept, a: u64, b: u64, c: u64) -> Result<(), Refusal> {
    let keeper = &mut kept.keeper;
    if *keeper.state() == a || a == b || b == c || keeper.room() < 27 {
        return Err(Refusal::BadArguments);
    }
    keeper.commit(alloc, &[a, b, c], c)
}

/// A call of a keeper, or of its disk's plan of failures.
#[derive(Clone, Copy, Debug)]
enum Call {
    /// Commits one command.
    Set(u64),
    /// Commits a group of three.
    SetThree(u64, u64, u64),
    /// Commits a group of none.
    SetNothing,
    Checkpoint,
    Sync,
    /// So many calls of the disk pass, and then each fails.
    Arm(u64),
}

fn meet(alloc: Global, kept: &mut Kept, call: Call) -> Result<(), Refusal> {
    match call {
        Call::Set(to) => set(alloc, kept, to),
        Call::SetThree(a, b, c) => set_three(alloc, kept, a, b, c),
        Call::SetNothing => {
            let state = *kept.keeper.state();
            kept.keeper.commit(alloc, &[], state)
        }
        Call::Checkpoint => kept.keeper.checkpoint(alloc),
        Call::Sync => kept.keeper.sync(),
        Call::Arm(calls) => {
            kept.keeper.arm(calls);
            Ok(())
        }
    }
}

/// Makes calls, none of which may be refused.
fn meet_all(rt: &impl Abort, alloc: Global, kept: &mut Kept, calls: &[Call]) {
    for call in calls {
        meet(alloc, kept, *call).expect(rt, "a call");
    }
}

/// The file behind these calls of a keeper that begins with the state 1.
fn content_after(rt: &impl Abort, alloc: Global, calls: &[Call]) -> Vec<u8> {
    let mut kept = open(rt, alloc, formatted(rt, alloc, 1));
    meet_all(rt, alloc, &mut kept, calls);
    content_of(rt, alloc, kept.keeper.into_disk())
}

/// A file without a checkpoint, of the state 6.
const UNUSED: &[Call] = &[Call::Set(2), Call::SetThree(3, 4, 5), Call::Set(6)];

/// A file after one, of the state 11: slot A is still open with the lesser number, and its journal has
/// records.
const USED: &[Call] = &[
    Call::Set(2),
    Call::SetThree(3, 4, 5),
    Call::Set(6),
    Call::Checkpoint,
    Call::Set(7),
    Call::SetThree(8, 9, 10),
    Call::Set(11),
];

/// A file after two, of the state 12: more records from before the first stand behind the closed gate of the
/// journal.
const USED_TWICE: &[Call] = &[
    Call::Set(2),
    Call::SetThree(3, 4, 5),
    Call::Set(6),
    Call::Checkpoint,
    Call::Set(7),
    Call::SetThree(8, 9, 10),
    Call::Set(11),
    Call::Checkpoint,
    Call::Set(12),
];

/// A file with slot A under number 1, the state 1 and the commands 2 and 3, and slot B under number 2, the
/// state 3 and the command 4.
const TWO_SLOTS: &[Call] = &[Call::Set(2), Call::Set(3), Call::Checkpoint, Call::Set(4)];

/// A journal with as many commands as it takes, 5 and 6 in turn, and its closed gate.
fn full_journal(rt: &impl Abort, alloc: Global) -> Vec<u8> {
    const FIRST: &[u8] = b"\xa5\0\0\0\0\0\0\0\x05";
    const PAIR: &[u8] = b"\xa5\0\0\0\0\0\0\0\x06\xa5\0\0\0\0\0\0\0\x05";
    let mut journal = Vec::new(alloc);
    journal.extend_from_slice(FIRST).expect(rt, "memory");
    for _ in 0..14_563 {
        journal.extend_from_slice(PAIR).expect(rt, "memory");
    }
    journal.push(0).expect(rt, "memory");
    journal
}

/// The content with other bytes at these places.
fn edited(rt: &impl Abort, alloc: Global, content: &[u8], edits: &[(usize, &[u8])]) -> Vec<u8> {
    let mut content = Vec::from_slice(alloc, content).expect(rt, "memory");
    for (at, bytes) in edits {
        overwrite(rt, &mut content, *at, bytes);
    }
    content
}
