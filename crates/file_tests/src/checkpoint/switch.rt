//! A switch, a machine whose commands aren't all bytes.
ghost use Rattle.std.specs.Prelude.{if◌then◌else◌};
ghost use Rattle.std.proofs.Common.{arith};
ghost use Rattle.file_tests.specs.Registers.{alive_register, changes_register, idle_register, position};

use crate::checks::check;
use crate::disks::{content_of, disk_of, overwrite};
use std::alloc::Global;
use std::process::Abort;
use wm_checkpoint::{Keeper, Machine, Version1};
use wm_disk::{MemDisk, NoMemory, Refusal};
use wm_wire::Wire;

/// A switch: 0 is off, and 1 on.
struct Switch;

impl Machine for Switch {
    type State = u64;

    type Command = bool;

    type Reply = bool;

    ghost after = { λ s c. position c };

    ghost changes = { λ s c. changes_register s (position c) };

    ghost reply = { λ s c. changes_register s (position c) };

    ghost longest = { 8 };

    fn apply(_alloc: Global, state: &mut u64, command: &bool) -> Result<(bool, bool), NoMemory> {
        let to = if *command { 1 } else { 0 };
        let differs = *state != to;
        *state = to;
        Ok((differs, differs))
    }

    fn copy(_alloc: Global, state: &u64) -> Result<u64, NoMemory> {
        Ok(*state)
    }

    ghost idle = { λ s c e. idle_register s (position c) e };

    ghost alive = { λ s c f h. alive_register s (position c) h };

    ghost small = { λ s f. omega arith };
}

/// A disk with a new file, whose first journal begins with these bytes.
fn with_journal(rt: &impl Abort, alloc: Global, journal: &[u8]) -> MemDisk {
    let mut disk = MemDisk::new(alloc, 0);
    Keeper::<MemDisk, Switch, Version1>::format(alloc, &mut disk, &0).expect(rt, "a file");
    let mut content = content_of(rt, alloc, disk);
    overwrite(rt, &mut content, 1_052_672, journal);
    disk_of(rt, alloc, 0, &content)
}

/// The state that is found where the first file's journal begins with these bytes, or why none is.
fn found(rt: &impl Abort, alloc: Global, journal: &[u8]) -> Result<u64, Refusal> {
    let disk = with_journal(rt, alloc, journal);
    match Keeper::<MemDisk, Switch, Version1>::open(alloc, disk) {
        Ok(keeper) => {
            let state = *keeper.state();
            drop(keeper);
            Ok(state)
        }
        Err((refusal, disk)) => {
            drop(disk);
            Err(refusal)
        }
    }
}

/// The first bytes of a journal, and the state that is found there.
const JOURNALS: &[(&[u8], Result<u64, Refusal>)] = &[
    (b"\x00\x05\x00", Ok(0)),
    (b"\xa5\x01\x00", Ok(1)),
    (b"\xa5\x01\xa5\x00\x00", Ok(0)),
    // no truth value
    (b"\xa5\x05\x00", Err(Refusal::Damaged)),
    (b"\xa5\x01\xa5\x02\x00", Err(Refusal::Damaged)),
    // it changes nothing
    (b"\xa5\x00\x00", Err(Refusal::Damaged)),
];

#[test]
fn refuses_what_is_no_command(rt: HostRuntime) {
    for (journal, wanted) in JOURNALS {
        let found = found(&rt, rt.alloc(), journal);
        check!(rt; found == *wanted, journal);
    }
}
