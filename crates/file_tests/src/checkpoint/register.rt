//! A register, the machine of these tests.
ghost use Rattle.file_tests.specs.Registers.{alive_register, changes_register, idle_register};
ghost use Rattle.std.proofs.Common.{arith};

use std::alloc::Global;
use wm_checkpoint::Machine;
use wm_disk::NoMemory;

/// A number that each command sets.
pub struct Register;

impl Machine for Register {
    type State = u64;

    type Command = u64;

    type Reply = bool;

    ghost after = { λ s c. c };

    ghost changes = { changes_register };

    ghost reply = { changes_register };

    ghost longest = { 8 };

    fn apply(_alloc: Global, state: &mut u64, command: &u64) -> Result<(bool, bool), NoMemory> {
        let differs = *state != *command;
        *state = *command;
        Ok((differs, differs))
    }

    fn copy(_alloc: Global, state: &u64) -> Result<u64, NoMemory> {
        Ok(*state)
    }

    ghost idle = { idle_register };

    ghost alive = { λ s c f h. alive_register s c h };

    ghost small = { λ s f. omega arith };
}
