//! What stands behind an open slot's gate.
//! Definitions: specs/Meanings.antt. Tests: file_tests/src/checkpoint/files.rt.
ghost use Rattle.std.specs.Prelude.{◌≤◌, length, IfOk};
ghost use Rattle.wm_checkpoint.specs.Layout.{max_slot_text};
ghost use Rattle.wm_checkpoint.specs.Machines.{meaning};
ghost use Rattle.wm_checkpoint.specs.Meanings.{IsSlotBytes};

use crate::layout::Layout;
use crate::machine::Machine;
use std::alloc::Global;
use wm_disk::NoMemory;
use wm_wire::Wire;

/// The number, the length of the encoded state and the encoded state, in one vector that fits a slot behind its
/// gate.
pub(crate) fn slot_bytes<M: Machine, L: Layout>(
    alloc: Global,
    number: u64,
    state: &M::State,
) -> Result<Vec<u8>, NoMemory>
    requires roomy { M.longest ≤ L.sizes.max_state_bytes }
    ensures text { IfOk result (λ v. IsSlotBytes (meaning M.Machine M.State.Wire M.Command.Wire L.sizes) number state.now v.items) }
    ensures short { IfOk result (λ v. length v.items ≤ max_slot_text L.sizes) }
{
    let mut bytes = Vec::new(alloc);
    let size = state.size() as u32;
    bytes.reserve(size as usize + 12)?;
    bytes.extend_from_slice(&number.to_be_bytes())?;
    bytes.extend_from_slice(&size.to_be_bytes())?;
    state.put(&mut bytes)?;
    Ok(bytes)
}
