//! Reads the state of a file that another is made from, and retires the file.
//! Definitions: specs/Retirement.antt, specs/Found.antt. Tests: file_tests/src/checkpoint/retired.rt.
ghost use Rattle.std.specs.Prelude.{◌≡◌, ◌≤◌, ◌⊎◌, ◌∷◌, [], ℕ, length, IfOk, IfErr, IsErrOf, OnOk};
ghost use Rattle.wm_disk.specs.Calls.{Calls, CallsDevice};
ghost use Rattle.wm_disk.specs.Contents.{Only, overwritten};
ghost use Rattle.wm_disk.specs.Moments.{LeavesOnly};
ghost use Rattle.wm_journal.specs.Records.{open_gate};
ghost use Rattle.wm_checkpoint.specs.Machines.{meaning};

use crate::keeper::Keeper;
use crate::layout::{Layout, RETIRED_PLACE};
use crate::machine::Machine;
use crate::read::find;
use crate::write::put_durably;
use std::alloc::Global;
use wm_disk::{DeviceFailed, Disk, Refusal};
use wm_journal::OPEN;

impl<D: Disk + Drop, M: Machine, L: Layout> Keeper<D, M, L> {
    ghost use Rattle.wm_checkpoint.specs.Found.{ReadsDurably};
    ghost use Rattle.wm_checkpoint.specs.Layout.{file_len, retired_place};
    ghost use Rattle.wm_checkpoint.specs.Meanings.{IsDamaged, IsRetired, MeansState};
    ghost use Rattle.wm_checkpoint.specs.Retirement.{IsMeantOrRetired};
    ghost use Rattle.wm_disk.specs.declared.refusal.Refusal.TheVariants.{DeviceFailed as device_failed, NoMemory as no_memory, Damaged as damaged, Retired as retired};

    /// The state that the disk means: length, sync and a reading of the whole file; nothing is written. `14
    /// Damaged` if it means no state and isn't retired, `20 Retired` if it is retired, `13 DeviceFailed` if the
    /// device failed, `16 NoMemory` when out of memory.
    pub fn read(alloc: Global, disk: &mut D) -> Result<M::State, Refusal>
        ensures found { D.honest disk.new → IfOk result (λ state. MeansState (meaning M.Machine M.State.Wire M.Command.Wire L.sizes) state (D.seen disk.old)) }
        ensures damaged { D.honest disk.new → IsErrOf result damaged → IsDamaged (meaning M.Machine M.State.Wire M.Command.Wire L.sizes) (D.seen disk.old) }
        ensures retired { D.honest disk.new → IsErrOf result retired → IsRetired L.sizes (D.seen disk.old) }
        ensures reads { D.honest disk.new → ReadsDurably D.Disk disk.old disk.new result }
        // A file that is retired is so durably.
        ensures settled { D.honest disk.new → IsErrOf result retired → Only (D.seen disk.old) (D.may_leave disk.new) }
        ensures device { Calls D.Disk disk.old disk.new result }
        ensures kinds { IfErr result (λ e. (e ≡ device_failed) ⊎ (e ≡ no_memory) ⊎ (e ≡ damaged) ⊎ (e ≡ retired)) }
    {
        match find::<D, M, L>(alloc, disk) {
            Ok(found) => Ok(found.state),
            Err(refusal) => Err(refusal),
        }
    }

    /// Opens the retired gate of a file, durably, by one write and one sync: from then on the file means no state, and opening it
    /// is refused `20 Retired`. `DeviceFailed` if the device failed: the file then means its state, or it is retired.
    pub fn retire(disk: &mut D) -> Result<(), DeviceFailed>
        requires long { D.honest disk.old → file_len L.sizes ≤ length (D.seen disk.old) }
        ensures written { D.honest disk.new → OnOk result (D.seen disk.new ≡ overwritten (D.seen disk.old) retired_place (open_gate ∷ [])) }
        ensures retired { (state : M.State) → D.honest disk.new → MeansState (meaning M.Machine M.State.Wire M.Command.Wire L.sizes) state (D.seen disk.old) → OnOk result (IsRetired L.sizes (D.seen disk.new)) }
        ensures durable { D.honest disk.new → OnOk result (Only (D.seen disk.new) (D.may_leave disk.new)) }
        // A crash at any moment of the call leaves a file that means the same state, or a retired one.
        ensures any_moment { (state : M.State) → D.honest disk.new → Only (D.seen disk.old) (D.may_leave disk.old) → MeansState (meaning M.Machine M.State.Wire M.Command.Wire L.sizes) state (D.seen disk.old) → LeavesOnly D.moment D.left_since disk.old disk.new (IsMeantOrRetired (meaning M.Machine M.State.Wire M.Command.Wire L.sizes) state (D.seen disk.old)) }
        ensures device { CallsDevice D.Disk disk.old disk.new result }
    {
        put_durably(disk, RETIRED_PLACE, &[OPEN])
    }
}
