//! Gates, and how those of a group are opened.
//! Definitions: specs/Gates.antt, specs/Areas.antt. Tests: file_tests/src/journal/calls.rt.
ghost use Rattle.std.specs.Prelude.{◌≤◌, ◌<◌, ◌+◌, ◌^◌, ℕ, List, length, slice_index, EachIndex, OnOk};
ghost use Rattle.wm_disk.specs.Calls.{CallsDevice, EachLeft, LeavesAtAnyMoment};
ghost use Rattle.wm_journal.specs.Areas.{SameOutside};
ghost use Rattle.wm_journal.specs.Gates.{AreGatesOf, IsUnderGates, IsOpenTo};

use wm_disk::{DeviceFailed, Disk};
use wm_wire::Wire;

/// An open gate: the record behind it counts.
pub const OPEN: u8 = 0xa5;

/// A closed gate, as it is written. Any value but `OPEN` closes one.
pub const CLOSED: u8 = 0;

/// Opens each of these gates of the area of `len` bytes from `offset` on, first to last, by a write each.
pub(crate) fn open_each<D: Disk, W: Wire>(
    disk: &mut D,
    offset: u64,
    len: u64,
    gates: &[u64],
) -> Result<(), DeviceFailed>
    requires small { offset + len < 2 ^ 62 }
    requires inside { EachIndex gates.now (λ k. slice_index gates.now k < len) }
    requires lies { D.honest disk.old → offset + len ≤ length (D.seen disk.old) }
    ensures opened { (held added : List W) (before : List ℕ) → D.honest disk.new → AreGatesOf W.Wire held added gates.now → IsUnderGates W.Wire offset len before held added (D.seen disk.old) → OnOk result (IsOpenTo W.Wire offset len before held added (length added) (D.seen disk.new)) }
    ensures outside { D.honest disk.new → OnOk result (SameOutside offset len (D.seen disk.old) (D.seen disk.new)) }
    // A crash leaves the group under some of its gates, open or closed.
    ensures crash { (held added : List W) (before : List ℕ) → D.honest disk.new → AreGatesOf W.Wire held added gates.now → EachLeft D.Disk disk.old (IsUnderGates W.Wire offset len before held added) → EachLeft D.Disk disk.new (IsUnderGates W.Wire offset len before held added) }
    ensures any_moment { (held added : List W) (before : List ℕ) → AreGatesOf W.Wire held added gates.now → EachLeft D.Disk disk.old (IsUnderGates W.Wire offset len before held added) → LeavesAtAnyMoment D.Disk disk.old disk.new (IsUnderGates W.Wire offset len before held added) }
    ensures device { CallsDevice D.Disk disk.old disk.new result }
{
    for place in gates {
        disk.write_at(offset + *place, &[OPEN])?;
    }
    Ok(())
}
