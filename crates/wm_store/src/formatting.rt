//! Makes a state file that means a registry with no watches.
//! Tests: file_tests/src/store/files.rt.
ghost use Rattle.std.specs.Prelude.{◌≡◌, ◌⊎◌, [], IfErr, OnOk, IsErrOf};
ghost use Rattle.wm_disk.specs.Calls.{Calls};
ghost use Rattle.wm_disk.specs.Contents.{Only};
ghost use Rattle.wm_disk.specs.declared.refusal.Refusal.TheVariants.{DeviceFailed as device_failed, NoMemory as no_memory};
ghost use Rattle.wm_checkpoint.specs.Meanings.{Means, slot_bytes};
ghost use Rattle.wm_checkpoint.specs.Layout.{sizes_2};
ghost use Rattle.wm_checkpoint.specs.FirstFile.{IsFirstFile};
ghost use Rattle.wm_checkpoint.specs.declared.layout.Slot.TheVariants.{A};
ghost use Rattle.wm_registry.specs.MachineLaws.{watches};
ghost use Rattle.wm_registry.specs.Registry.{empty_registry};
ghost use Rattle.wm_registry.specs.declared.version.Version.TheVariants.{Two};

use std::alloc::Global;
use wm_checkpoint::{Keeper, Version2};
use wm_disk::{Disk, Refusal};
use wm_registry::{FiledRegistry, Registry, Version, Watches};

/// Makes a state file of version 2 with no watches over whatever the disk holds. A crash inside it acknowledges
/// nothing, and it is run again. `13 DeviceFailed` where a write or a sync failed: the disk may then
/// mean anything or nothing. `16 NoMemory` when out of memory, with no call of the disk.
pub fn format<D: Disk + Drop>(alloc: Global, disk: &mut D) -> Result<(), Refusal>
    ensures formatted { D.honest disk.new → OnOk result (Means (watches Two) (D.seen disk.new) A 1 (empty_registry Two) []) }
    ensures first { D.honest disk.new → OnOk result (IsFirstFile sizes_2 (slot_bytes (watches Two).state 1 (empty_registry Two)) (D.seen disk.new)) }
    ensures durable { D.honest disk.new → OnOk result (Only (D.seen disk.new) (D.may_leave disk.new)) }
    ensures memory { IsErrOf result no_memory → disk.new ≡ disk.old }
    ensures calls { Calls D.Disk disk.old disk.new result }
    ensures kinds { IfErr result (λ e. (e ≡ device_failed) ⊎ (e ≡ no_memory)) }
{
    let first = FiledRegistry::new(Registry::new(alloc, Version::Two));
    Keeper::<D, Watches<Version2>, Version2>::format(alloc, disk, &first)
}
