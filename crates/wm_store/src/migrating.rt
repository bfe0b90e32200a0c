//! Moves a registry from a file of version 1 into one of version 2.
//! Definitions: specs/Migrations.antt. Tests: file_tests/src/store/migrations.rt.
ghost use Rattle.std.specs.Prelude.{◌≡◌, ◌≢◌, ◌⊎◌, ℕ, true, false, IfOk, IfErr, OnOk, IsErrOf};
ghost use Rattle.wm_disk.specs.Calls.{Calls, EachLeft};
ghost use Rattle.wm_disk.specs.Contents.{Only};
ghost use Rattle.wm_disk.specs.Moments.{LeavesOnly};
ghost use Rattle.wm_disk.specs.declared.refusal.Refusal.TheVariants.{DeviceFailed as device_failed, NoMemory as no_memory, Damaged as damaged};
ghost use Rattle.wm_checkpoint.specs.Layout.{sizes_1};
ghost use Rattle.wm_checkpoint.specs.Found.{ReadsDurably};
ghost use Rattle.wm_checkpoint.specs.Meanings.{IsDamaged, IsRetired, MeansState};
ghost use Rattle.wm_checkpoint.specs.Numbers.{IsNumberedTo};
ghost use Rattle.wm_registry.specs.MachineLaws.{watches};
ghost use Rattle.wm_registry.specs.Roots.{State};
ghost use Rattle.wm_registry.specs.declared.version.Version.TheVariants.{One, Two};
ghost use Rattle.wm_store.specs.Meant.{MeansRegistry};
ghost use Rattle.wm_store.specs.Migrations.{CallsBoth, HasMoved, HaveNoRegistry, IsMeantByOldOrNew, IsMigrated, MigratesOnly, WritesNeither};

use std::alloc::Global;
use wm_checkpoint::{Keeper, Version1, Version2};
use wm_disk::{Disk, Refusal};
use wm_registry::{FiledRegistry, Watches};

/// Moves the registry that the old file means, which is one of version 1, into the new file, and then retires the old one.
/// Whatever the new file held is written over. If the old file is retired already, the new one has to mean a
/// registry in version 2, and nothing is written. A call that was cut is run again: as long as the old file isn't
/// retired, the new one is made anew. So the new file is opened only after an `Ok`.
///
/// `14 Damaged` if the old file means no registry in version 1 and isn't retired, or is retired and the new one means none in
/// version 2, and `16 NoMemory` when out of memory: nothing was written. `13 DeviceFailed` if one of the two devices
/// failed: the old file means its registry still, or it is retired and the new one means it.
pub fn migrate<D: Disk + Drop>(alloc: Global, old: &mut D, new: &mut D) -> Result<(), Refusal>
    ensures migrated { D.honest old.new → D.honest new.new → OnOk result (IsMigrated D.Disk old.old new.old old.new new.new) }
    // A crash at any moment of the call leaves an old file that means the registry, or a retired one and a new one that means it.
    ensures any_moment { D.honest old.new → D.honest new.new → MigratesOnly D.Disk old.old new.old old.new new.new }
    // The call raises no number of an open slot of the old file.
    ensures numbered { D.honest old.new → (n : ℕ) → EachLeft D.Disk old.old (IsNumberedTo sizes_1 n) → EachLeft D.Disk old.new (IsNumberedTo sizes_1 n) }
    ensures damaged { D.honest old.new → D.honest new.new → IsErrOf result damaged → HaveNoRegistry (D.seen old.old) (D.seen new.old) }
    ensures unwritten { D.honest old.new → D.honest new.new → IfErr result (λ e. e ≢ device_failed → WritesNeither D.Disk old.old new.old old.new new.new) }
    ensures calls { CallsBoth D.Disk old.old new.old old.new new.new result }
    ensures kinds { IfErr result (λ e. (e ≡ device_failed) ⊎ (e ≡ no_memory) ⊎ (e ≡ damaged)) }
{
    match Keeper::<D, Watches<Version1>, Version1>::read(alloc, old) {
        Ok(registry) => move_registry(alloc, old, new, registry),
        Err(refusal) => match refusal {
            Refusal::Retired => find_moved(alloc, new),
            _ => Err(refusal),
        },
    }
}

/// Makes the new file mean the registry, durably, and retires the old one only then.
fn move_registry<D: Disk + Drop>(
    alloc: Global,
    old: &mut D,
    new: &mut D,
    registry: FiledRegistry<Version1>,
) -> Result<(), Refusal>
    requires meant { D.honest old.old → MeansState (watches One) registry (D.seen old.old) }
    requires durable { D.honest old.old → Only (D.seen old.old) (D.may_leave old.old) }
    ensures moved { D.honest old.new → D.honest new.new → OnOk result (HasMoved D.Disk old.old old.new new.new registry) }
    ensures any_moment { D.honest old.new → D.honest new.new → LeavesOnly D.moment D.left_since old.old old.new (IsMeantByOldOrNew D.Disk new.new registry) }
    ensures numbered { D.honest old.new → (n : ℕ) → IsNumberedTo sizes_1 n (D.seen old.old) → EachLeft D.Disk old.new (IsNumberedTo sizes_1 n) }
    ensures unwritten { IfErr result (λ e. e ≢ device_failed → (old.new ≡ old.old) × (new.new ≡ new.old)) }
    ensures calls { CallsBoth D.Disk old.old new.old old.new new.new result }
    ensures kinds { IfErr result (λ e. (e ≡ device_failed) ⊎ (e ≡ no_memory)) }
{
    let moved = registry.into_version_2();
    Keeper::<D, Watches<Version2>, Version2>::format(alloc, new, &moved)?;
    Keeper::<D, Watches<Version1>, Version1>::retire(old)?;
    Ok(())
}

/// `Damaged` if the file means no registry in version 2. Nothing is written.
fn find_moved<D: Disk + Drop>(alloc: Global, new: &mut D) -> Result<(), Refusal>
    ensures means { D.honest new.new → OnOk result ((s : State) × (s.version ≡ Two) × MeansRegistry s (D.seen new.old)) }
    ensures damaged { D.honest new.new → IsErrOf result damaged → (s : State) → s.version ≡ Two → MeansRegistry s (D.seen new.old) → ⊥ }
    ensures reads { D.honest new.new → ReadsDurably D.Disk new.old new.new result }
    ensures device { Calls D.Disk new.old new.new result }
    ensures kinds { IfErr result (λ e. (e ≡ device_failed) ⊎ (e ≡ no_memory) ⊎ (e ≡ damaged)) }
{
    match Keeper::<D, Watches<Version2>, Version2>::read(alloc, new) {
        Ok(registry) => {
            drop(registry);
            Ok(())
        }
        Err(refusal) => match refusal {
            Refusal::Retired => Err(Refusal::Damaged),
            _ => Err(refusal),
        },
    }
}

/// Whether a file of version 1 is retired; if it isn't, it means a registry of version 1. Nothing is written. `14 Damaged` if it means
/// none and isn't retired, `13 DeviceFailed` if the device failed, `16 NoMemory` when out of memory.
pub fn is_retired<D: Disk + Drop>(alloc: Global, disk: &mut D) -> Result<bool, Refusal>
    ensures retired { D.honest disk.new → IfOk result (λ b. b ≡ true → IsRetired sizes_1 (D.seen disk.old)) }
    ensures means { D.honest disk.new → IfOk result (λ b. b ≡ false → (s : State) × (s.version ≡ One) × MeansRegistry s (D.seen disk.old)) }
    ensures damaged { D.honest disk.new → IsErrOf result damaged → IsDamaged (watches One) (D.seen disk.old) }
    ensures reads { D.honest disk.new → ReadsDurably D.Disk disk.old disk.new result }
    ensures device { Calls D.Disk disk.old disk.new result }
    ensures kinds { IfErr result (λ e. (e ≡ device_failed) ⊎ (e ≡ no_memory) ⊎ (e ≡ damaged)) }
{
    match Keeper::<D, Watches<Version1>, Version1>::read(alloc, disk) {
        Ok(registry) => {
            drop(registry);
            Ok(false)
        }
        Err(refusal) => match refusal {
            Refusal::Retired => Ok(true),
            _ => Err(refusal),
        },
    }
}
