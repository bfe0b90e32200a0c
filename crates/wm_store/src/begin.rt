//! Makes the next incarnation of a registry durable, as each start does.
//! Definitions: specs/Beginnings.antt. Tests: file_tests/src/store/openings.rt.
ghost use Rattle.std.specs.Prelude.{◌≡◌, ◌≢◌, ◌⊎◌, ◌≤◌, false, IfErr, OnOk, IsErrOf};
ghost use Rattle.wm_disk.specs.Counters.{max_counter};
ghost use Rattle.wm_disk.specs.declared.refusal.Refusal.TheVariants.{DeviceFailed as device_failed, NoMemory as no_memory, Exhausted as exhausted};
ghost use Rattle.wm_checkpoint.specs.Kept.{disk_of, has_failed, slot_number_of, room_left, Keeps};
ghost use Rattle.wm_registry.specs.MachineLaws.{watches_in};
ghost use Rattle.wm_store.specs.Beginnings.{CallsKeeper, HasBegun, HasRoomForBegin, IsSpent, LeavesBegun, StandsStill};
ghost use Rattle.wm_store.specs.Room.{begin_len};

use std::alloc::Global;
use wm_checkpoint::Keeper;
use wm_disk::{Disk, Refusal};
use wm_registry::{Command, Filed, FiledCommand, FiledRegistry, Reply, Watches};

/// The bytes that a `Begin` takes in the journal: its gate and its tag.
const BEGIN: u64 = 2;

/// Begins the next incarnation of the registry, durably: by a checkpoint first where the journal has no
/// room for the command.
pub(crate) fn begin_in<D: Disk + Drop, V: Filed>(
    alloc: Global,
    keeper: &mut Keeper<D, Watches<V>, V>,
) -> Result<(), Refusal>
    requires kept { Keeps (watches_in V.sizes V.version) keeper.old }
    requires whole { has_failed keeper.old ≡ false }
    ensures calls { CallsKeeper D.Disk V.sizes V.version 1 keeper.old keeper.new result }
    ensures begun { OnOk result (HasBegun D.Disk V.sizes V.version keeper.old keeper.new) }
    ensures any_moment { LeavesBegun D.Disk V.sizes V.version keeper.old (disk_of keeper.new) }
    ensures unbegun { IfErr result (λ e. e ≢ device_failed → StandsStill D.Disk V.sizes V.version keeper.old keeper.new) }
    ensures exhausted { IsErrOf result exhausted → IsSpent D.Disk V.sizes V.version keeper.old × (keeper.new ≡ keeper.old) }
    ensures kinds { IfErr result (λ e. (e ≡ device_failed) ⊎ (e ≡ no_memory) ⊎ (e ≡ exhausted)) }
{
    let Ok(mut next) = keeper.state().registry().copy(alloc) else {
        return Err(Refusal::NoMemory);
    };
    if let Reply::Refused(refusal) = next.apply(alloc, &Command::Begin) {
        return Err(refusal);
    }
    if let Err(refusal) = find_room(alloc, keeper) {
        return Err(refusal);
    }
    let group = [FiledCommand::new(Command::Begin)];
    keeper.commit(alloc, &group, FiledRegistry::new(next))
}

/// Makes a checkpoint where the journal has no room for a `Begin`.
fn find_room<D: Disk + Drop, V: Filed>(
    alloc: Global,
    keeper: &mut Keeper<D, Watches<V>, V>,
) -> Result<(), Refusal>
    requires kept { Keeps (watches_in V.sizes V.version) keeper.old }
    requires whole { has_failed keeper.old ≡ false }
    ensures calls { CallsKeeper D.Disk V.sizes V.version 1 keeper.old keeper.new result }
    ensures still { StandsStill D.Disk V.sizes V.version keeper.old keeper.new }
    ensures stays { begin_len ≤ room_left keeper.old → keeper.new ≡ keeper.old }
    ensures found { OnOk result (HasRoomForBegin D.Disk V.sizes V.version keeper.old keeper.new) }
    ensures exhausted { IsErrOf result exhausted → (max_counter ≤ slot_number_of keeper.old) × (keeper.new ≡ keeper.old) }
    ensures kinds { IfErr result (λ e. (e ≡ device_failed) ⊎ (e ≡ no_memory) ⊎ (e ≡ exhausted)) }
{
    if keeper.room() >= BEGIN {
        return Ok(());
    }
    keeper.checkpoint(alloc)
}
