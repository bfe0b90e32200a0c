//! Drives a world through a list of events; the promise of the whole server is its contract.
//! Definitions: specs/Headline.antt. Tests: session_tests/src/world.
ghost use Rattle.std.specs.Prelude.{◌≡◌, [], IfErr, IfOk};
ghost use Rattle.wm_disk.specs.declared.refusal.Refusal.TheVariants.{NoMemory as no_memory};
ghost use Rattle.wm_world.specs.Headline.{IsDriven, IsDrivenFrom, IsDrivenOver, IsFormatted, IsFormattedInVersion1};
ghost use Rattle.wm_world.specs.Laws.{OneMoment, OneMomentOfAnswers};
ghost use Rattle.wm_world.specs.Refinement.{AreHonest, OtherIs, Refines, disk_of_world, disks_of_world};
ghost use Rattle.wm_world.specs.Steps.{Leads};
ghost use Rattle.wm_world.specs.declared.other.Other.TheVariants.{Nothing};

use crate::event::Event;
use crate::other::Other;
use crate::world::World;
use std::alloc::Global;
use wm_clock::clock_laws;
use wm_disk::{Crashed, NoMemory, Refusal};
use wm_registry::every_registry;
use wm_since::every_client;
use wm_view::every_operation;

/// The world after these events, from one at which nothing happened yet.
fn run_on<D: Crashed + Drop>(
    alloc: Global,
    first: World<D>,
    events: Vec<Event>,
) -> Result<World<D>, NoMemory>
    ensures alone { IfOk result (λ world. (disks_of_world D.Disk first).other ≡ Nothing → (disks_of_world D.Disk world).other ≡ Nothing) }
    ensures honest { IfOk result (λ world. AreHonest D.Disk (disks_of_world D.Disk world) → AreHonest D.Disk (disks_of_world D.Disk first)) }
    ensures run { IfOk result (λ world. AreHonest D.Disk (disks_of_world D.Disk world) → (w : _) → Leads [] w → Refines D.Disk first w → IsDrivenFrom D.Disk D.plan (record { disks = disks_of_world D.Disk first; world = w }) events.items world) }
{
    every_client();
    every_operation();
    every_registry();
    let mut world = first;
    for event in events {
        world = world.step(alloc, event)?;
    }
    Ok(world)
}

/// A world after these events, from a disk as a `format` that succeeded left it. An event that doesn't
/// fit changes nothing. `16 NoMemory` alone is answered, as soon as an event meets it; the disk is dropped
/// then, with all that was acknowledged on it.
pub fn drive<D: Crashed + Drop>(
    alloc: Global,
    disk: D,
    events: Vec<Event>,
) -> Result<World<D>, Refusal>
    requires formatted { D.honest disk → IsFormatted D.Disk disk }
    // The world stands at the end of a run over just these events, and at each moment of it every content
    // that a crash may leave keeps the prefix, and each client has exactly the matching files.
    ensures run { IfOk result (λ world. D.honest (disk_of_world D.Disk world) → IsDriven D.Disk D.plan disk events.items world) }
    ensures honest { IfOk result (λ world. D.honest (disk_of_world D.Disk world) → D.honest disk) }
    // No clock text names two moments of a run.
    ensures one_moment { OneMoment }
    ensures answers { OneMomentOfAnswers }
    ensures memory { IfErr result (λ e. e ≡ no_memory) }
{
    clock_laws();
    every_client();
    every_operation();
    every_registry();
    let first = World::new(alloc, disk, Other::Nothing);
    let world = run_on(alloc, first, events)?;
    Ok(world)
}

/// A world after these events, over two disks: on the old one, as a `format` of version 1 that succeeded left
/// it, until [`Event::Migrate`] is done, and then on the new one, whatever it held. Otherwise as [`drive`].
/// Nothing is promised of a run if either disk breaks its laws.
pub fn drive_two<D: Crashed + Drop>(
    alloc: Global,
    old: D,
    new: D,
    events: Vec<Event>,
) -> Result<World<D>, Refusal>
    requires formatted { D.honest old → IsFormattedInVersion1 D.Disk old }
    // The world stands at the end of a run over just these events. At each moment of it every content that a
    // crash may leave keeps the prefix, or it is that of a retired file beside a new one that means what is
    // kept; and each client has exactly the matching files.
    ensures run { IfOk result (λ world. D.honest (disk_of_world D.Disk world) → OtherIs D.honest (disks_of_world D.Disk world).other → IsDrivenOver D.Disk D.plan old new events.items world) }
    ensures honest { IfOk result (λ world. D.honest (disk_of_world D.Disk world) → OtherIs D.honest (disks_of_world D.Disk world).other → D.honest old × D.honest new) }
    // No clock text names two moments of a run, on either file.
    ensures one_moment { OneMoment }
    ensures answers { OneMomentOfAnswers }
    ensures memory { IfErr result (λ e. e ≡ no_memory) }
{
    clock_laws();
    every_client();
    every_operation();
    every_registry();
    let first = World::new(alloc, old, Other::New(new));
    let world = run_on(alloc, first, events)?;
    Ok(world)
}
