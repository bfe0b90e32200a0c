//! A world over two state files: rows of a migration, also of one that is cut.
ghost use Rattle.std.specs.Prelude.{[], OnOk};
ghost use Rattle.wm_checkpoint.specs.Meanings.{Means};
ghost use Rattle.wm_checkpoint.specs.declared.layout.Slot.TheVariants.{A};
ghost use Rattle.wm_disk.specs.Contents.{Only};
ghost use Rattle.wm_registry.specs.MachineLaws.{watches};
ghost use Rattle.wm_registry.specs.Registry.{empty_registry};
ghost use Rattle.wm_registry.specs.declared.version.Version.TheVariants.{One};

use super::{found, put, root, show, watch};
use crate::checks::check;
use std::alloc::Global;
use std::process::Abort;
use wm_checkpoint::{Keeper, Version1};
use wm_disk::{Crashed, Disk, MemDisk, Refusal};
use wm_expr::Expr;
use wm_registry::{FiledRegistry, Registry, Version, Watches};
use wm_world::{Event, World, drive_two};

/// An event of a row.
#[derive(Clone, Copy, Debug)]
pub(super) enum Did {
    Open,
    Watch(&'static str),
    Stop,
    Crash,
    Migrate,
    Arm(u64),
    ArmOther(u64),
}

use Did::{Arm, ArmOther, Crash, Migrate, Open, Stop, Watch};

fn event(rt: &impl Abort, alloc: Global, did: Did) -> Event {
    match did {
        Open => Event::Open,
        Watch(path) => watch(rt, alloc, path),
        Stop => Event::Stop,
        Crash => Event::Crash,
        Migrate => Event::Migrate,
        Arm(calls) => Event::Arm(calls),
        ArmOther(calls) => Event::ArmOther(calls),
    }
}

pub(super) fn put_all(rt: &impl Abort, alloc: Global, row: &[Did], events: &mut Vec<Event>) {
    for did in row {
        put(rt, event(rt, alloc, *did), events);
    }
}

/// Makes a file of version 1.
fn format_first<D: Disk + Drop>(alloc: Global, disk: &mut D) -> Result<(), Refusal>
    ensures formatted { D.honest disk.new → OnOk result (Means (watches One) (D.seen disk.new) A 1 (empty_registry One) []) }
    ensures durable { D.honest disk.new → OnOk result (Only (D.seen disk.new) (D.may_leave disk.new)) }
{
    let first = FiledRegistry::new(Registry::new(alloc, Version::One));
    Keeper::<D, Watches<Version1>, Version1>::format(alloc, disk, &first)
}

/// A world over a new file of version 1 and another disk, after these events.
fn driven_over<D: Crashed + Drop>(
    alloc: Global,
    old: D,
    new: D,
    events: Vec<Event>,
) -> Result<World<D>, Refusal> {
    let mut old = old;
    format_first(alloc, &mut old)?;
    drive_two(alloc, old, new, events)
}

/// What a world shows after these events on a new file of version 1 beside an empty disk, where this choice says what their crashes
/// leave.
pub(super) fn shown_over(
    rt: &impl Abort,
    alloc: Global,
    choice: u64,
    events: Vec<Event>,
) -> String {
    let mut text = String::new(alloc);
    let old = MemDisk::new(alloc, choice);
    let new = MemDisk::new(alloc, choice);
    let world = driven_over(alloc, old, new, events).expect(rt, "a world");
    show(rt, alloc, &world, &mut text);
    drop(world);
    text
}

/// What a world shows after each row of events: its incarnation and watches, or nothing while it is down. The old disk has
/// three calls until its file is read (its length, a sync and the reading) and two that retire it (a write and a sync).
const ROWS: &[(&[Did], &str)] = &[
    // What was watched in the old file is watched in the new one, in the next incarnation.
    (&[Open, Watch("/r"), Stop, Migrate, Open], "2 /r"),
    (
        &[
            Open,
            Watch("/r"),
            Stop,
            Migrate,
            Open,
            Watch("/s"),
            Crash,
            Open,
        ],
        "3 /r /s",
    ),
    // before any start
    (&[Migrate, Open], "1"),
    // again: nothing happens
    (&[Open, Watch("/r"), Stop, Migrate, Migrate, Open], "2 /r"),
    (
        &[Open, Watch("/r"), Stop, Migrate, Open, Stop, Migrate, Open],
        "3 /r",
    ),
    // while the server is up: nothing happens
    (&[Open, Watch("/r"), Migrate], "1 /r"),
    (
        &[Open, Watch("/r"), Migrate, Watch("/s"), Stop, Open],
        "2 /r /s",
    ),
    (&[Open, Watch("/r"), Migrate, Stop, Migrate, Open], "2 /r"),
    // A batch that was cut behind its first gates is found, by a stop.
    (&[Open, Arm(3), Watch("/s"), Stop, Migrate, Open], "2 /s"),
    (&[Open, Arm(3), Watch("/s"), Crash, Migrate, Open], "2"),
    // cut before the old file is read, and behind it: it is opened as ever
    (
        &[Open, Watch("/r"), Stop, Arm(0), Migrate, Stop, Open],
        "2 /r",
    ),
    (
        &[Open, Watch("/r"), Stop, Arm(2), Migrate, Crash, Open],
        "2 /r",
    ),
    (
        &[Open, Watch("/r"), Stop, Arm(3), Migrate, Stop, Open],
        "2 /r",
    ),
    (
        &[Open, Watch("/r"), Stop, ArmOther(0), Migrate, Open],
        "2 /r",
    ),
    (
        &[Open, Watch("/r"), Stop, ArmOther(143), Migrate, Open],
        "2 /r",
    ),
    // Behind it a command may come, which a next migration moves.
    (
        &[
            Open,
            Watch("/r"),
            Stop,
            ArmOther(143),
            Migrate,
            Open,
            Watch("/s"),
            Stop,
            Migrate,
            Open,
        ],
        "3 /r /s",
    ),
    // cut behind the write that retires the old file: it isn't opened, and a next migration ends it
    (&[Open, Watch("/r"), Stop, Arm(4), Migrate, Stop, Open], ""),
    (
        &[
            Open,
            Watch("/r"),
            Stop,
            Arm(4),
            Migrate,
            Stop,
            Open,
            Migrate,
            Open,
        ],
        "2 /r",
    ),
    (
        &[
            Open,
            Watch("/r"),
            Stop,
            Arm(4),
            Migrate,
            Stop,
            Migrate,
            Open,
        ],
        "2 /r",
    ),
    // A crash that leaves what was durable undoes that write.
    (
        &[Open, Watch("/r"), Stop, Arm(4), Migrate, Crash, Open],
        "2 /r",
    ),
    // a plan that nothing ends
    (&[Open, Watch("/r"), Stop, Arm(0), Migrate, Open], ""),
    // The disks changed places: the plan for the one in use is one for the new one, and the old one has no call.
    (&[Open, Watch("/r"), Stop, Migrate, Arm(0), Open], ""),
    (
        &[Open, Watch("/r"), Stop, Migrate, ArmOther(0), Open],
        "2 /r",
    ),
];

fn row_shown(rt: &impl Abort, alloc: Global, row: &[Did]) -> String {
    let mut events = Vec::new(alloc);
    put_all(rt, alloc, row, &mut events);
    shown_over(rt, alloc, 0, events)
}

#[test]
fn migrates(rt: HostRuntime) {
    for (row, wanted) in ROWS {
        let text = row_shown(&rt, rt.alloc(), row);
        check!(rt; text.as_str() == *wanted, (row, text.as_str()));
        drop(text);
    }
}

/// A client of `/r` that has one file at a clock of before the migration.
fn put_client(rt: &impl Abort, alloc: Global, events: &mut Vec<Event>) {
    put_all(rt, alloc, &[Open, Watch("/r")], events);
    put(rt, found(rt, alloc, 1, 0, &["a.c"]), events);
    put(rt, Event::Client(root(rt, alloc), Expr::True), events);
    put(rt, Event::Ask(0), events);
    put(rt, Event::Receive(0), events);
    put_all(rt, alloc, &[Stop, Migrate, Open], events);
}

/// What it holds then, and after it asked again.
fn client_shown(rt: &impl Abort, alloc: Global, asks: bool) -> String {
    let mut events = Vec::new(alloc);
    put_client(rt, alloc, &mut events);
    put(rt, found(rt, alloc, 2, 0, &["b.c"]), &mut events);
    if asks {
        put(rt, Event::Ask(0), &mut events);
        put(rt, Event::Receive(0), &mut events);
    }
    shown_over(rt, alloc, 0, events)
}

#[test]
fn a_clock_of_the_old_file_is_answered_as_fresh(rt: HostRuntime) {
    let before = client_shown(&rt, rt.alloc(), false);
    check!(rt; before.as_str() == "2 /r; a.c at c:1:1:1");
    drop(before);
    let after = client_shown(&rt, rt.alloc(), true);
    check!(rt; after.as_str() == "2 /r; b.c at c:2:1:1");
    drop(after);
}
