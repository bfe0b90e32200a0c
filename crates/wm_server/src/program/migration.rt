//! `migrate` whole. Its definitions are in specs/program/Migrating.
//! Tests: session_tests/src/programs/migrations.rt.
ghost use Rattle.std.specs.Prelude.{◌≡◌, MatchResult, Some, None};
ghost use Rattle.wm_server.specs.program.Migrating.{AreSafe, IsShown, MoveFails, IsUnshown, Moves, RunsMigrate, TakesNew};

use crate::program::lines::refuse;
use crate::program::system::System;
use std::alloc::Global;
use std::io::Write;
use wm_disk::{DeviceFailed, Disk, Refusal};
use wm_session::Output;

/// `watchmand migrate OLD NEW`: moves the registry of a state file of version 1 into one of version 2. A new file that
/// was made or written over stays also if this is refused, since it may hold the registry already.
pub(super) fn migrate<S: System, W: Write, E: Write>(
    alloc: Global,
    system: &mut S,
    old: &str,
    new: &str,
    writer: &mut Output<W>,
    faults: &mut Output<E>,
) -> u8
    ensures runs { RunsMigrate S.File.Disk S.System W.contents E.contents old.now new.now system.old system.new writer.old writer.new faults.old faults.new result }
    ensures quiet { result ≡ 0 → faults.new ≡ faults.old }
{
    let Ok(mut file) = system.open(old) else {
        return refuse(Refusal::DeviceFailed, faults);
    };
    let moved = move_into(alloc, system, &mut file, new, writer);
    system.close(file);
    match moved {
        Ok(()) => 0,
        Err(refusal) => refuse(refusal, faults),
    }
}

/// Moves the registry of an open file into the file of a path, and says so. The old file is looked at before the new
/// one is made.
fn move_into<S: System, W: Write>(
    alloc: Global,
    system: &mut S,
    old: &mut S::File,
    path: &str,
    writer: &mut Output<W>,
) -> Result<(), Refusal>
    ensures moves { MatchResult result (λ _. Moves S.File.Disk S.System path.now system.old system.new old.old old.new (IsShown S.File.Disk W.contents writer.old writer.new))
        (λ e. MoveFails S.File.Disk S.System e path.now system.old system.new old.old old.new writer.old writer.new) }
{
    let is_retired = wm_store::is_retired(alloc, old)?;
    let Ok(mut new) = take(system, path, is_retired) else {
        return Err(Refusal::DeviceFailed);
    };
    let moved = write_moved(alloc, old, &mut new, writer);
    system.close(new);
    moved
}

/// Opens the new file. It is made if it isn't there, unless the old one is retired: then it has the registry.
fn take<S: System>(system: &mut S, path: &str, is_retired: bool) -> Result<S::File, DeviceFailed>
    ensures taken { MatchResult result (λ file. TakesNew S.File.Disk S.System is_retired system.old path.now (Some file) system.new)
        (λ _. TakesNew S.File.Disk S.System is_retired system.old path.now None system.new) }
{
    if is_retired {
        system.open(path)
    } else {
        system.open_or_create(path)
    }
}

/// Moves the registry of one file into another, and says so.
fn write_moved<D: Disk + Drop, W: Write>(
    alloc: Global,
    old: &mut D,
    new: &mut D,
    writer: &mut Output<W>,
) -> Result<(), Refusal>
    ensures moved { MatchResult result (λ _. IsShown D.Disk W.contents writer.old writer.new old.old new.old old.new new.new)
        (λ e. IsUnshown D.Disk e writer.old writer.new old.old new.old old.new new.new) }
    ensures safe { AreSafe D.Disk old.old new.old old.new new.new }
{
    wm_store::migrate(alloc, old, new)?;
    match writer.put(b"migrated\n") {
        Ok(()) => Ok(()),
        Err(_) => Err(Refusal::DeviceFailed),
    }
}
