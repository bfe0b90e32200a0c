//! `format`, `lines` and `migrate` whole, as `wm_program` calls them. Its definitions are in specs/program.
//! Tests: session_tests/src/programs.
ghost use Rattle.std.specs.Prelude.{◌≡◌, ◌⊎◌, ◌<◌, [], true, MatchResult, OnOk, codes, map};
ghost use Rattle.std.specs.Io.KnownBytes.{Appends};
ghost use Rattle.wm_disk.specs.Contents.{Only};
ghost use Rattle.wm_checkpoint.specs.Meanings.{Means};
ghost use Rattle.wm_checkpoint.specs.declared.layout.Slot.TheVariants.{A};
ghost use Rattle.wm_registry.specs.MachineLaws.{watches};
ghost use Rattle.wm_registry.specs.Registry.{empty_registry};
ghost use Rattle.wm_session.specs.session.Streams.{streams, writer_failed, writer_of};
ghost use Rattle.wm_server.specs.program.Systems.{FormatFails, IsUndone, Runs, RunsFormat, RunsLinesOver};
ghost use Rattle.wm_server.specs.program.Words.{asked, shown as shown_lem};
ghost use Rattle.wm_registry.specs.declared.version.Version.TheVariants.{Two};

pub mod lines;
mod migration;
pub mod system;
pub mod words;

use crate::program::lines::{lines_on, refuse};
use crate::program::migration::migrate;
use crate::program::system::System;
use crate::program::words::Words;
use std::alloc::Global;
use std::io::{BufRead, Write};
use wm_disk::{Disk, NoMemory, Refusal};
use wm_session::{Input, Output};

/// `watchmand` with these words, of which its own name is none: gives the status to end with. Replies
/// and help go to `writer`, and what goes wrong is told on `faults`.
pub fn watchmand<S: System, R: BufRead, W: Write, E: Write>(
    alloc: Global,
    system: &mut S,
    words: &[&str],
    reader: &mut Input<R>,
    writer: &mut Output<W>,
    faults: &mut Output<E>,
) -> u8
    ensures fault { asked (map (λ word. word.now) words.now) ≡ shown_lem 2 → 0 < result }
    ensures runs { IsUndone S.File.Disk S.System R.remaining W.contents E.contents system.old system.new (streams reader.old writer.old faults.old) (streams reader.new writer.new faults.new) result
        ⊎ Runs S.File.Disk S.System R.remaining W.contents E.contents (asked (map (λ word. word.now) words.now)) system.old system.new (streams reader.old writer.old faults.old) (streams reader.new writer.new faults.new) result }
    ensures quiet { result ≡ 0 → faults.new ≡ faults.old }
{
    match Words::read(alloc, words) {
        Ok(Words::Format { file }) => format(alloc, system, &file, writer, faults),
        Ok(Words::Lines { file }) => answer_lines(alloc, system, &file, reader, writer, faults),
        Ok(Words::Migrate { old, new }) => migrate(alloc, system, &old, &new, writer, faults),
        Ok(Words::Shown { text, status: 0 }) => shown(&text, 0, writer),
        Ok(Words::Shown { text, status }) => shown(&text, status, faults),
        Err(NoMemory) => refuse(Refusal::NoMemory, faults),
    }
}

/// Shows help, the version, or a fault of the words: the status, or 1 if that fails.
pub fn shown<W: Write>(text: &str, status: u8, writer: &mut Output<W>) -> u8
    ensures { ((result ≡ status) × Appends (W.contents (writer_of writer.old)) (W.contents (writer_of writer.new)) text.now)
        ⊎ ((result ≡ 1) × (writer_failed writer.new ≡ true)) }
{
    match writer.put(text.as_bytes()) {
        Ok(()) => status,
        Err(_) => 1,
    }
}

/// `watchmand format FILE`: makes a state file, which must not be there yet. Where that fails, the file
/// that was made is taken away again.
fn format<S: System, W: Write, E: Write>(
    alloc: Global,
    system: &mut S,
    path: &str,
    writer: &mut Output<W>,
    faults: &mut Output<E>,
) -> u8
    ensures runs { RunsFormat S.File.Disk S.System W.contents E.contents path.now system.old system.new writer.old writer.new faults.old faults.new result }
    ensures quiet { result ≡ 0 → faults.new ≡ faults.old }
{
    let Ok(mut file) = system.create(path) else {
        return refuse(Refusal::DeviceFailed, faults);
    };
    let written = write_format(alloc, &mut file, writer);
    system.close(file);
    let Err(refusal) = written else {
        return 0;
    };
    system.remove(path);
    refuse(refusal, faults)
}

/// Writes a new state file, and says so.
fn write_format<D: Disk + Drop, W: Write>(
    alloc: Global,
    disk: &mut D,
    writer: &mut Output<W>,
) -> Result<(), Refusal>
    ensures formatted { D.honest disk.new → OnOk result (Means (watches Two) (D.seen disk.new) A 1 (empty_registry Two) []) }
    ensures durable { D.honest disk.new → OnOk result (Only (D.seen disk.new) (D.may_leave disk.new)) }
    ensures shows { MatchResult result (λ _. Appends (W.contents (writer_of writer.old)) (W.contents (writer_of writer.new)) (codes "formatted\n"))
        (λ e. FormatFails D.Disk e disk.old disk.new writer.new) }
{
    wm_store::format(alloc, disk)?;
    match writer.put(b"formatted\n") {
        Ok(()) => Ok(()),
        Err(_) => Err(Refusal::DeviceFailed),
    }
}

/// `watchmand lines FILE`: answers the lines of a reader over a state file.
fn answer_lines<S: System, R: BufRead, W: Write, E: Write>(
    alloc: Global,
    system: &mut S,
    path: &str,
    reader: &mut Input<R>,
    writer: &mut Output<W>,
    faults: &mut Output<E>,
) -> u8
    ensures runs { RunsLinesOver S.File.Disk S.System R.remaining W.contents E.contents path.now system.old system.new (streams reader.old writer.old faults.old) (streams reader.new writer.new faults.new) result }
    ensures quiet { result ≡ 0 → faults.new ≡ faults.old }
{
    match system.open(path) {
        Ok(file) => {
            let (status, file) = lines_on(alloc, file, reader, writer, faults);
            system.close(file);
            status
        }
        Err(_) => refuse(Refusal::DeviceFailed, faults),
    }
}
