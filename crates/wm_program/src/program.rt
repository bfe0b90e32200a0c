//! All of `watchmand`, with its status.
//! Definitions: specs/ProgramRuns.antt, specs/ProgramWords.antt. Tests: tools/pages.py, tools/try/serve.py.
ghost use Rattle.std.specs.Prelude.{◌≡◌, ◌⊎◌, ◌<◌, map};
ghost use Rattle.std.specs.String.{string_bytes};
ghost use Rattle.wm_session.specs.session.Streams.{streams};
ghost use Rattle.wm_server.specs.program.Systems.{IsUndone};
ghost use Rattle.wm_program.specs.ProgramRuns.{IsServedOn, RunsProgram};
ghost use Rattle.wm_program.specs.ProgramWords.{AsksProgram, ProgramWanted, shown_status};

use crate::words::Words;
use std::alloc::Global;
use std::io::{BufRead, Write};
use wm_disk::{NoMemory, Refusal};
use wm_serve::Settings;
use wm_server::lines::refuse;
use wm_server::program;
use wm_server::system::System;
use wm_session::{Input, Output};

/// What the program runs on: the system's files, and the server of a state file (its first path) on a socket (its second), which is
/// refused as `wm_serve::serve` is. The program that starts threads hands the server in.
#[derive(Drop)]
pub struct ProgramHost<S, V> {
    pub system: S,
    pub serve: V,
}

/// `watchmand` with these words, of which its own name is none: gives the status to end with. What is printed
/// goes to `writer`, and what goes wrong is told on `faults`. It is 0; 1 where the start, what was asked or the
/// last close was refused, or what is shown can't be; 2 where the words aren't understood.
pub fn watchmand<
    S: System,
    V: FnMut(String, String, Settings) -> Result<(), Refusal>,
    R: BufRead,
    W: Write,
    E: Write,
>(
    alloc: Global,
    host: &mut ProgramHost<S, V>,
    words: &[&str],
    reader: &mut Input<R>,
    writer: &mut Output<W>,
    faults: &mut Output<E>,
) -> u8
    requires { V.IsAlwaysCallable host.old.serve }
    ensures fault { ((wanted : ProgramWanted) → AsksProgram (map (λ word. word.now) words.now) wanted → wanted ≡ shown_status 2) → 0 < result }
    ensures runs { ((host.new.serve ≡ host.old.serve) × IsUndone S.File.Disk S.System R.remaining W.contents E.contents host.old.system host.new.system (streams reader.old writer.old faults.old) (streams reader.new writer.new faults.new) result)
        ⊎ ((wanted : ProgramWanted) × AsksProgram (map (λ word. word.now) words.now) wanted
        × RunsProgram S.File.Disk S.System (IsServedOn V.step string_bytes) R.remaining W.contents E.contents wanted (map (λ word. word.now) words.now) host.old host.new (streams reader.old writer.old faults.old) (streams reader.new writer.new faults.new) result) }
    ensures quiet { result ≡ 0 → faults.new ≡ faults.old }
{
    match Words::read(alloc, words) {
        Ok(Words::Plain) => {
            program::watchmand(alloc, &mut host.system, words, reader, writer, faults)
        }
        Ok(
            Words::Serve {
                file,
                socket,
                settings,
            },
        ) => match (host.serve)(file, socket, settings) {
            Ok(()) => 0,
            Err(refusal) => refuse(refusal, faults),
        },
        Ok(Words::Shown { text, status: 0 }) => program::shown(&text, 0, writer),
        Ok(Words::Shown { text, status }) => program::shown(&text, status, faults),
        Err(NoMemory) => refuse(Refusal::NoMemory, faults),
    }
}
