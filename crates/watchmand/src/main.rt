//! The file watch server's program.
#![tactic(auto)]

mod explaining;

use std::fs::{File, Files};
use std::io::{BufReader, ErrorKind, IsTerminal};
use std::net::Net;
use std::process::ExitCode;
use std::sync::Wait;
use std::thread::Threads;
use std::time::Clock;
use std::{env, io};
use wm_crawler::{Open, SystemFolders};
use wm_disk::Refusal;
use wm_findings::{Noted, is_wanted};
use wm_program::{ProgramHost, watchmand};
use wm_serve::{ServerPaths, Settings, Tools, serve};
use wm_server::system::Host;
use wm_session::{Input, Output};
use wm_triggers::SystemStarter;

/// How the program ended.
#[derive(Clone, Copy)]
struct Ended {
    status: u8,
    /// The refusal of a start.
    refusal: Option<Refusal>,
}

/// Handles the words; threads are the host's. An error is that of memory, or of a word that isn't UTF-8.
fn run<H: Threads + Wait + Clock + Net + Files<File = File> + Sync>(
    rt: &HostRuntime,
    host: &H,
    words: &[&str],
) -> io::Result<Ended> {
    let alloc = rt.alloc();
    let mut reader = Input::new(BufReader::new(alloc, rt.reader())?);
    let mut writer = Output::new(io::writer(rt));
    let errors = rt.stderr();
    let mut faults = Noted::new(io::writer(&errors));
    let folders = SystemFolders::new(rt.clone()?);
    let starter = SystemStarter::new(rt);
    let tools = Tools {
        folders: &folders,
        turnstile: &Open,
        starter: &starter,
        log: &errors,
    };
    let mut ready = Noted::new(io::writer(rt));
    let status = {
        let mut host = ProgramHost {
            system: Host::new(host),
            serve: |file: String, socket: String, settings: Settings| {
                let paths = ServerPaths {
                    file: &file,
                    socket: &socket,
                };
                match serve(host, alloc, paths, &tools, settings, &mut ready) {
                    Ok(served) => {
                        drop(served);
                        Ok(())
                    }
                    Err(refusal) => Err(refusal),
                }
            },
        };
        let mut told = Output::new(&mut faults);
        watchmand(alloc, &mut host, words, &mut reader, &mut writer, &mut told)
    };
    let refusal = if ready.is_used { None } else { faults.refusal };
    Ok(Ended { status, refusal })
}

/// Handles the words, and explains a refusal if that is wanted.
fn run_explained<H: Threads + Wait + Clock + Net + Files<File = File> + Sync>(
    rt: &HostRuntime,
    host: &H,
) -> io::Result<u8> {
    let alloc = rt.alloc();
    let args: Vec<String> = env::args(rt)?.skip(1).collect(alloc)?;
    let words: Vec<&str> = args.iter().map(|word| word.as_str()).collect(alloc)?;
    let ended = run(rt, host, &words)?;
    let Some(refusal) = ended.refusal else {
        return Ok(ended.status);
    };
    if is_wanted(rt, rt.stderr().is_terminal()) {
        if let Ok(Some(line)) = explaining::line_of(rt, alloc, refusal, &words) {
            // If it can't be written, the status says that the program was refused.
            let _written = rt.eprint(line.as_str());
        }
    }
    Ok(ended.status)
}

fn main(rt: HostRuntime) -> io::Result<ExitCode> {
    let (status, told) = match run_explained(&rt, &rt) {
        Ok(status) => return Ok(ExitCode::from(status)),
        Err(error) if error.kind() == ErrorKind::OutOfMemory => (1, "watchmand: 16 NoMemory"),
        Err(_) => (2, "watchmand: a word isn't UTF-8"),
    };
    rt.eprintln(told)?;
    Ok(ExitCode::from(status))
}
