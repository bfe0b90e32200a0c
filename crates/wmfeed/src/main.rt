//! The feeder of the file watch server: tells it what changes in a folder.
#![tactic(auto)]

mod explaining;
mod noting;

use explaining::Explaining;
use noting::Faults;
use std::io::{ErrorKind, IsTerminal};
use std::process::ExitCode;
use std::time::Instant;
use std::{env, io};
use wm_client::wmfeed;
use wm_feeder::Inotify;
use wm_findings::is_wanted;

/// Handles the words, and explains what is waited for, and a failure, if that is wanted. An error is that of memory.
fn run(rt: &HostRuntime, words: &[&str], is_wanted: bool) -> io::Result<u8> {
    let alloc = rt.alloc();
    let mut printer = io::writer(rt);
    let errors = rt.stderr();
    let mut faults = Faults::new(io::writer(&errors));
    let explainer = Explaining { rt, is_wanted };
    let feeder = Inotify {
        rt,
        begun: Instant::now(rt)?,
        explainer: &explainer,
    };
    let status = wmfeed(alloc, &feeder, words, &mut printer, &mut faults);
    if is_wanted {
        if let Ok(Some(line)) = explaining::line_of(rt, alloc, status, faults.stop, words) {
            // If it can't be written, the status says what happened.
            let _written = rt.eprint(line.as_str());
        }
    }
    Ok(status)
}

/// Handles the program's words. An error is that of memory, or of a word that isn't UTF-8.
fn run_words(rt: &HostRuntime) -> io::Result<u8> {
    let alloc = rt.alloc();
    let args: Vec<String> = env::args(rt)?.skip(1).collect(alloc)?;
    let words: Vec<&str> = args.iter().map(|word| word.as_str()).collect(alloc)?;
    run(rt, &words, is_wanted(rt, rt.stderr().is_terminal()))
}

fn main(rt: HostRuntime) -> io::Result<ExitCode> {
    let (status, told) = match run_words(&rt) {
        Ok(status) => return Ok(ExitCode::from(status)),
        Err(error) if error.kind() == ErrorKind::OutOfMemory => (1, "wmfeed: 16 NoMemory"),
        Err(_) => (2, "wmfeed: a word isn't UTF-8"),
    };
    rt.eprintln(told)?;
    Ok(ExitCode::from(status))
}
