//! The client of the file watch server: sends one request and prints the reply.
#![tactic(auto)]

mod explaining;
mod noting;
mod programs;
mod waiting;

use explaining::Ended;
use noting::{Faults, Replies};
use std::io::{ErrorKind, IsTerminal};
use std::process::ExitCode;
use std::time::Instant;
use std::{env, io, process};
use waiting::Answered;
use wm_client::{Request, SyncFiles, Words, negative_said, wmctl};
use wm_findings::is_wanted;

/// Handles the words; if there is a request, what is to be said of its answer is written behind that. An error is that of memory.
fn run(
    rt: &HostRuntime,
    words: &[&str],
    request: Option<Request>,
    answered: Option<Answered>,
) -> io::Result<Ended> {
    let mut printer = Replies::new(rt, rt.alloc(), request, answered, io::writer(rt));
    let errors = rt.stderr();
    let mut faults = Faults::new(io::writer(&errors));
    let system = SyncFiles {
        rt,
        process: process::id(rt.process()),
        begun: Instant::now(rt)?,
    };
    let status = wmctl(rt.alloc(), rt, &system, words, &mut printer, &mut faults);
    Ok(Ended {
        status,
        refusal: printer.refusal,
        lacks_feed: faults.lacks_feed,
    })
}

/// Handles the words, and explains a failure, or an answer that misleads.
fn run_explained(rt: &HostRuntime, answered: Option<Answered>) -> io::Result<u8> {
    let alloc = rt.alloc();
    let args: Vec<String> = env::args(rt)?.skip(1).collect(alloc)?;
    let words: Vec<&str> = args.iter().map(|word| word.as_str()).collect(alloc)?;
    let request = match Words::read(alloc, &words) {
        Ok(Words::Talk(request)) => Some(request),
        Ok(
            Words::Shown {
                text: _text,
                status,
            },
        ) => {
            if let (2, Some(said)) = (status, negative_said(&words)) {
                rt.eprint(said)?;
                return Ok(status);
            }
            None
        }
        Err(_error) => None,
    };
    let ended = run(rt, &words, request, answered)?;
    if let Ok(Some(text)) = explaining::text_of(rt, alloc, ended, &words) {
        // If it can't be written, the status says what happened.
        let _written = rt.eprint(text.as_str());
    }
    Ok(ended.status)
}

/// Handles the program's words, and explains nothing. An error is that of memory, or of a word that isn't UTF-8.
fn run_plain(rt: &HostRuntime) -> io::Result<u8> {
    let alloc = rt.alloc();
    let args: Vec<String> = env::args(rt)?.skip(1).collect(alloc)?;
    let words: Vec<&str> = args.iter().map(|word| word.as_str()).collect(alloc)?;
    let ended = run(rt, &words, None, None)?;
    Ok(ended.status)
}

fn main(rt: HostRuntime) -> io::Result<ExitCode> {
    let ended = if is_wanted(&rt, rt.stderr().is_terminal()) {
        let answered = Answered::awaited(&rt, rt, rt.alloc());
        run_explained(&rt, answered)
    } else {
        run_plain(&rt)
    };
    let (status, told) = match ended {
        Ok(status) => return Ok(ExitCode::from(status)),
        Err(error) if error.kind() == ErrorKind::OutOfMemory => (1, "wmctl: 16 NoMemory"),
        Err(_) => (2, "wmctl: a word isn't UTF-8"),
    };
    rt.eprintln(told)?;
    Ok(ExitCode::from(status))
}
