//! Watches folders, and says which files changed: the commands for people.
#![tactic(auto)]

mod asking;
mod claims;
mod crawling;
mod failure;
mod feed_looks;
mod feeds;
mod listening;
mod lost_socket;
mod notes;
mod place;
mod places;
mod processes;
mod programs;
mod running;
mod server;
mod started;
mod starting;
mod unreadable;
mod waiting;
mod watches;

use crate::failure::Failure;
use crate::notes::note_braces;
use crate::places::{folder, server_places};
use crate::server::Server;
use std::io::ErrorKind;
use std::process::ExitCode;
use std::{env, io};
use wm_commands::advice_of;
use wm_commands::arguments::{Order, Verb, Words};

/// Handles a command about a folder.
fn about_folder(server: &Server<'_>, order: &Order) -> Result<u8, Failure> {
    let named = match &order.target.dir {
        Some(dir) => Some(dir.as_str()),
        None => None,
    };
    if order.verb == Verb::Unwatch {
        return watches::unwatch(server, named);
    }
    let dir = folder(server.rt, named, order.verb.pattern_example())?;
    note_braces(server, &order.question.patterns)?;
    match order.verb {
        Verb::Watch => watches::watch(server, &dir),
        Verb::Wait => running::wait(server, dir, order),
        Verb::Run => running::run(server, dir, order),
        Verb::Sync => watches::sync(server, dir),
        _ => asking::list(server, dir, order),
    }
}

/// Handles a command.
fn obey(rt: &HostRuntime, order: &Order) -> Result<u8, Failure> {
    let named = match &order.target.socket {
        Some(socket) => Some(socket.as_str()),
        None => None,
    };
    let places = server_places(rt, named)?;
    let server = Server {
        rt,
        socket: places.socket.as_str(),
    };
    match order.verb {
        Verb::Up => starting::up(&server, &places),
        Verb::Down => started::down(&server, &places),
        Verb::List => watches::list(&server),
        Verb::Status => watches::status(&server),
        _ => about_folder(&server, order),
    }
}

/// Handles the words. An error is that of memory, of a word that isn't UTF-8, or of an output that can't be written.
fn run(rt: &HostRuntime) -> io::Result<u8> {
    let alloc = rt.alloc();
    let args: Vec<String> = env::args(rt)?.skip(1).collect(alloc)?;
    let words: Vec<&str> = args.iter().map(|word| word.as_str()).collect(alloc)?;
    match Words::read(alloc, &words) {
        Ok(Words::Shown { text, status }) => {
            if status == 0 {
                rt.print(text.as_str())?;
            } else {
                rt.eprint(text.as_str())?;
            }
            Ok(status)
        }
        Ok(Words::Ordered(order)) => ended(rt, obey(rt, &order)),
        Err(_) => Err(io::Error::from(ErrorKind::OutOfMemory)),
    }
}

/// The status of a command that ended so. Why it can't be done goes to standard error.
fn ended(rt: &HostRuntime, end: Result<u8, Failure>) -> io::Result<u8> {
    let (status, text) = match end {
        Ok(status) => return Ok(status),
        Err(Failure::Told { status, text }) => (status, text),
        Err(Failure::Later { text }) => (1, text),
        Err(Failure::Refused { text, refusal }) => {
            let advice = advice_of(refusal);
            eprintln!(rt; "wm: {text}; {advice}")?;
            return Ok(1);
        }
        Err(Failure::Unwritten) => return Err(io::Error::from(ErrorKind::BrokenPipe)),
        Err(Failure::NoMemory) => return Err(io::Error::from(ErrorKind::OutOfMemory)),
    };
    eprintln!(rt; "wm: {text}")?;
    Ok(status)
}

fn main(rt: HostRuntime) -> io::Result<ExitCode> {
    let (status, told) = match run(&rt) {
        Ok(status) => return Ok(ExitCode::from(status)),
        Err(error) if error.kind() == ErrorKind::OutOfMemory => (1, "wm: 16 NoMemory"),
        Err(error) if error.kind() == ErrorKind::BrokenPipe => return Ok(ExitCode::from(1)),
        Err(_) => (2, "wm: a word isn't UTF-8, or the output can't be written"),
    };
    rt.eprintln(told)?;
    Ok(ExitCode::from(status))
}
