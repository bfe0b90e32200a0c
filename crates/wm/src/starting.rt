//! `wm up`: the server and the feed in the background.

use crate::claims::check_claims;
use crate::failure::{Failure, at_path, failed};
use crate::feeds::is_fed;
use crate::lost_socket::{end_unreachable, server_process, unreachable};
use crate::places::Places;
use crate::programs::{program, unstarted};
use crate::server::Server;
use crate::started::write_number;
use std::fs::{DirBuilder, OpenOptions};
use std::os::unix::fs::{DirBuilderExt, OpenOptionsExt};
use std::process::{Child, Command, Stdio};
use std::time::{Duration, Instant};
use std::{fs, thread};
use wm_commands::{StartFault, StartStep, UpStep, start_step, up_step};

/// How long it is waited between two looks, in milliseconds.
const PAUSE: u64 = 25;

/// For how many seconds a server is awaited that was started and runs.
const START: u64 = 60;

/// For how many seconds a server is looked at that takes connections and doesn't answer.
const PATIENCE: u64 = 10;

/// How often it is looked whether a feed stays.
const FEED_LOOKS: u32 = 10;

/// Makes a folder with the folders above it, for this user alone, if it isn't there.
fn make_folder(rt: &HostRuntime, path: &str) -> Result<(), Failure> {
    match DirBuilder::new()
        .recursive(true)
        .mode(0o700)
        .create(rt, path)
    {
        Ok(()) => Ok(()),
        Err(error) => Err(at_path(rt.alloc(), 1, path, &error)),
    }
}

/// Makes the state file if it isn't there.
fn make_state(rt: &HostRuntime, state: &str) -> Result<(), Failure> {
    if fs::metadata(rt, state).is_ok() {
        return Ok(());
    }
    let watchmand = program(rt, "watchmand")?;
    let mut command = Command::new(rt.alloc(), watchmand.as_str())?;
    command.arg("format")?.arg(state)?;
    command.stdin(Stdio::null()).stdout(Stdio::null());
    match command.status(rt) {
        Ok(status) if status.success() => Ok(()),
        Ok(_) => {
            let text = format!(in rt.alloc();
                "{state}: 'watchmand format' can't make it: look at the folder's rights and the disk"
            )?;
            Err(failed(1, text))
        }
        Err(_) => Err(unstarted(rt, "watchmand")),
    }
}

/// The file where the started programs write.
fn log_of(rt: &HostRuntime, places: &Places) -> Result<String, Failure> {
    let state = places.state.as_str();
    Ok(format!(in rt.alloc(); "{state}/log")?)
}

/// Starts a program in a session of its own, whose output goes to the log.
fn start(rt: &HostRuntime, places: &Places, name: &str, words: &[&str]) -> Result<Child, Failure> {
    let alloc = rt.alloc();
    let log = log_of(rt, places)?;
    let mut options = OpenOptions::new();
    options.append(true).create(true).mode(0o600);
    let output = match options.open(rt, log.as_str()) {
        Ok(output) => output,
        Err(error) => return Err(at_path(alloc, 1, &log, &error)),
    };
    let errors = output.try_clone()?;
    let path = program(rt, name)?;
    let mut command = Command::new(alloc, "setsid")?;
    command.arg(path.as_str())?;
    for word in words {
        command.arg(*word)?;
    }
    command.env("MALLOC_TRIM_THRESHOLD_", "131072")?;
    command.env("MALLOC_ARENA_MAX", "8")?;
    command.env("WATCHMAND_EXPLAIN", "1")?;
    command.stdin(Stdio::null()).stdout(output).stderr(errors);
    match command.spawn(rt) {
        Ok(child) => Ok(child),
        Err(_) => Err(unstarted(rt, "setsid")),
    }
}

/// The last line of a text.
fn last_line(text: &str) -> &str {
    let text = text.trim();
    match text.rsplit_once('\n') {
        Some((_, last)) => last,
        None => text,
    }
}

/// The failure of a program that ended at its start, or doesn't answer, with the last line of the log.
fn not_started(rt: &HostRuntime, places: &Places, name: &str) -> Failure {
    let Ok(log) = log_of(rt, places) else {
        return Failure::NoMemory;
    };
    let said = fs::read_to_string(rt, log.as_str());
    let last = match &said {
        Ok(said) => last_line(said.as_str()),
        Err(_) => "",
    };
    let advice = StartFault::of(last).advice();
    match format!(in rt.alloc(); "{last}{advice}; {log} has all that it said") {
        Ok(text) => failed(1, text),
        Err(_) => Failure::NoMemory,
    }
}

/// Whether a program that was started has ended.
fn has_ended(child: &mut Child) -> bool {
    matches!(child.try_wait(), Ok(Some(_)))
}

/// The failure of a server that runs and doesn't answer.
fn late(server: &Server<'_>, places: &Places) -> Failure {
    let Ok(log) = log_of(server.rt, places) else {
        return Failure::NoMemory;
    };
    let (socket, seconds) = (server.socket, START);
    match format!(in server.rt.alloc();
        "{socket}: the server was started, and doesn't answer after {seconds} seconds; {log} has all that it said"
    ) {
        Ok(text) => failed(3, text),
        Err(_) => Failure::NoMemory,
    }
}

/// Waits until a server that was started answers. One that is late runs on, and 'wm down' ends it.
fn await_server(server: &Server<'_>, places: &Places, mut child: Child) -> Result<(), Failure> {
    let rt = server.rt;
    let begun = Instant::now(rt)?;
    for _ in 0..u64::MAX {
        let has_ended = has_ended(&mut child);
        let is_late = begun.elapsed(rt)?.as_secs() >= START;
        match start_step(server.presence()?, has_ended, is_late) {
            StartStep::Started => return write_number(rt, places, "watchmand", &child),
            StartStep::Ended => return Err(not_started(rt, places, "watchmand")),
            StartStep::Late => {
                write_number(rt, places, "watchmand", &child)?;
                return Err(late(server, places));
            }
            StartStep::Await => thread::sleep(rt, Duration::from_millis(PAUSE)),
        }
    }
    Err(late(server, places))
}

/// Starts the server, and waits until it answers.
fn start_server(server: &Server<'_>, places: &Places) -> Result<(), Failure> {
    let rt = server.rt;
    let state = places.state.as_str();
    let file = format!(in rt.alloc(); "{state}/state")?;
    make_state(rt, &file)?;
    let child = start(
        rt,
        places,
        "watchmand",
        &["serve", file.as_str(), server.socket],
    )?;
    await_server(server, places, child)
}

/// Starts the feed, and looks for a moment whether it stays.
fn start_feed(server: &Server<'_>, places: &Places) -> Result<(), Failure> {
    let rt = server.rt;
    let mut child = start(rt, places, "wmfeed", &[server.socket])?;
    for _ in 0..FEED_LOOKS {
        if has_ended(&mut child) {
            return Err(not_started(rt, places, "wmfeed"));
        }
        thread::sleep(rt, Duration::from_millis(PAUSE));
    }
    write_number(rt, places, "wmfeed", &child)
}

/// Makes the folder of a socket. It is a failure if something else is at the socket's path.
fn make_socket_folder(rt: &HostRuntime, socket: &str) -> Result<(), Failure> {
    if let Ok(found) = fs::metadata(rt, socket) {
        if found.is_file() || found.is_dir() {
            let text = format!(in rt.alloc();
                "{socket}: is no socket; --socket or WATCHMAND_SOCKET names another path"
            )?;
            return Err(failed(1, text));
        }
    }
    match socket.rsplit_once('/') {
        Some(("", _)) | None => Ok(()),
        Some((folder, _)) => make_folder(rt, folder),
    }
}

/// Whether a server is there that answers. What takes a connection without an answer is about to end, and is looked at for some seconds.
/// A server of `wm up` whose socket is gone is ended: nothing can reach it, and its state stays.
fn is_served(server: &Server<'_>, places: &Places) -> Result<bool, Failure> {
    let begun = Instant::now(server.rt)?;
    for _ in 0..u64::MAX {
        let presence = server.presence()?;
        let (process, number) = server_process(server, places, presence)?;
        let is_late = begun.elapsed(server.rt)?.as_secs() >= PATIENCE;
        match up_step(presence, process, is_late) {
            UpStep::Keep => return Ok(true),
            UpStep::Start => return Ok(false),
            UpStep::Replace => {
                end_unreachable(server, &number)?;
                return Ok(false);
            }
            UpStep::Tell => return Err(unreachable(server, &number)),
            UpStep::LookAgain => thread::sleep(server.rt, Duration::from_millis(PAUSE)),
        }
    }
    Ok(false)
}

/// Handles `up`.
pub fn up(server: &Server<'_>, places: &Places) -> Result<u8, Failure> {
    let rt = server.rt;
    make_folder(rt, &places.state)?;
    let socket = places.socket.as_str();
    if is_served(server, places)? {
        println!(rt; "a server answers at {socket}")?;
    } else {
        make_socket_folder(rt, socket)?;
        check_claims(server, places)?;
        start_server(server, places)?;
        println!(rt; "a server was started at {socket}")?;
    }
    if !is_fed(rt, socket, true)? {
        check_claims(server, places)?;
        start_feed(server, places)?;
        println!(rt; "a feed was started")?;
    }
    Ok(0)
}
