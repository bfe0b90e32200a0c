//! Servers that run, and whose socket is gone.

use crate::failure::{Failure, failed};
use crate::places::Places;
use crate::processes::{Role, is_program, process_that};
use crate::server::Server;
use crate::started::{end_process, running};
use std::fs;
use wm_commands::{Presence, ServerProcess};

/// Whether a word of a process, whose folder in /proc is named, is the path of a socket that may be gone.
fn is_path(rt: &HostRuntime, process: &str, word: &str, socket: &str) -> Result<bool, Failure> {
    if word.is_empty() || word.starts_with('/') {
        return Ok(word == socket);
    }
    let link = format!(in rt.alloc(); "{process}/cwd")?;
    let Ok(here) = fs::read_link(rt, link.as_str()) else {
        return Ok(false);
    };
    let here = here.into_string();
    let path = format!(in rt.alloc(); "{here}/{word}")?;
    Ok(path.as_str() == socket)
}

/// Whether a process, whose folder in /proc is named, is a server at a socket.
pub fn is_server_in(rt: &HostRuntime, process: &str, socket: &str) -> Result<bool, Failure> {
    let file = format!(in rt.alloc(); "{process}/cmdline")?;
    let Ok(words) = fs::read_to_string(rt, file.as_str()) else {
        return Ok(false);
    };
    let words = words.as_str();
    if !is_program(words, "watchmand") || words.split('\0').nth(1) != Some("serve") {
        return Ok(false);
    }
    for word in words.split('\0').skip(3) {
        if is_path(rt, process, word, socket)? {
            return Ok(true);
        }
    }
    Ok(false)
}

/// Whether a process has a socket that was made at this path, also if the path is gone.
fn is_bound(rt: &HostRuntime, socket: &str) -> Result<bool, Failure> {
    let Ok(table) = fs::read_to_string(rt, "/proc/net/unix") else {
        return Ok(false);
    };
    let end = format!(in rt.alloc(); " {socket}")?;
    Ok(
        table
            .as_str()
            .split('\n')
            .any(|line| line.ends_with(end.as_str())),
    )
}

/// Which process serves the socket, and its number if there is one. It is looked for only if nothing takes a connection.
pub fn server_process(
    server: &Server<'_>,
    places: &Places,
    presence: Presence,
) -> Result<(ServerProcess, String), Failure> {
    let rt = server.rt;
    let found = match presence {
        Presence::Absent => process_that(rt, Role::Server, server.socket)?,
        Presence::Answered | Presence::Silent => None,
    };
    let Some(number) = found else {
        return Ok((ServerProcess::Missing, String::new(rt.alloc())));
    };
    match running(rt, places, "watchmand")? {
        Some(own) if own.as_str() == number.as_str() && is_bound(rt, server.socket)? => {
            Ok((ServerProcess::Own, number))
        }
        _ => Ok((ServerProcess::Foreign, number)),
    }
}

/// Ends the server that `wm up` started, since nothing can reach it, and says so on standard error.
pub fn end_unreachable(server: &Server<'_>, number: &str) -> Result<(), Failure> {
    let socket = server.socket;
    eprintln!(server.rt;
        "wm: {socket}: the socket of the running server (pid {number}) is gone, so that server is ended"
    )?;
    end_process(server.rt, number, "watchmand")
}

/// The failure of a server that has no socket, and isn't ended for that: `wm up` didn't start it, or it hasn't made one.
pub fn unreachable(server: &Server<'_>, number: &str) -> Failure {
    let socket = server.socket;
    match format!(in server.rt.alloc();
        "{socket}: a server runs (pid {number}) without its socket; 'kill {number}' ends it, and 'wm up' starts another, if systemd doesn't"
    ) {
        Ok(text) => failed(3, text),
        Err(_) => Failure::NoMemory,
    }
}
