//! For which server the processes run that `wm up` started from a state folder.

use crate::failure::{Failure, failed};
use crate::feeds::is_socket;
use crate::places::Places;
use crate::server::Server;
use crate::started::running;
use std::fs;
use wm_commands::Claim;

/// The programs whose numbers are in files of a state folder.
const PROGRAMS: [&str; 2] = ["watchmand", "wmfeed"];

/// The socket that the words of a process name, which `wm up` started from a state folder. `None` if they are no such words.
fn socket_in<'a>(words: &'a str, state: &str, name: &str) -> Option<&'a str> {
    let mut words = words.split('\0').skip(1);
    if name == "wmfeed" {
        return words.next();
    }
    match (words.next(), words.next()) {
        (Some("serve"), Some(file)) if file == state => words.next(),
        _ => None,
    }
}

/// Fails if a process of a state folder runs for the server at another socket.
fn check_claim(server: &Server<'_>, places: &Places, name: &str) -> Result<(), Failure> {
    let (rt, alloc) = (server.rt, server.rt.alloc());
    let Some(number) = running(rt, places, name)? else {
        return Ok(());
    };
    let process = format!(in alloc; "/proc/{number}")?;
    let Ok(words) = fs::read_to_string(rt, format!(in alloc; "{process}/cmdline")?) else {
        return Ok(());
    };
    let folder = places.state.as_str();
    let state = format!(in alloc; "{folder}/state")?;
    let named = socket_in(words.as_str(), &state, name);
    let socket = named.unwrap_or("");
    let is_same = is_socket(rt, &process, socket, server.socket)?;
    if Claim::of(named.is_some(), is_same) != Claim::Theirs {
        return Ok(());
    }
    let text = format!(in alloc;
        "{folder}: its files are those of the server at {socket} ({name} has pid {number}); 'wm down --socket {socket}' ends it, and another XDG_STATE_HOME has files of its own"
    )?;
    Err(failed(1, text))
}

/// Fails if the files of a state folder are those of the server at another socket.
pub fn check_claims(server: &Server<'_>, places: &Places) -> Result<(), Failure> {
    for name in PROGRAMS {
        check_claim(server, places, name)?;
    }
    Ok(())
}
