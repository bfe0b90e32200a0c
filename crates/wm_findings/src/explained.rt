//! The line that explains a refusal. Tests: tools/try/messages.py.

use crate::advice::{Hindrance, advice_at};
use crate::findings::{found_file, found_socket};
use crate::hindered::{file_hindrance, socket_hindrance};
use std::alloc::Global;
use std::env;
use std::fs::{File, Files};
use std::net::Net;
use std::rt::Env;
use wm_disk::{NoMemory, Refusal};
use wm_explain::{Cause, Doing, End, file_cause, line_of, socket_cause};

/// Whether further lines are wanted: on a terminal, and if the variable `WATCHMAND_EXPLAIN` is 1.
pub fn is_wanted<R: Env + Alloc>(rt: &R, is_terminal: bool) -> bool {
    if is_terminal {
        return true;
    }
    match env::var(rt, "WATCHMAND_EXPLAIN") {
        Ok(value) => value.as_str() == "1",
        Err(_) => false,
    }
}

/// The line of a cause, with what to do if a hindrance is known.
fn advised(
    alloc: Global,
    path: &str,
    cause: Cause,
    hindrance: Option<Hindrance>,
) -> Result<String, NoMemory> {
    match hindrance {
        Some(hindrance) => advice_at(alloc, path, &hindrance),
        None => line_of(alloc, path, cause),
    }
}

/// The line that explains why this was refused of a file. `None` if what is found at its path doesn't tell.
pub fn file_line<R: Files<File = File>>(
    rt: &R,
    alloc: Global,
    refusal: Refusal,
    doing: Doing,
    path: &str,
) -> Result<Option<String>, NoMemory> {
    let Some(cause) = file_cause(refusal, doing, found_file(rt, alloc, path)) else {
        return Ok(None);
    };
    let hindrance = file_hindrance(rt, alloc, path, cause);
    Ok(Some(advised(alloc, path, cause, hindrance)?))
}

/// The line that explains why a server can't listen on a socket. `None` if what is found at its path doesn't tell.
pub fn socket_line<R: Files<File = File> + Net>(
    rt: &R,
    alloc: Global,
    path: &str,
) -> Result<Option<String>, NoMemory> {
    let Some(cause) = socket_cause(End::Server, path.len(), found_socket(rt, path)) else {
        return Ok(None);
    };
    let hindrance = socket_hindrance(rt, path, cause);
    Ok(Some(advised(alloc, path, cause, hindrance)?))
}
