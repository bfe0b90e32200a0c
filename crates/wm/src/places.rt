//! Where the socket and the state are, and folders by their real paths.

use crate::failure::{Failure, failed};
use std::alloc::Global;
use std::env::VarError;
use std::io::ErrorKind;
use std::{env, fs};
use wm_commands::HomeWord;

/// Where the server's files are.
#[derive(Drop)]
pub struct Places {
    /// The folder of the state file, the log and the numbers of the processes.
    pub state: String,
    /// The server's socket.
    pub socket: String,
}

/// A variable of the environment. `None` if it is empty or not there.
fn var(rt: &HostRuntime, name: &str) -> Result<Option<String>, Failure> {
    match env::var(rt, name) {
        Ok(text) => {
            if text.is_empty() {
                Ok(None)
            } else {
                Ok(Some(text))
            }
        }
        Err(VarError::OutOfMemory) => Err(Failure::NoMemory),
        Err(_) => Ok(None),
    }
}

/// The folder of the state: `$XDG_STATE_HOME/watchmand`, or `$HOME/.local/state/watchmand`.
fn state_of(rt: &HostRuntime) -> Result<String, Failure> {
    let alloc = rt.alloc();
    if let Some(state) = var(rt, "XDG_STATE_HOME")? {
        return Ok(format!(in alloc; "{state}/watchmand")?);
    }
    if let Some(home) = var(rt, "HOME")? {
        return Ok(format!(in alloc; "{home}/.local/state/watchmand")?);
    }
    let text = String::from_str(
        alloc,
        "neither XDG_STATE_HOME nor HOME is set: set one, so that the state has a place",
    )?;
    Err(failed(2, text))
}

/// The socket: `named`, `$WATCHMAND_SOCKET`, `$XDG_RUNTIME_DIR/watchmand/socket`, or `socket` beside the state.
fn socket_of(rt: &HostRuntime, named: Option<&str>, state: &str) -> Result<String, Failure> {
    let alloc = rt.alloc();
    if let Some(named) = named {
        return Ok(String::from_str(alloc, named)?);
    }
    if let Some(socket) = var(rt, "WATCHMAND_SOCKET")? {
        return Ok(socket);
    }
    match var(rt, "XDG_RUNTIME_DIR")? {
        Some(folder) => Ok(format!(in alloc; "{folder}/watchmand/socket")?),
        None => Ok(format!(in alloc; "{state}/socket")?),
    }
}

/// Where the server's files are.
pub fn server_places(rt: &HostRuntime, named: Option<&str>) -> Result<Places, Failure> {
    let state = state_of(rt)?;
    let socket = socket_of(rt, named, &state)?;
    let socket = whole(rt, &socket)?;
    Ok(Places { state, socket })
}

/// A path as it is from the system's root.
pub fn whole(rt: &HostRuntime, path: &str) -> Result<String, Failure> {
    let alloc = rt.alloc();
    if path.starts_with('/') {
        return Ok(String::from_str(alloc, path)?);
    }
    match env::current_dir(rt) {
        Ok(here) => {
            let here = here.into_string();
            Ok(format!(in alloc; "{here}/{path}")?)
        }
        Err(_) => Ok(String::from_str(alloc, path)?),
    }
}

/// What is wrong with a folder.
fn no_folder(alloc: Global, path: &str, what: &str) -> Failure {
    match format!(in alloc; "{path}: {what}") {
        Ok(text) => failed(2, text),
        Err(_) => Failure::NoMemory,
    }
}

/// What is wrong with the word that names a folder, with how a PATTERN stands in the command, if it takes one.
fn wrong_word(alloc: Global, path: &str, what: &str, example: Option<&str>) -> Failure {
    let Some(example) = example else {
        return no_folder(alloc, path, what);
    };
    match format!(in alloc; "{what}; a PATTERN stands behind DIR, as in '{example}'") {
        Ok(text) => no_folder(alloc, path, &text),
        Err(_) => Failure::NoMemory,
    }
}

/// What is said of a word that names no folder that is there: quotes may have kept the shell from replacing a part of it.
fn no_such_folder(alloc: Global, word: &str, path: &str, example: Option<&str>) -> Failure {
    let Some(home) = HomeWord::of(word) else {
        return wrong_word(alloc, path, "no such folder", example);
    };
    let part = home.text();
    match format!(in alloc;
        "no such folder; the quotes kept the shell from replacing {part}, so write it without them"
    ) {
        Ok(text) => no_folder(alloc, word, &text),
        Err(_) => Failure::NoMemory,
    }
}

/// The real path of a folder, the present one if none is named. It has to be there. If the command takes a PATTERN, `example` has one.
pub fn folder(
    rt: &HostRuntime,
    named: Option<&str>,
    example: Option<&str>,
) -> Result<String, Failure> {
    let alloc = rt.alloc();
    let example = if named.is_some() { example } else { None };
    let word = named.unwrap_or(".");
    let path = whole(rt, word)?;
    let real = match fs::canonicalize(rt, path.as_str()) {
        Ok(real) => real.into_string(),
        Err(error) => {
            return Err(match error.kind() {
                ErrorKind::OutOfMemory => Failure::NoMemory,
                ErrorKind::PermissionDenied => no_folder(
                    alloc,
                    &path,
                    "no permission to look there",
                ),
                _ => no_such_folder(alloc, word, &path, example),
            });
        }
    };
    match fs::metadata(rt, real.as_str()) {
        Ok(found) if found.is_dir() => Ok(real),
        Ok(_) => Err(wrong_word(alloc, &real, "is a file, and no folder", example)),
        Err(_) => Err(no_folder(alloc, &real, "no such folder")),
    }
}

/// The path of a folder that may be gone: its real path, or its name behind the real path of the folder above it.
pub fn gone_folder(rt: &HostRuntime, named: Option<&str>) -> Result<String, Failure> {
    let alloc = rt.alloc();
    let path = whole(rt, named.unwrap_or("."))?;
    if let Ok(real) = fs::canonicalize(rt, path.as_str()) {
        return Ok(real.into_string());
    }
    let path = path.as_str().trim_end_matches('/');
    if let Some((above, name)) = path.rsplit_once('/') {
        if let Ok(real) = fs::canonicalize(rt, above) {
            let above = real.into_string();
            return Ok(format!(in alloc; "{above}/{name}")?);
        }
    }
    Ok(String::from_str(alloc, path)?)
}
