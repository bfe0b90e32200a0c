//! Where programs are.

use crate::failure::{Failure, failed};
use std::{env, fs};

/// The failure of a program that can't be started.
pub fn unstarted(rt: &HostRuntime, name: &str) -> Failure {
    match format!(in rt.alloc(); "{name}: can't be started: install it beside wm, or on the PATH") {
        Ok(text) => failed(1, text),
        Err(_) => Failure::NoMemory,
    }
}

/// The folder of this program.
fn own_folder(rt: &HostRuntime) -> Result<Option<String>, Failure> {
    let Ok(here) = env::current_exe(rt) else {
        return Ok(None);
    };
    let here = here.into_string();
    match here.rsplit_once('/') {
        Some((folder, _)) => Ok(Some(String::from_str(rt.alloc(), folder)?)),
        None => Ok(None),
    }
}

/// The path of a program in a folder, if it is there.
fn program_in(rt: &HostRuntime, folder: &str, name: &str) -> Result<Option<String>, Failure> {
    let path = format!(in rt.alloc(); "{folder}/{name}")?;
    match fs::metadata(rt, path.as_str()) {
        Ok(found) if found.is_file() => Ok(Some(path)),
        _ => Ok(None),
    }
}

/// The path of a program that is on the PATH.
fn on_path(rt: &HostRuntime, name: &str) -> Result<Option<String>, Failure> {
    let Ok(folders) = env::var(rt, "PATH") else {
        return Ok(None);
    };
    for folder in folders.as_str().split(':') {
        if let Some(path) = program_in(rt, folder, name)? {
            return Ok(Some(path));
        }
    }
    Ok(None)
}

/// Whether the program is there that a feed runs.
pub fn has_inotifywait(rt: &HostRuntime) -> Result<bool, Failure> {
    Ok(on_path(rt, "inotifywait")?.is_some())
}

/// The path of a program: beside this one if it is there, and else on the PATH.
pub fn program(rt: &HostRuntime, name: &str) -> Result<String, Failure> {
    if let Some(folder) = own_folder(rt)? {
        if let Some(path) = program_in(rt, &folder, name)? {
            return Ok(path);
        }
    }
    match on_path(rt, name)? {
        Some(path) => Ok(path),
        None => Err(unstarted(rt, name)),
    }
}
