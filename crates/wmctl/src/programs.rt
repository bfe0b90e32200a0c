//! The line of a trigger whose program isn't found. Tests: tools/try/messages.py.

use std::alloc::Global;
use std::env::VarError;
use std::fs::{File, Files};
use std::io::ErrorKind;
use std::os::unix::fs::MetadataExt;
use std::rt::Env;
use std::{env, fs};
use wm_disk::NoMemory;
use wm_parts::{ProgramFound, program_line, program_sought};

/// What is seen at a path at which no program is. `None` if one may be there.
fn found_at<R: Files<File = File>>(rt: &R, path: &str) -> Option<ProgramFound> {
    match fs::metadata(rt, path) {
        Ok(at) if at.is_file() && at.mode() & 0o111 != 0 => None,
        Ok(_) => Some(ProgramFound::Unmarked),
        Err(error) => match error.kind() {
            ErrorKind::NotFound | ErrorKind::NotADirectory => Some(ProgramFound::Missing),
            _ => None,
        },
    }
}

/// Whether a program of this name may be in a folder of the PATH.
fn is_on_path<R: Files<File = File> + Env + Alloc>(
    rt: &R,
    alloc: Global,
    name: &str,
) -> Result<bool, NoMemory> {
    let folders = match env::var(rt, "PATH") {
        Ok(folders) => folders,
        Err(VarError::OutOfMemory) => return Err(NoMemory),
        Err(_) => return Ok(true),
    };
    for folder in folders.as_str().split(':') {
        let path = format!(in alloc; "{folder}/{name}")?;
        if found_at(rt, &path).is_none() {
            return Ok(true);
        }
    }
    Ok(false)
}

/// What is found in place of a program, by its path, or by its name. `None` if it may be there.
fn found_in_place<R: Files<File = File> + Env + Alloc>(
    rt: &R,
    alloc: Global,
    program: &str,
) -> Result<Option<ProgramFound>, NoMemory> {
    if program.starts_with('/') {
        return Ok(found_at(rt, program));
    }
    if is_on_path(rt, alloc, program)? {
        Ok(None)
    } else {
        Ok(Some(ProgramFound::OffPath))
    }
}

/// The line of a request that defines a trigger whose program isn't there.
pub fn missing_program_line<R: Files<File = File> + Env + Alloc>(
    rt: &R,
    alloc: Global,
    json: &str,
) -> Result<Option<String>, NoMemory> {
    let Some(program) = program_sought(alloc, json)? else {
        return Ok(None);
    };
    match found_in_place(rt, alloc, &program)? {
        Some(found) => Ok(Some(program_line(alloc, &program, found)?)),
        None => Ok(None),
    }
}
