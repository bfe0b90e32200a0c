//! What is at the path of a root, and whose a socket is. Tests: tools/try/messages.py.

use crate::findings::{folder_of, found_socket};
use crate::places::{RootFound, server_line};
use std::alloc::Global;
use std::fs::{File, Files};
use std::io::ErrorKind;
use std::net::Net;
use std::os::unix::fs::MetadataExt;
use std::{fs, io};
use wm_disk::NoMemory;
use wm_explain::{End, socket_cause};

/// What is seen at a path at which no folder is. `None` if one may be there.
pub fn found_without_folder<R: Files<File = File>>(
    rt: &R,
    path: &str,
) -> Option<RootFound<'static>> {
    match fs::metadata(rt, path) {
        Ok(at) if at.is_dir() => None,
        Ok(_) => Some(RootFound::File),
        Err(error) if is_missing(&error) => Some(RootFound::Nothing),
        Err(_) => None,
    }
}

/// Whether nothing is at a path, by what the system says of it.
fn is_missing(error: &io::Error) -> bool {
    matches!(error.kind(), ErrorKind::NotFound | ErrorKind::NotADirectory)
}

/// Whether it is seen that a folder can't be read. Nothing else is opened, since that may wait for a writer.
pub fn is_unreadable<R: Files<File = File>>(rt: &R, path: &str) -> bool {
    match fs::metadata(rt, path) {
        Ok(at) if !at.is_dir() => false,
        _ => is_refused(rt, path),
    }
}

/// Whether there is no right to open what is at a path.
fn is_refused<R: Files<File = File>>(rt: &R, path: &str) -> bool {
    match File::open(rt, path) {
        Ok(_) => false,
        Err(error) => error.kind() == ErrorKind::PermissionDenied,
    }
}

/// The user of this process.
fn own_user<R: Files<File = File>>(rt: &R) -> Option<u32> {
    match fs::metadata(rt, "/proc/self") {
        Ok(at) => Some(at.uid()),
        Err(_) => None,
    }
}

/// Whether what is at a path is this user's.
pub fn is_own<R: Files<File = File>>(rt: &R, path: &str) -> bool {
    match (fs::metadata(rt, path), own_user(rt)) {
        (Ok(at), Some(user)) => at.uid() == user,
        _ => false,
    }
}

/// The user whose the nearest path is that can be looked at.
fn nearest_user<R: Files<File = File>>(rt: &R, path: &str) -> Option<u32> {
    let mut near = path;
    for _ in 0..=path.len() {
        if let Ok(at) = fs::metadata(rt, near) {
            return Some(at.uid());
        }
        near = folder_of(near);
    }
    None
}

/// Whether a path is seen to be another user's.
fn is_of_another<R: Files<File = File>>(rt: &R, path: &str) -> bool {
    match (nearest_user(rt, path), own_user(rt)) {
        (Some(near), Some(own)) => near != own,
        _ => false,
    }
}

/// The line that says why no server answers at a socket, and what to do. `None` if one takes connections there.
pub fn unreached_line<R: Files<File = File> + Net>(
    rt: &R,
    alloc: Global,
    socket: &str,
) -> Result<Option<String>, NoMemory> {
    match socket_cause(End::Client, socket.len(), found_socket(rt, socket)) {
        Some(cause) => Ok(Some(server_line(alloc, socket, cause, is_of_another(rt, socket))?)),
        None => Ok(None),
    }
}
