//! What is at a path. Tests: tools/try/messages.py.

use crate::heads::head_in;
use crate::locks::lock_of;
use std::alloc::Global;
use std::fs::{File, Files, Metadata, OpenOptions};
use std::io::ErrorKind;
use std::net::Net;
use std::os::unix::fs::{FileExt, FileTypeExt};
use std::os::unix::net::UnixStream;
use std::path::Path;
use std::{fs, io};
use wm_explain::{Found, Head, Lock};

/// The folder of a path.
pub(crate) fn folder_of(path: &str) -> &str {
    match Path::new(path).parent() {
        Some(folder) if !folder.as_str().is_empty() => folder.as_str(),
        _ => ".",
    }
}

/// What is to be said of a path at which nothing was found.
fn nothing_at<R: Files<File = File>>(rt: &R, path: &str) -> Found {
    match fs::metadata(rt, folder_of(path)) {
        Ok(folder) if folder.is_dir() => Found::Nothing,
        Err(error) if error.kind() == ErrorKind::PermissionDenied => Found::Denied,
        _ => Found::NoFolder,
    }
}

/// What is to be said of a path at which the system refused a look so.
fn unseen<R: Files<File = File>>(rt: &R, path: &str, error: &io::Error) -> Found {
    match error.kind() {
        ErrorKind::NotFound | ErrorKind::NotADirectory => nothing_at(rt, path),
        ErrorKind::PermissionDenied => Found::Denied,
        _ => Found::Other,
    }
}

/// As what a file begins. One of fewer bytes is none of `watchmand`.
fn head_of(file: &File) -> Head {
    let mut bytes = [0; 13];
    match file.read_exact_at(&mut bytes, 0) {
        Ok(()) => head_in(&bytes),
        Err(_) => Head::Foreign,
    }
}

/// What a regular file is.
fn regular_at<R: Files<File = File>>(rt: &R, alloc: Global, path: &str, at: &Metadata) -> Found {
    match OpenOptions::new().read(true).write(true).open(rt, path) {
        Ok(file) => Found::File {
            lock: lock_of(rt, alloc, at),
            head: head_of(&file),
        },
        Err(error) => unseen(rt, path, &error),
    }
}

/// What is at the path of a file.
pub fn found_file<R: Files<File = File>>(rt: &R, alloc: Global, path: &str) -> Found {
    match fs::metadata(rt, path) {
        Ok(at) if at.is_file() => regular_at(rt, alloc, path, &at),
        Ok(at) if at.is_dir() => Found::Folder,
        Ok(_) => Found::Other,
        Err(error) => unseen(rt, path, &error),
    }
}

/// Whether a server takes connections on a socket that is there.
fn served_at<R: Net>(rt: &R, path: &str) -> Found {
    match UnixStream::connect(rt, path) {
        Ok(_) => Found::Served,
        Err(error) if error.kind() == ErrorKind::PermissionDenied => Found::Denied,
        Err(_) => Found::Unserved,
    }
}

/// What is at the path of a socket.
pub fn found_socket<R: Files<File = File> + Net>(rt: &R, path: &str) -> Found {
    match fs::metadata(rt, path) {
        Ok(at) if at.file_type().is_socket() => served_at(rt, path),
        Ok(at) if at.is_dir() => Found::Folder,
        Ok(at) if at.is_file() => Found::File {
            lock: Lock::Free,
            head: Head::Foreign,
        },
        Ok(_) => Found::Other,
        Err(error) => unseen(rt, path, &error),
    }
}
