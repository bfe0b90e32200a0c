//! The further line that explains a refusal on a terminal. Tests: tools/try/messages.py.

use std::alloc::Global;
use std::fs::{File, Files};
use std::net::Net;
use wm_disk::{NoMemory, Refusal};
use wm_explain::Doing;
use wm_findings::{file_line, socket_line};
use wm_program::Words;
use wm_server::words;

/// The line of a migration that was refused: that of the old file, or else of the new one.
fn migrated<R: Files<File = File>>(
    rt: &R,
    alloc: Global,
    refusal: Refusal,
    old: &str,
    new: &str,
) -> Result<Option<String>, NoMemory> {
    match file_line(rt, alloc, refusal, Doing::Moving, old)? {
        Some(line) => Ok(Some(line)),
        None => file_line(rt, alloc, refusal, Doing::Filling, new),
    }
}

/// The line of a server that was refused: that of its state file, or else of its socket.
fn served<R: Files<File = File> + Net>(
    rt: &R,
    alloc: Global,
    refusal: Refusal,
    file: &str,
    socket: &str,
) -> Result<Option<String>, NoMemory> {
    match file_line(rt, alloc, refusal, Doing::Opening, file)? {
        Some(line) => Ok(Some(line)),
        None if refusal == Refusal::DeviceFailed => socket_line(rt, alloc, socket),
        None => Ok(None),
    }
}

/// The line of what was refused with these words, besides a server.
fn plain<R: Files<File = File>>(
    rt: &R,
    alloc: Global,
    refusal: Refusal,
    words: &[&str],
) -> Result<Option<String>, NoMemory> {
    match words::Words::read(alloc, words)? {
        words::Words::Format { file } => file_line(rt, alloc, refusal, Doing::Making, &file),
        words::Words::Lines { file } => file_line(rt, alloc, refusal, Doing::Opening, &file),
        words::Words::Migrate { old, new } => migrated(rt, alloc, refusal, &old, &new),
        words::Words::Shown { .. } => Ok(None),
    }
}

/// The line that explains why `watchmand` was refused with these words. `None` if what is found now doesn't tell.
pub fn line_of<R: Files<File = File> + Net>(
    rt: &R,
    alloc: Global,
    refusal: Refusal,
    words: &[&str],
) -> Result<Option<String>, NoMemory> {
    match Words::read(alloc, words)? {
        Words::Serve { file, socket, .. } => served(rt, alloc, refusal, &file, &socket),
        Words::Plain => plain(rt, alloc, refusal, words),
        Words::Shown { .. } => Ok(None),
    }
}
