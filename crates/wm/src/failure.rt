//! Why a command can't be done.

use std::alloc::{AllocError, AllocFailed, Global};
use std::io;
use std::io::ErrorKind;
use wm_disk::{NoMemory, Refusal};

/// Why a command ends early.
#[derive(Drop)]
pub enum Failure {
    /// Memory ran out.
    NoMemory,
    /// The output can't be written, or the system refused what hardly fails.
    Unwritten,
    /// With this status, and this text on standard error.
    Told { status: u8, text: String },
    /// The same with 1; it may go well a moment later.
    Later { text: String },
    /// The server refused, and it won't go well later: with 1, this text, and what to do.
    Refused { text: String, refusal: Refusal },
}

impl From<NoMemory> for Failure {
    fn from(_error: NoMemory) -> Failure {
        Failure::NoMemory
    }
}

impl From<AllocError> for Failure {
    fn from(_error: AllocError) -> Failure {
        Failure::NoMemory
    }
}

impl<T: Drop> From<AllocFailed<T>> for Failure {
    fn from(_error: AllocFailed<T>) -> Failure {
        Failure::NoMemory
    }
}

impl From<io::Error> for Failure {
    fn from(error: io::Error) -> Failure {
        if error.kind() == ErrorKind::OutOfMemory {
            Failure::NoMemory
        } else {
            Failure::Unwritten
        }
    }
}

/// A failure with a status and a text.
pub fn failed(status: u8, text: String) -> Failure {
    Failure::Told { status, text }
}

/// What the system said, in a few words.
pub fn cause_of(error: &io::Error) -> &'static str {
    match error.kind() {
        ErrorKind::NotFound => "no such file",
        ErrorKind::PermissionDenied => "no permission",
        ErrorKind::ConnectionRefused => "nothing listens there",
        ErrorKind::NotADirectory => "a part of the path is no folder",
        ErrorKind::InvalidInput => "the path is too long: at most 107 bytes",
        ErrorKind::OutOfMemory => "memory ran out",
        _ => "the system refused",
    }
}

/// The failure of something that was tried at a path.
pub fn at_path(alloc: Global, status: u8, path: &str, error: &io::Error) -> Failure {
    let cause = cause_of(error);
    match format!(in alloc; "{path}: {cause}") {
        Ok(text) => failed(status, text),
        Err(_) => Failure::NoMemory,
    }
}
