//! What keeps a program from a file or a socket, by what the system shows of it. Tests: tools/try/messages.py.

use crate::advice::Hindrance;
use crate::locks::socket_of;
use std::alloc::Global;
use std::fs;
use std::fs::{File, Files};
use std::os::unix::fs::MetadataExt;
use wm_explain::{Cause, Trouble};

/// The owner of what is at a path.
fn owner_at<R: Files<File = File>>(rt: &R, path: &str) -> Option<u32> {
    let at = fs::metadata(rt, path).ok()?;
    Some(at.uid())
}

/// The owner of what is at a path, if that is another user than this process's.
fn other_owner<R: Files<File = File>>(rt: &R, path: &str) -> Option<u32> {
    let owner = owner_at(rt, path)?;
    let own = owner_at(rt, "/proc/self")?;
    (owner != own).then_some(owner)
}

/// What keeps a program from a file, if a cause says so.
pub(crate) fn file_hindrance<R: Files<File = File>>(
    rt: &R,
    alloc: Global,
    path: &str,
    cause: Cause,
) -> Option<Hindrance> {
    match cause {
        Cause::Watchmand(process) => Some(Hindrance::Server(
            process,
            socket_of(rt, alloc, process),
        )),
        Cause::Fixed(Trouble::Denied) => Some(Hindrance::ClosedFile(other_owner(rt, path))),
        _ => None,
    }
}

/// What keeps a server from a socket, if a cause says so.
pub(crate) fn socket_hindrance<R: Files<File = File>>(
    rt: &R,
    path: &str,
    cause: Cause,
) -> Option<Hindrance> {
    match cause {
        Cause::Fixed(Trouble::Denied) => Some(Hindrance::ClosedSocket(other_owner(rt, path))),
        Cause::Fixed(Trouble::Listened) => Some(Hindrance::Listener),
        _ => None,
    }
}
