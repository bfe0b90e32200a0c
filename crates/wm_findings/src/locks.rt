//! Who has the lock of a file, by what the system lists of its locks, and where a server listens. Tests: tools/try/messages.py.

use std::alloc::{AllocError, Global};
use std::fs::{File, Files, Metadata};
use std::os::unix::fs::{FileTypeExt, MetadataExt};
use std::{fs, io};
use wm_explain::Lock;

/// The text of a file of the system's. `None` if it can't be read.
fn text_of<R: Files<File = File>>(rt: &R, alloc: Global, path: &str) -> Option<String> {
    let file = File::open(rt, path).ok()?;
    io::read_to_string(alloc, file).ok()
}

/// The process that a line of /proc/locks names, if it has a lock of the file with this number, as `1: FLOCK ADVISORY WRITE 4711
/// 08:01:131090 0 EOF`. In the line of a process that waits for one, `->` is the second word.
fn holder_in(line: &str, inode: u64) -> Option<u32> {
    let mut words = line.split_whitespace().skip(4);
    let process = words.next()?;
    let file = words.next()?;
    let (_, number) = file.rsplit_once(':')?;
    match number.parse::<u64>() {
        Ok(number) if number == inode => process.parse::<u32>().ok(),
        _ => None,
    }
}

/// Whether a process is a `watchmand`.
fn is_watchmand<R: Files<File = File>>(
    rt: &R,
    alloc: Global,
    process: u32,
) -> Result<bool, AllocError> {
    let path = format!(in alloc; "/proc/{process}/comm")?;
    match text_of(rt, alloc, &path) {
        Some(name) => Ok(name.trim() == "watchmand"),
        None => Ok(false),
    }
}

/// A path of a process by its word: what doesn't begin with `/` begins in its working folder.
fn path_by<R: Files<File = File>>(
    rt: &R,
    alloc: Global,
    process: u32,
    word: &str,
) -> Option<String> {
    if word.starts_with('/') {
        return String::from_str(alloc, word).ok();
    }
    let link = format!(in alloc; "/proc/{process}/cwd").ok()?;
    let folder = rt.read_link(alloc, link.as_str()).ok()?.into_string();
    format!(in alloc; "{folder}/{word}").ok()
}

/// Whether a socket is at a path.
fn is_socket<R: Files<File = File>>(rt: &R, path: &str) -> bool {
    match fs::metadata(rt, path) {
        Ok(at) => at.file_type().is_socket(),
        Err(_) => false,
    }
}

/// The socket of a server, by the arguments of its process: the path behind `serve` at which a socket is.
pub(crate) fn socket_of<R: Files<File = File>>(
    rt: &R,
    alloc: Global,
    process: u32,
) -> Option<String> {
    let file = format!(in alloc; "/proc/{process}/cmdline").ok()?;
    let words = text_of(rt, alloc, &file)?;
    for word in words.split('\0').skip(2) {
        if let Some(path) = path_by(rt, alloc, process, word) {
            if is_socket(rt, &path) {
                return Some(path);
            }
        }
    }
    None
}

/// The lock that a process has. A process that isn't seen from here has the number 0.
fn lock_by<R: Files<File = File>>(rt: &R, alloc: Global, process: u32) -> Lock {
    if process == 0 {
        return Lock::Unknown;
    }
    match is_watchmand(rt, alloc, process) {
        Ok(true) => Lock::Watchmand(process),
        _ => Lock::Program(process),
    }
}

/// Who has the lock of a file.
pub(crate) fn lock_of<R: Files<File = File>>(rt: &R, alloc: Global, file: &Metadata) -> Lock {
    let Some(locks) = text_of(rt, alloc, "/proc/locks") else {
        return Lock::Free;
    };
    for line in locks.lines() {
        if let Some(process) = holder_in(line, file.ino()) {
            return lock_by(rt, alloc, process);
        }
    }
    Lock::Free
}
