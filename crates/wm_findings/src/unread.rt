//! The folders below a root that can't be read. Tests: tools/try/messages.py.

use std::alloc::Global;
use std::fs;
use std::fs::{File, Files};
use std::io::ErrorKind;
use std::time::{Clock, Instant};
use wm_disk::NoMemory;

/// For how many milliseconds such folders are looked for.
const PATIENCE: u128 = 100;

/// Whether it was looked for long enough, or the time can't be told.
fn is_over<R: Clock>(rt: &R, begun: Instant) -> bool {
    match begun.elapsed(rt) {
        Ok(time) => time.as_millis() >= PATIENCE,
        Err(_) => true,
    }
}

/// Whether it is seen that a folder, or what is in it, can't be looked at.
fn is_closed<R: Files<File = File> + Alloc + Clone + Drop>(rt: &R, folder: &str) -> bool {
    let mut entries = match fs::read_dir(rt, folder) {
        Ok(entries) => entries,
        Err(error) => return error.kind() == ErrorKind::PermissionDenied,
    };
    let Some(Ok(first)) = entries.next() else {
        return false;
    };
    match first.metadata() {
        Ok(_) => false,
        Err(error) => error.kind() == ErrorKind::PermissionDenied,
    }
}

/// Adds the folders in a folder to those that are still to be looked at.
fn add_folders<R: Files<File = File> + Clock + Alloc + Clone + Drop>(
    rt: &R,
    alloc: Global,
    folder: &str,
    begun: Instant,
    waiting: &mut Vec<String>,
) -> Result<(), NoMemory> {
    let Ok(entries) = fs::read_dir(rt, folder) else {
        return Ok(());
    };
    for entry in entries {
        if is_over(rt, begun) {
            break;
        }
        let Ok(entry) = entry else {
            continue;
        };
        if let Ok(at) = entry.metadata() {
            if at.is_dir() {
                let name = entry.file_name();
                waiting.push(format!(in alloc; "{folder}/{name}")?)?;
            }
        }
    }
    Ok(())
}

/// The folders below a root, and the root, that this user can't read, as far as a walk of a tenth of a second finds them.
pub fn unread_below<R: Files<File = File> + Clock + Alloc + Clone + Drop>(
    rt: &R,
    alloc: Global,
    root: &str,
) -> Result<Vec<String>, NoMemory> {
    let mut unread = Vec::new(alloc);
    let Ok(begun) = Instant::now(rt) else {
        return Ok(unread);
    };
    let mut waiting = Vec::new(alloc);
    waiting.push(String::from_str(alloc, root)?)?;
    for _ in 0..u64::MAX {
        let Some(folder) = waiting.pop() else {
            break;
        };
        if is_over(rt, begun) {
            break;
        }
        if is_closed(rt, &folder) {
            unread.push(folder)?;
        } else {
            add_folders(rt, alloc, &folder, begun, &mut waiting)?;
        }
    }
    unread.sort_by(|one, other| one.as_str().cmp(other.as_str()))?;
    Ok(unread)
}
