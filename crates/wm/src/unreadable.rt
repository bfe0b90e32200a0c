//! Folders that can't be read: a root, and those below it.

use crate::failure::{Failure, cause_of, failed};
use crate::listening::read_names;
use crate::place::Place;
use crate::server::{Reply, Server};
use crate::waiting::Waiting;
use serde_json::{Value, json};
use std::io::ErrorKind;
use std::time::Instant;
use std::{fs, io};
use wm_commands::{
    FolderNote, MOST_NAMED, READ_ADVICE, RootSeen, expression, folder_note, more_unnamed, name_in,
    query_line,
};

/// For how long a command looks for folders that can't be read, and at how many paths.
#[derive(Drop)]
pub struct Looks {
    begun: Instant,
    millis: u128,
    /// How many paths may still be looked at.
    paths: u64,
}

impl Looks {
    /// The looks of a command about watched folders.
    pub fn long(server: &Server<'_>) -> Result<Looks, Failure> {
        Ok(Looks {
            begun: Instant::now(server.rt)?,
            millis: 1_000,
            paths: u64::MAX,
        })
    }

    /// The looks of a command about files.
    pub fn short(server: &Server<'_>) -> Result<Looks, Failure> {
        Ok(Looks {
            begun: Instant::now(server.rt)?,
            millis: 50,
            paths: 200,
        })
    }

    /// Whether a command has looked for long enough.
    fn is_over(&self, server: &Server<'_>) -> Result<bool, Failure> {
        Ok(self.paths == 0 || self.begun.elapsed(server.rt)?.as_millis() >= self.millis)
    }
}

/// A folder that can't be read, and why.
#[derive(Drop)]
pub struct Unreadable {
    pub path: String,
    pub cause: &'static str,
}

/// Why a folder can't be read, by what the system said. `None` if it is gone.
fn cause_if_there(error: &io::Error) -> Option<&'static str> {
    match error.kind() {
        ErrorKind::NotFound | ErrorKind::NotADirectory => None,
        _ => Some(cause_of(error)),
    }
}

/// Why a folder can't be read: it can't be opened, or what is in it can't be looked at. `None` if it can be read, or is no folder.
pub fn unread_cause(rt: &HostRuntime, path: &str) -> Option<&'static str> {
    let mut entries = match fs::read_dir(rt, path) {
        Ok(entries) => entries,
        Err(error) => return cause_if_there(&error),
    };
    let Some(Ok(first)) = entries.next() else {
        return None;
    };
    match first.metadata() {
        Ok(_) => None,
        Err(error) => cause_if_there(&error),
    }
}

/// What is at the path of a root.
pub fn root_seen(rt: &HostRuntime, root: &str) -> RootSeen {
    match fs::metadata(rt, root) {
        Ok(found) => RootSeen::of(true, found.is_dir(), unread_cause(rt, root).is_none()),
        Err(error) => RootSeen::of(cause_if_there(&error).is_some(), true, false),
    }
}

/// What is said of a folder that can't be read.
pub fn unreadable_text(server: &Server<'_>, root: &str) -> Result<String, Failure> {
    let cause = unread_cause(server.rt, root).unwrap_or("no permission");
    Ok(format!(in server.rt.alloc(); "{root}: the folder can't be read ({cause}); {READ_ADVICE}")?)
}

/// The failure of a folder that can't be read.
pub fn unreadable_root(server: &Server<'_>, root: &str) -> Result<Failure, Failure> {
    Ok(failed(1, unreadable_text(server, root)?))
}

/// Says on standard error of a folder that was crawled, and can't be read now, that what is known of it is from before.
fn note_stale(server: &Server<'_>, dir: &str) -> Result<(), Failure> {
    let text = unreadable_text(server, dir)?;
    eprintln!(server.rt; "wm: {text}; what is known of it is from before")?;
    Ok(())
}

/// Says on standard error if a place's folder, or else its root, can't be read now, and returns `false` if the folder can't. Fails if no
/// file in that is known either.
pub fn note_folder(server: &Server<'_>, place: &Place) -> Result<bool, Failure> {
    let seen = root_seen(server.rt, &place.dir);
    let is_known = seen == RootSeen::Unreadable && is_known(server, place)?;
    match folder_note(seen, is_known) {
        FolderNote::Silent => {}
        FolderNote::Stale => {
            note_stale(server, &place.dir)?;
            return Ok(false);
        }
        FolderNote::Unknown => return Err(unreadable_root(server, &place.dir)?),
    }
    if place.root.as_str() != place.dir.as_str()
        && root_seen(server.rt, &place.root) == RootSeen::Unreadable
    {
        note_stale(server, &place.root)?;
    }
    Ok(true)
}

/// Whether the server knows a file in a place's folder.
fn is_known(server: &Server<'_>, place: &Place) -> Result<bool, Failure> {
    let mut waiting = Waiting::for_answer(server)?;
    match listed(server, &place.root, &place.dir, None, &mut waiting)? {
        Some(paths) => Ok(!paths.is_empty()),
        None => Ok(false),
    }
}

/// The paths in a folder of a root that fit an expression, by the server's view. `None` if it has none yet.
fn listed(
    server: &Server<'_>,
    root: &str,
    dir: &str,
    own: Option<Value>,
    waiting: &mut Waiting,
) -> Result<Option<Vec<String>>, Failure> {
    let alloc = server.rt.alloc();
    let expression = expression(alloc, name_in(alloc, root, dir)?, &[], own)?;
    let line = query_line(alloc, root, None, expression, false)?;
    let names = match waiting.ask(server, root, &line)? {
        Reply::Line(line) => read_names(server, &line)?,
        _ => None,
    };
    match names {
        Some(names) => Ok(Some(paths_in(server, root, dir, &names)?)),
        None => Ok(None),
    }
}

/// The paths of names below a root, those outside of a folder left out.
fn paths_in(
    server: &Server<'_>,
    root: &str,
    dir: &str,
    names: &[String],
) -> Result<Vec<String>, Failure> {
    let alloc = server.rt.alloc();
    let mut paths = Vec::new(alloc);
    for name in names {
        let path = format!(in alloc; "{root}/{name}")?;
        if name_in(alloc, dir, &path)?.is_some() {
            paths.push(path)?;
        }
    }
    Ok(paths)
}

/// Adds a folder to those that can't be read if it can't, and returns whether it was added.
fn add_unread(
    server: &Server<'_>,
    path: &str,
    unread: &mut Vec<Unreadable>,
) -> Result<bool, Failure> {
    let Some(cause) = unread_cause(server.rt, path) else {
        return Ok(false);
    };
    let path = String::from_str(server.rt.alloc(), path)?;
    unread.push(Unreadable { path, cause })?;
    Ok(true)
}

/// Adds the folders in a folder to those that are still to be looked at, as long as paths may be looked at.
fn add_folders(
    server: &Server<'_>,
    folder: &str,
    below: &mut Vec<String>,
    looks: &mut Looks,
) -> Result<(), Failure> {
    let Ok(entries) = fs::read_dir(server.rt, folder) else {
        return Ok(());
    };
    for entry in entries {
        if looks.paths == 0 {
            break;
        }
        looks.paths = looks.paths.saturating_sub(1);
        let Ok(entry) = entry else {
            continue;
        };
        if let Ok(found) = entry.metadata() {
            if found.is_dir() {
                let name = entry.file_name();
                below.push(format!(in server.rt.alloc(); "{folder}/{name}")?)?;
            }
        }
    }
    Ok(())
}

/// Looks at folders until the looks are over: adds those that can't be read, and returns those that are in the others.
fn next_level(
    server: &Server<'_>,
    folders: &[String],
    unread: &mut Vec<Unreadable>,
    looks: &mut Looks,
) -> Result<Vec<String>, Failure> {
    let mut below = Vec::new(server.rt.alloc());
    for folder in folders {
        if looks.is_over(server)? {
            break;
        }
        if !add_unread(server, folder, unread)? {
            add_folders(server, folder, &mut below, looks)?;
        }
    }
    Ok(below)
}

/// The folders in a folder that can't be read, by a walk through it, those near to it first, until the looks are over.
fn walked(
    server: &Server<'_>,
    folder: &str,
    looks: &mut Looks,
) -> Result<Vec<Unreadable>, Failure> {
    let alloc = server.rt.alloc();
    let mut unread = Vec::new(alloc);
    let mut level = Vec::new(alloc);
    level.push(String::from_str(alloc, folder)?)?;
    for _ in 0..u64::MAX {
        if level.is_empty() {
            break;
        }
        level = next_level(server, &level, &mut unread, looks)?;
    }
    Ok(unread)
}

/// Those of some folders that can't be read, until the looks are over.
fn unread_of(
    server: &Server<'_>,
    paths: &[String],
    looks: &Looks,
) -> Result<Vec<Unreadable>, Failure> {
    let mut unread = Vec::new(server.rt.alloc());
    for path in paths {
        if looks.is_over(server)? {
            break;
        }
        add_unread(server, path, &mut unread)?;
    }
    Ok(unread)
}

/// Sorts folders by their paths.
fn sorted(mut unread: Vec<Unreadable>) -> Result<Vec<Unreadable>, Failure> {
    unread.sort_by(|one, other| one.path.as_str().cmp(other.path.as_str()))?;
    Ok(unread)
}

/// The folders in a folder of a root that can't be read, as far as they are found until the looks are over. The server is asked for the
/// folders; if it has none yet, they are looked for.
pub fn unreadable_below(
    server: &Server<'_>,
    root: &str,
    dir: &str,
    looks: &mut Looks,
    waiting: &mut Waiting,
) -> Result<Vec<Unreadable>, Failure> {
    let folders = json!(in server.rt.alloc(); ["type", "d"])?;
    let unread = match listed(server, root, dir, Some(folders), waiting)? {
        Some(paths) => unread_of(server, &paths, looks)?,
        None => walked(server, dir, looks)?,
    };
    sorted(unread)
}

/// The folders in a folder that can't be read, as far as a walk finds them until the looks are over.
pub fn unreadable_found(
    server: &Server<'_>,
    folder: &str,
    looks: &mut Looks,
) -> Result<Vec<Unreadable>, Failure> {
    sorted(walked(server, folder, looks)?)
}

/// Names on standard error the first of the folders in a folder that can't be read.
pub fn name_unreadable(
    server: &Server<'_>,
    root: &str,
    unread: &[Unreadable],
) -> Result<(), Failure> {
    for one in unread.iter().take(MOST_NAMED) {
        let (path, cause) = (one.path.as_str(), one.cause);
        eprintln!(server.rt;
            "wm: {path}: the folder can't be read ({cause}); what is in it isn't listed"
        )?;
    }
    if let Some(more) = more_unnamed(unread.len()) {
        eprintln!(server.rt; "wm: {root}: and {more} more folders below it can't be read")?;
    }
    Ok(())
}
