//! `wm watch`, `wm unwatch`, `wm list` and `wm status`.

use crate::failure::Failure;
use crate::feed_looks::is_ready;
use crate::feeds::{FeedsFound, feeds_found, start_advice};
use crate::place::{place_of, roots};
use crate::places::{gone_folder, whole};
use crate::server::{Reply, Server};
use crate::unreadable::{
    Looks, name_unreadable, note_folder, root_seen, unreadable_below, unreadable_text,
};
use crate::waiting::Waiting;
use wm_client::root_number_of;
use wm_commands::{Feeding, NO_SESSION, RootSeen, named_root, root_line, root_status};
use wm_disk::Refusal;

/// Says on standard error which folders of a root that was just watched can't be read. It stays watched, since they may be readable later.
fn note_unreadable(server: &Server<'_>, dir: &str, waiting: &mut Waiting) -> Result<(), Failure> {
    if root_seen(server.rt, dir) == RootSeen::Unreadable {
        let text = unreadable_text(server, dir)?;
        eprintln!(server.rt; "wm: {text}; it is watched, and listed once it can be read")?;
        return Ok(());
    }
    let mut looks = Looks::long(server)?;
    let unread = unreadable_below(server, dir, dir, &mut looks, waiting)?;
    name_unreadable(server, dir, &unread)
}

/// Handles `watch`.
pub fn watch(server: &Server<'_>, dir: &str) -> Result<u8, Failure> {
    let json = root_line(server.rt.alloc(), "watch", dir)?;
    let mut waiting = Waiting::for_answer(server)?;
    let _line = waiting.line(server, dir, &json)?;
    println!(server.rt; "{dir}")?;
    note_unreadable(server, dir, &mut waiting)?;
    Ok(0)
}

/// Handles `unwatch`: of the root that is named, which is printed.
pub fn unwatch(server: &Server<'_>, named: Option<&str>) -> Result<u8, Failure> {
    let path = whole(server.rt, named.unwrap_or("."))?;
    let folder = gone_folder(server.rt, named)?;
    let roots = roots(server)?;
    let root = named_root(&roots, &path, &folder);
    let json = root_line(server.rt.alloc(), "watch-del", root)?;
    let mut waiting = Waiting::for_answer(server)?;
    let _line = waiting.line(server, root, &json)?;
    println!(server.rt; "{root}")?;
    Ok(0)
}

/// Handles `list`.
pub fn list(server: &Server<'_>) -> Result<u8, Failure> {
    for root in &roots(server)? {
        let root = root.as_str();
        println!(server.rt; "{root}")?;
    }
    Ok(0)
}

/// Whether a root that was crawled is fed, by the reply to a question for its clock.
fn crawled_status(
    server: &Server<'_>,
    line: &str,
    feeds: FeedsFound,
) -> Result<&'static str, Failure> {
    let Some(number) = root_number_of(server.rt.alloc(), line.as_bytes())? else {
        return Ok("unknown");
    };
    match Feeding::of(feeds != FeedsFound::Missing, is_ready(server, number)?) {
        Feeding::Fed if feeds == FeedsFound::Stopped => Ok("ready, fed by a stopped process"),
        Feeding::Fed => Ok("ready, fed"),
        Feeding::Unready | Feeding::Unfed => Ok("ready, not fed"),
    }
}

/// What a refusal says of a root, which is stuck if no feed runs that passes over what can't be read.
fn refused_status(
    server: &Server<'_>,
    refusal: Option<Refusal>,
    line: &str,
    is_stuck: bool,
) -> Result<String, Failure> {
    let alloc = server.rt.alloc();
    let Some(refusal) = refusal else {
        let line = line.trim_end();
        return Ok(format!(in alloc; "the server refused: {line}")?);
    };
    match root_status(refusal, is_stuck) {
        Some(status) => Ok(String::from_str(alloc, status)?),
        None => {
            let name = refusal.text();
            Ok(format!(in alloc; "the server refused: {name}")?)
        }
    }
}

/// What the server says of a root, in a few words.
fn answered_status(
    server: &Server<'_>,
    root: &str,
    feeds: FeedsFound,
    is_stuck: bool,
    waiting: &mut Waiting,
) -> Result<String, Failure> {
    let alloc = server.rt.alloc();
    let json = root_line(alloc, "clock", root)?;
    match waiting.ask(server, root, &json)? {
        Reply::Line(line) => Ok(String::from_str(alloc, crawled_status(server, &line, feeds)?)?),
        Reply::Refused(refusal, line) => refused_status(server, refusal, &line, is_stuck),
        Reply::NoSession => Ok(format!(in alloc; "not known: {NO_SESSION}")?),
    }
}

/// Prints the status of a root that is a folder, and names the folders below it that can't be read on standard error.
fn print_folder(
    server: &Server<'_>,
    root: &str,
    feeds: FeedsFound,
    looks: &mut Looks,
) -> Result<(), Failure> {
    let mut waiting = Waiting::for_answer(server)?;
    let unread = unreadable_below(server, root, root, looks, &mut waiting)?;
    let is_stuck = feeds == FeedsFound::Missing && !unread.is_empty();
    let status = answered_status(server, root, feeds, is_stuck, &mut waiting)?;
    println!(server.rt; "{root}: {status}")?;
    name_unreadable(server, root, &unread)
}

/// Prints the status of a root.
fn print_root(
    server: &Server<'_>,
    root: &str,
    feeds: FeedsFound,
    looks: &mut Looks,
) -> Result<(), Failure> {
    let rt = server.rt;
    match root_seen(rt, root) {
        RootSeen::Folder => return print_folder(server, root, feeds, looks),
        RootSeen::Unreadable => {
            let text = unreadable_text(server, root)?;
            println!(rt; "{text}")?;
        }
        RootSeen::NoFolder => {
            println!(rt; "{root}: is a file, and no folder: 'wm unwatch' ends its watch")?;
        }
        RootSeen::Nothing => {
            println!(rt; "{root}: no such folder: 'wm unwatch' ends its watch")?;
        }
    }
    Ok(())
}

/// Handles `status`.
pub fn status(server: &Server<'_>) -> Result<u8, Failure> {
    let socket = server.socket;
    let roots = roots(server)?;
    println!(server.rt; "server: {socket}")?;
    let feeds = feeds_found(server.rt, socket)?;
    if feeds == FeedsFound::Missing {
        let advice = start_advice(server.rt)?;
        println!(server.rt; "no feed runs: {advice}")?;
    }
    let mut looks = Looks::long(server)?;
    for root in &roots {
        print_root(server, root.as_str(), feeds, &mut looks)?;
    }
    Ok(0)
}

/// Handles `sync`.
pub fn sync(server: &Server<'_>, dir: String) -> Result<u8, Failure> {
    let place = place_of(server, dir)?;
    crate::asking::sync(server, &place.root)?;
    note_folder(server, &place)?;
    Ok(0)
}
