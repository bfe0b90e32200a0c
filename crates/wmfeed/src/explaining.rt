//! The further line that explains a failure, or what is waited for, on a terminal. Tests: tools/try/messages.py.

use std::alloc::Global;
use std::fs::{File, Files};
use std::net::Net;
use wm_client::{FeedWords, Stop};
use wm_disk::{NoMemory, Refusal};
use wm_feeder::Explainer;
use wm_findings::{
    NO_INOTIFYWAIT, RootFound, Unfed, fed_line, found_without_folder, is_unreadable, root_line,
    unreached_line,
};
use wm_parts::{RequestKind, advice_line, root_explanation};

/// What is said of a server that has no place for a session, behind what to do.
const TRIED_AGAIN: &str = "wmfeed tries again five times a second\n";

/// What else may be the cause if the server has no place for the feed of a root.
const OR_ROOTS: &str =
    "or it watches 256 roots, which 'wm list' prints; 'wm unwatch' ends a watch\n";

/// What explains on standard error why a feed waits, if that is wanted.
#[derive(Clone, Copy)]
pub struct Explaining<'a> {
    pub rt: &'a HostRuntime,
    pub is_wanted: bool,
}

impl Explainer for Explaining<'_> {
    fn explain(&self, alloc: Global, path: &str, stop: Stop) {
        if !self.is_wanted {
            return;
        }
        if let Ok(Some(line)) = wait_line(self.rt, alloc, path, stop) {
            // If it can't be written, the line before it says why.
            let _written = self.rt.eprint(line.as_str());
        }
    }
}

/// Why a root whose crawl is refused can't be fed.
fn refused_crawl<R: Files<File = File>>(rt: &R, root: &str) -> Unfed {
    if is_unreadable(rt, root) {
        Unfed::Unreadable
    } else {
        Unfed::Uncrawled
    }
}

/// The lines of a server that has no place for a session, with a last one.
fn full_lines(alloc: Global, last: &str) -> Result<String, NoMemory> {
    let mut text = advice_line(alloc, Refusal::TooMany, RequestKind::Other)?;
    text.push_str(last)?;
    Ok(text)
}

/// The line that explains why the feed of a root, or of the server at a socket, waits: this is its path. `None` if nothing more is to be
/// said of it.
fn wait_line<R: Files<File = File> + Net>(
    rt: &R,
    alloc: Global,
    path: &str,
    stop: Stop,
) -> Result<Option<String>, NoMemory> {
    match stop {
        Stop::Unreached | Stop::ServerGone => unreached_line(rt, alloc, path),
        Stop::Refused(Refusal::TooMany) => Ok(Some(full_lines(alloc, TRIED_AGAIN)?)),
        Stop::Refused(Refusal::DeviceFailed) => {
            Ok(Some(fed_line(alloc, path, refused_crawl(rt, path))?))
        }
        _ => Ok(None),
    }
}

/// The line of a root at whose path no folder is.
fn no_folder_line<R: Files<File = File>>(
    rt: &R,
    alloc: Global,
    root: &str,
) -> Result<String, NoMemory> {
    match found_without_folder(rt, root) {
        Some(RootFound::File) => fed_line(alloc, root, Unfed::File),
        _ => fed_line(alloc, root, Unfed::Nothing),
    }
}

/// The line of a root whose crawl was refused again and again.
fn uncrawled_line<R: Files<File = File>>(
    rt: &R,
    alloc: Global,
    root: &str,
) -> Result<Option<String>, NoMemory> {
    if !is_unreadable(rt, root) {
        return Ok(None);
    }
    Ok(Some(root_line(alloc, root, RootFound::Unreadable)?))
}

/// The line of the cause for which the feed of a root stopped.
fn stop_line<R: Files<File = File> + Net>(
    rt: &R,
    alloc: Global,
    socket: &str,
    root: &str,
    stop: Stop,
) -> Result<Option<String>, NoMemory> {
    match stop {
        Stop::Unreached | Stop::ServerGone => unreached_line(rt, alloc, socket),
        Stop::NoFolder => Ok(Some(no_folder_line(rt, alloc, root)?)),
        Stop::Refused(Refusal::TooMany) => Ok(Some(full_lines(alloc, OR_ROOTS)?)),
        Stop::Refused(Refusal::DeviceFailed) => uncrawled_line(rt, alloc, root),
        _ => Ok(None),
    }
}

/// The line that explains why `wmfeed` ended, by the cause that it reported, if it did: that ROOT is no root's path, that inotifywait is to be
/// installed, or what is wrong with the root or the server. `None` if nothing more is to be said of it.
pub fn line_of<R: Files<File = File> + Net>(
    rt: &R,
    alloc: Global,
    status: u8,
    stop: Option<Stop>,
    words: &[&str],
) -> Result<Option<String>, NoMemory> {
    let FeedWords::Feed { socket, root, .. } = FeedWords::read(alloc, words)? else {
        return Ok(None);
    };
    match (stop, root) {
        (Some(Stop::Unwatched), _) => Ok(Some(format!(in alloc; "{NO_INOTIFYWAIT}\n")?)),
        (Some(stop), Some(root)) => stop_line(rt, alloc, &socket, &root, stop),
        (None, Some(root)) if status == 2 => root_explanation(alloc, &root),
        _ => Ok(None),
    }
}
