//! Which feeds run, by what the system says of its processes.

use crate::failure::Failure;
use crate::processes::{Role, is_program, process_that};
use crate::programs::has_inotifywait;
use std::fs;
use wm_commands::feed_advice;

/// Whether a word of a process, whose folder in /proc is named, says the path of a socket.
pub fn is_socket(
    rt: &HostRuntime,
    process: &str,
    word: &str,
    socket: &str,
) -> Result<bool, Failure> {
    if word == socket {
        return Ok(true);
    }
    let path = if word.starts_with('/') {
        String::from_str(rt.alloc(), word)?
    } else {
        format!(in rt.alloc(); "{process}/cwd/{word}")?
    };
    let Ok(named) = fs::canonicalize(rt, path.as_str()) else {
        return Ok(false);
    };
    let Ok(wanted) = fs::canonicalize(rt, socket) else {
        return Ok(false);
    };
    Ok(named.into_string().as_str() == wanted.into_string().as_str())
}

/// Whether a process with these words is a feed for a socket: one for all roots, if that is wanted.
fn is_feed(
    rt: &HostRuntime,
    process: &str,
    words: &str,
    socket: &str,
    is_for_all: bool,
) -> Result<bool, Failure> {
    if !is_program(words, "wmfeed") {
        return Ok(false);
    }
    let mut names = words
        .split('\0')
        .skip(1)
        .filter(|word| !word.is_empty() && !word.starts_with('-'));
    let Some(named) = names.next() else {
        return Ok(false);
    };
    if is_for_all && names.next().is_some() {
        return Ok(false);
    }
    is_socket(rt, process, named, socket)
}

/// Whether a process, whose folder in /proc is named, is such a feed.
pub fn is_feed_in(
    rt: &HostRuntime,
    process: &str,
    socket: &str,
    is_for_all: bool,
) -> Result<bool, Failure> {
    let file = format!(in rt.alloc(); "{process}/cmdline")?;
    match fs::read_to_string(rt, file.as_str()) {
        Ok(words) => is_feed(rt, process, words.as_str(), socket, is_for_all),
        Err(_) => Ok(false),
    }
}

/// Whether a feed runs for the server at a socket: one for all roots, if that is wanted.
pub fn is_fed(rt: &HostRuntime, socket: &str, is_for_all: bool) -> Result<bool, Failure> {
    let role = if is_for_all {
        Role::FeedOfAll
    } else {
        Role::Feed
    };
    Ok(process_that(rt, role, socket)?.is_some())
}

/// What is seen of the feeds for a server.
#[derive(Clone, Copy, PartialEq, Eq)]
pub enum FeedsFound {
    /// There is none.
    Missing,
    /// A signal stopped each of them.
    Stopped,
    /// One runs.
    Running,
}

/// What is seen of the feeds for the server at a socket.
pub fn feeds_found(rt: &HostRuntime, socket: &str) -> Result<FeedsFound, Failure> {
    if process_that(rt, Role::UnstoppedFeed, socket)?.is_some() {
        return Ok(FeedsFound::Running);
    }
    if is_fed(rt, socket, false)? {
        Ok(FeedsFound::Stopped)
    } else {
        Ok(FeedsFound::Missing)
    }
}

/// How a feed is started: what has to be installed for it is named if it isn't there.
pub fn start_advice(rt: &HostRuntime) -> Result<&'static str, Failure> {
    Ok(feed_advice(has_inotifywait(rt)?))
}
