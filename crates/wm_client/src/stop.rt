//! Why a feed stops.
//! The status of each and what is told of it: specs/Ends. Tests: feed_tests, tools/try/feed.

use std::alloc::{AllocError, AllocFailed};
use wm_disk::{NoMemory, Refusal};

/// Why a feed stops, or has to begin anew.
#[derive(Clone, Copy, Debug, PartialEq, Eq)]
pub enum Stop {
    /// More may have changed than was told: the watch is made anew and the root crawled.
    Doubt,
    /// The server refused a request that it may accept later, which is a doubt.
    RefusedForNow(Refusal),
    /// The root isn't watched any longer.
    WatchGone,
    /// No folder was at the root's path when the feed began.
    NoFolder,
    /// No session with a server could be had at the socket.
    Unreached,
    /// The server ended, or its socket failed.
    ServerGone,
    /// The server refused a request, by this refusal.
    Refused(Refusal),
    /// A reply can't be read.
    Unreadable,
    /// inotifywait ended, as it does where a folder goes while it begins: it is started anew.
    Ended,
    /// inotifywait couldn't be started, or no time could be set for reading what it tells.
    Unwatched,
    /// Ten watches in a row came to nothing before each folder was seen to be watched: inotifywait ended, or folders stayed without a
    /// watch.
    Unwatchable,
    /// Memory ran out.
    NoMemory,
}

impl Stop {
    /// What is told of it, of a refusal its number and name.
    pub fn text(self) -> &'static str {
        match self {
            Stop::WatchGone => "the root isn't watched any longer",
            Stop::NoFolder => "no folder is at ROOT",
            Stop::Unreached => "no server answers",
            Stop::ServerGone => "the server ended",
            Stop::Refused(refusal) | Stop::RefusedForNow(refusal) => refusal.text(),
            Stop::Unreadable => "a reply can't be read",
            Stop::Unwatched => "inotifywait couldn't be started",
            Stop::Doubt | Stop::Ended | Stop::Unwatchable => {
                "inotifywait ends, or folders stay without a watch"
            }
            Stop::NoMemory => "16 NoMemory",
        }
    }
}

impl From<NoMemory> for Stop {
    fn from(_error: NoMemory) -> Stop {
        Stop::NoMemory
    }
}

impl From<AllocError> for Stop {
    fn from(_error: AllocError) -> Stop {
        Stop::NoMemory
    }
}

impl<T: Drop> From<AllocFailed<T>> for Stop {
    fn from(_error: AllocFailed<T>) -> Stop {
        Stop::NoMemory
    }
}
