//! What to do at a refusal. Definitions: specs/Advice. Tests: client_tests/src/hints.rt.
ghost use Rattle.std.specs.Prelude.{◌≡◌};
ghost use Rattle.wm_parts.specs.Advice.{refusal_advice, at_failure, at_too_many, advice_by_request, by_server};

use crate::kinds::RequestKind;
use wm_disk::Refusal;

/// Why a server refuses one thing more, and what to do.
fn at_too_many(kind: RequestKind) -> &'static str
    ensures { result.now ≡ at_too_many kind }
{
    match kind {
        RequestKind::Watch => {
            "the server watches 256 roots, or all of its 31 sessions are taken: 'wm unwatch' what nobody needs, or try later"
        }
        RequestKind::Trigger => {
            "the root has 64 triggers, or all of the server's 31 sessions are taken: end a trigger by trigger-del, or try later"
        }
        RequestKind::Observe => {
            "it has over 65,536 pairs, or all of the server's 31 sessions are taken: send fewer at once, or try later"
        }
        RequestKind::Query | RequestKind::Subscribe => {
            "the root has 256 cursors, or all of the server's 31 sessions are taken: ask by a clock, or try later"
        }
        RequestKind::Recrawl | RequestKind::Other => {
            "all of the server's 31 sessions are taken: try later, or end what holds them, as 'wm run' and feeds do"
        }
    }
}

/// Which device failed, and what to do.
fn at_failure(kind: RequestKind) -> &'static str
    ensures { result.now ≡ at_failure kind }
{
    match kind {
        RequestKind::Recrawl => {
            "a folder of the root can't be read, which 'wm status' and the server's log name: give the server's user the right to it, or watch a folder below"
        }
        _ => {
            "the server can't write its state file: look at the disk and at the server's log, start it again, and ask what is there by watch-list or trigger-list"
        }
    }
}

/// What to do at a refusal whose cause is in the request.
fn advice_by_request(refusal: Refusal) -> &'static str
    ensures { result.now ≡ advice_by_request refusal }
{
    match refusal {
        Refusal::BadLine => "a request is one line of JSON of at most 1,048,576 bytes",
        Refusal::BadCommand =>
            "a request is a list that begins with the name of a command, as [\"watch-list\"]",
        Refusal::BadPath =>
            "the path of a file or a folder in a root has no / at its ends, and no part that is empty, . or ..",
        Refusal::BadClock =>
            "the listing began at a tick that isn't the root's, or is no longer good: ask for the clock, and read the folder again",
        _ =>
            "this wmctl and the server may be of two versions: 'wm down' and 'wm up' start the new one",
    }
}

/// What to do at a refusal whose cause is in the server.
fn by_server(refusal: Refusal) -> &'static str
    ensures { result.now ≡ by_server refusal }
{
    match refusal {
        Refusal::NotWatched =>
            "the root isn't watched: 'wm watch ROOT' or [\"watch\",ROOT] watches it, and [\"watch-list\"] has those that are",
        Refusal::NotReady =>
            "the root isn't crawled yet: try again, or send [\"recrawl\",ROOT], which waits",
        Refusal::Full =>
            "the state file has no space left: 'wm unwatch' what nobody needs, or end triggers by trigger-del",
        Refusal::StoreFailed =>
            "the state file failed before: look at the disk and at the server's log, and start it again",
        Refusal::Exhausted => "a counter of the state file is at its end: make a new state file",
        Refusal::NoMemory => "the server has no memory left: ask for fewer files, or later",
        Refusal::NoPlace =>
            "the root is no longer watched, or too many sessions ask about it: try again",
        Refusal::OldVersion =>
            "max_files_stdin needs a state file of version 2: leave it out, or 'watchmand migrate' the file",
        _ => advice_by_request(refusal),
    }
}

/// What to do at a refusal of a request of this kind.
pub(crate) fn advice_of(refusal: Refusal, kind: RequestKind) -> &'static str
    ensures { result.now ≡ refusal_advice refusal kind }
{
    match refusal {
        Refusal::TooMany => at_too_many(kind),
        Refusal::DeviceFailed => at_failure(kind),
        _ => by_server(refusal),
    }
}
