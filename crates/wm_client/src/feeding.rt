//! All of `wmfeed` but the feed itself, with its status. Definitions: specs/Ends. Tests: feed_tests, tools/try/feed.
ghost use Rattle.std.specs.Prelude.{◌≡◌, ◌⊎◌, ℕ, Bool, List, Option, Some, map};
ghost use Rattle.wm_arguments.specs.ArgumentValues.{text_of};
ghost use Rattle.wm_client.specs.Ends.{EndsAsAsked, MayEnd, status_of_stop};
ghost use Rattle.wm_client.specs.FeedWords.{feed_to};
ghost use Rattle.wm_client.specs.declared.stop.Stop.{Stop};

use crate::feed_words::FeedWords;
use crate::showing::{show, tell};
use crate::stop::Stop;
use std::alloc::Global;
use std::io::Write;
use wm_disk::{NoMemory, Refusal};
use wm_names::RootPath;

/// What tells a server of changes.
pub trait Feeder {
    /// A feed to the socket of this path, of this root or of each watched root, with the flag for every event, may stop for this cause.
    ghost may_stop: { Self → List ℕ → Option (List ℕ) → Bool → Stop → Type 0 };

    /// Feeds the server at the socket of a path, until there is a cause to stop: with what changes below a root, or below each watched root
    /// if none is named. If `is_every_event`, a path is told also if its event shows nothing new.
    fn feed(
        &self,
        alloc: Global,
        socket: &str,
        root: Option<&RootPath>,
        is_every_event: bool,
    ) -> Stop
        ensures { may_stop self.now socket.now (text_of root.entry) is_every_event result };
}

/// Runs `wmfeed` with the words after its own name, and returns its status: 0 if ROOT isn't watched any longer, and for help
/// and the version; 1 if no folder is at ROOT, inotifywait couldn't be started, ten watches in a row came to nothing, the server
/// refused a request, memory ran out, or help or the version can't be printed; 2 if the words aren't understood, or ROOT is no
/// root's path; 3 if no server answers, it ended, or its socket failed. Without ROOT the feed goes on until a signal ends it, unless it
/// can't begin: then the status is 1.
///
/// The cause is reported on `faults`, of a refusal its number and name, as `wmfeed: 17 TooMany`.
pub fn wmfeed<F: Feeder, W: Write, E: Write>(
    alloc: Global,
    feeder: &F,
    words: &[&str],
    printer: &mut W,
    faults: &mut E,
) -> u8
    ensures { EndsAsAsked (F.may_stop feeder.now) (map (λ word. word.now) words.now) result }
{
    match FeedWords::read(alloc, words) {
        Ok(FeedWords::Shown { text, status }) => show(text.as_str(), status, printer, faults),
        Ok(
            FeedWords::Feed {
                socket,
                root,
                is_every_event,
            },
        ) => match root {
            Some(root) => feed(alloc, feeder, &socket, &root, is_every_event, faults),
            None => end(feeder.feed(alloc, &socket, None, is_every_event), faults),
        },
        Err(NoMemory) => end(Stop::NoMemory, faults),
    }
}

/// Feeds the server at the socket of a path with what changes below a root, until there is a cause to stop.
fn feed<F: Feeder, E: Write>(
    alloc: Global,
    feeder: &F,
    socket: &str,
    root: &str,
    is_every_event: bool,
    faults: &mut E,
) -> u8
    ensures { (result ≡ 1) ⊎ MayEnd (F.may_stop feeder.now) (feed_to socket.now (Some root.now) is_every_event) result }
{
    match RootPath::read(alloc, root) {
        Ok(root) => end(
            feeder.feed(alloc, socket, Some(&root), is_every_event),
            faults,
        ),
        Err(Refusal::NoMemory) => end(Stop::NoMemory, faults),
        Err(_) => {
            let _told = tell("wmfeed: ROOT is no root's path (4 BadPath)\n", faults);
            2
        }
    }
}

/// The status of an end, with what is told of it on `faults`.
fn end<E: Write>(stop: Stop, faults: &mut E) -> u8
    ensures { result ≡ status_of_stop stop }
{
    let status = match stop {
        Stop::WatchGone => 0,
        Stop::Unreached | Stop::ServerGone => 3,
        _ => 1,
    };
    // If even this can't be told, the status tells it.
    for text in ["wmfeed: ", stop.text(), "\n"] {
        let _told = tell(text, faults);
    }
    status
}
