//! What the command-line words ask of `wmfeed`. Their definitions are in specs/FeedWords.
//! Tests: client_tests/src/feed_words.rt.
ghost use Rattle.std.specs.Prelude.{◌≡◌, IfOk, map};
ghost use Rattle.clap.specs.Words.{app_of, found_of, rows_of};
ghost use Rattle.wm_arguments.specs.ArgumentValues.{text_of};
ghost use Rattle.wm_client.specs.FeedWords.{FeedAsksFor, FeedFindsFor, FeedTellsOf, feed_shown, feed_wanted_of, wmfeed_app};

use clap::{ArgMatches, Command};
use std::alloc::Global;
use wm_arguments::{
    Shown, copied, flag, is_set, needed, optional, parsed, program, usage_error, word_of,
};
use wm_disk::NoMemory;
use wm_protocol::VERSION;

/// What the words of `wmfeed` ask for.
#[derive(Drop)]
pub enum FeedWords {
    /// The server at a socket is told what changes below a root, or below each watched root if none is named.
    Feed {
        socket: String,
        root: Option<String>,
        is_every_event: bool,
    },
    /// A text is to be shown, and the program ends with the status: help or the version (0) on
    /// standard output, a fault (2) on standard error.
    Shown {
        text: String,
        status: u8,
    },
}

impl FeedWords {
    /// What the words ask for; the program's own name is not among them.
    ///
    /// The words are `SOCKET [ROOT] [--every-event]`. One of them that begins with a hyphen needs a word `--` before it.
    /// `Err` comes only where memory runs out.
    pub fn read<'a>(alloc: Global, words: &'a [&'a str]) -> Result<FeedWords, NoMemory>
        ensures { IfOk result (λ r. FeedAsksFor (map (λ word. word.now) words.entry.now) (feed_wanted_of r)) }
    {
        let command = command(alloc)?;
        match parsed(alloc, command, words)? {
            Ok(matches) => chosen(alloc, &matches),
            Err(shown) => Ok(instead(shown)),
        }
    }
}

const AFTER: &str =
    "Without ROOT each watched root is fed, also one that is watched later, and a server
that isn't there is waited for; only a signal ends it.

Exit status:
  0  ROOT isn't watched any longer (watch-del)
  1  inotifywait can't be started or ends again and again, or a request is refused
  2  the words aren't understood
  3  the server ended, or its socket failed (with ROOT)";

// The program's command.
fn command<'a>(alloc: Global) -> Result<Command<'a>, NoMemory>
    ensures { IfOk result (λ c. app_of c ≡ wmfeed_app) }
{
    let about = "Tells a file watch server what changes in folders, as inotifywait reports it";
    let command = program(alloc, "wmfeed", VERSION, about, AFTER)?
        .arg(needed(alloc, "SOCKET", "The path of the server's socket"))?
        .arg(optional(
            alloc,
            "ROOT",
            "The folder to be watched and fed, an absolute path [default: each watched root]",
        ))?
        .arg(flag(
            alloc,
            "every-event",
            "Reports a path also if its event shows nothing new, as a changed mode",
        ))?;
    Ok(command)
}

// What the matches of the program's command ask for.
fn chosen(alloc: Global, matches: &ArgMatches<'_>) -> Result<FeedWords, NoMemory>
    ensures { IfOk result (λ r. FeedFindsFor (rows_of (found_of matches.now)) (feed_wanted_of r)) }
{
    told(
        alloc,
        word_of(matches, "SOCKET"),
        word_of(matches, "ROOT"),
        word_of(matches, "every-event"),
    )
}

// What is asked for by what is there for SOCKET, ROOT and `--every-event`.
fn told(
    alloc: Global,
    socket: Option<&str>,
    root: Option<&str>,
    every_event: Option<&str>,
) -> Result<FeedWords, NoMemory>
    ensures { IfOk result (λ r. FeedTellsOf (text_of socket.entry) (text_of root.entry) (text_of every_event.entry) (feed_wanted_of r)) }
{
    let Some(socket) = socket else {
        return fault(alloc, "SOCKET is missing");
    };
    let is_every_event = is_set(every_event);
    let socket = String::from_str(alloc, socket)?;
    let root = copied(alloc, root)?;
    Ok(FeedWords::Feed {
        socket,
        root,
        is_every_event,
    })
}

// What is shown in place of what the words ask for.
fn instead(shown: Shown) -> FeedWords
    ensures { feed_wanted_of result ≡ feed_shown shown.status }
{
    let Shown { text, status, .. } = shown;
    FeedWords::Shown { text, status }
}

// A usage error in these words.
fn fault(alloc: Global, what: &str) -> Result<FeedWords, NoMemory>
    ensures { IfOk result (λ r. feed_wanted_of r ≡ feed_shown 2) }
{
    let shown = usage_error(alloc, what)?;
    Ok(instead(shown))
}
