//! What the command-line words ask of `wmctl`. Their definitions are in specs/ClientWords.
//! Tests: client_tests/src/wmctl/words.rt.
ghost use Rattle.std.specs.Prelude.{◌≡◌, ℕ, List, IfErr, IfOk, Option, map, option_map};
ghost use Rattle.clap.specs.Words.{app_of, found_of, rows_of};
ghost use Rattle.wm_arguments.specs.ArgumentValues.{text_of};
ghost use Rattle.wm_client.specs.ClientWords.{AsksFor, FindsFor, SyncWanted, TellsOf, TellsSync, shown_status, sync_wanted_of, wanted_of, wmctl_app};

use clap::{ArgMatches, Command};
use std::alloc::Global;
use wm_arguments::{Shown, needed, number_of, option, parsed, program, usage_error, word_of};
use wm_disk::NoMemory;
use wm_protocol::VERSION;

/// A sync that is asked for before a request is sent.
#[derive(Drop)]
pub struct Sync {
    /// The path of the root.
    pub root: String,
    /// For how many milliseconds it is waited for.
    pub timeout: u32,
}

/// A request, and what goes with it.
#[derive(Drop)]
pub struct Request {
    /// The path of the server's socket.
    pub socket: String,
    /// The request, one line without its newline.
    pub json: String,
    /// How many lines are printed beside the reply.
    pub follow: u32,
    /// What has to be known to the server before the request is sent.
    pub sync: Option<Sync>,
}

/// What the words of `wmctl` ask for.
#[derive(Drop)]
pub enum Words {
    /// A request is sent to a socket.
    Talk(Request),
    /// A text is to be shown, and the program ends with the status: help or the version (0) on
    /// standard output, a fault (2) on standard error.
    Shown { text: String, status: u8 },
}

impl Words {
    /// What the words ask for; the program's own name is not among them.
    ///
    /// The words are `SOCKET JSON [--follow N] [--sync ROOT] [--sync-timeout MS]`. One of them that begins with a hyphen needs a
    /// word `--` before it. JSON is one line, N and MS are 0 to 2^32 - 1, and `--sync-timeout` needs `--sync`. `Err` comes
    /// only if memory runs out.
    pub fn read<'a>(alloc: Global, words: &'a [&'a str]) -> Result<Words, NoMemory>
        ensures { IfOk result (λ r. AsksFor (map (λ word. word.now) words.entry.now) (wanted_of r)) }
    {
        let command = command(alloc)?;
        match parsed(alloc, command, words)? {
            Ok(matches) => chosen(alloc, &matches),
            Err(shown) => Ok(instead(shown)),
        }
    }
}

// For how many milliseconds a sync is waited for if nothing is told.
const DEFAULT_TIMEOUT: u32 = 1_000;

const STATUSES: &str = "Exit status:
  0  the reply and the lines after it were printed
  1  the reply is a refusal, or it couldn't be printed
  2  the words aren't understood
  3  the socket failed or ended before a whole line came, or no feed synced ROOT in time";

// The program's command.
fn command<'a>(alloc: Global) -> Result<Command<'a>, NoMemory>
    ensures { IfOk result (λ c. app_of c ≡ wmctl_app) }
{
    let about = "Sends a request to a file watch server and prints its reply";
    let command = program(alloc, "wmctl", VERSION, about, STATUSES)?
        .arg(needed(alloc, "SOCKET", "The path of the server's socket"))?
        .arg(needed(alloc, "JSON", "The request, one line, as [\"watch-list\"]"))?
        .arg(option(
            alloc,
            "follow",
            "N",
            "How many lines are printed after the reply",
        ))?
        .arg(option(
            alloc,
            "sync",
            "ROOT",
            "Sends JSON once the server knows all that happened in ROOT so far, as its feed reports it",
        ))?
        .arg(option(
            alloc,
            "sync-timeout",
            "MS",
            "For how many milliseconds --sync waits [default: 1000]",
        ))?;
    Ok(command)
}

// What the matches of the program's command ask for.
fn chosen(alloc: Global, matches: &ArgMatches<'_>) -> Result<Words, NoMemory>
    ensures { IfOk result (λ r. FindsFor (rows_of (found_of matches.now)) (wanted_of r)) }
{
    let sync = match sync_of(
        alloc,
        word_of(matches, "sync"),
        word_of(matches, "sync-timeout"),
    )? {
        Ok(sync) => sync,
        Err(what) => return fault(alloc, what),
    };
    told(
        alloc,
        word_of(matches, "SOCKET"),
        word_of(matches, "JSON"),
        word_of(matches, "follow"),
        sync,
    )
}

// What is asked for by what is there for SOCKET, JSON and `--follow`, and by the sync that goes with it.
fn told(
    alloc: Global,
    socket: Option<&str>,
    json: Option<&str>,
    follow: Option<&str>,
    sync: Option<Sync>,
) -> Result<Words, NoMemory>
    ensures { (sync_word timeout_word : Option (List ℕ)) → TellsSync sync_word timeout_word (option_map sync_wanted_of sync) → IfOk result (λ r. TellsOf (text_of socket.entry) (text_of json.entry) (text_of follow.entry) sync_word timeout_word (wanted_of r)) }
{
    let Some(socket) = socket else {
        return fault(alloc, "SOCKET is missing");
    };
    let Some(json) = json else {
        return fault(alloc, "JSON is missing");
    };
    if json.as_bytes().contains(&b'\n') {
        return fault(alloc, "JSON has a newline");
    }
    let Some(follow) = number_of(follow, 0) else {
        return fault(alloc, "N isn't a whole number from 0 to 4294967295");
    };
    let socket = String::from_str(alloc, socket)?;
    let json = String::from_str(alloc, json)?;
    Ok(Words::Talk(Request {
        socket,
        json,
        follow,
        sync,
    }))
}

// The sync that is asked for by what is there for `--sync` and `--sync-timeout`, or what is wrong with it.
fn sync_of(
    alloc: Global,
    root: Option<&str>,
    timeout: Option<&str>,
) -> Result<Result<Option<Sync>, &'static str>, NoMemory>
    ensures found { IfOk result (λ r. IfOk r (λ sync. TellsSync (text_of root.entry) (text_of timeout.entry) (option_map sync_wanted_of sync))) }
    ensures wrong { IfOk result (λ r. IfErr r (λ _. (sync : Option SyncWanted) → TellsSync (text_of root.entry) (text_of timeout.entry) sync → ⊥)) }
{
    let Some(root) = root else {
        return match timeout {
            Some(_) => Ok(Err("--sync-timeout needs --sync")),
            None => Ok(Ok(None)),
        };
    };
    let Some(timeout) = number_of(timeout, DEFAULT_TIMEOUT) else {
        return Ok(Err("MS isn't a whole number from 0 to 4294967295"));
    };
    let root = String::from_str(alloc, root)?;
    Ok(Ok(Some(Sync { root, timeout })))
}

// What is shown in place of what the words ask for.
fn instead(shown: Shown) -> Words
    ensures { wanted_of result ≡ shown_status shown.status }
{
    let Shown { text, status, .. } = shown;
    Words::Shown { text, status }
}

// A usage error in these words.
fn fault(alloc: Global, what: &str) -> Result<Words, NoMemory>
    ensures { IfOk result (λ r. wanted_of r ≡ shown_status 2) }
{
    let shown = usage_error(alloc, what)?;
    Ok(instead(shown))
}
