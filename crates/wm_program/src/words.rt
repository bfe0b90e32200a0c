//! What the command-line words ask of `watchmand`. Their definitions are in specs/ProgramWords.
//! Tests: serve_tests/src/words.rt.
ghost use Rattle.std.specs.Prelude.{◌≡◌, ◌≤◌, ℕ, IfOk, false, Some, codes, map};
ghost use Rattle.std.specs.Option.{MatchOption};
ghost use Rattle.std.specs.Str.{bytes_eq};
ghost use Rattle.clap.specs.Words.{app_of, found_of, new_app, rows_of, subcommand_rows_of};
ghost use Rattle.clap.specs.declared.builder.Command.TheViews.{out-Command};
ghost use Rattle.wm_arguments.specs.ArgumentValues.{TellsNumber, text_of};
ghost use Rattle.wm_crawler.specs.Crawls.{max_workers};
ghost use Rattle.wm_serve.specs.declared.server.Settings.{Settings as settings_lem};
ghost use Rattle.wm_program.specs.ProgramWords.{AsksProgram, FindsServe, MeetsFor, NamedFor, ServesBy, TellsSettings, program_app, serve_app, shown_status, program_wanted};

use clap::{ArgMatches, Command};
use std::alloc::Global;
use wm_arguments::{
    Shown, flag, is_set, needed, number_in, option, parsed, subcommand_of, usage_error, word_of,
};
use wm_crawler::MAX_WORKERS;
use wm_disk::NoMemory;
use wm_root::Retention;
use wm_serve::Settings;
use wm_server::words;

/// What the words of `watchmand` ask for.
#[derive(Drop)]
pub enum Words {
    /// A state file is served on a socket.
    Serve {
        file: String,
        socket: String,
        settings: Settings,
    },
    /// `format FILE`, `lines FILE` or `migrate OLD NEW`.
    Plain,
    /// A text is to be shown, and the program ends with the status: help or the version (0) on
    /// standard output, a fault (2) on standard error.
    Shown {
        text: String,
        status: u8,
    },
}

impl Words {
    /// What the words ask for; the program's own name is not among them.
    ///
    /// The words are `format FILE`, `lines FILE`, `migrate OLD NEW`, or `serve FILE SOCKET [--workers N]
    /// [--gc-age S] [--gc-interval S] [--sessions N] [--quiet]`. `workers` is 1 to 16 and 4 if it isn't given, `gc-age` 43200 and
    /// `gc-interval` 86400 seconds, and without `sessions` no number of them is the last; each is at most
    /// 2^32 - 1. `Err` comes only if memory runs out.
    pub fn read<'a>(alloc: Global, words: &'a [&'a str]) -> Result<Words, NoMemory>
        ensures { IfOk result (λ r. AsksProgram (map (λ word. word.now) words.entry.now) (program_wanted r)) }
    {
        let command = command(alloc)?;
        match parsed(alloc, command, words)? {
            Ok(matches) => chosen(alloc, &matches),
            Err(shown) => unparsed(alloc, words, shown),
        }
    }
}

const STATUSES: &str = "Exit status:
  0  so many sessions as were asked for have come and ended
  1  refused; standard error says why
  2  the words aren't understood";

// What is said of a number that isn't taken.
const NUMBERS: &str = "N and S are whole numbers from 0 to 4294967295, and the workers are 1 to 16";

// The program's command, with a command for each thing that it does.
fn command<'a>(alloc: Global) -> Result<Command<'a>, NoMemory>
    ensures { IfOk result (λ c. app_of c ≡ program_app) }
{
    let serve = serve_command(alloc)?;
    let command = words::watchmand(alloc)?.subcommand(serve)?;
    Ok(command)
}

// `serve` with no words yet.
fn bare_serve<'a>(alloc: Global) -> Command<'a>
    ensures app { app_of result ≡ new_app (codes "serve") }
    ensures local { (out-Command result).has_globals ≡ false }
{
    Command::new(alloc, "serve")
        .about("Answers request lines on a Unix socket over a state file")
        .after_help(STATUSES)
}

// `serve`.
fn serve_command<'a>(alloc: Global) -> Result<Command<'a>, NoMemory>
    ensures app { IfOk result (λ c. app_of c ≡ serve_app) }
    ensures local { IfOk result (λ c. (out-Command c).has_globals ≡ false) }
{
    let command = bare_serve(alloc)
        .arg(needed(alloc, "FILE", "The path of the state file"))?
        .arg(needed(alloc, "SOCKET", "The path of the socket, which is made"))?
        .arg(option(
            alloc,
            "workers",
            "N",
            "How many threads crawl a root, 1 to 16 [default: 4]",
        ))?
        .arg(option(
            alloc,
            "gc-age",
            "S",
            "After how many seconds a deleted path is forgotten [default: 43200]",
        ))?
        .arg(option(
            alloc,
            "gc-interval",
            "S",
            "How many seconds pass between two times of forgetting [default: 86400]",
        ))?
        .arg(option(
            alloc,
            "sessions",
            "N",
            "After how many sessions the server ends [default: never]",
        ))?
        .arg(flag(alloc, "quiet", "Writes no log to standard error"))?;
    Ok(command)
}

// What the matches of the program's command ask for.
fn chosen(alloc: Global, matches: &ArgMatches<'_>) -> Result<Words, NoMemory>
    ensures { IfOk result (λ r. MeetsFor (subcommand_rows_of matches.now) (program_wanted r)) }
{
    match subcommand_of(matches) {
        Some((name, inner)) => named(alloc, name, inner),
        None => fault(alloc, "a command is missing"),
    }
}

// What is asked for by a command of this name with these matches.
fn named(alloc: Global, name: &str, matches: &ArgMatches<'_>) -> Result<Words, NoMemory>
    ensures { IfOk result (λ r. NamedFor (bytes_eq name.now (codes "serve")) (rows_of (found_of matches.now)) (program_wanted r)) }
{
    if name == "serve" {
        served(alloc, matches)
    } else {
        Ok(Words::Plain)
    }
}

// What is asked for behind `serve`.
fn served(alloc: Global, matches: &ArgMatches<'_>) -> Result<Words, NoMemory>
    ensures { IfOk result (λ r. FindsServe (rows_of (found_of matches.now)) (program_wanted r)) }
{
    let settings = settings_of(
        word_of(matches, "workers"),
        word_of(matches, "gc-age"),
        word_of(matches, "gc-interval"),
        word_of(matches, "sessions"),
        word_of(matches, "quiet"),
    );
    told(
        alloc,
        word_of(matches, "FILE"),
        word_of(matches, "SOCKET"),
        settings,
    )
}

// What is asked for by what is there for FILE and SOCKET, and by the settings that the options give.
fn told(
    alloc: Global,
    file: Option<&str>,
    socket: Option<&str>,
    settings: Option<Settings>,
) -> Result<Words, NoMemory>
    ensures { IfOk result (λ r. ServesBy (λ s. settings ≡ Some s) (text_of file.entry) (text_of socket.entry) (program_wanted r)) }
{
    let Some(file) = file else {
        return fault(alloc, "FILE is missing");
    };
    let Some(socket) = socket else {
        return fault(alloc, "SOCKET is missing");
    };
    let Some(settings) = settings else {
        return fault(alloc, NUMBERS);
    };
    let file = String::from_str(alloc, file)?;
    let socket = String::from_str(alloc, socket)?;
    Ok(Words::Serve {
        file,
        socket,
        settings,
    })
}

// The settings that the options give. `None` if a number isn't one, or isn't allowed.
fn settings_of(
    workers: Option<&str>,
    age: Option<&str>,
    interval: Option<&str>,
    sessions: Option<&str>,
    quiet: Option<&str>,
) -> Option<Settings>
    ensures { MatchOption result ((s : settings_lem) → TellsSettings (text_of workers.entry) (text_of age.entry) (text_of interval.entry) (text_of sessions.entry) (text_of quiet.entry) s → ⊥)
        (λ s. TellsSettings (text_of workers.entry) (text_of age.entry) (text_of interval.entry) (text_of sessions.entry) (text_of quiet.entry) s) }
{
    let workers = workers_of(workers)?;
    let retention = Retention {
        age_seconds: number_of(age, 43_200)?,
        interval_seconds: number_of(interval, 86_400)?,
    };
    let sessions = number_of(sessions, u64::MAX)?;
    Some(Settings {
        workers,
        retention,
        sessions,
        is_quiet: is_set(quiet),
    })
}

// How many threads are to crawl a root: 1 to `MAX_WORKERS`.
fn workers_of(told: Option<&str>) -> Option<usize>
    ensures { MatchOption result ((n : ℕ) → TellsNumber 4 (text_of told.entry) n → (1 ≤ n) × (n ≤ max_workers) → ⊥) (λ n. TellsNumber 4 (text_of told.entry) n × ((1 ≤ n) × (n ≤ max_workers))) }
{
    let workers = number_of(told, 4)?;
    if workers < 1 || workers > MAX_WORKERS as u64 {
        return None;
    }
    Some(workers as usize)
}

// The number that is given, or the default if none is.
fn number_of(told: Option<&str>, default: u64) -> Option<u64>
    ensures { MatchOption result ((n : ℕ) → TellsNumber default (text_of told.entry) n → ⊥) (λ n. TellsNumber default (text_of told.entry) n) }
{
    match told {
        None => Some(default),
        Some(text) => match number_in(text) {
            Some(n) => Some(n as u64),
            None => None,
        },
    }
}

// A usage error in these words.
fn fault(alloc: Global, what: &str) -> Result<Words, NoMemory>
    ensures { IfOk result (λ r. program_wanted r ≡ shown_status 2) }
{
    let Shown { text, status, .. } = usage_error(alloc, what)?;
    Ok(Words::Shown { text, status })
}

// Whether a word is an option that takes a number, which is the next word.
fn takes_number(word: &str) -> bool {
    matches!(
        word,
        "--workers" | "--gc-age" | "--gc-interval" | "--sessions"
    )
}

// Whether a word begins as a negative number.
fn is_negative(word: &str) -> bool {
    matches!(word.as_bytes(), [b'-', b'0'..=b'9', ..])
}

// Whether an option that takes a number is followed by a negative one, which clap takes for another option.
fn has_negative_number(words: &[&str]) -> bool {
    let mut is_number_next = false;
    for word in words {
        if is_number_next && is_negative(word) {
            return true;
        }
        is_number_next = takes_number(word);
    }
    false
}

// What is shown after a parse that failed: of a negative number, what the numbers have to be.
fn unparsed(alloc: Global, words: &[&str], shown: Shown) -> Result<Words, NoMemory>
    ensures { IfOk result (λ r. program_wanted r ≡ shown_status shown.status) }
{
    let status = shown.status;
    let text = unparsed_text(alloc, words, shown)?;
    Ok(Words::Shown { text, status })
}

// The text that is shown after a parse that failed.
fn unparsed_text(alloc: Global, words: &[&str], shown: Shown) -> Result<String, NoMemory> {
    if shown.is_unknown_argument && has_negative_number(words) {
        let Shown { text, .. } = usage_error(alloc, NUMBERS)?;
        return Ok(text);
    }
    let Shown { text, .. } = shown;
    Ok(text)
}
