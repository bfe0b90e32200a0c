//! What the command-line words ask of `watchmand`. Their definitions are in specs/program/Words.
//! Tests: session_tests/src/programs/words.rt.
ghost use Rattle.std.specs.Prelude.{◌≡◌, IfOk, Some, false, is_some, map, true};
ghost use Rattle.clap.specs.declared.builder.Command.TheViews.{out-Command};
ghost use Rattle.clap.specs.Words.{app_of, found_of, rows_of, subcommand_rows_of, with_subcommand};
ghost use Rattle.wm_server.specs.program.Words.{asked, asked_by_matches, asked_of, bare_app, file_app, migrate_app, migrate_by, shown as shown_lem, watchmand_app};

use clap::{ArgMatches, Command};
use std::alloc::Global;
use wm_arguments::{Shown, needed, parsed, subcommand_of, word_of};
use wm_disk::NoMemory;
use wm_protocol::VERSION;

/// What the words of `watchmand` ask for.
#[derive(Drop)]
pub enum Words {
    /// `format FILE`
    Format { file: String },
    /// `lines FILE`
    Lines { file: String },
    /// `migrate OLD NEW`
    Migrate { old: String, new: String },
    /// A text is to be shown, and the program ends with the status: help or the version (0) on
    /// standard output, a fault (2) on standard error.
    Shown { text: String, status: u8 },
}

impl Words {
    /// What the words ask for; the program's own name is not among them.
    ///
    /// The words are `format FILE`, `lines FILE` or `migrate OLD NEW`. A path that begins with a hyphen and isn't just
    /// `-` needs a word `--` before it. `--help` and `-h` ask for help, `--version` and `-V` for the
    /// version, where each word before them has its place. All else is a fault. `Err` comes only where memory runs out.
    pub fn read<'a>(alloc: Global, words: &'a [&'a str]) -> Result<Words, NoMemory>
        ensures { IfOk result (λ r. asked_of r ≡ asked (map (λ word. word.now) words.entry.now)) }
    {
        let command = watchmand(alloc)?;
        match parsed(alloc, command, words)? {
            Ok(matches) => chosen(alloc, &matches),
            Err(shown) => Ok(instead(shown)),
        }
    }
}

// What is shown in place of what the words ask for.
fn instead(shown: Shown) -> Words
    ensures { asked_of result ≡ shown_lem shown.status }
{
    let Shown { text, status, .. } = shown;
    Words::Shown { text, status }
}

const STATUSES: &str = "Exit status:
  0  the input was answered to its end, or the file was made or migrated
  1  refused, or the input or the output failed; standard error says why
  2  the words aren't understood";

/// The command of the program, with a command for each thing that it does. `NoMemory`.
pub fn watchmand<'a>(alloc: Global) -> Result<Command<'a>, NoMemory>
    ensures { IfOk result (λ c. app_of c ≡ watchmand_app) }
{
    let bare = bare(alloc)?;
    let formatting = with_file_command(
        alloc,
        bare,
        "format",
        "Makes a state file; FILE must not be there yet",
    )?;
    let answering = with_file_command(
        alloc,
        formatting,
        "lines",
        "Answers request lines from standard input over a state file",
    )?;
    let command = with_migrate_command(alloc, answering)?;
    Ok(command)
}

// The program's command with none in it yet.
fn bare<'a>(alloc: Global) -> Result<Command<'a>, NoMemory>
    ensures { IfOk result (λ c. app_of c ≡ bare_app) }
{
    let command = Command::new(alloc, "watchmand")
        .about("A file watch server whose answers can be trusted")
        .after_help(STATUSES)
        .version(VERSION)
        .propagate_version(true)
        .no_binary_name(true)
        .disable_help_subcommand(true)
        .subcommand_required(true)
        .bin_name("watchmand")?;
    Ok(command)
}

// The command with one in it that takes one FILE.
fn with_file_command<'a>(
    alloc: Global,
    command: Command<'a>,
    name: &'a str,
    about: &'a str,
) -> Result<Command<'a>, NoMemory>
    ensures { IfOk result (λ c. app_of c ≡ with_subcommand (app_of command.entry) (file_app name.entry.now).top) }
{
    let inner = file_command(alloc, name, about)?;
    let command = command.subcommand(inner)?;
    Ok(command)
}

// A command that takes one FILE.
fn file_command<'a>(alloc: Global, name: &'a str, about: &'a str) -> Result<Command<'a>, NoMemory>
    ensures app { IfOk result (λ c. app_of c ≡ file_app name.entry.now) }
    ensures local { IfOk result (λ c. (out-Command c).has_globals ≡ false) }
{
    let file = needed(alloc, "FILE", "The path of the state file");
    let command = Command::new(alloc, name).about(about).arg(file)?;
    Ok(command)
}

// The command with `migrate` in it.
fn with_migrate_command<'a>(alloc: Global, command: Command<'a>) -> Result<Command<'a>, NoMemory>
    ensures { IfOk result (λ c. app_of c ≡ with_subcommand (app_of command.entry) migrate_app.top) }
{
    let inner = migrate_command(alloc)?;
    let command = command.subcommand(inner)?;
    Ok(command)
}

// `migrate`, which takes OLD and NEW.
fn migrate_command<'a>(alloc: Global) -> Result<Command<'a>, NoMemory>
    ensures app { IfOk result (λ c. app_of c ≡ migrate_app) }
    ensures local { IfOk result (λ c. (out-Command c).has_globals ≡ false) }
{
    let old = needed(
        alloc,
        "OLD",
        "The path of the state file of version 1, which is retired",
    );
    let new = needed(
        alloc,
        "NEW",
        "The path of the state file of version 2, which is made, or written over unless OLD is retired",
    );
    let command = Command::new(alloc, "migrate")
        .about(
            "Moves all watches and triggers from OLD into NEW, which is written over, and retires OLD",
        )
        .arg(old)?
        .arg(new)?;
    Ok(command)
}

// What the matches of the program's command ask for: it met one of its commands, with the paths that this one takes.
fn chosen(alloc: Global, matches: &ArgMatches<'_>) -> Result<Words, NoMemory>
    requires { is_some (asked_by_matches (subcommand_rows_of matches.now)) ≡ true }
    ensures { IfOk result (λ r. asked_by_matches (subcommand_rows_of matches.now) ≡ Some (asked_of r)) }
{
    let Some((name, inner)) = subcommand_of(matches) else {
        unreachable!()
    };
    if name == "migrate" {
        return migrating(alloc, inner);
    }
    let Some(file) = word_of(inner, "FILE") else {
        unreachable!()
    };
    let file = String::from_str(alloc, file)?;
    if name == "format" {
        Ok(Words::Format { file })
    } else {
        Ok(Words::Lines { file })
    }
}

// What `migrate` is asked for, with an OLD and a NEW.
fn migrating(alloc: Global, matches: &ArgMatches<'_>) -> Result<Words, NoMemory>
    requires { is_some (migrate_by (rows_of (found_of matches.now))) ≡ true }
    ensures { IfOk result (λ r. migrate_by (rows_of (found_of matches.now)) ≡ Some (asked_of r)) }
{
    let Some(old) = word_of(matches, "OLD") else {
        unreachable!()
    };
    let Some(new) = word_of(matches, "NEW") else {
        unreachable!()
    };
    let old = String::from_str(alloc, old)?;
    let new = String::from_str(alloc, new)?;
    Ok(Words::Migrate { old, new })
}
