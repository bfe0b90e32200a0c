//! What the command-line words ask of `wm`. Tests: commands_tests/src/words.rt.

use crate::arguments::order::{Order, order_of};
use crate::arguments::shared::{of_folder, of_names, of_program, of_since, of_socket};
use crate::arguments::verb::Verb;
use clap::{ArgMatches, Command};
use std::alloc::Global;
use wm_arguments::{Shown, parsed, program, usage_error};
use wm_disk::NoMemory;

/// What the words of `wm` ask for.
#[derive(Drop)]
pub enum Words {
    /// A command is to be run.
    Ordered(Order),
    /// A text is to be shown, and the program ends with the status: help or the version (0) on
    /// standard output, a fault (2) on standard error.
    Shown { text: String, status: u8 },
}

impl Words {
    /// What the words ask for; the program's own name is not among them.
    ///
    /// `Err` comes only if memory runs out.
    pub fn read<'a>(alloc: Global, words: &'a [&'a str]) -> Result<Words, NoMemory> {
        let command = command(alloc)?;
        match parsed(alloc, command, words)? {
            Ok(matches) => chosen(alloc, &matches),
            Err(Shown { text, status, .. }) => Ok(Words::Shown { text, status }),
        }
    }
}

const VERSION: &str = "0.1.0 (lines w1)";

const STATUSES: &str =
    "DIR is the present folder if it is left out. WATCHMAND_SOCKET names another socket.

Exit status:
  0  done
  1  the server refused, the folder can't be read, a program can't be started, or the output can't be written
  2  the words aren't understood, or DIR is no folder
  3  no server answers";

/// Which words a command takes.
#[derive(Clone, Copy)]
enum Takes {
    Socket,
    Folder,
    Names,
    Since,
    Program,
}

/// Each command with what it does and the words that it takes, in the order of the help.
const COMMANDS: &[(&str, &str, Takes)] = &[
    (
        "up",
        "Starts a server and its feed in the background, if none answers",
        Takes::Socket,
    ),
    (
        "down",
        "Ends the server and the feed that `wm up` started",
        Takes::Socket,
    ),
    ("watch", "Watches DIR from now on", Takes::Folder),
    ("unwatch", "Watches DIR no longer", Takes::Folder),
    ("list", "Prints the watched folders", Takes::Socket),
    (
        "status",
        "Prints whether a server and a feed run, and of each watched folder whether it is ready",
        Takes::Socket,
    ),
    ("files", "Prints the files below DIR", Takes::Names),
    (
        "changes",
        "Prints what changed below DIR since a clock",
        Takes::Since,
    ),
    (
        "wait",
        "Waits until something changes below DIR, and prints what",
        Takes::Names,
    ),
    (
        "run",
        "Runs COMMAND once, and again after each change below DIR",
        Takes::Program,
    ),
    (
        "sync",
        "Waits until the server knows all that happened below DIR so far",
        Takes::Folder,
    ),
];

// The program's command, with a command for each thing that it does.
fn command<'a>(alloc: Global) -> Result<Command<'a>, NoMemory> {
    let mut command = bare(alloc)?;
    for row in COMMANDS {
        command = with_command(alloc, command, row)?;
    }
    Ok(command)
}

// The program's command alone.
fn bare<'a>(alloc: Global) -> Result<Command<'a>, NoMemory> {
    let about = "Watches folders, and says which files changed";
    let command = program(alloc, "wm", VERSION, about, STATUSES)?
        .subcommand_required(true)
        .disable_help_subcommand(true);
    Ok(command)
}

// The program's command with one more.
fn with_command<'a>(
    alloc: Global,
    command: Command<'a>,
    row: &(&'static str, &'static str, Takes),
) -> Result<Command<'a>, NoMemory> {
    let (name, about, takes) = *row;
    let added = taking(alloc, takes, Command::new(alloc, name).about(about))?;
    Ok(command.subcommand(added)?)
}

// A command with the words that it takes.
fn taking<'a>(alloc: Global, takes: Takes, command: Command<'a>) -> Result<Command<'a>, NoMemory> {
    match takes {
        Takes::Socket => of_socket(alloc, command),
        Takes::Folder => of_folder(alloc, command),
        Takes::Names => of_names(alloc, command),
        Takes::Since => of_since(alloc, command),
        Takes::Program => of_program(alloc, command),
    }
}

// What the matches of the program's command ask for.
fn chosen(alloc: Global, matches: &ArgMatches<'_>) -> Result<Words, NoMemory> {
    let Some((name, inner)) = matches.subcommand() else {
        return fault(alloc, "a command is missing");
    };
    let Some(verb) = Verb::of(name) else {
        return fault(alloc, "there is no such command");
    };
    match order_of(alloc, verb, inner)? {
        Ok(order) => Ok(Words::Ordered(order)),
        Err(what) => fault(alloc, &what),
    }
}

// A usage error in these words.
fn fault(alloc: Global, what: &str) -> Result<Words, NoMemory> {
    let Shown { text, status, .. } = usage_error(alloc, what)?;
    Ok(Words::Shown { text, status })
}
