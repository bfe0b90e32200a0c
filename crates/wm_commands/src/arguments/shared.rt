//! The arguments that the commands of `wm` share.

use clap::{Arg, ArgAction, Command};
use std::alloc::Global;
use wm_arguments::{flag, option, optional};
use wm_disk::NoMemory;

/// `--NAME VALUE`. A negative number is taken as a value, so that what is said of it is what the value has to be.
fn value<'a>(alloc: Global, name: &'a str, value: &'a str, help: &'a str) -> Arg<'a> {
    option(alloc, name, value, help).allow_negative_numbers(true)
}

/// The words behind `--`, of which there is at least one.
fn rest<'a>(alloc: Global, name: &'a str, help: &'a str) -> Arg<'a> {
    Arg::new(alloc, name)
        .help(help)
        .action(ArgAction::Append)
        .num_args(1..)
        .required(true)
        .last(true)
}

/// A command that talks to the server at a socket.
pub(crate) fn of_socket<'a>(alloc: Global, command: Command<'a>) -> Result<Command<'a>, NoMemory> {
    let command = command.arg(value(
        alloc,
        "socket",
        "PATH",
        "The server's socket [default: $WATCHMAND_SOCKET, or $XDG_RUNTIME_DIR/watchmand/socket]",
    ))?;
    Ok(command)
}

/// A command about a folder.
pub(crate) fn of_folder<'a>(alloc: Global, command: Command<'a>) -> Result<Command<'a>, NoMemory> {
    let folder = optional(alloc, "DIR", "The folder [default: the present one]");
    Ok(of_socket(alloc, command)?.arg(folder)?)
}

/// A command about files in a folder.
fn of_files<'a>(alloc: Global, command: Command<'a>) -> Result<Command<'a>, NoMemory> {
    let patterns = Arg::new(alloc, "PATTERN")
        .help("A glob of names, or of paths below DIR if it has a slash, as '*.c' or 'lib/**'")
        .action(ArgAction::Append)
        .num_args(0..);
    let command = of_folder(alloc, command)?
        .arg(patterns)?
        .arg(flag(
            alloc,
            "no-sync",
            "Asks at once, without waiting for what just happened",
        ))?
        .arg(value(
            alloc,
            "expr",
            "JSON",
            "An expression that the files also have to fit",
        ))?;
    Ok(command)
}

/// A command that prints names of files in a folder.
pub(crate) fn of_names<'a>(alloc: Global, command: Command<'a>) -> Result<Command<'a>, NoMemory> {
    let nul = flag(
        alloc,
        "nul",
        "Prints a zero byte behind each name, in place of a newline",
    )
    .short('0');
    let command = of_files(alloc, command)?
        .arg(nul)?
        .arg(flag(alloc, "json", "Prints the reply as the server sent it"))?
        .arg(flag(alloc, "clock", "Prints the clock behind the names"))?;
    Ok(command)
}

/// A command that prints names of files that changed.
pub(crate) fn of_since<'a>(alloc: Global, command: Command<'a>) -> Result<Command<'a>, NoMemory> {
    let since = value(
        alloc,
        "since",
        "CLOCK",
        "A clock, or @NAME: since the last question by this name",
    )
    .required(true);
    Ok(of_names(alloc, command)?.arg(since)?)
}

/// A command that runs a program.
pub(crate) fn of_program<'a>(alloc: Global, command: Command<'a>) -> Result<Command<'a>, NoMemory> {
    let command = of_files(alloc, command)?
        .arg(value(
            alloc,
            "settle",
            "MS",
            "For how long nothing changes before a run, in milliseconds [default: 50]",
        ))?
        .arg(rest(
            alloc,
            "COMMAND",
            "The program and its words; it reads the changed names, each with a zero byte behind it",
        ))?;
    Ok(command)
}
