//! The spellings of commands.
use crate::checks::check;
use crate::filed::command_first;
use crate::lines::named;
use crate::spelling::{is_spelled, taken};
use std::alloc::Global;
use std::process::Abort;
use wm_checkpoint::Version1;
use wm_names::RootPath;
use wm_registry::{Command, FiledCommand, Stdin, Trigger};

/// A command by its verb, its path, its trigger's name and its program, and its spelling.
type Row = (
    &'static str,
    &'static str,
    &'static str,
    &'static str,
    &'static [u8],
);

/// Each of the commands.
const SPELLINGS: &[Row] = &[
    ("begin", "", "", "", b"\0"),
    ("watch", "/r", "", "", b"\x01\0\0\0\x02/r"),
    ("watch-del", "/a b", "", "", b"\x02\0\0\0\x04/a b"),
    (
        "trigger",
        "/r",
        "t",
        "true",
        b"\x03\0\0\0\x02/r\0\0\0\x01t\0\0\0\x01\0\0\0\x04true\0\0\0",
    ),
    ("trigger-del", "/r", "t", "", b"\x04\0\0\0\x02/r\0\0\0\x01t"),
];

// Whether the trigger has that name and that program, and nothing besides.
fn is_trigger(trigger: &Trigger, name: &str, program: &str) -> bool {
    let started = match trigger.command() {
        [word] => word.as_str() == program,
        _ => false,
    };
    let bare = trigger.expression().is_none() && !trigger.append_files();
    let quiet = matches!(trigger.stdin(), Stdin::DevNull);
    started && bare && quiet && trigger.name() == name
}

// Whether the verb is the wanted one, and the place the path.
fn is_at(verb: &str, wanted: &str, at: &RootPath, path: &str) -> bool {
    verb == wanted && at.as_str() == path
}

// Whether the command is that of the row.
fn is_row(command: &Command, row: &Row) -> bool {
    let (verb, path, name, program, _) = *row;
    match command {
        Command::Begin => verb == "begin",
        Command::Watch(at) => is_at(verb, "watch", at, path),
        Command::WatchDel(at) => is_at(verb, "watch-del", at, path),
        Command::Trigger(at, trigger) => {
            is_at(verb, "trigger", at, path) && is_trigger(trigger, name, program)
        }
        Command::TriggerDel(at, other) => {
            is_at(verb, "trigger-del", at, path) && other.as_str() == name
        }
    }
}

// Whether the row's command is spelled so, and no cut of its spelling is one.
fn is_put(rt: &impl Abort, alloc: Global, row: &Row) -> bool {
    let (verb, path, name, program, want) = *row;
    let command = command_first(rt, named(rt, alloc, verb, path, name, program));
    let is_put = is_row(command.command(), row) && is_spelled(rt, alloc, &command, want);
    drop(command);
    is_put
}

// Whether the row's command is taken from the bytes.
fn is_taken(rt: &impl Abort, alloc: Global, row: &Row) -> bool {
    match taken::<FiledCommand<Version1>>(rt, alloc, row.4) {
        Some(command) => {
            let is_row = is_row(command.command(), row);
            drop(command);
            is_row
        }
        None => false,
    }
}

#[test]
fn spells_commands(rt: HostRuntime) {
    for row in SPELLINGS {
        let put = is_put(&rt, rt.alloc(), row);
        check!(rt; put && is_taken(&rt, rt.alloc(), row), row.0);
    }
}

/// Bytes that are no command's.
pub(crate) const NO_COMMANDS: &[(&str, &[u8])] = &[
    ("a tag of 5", b"\x05"),
    ("a tag of 5, and a path", b"\x05\0\0\0\x02/r"),
    ("a tag of 255", b"\xff\0\0\0\x02/r"),
    ("an empty path", b"\x01\0\0\0\0"),
    ("the path /", b"\x01\0\0\0\x01/"),
    ("a path with a zero", b"\x01\0\0\0\x02/\0"),
    ("a path that is no UTF-8", b"\x01\0\0\0\x02/\xff"),
    ("a path of 1,025 bytes", b"\x01\0\0\x04\x01/"),
    ("the path r, unwatched", b"\x02\0\0\0\x01r"),
    (
        "the path r, with a trigger",
        b"\x03\0\0\0\x01r\0\0\0\x01t\0\0\0\x01\0\0\0\x04true\0\0\0",
    ),
    (
        "the path r, of a trigger that goes",
        b"\x04\0\0\0\x01r\0\0\0\x01t",
    ),
    (
        "a trigger with no program",
        b"\x03\0\0\0\x02/r\0\0\0\x01t\0\0\0\x01\0\0\0\0\0\0\0",
    ),
    ("a name with no bytes", b"\x04\0\0\0\x02/r\0\0\0\0"),
];
