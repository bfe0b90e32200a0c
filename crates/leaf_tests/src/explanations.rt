//! The line that explains a refusal, by what was found after it.
use crate::checks::check;
use std::alloc::Global;
use std::process::Abort;
use wm_disk::Refusal;
use wm_explain::{
    Cause, Doing, End, Found, Head, Lock, file_cause, line_of, refusal_said, shown, socket_cause,
};

/// A file of version 2 that nobody has.
const FREE: Found = Found::File {
    lock: Lock::Free,
    head: Head::VersionTwo,
};

/// A file that is no state file.
const FOREIGN: Found = Found::File {
    lock: Lock::Free,
    head: Head::Foreign,
};

/// A file that another `watchmand` has.
const HELD: Found = Found::File {
    lock: Lock::Watchmand(4711),
    head: Head::VersionTwo,
};

/// A file that another program has.
const TAKEN: Found = Found::File {
    lock: Lock::Program(1),
    head: Head::VersionTwo,
};

/// A file of version 1.
const OLD: Found = Found::File {
    lock: Lock::Free,
    head: Head::VersionOne,
};

/// A file that was migrated.
const RETIRED: Found = Found::File {
    lock: Lock::Free,
    head: Head::Retired,
};

/// A refusal, what was done with the file `f`, what was found, and the line.
const FILES: &[(Refusal, Doing, Found, &str)] = &[
    (
        Refusal::DeviceFailed,
        Doing::Opening,
        Found::Nothing,
        "f: no such file; 'watchmand format f' makes it\n",
    ),
    (
        Refusal::DeviceFailed,
        Doing::Opening,
        HELD,
        "f: another watchmand has it (pid 4711)\n",
    ),
    (
        Refusal::DeviceFailed,
        Doing::Opening,
        TAKEN,
        "f: another program has it (pid 1)\n",
    ),
    (Refusal::DeviceFailed, Doing::Opening, FREE, ""),
    (
        Refusal::DeviceFailed,
        Doing::Opening,
        Found::Folder,
        "f: this is a folder\n",
    ),
    (
        Refusal::DeviceFailed,
        Doing::Making,
        FREE,
        "f: is there already\n",
    ),
    (
        Refusal::DeviceFailed,
        Doing::Making,
        Found::NoFolder,
        "f: its folder isn't there\n",
    ),
    (
        Refusal::Damaged,
        Doing::Opening,
        FOREIGN,
        "f: this is no state file of watchmand\n",
    ),
    (
        Refusal::Damaged,
        Doing::Opening,
        FREE,
        "f: this state file is damaged; put a copy back, or move it away and 'watchmand format f' makes a new one\n",
    ),
    (
        Refusal::Damaged,
        Doing::Moving,
        FREE,
        "f: this state file has version 2 already\n",
    ),
    (
        Refusal::Damaged,
        Doing::Moving,
        OLD,
        "f: this state file is damaged\n",
    ),
    (Refusal::Damaged, Doing::Moving, RETIRED, ""),
    (
        Refusal::Damaged,
        Doing::Filling,
        FREE,
        "f: OLD was migrated into another file, or this one is damaged\n",
    ),
    (
        Refusal::Retired,
        Doing::Opening,
        RETIRED,
        "f: its registry was migrated; serve the file into which it was\n",
    ),
    (Refusal::Full, Doing::Opening, Found::Nothing, ""),
];

/// An end of the socket `s`, the bytes of its path, what was found, and the line.
const SOCKETS: &[(End, usize, Found, &str)] = &[
    (
        End::Server,
        131,
        Found::Nothing,
        "socket: the path has 131 bytes, at most 107\n",
    ),
    (
        End::Server,
        107,
        Found::Served,
        "s: a server listens there\n",
    ),
    (End::Server, 1, FOREIGN, "s: this is no socket\n"),
    (
        End::Client,
        108,
        Found::Served,
        "socket: the path has 108 bytes, at most 107\n",
    ),
    (
        End::Client,
        1,
        Found::Nothing,
        "s: no such file (is the server running?)\n",
    ),
    (
        End::Client,
        1,
        Found::Unserved,
        "s: nobody listens there (is the server running?)\n",
    ),
    (End::Client, 1, Found::Served, ""),
];

/// Whether this is the line of a cause.
fn says(rt: &impl Abort, alloc: Global, path: &str, cause: Option<Cause>, line: &str) -> bool {
    match cause {
        Some(cause) => line_of(alloc, path, cause).expect(rt, "memory").as_str() == line,
        None => line.is_empty(),
    }
}

#[test]
fn explains_files(rt: HostRuntime) {
    for (refusal, doing, found, line) in FILES {
        let cause = file_cause(*refusal, *doing, *found);
        check!(rt; says(&rt, rt.alloc(), "f", cause, line), line);
    }
}

#[test]
fn explains_sockets(rt: HostRuntime) {
    for (end, length, found, line) in SOCKETS {
        let cause = socket_cause(*end, *length, *found);
        check!(rt; says(&rt, rt.alloc(), "s", cause, line), line);
    }
}

#[test]
fn escapes_control_characters(rt: HostRuntime) {
    let alloc = rt.alloc();
    let text = shown(alloc, "a\n\u{1b}[1m\u{9b}é\u{7f}'").expect(&rt, "memory");
    check!(rt; text.as_str() == "a\\x0a\\x1b[1m\\x9bé\\x7f'", text);
}

#[test]
fn knows_what_was_said(rt: HostRuntime) {
    check!(rt; refusal_said("13 DeviceFailed") == Some(Refusal::DeviceFailed));
    check!(rt; refusal_said("14 Damaged") == Some(Refusal::Damaged));
    check!(rt; refusal_said("20 Retired") == Some(Refusal::Retired));
    check!(rt; refusal_said("1 BadLine").is_none());
}
