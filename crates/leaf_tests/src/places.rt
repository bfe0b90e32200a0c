//! What is said of roots, of folders that can't be read, and of sockets.
use crate::checks::check;
use wm_explain::{Cause, Trouble};
use wm_findings::{RootFound, Unfed, fed_line, more_line, root_line, server_line, unread_line};

/// What was found at the path `/r` of a watched root, and the line.
const ROOTS: &[(RootFound<'static>, &str)] = &[
    (
        RootFound::Nothing,
        "/r: no folder is there, so the root has no files: it is filled once a folder is made there, and 'wm unwatch ROOT' or [\"watch-del\",ROOT] ends the watch\n",
    ),
    (
        RootFound::File,
        "/r: this is a file and no folder, so the root has no files: it is filled once a folder is made there, and 'wm unwatch ROOT' or [\"watch-del\",ROOT] ends the watch\n",
    ),
    (
        RootFound::Unreadable,
        "/r: this folder can't be read: give the server's user the right to it, or watch a folder below\n",
    ),
    (
        RootFound::Link("/s\t"),
        "/r: a symbolic link leads to /s\\x09; the two paths are two roots, and 'wm watch' takes the latter\n",
    ),
];

#[test]
fn says_what_is_at_a_root(rt: HostRuntime) {
    for (found, line) in ROOTS {
        let said = root_line(rt.alloc(), "/r", *found).expect(&rt, "memory");
        check!(rt; said.as_str() == *line, line);
    }
}

/// Why the root `/r` can't be fed, and the line.
const FEEDS: &[(Unfed, &str)] = &[
    (
        Unfed::Nothing,
        "/r: nothing is there: make the folder, and start wmfeed again\n",
    ),
    (
        Unfed::File,
        "/r: this is no folder: wmfeed takes SOCKET first, and then the folder ROOT\n",
    ),
    (
        Unfed::Unreadable,
        "/r: the folder can't be read; it is tried again\n",
    ),
    (
        Unfed::Uncrawled,
        "/r: the server can't read a folder of it, which 'wm status' names; it is tried again\n",
    ),
];

#[test]
fn says_why_a_root_is_not_fed(rt: HostRuntime) {
    for (cause, line) in FEEDS {
        let said = fed_line(rt.alloc(), "/r", *cause).expect(&rt, "memory");
        check!(rt; said.as_str() == *line, line);
    }
}

#[test]
fn names_folders_that_cannot_be_read(rt: HostRuntime) {
    let said = unread_line(rt.alloc(), "/r/d").expect(&rt, "memory");
    let line =
        "/r/d: the folder can't be read; what is in it isn't listed, or is known from before\n";
    check!(rt; said.as_str() == line, said);
    let said = more_line(rt.alloc(), "/r\n", 12).expect(&rt, "memory");
    check!(rt; said.as_str() == "/r\\x0a: and 12 more folders below it can't be read\n", said);
}

/// Why no server answers at `s`, whether it is another user's, and the line.
const SERVERS: &[(Cause, bool, &str)] = &[
    (
        Cause::Fixed(Trouble::NoServer),
        false,
        "no server answers at s (no such file): 'wm up' starts one, or 'watchmand serve STATE s'\n",
    ),
    (
        Cause::Fixed(Trouble::Unserved),
        true,
        "no server answers at s (nobody listens there): 'wm up' starts one, or 'watchmand serve STATE s'\n",
    ),
    (
        Cause::Fixed(Trouble::NoFolder),
        false,
        "no server answers at s (its folder isn't there): 'wm up' makes its own folder and starts one\n",
    ),
    (
        Cause::Fixed(Trouble::Denied),
        true,
        "s: this is another user's, and there is no right to it: name the socket of your own server, which 'wm up' starts\n",
    ),
    (
        Cause::Fixed(Trouble::Denied),
        false,
        "s: there is no right to it\n",
    ),
    (
        Cause::Fixed(Trouble::NoSocket),
        true,
        "s: this is no socket\n",
    ),
    (
        Cause::LongPath(131),
        false,
        "socket: the path has 131 bytes, at most 107\n",
    ),
];

#[test]
fn says_why_no_server_answers(rt: HostRuntime) {
    for (cause, is_of_another, line) in SERVERS {
        let said = server_line(rt.alloc(), "s", *cause, *is_of_another).expect(&rt, "memory");
        check!(rt; said.as_str() == *line, line);
    }
}
