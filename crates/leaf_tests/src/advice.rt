//! What keeps a program from a file or a socket, and what it is told to do.
use crate::checks::check;
use std::alloc::Global;
use std::process::Abort;
use wm_findings::{Hindrance, advice_at};

/// A hindrance, without memory of its own.
#[derive(Clone, Copy)]
enum Case {
    Server(u32, Option<&'static str>),
    ClosedFile(Option<u32>),
    ClosedSocket(Option<u32>),
    Listener,
}

/// Paths, what keeps a program from each, and the line.
const LINES: &[(&str, Case, &str)] = &[
    (
        "state",
        Case::Server(4711, Some("/run/user/1000/watchmand/socket")),
        "state: another watchmand has it (pid 4711) and listens at /run/user/1000/watchmand/socket: 'kill 4711' ends it\n",
    ),
    (
        "a\nb",
        Case::Server(1, Some("s\x1b")),
        "a\\x0ab: another watchmand has it (pid 1) and listens at s\\x1b: 'kill 1' ends it\n",
    ),
    (
        "state",
        Case::Server(4294967295, None),
        "state: another watchmand has it (pid 4294967295): 'kill 4294967295' ends it\n",
    ),
    (
        "/etc/shadow",
        Case::ClosedFile(Some(0)),
        "/etc/shadow: there is no right to it (user 0 owns it): give it by chmod or chown, or name another file\n",
    ),
    (
        "state",
        Case::ClosedFile(None),
        "state: there is no right to it: give it by chmod or chown, or name another file\n",
    ),
    (
        "sock",
        Case::ClosedSocket(Some(1000)),
        "sock: there is no right to it (user 1000 owns it): give it by chmod or chown, or name another socket\n",
    ),
    (
        "sock",
        Case::ClosedSocket(None),
        "sock: there is no right to it: give it by chmod or chown, or name another socket\n",
    ),
    (
        "a\tb",
        Case::Listener,
        "a\\x09b: a server listens there: 'wm list --socket a\\x09b' asks it, or name another socket\n",
    ),
];

fn hindrance(rt: &impl Abort, alloc: Global, case: Case) -> Hindrance {
    match case {
        Case::Server(process, socket) => {
            let socket = socket.map(|path| String::from_str(alloc, path).expect(rt, "memory"));
            Hindrance::Server(process, socket)
        }
        Case::ClosedFile(owner) => Hindrance::ClosedFile(owner),
        Case::ClosedSocket(owner) => Hindrance::ClosedSocket(owner),
        Case::Listener => Hindrance::Listener,
    }
}

#[test]
fn says_what_to_do(rt: HostRuntime) {
    let alloc = rt.alloc();
    for (path, case, line) in LINES {
        let hindrance = hindrance(&rt, alloc, *case);
        let said = advice_at(alloc, path, &hindrance).expect(&rt, "memory");
        check!(rt; said.as_str() == *line, said);
    }
}
