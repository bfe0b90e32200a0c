//! The program against a socket that the test itself serves.
use crate::checks::check;
use crate::wmctl::systems::{AT_ONCE, Plan, Planned};
use std::alloc::Global;
use std::io::{BufRead, BufReader, Write};
use std::os::unix::net::{UnixListener, UnixStream};
use std::process::Abort;
use std::{fs, thread};
use wm_client::wmctl;

/// Answers the one request of a session with these lines, and ends the session.
fn answer(host: &impl Abort, alloc: Global, listener: &UnixListener, lines: &str) {
    let (stream, _) = listener.accept().expect(host, "a session");
    let mut reader = BufReader::new(alloc, &stream).expect(host, "memory");
    let mut request = Vec::new(alloc);
    reader
        .read_until(b'\n', &mut request)
        .expect(host, "a request");
    (&stream).write_all(&request).expect(host, "a reader");
    (&stream)
        .write_all(lines.as_bytes())
        .expect(host, "a reader");
}

/// What comes behind the request, which is sent back; the words after the socket; the status, and what is printed and told.
const ENDS: &[(&str, &[&str], u8, &str, &str)] = &[
    ("", &["[1]"], 0, "[1]\n", ""),
    ("b\nc\n", &["[1]", "--follow", "2"], 0, "[1]\nb\nc\n", ""),
    (
        "b\n",
        &["[1]", "--follow", "2"],
        3,
        "[1]\nb\n",
        "wmctl: no reply\n",
    ),
    (
        "",
        &["{\"error\":1}", "--follow", "1"],
        1,
        "{\"error\":1}\n",
        "",
    ),
];

/// Runs the program, with a feed of this plan.
fn run(
    rt: &HostRuntime,
    plan: Plan,
    words: &[&str],
    output: &mut Vec<u8>,
    faults: &mut Vec<u8>,
) -> u8 {
    let system = Planned::new(plan);
    wmctl(rt.alloc(), rt, &system, words, output, faults)
}

#[test]
fn ends_of_the_table(rt: HostRuntime) {
    const PATH: &str = "wm_client_socket";
    let alloc = rt.alloc();
    let _ = fs::remove_file(&rt, PATH);
    let listener = UnixListener::bind(&rt, PATH).expect(&rt, "a listener");
    for (lines, words, status, printed, told) in ENDS {
        let mut all = vec![in alloc; PATH].expect(&rt, "memory");
        all.extend_from_slice(words).expect(&rt, "memory");
        let mut output = Vec::new(alloc);
        let mut faults = Vec::new(alloc);
        let (_, ended) = thread::join(
            &rt,
            || answer(&rt, alloc, &listener, lines),
            || run(&rt, AT_ONCE, &all, &mut output, &mut faults),
        );
        check!(rt; ended == *status, (words, ended));
        check!(rt; output.as_slice() == printed.as_bytes(), words);
        check!(rt; faults.as_slice() == told.as_bytes(), words);
    }
    fs::remove_file(&rt, PATH).expect(&rt, "a socket");
}

/// Tells a session before it asks, and ends it without reading.
fn refuse(host: &impl Abort, listener: &UnixListener, told: &str) {
    let (stream, _) = listener.accept().expect(host, "a session");
    (&stream)
        .write_all(told.as_bytes())
        .expect(host, "a reader");
}

/// What a session is told whose request isn't read; the status, and what is printed and told.
const UNREAD: &[(&str, u8, &str, &str)] = &[
    (
        "{\"error\":\"17 TooMany\",\"version\":\"w1\"}\n",
        1,
        "{\"error\":\"17 TooMany\",\"version\":\"w1\"}\n",
        "",
    ),
    ("{\"error\":\"17 TooMany\"", 3, "", "wmctl: no reply\n"),
    ("", 3, "", "wmctl: no reply\n"),
];

#[test]
fn prints_the_refusal_of_a_session(rt: HostRuntime) {
    const PATH: &str = "wm_client_refusing";
    let alloc = rt.alloc();
    let _ = fs::remove_file(&rt, PATH);
    let listener = UnixListener::bind(&rt, PATH).expect(&rt, "a listener");
    for (told, status, printed, fault) in UNREAD {
        let mut output = Vec::new(alloc);
        let mut faults = Vec::new(alloc);
        let (_, ended) = thread::join(
            &rt,
            || refuse(&rt, &listener, told),
            || run(&rt, AT_ONCE, &[PATH, "[1]"], &mut output, &mut faults),
        );
        check!(rt; ended == *status, (told, ended));
        check!(rt; output.as_slice() == printed.as_bytes(), told);
        check!(rt; faults.as_slice() == fault.as_bytes(), told);
    }
    fs::remove_file(&rt, PATH).expect(&rt, "a socket");
}

/// Words that ask for no talk; the status, and how what is printed and told begins.
const SHOWN: &[(&[&str], u8, &str, &str)] = &[
    (&["--version"], 0, "wmctl ", ""),
    (&["--help"], 0, "Sends a request", ""),
    (&["wm_client_nowhere"], 2, "", "error: "),
];

#[test]
fn shows_help_where_it_prints_and_faults_where_it_tells_them(rt: HostRuntime) {
    for (words, status, printed, told) in SHOWN {
        let mut output = Vec::new(rt.alloc());
        let mut faults = Vec::new(rt.alloc());
        let ended = run(&rt, AT_ONCE, words, &mut output, &mut faults);
        check!(rt; ended == *status, (words, ended));
        check!(rt; output.starts_with(printed.as_bytes()) && output.is_empty() == printed.is_empty(), words);
        check!(rt; faults.starts_with(told.as_bytes()) && faults.is_empty() == told.is_empty(), words);
    }
}

#[test]
fn tells_that_nobody_serves_a_socket(rt: HostRuntime) {
    let mut output = Vec::new(rt.alloc());
    let mut faults = Vec::new(rt.alloc());
    let words = ["wm_client_nowhere", "[]"];
    let status = run(&rt, AT_ONCE, &words, &mut output, &mut faults);
    check!(rt; status == 3 && output.is_empty());
    check!(rt; faults.as_slice() == b"wmctl: no reply\n".as_slice());
}
