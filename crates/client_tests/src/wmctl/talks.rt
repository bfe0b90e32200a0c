//! Talks over bytes in memory.
use crate::checks::check;
use std::io;
use std::io::{BufReader, ErrorKind, Read, Write};
use wm_client::{TalkEnd, refusal_of, talk};
use wm_disk::Refusal;

/// How many lines are to follow, what comes, how the talk ends, and what is printed.
const TALKS: &[(u32, &str, TalkEnd, &str)] = &[
    (
        0,
        "{\"version\":\"w1\"}\nmore\n",
        TalkEnd::Told,
        "{\"version\":\"w1\"}\n",
    ),
    (2, "a\nb\nc\nd\n", TalkEnd::Told, "a\nb\nc\n"),
    (
        1,
        "{\"error\":\"5 NotWatched\",\"version\":\"w1\"}\nb\n",
        TalkEnd::Refused,
        "{\"error\":\"5 NotWatched\",\"version\":\"w1\"}\n",
    ),
    (1, "a\n{\"error\":1}\n", TalkEnd::Told, "a\n{\"error\":1}\n"),
    (0, "", TalkEnd::NoReply, ""),
    (0, "half", TalkEnd::NoReply, ""),
    (1, "a\nhalf", TalkEnd::NoReply, "a\n"),
];

#[test]
fn talks_of_the_table(rt: HostRuntime) {
    let alloc = rt.alloc();
    for (follow, input, wanted, wanted_text) in TALKS {
        let mut sent = Vec::new(alloc);
        let mut printed = Vec::new(alloc);
        let mut replies = input.as_bytes();
        let end = talk(
            alloc,
            "[\"x\"]",
            *follow,
            &mut sent,
            &mut replies,
            &mut printed,
        )
        .expect(&rt, "memory");
        check!(rt; end == *wanted, (input, end));
        check!(rt; sent.as_slice() == b"[\"x\"]\n".as_slice(), input);
        check!(rt; printed.as_slice() == wanted_text.as_bytes(), input);
    }
}

/// What comes before a read fails.
#[derive(Clone, Copy)]
struct Reset {
    left: &'static [u8],
}

impl Read for Reset {
    fn read(&mut self, room: &mut [u8]) -> io::Result<usize> {
        if self.left.is_empty() {
            return Err(io::Error::from(ErrorKind::ConnectionReset));
        }
        self.left.read(room)
    }
}

/// How many lines are to follow, what comes before a read fails, how the talk ends, and what is printed.
const RESET: &[(u32, &str, TalkEnd, &str)] = &[
    (0, "a\n", TalkEnd::Told, "a\n"),
    (0, "half", TalkEnd::ReadFailed, ""),
    (0, "", TalkEnd::ReadFailed, ""),
    (1, "a\n", TalkEnd::ReadFailed, "a\n"),
    (
        1,
        "{\"error\":\"17 TooMany\",\"version\":\"w1\"}\n",
        TalkEnd::Refused,
        "{\"error\":\"17 TooMany\",\"version\":\"w1\"}\n",
    ),
];

#[test]
fn ends_where_a_read_fails(rt: HostRuntime) {
    let alloc = rt.alloc();
    for (follow, input, wanted, wanted_text) in RESET {
        let reset = Reset {
            left: input.as_bytes(),
        };
        let mut replies = BufReader::new(alloc, reset).expect(&rt, "memory");
        let mut sent = Vec::new(alloc);
        let mut printed = Vec::new(alloc);
        let end = talk(alloc, "[1]", *follow, &mut sent, &mut replies, &mut printed).expect(
            &rt, "memory",
        );
        check!(rt; end == *wanted, (input, end));
        check!(rt; sent.as_slice() == b"[1]\n".as_slice(), input);
        check!(rt; printed.as_slice() == wanted_text.as_bytes(), input);
    }
}

/// A sender that takes so many writes, and fails at each later one.
#[derive(Drop)]
struct Failing {
    left: u32,
    sent: Vec<u8>,
}

impl Write for Failing {
    fn write(&mut self, bytes: &[u8]) -> io::Result<usize> {
        if self.left == 0 {
            return Err(io::Error::from(ErrorKind::BrokenPipe));
        }
        self.left -= 1;
        self.sent.extend_from_slice(bytes)?;
        Ok(bytes.len())
    }

    fn flush(&mut self) -> io::Result<()> {
        Ok(())
    }
}

/// What comes where a write failed, how the talk ends, and what is printed.
const UNSENT: &[(&str, TalkEnd, &str)] = &[
    (
        "{\"error\":\"17 TooMany\",\"version\":\"w1\"}\nb\n",
        TalkEnd::Refused,
        "{\"error\":\"17 TooMany\",\"version\":\"w1\"}\n",
    ),
    ("a\nb\n", TalkEnd::Unsent, ""),
    ("{\"error\":\"17 Too", TalkEnd::NoReply, ""),
    ("", TalkEnd::NoReply, ""),
];

/// How many writes are taken, and what was sent then.
const WRITES: &[(u32, &str)] = &[(0, ""), (1, "[\"x\"]")];

#[test]
fn reads_one_line_where_a_write_failed(rt: HostRuntime) {
    let alloc = rt.alloc();
    for (left, wanted_sent) in WRITES {
        for (input, wanted, wanted_text) in UNSENT {
            let mut sender = Failing {
                left: *left,
                sent: Vec::new(alloc),
            };
            let mut printed = Vec::new(alloc);
            let mut replies = input.as_bytes();
            let end = talk(alloc, "[\"x\"]", 1, &mut sender, &mut replies, &mut printed).expect(
                &rt, "memory",
            );
            check!(rt; end == *wanted, (left, input, end));
            check!(rt; sender.sent.as_slice() == wanted_sent.as_bytes(), (left, input));
            check!(rt; printed.as_slice() == wanted_text.as_bytes(), (left, input));
        }
    }
}

/// Lines, and the number of the refusal that they are; 0: of none that is known.
const REFUSALS: &[(&str, u8)] = &[
    ("{\"error\":\"17 TooMany\",\"version\":\"w1\"}\n", 17),
    ("{\"error\":\"1 BadLine\",\"version\":\"w1\"}\n", 1),
    ("{\"error\":\"10 BadTrigger\",\"version\":\"w1\"}\n", 10),
    ("{\"error\":\"21 Unheard\",\"version\":\"w1\"}\n", 0),
    ("{\"version\":\"w1\"}\n", 0),
    ("", 0),
];

#[test]
fn refusals_of_the_table(rt: HostRuntime) {
    for (line, wanted) in REFUSALS {
        let number = refusal_of(line.as_bytes()).map_or(0, Refusal::number);
        check!(rt; number == *wanted, (line, number));
    }
}

#[test]
fn tells_a_printer_without_room(rt: HostRuntime) {
    let alloc = rt.alloc();
    let mut sent = Vec::new(alloc);
    let mut replies = b"reply\n".as_slice();
    let mut room = [0u8; 2];
    let mut printer = room.as_mut_slice();
    let end = talk(alloc, "[]", 0, &mut sent, &mut replies, &mut printer).expect(&rt, "memory");
    check!(rt; end == TalkEnd::Unprinted);
}
