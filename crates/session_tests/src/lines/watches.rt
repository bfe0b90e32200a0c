//! Sessions that watch roots, with their lines, replies and the commands in their files written out byte
//! by byte.
use crate::checks::check;
use crate::disks::{content_of, file_after, journal, new_file};
use crate::ends::{BEGUN, WATCHES_R, assert_ends, end_of};
use std::alloc::Global;
use std::io::{BufRead, BufReader};
use std::process::Abort;
use wm_disk::MemDisk;
use wm_session::run::{LineNumbers, run};
use wm_session::{Input, LocalFront, Output, Session};

/// The lines of earlier sessions, those of a session over the same file, their replies, and how the journal
/// begins then: a gate and a command for each start and each accepted line, and a closed gate.
type Sessions<'a> = (&'a [&'a str], &'a str, &'a str, &'a [u8]);

const SESSIONS: &[Sessions<'static>] = &[
    (&[], "", "", BEGUN),
    (
        &[],
        "[\"watch\",\"/r\"]\n[\"watch-list\"]\n",
        "{\"version\":\"w1\",\"watch\":\"/r\"}\n{\"roots\":[\"/r\"],\"version\":\"w1\"}\n",
        b"\xa5\x00\xa5\x01\x00\x00\x00\x02/r\x00",
    ),
    (
        &["[\"watch\",\"/r\"]\n"],
        "[\"watch-list\"]\n",
        "{\"roots\":[\"/r\"],\"version\":\"w1\"}\n",
        b"\xa5\x00\xa5\x01\x00\x00\x00\x02/r\xa5\x00\x00",
    ),
    (&[], "[\"version\"]\n", "{\"version\":\"w1\"}\n", BEGUN),
    (
        &["[\"watch\",\"/r\"]\n"],
        "[\"watch\",\"/r\"]\n",
        "{\"version\":\"w1\",\"watch\":\"/r\"}\n",
        b"\xa5\x00\xa5\x01\x00\x00\x00\x02/r\xa5\x00\x00",
    ),
    (
        &[],
        "[\"watch\",\"/b\"]\n[\"watch\",\"/a/b\"]\n[\"watch\",\"/b\"]\n[\"watch-list\"]\n",
        "{\"version\":\"w1\",\"watch\":\"/b\"}\n{\"version\":\"w1\",\"watch\":\"/a/b\"}\n{\"version\":\"w1\",\"watch\":\"/b\"}\n{\"roots\":[\"/b\",\"/a/b\"],\"version\":\"w1\"}\n",
        b"\xa5\x00\xa5\x01\x00\x00\x00\x02/b\xa5\x01\x00\x00\x00\x04/a/b\x00",
    ),
    (
        &[],
        "[\"watch-list\"]\n[\"watch-list\"",
        "{\"roots\":[],\"version\":\"w1\"}\n{\"error\":\"1 BadLine\",\"version\":\"w1\"}\n",
        BEGUN,
    ),
    (
        &[],
        "[\"watch\",\"/r\"]",
        "{\"error\":\"1 BadLine\",\"version\":\"w1\"}\n",
        BEGUN,
    ),
];

/// The last of the sessions ends so.
fn assert_served<R: BufRead>(
    rt: &impl Abort,
    alloc: Global,
    sessions: &Sessions<'_>,
    reader: &mut R,
) {
    let (earlier, input, output, used) = *sessions;
    let end = end_of(rt, alloc, file_after(rt, alloc, earlier), reader);
    assert_ends(rt, &end, (0, output, "", used), input);
    drop(end);
}

/// The reader may hand out its bytes in pieces.
fn assert_served_in_pieces(rt: &impl Abort, alloc: Global, sessions: &Sessions<'_>, size: usize) {
    let input = sessions.1.as_bytes();
    let mut pieces = BufReader::with_capacity(alloc, size, input).expect(rt, "memory");
    assert_served(rt, alloc, sessions, &mut pieces);
    drop(pieces);
}

#[test]
fn serves_sessions(rt: HostRuntime) {
    for sessions in SESSIONS {
        assert_served(&rt, rt.alloc(), sessions, &mut sessions.1.as_bytes());
        assert_served_in_pieces(&rt, rt.alloc(), sessions, 1);
        assert_served_in_pieces(&rt, rt.alloc(), sessions, 3);
    }
}

type MemSession = Session<LocalFront<MemDisk>>;

fn answers_a_line(rt: &impl Abort, alloc: Global, session: &mut MemSession) -> bool {
    let mut output = Vec::new(alloc);
    session
        .line(alloc, 1, b"[\"watch\",\"/r\"]\n", &mut output)
        .expect(rt, "memory");
    let wanted = b"{\"version\":\"w1\",\"watch\":\"/r\"}\n".as_slice();
    let holds = output.as_slice() == wanted;
    drop(output);
    holds
}

fn answers_a_reader(rt: &impl Abort, alloc: Global, session: &mut MemSession) -> bool {
    let mut output = Vec::new(alloc);
    let mut reader = Input::new(b"[\"watch-list\"]\n[\"watch-list\"]x\n".as_slice());
    let mut moments = LineNumbers::new();
    let mut writer = Output::new(&mut output);
    let faults = run(alloc, session, &mut moments, &mut reader, &mut writer).expect(rt, "a run");
    let wanted =
        b"{\"roots\":[\"/r\"],\"version\":\"w1\"}\n{\"error\":\"1 BadLine\",\"version\":\"w1\"}\n";
    let holds = faults == 0 && output.as_slice() == wanted.as_slice();
    drop(output);
    holds
}

/// A session over a new file.
fn begun(rt: &impl Abort, alloc: Global) -> MemSession {
    let Ok(front) = LocalFront::open(alloc, new_file(rt, alloc)) else {
        panic!(rt; "the file can't be opened");
    };
    Session::new(alloc, front)
}

/// The disk of the session, whose end was well.
fn closed(rt: &impl Abort, session: MemSession) -> MemDisk {
    let (closing, disk) = session.front.close();
    closing.expect(rt, "a close");
    disk
}

/// Whether the disk's journal begins with a start and a watch of `/r`.
fn watches_r(rt: &impl Abort, alloc: Global, disk: MemDisk) -> bool {
    let content = content_of(rt, alloc, disk);
    let watches = journal(&content, WATCHES_R.len()) == WATCHES_R;
    drop(content);
    watches
}

/// Asserts that the session, which has answered no line yet, answers one, and then a reader's lines.
fn answer_both(rt: &impl Abort, alloc: Global, session: &mut MemSession) {
    check!(rt; answers_a_line(rt, alloc, session));
    check!(rt; answers_a_reader(rt, alloc, session));
}

#[test]
fn answers_by_its_parts(rt: HostRuntime) {
    let alloc = rt.alloc();
    let mut session = begun(&rt, alloc);
    answer_both(&rt, alloc, &mut session);
    check!(rt; watches_r(&rt, alloc, closed(&rt, session)));
}
