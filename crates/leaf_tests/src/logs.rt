//! The lines of a server's log, which of them are let through, and the events that wait.
use crate::checks::check;
use std::alloc::Global;
use std::io;
use std::io::{ErrorKind, Write};
use std::process::Abort;
use wm_disk::Refusal;
use wm_explain::StartCause;
use wm_log::{Event, EventQueue, LogLimiter, StartFault, What, line_of, write_event};

/// What happened, without memory of its own.
#[derive(Clone, Copy)]
enum Case {
    TookSocket(&'static str),
    CrawlFailed(Refusal, Option<&'static str>),
    NotStarted(&'static str, &'static str, StartCause),
    Exited(&'static str, u8),
    Killed(&'static str, u8),
    SessionRefused(Refusal),
    CutOff,
    Forgot(u64),
    StoreFailed,
}

/// Events, and the line of each.
const LINES: &[(u64, Option<&str>, Case, &str)] = &[
    (
        0,
        None,
        Case::TookSocket("/run/s"),
        "1970-01-01T00:00:00Z took over the socket /run/s\n",
    ),
    (
        1_709_210_096,
        Some("/r"),
        Case::CrawlFailed(Refusal::DeviceFailed, Some("/r/a\nb")),
        "2024-02-29T12:34:56Z /r: a crawl failed at /r/a\\x0ab: 13 DeviceFailed\n",
    ),
    (
        2,
        Some("/r"),
        Case::CrawlFailed(Refusal::NoMemory, None),
        "1970-01-01T00:00:02Z /r: a crawl failed: 16 NoMemory\n",
    ),
    (
        1_796_083_199,
        Some("/r"),
        Case::NotStarted("t", "nosuch", StartCause::NoFile),
        "2026-11-30T23:59:59Z /r: couldn't start the trigger t: nosuch: no such file\n",
    ),
    (
        0,
        None,
        Case::NotStarted("t\n", "./a\nb", StartCause::NoPermission),
        "1970-01-01T00:00:00Z couldn't start the trigger t\\x0a: ./a\\x0ab: no permission\n",
    ),
    (
        0,
        Some("/r"),
        Case::NotStarted("t", "/r/x", StartCause::NoProgram),
        "1970-01-01T00:00:00Z /r: couldn't start the trigger t: /r/x: the system can't run such a file\n",
    ),
    (
        0,
        Some("/r"),
        Case::NotStarted("t", "cc", StartCause::TooLong),
        "1970-01-01T00:00:00Z /r: couldn't start the trigger t: cc: its arguments are too long together\n",
    ),
    (
        0,
        Some("/r"),
        Case::NotStarted("t", "cc", StartCause::NoProcess),
        "1970-01-01T00:00:00Z /r: couldn't start the trigger t: cc: too many processes run\n",
    ),
    (
        0,
        Some("/r"),
        Case::NotStarted("t", "cc", StartCause::NoMemory),
        "1970-01-01T00:00:00Z /r: couldn't start the trigger t: cc: memory ran out\n",
    ),
    (
        0,
        Some("/r"),
        Case::NotStarted("t", "", StartCause::Refused),
        "1970-01-01T00:00:00Z /r: couldn't start the trigger t: : the system refused to start it\n",
    ),
    (
        1_796_083_200,
        Some("/r"),
        Case::Exited("t", 3),
        "2026-12-01T00:00:00Z /r: the trigger t ended with status 3\n",
    ),
    (
        951_782_400,
        Some("/r"),
        Case::Killed("t", 9),
        "2000-02-29T00:00:00Z /r: the trigger t was ended by signal 9\n",
    ),
    (
        4_107_542_400,
        None,
        Case::SessionRefused(Refusal::TooMany),
        "2100-03-01T00:00:00Z refused a session: 17 TooMany\n",
    ),
    (
        1,
        None,
        Case::CutOff,
        "1970-01-01T00:00:01Z cut off a client that didn't read\n",
    ),
    (
        86_400,
        Some("/r"),
        Case::Forgot(12),
        "1970-01-02T00:00:00Z /r: forgot paths that were deleted up to tick 12\n",
    ),
    (
        253_402_207_200,
        None,
        Case::StoreFailed,
        "9999-12-30T22:00:00Z the state file failed; commands that change it are refused until a restart\n",
    ),
    (
        253_402_207_201,
        None,
        Case::CutOff,
        "253402207201 cut off a client that didn't read\n",
    ),
    (
        u64::MAX,
        None,
        Case::CutOff,
        "18446744073709551615 cut off a client that didn't read\n",
    ),
];

/// Texts in turn, each with its second, and whether each is let through.
const TURNS: &[(u64, &str, bool)] = &[
    (5, "/r: couldn't start the trigger a", true),
    (5, "/r: couldn't start the trigger a", false),
    (5, "/r: couldn't start the trigger b", true),
    (5, "/q: couldn't start the trigger a", true),
    (5, "/r: a crawl failed at /r/d: 13 DeviceFailed", true),
    (5, "/r: a crawl failed at /r/e: 13 DeviceFailed", true),
    (5, "/r: a crawl failed: 16 NoMemory", true),
    (5, "/r: a crawl failed at /r/d: 13 DeviceFailed", false),
    (5, "/r: couldn't start the trigger b", false),
    (5, "", true),
    (5, "", false),
    (6, "/r: couldn't start the trigger a", true),
    (6, "/r: couldn't start the trigger a", false),
    (4, "/r: couldn't start the trigger a", true),
];

fn text(rt: &impl Abort, alloc: Global, text: &str) -> String {
    String::from_str(alloc, text).expect(rt, "memory")
}

fn what(rt: &impl Abort, alloc: Global, case: Case) -> What {
    match case {
        Case::TookSocket(path) => What::TookSocket(text(rt, alloc, path)),
        Case::CrawlFailed(refusal, folder) => {
            What::CrawlFailed(refusal, folder.map(|folder| text(rt, alloc, folder)))
        }
        Case::NotStarted(name, program, cause) => {
            let program = text(rt, alloc, program);
            What::NotStarted(text(rt, alloc, name), StartFault { program, cause })
        }
        Case::Exited(name, status) => What::Exited(text(rt, alloc, name), status),
        Case::Killed(name, signal) => What::Killed(text(rt, alloc, name), signal),
        Case::SessionRefused(refusal) => What::SessionRefused(refusal),
        Case::CutOff => What::CutOff,
        Case::Forgot(tick) => What::Forgot(tick),
        Case::StoreFailed => What::StoreFailed,
    }
}

fn event(
    rt: &impl Abort,
    alloc: Global,
    time: u64,
    root: Option<&'static str>,
    case: Case,
) -> Event {
    Event {
        time,
        root: root.map(|root| text(rt, alloc, root)),
        what: what(rt, alloc, case),
    }
}

fn is_line(rt: &impl Abort, alloc: Global, event: Event, line: &str) -> bool {
    line_of(alloc, &event).expect(rt, "memory").as_str() == line
}

#[test]
fn lines_of_the_table(rt: HostRuntime) {
    let alloc = rt.alloc();
    for (time, root, case, line) in LINES {
        let event = event(&rt, alloc, *time, *root, *case);
        check!(rt; is_line(&rt, alloc, event, line), line);
    }
}

#[test]
fn lets_equal_texts_through_once_a_second(rt: HostRuntime) {
    let mut limiter = LogLimiter::new(rt.alloc());
    for (second, text, wanted) in TURNS {
        let passes = limiter.passes(rt.alloc(), *second, text);
        check!(rt; passes == Ok(*wanted), (second, text));
    }
}

/// A writer that takes nothing.
#[derive(Drop)]
struct Closed;

impl Write for Closed {
    fn write(&mut self, _buf: &[u8]) -> io::Result<usize> {
        Err(io::Error::from(ErrorKind::BrokenPipe))
    }

    fn flush(&mut self) -> io::Result<()> {
        Ok(())
    }
}

/// Events in turn, without a root.
const WRITTEN: &[(u64, Case)] = &[
    (0, Case::NotStarted("a", "x", StartCause::NoFile)),
    (0, Case::NotStarted("b", "x", StartCause::NoFile)),
    (0, Case::NotStarted("a", "x", StartCause::NoFile)),
    (0, Case::NotStarted("a", "x", StartCause::NoPermission)),
    (0, Case::Exited("a", 1)),
    (0, Case::Exited("a", 2)),
    (0, Case::NotStarted("b", "x", StartCause::NoFile)),
    (2, Case::NotStarted("b", "x", StartCause::NoFile)),
];

/// Writes those events, one to a writer that fails, and a later one.
fn write_turns(rt: &impl Abort, alloc: Global, written: &mut Vec<u8>) {
    let mut limiter = LogLimiter::new(alloc);
    for (time, case) in WRITTEN {
        let event = event(rt, alloc, *time, None, *case);
        check!(rt; write_event(alloc, &mut limiter, &event, written).is_ok(), time);
    }
    let lost = event(rt, alloc, 3, None, Case::CutOff);
    let failed = write_event(alloc, &mut limiter, &lost, &mut Closed);
    check!(rt; failed == Err(Refusal::DeviceFailed));
    let later = event(rt, alloc, 4, None, Case::CutOff);
    check!(rt; write_event(alloc, &mut limiter, &later, written).is_ok());
}

#[test]
fn writes_what_is_let_through(rt: HostRuntime) {
    let mut written = Vec::new(rt.alloc());
    write_turns(&rt, rt.alloc(), &mut written);
    let wanted = "1970-01-01T00:00:00Z couldn't start the trigger a: x: no such file\n\
        1970-01-01T00:00:00Z couldn't start the trigger b: x: no such file\n\
        1970-01-01T00:00:00Z couldn't start the trigger a: x: no permission\n\
        1970-01-01T00:00:00Z the trigger a ended with status 1\n\
        1970-01-01T00:00:00Z the trigger a ended with status 2\n\
        1970-01-01T00:00:02Z couldn't start the trigger b: x: no such file\n\
        1970-01-01T00:00:04Z cut off a client that didn't read\n";
    check!(rt; written.as_slice() == wanted.as_bytes());
}

/// The time of the next event; `None` if none waits.
fn next(queue: &mut EventQueue) -> Option<u64> {
    let event = queue.take()?;
    Some(event.time)
}

fn push(rt: &impl Abort, alloc: Global, queue: &mut EventQueue, time: u64) {
    let event = event(rt, alloc, time, None, Case::CutOff);
    queue.push(event).expect(rt, "memory");
}

/// Nothing is taken before it opens, nor once it is closed; what waits then is still handed out.
fn open_and_close(rt: &impl Abort, alloc: Global, queue: &mut EventQueue) {
    push(rt, alloc, queue, 1);
    check!(rt; !queue.must_wait() && next(queue).is_none());
    queue.open();
    check!(rt; queue.must_wait());
    push(rt, alloc, queue, 2);
    push(rt, alloc, queue, 3);
    check!(rt; !queue.must_wait() && next(queue) == Some(2));
    queue.close();
    push(rt, alloc, queue, 4);
    check!(rt; !queue.must_wait() && next(queue) == Some(3));
    check!(rt; next(queue).is_none());
}

/// 1024 events wait at most.
fn fill(rt: &impl Abort, alloc: Global, queue: &mut EventQueue) {
    queue.open();
    for time in 0..1025 {
        push(rt, alloc, queue, time);
    }
    for time in 0..1024 {
        check!(rt; next(queue) == Some(time), time);
    }
    check!(rt; next(queue).is_none());
}

#[test]
fn keeps_events_in_their_order(rt: HostRuntime) {
    let mut queue = EventQueue::new(rt.alloc());
    open_and_close(&rt, rt.alloc(), &mut queue);
    fill(&rt, rt.alloc(), &mut queue);
}
