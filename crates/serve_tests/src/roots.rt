//! One watched root by itself: what two sessions are told by viewers of their own, and what a root has a limit of.
ghost use Rattle.std.specs.Prelude.{◌≡◌};

use crate::checks::check;
use std::alloc::{Alloc, Global};
use std::marker::Brand;
use std::process::Abort;
use std::sync::Wait;
use wm_disk::Refusal;
use wm_front::Viewers;
use wm_lines::{Request, reply};
use wm_names::RootPath;
use wm_root::{Change, Retention, Seconds, WatchedRoot};
use wm_share::{MAX_VIEWERS, Naming, Opened, Shares, Viewer};
use wm_since::MAX_CURSORS;

/// Lines of two sessions, and what each is told. A root forgets nothing here by itself.
const TOLD: &[(usize, &str, &str)] = &[
    (0, "[\"clock\",\"/r\"]\n", "6 NotReady"),
    (
        0,
        "[\"query\",\"/r\",{\"since\":\"n:x\",\"fields\":[\"name\"]}]\n",
        "6 NotReady",
    ),
    (0, "[\"observe\",\"/r\",[[\"a.c\",null]]]\n", "6 NotReady"),
    (
        0,
        "[\"listing\",\"/r\",0,\"\",[[\"b.c\",{\"type\":\"f\",\"size\":1,\"mtime_ms\":0}],[\"a.c\",{\"type\":\"f\",\"size\":1,\"mtime_ms\":0}]]]\n",
        "{\"clock\":\"c:1:5:1\",\"version\":\"w1\"}\n",
    ),
    (
        1,
        "[\"clock\",\"/r\"]\n",
        "{\"clock\":\"c:1:5:1\",\"version\":\"w1\"}\n",
    ),
    (
        1,
        "[\"query\",\"/r\",{\"since\":\"n:x\",\"fields\":[\"name\"]}]\n",
        "{\"clock\":\"c:1:5:1\",\"files\":[\"a.c\",\"b.c\"],\"is_fresh_instance\":true,\"version\":\"w1\"}\n",
    ),
    (
        0,
        "[\"query\",\"/r\",{\"since\":\"n:x\",\"fields\":[\"name\"]}]\n",
        "{\"clock\":\"c:1:5:1\",\"files\":[],\"is_fresh_instance\":false,\"version\":\"w1\"}\n",
    ),
    (
        0,
        "[\"observe\",\"/r\",[[\"c.c\",{\"type\":\"f\",\"size\":1,\"mtime_ms\":0}],[\"a.c\",null]]]\n",
        "{\"clock\":\"c:1:5:2\",\"version\":\"w1\"}\n",
    ),
    (
        0,
        "[\"query\",\"/r\",{\"since\":\"c:1:5:1\",\"fields\":[\"name\"]}]\n",
        "{\"clock\":\"c:1:5:2\",\"files\":[\"a.c\",\"c.c\"],\"is_fresh_instance\":false,\"version\":\"w1\"}\n",
    ),
    (
        1,
        "[\"query\",\"/r\",{\"since\":\"n:x\",\"fields\":[\"name\"]}]\n",
        "{\"clock\":\"c:1:5:2\",\"files\":[\"a.c\",\"c.c\"],\"is_fresh_instance\":false,\"version\":\"w1\"}\n",
    ),
    (
        1,
        "[\"age-out\",\"/r\",0]\n",
        "{\"floor\":2,\"version\":\"w1\"}\n",
    ),
    (
        0,
        "[\"query\",\"/r\",{\"since\":\"c:1:5:1\",\"fields\":[\"name\"]}]\n",
        "{\"clock\":\"c:1:5:2\",\"files\":[\"c.c\",\"b.c\"],\"is_fresh_instance\":true,\"version\":\"w1\"}\n",
    ),
];

/// When an operation is, in seconds.
#[derive(Clone, Copy)]
pub struct At {
    pub moment: u64,
}

impl Seconds for At {
    ghost may_read = { λ at second. second ≡ at.moment };

    fn second(&self) -> u64 {
        self.moment
    }
}

/// Each operation is at one second.
pub const ALWAYS: At = At { moment: 10 };

/// Nothing is forgotten by itself.
pub const NEVER: Retention = Retention {
    age_seconds: 1_000_000,
    interval_seconds: 1_000_000,
};

/// The watched root 5.
pub fn opened_root<'a, J: Naming, R: Wait + Abort>(
    rt: &'a R,
    alloc: Global,
    mut shares: Shares<J>,
    retention: Retention,
) -> WatchedRoot<J, &'a R> {
    let path = RootPath::read(alloc, "/r").expect(rt, "a path");
    let (keeper, pool) = shares.share(rt, alloc, 1, 5).expect(rt, "a share");
    drop(shares);
    WatchedRoot::new(alloc, &path, 5, keeper, pool, retention).expect(rt, "a root")
}

/// Performs an operation of a session, and tells where the view stands then.
fn operate<J: Naming, R: Wait + Abort, K: Wait + Drop>(
    rt: &R,
    alloc: Global,
    root: &WatchedRoot<J, K>,
    viewers: &mut Viewers<J>,
    at: At,
    change: Change,
    out: &mut Vec<u8>,
) -> Result<(), Refusal> {
    out.try_reserve(reply::PROGRESS_ROOM).expect(rt, "memory");
    let tells_floor = matches!(change, Change::AgeOut(_));
    let (met, changed) = viewers.change(rt, alloc, root, &at, change)?;
    changed.into_forgot();
    let met = met?;
    if tells_floor {
        reply::put_floor(met.floor, out);
    } else {
        reply::put_clock(met.clock, out);
    }
    Ok(())
}

/// Tells the clock that a session sees.
fn tell_clock<J: Naming, R: Wait + Abort, K: Wait + Drop>(
    rt: &R,
    alloc: Global,
    root: &WatchedRoot<J, K>,
    viewers: &mut Viewers<J>,
    out: &mut Vec<u8>,
) -> Result<(), Refusal> {
    out.try_reserve(reply::PROGRESS_ROOM).expect(rt, "memory");
    let clock = viewers.clock(rt, alloc, root)?;
    reply::put_clock(clock, out);
    Ok(())
}

/// Meets a request of the session that has these viewers.
fn meet<J: Naming, R: Wait + Abort, K: Wait + Drop>(
    rt: &R,
    alloc: Global,
    root: &WatchedRoot<J, K>,
    viewers: &mut Viewers<J>,
    at: At,
    request: Request,
    out: &mut Vec<u8>,
) -> Result<(), Refusal> {
    match request {
        Request::Observe(_, pairs) => {
            operate(rt, alloc, root, viewers, at, Change::Observe(pairs), out)
        }
        Request::Listing(_, begun_at, found) => {
            let change = Change::Recrawl(begun_at, found);
            operate(rt, alloc, root, viewers, at, change, out)
        }
        Request::AgeOut(_, age) => operate(rt, alloc, root, viewers, at, Change::AgeOut(age), out),
        Request::Clock(_) => tell_clock(rt, alloc, root, viewers, out),
        Request::Query(_, inquiry) => viewers.inquire(rt, alloc, root, inquiry, out),
        another => {
            drop(another);
            Err(Refusal::BadCommand)
        }
    }
}

/// Meets a line, after which the session's viewer knows of it.
pub fn meet_line<J: Naming, R: Wait + Abort, K: Wait + Drop>(
    rt: &R,
    alloc: Global,
    root: &WatchedRoot<J, K>,
    viewers: &mut Viewers<J>,
    line: &str,
    out: &mut Vec<u8>,
) -> Result<(), Refusal> {
    meet_line_at(rt, alloc, root, viewers, ALWAYS, line, out)
}

/// As [`meet_line`], at a moment.
pub fn meet_line_at<J: Naming, R: Wait + Abort, K: Wait + Drop>(
    rt: &R,
    alloc: Global,
    root: &WatchedRoot<J, K>,
    viewers: &mut Viewers<J>,
    at: At,
    line: &str,
    out: &mut Vec<u8>,
) -> Result<(), Refusal> {
    let request = Request::read(alloc, line.as_bytes())?;
    meet(rt, alloc, root, viewers, at, request, out)?;
    viewers.catch_up(rt, root);
    Ok(())
}

/// What a line is told: its reply, or the refusal.
pub fn is_told(met: Result<(), Refusal>, out: &[u8], told: &str) -> bool {
    match met {
        Ok(()) => out == told.as_bytes(),
        Err(refusal) => refusal.text() == told,
    }
}

/// Asserts that the lines of two sessions are told so.
fn tell_rows<J: Naming, R: Wait + Abort, K: Wait + Drop>(
    rt: &R,
    alloc: Global,
    root: &WatchedRoot<J, K>,
    first: &mut Viewers<J>,
    second: &mut Viewers<J>,
) {
    let mut out = Vec::new(alloc);
    for (session, line, told) in TOLD {
        out.clear();
        let met = if *session == 0 {
            meet_line(rt, alloc, root, first, line, &mut out)
        } else {
            meet_line(rt, alloc, root, second, line, &mut out)
        };
        check!(rt; is_told(met, &out, told), line);
    }
}

fn tells_two_sessions<J: Naming, R: Wait + Abort>(rt: &R, alloc: Global, opened: Opened)
    requires { opened.seen.book ≡ J.book }
{
    let shares: Shares<J> = Shares::new(opened);
    let root = opened_root(rt, alloc, shares, NEVER);
    let mut first = Viewers::new(alloc);
    let mut second = Viewers::new(alloc);
    tell_rows(rt, alloc, &root, &mut first, &mut second);
    drop(second);
    drop(first);
    drop(root);
}

#[test]
fn two_sessions_are_told(rt: HostRuntime) {
    tells_two_sessions::<Brand, _>(&rt, rt.alloc(), Opened::new());
}

/// Moves the cursor of a number to the clock that is told.
fn move_cursor<J: Naming, R: Wait + Abort, K: Wait + Drop>(
    rt: &R,
    alloc: Global,
    root: &WatchedRoot<J, K>,
    viewers: &mut Viewers<J>,
    number: usize,
    out: &mut Vec<u8>,
) {
    let line = format!(in alloc; "[\"since\",\"/r\",\"n:{number}\"]\n").expect(rt, "memory");
    meet_line(rt, alloc, root, viewers, &line, out).expect(rt, "a cursor");
}

/// Moves as many cursors as may be. A further one is refused, and one that is there is moved again.
fn keeps_cursor_limit<J: Naming, R: Wait + Abort, K: Wait + Drop>(
    rt: &R,
    alloc: Global,
    root: &WatchedRoot<J, K>,
    viewers: &mut Viewers<J>,
    out: &mut Vec<u8>,
) {
    let listing = "[\"listing\",\"/r\",0,\"\",[]]\n";
    meet_line(rt, alloc, root, viewers, listing, out).expect(rt, "a listing");
    for number in 0..MAX_CURSORS {
        move_cursor(rt, alloc, root, viewers, number, out);
    }
    let more = "[\"since\",\"/r\",\"n:more\"]\n";
    let refused = meet_line(rt, alloc, root, viewers, more, out);
    assert_eq!(rt; refused, Err(Refusal::TooMany));
    move_cursor(rt, alloc, root, viewers, 7, out);
}

/// All viewers of the pool but the first, which the session has.
fn acquired<J: Naming, R: Wait + Abort, K: Wait + Drop>(
    rt: &R,
    alloc: Global,
    root: &WatchedRoot<J, K>,
) -> Vec<Viewer<J>> {
    let mut acquired = Vec::new(alloc);
    for _ in 1..MAX_VIEWERS {
        let viewer = root.acquire_viewer(rt).expect(rt, "a viewer");
        acquired.push(viewer).expect(rt, "memory");
    }
    acquired
}

/// If no viewer is left another session is refused, until the first one releases its viewer.
fn keeps_viewer_limit<J: Naming, R: Wait + Abort, K: Wait + Drop>(
    rt: &R,
    alloc: Global,
    root: &WatchedRoot<J, K>,
    viewers: Viewers<J>,
    other: &mut Viewers<J>,
    out: &mut Vec<u8>,
) {
    let refused = tell_clock(rt, alloc, root, other, out);
    assert_eq!(rt; refused, Err(Refusal::NoMemory));
    for viewer in viewers.into_vec() {
        root.release_viewer(rt, viewer);
    }
    tell_clock(rt, alloc, root, other, out).expect(rt, "a clock");
}

fn keeps_both_limits<J: Naming, R: Wait + Abort, K: Wait + Drop>(
    rt: &R,
    alloc: Global,
    root: &WatchedRoot<J, K>,
) {
    let mut viewers = Viewers::new(alloc);
    let mut out = Vec::new(alloc);
    keeps_cursor_limit(rt, alloc, root, &mut viewers, &mut out);
    let acquired = acquired(rt, alloc, root);
    let mut other = Viewers::new(alloc);
    keeps_viewer_limit(rt, alloc, root, viewers, &mut other, &mut out);
    drop(other);
    drop(acquired);
}

fn keeps_limits<J: Naming, R: Wait + Abort>(rt: &R, alloc: Global, opened: Opened)
    requires { opened.seen.book ≡ J.book }
{
    let shares: Shares<J> = Shares::new(opened);
    let root = opened_root(rt, alloc, shares, NEVER);
    keeps_both_limits(rt, alloc, &root);
    drop(root);
}

#[test]
fn cursors_and_viewers_have_limits(rt: HostRuntime) {
    keeps_limits::<Brand, _>(&rt, rt.alloc(), Opened::new());
}
