//! Lines of a session over a desk and shared roots, and of one over the front of one thread.
ghost use Rattle.std.specs.Prelude.{◌≡◌};

use crate::checks::check;
use crate::desks::{flush_until, new_desk, new_file};
use crate::watched::Watched;
use std::alloc::{Alloc, Global};
use std::marker::Brand;
use std::process::Abort;
use std::str;
use std::sync::Wait;
use std::sync::atomic::{AtomicU64, Ordering};
use std::thread::{Threads, join};
use wm_disk::MemDisk;
use wm_front::{DeskSeat, SharedFront};
use wm_groupcommit::{ClosePermit, Desk};
use wm_session::{Front, LocalFront, Session};
use wm_share::{Naming, Opened};

/// The lines; the first is given at moment 100, and each later one a second later.
const LINES: &[&str] = &[
    "[\"version\"]\n",
    "nonsense\n",
    "[\"watch-list\"]\n",
    "[\"clock\",\"/r\"]\n",
    "[\"query\",\"/r\",{\"fields\":[\"name\"]}]\n",
    "[\"observe\",\"/r\",[[\"a.c\",null]]]\n",
    "[\"trigger-list\",\"/r\"]\n",
    "[\"unsubscribe\",\"/r\",\"s\"]\n",
    "[\"watch-del\",\"/r\"]\n",
    "[\"watch\",\"/r\"]\n",
    "[\"watch\",\"/r\"]\n",
    "[\"watch\",\"/q\"]\n",
    "[\"watch-list\"]\n",
    "[\"clock\",\"/r\"]\n",
    "[\"observe\",\"/r\",[[\"a.c\",null]]]\n",
    "[\"subscribe\",\"/r\",\"s\",{\"fields\":[\"name\"]}]\n",
    "[\"query\",\"/r\",{\"since\":\"n:x\",\"fields\":[\"name\"]}]\n",
    "[\"listing\",\"/r\",0,\"\",[[\"b.c\",{\"type\":\"f\",\"size\":1,\"mtime_ms\":0}],[\"a.c\",{\"type\":\"f\",\"size\":1,\"mtime_ms\":0}]]]\n",
    "[\"clock\",\"/r\"]\n",
    "[\"subscribe\",\"/r\",\"s\",{\"fields\":[\"name\"]}]\n",
    "[\"query\",\"/r\",{\"since\":\"n:x\",\"fields\":[\"name\"]}]\n",
    "[\"observe\",\"/r\",[[\"c.c\",{\"type\":\"f\",\"size\":1,\"mtime_ms\":0}],[\"a.c\",null]]]\n",
    "[\"query\",\"/r\",{\"since\":\"n:x\",\"fields\":[\"name\"]}]\n",
    "[\"query\",\"/r\",{\"since\":\"c:1:1:1\",\"fields\":[\"name\",\"exists\"]}]\n",
    "[\"since\",\"/r\",\"110\"]\n",
    "[\"since\",\"/r\",\"5000\"]\n",
    "[\"listing\",\"/r\",9,\"\",[]]\n",
    "[\"age-out\",\"/r\",0]\n",
    "[\"query\",\"/r\",{\"since\":\"c:1:1:1\",\"fields\":[\"name\"]}]\n",
    "[\"subscribe\",\"/r\",\"t\",{\"since\":\"n:x\",\"fields\":[\"name\"]}]\n",
    "[\"observe\",\"/r\",[[\"d.c\",{\"type\":\"f\",\"size\":1,\"mtime_ms\":0}]]]\n",
    "[\"unsubscribe\",\"/r\",\"s\"]\n",
    "[\"unsubscribe\",\"/r\",\"s\"]\n",
    "[\"trigger\",\"/r\",{\"name\":\"t\",\"command\":[\"true\"]}]\n",
    "[\"trigger\",\"/r\",{\"name\":\"t\",\"command\":[\"true\"]}]\n",
    "[\"trigger\",\"/r\",{\"name\":\"t\",\"command\":[\"false\"]}]\n",
    "[\"trigger-list\",\"/r\"]\n",
    "[\"trigger-del\",\"/r\",\"t\"]\n",
    "[\"trigger-del\",\"/r\",\"t\"]\n",
    "[\"watch-del\",\"/r\"]\n",
    "[\"query\",\"/r\",{\"fields\":[\"name\"]}]\n",
    "[\"watch\",\"/r\"]\n",
    "[\"clock\",\"/r\"]\n",
    "[\"listing\",\"/r\",0,\"\",[]]\n",
    "[\"query\",\"/r\",{\"since\":\"c:1:1:1\",\"fields\":[\"name\"]}]\n",
    "[\"watch-list\"]\n",
];

/// What a session replies to the lines, none of which is given before a moment.
fn replies_of<F: Front>(
    rt: &impl Abort,
    alloc: Global,
    session: &mut Session<F>,
    earliest: u64,
) -> Vec<u8> {
    let mut out = Vec::new(alloc);
    let mut moment: u64 = 100;
    for line in LINES {
        let faults = session.line(alloc, moment.max(earliest), line.as_bytes(), &mut out);
        check!(rt; faults == Ok(0), line);
        moment = moment.saturating_add(1);
    }
    out
}

/// The text of replies.
fn text(bytes: &[u8]) -> &str {
    str::from_utf8(bytes).unwrap_or("no text")
}

/// What the front of one thread replies to lines that are given no earlier than that second.
fn alone(rt: &impl Abort, alloc: Global, second: u64) -> Vec<u8> {
    let front = LocalFront::open(alloc, new_file(rt, alloc)).ok();
    let mut session = Session::new(alloc, front.expect(rt, "a front"));
    let replies = replies_of(rt, alloc, &mut session, second);
    drop(session);
    replies
}

/// What a session replies over a desk and roots that many share, if the roots are changed at that second or later.
fn shared<J: Naming, R: Wait + Abort>(
    rt: &R,
    alloc: Global,
    desk: &Desk<MemDisk>,
    second: u64,
    opened: Opened,
) -> Vec<u8>
    requires { opened.seen.book ≡ J.book }
{
    let roots: Watched<J, &R> = Watched::new(alloc, rt, second, opened);
    let front = SharedFront::new(rt, alloc, DeskSeat::new(desk), &roots);
    let mut session = Session::new(alloc, front);
    let replies = replies_of(rt, alloc, &mut session, 0);
    drop(session);
    drop(roots);
    replies
}

/// As `shared`, over a log of its own. Then the desk is closed.
fn shared_alone<R: Wait + Abort>(
    rt: &R,
    alloc: Global,
    desk: &Desk<MemDisk>,
    permit: ClosePermit,
    ends: &AtomicU64,
    second: u64,
) -> Vec<u8> {
    let replies = shared::<Brand, _>(rt, alloc, desk, second, Opened::new());
    ends.store(1, Ordering::SeqCst);
    let closed = desk.close(rt, permit);
    drop(closed.ok());
    replies
}

/// Checks that both fronts reply the same if the roots are changed at that second or later.
fn reply_the_same<R: Threads + Wait + Abort + Sync>(rt: &R, alloc: Global, second: u64) {
    let (desk, permit) = new_desk(rt, alloc);
    let ends = AtomicU64::new(0);
    let (own, end) = (&desk, &ends);
    let ((), replies) = join(
        rt,
        || flush_until(rt, own, end),
        || shared_alone(rt, alloc, own, permit, end, second),
    );
    drop(desk.into_store());
    let wanted = alone(rt, alloc, second);
    check!(rt; replies == wanted, (text(&replies), text(&wanted)));
}

#[test]
fn lines_are_answered_as_by_one_thread(rt: HostRuntime) {
    reply_the_same(&rt, rt.alloc(), 0);
}

#[test]
fn roots_are_changed_when_it_is_their_turn(rt: HostRuntime) {
    reply_the_same(&rt, rt.alloc(), 5_000);
}
