//! A session's subscriptions and viewers, as another session deletes a root and watches it anew.
ghost use Rattle.std.specs.Prelude.{◌≡◌};

use crate::checks::check;
use crate::desks::{flush_until, new_desk};
use crate::watched::Watched;
use std::alloc::{Alloc, Global};
use std::marker::Brand;
use std::process::Abort;
use std::str;
use std::sync::Wait;
use std::sync::atomic::{AtomicU64, Ordering};
use std::thread::{Threads, join};
use wm_disk::MemDisk;
use wm_front::{DeskSeat, Roots, SharedFront, drop_ended, end_subscriptions};
use wm_groupcommit::{ClosePermit, Desk};
use wm_names::RootPath;
use wm_session::{Front, Session};
use wm_share::{Naming, Opened};

/// Two roots with a subscription on each.
const BEGUN: &[&str] = &[
    "[\"watch\",\"/r\"]\n",
    "[\"watch\",\"/q\"]\n",
    "[\"listing\",\"/r\",0,\"\",[]]\n",
    "[\"listing\",\"/q\",0,\"\",[]]\n",
    "[\"subscribe\",\"/q\",\"s\",{\"fields\":[\"name\"]}]\n",
    "[\"subscribe\",\"/r\",\"s\",{\"fields\":[\"name\"]}]\n",
];

const DELETED: &[&str] = &["[\"watch-del\",\"/r\"]\n"];

const OTHER_DELETED: &[&str] = &["[\"watch-del\",\"/q\"]\n"];

const ANEW: &[&str] = &["[\"watch\",\"/r\"]\n", "[\"listing\",\"/r\",0,\"\",[]]\n"];

const CLOCK: &[&str] = &["[\"clock\",\"/r\"]\n"];

const SUBSCRIBED: &[&str] = &["[\"subscribe\",\"/r\",\"s\",{\"fields\":[\"name\"]}]\n"];

/// What a session replies to lines.
fn replies<F: Front>(
    rt: &impl Abort,
    alloc: Global,
    session: &mut Session<F>,
    lines: &[&str],
) -> Vec<u8> {
    let mut out = Vec::new(alloc);
    for line in lines {
        let faults = session.line(alloc, 100, line.as_bytes(), &mut out);
        check!(rt; faults == Ok(0), line);
    }
    out
}

/// Whether a session replies so to a line.
fn replies_so<F: Front>(
    rt: &impl Abort,
    alloc: Global,
    session: &mut Session<F>,
    line: &[&str],
    wanted: &str,
) {
    let out = replies(rt, alloc, session, line);
    let is = out.as_slice() == wanted.as_bytes();
    check!(rt; is, str::from_utf8(&out).unwrap_or("no text"));
}

/// Ends what has ended, and whether so many subscriptions are left.
fn are_left<F: Front, H: Roots<J, K>, J: Naming, K: Wait + Drop, R: Wait + Abort>(
    rt: &R,
    alloc: Global,
    roots: &H,
    session: &mut Session<F>,
    count: usize,
) {
    let ended = end_subscriptions(rt, alloc, roots, session);
    check!(rt; ended.is_ok());
    let left = session.subscriptions().len();
    check!(rt; left == count, left);
}

/// A session subscribes to two roots.
fn subscribes<F: Front, H: Roots<J, K>, J: Naming, K: Wait + Drop, R: Wait + Abort>(
    rt: &R,
    alloc: Global,
    roots: &H,
    own: &mut Session<F>,
) {
    drop(replies(rt, alloc, own, BEGUN));
    are_left(rt, alloc, roots, own, 2);
}

/// A session sees that another one has deleted a root.
fn sees_a_root_gone<F: Front, H: Roots<J, K>, J: Naming, K: Wait + Drop, R: Wait + Abort>(
    rt: &R,
    alloc: Global,
    roots: &H,
    own: &mut Session<F>,
) {
    are_left(rt, alloc, roots, own, 1);
    replies_so(
        rt,
        alloc,
        own,
        CLOCK,
        "{\"error\":\"5 NotWatched\",\"version\":\"w1\"}\n",
    );
}

/// A session sees that another one has watched a root anew, and subscribes to that.
fn sees_a_new_root<F: Front, H: Roots<J, K>, J: Naming, K: Wait + Drop, R: Wait + Abort>(
    rt: &R,
    alloc: Global,
    roots: &H,
    own: &mut Session<F>,
) {
    replies_so(
        rt,
        alloc,
        own,
        CLOCK,
        "{\"clock\":\"c:1:3:1\",\"version\":\"w1\"}\n",
    );
    drop(replies(rt, alloc, own, SUBSCRIBED));
    are_left(rt, alloc, roots, own, 2);
}

/// A session sees that another one has deleted a root and watched it anew.
fn sees_another_root<F: Front, H: Roots<J, K>, J: Naming, K: Wait + Drop, R: Wait + Abort>(
    rt: &R,
    alloc: Global,
    roots: &H,
    own: &mut Session<F>,
) {
    are_left(rt, alloc, roots, own, 1);
    replies_so(
        rt,
        alloc,
        own,
        CLOCK,
        "{\"clock\":\"c:1:4:1\",\"version\":\"w1\"}\n",
    );
}

/// A root with a file.
const LISTED: &[&str] = &[
    "[\"watch\",\"/r\"]\n",
    "[\"listing\",\"/r\",0,\"\",[[\"a.c\",{\"type\":\"f\",\"size\":1,\"mtime_ms\":0}]]]\n",
];

/// Another root takes the place of the one that a subscription was answered on, before its first line: no line is sent, and the
/// subscription ends.
fn holds_the_first_line_back<J: Naming, R: Wait + Abort>(
    rt: &R,
    alloc: Global,
    desk: &Desk<MemDisk>,
    opened: Opened,
)
    requires { opened.seen.book ≡ J.book }
{
    let roots: Watched<J, &R> = Watched::new(alloc, rt, 0, opened);
    let front = SharedFront::new(rt, alloc, DeskSeat::new(desk), &roots);
    let mut own = Session::new(alloc, front);
    drop(replies(rt, alloc, &mut own, LISTED));
    let path = RootPath::read(alloc, "/r").expect(rt, "a root path");
    check!(rt; roots.replace_after(rt, alloc, &path, 1).is_some());
    drop(path);
    replies_so(
        rt,
        alloc,
        &mut own,
        SUBSCRIBED,
        "{\"clock\":\"c:1:1:1\",\"subscribe\":\"s\",\"version\":\"w1\"}\n",
    );
    replies_so(
        rt,
        alloc,
        &mut own,
        CLOCK,
        "{\"clock\":\"c:1:2:1\",\"version\":\"w1\"}\n",
    );
    are_left(rt, alloc, &roots, &mut own, 0);
    drop(own);
    drop(roots);
}

/// As `holds_the_first_line_back`, over a log of its own. Then the desk is closed.
fn held_back_alone<R: Wait + Abort>(
    rt: &R,
    alloc: Global,
    desk: &Desk<MemDisk>,
    permit: ClosePermit,
    ends: &AtomicU64,
) {
    holds_the_first_line_back::<Brand, _>(rt, alloc, desk, Opened::new());
    ends.store(1, Ordering::SeqCst);
    let closed = desk.close(rt, permit);
    drop(closed.ok());
}

/// Both sessions over one desk and its roots.
fn both<J: Naming, R: Wait + Abort>(rt: &R, alloc: Global, desk: &Desk<MemDisk>, opened: Opened)
    requires { opened.seen.book ≡ J.book }
{
    let roots: Watched<J, &R> = Watched::new(alloc, rt, 0, opened);
    let front = SharedFront::new(rt, alloc, DeskSeat::new(desk), &roots);
    let mut own = Session::new(alloc, front);
    let front = SharedFront::new(rt, alloc, DeskSeat::new(desk), &roots);
    let mut other = Session::new(alloc, front);
    subscribes(rt, alloc, &roots, &mut own);
    drop(replies(rt, alloc, &mut other, DELETED));
    sees_a_root_gone(rt, alloc, &roots, &mut own);
    drop_ended(rt, alloc, &mut own);
    drop(replies(rt, alloc, &mut other, ANEW));
    sees_a_new_root(rt, alloc, &roots, &mut own);
    drop(replies(rt, alloc, &mut other, DELETED));
    drop(replies(rt, alloc, &mut other, ANEW));
    sees_another_root(rt, alloc, &roots, &mut own);
    drop(replies(rt, alloc, &mut other, OTHER_DELETED));
    drop_ended(rt, alloc, &mut own);
    check!(rt; own.subscriptions().is_empty());
    drop(other);
    drop(own);
    drop(roots);
}

/// As `both`, over a log of its own. Then the desk is closed.
fn both_alone<R: Wait + Abort>(
    rt: &R,
    alloc: Global,
    desk: &Desk<MemDisk>,
    permit: ClosePermit,
    ends: &AtomicU64,
) {
    both::<Brand, _>(rt, alloc, desk, Opened::new());
    ends.store(1, Ordering::SeqCst);
    let closed = desk.close(rt, permit);
    drop(closed.ok());
}

/// Both sessions in a thread, beside one that commits what they submit.
fn subscriptions_end<R: Threads + Wait + Abort + Sync>(rt: &R, alloc: Global) {
    let (desk, permit) = new_desk(rt, alloc);
    let ends = AtomicU64::new(0);
    let (own, end) = (&desk, &ends);
    let ((), ()) = join(
        rt,
        || flush_until(rt, own, end),
        || both_alone(rt, alloc, own, permit, end),
    );
    drop(desk.into_store());
}

#[test]
fn subscriptions_end_with_their_root(rt: HostRuntime) {
    subscriptions_end(&rt, rt.alloc());
}

/// A session in a thread, beside one that commits what it submits.
fn first_line_is_held_back<R: Threads + Wait + Abort + Sync>(rt: &R, alloc: Global) {
    let (desk, permit) = new_desk(rt, alloc);
    let ends = AtomicU64::new(0);
    let (own, end) = (&desk, &ends);
    let ((), ()) = join(
        rt,
        || flush_until(rt, own, end),
        || held_back_alone(rt, alloc, own, permit, end),
    );
    drop(desk.into_store());
}

#[test]
fn another_root_of_the_path_sends_no_first_line(rt: HostRuntime) {
    first_line_is_held_back(&rt, rt.alloc());
}
