//! What a watched root forgets by itself, and when.
ghost use Rattle.std.specs.Prelude.{◌≡◌};

use crate::checks::check;
use crate::roots::{At, is_told, meet_line_at, opened_root};
use std::alloc::{Alloc, Global};
use std::marker::Brand;
use std::process::Abort;
use std::sync::Wait;
use wm_front::Viewers;
use wm_lines::Request;
use wm_root::{Change, Retention, WatchedRoot};
use wm_share::{Naming, Opened, Shares};

const LISTS_BOTH: &str =
    "[\"listing\",\"/r\",0,\"\",[[\"a\",{\"type\":\"f\",\"size\":1,\"mtime_ms\":0}],[\"b\",{\"type\":\"f\",\"size\":1,\"mtime_ms\":0}]]]\n";

const A_GOES: &str = "[\"observe\",\"/r\",[[\"a\",null]]]\n";

const B_GOES: &str = "[\"observe\",\"/r\",[[\"b\",null]]]\n";

const NOTHING: &str = "[\"observe\",\"/r\",[]]\n";

const SINCE_1: &str = "[\"query\",\"/r\",{\"since\":\"c:1:5:1\",\"fields\":[\"name\"]}]\n";

const SINCE_2: &str = "[\"query\",\"/r\",{\"since\":\"c:1:5:2\",\"fields\":[\"name\"]}]\n";

const CLOCK_3: &str = "{\"clock\":\"c:1:5:3\",\"version\":\"w1\"}\n";

const ONLY_B: &str =
    "{\"clock\":\"c:1:5:3\",\"files\":[\"b\"],\"is_fresh_instance\":false,\"version\":\"w1\"}\n";

const FRESH: &str =
    "{\"clock\":\"c:1:5:3\",\"files\":[],\"is_fresh_instance\":true,\"version\":\"w1\"}\n";

/// What a root is asked at a second, and what it is told. It forgets what was deleted 10 seconds ago, each 5 seconds: `a` is old
/// enough at 111, and `b` at 114, one second before which and four seconds behind which no interval ends.
const FORGETS: &[(u64, &str, &str)] = &[
    (
        100,
        LISTS_BOTH,
        "{\"clock\":\"c:1:5:1\",\"version\":\"w1\"}\n",
    ),
    (101, A_GOES, "{\"clock\":\"c:1:5:2\",\"version\":\"w1\"}\n"),
    (104, B_GOES, CLOCK_3),
    (106, NOTHING, CLOCK_3),
    (110, NOTHING, CLOCK_3),
    (
        110,
        SINCE_1,
        "{\"clock\":\"c:1:5:3\",\"files\":[\"b\",\"a\"],\"is_fresh_instance\":false,\"version\":\"w1\"}\n",
    ),
    (111, NOTHING, CLOCK_3),
    (111, SINCE_1, FRESH),
    (111, SINCE_2, ONLY_B),
    (115, NOTHING, CLOCK_3),
    (115, SINCE_2, ONLY_B),
    (116, NOTHING, CLOCK_3),
    (116, SINCE_2, FRESH),
];

/// What was deleted 10 seconds ago is forgotten, each 5 seconds.
const SOON: Retention = Retention {
    age_seconds: 10,
    interval_seconds: 5,
};

fn forget_rows<J: Naming, R: Wait + Abort, K: Wait + Drop>(
    rt: &R,
    alloc: Global,
    root: &WatchedRoot<J, K>,
    viewers: &mut Viewers<J>,
) {
    let mut out = Vec::new(alloc);
    for (moment, line, told) in FORGETS {
        out.clear();
        let at = At { moment: *moment };
        let met = meet_line_at(rt, alloc, root, viewers, at, line, &mut out);
        check!(rt; is_told(met, &out, told), line);
    }
}

fn forgets<J: Naming, R: Wait + Abort>(rt: &R, alloc: Global, opened: Opened)
    requires { opened.seen.book ≡ J.book }
{
    let shares: Shares<J> = Shares::new(opened);
    let root = opened_root(rt, alloc, shares, SOON);
    let mut viewers = Viewers::new(alloc);
    forget_rows(rt, alloc, &root, &mut viewers);
    drop(viewers);
    drop(root);
}

/// A deleted file is forgotten once its age has passed, not before, and at most once in an interval.
#[test]
fn deleted_files_are_forgotten(rt: HostRuntime) {
    forgets::<Brand, _>(&rt, rt.alloc(), Opened::new());
}

/// Changes of a root at a second, and the last tick of what each has it forget.
const FORGOTTEN: &[(u64, &str, Option<u64>)] = &[
    (100, LISTS_BOTH, None),
    (101, A_GOES, None),
    (104, B_GOES, None),
    (106, NOTHING, None),
    (110, NOTHING, None),
    (111, NOTHING, Some(2)),
    (115, NOTHING, None),
    (116, NOTHING, Some(3)),
    (121, NOTHING, None),
];

/// The change of a line.
fn change_of(rt: &impl Abort, alloc: Global, line: &str) -> Change {
    match Request::read(alloc, line.as_bytes()).expect(rt, "a request") {
        Request::Observe(_, pairs) => Change::Observe(pairs),
        Request::Listing(_, begun_at, found) => Change::Recrawl(begun_at, found),
        another => {
            drop(another);
            Change::AgeOut(0)
        }
    }
}

fn tell_rows<J: Naming, R: Wait + Abort, K: Wait + Drop>(
    rt: &R,
    alloc: Global,
    root: &WatchedRoot<J, K>,
    viewers: &mut Viewers<J>,
) {
    for (moment, line, forgot) in FORGOTTEN {
        let at = At { moment: *moment };
        let change = change_of(rt, alloc, line);
        let (_, changed) = viewers
            .change(rt, alloc, root, &at, change)
            .expect(rt, "a viewer");
        check!(rt; changed.into_forgot() == *forgot, line);
    }
}

fn tells_forgotten<J: Naming, R: Wait + Abort>(rt: &R, alloc: Global, opened: Opened)
    requires { opened.seen.book ≡ J.book }
{
    let shares: Shares<J> = Shares::new(opened);
    let root = opened_root(rt, alloc, shares, SOON);
    let mut viewers = Viewers::new(alloc);
    tell_rows(rt, alloc, &root, &mut viewers);
    drop(viewers);
    drop(root);
}

/// A change of a root tells up to which tick it had the root forget, once.
#[test]
fn change_tells_what_was_forgotten(rt: HostRuntime) {
    tells_forgotten::<Brand, _>(&rt, rt.alloc(), Opened::new());
}
