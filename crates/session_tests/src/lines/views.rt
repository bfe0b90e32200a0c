//! Sessions with listings, observations and questions, with their lines and replies written out.
use super::triggers::store_with;
use crate::ends::{Row, WATCHES_R, assert_rows, assert_session};
use std::alloc::Global;
use std::process::Abort;
use wm_disk::{Crashed, MemDisk};
use wm_names::RootPath;
use wm_registry::Command;

/// From the first watch of a root to the deleted file that comes back.
const FIRST_SESSION: &[Row<'static>] = &[
    (r#"["watch","/r"]"#, r#"{"version":"w1","watch":"/r"}"#),
    (r#"["watch-list"]"#, r#"{"roots":["/r"],"version":"w1"}"#),
    (
        r#"["since","/r","c:1:1:1"]"#,
        r#"{"error":"6 NotReady","version":"w1"}"#,
    ),
    (
        r#"["clock","/r"]"#,
        r#"{"error":"6 NotReady","version":"w1"}"#,
    ),
    (
        r#"["observe","/r",[["a.c",{"mtime_ms":0,"size":3,"type":"f"}]]]"#,
        r#"{"error":"6 NotReady","version":"w1"}"#,
    ),
    (
        r#"["listing","/r",0,"",[]]"#,
        r#"{"clock":"c:1:1:1","version":"w1"}"#,
    ),
    (r#"["clock","/r"]"#, r#"{"clock":"c:1:1:1","version":"w1"}"#),
    (
        r#"["observe","/r",[["a.c",{"mtime_ms":0,"size":3,"type":"f"}]]]"#,
        r#"{"clock":"c:1:1:2","version":"w1"}"#,
    ),
    (
        r#"["observe","/r",[["b.c",{"mtime_ms":0,"size":4,"type":"f"}]]]"#,
        r#"{"clock":"c:1:1:3","version":"w1"}"#,
    ),
    (
        r#"["since","/r","c:1:1:1"]"#,
        r#"{"clock":"c:1:1:3","files":[{"exists":true,"name":"b.c","new":true,"size":4},{"exists":true,"name":"a.c","new":true,"size":3}],"is_fresh_instance":false,"version":"w1"}"#,
    ),
    // What is observed again changes nothing.
    (
        r#"["observe","/r",[["b.c",{"mtime_ms":0,"size":4,"type":"f"}]]]"#,
        r#"{"clock":"c:1:1:3","version":"w1"}"#,
    ),
    (
        r#"["since","/r","c:1:1:3"]"#,
        r#"{"clock":"c:1:1:3","files":[],"is_fresh_instance":false,"version":"w1"}"#,
    ),
    // Odd clocks, and one above the present tick.
    (r#"["since","/r","c:01:1:1"]"#, FRESH),
    (r#"["since","/r","c:1:1"]"#, FRESH),
    (r#"["since","/r","c:9:9:9"]"#, FRESH),
    (r#"["since","/r","c:1:1:4"]"#, FRESH),
    (r#"["since","/r","c:2:1:3"]"#, FRESH),
    (r#"["since","/r","c:1:2:3"]"#, FRESH),
    (
        r#"["since","/r","x:1"]"#,
        r#"{"error":"7 BadClock","version":"w1"}"#,
    ),
    (
        r#"["since","/r","n:"]"#,
        r#"{"error":"7 BadClock","version":"w1"}"#,
    ),
];

fn first_session() -> &'static [Row<'static>] {
    FIRST_SESSION
}

/// A cursor, and files that go and come back.
const FIRST_CHANGES: &[Row<'static>] = &[
    // A cursor that isn't there yet, and the same again.
    (r#"["since","/r","n:x"]"#, FRESH),
    (
        r#"["since","/r","n:x"]"#,
        r#"{"clock":"c:1:1:3","files":[],"is_fresh_instance":false,"version":"w1"}"#,
    ),
    // A file that comes and goes, and one that is deleted.
    (
        r#"["observe","/r",[["t",{"mtime_ms":0,"size":1,"type":"f"}]]]"#,
        r#"{"clock":"c:1:1:4","version":"w1"}"#,
    ),
    (
        r#"["observe","/r",[["a.c",null]]]"#,
        r#"{"clock":"c:1:1:5","version":"w1"}"#,
    ),
    (
        r#"["observe","/r",[["t",null]]]"#,
        r#"{"clock":"c:1:1:6","version":"w1"}"#,
    ),
    (
        r#"["since","/r","c:1:1:3"]"#,
        r#"{"clock":"c:1:1:6","files":[{"exists":false,"name":"t","new":true,"size":1},{"exists":false,"name":"a.c","new":false,"size":3}],"is_fresh_instance":false,"version":"w1"}"#,
    ),
    // The deleted file comes back, and is new again.
    (
        r#"["observe","/r",[["a.c",{"mtime_ms":0,"size":5,"type":"f"}]]]"#,
        r#"{"clock":"c:1:1:7","version":"w1"}"#,
    ),
    (
        r#"["since","/r","c:1:1:4"]"#,
        r#"{"clock":"c:1:1:7","files":[{"exists":true,"name":"a.c","new":true,"size":5},{"exists":false,"name":"t","new":false,"size":1}],"is_fresh_instance":false,"version":"w1"}"#,
    ),
    (
        r#"["since","/r","c:1:1:7"]"#,
        r#"{"clock":"c:1:1:7","files":[],"is_fresh_instance":false,"version":"w1"}"#,
    ),
];

fn first_changes() -> &'static [Row<'static>] {
    FIRST_CHANGES
}

/// The fresh answer while `b.c` and `a.c` exist.
const FRESH: &str =
    r#"{"clock":"c:1:1:3","files":[{"exists":true,"name":"b.c","new":true,"size":4},{"exists":true,"name":"a.c","new":true,"size":3}],"is_fresh_instance":true,"version":"w1"}"#;

/// Two roots, a second listing, and a start that knows the clocks of the one before.
const TWO_ROOTS: &[Row<'static>] = &[
    (r#"["watch","/s"]"#, r#"{"version":"w1","watch":"/s"}"#),
    (
        r#"["listing","/s",0,"",[["x",{"mtime_ms":7,"size":0,"type":"d"}],["x/y",{"mtime_ms":8,"size":2,"type":"l"}]]]"#,
        r#"{"clock":"c:2:2:1","version":"w1"}"#,
    ),
    // read while nothing had changed, so it says all
    (
        r#"["listing","/s",1,"",[["x",{"mtime_ms":7,"size":0,"type":"d"}],["x/y",{"mtime_ms":8,"size":2,"type":"l"}]]]"#,
        r#"{"clock":"c:2:2:1","version":"w1"}"#,
    ),
    (
        r#"["listing","/r",0,"",[["a.c",{"mtime_ms":0,"size":3,"type":"f"}]]]"#,
        r#"{"clock":"c:2:1:1","version":"w1"}"#,
    ),
    (
        r#"["since","/r","c:1:1:3"]"#,
        r#"{"clock":"c:2:1:1","files":[{"exists":true,"name":"a.c","new":true,"size":3}],"is_fresh_instance":true,"version":"w1"}"#,
    ),
    (
        r#"["since","/s","c:2:1:1"]"#,
        r#"{"clock":"c:2:2:1","files":[{"exists":true,"name":"x","new":true,"size":0},{"exists":true,"name":"x/y","new":true,"size":2}],"is_fresh_instance":true,"version":"w1"}"#,
    ),
    (
        r#"["observe","/s",[["x/y",null],["x",null],["x",{"mtime_ms":9,"size":0,"type":"d"}]]]"#,
        r#"{"clock":"c:2:2:2","version":"w1"}"#,
    ),
    (
        r#"["since","/s","c:2:2:1"]"#,
        r#"{"clock":"c:2:2:2","files":[{"exists":true,"name":"x","new":false,"size":0},{"exists":false,"name":"x/y","new":false,"size":2}],"is_fresh_instance":false,"version":"w1"}"#,
    ),
    (r#"["clock","/r"]"#, r#"{"clock":"c:2:1:1","version":"w1"}"#),
];

fn two_roots() -> &'static [Row<'static>] {
    TWO_ROOTS
}

#[test]
fn answers_what_is_seen(rt: HostRuntime) {
    let alloc = rt.alloc();
    let first = [first_session(), first_changes()];
    assert_session(&rt, alloc, &[], &first, WATCHES_R, "the first session");
    let earlier = ["[\"watch\",\"/r\"]\n"];
    let used = b"\xa5\x00\xa5\x01\x00\x00\x00\x02/r\xa5\x00\xa5\x01\x00\x00\x00\x02/s\x00";
    assert_session(&rt, alloc, &earlier, &[two_roots()], used, "two roots");
}

/// The file that a killed process leaves, which had watched a root and wasn't closed.
fn file_left(rt: &impl Abort, alloc: Global) -> MemDisk {
    let root = RootPath::read(alloc, "/r").expect(rt, "a path");
    let batch = vec![in alloc; Command::Watch(root)].expect(rt, "memory");
    let store = store_with(rt, alloc, batch);
    store.into_disk().stop()
}

/// A start on the file of a process that was killed is another incarnation: each older clock is fresh.
const AFTER_A_KILL: &[Row<'static>] = &[
    (
        r#"["listing","/r",0,"",[["a.c",{"mtime_ms":0,"size":3,"type":"f"}]]]"#,
        r#"{"clock":"c:2:1:1","version":"w1"}"#,
    ),
    (
        r#"["since","/r","c:1:1:3"]"#,
        r#"{"clock":"c:2:1:1","files":[{"exists":true,"name":"a.c","new":true,"size":3}],"is_fresh_instance":true,"version":"w1"}"#,
    ),
];

#[test]
fn starts_again_after_a_kill(rt: HostRuntime) {
    let disk = file_left(&rt, rt.alloc());
    let used = b"\xa5\x00\xa5\x01\x00\x00\x00\x02/r\xa5\x00\x00";
    assert_rows(
        &rt,
        rt.alloc(),
        disk,
        &[AFTER_A_KILL],
        used,
        "a killed process",
    );
}
