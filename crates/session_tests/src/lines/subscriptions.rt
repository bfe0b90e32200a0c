//! Sessions with subscriptions, with their lines and all that is told written out.
use super::queries::two_files;
use crate::ends::{ACCEPTED, Row, assert_session};

/// A subscription is told what changed since its clock, after each reply and until its name is ended.
const SUBSCRIBED: &[Row<'static>] = &[
    (
        r#"["subscribe","/r","s",{"fields":["name"],"since":"c:1:1:2"}]"#,
        r#"{"clock":"c:1:1:3","subscribe":"s","version":"w1"}
{"clock":"c:1:1:3","files":["b.c"],"is_fresh_instance":false,"root":"/r","subscription":"s","unilateral":true,"version":"w1"}"#,
    ),
    (
        r#"["observe","/r",[["a.c",null]]]"#,
        r#"{"clock":"c:1:1:4","version":"w1"}
{"clock":"c:1:1:4","files":["a.c"],"is_fresh_instance":false,"root":"/r","subscription":"s","unilateral":true,"version":"w1"}"#,
    ),
    // Nothing changed since it was told.
    (r#"["clock","/r"]"#, r#"{"clock":"c:1:1:4","version":"w1"}"#),
    (
        r#"["unsubscribe","/r","s"]"#,
        r#"{"deleted":true,"unsubscribe":"s","version":"w1"}"#,
    ),
    (
        r#"["unsubscribe","/r","s"]"#,
        r#"{"deleted":false,"unsubscribe":"s","version":"w1"}"#,
    ),
    (
        r#"["observe","/r",[["c.c",{"mtime_ms":0,"size":5,"type":"f"}]]]"#,
        r#"{"clock":"c:1:1:5","version":"w1"}"#,
    ),
];

fn subscribed() -> &'static [Row<'static>] {
    SUBSCRIBED
}

/// The first answer is told even where it lists no file, and so is a fresh one; another without files isn't.
const FRESH: &[Row<'static>] = &[
    (
        r#"["subscribe","/r","s",{"expression":["suffix","c"],"fields":["name"],"since":"c:1:1:3"}]"#,
        r#"{"clock":"c:1:1:3","subscribe":"s","version":"w1"}
{"clock":"c:1:1:3","files":[],"is_fresh_instance":false,"root":"/r","subscription":"s","unilateral":true,"version":"w1"}"#,
    ),
    (
        r#"["observe","/r",[["README",{"mtime_ms":0,"size":0,"type":"f"}]]]"#,
        r#"{"clock":"c:1:1:4","version":"w1"}"#,
    ),
    (
        r#"["observe","/r",[["README",null]]]"#,
        r#"{"clock":"c:1:1:5","version":"w1"}"#,
    ),
    // What it was told of is older than what is forgotten.
    (
        r#"["age-out","/r",0]"#,
        r#"{"floor":5,"version":"w1"}
{"clock":"c:1:1:5","files":["b.c","a.c"],"is_fresh_instance":true,"root":"/r","subscription":"s","unilateral":true,"version":"w1"}"#,
    ),
    (
        r#"["subscribe","/r","e",{"empty_on_fresh_instance":true}]"#,
        r#"{"clock":"c:1:1:5","subscribe":"e","version":"w1"}
{"clock":"c:1:1:5","files":[],"is_fresh_instance":true,"root":"/r","subscription":"e","unilateral":true,"version":"w1"}"#,
    ),
    (
        r#"["observe","/r",[["b.c",null]]]"#,
        r#"{"clock":"c:1:1:6","version":"w1"}
{"clock":"c:1:1:6","files":["b.c"],"is_fresh_instance":false,"root":"/r","subscription":"s","unilateral":true,"version":"w1"}
{"clock":"c:1:1:6","files":[{"exists":false,"name":"b.c","new":false,"size":4}],"is_fresh_instance":false,"root":"/r","subscription":"e","unilateral":true,"version":"w1"}"#,
    ),
];

fn fresh() -> &'static [Row<'static>] {
    FRESH
}

/// Several are told in the order of subscribing, and one that is replaced stands last.
const IN_ORDER: &[Row<'static>] = &[
    (
        r#"["subscribe","/r","p",{"fields":["name"],"since":"c:1:1:3"}]"#,
        r#"{"clock":"c:1:1:3","subscribe":"p","version":"w1"}
{"clock":"c:1:1:3","files":[],"is_fresh_instance":false,"root":"/r","subscription":"p","unilateral":true,"version":"w1"}"#,
    ),
    (
        r#"["subscribe","/r","q",{"fields":["size"],"since":"c:1:1:3"}]"#,
        r#"{"clock":"c:1:1:3","subscribe":"q","version":"w1"}
{"clock":"c:1:1:3","files":[],"is_fresh_instance":false,"root":"/r","subscription":"q","unilateral":true,"version":"w1"}"#,
    ),
    (
        r#"["observe","/r",[["d.c",{"mtime_ms":0,"size":6,"type":"f"}]]]"#,
        r#"{"clock":"c:1:1:4","version":"w1"}
{"clock":"c:1:1:4","files":["d.c"],"is_fresh_instance":false,"root":"/r","subscription":"p","unilateral":true,"version":"w1"}
{"clock":"c:1:1:4","files":[6],"is_fresh_instance":false,"root":"/r","subscription":"q","unilateral":true,"version":"w1"}"#,
    ),
    (
        r#"["subscribe","/r","p",{"fields":["exists"],"since":"c:1:1:4"}]"#,
        r#"{"clock":"c:1:1:4","subscribe":"p","version":"w1"}
{"clock":"c:1:1:4","files":[],"is_fresh_instance":false,"root":"/r","subscription":"p","unilateral":true,"version":"w1"}"#,
    ),
    (
        r#"["observe","/r",[["d.c",null]]]"#,
        r#"{"clock":"c:1:1:5","version":"w1"}
{"clock":"c:1:1:5","files":[6],"is_fresh_instance":false,"root":"/r","subscription":"q","unilateral":true,"version":"w1"}
{"clock":"c:1:1:5","files":[false],"is_fresh_instance":false,"root":"/r","subscription":"p","unilateral":true,"version":"w1"}"#,
    ),
];

fn in_order() -> &'static [Row<'static>] {
    IN_ORDER
}

/// A cursor stands for its clock at the line of the subscription, and one that isn't there for none; neither moves.
const BY_CURSOR: &[Row<'static>] = &[
    (
        r#"["query","/r",{"fields":["name"],"since":"n:k"}]"#,
        r#"{"clock":"c:1:1:3","files":["b.c","a.c"],"is_fresh_instance":true,"version":"w1"}"#,
    ),
    (
        r#"["observe","/r",[["e.c",{"mtime_ms":0,"size":1,"type":"f"}]]]"#,
        r#"{"clock":"c:1:1:4","version":"w1"}"#,
    ),
    (
        r#"["subscribe","/r","s",{"fields":["name"],"since":"n:k"}]"#,
        r#"{"clock":"c:1:1:4","subscribe":"s","version":"w1"}
{"clock":"c:1:1:4","files":["e.c"],"is_fresh_instance":false,"root":"/r","subscription":"s","unilateral":true,"version":"w1"}"#,
    ),
    (
        r#"["subscribe","/r","u",{"fields":["name"],"since":"n:u"}]"#,
        r#"{"clock":"c:1:1:4","subscribe":"u","version":"w1"}
{"clock":"c:1:1:4","files":["e.c","b.c","a.c"],"is_fresh_instance":true,"root":"/r","subscription":"u","unilateral":true,"version":"w1"}"#,
    ),
    (
        r#"["query","/r",{"fields":["name"],"since":"n:k"}]"#,
        r#"{"clock":"c:1:1:4","files":["e.c"],"is_fresh_instance":false,"version":"w1"}"#,
    ),
    (
        r#"["query","/r",{"fields":["name"],"since":"n:u"}]"#,
        r#"{"clock":"c:1:1:4","files":["e.c","b.c","a.c"],"is_fresh_instance":true,"version":"w1"}"#,
    ),
];

fn by_cursor() -> &'static [Row<'static>] {
    BY_CURSOR
}

/// Each root has its own, under one name too; those of a root end with its watch, and no line tells it.
const OF_TWO_ROOTS: &[Row<'static>] = &[
    (r#"["watch","/s"]"#, r#"{"version":"w1","watch":"/s"}"#),
    (
        r#"["listing","/s",0,"",[]]"#,
        r#"{"clock":"c:1:2:1","version":"w1"}"#,
    ),
    (
        r#"["subscribe","/r","a\"b",{"fields":["name"],"since":"c:1:1:3"}]"#,
        r#"{"clock":"c:1:1:3","subscribe":"a\"b","version":"w1"}
{"clock":"c:1:1:3","files":[],"is_fresh_instance":false,"root":"/r","subscription":"a\"b","unilateral":true,"version":"w1"}"#,
    ),
    (
        r#"["subscribe","/s","a\"b",{"fields":["name"],"since":"c:1:2:1"}]"#,
        r#"{"clock":"c:1:2:1","subscribe":"a\"b","version":"w1"}
{"clock":"c:1:2:1","files":[],"is_fresh_instance":false,"root":"/s","subscription":"a\"b","unilateral":true,"version":"w1"}"#,
    ),
    (
        r#"["observe","/s",[["x",{"mtime_ms":0,"size":1,"type":"f"}]]]"#,
        r#"{"clock":"c:1:2:2","version":"w1"}
{"clock":"c:1:2:2","files":["x"],"is_fresh_instance":false,"root":"/s","subscription":"a\"b","unilateral":true,"version":"w1"}"#,
    ),
    (
        r#"["observe","/r",[["x",{"mtime_ms":0,"size":1,"type":"f"}]]]"#,
        r#"{"clock":"c:1:1:4","version":"w1"}
{"clock":"c:1:1:4","files":["x"],"is_fresh_instance":false,"root":"/r","subscription":"a\"b","unilateral":true,"version":"w1"}"#,
    ),
    (
        r#"["watch-del","/r"]"#,
        r#"{"root":"/r","version":"w1","watch-del":true}"#,
    ),
    (r#"["watch","/r"]"#, r#"{"version":"w1","watch":"/r"}"#),
    (
        r#"["listing","/r",0,"",[["y",{"mtime_ms":0,"size":1,"type":"f"}]]]"#,
        r#"{"clock":"c:1:3:1","version":"w1"}"#,
    ),
    (
        r#"["observe","/s",[["x",null]]]"#,
        r#"{"clock":"c:1:2:3","version":"w1"}
{"clock":"c:1:2:3","files":["x"],"is_fresh_instance":false,"root":"/s","subscription":"a\"b","unilateral":true,"version":"w1"}"#,
    ),
    (
        r#"["unsubscribe","/r","a\"b"]"#,
        r#"{"deleted":false,"unsubscribe":"a\"b","version":"w1"}"#,
    ),
    (
        r#"["unsubscribe","/s","a\"b"]"#,
        r#"{"deleted":true,"unsubscribe":"a\"b","version":"w1"}"#,
    ),
];

fn of_two_roots() -> &'static [Row<'static>] {
    OF_TWO_ROOTS
}

/// A root that isn't watched, or isn't ready.
const REFUSED: &[Row<'static>] = &[
    (
        r#"["subscribe","/r","s",{}]"#,
        r#"{"error":"5 NotWatched","version":"w1"}"#,
    ),
    (
        r#"["unsubscribe","/r","s"]"#,
        r#"{"error":"5 NotWatched","version":"w1"}"#,
    ),
    (r#"["watch","/r"]"#, r#"{"version":"w1","watch":"/r"}"#),
    (
        r#"["subscribe","/r","s",{"since":"c:1:1:1"}]"#,
        r#"{"error":"6 NotReady","version":"w1"}"#,
    ),
    (
        r#"["unsubscribe","/r","s"]"#,
        r#"{"deleted":false,"unsubscribe":"s","version":"w1"}"#,
    ),
    (
        r#"["listing","/r",0,"",[]]"#,
        r#"{"clock":"c:1:1:1","version":"w1"}"#,
    ),
];

/// A subscription ends with its session.
const LATER: &[Row<'static>] = &[(
    r#"["listing","/r",0,"",[]]"#,
    r#"{"clock":"c:2:1:1","version":"w1"}"#,
)];

#[test]
fn tells_a_subscription(rt: HostRuntime) {
    let alloc = rt.alloc();
    let told = [two_files(), subscribed()];
    assert_session(&rt, alloc, &[], &told, ACCEPTED, "what changed is told");
    let afresh = [two_files(), fresh()];
    assert_session(&rt, alloc, &[], &afresh, ACCEPTED, "a fresh answer is told");
}

#[test]
fn tells_several_subscriptions(rt: HostRuntime) {
    let alloc = rt.alloc();
    let ordered = [two_files(), in_order()];
    assert_session(
        &rt,
        alloc,
        &[],
        &ordered,
        ACCEPTED,
        "several are told in order",
    );
    let moved = [two_files(), by_cursor()];
    assert_session(
        &rt,
        alloc,
        &[],
        &moved,
        ACCEPTED,
        "a cursor stands for its clock",
    );
}

/// The lines of the session before the last.
const EARLIER: &str =
    "[\"watch\",\"/r\"]\n[\"listing\",\"/r\",0,\"\",[]]\n[\"subscribe\",\"/r\",\"s\",{}]\n";

#[test]
fn ends_subscriptions(rt: HostRuntime) {
    let alloc = rt.alloc();
    let each = [two_files(), of_two_roots()];
    assert_session(&rt, alloc, &[], &each, ACCEPTED, "each root has its own");
    assert_session(
        &rt,
        alloc,
        &[],
        &[REFUSED],
        ACCEPTED,
        "what can't be subscribed to is refused",
    );
    assert_session(
        &rt,
        alloc,
        &[EARLIER],
        &[LATER],
        ACCEPTED,
        "the next session begins without",
    );
}
