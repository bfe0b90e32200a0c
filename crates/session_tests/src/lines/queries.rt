//! Questions with fields, cursors and flags, with their lines and replies written out.
use crate::ends::{ACCEPTED, Row, assert_session};

/// A root with two files, which came one after another.
const TWO_FILES: &[Row<'static>] = &[
    (r#"["watch","/r"]"#, r#"{"version":"w1","watch":"/r"}"#),
    (
        r#"["listing","/r",0,"",[]]"#,
        r#"{"clock":"c:1:1:1","version":"w1"}"#,
    ),
    (
        r#"["observe","/r",[["a.c",{"mtime_ms":0,"size":3,"type":"f"}]]]"#,
        r#"{"clock":"c:1:1:2","version":"w1"}"#,
    ),
    (
        r#"["observe","/r",[["b.c",{"mtime_ms":0,"size":4,"type":"f"}]]]"#,
        r#"{"clock":"c:1:1:3","version":"w1"}"#,
    ),
];

pub(super) fn two_files() -> &'static [Row<'static>] {
    TWO_FILES
}

const FRESH: &str =
    r#"{"clock":"c:1:1:3","files":[{"exists":true,"name":"b.c","new":true,"size":4},{"exists":true,"name":"a.c","new":true,"size":3}],"is_fresh_instance":true,"version":"w1"}"#;

const QUERIES: &[Row<'static>] = &[
    (r#"["query","/r",{}]"#, FRESH),
    (r#"["query","/r",{"since":"c:01:1:1"}]"#, FRESH),
    (
        r#"["query","/r",{"since":"c:1:1:2","sync_timeout":9223372036854775807}]"#,
        r#"{"clock":"c:1:1:3","files":[{"exists":true,"name":"b.c","new":true,"size":4}],"is_fresh_instance":false,"version":"w1"}"#,
    ),
    // A suffix in another case, and clocks as fields.
    (
        r#"["query","/r",{"expression":["allof",["suffix","C"],["not",["name","a.c"]]],"fields":["name","cclock","oclock"]}]"#,
        r#"{"clock":"c:1:1:3","files":[{"cclock":"c:1:1:3","name":"b.c","oclock":"c:1:1:3"}],"is_fresh_instance":true,"version":"w1"}"#,
    ),
];

fn queries() -> &'static [Row<'static>] {
    QUERIES
}

/// Fields, in whatever order they are asked for.
const FIELDS: &[Row<'static>] = &[
    // One field gives bare values.
    (
        r#"["query","/r",{"fields":["name"],"since":"c:1:1:1"}]"#,
        r#"{"clock":"c:1:1:3","files":["b.c","a.c"],"is_fresh_instance":false,"version":"w1"}"#,
    ),
    (
        r#"["query","/r",{"fields":["exists"],"since":"c:1:1:2"}]"#,
        r#"{"clock":"c:1:1:3","files":[true],"is_fresh_instance":false,"version":"w1"}"#,
    ),
    (
        r#"["query","/r",{"fields":["size"],"since":"c:1:1:1"}]"#,
        r#"{"clock":"c:1:1:3","files":[4,3],"is_fresh_instance":false,"version":"w1"}"#,
    ),
    (
        r#"["query","/r",{"fields":["type"],"since":"c:1:1:2"}]"#,
        r#"{"clock":"c:1:1:3","files":["f"],"is_fresh_instance":false,"version":"w1"}"#,
    ),
    (
        r#"["query","/r",{"fields":["oclock"],"since":"c:1:1:1"}]"#,
        r#"{"clock":"c:1:1:3","files":["c:1:1:3","c:1:1:2"],"is_fresh_instance":false,"version":"w1"}"#,
    ),
    // All fields, in whatever order they are asked for.
    (
        r#"["query","/r",{"fields":["oclock","cclock","mtime_ms","type","size","new","exists","name"],"since":"c:1:1:2"}]"#,
        r#"{"clock":"c:1:1:3","files":[{"cclock":"c:1:1:3","exists":true,"mtime_ms":0,"name":"b.c","new":true,"oclock":"c:1:1:3","size":4,"type":"f"}],"is_fresh_instance":false,"version":"w1"}"#,
    ),
];

fn fields() -> &'static [Row<'static>] {
    FIELDS
}

/// Fresh answers without files, and then changes.
const CHANGES: &[Row<'static>] = &[
    // A fresh answer without files; one that isn't fresh has them.
    (
        r#"["query","/r",{"empty_on_fresh_instance":true}]"#,
        r#"{"clock":"c:1:1:3","files":[],"is_fresh_instance":true,"version":"w1"}"#,
    ),
    (
        r#"["query","/r",{"empty_on_fresh_instance":true,"fields":["name"],"since":"c:1:1:2"}]"#,
        r#"{"clock":"c:1:1:3","files":["b.c"],"is_fresh_instance":false,"version":"w1"}"#,
    ),
    (
        r#"["query","/r",{"empty_on_fresh_instance":false,"fields":["name"]}]"#,
        r#"{"clock":"c:1:1:3","files":["b.c","a.c"],"is_fresh_instance":true,"version":"w1"}"#,
    ),
    // A file that changes, and one that goes: when they came, and when they changed last.
    (
        r#"["observe","/r",[["a.c",{"mtime_ms":7,"size":3,"type":"f"}],["b.c",null]]]"#,
        r#"{"clock":"c:1:1:4","version":"w1"}"#,
    ),
    (
        r#"["query","/r",{"fields":["cclock","exists","mtime_ms","name","new","oclock"],"since":"c:1:1:2"}]"#,
        r#"{"clock":"c:1:1:4","files":[{"cclock":"c:1:1:2","exists":true,"mtime_ms":7,"name":"a.c","new":false,"oclock":"c:1:1:4"},{"cclock":"c:1:1:3","exists":false,"mtime_ms":0,"name":"b.c","new":true,"oclock":"c:1:1:4"}],"is_fresh_instance":false,"version":"w1"}"#,
    ),
    (
        r#"["query","/r",{"fields":["name"]}]"#,
        r#"{"clock":"c:1:1:4","files":["a.c"],"is_fresh_instance":true,"version":"w1"}"#,
    ),
];

fn changes() -> &'static [Row<'static>] {
    CHANGES
}

/// A cursor begins fresh and moves with each answer by it, and with nothing else.
const CURSORS: &[Row<'static>] = &[
    (r#"["since","/r","n:x"]"#, FRESH),
    (
        r#"["since","/r","n:x"]"#,
        r#"{"clock":"c:1:1:3","files":[],"is_fresh_instance":false,"version":"w1"}"#,
    ),
    (
        r#"["query","/r",{"fields":["name"],"since":"n:y"}]"#,
        r#"{"clock":"c:1:1:3","files":["b.c","a.c"],"is_fresh_instance":true,"version":"w1"}"#,
    ),
    // A question that is refused moves nothing.
    (
        r#"["query","/r",{"expression":"no","since":"n:z"}]"#,
        r#"{"error":"8 BadExpression","version":"w1"}"#,
    ),
    (
        r#"["query","/r",{"empty_on_fresh_instance":true,"since":"n:z"}]"#,
        r#"{"clock":"c:1:1:3","files":[],"is_fresh_instance":true,"version":"w1"}"#,
    ),
    (
        r#"["observe","/r",[["a.c",null]]]"#,
        r#"{"clock":"c:1:1:4","version":"w1"}"#,
    ),
    (
        r#"["query","/r",{"fields":["name"],"since":"n:z"}]"#,
        r#"{"clock":"c:1:1:4","files":["a.c"],"is_fresh_instance":false,"version":"w1"}"#,
    ),
    // A clock moves no cursor.
    (
        r#"["query","/r",{"fields":["name"],"since":"c:1:1:4"}]"#,
        r#"{"clock":"c:1:1:4","files":[],"is_fresh_instance":false,"version":"w1"}"#,
    ),
    (
        r#"["query","/r",{"fields":["name"],"since":"n:x"}]"#,
        r#"{"clock":"c:1:1:4","files":["a.c"],"is_fresh_instance":false,"version":"w1"}"#,
    ),
    (
        r#"["query","/r",{"expression":"false","since":"n:y"}]"#,
        r#"{"clock":"c:1:1:4","files":[],"is_fresh_instance":false,"version":"w1"}"#,
    ),
    (
        r#"["query","/r",{"fields":["name"],"since":"n:y"}]"#,
        r#"{"clock":"c:1:1:4","files":[],"is_fresh_instance":false,"version":"w1"}"#,
    ),
    // Cursors go with the root.
    (
        r#"["watch-del","/r"]"#,
        r#"{"root":"/r","version":"w1","watch-del":true}"#,
    ),
    (r#"["watch","/r"]"#, r#"{"version":"w1","watch":"/r"}"#),
    (
        r#"["listing","/r",0,"",[]]"#,
        r#"{"clock":"c:1:2:1","version":"w1"}"#,
    ),
    (
        r#"["since","/r","n:x"]"#,
        r#"{"clock":"c:1:2:1","files":[],"is_fresh_instance":true,"version":"w1"}"#,
    ),
];

fn cursors() -> &'static [Row<'static>] {
    CURSORS
}

/// A size that grew small: the answer leaves the file out, since the test reads more than paths.
const SIZES: &[Row<'static>] = &[
    (r#"["watch","/r"]"#, r#"{"version":"w1","watch":"/r"}"#),
    (
        r#"["listing","/r",0,"",[]]"#,
        r#"{"clock":"c:1:1:1","version":"w1"}"#,
    ),
    (
        r#"["observe","/r",[["big",{"mtime_ms":0,"size":20,"type":"f"}]]]"#,
        r#"{"clock":"c:1:1:2","version":"w1"}"#,
    ),
    (
        r#"["query","/r",{"expression":["size","gt",10],"fields":["name"]}]"#,
        r#"{"clock":"c:1:1:2","files":["big"],"is_fresh_instance":true,"version":"w1"}"#,
    ),
    (
        r#"["observe","/r",[["big",{"mtime_ms":0,"size":5,"type":"f"}]]]"#,
        r#"{"clock":"c:1:1:3","version":"w1"}"#,
    ),
    (
        r#"["query","/r",{"expression":["size","gt",10],"since":"c:1:1:2"}]"#,
        r#"{"clock":"c:1:1:3","files":[],"is_fresh_instance":false,"version":"w1"}"#,
    ),
];

#[test]
fn answers_queries(rt: HostRuntime) {
    let alloc = rt.alloc();
    let asked = [two_files(), queries(), fields(), changes()];
    assert_session(&rt, alloc, &[], &asked, ACCEPTED, "queries");
    let moved = [two_files(), cursors()];
    assert_session(&rt, alloc, &[], &moved, ACCEPTED, "cursors");
    assert_session(&rt, alloc, &[], &[SIZES], ACCEPTED, "sizes");
}
