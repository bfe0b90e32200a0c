//! Sessions with recrawls and age-outs, with their lines and replies written out.
use super::queries::two_files;
use crate::ends::{ACCEPTED, Row, assert_answers, assert_session, put_row};
use std::process::Abort;

/// A file that a whole recrawl doesn't list is deleted; one that changed since the reading began stays.
const UNLISTED: &[Row<'static>] = &[
    (
        r#"["listing","/r",3,"",[["b.c",{"mtime_ms":0,"size":4,"type":"f"}]]]"#,
        r#"{"clock":"c:1:1:4","version":"w1"}"#,
    ),
    (
        r#"["since","/r","c:1:1:3"]"#,
        r#"{"clock":"c:1:1:4","files":[{"exists":false,"name":"a.c","new":false,"size":3}],"is_fresh_instance":false,"version":"w1"}"#,
    ),
    // A reading begins at tick 4, and a file comes at tick 5.
    (
        r#"["observe","/r",[["n.c",{"mtime_ms":0,"size":1,"type":"f"}]]]"#,
        r#"{"clock":"c:1:1:5","version":"w1"}"#,
    ),
    (
        r#"["listing","/r",4,"",[["b.c",{"mtime_ms":0,"size":4,"type":"f"}]]]"#,
        r#"{"clock":"c:1:1:5","version":"w1"}"#,
    ),
    (
        r#"["since","/r","c:1:1:4"]"#,
        r#"{"clock":"c:1:1:5","files":[{"exists":true,"name":"n.c","new":true,"size":1}],"is_fresh_instance":false,"version":"w1"}"#,
    ),
    // What a reading found that began before a change says nothing of it.
    (
        r#"["listing","/r",4,"",[["b.c",{"mtime_ms":0,"size":6,"type":"f"}],["n.c",{"mtime_ms":0,"size":2,"type":"f"}]]]"#,
        r#"{"clock":"c:1:1:6","version":"w1"}"#,
    ),
    (
        r#"["since","/r","c:1:1:5"]"#,
        r#"{"clock":"c:1:1:6","files":[{"exists":true,"name":"b.c","new":false,"size":6}],"is_fresh_instance":false,"version":"w1"}"#,
    ),
    (
        r#"["listing","/r",7,"",[]]"#,
        r#"{"error":"7 BadClock","version":"w1"}"#,
    ),
];

fn unlisted() -> &'static [Row<'static>] {
    UNLISTED
}

/// A reading begins at tick 7, a file comes at tick 8, and isn't listed: it stays.
const BEGUN_BEFORE: &[Row<'static>] = &[
    (
        r#"["observe","/r",[["b.c",{"mtime_ms":0,"size":5,"type":"f"}]]]"#,
        r#"{"clock":"c:1:1:4","version":"w1"}"#,
    ),
    (
        r#"["observe","/r",[["b.c",{"mtime_ms":0,"size":6,"type":"f"}]]]"#,
        r#"{"clock":"c:1:1:5","version":"w1"}"#,
    ),
    (
        r#"["observe","/r",[["b.c",{"mtime_ms":0,"size":7,"type":"f"}]]]"#,
        r#"{"clock":"c:1:1:6","version":"w1"}"#,
    ),
    (
        r#"["observe","/r",[["b.c",{"mtime_ms":0,"size":8,"type":"f"}]]]"#,
        r#"{"clock":"c:1:1:7","version":"w1"}"#,
    ),
    (
        r#"["observe","/r",[["n.c",{"mtime_ms":0,"size":1,"type":"f"}]]]"#,
        r#"{"clock":"c:1:1:8","version":"w1"}"#,
    ),
    (
        r#"["listing","/r",7,"",[["a.c",{"mtime_ms":0,"size":3,"type":"f"}],["b.c",{"mtime_ms":0,"size":8,"type":"f"}]]]"#,
        r#"{"clock":"c:1:1:8","version":"w1"}"#,
    ),
    (
        r#"["since","/r","c:1:1:7"]"#,
        r#"{"clock":"c:1:1:8","files":[{"exists":true,"name":"n.c","new":true,"size":1}],"is_fresh_instance":false,"version":"w1"}"#,
    ),
];

fn begun_before() -> &'static [Row<'static>] {
    BEGUN_BEFORE
}

/// A part of a root is listed again, and what was deleted in it is forgotten at once.
const SUBTREE: &[Row<'static>] = &[
    (r#"["watch","/r"]"#, r#"{"version":"w1","watch":"/r"}"#),
    (
        r#"["listing","/r",0,"",[["x/a",{"mtime_ms":0,"size":1,"type":"f"}],["y",{"mtime_ms":0,"size":1,"type":"f"}]]]"#,
        r#"{"clock":"c:1:1:1","version":"w1"}"#,
    ),
    (
        r#"["listing","/r",1,"x",[]]"#,
        r#"{"clock":"c:1:1:2","version":"w1"}"#,
    ),
    (
        r#"["since","/r","c:1:1:1"]"#,
        r#"{"clock":"c:1:1:2","files":[{"exists":false,"name":"x/a","new":false,"size":1}],"is_fresh_instance":false,"version":"w1"}"#,
    ),
    (r#"["age-out","/r",0]"#, r#"{"floor":2,"version":"w1"}"#),
    (
        r#"["since","/r","c:1:1:1"]"#,
        r#"{"clock":"c:1:1:2","files":[{"exists":true,"name":"y","new":true,"size":1}],"is_fresh_instance":true,"version":"w1"}"#,
    ),
    (
        r#"["since","/r","c:1:1:2"]"#,
        r#"{"clock":"c:1:1:2","files":[],"is_fresh_instance":false,"version":"w1"}"#,
    ),
];

fn subtree() -> &'static [Row<'static>] {
    SUBTREE
}

/// Two deletions, of which only the first is old enough: the floor is its tick. The lines count the moments.
const AGES: &[Row<'static>] = &[
    (r#"["watch","/r"]"#, r#"{"version":"w1","watch":"/r"}"#),
    (
        r#"["listing","/r",0,"",[["a",{"mtime_ms":0,"size":1,"type":"f"}],["b",{"mtime_ms":0,"size":2,"type":"f"}]]]"#,
        r#"{"clock":"c:1:1:1","version":"w1"}"#,
    ),
    // at moment 3
    (
        r#"["observe","/r",[["a",null]]]"#,
        r#"{"clock":"c:1:1:2","version":"w1"}"#,
    ),
    // at moment 4
    (
        r#"["observe","/r",[["b",null]]]"#,
        r#"{"clock":"c:1:1:3","version":"w1"}"#,
    ),
    // at moment 5: neither is 3 old
    (r#"["age-out","/r",3]"#, r#"{"floor":0,"version":"w1"}"#),
    // at moment 6: only the first is
    (r#"["age-out","/r",3]"#, r#"{"floor":2,"version":"w1"}"#),
    (
        r#"["since","/r","c:1:1:1"]"#,
        r#"{"clock":"c:1:1:3","files":[],"is_fresh_instance":true,"version":"w1"}"#,
    ),
    (
        r#"["since","/r","c:1:1:2"]"#,
        r#"{"clock":"c:1:1:3","files":[{"exists":false,"name":"b","new":false,"size":2}],"is_fresh_instance":false,"version":"w1"}"#,
    ),
    // A reading that began below the floor, or above the tick, has to be done again.
    (
        r#"["listing","/r",1,"",[]]"#,
        r#"{"error":"7 BadClock","version":"w1"}"#,
    ),
    (
        r#"["listing","/r",4,"",[]]"#,
        r#"{"error":"7 BadClock","version":"w1"}"#,
    ),
    (
        r#"["listing","/r",2,"",[]]"#,
        r#"{"clock":"c:1:1:3","version":"w1"}"#,
    ),
    // What was forgotten and comes back is new again.
    (
        r#"["observe","/r",[["a",{"mtime_ms":0,"size":1,"type":"f"}]]]"#,
        r#"{"clock":"c:1:1:4","version":"w1"}"#,
    ),
    (
        r#"["since","/r","c:1:1:3"]"#,
        r#"{"clock":"c:1:1:4","files":[{"exists":true,"name":"a","new":true,"size":1}],"is_fresh_instance":false,"version":"w1"}"#,
    ),
    (
        r#"["age-out","/r",9223372036854775807]"#,
        r#"{"floor":2,"version":"w1"}"#,
    ),
];

fn ages() -> &'static [Row<'static>] {
    AGES
}

#[test]
fn answers_recrawls_and_age_outs(rt: HostRuntime) {
    let alloc = rt.alloc();
    let missing = [two_files(), unlisted()];
    assert_session(&rt, alloc, &[], &missing, ACCEPTED, "unlisted files");
    let older = [two_files(), begun_before()];
    assert_session(&rt, alloc, &[], &older, ACCEPTED, "an older reading");
    assert_session(&rt, alloc, &[], &[subtree()], ACCEPTED, "a subtree");
    assert_session(&rt, alloc, &[], &[ages()], ACCEPTED, "ages");
}

/// Lines at their moments: two deletions, at the ticks 5 and 9, of which an age-out forgets the first.
const MOMENTS: &[(u64, &str, &str)] = &[
    (1, r#"["watch","/r"]"#, r#"{"version":"w1","watch":"/r"}"#),
    (
        2,
        r#"["listing","/r",0,"",[["a",{"mtime_ms":0,"size":1,"type":"f"}],["b",{"mtime_ms":0,"size":1,"type":"f"}]]]"#,
        r#"{"clock":"c:1:1:1","version":"w1"}"#,
    ),
    (
        3,
        r#"["observe","/r",[["c",{"mtime_ms":0,"size":2,"type":"f"}]]]"#,
        r#"{"clock":"c:1:1:2","version":"w1"}"#,
    ),
    (
        4,
        r#"["observe","/r",[["c",{"mtime_ms":0,"size":3,"type":"f"}]]]"#,
        r#"{"clock":"c:1:1:3","version":"w1"}"#,
    ),
    (
        5,
        r#"["observe","/r",[["c",{"mtime_ms":0,"size":4,"type":"f"}]]]"#,
        r#"{"clock":"c:1:1:4","version":"w1"}"#,
    ),
    (
        100,
        r#"["observe","/r",[["a",null]]]"#,
        r#"{"clock":"c:1:1:5","version":"w1"}"#,
    ),
    (
        101,
        r#"["observe","/r",[["c",{"mtime_ms":0,"size":6,"type":"f"}]]]"#,
        r#"{"clock":"c:1:1:6","version":"w1"}"#,
    ),
    (
        102,
        r#"["observe","/r",[["c",{"mtime_ms":0,"size":7,"type":"f"}]]]"#,
        r#"{"clock":"c:1:1:7","version":"w1"}"#,
    ),
    (
        103,
        r#"["observe","/r",[["c",{"mtime_ms":0,"size":8,"type":"f"}]]]"#,
        r#"{"clock":"c:1:1:8","version":"w1"}"#,
    ),
    (
        200,
        r#"["observe","/r",[["b",null]]]"#,
        r#"{"clock":"c:1:1:9","version":"w1"}"#,
    ),
    (
        250,
        r#"["age-out","/r",100]"#,
        r#"{"floor":5,"version":"w1"}"#,
    ),
    (
        251,
        r#"["since","/r","c:1:1:4"]"#,
        r#"{"clock":"c:1:1:9","files":[{"exists":true,"name":"c","new":true,"size":8}],"is_fresh_instance":true,"version":"w1"}"#,
    ),
    (
        252,
        r#"["since","/r","c:1:1:5"]"#,
        r#"{"clock":"c:1:1:9","files":[{"exists":false,"name":"b","new":false,"size":1},{"exists":true,"name":"c","new":false,"size":8}],"is_fresh_instance":false,"version":"w1"}"#,
    ),
    (
        253,
        r#"["listing","/r",4,"",[]]"#,
        r#"{"error":"7 BadClock","version":"w1"}"#,
    ),
    (
        254,
        r#"["listing","/r",10,"",[]]"#,
        r#"{"error":"7 BadClock","version":"w1"}"#,
    ),
    (
        255,
        r#"["clock","/r"]"#,
        r#"{"clock":"c:1:1:9","version":"w1"}"#,
    ),
];

/// So many lines that only let time pass.
fn put_idle(rt: &impl Abort, count: u64, input: &mut String, output: &mut String) {
    for _ in 0..count {
        put_row(rt, r#"["version"]"#, r#"{"version":"w1"}"#, input, output);
    }
}

/// The rows at their moments, with lines between them that only let time pass.
fn put_timed(rt: &impl Abort, input: &mut String, output: &mut String) {
    let mut moment = 1;
    for (at, line, reply) in MOMENTS {
        put_idle(rt, at.saturating_sub(moment), input, output);
        put_row(rt, line, reply, input, output);
        moment = at.saturating_add(1);
    }
}

#[test]
fn forgets_what_is_old_enough(rt: HostRuntime) {
    let alloc = rt.alloc();
    let mut input = String::new(alloc);
    let mut output = String::new(alloc);
    put_timed(&rt, &mut input, &mut output);
    assert_answers(&rt, alloc, &input, &output, "moments");
    drop(input);
    drop(output);
}
