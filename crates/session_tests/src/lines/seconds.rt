//! Questions since a moment, which is the number of a line here, with their lines and replies written out.
use crate::ends::{ACCEPTED, Row, assert_session};

/// What changed at a moment or later is listed. An answer is fresh before the moment of the first listing, and at the
/// moment of a deletion that was forgotten or before it.
const SINCE: &[Row<'static>] = &[
    (r#"["watch","/r"]"#, r#"{"version":"w1","watch":"/r"}"#),
    (
        r#"["listing","/r",0,"",[["a.c",{"mtime_ms":0,"size":3,"type":"f"}]]]"#,
        r#"{"clock":"c:1:1:1","version":"w1"}"#,
    ),
    (
        r#"["observe","/r",[["b.c",{"mtime_ms":0,"size":4,"type":"f"}]]]"#,
        r#"{"clock":"c:1:1:2","version":"w1"}"#,
    ),
    (
        r#"["since","/r",3]"#,
        r#"{"clock":"c:1:1:2","files":[{"exists":true,"name":"b.c","new":true,"size":4}],"is_fresh_instance":false,"version":"w1"}"#,
    ),
    (
        r#"["since","/r",2]"#,
        r#"{"clock":"c:1:1:2","files":[{"exists":true,"name":"b.c","new":true,"size":4},{"exists":true,"name":"a.c","new":true,"size":3}],"is_fresh_instance":false,"version":"w1"}"#,
    ),
    (
        r#"["since","/r",1]"#,
        r#"{"clock":"c:1:1:2","files":[{"exists":true,"name":"b.c","new":true,"size":4},{"exists":true,"name":"a.c","new":true,"size":3}],"is_fresh_instance":true,"version":"w1"}"#,
    ),
    (
        r#"["observe","/r",[["a.c",null]]]"#,
        r#"{"clock":"c:1:1:3","version":"w1"}"#,
    ),
    (
        r#"["since","/r",3]"#,
        r#"{"clock":"c:1:1:3","files":[{"exists":false,"name":"a.c","new":false,"size":3},{"exists":true,"name":"b.c","new":true,"size":4}],"is_fresh_instance":false,"version":"w1"}"#,
    ),
    (r#"["age-out","/r",1]"#, r#"{"floor":3,"version":"w1"}"#),
    (
        r#"["since","/r",7]"#,
        r#"{"clock":"c:1:1:3","files":[{"exists":true,"name":"b.c","new":true,"size":4}],"is_fresh_instance":true,"version":"w1"}"#,
    ),
    (
        r#"["since","/r",8]"#,
        r#"{"clock":"c:1:1:3","files":[],"is_fresh_instance":false,"version":"w1"}"#,
    ),
];

fn since() -> &'static [Row<'static>] {
    SINCE
}

/// The bounds of a moment, and what stands for none.
const BOUNDS: &[Row<'static>] = &[
    (
        r#"["since","/r",9223372036854775807]"#,
        r#"{"clock":"c:1:1:3","files":[],"is_fresh_instance":false,"version":"w1"}"#,
    ),
    (
        r#"["since","/r",9223372036854775808]"#,
        r#"{"error":"7 BadClock","version":"w1"}"#,
    ),
    (
        r#"["since","/r",-1]"#,
        r#"{"error":"7 BadClock","version":"w1"}"#,
    ),
    (
        r#"["since","/r",1.5]"#,
        r#"{"error":"7 BadClock","version":"w1"}"#,
    ),
    (
        r#"["since","/r","8"]"#,
        r#"{"error":"7 BadClock","version":"w1"}"#,
    ),
    (
        r#"["since","/r",true]"#,
        r#"{"error":"3 BadArguments","version":"w1"}"#,
    ),
    (
        r#"["since","/r",0]"#,
        r#"{"clock":"c:1:1:3","files":[{"exists":true,"name":"b.c","new":true,"size":4}],"is_fresh_instance":true,"version":"w1"}"#,
    ),
];

fn bounds() -> &'static [Row<'static>] {
    BOUNDS
}

/// A subscription asks by its moment for its first answer, and by clocks from then on.
const SUBSCRIBED: &[Row<'static>] = &[
    (
        r#"["subscribe","/r","s",{"fields":["name"],"since":8}]"#,
        r#"{"clock":"c:1:1:3","subscribe":"s","version":"w1"}
{"clock":"c:1:1:3","files":[],"is_fresh_instance":false,"root":"/r","subscription":"s","unilateral":true,"version":"w1"}"#,
    ),
    // The moment of this line is 20.
    (
        r#"["observe","/r",[["c.c",{"mtime_ms":0,"size":5,"type":"f"}]]]"#,
        r#"{"clock":"c:1:1:4","version":"w1"}
{"clock":"c:1:1:4","files":["c.c"],"is_fresh_instance":false,"root":"/r","subscription":"s","unilateral":true,"version":"w1"}"#,
    ),
    (
        r#"["unsubscribe","/r","s"]"#,
        r#"{"deleted":true,"unsubscribe":"s","version":"w1"}"#,
    ),
    (
        r#"["subscribe","/r","t",{"fields":["name","new"],"since":20}]"#,
        r#"{"clock":"c:1:1:4","subscribe":"t","version":"w1"}
{"clock":"c:1:1:4","files":[{"name":"c.c","new":true}],"is_fresh_instance":false,"root":"/r","subscription":"t","unilateral":true,"version":"w1"}"#,
    ),
    (
        r#"["query","/r",{"fields":["name"],"since":21}]"#,
        r#"{"clock":"c:1:1:4","files":[],"is_fresh_instance":false,"version":"w1"}"#,
    ),
    (
        r#"["subscribe","/r","f",{"fields":["name"],"since":7}]"#,
        r#"{"clock":"c:1:1:4","subscribe":"f","version":"w1"}
{"clock":"c:1:1:4","files":["c.c","b.c"],"is_fresh_instance":true,"root":"/r","subscription":"f","unilateral":true,"version":"w1"}"#,
    ),
];

fn subscribed() -> &'static [Row<'static>] {
    SUBSCRIBED
}

#[test]
fn answers_since_a_moment(rt: HostRuntime) {
    let asked = [since(), bounds(), subscribed()];
    assert_session(&rt, rt.alloc(), &[], &asked, ACCEPTED, "moments");
}
