//! Lines that are refused, and the lines before and after them.
use crate::disks::new_file;
use crate::ends::{BEGUN, assert_serves};
use std::alloc::Global;
use std::process::Abort;

/// Lines, and how each is refused.
const REFUSALS: &[(&[u8], &str)] = &[
    (b"[\"watch\",\"/\"]", "4 BadPath"),
    (b"[\"watch\",\"\"]", "4 BadPath"),
    (b"[\"watch\",\"/a/\"]", "4 BadPath"),
    (b"[\"watch\",\"a\"]", "4 BadPath"),
    (b"[\"watch\",\"//a\"]", "4 BadPath"),
    (b"[\"watch\",\"/a/../b\"]", "4 BadPath"),
    (b"[\"watch\"]", "3 BadArguments"),
    (b"[\"watch\",1]", "3 BadArguments"),
    (b"[\"watch\",\"/a\",1]", "3 BadArguments"),
    (b"[\"version\",1]", "3 BadArguments"),
    (b"[\"watch-list\",null]", "3 BadArguments"),
    (b"[\"nothing\"]", "2 BadCommand"),
    (b"[]", "2 BadCommand"),
    (b"{}", "2 BadCommand"),
    (b"1", "2 BadCommand"),
    (b"\"watch\"", "2 BadCommand"),
    (b"[1]", "2 BadCommand"),
    (b"[\"watch-list\"", "1 BadLine"),
    (b"", "1 BadLine"),
    (b"[\"watch\",\"/\xff\"]", "1 BadLine"),
    (b"[\"version\"]x", "1 BadLine"),
    (b"[\"version\"\x00]", "1 BadLine"),
];

/// Roots that aren't watched or not ready, bad paths, and what is taken of several faults.
const REFUSED: &[(&str, &str)] = &[
    (r#"["clock","/r"]"#, "5 NotWatched"),
    (r#"["since","/r","c:1:1:1"]"#, "5 NotWatched"),
    (r#"["observe","/r",[]]"#, "5 NotWatched"),
    (r#"["listing","/r",0,"",[]]"#, "5 NotWatched"),
    (r#"["clock","r"]"#, "4 BadPath"),
    (r#"["since","/r","x"]"#, "7 BadClock"),
    (r#"["since","/r",3]"#, "5 NotWatched"),
    (r#"["since","/r",-3]"#, "7 BadClock"),
    (r#"["since","/r",null]"#, "3 BadArguments"),
    (r#"["observe","/w",[]]"#, "6 NotReady"),
    (r#"["since","/w","c:1:1:1"]"#, "6 NotReady"),
    (r#"["since","/w",3]"#, "6 NotReady"),
    (r#"["listing","/w",1,"",[]]"#, "6 NotReady"),
    (r#"["age-out","/w",0]"#, "6 NotReady"),
    (r#"["age-out","/r",0]"#, "5 NotWatched"),
    (r#"["age-out","r",0]"#, "4 BadPath"),
    (r#"["listing","/w",0,"x",[]]"#, "6 NotReady"),
    (r#"["observe","/w",[["a//b",null]]]"#, "4 BadPath"),
    (r#"["observe","/w",[["/a",null],["a"]]]"#, "3 BadArguments"),
    (
        r#"["listing","/w",0,"",[["a",{"mtime_ms":0,"size":1,"type":"f"}],["a",{"mtime_ms":0,"size":1,"type":"f"}]]]"#,
        "3 BadArguments",
    ),
    (
        r#"["listing","/w",0,"",[["a",{"mtime_ms":0,"size":9223372036854775808,"type":"f"}]]]"#,
        "3 BadArguments",
    ),
    (
        r#"["observe","/w",[["a",{"mtime_ms":0,"mode":1,"size":1,"type":"f"}]]]"#,
        "3 BadArguments",
    ),
];

/// What stands around a refused line: the lines before it and their replies, those after it, and how the
/// journal begins then.
type Around<'a> = (&'a str, &'a str, &'a str, &'a str, &'a [u8]);

/// Bytes between two texts.
fn between(rt: &impl Abort, alloc: Global, front: &str, bytes: &[u8], back: &str) -> Vec<u8> {
    let mut all = Vec::from_slice(alloc, front.as_bytes()).expect(rt, "memory");
    all.extend_from_slice(bytes).expect(rt, "memory");
    all.extend_from_slice(back.as_bytes()).expect(rt, "memory");
    all
}

fn assert_refused(rt: &impl Abort, alloc: Global, around: Around<'_>, line: &[u8], refusal: &str) {
    let (front, front_replies, back, back_replies, used) = around;
    let input = between(rt, alloc, front, line, back);
    let output = format!(in alloc;
        "{front_replies}{{\"error\":\"{refusal}\",\"version\":\"w1\"}}\n{back_replies}"
    ).expect(rt, "memory");
    let about = String::from_utf8_lossy(alloc, line).expect(rt, "memory");
    let wanted = (0, output.as_str(), "", used);
    let disk = new_file(rt, alloc);
    assert_serves(rt, alloc, disk, &input, wanted, &about);
    drop(input);
    drop(output);
    drop(about);
}

/// A line that is answered comes after the refused one.
const BEFORE_ANOTHER: Around<'static> = (
    "",
    "",
    "\n[\"version\"]\n",
    "{\"version\":\"w1\"}\n",
    BEGUN,
);

#[test]
fn goes_on_after_refusals(rt: HostRuntime) {
    for (line, refusal) in REFUSALS {
        assert_refused(&rt, rt.alloc(), BEFORE_ANOTHER, line, refusal);
    }
}

/// The root is watched, and isn't ready.
const AFTER_A_WATCH: Around<'static> = (
    "[\"watch\",\"/w\"]\n",
    "{\"version\":\"w1\",\"watch\":\"/w\"}\n",
    "\n",
    "",
    b"\xa5\x00\xa5\x01\x00\x00\x00\x02/w\x00",
);

#[test]
fn refuses_in_order(rt: HostRuntime) {
    for (line, refusal) in REFUSED {
        assert_refused(&rt, rt.alloc(), AFTER_A_WATCH, line.as_bytes(), refusal);
    }
}
