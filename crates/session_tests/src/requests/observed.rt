//! Lines with observations, and what is read of them.
use super::{ARGUMENTS, PATH};
use crate::ends::Row;

const ROWS: &[Row<'static>] = &[
    (r#"["observe","/r",[]]"#, "observe /r"),
    (
        r#"["observe","/r",[["a",{"type":"f","size":5,"mtime_ms":7}],["b/c",null]]]"#,
        "observe /r a File 5 7 b/c gone",
    ),
    (
        r#"["observe","/r",[["a",{"mtime_ms":1,"size":2,"type":"d"}],["b",{"size":3,"mtime_ms":4,"type":"l"}],["c",{"size":5,"type":"o","mtime_ms":6}]]]"#,
        "observe /r a Folder 2 1 b Link 3 4 c Other 5 6",
    ),
    (
        r#"["observe","/r",[["a",null],["a",{"type":"f","size":0,"mtime_ms":9223372036854775807}],["a",null]]]"#,
        "observe /r a gone a File 0 9223372036854775807 a gone",
    ),
    (
        r#"["observe","/r",[["a",{"type":"f","size":9223372036854775807,"mtime_ms":0}]]]"#,
        "observe /r a File 9223372036854775807 0",
    ),
    (r#"["observe"]"#, ARGUMENTS),
    (r#"["observe","/r"]"#, ARGUMENTS),
    (r#"["observe","/r",[],1]"#, ARGUMENTS),
    (r#"["observe","/r",[],null]"#, ARGUMENTS),
    (r#"["observe",1,[]]"#, ARGUMENTS),
    (r#"["observe",null,[]]"#, ARGUMENTS),
    (r#"["observe","/r",null]"#, ARGUMENTS),
    (r#"["observe","/r",{}]"#, ARGUMENTS),
    (r#"["observe","/r",{"0":["a",null]}]"#, ARGUMENTS),
    (r#"["observe","/r",["a",null]]"#, ARGUMENTS),
    (r#"["observe","/r",[["a"]]]"#, ARGUMENTS),
    (r#"["observe","/r",[[]]]"#, ARGUMENTS),
    (r#"["observe","/r",[["a",null,null]]]"#, ARGUMENTS),
    (r#"["observe","/r",[[1,null]]]"#, ARGUMENTS),
    (r#"["observe","/r",[["a",1]]]"#, ARGUMENTS),
    (r#"["observe","/r",[["a",false]]]"#, ARGUMENTS),
    (r#"["observe","/r",[["a",{}]]]"#, ARGUMENTS),
];

pub(super) fn rows() -> &'static [Row<'static>] {
    ROWS
}

const BAD_PAIRS: &[Row<'static>] = &[
    (
        r#"["observe","/r",[["a",{"type":"f","size":1}]]]"#,
        ARGUMENTS,
    ),
    (
        r#"["observe","/r",[["a",{"type":"f","size":1,"mtime_ms":1,"mode":1}]]]"#,
        ARGUMENTS,
    ),
    (
        r#"["observe","/r",[["a",{"type":"f","size":1,"mtime":1}]]]"#,
        ARGUMENTS,
    ),
    (
        r#"["observe","/r",[["a",{"type":"x","size":1,"mtime_ms":1}]]]"#,
        ARGUMENTS,
    ),
    (
        r#"["observe","/r",[["a",{"type":"","size":1,"mtime_ms":1}]]]"#,
        ARGUMENTS,
    ),
    (
        r#"["observe","/r",[["a",{"type":null,"size":1,"mtime_ms":1}]]]"#,
        ARGUMENTS,
    ),
    (
        r#"["observe","/r",[["a",{"type":"f","size":9223372036854775808,"mtime_ms":1}]]]"#,
        ARGUMENTS,
    ),
    (
        r#"["observe","/r",[["a",{"type":"f","size":1,"mtime_ms":18446744073709551616}]]]"#,
        ARGUMENTS,
    ),
    (
        r#"["observe","/r",[["a",{"type":"f","size":-1,"mtime_ms":1}]]]"#,
        ARGUMENTS,
    ),
    (
        r#"["observe","/r",[["a",{"type":"f","size":-0,"mtime_ms":1}]]]"#,
        ARGUMENTS,
    ),
    (
        r#"["observe","/r",[["a",{"type":"f","size":1.0,"mtime_ms":1}]]]"#,
        ARGUMENTS,
    ),
    (
        r#"["observe","/r",[["a",{"type":"f","size":1,"mtime_ms":1e2}]]]"#,
        ARGUMENTS,
    ),
    (
        r#"["observe","/r",[["a",{"type":"f","size":"1","mtime_ms":1}]]]"#,
        ARGUMENTS,
    ),
    (r#"["observe","r",[["a",null]]]"#, PATH),
    (r#"["observe","/r",[["a",null],["/b",null]]]"#, PATH),
    (r#"["observe","/r",[["",null]]]"#, PATH),
    (r#"["observe","/r",[["a/../b",null]]]"#, PATH),
    (r#"["observe","r",[["/a",null],["b",1]]]"#, ARGUMENTS),
];

pub(super) fn bad_pairs() -> &'static [Row<'static>] {
    BAD_PAIRS
}
