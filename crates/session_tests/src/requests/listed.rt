//! Lines with listings, and what is read of them.
use super::{ARGUMENTS, PATH};
use crate::ends::Row;

const ROWS: &[Row<'static>] = &[
    (r#"["listing","/r",0,"",[]]"#, "listing /r 0 whole"),
    (
        r#"["listing","/r",9223372036854775807,"",[["b",{"type":"f","size":1,"mtime_ms":2}],["a/b",{"type":"d","size":3,"mtime_ms":4}]]]"#,
        "listing /r 9223372036854775807 whole a/b Folder 3 4 b File 1 2",
    ),
    (
        r#"["listing","/r",3,"a",[["a/c",{"type":"o","size":1,"mtime_ms":2}],["a/b/d",{"type":"l","size":3,"mtime_ms":4}]]]"#,
        "listing /r 3 below a a/b/d Link 3 4 a/c Other 1 2",
    ),
    (r#"["listing","/r",0,""]"#, ARGUMENTS),
    (r#"["listing","/r",0,"",[],1]"#, ARGUMENTS),
    (r#"["listing",1,0,"",[]]"#, ARGUMENTS),
    (r#"["listing","/r","0","",[]]"#, ARGUMENTS),
    (r#"["listing","/r",-1,"",[]]"#, ARGUMENTS),
    (r#"["listing","/r",-0,"",[]]"#, ARGUMENTS),
    (r#"["listing","/r",1.0,"",[]]"#, ARGUMENTS),
    (r#"["listing","/r",9223372036854775808,"",[]]"#, ARGUMENTS),
    (r#"["listing","/r",null,"",[]]"#, ARGUMENTS),
    (r#"["listing","/r",0,null,[]]"#, ARGUMENTS),
    (r#"["listing","/r",0,"",null]"#, ARGUMENTS),
    (r#"["listing","/r",0,"",[["a",null]]]"#, ARGUMENTS),
    (
        r#"["listing","/r",0,"",[["a",{"type":"f","size":1}]]]"#,
        ARGUMENTS,
    ),
    (
        r#"["listing","/r",0,"",[["a",{"type":"f","size":1,"mtime_ms":2}],["b",{"type":"f","size":1,"mtime_ms":2}],["a",{"type":"d","size":1,"mtime_ms":2}]]]"#,
        ARGUMENTS,
    ),
    (
        r#"["listing","/r",0,"",[["/",{"type":"f","size":1,"mtime_ms":2}],["/",{"type":"f","size":1,"mtime_ms":2}]]]"#,
        ARGUMENTS,
    ),
    (
        r#"["listing","/r",0,"a",[["b",{"type":"f","size":1,"mtime_ms":2}],["b",{"type":"f","size":1,"mtime_ms":2}]]]"#,
        ARGUMENTS,
    ),
];

pub(super) fn rows() -> &'static [Row<'static>] {
    ROWS
}

const BAD_PATHS: &[Row<'static>] = &[
    (r#"["listing","r",0,"",[]]"#, PATH),
    (r#"["listing","/r",0,"/",[]]"#, PATH),
    (r#"["listing","/r",0,"a/",[]]"#, PATH),
    (r#"["listing","/r",0,".",[]]"#, PATH),
    (
        r#"["listing","/r",0,"",[["/a",{"type":"f","size":1,"mtime_ms":2}]]]"#,
        PATH,
    ),
    (
        r#"["listing","/r",0,"",[["a",{"type":"f","size":1,"mtime_ms":2}],["",{"type":"f","size":1,"mtime_ms":2}]]]"#,
        PATH,
    ),
    (
        r#"["listing","/r",0,"a",[["a",{"type":"f","size":1,"mtime_ms":2}]]]"#,
        PATH,
    ),
    (
        r#"["listing","/r",0,"a",[["ab",{"type":"f","size":1,"mtime_ms":2}]]]"#,
        PATH,
    ),
    (
        r#"["listing","/r",0,"a/b",[["a/c",{"type":"f","size":1,"mtime_ms":2}]]]"#,
        PATH,
    ),
    (
        r#"["listing","/r",0,"a",[["a/../b",{"type":"f","size":1,"mtime_ms":2}]]]"#,
        PATH,
    ),
    (r#"["listing","r",-1,"/",[]]"#, ARGUMENTS),
    (
        r#"["listing","r",0,"/",[["/a",{"type":"f","size":1,"mtime_ms":2}],["b",null]]]"#,
        ARGUMENTS,
    ),
];

pub(super) fn bad_paths() -> &'static [Row<'static>] {
    BAD_PATHS
}
