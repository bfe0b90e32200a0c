//! Lines with query objects, and what is read of them.
use super::{ARGUMENTS, CLOCK, EXPRESSION, FIELD, PATH};
use crate::ends::Row;

const ROWS: &[Row<'static>] = &[
    (r#"["query","/r",{}]"#, "query /r exists name new size"),
    (
        r#"["query","/r",{"since":"c:1:2:3"}]"#,
        "query /r 1 2 3 exists name new size",
    ),
    (
        r#"["query","/r",{"since":"n:a b"}]"#,
        "query /r @a b exists name new size",
    ),
    (
        r#"["query","/r",{"since":"c:x"}]"#,
        "query /r another exists name new size",
    ),
    (
        r#"["query","/r",{"expression":["not","true"],"fields":["size","name"],"empty_on_fresh_instance":true,"sync_timeout":0,"since":"c:1:1:1"}]"#,
        "query /r 1 1 1 name size empty_on_fresh",
    ),
    (
        r#"["query","/r",{"fields":["name"],"empty_on_fresh_instance":false}]"#,
        "query /r name",
    ),
    (
        r#"["query","/r",{"sync_timeout":9223372036854775807}]"#,
        "query /r exists name new size",
    ),
    (
        r#"["query","/r",{"since":1}]"#,
        "query /r 1 exists name new size",
    ),
    (
        r#"["query","/r",{"since":9223372036854775807}]"#,
        "query /r 9223372036854775807 exists name new size",
    ),
    // of two values for one key the last counts
    (
        r#"["query","/r",{"fields":["mode"],"fields":["type"]}]"#,
        "query /r type",
    ),
];

pub(super) fn rows() -> &'static [Row<'static>] {
    ROWS
}

const REFUSED: &[Row<'static>] = &[
    (r#"["query"]"#, ARGUMENTS),
    (r#"["query","/r"]"#, ARGUMENTS),
    (r#"["query","/r",{},1]"#, ARGUMENTS),
    (r#"["query",1,{}]"#, ARGUMENTS),
    (r#"["query","/r",[]]"#, ARGUMENTS),
    (r#"["query","/r",null]"#, ARGUMENTS),
    (r#"["query","/r","c:1:1:1"]"#, ARGUMENTS),
    (r#"["query","/r",{"relative_root":"x"}]"#, ARGUMENTS),
    (r#"["query","/r",{"suffix":["c"]}]"#, ARGUMENTS),
    (
        r#"["query","/r",{"since":"c:1:1:1","Since":"c:1:1:1"}]"#,
        ARGUMENTS,
    ),
    (r#"["query","/r",{"since":null}]"#, ARGUMENTS),
    (r#"["query","/r",{"since":["c:1:1:1"]}]"#, ARGUMENTS),
    (r#"["query","/r",{"fields":"name"}]"#, ARGUMENTS),
    (r#"["query","/r",{"fields":{"name":1}}]"#, ARGUMENTS),
    (r#"["query","/r",{"fields":null}]"#, ARGUMENTS),
    (r#"["query","/r",{"empty_on_fresh_instance":1}]"#, ARGUMENTS),
    (
        r#"["query","/r",{"empty_on_fresh_instance":null}]"#,
        ARGUMENTS,
    ),
    (r#"["query","/r",{"sync_timeout":-1}]"#, ARGUMENTS),
    (r#"["query","/r",{"sync_timeout":1.0}]"#, ARGUMENTS),
    (
        r#"["query","/r",{"sync_timeout":9223372036854775808}]"#,
        ARGUMENTS,
    ),
    (r#"["query","/r",{"sync_timeout":"1"}]"#, ARGUMENTS),
    (r#"["query","/r",{"sync_timeout":null}]"#, ARGUMENTS),
    (r#"["query","r",{}]"#, PATH),
    (r#"["query","r",{"fields":1}]"#, ARGUMENTS),
    (r#"["query","r",{"since":"x","fields":[]}]"#, PATH),
    (r#"["query","/r",{"since":"x"}]"#, CLOCK),
    (r#"["query","/r",{"since":9223372036854775808}]"#, CLOCK),
    (r#"["query","/r",{"since":-1}]"#, CLOCK),
    (r#"["query","/r",{"since":1.5}]"#, CLOCK),
    (r#"["query","/r",{"since":"8"}]"#, CLOCK),
    (r#"["query","/r",{"since":true}]"#, ARGUMENTS),
    (r#"["query","/r",{"since":"n:"}]"#, CLOCK),
    (
        r#"["query","/r",{"since":"n:nnnnnnnnnnnnnnnnnnnnnnnnnnnnnnnnnnnnnnnnnnnnnnnnnnnnnnnnnnnnnnnnn"}]"#,
        CLOCK,
    ),
    (
        r#"["query","/r",{"since":"","expression":1,"fields":[]}]"#,
        CLOCK,
    ),
    (r#"["query","/r",{"expression":"x"}]"#, EXPRESSION),
    (r#"["query","/r",{"expression":null}]"#, EXPRESSION),
    (
        r#"["query","/r",{"expression":[],"fields":[]}]"#,
        EXPRESSION,
    ),
    (r#"["query","/r",{"fields":[]}]"#, FIELD),
    (r#"["query","/r",{"fields":["mode"]}]"#, FIELD),
    (r#"["query","/r",{"fields":["Name"]}]"#, FIELD),
    (r#"["query","/r",{"fields":["name",1]}]"#, FIELD),
    (r#"["query","/r",{"fields":[null]}]"#, FIELD),
    (r#"["query","/r",{"fields":["name","name"]}]"#, FIELD),
    (
        r#"["query","/r",{"fields":["name","exists","new","size","type","mtime_ms","cclock","oclock"]}]"#,
        "query /r cclock exists mtime_ms name new oclock size type",
    ),
    (
        r#"["query","/r",{"since":"n:nnnnnnnnnnnnnnnnnnnnnnnnnnnnnnnnnnnnnnnnnnnnnnnnnnnnnnnnnnnnnnnn","fields":["new"]}]"#,
        "query /r @nnnnnnnnnnnnnnnnnnnnnnnnnnnnnnnnnnnnnnnnnnnnnnnnnnnnnnnnnnnnnnnn new",
    ),
];

pub(super) fn refused() -> &'static [Row<'static>] {
    REFUSED
}
