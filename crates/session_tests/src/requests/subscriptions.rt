//! Lines that begin and end subscriptions, and what is read of them.
use super::{ARGUMENTS, CLOCK, EXPRESSION, FIELD, PATH};
use crate::ends::Row;

const ROWS: &[Row<'static>] = &[
    (
        r#"["subscribe","/r","s",{}]"#,
        "subscribe /r s exists name new size",
    ),
    (
        r#"["subscribe","/r","a b",{"expression":["suffix","c"],"fields":["size","name"],"empty_on_fresh_instance":true,"sync_timeout":1,"since":"c:1:2:3"}]"#,
        "subscribe /r a b 1 2 3 name size empty_on_fresh",
    ),
    (
        r#"["subscribe","/r","s",{"since":"n:k","fields":["name"]}]"#,
        "subscribe /r s @k name",
    ),
    (
        r#"["subscribe","/r","nnnnnnnnnnnnnnnnnnnnnnnnnnnnnnnnnnnnnnnnnnnnnnnnnnnnnnnnnnnnnnnn",{"fields":["new"]}]"#,
        "subscribe /r nnnnnnnnnnnnnnnnnnnnnnnnnnnnnnnnnnnnnnnnnnnnnnnnnnnnnnnnnnnnnnnn new",
    ),
    (
        r#"["subscribe","/r","nnnnnnnnnnnnnnnnnnnnnnnnnnnnnnnnnnnnnnnnnnnnnnnnnnnnnnnnnnnnnnnnn",{"fields":["new"]}]"#,
        ARGUMENTS,
    ),
    (r#"["subscribe","/r","",{}]"#, ARGUMENTS),
    (r#"["subscribe"]"#, ARGUMENTS),
    (r#"["subscribe","/r","s"]"#, ARGUMENTS),
    (r#"["subscribe","/r","s",{},1]"#, ARGUMENTS),
    (r#"["subscribe",1,"s",{}]"#, ARGUMENTS),
    (r#"["subscribe","/r",1,{}]"#, ARGUMENTS),
    (r#"["subscribe","/r",{},"s"]"#, ARGUMENTS),
    (r#"["subscribe","/r","s",[]]"#, ARGUMENTS),
    (r#"["subscribe","/r","s",null]"#, ARGUMENTS),
    (r#"["subscribe","/r","s",{"defer":["x"]}]"#, ARGUMENTS),
    (r#"["subscribe","/r","s",{"since":null}]"#, ARGUMENTS),
    (r#"["subscribe","/r","s",{"fields":"name"}]"#, ARGUMENTS),
    (
        r#"["subscribe","/r","s",{"empty_on_fresh_instance":1}]"#,
        ARGUMENTS,
    ),
    (r#"["subscribe","/r","s",{"sync_timeout":-1}]"#, ARGUMENTS),
];

pub(super) fn rows() -> &'static [Row<'static>] {
    ROWS
}

const IN_ORDER: &[Row<'static>] = &[
    // bad arguments come before a bad path, and that before a bad clock, expression and field
    (r#"["subscribe","r","",{}]"#, ARGUMENTS),
    (r#"["subscribe","r","s",{"fields":1}]"#, ARGUMENTS),
    (
        r#"["subscribe","r","s",{"empty_on_fresh_instance":1}]"#,
        ARGUMENTS,
    ),
    (r#"["subscribe","r","s",{"since":"x"}]"#, PATH),
    (
        r#"["subscribe","/r","s",{"since":"x","expression":1,"fields":[]}]"#,
        CLOCK,
    ),
    (
        r#"["subscribe","/r","s",{"since":1}]"#,
        "subscribe /r s 1 exists name new size",
    ),
    (
        r#"["subscribe","/r","s",{"since":9223372036854775808}]"#,
        CLOCK,
    ),
    (r#"["subscribe","/r","s",{"since":"8"}]"#, CLOCK),
    (r#"["subscribe","/r","s",{"since":true}]"#, ARGUMENTS),
    (
        r#"["subscribe","/r","s",{"expression":"x","fields":[]}]"#,
        EXPRESSION,
    ),
    (r#"["subscribe","/r","s",{"fields":[]}]"#, FIELD),
    (r#"["unsubscribe","/r","s"]"#, "unsubscribe /r s"),
    (
        r#"["unsubscribe","/r","nnnnnnnnnnnnnnnnnnnnnnnnnnnnnnnnnnnnnnnnnnnnnnnnnnnnnnnnnnnnnnnn"]"#,
        "unsubscribe /r nnnnnnnnnnnnnnnnnnnnnnnnnnnnnnnnnnnnnnnnnnnnnnnnnnnnnnnnnnnnnnnn",
    ),
    (
        r#"["unsubscribe","/r","nnnnnnnnnnnnnnnnnnnnnnnnnnnnnnnnnnnnnnnnnnnnnnnnnnnnnnnnnnnnnnnnn"]"#,
        ARGUMENTS,
    ),
    (r#"["unsubscribe"]"#, ARGUMENTS),
    (r#"["unsubscribe","/r"]"#, ARGUMENTS),
    (r#"["unsubscribe","/r","s",{}]"#, ARGUMENTS),
    (r#"["unsubscribe","/r",1]"#, ARGUMENTS),
    (r#"["unsubscribe","/r",""]"#, ARGUMENTS),
    (r#"["unsubscribe","r",""]"#, ARGUMENTS),
    (r#"["unsubscribe","r","s"]"#, PATH),
];

pub(super) fn in_order() -> &'static [Row<'static>] {
    IN_ORDER
}
