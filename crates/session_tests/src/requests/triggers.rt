//! Lines about triggers, and those that end a root, and what is read of them.
use super::{ARGUMENTS, EXPRESSION, PATH};
use crate::ends::Row;

const TRIGGER: &str = "10 BadTrigger";

const ENDED: &[Row<'static>] = &[
    (r#"["watch-del","/r"]"#, "watch-del /r"),
    (r#"["watch-del"]"#, ARGUMENTS),
    (r#"["watch-del","/r",1]"#, ARGUMENTS),
    (r#"["watch-del","r"]"#, PATH),
    (r#"["trigger-list","/r"]"#, "trigger-list /r"),
    (r#"["trigger-list"]"#, ARGUMENTS),
    (r#"["trigger-list","/r","t"]"#, ARGUMENTS),
    (r#"["trigger-list","r"]"#, PATH),
    (r#"["trigger-del","/r","t"]"#, "trigger-del /r t"),
    (r#"["trigger-del","/r"]"#, ARGUMENTS),
    (r#"["trigger-del","/r","t","u"]"#, ARGUMENTS),
    (r#"["trigger-del","/r",1]"#, ARGUMENTS),
    (r#"["trigger-del","r",1]"#, ARGUMENTS),
    (r#"["trigger-del","r",""]"#, PATH),
    (r#"["trigger-del","/r",""]"#, TRIGGER),
];

pub(super) fn ended() -> &'static [Row<'static>] {
    ENDED
}

const DEFINED: &[Row<'static>] = &[
    (
        r#"["trigger","/r",{"command":["true"],"name":"t"}]"#,
        "trigger /r t true",
    ),
    (
        r#"["trigger","/r",{"name":"t","stdin":"NAME_PER_LINE","append_files":true,"command":["cp","a b",""]}]"#,
        "trigger /r t cp|a b| append_files NamePerLine",
    ),
    (
        r#"["trigger","/r",{"append_files":false,"command":["true"],"name":"t","stdin":"/dev/null"}]"#,
        "trigger /r t true",
    ),
    (
        r#"["trigger","/r",{"command":["true"],"name":"nnnnnnnnnnnnnnnnnnnnnnnnnnnnnnnnnnnnnnnnnnnnnnnnnnnnnnnnnnnnnnnn"}]"#,
        "trigger /r nnnnnnnnnnnnnnnnnnnnnnnnnnnnnnnnnnnnnnnnnnnnnnnnnnnnnnnnnnnnnnnn true",
    ),
    (
        r#"["trigger","/r",{"command":["a","a","a","a","a","a","a","a","a","a","a","a","a","a","a","a"],"name":"t"}]"#,
        "trigger /r t a|a|a|a|a|a|a|a|a|a|a|a|a|a|a|a",
    ),
];

pub(super) fn defined() -> &'static [Row<'static>] {
    DEFINED
}

const REFUSED: &[Row<'static>] = &[
    (r#"["trigger"]"#, ARGUMENTS),
    (r#"["trigger","/r"]"#, ARGUMENTS),
    (r#"["trigger","/r",[]]"#, ARGUMENTS),
    (r#"["trigger","/r",null]"#, ARGUMENTS),
    (r#"["trigger","/r",{},1]"#, ARGUMENTS),
    (r#"["trigger",1,{}]"#, ARGUMENTS),
    (r#"["trigger","r",[]]"#, ARGUMENTS),
    (r#"["trigger","r",{}]"#, PATH),
    (r#"["trigger","r",{"expression":"true"}]"#, PATH),
    (
        r#"["trigger","/r",{"command":["true"],"name":"t","expression":"true"}]"#,
        r#"trigger /r t true where "true""#,
    ),
    (
        r#"["trigger","/r",{"expression": [ "anyof", ["suffix", "c"], ["name", ["a\u0062", "\u0009"]] ],"command":["true"],"name":"t","stdin":"NAME_PER_LINE","append_files":true}]"#,
        r#"trigger /r t true where ["anyof",["suffix","c"],["name",["ab","\t"]]] append_files NamePerLine"#,
    ),
    (r#"["trigger","/r",{"expression":null}]"#, EXPRESSION),
    (
        r#"["trigger","/r",{"command":["true"],"name":"t","expression":["suffix",1]}]"#,
        EXPRESSION,
    ),
    (
        r#"["trigger","/r",{"command":[],"name":"","expression":"no","chdir":1}]"#,
        EXPRESSION,
    ),
    (
        r#"["trigger","/r",{"command":[],"name":"t","expression":"true"}]"#,
        TRIGGER,
    ),
    (
        r#"["trigger","/r",{"command":["true"],"expression":"true","stdin":"/dev/null"}]"#,
        TRIGGER,
    ),
    (
        r#"["trigger","/r",{"command":["true"],"name":"t","expression":"true","chdir":"/r"}]"#,
        TRIGGER,
    ),
];

pub(super) fn refused() -> &'static [Row<'static>] {
    REFUSED
}

const BAD_TRIGGERS: &[Row<'static>] = &[
    (r#"["trigger","/r",{}]"#, TRIGGER),
    (r#"["trigger","/r",{"command":["true"]}]"#, TRIGGER),
    (r#"["trigger","/r",{"name":"t"}]"#, TRIGGER),
    (r#"["trigger","/r",{"command":["true"],"name":1}]"#, TRIGGER),
    (
        r#"["trigger","/r",{"command":["true"],"name":"t","chdir":"/r"}]"#,
        TRIGGER,
    ),
    (
        r#"["trigger","/r",{"command":["true"],"chdir":"t","stdin":"/dev/null"}]"#,
        TRIGGER,
    ),
    (
        r#"["trigger","/r",{"command":["true"],"name":"t","stdin":"x"}]"#,
        TRIGGER,
    ),
    (
        r#"["trigger","/r",{"command":["true"],"name":"t","stdin":null}]"#,
        TRIGGER,
    ),
    (
        r#"["trigger","/r",{"command":["true"],"name":"t","append_files":1}]"#,
        TRIGGER,
    ),
    (
        r#"["trigger","/r",{"command":["true"],"name":""}]"#,
        TRIGGER,
    ),
    (
        r#"["trigger","/r",{"command":["true"],"name":"nnnnnnnnnnnnnnnnnnnnnnnnnnnnnnnnnnnnnnnnnnnnnnnnnnnnnnnnnnnnnnnnn"}]"#,
        TRIGGER,
    ),
    (
        r#"["trigger","/r",{"command":["a","a","a","a","a","a","a","a","a","a","a","a","a","a","a","a","a"],"name":"t"}]"#,
        TRIGGER,
    ),
    (r#"["trigger","/r",{"command":[],"name":"t"}]"#, TRIGGER),
    (r#"["trigger","/r",{"command":[""],"name":"t"}]"#, TRIGGER),
    (
        r#"["trigger","/r",{"command":["","a"],"name":"t"}]"#,
        TRIGGER,
    ),
    (
        r#"["trigger","/r",{"command":["a",1],"name":"t"}]"#,
        TRIGGER,
    ),
    (r#"["trigger","/r",{"command":"true","name":"t"}]"#, TRIGGER),
];

pub(super) fn bad_triggers() -> &'static [Row<'static>] {
    BAD_TRIGGERS
}
