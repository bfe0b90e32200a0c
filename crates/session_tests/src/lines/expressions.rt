//! Questions with expressions: what each chooses, and which are none.
use crate::ends::{Row, assert_answers, texts};
use std::process::Abort;

/// A root with files of each kind, and one that is gone.
pub(super) const FILES: &[Row<'static>] = &[
    (r#"["watch","/r"]"#, r#"{"version":"w1","watch":"/r"}"#),
    (
        r#"["listing","/r",0,"",[["gone.c",{"mtime_ms":0,"size":3,"type":"f"}]]]"#,
        r#"{"clock":"c:1:1:1","version":"w1"}"#,
    ),
    (
        r#"["observe","/r",[[".hid",{"mtime_ms":0,"size":7,"type":"o"}],["a.c",{"mtime_ms":0,"size":3,"type":"f"}],["x",{"mtime_ms":0,"size":0,"type":"d"}],["x/l",{"mtime_ms":0,"size":4,"type":"l"}],["x/y.PHP",{"mtime_ms":0,"size":0,"type":"f"}]]]"#,
        r#"{"clock":"c:1:1:2","version":"w1"}"#,
    ),
    (
        r#"["observe","/r",[["gone.c",null]]]"#,
        r#"{"clock":"c:1:1:3","version":"w1"}"#,
    ),
];

const ALL: &str = r#""gone.c",".hid","a.c","x","x/l","x/y.PHP""#;

/// Expressions, and the files that each chooses.
const CHOSEN: &[(&str, &str)] = &[
    (r#""true""#, ALL),
    (r#"["true"]"#, ALL),
    (r#""false""#, ""),
    (r#"["false"]"#, ""),
    (r#"["not","true"]"#, ""),
    (r#"["not","false"]"#, ALL),
    (r#"["allof"]"#, ALL),
    (r#"["anyof"]"#, ""),
    (r#"["allof","exists",["suffix","c"]]"#, r#""a.c""#),
    (r#"["allof","exists","false"]"#, ""),
    (
        r#"["anyof",["name","x"],["suffix","c"]]"#,
        r#""gone.c","a.c","x""#,
    ),
    (r#"["name","l"]"#, r#""x/l""#),
    (r#"["name","l","basename"]"#, r#""x/l""#),
    (r#"["name","l","wholename"]"#, ""),
    (r#"["name","x/l","wholename"]"#, r#""x/l""#),
    (r#"["name","x/l"]"#, ""),
    (r#"["name",["x","a.c"]]"#, r#""a.c","x""#),
    (r#"["name",[]]"#, ""),
    (r#"["suffix","php"]"#, r#""x/y.PHP""#),
    (r#"["suffix",["c","PHP"]]"#, r#""gone.c","a.c","x/y.PHP""#),
    (r#"["suffix","hid"]"#, r#"".hid""#),
    (r#"["suffix",[]]"#, ""),
    (r#"["type","f"]"#, r#""gone.c","a.c","x/y.PHP""#),
    (r#"["type","d"]"#, r#""x""#),
    (r#"["type","l"]"#, r#""x/l""#),
    (r#"["type","o"]"#, r#"".hid""#),
    (r#""exists""#, r#"".hid","a.c","x","x/l","x/y.PHP""#),
    (r#"["exists"]"#, r#"".hid","a.c","x","x/l","x/y.PHP""#),
    (r#"["not","exists"]"#, r#""gone.c""#),
    (r#""empty""#, r#""x","x/y.PHP""#),
    (r#"["empty"]"#, r#""x","x/y.PHP""#),
    (r#"["size","eq",3]"#, r#""a.c""#),
    (r#"["size","ne",3]"#, r#"".hid","x","x/l","x/y.PHP""#),
    (r#"["size","gt",3]"#, r#"".hid","x/l""#),
    (r#"["size","ge",3]"#, r#"".hid","a.c","x/l""#),
    (r#"["size","lt",3]"#, r#""x","x/y.PHP""#),
    (r#"["size","le",3]"#, r#""a.c","x","x/y.PHP""#),
    (
        r#"["size","le",9223372036854775807]"#,
        r#"".hid","a.c","x","x/l","x/y.PHP""#,
    ),
    (r#"["match","*.c"]"#, r#""gone.c","a.c""#),
    (r#"["match","*.c","wholename"]"#, r#""gone.c","a.c""#),
    (r#"["match","y.*"]"#, r#""x/y.PHP""#),
    (r#"["match","y.*","basename"]"#, r#""x/y.PHP""#),
    (r#"["match","y.*","wholename"]"#, ""),
    (
        r#"["match","*","wholename"]"#,
        r#""gone.c",".hid","a.c","x""#,
    ),
    (r#"["match","*"]"#, ALL),
    (r#"["match","**/*","wholename"]"#, ALL),
    (r#"["match","**/l","wholename"]"#, r#""x/l""#),
    (r#"["match","x/**","wholename"]"#, r#""x/l","x/y.PHP""#),
    (r#"["match","?"]"#, r#""x","x/l""#),
    (r#"["match","?.c"]"#, r#""a.c""#),
    (r#"["match","a?c"]"#, r#""a.c""#),
    (r#"["match",""]"#, ""),
];

/// Values that are no expressions.
const NONE: &[&str] = &[
    r#""x""#,
    "null",
    "true",
    "1",
    "{}",
    "[]",
    r#"["x"]"#,
    r#"["true",1]"#,
    r#"["not"]"#,
    r#"["not","true","true"]"#,
    r#"["not",["x"]]"#,
    r#"["allof","true",1]"#,
    r#"["anyof",[]]"#,
    r#"["name"]"#,
    r#"["name",1]"#,
    r#"["name",["a",1]]"#,
    r#"["name","a","path"]"#,
    r#"["name","a","basename",1]"#,
    r#"["suffix"]"#,
    r#"["suffix","c","basename"]"#,
    r#"["type","x"]"#,
    r#"["size","is",1]"#,
    r#"["size","eq",-1]"#,
    r#"["size","eq",1.0]"#,
    r#"["size","eq",9223372036854775808]"#,
    r#"["match"]"#,
    r#"["match","[a]"]"#,
    r#"["match","a\\*"]"#,
    r#"["match","a","path"]"#,
    r#"["pcre","a"]"#,
];

/// How each question begins.
const QUESTION: &str = "[\"query\",\"/r\",{\"expression\":";

/// A text between two others.
fn put_between(rt: &impl Abort, front: &str, text: &str, back: &str, out: &mut String) {
    out.push_str(front).expect(rt, "memory");
    out.push_str(text).expect(rt, "memory");
    out.push_str(back).expect(rt, "memory");
}

/// A question for each expression, and the files that it chooses.
fn put_chosen(rt: &impl Abort, input: &mut String, output: &mut String) {
    for (expression, files) in CHOSEN {
        put_between(
            rt,
            QUESTION,
            expression,
            ",\"fields\":[\"name\"],\"since\":\"c:1:1:1\"}]\n",
            input,
        );
        put_between(
            rt,
            "{\"clock\":\"c:1:1:3\",\"files\":[",
            files,
            "],\"is_fresh_instance\":false,\"version\":\"w1\"}\n",
            output,
        );
    }
}

#[test]
fn chooses_files(rt: HostRuntime) {
    let (mut input, mut output) = texts(&rt, rt.alloc(), &[FILES]);
    put_chosen(&rt, &mut input, &mut output);
    assert_answers(&rt, rt.alloc(), &input, &output, "expressions");
    drop(input);
    drop(output);
}

/// A question for each value, and its refusal.
fn put_refused(rt: &impl Abort, input: &mut String, output: &mut String) {
    for value in NONE {
        put_between(rt, QUESTION, value, "}]\n", input);
        output
            .push_str("{\"error\":\"8 BadExpression\",\"version\":\"w1\"}\n")
            .expect(rt, "memory");
    }
}

#[test]
fn refuses_what_is_no_expression(rt: HostRuntime) {
    let (mut input, mut output) = texts(&rt, rt.alloc(), &[FILES]);
    put_refused(&rt, &mut input, &mut output);
    assert_answers(&rt, rt.alloc(), &input, &output, "no expressions");
    drop(input);
    drop(output);
}
