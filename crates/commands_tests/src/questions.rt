//! The lines that ask for files.
use crate::checks::check;
use serde_json::Value;
use wm_commands::{expression, fits_in_pattern, query_line, root_line, since_text, subscribe_line};

/// The folder's path below the root, patterns, the user's own expression, and what is asked for.
const EXPRESSIONS: &[(Option<&str>, &[&str], Option<&str>, &str)] = &[
    (None, &[], None, "[\"allof\"]"),
    (
        None,
        &["*.c"],
        None,
        "[\"allof\",[\"anyof\",[\"match\",\"*.c\"]]]",
    ),
    (
        Some("lib"),
        &[],
        None,
        "[\"allof\",[\"match\",\"lib/**\",\"wholename\"]]",
    ),
    (
        Some("lib"),
        &["*.c", "x/*.h"],
        None,
        "[\"allof\",[\"match\",\"lib/**\",\"wholename\"],[\"anyof\",[\"match\",\"*.c\"],[\"match\",\"lib/x/*.h\",\"wholename\"]]]",
    ),
    (
        None,
        &["x/*.h"],
        Some("[\"type\",\"f\"]"),
        "[\"allof\",[\"anyof\",[\"match\",\"x/*.h\",\"wholename\"]],[\"type\",\"f\"]]",
    ),
    (
        Some("a*b"),
        &["*.c"],
        None,
        "[\"allof\",[\"anyof\",[\"match\",\"*.c\"]]]",
    ),
];

#[test]
fn expressions_of_the_table(rt: HostRuntime) {
    let alloc = rt.alloc();
    for (below, patterns, own, wanted) in EXPRESSIONS {
        let mut texts = Vec::new(alloc);
        for pattern in *patterns {
            texts
                .push(String::from_str(alloc, pattern).expect(&rt, "memory"))
                .expect(&rt, "memory");
        }
        let own = own.map(|text| Value::from_str(alloc, text).expect(&rt, "JSON"));
        let found = expression(alloc, *below, &texts, own).expect(&rt, "memory");
        let found = found.to_string(alloc).expect(&rt, "memory");
        check!(rt; found.as_str() == *wanted, (below, found));
    }
}

#[test]
fn lines_of_questions(rt: HostRuntime) {
    let alloc = rt.alloc();
    let all = || Value::from_str(alloc, "\"true\"");
    let line = query_line(alloc, "/r", None, all().expect(&rt, "JSON"), false).expect(
        &rt, "memory",
    );
    check!(rt; line.as_str() == "[\"query\",\"/r\",{\"expression\":\"true\",\"fields\":[\"name\"]}]", line);
    let line = query_line(alloc, "/r", Some("n:x"), all().expect(&rt, "JSON"), true).expect(
        &rt, "memory",
    );
    check!(rt; line.as_str() == "[\"query\",\"/r\",{\"expression\":\"true\",\"fields\":[\"name\",\"exists\",\"new\",\"size\"],\"since\":\"n:x\"}]", line);
    let line = subscribe_line(
        alloc,
        "/r",
        Some("c:1:1:2"),
        all().expect(&rt, "JSON"),
        false,
    )
    .expect(&rt, "memory");
    check!(rt; line.as_str() == "[\"subscribe\",\"/r\",\"wm\",{\"expression\":\"true\",\"fields\":[\"name\"],\"since\":\"c:1:1:2\"}]", line);
    let line = root_line(alloc, "watch", "/r \"q\"").expect(&rt, "memory");
    check!(rt; line.as_str() == "[\"watch\",\"/r \\\"q\\\"\"]", line);
}

/// What is said of since when, and what is asked.
const SINCE: &[(&str, &str)] = &[
    ("@make", "n:make"),
    ("c:1:1:2", "c:1:1:2"),
    ("@", "n:"),
    ("@@", "n:@"),
];

#[test]
fn since_of_the_table(rt: HostRuntime) {
    let alloc = rt.alloc();
    for (word, wanted) in SINCE {
        let found = since_text(alloc, word).expect(&rt, "memory");
        check!(rt; found.as_str() == *wanted, word);
    }
}

/// Folders, and whether their path can stand in a pattern.
const PLAIN: &[(&str, bool)] = &[
    ("a/b c", true),
    ("", true),
    ("a*", false),
    ("?a", false),
    ("a[", false),
    ("a]", true),
    ("a\\b", false),
];

#[test]
fn plain_of_the_table(rt: HostRuntime) {
    for (folder, wanted) in PLAIN {
        check!(rt; fits_in_pattern(folder) == *wanted, folder);
    }
}
