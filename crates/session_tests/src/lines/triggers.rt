//! Sessions with triggers, roots that are watched no longer, and a second start.
use crate::disks::new_file;
use crate::ends::{ACCEPTED, Row, assert_serves, assert_session};
use std::alloc::Global;
use std::process::Abort;
use wm_disk::MemDisk;
use wm_names::RootPath;
use wm_registry::{Command, MAX_BATCH, Stdin, Trigger};
use wm_store::Store;

/// A trigger that is made, made again, replaced and deleted, and a root that is watched no longer.
const TRIGGERS: &[Row<'static>] = &[
    (r#"["watch","/r"]"#, r#"{"version":"w1","watch":"/r"}"#),
    (
        r#"["trigger","/r",{"command":["true"],"name":"t"}]"#,
        r#"{"disposition":"created","triggerid":"t","version":"w1"}"#,
    ),
    (
        r#"["trigger","/r",{"command":["true"],"name":"t"}]"#,
        r#"{"disposition":"already_defined","triggerid":"t","version":"w1"}"#,
    ),
    (
        r#"["trigger-list","/r"]"#,
        r#"{"triggers":[{"append_files":false,"command":["true"],"name":"t","stdin":"/dev/null"}],"version":"w1"}"#,
    ),
    (
        r#"["trigger","/r",{"command":["false"],"name":"t"}]"#,
        r#"{"disposition":"replaced","triggerid":"t","version":"w1"}"#,
    ),
    (
        r#"["trigger-list","/r"]"#,
        r#"{"triggers":[{"append_files":false,"command":["false"],"name":"t","stdin":"/dev/null"}],"version":"w1"}"#,
    ),
    (
        r#"["trigger-del","/r","t"]"#,
        r#"{"deleted":true,"trigger":"t","version":"w1"}"#,
    ),
    (
        r#"["trigger-del","/r","t"]"#,
        r#"{"deleted":false,"trigger":"t","version":"w1"}"#,
    ),
    (
        r#"["trigger-list","/r"]"#,
        r#"{"triggers":[],"version":"w1"}"#,
    ),
    (
        r#"["watch-del","/r"]"#,
        r#"{"root":"/r","version":"w1","watch-del":true}"#,
    ),
    (
        r#"["watch-del","/r"]"#,
        r#"{"error":"5 NotWatched","version":"w1"}"#,
    ),
    (
        r#"["trigger-list","/r"]"#,
        r#"{"error":"5 NotWatched","version":"w1"}"#,
    ),
];

fn triggers() -> &'static [Row<'static>] {
    TRIGGERS
}

/// A trigger with an expression, which is kept as compact JSON and shown as JSON.
const WITH_EXPRESSIONS: &[Row<'static>] = &[
    (r#"["watch","/r"]"#, r#"{"version":"w1","watch":"/r"}"#),
    (
        r#"["trigger","/r",{"command":["true"],"expression":["allof",["suffix","c"],["not",["size","gt",10]]],"name":"t"}]"#,
        r#"{"disposition":"created","triggerid":"t","version":"w1"}"#,
    ),
    (
        r#"["trigger","/r",{"command":["true"],"name":"t","expression": ["allof", ["suffix", "\u0063"], ["not", ["size", "gt", 10]]]}]"#,
        r#"{"disposition":"already_defined","triggerid":"t","version":"w1"}"#,
    ),
    (
        r#"["trigger-list","/r"]"#,
        r#"{"triggers":[{"append_files":false,"command":["true"],"expression":["allof",["suffix","c"],["not",["size","gt",10]]],"name":"t","stdin":"/dev/null"}],"version":"w1"}"#,
    ),
    // Two spellings of one test are two definitions.
    (
        r#"["trigger","/r",{"command":["true"],"expression":"true","name":"t"}]"#,
        r#"{"disposition":"replaced","triggerid":"t","version":"w1"}"#,
    ),
    (
        r#"["trigger","/r",{"command":["true"],"expression":["true"],"name":"t"}]"#,
        r#"{"disposition":"replaced","triggerid":"t","version":"w1"}"#,
    ),
    (
        r#"["trigger","/r",{"command":["true"],"expression":["true","no"],"name":"t"}]"#,
        r#"{"error":"8 BadExpression","version":"w1"}"#,
    ),
    (
        r#"["trigger-list","/r"]"#,
        r#"{"triggers":[{"append_files":false,"command":["true"],"expression":["true"],"name":"t","stdin":"/dev/null"}],"version":"w1"}"#,
    ),
];

fn with_expressions() -> &'static [Row<'static>] {
    WITH_EXPRESSIONS
}

/// A root that is watched again is another root, with a view of its own.
const WATCHED_AGAIN: &[Row<'static>] = &[
    (r#"["watch","/r"]"#, r#"{"version":"w1","watch":"/r"}"#),
    (
        r#"["watch-del","/r"]"#,
        r#"{"root":"/r","version":"w1","watch-del":true}"#,
    ),
    (r#"["watch","/r"]"#, r#"{"version":"w1","watch":"/r"}"#),
    (
        r#"["listing","/r",0,"",[]]"#,
        r#"{"clock":"c:1:2:1","version":"w1"}"#,
    ),
    (
        r#"["since","/r","c:1:1:4"]"#,
        r#"{"clock":"c:1:2:1","files":[],"is_fresh_instance":true,"version":"w1"}"#,
    ),
];

/// The root in front goes, and the other keeps its view.
const FIRST_UNWATCHED: &[Row<'static>] = &[
    (r#"["watch","/a"]"#, r#"{"version":"w1","watch":"/a"}"#),
    (r#"["watch","/b"]"#, r#"{"version":"w1","watch":"/b"}"#),
    (
        r#"["listing","/b",0,"",[]]"#,
        r#"{"clock":"c:1:2:1","version":"w1"}"#,
    ),
    (
        r#"["watch-del","/a"]"#,
        r#"{"root":"/a","version":"w1","watch-del":true}"#,
    ),
    (
        r#"["clock","/a"]"#,
        r#"{"error":"5 NotWatched","version":"w1"}"#,
    ),
    (r#"["clock","/b"]"#, r#"{"clock":"c:1:2:1","version":"w1"}"#),
    (r#"["watch-list"]"#, r#"{"roots":["/b"],"version":"w1"}"#),
];

/// What a second start shows: watches and triggers as they were, and the next incarnation.
const SECOND_START: &[Row<'static>] = &[
    (r#"["watch-list"]"#, r#"{"roots":["/r"],"version":"w1"}"#),
    (
        r#"["trigger-list","/r"]"#,
        r#"{"triggers":[{"append_files":false,"command":["true"],"expression":["suffix","c"],"name":"t","stdin":"/dev/null"}],"version":"w1"}"#,
    ),
    (
        r#"["listing","/r",0,"",[]]"#,
        r#"{"clock":"c:2:1:1","version":"w1"}"#,
    ),
    (r#"["clock","/r"]"#, r#"{"clock":"c:2:1:1","version":"w1"}"#),
];

/// The lines of the session before a second start.
const EARLIER: &str =
    "[\"watch\",\"/r\"]\n[\"trigger\",\"/r\",{\"command\":[\"true\"],\"expression\":[\"suffix\",\"c\"],\"name\":\"t\"}]\n";

#[test]
fn answers_triggers_and_watches(rt: HostRuntime) {
    let alloc = rt.alloc();
    assert_session(&rt, alloc, &[], &[triggers()], ACCEPTED, "triggers");
    assert_session(
        &rt,
        alloc,
        &[],
        &[with_expressions()],
        ACCEPTED,
        "expressions",
    );
    assert_session(&rt, alloc, &[], &[WATCHED_AGAIN], ACCEPTED, "watched again");
    assert_session(
        &rt,
        alloc,
        &[],
        &[FIRST_UNWATCHED],
        ACCEPTED,
        "the first unwatched",
    );
    assert_session(
        &rt,
        alloc,
        &[EARLIER],
        &[SECOND_START],
        ACCEPTED,
        "a second start",
    );
}

/// A watch, and a trigger that keeps this text of an expression.
fn commands_keeping(rt: &impl Abort, alloc: Global, text: &str) -> Vec<Command> {
    let root = RootPath::read(alloc, "/r").expect(rt, "a path");
    let watched = root.copy(alloc).expect(rt, "a path");
    let trigger = Trigger::new(
        alloc,
        "t",
        &["true"],
        Some(text),
        false,
        Stdin::DevNull,
        None,
    );
    let trigger = trigger.expect(rt, "a trigger");
    let mut batch = Vec::new(alloc);
    batch.push(Command::Watch(watched)).expect(rt, "memory");
    batch
        .push(Command::Trigger(root, trigger))
        .expect(rt, "memory");
    batch
}

/// A store over a new file, to which these commands were told.
pub(super) fn store_with(rt: &impl Abort, alloc: Global, batch: Vec<Command>) -> Store<MemDisk> {
    assert!(rt; batch.len() <= MAX_BATCH, "too many commands");
    let Ok(mut store) = Store::open(alloc, new_file(rt, alloc)) else {
        panic!(rt; "the file can't be opened");
    };
    let replies = store.commit_batch(alloc, batch).expect(rt, "a commit");
    drop(replies);
    store
}

/// A file in which these commands were accepted.
fn file_of(rt: &impl Abort, alloc: Global, batch: Vec<Command>) -> MemDisk {
    let mut store = store_with(rt, alloc, batch);
    store.close().expect(rt, "a close");
    store.into_disk()
}

/// A text that a trigger keeps, and how a start with it ends: its status, its replies and what it tells
/// of faults.
type Kept<'a> = (&'a str, u8, &'a str, &'a str);

const KEPT: &[Kept<'static>] = &[
    ("\"true\"", 0, "{\"version\":\"w1\"}\n", ""),
    (" [ \"true\" ] ", 0, "{\"version\":\"w1\"}\n", ""),
    ("true", 1, "", "watchmand: 14 Damaged\n"),
    ("[\"no\"]", 1, "", "watchmand: 14 Damaged\n"),
    ("[", 1, "", "watchmand: 14 Damaged\n"),
    ("", 1, "", "watchmand: 14 Damaged\n"),
];

/// A start with the text ends so.
fn assert_met(rt: &impl Abort, alloc: Global, kept: &Kept<'_>) {
    let (text, status, output, faults) = *kept;
    let disk = file_of(rt, alloc, commands_keeping(rt, alloc, text));
    let wanted = (status, output, faults, ACCEPTED);
    assert_serves(rt, alloc, disk, b"[\"version\"]\n", wanted, text);
}

/// A start refuses texts that are no expressions, and takes up those that are.
#[test]
fn refuses_kept_texts_that_are_no_expressions(rt: HostRuntime) {
    for kept in KEPT {
        assert_met(&rt, rt.alloc(), kept);
    }
}
