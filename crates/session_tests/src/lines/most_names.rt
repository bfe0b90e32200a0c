//! How many names a trigger's program reads: sessions over files of both versions.
use crate::disks::{content_of_version_1, disk_of};
use crate::ends::{ACCEPTED, Row, assert_rows, assert_session};
use std::alloc::Global;
use std::process::Abort;
use wm_disk::MemDisk;

/// The most names that a trigger's program reads: from 1 to 2^32 - 1, shown where it is there.
const MOST_NAMES: &[Row<'static>] = &[
    (r#"["watch","/r"]"#, r#"{"version":"w1","watch":"/r"}"#),
    (
        r#"["trigger","/r",{"command":["cat"],"max_files_stdin":1,"name":"t","stdin":"NAME_PER_LINE"}]"#,
        r#"{"disposition":"created","triggerid":"t","version":"w1"}"#,
    ),
    (
        r#"["trigger-list","/r"]"#,
        r#"{"triggers":[{"append_files":false,"command":["cat"],"max_files_stdin":1,"name":"t","stdin":"NAME_PER_LINE"}],"version":"w1"}"#,
    ),
    (
        r#"["trigger","/r",{"stdin":"NAME_PER_LINE","name":"t","max_files_stdin":1,"command":["cat"]}]"#,
        r#"{"disposition":"already_defined","triggerid":"t","version":"w1"}"#,
    ),
    (
        r#"["trigger","/r",{"append_files":true,"command":["cat"],"expression":["suffix","c"],"max_files_stdin":4294967295,"name":"t","stdin":"NAME_PER_LINE"}]"#,
        r#"{"disposition":"replaced","triggerid":"t","version":"w1"}"#,
    ),
    (
        r#"["trigger","/r",{"command":["true"],"name":"u"}]"#,
        r#"{"disposition":"created","triggerid":"u","version":"w1"}"#,
    ),
    (
        r#"["trigger","/r",{"command":["true"],"max_files_stdin":2,"name":"u"}]"#,
        r#"{"disposition":"replaced","triggerid":"u","version":"w1"}"#,
    ),
    (
        r#"["trigger-list","/r"]"#,
        r#"{"triggers":[{"append_files":true,"command":["cat"],"expression":["suffix","c"],"max_files_stdin":4294967295,"name":"t","stdin":"NAME_PER_LINE"},{"append_files":false,"command":["true"],"max_files_stdin":2,"name":"u","stdin":"/dev/null"}],"version":"w1"}"#,
    ),
];

fn most_names() -> &'static [Row<'static>] {
    MOST_NAMES
}

const BAD_TRIGGER: &str = r#"{"error":"10 BadTrigger","version":"w1"}"#;

/// Numbers that are refused, and what is told of several faults.
const BAD_NUMBERS: &[Row<'static>] = &[
    (r#"["watch","/r"]"#, r#"{"version":"w1","watch":"/r"}"#),
    (
        r#"["trigger","/r",{"command":["true"],"max_files_stdin":0,"name":"t"}]"#,
        BAD_TRIGGER,
    ),
    (
        r#"["trigger","/r",{"command":["true"],"max_files_stdin":4294967296,"name":"t"}]"#,
        BAD_TRIGGER,
    ),
    (
        r#"["trigger","/r",{"command":["true"],"max_files_stdin":-1,"name":"t"}]"#,
        BAD_TRIGGER,
    ),
    (
        r#"["trigger","/r",{"command":["true"],"max_files_stdin":1.5,"name":"t"}]"#,
        BAD_TRIGGER,
    ),
    (
        r#"["trigger","/r",{"command":["true"],"max_files_stdin":"1","name":"t"}]"#,
        BAD_TRIGGER,
    ),
    (
        r#"["trigger","/r",{"command":["true"],"max_files_stdin":null,"name":"t"}]"#,
        BAD_TRIGGER,
    ),
    (
        r#"["trigger","/r",{"command":["true"],"expression":"no","max_files_stdin":0,"name":"t"}]"#,
        r#"{"error":"8 BadExpression","version":"w1"}"#,
    ),
    (
        r#"["trigger","/s",{"command":["true"],"max_files_stdin":0,"name":"t"}]"#,
        BAD_TRIGGER,
    ),
    (
        r#"["trigger","/s",{"command":["true"],"max_files_stdin":1,"name":"t"}]"#,
        r#"{"error":"5 NotWatched","version":"w1"}"#,
    ),
    (
        r#"["trigger-list","/r"]"#,
        r#"{"triggers":[],"version":"w1"}"#,
    ),
];

fn bad_numbers() -> &'static [Row<'static>] {
    BAD_NUMBERS
}

/// A file of version 1 has no place for the number.
const IN_VERSION_1: &[Row<'static>] = &[
    (r#"["watch","/r"]"#, r#"{"version":"w1","watch":"/r"}"#),
    (
        r#"["trigger","/r",{"command":["sh","-c","cat > /o"],"expression":["suffix","c"],"max_files_stdin":1,"name":"t","stdin":"NAME_PER_LINE"}]"#,
        r#"{"error":"21 OldVersion","version":"w1"}"#,
    ),
    (
        r#"["trigger","/r",{"command":["true"],"max_files_stdin":0,"name":"t"}]"#,
        BAD_TRIGGER,
    ),
    (
        r#"["trigger","/s",{"command":["true"],"max_files_stdin":1,"name":"t"}]"#,
        r#"{"error":"5 NotWatched","version":"w1"}"#,
    ),
    (
        r#"["trigger-list","/r"]"#,
        r#"{"triggers":[],"version":"w1"}"#,
    ),
    (
        r#"["trigger","/r",{"command":["true"],"name":"t"}]"#,
        r#"{"disposition":"created","triggerid":"t","version":"w1"}"#,
    ),
    (
        r#"["trigger","/r",{"command":["true"],"max_files_stdin":1,"name":"t"}]"#,
        r#"{"error":"21 OldVersion","version":"w1"}"#,
    ),
    (
        r#"["trigger-list","/r"]"#,
        r#"{"triggers":[{"append_files":false,"command":["true"],"name":"t","stdin":"/dev/null"}],"version":"w1"}"#,
    ),
];

fn in_version_1() -> &'static [Row<'static>] {
    IN_VERSION_1
}

#[test]
fn answers_how_many_names_are_read(rt: HostRuntime) {
    let alloc = rt.alloc();
    assert_session(&rt, alloc, &[], &[most_names()], ACCEPTED, "most names");
    assert_session(&rt, alloc, &[], &[bad_numbers()], ACCEPTED, "bad numbers");
}

/// A disk with a new file of version 1.
fn file_of_version_1(rt: &impl Abort, alloc: Global) -> MemDisk {
    let content = content_of_version_1(rt, alloc);
    let disk = disk_of(rt, alloc, &content);
    drop(content);
    disk
}

#[test]
fn refuses_how_many_names_are_read_in_version_1(rt: HostRuntime) {
    let alloc = rt.alloc();
    let disk = file_of_version_1(&rt, alloc);
    assert_rows(&rt, alloc, disk, &[in_version_1()], b"", "version 1");
}
