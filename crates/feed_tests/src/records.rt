//! What records mean.
use crate::checks::check;
use std::alloc::{AllocError, Global};
use wm_feed::{Change, Told, read_record};

/// Records of the root `/r/oot`, and what they tell.
const RECORDS: &[(&[u8], &str)] = &[
    (b"/r/oot/\0CREATE\00\0/a\0", "entry  a: file"),
    (
        b"/r/oot/d/e/\0CLOSE_WRITE,CLOSE\00\0/a b\0",
        "entry d/e a b: content",
    ),
    (
        b"/r/oot/d/\0MODIFY\00\0/new\nline\0",
        "entry d new\nline: content",
    ),
    (b"/r/oot/d/\0ATTRIB\00\0/a\0", "entry d a: content"),
    (b"/r/oot/d/\0MODIFY,MOVED_TO\08a1\0/a\0", "entry d a: file"),
    (b"/r/oot/d/\0DELETE\00\0/,:/\0", "entry d ,:/: file"),
    (b"/r/oot/d/\0MOVED_FROM\08a1\0/a\0", "entry d a: file"),
    (b"/r/oot/d/\0MOVED_TO\08a1\0/a\0", "entry d a: file"),
    (b"/r/oot/\0CREATE,ISDIR\00\0/d\0", "entry  d: made"),
    (b"/r/oot/\0DELETE,ISDIR\00\0/d\0", "entry  d: removed"),
    (b"/r/oot/\0ATTRIB,ISDIR\00\0/d\0", "entry  d: folder"),
    (
        b"/r/oot/\0MOVED_FROM,ISDIR\08a1\0/d\0",
        "entry  d: left 8a1",
    ),
    (
        b"/r/oot/d/\0MOVED_TO,ISDIR\08a1\0/e\0",
        "entry d e: came 8a1",
    ),
    (b"/r/oot/d/\0CREATE\00\0/\xff\0", "folder d"),
    (b"/r/oot/d/\0CREATE,ISDIR\00\0/\xff\0", "folder d"),
    (b"/r/oot/\xff/\0CREATE\00\0/a\0", "nothing"),
    (b"/r/oot/d/\0DELETE_SELF\00\0/\0", "nothing"),
    (b"/r/oot/d/\0MOVE_SELF\00\0/\0", "nothing"),
    (b"/r/oot/\0ATTRIB,ISDIR\00\0/\0", "nothing"),
    (b"/r/oot/\0DELETE_SELF\00\0/\0", "doubt"),
    (b"/r/oot/\0MOVE_SELF\00\0/\0", "doubt"),
    (b"/r/oot/\0MOVED_FROM,ISDIR\08a1\0/\xff\0", "doubt"),
    (b"/r/oot/\xff/\0MOVED_TO,ISDIR\08a1\0/d\0", "doubt"),
    (b"/r/oot/d/\0UNMOUNT\00\0/\0", "doubt"),
    (b"\0Q_OVERFLOW\00\0/\0", "doubt"),
    (b"/r/ootx/\0CREATE\00\0/a\0", "doubt"),
    (b"/r/\0CREATE\00\0/a\0", "doubt"),
    (b"/r/oot/d\0CREATE\00\0/a\0", "doubt"),
    (b"/r/oot/\0CREATE\00\0a\0", "doubt"),
    (b"/r/oot/\0CREATE\0/a\0", "doubt"),
    (b"/r/oot/\0CREATE\00\0/a", "doubt"),
    (b"/r/oot/\0CREATE\00\0/a\0/b\0", "doubt"),
    (
        b"Couldn't watch new directory /r/oot/d/: No such file\n/r/oot/\0CREATE\00\0/a\0",
        "doubt",
    ),
    (b"", "doubt"),
];

fn happened(alloc: Global, change: Change<'_>) -> Result<String, AllocError> {
    match change {
        Change::Content => String::from_str(alloc, "content"),
        Change::File => String::from_str(alloc, "file"),
        Change::Folder => String::from_str(alloc, "folder"),
        Change::Made => String::from_str(alloc, "made"),
        Change::Removed => String::from_str(alloc, "removed"),
        Change::Left(cookie) => {
            let cookie = str::from_utf8(cookie).unwrap_or("");
            format!(in alloc; "left {cookie}")
        }
        Change::Came(cookie) => {
            let cookie = str::from_utf8(cookie).unwrap_or("");
            format!(in alloc; "came {cookie}")
        }
    }
}

fn shown(alloc: Global, told: Told<'_>) -> Result<String, AllocError> {
    match told {
        Told::Nothing => String::from_str(alloc, "nothing"),
        Told::Doubt => String::from_str(alloc, "doubt"),
        Told::Folder { folder } => format!(in alloc; "folder {folder}"),
        Told::Entry {
            folder,
            name,
            change,
        } => {
            let change = happened(alloc, change)?;
            format!(in alloc; "entry {folder} {name}: {change}")
        }
    }
}

#[test]
fn records_of_the_table(rt: HostRuntime) {
    for (record, wanted) in RECORDS {
        let told = shown(rt.alloc(), read_record("/r/oot", record)).expect(&rt, "memory");
        check!(rt; told.as_str() == *wanted, (record, told));
    }
}
