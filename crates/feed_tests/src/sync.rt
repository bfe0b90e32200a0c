//! What a record tells of the folder of a root's syncs.
use crate::checks::check;
use wm_feed::{Synced, read_sync};

/// Records, and what they tell of the folder `/s/3`.
const RECORDS: &[(&[u8], Synced<'static>)] = &[
    (b"/s/3/\0CREATE\00\0/9.1\0", Synced::Asked("9.1")),
    (b"/s/3/\0MOVED_TO\08a1\0/9.1\0", Synced::Asked("9.1")),
    (b"/s/3/\0CREATE\00\0/a b\0", Synced::Asked("a b")),
    // it is closed or removed, or it is a folder
    (b"/s/3/\0CLOSE_WRITE,CLOSE\00\0/9.1\0", Synced::Nothing),
    (b"/s/3/\0DELETE\00\0/9.1\0", Synced::Nothing),
    (b"/s/3/\0MOVED_FROM\08a1\0/9.1\0", Synced::Nothing),
    (b"/s/3/\0CREATE,ISDIR\00\0/d\0", Synced::Nothing),
    (b"/s/3/\0MOVED_TO,ISDIR\08a1\0/d\0", Synced::Nothing),
    (b"/s/3/\0DELETE_SELF\00\0/\0", Synced::Nothing),
    (b"/s/3/\0CREATE\00\0/\0", Synced::Nothing),
    (b"/s/3/\0CREATED\00\0/9.1\0", Synced::Nothing),
    // no text
    (b"/s/3/\0CREATE\00\0/\xff\0", Synced::Nothing),
    // another folder
    (b"/s/3/d/\0CREATE\00\0/9.1\0", Synced::Elsewhere),
    (b"/s/33/\0CREATE\00\0/9.1\0", Synced::Elsewhere),
    (b"/s/\0CREATE\00\0/3\0", Synced::Elsewhere),
    (b"/s/3\0CREATE\00\0/9.1\0", Synced::Elsewhere),
    (b"/s/3//\0CREATE\00\0/9.1\0", Synced::Elsewhere),
    (b"/r/s/3/\0CREATE\00\0/9.1\0", Synced::Elsewhere),
    (b"\0Q_OVERFLOW\00\0/\0", Synced::Elsewhere),
    // no record
    (b"/s/3/\0CREATE\0/9.1\0", Synced::Elsewhere),
    (b"/s/3/\0CREATE\00\0/9.1", Synced::Elsewhere),
    (b"", Synced::Elsewhere),
];

#[test]
fn syncs_of_the_table(rt: HostRuntime) {
    for (record, wanted) in RECORDS {
        check!(rt; read_sync("/s/3", record) == *wanted, record);
    }
}
