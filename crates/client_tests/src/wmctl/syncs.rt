//! Requests that wait for a sync, over bytes in memory, and the files of a sync.
use crate::checks::check;
use crate::wmctl::systems::{AT_ONCE, NEVER, Plan, Planned};
use std::alloc::Global;
use std::fs;
use std::os::unix::fs::PermissionsExt;
use std::process::Abort;
use std::time::Instant;
use wm_client::{
    Request, Sync, SyncEnd, SyncFiles, SyncSystem, TalkEnd, root_number_of, synced_talk,
};

/// What is sent for the clock, and what that is answered of a root that is the seventh.
const CLOCK: &str = "[\"clock\",\"/r\"]\n";

const SEVENTH: &str = "{\"clock\":\"c:3:7:9\",\"version\":\"w1\"}\n";

const NOT_READY: &str = "{\"error\":\"6 NotReady\",\"version\":\"w1\"}\n";

const NOT_WATCHED: &str = "{\"error\":\"5 NotWatched\",\"version\":\"w1\"}\n";

const DONE: &str = "{\"version\":\"w1\"}\n";

const JSON: &str = "[\"x\"]\n";

/// What happens; what comes; the milliseconds that there are; how it ends; what is sent and printed; the files that were made and removed;
/// the least time that was slept, in milliseconds.
#[derive(Clone, Copy, Debug)]
struct Row {
    plan: Plan,
    comes: &'static [&'static str],
    timeout: u32,
    end: SyncEnd,
    sent: &'static [&'static str],
    printed: &'static str,
    files: (u32, u32),
    slept: u64,
}

/// A file that is gone at once.
const SYNCED: Row = Row {
    plan: AT_ONCE,
    comes: &[SEVENTH, DONE, "more\n"],
    timeout: 1_000,
    end: SyncEnd::Talked(TalkEnd::Told),
    sent: &[CLOCK, JSON],
    printed: DONE,
    files: (1, 0),
    slept: 0,
};

const ROWS: &[Row] = &[
    SYNCED,
    Row {
        timeout: 0,
        ..SYNCED
    },
    Row {
        plan: Plan {
            there: 7,
            ..AT_ONCE
        },
        slept: 1,
        ..SYNCED
    },
    Row {
        plan: Plan {
            there: 100,
            ..AT_ONCE
        },
        slept: 80,
        ..SYNCED
    },
    Row {
        plan: Plan {
            there: NEVER,
            ..AT_ONCE
        },
        end: SyncEnd::NoFeed,
        sent: &[CLOCK],
        printed: "",
        files: (1, 1),
        slept: 1_000,
        ..SYNCED
    },
    Row {
        plan: Plan {
            absent: NEVER,
            ..AT_ONCE
        },
        end: SyncEnd::NoFeed,
        sent: &[CLOCK],
        printed: "",
        files: (0, 0),
        slept: 1_000,
        ..SYNCED
    },
    Row {
        plan: Plan {
            folder: "s.sync/8",
            ..AT_ONCE
        },
        end: SyncEnd::NoFeed,
        sent: &[CLOCK],
        printed: "",
        files: (0, 0),
        slept: 1_000,
        ..SYNCED
    },
    Row {
        plan: Plan {
            absent: 5,
            ..AT_ONCE
        },
        slept: 50,
        ..SYNCED
    },
    Row {
        comes: &[NOT_WATCHED, DONE],
        end: SyncEnd::Unsynced(TalkEnd::Refused),
        sent: &[CLOCK],
        printed: NOT_WATCHED,
        files: (0, 0),
        ..SYNCED
    },
    Row {
        comes: &[NOT_READY, NOT_READY, SEVENTH, DONE],
        sent: &[CLOCK, CLOCK, CLOCK, JSON],
        slept: 20,
        ..SYNCED
    },
    Row {
        comes: &[NOT_READY, NOT_READY, NOT_READY, NOT_READY, NOT_READY],
        timeout: 30,
        end: SyncEnd::Unsynced(TalkEnd::Refused),
        sent: &[CLOCK, CLOCK, CLOCK, CLOCK],
        printed: NOT_READY,
        files: (0, 0),
        slept: 30,
        ..SYNCED
    },
    Row {
        comes: &[],
        end: SyncEnd::Unsynced(TalkEnd::NoReply),
        sent: &[CLOCK],
        printed: "",
        files: (0, 0),
        ..SYNCED
    },
    Row {
        comes: &["{\"clock\":\"c:3:7"],
        end: SyncEnd::Unsynced(TalkEnd::NoReply),
        sent: &[CLOCK],
        printed: "",
        files: (0, 0),
        ..SYNCED
    },
    Row {
        comes: &[DONE, DONE],
        end: SyncEnd::Unreadable,
        sent: &[CLOCK],
        printed: "",
        files: (0, 0),
        ..SYNCED
    },
    Row {
        comes: &[SEVENTH],
        end: SyncEnd::Talked(TalkEnd::NoReply),
        printed: "",
        ..SYNCED
    },
    Row {
        comes: &[SEVENTH, NOT_READY],
        end: SyncEnd::Talked(TalkEnd::Refused),
        printed: NOT_READY,
        ..SYNCED
    },
];

/// Parts of a text, one behind the other.
fn joined(host: &impl Abort, alloc: Global, parts: &[&str]) -> Vec<u8> {
    let mut bytes = Vec::new(alloc);
    for part in parts {
        bytes
            .extend_from_slice(part.as_bytes())
            .expect(host, "memory");
    }
    bytes
}

fn text(host: &impl Abort, alloc: Global, text: &str) -> String {
    String::from_str(alloc, text).expect(host, "memory")
}

/// A request to the socket `s`, of which so many lines more are printed, behind a sync of this root.
fn request(host: &impl Abort, alloc: Global, root: &str, timeout: u32) -> Request {
    Request {
        socket: text(host, alloc, "s"),
        json: text(host, alloc, "[\"x\"]"),
        follow: 0,
        sync: Some(Sync {
            root: text(host, alloc, root),
            timeout,
        }),
    }
}

fn check_row(host: &impl Abort, alloc: Global, row: &Row) {
    let asked = request(host, alloc, "/r", row.timeout);
    let system = Planned::new(row.plan);
    let comes = joined(host, alloc, row.comes);
    let mut replies = comes.as_slice();
    let mut sent = Vec::new(alloc);
    let mut printed = Vec::new(alloc);
    let end = synced_talk(
        alloc,
        &asked,
        &system,
        &mut sent,
        &mut replies,
        &mut printed,
    )
    .expect(host, "memory");
    check!(*host; end == row.end, (row, end));
    check!(*host; sent.as_slice() == joined(host, alloc, row.sent).as_slice(), row);
    check!(*host; printed.as_slice() == row.printed.as_bytes(), row);
    check!(*host; system.files() == row.files, row);
    let slept = system.slept() / 1_000;
    check!(*host; slept >= row.slept && slept.saturating_sub(row.slept) <= 1, (row, slept));
}

#[test]
fn syncs_of_the_table(rt: HostRuntime) {
    for row in ROWS {
        check_row(&rt, rt.alloc(), row);
    }
}

#[test]
fn asks_for_a_root_with_a_quote(rt: HostRuntime) {
    let alloc = rt.alloc();
    let asked = request(&rt, alloc, "/a\"b", 0);
    let mut replies = NOT_WATCHED.as_bytes();
    let mut sent = Vec::new(alloc);
    let mut printed = Vec::new(alloc);
    let system = Planned::new(AT_ONCE);
    let end = synced_talk(
        alloc,
        &asked,
        &system,
        &mut sent,
        &mut replies,
        &mut printed,
    )
    .expect(&rt, "memory");
    check!(rt; end == SyncEnd::Unsynced(TalkEnd::Refused), end);
    check!(rt; sent.as_slice() == b"[\"clock\",\"/a\\\"b\"]\n".as_slice());
}

/// Replies, and the number of the root whose clock they tell; 0: of none.
const NUMBERS: &[(&[u8], u64)] = &[
    (b"{\"clock\":\"c:1:2:3\",\"version\":\"w1\"}\n", 2),
    (
        b"{\"version\":\"w1\",\"clock\":\"c:9:9223372036854775807:1\"}",
        9_223_372_036_854_775_807,
    ),
    (b"{\"clock\":\"c:1:2\"}\n", 0),
    (b"{\"clock\":\"c:1:02:3\"}\n", 0),
    (b"{\"clock\":\"n:a\"}\n", 0),
    (b"{\"clock\":7}\n", 0),
    (b"{\"error\":\"5 NotWatched\",\"version\":\"w1\"}\n", 0),
    (b"[\"c:1:2:3\"]\n", 0),
    (b"{\"clock\":\"c:1:2:3\",\"version\":\"\xff\"}\n", 0),
    (b"", 0),
];

#[test]
fn numbers_of_the_table(rt: HostRuntime) {
    for (reply, wanted) in NUMBERS {
        let number = root_number_of(rt.alloc(), reply).expect(&rt, "memory");
        check!(rt; number.unwrap_or(0) == *wanted, (reply, number));
    }
}

#[test]
fn a_file_is_gone_only_from_a_folder_that_is_there(rt: HostRuntime) {
    const FOLDER: &str = "wm_client_files";
    let alloc = rt.alloc();
    let system = SyncFiles {
        rt: &rt,
        process: 812,
        begun: Instant::now(&rt).expect(&rt, "a clock"),
    };
    let none = system.make(alloc, FOLDER).expect(&rt, "memory");
    check!(rt; none.is_none());
    fs::create_dir(&rt, FOLDER).expect(&rt, "a folder");
    let made = system.make(alloc, FOLDER).expect(&rt, "memory");
    let made = made.expect(&rt, "a file");
    let other = system.make(alloc, FOLDER).expect(&rt, "memory");
    let other = other.expect(&rt, "another file");
    check!(rt; !system.is_gone(&made) && !system.is_gone(&other));
    system.remove(other);
    let mut only = fs::read_dir(&rt, FOLDER).expect(&rt, "a folder");
    let only = only.next().expect(&rt, "a file").expect(&rt, "a name");
    let mode = only.metadata().expect(&rt, "a file").permissions().mode();
    check!(rt; mode & 0o777 == 0o600 && only.file_name().starts_with("812."), mode);
    fs::remove_file(&rt, only.path()).expect(&rt, "a file");
    check!(rt; system.is_gone(&made));
    // A folder from which the file can be removed is empty now.
    fs::remove_dir(&rt, FOLDER).expect(&rt, "an empty folder");
    check!(rt; !system.is_gone(&made));
}
