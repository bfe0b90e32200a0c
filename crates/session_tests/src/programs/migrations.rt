//! `migrate` over real files.
use super::calls::{Call, DEVICE_FAILED, answers};
use crate::checks::check;
use crate::disks::content_of_version_1;
use std::fs;
use std::fs::{File, Files};
use std::process::Abort;
use wm_file::{FileDisk, Unknown};

const DAMAGED: &str = "watchmand: 14 Damaged\n";

const RETIRED: &str = "watchmand: 20 Retired\n";

const MIGRATED: &str = "migrated\n";

/// Where the slot A of a file of version 2 begins.
const SLOT: usize = 4_096;

/// A slot with number 1 and 59 bytes: incarnation 1, next root number 2, and the root `/r` with number 1 and the trigger `t`, whose one word
/// is `true`, with no expression, no `append_files`, no names on standard input and no `max_files_stdin`.
const MOVED: &[u8] = b"\xa5\x00\x00\x00\x00\x00\x00\x00\x01\x00\x00\x00\x3b\
\x00\x00\x00\x00\x00\x00\x00\x01\x00\x00\x00\x00\x00\x00\x00\x02\x00\x00\x00\x01\
\x00\x00\x00\x02/r\x00\x00\x00\x00\x00\x00\x00\x01\x00\x00\x00\x01\
\x00\x00\x00\x01t\x00\x00\x00\x01\x00\x00\x00\x04true\x00\x00\x00\x00";

/// The header of a file of version 2.
const HEADER: &[u8] = b"\xa5WMSTATE\x00\x00\x00\x02\x00";

/// Takes away what an earlier run of a test left.
fn clear(files: &impl Files<File = File>, paths: &[&str]) {
    for path in paths {
        drop(fs::remove_file(files, *path));
    }
}

/// Writes a new file of version 1.
fn write_version_1<R: Files<File = File> + AllocGlobal + Abort>(rt: &R, path: &str) {
    let content = content_of_version_1(rt, rt.alloc());
    fs::write(rt, path, content.as_slice()).expect(rt, "a write");
    drop(content);
}

/// Asserts that the program answers each call as its row says.
fn assert_calls<R: Files<File = File> + AllocGlobal + Abort>(rt: &R, calls: &[Call<'_>]) {
    for call in calls {
        check!(rt; answers(rt, rt.alloc(), rt, call), (call.0, call.1));
    }
}

/// Whether these bytes stand at the place.
fn stands(content: &[u8], place: usize, bytes: &[u8]) -> bool {
    match content.split_at_checked(place) {
        Some((_, rest)) => rest.starts_with(bytes),
        None => false,
    }
}

fn is_there<R: Files>(rt: &R, path: &str) -> bool {
    fs::metadata(rt, path).is_ok()
}

/// Whether the file holds this text.
fn holds<R: Files<File = File> + AllocGlobal + Abort>(rt: &R, path: &str, text: &str) -> bool {
    let whole = fs::read_to_string(rt, path).expect(rt, "a text");
    let holds = whole.as_str() == text;
    drop(whole);
    holds
}

const OLD: &str = "wm_server_old";

const NEW: &str = "wm_server_new";

/// A watch and a trigger on a file of version 1, which is migrated.
const MOVES: &[Call<'static>] = &[
    (
        &["lines", OLD],
        "[\"watch\",\"/r\"]\n[\"trigger\",\"/r\",{\"command\":[\"true\"],\"name\":\"t\"}]\n",
        0,
        "{\"version\":\"w1\",\"watch\":\"/r\"}\n{\"disposition\":\"created\",\"triggerid\":\"t\",\"version\":\"w1\"}\n",
        "",
    ),
    (&["migrate", OLD, NEW], "", 0, MIGRATED, ""),
    (&["lines", OLD], "[\"watch-list\"]\n", 1, "", RETIRED),
    (&["migrate", OLD, NEW], "", 0, MIGRATED, ""),
];

/// The next start finds both, and is the second incarnation.
const FOUND: &[Call<'static>] = &[
    (
        &["lines", NEW],
        "[\"listing\",\"/r\",0,\"\",[[\"a.c\",{\"mtime_ms\":0,\"size\":3,\"type\":\"f\"}]]]\n[\"trigger-list\",\"/r\"]\n",
        0,
        "{\"clock\":\"c:2:1:1\",\"version\":\"w1\"}\n{\"triggers\":[{\"append_files\":false,\"command\":[\"true\"],\"name\":\"t\",\"stdin\":\"/dev/null\"}],\"version\":\"w1\"}\n",
        "",
    ),
    (&["lines", OLD], "[\"watch-list\"]\n", 1, "", RETIRED),
];

#[test]
fn moves_a_watch_and_a_trigger(rt: HostRuntime) {
    clear(&rt, &[OLD, NEW]);
    write_version_1(&rt, OLD);
    assert_calls(&rt, MOVES);
    let content = fs::read(&rt, NEW).expect(&rt, "a file");
    check!(rt; content.len() == 8_916_992);
    check!(rt; stands(&content, 0, HEADER) && stands(&content, SLOT, MOVED));
    drop(content);
    assert_calls(&rt, FOUND);
    clear(&rt, &[OLD, NEW]);
}

const KEPT: &str = "wm_server_kept";

const UNMADE: &str = "wm_server_unmade";

const SHORT: &str = "wm_server_short";

const SECOND: &str = "wm_server_second";

const LINK: &str = "wm_server_link";

/// What is refused before a new file is made.
const REFUSED: &[Call<'static>] = &[
    (
        &["migrate", "wm_server_no_file", UNMADE],
        "",
        1,
        "",
        DEVICE_FAILED,
    ),
    (&["migrate", KEPT, KEPT], "", 1, "", DEVICE_FAILED),
    (&["migrate", KEPT, LINK], "", 1, "", DEVICE_FAILED),
    (&["migrate", KEPT, "."], "", 1, "", DEVICE_FAILED),
    (
        &["migrate", KEPT, "wm_server_no_folder/new"],
        "",
        1,
        "",
        DEVICE_FAILED,
    ),
    (&["migrate", SHORT, UNMADE], "", 1, "", DAMAGED),
    (&["format", SECOND], "", 0, "formatted\n", ""),
    (&["migrate", SECOND, UNMADE], "", 1, "", DAMAGED),
    (
        &["lines", KEPT],
        "[\"watch-list\"]\n",
        0,
        "{\"roots\":[],\"version\":\"w1\"}\n",
        "",
    ),
    (
        &["lines", SECOND],
        "[\"watch-list\"]\n",
        0,
        "{\"roots\":[],\"version\":\"w1\"}\n",
        "",
    ),
];

#[test]
fn makes_no_new_file_if_the_old_one_has_nothing_to_move(rt: HostRuntime) {
    clear(&rt, &[KEPT, UNMADE, SHORT, SECOND, LINK]);
    write_version_1(&rt, KEPT);
    fs::hard_link(&rt, KEPT, LINK).expect(&rt, "a link");
    fs::write(&rt, SHORT, b"abc".as_slice()).expect(&rt, "a write");
    assert_calls(&rt, REFUSED);
    check!(rt; !is_there(&rt, UNMADE) && holds(&rt, SHORT, "abc"));
    clear(&rt, &[KEPT, SHORT, SECOND, LINK]);
}

const MOVED_OUT: &str = "wm_server_moved_out";

const OVER: &str = "wm_server_over";

const NEVER_MADE: &str = "wm_server_never_made";

const OTHER: &str = "wm_server_other";

/// A file that isn't a state file is written over. Beside a retired file a new one is never made or written over.
const ONCE_MOVED: &[Call<'static>] = &[
    (&["migrate", MOVED_OUT, OVER], "", 0, MIGRATED, ""),
    (
        &["migrate", MOVED_OUT, NEVER_MADE],
        "",
        1,
        "",
        DEVICE_FAILED,
    ),
    (&["migrate", MOVED_OUT, OTHER], "", 1, "", DAMAGED),
    (&["migrate", MOVED_OUT, OVER], "", 0, MIGRATED, ""),
    (
        &["lines", OVER],
        "[\"watch-list\"]\n",
        0,
        "{\"roots\":[],\"version\":\"w1\"}\n",
        "",
    ),
];

#[test]
fn looks_for_what_was_moved(rt: HostRuntime) {
    clear(&rt, &[MOVED_OUT, OVER, NEVER_MADE, OTHER]);
    write_version_1(&rt, MOVED_OUT);
    fs::write(&rt, OVER, b"abc".as_slice()).expect(&rt, "a write");
    fs::write(&rt, OTHER, b"abc".as_slice()).expect(&rt, "a write");
    assert_calls(&rt, ONCE_MOVED);
    check!(rt; !is_there(&rt, NEVER_MADE) && holds(&rt, OTHER, "abc"));
    clear(&rt, &[MOVED_OUT, OVER, OTHER]);
}

const FREE: &str = "wm_server_free";

const OWNED: &str = "wm_server_owned";

/// Either file may have another owner.
const BOTH_WAYS: &[Call<'static>] = &[
    (&["migrate", FREE, OWNED], "", 1, "", DEVICE_FAILED),
    (&["migrate", OWNED, FREE], "", 1, "", DEVICE_FAILED),
];

#[test]
fn takes_no_file_that_another_has(rt: HostRuntime) {
    clear(&rt, &[FREE, OWNED]);
    write_version_1(&rt, FREE);
    fs::write(&rt, OWNED, b"abc".as_slice()).expect(&rt, "a write");
    let owner = FileDisk::<Unknown>::open(&rt, OWNED).expect(&rt, "a disk");
    assert_calls(&rt, BOTH_WAYS);
    drop(owner);
    check!(rt; holds(&rt, OWNED, "abc"));
    let content = content_of_version_1(&rt, rt.alloc());
    let free = fs::read(&rt, FREE).expect(&rt, "a file");
    check!(rt; free == content);
    drop(free);
    drop(content);
    clear(&rt, &[FREE, OWNED]);
}
