//! Damaged files, and devices, readers and writers that fail.
use crate::checks::check;
use crate::disks::{content_of, disk_of, journal, new_file};
use crate::ends::{End, assert_ends, end_of, end_of_one_fault};
use std::alloc::Global;
use std::io;
use std::io::{BufReader, ErrorKind, Read, Write};
use std::process::Abort;
use wm_disk::{Crashed, MemDisk, OneFault};
use wm_server::lines::lines_on;
use wm_session::{Input, Output};

/// Starts over a file, which must be refused and left as it was.
fn assert_refused(rt: &impl Abort, alloc: Global, content: &[u8], refusal: &str) {
    let mut reader = b"[\"version\"]\n".as_slice();
    let end = end_of(rt, alloc, disk_of(rt, alloc, content), &mut reader);
    let faults = format!(in alloc; "watchmand: {refusal}\n").expect(rt, "memory");
    assert_ends(rt, &end, (1, "", &faults, b""), refusal);
    check!(rt; end.content.as_slice() == content);
    drop(end);
    drop(faults);
}

/// A new file with another byte at a place.
fn changed_at(rt: &impl Abort, alloc: Global, place: usize) -> Vec<u8> {
    let mut content = content_of(rt, alloc, new_file(rt, alloc));
    if let Some(byte) = content.get_mut(place) {
        *byte = 0xa5;
    }
    content
}

/// As [`assert_refused`], of a new file with another byte at a place.
fn assert_refused_at(rt: &impl Abort, alloc: Global, place: usize, refusal: &str) {
    let content = changed_at(rt, alloc, place);
    assert_refused(rt, alloc, &content, refusal);
    drop(content);
}

/// Plain files of commands, and files that were never formatted.
const OTHERS: &[&[u8]] = &[b"", b"\x00", b"\x00\x01\x00\x00\x00\x02/r"];

#[test]
fn refuses_other_files(rt: HostRuntime) {
    let alloc = rt.alloc();
    for content in OTHERS {
        assert_refused(&rt, alloc, content, "14 Damaged");
    }
    let blank = vec![in alloc; 0u8; 8_916_992].expect(&rt, "memory");
    assert_refused(&rt, alloc, &blank, "14 Damaged");
    drop(blank);
    // a header of another kind, and that of a retired file
    assert_refused_at(&rt, alloc, 1, "14 Damaged");
    assert_refused_at(&rt, alloc, 12, "20 Retired");
}

const DEVICE_FAILED: &str = "watchmand: 13 DeviceFailed\n";

const STORE_FAILED: &str = "watchmand: 12 StoreFailed\n";

/// The lines that each failing device gets: two watches and a list.
const LINES: &str = "[\"watch\",\"/a\"]\n[\"watch\",\"/b\"]\n[\"watch-list\"]\n";

/// The replies to them where no call fails.
const ALL: &str =
    "{\"version\":\"w1\",\"watch\":\"/a\"}\n{\"version\":\"w1\",\"watch\":\"/b\"}\n{\"roots\":[\"/a\",\"/b\"],\"version\":\"w1\"}\n";

/// How the session ends, in order of the call that fails: its replies, what it tells of faults, whether
/// its status is 0, and the roots that the next start may find.
const OUTCOMES: &[(&str, &str, bool, &[&str])] = &[
    // a call of the start
    ("", DEVICE_FAILED, false, &["[]"]),
    // one of the first watch
    (
        "{\"error\":\"13 DeviceFailed\",\"version\":\"w1\"}\n{\"error\":\"12 StoreFailed\",\"version\":\"w1\"}\n{\"roots\":[],\"version\":\"w1\"}\n",
        STORE_FAILED,
        false,
        &["[]", "[\"/a\"]"],
    ),
    // one of the second
    (
        "{\"version\":\"w1\",\"watch\":\"/a\"}\n{\"error\":\"13 DeviceFailed\",\"version\":\"w1\"}\n{\"roots\":[\"/a\"],\"version\":\"w1\"}\n",
        STORE_FAILED,
        false,
        &["[\"/a\"]", "[\"/a\",\"/b\"]"],
    ),
    // the last sync
    (ALL, DEVICE_FAILED, false, &["[\"/a\",\"/b\"]"]),
    // none
    (ALL, "", true, &["[\"/a\",\"/b\"]"]),
];

/// The roots that a start over a content finds, as it lists them.
fn roots_found(rt: &impl Abort, alloc: Global, content: &[u8]) -> String {
    let mut reader = b"[\"watch-list\"]\n".as_slice();
    let End {
        output,
        status: _,
        faults,
        content,
    } = end_of(rt, alloc, disk_of(rt, alloc, content), &mut reader);
    drop(faults);
    drop(content);
    output
}

fn holds_one_of(found: &str, lists: &[&str]) -> bool {
    for list in lists {
        if found.contains(*list) {
            return true;
        }
    }
    false
}

/// The place of the outcome that a session had, after which a start finds these roots.
fn place_of(end: &End, found: &str) -> Option<usize> {
    for (place, (output, faults, is_well, roots)) in OUTCOMES.iter().enumerate() {
        let is_told = end.output.as_str() == *output && end.faults.as_str() == *faults;
        if is_told && (end.status == 0) == *is_well && holds_one_of(found, roots) {
            return Some(place);
        }
    }
    None
}

/// Whether each call fails from one on, or that one alone.
#[derive(Clone, Copy)]
enum Failing {
    FromThere,
    Once,
}

/// How the session ends on a device that fails after so many calls.
fn end_after(rt: &impl Abort, alloc: Global, failing: Failing, calls: u64) -> End {
    let mut disk = new_file(rt, alloc);
    match failing {
        Failing::FromThere => {
            disk.arm(calls);
            end_of(rt, alloc, disk, &mut LINES.as_bytes())
        }
        Failing::Once => {
            let disk = OneFault::new(disk, calls);
            end_of_one_fault(rt, alloc, disk, &mut LINES.as_bytes())
        }
    }
}

/// The outcome of that session, whose file is then opened again.
fn outcome_after(rt: &impl Abort, alloc: Global, failing: Failing, calls: u64) -> usize {
    let end = end_after(rt, alloc, failing, calls);
    let found = roots_found(rt, alloc, &end.content);
    let place = place_of(&end, &found);
    drop(end);
    drop(found);
    let Some(place) = place else {
        panic!(rt; "after {calls} calls the session ends otherwise");
    };
    place
}

/// Whether an outcome is that of the call before, or the next.
fn follows(reached: usize, place: usize) -> bool {
    reached == place || place.checked_sub(1) == Some(reached)
}

fn assert_outcomes(rt: &impl Abort, alloc: Global, failing: Failing) {
    let mut reached = 0;
    for calls in 0..200 {
        let place = outcome_after(rt, alloc, failing, calls);
        // The failing call comes later than before, and so does what it meets.
        check!(rt; follows(reached, place), calls);
        if place == 4 {
            // The session made fewer calls, so none of them failed.
            return;
        }
        reached = place;
    }
    panic!(rt; "a session on each of the devices fails");
}

#[test]
fn tells_a_failing_device(rt: HostRuntime) {
    assert_outcomes(&rt, rt.alloc(), Failing::FromThere);
}

/// After the one failure the device would take every write: none is made that changes what the file means.
#[test]
fn tells_a_device_that_failed_once(rt: HostRuntime) {
    assert_outcomes(&rt, rt.alloc(), Failing::Once);
}

/// A reader and writer whose calls fail in this way.
#[derive(Drop)]
struct Broken {
    kind: ErrorKind,
}

fn failing_by(kind: ErrorKind) -> Broken {
    Broken { kind }
}

impl Read for Broken {
    fn read(&mut self, _bytes: &mut [u8]) -> io::Result<usize> {
        Err(io::Error::from(self.kind))
    }
}

impl Write for Broken {
    fn write(&mut self, _bytes: &[u8]) -> io::Result<usize> {
        Err(io::Error::from(self.kind))
    }

    fn flush(&mut self) -> io::Result<()> {
        Ok(())
    }
}

/// How the journal begins after a start and a watch.
const WATCHES_A: &[u8] = b"\xa5\x00\xa5\x01\x00\x00\x00\x02/a\x00";

#[test]
fn tells_a_broken_reader(rt: HostRuntime) {
    let alloc = rt.alloc();
    let input = b"[\"watch\",\"/a\"]\n[\"watch\",\"/b\"".as_slice();
    let input = input.chain(failing_by(ErrorKind::Other));
    let mut reader = BufReader::new(alloc, input).expect(&rt, "memory");
    let end = end_of(&rt, alloc, new_file(&rt, alloc), &mut reader);
    drop(reader);
    let output = "{\"version\":\"w1\",\"watch\":\"/a\"}\n";
    let wanted = (1, output, DEVICE_FAILED, WATCHES_A);
    assert_ends(&rt, &end, wanted, "a broken reader");
    drop(end);
}

/// Whether the disk's journal begins with a start and a watch of `/a`.
fn watches_a(rt: &impl Abort, alloc: Global, disk: MemDisk) -> bool {
    let content = content_of(rt, alloc, disk);
    let watches = journal(&content, WATCHES_A.len()) == WATCHES_A;
    drop(content);
    watches
}

/// The first command is accepted, and then its reply can't be written. Whether this is told so, and what was
/// accepted stands.
fn ends_with(rt: &impl Abort, alloc: Global, kind: ErrorKind, told: &str) -> bool {
    let disk = new_file(rt, alloc);
    let mut faults = Vec::new(alloc);
    let mut reader = Input::new(LINES.as_bytes());
    let mut writer = Output::new(failing_by(kind));
    let mut telling = Output::new(&mut faults);
    let (status, disk) = lines_on(alloc, disk, &mut reader, &mut writer, &mut telling);
    drop(reader);
    drop(writer);
    drop(telling);
    let is_told = status == 1 && faults.as_slice() == told.as_bytes();
    drop(faults);
    is_told && watches_a(rt, alloc, disk)
}

/// The status of a session over a disk where nothing can be told.
fn status_untold(alloc: Global, disk: MemDisk) -> u8 {
    let mut reader = Input::new(LINES.as_bytes());
    let mut writer = Output::new(failing_by(ErrorKind::Other));
    let mut telling = Output::new(failing_by(ErrorKind::Other));
    let (status, disk) = lines_on(alloc, disk, &mut reader, &mut writer, &mut telling);
    drop(disk);
    drop(reader);
    drop(writer);
    drop(telling);
    status
}

#[test]
fn tells_broken_writers(rt: HostRuntime) {
    let alloc = rt.alloc();
    check!(rt; ends_with(&rt, alloc, ErrorKind::Other, DEVICE_FAILED));
    // nobody reads the replies any more
    check!(rt; ends_with(&rt, alloc, ErrorKind::BrokenPipe, ""));
    let damaged = disk_of(&rt, alloc, b"\x05");
    check!(rt; status_untold(alloc, damaged) == 1);
}
