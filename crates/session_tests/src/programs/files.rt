//! Real files as disks.
ghost use Rattle.std.specs.Prelude.{◌≡◌, ◌+◌, ◌≤◌, length, OnOk, true};
ghost use Rattle.wm_disk.specs.Contents.{Rose};

use super::read_only::ReadOnly;
use crate::checks::check;
use std::fs;
use std::fs::{File, Files};
use std::process::Abort;
use wm_disk::{DeviceFailed, Disk};
use wm_file::{FileDisk, Unknown};

/// Writes and syncs, and then reads the bytes back, through the trait. It gives the new length. Where it
/// succeeds, no failure was counted.
fn write_back<D: Disk>(
    disk: &mut D,
    at: u64,
    bytes: &[u8],
    back: &mut [u8],
) -> Result<u64, DeviceFailed>
    requires { length back.old ≡ length bytes.now }
    ensures reaches { D.honest disk.new → OnOk result (at + length bytes.now ≤ length (D.seen disk.new)) }
    ensures quiet { OnOk result (D.failures disk.new ≡ D.failures disk.old) }
{
    if disk.len()? < at {
        return Err(DeviceFailed);
    }
    disk.write_at(at, bytes)?;
    disk.sync()?;
    disk.read_at(at, back)?;
    disk.len()
}

/// A write, and the length and the text of the file after it.
type Write<'a> = (u64, &'a [u8; 3], u64, &'a str);

/// One write after the other.
const WRITES: &[Write<'static>] = &[
    (0, b"abc", 3, "abc"),
    (3, b"def", 6, "abcdef"),
    (1, b"XYZ", 6, "aXYZef"),
    (5, b"!!!", 8, "aXYZe!!!"),
];

fn gives_back<R: Files<File = File> + AllocGlobal + Abort>(
    rt: &R,
    path: &str,
    disk: &mut FileDisk<Unknown>,
    write: &Write<'_>,
) -> bool {
    let (at, bytes, len, text) = *write;
    let mut back = [0; 3];
    let found = write_back(disk, at, bytes, &mut back).expect(rt, "a length");
    let whole = fs::read_to_string(rt, path).expect(rt, "a text");
    let is_text = whole.as_str() == text;
    drop(whole);
    found == len && back == *bytes && is_text
}

#[test]
fn gives_back_what_was_written(rt: HostRuntime) {
    const PATH: &str = "wm_server_file_written";
    drop(fs::remove_file(&rt, PATH));
    let mut disk = FileDisk::<Unknown>::create(&rt, PATH).expect(&rt, "a disk");
    for write in WRITES {
        check!(rt; gives_back(&rt, PATH, &mut disk, write), write.0);
    }
    drop(disk);
    fs::remove_file(&rt, PATH).expect(&rt, "a removal");
}

/// The length, where two reads from the front fail; then failures were counted.
fn fails_twice<D: Disk>(disk: &mut D, back: &mut [u8]) -> Result<u64, DeviceFailed>
    requires { D.honest disk.old → length back.old ≤ length (D.seen disk.old) }
    ensures counted { OnOk result (Rose (D.failures disk.old) (D.failures disk.new)) }
{
    if let Ok(()) = disk.read_at(0, back) {
        return Err(DeviceFailed);
    }
    if let Ok(()) = disk.read_at(0, back) {
        return Err(DeviceFailed);
    }
    disk.len()
}

#[test]
fn tells_a_read_past_the_end(rt: HostRuntime) {
    const PATH: &str = "wm_server_file_short";
    drop(fs::remove_file(&rt, PATH));
    let mut disk = FileDisk::<Unknown>::create(&rt, PATH).expect(&rt, "a disk");
    let mut back = [0; 4];
    write_back(&mut disk, 0, b"abcd", &mut back).expect(&rt, "a length");
    // Another writer cuts the file.
    fs::write(&rt, PATH, b"ab".as_slice()).expect(&rt, "a write");
    let len = fails_twice(&mut disk, &mut back).expect(&rt, "a length");
    drop(disk);
    check!(rt; len == 2);
    fs::remove_file(&rt, PATH).expect(&rt, "a removal");
}

/// Whether a write to the front fails; then a failure was counted.
fn fails_to_write<D: Disk>(disk: &mut D, bytes: &[u8]) -> bool
    ensures counted { result ≡ true → Rose (D.failures disk.old) (D.failures disk.new) }
{
    match disk.write_at(0, bytes) {
        Ok(()) => false,
        Err(DeviceFailed) => true,
    }
}

#[test]
fn tells_a_write_that_the_system_refuses(rt: HostRuntime) {
    const PATH: &str = "wm_server_file_refused";
    fs::write(&rt, PATH, b"abc".as_slice()).expect(&rt, "a write");
    // The system gives this handle no right to write.
    let files = ReadOnly(&rt);
    let mut disk = FileDisk::<Unknown>::open(&files, PATH).expect(&rt, "a disk");
    drop(files);
    check!(rt; fails_to_write(&mut disk, b"XYZ"));
    drop(disk);
    let text = fs::read_to_string(&rt, PATH).expect(&rt, "a text");
    check!(rt; text.as_str() == "abc");
    drop(text);
    fs::remove_file(&rt, PATH).expect(&rt, "a removal");
}

const THERE: &str = "wm_server_file_there";

const FOLDER: &str = "wm_server_file_folder";

/// Paths, whether a file is opened there, and whether one is made.
const PLACES: &[(&str, bool, bool)] = &[
    (THERE, true, false),
    ("./wm_server_file_there", true, false),
    (FOLDER, false, false),
    ("/dev/null", false, false),
    ("wm_server_file_missing/file", false, false),
    ("", false, false),
];

fn opens<R: Files<File = File>>(rt: &R, path: &str) -> bool {
    let opened = FileDisk::<Unknown>::open(rt, path);
    let is_opened = opened.is_ok();
    drop(opened);
    is_opened
}

fn makes<R: Files<File = File>>(rt: &R, path: &str) -> bool {
    let made = FileDisk::<Unknown>::create(rt, path);
    let is_made = made.is_ok();
    drop(made);
    is_made
}

#[test]
fn opens_regular_files_alone(rt: HostRuntime) {
    drop(fs::remove_file(&rt, THERE));
    drop(fs::remove_dir(&rt, FOLDER));
    fs::write(&rt, THERE, b"abc".as_slice()).expect(&rt, "a write");
    fs::create_dir(&rt, FOLDER).expect(&rt, "a folder");
    for (path, is_opened, is_made) in PLACES {
        let is_met = opens(&rt, path) == *is_opened && makes(&rt, path) == *is_made;
        check!(rt; is_met, path);
    }
    check!(rt; !opens(&rt, "wm_server_file_missing"));
    let mut disk = FileDisk::<Unknown>::open(&rt, THERE).expect(&rt, "a disk");
    check!(rt; disk.len().expect(&rt, "a length") == 3);
    drop(disk);
    fs::remove_file(&rt, THERE).expect(&rt, "a removal");
    fs::remove_dir(&rt, FOLDER).expect(&rt, "a removal");
}
