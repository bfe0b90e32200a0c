//! What a real file's calls do, as another descriptor of the same file sees it.
use crate::checks::check;
use std::fs;
use std::fs::{File, Files};
use std::process::Abort;
use wm_disk::Disk;
use wm_file::{FileDisk, Unknown};

/// Whether another descriptor of the file reads just this text.
fn holds<R: Files<File = File> + AllocGlobal + Abort>(rt: &R, path: &str, text: &str) -> bool {
    let whole = fs::read_to_string(rt, path).expect(rt, "a text");
    let holds = whole.as_str() == text;
    drop(whole);
    holds
}

/// Whether the disk reads just these bytes.
fn reads(rt: &impl Abort, disk: &mut FileDisk<Unknown>, bytes: [u8; 4]) -> bool {
    if disk.len().expect(rt, "a length") != 4 {
        return false;
    }
    let mut back = [0; 4];
    disk.read_at(0, &mut back).expect(rt, "a read");
    back == bytes
}

#[test]
fn another_reads_what_each_call_did(rt: HostRuntime) {
    const PATH: &str = "wm_server_file_second";
    drop(fs::remove_file(&rt, PATH));
    let mut disk = FileDisk::<Unknown>::create(&rt, PATH).expect(&rt, "a disk");
    check!(rt; holds(&rt, PATH, ""));
    disk.write_at(0, b"abcdef").expect(&rt, "a write");
    check!(rt; holds(&rt, PATH, "abcdef"));
    disk.write_at(2, b"XY").expect(&rt, "a write");
    check!(rt; holds(&rt, PATH, "abXYef"));
    disk.sync().expect(&rt, "a sync");
    let len = disk.len().expect(&rt, "a length");
    check!(rt; len == 6 && holds(&rt, PATH, "abXYef"));
    let mut back = [0; 3];
    disk.read_at(1, &mut back).expect(&rt, "a read");
    check!(rt; back == *b"bXY" && holds(&rt, PATH, "abXYef"));
    drop(disk);
    check!(rt; holds(&rt, PATH, "abXYef"));
    fs::remove_file(&rt, PATH).expect(&rt, "a removal");
}

#[test]
fn opening_changes_nothing(rt: HostRuntime) {
    const PATH: &str = "wm_server_file_opened";
    fs::write(&rt, PATH, b"abc".as_slice()).expect(&rt, "a write");
    let mut disk = FileDisk::<Unknown>::open(&rt, PATH).expect(&rt, "a disk");
    check!(rt; holds(&rt, PATH, "abc"));
    // What another descriptor writes is read.
    fs::write(&rt, PATH, b"wxyz".as_slice()).expect(&rt, "a write");
    check!(rt; reads(&rt, &mut disk, *b"wxyz"));
    drop(disk);
    fs::remove_file(&rt, PATH).expect(&rt, "a removal");
}
