//! A disk in memory: what it gives back, its planned failures, what a crash leaves, and its counts.

use crate::checks::check;
use std::alloc::Global;
use std::process::Abort;
use wm_disk::{Crashed, Disk, MemDisk};

// Where a write begins, what it writes, and what the disk holds then.
const WRITES: &[(u64, &str, &str)] = &[
    (0, "abc", "abc"),
    (3, "", "abc"),
    (3, "def", "abcdef"),
    (1, "XYZ", "aXYZef"),
    (5, "!!!", "aXYZe!!!"),
];

// How many calls pass, which of five do, what a read gives then, and what a crash leaves.
const ARMED: &[(u64, [bool; 5], &str, &str)] = &[
    (0, [false, false, false, false, false], "abcd", ""),
    (1, [true, false, false, false, false], "XYcd", ""),
    (2, [true, true, false, false, false], "XYcd", "XYcd"),
    (3, [true, true, true, false, false], "ZYcd", "XYcd"),
    (4, [true, true, true, true, false], "ZYcd", "XYcd"),
];

// A choice, and what a crash by it leaves of `XY` at 1 and `ZWV` at 3 over a durable `abcd`.
const CHOICES: &[(u64, &[u8])] = &[
    (0, b"abcd"),
    (1, b"aXYZWV"),
    (2, b"a\xa5\xa5\xa5\xa5\xa5"),
    (3, b"a\0\0\0\0\0"),
    (4, b"abYd\0\0"),
    (8, b"abcZ\0\0"),
    (0x15, b"abYdW\0"),
    (0x2a, b"aXcZ\0V"),
];

// Whether the trait's reads give these bytes.
fn holds<D: Disk>(rt: &impl Abort, disk: &mut D, alloc: Global, want: &[u8]) -> bool {
    let len = disk.len().expect(rt, "a length");
    let mut bytes = vec![in alloc; 0u8; len as usize].expect(rt, "memory");
    disk.read_at(0, &mut bytes).expect(rt, "a read");
    bytes.as_slice() == want
}

// Writes where the disk reaches so far.
fn put<D: Disk>(rt: &impl Abort, disk: &mut D, at: u64, bytes: &[u8]) {
    let len = disk.len().expect(rt, "a length");
    assert!(rt; at <= len, "{at} is beyond {len}");
    disk.write_at(at, bytes).expect(rt, "a write");
}

// Whether the bytes are there once they were written and synced.
fn keeps(
    rt: &impl Abort,
    alloc: Global,
    disk: &mut MemDisk,
    at: u64,
    bytes: &str,
    want: &str,
) -> bool {
    put(rt, disk, at, bytes.as_bytes());
    disk.sync().expect(rt, "a sync");
    holds(rt, disk, alloc, want.as_bytes())
}

#[test]
fn gives_back_what_was_written(rt: HostRuntime) {
    let mut disk = MemDisk::new(rt.alloc(), 0);
    check!(rt; disk.len().expect(&rt, "a length") == 0);
    for (at, bytes, want) in WRITES {
        check!(rt; keeps(&rt, rt.alloc(), &mut disk, *at, bytes, want), want);
    }
    let mut part = [0u8; 3];
    assert!(rt; disk.len().expect(&rt, "a length") == 8);
    disk.read_at(2, &mut part).expect(&rt, "a read");
    check!(rt; &part == b"YZe" && disk.failures() == 0);
    drop(disk);
}

// A disk that holds a durable `abcd`.
fn of_four(rt: &impl Abort, alloc: Global, choice: u64) -> MemDisk {
    let mut disk = MemDisk::new(alloc, choice);
    put(rt, &mut disk, 0, b"abcd");
    disk.sync().expect(rt, "a sync");
    disk
}

// Which of five calls pass.
fn passing(disk: &mut MemDisk) -> [bool; 5] {
    [
        disk.write_at(0, b"XY").is_ok(),
        disk.sync().is_ok(),
        disk.write_at(0, b"Z").is_ok(),
        disk.read_at(0, &mut []).is_ok(),
        disk.len().is_ok(),
    ]
}

// Whether just these calls pass on a disk that is armed so, and the others are counted as failures.
fn passes(disk: &mut MemDisk, calls: u64, want: [bool; 5]) -> bool {
    disk.arm(calls);
    let passed = passing(disk);
    passed == want && disk.failures() == 5 - calls.min(5)
}

#[test]
fn fails_as_it_was_armed(rt: HostRuntime) {
    for (calls, passed, read, left) in ARMED {
        let mut disk = MemDisk::new(rt.alloc(), 0);
        put(&rt, &mut disk, 0, b"abcd");
        check!(rt; passes(&mut disk, *calls, *passed), calls);
        let mut disk = disk.stop();
        let is_read = holds(&rt, &mut disk, rt.alloc(), read.as_bytes());
        let mut disk = disk.crash();
        let is_left = holds(&rt, &mut disk, rt.alloc(), left.as_bytes());
        drop(disk);
        check!(rt; is_read && is_left, calls);
    }
}

// Whether a crash leaves these bytes, which a second leaves as they are, though the device was to fail.
fn leaves(rt: &impl Abort, mut disk: MemDisk, alloc: Global, want: &[u8]) -> bool {
    disk.arm(0);
    let mut disk = disk.crash();
    let first = holds(rt, &mut disk, alloc, want);
    let mut disk = disk.crash();
    let second = holds(rt, &mut disk, alloc, want);
    drop(disk);
    first && second
}

#[test]
fn leaves_what_the_choice_says(rt: HostRuntime) {
    for (choice, want) in CHOICES {
        let mut disk = of_four(&rt, rt.alloc(), *choice);
        put(&rt, &mut disk, 1, b"XY");
        put(&rt, &mut disk, 3, b"ZWV");
        let mut disk = disk.stop();
        let is_read = holds(&rt, &mut disk, rt.alloc(), b"aXYZWV");
        let is_left = leaves(&rt, disk, rt.alloc(), want);
        check!(rt; is_read && is_left, choice);
    }
}

#[test]
fn takes_the_bit_of_the_place_modulo_64(rt: HostRuntime) {
    let mut disk = MemDisk::new(rt.alloc(), 0x8000_0000_0000_0005);
    put(&rt, &mut disk, 0, &[1u8; 130]);
    disk.sync().expect(&rt, "a sync");
    put(&rt, &mut disk, 0, &[2u8; 130]);
    let mut want = [1u8; 130];
    for place in &[0usize, 2, 63, 64, 66, 127, 128] {
        if let Some(byte) = want.get_mut(*place) {
            *byte = 2;
        }
    }
    let mut disk = disk.crash();
    check!(rt; holds(&rt, &mut disk, rt.alloc(), &want));
    drop(disk);
}

#[test]
fn counts_its_calls(rt: HostRuntime) {
    let mut disk = MemDisk::new(rt.alloc(), 1);
    check!(rt; disk.calls() == (0, 0, 0));
    put(&rt, &mut disk, 0, b"abcd");
    put(&rt, &mut disk, 1, b"Z");
    disk.sync().expect(&rt, "a sync");
    // three lengths and a reading beside the writes and the sync
    check!(rt; holds(&rt, &mut disk, rt.alloc(), b"aZcd") && disk.calls() == (2, 1, 4));
    // A call that fails is counted, and neither a crash nor a stop is a call.
    disk.arm(0);
    let failed = disk.write_at(0, b"X").is_err() && disk.sync().is_err();
    let disk = disk.stop().crash();
    check!(rt; failed && disk.calls() == (3, 2, 4));
    drop(disk);
}
