//! A disk of which one call fails.
use crate::checks::check;
use wm_disk::{Disk, MemDisk, OneFault};

// After how many calls one fails, which of five pass, and how many writes, syncs and others came
// to the disk below.
const ROWS: &[(u64, [bool; 5], (u64, u64, u64))] = &[
    (0, [false, true, true, true, true], (1, 1, 2)),
    (1, [true, false, true, true, true], (2, 0, 2)),
    (2, [true, true, false, true, true], (1, 1, 2)),
    (3, [true, true, true, false, true], (2, 1, 1)),
    (4, [true, true, true, true, false], (2, 1, 1)),
    (5, [true, true, true, true, true], (2, 1, 2)),
];

// Which of five calls pass.
fn passing(disk: &mut OneFault<MemDisk>) -> [bool; 5] {
    [
        disk.write_at(0, b"a").is_ok(),
        disk.sync().is_ok(),
        disk.write_at(0, b"b").is_ok(),
        disk.len().is_ok(),
        disk.read_at(0, &mut []).is_ok(),
    ]
}

#[test]
fn one_call_fails(rt: HostRuntime) {
    for (calls, want, came) in ROWS {
        let mut disk = OneFault::new(MemDisk::new(rt.alloc(), 0), *calls);
        let passed = passing(&mut disk);
        check!(rt; passed == *want && disk.disk.calls() == *came, calls);
        drop(disk);
    }
}
