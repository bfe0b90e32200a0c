//! How many calls the disk has, and the refusals that come with none.
use super::{
    Call, Kept, UNUSED, USED, USED_TWICE, content_after, formatted, found, meet, open, refused,
};
use crate::checks::check;
use crate::disks::{Calls, disk_of, overwrite};
use std::alloc::Global;
use std::process::Abort;
use wm_disk::{Crashed, MemDisk, Refusal};

/// A call of a keeper, its answer, and the keeper's state and the calls of its disk after it.
type Row = (Call, Result<(), Refusal>, u64, Calls);

/// Makes the calls, and tells whether each has its answer and its state. The keeper has failed from an answer
/// on that the device failed.
fn answers(alloc: Global, kept: &mut Kept, rows: &[Row]) -> bool {
    let mut has_failed = false;
    for (call, answer, state, _) in rows {
        let answered = meet(alloc, kept, *call) == *answer;
        has_failed = has_failed || *answer == Err(Refusal::DeviceFailed);
        if !answered || *kept.keeper.state() != *state || kept.keeper.has_failed() != has_failed {
            return false;
        }
    }
    true
}

/// Whether a keeper on this disk has these answers and states, and behind the last row the disk its calls. A
/// crash then leaves the state, to a keeper that hasn't failed.
fn goes(rt: &impl Abort, alloc: Global, disk: MemDisk, rows: &[Row]) -> bool {
    let (_, _, state, calls) = rows.last().expect(rt, "a row");
    let mut kept = open(rt, alloc, disk);
    let answered = answers(alloc, &mut kept, rows);
    let disk = kept.keeper.into_disk();
    let counted = disk.calls() == *calls;
    let kept = open(rt, alloc, disk.crash());
    let is_found = *kept.keeper.state() == *state && !kept.keeper.has_failed();
    drop(kept);
    answered && counted && is_found
}

/// A keeper of these bytes has to go so up to each of the rows.
fn assert_goes(rt: &impl Abort, alloc: Global, content: &[u8], rows: &[Row]) {
    for end in 0..rows.len() {
        let (rows, _) = rows.split_at(end + 1);
        let goes = goes(rt, alloc, disk_of(rt, alloc, 0, content), rows);
        check!(rt; goes, rows);
    }
}

/// No failure.
const NEVER: Call = Call::Arm(u64::MAX);

/// From a formatted disk on. The gate of slot B is closed at the first checkpoint into it, and later ones are
/// open.
const COUNTED: &[Row] = &[
    (NEVER, Ok(()), 1, (45, 5, 2)),
    (Call::Set(2), Ok(()), 2, (47, 7, 2)),
    (Call::SetThree(3, 4, 5), Ok(()), 5, (51, 9, 2)),
    (Call::SetNothing, Ok(()), 5, (52, 11, 2)),
    (Call::Checkpoint, Ok(()), 5, (55, 14, 3)),
    (Call::Set(6), Ok(()), 6, (57, 16, 3)),
    (Call::Checkpoint, Ok(()), 6, (61, 19, 4)),
    (Call::Checkpoint, Ok(()), 6, (65, 22, 5)),
];

/// Each is counted as the disk counts: writes, syncs, and lengths and readings together.
#[test]
fn counts_its_calls(rt: HostRuntime) {
    let alloc = rt.alloc();
    // 41 writes of zeros, the slot, the header, the slot's gate and the header's
    let disk = formatted(&rt, alloc, 1);
    check!(rt; disk.calls() == (45, 4, 0));
    drop(disk);
    for end in 0..COUNTED.len() {
        let (rows, _) = COUNTED.split_at(end + 1);
        let goes = goes(&rt, alloc, formatted(&rt, alloc, 1), rows);
        check!(rt; goes, rows);
    }
}

/// A file, and what a keeper of it does.
const SYNCED: &[(&[Call], &[Row])] = &[
    (
        UNUSED,
        &[
            (NEVER, Ok(()), 6, (1, 2, 2)),
            (Call::Sync, Ok(()), 6, (1, 3, 2)),
            (Call::Set(20), Ok(()), 20, (3, 5, 2)),
            (Call::Arm(1), Ok(()), 20, (3, 5, 2)),
            (Call::Sync, Ok(()), 20, (3, 6, 2)),
            (Call::Sync, Err(Refusal::DeviceFailed), 20, (3, 7, 2)),
        ],
    ),
    (
        USED,
        &[
            (NEVER, Ok(()), 11, (1, 2, 2)),
            (Call::Sync, Ok(()), 11, (1, 3, 2)),
            (Call::Set(20), Ok(()), 20, (3, 5, 2)),
            (Call::Arm(1), Ok(()), 20, (3, 5, 2)),
            (Call::Sync, Ok(()), 20, (3, 6, 2)),
            (Call::Sync, Err(Refusal::DeviceFailed), 20, (3, 7, 2)),
        ],
    ),
    (
        USED_TWICE,
        &[
            (NEVER, Ok(()), 12, (1, 2, 2)),
            (Call::Sync, Ok(()), 12, (1, 3, 2)),
            (Call::Set(20), Ok(()), 20, (3, 5, 2)),
            (Call::Arm(1), Ok(()), 20, (3, 5, 2)),
            (Call::Sync, Ok(()), 20, (3, 6, 2)),
            (Call::Sync, Err(Refusal::DeviceFailed), 20, (3, 7, 2)),
        ],
    ),
];

#[test]
fn syncs_by_one_call(rt: HostRuntime) {
    for (calls, rows) in SYNCED {
        let content = content_after(&rt, rt.alloc(), calls);
        assert_goes(&rt, rt.alloc(), &content, rows);
    }
}

/// How many calls of the disk pass, the call that meets the failure, and the disk's calls then.
const FAILING: &[(u64, Call, Calls)] = &[
    (0, Call::SetThree(7, 8, 9), (2, 2, 2)),
    (5, Call::SetThree(7, 8, 9), (5, 4, 2)),
    (0, Call::Checkpoint, (1, 2, 3)),
    (6, Call::Checkpoint, (4, 5, 3)),
    (0, Call::Sync, (1, 3, 2)),
];

#[test]
fn stays_down_after_a_failure(rt: HostRuntime) {
    let failed = Err(Refusal::DeviceFailed);
    let down = Err(Refusal::StoreFailed);
    let content = content_after(&rt, rt.alloc(), UNUSED);
    for (passing, call, calls) in FAILING {
        // The crash leaves what was durable.
        let rows = [
            (Call::Arm(*passing), Ok(()), 6, (1, 2, 2)),
            (*call, failed, 6, *calls),
            (Call::Set(10), down, 6, *calls),
            (Call::Checkpoint, down, 6, *calls),
            (Call::Sync, down, 6, *calls),
        ];
        assert_goes(&rt, rt.alloc(), &content, &rows);
    }
}

/// The number of slot A, the answer to a first checkpoint, and the disk's calls up to then, and up to the
/// command behind it.
const NUMBERED: &[(&[u8], Result<(), Refusal>, Calls, Calls)] = &[
    (
        b"\x7f\xff\xff\xff\xff\xff\xff\xfe",
        Ok(()),
        (6, 7, 3),
        (8, 9, 3),
    ),
    (
        b"\x7f\xff\xff\xff\xff\xff\xff\xff",
        Err(Refusal::Exhausted),
        (3, 4, 2),
        (5, 6, 2),
    ),
    (
        b"\x80\0\0\0\0\0\0\0",
        Err(Refusal::Exhausted),
        (3, 4, 2),
        (5, 6, 2),
    ),
    (
        b"\xff\xff\xff\xff\xff\xff\xff\xff",
        Err(Refusal::Exhausted),
        (3, 4, 2),
        (5, 6, 2),
    ),
];

/// A second checkpoint is refused with no call, and commits go on.
#[test]
fn numbers_run_out(rt: HostRuntime) {
    let exhausted = Err(Refusal::Exhausted);
    let mut content = content_after(&rt, rt.alloc(), &[]);
    for (number, answer, calls, more) in NUMBERED {
        overwrite(&rt, &mut content, 4_097, number);
        let rows = [
            (Call::Set(2), Ok(()), 2, (3, 4, 2)),
            (Call::Checkpoint, *answer, 2, *calls),
            (Call::Checkpoint, exhausted, 2, *calls),
            (Call::Set(3), Ok(()), 3, *more),
        ];
        assert_goes(&rt, rt.alloc(), &content, &rows);
    }
}

/// Whether an opening fails where the disk lets so many calls pass, has made these calls then, and a next one
/// finds the state.
fn fails_to_open(
    rt: &impl Abort,
    alloc: Global,
    content: &[u8],
    passing: u64,
    calls: Calls,
) -> bool {
    let mut disk = disk_of(rt, alloc, 0, content);
    disk.arm(passing);
    let (refusal, disk) = refused(rt, alloc, disk);
    let told = refusal == Refusal::DeviceFailed && disk.calls() == calls;
    let found = found(rt, alloc, disk.stop());
    told && found == 6
}

/// How many calls pass, and the disk's calls with the write and the sync that made it.
const OPENINGS: &[(u64, Calls)] = &[(0, (1, 1, 1)), (1, (1, 2, 1)), (2, (1, 2, 2))];

#[test]
fn tells_a_failing_opening(rt: HostRuntime) {
    let content = content_after(&rt, rt.alloc(), UNUSED);
    for (passing, calls) in OPENINGS {
        let fails = fails_to_open(&rt, rt.alloc(), &content, *passing, *calls);
        check!(rt; fails, passing);
    }
}
