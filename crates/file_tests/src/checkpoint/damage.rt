//! Files that mean no state, and retired ones.
use super::{TWO_SLOTS, content_after, edited, full_journal, open, refused};
use crate::checks::check;
use crate::disks::{content_of, disk_of, overwrite};
use std::alloc::Global;
use std::process::Abort;
use wm_disk::Refusal;

/// Whether an opening is refused so after a length, one sync, a reading and no write, and hands the disk back as it
/// was.
fn refuses(rt: &impl Abort, alloc: Global, content: &[u8], wanted: Refusal) -> bool {
    let (refusal, disk) = refused(rt, alloc, disk_of(rt, alloc, 0, content));
    let told = refusal == wanted && disk.calls() == (1, 2, 2);
    let after = content_of(rt, alloc, disk);
    told && after.as_slice() == content
}

/// A change of a good file: places with their new bytes.
type Edited = (&'static str, &'static [(usize, &'static [u8])]);

/// Each of the changes has to make a file that is refused so.
fn assert_refused(rt: &impl Abort, alloc: Global, changes: &[Edited], wanted: Refusal) {
    let content = content_after(rt, alloc, TWO_SLOTS);
    for (about, edits) in changes {
        let content = edited(rt, alloc, &content, edits);
        check!(rt; refuses(rt, alloc, &content, wanted), about);
    }
}

/// What makes a good file damaged: places with their new bytes.
const DAMAGED: &[Edited] = &[
    ("the header's gate is closed", &[(0, b"\x00")]),
    ("its gate is almost open", &[(0, b"\xa4")]),
    ("another first byte of the name", &[(1, b"w")]),
    ("another last byte of the name", &[(7, b"F")]),
    ("another first byte of the version", &[(8, b"\x01")]),
    ("another last byte of the version", &[(11, b"\x02")]),
    (
        "both slots are closed",
        &[(4_096, b"\x00"), (1_314_816, b"\x00")],
    ),
    ("both slots have one number", &[(4_104, b"\x02")]),
    (
        "a longer body than may be",
        &[(1_314_825, b"\x00\x0f\xff\xf4")],
    ),
    (
        "the longest body that may be",
        &[(1_314_825, b"\x00\x0f\xff\xf3")],
    ),
    (
        "the longest body that can be told",
        &[(1_314_825, b"\xff\xff\xff\xff")],
    ),
    (
        "a body with a byte more",
        &[(1_314_825, b"\x00\x00\x00\x09")],
    ),
    (
        "a body with a byte less",
        &[(1_314_825, b"\x00\x00\x00\x07")],
    ),
    ("no body", &[(1_314_825, b"\x00\x00\x00\x00")]),
    (
        "a first command that changes nothing",
        &[(2_363_400, b"\x03")],
    ),
    (
        "a second command that changes nothing",
        &[(2_363_401, b"\xa5\x00\x00\x00\x00\x00\x00\x00\x04")],
    ),
    (
        "a closed header with an open retired gate",
        &[(0, b"\x00"), (12, b"\xa5")],
    ),
];

#[test]
fn refuses_damaged_files(rt: HostRuntime) {
    assert_refused(&rt, rt.alloc(), DAMAGED, Refusal::Damaged);
}

/// What makes a good file retired.
const RETIRED: &[Edited] = &[
    ("the gate alone", &[(12, b"\xa5")]),
    (
        "both slots are closed",
        &[(12, b"\xa5"), (4_096, b"\x00"), (1_314_816, b"\x00")],
    ),
    (
        "both slots have one number",
        &[(12, b"\xa5"), (4_104, b"\x02")],
    ),
    ("a damaged slot", &[(12, b"\xa5"), (1_314_825, b"\xff")]),
];

#[test]
fn refuses_retired_files(rt: HostRuntime) {
    assert_refused(&rt, rt.alloc(), RETIRED, Refusal::Retired);
}

/// Lengths of a file cut short, and whether it has a retired gate. A short file isn't retired, whatever that
/// gate.
const SHORT: &[(usize, bool)] = &[
    (2_625_535, false),
    (2_625_535, true),
    (4_096, false),
    (4_096, true),
    (13, false),
    (13, true),
    (0, false),
];

#[test]
fn refuses_short_files(rt: HostRuntime) {
    let alloc = rt.alloc();
    for (len, has_open_gate) in SHORT {
        let mut content = content_after(&rt, alloc, TWO_SLOTS);
        if *has_open_gate {
            overwrite(&rt, &mut content, 12, b"\xa5");
        }
        content.truncate(*len);
        let refused = refuses(&rt, alloc, &content, Refusal::Damaged);
        check!(rt; refused, (len, has_open_gate));
    }
}

/// The state and the room of a keeper of these bytes.
fn state_and_room(rt: &impl Abort, alloc: Global, content: &[u8]) -> (u64, u64) {
    let kept = open(rt, alloc, disk_of(rt, alloc, 0, content));
    let told = (*kept.keeper.state(), kept.keeper.room());
    drop(kept);
    told
}

#[test]
fn refuses_a_journal_with_no_closed_gate(rt: HostRuntime) {
    let alloc = rt.alloc();
    let mut content = content_after(&rt, alloc, TWO_SLOTS);
    let journal = full_journal(&rt, alloc);
    overwrite(&rt, &mut content, 2_363_392, &journal);
    check!(rt; state_and_room(&rt, alloc, &content) == (5, 0));
    overwrite(&rt, &mut content, 2_625_535, b"\xa5");
    check!(rt; refuses(&rt, alloc, &content, Refusal::Damaged));
}
