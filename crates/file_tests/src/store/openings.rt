//! Files whose opening is refused, and spent numbers.
use super::calls::{fill, many};
use super::{Kept, edited, meet, open, open_bytes, watch};
use crate::checks::check;
use crate::disks::{content_of, disk_of, overwrite};
use crate::versions::{Part, VERSIONS, formatted, place};
use std::alloc::Global;
use std::process::Abort;
use wm_disk::{Crashed, MemDisk, Refusal};
use wm_registry::{Reply, Version};
use wm_store::Store;

/// The last value of a number.
const LAST: &[u8] = b"\x7f\xff\xff\xff\xff\xff\xff\xff";

/// Where the number of slot A stands.
const NUMBER: (Part, usize) = (Part::SlotA, 1);

/// Where the incarnation of slot A's registry stands.
const INCARNATION: (Part, usize) = (Part::SlotA, 13);

/// A journal with as many `Begin` as it takes, and its closed gate.
fn full_journal(rt: &impl Abort, alloc: Global) -> Vec<u8> {
    let mut journal = Vec::new(alloc);
    for _ in 0..131_071 {
        journal.extend_from_slice(b"\xa5\x00").expect(rt, "memory");
    }
    journal.push(0).expect(rt, "memory");
    journal
}

/// The refusal of an opening on this disk, and the disk that it hands back.
fn refused(rt: &impl Abort, alloc: Global, disk: MemDisk) -> (Refusal, MemDisk) {
    Store::open(alloc, disk).err().expect(rt, "a refusal")
}

/// Whether an opening on these bytes is refused so, and hands the disk back as it was.
fn refuses(rt: &impl Abort, alloc: Global, content: &[u8], wanted: Refusal) -> bool {
    let disk = disk_of(rt, alloc, 0, content);
    let (refusal, disk) = refused(rt, alloc, disk);
    let after = content_of(rt, alloc, disk);
    refusal == wanted && after.as_slice() == content
}

/// A place in a file, the bytes there, and why an opening is refused.
type Edit = ((Part, usize), &'static [u8], Refusal);

/// Whether the opening of such a file is refused so, and hands the disk back as it was.
fn hands_back(rt: &impl Abort, alloc: Global, version: Version, (at, bytes, wanted): Edit) -> bool {
    let content = edited(rt, alloc, version, at, bytes);
    refuses(rt, alloc, &content, wanted)
}

/// The header's gate, its name and its version, the retired gate, both slots closed, both open with number 1, the incarnation, and
/// journals: of no command, of a path that is none, and of a watch that changes nothing.
const REFUSED: &[Edit] = &[
    ((Part::Header, 0), b"\x00", Refusal::Damaged),
    ((Part::Header, 1), b"w", Refusal::Damaged),
    ((Part::Header, 11), b"\x00", Refusal::Damaged),
    ((Part::Header, 11), b"\x03", Refusal::Damaged),
    ((Part::Header, 12), b"\xa5", Refusal::Retired),
    ((Part::SlotA, 0), b"\x00", Refusal::Damaged),
    (
        (Part::SlotB, 0),
        b"\xa5\x00\x00\x00\x00\x00\x00\x00\x01",
        Refusal::Damaged,
    ),
    (INCARNATION, LAST, Refusal::Exhausted),
    ((Part::JournalA, 0), b"\xa5\x05\x00", Refusal::Damaged),
    (
        (Part::JournalA, 0),
        b"\xa5\x01\x00\x00\x00\x01\x2f\x00",
        Refusal::Damaged,
    ),
    (
        (Part::JournalA, 0),
        b"\xa5\x01\x00\x00\x00\x02\x2f\x72\xa5\x01\x00\x00\x00\x02\x2f\x72\x00",
        Refusal::Damaged,
    ),
];

/// Each of these files of a version has to be refused so.
fn assert_hands_back(rt: &impl Abort, alloc: Global, version: Version) {
    for row in REFUSED {
        check!(rt; hands_back(rt, alloc, version, *row), (version, row));
    }
}

#[test]
fn hands_a_disk_back(rt: HostRuntime) {
    for version in VERSIONS {
        assert_hands_back(&rt, rt.alloc(), *version);
    }
}

/// The length of a file.
fn file_len(version: Version) -> usize {
    match version {
        Version::One => 2_625_536,
        Version::Two => 8_916_992,
    }
}

/// Whether a file is so long, and damaged where its last byte or all behind its header is cut off.
fn has_to_be_whole(rt: &impl Abort, alloc: Global, version: Version) -> bool {
    let mut content = content_of(rt, alloc, formatted(rt, alloc, version));
    let len = content.len();
    content.truncate(len.saturating_sub(1));
    let is_cut = refuses(rt, alloc, &content, Refusal::Damaged);
    content.truncate(4_096);
    let is_bare = refuses(rt, alloc, &content, Refusal::Damaged);
    len == file_len(version) && is_cut && is_bare
}

#[test]
fn refuses_a_short_file(rt: HostRuntime) {
    for version in VERSIONS {
        check!(rt; has_to_be_whole(&rt, rt.alloc(), *version), version);
    }
}

/// A file of one version whose header says the other.
const MISNAMED: &[(Version, &[u8])] = &[(Version::One, b"\x02"), (Version::Two, b"\x01")];

/// A file of version 1 is too short for version 2, and of one of version 2 the places of version 1 hold the same slot A, and zeros.
#[test]
fn reads_a_file_by_its_header(rt: HostRuntime) {
    for (version, byte) in MISNAMED {
        let content = edited(&rt, rt.alloc(), *version, (Part::Header, 11), byte);
        let begun = begun_from(&rt, rt.alloc(), &content);
        let wanted = match version {
            Version::One => Err(Refusal::Damaged),
            Version::Two => Ok(1),
        };
        check!(rt; begun == wanted, version);
    }
}

/// The incarnation that an opening on this disk begins, or what it is refused.
fn begun(alloc: Global, disk: MemDisk) -> Result<u64, Refusal> {
    match Store::open(alloc, disk) {
        Ok(store) => {
            let incarnation = store.registry().incarnation();
            drop(store);
            Ok(incarnation)
        }
        Err((refusal, disk)) => {
            drop(disk);
            Err(refusal)
        }
    }
}

/// Whether an opening fails where the disk lets so many calls pass, and a next one begins this incarnation.
fn fails(
    rt: &impl Abort,
    alloc: Global,
    version: Version,
    (passing, incarnation): (u64, u64),
) -> bool {
    let mut disk = formatted(rt, alloc, version);
    disk.arm(passing);
    let (refusal, disk) = refused(rt, alloc, disk);
    let begun = begun(alloc, disk.stop());
    refusal == Refusal::DeviceFailed && begun == Ok(incarnation)
}

/// How many device calls of the opening pass, and the incarnation that a next one begins.
const FAILING: &[(u64, u64)] = &[(0, 1), (1, 1), (2, 1), (3, 1), (4, 1), (5, 1), (6, 2)];

/// Each of the openings has to fail.
fn assert_fails(rt: &impl Abort, alloc: Global, version: Version) {
    for row in FAILING {
        check!(rt; fails(rt, alloc, version, *row), (version, row));
    }
}

/// A sync and two looks, and then a write, a sync, a gate and a sync for the `Begin`.
#[test]
fn tells_a_failing_opening(rt: HostRuntime) {
    for version in VERSIONS {
        assert_fails(&rt, rt.alloc(), *version);
    }
}

/// The incarnation that an opening on these bytes begins, or what it is refused.
pub(super) fn begun_from(rt: &impl Abort, alloc: Global, content: &[u8]) -> Result<u64, Refusal> {
    begun(alloc, disk_of(rt, alloc, 0, content))
}

/// Whether the next `Begin` behind as many as the journal takes makes a checkpoint, which needs a number.
fn begins_in_the_other_slot(rt: &impl Abort, alloc: Global, version: Version) -> bool {
    let journal = full_journal(rt, alloc);
    let mut content = edited(rt, alloc, version, (Part::JournalA, 0), &journal);
    let begun = begun_from(rt, alloc, &content);
    let number = place(version, Part::SlotA).saturating_add(1);
    overwrite(rt, &mut content, number, LAST);
    begun == Ok(131_072) && begun_from(rt, alloc, &content) == Err(Refusal::Exhausted)
}

#[test]
fn begins_where_the_journal_is_full(rt: HostRuntime) {
    for version in VERSIONS {
        check!(rt; begins_in_the_other_slot(&rt, rt.alloc(), *version), version);
    }
}

/// A store whose slot has the last number.
fn spent(rt: &impl Abort, alloc: Global, version: Version) -> Kept {
    let content = edited(rt, alloc, version, NUMBER, LAST);
    open_bytes(rt, alloc, 0, &content)
}

/// The reply to each of a batch's commands: the journal takes 62 of them.
fn wanted(place: usize) -> Reply {
    if place < 62 {
        Reply::Changed
    } else {
        Reply::Refused(Refusal::Exhausted)
    }
}

/// Meets the fourth batch.
fn meet_fourth(rt: &impl Abort, alloc: Global, store: &mut Kept) {
    let batch = many(rt, alloc, b'd', 64, 1_024);
    let replies = meet(rt, alloc, store, batch).expect(rt, "replies");
    for (place, reply) in replies.iter().enumerate() {
        check!(rt; *reply == wanted(place), place);
    }
}

/// Fills the journal of a store that can make no checkpoint.
fn spend(rt: &impl Abort, alloc: Global, store: &mut Kept) {
    check!(rt; store.checkpoint(alloc) == Err(Refusal::Exhausted));
    check!(rt; watch(rt, alloc, store, &["/r"]) == Ok(1));
    fill(rt, alloc, store);
    meet_fourth(rt, alloc, store);
}

/// How many roots are found behind batches of a store that can make no checkpoint.
fn kept_by_spent(rt: &impl Abort, alloc: Global, version: Version) -> usize {
    let mut store = spent(rt, alloc, version);
    spend(rt, alloc, &mut store);
    let store = open(rt, alloc, store.into_disk().crash());
    let count = store.registry().roots().len();
    drop(store);
    count
}

#[test]
fn takes_what_needs_no_further_slot(rt: HostRuntime) {
    for version in VERSIONS {
        check!(rt; kept_by_spent(&rt, rt.alloc(), *version) == 255, version);
    }
}
