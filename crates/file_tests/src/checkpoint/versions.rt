//! Files of which the header tells the version.
use super::register::Register;
use super::version_2::two_slots;
use super::{TWO_SLOTS, content_after, edited};
use crate::checks::check;
use crate::disks::{content_of, disk_of};
use std::alloc::Global;
use std::process::Abort;
use wm_checkpoint::EitherKeeper;
use wm_disk::{Crashed, MemDisk, Refusal};
use wm_registry::Version;

/// A keeper of a register in a file of either version.
type EitherRegister = EitherKeeper<MemDisk, Register, Register>;

/// The version and the state that are found on a disk, or why none are; and the disk.
pub(super) fn found(alloc: Global, disk: MemDisk) -> (Result<(Version, u64), Refusal>, MemDisk) {
    match EitherRegister::open(alloc, disk) {
        Ok(EitherKeeper::One(keeper)) => {
            let state = *keeper.state();
            (Ok((Version::One, state)), keeper.into_disk())
        }
        Ok(EitherKeeper::Two(keeper)) => {
            let state = *keeper.state();
            (Ok((Version::Two, state)), keeper.into_disk())
        }
        Err((refusal, disk)) => (Err(refusal), disk),
    }
}

/// Whether that is found in these bytes by a length, a sync and a reading, and the disk stays as it was.
fn finds(
    rt: &impl Abort,
    alloc: Global,
    content: &[u8],
    wanted: Result<(Version, u64), Refusal>,
) -> bool {
    let (found, disk) = found(alloc, disk_of(rt, alloc, 0, content));
    let is_counted = disk.calls() == (1, 2, 2);
    let after = content_of(rt, alloc, disk);
    found == wanted && is_counted && after.as_slice() == content
}

/// A file of the version, of the state 4.
pub(super) fn file(rt: &impl Abort, alloc: Global, version: Version) -> Vec<u8> {
    match version {
        Version::One => content_after(rt, alloc, TWO_SLOTS),
        Version::Two => two_slots(rt, alloc),
    }
}

/// The version of a file, changes of its bytes, and what is found then.
type Row = (
    Version,
    &'static [(usize, &'static [u8])],
    Result<(Version, u64), Refusal>,
);

/// A file of version 2 whose header says version 1 has the slot A of version 1, and no other open gate at its places.
const ROWS: &[Row] = &[
    (Version::One, &[], Ok((Version::One, 4))),
    (Version::Two, &[], Ok((Version::Two, 4))),
    (Version::One, &[(11, b"\x02")], Err(Refusal::Damaged)),
    (Version::Two, &[(11, b"\x01")], Ok((Version::One, 1))),
    (Version::One, &[(11, b"\x03")], Err(Refusal::Damaged)),
    (Version::Two, &[(11, b"\x03")], Err(Refusal::Damaged)),
    (Version::Two, &[(8, b"\x01")], Err(Refusal::Damaged)),
    (Version::Two, &[(0, b"\x00")], Err(Refusal::Damaged)),
    (Version::Two, &[(7, b"e")], Err(Refusal::Damaged)),
    (Version::One, &[(12, b"\xa5")], Err(Refusal::Retired)),
    (Version::Two, &[(12, b"\xa5")], Err(Refusal::Retired)),
    (
        Version::Two,
        &[(0, b"\x00"), (12, b"\xa5")],
        Err(Refusal::Damaged),
    ),
    (
        Version::Two,
        &[(12, b"\xa5"), (4_096, b"\x00"), (4_460_544, b"\x00")],
        Err(Refusal::Retired),
    ),
];

/// Whether the row's file means that.
fn is_found(rt: &impl Abort, alloc: Global, (version, edits, wanted): Row) -> bool {
    let content = edited(rt, alloc, &file(rt, alloc, version), edits);
    finds(rt, alloc, &content, wanted)
}

#[test]
fn opens_a_file_by_its_header(rt: HostRuntime) {
    for row in ROWS {
        check!(rt; is_found(&rt, rt.alloc(), *row), row);
    }
}

/// The version of a file, the length to which it is cut or filled with zeros, whether its retired gate is open, and what is
/// found. A short file isn't retired.
const LENGTHS: &[(Version, usize, bool, Result<(Version, u64), Refusal>)] = &[
    (Version::One, 2_625_535, false, Err(Refusal::Damaged)),
    (Version::One, 2_625_535, true, Err(Refusal::Damaged)),
    (Version::One, 8_916_992, false, Ok((Version::One, 4))),
    (Version::One, 8_916_992, true, Err(Refusal::Retired)),
    (Version::Two, 8_916_991, false, Err(Refusal::Damaged)),
    (Version::Two, 8_916_991, true, Err(Refusal::Damaged)),
    (Version::Two, 2_625_536, false, Err(Refusal::Damaged)),
    (Version::Two, 4_096, true, Err(Refusal::Damaged)),
    (Version::Two, 4_095, true, Err(Refusal::Damaged)),
    (Version::Two, 13, false, Err(Refusal::Damaged)),
    (Version::Two, 12, false, Err(Refusal::Damaged)),
    (Version::Two, 0, false, Err(Refusal::Damaged)),
];

/// A file of the version with this length, its retired gate open or not.
fn resized(
    rt: &impl Abort,
    alloc: Global,
    version: Version,
    (len, is_retired): (usize, bool),
) -> Vec<u8> {
    let retired: &[u8] = if is_retired { b"\xa5" } else { b"\x00" };
    let mut content = edited(rt, alloc, &file(rt, alloc, version), &[(12, retired)]);
    content.resize(len, 0).expect(rt, "memory");
    content
}

#[test]
fn opens_files_that_are_long_enough(rt: HostRuntime) {
    for (version, len, is_retired, wanted) in LENGTHS {
        let content = resized(&rt, rt.alloc(), *version, (*len, *is_retired));
        let finds = finds(&rt, rt.alloc(), &content, *wanted);
        check!(rt; finds, (version, len, is_retired));
    }
}

/// Whether an opening fails where the disk lets so many of its calls pass, and a next one finds the state.
fn fails(rt: &impl Abort, alloc: Global, version: Version, passing: u64) -> bool {
    let mut disk = disk_of(rt, alloc, 0, &file(rt, alloc, version));
    disk.arm(passing);
    let (failed, disk) = found(alloc, disk);
    let (found, disk) = found(alloc, disk.stop());
    drop(disk);
    failed == Err(Refusal::DeviceFailed) && found == Ok((version, 4))
}

#[test]
fn tells_a_failing_opening_of_either(rt: HostRuntime) {
    for passing in 0..3u64 {
        check!(rt; fails(&rt, rt.alloc(), Version::One, passing), passing);
        check!(rt; fails(&rt, rt.alloc(), Version::Two, passing), passing);
    }
}
