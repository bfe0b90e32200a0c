//! Files that are read without a keeper, and files that are retired.
use super::register::Register;
use super::version_2::LongKeeper;
use super::versions::{file, found};
use super::{RegisterKeeper, edited};
use crate::checks::check;
use crate::disks::{content_of, disk_of, overwrite, read_whole};
use crate::versions::{Part, VERSIONS, place};
use std::alloc::Global;
use std::process::Abort;
use wm_checkpoint::{Keeper, Layout, Version1, Version2};
use wm_disk::{Crashed, DeviceFailed, Disk, MemDisk, Refusal};
use wm_registry::Version;

/// What a disk means as a file of this version.
fn read(alloc: Global, version: Version, disk: &mut MemDisk) -> Result<u64, Refusal> {
    match version {
        Version::One => RegisterKeeper::read(alloc, disk),
        Version::Two => LongKeeper::read(alloc, disk),
    }
}

/// Whether these bytes are read so as a file of this version, by a length, a sync and a reading, and the disk stays as it was.
fn reads(
    rt: &impl Abort,
    alloc: Global,
    version: Version,
    content: &[u8],
    wanted: Result<u64, Refusal>,
) -> bool {
    let mut disk = disk_of(rt, alloc, 0, content);
    let is_read = read(alloc, version, &mut disk) == wanted;
    let is_counted = disk.calls() == (1, 2, 2);
    let after = content_of(rt, alloc, disk);
    is_read && is_counted && after.as_slice() == content
}

/// Whether a file of this version means its state, and to the other version nothing.
fn has_a_version(rt: &impl Abort, alloc: Global, version: Version, other: Version) -> bool {
    let content = file(rt, alloc, version);
    reads(rt, alloc, version, &content, Ok(4))
        && reads(rt, alloc, other, &content, Err(Refusal::Damaged))
}

#[test]
fn reads_a_state(rt: HostRuntime) {
    check!(rt; has_a_version(&rt, rt.alloc(), Version::One, Version::Two));
    check!(rt; has_a_version(&rt, rt.alloc(), Version::Two, Version::One));
}

/// Bytes so far behind the beginning of a part.
type Edits = &'static [(Part, usize, &'static [u8])];

/// What makes a good file damaged. A retired file has a good header.
const DAMAGED: &[(&str, Edits)] = &[
    ("the header's gate is closed", &[(Part::Header, 0, b"\x00")]),
    ("another name", &[(Part::Header, 1, b"w")]),
    ("another version", &[(Part::Header, 11, b"\x03")]),
    (
        "a closed header with an open retired gate",
        &[(Part::Header, 0, b"\x00"), (Part::Header, 12, b"\xa5")],
    ),
    (
        "both slots are closed",
        &[(Part::SlotA, 0, b"\x00"), (Part::SlotB, 0, b"\x00")],
    ),
    ("both slots have one number", &[(Part::SlotA, 8, b"\x02")]),
    (
        "a body with a byte more",
        &[(Part::SlotB, 9, b"\x00\x00\x00\x09")],
    ),
    (
        "a command that changes nothing",
        &[(Part::JournalB, 8, b"\x03")],
    ),
];

/// A retired file.
const RETIRED: Edits = &[(Part::Header, 12, b"\xa5")];

/// Whether these bytes, a file of this version, are damaged with others at these places.
fn is_damaged(
    rt: &impl Abort,
    alloc: Global,
    version: Version,
    content: &[u8],
    edits: Edits,
) -> bool {
    let mut content = Vec::from_slice(alloc, content).expect(rt, "memory");
    for (part, offset, bytes) in edits {
        let at = place(version, *part).saturating_add(*offset);
        overwrite(rt, &mut content, at, bytes);
    }
    reads(rt, alloc, version, &content, Err(Refusal::Damaged))
}

/// Each of the changes has to make a damaged file of this version, and so has a cut of a retired one.
fn assert_damaged(rt: &impl Abort, alloc: Global, version: Version) {
    let mut content = file(rt, alloc, version);
    for (about, edits) in DAMAGED {
        check!(rt; is_damaged(rt, alloc, version, &content, edits), (version, about));
    }
    content.truncate(content.len().saturating_sub(1));
    check!(rt; is_damaged(rt, alloc, version, &content, RETIRED), version);
    check!(rt; is_damaged(rt, alloc, version, &[], &[]), version);
}

#[test]
fn reads_damaged_files(rt: HostRuntime) {
    for version in VERSIONS {
        assert_damaged(&rt, rt.alloc(), *version);
    }
}

/// Whether a reading fails if the disk lets so many calls pass, and a next one tells the state.
fn fails(rt: &impl Abort, alloc: Global, version: Version, passing: u64) -> bool {
    let mut disk = disk_of(rt, alloc, 0, &file(rt, alloc, version));
    disk.arm(passing);
    let failed = read(alloc, version, &mut disk) == Err(Refusal::DeviceFailed);
    let mut disk = disk.stop();
    let is_read = read(alloc, version, &mut disk) == Ok(4);
    drop(disk);
    failed && is_read
}

#[test]
fn tells_a_failing_reading(rt: HostRuntime) {
    for passing in 0..3u64 {
        check!(rt; fails(&rt, rt.alloc(), Version::One, passing), passing);
        check!(rt; fails(&rt, rt.alloc(), Version::Two, passing), passing);
    }
}

/// Retires a register's file, for which the disk has to be long enough: a look at its length comes first.
fn retire_as<L: Layout>(rt: &impl Abort, disk: &mut MemDisk) -> Result<(), DeviceFailed> {
    let len = disk.len().expect(rt, "a length");
    assert!(rt; len >= L::file_len());
    Keeper::<MemDisk, Register, L>::retire(disk)
}

/// Retires a register's file of this version, after a look at its length.
fn retire(rt: &impl Abort, version: Version, disk: &mut MemDisk) -> Result<(), DeviceFailed> {
    match version {
        Version::One => retire_as::<Version1>(rt, disk),
        Version::Two => retire_as::<Version2>(rt, disk),
    }
}

/// Why a keeper of this version doesn't open the disk, or none if it does; and the disk.
fn refusal(alloc: Global, version: Version, disk: MemDisk) -> (Option<Refusal>, MemDisk) {
    match version {
        Version::One => match RegisterKeeper::open(alloc, disk) {
            Ok(keeper) => (None, keeper.into_disk()),
            Err((refusal, disk)) => (Some(refusal), disk),
        },
        Version::Two => match LongKeeper::open(alloc, disk) {
            Ok(keeper) => (None, keeper.into_disk()),
            Err((refusal, disk)) => (Some(refusal), disk),
        },
    }
}

/// Whether the disk is retired to whoever reads or opens it.
fn is_retired(alloc: Global, version: Version, disk: MemDisk) -> bool {
    let mut disk = disk;
    let is_read = read(alloc, version, &mut disk) == Err(Refusal::Retired);
    let (refusal, disk) = refusal(alloc, version, disk);
    let (found, disk) = found(alloc, disk);
    drop(disk);
    is_read && refusal == Some(Refusal::Retired) && found == Err(Refusal::Retired)
}

/// Whether one byte of the file changes, by one write and one sync, and the file is retired then, also behind a crash, which leaves what
/// was durable.
fn retires(rt: &impl Abort, alloc: Global, version: Version) -> bool {
    let content = file(rt, alloc, version);
    let mut disk = disk_of(rt, alloc, 0, &content);
    let is_answered = retire(rt, version, &mut disk).is_ok();
    let is_counted = disk.calls() == (1 + 1, 1 + 1, 1);
    let mut disk = disk.crash();
    let after = read_whole(rt, alloc, &mut disk);
    let is_retired = is_retired(alloc, version, disk);
    let wanted = edited(rt, alloc, &content, &[(12, b"\xa5")]);
    is_answered && is_counted && is_retired && after.as_slice() == wanted.as_slice()
}

#[test]
fn retires_a_file(rt: HostRuntime) {
    for version in VERSIONS {
        check!(rt; retires(&rt, rt.alloc(), *version), version);
    }
}

/// How many calls of a retirement pass; what a crash leaves of its write, or none for a stop; and whether the file is retired then.
type Cut = (u64, Option<u64>, bool);

const CUTS: &[Cut] = &[
    (0, None, false),
    (0, Some(0), false),
    (0, Some(1), false),
    (0, Some(2), false),
    (1, None, true),
    (1, Some(0), false),
    (1, Some(1), true),
    (1, Some(2), true),
    (1, Some(3), false),
    (1, Some(0x5555_5555_5555_5555), true),
    (1, Some(0xaaaa_aaaa_aaaa_aaaa), false),
    (2, None, true),
    (2, Some(0), true),
    (2, Some(3), true),
    (2, Some(0xaaaa_aaaa_aaaa_aaaa), true),
];

/// What is left of the disk.
fn left(disk: MemDisk, choice: Option<u64>) -> MemDisk {
    match choice {
        Some(_) => disk.crash(),
        None => disk.stop(),
    }
}

/// Whether a retirement is cut so, and the file is retired then or means its state.
fn is_cut(
    rt: &impl Abort,
    alloc: Global,
    (version, content): (Version, &[u8]),
    (passing, choice, retired): Cut,
) -> bool {
    let mut disk = disk_of(rt, alloc, choice.unwrap_or(0), content);
    disk.arm(passing.saturating_add(1));
    let is_answered = retire(rt, version, &mut disk).is_ok() == (passing == 2);
    let (found, disk) = found(alloc, left(disk, choice));
    drop(disk);
    let wanted = if retired {
        Err(Refusal::Retired)
    } else {
        Ok((version, 4))
    };
    is_answered && found == wanted
}

/// Each cut has to leave a good file.
fn assert_cut(rt: &impl Abort, alloc: Global, version: Version) {
    let content = file(rt, alloc, version);
    for cut in CUTS {
        check!(rt; is_cut(rt, alloc, (version, &content), *cut), (version, cut));
    }
}

/// The file means its state, or it is retired.
#[test]
fn a_retirement_is_cut_at_each_call(rt: HostRuntime) {
    for version in VERSIONS {
        assert_cut(&rt, rt.alloc(), *version);
    }
}
