//! The bytes of a journal.
ghost use Rattle.wm_journal.specs.Regions.{InSamePlace, IsAt, LiesOn};

use super::{append, disk_of, joined, region_of, see_whole, texts};
use crate::checks::check;
use crate::disks::read_whole;
use std::alloc::Global;
use std::process::Abort;
use wm_disk::MemDisk;
use wm_journal::{Region, read_records};
use wm_wire::{Text, Wire};

/// Bytes, and the texts that are read from them, with the place of the closed gate behind these.
const READ: &[(&[u8], Option<(&str, usize)>)] = &[
    // nothing is read behind a closed gate, whatever its byte
    (b"\0", Some(("", 0))),
    (b"\0\xa5\0\0\0\x01x\0", Some(("", 0))),
    (b"\xff\xa5\0\0\0\x01x\0", Some(("", 0))),
    (b"\xa5\0\0\0\x01x\0", Some(("x|", 6))),
    (b"\xa5\0\0\0\x01x\x01", Some(("x|", 6))),
    (b"\xa5\0\0\0\x01x\xff", Some(("x|", 6))),
    (b"\xa5\0\0\0\x01x\xa4", Some(("x|", 6))),
    (b"\xa5\0\0\0\x01x\0\xa5\0\0\0\x01y\0", Some(("x|", 6))),
    (
        b"\xa5\0\0\0\x01x\x25\0\0\0\x01y\xa5\0\0\0\x01z\0",
        Some(("x|", 6)),
    ),
    (
        b"\xa5\0\0\0\x01x\0\xa5\xa5\xa5\xa5\xa5\xa5",
        Some(("x|", 6)),
    ),
    (
        b"\xa5\0\0\0\0\xa5\0\0\0\x08stuvwxyz\xa5\0\0\0\x01y\xa4\xa5",
        Some(("|stuvwxyz|y|", 24)),
    ),
    // an open gate's byte in a record
    (b"\xa5\0\0\0\x02\xc3\xa5\0", Some(("\u{e5}|", 7))),
    // no closed gate
    (b"", None),
    (b"\xa5\0\0\0\x01x", None),
    (b"\xa5\0\0\0\x01x\xa5\0\0\0\x01y", None),
    // no record behind an open gate
    (b"\xa5", None),
    (b"\xa5\0", None),
    (b"\xa5\0\0\0", None),
    (b"\xa5\0\0\0\x02x", None),
    (b"\xa5\0\0\0\x01x\xa5", None),
    (b"\xa5\0\0\0\x01x\xa5\0\0\0\x01", None),
    (b"\xa5\0\0\0\x09stuvwxyz_\0", None),
    (b"\xa5\0\0\0\x01\xff\0", None),
    (b"\xa5\0\0\0\x01x\xa5\xa5\xa5\xa5\xa5\xa5\0", None),
];

/// Whether this is what is read of the bytes.
fn reads(rt: &impl Abort, alloc: Global, bytes: &[u8], want: Option<(&str, usize)>) -> bool {
    match read_records::<Text<8>>(alloc, bytes).expect(rt, "memory") {
        None => want.is_none(),
        Some((found, end)) => {
            let found = joined(rt, alloc, &found);
            Some((found.as_str(), end)) == want
        }
    }
}

#[test]
fn reads_what_stands_there(rt: HostRuntime) {
    for (bytes, want) in READ {
        check!(rt; reads(&rt, rt.alloc(), bytes, *want), bytes);
    }
}

/// An area that reads `FF` in all its bytes.
fn filled(rt: &impl Abort, alloc: Global, len: u16) -> Region<MemDisk>
    ensures lies { LiesOn result }
    ensures place { IsAt result 5 len }
{
    let area = vec![in alloc; 0xffu8; len as usize].expect(rt, "memory");
    let disk = disk_of(rt, alloc, 0, &[b"front", &area, b"behind"]);
    region_of(rt, alloc, disk, 5, len)
}

/// Whether these are the bytes of the area, with those around it that it was made with.
fn is_area(bytes: &[u8], area: &[u8]) -> bool {
    let Some(rest) = bytes.strip_prefix(b"front") else {
        return false;
    };
    let Some(found) = rest.strip_suffix(b"behind") else {
        return false;
    };
    found == area
}

/// Whether the disk reads as these bytes in the area, and outside it as it was made.
fn reads_as(rt: &impl Abort, alloc: Global, region: &mut Region<MemDisk>, area: &[u8]) -> bool
    ensures place { InSamePlace region.old region.new }
{
    is_area(&read_whole(rt, alloc, &mut region.disk), area)
}

/// A group, and the area's bytes once it is appended, and once its gates are open.
type Step<'a, W> = (&'a [W], &'a [u8], &'a [u8]);

/// Whether the bytes of a step are those that its group leaves.
fn lays<W: Wire>(
    rt: &impl Abort,
    alloc: Global,
    region: &mut Region<MemDisk>,
    len: u16,
    step: &Step<W>,
) -> bool
    requires { IsAt region.old 5 len }
    ensures { IsAt region.new 5 len }
{
    let (group, closed, opened) = *step;
    see_whole(rt, region, 5, len);
    append(region, alloc, group).expect(rt, "a group");
    let is_closed = reads_as(rt, alloc, region, closed);
    see_whole(rt, region, 5, len);
    region.open_gates::<W>().expect(rt, "open gates");
    let is_open = reads_as(rt, alloc, region, opened);
    is_closed && is_open
}

/// Whether a scan finds no record.
fn is_empty<W: Wire + Drop>(rt: &impl Abort, alloc: Global, region: &mut Region<MemDisk>) -> bool
    requires { LiesOn region.old }
    ensures place { InSamePlace region.old region.new }
{
    let found = region.scan::<W>(alloc).expect(rt, "a scan");
    found.is_empty()
}

/// Appends the groups to an area that has no record.
fn try_steps<W: Wire + Drop>(
    rt: &impl Abort,
    alloc: Global,
    region: &mut Region<MemDisk>,
    len: u16,
    steps: &[Step<W>],
)
    requires lies { LiesOn region.old }
    requires place { IsAt region.old 5 len }
{
    check!(rt; is_empty::<W>(rt, alloc, region));
    for step in steps {
        check!(rt; lays(rt, alloc, region, len, step), step.1);
    }
}

/// Appends the groups to a new area.
fn try_anew<W: Wire + Drop>(rt: &impl Abort, alloc: Global, len: u16, steps: &[Step<W>]) {
    let mut region = filled(rt, alloc, len);
    try_steps(rt, alloc, &mut region, len, steps);
    drop(region);
}

/// The same records as one group.
const ONE_GROUP: &[Step<bool>] = &[(
    &[false, true, false],
    b"\xff\0\0\x01\0\0\0\xff\xff",
    b"\xa5\0\xa5\x01\xa5\0\0\xff\xff",
)];

/// And as three.
const THREE_GROUPS: &[Step<bool>] = &[
    (
        &[false],
        b"\xff\0\0\xff\xff\xff\xff\xff\xff",
        b"\xa5\0\0\xff\xff\xff\xff\xff\xff",
    ),
    (
        &[true],
        b"\xa5\0\0\x01\0\xff\xff\xff\xff",
        b"\xa5\0\xa5\x01\0\xff\xff\xff\xff",
    ),
    (
        &[false],
        b"\xa5\0\xa5\x01\0\0\0\xff\xff",
        b"\xa5\0\xa5\x01\xa5\0\0\xff\xff",
    ),
];

/// A group of no records, and one that fills the area.
const NUMBERS: &[Step<u32>] = &[
    (
        &[],
        b"\xff\xff\xff\xff\xff\xff\xff\xff\xff\xff\xff\xff\xff\xff\xff\xff",
        b"\xff\xff\xff\xff\xff\xff\xff\xff\xff\xff\xff\xff\xff\xff\xff\xff",
    ),
    (
        &[0x0102_0304],
        b"\xff\x01\x02\x03\x04\0\xff\xff\xff\xff\xff\xff\xff\xff\xff\xff",
        b"\xa5\x01\x02\x03\x04\0\xff\xff\xff\xff\xff\xff\xff\xff\xff\xff",
    ),
    (
        &[0xa5a5_a5a5, 7],
        b"\xa5\x01\x02\x03\x04\0\xa5\xa5\xa5\xa5\0\0\0\0\x07\0",
        b"\xa5\x01\x02\x03\x04\xa5\xa5\xa5\xa5\xa5\xa5\0\0\0\x07\0",
    ),
];

#[test]
fn lays_a_group_out(rt: HostRuntime) {
    let alloc = rt.alloc();
    try_anew(&rt, alloc, 9, ONE_GROUP);
    try_anew(&rt, alloc, 9, THREE_GROUPS);
    try_anew(&rt, alloc, 16, NUMBERS);
    let group = texts(&rt, alloc, &["\u{e5}", ""]);
    try_anew(
        &rt,
        alloc,
        13,
        &[(
            &group,
            b"\xff\0\0\0\x02\xc3\xa5\0\0\0\0\0\0",
            b"\xa5\0\0\0\x02\xc3\xa5\xa5\0\0\0\0\0",
        )],
    );
}
