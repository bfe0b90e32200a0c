//! What is refused, and that the region goes on after it.
ghost use Rattle.wm_journal.specs.Regions.{InSamePlace, IsAt, LiesOn};

use super::{append, disk_of, region_of, see_whole};
use crate::checks::check;
use std::alloc::Global;
use std::process::Abort;
use wm_disk::{Crashed, Disk, MemDisk, Refusal};
use wm_journal::Region;

/// Areas in which no journal stands.
const DAMAGED: &[&[u8]] = &[
    // no closed gate
    b"\xa5",
    b"\xa5\0\xa5\x01\xa5\0\xa5\x01",
    // no record behind an open gate
    b"\xa5\x02\0\0\0\0\0\0",
    b"\xa5\x01\xa5\0\xa5\xa5\0\0",
];

/// Whether a scan of this area is refused.
fn refuses(rt: &impl Abort, alloc: Global, area: &[u8]) -> bool {
    let len = u16::try_from(area.len()).expect(rt, "a short area");
    let disk = disk_of(rt, alloc, 0, &[b"front", area, b"\0behind"]);
    let mut region = region_of(rt, alloc, disk, 5, len);
    let refused = region.scan::<bool>(alloc).err();
    drop(region);
    refused == Some(Refusal::Damaged)
}

#[test]
fn refuses_damaged_bytes(rt: HostRuntime) {
    for area in DAMAGED {
        check!(rt; refuses(&rt, rt.alloc(), area), area);
    }
}

/// Whether these records are found with this byte in the place of the area's one record, or the scan is refused so.
fn rescans(
    rt: &impl Abort,
    alloc: Global,
    region: &mut Region<MemDisk>,
    byte: u8,
    want: Result<&[bool], Refusal>,
) -> bool
    requires { IsAt region.old 5 7 }
    ensures { IsAt region.new 5 7 }
{
    see_whole(rt, region, 5, 7);
    region.disk.write_at(6, &[byte]).expect(rt, "a write");
    see_whole(rt, region, 5, 7);
    let scanned = region.scan::<bool>(alloc);
    let is_found = match &scanned {
        Ok(records) => want == Ok(records.as_slice()),
        Err(refusal) => want == Err(*refusal),
    };
    drop(scanned);
    is_found && region.room() == 4
}

/// Scans an area with one record, and again with other bytes in its place.
fn scan_again(rt: &impl Abort, alloc: Global, region: &mut Region<MemDisk>)
    requires lies { LiesOn region.old }
    requires place { IsAt region.old 5 7 }
{
    let found = region.scan::<bool>(alloc).expect(rt, "a scan");
    check!(rt; found.as_slice() == [true].as_slice());
    check!(rt; rescans(rt, alloc, region, 2, Err(Refusal::Damaged)));
    check!(rt; rescans(rt, alloc, region, 0, Ok(&[false])));
}

/// The same region is scanned again after a refusal.
#[test]
fn scans_again_after_damage(rt: HostRuntime) {
    let alloc = rt.alloc();
    let disk = disk_of(&rt, alloc, 0, &[b"front\xa5\x01\0\0\0\0\0behind"]);
    let mut region = region_of(&rt, alloc, disk, 5, 7);
    scan_again(&rt, alloc, &mut region);
    drop(region);
}

/// The first refusal of a scan, a group of two and the opening of its gates, and the call that gave it.
fn first_refusal(region: &mut Region<MemDisk>, alloc: Global) -> Option<(&'static str, Refusal)>
    requires { LiesOn region.old }
    ensures place { InSamePlace region.old region.new }
{
    if let Err(refusal) = region.scan::<bool>(alloc) {
        return Some(("scan", refusal));
    }
    if let Err(refusal) = append(region, alloc, &[false, true]) {
        return Some(("append_closed", refusal));
    }
    match region.open_gates::<bool>() {
        Err(failed) => Some(("open_gates", failed.into())),
        Ok(()) => None,
    }
}

/// How many calls of the disk pass, the call of the region that then fails, the records that are found
/// afterwards, and the room behind them.
type Failure = (u64, Option<&'static str>, &'static [bool], u64);

const FAILURES: &[Failure] = &[
    (0, Some("scan"), &[true], 6),
    (1, Some("append_closed"), &[true], 6),
    (2, Some("append_closed"), &[true], 6),
    (3, Some("open_gates"), &[true], 6),
    (4, Some("open_gates"), &[true, false], 4),
    (5, Some("open_gates"), &[true, false, true], 2),
    (6, None, &[true, false, true], 2),
];

/// A journal with one record, scanned.
fn with_one_record(rt: &impl Abort, alloc: Global) -> Region<MemDisk>
    ensures lies { LiesOn result }
    ensures place { IsAt result 5 9 }
{
    let disk = disk_of(rt, alloc, 0, &[b"front\xa5\x01", &[0u8; 7], b"behind"]);
    let mut region = region_of(rt, alloc, disk, 5, 9);
    region.scan::<bool>(alloc).expect(rt, "a scan");
    region
}

/// Whether a scan finds these records.
fn finds(rt: &impl Abort, alloc: Global, region: &mut Region<MemDisk>, records: &[bool]) -> bool
    requires { IsAt region.old 5 9 }
    ensures { IsAt region.new 5 9 }
{
    see_whole(rt, region, 5, 9);
    let found = region.scan::<bool>(alloc).expect(rt, "a scan");
    found.as_slice() == records
}

/// Opens the gates that are still to be opened.
fn open(rt: &impl Abort, region: &mut Region<MemDisk>)
    requires { IsAt region.old 5 9 }
    ensures { IsAt region.new 5 9 }
{
    see_whole(rt, region, 5, 9);
    region.open_gates::<bool>().expect(rt, "open gates");
}

/// Whether the records are found with one more behind them, `false`, once that is put there.
fn goes_on(rt: &impl Abort, alloc: Global, region: &mut Region<MemDisk>, records: &[bool]) -> bool
    requires { IsAt region.old 5 9 }
{
    see_whole(rt, region, 5, 9);
    append(region, alloc, &[false]).expect(rt, "a group");
    open(rt, region);
    see_whole(rt, region, 5, 9);
    let found = region.scan::<bool>(alloc).expect(rt, "a scan");
    match found.split_last() {
        Some((last, front)) => front == records && !*last,
        None => false,
    }
}

/// Whether the call is the one that fails where the disk lets so many calls pass.
fn fails(alloc: Global, region: &mut Region<MemDisk>, calls: u64, call: Option<&str>) -> bool
    requires lies { LiesOn region.old }
    requires place { IsAt region.old 5 9 }
    ensures { IsAt region.new 5 9 }
{
    region.disk.arm(calls);
    match (first_refusal(region, alloc), call) {
        (Some((met, refusal)), Some(call)) => met == call && refusal == Refusal::DeviceFailed,
        (met, call) => met.is_none() && call.is_none(),
    }
}

/// Whether a region fails so, and after it finds the records and goes on.
fn recovers(rt: &impl Abort, alloc: Global, region: &mut Region<MemDisk>, failure: Failure) -> bool
    requires lies { LiesOn region.old }
    requires place { IsAt region.old 5 9 }
{
    let (calls, call, found, room) = failure;
    let failed = fails(alloc, region, calls, call);
    region.disk.arm(u64::MAX);
    region.disk.sync().expect(rt, "a sync");
    let is_found = finds(rt, alloc, region, found) && region.room() == room;
    // No gate of the group is opened any more.
    open(rt, region);
    let stays = finds(rt, alloc, region, found);
    let goes_on = goes_on(rt, alloc, region, found);
    failed && is_found && stays && goes_on
}

/// Whether a journal with one record does so.
fn one_recovers(rt: &impl Abort, alloc: Global, failure: Failure) -> bool {
    let mut region = with_one_record(rt, alloc);
    let recovers = recovers(rt, alloc, &mut region, failure);
    drop(region);
    recovers
}

#[test]
fn goes_on_after_a_failure(rt: HostRuntime) {
    for row in FAILURES {
        check!(rt; one_recovers(&rt, rt.alloc(), *row), row.0);
    }
}
