//! How many calls the disk of a journal has.
ghost use Rattle.wm_journal.specs.Regions.{IsAt, LiesOn};

use super::{append, disk_of, region_of, see_whole};
use crate::checks::check;
use std::alloc::Global;
use std::process::Abort;
use wm_disk::MemDisk;
use wm_journal::Region;

const OFFSET: u16 = 7;

const LEN: u16 = 321;

/// The writes, the syncs and the other calls.
type Calls = (u64, u64, u64);

fn is_so(region: &Region<MemDisk>, room: u64, calls: Calls) -> bool {
    region.room() == room && region.disk.calls() == calls
}

/// A journal with no records, and whether that was counted: making the disk is a write and a sync, finding
/// its length another call, and scanning one more.
fn scanned(rt: &impl Abort, alloc: Global) -> (Region<MemDisk>, bool)
    ensures lies { LiesOn result.0 }
    ensures place { IsAt result.0 7 321 }
{
    let disk = disk_of(rt, alloc, 0, &[&[0u8; 340]]);
    let mut region = region_of(rt, alloc, disk, OFFSET, LEN);
    let made = region.disk.calls() == (1, 1, 1);
    let found = region.scan::<u32>(alloc).expect(rt, "a scan");
    let is_counted = made && found.is_empty() && is_so(&region, 320, (1, 1, 2));
    (region, is_counted)
}

/// A group is one write and one sync.
fn counts_an_append(
    rt: &impl Abort,
    alloc: Global,
    region: &mut Region<MemDisk>,
    records: &[u32],
    room: u64,
) -> bool
    requires lies { LiesOn region.old }
    requires place { IsAt region.old 7 321 }
    ensures lies { LiesOn region.new }
    ensures place { IsAt region.new 7 321 }
{
    append(region, alloc, records).expect(rt, "a group");
    is_so(region, room, (2, 2, 2))
}

/// Each gate is one write, with a sync behind the last. Once they are open, none is written again.
fn counts_the_gates(rt: &impl Abort, region: &mut Region<MemDisk>, written: u64, room: u64) -> bool
    requires lies { LiesOn region.old }
    requires place { IsAt region.old 7 321 }
    ensures place { IsAt region.new 7 321 }
{
    region.open_gates::<u32>().expect(rt, "open gates");
    let opened = is_so(region, room, (written, 3, 2));
    see_whole(rt, region, OFFSET, LEN);
    region.open_gates::<u32>().expect(rt, "no gate to open");
    opened && region.disk.calls() == (written, 4, 3)
}

fn finds(
    rt: &impl Abort,
    alloc: Global,
    region: &mut Region<MemDisk>,
    records: &[u32],
    written: u64,
    room: u64,
) -> bool
    requires place { IsAt region.old 7 321 }
{
    see_whole(rt, region, OFFSET, LEN);
    let found = region.scan::<u32>(alloc).expect(rt, "a scan");
    found.as_slice() == records && is_so(region, room, (written, 4, 5))
}

/// The numbers below this one.
fn numbers(rt: &impl Abort, alloc: Global, count: u32) -> Vec<u32> {
    let mut records = Vec::new(alloc);
    for n in 0..count {
        records.push(n).expect(rt, "memory");
    }
    records
}

/// Whether a group of so many records is counted as it should be, and leaves this room.
fn counts(rt: &impl Abort, alloc: Global, count: u32, room: u64) -> bool {
    let records = numbers(rt, alloc, count);
    let written = 2 + u64::from(count);
    let (mut region, scanned) = scanned(rt, alloc);
    let appended = counts_an_append(rt, alloc, &mut region, &records, room);
    let opened = counts_the_gates(rt, &mut region, written, room);
    let found = finds(rt, alloc, &mut region, &records, written, room);
    drop(region);
    scanned && appended && opened && found
}

/// How many records a group has, and the room that it leaves.
const GROUPS: &[(u32, u64)] = &[(0, 320), (1, 315), (3, 305), (64, 0)];

#[test]
fn counts_its_calls(rt: HostRuntime) {
    for (count, room) in GROUPS {
        check!(rt; counts(&rt, rt.alloc(), *count, *room), count);
    }
}
