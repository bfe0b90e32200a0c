//! Journals on disks in memory.
ghost use Rattle.std.specs.Prelude.{◌+◌, OnOk};
ghost use Rattle.wm_journal.specs.Regions.{InSamePlace, IsAt, LiesOn};

mod bytes;
mod calls;
mod crashes;
mod refused;

use crate::disks;
use std::alloc::Global;
use std::process::Abort;
use wm_disk::{Disk, MemDisk, Refusal};
use wm_journal::Region;
use wm_wire::{Text, Wire};

/// A disk on which these bytes are durable.
fn disk_of(rt: &impl Abort, alloc: Global, choice: u64, parts: &[&[u8]]) -> MemDisk {
    let mut bytes = Vec::new(alloc);
    for part in parts {
        bytes.extend_from_slice(part).expect(rt, "memory");
    }
    disks::disk_of(rt, alloc, choice, &bytes)
}

/// The area of a disk that reaches so far. It takes one call, for the disk's length.
fn region_of(
    rt: &impl Abort,
    alloc: Global,
    mut disk: MemDisk,
    offset: u16,
    len: u16,
) -> Region<MemDisk>
    ensures lies { LiesOn result }
    ensures place { IsAt result offset len }
{
    let (offset, len) = (u64::from(offset), u64::from(len));
    assert!(rt; len > 0);
    assert!(rt; disk.len().expect(rt, "a length") >= offset + len);
    Region::new(alloc, disk, offset, len)
}

/// Finds that the disk still reaches to the journal's end, by one call.
fn see_whole(rt: &impl Abort, region: &mut Region<MemDisk>, offset: u16, len: u16)
    requires { IsAt region.old offset len }
    ensures lies { LiesOn region.new }
    ensures place { IsAt region.new offset len }
{
    let reached = region.disk.len().expect(rt, "a length");
    assert!(rt; reached >= u64::from(offset) + u64::from(len));
}

/// Writes a group that has room, its gates closed.
fn append<W: Wire>(
    region: &mut Region<MemDisk>,
    alloc: Global,
    records: &[W],
) -> Result<(), Refusal>
    requires { LiesOn region.old }
    ensures lies { OnOk result (LiesOn region.new) }
    ensures place { InSamePlace region.old region.new }
{
    let mut room = region.room();
    for record in records {
        let size = record.size();
        if room <= size {
            return Err(Refusal::Full);
        }
        room -= size + 1;
    }
    region.append_closed(alloc, records)
}

fn texts(rt: &impl Abort, alloc: Global, values: &[&str]) -> Vec<Text<8>> {
    let mut texts = Vec::new(alloc);
    for value in values {
        assert!(rt; value.len() <= 8);
        let text = Text::new(alloc, value).expect(rt, "a text");
        texts.push(text).expect(rt, "memory");
    }
    texts
}

/// The texts, a bar behind each.
fn joined(rt: &impl Abort, alloc: Global, texts: &[Text<8>]) -> String {
    let mut all = String::new(alloc);
    for text in texts {
        all.push_str(text.as_str()).expect(rt, "memory");
        all.push_str("|").expect(rt, "memory");
    }
    all
}
