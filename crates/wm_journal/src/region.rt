//! A journal in an area of a disk.
//! Definitions: specs/Regions.antt, specs/Records.antt. Tests: file_tests/src/journal.
ghost use Rattle.std.specs.Prelude.{◌≡◌, ◌≤◌, ◌<◌, ◌+◌, ◌-◌, ◌^◌, ◌⊎◌, ◌++◌, List, length, IfOk, IfErr, OnOk, OnErr, IsErrOf, EachIndex, slice_index};
ghost use Rattle.wm_disk.specs.Calls.{Calls, CallsDevice, OnlyReads};
ghost use Rattle.wm_disk.specs.Moments.{LeavesOnly};
ghost use Rattle.wm_journal.specs.Records.{HoldsRecords, taken};

use crate::gates::open_each;
use crate::group::laid_out;
use crate::read::read_records;
use std::alloc::Global;
use wm_disk::{DeviceFailed, Disk, Refusal};
use wm_wire::Wire;

/// The journal in an area of a disk. Outside the area nothing is written.
#[derive(Drop)]
pub struct Region<D: Disk> {
    pub disk: D,
    offset: u64,
    len: u64,
    // the place, in the area, of the closed gate behind the records
    end: u64,
    // the places, in the area, of the gates that are still to be opened
    gates: Vec<u64>,
    ghost small: { offset + len < 2 ^ 62 },
    ghost within: { end < len },
    ghost inside: { EachIndex gates.items (λ k. slice_index gates.items k < len) },
}

impl<D: Disk> Region<D> {
    ghost use Rattle.wm_disk.specs.declared.refusal.Refusal.TheVariants.{DeviceFailed as device_failed, NoMemory as no_memory, Damaged as damaged};
    ghost use Rattle.wm_journal.specs.Regions.{len_of, IsAt, EndsAt, LiesOn, room_of, area, IsOtherwise, StaysInPlace, WritesInside, IsRead, IsAtRest, IsStaged, StillHolds, HoldsPrefix};

    /// The area of `len` bytes from `offset` on. It isn't read yet: begin with [`Region::scan`].
    pub fn new(alloc: Global, disk: D, offset: u64, len: u64) -> Self
        requires some { 0 < len }
        requires small { offset + len < 2 ^ 62 }
        ensures place { IsAt result offset len }
        ensures disk { result.disk ≡ disk }
    {
        Region {
            disk,
            offset,
            len,
            end: 0,
            gates: Vec::new(alloc),
        }
    }

    /// Goes to the area of the same length at another place, or the same, of which it is known that it has
    /// records up to `end`, where its closed gate stands. It makes no call of the disk.
    pub fn go_to(&mut self, offset: u64, end: u64)
        requires within { end < len_of self.old }
        requires small { offset + len_of self.old < 2 ^ 62 }
        ensures place { IsAt self.new offset (len_of self.old) }
        ensures end { EndsAt self.new end }
        ensures disk { self.new.disk ≡ self.old.disk }
    {
        self.offset = offset;
        self.end = end;
        self.gates.clear();
    }

    /// How many bytes are left for records, each with its gate of one byte.
    pub fn room(&self) -> u64
        ensures { result ≡ room_of self.now }
    {
        self.len - 1 - self.end
    }

    /// The records before the first closed gate. Nothing is written: one reading of the whole area.
    /// `14 Damaged` where no records stand before a closed gate, `13 DeviceFailed` where the reading
    /// failed, `16 NoMemory` when out of memory; the region is then as before the call.
    pub fn scan<W: Wire + Drop>(&mut self, alloc: Global) -> Result<Vec<W>, Refusal>
        requires lies { LiesOn self.old }
        ensures found { D.honest self.new.disk → IfOk result (λ records. IsRead W.Wire self.new records.items) }
        ensures only { D.honest self.new.disk → IfOk result (λ records. (held : List W) → HoldsRecords W.Wire held (area self.old (D.seen self.old.disk)) → held ≡ records.items) }
        ensures damaged { D.honest self.new.disk → IsErrOf result damaged → (records : List W) → HoldsRecords W.Wire records (area self.old (D.seen self.old.disk)) → ⊥ }
        ensures reads { D.honest self.new.disk → OnlyReads D.Disk self.old.disk self.new.disk }
        ensures device { Calls D.Disk self.old.disk self.new.disk result }
        ensures kinds { IfErr result (λ e. (e ≡ device_failed) ⊎ (e ≡ no_memory) ⊎ (e ≡ damaged)) }
        ensures place { StaysInPlace self.old self.new result }
    {
        let mut bytes = Vec::new(alloc);
        bytes.resize(self.len as usize, 0)?;
        self.disk.read_at(self.offset, &mut bytes)?;
        match read_records(alloc, &bytes)? {
            None => Err(Refusal::Damaged),
            Some((records, end)) => {
                self.end = end as u64;
                self.gates.clear();
                Ok(records)
            }
        }
    }

    /// Writes a group behind the closed gate that ends the journal, every gate of it closed, and makes it
    /// durable: one write and one sync. It doesn't count before [`Region::open_gates`]; a group that was
    /// staged before and whose gates weren't opened is given up. `13 DeviceFailed` where the write or the
    /// sync failed: the records still stand, and the region is to be scanned again, after a sync;
    /// `16 NoMemory` when out of memory, with no call of the disk and nothing changed.
    pub fn append_closed<W: Wire>(&mut self, alloc: Global, records: &[W]) -> Result<(), Refusal>
        requires lies { LiesOn self.old }
        requires fits { taken W.spelling records.now ≤ room_of self.old }
        ensures staged { (held : List W) → D.honest self.new.disk → IsAtRest W.Wire self.old held → OnOk result (IsStaged W.Wire self.new held records.now) }
        ensures room { OnOk result (room_of self.new + taken W.spelling records.now ≡ room_of self.old) }
        // A crash at any moment of the call leaves the records as they were.
        ensures any_moment { (held : List W) → D.honest self.new.disk → IsAtRest W.Wire self.old held → LeavesOnly D.moment D.left_since self.old.disk self.new.disk (StillHolds W.Wire self.old held) }
        ensures device { Calls D.Disk self.old.disk self.new.disk result }
        ensures refused { IfErr result (λ e. ((e ≡ device_failed) × IsOtherwise self.old self.new) ⊎ ((e ≡ no_memory) × (self.new ≡ self.old))) }
        ensures place { WritesInside self.old self.new result }
    {
        let group = laid_out(alloc, self.end, records)?;
        let behind = self.end + 1;
        self.disk.write_at(self.offset + behind, &group.bytes)?;
        self.disk.sync()?;
        self.end += group.bytes.len() as u64;
        self.gates = group.gates;
        Ok(())
    }

    /// Opens the gates of the group, first to last, a write each, and makes them durable by a sync. After
    /// it the group counts. It takes no memory. On an error a prefix of the group counts, and the
    /// region is to be scanned again, after a sync.
    pub fn open_gates<W: Wire>(&mut self) -> Result<(), DeviceFailed>
        requires lies { LiesOn self.old }
        ensures opened { (held added : List W) → D.honest self.new.disk → IsStaged W.Wire self.old held added → OnOk result (IsAtRest W.Wire self.new (held ++ added)) }
        ensures room { room_of self.new ≡ room_of self.old }
        // A crash at any moment of the call leaves the records with a prefix of the group.
        ensures any_moment { (held added : List W) → D.honest self.new.disk → IsStaged W.Wire self.old held added → LeavesOnly D.moment D.left_since self.old.disk self.new.disk (HoldsPrefix W.Wire self.old held added) }
        ensures device { CallsDevice D.Disk self.old.disk self.new.disk result }
        ensures place { WritesInside self.old self.new result }
        ensures refused { OnErr result (IsOtherwise self.old self.new) }
    {
        open_each::<D, W>(&mut self.disk, self.offset, self.len, &self.gates)?;
        self.disk.sync()?;
        self.gates.clear();
        Ok(())
    }
}
