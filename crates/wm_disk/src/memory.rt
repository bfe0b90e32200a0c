//! A disk in memory, which keeps a record of its calls and is honest always.
//! Definitions: specs/MemDisks.antt, specs/Points.antt. Tests: leaf_tests/src/disks/memory.rt.
ghost use Rattle.std.specs.Prelude.{◌≡◌, ◌≤◌, ◌<◌, ◌+◌, ◌++◌, [], ◌∷◌, ℕ, ⊤, max, List, length, vec_len, vec_capacity, OnOk, OnErr};
ghost use Rattle.wm_disk.specs.Contents.{Only, Torn, Rose, overwritten};
ghost use Rattle.wm_disk.specs.Points.{new_point, reached, TornBy, MayLeave, LeftSince};
ghost use Rattle.wm_disk.specs.PointLaws.{left_now, left_last};
ghost use Rattle.std.proofs.Common.{inl, refl, subst, sym};
ghost use Rattle.wm_disk.specs.declared.memory.Call.TheVariants.{Wrote, Synced};

use crate::{Crashed, DeviceFailed, Disk, MAX_COUNTER};
use std::alloc::{AllocError, Global};

/// Where a write went.
#[derive(Clone, Copy, Debug)]
pub struct Range {
    pub at: usize,
    pub len: usize,
}

/// A call that changed what a crash may leave.
#[derive(Drop)]
pub enum Call {
    Wrote(usize, Vec<u8>),
    Synced,
}

/// How many calls of each kind a disk had, those that failed among them.
#[derive(Clone, Copy, Debug)]
pub(crate) struct Made {
    pub writes: u64,
    pub syncs: u64,
    pub others: u64,
}

/// A disk in memory. A growth that is refused in it is a failure of the disk, and counted.
#[derive(Drop)]
pub struct MemDisk {
    alloc: Global,
    choice: u64,
    // what a read gives
    bytes: Vec<u8>,
    // the content at the last sync, with room for more
    durable: Vec<u8>,
    // the writes since then
    writes: Vec<Range>,
    // the content before the first call, and the calls
    first: Vec<u8>,
    calls: Vec<Call>,
    // how many calls pass before each fails
    passes: Option<u64>,
    failures: u64,
    made: Made,
    ghost seen_is: { (reached (new_point first.items) calls.items).seen ≡ bytes.items },
    ghost durable_is: { (reached (new_point first.items) calls.items).durable ≡ durable.items },
    ghost writes_is: { (reached (new_point first.items) calls.items).writes ≡ writes.items },
    ghost grown: { vec_len durable ≤ vec_len bytes },
    ghost room: { vec_len bytes ≤ vec_capacity durable },
    ghost first_room: { vec_len bytes ≤ vec_capacity first },
    ghost counted: { length calls.items ≤ made.writes + made.syncs },
}

fn count(calls: &mut u64)
    ensures later { calls.old ≤ calls.new }
    ensures counted { calls.old < 18446744073709551615 → calls.old < calls.new }
{
    *calls = calls.saturating_add(1);
}

fn fault(failures: &mut u64) -> DeviceFailed
    ensures later { failures.old ≤ failures.new }
    ensures rose { Rose failures.old failures.new }
{
    if *failures < MAX_COUNTER {
        *failures += 1;
    }
    DeviceFailed
}

// Lets a call pass, where the disk isn't armed or still lets it.
fn admit(passes: &mut Option<u64>, failures: &mut u64) -> Result<(), DeviceFailed>
    ensures ok { OnOk result (failures.new ≡ failures.old) }
    ensures later { failures.old ≤ failures.new }
    ensures err { OnErr result (Rose failures.old failures.new) }
{
    match *passes {
        None => Ok(()),
        Some(0) => Err(fault(failures)),
        Some(n) => {
            *passes = Some(n - 1);
            Ok(())
        }
    }
}

fn overwrite(bytes: &mut Vec<u8>, at: usize, part: &[u8]) -> Result<(), AllocError>
    requires { at ≤ vec_len bytes.old }
    ensures ok { OnOk result (bytes.new.items ≡ overwritten bytes.old.items at part.now) }
    ensures err { OnErr result (bytes.new.items ≡ bytes.old.items) }
{
    bytes.reserve(part.len())?;
    if part.len() <= bytes.len() - at {
        bytes[at..at + part.len()].copy_from_slice(part);
    } else {
        bytes.truncate(at);
        bytes.extend_from_slice(part).unwrap();
    }
    Ok(())
}

// What a crash leaves at a written place: that byte, or what was there before.
fn byte_left(choice: u64, at: usize, seen: u8) -> Option<u8> {
    match choice {
        0 => None,
        1 => Some(seen),
        2 => Some(0xa5),
        3 => Some(0),
        _ if choice >> (at % 64) & 1 == 1 => Some(seen),
        _ => None,
    }
}

// Tears one write.
fn tear(old: &mut Vec<u8>, range: Range, seen: &[u8], choice: u64)
    requires { length seen.now ≤ vec_capacity old.old }
    ensures torn { Torn range.at range.len old.old.items old.new.items }
    ensures room { vec_capacity old.old ≤ vec_capacity old.new }
    ensures length { vec_len old.new ≤ max (vec_len old.old) (length seen.now) }
{
    let end = range.at.saturating_add(range.len).min(seen.len());
    for i in range.at..end {
        let left = byte_left(choice, i, seen[i]);
        if i < old.len() {
            if let Some(byte) = left {
                old[i] = byte;
            }
        } else if i == old.len() {
            old.push(left.unwrap_or(0)).unwrap();
        }
    }
}

// Tears each of these writes.
fn tear_all(old: &mut Vec<u8>, ranges: &[Range], seen: &[u8], choice: u64)
    requires { length seen.now ≤ vec_capacity old.old }
    ensures torn { TornBy old.old.items ranges.now old.new.items }
    ensures length { vec_len old.new ≤ max (vec_len old.old) (length seen.now) }
{
    if choice == 0 {
        return;
    }
    for range in ranges {
        tear(old, *range, seen, choice);
    }
}

fn replace(into: &mut Vec<u8>, from: &[u8])
    requires { length from.now ≤ vec_capacity into.old }
    ensures items { into.new.items ≡ from.now }
    ensures room { vec_capacity into.old ≤ vec_capacity into.new }
{
    into.clear();
    into.extend_from_slice(from).unwrap();
}

impl MemDisk {
    ghost use Rattle.wm_disk.specs.MemDisks.{memory_bytes, memory_failures, memory_calls};

    /// An empty disk. The choice says what a crash will leave: 0 the bytes and the length at the last good
    /// sync. Every other choice leaves the length that a read tells, and at a written place 1 what a read
    /// gives, 2 the byte `A5`, 3 the byte `00`, and 4 and more what a read gives where bit (place modulo
    /// 64) of the choice is set, else what was there at the last good sync, or `00` past its end.
    pub fn new(alloc: Global, choice: u64) -> Self
        ensures empty { memory_bytes result ≡ [] }
        ensures durable { Only [] (⟦<MemDisk as Disk>⟧.may_leave result) }
        ensures count { memory_failures result ≡ 0 }
        ensures calls { memory_calls result ≡ (0, 0, 0) }
    {
        MemDisk {
            alloc,
            choice,
            bytes: Vec::new(alloc),
            durable: Vec::new(alloc),
            writes: Vec::new(alloc),
            first: Vec::new(alloc),
            calls: Vec::new(alloc),
            passes: None,
            failures: 0,
            made: Made {
                writes: 0,
                syncs: 0,
                others: 0,
            },
        }
    }

    /// How many writes, syncs and other calls of [`Disk`] the disk had since `new`, those that failed
    /// among them. A crash and a stop keep the numbers.
    pub fn calls(&self) -> (u64, u64, u64)
        ensures value { result ≡ memory_calls self.now }
        // Each call since the last crash that had an effect is counted.
        ensures counted { ⟦<MemDisk as Disk>⟧.moment self.now ≤ result.0 + result.1 }
    {
        (self.made.writes, self.made.syncs, self.made.others)
    }

    /// How often a call of [`Disk`] has failed since `new`, up to 2^63 - 1. A crash and a stop keep the number.
    pub fn failures(&self) -> u64
        ensures { result ≡ memory_failures self.now }
    {
        self.failures
    }

    // Room for this many bytes in the copies that a crash fills.
    fn make_room(&mut self, len: usize) -> Result<(), AllocError>
        ensures same { (self.new.bytes.items ≡ self.old.bytes.items) × (self.new.first.items ≡ self.old.first.items) × (self.new.calls.items ≡ self.old.calls.items) × (self.new.failures ≡ self.old.failures) }
        ensures made { self.new.made ≡ self.old.made }
        ensures lens { vec_len self.new.bytes ≡ vec_len self.old.bytes }
        ensures durable { OnOk result (len ≤ vec_capacity self.new.durable) }
        ensures first { OnOk result (len ≤ vec_capacity self.new.first) }
        ensures writes { OnOk result (vec_len self.new.writes < vec_capacity self.new.writes) }
        ensures calls { OnOk result (vec_len self.new.calls < vec_capacity self.new.calls) }
    {
        self.writes.reserve(1)?;
        self.calls.reserve(1)?;
        if len > self.durable.len() {
            self.durable.reserve(len - self.durable.len())?;
        }
        if len > self.first.len() {
            self.first.reserve(len - self.first.len())?;
        }
        Ok(())
    }

    fn write(&mut self, at: usize, part: &[u8]) -> Result<(), AllocError>
        requires inside { at ≤ vec_len self.old.bytes }
        requires counted { length self.old.calls.items < self.old.made.writes + self.old.made.syncs }
        ensures ok { OnOk result ((v : _) × (v.items ≡ part.now) × (self.new.calls.items ≡ self.old.calls.items ++ Wrote at v ∷ [])) }
        ensures written { OnOk result (self.new.bytes.items ≡ overwritten self.old.bytes.items at part.now) }
        ensures err { OnErr result ((self.new.calls.items ≡ self.old.calls.items) × (self.new.bytes.items ≡ self.old.bytes.items)) }
        ensures first { self.new.first.items ≡ self.old.first.items }
        ensures count { self.new.failures ≡ self.old.failures }
    {
        let copy = Vec::from_slice(self.alloc, part)?;
        let Some(end) = at.checked_add(part.len()) else {
            return Err(AllocError);
        };
        let len = self.bytes.len();
        self.make_room(end.max(len))?;
        overwrite(&mut self.bytes, at, part)?;
        self.writes
            .push(Range {
                at,
                len: part.len(),
            })
            .unwrap();
        self.calls.push(Call::Wrote(at, copy)).unwrap();
        Ok(())
    }

    fn settle(&mut self) -> Result<(), AllocError>
        requires counted { length self.old.calls.items < self.old.made.writes + self.old.made.syncs }
        ensures ok { OnOk result (self.new.calls.items ≡ self.old.calls.items ++ Synced ∷ []) }
        ensures err { OnErr result (self.new.calls.items ≡ self.old.calls.items) }
        ensures same { (self.new.bytes.items ≡ self.old.bytes.items) × (self.new.first.items ≡ self.old.first.items) × (self.new.failures ≡ self.old.failures) }
    {
        self.calls.reserve(1)?;
        replace(&mut self.durable, &self.bytes);
        self.writes.clear();
        self.calls.push(Call::Synced).unwrap();
        Ok(())
    }
}

impl Disk for MemDisk {
    ghost honest = { λ m. ⊤ };

    ghost seen = { λ m. m.bytes.items };

    ghost may_leave = { λ m c. MayLeave (reached (new_point m.first.items) m.calls.items) c };

    ghost moment = { λ m. length m.calls.items };

    ghost left_since = { λ m t c. LeftSince (new_point m.first.items) m.calls.items t c };

    ghost failures = { λ m. m.failures };

    ghost reads_stand = { λ m h. inl (sym m.seen_is) };

    ghost counts_now = { λ m t c h le now. left_now (new_point m.first.items) m.calls.items t c le now };

    ghost only_now = { λ m c h left. left_last (new_point m.first.items) m.calls.items c left };

    fn len(&mut self) -> Result<u64, DeviceFailed> {
        count(&mut self.made.others);
        admit(&mut self.passes, &mut self.failures)?;
        Ok(self.bytes.len() as u64)
    }

    fn read_at(&mut self, at: u64, bytes: &mut [u8]) -> Result<(), DeviceFailed> {
        count(&mut self.made.others);
        admit(&mut self.passes, &mut self.failures)?;
        let at = at as usize;
        bytes.copy_from_slice(&self.bytes[at..at + bytes.len()]);
        Ok(())
    }

    fn write_at(&mut self, at: u64, bytes: &[u8]) -> Result<(), DeviceFailed> {
        count(&mut self.made.writes);
        admit(&mut self.passes, &mut self.failures)?;
        match self.write(at as usize, bytes) {
            Ok(()) => Ok(()),
            Err(_) => Err(fault(&mut self.failures)),
        }
    }

    fn sync(&mut self) -> Result<(), DeviceFailed> {
        count(&mut self.made.syncs);
        admit(&mut self.passes, &mut self.failures)?;
        match self.settle() {
            Ok(()) => Ok(()),
            Err(_) => Err(fault(&mut self.failures)),
        }
    }
}

impl Crashed for MemDisk {
    ghost plan = { λ m. m.passes };

    fn arm(&mut self, calls: u64) {
        self.passes = Some(calls);
    }

    fn crash(self) -> Self {
        let MemDisk {
            alloc,
            choice,
            mut bytes,
            mut durable,
            mut writes,
            mut first,
            mut calls,
            passes: _,
            failures,
            made,
        } = self;
        tear_all(&mut durable, &writes, &bytes, choice);
        replace(&mut bytes, &durable);
        replace(&mut first, &durable);
        writes.clear();
        calls.clear();
        MemDisk {
            alloc,
            choice,
            bytes,
            durable,
            writes,
            first,
            calls,
            passes: None,
            failures,
            made,
        }
    }

    fn stop(mut self) -> Self {
        self.passes = None;
        self
    }
}
