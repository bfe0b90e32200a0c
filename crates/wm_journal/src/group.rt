//! Lays a group out.
//! Definitions: specs/Records.antt. Tests: file_tests/src/journal/bytes.rt.
ghost use Rattle.std.specs.Prelude.{◌≡◌, ◌<◌, ◌+◌, ◌^◌, length, IfOk};
ghost use Rattle.std.specs.List.{AllByRecursion};
ghost use Rattle.wm_journal.specs.Records.{taken, gate_places, group as group_lem};

use crate::gates::CLOSED;
use std::alloc::Global;
use wm_disk::NoMemory;
use wm_wire::Wire;

/// A group as it is written behind its first gate, and the places of its gates from that gate on.
#[derive(Drop)]
pub(crate) struct Group {
    pub bytes: Vec<u8>,
    pub gates: Vec<u64>,
}

/// The group of these records behind the gate at this place.
pub(crate) fn laid_out<W: Wire>(alloc: Global, place: u64, records: &[W]) -> Result<Group, NoMemory>
    requires { place + taken W.spelling records.now < 2 ^ 62 }
    ensures gates { IfOk result (λ g. g.gates.items ≡ gate_places W.spelling place records.now) }
    ensures bytes { IfOk result (λ g. g.bytes.items ≡ group_lem W.spelling records.now) }
    ensures fit { IfOk result (λ g. AllByRecursion W.fits records.now) }
{
    // a record of a usual length takes less
    let mut bytes = Vec::with_capacity(alloc, records.len().saturating_mul(40))?;
    let mut gates = Vec::with_capacity(alloc, records.len())?;
    for record in records {
        gates.push(place + bytes.len() as u64)?;
        bytes.reserve(record.size() as usize + 1)?;
        record.put(&mut bytes)?;
        bytes.push(CLOSED)?;
    }
    Ok(Group { bytes, gates })
}
