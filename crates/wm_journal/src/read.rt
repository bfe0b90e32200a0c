//! Reads the records before the first closed gate.
//! Definitions: specs/Records.antt. Tests: file_tests/src/journal/bytes.rt.
ghost use Rattle.std.specs.Prelude.{◌≡◌, ◌<◌, List, length, IfOk, IfSome, IfNone};
ghost use Rattle.wm_journal.specs.Records.{HoldsRecords, taken};

use crate::gates::OPEN;
use std::alloc::Global;
use wm_disk::NoMemory;
use wm_wire::Wire;

/// The records before the first closed gate, and the place of that gate; `None` only where no records
/// stand before a closed gate: some open gate has no record behind it, or no gate is closed. An error comes
/// only when out of memory.
pub fn read_records<W: Wire + Drop>(
    alloc: Global,
    bytes: &[u8],
) -> Result<Option<(Vec<W>, usize)>, NoMemory>
    ensures found { IfOk result (λ found. IfSome found (λ f. HoldsRecords W.Wire f.0.items bytes.now)) }
    ensures only { IfOk result (λ found. IfSome found (λ f. (records : List W) → HoldsRecords W.Wire records bytes.now → records ≡ f.0.items)) }
    ensures end { IfOk result (λ found. IfSome found (λ f. f.1 ≡ taken W.spelling f.0.items)) }
    ensures within { IfOk result (λ found. IfSome found (λ f. f.1 < length bytes.now)) }
    ensures none { IfOk result (λ found. IfNone found ((records : List W) → HoldsRecords W.Wire records bytes.now → ⊥)) }
{
    let mut records = Vec::new(alloc);
    let mut at = 0;
    while at < bytes.len() {
        if bytes[at] != OPEN {
            return Ok(Some((records, at)));
        }
        let Some((record, size)) = W::take(alloc, bytes.split_at(at + 1).1)? else {
            return Ok(None);
        };
        records.push(record)?;
        at += 1 + size;
    }
    Ok(None)
}
