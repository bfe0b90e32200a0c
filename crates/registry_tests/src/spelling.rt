//! What each type's spellings are put to.
use crate::checks::check;
use std::alloc::Global;
use std::process::Abort;
use wm_wire::Wire;

// Appends the spelling behind a byte.
fn put_behind<W: Wire>(rt: &impl Abort, alloc: Global, value: &W) -> Vec<u8> {
    let mut out = vec![in alloc; 7u8].expect(rt, "memory");
    value.put(&mut out).expect(rt, "memory");
    out
}

/// Whether the value is spelled so, behind what is there, and in as many bytes as it says.
pub(crate) fn spells<W: Wire>(rt: &impl Abort, alloc: Global, value: &W, want: &[u8]) -> bool {
    let out = put_behind(rt, alloc, value);
    let spells = match out.as_slice() {
        [7, rest @ ..] => rest == want && value.size() == want.len() as u64,
        _ => false,
    };
    drop(out);
    spells
}

/// The value that the bytes begin with, in front of two others. `None` where they begin with none, or
/// its spelling has another length.
pub(crate) fn taken<W: Wire + Drop>(rt: &impl Abort, alloc: Global, bytes: &[u8]) -> Option<W> {
    let mut long = Vec::new(alloc);
    long.extend_from_slice(bytes).expect(rt, "memory");
    long.extend_from_slice(b"\xff\0").expect(rt, "memory");
    let taken = W::take(alloc, &long).expect(rt, "memory");
    drop(long);
    match taken {
        Some((value, size)) if size == bytes.len() => Some(value),
        other => {
            drop(other);
            None
        }
    }
}

/// Whether the bytes begin with a spelling.
pub(crate) fn takes<W: Wire + Drop>(rt: &impl Abort, alloc: Global, bytes: &[u8]) -> bool {
    let taken = W::take(alloc, bytes).expect(rt, "memory");
    let takes = taken.is_some();
    drop(taken);
    takes
}

// How many bytes the shortest prefix has that begins with a spelling, where a cut of the bytes does, or
// else how many there are.
fn shortest<W: Wire + Drop>(rt: &impl Abort, alloc: Global, bytes: &[u8]) -> usize {
    for len in 0..bytes.len() {
        if takes::<W>(rt, alloc, &bytes[..len]) {
            return len;
        }
    }
    bytes.len()
}

/// Whether the value is spelled so, and no cut of that is a spelling.
pub(crate) fn is_spelled<W: Wire + Drop>(
    rt: &impl Abort,
    alloc: Global,
    value: &W,
    want: &[u8],
) -> bool {
    spells(rt, alloc, value, want) && shortest::<W>(rt, alloc, want) == want.len()
}

/// Asserts that none of the bytes begin with a spelling. Each stand behind what is wrong with them.
pub(crate) fn takes_none<W: Wire + Drop>(rt: &impl Abort, alloc: Global, rows: &[(&str, &[u8])]) {
    for (why, bytes) in rows {
        check!(rt; !takes::<W>(rt, alloc, bytes), why);
    }
}
