//! Values, each with its exact bytes, and bytes that are no spelling.
use std::alloc::Global;
use std::process::Abort;
use wm_wire::Wire;

mod lists;
mod optionals;
mod pairs;
mod texts;
mod values;

// Puts a value behind a byte, and takes it back from in front of two others. `None` where the
// spelling or its size isn't what is wanted.
fn again<W: Wire + Drop>(rt: &impl Abort, alloc: Global, value: &W, want: &[u8]) -> Option<W> {
    let mut out = vec![in alloc; 7u8].expect(rt, "memory");
    value.put(&mut out).expect(rt, "memory");
    let spelled = match out.as_slice() {
        [7, rest @ ..] => rest == want,
        _ => false,
    };
    if !spelled || value.size() != want.len() as u64 {
        return None;
    }
    out.push(0xff).expect(rt, "memory");
    out.push(0).expect(rt, "memory");
    match W::take(alloc, &out[1..]).expect(rt, "memory") {
        Some((value, size)) if size == want.len() => Some(value),
        _ => None,
    }
}

// Whether the value is spelled so, and taken back.
fn is_again<W: Wire + Drop>(rt: &impl Abort, alloc: Global, value: &W, want: &[u8]) -> bool {
    let back = again(rt, alloc, value, want);
    let is_some = back.is_some();
    drop(back);
    is_some
}

// Whether the bytes begin with no spelling.
fn is_none<W: Wire + Drop>(rt: &impl Abort, alloc: Global, bytes: &[u8]) -> bool {
    let taken = W::take(alloc, bytes).expect(rt, "memory");
    let is_none = taken.is_none();
    drop(taken);
    is_none
}
