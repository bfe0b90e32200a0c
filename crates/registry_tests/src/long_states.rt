//! States with as many roots and as many bytes as there may be.
use crate::checks::check;
use crate::spelling::{spells, taken, takes};
use std::alloc::Global;
use std::process::Abort;
use wm_checkpoint::Version1;
use wm_registry::FiledRegistry;
use wm_wire::Wire;

// The bytes of so many roots, which have paths and numbers of their own.
fn crowd(rt: &impl Abort, alloc: Global, count: u8, more: u8) -> Vec<u8> {
    let all = u64::from(count) + u64::from(more);
    let mut out = Vec::new(alloc);
    0u64.put(&mut out).expect(rt, "memory");
    (all + 1).put(&mut out).expect(rt, "memory");
    (u32::from(count) + u32::from(more))
        .put(&mut out)
        .expect(rt, "memory");
    for number in 0..all {
        3u32.put(&mut out).expect(rt, "memory");
        out.extend_from_slice(&[b'/', b'a' + (number / 20) as u8, b'a' + (number % 20) as u8])
            .expect(rt, "memory");
        (number + 1).put(&mut out).expect(rt, "memory");
        0u32.put(&mut out).expect(rt, "memory");
    }
    out
}

// Whether the bytes are those of a state of 256 roots.
fn is_crowded(rt: &impl Abort, alloc: Global, bytes: &[u8]) -> bool {
    let Some(registry) = taken::<FiledRegistry<Version1>>(rt, alloc, bytes) else {
        return false;
    };
    let is_crowded = registry.registry().roots().len() == 256
        && spells(rt, alloc, &registry, bytes);
    drop(registry);
    is_crowded
}

// Whether a state of so many more than 255 roots is taken whole.
fn is_crowd(rt: &impl Abort, alloc: Global, more: u8) -> bool {
    let bytes = crowd(rt, alloc, 255, more);
    let is_crowded = is_crowded(rt, alloc, &bytes);
    drop(bytes);
    is_crowded
}

// Whether a state of 257 roots is taken.
fn is_crowd_too_many(rt: &impl Abort, alloc: Global) -> bool {
    let bytes = crowd(rt, alloc, 255, 2);
    let takes = takes::<FiledRegistry<Version1>>(rt, alloc, &bytes);
    drop(bytes);
    takes
}

#[test]
fn takes_256_roots(rt: HostRuntime) {
    check!(rt; is_crowd(&rt, rt.alloc(), 1));
    check!(rt; !is_crowd_too_many(&rt, rt.alloc()));
}

// Appends a text of so many bytes.
fn put_letters(rt: &impl Abort, out: &mut Vec<u8>, count: u32) {
    count.put(out).expect(rt, "memory");
    for _ in 0..count {
        out.push(b'w').expect(rt, "memory");
    }
}

// Appends a trigger of 16 words of 1,019 bytes, whose name ends in the letter: 16,378 bytes, and those of
// the expression.
fn put_long(rt: &impl Abort, out: &mut Vec<u8>, letter: u8) {
    2u32.put(out).expect(rt, "memory");
    out.push(b'0' + letter / 16).expect(rt, "memory");
    out.push(b'a' + letter % 16).expect(rt, "memory");
    16u32.put(out).expect(rt, "memory");
    for _ in 0..16u8 {
        put_letters(rt, out, 1019);
    }
}

// Appends what stands in front of the 64 triggers of a first root.
fn put_head(rt: &impl Abort, out: &mut Vec<u8>) {
    0u64.put(out).expect(rt, "memory");
    2u64.put(out).expect(rt, "memory");
    1u32.put(out).expect(rt, "memory");
    2u32.put(out).expect(rt, "memory");
    out.extend_from_slice(b"/r").expect(rt, "memory");
    1u64.put(out).expect(rt, "memory");
    64u32.put(out).expect(rt, "memory");
}

// Appends 63 long triggers without an expression, and the name and the words of another.
fn put_triggers(rt: &impl Abort, out: &mut Vec<u8>) {
    for letter in 0..63u8 {
        put_long(rt, out, letter);
        out.extend_from_slice(b"\0\0\0").expect(rt, "memory");
    }
    put_long(rt, out, 63);
}

// The bytes of a root with 64 long triggers, of which the last alone has an expression, of so many bytes.
fn long_state(rt: &impl Abort, alloc: Global, expression: u32) -> Vec<u8> {
    let mut out = Vec::new(alloc);
    put_head(rt, &mut out);
    put_triggers(rt, &mut out);
    out.push(1).expect(rt, "memory");
    put_letters(rt, &mut out, expression);
    out.extend_from_slice(b"\0\0").expect(rt, "memory");
    out
}

// Whether the bytes are so many, and those of a state that knows how many.
fn is_long(rt: &impl Abort, alloc: Global, bytes: &[u8], size: u64) -> bool {
    match taken::<FiledRegistry<Version1>>(rt, alloc, bytes) {
        Some(registry) => {
            let is_long = bytes.len() as u64 == size && registry.size() == size;
            drop(registry);
            is_long
        }
        None => false,
    }
}

// Whether the longest state is taken whole.
fn is_longest(rt: &impl Abort, alloc: Global) -> bool {
    let bytes = long_state(rt, alloc, 137);
    let is_long = is_long(rt, alloc, &bytes, 1_048_563);
    drop(bytes);
    is_long
}

// Whether a state has one byte too many, and isn't taken.
fn is_too_long(rt: &impl Abort, alloc: Global) -> bool {
    let bytes = long_state(rt, alloc, 138);
    let is_too_long = bytes.len() == 1_048_564
        && !takes::<FiledRegistry<Version1>>(rt, alloc, &bytes);
    drop(bytes);
    is_too_long
}

#[test]
fn takes_the_longest_state(rt: HostRuntime) {
    check!(rt; is_longest(&rt, rt.alloc()));
    check!(rt; is_too_long(&rt, rt.alloc()));
}
