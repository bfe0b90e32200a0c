//! Clocks and their texts.
use crate::checks::check;
use std::alloc::Global;
use std::process::Abort;
use wm_clock::{ClockId, MAX_CLOCK_TEXT, MAX_DIGITS, put_number};
use wm_disk::MAX_COUNTER;

// Incarnation, root and tick, and their text.
const TEXTS: &[(u64, u64, u64, &str)] = &[
    (1, 1, 1, "c:1:1:1"),
    (12, 340, 5600, "c:12:340:5600"),
    (1, 1, MAX_COUNTER, "c:1:1:9223372036854775807"),
    (
        MAX_COUNTER,
        MAX_COUNTER,
        MAX_COUNTER,
        "c:9223372036854775807:9223372036854775807:9223372036854775807",
    ),
];

// Whether the clock's text is this, made and put.
fn has_text(rt: &impl Abort, alloc: Global, clock: ClockId, want: &str) -> bool {
    let mut out = Vec::with_capacity(alloc, MAX_CLOCK_TEXT).expect(rt, "memory");
    clock.put(&mut out);
    clock.text(alloc).expect(rt, "memory").as_str() == want && out.as_slice() == want.as_bytes()
}

#[test]
fn has_a_text(rt: HostRuntime) {
    for (incarnation, root, tick, want) in TEXTS {
        let clock = ClockId {
            incarnation: *incarnation,
            root: *root,
            tick: *tick,
        };
        check!(rt; has_text(&rt, rt.alloc(), clock, want), want);
    }
}

#[test]
fn puts_the_longest_text_behind_others(rt: HostRuntime) {
    let mut out = Vec::with_capacity(rt.alloc(), MAX_CLOCK_TEXT + 1).expect(&rt, "memory");
    out.push(b'[').expect(&rt, "memory");
    let clock = ClockId {
        incarnation: u64::MAX,
        root: u64::MAX,
        tick: u64::MAX,
    };
    clock.put(&mut out);
    let want = b"[c:18446744073709551615:18446744073709551615:18446744073709551615";
    check!(rt; out.as_slice() == want.as_slice());
}

#[test]
fn puts_the_longest_number_behind_others(rt: HostRuntime) {
    let mut out = Vec::with_capacity(rt.alloc(), MAX_DIGITS + 1).expect(&rt, "memory");
    out.push(b'[').expect(&rt, "memory");
    put_number(u64::MAX, &mut out);
    check!(rt; out.as_slice() == b"[18446744073709551615".as_slice());
}
