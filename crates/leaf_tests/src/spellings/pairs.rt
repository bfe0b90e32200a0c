//! Two values behind one another.
use super::{again, is_none};
use crate::checks::check;
use std::alloc::Global;
use std::process::Abort;
use wm_wire::{Pair, Text};

const SPELLED: &[(u32, bool, &[u8])] = &[
    (258, true, b"\0\0\x01\x02\x01"),
    (1, false, b"\0\0\0\x01\0"),
];

const NO_PAIRS: &[&[u8]] = &[
    b"",
    // the first alone, and cut
    b"\x01",
    b"\x01\0\0\0",
    // a first or a second that is no spelling
    b"\x02\0\0\0\0",
    b"\x01\0\0\0\x02\xc0\xaf",
];

// Whether the pair is spelled so, and what is taken back shows and gives its parts.
fn is_spelled(rt: &impl Abort, alloc: Global, first: u32, second: bool, want: &[u8]) -> bool {
    let pair = Pair::new(first, second).ok().expect(rt, "a pair");
    match again(rt, alloc, &pair, want) {
        Some(back) => {
            let shown = *back.first() == first && *back.second() == second;
            shown && back.into_parts() == (first, second)
        }
        None => false,
    }
}

// Whether the pair shows and gives these texts.
fn is_of(pair: Pair<Text<3>, Text<1>>, first: &str, second: &str) -> bool {
    let shown = pair.first().as_str() == first && pair.second().as_str() == second;
    let (one, other) = pair.into_parts();
    let is_so = shown && one.as_str() == first && other.as_str() == second;
    drop(other);
    drop(one);
    is_so
}

#[test]
fn spells_pairs(rt: HostRuntime) {
    for (first, second, want) in SPELLED {
        check!(rt; is_spelled(&rt, rt.alloc(), *first, *second, want), first);
    }
}

#[test]
fn spells_parts_of_several_lengths(rt: HostRuntime) {
    let first = Text::<3>::new(rt.alloc(), "/r").expect(&rt, "memory");
    let second = Text::<1>::new(rt.alloc(), "a").expect(&rt, "memory");
    let pair = Pair::new(first, second).ok().expect(&rt, "a pair");
    let want = b"\0\0\0\x02\x2f\x72\0\0\0\x01\x61";
    let back = again(&rt, rt.alloc(), &pair, want).expect(&rt, "the same bytes");
    drop(pair);
    check!(rt; is_of(back, "/r", "a"));
}

#[test]
fn takes_no_other_bytes(rt: HostRuntime) {
    for bytes in NO_PAIRS {
        check!(rt; is_none::<Pair<bool, Text<3>>>(&rt, rt.alloc(), bytes), bytes);
    }
}
