//! A value that may be missing.
use super::{again, is_none};
use crate::checks::check;
use std::alloc::Global;
use std::process::Abort;
use wm_wire::{List, Optional, Pair, Text};

const SPELLED: &[(u32, &[u8])] = &[(0, b"\x01\0\0\0\0"), (258, b"\x01\0\0\x01\x02")];

const NO_OPTIONALS: &[&[u8]] = &[
    b"",
    // other bytes than 0 and 1
    b"\x02\0\0\0\0",
    b"\xff\0\0\0\0",
    // a value that is missing or cut
    b"\x01",
    b"\x01\0\0\0",
];

// Whether the value is spelled so, and shown before and after.
fn is_spelled(rt: &impl Abort, alloc: Global, value: u32, want: &[u8]) -> bool {
    let some = Optional::some(value).ok().expect(rt, "a value");
    let shown = some.as_option() == Some(&value);
    match again(rt, alloc, &some, want) {
        Some(back) => shown && back.as_option() == Some(&value),
        None => false,
    }
}

// A list of two truth values beside a text.
fn nested(rt: &impl Abort, alloc: Global) -> Pair<List<bool, 2>, Text<3>> {
    let mut list = List::<bool, 2>::new(alloc);
    list.push(true).expect(rt, "room");
    list.push(false).expect(rt, "room");
    let name = Text::<3>::new(alloc, "/r").expect(rt, "memory");
    Pair::new(list, name).ok().expect(rt, "a pair")
}

#[test]
fn spells_values(rt: HostRuntime) {
    let none = Optional::<u32>::none();
    check!(rt; none.as_option().is_none());
    let back = again(&rt, rt.alloc(), &none, b"\0").expect(&rt, "the same bytes");
    check!(rt; back.as_option().is_none());
    for (value, want) in SPELLED {
        check!(rt; is_spelled(&rt, rt.alloc(), *value, want), value);
    }
}

#[test]
fn spells_a_list_in_a_pair(rt: HostRuntime) {
    let some = Optional::some(nested(&rt, rt.alloc()))
        .ok()
        .expect(&rt, "a value");
    let want = b"\x01\0\0\0\x02\x01\0\0\0\0\x02\x2f\x72";
    let back = again(&rt, rt.alloc(), &some, want).expect(&rt, "the same bytes");
    drop(some);
    let pair = back.as_option().expect(&rt, "a pair");
    check!(rt; pair.first().as_slice() == [true, false].as_slice());
    check!(rt; pair.second().as_str() == "/r");
    drop(back);
}

#[test]
fn takes_no_other_bytes(rt: HostRuntime) {
    for bytes in NO_OPTIONALS {
        check!(rt; is_none::<Optional<u32>>(&rt, rt.alloc(), bytes), bytes);
    }
    check!(rt; is_none::<Optional<Optional<bool>>>(&rt, rt.alloc(), b"\x01\x01\x02"));
}
