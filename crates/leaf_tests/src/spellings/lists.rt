//! Lists with a bound on their length, whose values are pushed, removed and replaced.
use super::{again, is_again, is_none};
use crate::checks::check;
use std::alloc::Global;
use std::process::Abort;
use wm_wire::{List, NotPushed, Text, Wire};

const SPELLED: &[(&[u32], &[u8])] = &[
    (&[], b"\0\0\0\0"),
    (&[258], b"\0\0\0\x01\0\0\x01\x02"),
    (&[7, 5, 7], b"\0\0\0\x03\0\0\0\x07\0\0\0\x05\0\0\0\x07"),
];

const NO_LISTS: &[&[u8]] = &[
    b"",
    b"\0\0\0",
    // one item, of which no bytes or too few are there
    b"\0\0\0\x01",
    b"\0\0\0\x01\0\0\0",
    b"\0\0\0\x02\0\0\0\x07\0\0",
    // more than three items
    b"\0\0\0\x04\0\0\0\x01\0\0\0\x02\0\0\0\x03\0\0\0\x04",
    b"\0\x01\0\x01\0\0\0\x01",
    b"\xff\xff\xff\xff\0\0\0\x01",
];

// A list, the index of the value that leaves it, that value, what is left, and its bytes.
const REMOVED: &[(&[u32], usize, u32, &[u32], &[u8])] = &[
    (&[7], 0, 7, &[], b"\0\0\0\0"),
    (&[7, 5, 9], 0, 7, &[5, 9], b"\0\0\0\x02\0\0\0\x05\0\0\0\x09"),
    (&[7, 5, 9], 1, 5, &[7, 9], b"\0\0\0\x02\0\0\0\x07\0\0\0\x09"),
    (&[7, 5, 9], 2, 9, &[7, 5], b"\0\0\0\x02\0\0\0\x07\0\0\0\x05"),
];

// The index of 7, 5, 9 at which 258 is put, the list then, and its bytes.
const REPLACED: &[(usize, &[u32], &[u8])] = &[
    (
        0,
        &[258, 5, 9],
        b"\0\0\0\x03\0\0\x01\x02\0\0\0\x05\0\0\0\x09",
    ),
    (
        1,
        &[7, 258, 9],
        b"\0\0\0\x03\0\0\0\x07\0\0\x01\x02\0\0\0\x09",
    ),
    (
        2,
        &[7, 5, 258],
        b"\0\0\0\x03\0\0\0\x07\0\0\0\x05\0\0\x01\x02",
    ),
];

// What is put in the place of the first of two texts, and the list's bytes then.
const FIRST_TEXTS: &[(&str, &[u8])] = &[
    ("", b"\0\0\0\x02\0\0\0\0\0\0\0\x02\x2f\x72"),
    ("abc", b"\0\0\0\x02\0\0\0\x03\x61\x62\x63\0\0\0\x02\x2f\x72"),
];

// A list of these numbers, of which there are no more than it may hold.
fn numbers(rt: &impl Abort, alloc: Global, values: &[u32]) -> List<u32, 3> {
    let mut list = List::new(alloc);
    for value in values {
        list.push(*value).expect(rt, "room");
    }
    list
}

// A list of two texts of up to three bytes.
fn texts(rt: &impl Abort, alloc: Global, first: &str, second: &str) -> List<Text<3>, 2> {
    let mut list = List::<Text<3>, 2>::new(alloc);
    if first.len() <= 3 && second.len() <= 3 {
        let first = Text::new(alloc, first).expect(rt, "memory");
        let second = Text::new(alloc, second).expect(rt, "memory");
        list.push(first).expect(rt, "room");
        list.push(second).expect(rt, "room");
    }
    list
}

// Whether the list is spelled so, and what is taken back shows and gives these numbers.
fn is_spelled(
    rt: &impl Abort,
    alloc: Global,
    list: &List<u32, 3>,
    values: &[u32],
    want: &[u8],
) -> bool {
    let shown = list.as_slice() == values && list.len() == values.len();
    match again(rt, alloc, list, want) {
        Some(back) => {
            let shows = back.as_slice() == values;
            let given = back.into_vec();
            let gives = given.as_slice() == values;
            drop(given);
            shown && shows && gives
        }
        None => false,
    }
}

// Whether the value at the index is removed and told, and the others are left in order.
fn removes(
    rt: &impl Abort,
    alloc: Global,
    values: &[u32],
    index: usize,
    left: &[u32],
    bytes: &[u8],
) -> Option<u32> {
    let mut list = numbers(rt, alloc, values);
    if index >= list.len() {
        drop(list);
        return None;
    }
    let value = list.remove(index);
    let is_left = is_spelled(rt, alloc, &list, left, bytes);
    drop(list);
    if is_left { Some(value) } else { None }
}

// Whether 258 is put at the index of 7, 5, 9.
fn replaces(rt: &impl Abort, alloc: Global, index: usize, want: &[u32], bytes: &[u8]) -> bool {
    let mut list = numbers(rt, alloc, &[7, 5, 9]);
    let is_set = index < list.len() && list.set(index, 258).is_ok();
    let is_so = is_set && is_spelled(rt, alloc, &list, want, bytes);
    drop(list);
    is_so
}

// Whether the text is put in the place of the first of two, which leaves these bytes.
fn puts_first(
    rt: &impl Abort,
    alloc: Global,
    list: &mut List<Text<3>, 2>,
    value: &str,
    bytes: &[u8],
) -> bool {
    if value.len() > 3 || list.len() != 2 {
        return false;
    }
    let text = Text::new(alloc, value).expect(rt, "memory");
    let set = list.set(0, text);
    let is_set = set.is_ok();
    drop(set);
    is_set && is_again(rt, alloc, list, bytes)
}

#[test]
fn spells_lists(rt: HostRuntime) {
    for (values, want) in SPELLED {
        let list = numbers(&rt, rt.alloc(), values);
        check!(rt; is_spelled(&rt, rt.alloc(), &list, values, want), values);
        drop(list);
    }
}

// Whether the list is of these two texts.
fn is_of(list: &List<Text<3>, 2>, first: &str, second: &str) -> bool {
    match list.as_slice() {
        [one, other] => one.as_str() == first && other.as_str() == second,
        _ => false,
    }
}

#[test]
fn spells_items_of_several_lengths(rt: HostRuntime) {
    let list = texts(&rt, rt.alloc(), "", "/r");
    let want = b"\0\0\0\x02\0\0\0\0\0\0\0\x02\x2f\x72";
    let back = again(&rt, rt.alloc(), &list, want).expect(&rt, "the same bytes");
    drop(list);
    check!(rt; is_of(&back, "", "/r"));
    drop(back);
}

#[test]
fn refuses_one_too_many(rt: HostRuntime) {
    let mut list = numbers(&rt, rt.alloc(), &[1, 2, 3]);
    check!(rt; list.push(4) == Err(NotPushed::Full));
    check!(rt; list.as_slice() == [1, 2, 3].as_slice() && list.size() == 16);
    drop(list);
    let mut nothing = List::<bool, 0>::new(rt.alloc());
    check!(rt; nothing.push(true) == Err(NotPushed::Full));
    check!(rt; nothing.as_slice().is_empty());
    drop(nothing);
}

#[test]
fn takes_no_other_bytes(rt: HostRuntime) {
    for bytes in NO_LISTS {
        check!(rt; is_none::<List<u32, 3>>(&rt, rt.alloc(), bytes), bytes);
    }
    // a second item that is no spelling
    check!(rt; is_none::<List<bool, 3>>(&rt, rt.alloc(), b"\0\0\0\x03\x01\x02\0"));
    check!(rt; is_none::<List<bool, 0>>(&rt, rt.alloc(), b"\0\0\0\x01\x01"));
}

#[test]
fn removes_values(rt: HostRuntime) {
    for (values, index, want, left, bytes) in REMOVED {
        let removed = removes(&rt, rt.alloc(), values, *index, left, bytes);
        check!(rt; removed == Some(*want), (index, values));
    }
}

#[test]
fn puts_values_in_the_place_of_others(rt: HostRuntime) {
    for (index, want, bytes) in REPLACED {
        check!(rt; replaces(&rt, rt.alloc(), *index, want, bytes), index);
    }
}

#[test]
fn keeps_the_length_of_items_of_several_lengths(rt: HostRuntime) {
    let mut list = texts(&rt, rt.alloc(), "ab", "/r");
    for (value, bytes) in FIRST_TEXTS {
        check!(rt; puts_first(&rt, rt.alloc(), &mut list, value, bytes), value);
    }
    assert!(rt; list.len() == 2);
    let text = list.remove(0);
    check!(rt; text.as_str() == "abc");
    drop(text);
    let want = b"\0\0\0\x01\0\0\0\x02\x2f\x72";
    check!(rt; is_again(&rt, rt.alloc(), &list, want));
    drop(list);
}
