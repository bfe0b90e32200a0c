//! The order of texts by their bytes.
use super::long;
use crate::checks::check;
use std::cmp::Ordering;
use wm_names::compare_texts;

// Two texts, and how the first stands to the second.
const ROWS: &[(&[u8], &[u8], Ordering)] = &[
    (b"", b"", Ordering::Equal),
    (b"", b"\0", Ordering::Less),
    (b"a\0", b"a", Ordering::Greater),
    (b"a\0b", b"a\0\0", Ordering::Greater),
    (b"z", b"\xff", Ordering::Less),
    (b"source/file_01.c", b"source/file_01.c", Ordering::Equal),
    (b"source/file_01.c", b"source/file_01.d", Ordering::Less),
    (b"source/file_01.c", b"source/file_01.", Ordering::Greater),
    (b"source.file_01.c", b"source/file_01.c", Ordering::Less),
    (b"\xff", b"source/file_01.c", Ordering::Greater),
];

#[test]
fn texts_stand_in_the_order_of_their_bytes(rt: HostRuntime) {
    for (one, other, want) in ROWS {
        check!(rt; compare_texts(one, other) == *want, (one, other));
        check!(rt; compare_texts(other, one) == want.reverse(), (other, one));
    }
}

// Texts of 50 letters, of which the second has a greater one at a place, or ends there.
#[test]
fn each_place_tells_the_order(rt: HostRuntime) {
    let one = long(&rt, rt.alloc(), "", 50);
    for at in 0..50 {
        let mut front = long(&rt, rt.alloc(), "", at);
        check!(rt; compare_texts(one.as_bytes(), front.as_bytes()) == Ordering::Greater, at);
        front.push('b').expect(&rt, "memory");
        let other = long(&rt, rt.alloc(), &front, 50);
        drop(front);
        check!(rt; compare_texts(one.as_bytes(), other.as_bytes()) == Ordering::Less, at);
        drop(other);
    }
    drop(one);
}
