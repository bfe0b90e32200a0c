//! Texts put and taken by themselves, copied and compared.
use crate::checks::check;
use std::alloc::Global;
use std::process::Abort;
use wm_wire::{Text, put_text, take_text};

const COMPARED: &[(&str, &str, bool)] = &[
    ("", "", true),
    ("/r", "/r", true),
    ("/r", "/s", false),
    ("/r", "/R", false),
    ("/r", "/", false),
    ("", "/r", false),
];

// Whether the texts are equal, from either side, where that is wanted, and a copy of the first is it.
fn compares(rt: &impl Abort, alloc: Global, first: &str, second: &str, want: bool) -> bool {
    if first.len() > 3 || second.len() > 3 {
        return false;
    }
    let text = Text::<3>::new(alloc, first).expect(rt, "memory");
    let other = Text::<3>::new(alloc, second).expect(rt, "memory");
    let again = text.copy(alloc).expect(rt, "memory");
    let copied = again.as_str() == first && again == text;
    let is_so = copied && (text == other) == want && (other == text) == want;
    drop(again);
    drop(other);
    drop(text);
    is_so
}

#[test]
fn copies_and_compares_texts(rt: HostRuntime) {
    for (first, second, want) in COMPARED {
        check!(rt; compares(&rt, rt.alloc(), first, second, *want), (first, second));
    }
}

#[test]
fn spells_a_text(rt: HostRuntime) {
    let mut out = vec![in rt.alloc(); 7u8].expect(&rt, "memory");
    put_text("/r", &mut out).expect(&rt, "memory");
    check!(rt; out.as_slice() == b"\x07\0\0\0\x02\x2f\x72".as_slice());
    drop(out);
    check!(rt; take_text(b"\0\0\0\x02\x2f\x72\xff", 2) == Some(("/r", 6)));
    check!(rt; take_text(b"\0\0\0\x02\x2f\x72\xff", 1).is_none());
    check!(rt; take_text(b"\0\0\0\0", 0) == Some(("", 4)));
}
