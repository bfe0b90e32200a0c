//! Numbers, truth values and texts.
use super::{again, is_none};
use crate::checks::check;
use std::alloc::Global;
use std::process::Abort;
use wm_wire::Text;

const WORDS: &[(u32, &[u8])] = &[
    (0, b"\0\0\0\0"),
    (0x0102_0304, b"\x01\x02\x03\x04"),
    (u32::MAX, b"\xff\xff\xff\xff"),
];

const LONG_WORDS: &[(u64, &[u8])] = &[
    (0, b"\0\0\0\0\0\0\0\0"),
    (0x0102_0304_0506_0708, b"\x01\x02\x03\x04\x05\x06\x07\x08"),
    (u64::MAX, b"\xff\xff\xff\xff\xff\xff\xff\xff"),
];

const TRUTHS: &[(bool, &[u8])] = &[(false, b"\0"), (true, b"\x01")];

const TEXTS: &[(&str, &[u8])] = &[
    ("", b"\0\0\0\0"),
    ("/r", b"\0\0\0\x02\x2f\x72"),
    ("\u{e9}e", b"\0\0\0\x03\xc3\xa9\x65"),
];

const NO_WORDS: &[&[u8]] = &[b"", b"\0", b"\x01\x02\x03"];

const NO_LONG_WORDS: &[&[u8]] = &[b"", b"\x01\x02\x03\x04\x05\x06\x07"];

const NO_TRUTHS: &[&[u8]] = &[b"", b"\x02", b"\xff\0"];

const NO_TEXTS: &[&[u8]] = &[
    b"",
    b"\0\0\0",
    b"\0\0\0\x02/",
    // more than three bytes
    b"\0\0\0\x04/abc",
    b"\x01\0\0\x01/",
    b"\xff\xff\xff\xff/",
    // bytes that aren't UTF-8
    b"\0\0\0\x01\xff",
    b"\0\0\0\x01\xc3\xa9",
    b"\0\0\0\x02\xc0\xaf",
];

// Whether the text is spelled so, and shown as it is, before and after.
fn text_is_spelled(rt: &impl Abort, alloc: Global, value: &str, want: &[u8]) -> bool {
    if value.len() > 3 {
        return false;
    }
    let text = Text::<3>::new(alloc, value).expect(rt, "memory");
    let shown = text.as_str() == value;
    let back = again(rt, alloc, &text, want);
    drop(text);
    let is_so = match &back {
        Some(back) => shown && back.as_str() == value,
        None => false,
    };
    drop(back);
    is_so
}

#[test]
fn spells_numbers(rt: HostRuntime) {
    for (value, want) in WORDS {
        check!(rt; again(&rt, rt.alloc(), value, want) == Some(*value), value);
    }
    for (value, want) in LONG_WORDS {
        check!(rt; again(&rt, rt.alloc(), value, want) == Some(*value), value);
    }
}

#[test]
fn spells_truths_and_texts(rt: HostRuntime) {
    for (value, want) in TRUTHS {
        check!(rt; again(&rt, rt.alloc(), value, want) == Some(*value), value);
    }
    for (value, want) in TEXTS {
        check!(rt; text_is_spelled(&rt, rt.alloc(), value, want), value);
    }
}

#[test]
fn takes_no_other_numbers(rt: HostRuntime) {
    for bytes in NO_WORDS {
        check!(rt; is_none::<u32>(&rt, rt.alloc(), bytes), bytes);
    }
    for bytes in NO_LONG_WORDS {
        check!(rt; is_none::<u64>(&rt, rt.alloc(), bytes), bytes);
    }
}

#[test]
fn takes_no_other_truths_and_texts(rt: HostRuntime) {
    for bytes in NO_TRUTHS {
        check!(rt; is_none::<bool>(&rt, rt.alloc(), bytes), bytes);
    }
    for bytes in NO_TEXTS {
        check!(rt; is_none::<Text<3>>(&rt, rt.alloc(), bytes), bytes);
    }
}
