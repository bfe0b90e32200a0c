//! The names of cursors.
use crate::checks::check;
use std::alloc::Global;
use std::process::Abort;
use std::string::String;
use wm_clock::CursorName;
use wm_disk::Refusal;

// So many bytes, and whether they are a name.
const LENGTHS: &[(usize, bool)] = &[(0, false), (1, true), (64, true), (65, false)];

const COMPARED: &[(&str, &str, bool)] = &[
    ("x", "x", true),
    ("x", "y", false),
    ("x", "X", false),
    ("x", "xx", false),
    ("\u{e9} :", "\u{e9} :", true),
];

// A name of so many bytes.
fn long(rt: &impl Abort, alloc: Global, len: usize) -> String {
    let mut text = String::new(alloc);
    for _ in 0..len {
        text.push('n').expect(rt, "memory");
    }
    text
}

// Whether the text is read as a name that shows it, as does a copy, where that is wanted, and is
// refused as no clock where it isn't.
fn is_read(rt: &impl Abort, alloc: Global, text: &str, want: bool) -> bool {
    match CursorName::read(alloc, text) {
        Ok(name) => {
            let copy = name.copy(alloc).expect(rt, "memory");
            let is_so = want && name.as_str() == text && copy.as_str() == text;
            drop(copy);
            drop(name);
            is_so
        }
        Err(refusal) => !want && refusal == Refusal::BadClock,
    }
}

// Whether the names are equal, from either side, where that is wanted.
fn compares(rt: &impl Abort, alloc: Global, first: &str, second: &str, want: bool) -> bool {
    let name = CursorName::read(alloc, first).expect(rt, "a name");
    let other = CursorName::read(alloc, second).expect(rt, "a name");
    let is_so = (name == other) == want && (other == name) == want;
    drop(other);
    drop(name);
    is_so
}

#[test]
fn reads_names(rt: HostRuntime) {
    for (len, want) in LENGTHS {
        let text = long(&rt, rt.alloc(), *len);
        check!(rt; is_read(&rt, rt.alloc(), &text, *want), len);
    }
}

#[test]
fn compares_names(rt: HostRuntime) {
    for (first, second, want) in COMPARED {
        check!(rt; compares(&rt, rt.alloc(), first, second, *want), (first, second));
    }
}
