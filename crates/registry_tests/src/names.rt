//! The names of triggers.
use crate::checks::check;
use crate::spelling::{is_spelled, taken};
use std::alloc::Global;
use std::process::Abort;
use wm_disk::Refusal;
use wm_registry::TriggerName;

/// A text of so many bytes.
pub(crate) fn long(rt: &impl Abort, alloc: Global, len: usize) -> String {
    let mut text = String::new(alloc);
    for _ in 0..len {
        text.push('a').expect(rt, "memory");
    }
    text
}

// Whether the name and a copy of it are the text.
fn is_of(rt: &impl Abort, alloc: Global, name: &TriggerName, text: &str) -> bool {
    let copy = name.copy(alloc).expect(rt, "memory");
    let is_of = name.as_str() == text && copy.as_str() == text;
    drop(copy);
    is_of
}

// Whether the text is read as a name, where it is one, and is refused where it isn't.
fn is_read(rt: &impl Abort, alloc: Global, text: &str, is_name: bool) -> bool {
    match TriggerName::read(alloc, text) {
        Ok(name) => {
            let is_read = is_name && is_of(rt, alloc, &name, text);
            drop(name);
            is_read
        }
        Err(refusal) => !is_name && refusal == Refusal::BadTrigger,
    }
}

/// How many bytes a text has, and whether it is a name.
const LENGTHS: &[(usize, bool)] = &[(0, false), (1, true), (64, true), (65, false)];

#[test]
fn reads_names(rt: HostRuntime) {
    for (len, is_name) in LENGTHS {
        let text = long(&rt, rt.alloc(), *len);
        check!(rt; is_read(&rt, rt.alloc(), &text, *is_name), len);
        drop(text);
    }
}

/// Names, each with its spelling.
const SPELLINGS: &[(&str, &[u8])] = &[("t", b"\0\0\0\x01t"), ("\u{e9} e", b"\0\0\0\x04\xc3\xa9 e")];

// Whether the name is spelled so, and no cut of its spelling is one.
fn is_put(rt: &impl Abort, alloc: Global, text: &str, want: &[u8]) -> bool {
    let name = TriggerName::read(alloc, text).expect(rt, "a name");
    let is_put = is_spelled(rt, alloc, &name, want);
    drop(name);
    is_put
}

// Whether the name is taken from the bytes.
fn is_taken(rt: &impl Abort, alloc: Global, text: &str, bytes: &[u8]) -> bool {
    match taken::<TriggerName>(rt, alloc, bytes) {
        Some(name) => {
            let is_taken = name.as_str() == text;
            drop(name);
            is_taken
        }
        None => false,
    }
}

#[test]
fn spells_names(rt: HostRuntime) {
    for (text, want) in SPELLINGS {
        let put = is_put(&rt, rt.alloc(), text, want);
        check!(rt; put && is_taken(&rt, rt.alloc(), text, want), text);
    }
}

/// Bytes that are no name's.
pub(crate) const NO_NAMES: &[(&str, &[u8])] = &[
    ("a name alone, of no bytes", b"\0\0\0\0"),
    ("a name alone, no UTF-8", b"\0\0\0\x01\xff"),
];
