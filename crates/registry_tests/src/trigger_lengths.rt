//! The lengths that a trigger's parts may have, where it is made and where it is taken from bytes.
use crate::checks::check;
use crate::names::long;
use crate::plans::{Plan, made};
use std::alloc::Global;
use std::process::Abort;
use wm_disk::Refusal;
use wm_registry::{Stdin, Trigger};
use wm_wire::Wire;

// The lengths of a name, of so many words, the first of them and each later one, and of an expression.
#[derive(Clone, Copy)]
struct Lengths {
    name: usize,
    words: usize,
    first: usize,
    later: usize,
    expression: Option<usize>,
}

impl Lengths {
    fn word(self, index: usize) -> usize {
        if index == 0 { self.first } else { self.later }
    }
}

/// What is tried of a trigger of these lengths: the name's, how many words there are, that of the first
/// and of each later one, the expression's, and whether it is one.
const LENGTHS: &[(&str, usize, usize, usize, usize, Option<usize>, bool)] = &[
    ("the least", 1, 1, 1, 0, None, true),
    ("the longest", 64, 16, 1024, 1024, Some(4096), true),
    ("empty words and expression", 1, 3, 1, 0, Some(0), true),
    ("no name", 0, 1, 1, 0, None, false),
    ("a long name", 65, 1, 1, 0, None, false),
    ("no words", 1, 0, 1, 0, None, false),
    ("17 words", 1, 17, 1, 1, None, false),
    ("an empty program", 1, 1, 0, 0, None, false),
    ("an empty program and a word", 1, 2, 0, 1, None, false),
    ("a long program", 1, 1, 1025, 0, None, false),
    ("a long word", 1, 2, 1, 1025, None, false),
    ("a long expression", 1, 1, 1, 0, Some(4097), false),
];

// The text's first bytes.
fn front(text: &str, len: usize) -> &str {
    text.get(..len).unwrap_or("")
}

// Whether a trigger of such lengths is accepted. The text has the bytes of each part.
fn is_accepted(rt: &impl Abort, alloc: Global, text: &str, lengths: Lengths) -> bool {
    let mut words = Vec::new(alloc);
    for index in 0..lengths.words {
        let word = front(text, lengths.word(index));
        words.push(word).expect(rt, "memory");
    }
    let expression = match lengths.expression {
        Some(len) => Some(front(text, len)),
        None => None,
    };
    let plan = Plan {
        name: front(text, lengths.name),
        command: &words,
        expression,
        append_files: true,
        stdin: Stdin::DevNull,
        max_files_stdin: None,
    };
    let made = made(alloc, plan);
    drop(words);
    match made {
        Ok(trigger) => {
            drop(trigger);
            true
        }
        Err(Refusal::BadTrigger) => false,
        Err(refusal) => panic!(rt; "{refusal:?}"),
    }
}

// Appends a number in four bytes.
fn put_number(rt: &impl Abort, number: usize, out: &mut Vec<u8>) {
    let (high, low) = (number / 256 % 256, number % 256);
    out.extend_from_slice(&[0, 0, high as u8, low as u8])
        .expect(rt, "memory");
}

// Appends a text of so many bytes.
fn put_long(rt: &impl Abort, len: usize, out: &mut Vec<u8>) {
    put_number(rt, len, out);
    for _ in 0..len {
        out.push(b'a').expect(rt, "memory");
    }
}

// Appends an expression of so many bytes, where there is one.
fn put_expression(rt: &impl Abort, len: Option<usize>, out: &mut Vec<u8>) {
    match len {
        Some(len) => {
            out.push(1).expect(rt, "memory");
            put_long(rt, len, out)
        }
        None => out.push(0).expect(rt, "memory"),
    }
}

// Appends a trigger of such lengths.
fn put(rt: &impl Abort, lengths: Lengths, out: &mut Vec<u8>) {
    put_long(rt, lengths.name, out);
    put_number(rt, lengths.words, out);
    for index in 0..lengths.words {
        put_long(rt, lengths.word(index), out);
    }
    put_expression(rt, lengths.expression, out);
    out.extend_from_slice(b"\x01\0\0").expect(rt, "memory");
}

// Whether a trigger of such lengths is taken.
fn is_taken(rt: &impl Abort, alloc: Global, lengths: Lengths) -> bool {
    let mut bytes = Vec::new(alloc);
    put(rt, lengths, &mut bytes);
    let taken = Trigger::take(alloc, &bytes).expect(rt, "memory");
    drop(bytes);
    let is_taken = taken.is_some();
    drop(taken);
    is_taken
}

// Whether a trigger of such lengths is accepted, and taken, where it is to be.
fn is_right(rt: &impl Abort, alloc: Global, text: &str, lengths: Lengths, want: bool) -> bool {
    let accepted = is_accepted(rt, alloc, text, lengths);
    let taken = is_taken(rt, alloc, lengths);
    accepted == want && taken == want
}

#[test]
fn keeps_the_rules(rt: HostRuntime) {
    let text = long(&rt, rt.alloc(), 4097);
    for (why, name, words, first, later, expression, want) in LENGTHS {
        let lengths = Lengths {
            name: *name,
            words: *words,
            first: *first,
            later: *later,
            expression: *expression,
        };
        check!(rt; is_right(&rt, rt.alloc(), &text, lengths, *want), why);
    }
    drop(text);
}
