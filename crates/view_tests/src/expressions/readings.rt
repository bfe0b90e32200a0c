//! Which JSON texts are expressions.
use super::repeated;
use crate::checks::check;
use serde_json::Value;
use std::alloc::Global;
use std::process::Abort;
use wm_disk::Refusal;
use wm_expr::{Expr, texts_of};

/// Why a JSON text is no expression; nothing where it is one.
fn refusal(rt: &impl Abort, alloc: Global, text: &str) -> Option<Refusal> {
    let value = Value::from_str(alloc, text).expect(rt, "JSON");
    let refusal = Expr::read(alloc, &value).err();
    drop(value);
    refusal
}

/// Whether a JSON text is an expression, or is refused as a bad one, as wanted.
fn is_refused_so(rt: &impl Abort, alloc: Global, text: &str, refused: bool) -> bool {
    let want = if refused {
        Some(Refusal::BadExpression)
    } else {
        None
    };
    refusal(rt, alloc, text) == want
}

fn assert_refused(rt: &impl Abort, alloc: Global, texts: &[&str]) {
    for text in texts {
        check!(rt; is_refused_so(rt, alloc, text, true), text);
    }
}

const NO_LISTS: &[&str] = &[
    "null",
    "true",
    "1",
    "1.5",
    "{}",
    "{\"allof\":[]}",
    "\"\"",
    "\"True\"",
    "\"not\"",
    "\"allof\"",
    "\"name\"",
    "[]",
    "[null]",
    "[1]",
    "[[\"true\"]]",
    "[\"TRUE\"]",
    "[\"since\",\"c:1:1:1\"]",
    "[\"true\",\"true\"]",
    "[\"exists\",true]",
];

#[test]
fn refuses_values_that_are_no_lists(rt: HostRuntime) {
    assert_refused(&rt, rt.alloc(), NO_LISTS);
}

const WRONG_PARTS: &[&str] = &[
    "[\"not\"]",
    "[\"not\",null]",
    "[\"not\",\"true\",\"true\"]",
    "[\"allof\",null]",
    "[\"allof\",[\"true\"],\"no\"]",
    "[\"anyof\",\"true\",[]]",
    "[\"name\"]",
    "[\"name\",null]",
    "[\"name\",[null]]",
    "[\"name\",[\"a\",1]]",
    "[\"name\",\"a\",\"dirname\"]",
    "[\"name\",\"a\",null]",
    "[\"name\",\"a\",\"basename\",\"basename\"]",
    "[\"suffix\"]",
    "[\"suffix\",1]",
    "[\"suffix\",[[]]]",
    "[\"suffix\",\"c\",\"basename\"]",
    "[\"type\"]",
    "[\"type\",\"F\"]",
    "[\"type\",\"b\"]",
    "[\"type\",[\"f\"]]",
    "[\"type\",\"f\",\"d\"]",
];

#[test]
fn refuses_wrong_parts(rt: HostRuntime) {
    assert_refused(&rt, rt.alloc(), WRONG_PARTS);
}

const WRONG_SIZES_AND_PATTERNS: &[&str] = &[
    "[\"size\"]",
    "[\"size\",\"eq\"]",
    "[\"size\",1]",
    "[\"size\",\"==\",1]",
    "[\"size\",\"eq\",-1]",
    "[\"size\",\"eq\",1.0]",
    "[\"size\",\"eq\",\"1\"]",
    "[\"size\",\"eq\",9223372036854775808]",
    "[\"size\",\"eq\",18446744073709551616]",
    "[\"size\",\"eq\",1,2]",
    "[\"match\"]",
    "[\"match\",1]",
    "[\"match\",[\"a\"]]",
    "[\"match\",\"a[b\"]",
    "[\"match\",\"[\",\"wholename\"]",
    "[\"match\",\"a\\\\b\"]",
    "[\"match\",\"a\",\"path\"]",
    "[\"match\",\"a\",\"basename\",{}]",
];

#[test]
fn refuses_wrong_sizes_and_patterns(rt: HostRuntime) {
    assert_refused(&rt, rt.alloc(), WRONG_SIZES_AND_PATTERNS);
}

/// A text with a part so many times in its midst, and whether it is refused: patterns of so many bytes,
/// and lists of so many terms below the first.
type Length = (&'static str, &'static str, u16, &'static str, bool);

const LENGTHS: &[Length] = &[
    ("[\"match\",\"", "]", 1024, "\"]", false),
    ("[\"match\",\"", "]", 1025, "\"]", true),
    ("[\"allof\"", ",\"true\"", 1023, "]", false),
    ("[\"allof\"", ",\"true\"", 1024, "]", true),
];

/// Whether such a text is read or refused as told.
fn is_length_taken_so(rt: &impl Abort, alloc: Global, row: &Length) -> bool {
    let (front, part, times, back, refused) = *row;
    let text = repeated(rt, alloc, front, part, times, back);
    is_refused_so(rt, alloc, &text, refused)
}

#[test]
fn takes_so_long_patterns_and_so_many_terms(rt: HostRuntime) {
    for row in LENGTHS {
        check!(rt; is_length_taken_so(&rt, rt.alloc(), row), (row.0, row.2));
    }
}

/// So many terms, each in the one before, and whether they are refused.
const DEPTHS: &[(u16, bool)] = &[(31, false), (32, true)];

/// Whether a term with so many around it is read or refused as told.
fn is_depth_taken_so(rt: &impl Abort, alloc: Global, levels: u16, refused: bool) -> bool {
    let front = repeated(rt, alloc, "", "[\"not\",", levels, "\"true\"");
    let text = repeated(rt, alloc, &front, "]", levels, "");
    is_refused_so(rt, alloc, &text, refused)
}

#[test]
fn takes_terms_of_bounded_depth(rt: HostRuntime) {
    for (levels, refused) in DEPTHS {
        let is_so = is_depth_taken_so(&rt, rt.alloc(), *levels, *refused);
        check!(rt; is_so, levels);
    }
}

/// Whether these are the same texts in the same order.
fn are_same(texts: &[&str], want: &[&str]) -> bool {
    texts.len() == want.len() && texts.iter().zip(want).all(|(text, other)| *text == *other)
}

/// Whether the texts of these items are as wanted; nothing where an item is no text.
fn are_texts_of(alloc: Global, items: &[Value], want: Option<&[&str]>) -> bool {
    let texts = texts_of(alloc, items, Refusal::BadField);
    let are_so = match (&texts, want) {
        (Ok(texts), Some(want)) => are_same(texts, want),
        (Err(Refusal::BadField), None) => true,
        _ => false,
    };
    drop(texts);
    are_so
}

/// Whether the texts of the JSON array are as wanted.
fn are_texts(rt: &impl Abort, alloc: Global, array: &str, want: Option<&[&str]>) -> bool {
    let value = Value::from_str(alloc, array).expect(rt, "JSON");
    let are_so = match value.as_array() {
        Some(items) => are_texts_of(alloc, items, want),
        None => false,
    };
    drop(value);
    are_so
}

const ARRAYS: &[(&str, Option<&[&str]>)] = &[
    ("[]", Some(&[])),
    ("[\"a\",\"\",\"b\"]", Some(&["a", "", "b"])),
    ("[\"a\",1]", None),
    ("[[\"a\"]]", None),
];

#[test]
fn reads_the_texts_of_an_array(rt: HostRuntime) {
    for (array, want) in ARRAYS {
        check!(rt; are_texts(&rt, rt.alloc(), array, *want), array);
    }
}
