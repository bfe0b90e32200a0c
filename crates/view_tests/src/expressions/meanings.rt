//! Of which files an expression holds, and whether it reads their paths alone.
use super::{entry, read};
use crate::checks::check;
use std::alloc::Global;
use std::process::Abort;
use wm_expr::{Expr, every_expression, worked_rows};
use wm_names::Kind;

/// The files that each expression is asked about: the path, whether it exists, its kind and its size.
const FILES: &[(&str, bool, Kind, u64)] = &[
    ("x/foo.PHP", true, Kind::File, 10),
    ("x", true, Kind::Folder, 0),
    ("x/b", false, Kind::File, 0),
    ("l", true, Kind::Link, 0),
    ("foophp", true, Kind::Other, 10),
];

/// For each of the files, whether the expression holds of it, as a digit.
fn digits(rt: &impl Abort, alloc: Global, expr: &Expr) -> String {
    let mut digits = String::new(alloc);
    for (path, exists, kind, size) in FILES {
        let entry = entry(rt, alloc, path, *exists, *kind, *size);
        let digit = if expr.holds(&entry) { '1' } else { '0' };
        drop(entry);
        digits.push(digit).expect(rt, "memory");
    }
    digits
}

/// Whether the copy of an expression holds of just the files whose digit is 1.
fn holds_so(rt: &impl Abort, alloc: Global, text: &str, want: &str) -> bool {
    let expr = read(rt, alloc, text);
    let copy = expr.copy(alloc).expect(rt, "memory");
    drop(expr);
    let digits = digits(rt, alloc, &copy);
    drop(copy);
    let is_so = digits.as_str() == want;
    drop(digits);
    is_so
}

fn assert_holds(rt: &impl Abort, alloc: Global, rows: &[(&str, &str)]) {
    for (text, want) in rows {
        check!(rt; holds_so(rt, alloc, text, want), text);
    }
}

const OF_NAMES: &[(&str, &str)] = &[
    ("[\"name\",\"b\"]", "00100"),
    ("[\"name\",\"x/b\"]", "00000"),
    ("[\"name\",\"x\"]", "01000"),
    ("[\"name\",[]]", "00000"),
    ("[\"name\",[\"b\",\"l\",\"a\"],\"basename\"]", "00110"),
    ("[\"name\",\"x/b\",\"wholename\"]", "00100"),
    ("[\"name\",[\"b\",\"x/foo.PHP\"],\"wholename\"]", "10000"),
    ("[\"suffix\",\"php\"]", "10000"),
    ("[\"suffix\",\"PhP\"]", "10000"),
    ("[\"suffix\",[]]", "00000"),
    ("[\"suffix\",[\"c\",\"pHp\"]]", "10000"),
    ("[\"suffix\",\"foo.php\"]", "00000"),
    ("[\"suffix\",\".php\"]", "00000"),
    ("[\"match\",\"*\"]", "11111"),
    ("[\"match\",\"?\"]", "01110"),
    ("[\"match\",\"x/*\",\"wholename\"]", "10100"),
];

#[test]
fn holds_of_names(rt: HostRuntime) {
    assert_holds(&rt, rt.alloc(), OF_NAMES);
}

const OF_METADATA: &[(&str, &str)] = &[
    ("[\"type\",\"f\"]", "10100"),
    ("[\"type\",\"d\"]", "01000"),
    ("[\"type\",\"l\"]", "00010"),
    ("[\"type\",\"o\"]", "00001"),
    ("\"exists\"", "11011"),
    ("[\"exists\"]", "11011"),
    ("\"empty\"", "01000"),
    ("[\"empty\"]", "01000"),
    ("[\"size\",\"eq\",10]", "10001"),
    ("[\"size\",\"ne\",10]", "01010"),
    ("[\"size\",\"gt\",9]", "10001"),
    ("[\"size\",\"gt\",10]", "00000"),
    ("[\"size\",\"ge\",10]", "10001"),
    ("[\"size\",\"ge\",0]", "11011"),
    ("[\"size\",\"lt\",10]", "01010"),
    ("[\"size\",\"lt\",0]", "00000"),
    ("[\"size\",\"le\",0]", "01010"),
    ("[\"size\",\"le\",9223372036854775807]", "11011"),
];

#[test]
fn holds_of_metadata(rt: HostRuntime) {
    assert_holds(&rt, rt.alloc(), OF_METADATA);
}

const OF_PARTS: &[(&str, &str)] = &[
    ("\"true\"", "11111"),
    ("[\"true\"]", "11111"),
    ("\"false\"", "00000"),
    ("[\"false\"]", "00000"),
    ("[\"not\",\"exists\"]", "00100"),
    ("[\"allof\"]", "11111"),
    ("[\"anyof\"]", "00000"),
    ("[\"allof\",\"exists\",[\"type\",\"f\"]]", "10000"),
    ("[\"anyof\",[\"name\",\"b\"],[\"type\",\"l\"]]", "00110"),
    (
        "[\"not\",[\"anyof\",\"empty\",[\"not\",\"exists\"]]]",
        "10011",
    ),
];

#[test]
fn holds_of_parts(rt: HostRuntime) {
    assert_holds(&rt, rt.alloc(), OF_PARTS);
}

/// What exists, of which kind and how many bytes, and whether it is empty.
const EMPTY: &[(bool, Kind, u64, bool)] = &[
    (true, Kind::File, 0, true),
    (true, Kind::File, 1, false),
    (true, Kind::Folder, 0, true),
    (true, Kind::Folder, 4096, false),
    (true, Kind::Link, 0, false),
    (true, Kind::Other, 0, false),
    (false, Kind::File, 0, false),
];

/// Whether such a file is empty.
fn is_empty(rt: &impl Abort, alloc: Global, exists: bool, kind: Kind, size: u64) -> bool {
    let empty = read(rt, alloc, "\"empty\"");
    let file = entry(rt, alloc, "a", exists, kind, size);
    let is_empty = empty.holds(&file);
    drop(file);
    drop(empty);
    is_empty
}

#[test]
fn tells_what_is_empty(rt: HostRuntime) {
    for (exists, kind, size, want) in EMPTY {
        let empty = is_empty(&rt, rt.alloc(), *exists, *kind, *size);
        check!(rt; empty == *want, (kind, size));
    }
}

const PATH_ONLY: &[(&str, bool)] = &[
    ("\"true\"", true),
    ("\"false\"", true),
    ("[\"not\",\"true\"]", true),
    ("[\"not\",\"exists\"]", false),
    ("[\"allof\"]", true),
    ("[\"allof\",\"true\",\"empty\"]", false),
    ("[\"anyof\",[\"type\",\"f\"],\"true\"]", false),
    ("[\"anyof\",[\"name\",\"a\"],[\"suffix\",\"c\"]]", true),
    ("[\"name\",\"a\"]", true),
    ("[\"suffix\",\"c\"]", true),
    ("[\"type\",\"f\"]", false),
    ("\"exists\"", false),
    ("\"empty\"", false),
    ("[\"size\",\"ge\",0]", false),
    ("[\"match\",\"*\"]", true),
];

/// Whether an expression, and its copy, read paths alone or don't.
fn is_path_only_so(rt: &impl Abort, alloc: Global, text: &str, want: bool) -> bool {
    let expr = read(rt, alloc, text);
    let copy = expr.copy(alloc).expect(rt, "memory");
    let is_so = expr.is_path_only() == want && copy.is_path_only() == want;
    drop(copy);
    drop(expr);
    is_so
}

/// The laws are functions with no work: that they may be called is all that a run shows.
fn call_the_laws() {
    every_expression();
    worked_rows();
}

#[test]
fn tells_what_reads_paths_alone(rt: HostRuntime) {
    call_the_laws();
    for (text, want) in PATH_ONLY {
        check!(rt; is_path_only_so(&rt, rt.alloc(), text, *want), text);
    }
}
