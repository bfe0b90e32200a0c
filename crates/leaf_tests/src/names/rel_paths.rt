//! Paths below a root.
use super::long;
use crate::checks::check;
use std::alloc::Global;
use std::cmp::Ordering;
use std::process::Abort;
use wm_disk::Refusal;
use wm_names::RelPath;

const PATHS: &[&str] = &[
    "a",
    "a/b",
    ".x",
    "...",
    "a b",
    "a/..b/c..",
    "\u{e9}/x",
    "a\\b",
];

const NO_PATHS: &[&str] = &[
    "", "/", "/a", "a/", "a//b", ".", "..", "./a", "a/.", "a/./b", "a/..", "a/../b", "a\0b", "\0",
];

// A path, another, and whether the first stands below the second.
const BELOW: &[(&str, &str, bool)] = &[
    ("x/a", "x", true),
    ("x/y/z", "x", true),
    ("x/y/z", "x/y", true),
    ("x", "x", false),
    ("xy", "x", false),
    ("xy/a", "x", false),
    ("x", "x/a", false),
    ("y/x/a", "x", false),
    ("a/b", "x", false),
];

const BASENAMES: &[(&str, &str)] = &[("a.c", "a.c"), ("x/a.c", "a.c"), ("x/y/z", "z")];

// Two paths in the order of their bytes.
const ORDERED: &[(&str, &str, Ordering)] = &[
    ("a", "a", Ordering::Equal),
    ("a", "b", Ordering::Less),
    ("b", "a", Ordering::Greater),
    ("a", "a/b", Ordering::Less),
    ("a.b", "a/b", Ordering::Less),
    ("a0", "a/b", Ordering::Greater),
    ("B", "a", Ordering::Less),
    ("z", "\u{e9}", Ordering::Less),
];

// Whether the text is read as a path that shows it, as does a copy.
fn is_read(rt: &impl Abort, alloc: Global, text: &str) -> bool {
    let path = RelPath::read(alloc, text).expect(rt, "a path");
    let copy = path.copy().expect(rt, "memory");
    let is_so = path.as_str() == text && copy.as_str() == text;
    drop(copy);
    drop(path);
    is_so
}

// Whether the text is refused as no path.
fn is_refused(alloc: Global, text: &str) -> bool {
    RelPath::read(alloc, text).err() == Some(Refusal::BadPath)
}

fn is_below(rt: &impl Abort, alloc: Global, path: &str, top: &str) -> bool {
    let path = RelPath::read(alloc, path).expect(rt, "a path");
    let top = RelPath::read(alloc, top).expect(rt, "a path");
    let is_below = path.under(&top);
    drop(top);
    drop(path);
    is_below
}

fn has_basename(rt: &impl Abort, alloc: Global, path: &str, want: &str) -> bool {
    let path = RelPath::read(alloc, path).expect(rt, "a path");
    let is_so = path.basename() == want;
    drop(path);
    is_so
}

// Whether the paths stand in this order, and are the same only where they are equal.
fn compares(rt: &impl Abort, alloc: Global, first: &str, second: &str, want: Ordering) -> bool {
    let path = RelPath::read(alloc, first).expect(rt, "a path");
    let other = RelPath::read(alloc, second).expect(rt, "a path");
    let is_same = path.same(&other) == (want == Ordering::Equal);
    let is_so = path.compare(&other) == want && is_same;
    drop(other);
    drop(path);
    is_so
}

#[test]
fn reads_paths(rt: HostRuntime) {
    for text in PATHS {
        check!(rt; is_read(&rt, rt.alloc(), text), text);
    }
    let longest = long(&rt, rt.alloc(), "", 1024);
    check!(rt; is_read(&rt, rt.alloc(), &longest));
}

#[test]
fn refuses_other_texts(rt: HostRuntime) {
    for text in NO_PATHS {
        check!(rt; is_refused(rt.alloc(), text), text);
    }
    let too_long = long(&rt, rt.alloc(), "", 1025);
    check!(rt; is_refused(rt.alloc(), &too_long));
}

#[test]
fn stands_below(rt: HostRuntime) {
    for (path, top, want) in BELOW {
        check!(rt; is_below(&rt, rt.alloc(), path, top) == *want, (path, top));
    }
}

#[test]
fn has_a_basename(rt: HostRuntime) {
    for (path, want) in BASENAMES {
        check!(rt; has_basename(&rt, rt.alloc(), path, want), path);
    }
}

#[test]
fn stands_in_the_order_of_bytes(rt: HostRuntime) {
    for (first, second, want) in ORDERED {
        check!(rt; compares(&rt, rt.alloc(), first, second, *want), (first, second));
    }
}
