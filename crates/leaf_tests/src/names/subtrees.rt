//! What stands in a part of a root.
use super::long;
use crate::checks::check;
use std::alloc::Global;
use std::process::Abort;
use wm_disk::Refusal;
use wm_names::{RelPath, Subtree};

// Paths, and whether they stand below `x`.
const ROWS: &[(&str, bool)] = &[
    ("x", false),
    ("x/a", true),
    ("x/y/z", true),
    ("xy", false),
    ("y/x/a", false),
];

// Whether the whole root covers the path, and what stands below `x` does where that is wanted.
fn covers(rt: &impl Abort, alloc: Global, path: &str, want: bool) -> bool {
    let path = RelPath::read(alloc, path).expect(rt, "a path");
    let below = Subtree::Below(RelPath::read(alloc, "x").expect(rt, "a path"));
    let is_so = Subtree::Whole.covers(&path) && below.covers(&path) == want;
    drop(below);
    drop(path);
    is_so
}

#[test]
fn covers_what_stands_below(rt: HostRuntime) {
    for (path, want) in ROWS {
        check!(rt; covers(&rt, rt.alloc(), path, *want), path);
    }
    check!(rt; Subtree::Whole.is_whole());
    let top = RelPath::read(rt.alloc(), "x").expect(&rt, "a path");
    let below = Subtree::Below(top);
    check!(rt; !below.is_whole());
    drop(below);
}

// A folder, the empty text for the root, and a name in it; the name's path, where it is one.
const JOINED: &[(&str, &str, Option<&str>)] = &[
    ("", "a", Some("a")),
    ("x", "a.c", Some("x/a.c")),
    ("x/y", "\u{e9}", Some("x/y/\u{e9}")),
    ("x", "...", Some("x/...")),
    ("", "", None),
    ("x", "", None),
    ("", "a/b", None),
    ("x", "a/b", None),
    ("x", "/", None),
    ("", "..", None),
    ("x", ".", None),
    ("x", "..", None),
    ("", "a\0b", None),
    ("x", "\0", None),
];

// How many bytes a folder and a name have, and whether the path isn't too long: about the most that lie in the
// value itself, and about the most of all.
const LONG: &[(usize, usize, bool)] = &[
    (40, 7, true),
    (40, 8, true),
    (1000, 23, true),
    (1000, 24, false),
    (1024, 1, false),
    (1, 1025, false),
];

fn folder(rt: &impl Abort, alloc: Global, path: &str) -> Subtree {
    if path.is_empty() {
        return Subtree::Whole;
    }
    let path = RelPath::read(alloc, path).expect(rt, "a path");
    Subtree::Below(path)
}

// Whether the name's path in the folder is that, or where none is given the name is refused.
fn is_joined(rt: &impl Abort, alloc: Global, top: &str, name: &str, want: Option<&str>) -> bool {
    let folder = folder(rt, alloc, top);
    let joined = folder.join(alloc, name);
    drop(folder);
    let is_so = match (&joined, want) {
        (Ok(path), Some(want)) => path.as_str() == want,
        (Err(Refusal::BadPath), None) => true,
        _ => false,
    };
    drop(joined);
    is_so
}

fn is_joined_long(rt: &impl Abort, alloc: Global, top: usize, name: usize, fits: bool) -> bool {
    let top = long(rt, alloc, "", top);
    let name = long(rt, alloc, "", name);
    let mut path = String::from_str(alloc, &top).expect(rt, "memory");
    path.push('/').expect(rt, "memory");
    path.push_str(&name).expect(rt, "memory");
    let want = if fits { Some(path.as_str()) } else { None };
    let is_so = is_joined(rt, alloc, &top, &name, want);
    drop(path);
    drop(name);
    drop(top);
    is_so
}

#[test]
fn a_name_is_joined_to_its_folder(rt: HostRuntime) {
    for (top, name, want) in JOINED {
        check!(rt; is_joined(&rt, rt.alloc(), top, name, *want), (top, name));
    }
    for (top, name, fits) in LONG {
        check!(rt; is_joined_long(&rt, rt.alloc(), *top, *name, *fits), (top, name));
    }
}
