//! Paths of roots.
use super::long;
use crate::checks::check;
use std::alloc::Global;
use std::process::Abort;
use wm_disk::Refusal;
use wm_names::RootPath;

const PATHS: &[&str] = &[
    "/r",
    "/a/b",
    "/.x",
    "/...",
    "/a b",
    "/a/..b/c..",
    "/\u{e9}",
    "/a\\b",
];

// Lengths at which a path may be kept in another way, and the greatest.
const LENGTHS: &[usize] = &[24, 25, 1024];

const NO_PATHS: &[&str] = &[
    "", "/", "a", "a/b", "//a", "/a/", "/a//b", "/.", "/./a", "/..", "/a/../b", "/a/..", "/a\0b",
    "/\0",
];

const COMPARED: &[(&str, &str, bool)] = &[
    ("/r", "/r", true),
    ("/r", "/s", false),
    ("/r", "/R", false),
    ("/r", "/r/s", false),
    ("/a/b", "/a/b", true),
];

// Whether the text is read as a path that shows it, as does a copy.
fn is_read(rt: &impl Abort, alloc: Global, text: &str) -> bool {
    let path = RootPath::read(alloc, text).expect(rt, "a root path");
    let copy = path.copy(alloc).expect(rt, "memory");
    let is_so = path.as_str() == text && copy.as_str() == text;
    drop(copy);
    drop(path);
    is_so
}

// Whether the text is refused as no path.
fn is_refused(alloc: Global, text: &str) -> bool {
    RootPath::read(alloc, text).err() == Some(Refusal::BadPath)
}

// Whether the paths are equal, from either side, where that is wanted.
fn compares(rt: &impl Abort, alloc: Global, first: &str, second: &str, want: bool) -> bool {
    let path = RootPath::read(alloc, first).expect(rt, "a root path");
    let other = RootPath::read(alloc, second).expect(rt, "a root path");
    let is_so = (path == other) == want && (other == path) == want;
    drop(other);
    drop(path);
    is_so
}

#[test]
fn reads_paths(rt: HostRuntime) {
    for text in PATHS {
        check!(rt; is_read(&rt, rt.alloc(), text), text);
    }
    for len in LENGTHS {
        let text = long(&rt, rt.alloc(), "/", *len);
        check!(rt; is_read(&rt, rt.alloc(), &text), len);
    }
}

#[test]
fn refuses_other_texts(rt: HostRuntime) {
    for text in NO_PATHS {
        check!(rt; is_refused(rt.alloc(), text), text);
    }
    let too_long = long(&rt, rt.alloc(), "/", 1025);
    check!(rt; is_refused(rt.alloc(), &too_long));
}

#[test]
fn compares_paths(rt: HostRuntime) {
    for (first, second, want) in COMPARED {
        check!(rt; compares(&rt, rt.alloc(), first, second, *want), (first, second));
    }
}
