//! Which paths a pattern matches.
use super::{entry, read, repeated};
use crate::checks::check;
use std::alloc::Global;
use std::process::Abort;
use wm_names::Kind;

/// Whether a pattern matches a path, in a scope.
fn matches(rt: &impl Abort, alloc: Global, pattern: &str, scope: &str, path: &str) -> bool {
    let text = format!(in alloc; "[\"match\",\"{pattern}\",\"{scope}\"]").expect(rt, "memory");
    let expr = read(rt, alloc, &text);
    drop(text);
    let file = entry(rt, alloc, path, true, Kind::File, 1);
    let is_matched = expr.holds(&file);
    drop(file);
    drop(expr);
    is_matched
}

/// A pattern, a path, and whether the one matches the other.
type Row = (&'static str, &'static str, bool);

fn assert_matches(rt: &impl Abort, alloc: Global, scope: &str, rows: &[Row]) {
    for (pattern, path, want) in rows {
        let is_matched = matches(rt, alloc, pattern, scope, path);
        check!(rt; is_matched == *want, (pattern, path));
    }
}

const BASENAMES: &[Row] = &[
    ("*.c", "x/a.c", true),
    ("a?c", "abc", true),
    ("a?c", "ac", false),
    ("*", ".hid", true),
    ("", "a", false),
    ("**", "x/a", true),
    ("a*b*c", "a-b-b-c", true),
    ("a*b*c", "a-c-b", false),
    ("*.c", "a.c.h", false),
    ("A", "a", false),
    ("??", "\u{e9}", true),
    ("?", "\u{e9}", false),
    ("x/a", "x/a", false),
];

#[test]
fn matches_basenames(rt: HostRuntime) {
    assert_matches(&rt, rt.alloc(), "basename", BASENAMES);
}

const WHOLE_NAMES: &[Row] = &[
    ("*.c", "x/a.c", false),
    ("**/*.c", "a.c", true),
    ("**/*.c", "x/y/a.c", true),
    ("x/**", "x", false),
    ("x/**", "x/y/z", true),
    ("x/**", "xy", false),
    ("**", "a", true),
    ("**/**", "a", true),
    ("a/**/b", "a/b", true),
    ("a/**/b", "a/x/b/y/b", true),
    ("a/**/b", "a/x/b/y", false),
    ("a/**/b/**", "a/x/b/y/b", true),
    ("a/**/b/**", "a/x/y/b", false),
    ("x/*/z", "x/y/z", true),
    ("x/*/z", "x/z", false),
    ("x/***", "x/y/z", false),
    ("/x", "x", false),
    ("x/", "x", false),
];

#[test]
fn matches_whole_names(rt: HostRuntime) {
    assert_matches(&rt, rt.alloc(), "wholename", WHOLE_NAMES);
}

/// Whether a pattern of many stars matches a long basename that it almost fits.
fn matches_long_name(rt: &impl Abort, alloc: Global) -> bool {
    let path = repeated(rt, alloc, "", "a", 1024, "");
    let stars = repeated(rt, alloc, "", "*a", 510, "*b");
    matches(rt, alloc, &stars, "basename", &path)
}

/// Whether a pattern of many double stars matches a deep path that it almost fits.
fn matches_deep_path(rt: &impl Abort, alloc: Global) -> bool {
    let path = repeated(rt, alloc, "a", "/a", 511, "");
    let stars = repeated(rt, alloc, "", "**/a/", 200, "b");
    matches(rt, alloc, &stars, "wholename", &path)
}

// Tried one by one, the runs of these stars would take longer than the world has stood.
#[test]
fn answers_hostile_patterns_at_once(rt: HostRuntime) {
    check!(rt; !matches_long_name(&rt, rt.alloc()));
    check!(rt; !matches_deep_path(&rt, rt.alloc()));
}
