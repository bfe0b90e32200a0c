//! Expressions: which JSON texts are ones, and of which files they hold.
use serde_json::Value;
use std::alloc::Global;
use std::process::Abort;
use wm_expr::Expr;
use wm_names::{Entry, Kind, Meta, RelPath};

mod meanings;
mod patterns;
mod readings;

/// The expression that a JSON text is.
fn read(rt: &impl Abort, alloc: Global, text: &str) -> Expr {
    let value = Value::from_str(alloc, text).expect(rt, "JSON");
    let expr = Expr::read(alloc, &value).expect(rt, "an expression");
    drop(value);
    expr
}

/// What is known of a file.
fn entry(rt: &impl Abort, alloc: Global, path: &str, exists: bool, kind: Kind, size: u64) -> Entry {
    let path = RelPath::read(alloc, path).expect(rt, "a path");
    let meta = Meta {
        kind,
        size,
        mtime_ms: 7,
    };
    Entry { path, exists, meta }
}

/// A text, another so many times, and a third.
fn repeated(
    rt: &impl Abort,
    alloc: Global,
    front: &str,
    text: &str,
    times: u16,
    back: &str,
) -> String {
    let mut all = String::from_str(alloc, front).expect(rt, "memory");
    for _ in 0..times {
        all.push_str(text).expect(rt, "memory");
    }
    all.push_str(back).expect(rt, "memory");
    all
}
