//! Listings by themselves, before a view takes them in.
use crate::checks::check;
use crate::making::{file, part_of};
use std::alloc::Global;
use std::process::Abort;
use wm_disk::Refusal;
use wm_names::{Meta, RelPath};
use wm_view::Listing;

/// What is added to a listing of what stands below `x`: the path and its size, and with what result.
const ADDED: &[(&str, u64, Result<(), Refusal>)] = &[
    ("x/b", 1, Ok(())),
    ("x/y/c", 2, Ok(())),
    ("x/a", 3, Ok(())),
    ("x/b", 4, Err(Refusal::BadArguments)),
    ("x", 5, Err(Refusal::BadPath)),
    ("xy", 6, Err(Refusal::BadPath)),
    ("y/x/a", 7, Err(Refusal::BadPath)),
];

/// What is found then, in this order.
const FOUND: &[(&str, u64)] = &[("x/a", 3), ("x/b", 1), ("x/y/c", 2)];

/// Whether a path is added with this result.
fn adds(
    rt: &impl Abort,
    alloc: Global,
    listing: &mut Listing,
    path: &str,
    size: u64,
    wanted: Result<(), Refusal>,
) -> bool {
    listing.add(RelPath::read(alloc, path).expect(rt, "a path"), file(size)) == wanted
}

/// Whether a file is the one that is wanted.
fn is_found(entry: &(RelPath, Meta), wanted: &(&str, u64)) -> bool {
    entry.0.as_str() == wanted.0 && entry.1 == file(wanted.1)
}

/// Whether these are the files, in this order.
fn finds(files: &[(RelPath, Meta)], wanted: &[(&str, u64)]) -> bool {
    if files.len() != wanted.len() {
        return false;
    }
    for (entry, found) in files.iter().zip(wanted) {
        if !is_found(entry, found) {
            return false;
        }
    }
    true
}

/// Whether the part that is listed covers a path and isn't the whole root.
fn is_part_with(rt: &impl Abort, alloc: Global, listing: &Listing, path: &str) -> bool {
    let path = RelPath::read(alloc, path).expect(rt, "a path");
    let is_part = !listing.subtree().is_whole() && listing.subtree().covers(&path);
    drop(path);
    is_part
}

fn assert_lists(rt: &impl Abort, alloc: Global, listing: &mut Listing) {
    for (path, size, result) in ADDED {
        check!(rt; adds(rt, alloc, listing, path, *size, *result), path);
    }
    check!(rt; finds(listing.files(), FOUND));
    check!(rt; is_part_with(rt, alloc, listing, "x/z"));
}

#[test]
fn lists_each_path_once(rt: HostRuntime) {
    let part = part_of(&rt, rt.alloc(), Some("x"));
    let mut listing = Listing::new(rt.alloc(), part);
    assert_lists(&rt, rt.alloc(), &mut listing);
    drop(listing);
}
