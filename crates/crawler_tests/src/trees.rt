//! Trees in memory, crawls of trees, and listings as texts.
ghost use Rattle.std.specs.Prelude.{◌≤◌};

use crate::checks::check;
use std::alloc::Global;
use std::process::Abort;
use std::thread::Threads;
use wm_crawler::{Crawled, Dir, MAX_WORKERS, MemTree, Open, Tree, Turnstile, crawl};
use wm_disk::Refusal;
use wm_names::{Kind, Meta, RelPath, Subtree};
use wm_view::Listing;

/// So many workers, or one where a crawl can't have so many.
fn allowed(workers: usize) -> usize
    ensures some { 1 ≤ result }
    ensures few { result ≤ 16 }
{
    if workers < 1 || MAX_WORKERS < workers {
        1
    } else {
        workers
    }
}

/// The root where the text is empty, and else what is below the path.
pub(crate) fn part(rt: &impl Abort, alloc: Global, text: &str) -> Subtree {
    if text.is_empty() {
        return Subtree::Whole;
    }
    let path = RelPath::read(alloc, text).expect(rt, "a path");
    Subtree::Below(path)
}

/// The metadata of a file of so many bytes, or of another thing.
pub(crate) fn meta(kind: Kind, size: u64) -> Meta {
    Meta {
        kind,
        size,
        mtime_ms: 0,
    }
}

/// A folder: its path, its names with a bar between them, and how many more aren't text.
pub(crate) type Folder<'a> = (&'a str, &'a str, u64);

fn dir_of(rt: &impl Abort, alloc: Global, names: &str, others: u64) -> Dir {
    let mut dir = Dir::new(alloc);
    for name in names.split('|') {
        dir.add(alloc, name).expect(rt, "memory");
    }
    for _ in 0..others {
        dir.add_other();
    }
    dir
}

/// A tree with these folders and, at these paths, these things.
pub(crate) fn tree_of(
    rt: &impl Abort,
    alloc: Global,
    folders: &[Folder<'_>],
    files: &[(&str, Kind)],
) -> MemTree {
    let mut tree = MemTree::new(alloc);
    for (folder, names, others) in folders {
        let folder = part(rt, alloc, folder);
        let dir = dir_of(rt, alloc, names, *others);
        tree.hold(folder, dir).expect(rt, "memory");
    }
    for (path, kind) in files {
        let path = RelPath::read(alloc, path).expect(rt, "a path");
        tree.put(path, meta(*kind, 0)).expect(rt, "memory");
    }
    tree
}

/// A letter and a path for each file of a listing, each with a space behind it.
pub(crate) fn told(rt: &impl Abort, alloc: Global, listing: &Listing) -> String {
    let mut text = String::new(alloc);
    for (path, meta) in listing.files() {
        let letter = meta.kind.letter();
        write!(text, "{letter}:{} ", path.as_str()).expect(rt, "memory");
    }
    text
}

/// Whether the listing's text is this.
pub(crate) fn is_told(rt: &impl Abort, alloc: Global, listing: Listing, wanted: &str) -> bool {
    let text = told(rt, alloc, &listing);
    drop(listing);
    let holds = text.as_str() == wanted;
    drop(text);
    holds
}

/// What so many workers find below the top, or how they are refused.
pub(crate) fn tried<R: Threads + Sync, T: Tree + Sync, G: Turnstile + Sync>(
    rt: &R,
    alloc: Global,
    tree: &T,
    top: &Subtree,
    workers: usize,
    gate: &G,
) -> Result<Crawled, Refusal> {
    crawl(rt, alloc, tree, top, allowed(workers), gate)
}

/// What so many workers find below the top.
pub(crate) fn crawled<R: Threads + Abort + Sync, T: Tree + Sync, G: Turnstile + Sync>(
    rt: &R,
    alloc: Global,
    tree: &T,
    top: &Subtree,
    workers: usize,
    gate: &G,
) -> Crawled {
    tried(rt, alloc, tree, top, workers, gate).expect(rt, "a crawl")
}

/// A folder, what is listed below it, and how many names are left out.
pub(crate) type Row = (&'static str, &'static str, u64);

/// Whether so many workers list that below a folder, and leave so many names out.
pub(crate) fn lists<R: Threads + Abort + Sync, T: Tree + Sync>(
    rt: &R,
    alloc: Global,
    tree: &T,
    workers: usize,
    (top, wanted, faults): Row,
) -> bool {
    let top = part(rt, alloc, top);
    let found = crawled(rt, alloc, tree, &top, workers, &Open);
    drop(top);
    let is_counted = found.faults == faults;
    is_told(rt, alloc, found.listing, wanted) && is_counted
}

/// Asserts that each of these numbers of workers lists what the rows tell.
pub(crate) fn assert_lists<R: Threads + Abort + Sync, T: Tree + Sync>(
    rt: &R,
    alloc: Global,
    tree: &T,
    numbers: &[usize],
    rows: &[Row],
) {
    for row in rows {
        for workers in numbers {
            check!(rt; lists(rt, alloc, tree, *workers, *row), (workers, row.0));
        }
    }
}
