//! What a crawl of a tree in memory lists, counts and refuses.
use crate::checks::check;
use crate::trees::{Folder, Row, assert_lists, crawled, meta, part, tree_of, tried};
use std::alloc::Global;
use std::process::Abort;
use std::thread::Threads;
use wm_crawler::{Dir, MAX_WORKERS, MemTree, Open};
use wm_disk::Refusal;
use wm_names::{Kind, Meta, RelPath, Subtree};
use wm_view::Listing;

/// Whether so many workers list so many files of the whole tree, and leave so many names out.
fn counts<R: Threads + Abort + Sync>(
    rt: &R,
    alloc: Global,
    tree: &MemTree,
    workers: usize,
    files: usize,
    faults: u64,
) -> bool {
    let found = crawled(rt, alloc, tree, &Subtree::Whole, workers, &Open);
    let counted = (found.listing.files().len(), found.faults);
    drop(found);
    counted == (files, faults)
}

fn is_refused<R: Threads + Abort + Sync>(
    rt: &R,
    alloc: Global,
    tree: &MemTree,
    top: &str,
    workers: usize,
) -> bool {
    let top = part(rt, alloc, top);
    let found = tried(rt, alloc, tree, &top, workers, &Open);
    drop(top);
    let is_refused = matches!(found, Err(Refusal::DeviceFailed));
    drop(found);
    is_refused
}

/// Folders in folders, a link that leads to one with a folder in it, and a name that stands twice.
const FOLDERS: &[Folder<'static>] = &[
    ("", "src|a.c|link|pipe|a.c", 0),
    ("src", "lib|b.c", 0),
    ("src/lib", "c.c|empty", 0),
    ("src/lib/empty", "gone", 0),
    ("link", "never|deep", 0),
    ("link/deep", "nor", 0),
];

const FILES: &[(&str, Kind)] = &[
    ("a.c", Kind::File),
    ("link", Kind::Link),
    ("pipe", Kind::Other),
    ("src", Kind::Folder),
    ("src/b.c", Kind::File),
    ("src/lib", Kind::Folder),
    ("src/lib/c.c", Kind::File),
    ("src/lib/empty", Kind::Folder),
    ("link/never", Kind::File),
    ("link/deep", Kind::Folder),
    ("link/deep/nor", Kind::File),
];

const LISTED: &[Row] = &[
    (
        "",
        "f:a.c l:link o:pipe d:src f:src/b.c d:src/lib f:src/lib/c.c d:src/lib/empty ",
        0,
    ),
    (
        "src",
        "f:src/b.c d:src/lib f:src/lib/c.c d:src/lib/empty ",
        0,
    ),
    ("src/lib", "f:src/lib/c.c d:src/lib/empty ", 0),
    ("src/lib/empty", "", 0),
    ("a.c", "", 0),
    ("a.c/b", "", 0),
    ("link", "", 0),
    ("link/deep", "", 0),
    ("missing", "", 0),
    ("missing/too", "", 0),
];

/// Each number of workers that may be: up to `MAX_WORKERS`.
const EACH: &[usize] = &[1, 2, 3, 4, 5, 6, 7, 8, 9, 10, 11, 12, 13, 14, 15, 16];

#[test]
fn lists_each_path_once(rt: HostRuntime) {
    check!(rt; EACH.len() == MAX_WORKERS);
    let tree = tree_of(&rt, rt.alloc(), FOLDERS, FILES);
    assert_lists(&rt, rt.alloc(), &tree, EACH, LISTED);
    drop(tree);
}

/// Names with a slash, of dots, empty, and with a zero byte; `f` holds one that isn't text, and `f/g` nothing else.
const WITH_FAULTS: &[Folder<'static>] = &[
    ("", "f|x/y|..|.||a\0b|ok", 2),
    ("f", "g|/", 1),
    ("f/g", ".", 3),
];

const FILES_WITH_FAULTS: &[(&str, Kind)] = &[
    ("f", Kind::Folder),
    ("f/g", Kind::Folder),
    ("ok", Kind::File),
    ("x/y", Kind::File),
];

/// 5 and 2 in the root, 1 and 1 in f, 1 and 3 in f/g.
const COUNTED: &[Row] = &[
    ("", "d:f d:f/g f:ok ", 13),
    ("f", "d:f/g ", 6),
    ("f/g", "", 4),
];

#[test]
fn counts_names_that_are_no_paths(rt: HostRuntime) {
    let tree = tree_of(&rt, rt.alloc(), WITH_FAULTS, FILES_WITH_FAULTS);
    assert_lists(&rt, rt.alloc(), &tree, &[1, 2, 4], COUNTED);
    drop(tree);
}

/// A name of so many bytes.
fn long_name(rt: &impl Abort, alloc: Global, len: usize) -> String {
    let mut name = String::new(alloc);
    for _ in 0..len {
        name.push('n').expect(rt, "memory");
    }
    name
}

/// Lets a folder have one name.
fn hold_one(rt: &impl Abort, alloc: Global, tree: &mut MemTree, folder: Subtree, name: &str) {
    let mut dir = Dir::new(alloc);
    dir.add(alloc, name).expect(rt, "memory");
    tree.hold(folder, dir).expect(rt, "memory");
}

/// A tree of a folder with one name of so many bytes, and a file there where that is a path.
fn with_long_name(rt: &impl Abort, alloc: Global, len: usize) -> MemTree {
    let mut tree = tree_of(rt, alloc, &[("", "f", 0)], &[("f", Kind::Folder)]);
    put_long_name(rt, alloc, &mut tree, len);
    tree
}

fn put_long_name(rt: &impl Abort, alloc: Global, tree: &mut MemTree, len: usize) {
    let name = long_name(rt, alloc, len);
    hold_one(rt, alloc, tree, part(rt, alloc, "f"), &name);
    let text = format!(in alloc; "f/{name}").expect(rt, "memory");
    let read = RelPath::read(alloc, &text);
    drop(text);
    if let Ok(path) = read {
        tree.put(path, meta(Kind::File, 7)).expect(rt, "memory");
    }
    drop(name);
}

/// How long a name is, how many files are found then, and how many names are left out.
const LENGTHS: &[(usize, usize, u64)] = &[(1022, 2, 0), (1023, 1, 1)];

/// The longest path has 1,024 bytes; a longer one is a fault.
#[test]
fn leaves_out_paths_that_are_too_long(rt: HostRuntime) {
    for (len, files, faults) in LENGTHS {
        let tree = with_long_name(&rt, rt.alloc(), *len);
        check!(rt; counts(&rt, rt.alloc(), &tree, 1, *files, *faults), len);
        drop(tree);
    }
}

/// Puts a folder that has one of its own name.
fn put_folder(rt: &impl Abort, alloc: Global, tree: &mut MemTree, path: &str) {
    let folder = RelPath::read(alloc, path).expect(rt, "a path");
    tree.put(folder, meta(Kind::Folder, 0)).expect(rt, "memory");
    hold_one(rt, alloc, tree, part(rt, alloc, path), "folder7");
}

fn put_folders(rt: &impl Abort, alloc: Global, tree: &mut MemTree) {
    let mut path = String::from_str(alloc, "folder7").expect(rt, "memory");
    for _ in 0..128 {
        put_folder(rt, alloc, tree, &path);
        path.push_str("/folder7").expect(rt, "memory");
    }
    drop(path);
}

/// As deep as a path can be with names of 7 bytes: 128 folders, each in the one before. The name in the last folder, whose path
/// would have 1,031 bytes, is left out.
#[test]
fn goes_as_deep_as_paths_do(rt: HostRuntime) {
    let alloc = rt.alloc();
    let mut tree = tree_of(&rt, alloc, &[("", "folder7", 0)], &[]);
    put_folders(&rt, alloc, &mut tree);
    check!(rt; counts(&rt, alloc, &tree, 1, 128, 1));
    check!(rt; counts(&rt, alloc, &tree, 4, 128, 1));
    drop(tree);
}

/// A tree with a folder that can't be read.
fn with_closed_folder(rt: &impl Abort, alloc: Global) -> MemTree {
    let mut tree = tree_of(
        rt,
        alloc,
        &[("", "a|b", 0), ("a", "c", 0)],
        &[
            ("a", Kind::Folder),
            ("b", Kind::Folder),
            ("a/c", Kind::File),
        ],
    );
    tree.close(part(rt, alloc, "b")).expect(rt, "memory");
    tree
}

/// Asserts that each of these numbers of workers is refused below each of these folders.
fn assert_refused<R: Threads + Abort + Sync>(
    rt: &R,
    alloc: Global,
    tree: &MemTree,
    numbers: &[usize],
    tops: &[&str],
) {
    for workers in numbers {
        for top in tops {
            check!(rt; is_refused(rt, alloc, tree, top, *workers));
        }
    }
}

/// What stands elsewhere doesn't matter.
#[test]
fn is_refused_where_a_folder_cannot_be_read(rt: HostRuntime) {
    let alloc = rt.alloc();
    let tree = with_closed_folder(&rt, alloc);
    assert_refused(&rt, alloc, &tree, &[1, 2, 16], &["", "b"]);
    assert_lists(&rt, alloc, &tree, &[1, 2, 16], &[("a", "f:a/c ", 0)]);
    drop(tree);
}

fn with_hidden_file(rt: &impl Abort, alloc: Global) -> MemTree {
    let mut tree = tree_of(rt, alloc, &[("", "a|b", 0)], &[("a", Kind::File)]);
    let hidden = RelPath::read(alloc, "b").expect(rt, "a path");
    tree.hide(hidden).expect(rt, "memory");
    tree
}

/// Also where that stands above the part.
#[test]
fn is_refused_where_metadata_cannot_be_told(rt: HostRuntime) {
    let tree = with_hidden_file(&rt, rt.alloc());
    assert_refused(&rt, rt.alloc(), &tree, &[1, 2], &["", "b", "b/c"]);
    assert_lists(&rt, rt.alloc(), &tree, &[1, 2], &[("a/c", "", 0)]);
    drop(tree);
}

/// Puts a file whose name and size are a number.
fn put_numbered(rt: &impl Abort, alloc: Global, tree: &mut MemTree, dir: &mut Dir, number: u64) {
    let name = format!(in alloc; "{number}.c").expect(rt, "memory");
    let path = RelPath::read(alloc, &name).expect(rt, "a path");
    tree.put(path, meta(Kind::File, number))
        .expect(rt, "memory");
    dir.add(alloc, &name).expect(rt, "memory");
    drop(name);
}

/// A tree of one folder with 2,000 files.
fn wide(rt: &impl Abort, alloc: Global) -> MemTree {
    let mut tree = MemTree::new(alloc);
    let mut dir = Dir::new(alloc);
    for number in 0..2_000 {
        put_numbered(rt, alloc, &mut tree, &mut dir, number);
    }
    tree.hold(Subtree::Whole, dir).expect(rt, "memory");
    tree
}

/// Whether a file's name is its size.
fn is_numbered(rt: &impl Abort, alloc: Global, path: &RelPath, meta: &Meta) -> bool {
    let name = format!(in alloc; "{}.c", meta.size).expect(rt, "memory");
    let is_name = path.as_str() == name.as_str();
    drop(name);
    is_name
}

fn are_numbered(rt: &impl Abort, alloc: Global, listing: &Listing) -> bool {
    for (path, meta) in listing.files() {
        if !is_numbered(rt, alloc, path, meta) {
            return false;
        }
    }
    listing.files().len() == 2_000
}

/// Whether so many workers find the 2,000 files.
fn finds_numbered<R: Threads + Abort + Sync>(
    rt: &R,
    alloc: Global,
    tree: &MemTree,
    workers: usize,
) -> bool {
    let found = crawled(rt, alloc, tree, &Subtree::Whole, workers, &Open);
    let holds = are_numbered(rt, alloc, &found.listing);
    drop(found);
    holds
}

/// 2,000 names in one folder, so that several workers ask for them.
#[test]
fn lists_a_wide_folder(rt: HostRuntime) {
    let tree = wide(&rt, rt.alloc());
    for workers in &[1, 3, 16] {
        check!(rt; finds_numbered(&rt, rt.alloc(), &tree, *workers));
    }
    drop(tree);
}
