//! Crawls of real folders: each thing that a file system has.
use crate::checks::check;
use crate::trees::{assert_lists, crawled, is_told, lists, part, told, tried};
use std::os::unix::net::UnixListener;
use std::process::{Abort, Command};
use std::thread::Threads;
use std::{env, fs};
use wm_crawler::{FolderTree, Open, SystemFolders, Turnstile, crawl_root};
use wm_disk::Refusal;
use wm_names::{Kind, Meta, RelPath, RootPath, Subtree};

/// The absolute path of a name in the folder where the tests run.
fn root_of(rt: &HostRuntime, host: &impl Abort, name: &str) -> RootPath {
    let folder = env::current_dir(rt).expect(host, "a folder");
    let path = format!(in rt.alloc(); "{}/{name}", folder.as_str()).expect(host, "memory");
    let root = RootPath::read(rt.alloc(), &path).expect(host, "a path");
    drop(folder);
    drop(path);
    root
}

/// Whether a command line of the shell succeeded.
fn sh(rt: &HostRuntime, host: &impl Abort, line: &str) -> bool {
    let mut command = Command::new(rt.alloc(), "sh").expect(host, "memory");
    command.args(["-c", line]).expect(host, "memory");
    let status = command.status(rt).expect(host, "a shell");
    drop(command);
    status.success()
}

/// The tree of a folder where the tests run.
fn tree_at(rt: &HostRuntime, host: &impl Abort, name: &str) -> FolderTree<HostRuntime> {
    let root = root_of(rt, host, name);
    FolderTree::new(rt.clone().expect(host, "memory"), root)
}

/// Files, folders, links that lead to a file, to nowhere and in a ring, a pipe and a socket; names with
/// spaces, newlines and letters beyond ASCII; and three names that aren't text.
const MAKE: &str =
    "rm -rf crawl_all && mkdir -p crawl_all/d/e && cd crawl_all && printf abc > d/e/f && \
    ln -s d link && ln -s nowhere lost && ln -s ring2 ring1 && ln -s ring1 ring2 && ln -s .. d/up && \
    mkfifo pipe && : > 'a b' && : > 'x\ny' && : > \"$(printf 'n\\nl')\" && : > '\u{e9}' && \
    : > \"$(printf 'bad\\377')\" && : > \"$(printf 'd/\\200')\" && mkdir \"$(printf '\\376dir')\"";

const ALL: &str =
    "f:a b d:d d:d/e f:d/e/f l:d/up l:link l:lost f:n\nl o:pipe l:ring1 l:ring2 o:sock f:x\ny f:\u{e9} ";

/// Asserts that crawls list all of it.
fn assert_lists_all<R: Threads + Abort + Sync>(rt: &HostRuntime, host: &R) {
    let tree = tree_at(rt, host, "crawl_all");
    assert_lists(host, rt.alloc(), &tree, &[1, 2, 4], &[("", ALL, 3)]);
    drop(tree);
}

#[test]
fn lists_what_a_file_system_has(rt: HostRuntime) {
    check!(rt; sh(&rt, &rt, MAKE));
    let socket = UnixListener::bind(&rt, "crawl_all/sock").expect(&rt, "a socket");
    assert_lists_all(&rt, &rt);
    drop(socket);
    check!(rt; sh(&rt, &rt, "rm -rf crawl_all"));
}

/// Whether a crawl of one of many roots lists that.
fn lists_of_root<R: Threads + Abort + Sync>(
    rt: &HostRuntime,
    host: &R,
    folders: &SystemFolders<HostRuntime>,
    root: &RootPath,
    workers: usize,
    wanted: &str,
) -> bool {
    let alloc = rt.alloc();
    let listing = crawl_root(host, alloc, folders, root, &Subtree::Whole, workers, &Open);
    let listing = listing.expect(host, "a crawl");
    is_told(host, alloc, listing, wanted)
}

fn assert_lists_of_root<R: Threads + Abort + Sync>(rt: &HostRuntime, host: &R, root: &RootPath) {
    let folders = SystemFolders::new(rt.clone().expect(host, "memory"));
    for workers in &[0, 1, 17] {
        check!(host; lists_of_root(rt, host, &folders, root, *workers, "d:d f:d/f "));
    }
    drop(folders);
}

/// By way of the folders of all roots: none or too many workers are as few or as many as may be.
#[test]
fn crawls_one_of_many_roots(rt: HostRuntime) {
    check!(rt; sh(
            &rt,
            &rt,
            "rm -rf crawl_root && mkdir -p crawl_root/d && : > crawl_root/d/f"
        ));
    let root = root_of(&rt, &rt, "crawl_root");
    assert_lists_of_root(&rt, &rt, &root);
    drop(root);
    check!(rt; sh(&rt, &rt, "rm -rf crawl_root"));
}

/// Two files, their sizes and their times.
const TIMES: &[(&str, u64, u64)] = &[("new", 3, 1_000_000_000_123), ("old", 0, 0)];

/// Whether just these files are listed.
fn are_times(files: &[(RelPath, Meta)]) -> bool {
    files.len() == TIMES.len()
        && files.iter().zip(TIMES).all(|(file, row)| file.0.as_str() == row.0
            && file.1.kind.same(Kind::File)
            && file.1.size == row.1
            && file.1.mtime_ms == row.2)
}

fn tells_times<R: Threads + Abort + Sync>(rt: &HostRuntime, host: &R) -> bool {
    let tree = tree_at(rt, host, "crawl_times");
    let found = crawled(host, rt.alloc(), &tree, &Subtree::Whole, 1, &Open);
    drop(tree);
    let tells = are_times(found.listing.files());
    drop(found);
    tells
}

/// Sizes in bytes, and times in milliseconds; one before 1970 is 0.
#[test]
fn tells_sizes_and_times(rt: HostRuntime) {
    const MADE: &str =
        "rm -rf crawl_times && mkdir crawl_times && cd crawl_times && printf abc > new && : > old && \
        touch -d '2001-09-09 01:46:40.123456789 UTC' new && touch -d '1969-12-31 23:59:59 UTC' old";
    check!(rt; sh(&rt, &rt, MADE));
    check!(rt; tells_times(&rt, &rt));
    check!(rt; sh(&rt, &rt, "rm -rf crawl_times"));
}

/// Roots, and what is listed below them.
const ROOTS: &[(&str, &str)] = &[
    ("crawl_missing", ""),
    ("crawl_tops/d/f", ""),
    ("crawl_link", "d:d f:d/f l:l l:up "),
    ("crawl_tops", "d:d f:d/f l:l l:up "),
];

fn lists_below<R: Threads + Abort + Sync>(
    rt: &HostRuntime,
    host: &R,
    root: &str,
    wanted: &'static str,
) -> bool {
    let tree = tree_at(rt, host, root);
    let is_listed = lists(host, rt.alloc(), &tree, 1, ("", wanted, 0));
    drop(tree);
    is_listed
}

/// Parts of a root, and how many files are listed below them.
const PARTS: &[(&str, usize)] = &[
    ("d", 1),
    ("d/f", 0),
    ("l", 0),
    ("l/f", 0),
    ("up", 0),
    ("up/crawl_tops", 0),
    ("up/crawl_tops/d", 0),
    ("missing", 0),
    ("missing/too", 0),
];

fn counts_below<R: Threads + Abort + Sync>(
    rt: &HostRuntime,
    host: &R,
    tree: &FolderTree<HostRuntime>,
    top: &str,
    files: usize,
) -> bool {
    let top = part(host, rt.alloc(), top);
    let found = crawled(host, rt.alloc(), tree, &top, 1, &Open);
    drop(top);
    let counted = found.listing.files().len();
    drop(found);
    counted == files
}

fn assert_counts_below<R: Threads + Abort + Sync>(rt: &HostRuntime, host: &R) {
    let tree = tree_at(rt, host, "crawl_tops");
    for (top, files) in PARTS {
        check!(host; counts_below(rt, host, &tree, top, *files), top);
    }
    drop(tree);
}

/// A root that is missing, one that is a file, and one that a link leads to; parts that are missing, a
/// file, a link, and behind a link that leads up to the root again.
#[test]
fn lists_nothing_below_what_is_no_folder(rt: HostRuntime) {
    const MADE: &str =
        "rm -rf crawl_tops crawl_link && mkdir -p crawl_tops/d && : > crawl_tops/d/f && \
        ln -s d crawl_tops/l && ln -s .. crawl_tops/up && ln -s crawl_tops crawl_link";
    check!(rt; sh(&rt, &rt, MADE));
    for (root, wanted) in ROOTS {
        check!(rt; lists_below(&rt, &rt, root, wanted), root);
    }
    assert_counts_below(&rt, &rt);
    check!(rt; sh(&rt, &rt, "rm -rf crawl_tops crawl_link"));
}

/// Whether a crawl lists two files where all may be read, and else is refused.
fn goes_by_rights<R: Threads + Abort + Sync>(
    rt: &HostRuntime,
    host: &R,
    tree: &FolderTree<HostRuntime>,
    workers: usize,
    may_read: bool,
) -> bool {
    match tried(host, rt.alloc(), tree, &Subtree::Whole, workers, &Open) {
        Ok(found) => {
            let counted = found.listing.files().len();
            drop(found);
            may_read && counted == 2
        }
        Err(refused) => !may_read && matches!(refused, Refusal::DeviceFailed),
    }
}

fn assert_goes_by_rights<R: Threads + Abort + Sync>(rt: &HostRuntime, host: &R, may_read: bool) {
    let tree = tree_at(rt, host, "crawl_rights");
    for workers in &[1, 2] {
        check!(host; goes_by_rights(rt, host, &tree, *workers, may_read));
    }
    drop(tree);
}

/// Whoever may read all reads it, and for anybody else the crawl is refused whole.
#[test]
fn is_refused_where_rights_are_missing(rt: HostRuntime) {
    check!(rt; sh(
            &rt,
            &rt,
            "rm -rf crawl_rights && mkdir -p crawl_rights/a crawl_rights/b && chmod 000 crawl_rights/b"
        ));
    let may_read = sh(&rt, &rt, "ls crawl_rights/b 2>/dev/null");
    assert_goes_by_rights(&rt, &rt, may_read);
    check!(rt; sh(&rt, &rt, "chmod 755 crawl_rights/b && rm -rf crawl_rights"));
}

/// A gate that takes a folder away, as another program would, before it is read.
#[derive(Drop)]
struct Takes<'a> {
    rt: &'a HostRuntime,
}

impl Turnstile for Takes<'_> {
    fn pass(&self) {
        drop(fs::remove_dir(self.rt, "crawl_going/b"));
    }
}

/// What a crawl lists while a folder goes.
fn told_meanwhile<R: Threads + Abort + Sync>(
    rt: &HostRuntime,
    host: &R,
    tree: &FolderTree<HostRuntime>,
) -> String {
    let gate = Takes { rt };
    let found = crawled(host, rt.alloc(), tree, &Subtree::Whole, 1, &gate);
    let text = told(host, rt.alloc(), &found.listing);
    drop(found);
    text
}

fn assert_folder_goes<R: Threads + Abort + Sync>(
    rt: &HostRuntime,
    host: &R,
    tree: &FolderTree<HostRuntime>,
) {
    let text = told_meanwhile(rt, host, tree);
    check!(host; text.as_str() == "d:a f:a/f d:b ", text.as_str());
    drop(text);
    check!(host; lists(host, rt.alloc(), tree, 1, ("", "d:a f:a/f ", 0)));
}

#[test]
fn a_folder_may_go_while_it_is_read(rt: HostRuntime) {
    check!(rt; sh(
            &rt,
            &rt,
            "rm -rf crawl_going && mkdir -p crawl_going/a crawl_going/b && : > crawl_going/a/f"
        ));
    let tree = tree_at(&rt, &rt, "crawl_going");
    assert_folder_goes(&rt, &rt, &tree);
    drop(tree);
    check!(rt; sh(&rt, &rt, "rm -rf crawl_going"));
}
