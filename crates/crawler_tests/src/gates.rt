//! Gates: how often they are passed, and that two workers are at work at once.
use crate::checks::check;
use crate::trees::{Folder, crawled, tree_of};
use std::alloc::Global;
use std::process::Abort;
use std::sync::atomic::{AtomicBool, AtomicU64, Ordering};
use std::thread::Threads;
use wm_crawler::{MemTree, Turnstile};
use wm_names::{Kind, Subtree};

/// A gate that counts.
#[derive(Drop)]
struct Counted {
    passed: AtomicU64,
}

impl Turnstile for Counted {
    fn pass(&self) {
        self.passed.fetch_add(1, Ordering::SeqCst);
    }
}

/// How often the gate is passed in a crawl by so many workers.
fn passed<R: Threads + Abort + Sync>(rt: &R, alloc: Global, tree: &MemTree, workers: usize) -> u64 {
    let gate = Counted {
        passed: AtomicU64::new(0),
    };
    let found = crawled(rt, alloc, tree, &Subtree::Whole, workers, &gate);
    drop(found);
    let times = gate.passed.load(Ordering::SeqCst);
    drop(gate);
    times
}

const FOLDERS: &[Folder<'static>] = &[("", "a|b|c|f", 0), ("b", "d", 0), ("b/d", "e", 0)];

const FILES: &[(&str, Kind)] = &[
    ("a", Kind::Folder),
    ("b", Kind::Folder),
    ("b/d", Kind::Folder),
    ("b/d/e", Kind::File),
    ("c", Kind::Link),
    ("f", Kind::File),
];

/// So many workers.
const NUMBERS: &[usize] = &[1, 2, 4, 16];

/// One for each folder that is entered below the top: the top itself doesn't pass.
#[test]
fn is_passed_once_for_each_folder_below_the_top(rt: HostRuntime) {
    let tree = tree_of(&rt, rt.alloc(), FOLDERS, FILES);
    for workers in NUMBERS {
        let times = passed(&rt, rt.alloc(), &tree, *workers);
        check!(rt; times == 3, (workers, times));
    }
    drop(tree);
}

/// A gate that holds the first reading back until the second was let through.
#[derive(Drop)]
struct Meeting {
    calls: AtomicU64,
    second_is_through: AtomicBool,
    gave_up: AtomicBool,
}

/// So often the first one looks for the second.
const TURNS: u64 = 100_000_000;

impl Turnstile for Meeting {
    fn pass(&self) {
        if self.calls.fetch_add(1, Ordering::SeqCst) > 0 {
            self.second_is_through.store(true, Ordering::SeqCst);
            return;
        }
        for _ in 0..TURNS {
            if self.second_is_through.load(Ordering::SeqCst) {
                return;
            }
        }
        self.gave_up.store(true, Ordering::SeqCst);
    }
}

/// How many files two workers find who pass the gate.
fn found_by_two<R: Threads + Abort + Sync>(
    rt: &R,
    alloc: Global,
    tree: &MemTree,
    gate: &Meeting,
) -> usize {
    let found = crawled(rt, alloc, tree, &Subtree::Whole, 2, gate);
    let counted = found.listing.files().len();
    drop(found);
    counted
}

/// Two workers read the folders x and y at once: by one alone the first reading would never be let through.
#[test]
fn two_crawlers_meet(rt: HostRuntime) {
    let tree = tree_of(
        &rt,
        rt.alloc(),
        &[("", "x|y", 0)],
        &[("x", Kind::Folder), ("y", Kind::Folder)],
    );
    let gate = Meeting {
        calls: AtomicU64::new(0),
        second_is_through: AtomicBool::new(false),
        gave_up: AtomicBool::new(false),
    };
    let found = found_by_two(&rt, rt.alloc(), &tree, &gate);
    drop(tree);
    check!(rt; found == 2, found);
    check!(rt; !gate.gave_up.load(Ordering::SeqCst));
    drop(gate);
}
