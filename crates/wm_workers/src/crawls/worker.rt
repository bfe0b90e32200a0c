//! The worker that crawls a root when that is asked for.
//! Tests: serve_tests/src/crawls.rt.
ghost use Rattle.std.specs.Prelude.{◌≡◌, ◌↔◌, IsTrue, Err};

use super::folders::NotedFolders;
use crate::supervisor::Workers;
use std::alloc::Global;
use std::sync::Wait;
use std::thread::Threads;
use std::time::Clock;
use wm_crawler::{Folders, Turnstile};
use wm_disk::Refusal;
use wm_lines::Progress;
use wm_root::{BegunCrawl, CrawlTools, WatchedRoot};
use wm_share::Naming;

/// Whether a crawl that ended so is tried once more: it was overtaken.
fn is_overtaken(ended: &Result<Progress, Refusal>) -> bool
    ensures { IsTrue result ↔ (ended.now ≡ Err Refusal.BadClock) }
{
    matches!(ended, Err(Refusal::BadClock))
}

/// Reads the part of a crawl, as [`WatchedRoot::read`], and notifies the sessions that wait for changes of the root.
fn read<
    R: Threads + Wait + Sync,
    J: Naming,
    K: Wait + Drop,
    H: Workers<J, K>,
    F: Folders + Sync,
    G: Turnstile + Sync,
>(
    rt: &R,
    alloc: Global,
    workers: &H,
    tools: &CrawlTools<'_, F, G>,
    root: &WatchedRoot<J, K>,
    crawl: &mut BegunCrawl,
)
    requires { crawl.old.root ≡ root.now.number }
    ensures { crawl.new ≡ record crawl.old { ended = crawl.new.ended } }
{
    if let Some(changed) = root.read(rt, alloc, tools, workers, crawl) {
        workers.notify(rt, root, changed);
    }
}

/// Does a crawl that has begun. One that was overtaken is tried once more. How it failed is logged.
fn run_crawl<
    R: Threads + Wait + Clock + Sync,
    J: Naming,
    K: Wait + Drop,
    H: Workers<J, K>,
    F: Folders + Sync,
    G: Turnstile + Sync,
>(
    rt: &R,
    alloc: Global,
    workers: &H,
    tools: &CrawlTools<'_, F, G>,
    root: &WatchedRoot<J, K>,
    crawl: &mut BegunCrawl,
)
    requires { crawl.old.root ≡ root.now.number }
    ensures { crawl.new ≡ record crawl.old { ended = crawl.new.ended } }
{
    let folders = NotedFolders::new(rt, tools.folders);
    let tools = CrawlTools {
        folders: &folders,
        turnstile: tools.turnstile,
        workers: tools.workers,
    };
    read(rt, alloc, workers, &tools, root, crawl);
    if is_overtaken(&crawl.ended()) {
        read(rt, alloc, workers, &tools, root, crawl);
    }
    folders.log_end(alloc, workers.log(), &root.path, &crawl.ended());
}

/// Crawls a root each time that is asked for, until it has ended.
pub fn run_crawls<
    R: Threads + Wait + Clock + Sync,
    J: Naming,
    K: Wait + Drop,
    H: Workers<J, K>,
    F: Folders + Sync,
    G: Turnstile + Sync,
>(rt: &R, alloc: Global, workers: &H, tools: &CrawlTools<'_, F, G>, root: &WatchedRoot<J, K>) {
    for _ in rt.forever() {
        let Some(mut crawl) = root.next_crawl(rt) else {
            return;
        };
        run_crawl(rt, alloc, workers, tools, root, &mut crawl);
        root.crawled(rt, crawl);
    }
    unreachable!()
}
