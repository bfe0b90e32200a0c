//! Crawls of a root whose clients report what they saw while it is read, in an order that a seed draws, beside a model.
ghost use Rattle.std.specs.Prelude.{◌≡◌, ⊤};

mod clients;
mod model;

use crate::checks::check;
use crate::roots::{ALWAYS, NEVER, opened_root};
use clients::Clients;
use model::{POOL, Report, RootModel};
use std::alloc::{Alloc, Global};
use std::marker::Brand;
use std::process::Abort;
use std::sync::{Mutex, Wait};
use std::thread::{Threads, join};
use wm_crawler::{Dir, Folders, Open};
use wm_disk::{NoMemory, Refusal};
use wm_lines::Progress;
use wm_names::{Kind, Meta, RelPath, RootPath, Subtree};
use wm_root::{BegunCrawl, CrawlTools, WatchedRoot};
use wm_share::{Naming, Opened, Shares};

/// How many histories there are, and how many crawls each has.
const SEEDS: u64 = 30;

const CRAWLS: u64 = 8;

/// The folder of a root. Before and after each reading of it some steps of the clients are taken.
#[derive(Drop)]
struct Stage<'a, J: Naming, R, K: Wait + Drop> {
    rt: &'a R,
    root: &'a WatchedRoot<J, K>,
    clients: Mutex<Clients<J>>,
}

/// The part's name of a path that stands in the folder itself.
fn name_in(folder: &Subtree, path: &'static str) -> Option<&'static str> {
    match folder {
        Subtree::Whole if !path.contains("/") => Some(path),
        Subtree::Below(top) if top.as_str() == "d" => path.strip_prefix("d/"),
        _ => None,
    }
}

impl<J: Naming> Clients<J> {
    /// The names in a folder now.
    fn names(&mut self, alloc: Global, folder: &Subtree) -> Result<Dir, NoMemory> {
        let mut dir = Dir::new(alloc);
        for (path, text) in POOL.iter().enumerate() {
            if let Some(name) = name_in(folder, text)
                && self.model.folder(path).is_some()
            {
                dir.add(alloc, name)?;
            }
        }
        Ok(dir)
    }

    /// What stands at a path now, which the crawl has read then.
    fn read(&mut self, path: &RelPath) -> Option<Meta> {
        let place = POOL.iter().position(|text| *text == path.as_str())?;
        let state = self.model.folder(place);
        self.model.read(place, state);
        Some(Meta {
            kind: if place == 2 { Kind::Folder } else { Kind::File },
            size: state?,
            mtime_ms: 0,
        })
    }
}

impl<J: Naming, R: Wait + Abort, K: Wait + Drop> Stage<'_, J, R, K> {
    /// Steps of the clients before a reading. Whether the reading fails, which it does once in a while.
    fn fails(&self, alloc: Global) -> bool {
        let mut clients = self.clients.lock(self.rt);
        clients.steps(self.rt, alloc, self.root);
        clients.has_failed = clients.once_in(150);
        clients.has_failed
    }

    /// What stands at a path, with steps of the clients before and behind.
    fn look(&self, alloc: Global, path: &RelPath) -> Option<Meta> {
        let mut clients = self.clients.lock(self.rt);
        clients.steps(self.rt, alloc, self.root);
        let meta = clients.read(path);
        clients.steps(self.rt, alloc, self.root);
        drop(clients);
        meta
    }

    /// Steps of the clients behind a reading.
    fn go_on(&self, alloc: Global) {
        let mut clients = self.clients.lock(self.rt);
        clients.steps(self.rt, alloc, self.root);
    }
}

impl<J: Naming, R: Wait + Abort, K: Wait + Drop> Folders for Stage<'_, J, R, K> {
    ghost use Rattle.wm_crawler.specs.Trees.{nothing_known};

    ghost content = { λ _ _. nothing_known };

    ghost stays = { λ _. ⊥ };

    ghost may_fail = { λ _ _ _. ⊤ };

    fn read_dir(
        &self,
        alloc: Global,
        _root: &RootPath,
        folder: &Subtree,
    ) -> Result<Option<Dir>, Refusal> {
        if self.fails(alloc) {
            return Err(Refusal::DeviceFailed);
        }
        let dir = self.clients.lock(self.rt).names(alloc, folder)?;
        self.go_on(alloc);
        Ok(Some(dir))
    }

    fn meta(
        &self,
        alloc: Global,
        _root: &RootPath,
        path: &RelPath,
    ) -> Result<Option<Meta>, Refusal> {
        if self.fails(alloc) {
            return Err(Refusal::DeviceFailed);
        }
        Ok(self.look(alloc, path))
    }

    fn metas(
        &self,
        alloc: Global,
        _root: &RootPath,
        paths: &[RelPath],
    ) -> Result<Vec<Option<Meta>>, Refusal> {
        let mut metas = Vec::with_capacity(alloc, paths.len())?;
        for path in paths {
            metas.push(self.look(alloc, path))?;
        }
        Ok(metas)
    }
}

/// How a crawl ends by the model, and where the view stands then.
fn model_end<J: Naming>(clients: &mut Clients<J>, is_whole: bool) -> Result<(u64, u64), Refusal> {
    if clients.has_failed {
        return Err(Refusal::DeviceFailed);
    }
    clients.model.recrawl(is_whole)?;
    Ok((clients.model.tick(), clients.model.floor()))
}

/// Where a view stands, or why a crawl was refused.
fn standing(ended: Result<Progress, Refusal>) -> Result<(u64, u64), Refusal> {
    let progress = ended?;
    Ok((progress.clock.tick, progress.floor))
}

/// Reads the part of a crawl once, and asserts that it ends as the model, and that the view is the model's.
fn read_once<
    J: Naming + Send + Sync,
    R: Threads + Wait + Abort + Sync,
    K: Wait + Send + Sync + Drop,
>(alloc: Global, stage: &Stage<'_, J, R, K>, crawl: &mut BegunCrawl)
    requires { crawl.old.root ≡ stage.now.root.now.number }
    ensures { crawl.new.root ≡ crawl.old.root }
{
    let tools = CrawlTools {
        folders: stage,
        turnstile: &Open,
        workers: 1,
    };
    stage.clients.lock(stage.rt).model.begin();
    if let Some(changed) = stage.root.read(stage.rt, alloc, &tools, &ALWAYS, crawl) {
        changed.into_forgot();
    }
    let ended = standing(crawl.ended());
    let mut clients = stage.clients.lock(stage.rt);
    let wanted = model_end(&mut clients, crawl.subtree().is_whole());
    check!(stage.rt; ended == wanted, (&ended, &wanted));
    clients.assert_view(stage.rt, alloc, stage.root);
}

/// Does the next crawl that is asked for, and once more if that was overtaken, as the root's crawl worker does. How it ended.
fn do_next<J: Naming + Send + Sync, R: Threads + Wait + Abort + Sync, K: Wait + Send + Sync + Drop>(
    alloc: Global,
    stage: &Stage<'_, J, R, K>,
) -> Result<(u64, u64), Refusal> {
    let Some(mut crawl) = stage.root.next_crawl(stage.rt) else {
        return Err(Refusal::NotWatched);
    };
    read_once(alloc, stage, &mut crawl);
    if matches!(crawl.ended(), Err(Refusal::BadClock)) {
        read_once(alloc, stage, &mut crawl);
    }
    let ended = standing(crawl.ended());
    stage.root.crawled(stage.rt, crawl);
    ended
}

/// Asks for a crawl of a part, and waits for it. How it ended.
fn ask<J: Naming, R: Wait, K: Wait + Drop>(
    rt: &R,
    root: &WatchedRoot<J, K>,
    part: &Subtree,
) -> Result<(u64, u64), Refusal> {
    let crawled = root.crawl(rt, part)?;
    standing(crawled.into_ended())
}

/// How often a path wasn't as in the folder after a crawl, though it had changed last before that was asked for.
#[derive(Clone, Copy)]
struct Counts {
    observed: u64,
    changed: u64,
    listed: u64,
}

impl Counts {
    fn add(&mut self, model: &RootModel, is_whole: bool) {
        let stale = |report| model.stale(is_whole, Some(report));
        self.observed = self.observed.saturating_add(stale(Report::Observed));
        self.changed = self.changed.saturating_add(stale(Report::Changed));
        self.listed = self.listed.saturating_add(stale(Report::Listed));
    }
}

/// Asks for a crawl of a part, and does it. A path that changed last before that is then as in the folder, unless a client reported it
/// meanwhile.
fn recrawl<J: Naming + Send + Sync, R: Threads + Wait + Abort + Sync, K: Wait + Send + Sync + Drop>(
    alloc: Global,
    stage: &Stage<'_, J, R, K>,
    counts: &mut Counts,
) {
    let is_whole = !stage.clients.lock(stage.rt).once_in(4);
    let part = if is_whole {
        Subtree::Whole
    } else {
        Subtree::Below(RelPath::read(alloc, "d").expect(stage.rt, "a path"))
    };
    let (asked, ended) = join(
        stage.rt,
        || ask(stage.rt, stage.root, &part),
        || do_next(alloc, stage),
    );
    drop(part);
    check!(stage.rt; asked == ended, (&asked, &ended));
    if ended.is_ok() {
        let clients = stage.clients.lock(stage.rt);
        check!(stage.rt; clients.model.stale(is_whole, None) == 0);
        counts.add(&clients.model, is_whole);
    }
}

/// Ends the crawl that a new root begins with, which reads nothing.
fn end_first<J: Naming, R: Wait, K: Wait + Drop>(rt: &R, root: &WatchedRoot<J, K>) {
    if let Some(crawl) = root.next_crawl(rt) {
        root.crawled(rt, crawl);
    }
}

/// A history of a new root, by a seed.
fn goes_by<J: Naming + Send + Sync, R: Threads + Wait + Abort + Sync>(
    rt: &R,
    alloc: Global,
    seed: u64,
    counts: &mut Counts,
    opened: Opened,
)
    requires { opened.seen.book ≡ J.book }
{
    let shares: Shares<J> = Shares::new(opened);
    let root = opened_root(rt, alloc, shares, NEVER);
    end_first(rt, &root);
    let stage = Stage {
        rt,
        root: &root,
        clients: Mutex::new(Clients::new(alloc, seed)),
    };
    for _ in 0..CRAWLS {
        for _ in 0..6 {
            stage.go_on(alloc);
        }
        recrawl(alloc, &stage, counts);
    }
    drop(stage);
    drop(root);
}

/// A crawl changes no path that was observed, or changed by a listing, while it read, though what was reported may be older than what
/// it read; and of all other paths it reports what it read.
#[test]
fn crawls_keep_what_is_reported_meanwhile(rt: HostRuntime) {
    let mut counts = Counts {
        observed: 0,
        changed: 0,
        listed: 0,
    };
    for seed in 0..SEEDS {
        goes_by::<Brand, _>(&rt, rt.alloc(), seed, &mut counts, Opened::new());
    }
    let Counts {
        observed,
        changed,
        listed,
    } = counts;
    check!(rt; observed > 0 && changed > 0 && listed > 0, (observed, changed, listed));
}
