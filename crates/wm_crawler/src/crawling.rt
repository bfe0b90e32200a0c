//! The crawl, level by level.
//! Definitions: specs/Crawls.antt, specs/Levels.antt. Tests: crawler_tests/src/crawls.rt.
ghost use Rattle.std.specs.Prelude.{◌≡◌, ◌≢◌, ◌<◌, ◌≤◌, ◌∷◌, [], IfOk, IfErr};
ghost use Rattle.wm_disk.specs.declared.refusal.Refusal.TheVariants.{DeviceFailed, NoMemory as no_memory};
ghost use Rattle.wm_crawler.specs.Crawls.{AreReadable, FailsBelow, FailsIn, IsCrawl, IsReadable, ListsBelow, faults_below, crawl_faults, max_workers};
ghost use Rattle.wm_crawler.specs.Levels.{AreLevels, AreRead, AllIn, IsOneLevel};

use crate::gate::Turnstile;
use crate::listed::listed;
use crate::reading::{Level, read_all, read_folder};
use crate::telling::{folders_of, told_all};
use crate::top::has_top;
use crate::tree::Tree;
use std::alloc::Global;
use std::thread::Threads;
use wm_disk::{NoMemory, Refusal};
use wm_names::{MAX_REL_PATH, Meta, RelPath, Subtree};
use wm_view::Listing;

/// The most workers of a crawl.
pub const MAX_WORKERS: usize = 16;

/// What a crawl found, and how many names it left out, since they aren't text or break the rules of paths.
#[derive(Drop)]
pub struct Crawled {
    pub listing: Listing,
    /// Counted up to 2^64 - 1.
    pub faults: u64,
}

/// What stands at these paths, and the paths of the level below.
fn read_level<R: Threads + Sync, T: Tree + Sync, G: Turnstile + Sync>(
    rt: &R,
    alloc: Global,
    tree: &T,
    level: Level,
    workers: usize,
    gate: &G,
) -> Result<(Vec<(RelPath, Meta)>, Level), Refusal>
    ensures read { IfOk result (λ v. T.stays tree.now → IsOneLevel (T.content tree.now) level.paths.items level.faults v.0.items v.1.paths.items v.1.faults) }
    ensures inside { IfOk result (λ v. (top : Subtree) → AllIn top level.paths.items → AllIn top v.1.paths.items) }
    ensures refused { IfErr result (λ e. e ≢ no_memory → (e ≡ DeviceFailed)
        × ((top : Subtree) → AllIn top level.paths.items → FailsBelow (T.may_fail tree.now) top)) }
{
    let Level { paths, faults } = level;
    let found = told_all(rt, alloc, tree, paths, workers)?;
    let folders = folders_of(alloc, &found)?;
    let next = read_all(rt, alloc, tree, &folders, gate, workers)?;
    let next = Level {
        paths: next.paths,
        faults: faults.saturating_add(next.faults),
    };
    Ok((found, next))
}

/// What stands at these paths and below them, and how many names of theirs are no paths.
fn read_levels<R: Threads + Sync, T: Tree + Sync, G: Turnstile + Sync>(
    rt: &R,
    alloc: Global,
    tree: &T,
    first: Level,
    workers: usize,
    gate: &G,
) -> Result<(Vec<(RelPath, Meta)>, u64), Refusal>
    ensures read { IfOk result (λ v. T.stays tree.now → AreLevels (T.content tree.now) 1024 first.paths.items first.faults v.0.items v.1) }
    ensures refused { IfErr result (λ e. e ≢ no_memory → (e ≡ DeviceFailed)
        × ((top : Subtree) → AllIn top first.paths.items → FailsBelow (T.may_fail tree.now) top)) }
{
    let mut level = first;
    let mut files = Vec::new(alloc);
    for _ in 0..MAX_REL_PATH {
        let (mut found, next) = read_level(rt, alloc, tree, level, workers, gate)?;
        files.append(&mut found)?;
        level = next;
        if level.paths.is_empty() {
            return Ok((files, level.faults));
        }
    }
    Ok((files, level.faults))
}

/// The paths of what the top of the part holds.
fn read_top<T: Tree>(alloc: Global, tree: &T, top: &Subtree) -> Result<Level, Refusal>
    ensures read { IfOk result (λ v. T.stays tree.now → AreRead (T.content tree.now) (top.now ∷ []) v.paths.items v.faults) }
    ensures inside { IfOk result (λ v. AllIn top.now v.paths.items) }
    ensures refused { IfErr result (λ e. e ≢ no_memory → (e ≡ DeviceFailed) × T.may_fail tree.now top.now) }
{
    let mut first = Level {
        paths: Vec::new(alloc),
        faults: 0,
    };
    read_folder(alloc, tree, top, &mut first)?;
    Ok(first)
}

/// Reads everything below the top of the part.
fn crawl_below<R: Threads + Sync, T: Tree + Sync, G: Turnstile + Sync>(
    rt: &R,
    alloc: Global,
    tree: &T,
    subtree: &Subtree,
    workers: usize,
    gate: &G,
) -> Result<Crawled, Refusal>
    ensures part { IfOk result (λ c. c.listing.subtree ≡ subtree.now) }
    ensures files { IfOk result (λ c. T.stays tree.now → ListsBelow (T.content tree.now) subtree.now c.listing.files) }
    ensures faults { IfOk result (λ c. T.stays tree.now → c.faults ≡ faults_below (T.content tree.now) subtree.now) }
    ensures whole { IfOk result (λ _. T.stays tree.now → AreReadable (T.content tree.now) subtree.now) }
    ensures refused { IfErr result (λ e. e ≢ no_memory → (e ≡ DeviceFailed) × FailsBelow (T.may_fail tree.now) subtree.now) }
{
    let first = read_top(alloc, tree, subtree)?;
    let (mut files, faults) = read_levels(rt, alloc, tree, first, workers, gate)?;
    files.sort_by(|a, b| a.0.compare(&b.0))?;
    let subtree = subtree.copy()?;
    let listing = listed(alloc, subtree, files)?;
    Ok(Crawled { listing, faults })
}

/// What a crawl of a part without a top finds.
fn nothing(alloc: Global, subtree: &Subtree) -> Result<Crawled, NoMemory>
    ensures { IfOk result (λ c. (c.listing ≡ record { subtree = subtree.now; files = [] }) × (c.faults ≡ 0)) }
{
    let subtree = subtree.copy()?;
    Ok(Crawled {
        listing: Listing::new(alloc, subtree),
        faults: 0,
    })
}

/// Reads everything below the top of the part, by so many threads: each path once, with its metadata.
/// Folders are entered and links aren't, and a name that vanished meanwhile is left out. A part whose top
/// isn't there, is no folder, or stands behind a link below the root has no top, and nothing is listed.
/// Names that aren't text, and those whose path would break the rules of paths, are counted and not entered.
///
/// It is Ok only where everything was read. `DeviceFailed` where the tree couldn't read a folder or tell
/// what stands at a path, also at one that leads to the top, and `NoMemory`; the gate was then passed for
/// some of the folders.
pub fn crawl<R: Threads + Sync, T: Tree + Sync, G: Turnstile + Sync>(
    rt: &R,
    alloc: Global,
    tree: &T,
    subtree: &Subtree,
    workers: usize,
    gate: &G,
) -> Result<Crawled, Refusal>
    requires { (1 ≤ workers) × (workers ≤ max_workers) }
    ensures part { IfOk result (λ c. c.listing.subtree ≡ subtree.now) }
    ensures files { IfOk result (λ c. T.stays tree.now → IsCrawl (T.content tree.now) subtree.now c.listing.files) }
    ensures faults { IfOk result (λ c. T.stays tree.now → c.faults ≡ crawl_faults (T.content tree.now) subtree.now) }
    ensures whole { IfOk result (λ _. T.stays tree.now → IsReadable (T.content tree.now) subtree.now) }
    ensures refused { IfErr result (λ e. e ≢ no_memory → (e ≡ DeviceFailed) × FailsIn (T.may_fail tree.now) subtree.now) }
{
    if !has_top(alloc, tree, subtree)? {
        let none = nothing(alloc, subtree)?;
        return Ok(none);
    }
    let found = crawl_below(rt, alloc, tree, subtree, workers, gate)?;
    Ok(found)
}
