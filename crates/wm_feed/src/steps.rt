//! The order in which a batch is told. A folder is read before what is known to have changed behind it is told. Definitions: specs/Steps.antt.
//! Tests: feed_tests/src/steps.rt.

ghost use Rattle.std.specs.Prelude.{◌≡◌, ◌++◌, ◌∷◌, [], List, IfOk, OnOk, MatchOption, map, length, nat_lt, true, false};
ghost use Rattle.std.specs.List.Sorted.{IsStrictlySortedBy};
ghost use Rattle.wm_names.specs.Paths.{Path, path_cmp};
ghost use Rattle.wm_feed.specs.Laws.{is_asked_path};
ghost use Rattle.wm_feed.specs.Steps.{AsksInOrder, InLists, crawl, is_below_any as is_below_any_lem, is_crawled, is_reached, is_wide, observe, outside as outside_lem, step_in, tops};
ghost use Rattle.wm_names.specs.declared.subtree.Subtree.TheVariants.{Below, Whole};

use crate::batch::Batch;
use crate::paths::listed;
use std::alloc::Global;
use wm_disk::NoMemory;
use wm_names::{RelPath, Subtree};

/// The most folders of a batch that are crawled by themselves: of more the whole root is.
pub const MAX_CRAWLS: usize = 1_024;

/// The most paths that are looked up and told together.
pub const MAX_OBSERVED: usize = 4_096;

/// What is to be asked of the server next.
#[derive(Drop)]
pub enum Step {
    /// A crawl of this part: what stands below a folder, at any depth, and not the folder itself.
    Crawl(Subtree),
    /// What stands at these paths, at most 4,096 of them.
    Observe(Vec<RelPath>),
}

/// Whether a path stands below one of these folders.
fn is_below_any(path: &RelPath, tops: &[RelPath]) -> bool
    ensures { result ≡ is_below_any_lem path.now tops.now }
{
    tops.iter().any(|top| path.under(top))
}

/// The folders that stand below no other one of these; `None` if they are more than are crawled by themselves.
fn tops_of(alloc: Global, folders: &[RelPath]) -> Result<Option<Vec<RelPath>>, NoMemory>
    requires { IsStrictlySortedBy path_cmp folders.now }
    ensures { IfOk result (λ o. MatchOption o (nat_lt 1024 (length (tops folders.now)) ≡ true) (λ v. (v.items ≡ tops folders.now) × (nat_lt 1024 (length (tops folders.now)) ≡ false) × ((p : Path) → is_below_any_lem p v.items ≡ is_below_any_lem p folders.now))) }
{
    let mut tops = Vec::new(alloc);
    for folder in folders {
        if is_below_any(folder, &tops) {
            continue;
        }
        if tops.len() >= MAX_CRAWLS {
            return Ok(None);
        }
        tops.push(folder.copy()?)?;
    }
    Ok(Some(tops))
}

/// The folders of a batch that are to be crawled; `None` if the whole root is.
fn crawled(alloc: Global, batch: &Batch) -> Result<Option<Vec<RelPath>>, NoMemory>
    ensures { IfOk result (λ o. MatchOption o (is_wide batch.now ≡ true) (λ v. (v.items ≡ tops batch.now.folders) × (is_wide batch.now ≡ false) × ((p : Path) → is_below_any_lem p v.items ≡ is_below_any_lem p batch.now.folders))) }
{
    if batch.is_whole() {
        return Ok(None);
    }
    let folders = listed(alloc, batch.folders())?;
    tops_of(alloc, &folders)
}

/// The paths that stand below none of these folders, in their order.
fn outside(alloc: Global, paths: &[RelPath], tops: &[RelPath]) -> Result<Vec<RelPath>, NoMemory>
    ensures { IfOk result (λ v. v.items ≡ outside_lem tops.now paths.now) }
{
    let mut left = Vec::new(alloc);
    for path in paths {
        if !is_below_any(path, tops) {
            left.push(path.copy()?)?;
        }
    }
    Ok(left)
}

/// The same paths again.
fn copies(alloc: Global, paths: &[RelPath]) -> Result<Vec<RelPath>, NoMemory>
    ensures { IfOk result (λ v. v.items ≡ paths.now) }
{
    let mut copies = Vec::with_capacity(alloc, paths.len())?;
    for path in paths {
        copies.push(path.copy()?)?;
    }
    Ok(copies)
}

/// Adds a crawl of each of these folders.
fn add_crawls(steps: &mut Vec<Step>, tops: &[RelPath]) -> Result<(), NoMemory>
    ensures { OnOk result (map step_in steps.new.items ≡ map step_in steps.old.items ++ map (λ top. crawl (Below top)) tops.now) }
{
    for top in tops {
        steps.push(Step::Crawl(Subtree::Below(top.copy()?)))?;
    }
    Ok(())
}

/// Adds that these paths are looked up, in lists of at most 4,096.
fn add_observes(alloc: Global, steps: &mut Vec<Step>, paths: &[RelPath]) -> Result<(), NoMemory>
    ensures { OnOk result ((lists : List (List Path)) × (map step_in steps.new.items ≡ map step_in steps.old.items ++ map (λ list. observe list) lists) × InLists paths.now lists) }
{
    let mut rest = paths;
    while !rest.is_empty() {
        let (list, others) = rest.split_at(rest.len().min(MAX_OBSERVED));
        steps.push(Step::Observe(copies(alloc, list)?))?;
        rest = others;
    }
    Ok(())
}

/// The steps of a batch of which these folders are crawled.
fn steps_below(alloc: Global, batch: &Batch, tops: &[RelPath]) -> Result<Vec<Step>, NoMemory>
    ensures steps { IfOk result (λ v. (lists : List (List Path)) × (map step_in v.items ≡ map (λ top. crawl (Below top)) tops.now ++ map (λ list. observe list) lists) × InLists (outside_lem tops.now batch.now.paths) lists) }
    ensures reached { IfOk result (λ v. (p : Path) → is_asked_path p batch.now.paths ≡ true → is_reached p (map step_in v.items) ≡ true) }
    ensures content { IfOk result (λ v. (p : Path) → is_below_any_lem p tops.now ≡ true → is_crawled p (map step_in v.items) ≡ true) }
{
    let mut steps = Vec::new(alloc);
    add_crawls(&mut steps, tops)?;
    let paths = listed(alloc, batch.paths())?;
    let paths = outside(alloc, &paths, tops)?;
    add_observes(alloc, &mut steps, &paths)?;
    Ok(steps)
}

/// A crawl of the whole root.
fn whole_root(alloc: Global) -> Result<Vec<Step>, NoMemory>
    ensures { IfOk result (λ v. map step_in v.items ≡ crawl Whole ∷ []) }
{
    let mut steps = Vec::new(alloc);
    steps.push(Step::Crawl(Subtree::Whole))?;
    Ok(steps)
}

/// What is to be asked of the server for a batch, in this order: a crawl of each folder of the batch that stands below no other one of
/// them, and then what stands at each path that isn't below one of these. A crawl doesn't tell of the folder itself, so that its own
/// path is looked up if the batch has it. If the batch is whole, or more than 1,024 folders are to be crawled, the whole root is crawled
/// and nothing else is asked. `NoMemory`.
pub fn steps_of(alloc: Global, batch: &Batch) -> Result<Vec<Step>, NoMemory>
    ensures steps { IfOk result (λ v. AsksInOrder batch.now (map step_in v.items)) }
    ensures reached { IfOk result (λ v. (p : Path) → is_asked_path p batch.now.paths ≡ true → is_reached p (map step_in v.items) ≡ true) }
    ensures content { IfOk result (λ v. (p : Path) → is_below_any_lem p batch.now.folders ≡ true → is_crawled p (map step_in v.items) ≡ true) }
{
    match crawled(alloc, batch)? {
        Some(tops) => steps_below(alloc, batch, &tops),
        None => whole_root(alloc),
    }
}
