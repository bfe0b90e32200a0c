//! What stands at paths, asked by several threads, and which of it is a folder.
//! Definitions: specs/Levels.antt. Tests: crawler_tests/src/crawls.rt.
ghost use Rattle.std.specs.Prelude.{◌≡◌, ◌≢◌, ◌<◌, ◌++◌, [], map, IfOk, IfErr, OnOk};
ghost use Rattle.std.specs.List.{cons_option};
ghost use Rattle.std.specs.Thread.{IsSync};
ghost use Rattle.wm_disk.specs.declared.refusal.Refusal.TheVariants.{DeviceFailed, NoMemory as no_memory};
ghost use Rattle.wm_names.specs.declared.subtree.Subtree.TheVariants.{Below};
ghost use Rattle.wm_crawler.specs.Trees.{is_folder as is_folder_lem, AreMetas, SomeFails};
ghost use Rattle.wm_crawler.specs.Levels.{paired_each as paired_each_lem, folder_at, folders, AreTold, AllAmong};

use crate::tree::Tree;
use std::alloc::Global;
use std::thread;
use std::thread::Threads;
use wm_disk::{NoMemory, Refusal};
use wm_names::{Kind, Meta, RelPath, Subtree};

/// How many paths a thread takes at least.
const SHARE: usize = 64;

/// What stands at each of the paths, asked by so many threads.
fn meta_all<R: Threads + Sync, T: Tree + Sync>(
    rt: &R,
    alloc: Global,
    tree: &T,
    paths: &[RelPath],
    workers: usize,
) -> Result<Vec<Option<Meta>>, Refusal>
    ensures read { IfOk result (λ v. T.stays tree.now → AreMetas (T.content tree.now) paths.now v.items) }
    ensures refused { IfErr result (λ e. e ≢ no_memory → (e ≡ DeviceFailed) × SomeFails (T.may_fail tree.now) (map Below paths.now)) }
{
    if workers < 2 || paths.len() < SHARE {
        return tree.metas(alloc, paths);
    }
    let (left, right) = paths.split_at(paths.len() / 2);
    let half = workers / 2;
    let rest = workers - half;
    let (front, back) = thread::join(
        rt,
        || -> Result<Vec<Option<Meta>>, Refusal>
            requires { IsSync R.row × IsSync T.row }
            ensures { IfOk result (λ v. T.stays tree.entry.now → AreMetas (T.content tree.entry.now) left.entry.now v.items)
                × IfErr result (λ e. e ≢ no_memory → (e ≡ DeviceFailed) × SomeFails (T.may_fail tree.entry.now) (map Below left.entry.now)) }
        { meta_all(rt, alloc, tree, left, half) },
        || -> Result<Vec<Option<Meta>>, Refusal>
            requires { IsSync R.row × IsSync T.row }
            ensures { IfOk result (λ v. T.stays tree.entry.now → AreMetas (T.content tree.entry.now) right.entry.now v.items)
                × IfErr result (λ e. e ≢ no_memory → (e ≡ DeviceFailed) × SomeFails (T.may_fail tree.entry.now) (map Below right.entry.now)) }
        { meta_all(rt, alloc, tree, right, rest) },
    );
    let mut all = front?;
    let mut more = back?;
    all.append(&mut more)?;
    Ok(all)
}

/// Each path with what stands there, where something does. The paths move, so that none is copied.
fn paired_each(
    alloc: Global,
    paths: Vec<RelPath>,
    metas: Vec<Option<Meta>>,
) -> Result<Vec<(RelPath, Meta)>, NoMemory>
    ensures { IfOk result (λ v. v.items ≡ paired_each_lem paths.items metas.items) }
{
    let mut found = Vec::with_capacity(alloc, paths.len())?;
    for (path, there) in paths.into_iter().zip(metas) {
        if let Some(meta) = there {
            found.push((path, meta))?;
        }
    }
    Ok(found)
}

/// The paths at which something is, with its metadata, asked by so many threads.
pub(crate) fn told_all<R: Threads + Sync, T: Tree + Sync>(
    rt: &R,
    alloc: Global,
    tree: &T,
    paths: Vec<RelPath>,
    workers: usize,
) -> Result<Vec<(RelPath, Meta)>, Refusal>
    ensures read { IfOk result (λ v. T.stays tree.now → AreTold (T.content tree.now) paths.items v.items) }
    ensures among { IfOk result (λ v. AllAmong paths.items v.items) }
    ensures refused { IfErr result (λ e. e ≢ no_memory → (e ≡ DeviceFailed) × SomeFails (T.may_fail tree.now) (map Below paths.items)) }
{
    let metas = meta_all(rt, alloc, tree, &paths, workers)?;
    let found = paired_each(alloc, paths, metas)?;
    Ok(found)
}

/// Whether this is a folder.
pub(crate) fn is_folder(meta: &Meta) -> bool
    ensures { result ≡ is_folder_lem meta.now }
{
    meta.kind.same(Kind::Folder)
}

/// Adds what was found, where it is a folder.
fn add_folder(out: &mut Vec<Subtree>, entry: &(RelPath, Meta)) -> Result<(), NoMemory>
    ensures { OnOk result (out.new.items ≡ out.old.items ++ cons_option (folder_at entry.now) []) }
{
    if is_folder(&entry.1) {
        let path = entry.0.copy()?;
        out.push(Subtree::Below(path))?;
    }
    Ok(())
}

/// The folders among what was found.
#[tactic(auto, using(crate::proofs::Steps::one_more))]
pub(crate) fn folders_of(alloc: Global, found: &[(RelPath, Meta)]) -> Result<Vec<Subtree>, NoMemory>
    ensures { IfOk result (λ v. v.items ≡ folders found.now) }
{
    let mut out = Vec::new(alloc);
    for entry in found {
        add_folder(&mut out, entry)?;
    }
    Ok(out)
}
