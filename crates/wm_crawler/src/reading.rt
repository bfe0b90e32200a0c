//! Folders read by several threads: the paths of what they hold.
//! Definitions: specs/Levels.antt. Tests: crawler_tests/src/crawls.rt.
ghost use Rattle.std.specs.Prelude.{◌∷◌, ◌≡◌, ◌≢◌, ◌+◌, ◌-◌, ◌<◌, ◌++◌, [], List, Some, not, is_some, IfOk, IfErr, OnOk, true};
ghost use Rattle.std.specs.List.{cons_option, count_by, filter_map};
ghost use Rattle.std.specs.Thread.{IsSync};
ghost use Rattle.wm_disk.specs.declared.refusal.Refusal.TheVariants.{DeviceFailed, NoMemory as no_memory};
ghost use Rattle.wm_names.specs.Paths.{Path};
ghost use Rattle.wm_names.specs.Entries.{is_fit, join};
ghost use Rattle.wm_crawler.specs.Trees.{names_held, others_held, unfit_in, SomeFails};
ghost use Rattle.wm_crawler.specs.Levels.{path_of, paths_in, counted, AreRead, AllFrom};

use crate::dir::Dir;
use crate::gate::Turnstile;
use crate::name::Name;
use crate::tree::Tree;
use std::alloc::Global;
use std::thread;
use std::thread::Threads;
use wm_disk::{NoMemory, Refusal};
use wm_names::{RelPath, Subtree};

/// The paths of what folders hold, and how many of their names are no paths.
#[derive(Drop)]
pub(crate) struct Level {
    pub(crate) paths: Vec<RelPath>,
    pub(crate) faults: u64,
}

/// Adds the path of a name, where it fits.
fn add_name(alloc: Global, level: &mut Level, folder: &Subtree, name: &str) -> Result<(), NoMemory>
    ensures paths { OnOk result (level.new.paths.items ≡ level.old.paths.items ++ cons_option (path_of folder.now name.now) []) }
    ensures faults { OnOk result (level.new.faults ≡ counted (level.old.faults + count_by (λ n. not (is_fit folder.now n)) (name.now ∷ []))) }
{
    let faults = level.faults;
    match folder.join(alloc, name) {
        Ok(path) => level.paths.push(path)?,
        Err(Refusal::NoMemory) => return Err(NoMemory),
        Err(_) => level.faults = faults.saturating_add(1),
    }
    Ok(())
}

/// Adds the paths of the names that fit.
#[tactic(auto, using(crate::proofs::Steps::one_more))]
fn add_names(
    alloc: Global,
    level: &mut Level,
    folder: &Subtree,
    names: &[Name],
) -> Result<(), NoMemory>
    ensures paths { OnOk result (level.new.paths.items ≡ level.old.paths.items ++ filter_map (path_of folder.now) names.now) }
    ensures faults { OnOk result (level.new.faults ≡ counted (level.old.faults + count_by (λ n. not (is_fit folder.now n)) names.now)) }
{
    for name in names {
        add_name(alloc, level, folder, name.as_str())?;
    }
    Ok(())
}

/// Adds the paths of what was read of a folder.
fn add_dir(alloc: Global, level: &mut Level, folder: &Subtree, dir: &Dir) -> Result<(), NoMemory>
    ensures paths { OnOk result (level.new.paths.items ≡ level.old.paths.items ++ filter_map (path_of folder.now) dir.now.names) }
    ensures faults { OnOk result (level.new.faults ≡ counted (level.old.faults + (dir.now.others + count_by (λ n. not (is_fit folder.now n)) dir.now.names))) }
{
    level.faults = level.faults.saturating_add(dir.others());
    add_names(alloc, level, folder, dir.names())?;
    Ok(())
}

/// What was read of a folder; one that isn't there holds nothing.
fn or_empty(alloc: Global, dir: Option<Dir>) -> Dir
    ensures names { result.names ≡ names_held (Some dir) }
    ensures others { result.others ≡ others_held (Some dir) }
{
    match dir {
        Some(dir) => dir,
        None => Dir::new(alloc),
    }
}

/// Adds the paths of what a folder holds.
pub(crate) fn read_folder<T: Tree>(
    alloc: Global,
    tree: &T,
    folder: &Subtree,
    level: &mut Level,
) -> Result<(), Refusal>
    ensures paths { OnOk result (T.stays tree.now → level.new.paths.items ≡ level.old.paths.items ++ paths_in (T.content tree.now) folder.now) }
    ensures faults { OnOk result (T.stays tree.now → level.new.faults ≡ counted (level.old.faults + unfit_in folder.now ((T.content tree.now).held folder.now))) }
    ensures held { OnOk result (T.stays tree.now → is_some ((T.content tree.now).held folder.now) ≡ true) }
    ensures from { OnOk result ((names : List Path) × (level.new.paths.items ≡ level.old.paths.items ++ filter_map (path_of folder.now) names)) }
    ensures refused { IfErr result (λ e. e ≢ no_memory → (e ≡ DeviceFailed) × T.may_fail tree.now folder.now) }
{
    let dir = tree.read_dir(alloc, folder)?;
    let dir = or_empty(alloc, dir);
    add_dir(alloc, level, folder, &dir)?;
    Ok(())
}

/// The paths of what the folders hold.
fn read_each<T: Tree, G: Turnstile>(
    alloc: Global,
    tree: &T,
    folders: &[Subtree],
    gate: &G,
) -> Result<Level, Refusal>
    ensures read { IfOk result (λ v. T.stays tree.now → AreRead (T.content tree.now) folders.now v.paths.items v.faults) }
    ensures from { IfOk result (λ v. AllFrom folders.now v.paths.items) }
    ensures refused { IfErr result (λ e. e ≢ no_memory → (e ≡ DeviceFailed) × SomeFails (T.may_fail tree.now) folders.now) }
{
    let mut level = Level {
        paths: Vec::new(alloc),
        faults: 0,
    };
    for folder in folders {
        gate.pass();
        read_folder(alloc, tree, folder, &mut level)?;
    }
    Ok(level)
}

/// The two levels, one behind the other.
fn appended(front: Level, back: Level) -> Result<Level, NoMemory>
    ensures paths { IfOk result (λ v. v.paths.items ≡ front.paths.items ++ back.paths.items) }
    ensures faults { IfOk result (λ v. v.faults ≡ counted (front.faults + back.faults)) }
{
    let Level { mut paths, faults } = front;
    let Level {
        paths: mut more,
        faults: others,
    } = back;
    paths.append(&mut more)?;
    Ok(Level {
        paths,
        faults: faults.saturating_add(others),
    })
}

/// The paths of what the folders hold, read by so many threads.
pub(crate) fn read_all<R: Threads + Sync, T: Tree + Sync, G: Turnstile + Sync>(
    rt: &R,
    alloc: Global,
    tree: &T,
    folders: &[Subtree],
    gate: &G,
    workers: usize,
) -> Result<Level, Refusal>
    ensures read { IfOk result (λ v. T.stays tree.now → AreRead (T.content tree.now) folders.now v.paths.items v.faults) }
    ensures from { IfOk result (λ v. AllFrom folders.now v.paths.items) }
    ensures refused { IfErr result (λ e. e ≢ no_memory → (e ≡ DeviceFailed) × SomeFails (T.may_fail tree.now) folders.now) }
{
    if workers < 2 || folders.len() < 2 {
        return read_each(alloc, tree, folders, gate);
    }
    let (left, right) = folders.split_at(folders.len() / 2);
    let half = workers / 2;
    let rest = workers - half;
    let (front, back) = thread::join(
        rt,
        || -> Result<Level, Refusal>
            requires { IsSync R.row × IsSync T.row × IsSync G.row }
            ensures { IfOk result (λ v. T.stays tree.entry.now → AreRead (T.content tree.entry.now) left.entry.now v.paths.items v.faults)
                × IfOk result (λ v. AllFrom left.entry.now v.paths.items)
                × IfErr result (λ e. e ≢ no_memory → (e ≡ DeviceFailed) × SomeFails (T.may_fail tree.entry.now) left.entry.now) }
        { read_all(rt, alloc, tree, left, gate, half) },
        || -> Result<Level, Refusal>
            requires { IsSync R.row × IsSync T.row × IsSync G.row }
            ensures { IfOk result (λ v. T.stays tree.entry.now → AreRead (T.content tree.entry.now) right.entry.now v.paths.items v.faults)
                × IfOk result (λ v. AllFrom right.entry.now v.paths.items)
                × IfErr result (λ e. e ≢ no_memory → (e ≡ DeviceFailed) × SomeFails (T.may_fail tree.entry.now) right.entry.now) }
        { read_all(rt, alloc, tree, right, gate, rest) },
    );
    let front = front?;
    let back = back?;
    let both = appended(front, back)?;
    Ok(both)
}
