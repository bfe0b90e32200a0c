//! A watched root as the table has it.
//! Definitions: specs/WatchedRoots.antt, specs/RootsByNumber.antt. Tests: serve_tests/src/sessions.rt.
ghost use Rattle.std.specs.Prelude.{◌≡◌, ◌⊎◌, false, IfOk, IfErr, IfSome, MatchOption};
ghost use Rattle.std.specs.Arc.{arc_value};
ghost use Rattle.std.specs.List.{list_any};
ghost use Rattle.wm_workers.specs.RootsByNumber.{IsRootOf, IsRootSharing, LacksRoot};
ghost use Rattle.wm_workers.specs.WatchedRoots.{FindsRoot, MayHaveHad, has_path};

use super::table::RootTable;
use std::sync::{Arc, Wait};
use wm_disk::Refusal;
use wm_names::RootPath;
use wm_root::WatchedRoot;
use wm_share::Naming;

/// The watched root of a path, as the table has it; `None` if memory ran out for it. `NotWatched` if no row has the path, and
/// `NoMemory` if the root has too many owners.
pub fn root_at<J: Naming, K: Wait + Drop>(
    roots: &RootTable<Arc<WatchedRoot<J, K>>>,
    path: &RootPath,
) -> Result<Option<Arc<WatchedRoot<J, K>>>, Refusal>
    ensures found { IfOk result (FindsRoot arc_value path.now roots.now.roots) }
    ensures had { IfOk result (λ found. IfSome found (λ root. MayHaveHad path.now (arc_value root).number)) }
    ensures not_watched { IfErr result (λ e. e ≡ Refusal.NotWatched → list_any (has_path path.now) roots.now.roots ≡ false) }
    ensures refused { IfErr result (λ e. (e ≡ Refusal.NotWatched) ⊎ (e ≡ Refusal.NoMemory)) }
{
    roots.numbers_rise();
    let Some(row) = roots.find(path) else {
        return Err(Refusal::NotWatched);
    };
    let Some(root) = &row.watched else {
        return Ok(None);
    };
    // each root has the number of its row
    if root.number != row.number {
        return Err(Refusal::NoMemory);
    }
    match Arc::try_clone(root) {
        Ok(root) => Ok(Some(root)),
        Err(_) => Err(Refusal::NoMemory),
    }
}

/// The watched root of a number, if its row has it.
fn kept_root<H: Drop>(roots: &RootTable<H>, number: u64) -> Option<&H>
    ensures { MatchOption result (LacksRoot number roots.now.roots) (λ root. IsRootOf number roots.now.roots root.now) }
{
    match roots.numbered(number) {
        Some(row) => match &row.watched {
            Some(root) => Some(root),
            None => None,
        },
        None => None,
    }
}

/// The watched root of a number; none if its row hasn't it, or it has too many owners.
pub fn root_numbered<J: Naming, K: Wait + Drop>(
    roots: &RootTable<Arc<WatchedRoot<J, K>>>,
    number: u64,
) -> Option<Arc<WatchedRoot<J, K>>>
    ensures kept { IfSome result (λ root. IsRootSharing arc_value number roots.now.roots (arc_value root)) }
    ensures number { IfSome result (λ root. (arc_value root).number ≡ number) }
{
    let Some(root) = kept_root(roots, number) else {
        return None;
    };
    // each root has the number of its row
    if root.number != number {
        return None;
    }
    match Arc::try_clone(root) {
        Ok(root) => Some(root),
        Err(_) => None,
    }
}
