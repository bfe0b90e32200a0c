//! Whether a part of a root has a top: a folder to which folders alone lead from the root, and no link.
//! Definitions: specs/Crawls.antt. Tests: crawler_tests/src/crawls.rt, crawler_tests/src/folders.rt.
ghost use Rattle.std.specs.Prelude.{◌≡◌, ◌≢◌, Some, map, IfOk, IfErr};
ghost use Rattle.wm_disk.specs.declared.refusal.Refusal.TheVariants.{DeviceFailed, NoMemory as no_memory};
ghost use Rattle.wm_names.specs.declared.subtree.Subtree.{Subtree as Place};
ghost use Rattle.wm_names.specs.declared.subtree.Subtree.TheVariants.{Whole, Below};
ghost use Rattle.wm_names.specs.Entries.{join};
ghost use Rattle.wm_names.specs.Paths.{components};
ghost use Rattle.wm_crawler.specs.Crawls.{folder_below as folder_below_lem, has_top as has_top_lem, leads_down as leads_down_lem, places_down, way_to};
ghost use Rattle.wm_crawler.specs.Trees.{SomeFails};

use crate::telling::is_folder;
use crate::tree::Tree;
use std::alloc::{AllocError, Global};
use wm_disk::Refusal;
use wm_names::{RelPath, Subtree};

/// The folder of a name in a folder. `None` where no folder is there, and a link is none.
fn folder_below<T: Tree>(
    alloc: Global,
    tree: &T,
    folder: &Subtree,
    name: &str,
) -> Result<Option<Subtree>, Refusal>
    ensures read { IfOk result (λ f. T.stays tree.now → folder_below_lem (T.content tree.now) folder.now name.now ≡ Some f) }
    ensures place { IfOk result (λ f. (next : Place) → f ≡ Some next → next ≡ Below (join folder.now name.now)) }
    ensures refused { IfErr result (λ e. e ≢ no_memory → (e ≡ DeviceFailed) × T.may_fail tree.now (Below (join folder.now name.now))) }
{
    let path = match folder.join(alloc, name) {
        Ok(path) => path,
        Err(Refusal::NoMemory) => return Err(Refusal::NoMemory),
        Err(_) => return Ok(None),
    };
    match tree.meta(alloc, &path)? {
        Some(meta) if is_folder(&meta) => Ok(Some(Subtree::Below(path))),
        Some(_) | None => Ok(None),
    }
}

/// Whether each of the names is that of a folder in the folder before it, from the root down.
fn leads_down<T: Tree>(alloc: Global, tree: &T, names: &[&str]) -> Result<bool, Refusal>
    ensures read { IfOk result (λ b. T.stays tree.now → leads_down_lem (T.content tree.now) Whole (map (λ n. n.now) names.now) ≡ Some b) }
    ensures refused { IfErr result (λ e. e ≢ no_memory → (e ≡ DeviceFailed) × SomeFails (T.may_fail tree.now) (places_down Whole (map (λ n. n.now) names.now))) }
{
    let mut folder = Subtree::Whole;
    for name in names {
        match folder_below(alloc, tree, &folder, name)? {
            Some(next) => folder = next,
            None => return Ok(false),
        }
    }
    Ok(true)
}

/// The names between the slashes of a path.
fn names_of<'a>(alloc: Global, path: &'a RelPath) -> Result<Vec<&'a str>, AllocError>
    ensures { IfOk result (λ v. map (λ n. n.now) v.items ≡ components path.now) }
{
    path.as_str().split('/').collect(alloc)
}

/// Whether the part has a top. The tree is asked once about each component of its path, the first one first, up to one
/// that is no folder. Refused as `Tree::meta` is.
pub(crate) fn has_top<T: Tree>(alloc: Global, tree: &T, part: &Subtree) -> Result<bool, Refusal>
    ensures read { IfOk result (λ b. T.stays tree.now → has_top_lem (T.content tree.now) part.now ≡ Some b) }
    ensures refused { IfErr result (λ e. e ≢ no_memory → (e ≡ DeviceFailed) × SomeFails (T.may_fail tree.now) (way_to part.now)) }
{
    let Subtree::Below(path) = part else {
        return Ok(true);
    };
    let names = names_of(alloc, path)?;
    let leads = leads_down(alloc, tree, &names)?;
    Ok(leads)
}
