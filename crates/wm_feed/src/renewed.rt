//! Paths at which an event showed nothing new. Definitions: specs/Renewed.antt. Tests: feed_tests/src/renewed.rt.

ghost use Rattle.std.specs.Prelude.{◌≡◌, IfOk};
ghost use Rattle.wm_feed.specs.Renewed.{is_file_there as is_file_there_lem, is_unshown as is_unshown_lem, unshown as unshown_lem};

use std::alloc::Global;
use std::collections::BTreeSet;
use wm_disk::NoMemory;
use wm_names::{Kind, Meta, RelPath};

/// Whether something that is no folder stands there.
fn is_file_there(state: Option<Meta>) -> bool
    ensures { result ≡ is_file_there_lem state }
{
    match state {
        Some(meta) => !meta.kind.same(Kind::Folder),
        None => false,
    }
}

/// Whether a pair is of a path at which something stands that is no folder, and which isn't among those that changed.
fn is_unshown(pair: &(RelPath, Option<Meta>), changed: &BTreeSet<RelPath>) -> bool
    ensures { result ≡ is_unshown_lem changed.now.keys pair.now }
{
    is_file_there(pair.1) && !changed.contains(&pair.0)
}

/// The pairs of paths at which something stands that is no folder, and which aren't among those that changed, in their order: what
/// happened there changed nothing that is known of them. `NoMemory`.
pub fn unshown(
    alloc: Global,
    pairs: &[(RelPath, Option<Meta>)],
    changed: &BTreeSet<RelPath>,
) -> Result<Vec<(RelPath, Option<Meta>)>, NoMemory>
    ensures { IfOk result (λ v. v.items ≡ unshown_lem pairs.now changed.now.keys) }
{
    let mut left = Vec::new(alloc);
    for one in pairs {
        if is_unshown(one, changed) {
            left.push((one.0.copy()?, one.1))?;
        }
    }
    Ok(left)
}
