//! Paths in their order, as a set and as a list.

ghost use Rattle.std.specs.Prelude.{◌≡◌, IfOk};
ghost use Rattle.std.specs.List.Sorted.{IsStrictlySortedBy};
ghost use Rattle.wm_names.specs.Paths.{path_cmp};

use std::alloc::Global;
use std::collections::BTreeSet;
use wm_disk::NoMemory;
use wm_names::RelPath;

/// The paths of a set, in their order.
pub(crate) fn listed(alloc: Global, paths: &BTreeSet<RelPath>) -> Result<Vec<RelPath>, NoMemory>
    ensures same { IfOk result (λ v. v.items ≡ paths.now.keys) }
    ensures sorted { IsStrictlySortedBy path_cmp paths.now.keys }
{
    let mut listed = Vec::with_capacity(alloc, paths.len())?;
    for path in paths {
        listed.push(path.copy()?)?;
    }
    Ok(listed)
}

/// The set of paths that stand in their order, each once.
pub(crate) fn set_of(alloc: Global, paths: &[RelPath]) -> Result<BTreeSet<RelPath>, NoMemory>
    requires { IsStrictlySortedBy path_cmp paths.now }
    ensures { IfOk result (λ s. s.keys ≡ paths.now) }
{
    let mut set = BTreeSet::new(alloc);
    for path in paths {
        set.insert(path.copy()?)?;
    }
    Ok(set)
}
