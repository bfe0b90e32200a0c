//! Which roots are to be fed from now on, and which no longer. Definitions: specs/Roots.antt. Tests: feed_tests/src/root_lists.rt.

ghost use Rattle.std.specs.Prelude.{◌≡◌, IfOk, OnOk};
ghost use Rattle.wm_feed.specs.Once.{is_in_texts, with_text_once};
ghost use Rattle.wm_feed.specs.Roots.{only_in};

use std::alloc::Global;
use wm_disk::NoMemory;
use wm_names::RootPath;

/// Whether a root is among those that are listed.
pub fn is_listed(root: &RootPath, listed: &[RootPath]) -> bool
    ensures { result ≡ is_in_texts root.now listed.now }
{
    listed.iter().any(|one| one == root)
}

/// Adds a root, unless it is among them.
fn add_root(alloc: Global, roots: &mut Vec<RootPath>, root: &RootPath) -> Result<(), NoMemory>
    ensures { OnOk result (roots.new.items ≡ with_text_once root.now roots.old.items) }
{
    if is_listed(root, roots) {
        return Ok(());
    }
    roots.push(root.copy(alloc)?)?;
    Ok(())
}

/// The roots to begin with: those that are listed and aren't fed, each once, in the order of the list. `NoMemory`.
pub fn to_begin(
    alloc: Global,
    fed: &[RootPath],
    listed: &[RootPath],
) -> Result<Vec<RootPath>, NoMemory>
    ensures { IfOk result (λ v. v.items ≡ only_in listed.now fed.now) }
{
    let mut missing = Vec::new(alloc);
    for root in listed {
        if !is_listed(root, fed) {
            add_root(alloc, &mut missing, root)?;
        }
    }
    Ok(missing)
}
