//! Finds the view of a root among those of the world, and does an operation to it.
//! Definitions: specs/Refinement.antt, specs/Worlds.antt. Tests: session_tests/src/world/sweep.rt.
ghost use Rattle.std.specs.Prelude.{◌≡◌, OnOk, position, find, option_map};
ghost use Rattle.wm_view.specs.Steps.{step};
ghost use Rattle.wm_world.specs.Worlds.{at_first};
ghost use Rattle.wm_world.specs.Refinement.{is_root, view_at as view_at_lem};

use crate::starting::unless_memory;
use std::alloc::Global;
use wm_disk::NoMemory;
use wm_names::RootPath;
use wm_registry::Registry;
use wm_view::{Op, View};

/// The place of the view of the root with the number.
fn place_of(views: &[View], number: u64) -> Option<usize>
    ensures { result ≡ position (is_root number) views.now }
{
    views.iter().position(|view| view.root() == number)
}

/// Does the operation to the view of the root with the number. One that is refused changes nothing.
pub(crate) fn perform(
    alloc: Global,
    views: &mut Vec<View>,
    number: u64,
    op: &Op,
) -> Result<(), NoMemory>
    ensures { OnOk result (views.new.items ≡ at_first (is_root number) (λ s. step s op.now) views.old.items) }
{
    let Some(place) = place_of(views, number) else {
        return Ok(());
    };
    match views[place].perform(alloc, op) {
        Ok(()) => Ok(()),
        Err(refusal) => unless_memory(refusal),
    }
}

/// The view of the root with the number.
fn view_of(views: &[View], number: u64) -> Option<&View>
    ensures { option_map (λ v. v.now) result ≡ find (is_root number) views.now }
{
    views.iter().find(|view| view.root() == number)
}

/// The view of the root that is watched at the path.
pub(crate) fn view_at<'a>(
    registry: &Registry,
    views: &'a [View],
    path: &RootPath,
) -> Option<&'a View>
    ensures { option_map (λ v. v.now) result ≡ view_at_lem registry.now views.now path.now }
{
    match registry.roots().get(path) {
        Some(root) => view_of(views, root.number),
        None => None,
    }
}
