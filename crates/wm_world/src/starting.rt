//! Which replies and refusals of a store end a drive or take the server down, and first views.
//! Definitions: specs/Refinement.antt, specs/Worlds.antt.
//! Tests: session_tests/src/world/restarts.rt, session_tests/src/world/sweep.rt.
ghost use Rattle.std.specs.Prelude.{◌≡◌, ◌≢◌, ◌++◌, ◌-◌, true, false, map, IfOk, OnOk};
ghost use Rattle.std.specs.List.{list_any, range_with_len};
ghost use Rattle.wm_disk.specs.declared.refusal.Refusal.TheVariants.{Exhausted as exhausted, NoMemory as no_memory};
ghost use Rattle.wm_store.specs.Batches.{IsOutOfMemory};
ghost use Rattle.wm_view.specs.Histories.{new_history};
ghost use Rattle.wm_view.specs.Summaries.{summary};
ghost use Rattle.wm_world.specs.Worlds.{begun_all};
ghost use Rattle.wm_world.specs.Refinement.{is_out_of_memory as is_out_of_memory_lem};

use std::alloc::Global;
use wm_disk::{NoMemory, Refusal};
use wm_registry::{Registry, Reply};
use wm_view::View;

/// Whether memory ran out for the command with this reply.
fn is_out_of_memory(reply: &Reply) -> bool
    ensures { result ≡ is_out_of_memory_lem reply.now }
{
    matches!(reply, Reply::Refused(Refusal::NoMemory))
}

fn any_out_of_memory(replies: &[Reply]) -> bool
    ensures { result ≡ list_any is_out_of_memory_lem replies.now }
{
    replies.iter().any(|reply| is_out_of_memory(reply))
}

/// `NoMemory`, where memory ran out for one of the commands.
fn unless_out_of_memory(replies: &[Reply]) -> Result<(), NoMemory>
    ensures { OnOk result (IsOutOfMemory replies.now → ⊥) }
{
    if any_out_of_memory(replies) {
        return Err(NoMemory);
    }
    Ok(())
}

/// `NoMemory`, where the refusal is that one.
pub(crate) fn unless_memory(refusal: Refusal) -> Result<(), NoMemory>
    ensures { OnOk result (refusal ≢ no_memory) }
{
    match refusal {
        Refusal::NoMemory => Err(NoMemory),
        _ => Ok(()),
    }
}

/// Whether a refusal of the store takes the server down: a counter that is spent doesn't.
pub(crate) fn takes_down(refusal: Refusal) -> Result<bool, NoMemory>
    ensures memory { OnOk result (refusal ≢ no_memory) }
    ensures down { IfOk result (λ down. down ≡ true → refusal ≢ exhausted) }
    ensures up { IfOk result (λ down. down ≡ false → refusal ≡ exhausted) }
{
    match refusal {
        Refusal::NoMemory => Err(NoMemory),
        Refusal::Exhausted => Ok(false),
        _ => Ok(true),
    }
}

/// Adds a view for each root number from one up to another.
fn begin_views(
    alloc: Global,
    views: &mut Vec<View>,
    incarnation: u64,
    from: u64,
    to: u64,
) -> Result<(), NoMemory>
    ensures { OnOk result (views.new.items ≡ views.old.items ++ map summary (map (new_history incarnation) (range_with_len from (to - from)))) }
{
    for number in from..to {
        views.push(View::new(alloc, incarnation, number))?;
    }
    Ok(())
}

/// Adds a view for each root that a batch watched, whose numbers begin where the registry's next one stood. `NoMemory` too where
/// memory ran out for one of the commands.
pub(crate) fn show(
    alloc: Global,
    registry: &Registry,
    from: u64,
    replies: &[Reply],
    views: &mut Vec<View>,
) -> Result<(), NoMemory>
    ensures memory { OnOk result (IsOutOfMemory replies.now → ⊥) }
    ensures views { OnOk result (views.new.items ≡ views.old.items ++ map summary (map (new_history registry.now.incarnation) (range_with_len from (registry.now.next - from)))) }
{
    unless_out_of_memory(replies)?;
    begin_views(
        alloc,
        views,
        registry.incarnation(),
        from,
        registry.next_root(),
    )
}

/// A view for each root of the registry.
pub(crate) fn first_views(alloc: Global, registry: &Registry) -> Result<Vec<View>, NoMemory>
    ensures { IfOk result (λ views. views.items ≡ map summary (begun_all registry.now)) }
{
    let roots = registry.roots();
    let mut views = Vec::with_capacity(alloc, roots.len())?;
    for root in roots.values() {
        views.push(View::new(alloc, registry.incarnation(), root.number))?;
    }
    Ok(views)
}
