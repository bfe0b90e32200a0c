//! The views of the watched roots with their cursors: one a root, in order of watching. Their
//! definitions are in specs/session/Watched.
//! Tests: session_tests/src/lines.
ghost use Rattle.std.specs.Prelude.{◌≡◌, true, option_map, IfOk};
ghost use Rattle.wm_session.specs.session.Watched.{Forgets, IsCursorMoved, Operated, clock_in, first_views as first_views_lem, may_move, new_view, place_of as place_of_lem, progress_in, root_view_at};

use indexmap::IndexMap;
use std::alloc::Global;
use wm_clock::{ClockId, CursorName};
use wm_disk::{NoMemory, Refusal};
use wm_lines::Progress;
use wm_names::RootPath;
use wm_registry::{Registry, Root};
use wm_since::Cursors;
use wm_view::{Op, View};

/// The view of a watched root, and the clocks up to which those who ask by a name were told.
#[derive(Drop)]
pub struct RootView {
    pub view: View,
    pub cursors: Cursors,
}

impl RootView {
    /// That of a root that has just begun.
    pub(crate) fn new(alloc: Global, incarnation: u64, root: u64) -> Result<RootView, NoMemory>
        ensures { IfOk result (λ r. r ≡ new_view incarnation root) }
    {
        Ok(RootView {
            view: View::new(alloc, incarnation, root),
            cursors: Cursors::new(alloc)?,
        })
    }
}

/// A view of each root, which begins with the registry's incarnation.
pub(crate) fn first_views(alloc: Global, registry: &Registry) -> Result<Vec<RootView>, NoMemory>
    ensures { IfOk result (λ views. views.items ≡ first_views_lem registry.now) }
{
    let roots = registry.roots();
    let mut views = Vec::with_capacity(alloc, roots.len())?;
    for root in roots.values() {
        views.push(RootView::new(alloc, registry.incarnation(), root.number)?)?;
    }
    Ok(views)
}

/// The place of a root among the watched ones.
pub(crate) fn place_of(path: &RootPath, roots: &IndexMap<RootPath, Root>) -> Option<usize>
    ensures { result ≡ place_of_lem path.now roots.now.entries }
{
    roots.get_index_of(path)
}

/// The view of a watched root.
pub(crate) fn view_at<'a>(
    path: &RootPath,
    roots: &IndexMap<RootPath, Root>,
    views: &'a [RootView],
) -> Option<&'a RootView>
    ensures { option_map (λ view. view.now) result ≡ root_view_at path.now roots.now.entries views.now }
{
    let Some(place) = place_of(path, roots) else {
        return None;
    };
    if place < views.len() {
        Some(&views[place])
    } else {
        None
    }
}

/// Takes the view at a root's place out.
pub(crate) fn forget(place: Option<usize>, views: &mut Vec<RootView>)
    ensures { Forgets place views.old.items views.new.items }
{
    if let Some(place) = place
        && place < views.len()
    {
        views.remove(place);
    }
}

/// The clock at which a root stands.
pub(crate) fn clock_of(root: &RootView) -> ClockId
    ensures { result ≡ clock_in root.now }
{
    ClockId {
        incarnation: root.view.incarnation(),
        root: root.view.root(),
        tick: root.view.tick(),
    }
}

/// Where a root stands.
fn progress_of(root: &RootView) -> Progress
    ensures { result ≡ progress_in root.now }
{
    Progress {
        clock: clock_of(root),
        floor: root.view.floor(),
    }
}

/// Performs an operation on the view of a watched root, and tells where that stands. A refusal changes
/// nothing.
pub(crate) fn operate(
    alloc: Global,
    path: &RootPath,
    roots: &IndexMap<RootPath, Root>,
    views: &mut Vec<RootView>,
    op: &Op,
) -> Result<Progress, Refusal>
    ensures { Operated path.now op.now roots.now.entries views.old.items result views.new.items }
{
    let Some(place) = place_of(path, roots) else {
        return Err(Refusal::NotWatched);
    };
    if place >= views.len() {
        return Err(Refusal::NotWatched);
    }
    let root = &mut views[place];
    match root.view.perform(alloc, op) {
        Ok(()) => Ok(progress_of(root)),
        Err(refusal) => Err(refusal),
    }
}

/// Moves a cursor of a watched root to a clock, or makes it there.
pub(crate) fn move_cursor(
    path: &RootPath,
    roots: &IndexMap<RootPath, Root>,
    views: &mut Vec<RootView>,
    name: CursorName,
    clock: ClockId,
)
    requires { may_move (root_view_at path.now roots.now.entries views.old.items) name ≡ true }
    ensures { IsCursorMoved path.now name clock roots.now.entries (root_view_at path.now roots.now.entries views.old.items) views.old.items views.new.items }
{
    let Some(place) = place_of(path, roots) else {
        return;
    };
    if place >= views.len() {
        return;
    }
    let root = &mut views[place];
    root.cursors.moved(name, clock);
}
