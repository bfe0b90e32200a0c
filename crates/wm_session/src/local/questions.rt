//! Questions of the files of a root: its clock, since when is asked there, and an answer. Their definitions are in specs/session: Fronts,
//! Inquiries and Watched; and in specs/local/Questions.
//! Tests: session_tests/src/lines.
ghost use Rattle.std.specs.Prelude.{◌≡◌, ◌≢◌, ◌≤◌, vec_capacity, IfOk, IfErr, OnErr};
ghost use Rattle.wm_disk.specs.declared.refusal.Refusal.TheVariants.{NoMemory as no_memory};
ghost use Rattle.wm_session.specs.local.Questions.{WritesAnswer};
ghost use Rattle.wm_session.specs.session.Fronts.{start_answer};
ghost use Rattle.wm_session.specs.session.Inquiries.{has_place as has_place_lem, inquired, since_point};
ghost use Rattle.wm_session.specs.session.Watched.{clock_answer, root_view_at};

use crate::local::root_views::{RootView, clock_of, view_at};
use indexmap::IndexMap;
use std::alloc::Global;
use wm_clock::{ClockId, ClockSpec, CursorName};
use wm_disk::Refusal;
use wm_lines::{Inquiry, reply};
use wm_names::RootPath;
use wm_registry::Root;
use wm_since::{Cursors, Query, Since};

/// The clock of a root. `NotWatched`, and `NotReady` before the first whole listing.
pub(super) fn clock(
    path: &RootPath,
    roots: &IndexMap<RootPath, Root>,
    views: &[RootView],
) -> Result<ClockId, Refusal>
    ensures { result ≡ clock_answer (root_view_at path.now roots.now.entries views.now) }
{
    let Some(root) = view_at(path, roots, views) else {
        return Err(Refusal::NotWatched);
    };
    if !root.view.ready() {
        return Err(Refusal::NotReady);
    }
    Ok(clock_of(root))
}

/// Since when is asked: from nowhere by a clock of another instance, and by a cursor that isn't there.
fn since_at(since: &Option<ClockSpec>, cursors: &Cursors) -> Option<Since>
    ensures { result ≡ since_point since.now cursors.now }
{
    match since {
        Some(ClockSpec::Clock(clock)) => Some(Since::Clock(*clock)),
        Some(ClockSpec::Seconds(seconds)) => Some(Since::Moment(*seconds)),
        Some(ClockSpec::Cursor(name)) => Since::from_clock(cursors.clock(name)),
        Some(ClockSpec::Another) => None,
        None => None,
    }
}

/// Whether there is room for the cursor by which is asked.
fn has_place(since: &Option<ClockSpec>, cursors: &Cursors) -> bool
    ensures { result ≡ has_place_lem since.now cursors.now }
{
    match since {
        Some(ClockSpec::Cursor(name)) => cursors.has_room(name),
        _ => true,
    }
}

/// The clock of a root, and since when is asked of it there. Refused as `clock` is.
pub(super) fn start(
    path: &RootPath,
    roots: &IndexMap<RootPath, Root>,
    views: &[RootView],
    since: &Option<ClockSpec>,
) -> Result<(ClockId, Option<Since>), Refusal>
    ensures { result ≡ start_answer (root_view_at path.now roots.now.entries views.now) since.now }
{
    let Some(root) = view_at(path, roots, views) else {
        return Err(Refusal::NotWatched);
    };
    if !root.view.ready() {
        return Err(Refusal::NotReady);
    }
    Ok((clock_of(root), since_at(since, &root.cursors)))
}

/// Appends the answer to what is asked of a root, and returns the cursor that is to move and the clock to which it moves. `NotWatched`,
/// `NotReady` before the first whole listing, `TooMany` if there is no room for a new cursor, and `NoMemory`.
pub(super) fn tell(
    alloc: Global,
    path: &RootPath,
    roots: &IndexMap<RootPath, Root>,
    views: &[RootView],
    inquiry: Inquiry,
    out: &mut Vec<u8>,
) -> Result<Option<(CursorName, ClockId)>, Refusal>
    ensures ok { IfOk result (λ moves. WritesAnswer (inquired (root_view_at path.now roots.now.entries views.now) inquiry) inquiry moves out.old.items out.new.items) }
    ensures refused { IfErr result (λ e. e ≢ no_memory → inquired (root_view_at path.now roots.now.entries views.now) inquiry ≡ Err e) }
    ensures err { OnErr result (out.new.items ≡ out.old.items) }
    ensures room { vec_capacity out.old ≤ vec_capacity out.new }
{
    let Some(root) = view_at(path, roots, views) else {
        return Err(Refusal::NotWatched);
    };
    if !root.view.ready() {
        return Err(Refusal::NotReady);
    }
    let Inquiry {
        since,
        expression,
        fields,
        empty_on_fresh,
    } = inquiry;
    if !has_place(&since, &root.cursors) {
        return Err(Refusal::TooMany);
    }
    let query = Query {
        since: since_at(&since, &root.cursors),
        test: expression,
        empty_on_fresh,
    };
    let answer = wm_since::answer(alloc, &root.view, &query)?;
    reply::put_answer(alloc, &answer, &fields, out)?;
    match since {
        Some(ClockSpec::Cursor(name)) => Ok(Some((name, answer.clock))),
        _ => Ok(None),
    }
}
