//! Views through whole sessions, with what they list written out by hand, and through generated ones, compared
//! with a reference that keeps every map.
use crate::making::file;
use std::alloc::Global;
use std::process::Abort;
use wm_names::RelPath;
use wm_view::{Known, View};

mod against_reference;
mod ageing;
mod from_moments;
mod generated;
mod listings;
mod many;
mod moments;
mod observing;
mod recrawling;
mod reference;
mod sessions;
mod walking;

/// A tick and its moment.
type At = (u64, u64);

/// What is listed of a path: the path, whether it exists, its size, and when it was created and changed
/// last.
type Shown = (&'static str, bool, u64, At, At);

/// Whether a listed path is this one, and all that is known of it is this.
fn is_shown(listed: &(RelPath, Known), shown: &Shown) -> bool {
    let (path, exists, size, creation, last_change) = *shown;
    let meta = file(size);
    let known = Known {
        exists,
        kind: meta.kind,
        size: meta.size,
        mtime_ms: meta.mtime_ms,
        last: last_change.0,
        created: creation.0,
        moment: last_change.1,
        created_moment: creation.1,
    };
    listed.0.as_str() == path && listed.1 == known
}

/// Whether just these are listed, in this order.
fn lists(listed: &[(RelPath, Known)], wanted: &[Shown]) -> bool {
    if listed.len() != wanted.len() {
        return false;
    }
    for (entry, shown) in listed.iter().zip(wanted) {
        if !is_shown(entry, shown) {
            return false;
        }
    }
    true
}

/// Whether this is what exists.
fn exists_so(rt: &impl Abort, alloc: Global, view: &View, wanted: &[Shown]) -> bool {
    let existing = view.existing(alloc).expect(rt, "memory");
    let is_so = lists(&existing, wanted);
    drop(existing);
    is_so
}

/// Whether the view stands at this tick and floor, and shows this as changed after a tick.
fn stands(
    rt: &impl Abort,
    alloc: Global,
    view: &View,
    at: (u64, u64),
    since: u64,
    shown: &[Shown],
) -> bool {
    let changed = view.changed_after(alloc, since).expect(rt, "memory");
    (view.tick(), view.floor()) == at && lists(&changed, shown)
}
