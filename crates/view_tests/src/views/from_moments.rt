//! Whether a view lists and answers the same as the reference, of what changed from a moment on.
use super::against_reference::lists;
use super::reference::{Listed, Reference};
use std::alloc::Global;
use std::process::Abort;
use wm_disk::Refusal;
use wm_since::{Answer, Every, Query, Since, answer};
use wm_view::View;

/// Moments to start from. A session's moments rise and fall between 0 and 11, and now and then one is the last.
const MOMENTS: &[u64] = &[0, 1, 4, 7, 10, 12, u64::MAX];

/// Whether both list the same as changed at the moment or later.
fn list_alike(
    rt: &impl Abort,
    alloc: Global,
    view: &View,
    reference: &Reference,
    moment: u64,
) -> bool {
    let listed = view.changed_from_moment(alloc, moment).expect(rt, "memory");
    lists(&listed, &reference.changed_from(rt, alloc, moment))
}

/// Whether the file is the one that is wanted, and is new or isn't.
fn is_told(file: &wm_since::Listed, wanted: &Listed, is_new: bool) -> bool {
    let (path, known) = wanted;
    let entry = &file.entry;
    entry.path.as_str() == *path
        && (entry.exists, entry.meta) == (known.exists, known.meta())
        && (file.last, file.created) == (known.last, known.created)
        && file.is_new == is_new
}

/// Whether just these are told, in this order: as new what came into being at the moment or later, or in a fresh
/// answer each.
fn tells(answer: &Answer, wanted: &[Listed], moment: u64) -> bool {
    let files = answer.files.as_slice();
    if files.len() != wanted.len() {
        return false;
    }
    for (file, listed) in files.iter().zip(wanted) {
        let is_new = answer.fresh || moment <= listed.1.created_moment;
        if !is_told(file, listed, is_new) {
            return false;
        }
    }
    true
}

/// Whether the answer to a question since the moment is the reference's.
fn is_alike(
    rt: &impl Abort,
    alloc: Global,
    answer: &Answer,
    reference: &Reference,
    moment: u64,
) -> bool {
    let fresh = reference.is_fresh_from(moment);
    let wanted = if fresh {
        reference.existing(rt, alloc)
    } else {
        reference.changed_from(rt, alloc, moment)
    };
    let stands_so = answer.fresh == fresh && answer.clock.tick == reference.tick();
    stands_so && tells(answer, &wanted, moment)
}

/// Whether both answer a question since the moment the same.
fn answer_alike(
    rt: &impl Abort,
    alloc: Global,
    view: &View,
    reference: &Reference,
    moment: u64,
) -> bool {
    let query = Query {
        since: Some(Since::Moment(moment)),
        test: Every,
        empty_on_fresh: false,
    };
    match answer(alloc, view, &query) {
        Ok(answer) => {
            let are_alike = is_alike(rt, alloc, &answer, reference, moment);
            drop(answer);
            are_alike
        }
        Err(refusal) => refusal == Refusal::NotReady && reference.tick() == 0,
    }
}

/// Whether both list and answer the same since each of these moments.
pub fn are_alike_from_moments(
    rt: &impl Abort,
    alloc: Global,
    view: &View,
    reference: &Reference,
) -> bool {
    for moment in MOMENTS {
        let list = list_alike(rt, alloc, view, reference, *moment);
        if !list || !answer_alike(rt, alloc, view, reference, *moment) {
            return false;
        }
    }
    true
}
