//! What changed from a moment on, where moments rise and fall.
use super::walking::{Deed, Step, goes_so};
use super::{Shown, lists};
use crate::checks::check;
use std::alloc::Global;
use std::process::Abort;
use wm_view::View;

/// A moment, and what changed last at it or later.
type From = (u64, &'static [Shown]);

/// A step; the moment floor after it, and what has then changed from some moments on.
type Row = (Step, Option<u64>, &'static [From]);

const A: Shown = ("a", true, 2, (1, 10), (4, 12));

const B: Shown = ("b", true, 1, (2, 30), (2, 30));

const B_GONE: Shown = ("b", false, 1, (2, 30), (5, 8));

const C: Shown = ("c", true, 1, (3, 5), (3, 5));

const C_GONE: Shown = ("c", false, 1, (3, 5), (6, 3));

const B_BACK: Shown = ("b", true, 4, (7, 25), (7, 25));

/// The moments of the ticks are 10, 30, 5, 12, 8, 3 and 25.
const ROWS: &[Row] = &[
    (
        (
            Deed::Recrawl(10, 0, None, &[("a", 1)]),
            Ok(()),
            (1, 0),
            1,
            &[],
        ),
        None,
        &[
            (10, &[("a", true, 1, (1, 10), (1, 10))]),
            (11, &[]),
            (u64::MAX, &[]),
        ],
    ),
    (
        (
            Deed::Observe(30, &[("b", Some(1))]),
            Ok(()),
            (2, 0),
            1,
            &[B],
        ),
        None,
        &[(11, &[B]), (30, &[B]), (31, &[])],
    ),
    (
        (
            Deed::Observe(5, &[("c", Some(1))]),
            Ok(()),
            (3, 0),
            1,
            &[C, B],
        ),
        None,
        &[(6, &[B, ("a", true, 1, (1, 10), (1, 10))]), (30, &[B])],
    ),
    (
        (
            Deed::Observe(12, &[("a", Some(2))]),
            Ok(()),
            (4, 0),
            3,
            &[A],
        ),
        None,
        &[
            (0, &[A, C, B]),
            (5, &[A, C, B]),
            (6, &[A, B]),
            (12, &[A, B]),
            (13, &[B]),
            (31, &[]),
        ],
    ),
    (
        (
            Deed::Observe(8, &[("b", None)]),
            Ok(()),
            (5, 0),
            4,
            &[B_GONE],
        ),
        None,
        &[(8, &[B_GONE, A]), (9, &[A]), (13, &[])],
    ),
    (
        (Deed::AgeOut(20, 12), Ok(()), (5, 5), 0, &[A, C]),
        Some(8),
        &[(0, &[A, C]), (6, &[A])],
    ),
    (
        (
            Deed::Observe(3, &[("c", None)]),
            Ok(()),
            (6, 5),
            4,
            &[C_GONE],
        ),
        Some(8),
        &[(3, &[C_GONE, A]), (4, &[A])],
    ),
    (
        (Deed::AgeOut(3, 0), Ok(()), (6, 6), 0, &[A]),
        Some(8),
        &[(0, &[A])],
    ),
    (
        (
            Deed::Observe(25, &[("b", Some(4))]),
            Ok(()),
            (7, 6),
            4,
            &[B_BACK],
        ),
        Some(8),
        &[(12, &[B_BACK, A]), (13, &[B_BACK]), (26, &[])],
    ),
];

/// Whether each of these changed last at the moment or later.
fn changed_so(rt: &impl Abort, alloc: Global, view: &View, from: &From) -> bool {
    let changed = view.changed_from_moment(alloc, from.0).expect(rt, "memory");
    lists(&changed, from.1)
}

fn all_changed_so(rt: &impl Abort, alloc: Global, view: &View, all: &[From]) -> bool {
    for from in all {
        if !changed_so(rt, alloc, view, from) {
            return false;
        }
    }
    true
}

/// Whether the row is so, from the state that the rows before left.
fn holds(rt: &impl Abort, alloc: Global, view: &mut View, row: &Row) -> bool {
    let (step, moment_floor, all) = row;
    let went_so = goes_so(rt, alloc, view, step, false);
    let stands_so = view.ready_moment() == 10 && view.moment_floor() == *moment_floor;
    went_so && stands_so && all_changed_so(rt, alloc, view, all)
}

fn assert_lists_from_moments(rt: &impl Abort, alloc: Global, view: &mut View) {
    check!(rt; view.ready_moment() == 0 && view.moment_floor().is_none());
    check!(rt; all_changed_so(rt, alloc, view, &[(0, &[])]));
    for (i, row) in ROWS.iter().enumerate() {
        check!(rt; holds(rt, alloc, view, row), i);
    }
}

#[test]
fn lists_from_a_moment_on(rt: HostRuntime) {
    let mut view = View::new(rt.alloc(), 1, 1);
    assert_lists_from_moments(&rt, rt.alloc(), &mut view);
    drop(view);
}
