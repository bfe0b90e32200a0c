//! What is gone for long enough is forgotten.
use super::walking::{Deed, Step, assert_walks};
use super::{Shown, exists_so, stands};
use crate::checks::check;
use crate::making::{Observed, observed};
use std::alloc::Global;
use std::process::Abort;

const B: Shown = ("b", true, 4, (3, 30), (8, 180));

const A_GONE: Shown = ("a", false, 1, (2, 20), (5, 100));

const C_GONE: Shown = ("c", false, 1, (4, 40), (9, 200));

/// `a` is deleted at tick 5 and moment 100, and `c` at tick 9 and moment 200.
const TWO_GONE: Observed = &[
    (20, &[("a", Some(1))]),
    (30, &[("b", Some(1))]),
    (40, &[("c", Some(1))]),
    (100, &[("a", None)]),
    (160, &[("b", Some(2))]),
    (170, &[("b", Some(3))]),
    (180, &[("b", Some(4))]),
    (200, &[("c", None)]),
];

/// A time and an age, the floor after that age-out, and what is left.
type AgeOut = (u64, u64, u64, &'static [Shown]);

const AGE_OUTS: &[AgeOut] = &[
    (199, 100, 0, &[C_GONE, B, A_GONE]),
    (200, 100, 5, &[C_GONE, B]),
    (250, 100, 5, &[C_GONE, B]),
    (299, 100, 5, &[C_GONE, B]),
    (300, 100, 9, &[B]),
    (u64::MAX, 0, 9, &[B]),
    (u64::MAX, u64::MAX - 100, 5, &[C_GONE, B]),
    (u64::MAX, u64::MAX, 0, &[C_GONE, B, A_GONE]),
    (199, u64::MAX, 0, &[C_GONE, B, A_GONE]),
    (0, 0, 0, &[C_GONE, B, A_GONE]),
];

/// Whether an age-out forgets just what isn't left, and a later one of nothing leaves the floor.
fn forgets_so(rt: &impl Abort, alloc: Global, row: &AgeOut) -> bool {
    let (time, age, floor, left) = *row;
    let mut view = observed(rt, alloc, &[], TWO_GONE);
    view.age_out(alloc, time, age).expect(rt, "an age-out");
    let forgot = stands(rt, alloc, &view, (9, floor), 0, left) && exists_so(rt, alloc, &view, &[B]);
    view.age_out(alloc, 0, 0).expect(rt, "an age-out");
    let is_so = forgot && stands(rt, alloc, &view, (9, floor), 0, left);
    drop(view);
    is_so
}

#[test]
fn forgets_what_is_gone_for_long_enough(rt: HostRuntime) {
    for row in AGE_OUTS {
        check!(rt; forgets_so(&rt, rt.alloc(), row), (row.1, row.0));
    }
}

/// `a` is deleted at tick 2 and the last moment.
const GONE_LAST: Observed = &[(u64::MAX, &[("a", None)])];

/// A time and an age, and the floor after that age-out.
const LAST_MOMENT: &[(u64, u64, u64)] = &[(u64::MAX, 1, 0), (9, 10, 0), (u64::MAX, 0, 2)];

fn floor_after(rt: &impl Abort, alloc: Global, time: u64, age: u64) -> u64 {
    let mut view = observed(rt, alloc, &[("a", 1)], GONE_LAST);
    view.age_out(alloc, time, age).expect(rt, "an age-out");
    let floor = view.floor();
    drop(view);
    floor
}

#[test]
fn forgets_at_the_last_moment(rt: HostRuntime) {
    for (time, age, floor) in LAST_MOMENT {
        let is_so = floor_after(&rt, rt.alloc(), *time, *age) == *floor;
        check!(rt; is_so, (age, time));
    }
}

/// `a` is forgotten, told of as gone once more, comes back, and is gone again.
const COMES_BACK: &[Step] = &[
    (Deed::AgeOut(250, 100), Ok(()), (9, 5), 0, &[C_GONE, B]),
    (
        Deed::Observe(290, &[("a", None)]),
        Ok(()),
        (9, 5),
        0,
        &[C_GONE, B],
    ),
    (
        Deed::Observe(300, &[("a", Some(7))]),
        Ok(()),
        (10, 5),
        0,
        &[("a", true, 7, (10, 300), (10, 300)), C_GONE, B],
    ),
    (
        Deed::Observe(310, &[("a", None)]),
        Ok(()),
        (11, 5),
        0,
        &[("a", false, 7, (10, 300), (11, 310)), C_GONE, B],
    ),
];

#[test]
fn knows_again_what_comes_back(rt: HostRuntime) {
    let alloc = rt.alloc();
    let mut view = observed(&rt, alloc, &[], TWO_GONE);
    assert_walks(&rt, alloc, &mut view, COMES_BACK, false);
    drop(view);
}
