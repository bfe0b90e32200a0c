//! Views through sessions, step by step.
use super::walking::{Deed, Step, assert_walks};
use super::{Shown, exists_so, stands};
use crate::checks::check;
use std::alloc::Global;
use std::process::Abort;
use wm_disk::Refusal;
use wm_view::View;

/// Files come, change, go, and come back, one at a time.
const OBSERVED: &[Step] = &[
    (Deed::Recrawl(10, 0, None, &[]), Ok(()), (1, 0), 0, &[]),
    (
        Deed::Observe(20, &[("a.c", Some(3))]),
        Ok(()),
        (2, 0),
        1,
        &[("a.c", true, 3, (2, 20), (2, 20))],
    ),
    (
        Deed::Observe(30, &[("b.c", Some(4))]),
        Ok(()),
        (3, 0),
        1,
        &[
            ("b.c", true, 4, (3, 30), (3, 30)),
            ("a.c", true, 3, (2, 20), (2, 20)),
        ],
    ),
    (
        Deed::Observe(35, &[("b.c", Some(4))]),
        Ok(()),
        (3, 0),
        1,
        &[
            ("b.c", true, 4, (3, 30), (3, 30)),
            ("a.c", true, 3, (2, 20), (2, 20)),
        ],
    ),
    (
        Deed::Observe(40, &[("t", Some(1))]),
        Ok(()),
        (4, 0),
        3,
        &[("t", true, 1, (4, 40), (4, 40))],
    ),
    (
        Deed::Observe(50, &[("a.c", None)]),
        Ok(()),
        (5, 0),
        4,
        &[("a.c", false, 3, (2, 20), (5, 50))],
    ),
    (
        Deed::Observe(60, &[("t", None)]),
        Ok(()),
        (6, 0),
        3,
        &[
            ("t", false, 1, (4, 40), (6, 60)),
            ("a.c", false, 3, (2, 20), (5, 50)),
        ],
    ),
    (
        Deed::Observe(70, &[("a.c", Some(5))]),
        Ok(()),
        (7, 0),
        0,
        &[
            ("a.c", true, 5, (7, 70), (7, 70)),
            ("t", false, 1, (4, 40), (6, 60)),
            ("b.c", true, 4, (3, 30), (3, 30)),
        ],
    ),
    (Deed::Observe(75, &[("t", None)]), Ok(()), (7, 0), 7, &[]),
];

/// What exists after that.
const LEFT: &[Shown] = &[
    ("a.c", true, 5, (7, 70), (7, 70)),
    ("b.c", true, 4, (3, 30), (3, 30)),
];

fn assert_session(rt: &impl Abort, alloc: Global, view: &mut View) {
    assert_walks(rt, alloc, view, OBSERVED, false);
    check!(rt; view.ready());
    check!(rt; exists_so(rt, alloc, view, LEFT));
    check!(rt; stands(rt, alloc, view, (7, 0), u64::MAX, &[]));
}

#[test]
fn follows_a_session(rt: HostRuntime) {
    let mut view = View::new(rt.alloc(), 1, 1);
    assert_session(&rt, rt.alloc(), &mut view);
    drop(view);
}

/// What a view refuses before a whole listing that began at tick 0.
const TOO_EARLY: &[Step] = &[
    (
        Deed::Observe(10, &[("a", Some(1))]),
        Err(Refusal::NotReady),
        (0, 0),
        0,
        &[],
    ),
    (
        Deed::Recrawl(10, 0, Some("x"), &[("x/a", 1)]),
        Err(Refusal::NotReady),
        (0, 0),
        0,
        &[],
    ),
    (
        Deed::Recrawl(10, 1, None, &[("a", 1)]),
        Err(Refusal::NotReady),
        (0, 0),
        0,
        &[],
    ),
    (
        Deed::Recrawl(10, 1, Some("x"), &[("x/a", 1)]),
        Err(Refusal::NotReady),
        (0, 0),
        0,
        &[],
    ),
    (Deed::AgeOut(10, 0), Err(Refusal::NotReady), (0, 0), 0, &[]),
];

const FIRST_LISTING: &[Step] = &[(
    Deed::Recrawl(20, 0, None, &[("a", 1)]),
    Ok(()),
    (1, 0),
    0,
    &[("a", true, 1, (1, 20), (1, 20))],
)];

/// Whether the view is of root 5 in incarnation 3, and is ready or isn't.
fn is_of_root_5(view: &View, ready: bool) -> bool {
    (view.incarnation(), view.root()) == (3, 5) && view.ready() == ready
}

fn assert_waits(rt: &impl Abort, alloc: Global, view: &mut View) {
    check!(rt; is_of_root_5(view, false));
    assert_walks(rt, alloc, view, TOO_EARLY, false);
    check!(rt; is_of_root_5(view, false));
    check!(rt; exists_so(rt, alloc, view, &[]));
    assert_walks(rt, alloc, view, FIRST_LISTING, false);
    check!(rt; is_of_root_5(view, true));
}

#[test]
fn waits_for_a_whole_listing(rt: HostRuntime) {
    let mut view = View::new(rt.alloc(), 3, 5);
    assert_waits(&rt, rt.alloc(), &mut view);
    drop(view);
}

/// `a` is deleted at tick 2 and forgotten, and recrawls that find nothing begin at some tick.
const RECRAWLED: &[Step] = &[
    (
        Deed::Recrawl(10, 0, None, &[("a", 1), ("b", 1)]),
        Ok(()),
        (1, 0),
        0,
        &[
            ("a", true, 1, (1, 10), (1, 10)),
            ("b", true, 1, (1, 10), (1, 10)),
        ],
    ),
    (
        Deed::Observe(20, &[("a", None)]),
        Ok(()),
        (2, 0),
        1,
        &[("a", false, 1, (1, 10), (2, 20))],
    ),
    (
        Deed::Observe(30, &[("c", Some(1))]),
        Ok(()),
        (3, 0),
        2,
        &[("c", true, 1, (3, 30), (3, 30))],
    ),
    (Deed::AgeOut(20, 0), Ok(()), (3, 2), 0, C_AND_B),
    (
        Deed::Recrawl(40, 0, None, &[]),
        Err(Refusal::BadClock),
        (3, 2),
        0,
        C_AND_B,
    ),
    (
        Deed::Recrawl(40, 1, None, &[]),
        Err(Refusal::BadClock),
        (3, 2),
        0,
        C_AND_B,
    ),
    (
        Deed::Recrawl(40, 4, None, &[]),
        Err(Refusal::BadClock),
        (3, 2),
        0,
        C_AND_B,
    ),
    (
        Deed::Recrawl(40, u64::MAX, None, &[]),
        Err(Refusal::BadClock),
        (3, 2),
        0,
        C_AND_B,
    ),
    (
        Deed::Recrawl(40, 2, None, &[]),
        Ok(()),
        (4, 2),
        0,
        &[
            ("b", false, 1, (1, 10), (4, 40)),
            ("c", true, 1, (3, 30), (3, 30)),
        ],
    ),
    (
        Deed::Recrawl(40, 4, None, &[]),
        Ok(()),
        (5, 2),
        0,
        &[
            ("c", false, 1, (3, 30), (5, 40)),
            ("b", false, 1, (1, 10), (4, 40)),
        ],
    ),
];

/// What is known while no recrawl is taken.
const C_AND_B: &[Shown] = &[
    ("c", true, 1, (3, 30), (3, 30)),
    ("b", true, 1, (1, 10), (1, 10)),
];

#[test]
fn recrawls_between_the_floor_and_the_tick(rt: HostRuntime) {
    let alloc = rt.alloc();
    let mut view = View::new(alloc, 1, 1);
    assert_walks(&rt, alloc, &mut view, RECRAWLED, false);
    drop(view);
}

/// Each operation, with what it shows after it.
const PERFORMED: &[Step] = &[
    (
        Deed::Observe(30, &[("a", None)]),
        Err(Refusal::NotReady),
        (0, 0),
        0,
        &[],
    ),
    (
        Deed::Recrawl(20, 0, None, &[("a", 3)]),
        Ok(()),
        (1, 0),
        0,
        &[("a", true, 3, (1, 20), (1, 20))],
    ),
    (
        Deed::Recrawl(25, 2, None, &[]),
        Err(Refusal::BadClock),
        (1, 0),
        0,
        &[("a", true, 3, (1, 20), (1, 20))],
    ),
    (
        Deed::Observe(30, &[("a", None)]),
        Ok(()),
        (2, 0),
        0,
        &[("a", false, 3, (1, 20), (2, 30))],
    ),
    (
        Deed::AgeOut(129, 100),
        Ok(()),
        (2, 0),
        0,
        &[("a", false, 3, (1, 20), (2, 30))],
    ),
    (Deed::AgeOut(130, 100), Ok(()), (2, 2), 0, &[]),
];

#[test]
fn performs_each_operation(rt: HostRuntime) {
    let alloc = rt.alloc();
    let mut view = View::new(alloc, 1, 1);
    assert_walks(&rt, alloc, &mut view, PERFORMED, true);
    drop(view);
}
