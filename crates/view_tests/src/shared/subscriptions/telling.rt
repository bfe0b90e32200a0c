//! What a subscription is told of a view.
use super::Event::{Begins, Forgets, Gone, Is, IsAt};
use super::{Event, clock, happen, subscription, told};
use crate::checks::check;
use std::alloc::Global;
use std::process::Abort;
use wm_since::{Every, Since};
use wm_subs::Subscription;
use wm_view::View;

/// What happens to the view, and what is then told.
type Row = (&'static [Event], &'static str);

/// Whether this is due.
fn is_due(
    rt: &impl Abort,
    alloc: Global,
    view: &View,
    subscription: &Subscription<Every>,
    wanted: &str,
) -> bool {
    let due = subscription.due_on(alloc, view).expect(rt, "an answer");
    let text = told(rt, alloc, &due);
    drop(due);
    let is_so = text.as_str() == wanted;
    drop(text);
    is_so
}

/// Whether this is told next.
fn tells_next(
    rt: &impl Abort,
    alloc: Global,
    view: &View,
    subscription: &mut Subscription<Every>,
    wanted: &str,
) -> bool {
    let next = subscription.due_on(alloc, view).expect(rt, "an answer");
    if let Some(answer) = &next {
        subscription.told(answer.clock);
    }
    let text = told(rt, alloc, &next);
    drop(next);
    let is_so = text.as_str() == wanted;
    drop(text);
    is_so
}

/// Whether the events are followed by this answer. What is due is so until it is told.
fn tells(
    rt: &impl Abort,
    alloc: Global,
    view: &mut View,
    subscription: &mut Subscription<Every>,
    row: &Row,
) -> bool {
    happen(rt, alloc, view, row.0);
    let due = is_due(rt, alloc, view, subscription, row.1);
    due && tells_next(rt, alloc, view, subscription, row.1)
}

fn assert_tells_each(
    rt: &impl Abort,
    alloc: Global,
    view: &mut View,
    subscription: &mut Subscription<Every>,
    rows: &[Row],
) {
    check!(rt; subscription.name().as_str() == "s");
    for (i, row) in rows.iter().enumerate() {
        check!(rt; tells(rt, alloc, view, subscription, row), i);
    }
}

/// What is told of a new view, to a subscription since a clock or a moment, if there is one.
fn assert_tells(rt: &impl Abort, alloc: Global, since: Option<Since>, rows: &[Row]) {
    let mut subscription = subscription(rt, alloc, "s", since);
    let mut view = View::new(alloc, 1, 1);
    assert_tells_each(rt, alloc, &mut view, &mut subscription, rows);
    drop(view);
    drop(subscription);
}

/// A subscription since tick 2 is told of the third, and then of what is deleted.
const SINCE_A_CLOCK: &[Row] = &[
    (&[Begins, Is("a.c", 3), Is("b.c", 4)], "c:1:1:3 b.c"),
    (&[], "none"),
    (&[Gone("a.c")], "c:1:1:4 -a.c"),
    (&[Is("b.c", 4)], "none"),
    (&[Is("a.c", 1), Is("b.c", 5)], "c:1:1:6 b.c a.c"),
];

#[test]
fn tells_since_its_own_last_clock(rt: HostRuntime) {
    assert_tells(&rt, rt.alloc(), Some(Since::Clock(clock(2))), SINCE_A_CLOCK);
}

/// A subscription since moment 20 is told of what changed at it or later, and then of all that changes, at whatever
/// moment.
const SINCE_A_MOMENT: &[Row] = &[
    (
        &[Begins, Is("a.c", 3), IsAt(19, "b.c", 4), IsAt(20, "c.c", 5)],
        "c:1:1:4 c.c",
    ),
    (&[], "none"),
    (&[Is("a.c", 1), Gone("b.c")], "c:1:1:6 -b.c a.c"),
    (&[IsAt(20, "a.c", 1)], "none"),
];

/// One since a moment to come is told that nothing changed, and then of what changes, before that moment too.
const SINCE_A_MOMENT_TO_COME: &[Row] = &[
    (&[], "none"),
    (&[Begins, Is("a.c", 3)], "c:1:1:2"),
    (&[], "none"),
    (&[Is("b.c", 3)], "c:1:1:3 b.c"),
];

/// One since a moment before the first listing begins afresh.
const SINCE_TOO_EARLY: &[Row] = &[
    (&[Begins, Is("a.c", 3)], "c:1:1:2 fresh a.c"),
    (&[], "none"),
    (&[Gone("a.c")], "c:1:1:3 -a.c"),
];

#[test]
fn begins_at_a_moment(rt: HostRuntime) {
    assert_tells(&rt, rt.alloc(), Some(Since::Moment(20)), SINCE_A_MOMENT);
    assert_tells(
        &rt,
        rt.alloc(),
        Some(Since::Moment(99)),
        SINCE_A_MOMENT_TO_COME,
    );
    assert_tells(&rt, rt.alloc(), Some(Since::Moment(9)), SINCE_TOO_EARLY);
}

/// Nothing is told before the first whole listing; the first answer is fresh where there is no
/// clock.
const SINCE_NO_CLOCK: &[Row] = &[
    (&[], "none"),
    (&[], "none"),
    (&[Begins], "c:1:1:1 fresh"),
    (&[], "none"),
    (&[Is("a.c", 3)], "c:1:1:2 a.c"),
];

#[test]
fn waits_for_the_first_listing(rt: HostRuntime) {
    assert_tells(&rt, rt.alloc(), None, SINCE_NO_CLOCK);
}

/// The first answer is told though it is neither fresh nor lists a file, and a fresh one without
/// files is told too.
const WITHOUT_FILES: &[Row] = &[
    (&[Begins], "c:1:1:1"),
    (&[], "none"),
    (&[Is("t", 1), Gone("t"), Forgets], "c:1:1:3 fresh"),
    (&[], "none"),
];

#[test]
fn tells_answers_without_files(rt: HostRuntime) {
    assert_tells(&rt, rt.alloc(), Some(Since::Clock(clock(1))), WITHOUT_FILES);
}

/// A clock that isn't one of the view's is answered afresh.
const SINCE_A_LATER_CLOCK: &[Row] = &[
    (&[Begins, Is("a.c", 3)], "c:1:1:2 fresh a.c"),
    (&[], "none"),
];

#[test]
fn begins_anew_where_the_clock_is_none_of_the_view(rt: HostRuntime) {
    assert_tells(
        &rt,
        rt.alloc(),
        Some(Since::Clock(clock(9))),
        SINCE_A_LATER_CLOCK,
    );
}

fn assert_told_up_to_a_clock(
    rt: &impl Abort,
    alloc: Global,
    view: &mut View,
    subscription: &mut Subscription<Every>,
) {
    happen(rt, alloc, view, &[Begins, Is("a.c", 3), Is("b.c", 4)]);
    subscription.told(clock(2));
    check!(rt; is_due(rt, alloc, view, subscription, "c:1:1:3 b.c"));
    subscription.told(clock(3));
    check!(rt; is_due(rt, alloc, view, subscription, "none"));
}

#[test]
fn is_told_up_to_a_clock(rt: HostRuntime) {
    let alloc = rt.alloc();
    let mut subscription = subscription(&rt, alloc, "s", None);
    let mut view = View::new(alloc, 1, 1);
    assert_told_up_to_a_clock(&rt, alloc, &mut view, &mut subscription);
    drop(view);
    drop(subscription);
}
