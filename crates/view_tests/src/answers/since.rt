//! What is answered since a clock.
use super::{Smaller, clock, rendered};
use crate::checks::check;
use crate::making::{Observed, observe, observed, ready_with};
use std::alloc::Global;
use std::process::Abort;
use wm_disk::Refusal;
use wm_since::{Answer, Every, Fields, Query, Since, Test, answer};
use wm_view::{Op, View};

/// An answer as a text: its clock, whether it is fresh, and its files as JSON.
fn shown(rt: &impl Abort, alloc: Global, answer: &Answer) -> String {
    let clock = answer.clock.text(alloc).expect(rt, "memory");
    let fields = Fields::default_fields(alloc).expect(rt, "memory");
    let files = rendered(rt, alloc, answer, &fields);
    drop(fields);
    let fresh = if answer.fresh { " fresh" } else { "" };
    let text = format!(in alloc; "{clock}{fresh} {files}").expect(rt, "memory");
    drop(files);
    drop(clock);
    text
}

/// A clock to start from, in numbers: its incarnation, its root and its tick.
type Start = Option<(u64, u64, u64)>;

/// The question of what changed since a clock, of the files that pass a test.
fn query<T: Test>(start: Start, test: T, empty_on_fresh: bool) -> Query<T> {
    let since = match start {
        Some((incarnation, root, tick)) => Some(Since::Clock(clock(incarnation, root, tick))),
        None => None,
    };
    Query {
        since,
        test,
        empty_on_fresh,
    }
}

/// Whether a question is answered with this text.
fn answers<T: Test>(
    rt: &impl Abort,
    alloc: Global,
    view: &View,
    query: &Query<T>,
    wanted: &str,
) -> bool {
    let answer = answer(alloc, view, query).expect(rt, "an answer");
    let text = shown(rt, alloc, &answer);
    drop(answer);
    let is_so = text.as_str() == wanted;
    drop(text);
    is_so
}

/// What is observed, and what is then told of the changes since a tick.
type Told = (Observed, u64, &'static str);

const SESSION: &[Told] = &[
    (
        &[(10, &[("a.c", Some(3))]), (10, &[("b.c", Some(4))])],
        1,
        "c:1:1:3 [{\"exists\":true,\"name\":\"b.c\",\"new\":true,\"size\":4},{\"exists\":true,\"name\":\"a.c\",\"new\":true,\"size\":3}]",
    ),
    (&[(10, &[("b.c", Some(4))])], 3, "c:1:1:3 []"),
    (
        &[
            (10, &[("t", Some(1))]),
            (10, &[("a.c", None)]),
            (10, &[("t", None)]),
        ],
        3,
        "c:1:1:6 [{\"exists\":false,\"name\":\"t\",\"new\":true,\"size\":1},{\"exists\":false,\"name\":\"a.c\",\"new\":false,\"size\":3}]",
    ),
    (
        &[(10, &[("a.c", Some(5))])],
        4,
        "c:1:1:7 [{\"exists\":true,\"name\":\"a.c\",\"new\":true,\"size\":5},{\"exists\":false,\"name\":\"t\",\"new\":false,\"size\":1}]",
    ),
];

/// Whether this is told after these observations.
fn tells(rt: &impl Abort, alloc: Global, view: &mut View, row: &Told) -> bool {
    let (seen, since, wanted) = *row;
    observe(rt, alloc, view, seen);
    let query = query(Some((1, 1, since)), Every, false);
    answers(rt, alloc, view, &query, wanted)
}

#[test]
fn tells_what_changed(rt: HostRuntime) {
    let mut view = ready_with(&rt, rt.alloc(), &[]);
    for row in SESSION {
        check!(rt; tells(&rt, rt.alloc(), &mut view, row), row.2);
    }
    drop(view);
}

/// Such a session, up to tick 7.
const WORKED: Observed = &[
    (10, &[("a.c", Some(3))]),
    (10, &[("b.c", Some(4))]),
    (10, &[("t", Some(1))]),
    (10, &[("a.c", None)]),
    (10, &[("t", None)]),
    (10, &[("a.c", Some(5))]),
];

/// A clock, whether a fresh answer leaves out the files, and what is told since that clock.
type Row = (Start, bool, &'static str);

fn assert_tells(rt: &impl Abort, alloc: Global, view: &View, rows: &[Row]) {
    for (i, row) in rows.iter().enumerate() {
        let query = query(row.0, Every, row.1);
        check!(rt; answers(rt, alloc, view, &query, row.2), i);
    }
}

const FRESH: &str =
    "c:1:1:7 fresh [{\"exists\":true,\"name\":\"a.c\",\"new\":true,\"size\":5},{\"exists\":true,\"name\":\"b.c\",\"new\":true,\"size\":4}]";

const SINCE_6: &str = "c:1:1:7 [{\"exists\":true,\"name\":\"a.c\",\"new\":true,\"size\":5}]";

/// What is told after the session: afresh where the clock isn't one of this view, and with no files
/// where it is asked so.
const AFTER_ALL: &[Row] = &[
    (None, false, FRESH),
    (Some((2, 1, 3)), false, FRESH),
    (Some((1, 2, 3)), false, FRESH),
    (Some((1, 1, 8)), false, FRESH),
    (None, true, "c:1:1:7 fresh []"),
    (Some((1, 1, 6)), true, SINCE_6),
];

#[test]
fn answers_afresh(rt: HostRuntime) {
    let alloc = rt.alloc();
    let view = observed(&rt, alloc, &[], WORKED);
    assert_tells(&rt, alloc, &view, AFTER_ALL);
    drop(view);
}

/// What is told once `t`, which was deleted at tick 6, is forgotten, so that nothing before is known for
/// sure.
const ONCE_FORGOTTEN: &[Row] = &[
    (Some((1, 1, 5)), false, FRESH),
    (Some((1, 1, 6)), false, SINCE_6),
];

#[test]
fn answers_afresh_once_some_is_forgotten(rt: HostRuntime) {
    let alloc = rt.alloc();
    let mut view = observed(&rt, alloc, &[], WORKED);
    let op = Op::AgeOut(30, 20);
    view.perform(alloc, &op).expect(&rt, "an operation");
    drop(op);
    assert_tells(&rt, alloc, &view, ONCE_FORGOTTEN);
    drop(view);
}

/// What is told of the files of fewer than 5 bytes.
const SMALLER: &str =
    "c:1:1:7 [{\"exists\":false,\"name\":\"t\",\"new\":true,\"size\":1},{\"exists\":true,\"name\":\"b.c\",\"new\":true,\"size\":4}]";

#[test]
fn answers_with_what_passes(rt: HostRuntime) {
    let alloc = rt.alloc();
    let view = observed(&rt, alloc, &[], WORKED);
    let query = query(Some((1, 1, 1)), Smaller { size: 5 }, false);
    check!(rt; answers(&rt, alloc, &view, &query, SMALLER));
    drop(view);
}

#[test]
fn refuses_before_the_first_listing(rt: HostRuntime) {
    let alloc = rt.alloc();
    let view = View::new(alloc, 1, 1);
    let refused = answer(alloc, &view, &query(None, Every, false)).err();
    drop(view);
    check!(rt; refused == Some(Refusal::NotReady));
}
