//! What is answered since a moment.
use super::clock;
use crate::checks::check;
use crate::making::{Found, Told, listing_of, pairs_of};
use std::alloc::Global;
use std::process::Abort;
use wm_since::{Answer, Every, Listed, Query, Since, answer};
use wm_view::{Op, View};

/// What happens to a view, and what is answered.
enum Row {
    /// The first listing finds this at the moment.
    Lists(u64, Found),
    /// This is observed at the moment.
    Observes(u64, Told),
    /// At the moment, what was deleted so long ago is forgotten.
    Forgets(u64, u64),
    /// A question since the moment has this answer.
    Answers(u64, &'static str),
}

/// A file as a text: its path, a `+` before it if it is new, and a `-` before that if it is gone.
fn push_file(rt: &impl Abort, text: &mut String, file: &Listed) {
    text.push(' ').expect(rt, "memory");
    if !file.entry.exists {
        text.push('-').expect(rt, "memory");
    }
    if file.is_new {
        text.push('+').expect(rt, "memory");
    }
    text.push_str(file.entry.path.as_str()).expect(rt, "memory");
}

/// An answer as a text: its clock, whether it is fresh, and its files.
fn shown(rt: &impl Abort, alloc: Global, answer: &Answer) -> String {
    let mut text = answer.clock.text(alloc).expect(rt, "memory");
    if answer.fresh {
        text.push_str(" fresh").expect(rt, "memory");
    }
    for file in answer.files.as_slice() {
        push_file(rt, &mut text, file);
    }
    text
}

/// What is answered about every file since the moment, as a text.
fn told_since(rt: &impl Abort, alloc: Global, view: &View, moment: u64) -> String {
    let query = Query {
        since: Some(Since::Moment(moment)),
        test: Every,
        empty_on_fresh: false,
    };
    let answer = answer(alloc, view, &query).expect(rt, "an answer");
    let text = shown(rt, alloc, &answer);
    drop(answer);
    text
}

fn performs(alloc: Global, view: &mut View, op: Op) -> bool {
    let is_done = view.perform(alloc, &op).is_ok();
    drop(op);
    is_done
}

/// Whether the row is so, from the state that the rows before left.
fn goes_so(rt: &impl Abort, alloc: Global, view: &mut View, row: &Row) -> bool {
    match row {
        Row::Lists(moment, found) => {
            let op = Op::Recrawl(*moment, 0, listing_of(rt, alloc, None, found));
            performs(alloc, view, op)
        }
        Row::Observes(moment, told) => {
            let op = Op::Observe(*moment, pairs_of(rt, alloc, told));
            performs(alloc, view, op)
        }
        Row::Forgets(moment, age) => performs(alloc, view, Op::AgeOut(*moment, *age)),
        Row::Answers(moment, wanted) => told_since(rt, alloc, view, *moment).as_str() == *wanted,
    }
}

fn assert_goes(rt: &impl Abort, alloc: Global, rows: &[Row]) {
    let mut view = View::new(alloc, 1, 1);
    for (i, row) in rows.iter().enumerate() {
        check!(rt; goes_so(rt, alloc, &mut view, row), i);
    }
    drop(view);
}

/// A session whose moments rise. An answer is fresh before the first listing, and up to the last deletion that was
/// forgotten.
const WORKED: &[Row] = &[
    Row::Lists(2, &[("a.c", 3)]),
    Row::Observes(3, &[("b.c", Some(4))]),
    Row::Answers(3, "c:1:1:2 +b.c"),
    Row::Answers(2, "c:1:1:2 +b.c +a.c"),
    Row::Answers(1, "c:1:1:2 fresh +b.c +a.c"),
    Row::Observes(7, &[("a.c", None)]),
    Row::Answers(3, "c:1:1:3 -a.c +b.c"),
    Row::Forgets(9, 1),
    Row::Answers(7, "c:1:1:3 fresh +b.c"),
    Row::Answers(8, "c:1:1:3"),
];

/// A session whose moments fall. What changed last before the moment isn't listed, though a file that changed earlier
/// may be.
const FALLING: &[Row] = &[
    Row::Lists(20, &[("a", 1)]),
    Row::Observes(30, &[("b", Some(1))]),
    Row::Observes(5, &[("c", Some(1))]),
    Row::Observes(12, &[("d", Some(1))]),
    Row::Answers(19, "c:1:1:4 fresh +d +c +b +a"),
    Row::Answers(20, "c:1:1:4 +b +a"),
    Row::Answers(21, "c:1:1:4 +b"),
    Row::Answers(30, "c:1:1:4 +b"),
    Row::Answers(31, "c:1:1:4"),
    Row::Answers(u64::MAX, "c:1:1:4"),
    Row::Observes(25, &[("a", Some(2))]),
    Row::Answers(20, "c:1:1:5 +a +b"),
    Row::Answers(21, "c:1:1:5 a +b"),
    Row::Observes(8, &[("b", None)]),
    Row::Answers(21, "c:1:1:6 a"),
    Row::Forgets(8, 0),
    Row::Answers(19, "c:1:1:6 fresh +a +d +c"),
    Row::Answers(20, "c:1:1:6 +a"),
    Row::Observes(26, &[("b", Some(3))]),
    Row::Answers(26, "c:1:1:7 +b"),
    Row::Answers(25, "c:1:1:7 +b a"),
];

/// The first moment and the last one.
const FIRST: &[Row] = &[
    Row::Lists(0, &[("a", 1)]),
    Row::Answers(0, "c:1:1:1 +a"),
    Row::Observes(0, &[("a", None)]),
    Row::Answers(0, "c:1:1:2 -+a"),
    Row::Forgets(0, 0),
    Row::Answers(0, "c:1:1:2 fresh"),
    Row::Answers(1, "c:1:1:2"),
];

const LAST: &[Row] = &[
    Row::Lists(u64::MAX, &[("a", 1)]),
    Row::Answers(u64::MAX - 1, "c:1:1:1 fresh +a"),
    Row::Answers(u64::MAX, "c:1:1:1 +a"),
    Row::Observes(u64::MAX, &[("a", None)]),
    Row::Answers(u64::MAX, "c:1:1:2 -+a"),
    Row::Forgets(u64::MAX, 0),
    Row::Answers(u64::MAX, "c:1:1:2 fresh"),
];

#[test]
fn answers_since_a_moment(rt: HostRuntime) {
    for rows in [WORKED, FALLING, FIRST, LAST] {
        assert_goes(&rt, rt.alloc(), rows);
    }
}

#[test]
fn starts_at_a_clock_where_there_is_one(rt: HostRuntime) {
    let start = Since::Clock(clock(1, 2, 3));
    check!(rt; Since::from_clock(Some(clock(1, 2, 3))) == Some(start));
    check!(rt; Since::from_clock(None).is_none());
}
