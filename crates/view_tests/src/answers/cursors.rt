//! The cursors of a root.
use super::{clock, clock_at, rendered_by};
use crate::checks::check;
use crate::making::{Observed, observe, observed};
use std::alloc::Global;
use std::process::Abort;
use wm_clock::{ClockId, CursorName};
use wm_since::{Answer, Cursors, Every, MAX_CURSORS, Query, Since, answer};
use wm_view::View;

/// Moves a cursor where there is room for it, and tells whether there was.
fn moves_to(
    rt: &impl Abort,
    alloc: Global,
    cursors: &mut Cursors,
    name: &str,
    clock: ClockId,
) -> bool {
    let name = CursorName::read(alloc, name).expect(rt, "a name");
    let has_room = cursors.has_room(&name);
    if has_room {
        cursors.moved(name, clock);
    } else {
        drop(name);
    }
    has_room
}

/// The clock at which a cursor stands.
fn clock_of(rt: &impl Abort, alloc: Global, cursors: &Cursors, name: &str) -> Option<ClockId> {
    let name = CursorName::read(alloc, name).expect(rt, "a name");
    let clock = cursors.clock(&name);
    drop(name);
    clock
}

/// Whether each of these cursors stands at its tick, and is unknown where it has none.
fn stand(
    rt: &impl Abort,
    alloc: Global,
    cursors: &Cursors,
    wanted: &[(&str, Option<u64>)],
) -> bool {
    for (name, tick) in wanted {
        if clock_of(rt, alloc, cursors, name) != clock_at(*tick) {
            return false;
        }
    }
    true
}

/// A cursor and the tick to which it is moved, and whether there is room; how many there are then, and
/// where some stand.
type Move = (
    &'static str,
    u64,
    bool,
    usize,
    &'static [(&'static str, Option<u64>)],
);

/// Whether a cursor is moved as told.
fn moves_so(rt: &impl Abort, alloc: Global, cursors: &mut Cursors, row: &Move) -> bool {
    let (name, tick, has_room, count, wanted) = *row;
    let is_moved = moves_to(rt, alloc, cursors, name, clock(1, 1, tick));
    is_moved == has_room && cursors.len() == count && stand(rt, alloc, cursors, wanted)
}

fn assert_moves(rt: &impl Abort, alloc: Global, cursors: &mut Cursors, rows: &[Move]) {
    for row in rows {
        check!(rt; moves_so(rt, alloc, cursors, row), (row.0, row.1));
    }
}

const MOVES: &[Move] = &[
    ("x", 3, true, 1, &[("x", Some(3)), ("y", None)]),
    ("y", 4, true, 2, &[("x", Some(3)), ("y", Some(4))]),
    ("x", 7, true, 2, &[("x", Some(7)), ("y", Some(4))]),
    ("X", 9, true, 3, &[("x", Some(7)), ("y", Some(4))]),
    ("y", 2, true, 3, &[("x", Some(7)), ("y", Some(2))]),
];

#[test]
fn moves_cursors(rt: HostRuntime) {
    let mut cursors = Cursors::new(rt.alloc()).expect(&rt, "memory");
    assert_moves(&rt, rt.alloc(), &mut cursors, MOVES);
    drop(cursors);
}

/// Whether there are no cursors, and there is room for one.
fn are_new(rt: &impl Abort, alloc: Global, cursors: &Cursors) -> bool {
    let name = CursorName::read(alloc, "x").expect(rt, "a name");
    let are_new = cursors.len() == 0 && cursors.clock(&name).is_none() && cursors.has_room(&name);
    drop(name);
    are_new
}

#[test]
fn has_no_cursors_at_first(rt: HostRuntime) {
    let cursors = Cursors::new(rt.alloc()).expect(&rt, "memory");
    check!(rt; are_new(&rt, rt.alloc(), &cursors));
    drop(cursors);
}

/// Whether there is room for a cursor that is named by a number. It is moved to the next tick.
fn makes(rt: &impl Abort, alloc: Global, cursors: &mut Cursors, number: u16) -> bool {
    let name = format!(in alloc; "{number}").expect(rt, "memory");
    let next = clock(1, 1, u64::from(number) + 1);
    let is_moved = moves_to(rt, alloc, cursors, &name, next);
    drop(name);
    is_moved
}

/// Makes cursors named by the numbers below 256, and tells the first for which there was no room.
fn fill(rt: &impl Abort, alloc: Global, cursors: &mut Cursors) -> Option<u16> {
    for number in 0..256 {
        if !makes(rt, alloc, cursors, number) {
            return Some(number);
        }
    }
    None
}

/// What is done when there is room for no other cursor.
const CROWDED: &[Move] = &[
    (
        "256",
        300,
        false,
        MAX_CURSORS,
        &[("256", None), ("254", Some(255))],
    ),
    (
        "0",
        301,
        true,
        MAX_CURSORS,
        &[("0", Some(301)), ("254", Some(255))],
    ),
    (
        "255",
        302,
        true,
        MAX_CURSORS,
        &[("255", Some(302)), ("254", Some(255))],
    ),
    (
        "128",
        303,
        true,
        MAX_CURSORS,
        &[("128", Some(303)), ("254", Some(255))],
    ),
];

#[test]
fn has_no_room_for_one_more(rt: HostRuntime) {
    let mut cursors = Cursors::new(rt.alloc()).expect(&rt, "memory");
    let refused = fill(&rt, rt.alloc(), &mut cursors);
    check!(rt; refused.is_none(), refused);
    assert_moves(&rt, rt.alloc(), &mut cursors, CROWDED);
    drop(cursors);
}

/// What is answered about every file since a clock.
fn answer_since(rt: &impl Abort, alloc: Global, view: &View, since: Option<ClockId>) -> Answer {
    let query = Query {
        since: Since::from_clock(since),
        test: Every,
        empty_on_fresh: false,
    };
    answer(alloc, view, &query).expect(rt, "an answer")
}

/// Whether a question by a cursor is answered so: whether it is fresh, and the names. The cursor moves.
fn is_answered(
    rt: &impl Abort,
    alloc: Global,
    view: &View,
    cursors: &mut Cursors,
    row: &Asked,
) -> bool {
    let (cursor, _, fresh, names) = *row;
    let answer = answer_since(rt, alloc, view, clock_of(rt, alloc, cursors, cursor));
    let is_moved = moves_to(rt, alloc, cursors, cursor, answer.clock);
    let told = rendered_by(rt, alloc, &answer, &["name"]);
    let is_so = is_moved && answer.fresh == fresh && told.as_str() == names;
    drop(told);
    drop(answer);
    is_so
}

/// A cursor, and what is seen before it is asked; whether the answer is fresh, and its names.
type Asked = (&'static str, Observed, bool, &'static str);

const ASKED: &[Asked] = &[
    ("x", &[(10, &[("a.c", Some(3))])], true, "[\"b.c\",\"a.c\"]"),
    ("x", &[(10, &[("a.c", Some(3))])], false, "[]"),
    ("x", &[(10, &[("a.c", Some(5))])], false, "[\"a.c\"]"),
    ("y", &[(10, &[("a.c", Some(5))])], true, "[\"a.c\",\"b.c\"]"),
    ("x", &[(10, &[("a.c", Some(6))])], false, "[\"a.c\"]"),
    ("y", &[(10, &[("a.c", Some(6))])], false, "[\"a.c\"]"),
    ("y", &[(10, &[("a.c", Some(6))])], false, "[]"),
];

fn assert_answers(rt: &impl Abort, alloc: Global, view: &mut View, cursors: &mut Cursors) {
    for (i, row) in ASKED.iter().enumerate() {
        observe(rt, alloc, view, row.1);
        check!(rt; is_answered(rt, alloc, view, cursors, row), i);
    }
}

const TWO: Observed = &[(10, &[("a.c", Some(3))]), (10, &[("b.c", Some(4))])];

#[test]
fn a_cursor_is_fresh_once(rt: HostRuntime) {
    let mut view = observed(&rt, rt.alloc(), &[], TWO);
    let mut cursors = Cursors::new(rt.alloc()).expect(&rt, "memory");
    assert_answers(&rt, rt.alloc(), &mut view, &mut cursors);
    drop(cursors);
    drop(view);
}
