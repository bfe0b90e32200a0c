//! What a mirror makes of answers that are made by hand.
use super::{Smaller, ask, clock, clock_at, names};
use crate::checks::check;
use crate::making::file;
use std::alloc::Global;
use std::process::Abort;
use wm_disk::Refusal;
use wm_names::{Entry, RelPath, RootPath};
use wm_since::{Answer, Every, Listed, ListedFiles, Mirror, Since};

/// An answer: its tick, whether it is fresh, and its files with whether each exists.
type Told = (u64, bool, &'static [(&'static str, bool)]);

/// A file as an answer made by hand lists it.
fn listed(rt: &impl Abort, alloc: Global, told: Told, name: &str, exists: bool) -> Listed {
    Listed {
        entry: Entry {
            path: RelPath::read(alloc, name).expect(rt, "a path"),
            exists,
            meta: file(1),
        },
        is_new: told.1,
        last: told.0,
        created: told.0,
    }
}

/// An answer made by hand.
fn made(rt: &impl Abort, alloc: Global, told: Told) -> Answer {
    let (tick, fresh, files) = told;
    let mut all = Vec::new(alloc);
    for (name, exists) in files {
        all.push(listed(rt, alloc, told, name, *exists))
            .expect(rt, "memory");
    }
    Answer {
        clock: clock(1, 1, tick),
        fresh,
        files: ListedFiles::new(all),
    }
}

/// What is done with a mirror.
enum Turn {
    /// It asks what changed since this tick.
    Asks(Option<u64>),
    /// It is told that the answer was lost.
    Loses,
    /// It gets an answer, with this result.
    Gets(Told, Result<(), Refusal>),
}

/// Whether a mirror with no open question asks what changed since this tick.
fn asks(rt: &impl Abort, alloc: Global, mirror: &mut Mirror<Every>, tick: Option<u64>) -> bool {
    match ask(rt, alloc, mirror) {
        Some(query) => { query.since == Since::from_clock(clock_at(tick)) && !query.empty_on_fresh }
        None => false,
    }
}

/// Whether a turn goes as told.
fn takes(rt: &impl Abort, alloc: Global, mirror: &mut Mirror<Every>, turn: &Turn) -> bool {
    match turn {
        Turn::Asks(tick) => asks(rt, alloc, mirror, *tick),
        Turn::Loses => {
            mirror.lost();
            true
        }
        Turn::Gets(told, wanted) => {
            let answer = made(rt, alloc, *told);
            let is_so = mirror.apply(alloc, &answer) == *wanted;
            drop(answer);
            is_so
        }
    }
}

/// What a mirror of `/r` shows: the tick of its clock, whether a question is open, and its files.
type Shown = (Option<u64>, bool, &'static str);

/// Whether a mirror shows this.
fn shows(rt: &impl Abort, alloc: Global, mirror: &Mirror<Every>, shown: &Shown) -> bool {
    let (tick, open, files) = *shown;
    let is_at = mirror.root().as_str() == "/r" && mirror.clock() == clock_at(tick);
    let names = names(rt, alloc, mirror);
    let is_so = is_at && mirror.open() == open && names.as_str() == files;
    drop(names);
    is_so
}

// A fresh answer is taken as it is, whatever it tells.
const FIRST: Told = (1, true, &[("b", true), ("gone", false), ("a", true)]);

const SECOND: Told = (3, false, &[("b", false), ("ab", true), ("other", false)]);

/// What a mirror that has asked nothing shows.
const NEW: Shown = (None, false, "");

/// The turns of a mirror, and what it shows after each.
const TURNS: &[(Turn, Shown)] = &[
    (
        Turn::Gets(FIRST, Err(Refusal::NoQuestion)),
        (None, false, ""),
    ),
    (Turn::Asks(None), (None, true, "")),
    (Turn::Gets(FIRST, Ok(())), (Some(1), false, "a b gone ")),
    (Turn::Asks(Some(1)), (Some(1), true, "a b gone ")),
    (Turn::Loses, (Some(1), false, "a b gone ")),
    (
        Turn::Gets(SECOND, Err(Refusal::NoQuestion)),
        (Some(1), false, "a b gone "),
    ),
    (Turn::Asks(Some(1)), (Some(1), true, "a b gone ")),
    (Turn::Gets(SECOND, Ok(())), (Some(3), false, "a ab gone ")),
];

/// Whether a turn goes as told, and the mirror shows this after it.
fn goes_so(
    rt: &impl Abort,
    alloc: Global,
    mirror: &mut Mirror<Every>,
    turn: &Turn,
    shown: &Shown,
) -> bool {
    takes(rt, alloc, mirror, turn) && shows(rt, alloc, mirror, shown)
}

fn assert_turns(rt: &impl Abort, alloc: Global, mirror: &mut Mirror<Every>) {
    for (i, (turn, shown)) in TURNS.iter().enumerate() {
        check!(rt; goes_so(rt, alloc, mirror, turn, shown), i);
    }
}

#[test]
fn mirrors_answers(rt: HostRuntime) {
    let root = RootPath::read(rt.alloc(), "/r").expect(&rt, "a root path");
    let mut mirror = Mirror::new(rt.alloc(), root, Every).expect(&rt, "a mirror");
    check!(rt; shows(&rt, rt.alloc(), &mirror, &NEW));
    assert_turns(&rt, rt.alloc(), &mut mirror);
    drop(mirror);
}

#[test]
fn refuses_tests_of_more_than_the_path(rt: HostRuntime) {
    let root = RootPath::read(rt.alloc(), "/r").expect(&rt, "a root path");
    let refused = Mirror::new(rt.alloc(), root, Smaller { size: 5 }).err();
    check!(rt; refused == Some(Refusal::BadExpression));
}
