//! Views through generated sessions, compared after each operation with what the whole history gives.
use super::from_moments::are_alike_from_moments;
use super::generated::{Dice, Mix};
use super::reference::{Listed, Reference};
use crate::checks::check;
use std::alloc::Global;
use std::process::Abort;
use wm_disk::Refusal;
use wm_names::RelPath;
use wm_view::{Known, Op, View};

/// How many operations a session has.
const OPERATIONS: u64 = 40;

/// The seeds of sessions, from the first up to the last, and the mix of their operations.
type Sessions = (u64, u64, Mix);

const SESSIONS: &[Sessions] = &[
    (1, 16, (6, 3, 1)),
    (17, 32, (8, 1, 1)),
    (33, 48, (2, 7, 1)),
    (49, 64, (4, 2, 4)),
];

/// Whether just these are listed, in this order.
pub fn lists(listed: &[(RelPath, Known)], wanted: &[Listed]) -> bool {
    if listed.len() != wanted.len() {
        return false;
    }
    for (entry, (path, known)) in listed.iter().zip(wanted) {
        if entry.0.as_str() != *path || entry.1 != *known {
            return false;
        }
    }
    true
}

/// Whether both list the same as changed after a tick.
fn change_alike(
    rt: &impl Abort,
    alloc: Global,
    view: &View,
    reference: &Reference,
    since: u64,
) -> bool {
    let listed = view.changed_after(alloc, since).expect(rt, "memory");
    lists(&listed, &reference.changed_after(rt, alloc, since))
}

/// Whether both list the same as existing.
fn exist_alike(rt: &impl Abort, alloc: Global, view: &View, reference: &Reference) -> bool {
    let listed = view.existing(alloc).expect(rt, "memory");
    lists(&listed, &reference.existing(rt, alloc))
}

/// Whether both list the same after each of some ticks, since some moments, and as existing.
fn list_alike(rt: &impl Abort, alloc: Global, view: &View, reference: &Reference) -> bool {
    let tick = reference.tick();
    for since in [0, reference.floor(), tick / 2, tick.saturating_sub(1), tick] {
        if !change_alike(rt, alloc, view, reference, since) {
            return false;
        }
    }
    are_alike_from_moments(rt, alloc, view, reference) && exist_alike(rt, alloc, view, reference)
}

/// Whether both stand at the same tick and the same floors, and were ready at the same moment.
fn stand_alike(view: &View, reference: &Reference) -> bool {
    view.ready() == (0 < reference.tick())
        && view.tick() == reference.tick()
        && view.floor() == reference.floor()
        && view.moment_floor() == reference.moment_floor()
        && view.ready_moment() == reference.ready_moment()
}

/// Whether the operation has the same result on both, and leaves them alike.
fn go_alike(
    rt: &impl Abort,
    alloc: Global,
    view: &mut View,
    reference: &mut Reference,
    op: &Op,
) -> bool {
    let is_same = view.perform(alloc, op) == reference.perform(op);
    is_same && stand_alike(view, reference) && list_alike(rt, alloc, view, reference)
}

/// Whether both go alike through a session.
fn stay_alike(
    rt: &impl Abort,
    alloc: Global,
    dice: &mut Dice,
    mix: Mix,
    view: &mut View,
    reference: &mut Reference,
) -> bool {
    for _ in 0..OPERATIONS {
        let op = dice.op(rt, alloc, mix, reference);
        let is_alike = go_alike(rt, alloc, view, reference, &op);
        drop(op);
        if !is_alike {
            return false;
        }
    }
    true
}

/// Whether both go alike through the session of this seed.
fn stay_alike_from(rt: &impl Abort, alloc: Global, seed: u64, mix: Mix) -> bool {
    let mut view = View::new(alloc, 1, 1);
    let mut reference = Reference::new(alloc);
    let mut dice = Dice::new(seed);
    let are_alike = stay_alike(rt, alloc, &mut dice, mix, &mut view, &mut reference);
    drop(dice);
    drop(reference);
    drop(view);
    are_alike
}

/// The seed of the first session in which the view parts from the reference.
fn parting(rt: &impl Abort, alloc: Global, sessions: &Sessions) -> Option<u64> {
    let (first, last, mix) = *sessions;
    for seed in first..=last {
        if !stay_alike_from(rt, alloc, seed, mix) {
            return Some(seed);
        }
    }
    None
}

#[test]
fn agrees_with_the_whole_history(rt: HostRuntime) {
    for sessions in SESSIONS {
        let parted = parting(&rt, rt.alloc(), sessions);
        check!(rt; parted.is_none(), parted);
    }
}

/// Results, and how many operations of all sessions have each at least.
const RESULTS: &[(Result<(), Refusal>, u64)] = &[
    (Ok(()), 1_000),
    (Err(Refusal::NotReady), 64),
    (Err(Refusal::TooMany), 2),
    (Err(Refusal::BadClock), 64),
];

/// How many operations of a session have this result.
fn count_of_session(
    rt: &impl Abort,
    alloc: Global,
    dice: &mut Dice,
    mix: Mix,
    reference: &mut Reference,
    wanted: Result<(), Refusal>,
) -> u64 {
    let mut count = 0u64;
    for _ in 0..OPERATIONS {
        let op = dice.op(rt, alloc, mix, reference);
        if reference.perform(&op) == wanted {
            count = count.saturating_add(1);
        }
        drop(op);
    }
    count
}

/// How many operations of some sessions have it.
fn count_of(
    rt: &impl Abort,
    alloc: Global,
    sessions: &Sessions,
    wanted: Result<(), Refusal>,
) -> u64 {
    let (first, last, mix) = *sessions;
    let mut count = 0u64;
    for seed in first..=last {
        let mut reference = Reference::new(alloc);
        let mut dice = Dice::new(seed);
        let here = count_of_session(rt, alloc, &mut dice, mix, &mut reference, wanted);
        count = count.saturating_add(here);
    }
    count
}

/// Whether so many operations of all sessions have it.
fn come_to(rt: &impl Abort, alloc: Global, wanted: Result<(), Refusal>, least: u64) -> bool {
    let mut count = 0u64;
    for sessions in SESSIONS {
        count = count.saturating_add(count_of(rt, alloc, sessions, wanted));
    }
    least <= count
}

#[test]
fn sessions_come_to_each_result(rt: HostRuntime) {
    for (result, least) in RESULTS {
        check!(rt; come_to(&rt, rt.alloc(), *result, *least));
    }
}
