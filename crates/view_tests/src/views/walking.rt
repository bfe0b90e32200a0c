//! What is done to a view, step by step.
use super::{Shown, stands};
use crate::checks::check;
use crate::making::{Found, Told, listing_of, pairs_of};
use std::alloc::Global;
use std::process::Abort;
use wm_disk::Refusal;
use wm_view::{Op, View};

/// What is done to a view.
pub enum Deed {
    /// At this moment, this was observed.
    Observe(u64, Told),
    /// At this moment a reading of this part ended, which began at this tick and found this.
    Recrawl(u64, u64, Option<&'static str>, Found),
    /// At this time, what was deleted so long ago is forgotten.
    AgeOut(u64, u64),
}

/// What is done, and with what result; the tick and the floor then, and what has then changed after an
/// earlier tick.
pub type Step = (Deed, Result<(), Refusal>, (u64, u64), u64, &'static [Shown]);

/// The deed as a value.
fn op_of(rt: &impl Abort, alloc: Global, deed: &Deed) -> Op {
    match deed {
        Deed::Observe(moment, told) => Op::Observe(*moment, pairs_of(rt, alloc, told)),
        Deed::Recrawl(moment, begun_at, top, found) => {
            Op::Recrawl(*moment, *begun_at, listing_of(rt, alloc, *top, found))
        }
        Deed::AgeOut(time, age) => Op::AgeOut(*time, *age),
    }
}

/// Whether the deed, done as a value, has this result.
fn performs(
    rt: &impl Abort,
    alloc: Global,
    view: &mut View,
    deed: &Deed,
    wanted: Result<(), Refusal>,
) -> bool {
    let op = op_of(rt, alloc, deed);
    let is_so = view.perform(alloc, &op) == wanted;
    drop(op);
    is_so
}

/// Whether the deed, done by the method for it, has this result.
fn does(
    rt: &impl Abort,
    alloc: Global,
    view: &mut View,
    deed: &Deed,
    wanted: Result<(), Refusal>,
) -> bool {
    let result = match deed {
        Deed::Observe(moment, told) => {
            let pairs = pairs_of(rt, alloc, told);
            let result = view.observe(alloc, *moment, &pairs);
            drop(pairs);
            result
        }
        Deed::Recrawl(moment, begun_at, top, found) => {
            let listing = listing_of(rt, alloc, *top, found);
            let result = view.recrawl(alloc, *moment, *begun_at, &listing);
            drop(listing);
            result
        }
        Deed::AgeOut(time, age) => view.age_out(alloc, *time, *age),
    };
    result == wanted
}

/// Whether a step goes as told, as a value or by the method for it.
pub fn goes_so(
    rt: &impl Abort,
    alloc: Global,
    view: &mut View,
    step: &Step,
    as_value: bool,
) -> bool {
    let (deed, result, at, since, shown) = step;
    let done = if as_value {
        performs(rt, alloc, view, deed, *result)
    } else {
        does(rt, alloc, view, deed, *result)
    };
    done && stands(rt, alloc, view, *at, *since, shown)
}

/// Takes the view through the steps, each of which goes as told.
pub fn assert_walks(
    rt: &impl Abort,
    alloc: Global,
    view: &mut View,
    steps: &[Step],
    as_value: bool,
) {
    for (i, step) in steps.iter().enumerate() {
        check!(rt; goes_so(rt, alloc, view, step, as_value), i);
    }
}
