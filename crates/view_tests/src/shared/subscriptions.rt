//! Subscriptions, each with its values written out by hand.
mod folding;
mod names;
mod sessions;
mod telling;

use crate::making::{file, pair};
use crate::shared::making::shown;
use std::alloc::Global;
use std::process::Abort;
use wm_clock::ClockId;
use wm_names::Subtree;
use wm_since::{Answer, Every, Query, Since};
use wm_subs::{Subscription, SubscriptionName};
use wm_view::{Listing, Op, View};

/// A clock of root 1 in incarnation 1.
fn clock(tick: u64) -> ClockId {
    ClockId {
        incarnation: 1,
        root: 1,
        tick,
    }
}

/// A subscription to every file since a clock or a moment, if there is one.
fn subscription(
    rt: &impl Abort,
    alloc: Global,
    name: &str,
    since: Option<Since>,
) -> Subscription<Every> {
    let query = Query {
        since,
        test: Every,
        empty_on_fresh: false,
    };
    let name = SubscriptionName::read(alloc, name).expect(rt, "a name");
    Subscription::new(name, query)
}

/// What happens to a view.
#[derive(Clone, Copy)]
enum Event {
    /// Its first whole listing finds nothing.
    Begins,
    /// A file is there, with this size.
    Is(&'static str, u64),
    /// The same at this moment.
    IsAt(u64, &'static str, u64),
    /// A file is gone.
    Gone(&'static str),
    /// What is gone is forgotten.
    Forgets,
}

/// What happens at moment 10 if it has none of its own, and what is forgotten at moment 30.
fn op_of(rt: &impl Abort, alloc: Global, event: &Event) -> Op {
    match *event {
        Event::Begins => Op::Recrawl(10, 0, Listing::new(alloc, Subtree::Whole)),
        Event::Is(path, size) => Op::Observe(10, pair(rt, alloc, path, Some(file(size)))),
        Event::IsAt(moment, path, size) => {
            Op::Observe(moment, pair(rt, alloc, path, Some(file(size))))
        }
        Event::Gone(path) => Op::Observe(10, pair(rt, alloc, path, None)),
        Event::Forgets => Op::AgeOut(30, 20),
    }
}

/// Lets these events happen, one after the other.
fn happen(rt: &impl Abort, alloc: Global, view: &mut View, events: &[Event]) {
    for event in events {
        let op = op_of(rt, alloc, event);
        view.perform(alloc, &op).expect(rt, "an operation");
        drop(op);
    }
}

/// What is told, and `none` where nothing is.
fn told(rt: &impl Abort, alloc: Global, answer: &Option<Answer>) -> String {
    match answer {
        Some(answer) => shown(rt, alloc, answer),
        None => String::from_str(alloc, "none").expect(rt, "memory"),
    }
}
