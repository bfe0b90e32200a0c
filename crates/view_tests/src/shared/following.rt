//! A subscription that follows a viewer.
ghost use Rattle.std.specs.Prelude.{◌≡◌};

use crate::checks::check;
use crate::shared::making::{Handed, Keeper, every, hand, share, shown};
use std::alloc::Global;
use std::marker::Brand;
use std::process::Abort;
use std::sync::Wait;
use wm_share::{Naming, Opened, Viewer};
use wm_since::Every;
use wm_subs::{Subscription, SubscriptionName};

/// What is handed in and published, and what is told then; and once more with nothing published in between.
const ROWS: &[(Handed, &str, &str)] = &[
    (Handed::Is("a", 1), "none", "none"),
    (Handed::Lists(0, &["b"]), "c:1:1:1 fresh b", "none"),
    (Handed::Is("a", 5), "c:1:1:2 a", "none"),
    (Handed::Is("a", 5), "none", "none"),
    (Handed::Gone("b"), "c:1:1:3 -b", "none"),
    (Handed::Ages(30, 20), "none", "none"),
    (Handed::Is("c", 1), "c:1:1:4 c", "none"),
];

/// What is due, which is then told, and `none` where that is nothing.
fn told<J: Naming>(
    rt: &impl Abort,
    alloc: Global,
    subscription: &mut Subscription<Every>,
    viewer: &mut Viewer<J>,
) -> String {
    match subscription.due_of(alloc, viewer).expect(rt, "an answer") {
        Some(answer) => {
            subscription.told(answer.clock);
            let text = shown(rt, alloc, &answer);
            drop(answer);
            text
        }
        None => String::from_str(alloc, "none").expect(rt, "memory"),
    }
}

/// Whether the subscription tells this.
fn tells<J: Naming>(
    rt: &impl Abort,
    alloc: Global,
    subscription: &mut Subscription<Every>,
    viewer: &mut Viewer<J>,
    wanted: &str,
) -> bool {
    told(rt, alloc, subscription, viewer).as_str() == wanted
}

/// Whether the row is so, from the state that the rows before left.
fn holds<J: Naming, R: Wait + Abort>(
    rt: &R,
    alloc: Global,
    keeper: &mut Keeper<'_, J, R>,
    subscription: &mut Subscription<Every>,
    viewer: &mut Viewer<J>,
    row: &(Handed, &str, &str),
) -> bool {
    hand(rt, alloc, keeper, row.0).expect(rt, "an operation");
    let published = keeper.publish().expect(rt, "a publish");
    viewer.learn(&published);
    drop(published);
    let first = tells(rt, alloc, subscription, viewer, row.1);
    first && tells(rt, alloc, subscription, viewer, row.2)
}

fn assert_follows<J: Naming, R: Wait + Abort>(
    rt: &R,
    alloc: Global,
    keeper: &mut Keeper<'_, J, R>,
    viewer: &mut Viewer<J>,
) {
    let name = SubscriptionName::read(alloc, "all").expect(rt, "a name");
    let mut subscription = Subscription::new(name, every());
    for row in ROWS {
        check!(rt; holds(rt, alloc, keeper, &mut subscription, viewer, row));
    }
    drop(subscription);
}

fn followed<J: Naming, R: Wait + Abort>(rt: &R, alloc: Global, opened: Opened)
    requires { opened.seen.book ≡ J.book }
{
    let (mut keeper, mut pool) = share::<J, R>(rt, alloc, opened, 1, 1);
    let mut viewer = pool.take().expect(rt, "a viewer");
    assert_follows(rt, alloc, &mut keeper, &mut viewer);
    drop(viewer);
    drop(pool);
    drop(keeper);
}

#[test]
fn follows(rt: HostRuntime) {
    followed::<Brand, _>(&rt, rt.alloc(), Opened::new());
}
