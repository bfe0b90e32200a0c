//! What a publish tells and what a viewer answers, after one operation and the next.
ghost use Rattle.std.specs.Prelude.{◌≡◌};

use crate::checks::check;
use crate::shared::making::{Handed, Keeper, answers, hand, share};
use std::alloc::Global;
use std::marker::Brand;
use std::process::Abort;
use std::sync::Wait;
use wm_clock::ClockId;
use wm_disk::Refusal;
use wm_share::{Naming, Opened, Pool, ShareId, Shares, Told, Viewer};

/// What is handed in; what the publish then tells: how many operations, the tick of the clock, the floor, and how
/// the last operation was refused; and what a viewer then answers.
type Row = (Handed, u64, Option<u64>, u64, Option<Refusal>, &'static str);

/// One after the other, on root 7 in incarnation 3.
const ROWS: &[Row] = &[
    (
        Handed::Is("a", 1),
        1,
        None,
        0,
        Some(Refusal::NotReady),
        "6 NotReady",
    ),
    (
        Handed::Lists(0, &["b"]),
        2,
        Some(1),
        0,
        None,
        "c:3:7:1 fresh b",
    ),
    (Handed::Is("a", 5), 3, Some(2), 0, None, "c:3:7:2 fresh a b"),
    (
        Handed::Lists(9, &[]),
        4,
        Some(2),
        0,
        Some(Refusal::BadClock),
        "c:3:7:2 fresh a b",
    ),
    (Handed::Gone("a"), 5, Some(3), 0, None, "c:3:7:3 fresh b"),
    (Handed::Ages(30, 20), 6, Some(3), 3, None, "c:3:7:3 fresh b"),
];

/// Root 7 in incarnation 3, the first share.
const SHARE: ShareId = ShareId {
    number: 0,
    incarnation: 3,
    root: 7,
};

fn clock(tick: Option<u64>) -> Option<ClockId> {
    match tick {
        Some(tick) => Some(ClockId {
            incarnation: 3,
            root: 7,
            tick,
        }),
        None => None,
    }
}

/// Whether this was told.
fn is_told<J: Naming>(told: &Told<J>, row: &Row) -> bool {
    let counts = told.number() == row.1 && told.floor() == row.3;
    counts && told.clock() == clock(row.2) && told.refusal() == row.4 && told.share() == SHARE
}

/// Publishes what waits. Whether this was told, which the viewer learns.
fn tells<J: Naming, R: Wait + Abort>(
    rt: &R,
    keeper: &mut Keeper<'_, J, R>,
    viewer: &mut Viewer<J>,
    row: &Row,
) -> bool {
    let told = keeper.publish().expect(rt, "a publish");
    viewer.learn(&told);
    let is_so = is_told(&told, row);
    drop(told);
    is_so
}

/// Whether the row is so, from the state that the rows before left.
fn holds<J: Naming, R: Wait + Abort>(
    rt: &R,
    alloc: Global,
    keeper: &mut Keeper<'_, J, R>,
    viewer: &mut Viewer<J>,
    row: &Row,
) -> bool {
    hand(rt, alloc, keeper, row.0).expect(rt, "an operation");
    tells(rt, keeper, viewer, row) && answers(rt, alloc, viewer, row.5)
}

fn assert_publishes<J: Naming, R: Wait + Abort>(
    rt: &R,
    alloc: Global,
    keeper: &mut Keeper<'_, J, R>,
    pool: &mut Pool<J>,
) {
    let mut viewer = pool.take().expect(rt, "a viewer");
    check!(rt; pool.share() == SHARE && viewer.share() == SHARE);
    for row in ROWS {
        check!(rt; holds(rt, alloc, keeper, &mut viewer, row));
    }
    drop(viewer);
}

fn published_one_by_one<J: Naming, R: Wait + Abort>(rt: &R, alloc: Global, opened: Opened)
    requires { opened.seen.book ≡ J.book }
{
    let (mut keeper, mut pool) = share::<J, R>(rt, alloc, opened, 3, 7);
    assert_publishes(rt, alloc, &mut keeper, &mut pool);
    drop(pool);
    drop(keeper);
}

#[test]
fn publishes_one_by_one(rt: HostRuntime) {
    published_one_by_one::<Brand, _>(&rt, rt.alloc(), Opened::new());
}

/// Hands in two operations and publishes them. Whether a viewer saw nothing of them while they waited, and then both.
fn are_seen_at_once<J: Naming, R: Wait + Abort>(
    rt: &R,
    alloc: Global,
    keeper: &mut Keeper<'_, J, R>,
    viewer: &mut Viewer<J>,
) -> bool {
    hand(rt, alloc, keeper, Handed::Lists(0, &["b"])).expect(rt, "an operation");
    hand(rt, alloc, keeper, Handed::Is("a", 5)).expect(rt, "an operation");
    let saw_nothing = answers(rt, alloc, viewer, "6 NotReady");
    let told = keeper.publish().expect(rt, "a publish");
    let told_two = told.number() == 2;
    drop(told);
    saw_nothing && told_two && answers(rt, alloc, viewer, "c:3:7:2 fresh a b")
}

/// The same of a keeper that is then gone.
fn are_seen_before_it_goes<J: Naming, R: Wait + Abort>(
    rt: &R,
    alloc: Global,
    mut keeper: Keeper<'_, J, R>,
    viewer: &mut Viewer<J>,
) -> bool {
    let are_seen = are_seen_at_once(rt, alloc, &mut keeper, viewer);
    drop(keeper);
    are_seen
}

fn assert_seen_at_once<J: Naming, R: Wait + Abort>(
    rt: &R,
    alloc: Global,
    keeper: Keeper<'_, J, R>,
    viewer: &mut Viewer<J>,
) {
    check!(rt; are_seen_before_it_goes(rt, alloc, keeper, viewer));
    check!(rt; answers(rt, alloc, viewer, "18 NoPlace"));
}

fn published_at_once<J: Naming, R: Wait + Abort>(rt: &R, alloc: Global, opened: Opened)
    requires { opened.seen.book ≡ J.book }
{
    let (keeper, mut pool) = share::<J, R>(rt, alloc, opened, 3, 7);
    let mut viewer = pool.take().expect(rt, "a viewer");
    assert_seen_at_once(rt, alloc, keeper, &mut viewer);
    drop(viewer);
    drop(pool);
}

#[test]
fn publishes_at_once(rt: HostRuntime) {
    published_at_once::<Brand, _>(&rt, rt.alloc(), Opened::new());
}

/// Publishes what waits, and tells a viewer: the number of the share that was published.
fn tell<J: Naming, R: Wait + Abort>(
    rt: &R,
    keeper: &mut Keeper<'_, J, R>,
    viewer: &mut Viewer<J>,
) -> u64 {
    let told = keeper.publish().expect(rt, "a publish");
    viewer.learn(&told);
    let number = told.share().number;
    drop(told);
    number
}

/// What is published on one root is told to a viewer of another, which learns nothing of it.
fn assert_no_concern<J: Naming, R: Wait + Abort>(
    rt: &R,
    alloc: Global,
    keeper: &mut Keeper<'_, J, R>,
    other_pool: &mut Pool<J>,
) {
    hand(rt, alloc, keeper, Handed::Lists(0, &["b"])).expect(rt, "an operation");
    let mut other = other_pool.take().expect(rt, "a viewer");
    check!(rt; tell(rt, keeper, &mut other) == 0 && other.share().number == 1);
    check!(rt; answers(rt, alloc, &mut other, "6 NotReady"));
    drop(other);
}

/// Publishes on the first share, beside a second one.
fn publish_beside_another<J: Naming, R: Wait + Abort>(
    rt: &R,
    alloc: Global,
    shares: &mut Shares<J>,
    keeper: &mut Keeper<'_, J, R>,
) {
    let (other_keeper, mut other_pool) = shares.share(rt, alloc, 3, 8).expect(rt, "a share");
    assert_no_concern(rt, alloc, keeper, &mut other_pool);
    drop(other_pool);
    drop(other_keeper);
}

fn published_on_one<J: Naming, R: Wait + Abort>(rt: &R, alloc: Global, opened: Opened)
    requires { opened.seen.book ≡ J.book }
{
    let mut shares: Shares<J> = Shares::new(opened);
    let (mut keeper, pool) = shares.share(rt, alloc, 3, 7).expect(rt, "a share");
    publish_beside_another(rt, alloc, &mut shares, &mut keeper);
    drop(pool);
    drop(keeper);
    drop(shares);
}

#[test]
fn publishes_on_one_of_two(rt: HostRuntime) {
    published_on_one::<Brand, _>(&rt, rt.alloc(), Opened::new());
}
