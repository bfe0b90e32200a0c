//! A pool gives each of its viewers out once.
ghost use Rattle.std.specs.Prelude.{◌≡◌};

use crate::checks::check;
use std::alloc::Global;
use std::marker::Brand;
use std::process::Abort;
use std::sync::Wait;
use wm_disk::Refusal;
use wm_share::{MAX_VIEWERS, Naming, Opened, Pool, Shares, Viewer};

/// Takes all the viewers that the pool gives out.
fn take_all<J: Naming>(rt: &impl Abort, pool: &mut Pool<J>, viewers: &mut Vec<Viewer<J>>) {
    for _ in 0..2 * MAX_VIEWERS {
        match pool.take() {
            Ok(viewer) => viewers.push(viewer).expect(rt, "memory"),
            Err(_) => break,
        }
    }
}

/// Whether the pool has no viewer to give out.
fn is_empty<J: Naming>(pool: &mut Pool<J>) -> bool {
    let taken = pool.take();
    let is_empty = matches!(taken, Err(Refusal::NoPlace));
    drop(taken);
    is_empty
}

/// Whether it has just one, which is let go.
fn has_one<J: Naming>(pool: &mut Pool<J>) -> bool {
    let first = pool.take();
    let second = pool.take();
    let is_one = first.is_ok() && second.is_err();
    drop(second);
    drop(first);
    is_one
}

/// Takes all the viewers out of a pool, which then lets go one of another share, and takes back one of its own.
fn assert_takes_and_gives<J: Naming>(
    rt: &impl Abort,
    pool: &mut Pool<J>,
    other_pool: &mut Pool<J>,
    viewers: &mut Vec<Viewer<J>>,
) {
    take_all(rt, pool, viewers);
    check!(rt; viewers.len() == 32, viewers.len());
    check!(rt; is_empty(pool));
    pool.give(other_pool.take().expect(rt, "a viewer"));
    check!(rt; is_empty(pool));
    pool.give(viewers.pop().expect(rt, "a viewer"));
    check!(rt; has_one(pool));
}

/// Does so beside the pool of another share.
fn assert_beside_another<J: Naming, R: Wait + Abort>(
    rt: &R,
    alloc: Global,
    shares: &mut Shares<J>,
    pool: &mut Pool<J>,
) {
    let (other_keeper, mut other_pool) = shares.share(rt, alloc, 1, 2).expect(rt, "a share");
    let mut viewers = Vec::new(alloc);
    assert_takes_and_gives(rt, pool, &mut other_pool, &mut viewers);
    drop(viewers);
    drop(other_pool);
    drop(other_keeper);
}

fn taken_and_given<J: Naming, R: Wait + Abort>(rt: &R, alloc: Global, opened: Opened)
    requires { opened.seen.book ≡ J.book }
{
    let mut shares: Shares<J> = Shares::new(opened);
    let (keeper, mut pool) = shares.share(rt, alloc, 1, 1).expect(rt, "a share");
    assert_beside_another(rt, alloc, &mut shares, &mut pool);
    drop(pool);
    drop(keeper);
    drop(shares);
}

#[test]
fn takes_and_gives(rt: HostRuntime) {
    taken_and_given::<Brand, _>(&rt, rt.alloc(), Opened::new());
}
