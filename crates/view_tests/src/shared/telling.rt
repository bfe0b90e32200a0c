//! One thread publishes and hands on what it was told, and a viewer on another thread reads no less.
ghost use Rattle.std.specs.Prelude.{◌≡◌};

use crate::checks::check;
use crate::shared::making::{Handed, Keeper, answers, every, hand, share};
use crossbeam_channel::{Receiver, Sender};
use std::alloc::Global;
use std::marker::Brand;
use std::process::Abort;
use std::sync::Wait;
use std::thread::{Threads, join};
use wm_share::{Naming, Opened, Told, Viewer};

/// What is handed in, one after the other.
const HANDED: &[Handed] = &[
    Handed::Lists(0, &["b"]),
    Handed::Is("a", 5),
    Handed::Gone("b"),
];

/// Publishes each of these, and hands on what was told.
fn publish_each<J: Naming, R: Wait + Abort>(
    rt: &R,
    alloc: Global,
    keeper: &mut Keeper<'_, J, R>,
    to: &Sender<Told<J>>,
) -> bool {
    for handed in HANDED {
        if hand(rt, alloc, keeper, *handed).is_err() {
            return false;
        }
        let Ok(told) = keeper.publish() else {
            return false;
        };
        let sent = to.send(rt, told);
        let is_lost = sent.is_err();
        drop(sent);
        if is_lost {
            return false;
        }
    }
    true
}

/// The viewer learns the next that was told: its tick.
fn learn<J: Naming, R: Wait>(
    rt: &R,
    viewer: &mut Viewer<J>,
    from: &Receiver<Told<J>>,
) -> Option<u64> {
    let told = from.recv(rt).ok()?;
    viewer.learn(&told);
    let clock = told.clock();
    drop(told);
    Some(clock?.tick)
}

/// The tick of what the viewer answers.
fn answer<J: Naming>(alloc: Global, viewer: &mut Viewer<J>) -> Option<u64> {
    let answer = viewer.answer(alloc, &every()).ok()?;
    let tick = answer.clock.tick;
    drop(answer);
    Some(tick)
}

/// The tick of the next that was told, and of what the viewer answers once it has learnt that.
fn read<J: Naming, R: Wait>(
    rt: &R,
    alloc: Global,
    viewer: &mut Viewer<J>,
    from: &Receiver<Told<J>>,
) -> Option<(u64, u64)> {
    let told = learn(rt, viewer, from)?;
    Some((told, answer(alloc, viewer)?))
}

/// Whether each of three answers is of the clock that was told before it, or of a later one.
fn read_each<J: Naming, R: Wait>(
    rt: &R,
    alloc: Global,
    viewer: &mut Viewer<J>,
    from: &Receiver<Told<J>>,
) -> bool {
    for tick in 1..=3u64 {
        match read(rt, alloc, viewer, from) {
            Some((told, answered)) if told == tick && told <= answered && answered <= 3 => {}
            _ => return false,
        }
    }
    true
}

/// Whether one thread publishes and another one reads what was told.
fn are_read<J: Naming + Send + Sync, R: Threads + Wait + Abort + Sync>(
    rt: &R,
    alloc: Global,
    keeper: &mut Keeper<'_, J, R>,
    viewer: &mut Viewer<J>,
) -> bool {
    let (to, from) = crossbeam_channel::unbounded(alloc).expect(rt, "memory");
    let (published, read) = join(
        rt,
        || publish_each(rt, alloc, keeper, &to),
        || read_each(rt, alloc, viewer, &from),
    );
    drop(from);
    drop(to);
    published && read
}

fn assert_read<J: Naming + Send + Sync, R: Threads + Wait + Abort + Sync>(
    rt: &R,
    alloc: Global,
    keeper: &mut Keeper<'_, J, R>,
    viewer: &mut Viewer<J>,
) {
    check!(rt; are_read(rt, alloc, keeper, viewer));
    check!(rt; answers(rt, alloc, viewer, "c:1:1:3 fresh a"));
}

fn read_what_was_told<J: Naming + Send + Sync, R: Threads + Wait + Abort + Sync>(
    rt: &R,
    alloc: Global,
    opened: Opened,
)
    requires { opened.seen.book ≡ J.book }
{
    let (mut keeper, mut pool) = share::<J, R>(rt, alloc, opened, 1, 1);
    let mut viewer = pool.take().expect(rt, "a viewer");
    assert_read(rt, alloc, &mut keeper, &mut viewer);
    drop(viewer);
    drop(pool);
    drop(keeper);
}

#[test]
fn told_is_read(rt: HostRuntime) {
    read_what_was_told::<Brand, _>(&rt, rt.alloc(), Opened::new());
}
