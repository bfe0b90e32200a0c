//! That seats and a flusher can be had, that it is the flusher who commits, and that each seat has its own answer.
use crate::checks::check;
use crate::desk::desks::{
    Kept, desk, flush_for, is_watch, refusal_of, roots_of, submit_one, unwatch, watch,
};
use std::alloc::Global;
use std::process::Abort;
use std::sync::Wait;
use std::thread;
use std::thread::{Threads, join};
use wm_disk::Refusal;
use wm_groupcommit::Receipt;
use wm_registry::Reply;

#[test]
fn always_no_place(rt: HostRuntime) {
    let alloc = rt.alloc();
    let desk = desk(&rt, alloc);
    assert_places(&rt, &desk);
    drop(desk.into_store());
}

/// Why the desk gives no seat.
fn seat_refusal<R: Wait>(rt: &R, desk: &Kept) -> Option<Refusal> {
    match desk.seat(rt) {
        Ok(seat) => {
            drop(seat);
            None
        }
        Err(none) => Some(none.refusal()),
    }
}

/// Why the desk gives no flusher.
fn flusher_refusal<R: Wait>(rt: &R, desk: &Kept) -> Option<Refusal> {
    match desk.flusher(rt) {
        Ok(flusher) => {
            drop(flusher);
            None
        }
        Err(none) => Some(none.refusal()),
    }
}

/// The desk has to have 64 seats and one flusher.
fn assert_places<R: Wait + Abort>(rt: &R, desk: &Kept) {
    for _ in 0..64 {
        let seat = desk.seat(rt);
        check!(rt; seat.is_ok());
        drop(seat);
    }
    check!(rt; seat_refusal(rt, desk) == Some(Refusal::NoPlace));
    let flusher = desk.flusher(rt);
    check!(rt; flusher.is_ok());
    drop(flusher);
    check!(rt; flusher_refusal(rt, desk) == Some(Refusal::NoPlace));
}

/// Whether the command that watches `/a` stands in the list.
fn stands<R: Wait + Abort>(rt: &R, desk: &Kept, receipt: &Receipt) -> bool {
    let found = desk.stands(rt, receipt).expect(rt, "memory");
    let found = found.expect(rt, "a command");
    let stands = is_watch(&found, "/a");
    drop(found);
    stands
}

/// Whether a path that is watched then stands in the list.
fn watch_stands<R: Wait + Abort>(rt: &R, alloc: Global, desk: &Kept) -> bool {
    let answer = submit_one(rt, desk, watch(rt, alloc, "/a"));
    let (_, receipt) = answer.expect(rt, "a receipt");
    let stands = stands(rt, desk, &receipt);
    drop(receipt);
    stands
}

/// Flushes until something was answered, and tells how much was.
fn flush_some<R: Wait + Abort>(rt: &R, desk: &Kept) -> usize {
    let mut flusher = desk.flusher(rt).ok().expect(rt, "a flusher");
    for _ in rt.forever() {
        let flushed = desk.flush_once(rt, &mut flusher).expect(rt, "a flush");
        let count = flushed.count();
        drop(flushed);
        if count > 0 {
            drop(flusher);
            return count;
        }
        thread::yield_now();
    }
    unreachable!()
}

#[test]
fn submit_commits_by_itself(rt: HostRuntime) {
    let alloc = rt.alloc();
    let desk = desk(&rt, alloc);
    let shared = &desk;
    let (answered, stands) = join(
        &rt,
        || flush_some(&rt, shared),
        || watch_stands(&rt, alloc, shared),
    );
    let count = roots_of(desk);
    check!(rt; count == 1, count);
    check!(rt; answered == 1, answered);
    check!(rt; stands);
}

/// The reply to the watch of `/a` from a new seat, unless it is refused.
fn reply_of<R: Wait + Abort>(rt: &R, alloc: Global, desk: &Kept) -> Option<Reply> {
    let (reply, receipt) = submit_one(rt, desk, watch(rt, alloc, "/a")).ok()?;
    drop(receipt);
    Some(reply)
}

/// What two new seats are answered that submit at once: the one watches `/a`, and the other ends the watch of `/b`, which
/// isn't watched.
fn ask_at_once<R: Threads + Wait + Abort + Sync>(
    rt: &R,
    alloc: Global,
    desk: &Kept,
) -> (Option<Reply>, Option<Refusal>) {
    join(
        rt,
        || reply_of(rt, alloc, desk),
        || refusal_of(rt, desk, unwatch(rt, alloc, "/b")),
    )
}

#[test]
fn each_seat_has_its_own_answer(rt: HostRuntime) {
    let alloc = rt.alloc();
    let desk = desk(&rt, alloc);
    let shared = &desk;
    let (total, (watched, refused)) = join(
        &rt,
        || flush_for(&rt, shared, 2),
        || ask_at_once(&rt, alloc, shared),
    );
    let count = roots_of(desk);
    check!(rt; total == 2, total);
    check!(rt; count == 1, count);
    check!(rt; watched == Some(Reply::Changed));
    check!(rt; refused == Some(Refusal::NotWatched));
}
