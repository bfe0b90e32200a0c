//! The worked rows: a batch that fails at its second sync, and then a stop or a crash.
use super::{driven, found, is_shown, put, root, show, shown_after, watch, watch_all};
use crate::checks::check;
use std::alloc::Global;
use std::process::Abort;
use wm_disk::MemDisk;
use wm_expr::Expr;
use wm_registry::Reply;
use wm_world::{Event, World};

/// A client of `/r` that has one file.
fn put_first(rt: &impl Abort, alloc: Global, events: &mut Vec<Event>) {
    put(rt, Event::Open, events);
    put(rt, watch(rt, alloc, "/r"), events);
    put(rt, found(rt, alloc, 1, 0, &["a.c"]), events);
    put(rt, Event::Client(root(rt, alloc), Expr::True), events);
    put(rt, Event::Ask(0), events);
    put(rt, Event::Receive(0), events);
}

/// Whether the client's file is held, and the one command was answered.
fn is_received(rt: &impl Abort, alloc: Global, world: &World<MemDisk>) -> bool {
    let is_answered = matches!(world.replies(), [Reply::Changed]);
    is_shown(rt, alloc, world, "1 /r; a.c at c:1:1:1") && is_answered
}

#[test]
fn holds_what_was_received(rt: HostRuntime) {
    let alloc = rt.alloc();
    let mut events = Vec::new(alloc);
    put_first(&rt, alloc, &mut events);
    let world = driven(alloc, MemDisk::new(alloc, 0), events).expect(&rt, "a world");
    check!(rt; is_received(&rt, alloc, &world));
    drop(world);
}

fn put_end(rt: &impl Abort, is_crash: bool, events: &mut Vec<Event>) {
    if is_crash {
        put(rt, Event::Crash, events);
    } else {
        put(rt, Event::Stop, events);
    }
}

/// A batch that fails at its second sync, a crash or a stop, and a start.
fn put_restart(rt: &impl Abort, alloc: Global, is_crash: bool, events: &mut Vec<Event>) {
    put(rt, Event::Arm(3), events);
    put(rt, watch(rt, alloc, "/s"), events);
    put_end(rt, is_crash, events);
    put(rt, Event::Open, events);
    put(rt, found(rt, alloc, 2, 0, &["b.c"]), events);
    put(rt, Event::Ask(0), events);
    put(rt, Event::Receive(0), events);
}

/// What a restart finds of a batch that failed at its second sync.
fn restarted(rt: &impl Abort, alloc: Global, is_crash: bool) -> String {
    let mut events = Vec::new(alloc);
    put_first(rt, alloc, &mut events);
    put_restart(rt, alloc, is_crash, &mut events);
    shown_after(rt, alloc, 0, events)
}

#[test]
fn finds_a_cut_batch_after_a_stop(rt: HostRuntime) {
    let text = restarted(&rt, rt.alloc(), false);
    check!(rt; text.as_str() == "2 /r /s; b.c at c:2:1:1");
    drop(text);
}

#[test]
fn finds_a_prefix_after_a_crash(rt: HostRuntime) {
    let text = restarted(&rt, rt.alloc(), true);
    check!(rt; text.as_str() == "2 /r; b.c at c:2:1:1");
    drop(text);
}

/// The event that a plan lets fail.
fn put_failing(rt: &impl Abort, alloc: Global, place: usize, events: &mut Vec<Event>) {
    match place {
        0 | 1 => put(rt, Event::Open, events),
        2 => put(rt, Event::Crash, events),
        3 => put(rt, Event::Stop, events),
        _ => put(rt, watch(rt, alloc, "/r"), events),
    }
}

/// Plans of failures, and what ends them: one call fails, or none.
fn put_planned(rt: &impl Abort, alloc: Global, place: usize, events: &mut Vec<Event>) {
    if place > 1 {
        put(rt, Event::Open, events);
    }
    let passing = if place == 5 { 9 } else { 0 };
    put(rt, Event::Arm(passing), events);
    put_failing(rt, alloc, place, events);
    if place == 1 {
        put(rt, Event::Crash, events);
    }
    if place > 0 && place < 4 {
        put(rt, Event::Open, events);
    }
}

/// What the world shows after each plan.
const PLANNED: &[&str] = &["", "1", "2", "2", "", "1 /r"];

#[test]
fn plans_failures(rt: HostRuntime) {
    let alloc = rt.alloc();
    for (place, wanted) in PLANNED.iter().enumerate() {
        let mut events = Vec::new(alloc);
        put_planned(&rt, alloc, place, &mut events);
        let text = shown_after(&rt, alloc, 0, events);
        check!(rt; text.as_str() == *wanted, (place, text.as_str()));
        drop(text);
    }
}

/// After the first start, a batch of three on a device that lets so many calls pass, a stop, and a start.
fn put_cut_batch(rt: &impl Abort, alloc: Global, passing: u64, events: &mut Vec<Event>) {
    put(rt, Event::Open, events);
    put(rt, Event::Arm(passing), events);
    put(rt, watch_all(rt, alloc, &["/a", "/b", "/c"]), events);
    put(rt, Event::Stop, events);
    put(rt, Event::Open, events);
}

/// What the start finds, and how many commands were answered.
fn after_cut_batch(rt: &impl Abort, alloc: Global, passing: u64) -> (String, usize) {
    let mut events = Vec::new(alloc);
    put_cut_batch(rt, alloc, passing, &mut events);
    let mut text = String::new(alloc);
    let world = driven(alloc, MemDisk::new(alloc, 0), events).expect(rt, "a world");
    show(rt, alloc, &world, &mut text);
    let answered = world.replies().len();
    drop(world);
    (text, answered)
}

/// What the start finds, and how many commands were answered, by the number of calls: a write and a sync, a gate for each
/// command, and a sync.
const CUT: &[(&str, usize)] = &[
    ("2", 0),
    ("2", 0),
    ("2", 0),
    ("2 /a", 0),
    ("2 /a /b", 0),
    ("2 /a /b /c", 0),
    ("2 /a /b /c", 3),
];

#[test]
fn finds_what_the_gates_let_in(rt: HostRuntime) {
    for (passing, (wanted, answered)) in CUT.iter().enumerate() {
        let (text, replies) = after_cut_batch(&rt, rt.alloc(), passing as u64);
        check!(rt; text.as_str() == *wanted, (passing, text.as_str()));
        drop(text);
        check!(rt; replies == *answered, passing);
    }
}
