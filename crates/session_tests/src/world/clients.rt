//! A client that applies each answer, beside operations that are refused.
use super::{driven, found, is_shown, put, root, seen, watch};
use crate::checks::check;
use std::alloc::Global;
use std::process::Abort;
use wm_disk::MemDisk;
use wm_expr::{Expr, Scope};
use wm_world::{Event, World};

/// For a client with the test at the place: at the last question there are `a`, `d/a` and `d/c`; the first
/// answer told of `d/b` as well.
fn put_events(rt: &impl Abort, alloc: Global, place: usize, events: &mut Vec<Event>) {
    put(rt, Event::Open, events);
    put(rt, watch(rt, alloc, "/r"), events);
    put_client(rt, alloc, place, events);
    put_first(rt, alloc, events);
    put_later(rt, alloc, events);
}

fn put_client(rt: &impl Abort, alloc: Global, place: usize, events: &mut Vec<Event>) {
    let client = Event::Client(root(rt, alloc), test_at(rt, alloc, place));
    put(rt, client, events);
}

/// Up to the first answer.
fn put_first(rt: &impl Abort, alloc: Global, events: &mut Vec<Event>) {
    // What comes before the first listing is refused.
    put(rt, Event::Ask(0), events);
    put(rt, seen(rt, alloc, 1, "d/early", Some(1)), events);
    put(rt, found(rt, alloc, 2, 0, &["a", "d/a", "d/b"]), events);
    put(rt, Event::Ask(0), events);
    put(rt, Event::Receive(0), events);
}

fn put_later(rt: &impl Abort, alloc: Global, events: &mut Vec<Event>) {
    put(rt, seen(rt, alloc, 3, "d/b", None), events);
    put(rt, seen(rt, alloc, 4, "d/c", Some(2)), events);
    // A tick to come, so this is refused too.
    put(rt, found(rt, alloc, 5, 9, &[]), events);
    put(rt, Event::Ask(0), events);
    put(rt, Event::Receive(0), events);
    put(rt, seen(rt, alloc, 6, "d/late", Some(2)), events);
}

/// `true`, `false`, a pattern, a suffix that no file has, and a test that doesn't read paths alone: that
/// client doesn't come.
fn test_at(rt: &impl Abort, alloc: Global, place: usize) -> Expr {
    match place {
        0 => Expr::True,
        1 => Expr::False,
        2 => {
            let pattern = String::from_str(alloc, "d/*").expect(rt, "memory");
            Expr::Match(pattern, Scope::Wholename)
        }
        3 => Expr::Suffix(vec![in alloc; String::new(alloc)].expect(rt, "memory")),
        _ => Expr::Exists,
    }
}

/// What the client of each test holds.
const HELD: &[&str] = &[
    "1 /r; a d/a d/c at c:1:1:3",
    "1 /r; at c:1:1:3",
    "1 /r; d/a d/c at c:1:1:3",
    "1 /r; at c:1:1:3",
    "1 /r",
];

/// Whether the root's view is at its fourth tick.
fn is_fourth(world: &World<MemDisk>) -> bool {
    match world.views() {
        [view] => view.tick() == 4,
        _ => false,
    }
}

fn holds(rt: &impl Abort, alloc: Global, place: usize, held: &str) -> bool {
    let mut events = Vec::new(alloc);
    put_events(rt, alloc, place, &mut events);
    let world = driven(alloc, MemDisk::new(alloc, 0), events).expect(rt, "a world");
    let holds = is_fourth(&world) && is_shown(rt, alloc, &world, held);
    drop(world);
    holds
}

#[test]
fn holds_the_matching_files(rt: HostRuntime) {
    for (place, held) in HELD.iter().enumerate() {
        check!(rt; holds(&rt, rt.alloc(), place, held), (place, held));
    }
}
