//! Every prefix of a list of events of every kind on one disk, under choices of what a crash leaves.
use super::{found, put, root, seen, shown_after, watch};
use crate::checks::check;
use std::alloc::Global;
use std::process::Abort;
use wm_expr::Expr;
use wm_world::Event;

/// The event at a place, from 0 on: one of every kind, but for those of two disks.
fn event_at(rt: &impl Abort, alloc: Global, place: usize) -> Event {
    match place {
        0 | 14 | 16 => Event::Open,
        1 => watch(rt, alloc, "/r"),
        2 => found(rt, alloc, 1, 0, &["a.c"]),
        3 => Event::Client(root(rt, alloc), Expr::True),
        4 | 8 => Event::Ask(0),
        5 => Event::Receive(0),
        6 => seen(rt, alloc, 2, "b.c", Some(2)),
        7 => Event::AgeOut(root(rt, alloc), 5, 0),
        9 => Event::Lose(0),
        10 => Event::Checkpoint,
        11 => Event::Arm(3),
        12 => watch(rt, alloc, "/s"),
        13 => Event::Crash,
        _ => Event::Stop,
    }
}

/// What a world shows after so many events. Behind the incarnation of the last two starts stand the
/// watches that they find.
const AFTER: &[(&str, &str)] = &[
    ("", ""),
    ("1", ""),
    ("1 /r", ""),
    ("1 /r", ""),
    ("1 /r;", ""),
    ("1 /r;", ""),
    ("1 /r; a.c at c:1:1:1", ""),
    ("1 /r; a.c at c:1:1:1", ""),
    ("1 /r; a.c at c:1:1:1", ""),
    ("1 /r; a.c at c:1:1:1", ""),
    ("1 /r; a.c at c:1:1:1", ""),
    ("1 /r; a.c at c:1:1:1", ""),
    ("1 /r; a.c at c:1:1:1", ""),
    ("; a.c at c:1:1:1", ""),
    ("; a.c at c:1:1:1", ""),
    ("2", "; a.c at c:1:1:1"),
    ("; a.c at c:1:1:1", ""),
    ("3", "; a.c at c:1:1:1"),
];

/// The batch is cut behind its first gate, one byte at the start of a journal: a crash leaves it open
/// where the choice leaves what a read gives, or the open gate itself. Every choice does with this byte
/// what one of these does.
const FOUND: &[(u64, &str)] = &[
    (0, " /r"),
    (1, " /r /s"),
    (2, " /r /s"),
    (3, " /r"),
    // The checkpoint before the batch was made: else the byte would be the eleventh of the other journal.
    (0x5555_5555_5555_5155, " /r /s"),
    (0xaaaa_aaaa_aaaa_aeaa, " /r"),
];

/// So many events of the sweep.
fn put_events(rt: &impl Abort, alloc: Global, count: usize, events: &mut Vec<Event>) {
    for place in 0..count {
        put(rt, event_at(rt, alloc, place), events);
    }
}

/// The world after so many events of the sweep.
fn swept(rt: &impl Abort, alloc: Global, choice: u64, count: usize) -> String {
    let mut events = Vec::new(alloc);
    put_events(rt, alloc, count, &mut events);
    shown_after(rt, alloc, choice, events)
}

/// What a world shows where a restart finds these watches.
fn wanted(rt: &impl Abort, alloc: Global, after: (&str, &str), watches: &str) -> String {
    let (first, last) = after;
    let mut text = String::from_str(alloc, first).expect(rt, "memory");
    if !last.is_empty() {
        text.push_str(watches).expect(rt, "memory");
        text.push_str(last).expect(rt, "memory");
    }
    text
}

#[test]
fn stands_after_each_event(rt: HostRuntime) {
    let alloc = rt.alloc();
    for (choice, watches) in FOUND {
        for (count, after) in AFTER.iter().enumerate() {
            let text = swept(&rt, alloc, *choice, count);
            let expected = wanted(&rt, alloc, *after, watches);
            check!(rt; text == expected, (choice, count, text.as_str()));
            drop(text);
            drop(expected);
        }
    }
}
