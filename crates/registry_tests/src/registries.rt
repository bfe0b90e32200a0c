//! Registries under commands, each with what it leaves, and their copies.
use crate::checks::check;
use crate::filed::{command_first, filed_copy, filed_first};
use crate::lines::{applied, is_shown};
use crate::roots::{PLACES, TRIGGERS, TWO, TWO_LEFT};
use std::alloc::Global;
use std::process::Abort;
use wm_checkpoint::{Machine, Version1};
use wm_disk::Refusal;
use wm_registry::{Command, FiledRegistry, Registry, Reply, Version, Watches};
use wm_wire::Wire;

/// A command, how it is met, and what it leaves.
pub(crate) type Row = (&'static str, Reply, &'static str);

/// How a command of a root that isn't there is met.
const UNKNOWN: Reply = Reply::Refused(Refusal::NotWatched);

// Whether the registry is that.
fn is_left(rt: &impl Abort, alloc: Global, registry: FiledRegistry<Version1>, state: &str) -> bool {
    let is_shown = is_shown(rt, alloc, registry.registry(), state);
    drop(registry);
    is_shown
}

// Whether the bytes are all of the spelling of that registry.
fn are_bytes_of(rt: &impl Abort, alloc: Global, bytes: &[u8], state: &str) -> bool {
    match FiledRegistry::<Version1>::take(alloc, bytes).expect(rt, "memory") {
        Some((registry, size)) => {
            let is_left = is_left(rt, alloc, registry, state);
            size == bytes.len() && is_left
        }
        None => false,
    }
}

// Whether the registry is taken back from its spelling, which has the size that it says.
fn is_taken_back(rt: &impl Abort, alloc: Global, registry: &Registry, state: &str) -> bool {
    let mut out = Vec::new(alloc);
    let filed = filed_copy(rt, alloc, registry);
    filed.put(&mut out).expect(rt, "memory");
    drop(filed);
    let is_taken = registry.size() == out.len() as u64 && are_bytes_of(rt, alloc, &out, state);
    drop(out);
    is_taken
}

// Whether the command is met so, and leaves that.
fn is_met(rt: &impl Abort, alloc: Global, registry: &mut Registry, row: &Row) -> bool {
    let (line, reply, state) = *row;
    let met = applied(rt, alloc, registry, line) == reply;
    met && is_shown(rt, alloc, registry, state) && is_taken_back(rt, alloc, registry, state)
}

// Asserts that the commands are met so, one after another, and leave that.
fn walk(rt: &impl Abort, alloc: Global, registry: &mut Registry, rows: &[Row]) {
    for row in rows {
        check!(rt; is_met(rt, alloc, registry, row), (row.0, row.2));
    }
}

// Whether the command is met so by a copy of the registry, which has its size, and leaves that.
fn is_met_by_copy(rt: &impl Abort, alloc: Global, registry: &Registry, row: &Row) -> bool {
    let mut copy = registry.copy(alloc).expect(rt, "memory");
    let is_met = copy.size() == registry.size() && is_met(rt, alloc, &mut copy, row);
    drop(copy);
    is_met
}

// Asserts that each of the commands is met so by a copy of the registry, and leaves that.
fn try_each(rt: &impl Abort, alloc: Global, registry: &Registry, rows: &[Row]) {
    for row in rows {
        check!(rt; is_met_by_copy(rt, alloc, registry, row), (row.0, row.2));
    }
}

/// Commands of each kind, which change the registry, change nothing and are refused.
const COMMANDS: &[Row] = &[
    ("watch /r", Reply::Changed, "0 2; /r 1"),
    ("watch /r", Reply::Unchanged, "0 2; /r 1"),
    ("begin", Reply::Changed, "1 2; /r 1"),
    ("watch /a", Reply::Changed, "1 3; /r 1; /a 2"),
    ("trigger /r js x", Reply::Changed, "1 3; /r 1 js=x; /a 2"),
    ("trigger /r c x", Reply::Changed, "1 3; /r 1 js=x c=x; /a 2"),
    (
        "trigger /r js x",
        Reply::Unchanged,
        "1 3; /r 1 js=x c=x; /a 2",
    ),
    (
        "trigger /r js y",
        Reply::Replaced,
        "1 3; /r 1 js=y c=x; /a 2",
    ),
    ("trigger /R js y", UNKNOWN, "1 3; /r 1 js=y c=x; /a 2"),
    (
        "trigger-del /r d",
        Reply::Unchanged,
        "1 3; /r 1 js=y c=x; /a 2",
    ),
    ("trigger-del /R js", UNKNOWN, "1 3; /r 1 js=y c=x; /a 2"),
    ("trigger-del /r js", Reply::Changed, "1 3; /r 1 c=x; /a 2"),
    (
        "trigger /a js z",
        Reply::Changed,
        "1 3; /r 1 c=x; /a 2 js=z",
    ),
    ("watch-del /b", UNKNOWN, "1 3; /r 1 c=x; /a 2 js=z"),
    ("watch-del /r", Reply::Changed, "1 3; /a 2 js=z"),
    ("trigger /r c x", UNKNOWN, "1 3; /a 2 js=z"),
    ("watch /r", Reply::Changed, "1 4; /a 2 js=z; /r 3"),
    ("begin", Reply::Changed, "2 4; /a 2 js=z; /r 3"),
];

/// A root that is watched again.
const AGAIN: &[Row] = &[
    ("watch /r", Reply::Changed, "0 2; /r 1"),
    ("watch-del /r", Reply::Changed, "0 2"),
    ("watch /r", Reply::Changed, "0 3; /r 2"),
];

/// Commands that a new registry is told, one after another.
const WALKS: &[&[Row]] = &[COMMANDS, AGAIN, TRIGGERS];

// Asserts that a new registry meets the commands so, one after another.
fn walk_anew(rt: &impl Abort, alloc: Global, rows: &[Row]) {
    let mut registry = Registry::new(alloc, Version::One);
    walk(rt, alloc, &mut registry, rows);
    drop(registry);
}

#[test]
fn applies_commands(rt: HostRuntime) {
    for rows in WALKS {
        walk_anew(&rt, rt.alloc(), rows);
    }
}

/// What is copied.
const COPIED: &[Row] = &[
    ("begin", Reply::Changed, "1 1"),
    ("watch /r", Reply::Changed, "1 2; /r 1"),
    ("watch /a/b", Reply::Changed, "1 3; /r 1; /a/b 2"),
    ("trigger /r js x", Reply::Changed, "1 3; /r 1 js=x; /a/b 2"),
];

/// What copies are told, and what is left of each: the first shows what was copied.
const COPIES: &[Row] = &[
    ("watch /r", Reply::Unchanged, "1 3; /r 1 js=x; /a/b 2"),
    ("watch-del /r", Reply::Changed, "1 3; /a/b 2"),
];

/// What is left of the registry that was copied.
const LEFT: &[Row] = &[("watch /r", Reply::Unchanged, "1 3; /r 1 js=x; /a/b 2")];

/// What a new registry is told, then copies of it, and then the registry again.
type Try = (&'static [Row], &'static [Row], &'static [Row]);

const TRIES: &[Try] = &[(COPIED, COPIES, LEFT), (TWO, PLACES, TWO_LEFT)];

// Asserts that the registry and its copies meet the commands so.
fn walk_with_copies(
    rt: &impl Abort,
    alloc: Global,
    registry: &mut Registry,
    (first, copies, left): &Try,
) {
    walk(rt, alloc, registry, first);
    try_each(rt, alloc, registry, copies);
    walk(rt, alloc, registry, left);
}

#[test]
fn copies_registries(rt: HostRuntime) {
    for row in TRIES {
        let mut registry = Registry::new(rt.alloc(), Version::One);
        walk_with_copies(&rt, rt.alloc(), &mut registry, row);
        drop(registry);
    }
}

// The incarnation of a copy of the state.
fn copied(rt: &impl Abort, alloc: Global, state: &FiledRegistry<Version1>) -> u64 {
    let copy = <Watches<Version1> as Machine>::copy(alloc, state).expect(rt, "memory");
    let incarnation = copy.registry().incarnation();
    drop(copy);
    incarnation
}

// Whether a new state is changed by a start, and a copy has the first incarnation then.
fn begins(rt: &impl Abort, alloc: Global) -> bool {
    let mut state = filed_first(rt, Registry::new(alloc, Version::One));
    let begin = command_first(rt, Command::Begin);
    let met = <Watches<Version1> as Machine>::apply(alloc, &mut state, &begin).expect(rt, "memory");
    drop(begin);
    let copied = copied(rt, alloc, &state);
    drop(state);
    met.0 == Reply::Changed && met.1 && copied == 1
}

#[test]
fn copies_a_state(rt: HostRuntime) {
    check!(rt; begins(&rt, rt.alloc()));
}
