//! Where a registry has no room: counters that are spent, and a root, a trigger or a byte too many.
use crate::checks::check;
use crate::lines::{applied, apply, apply_all, ask, ask_all, asked};
use std::alloc::Global;
use std::process::Abort;
use wm_checkpoint::Version1;
use wm_disk::Refusal;
use wm_names::RootPath;
use wm_registry::{Command, FiledRegistry, Registry, Reply, Stdin, Trigger, Version};
use wm_wire::Wire;

/// The last value of a counter.
const LAST: u64 = 0x7fff_ffff_ffff_ffff;

/// The value before it.
const BEFORE: u64 = 0x7fff_ffff_ffff_fffe;

/// How a command is met for which a counter is spent.
const EXHAUSTED: Reply = Reply::Refused(Refusal::Exhausted);

/// How a command is met for which the state has no room.
const FULL: Reply = Reply::Refused(Refusal::Full);

/// How a command is met where as many are there as may be.
const TOO_MANY: Reply = Reply::Refused(Refusal::TooMany);

/// An incarnation and a next root number, and how a start and a watch are met there.
const COUNTERS: &[(u64, u64, Reply, Reply)] = &[
    (LAST, LAST, EXHAUSTED, EXHAUSTED),
    (BEFORE, LAST, Reply::Changed, EXHAUSTED),
    (LAST, BEFORE, EXHAUSTED, Reply::Changed),
];

// The bytes of a state with those counters and no roots.
fn counters(rt: &impl Abort, alloc: Global, incarnation: u64, next: u64) -> Vec<u8> {
    let mut bytes = Vec::new(alloc);
    incarnation.put(&mut bytes).expect(rt, "memory");
    next.put(&mut bytes).expect(rt, "memory");
    0u32.put(&mut bytes).expect(rt, "memory");
    bytes
}

// Whether a start and a watch are met so.
fn are_met(
    rt: &impl Abort,
    alloc: Global,
    registry: &Registry,
    begin: Reply,
    watch: Reply,
) -> bool {
    let begins = asked(rt, alloc, registry, "begin") == begin;
    begins && asked(rt, alloc, registry, "watch /r") == watch
}

// Whether the registry that the bytes begin with meets them so.
fn meets(rt: &impl Abort, alloc: Global, bytes: &[u8], begin: Reply, watch: Reply) -> bool {
    match FiledRegistry::<Version1>::take(alloc, bytes).expect(rt, "memory") {
        Some((registry, _)) => {
            let are_met = are_met(rt, alloc, registry.registry(), begin, watch);
            drop(registry);
            are_met
        }
        None => false,
    }
}

#[test]
fn refuses_a_spent_counter(rt: HostRuntime) {
    for (incarnation, next, begin, watch) in COUNTERS {
        let bytes = counters(&rt, rt.alloc(), *incarnation, *next);
        check!(rt; meets(&rt, rt.alloc(), &bytes, *begin, *watch), (incarnation, next));
        drop(bytes);
    }
}

// Asserts that a line for each number below the count, which stands between the two texts, changes the
// registry.
fn fill(
    rt: &impl Abort,
    alloc: Global,
    registry: &mut Registry,
    (before, after): (&str, &str),
    count: u32,
) {
    for number in 0..count {
        let line = format!(in alloc; "{before}{number}{after}").expect(rt, "memory");
        check!(rt; applied(rt, alloc, registry, &line) == Reply::Changed, line);
        drop(line);
    }
}

/// How roots are met behind 256 of them.
const ROOTS: &[(&str, Reply)] = &[
    ("watch /256", TOO_MANY),
    ("watch /255", Reply::Unchanged),
    ("watch-del /0", Reply::Changed),
    ("watch /256", Reply::Changed),
];

// The place of the first root whose number isn't that of the place, counted from 2.
fn misplaced(registry: &Registry) -> Option<usize> {
    registry
        .roots()
        .values()
        .zip(2u64..)
        .position(|(root, number)| root.number != number)
}

// Asserts that the registry, which has no roots, takes 256 of them.
fn crowd_roots(rt: &impl Abort, alloc: Global, registry: &mut Registry) {
    fill(rt, alloc, registry, ("watch /", ""), 256);
    apply_all(rt, alloc, registry, ROOTS);
    let misplaced = misplaced(registry);
    check!(rt; registry.roots().len() == 256 && misplaced.is_none(), misplaced);
}

#[test]
fn refuses_one_root_too_many(rt: HostRuntime) {
    let mut registry = Registry::new(rt.alloc(), Version::One);
    crowd_roots(&rt, rt.alloc(), &mut registry);
    drop(registry);
}

/// The root that the triggers are of.
const ROOT: &[(&str, Reply)] = &[("watch /r", Reply::Changed)];

/// How triggers are met beside 64 of them.
const TRIGGERS: &[(&str, Reply)] = &[
    ("trigger /r 64 x", TOO_MANY),
    ("trigger /r 63 x", Reply::Unchanged),
    ("trigger /r 63 y", Reply::Replaced),
    ("trigger-del /r 64", Reply::Unchanged),
    ("trigger-del /r 63", Reply::Changed),
];

// Asserts that a root of the registry, which has no roots, takes 64 triggers.
fn crowd_triggers(rt: &impl Abort, alloc: Global, registry: &mut Registry) {
    apply_all(rt, alloc, registry, ROOT);
    fill(rt, alloc, registry, ("trigger /r ", " x"), 64);
    ask_all(rt, alloc, registry, TRIGGERS);
}

#[test]
fn refuses_one_trigger_too_many(rt: HostRuntime) {
    let mut registry = Registry::new(rt.alloc(), Version::One);
    crowd_triggers(&rt, rt.alloc(), &mut registry);
    drop(registry);
}

// So many bytes.
fn word(rt: &impl Abort, alloc: Global, length: u32) -> String {
    let mut word = String::new(alloc);
    for _ in 0..length {
        word.push('w').expect(rt, "memory");
    }
    word
}

// What defines a trigger of /r with this name and these words.
fn trigger(rt: &impl Abort, alloc: Global, name: &str, words: &[&str]) -> Command {
    let path = RootPath::read(alloc, "/r").expect(rt, "a path");
    let made = Trigger::new(alloc, name, words, None, false, Stdin::DevNull, None);
    Command::Trigger(path, made.expect(rt, "a trigger"))
}

// What defines the trigger of /r that is the sixty-fourth: eleven long words and a last one.
fn last_trigger(rt: &impl Abort, alloc: Global, long: &str, last: &str) -> Command {
    let words = [
        long, long, long, long, long, long, long, long, long, long, long, last,
    ];
    trigger(rt, alloc, "63", &words)
}

// Defines a trigger of as many words as there may be, each of as many bytes as it may have.
fn define(rt: &impl Abort, alloc: Global, registry: &mut Registry, i: u32, long: &str) -> Reply {
    let name = format!(in alloc; "{i:02}").expect(rt, "memory");
    let command = trigger(rt, alloc, name.as_str(), &[long; 16]);
    drop(name);
    apply(alloc, registry, command)
}

// Watches the root /r and defines 63 such triggers.
fn almost_fill(rt: &impl Abort, alloc: Global, registry: &mut Registry, long: &str) {
    applied(rt, alloc, registry, "watch /r");
    for i in 0..63u32 {
        check!(rt; define(rt, alloc, registry, i, long) == Reply::Changed);
    }
}

// How the registry meets the sixty-fourth trigger with a last word of so many bytes.
fn met(rt: &impl Abort, alloc: Global, registry: &mut Registry, long: &str, length: u32) -> Reply {
    let last = word(rt, alloc, length);
    let command = last_trigger(rt, alloc, long, last.as_str());
    drop(last);
    apply(alloc, registry, command)
}

/// The bytes of the last word, how the trigger is met, and how many bytes the spelling has then.
const BYTES: &[(u32, Reply, u64)] = &[
    (158, FULL, 1_037_081),
    (157, Reply::Changed, 1_048_563),
    (158, FULL, 1_048_563),
    (157, Reply::Unchanged, 1_048_563),
    (156, Reply::Replaced, 1_048_562),
    (157, Reply::Replaced, 1_048_563),
];

// How the sixty-fourth trigger with a number of files would be met, whatever its length.
fn counted(rt: &impl Abort, alloc: Global, registry: &Registry, long: &str) -> Reply {
    let path = RootPath::read(alloc, "/r").expect(rt, "a path");
    let words = [long; 16];
    let made = Trigger::new(alloc, "63", &words, None, false, Stdin::DevNull, Some(1));
    ask(
        registry,
        Command::Trigger(path, made.expect(rt, "a trigger")),
    )
}

/// What a full registry is told.
const ROOM: &[(&str, Reply)] = &[
    ("watch /s", FULL),
    ("trigger /r 00 x", Reply::Replaced),
    ("watch /s", Reply::Changed),
];

// Asserts of a new registry that the last triggers are met so, one after another, and that a root finds
// room once a trigger is shorter.
fn refuse(rt: &impl Abort, alloc: Global, registry: &mut Registry, long: &str) {
    almost_fill(rt, alloc, registry, long);
    for (length, reply, size) in BYTES {
        let found = met(rt, alloc, registry, long, *length) == *reply;
        let bytes = registry.size();
        check!(rt; found && bytes == *size, (length, bytes));
    }
    // a number of files is refused first
    check!(rt; counted(rt, alloc, registry, long) == Reply::Refused(Refusal::OldVersion));
    apply_all(rt, alloc, registry, ROOM);
}

#[test]
fn refuses_a_byte_too_many(rt: HostRuntime) {
    let long = word(&rt, rt.alloc(), 1024);
    let mut registry = Registry::new(rt.alloc(), Version::One);
    refuse(&rt, rt.alloc(), &mut registry, long.as_str());
    drop(registry);
    drop(long);
}
