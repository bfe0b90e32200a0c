//! The longest registry that a store takes, by the version of its file.
use super::{Kept, accept, meet, open, opened, watch};
use crate::checks::check;
use crate::disks::{content_of, disk_of, stands};
use crate::versions::{Part, VERSIONS, place};
use std::alloc::Global;
use std::process::Abort;
use wm_disk::{Crashed, Refusal};
use wm_names::RootPath;
use wm_registry::{Command, Reply, Stdin, Trigger, Version};

/// So many bytes.
fn word(rt: &impl Abort, alloc: Global, length: u32) -> String {
    let mut word = String::new(alloc);
    for _ in 0..length {
        word.push('w').expect(rt, "memory");
    }
    word
}

/// What defines a trigger of the root with this name and these words.
fn trigger(rt: &impl Abort, alloc: Global, root: &str, name: &str, words: &[&str]) -> Command {
    let path = RootPath::read(alloc, root).expect(rt, "a path");
    let made = Trigger::new(alloc, name, words, None, false, Stdin::DevNull, None);
    Command::Trigger(path, made.expect(rt, "a trigger"))
}

/// A batch of so many triggers of 16 words of 1,024 bytes, with names of two bytes.
fn long_triggers(
    rt: &impl Abort,
    alloc: Global,
    (root, count): (&str, u32),
    long: &str,
) -> Vec<Command> {
    let mut commands = Vec::new(alloc);
    for number in 0..count {
        let name = format!(in alloc; "{number:02}").expect(rt, "memory");
        let command = trigger(rt, alloc, root, name.as_str(), &[long; 16]);
        commands.push(command).expect(rt, "memory");
    }
    commands
}

/// Roots, and how many long triggers each has.
fn long_roots(version: Version) -> &'static [(&'static str, u32)] {
    match version {
        Version::One => &[("/a", 63)],
        Version::Two => &[("/a", 64), ("/b", 64), ("/c", 64), ("/d", 62)],
    }
}

/// Watches the root and defines its long triggers.
fn fill(rt: &impl Abort, alloc: Global, store: &mut Kept, root: (&str, u32), long: &str) {
    check!(rt; watch(rt, alloc, store, &[root.0]) == Ok(1), root);
    let triggers = long_triggers(rt, alloc, root, long);
    let accepted = accept(rt, alloc, store, triggers);
    check!(rt; accepted == Ok(root.1 as usize), root);
}

/// The last trigger of `/a` in version 1, with 11 long words and a last one.
fn last_first(rt: &impl Abort, alloc: Global, long: &str, last: &str) -> Command {
    let words = [
        long, long, long, long, long, long, long, long, long, long, long, last,
    ];
    trigger(rt, alloc, "/a", "63", &words)
}

/// The last trigger of `/d` in version 2, with 12 long words and a last one.
fn last_second(rt: &impl Abort, alloc: Global, long: &str, last: &str) -> Command {
    let words = [
        long, long, long, long, long, long, long, long, long, long, long, long, last,
    ];
    trigger(rt, alloc, "/d", "62", &words)
}

/// The last trigger of the last root, whose last word has so many bytes more than fit the slot.
fn last(rt: &impl Abort, alloc: Global, version: Version, long: &str, more: u32) -> Command {
    match version {
        Version::One => {
            let last = word(rt, alloc, more.saturating_add(157));
            last_first(rt, alloc, long, last.as_str())
        }
        Version::Two => {
            let last = word(rt, alloc, more.saturating_add(497));
            last_second(rt, alloc, long, last.as_str())
        }
    }
}

/// How the last trigger is met.
fn met(rt: &impl Abort, alloc: Global, store: &mut Kept, long: &str, more: u32) -> Option<Reply> {
    let mut commands = Vec::new(alloc);
    let version = store.registry().version();
    let command = last(rt, alloc, version, long, more);
    commands.push(command).expect(rt, "memory");
    let replies = meet(rt, alloc, store, commands).expect(rt, "replies");
    replies.as_slice().first().copied()
}

/// How long the longest registry is, as a number and in its slot's head.
fn longest(version: Version) -> (u64, &'static [u8]) {
    match version {
        Version::One => (1_048_563, b"\x00\x0f\xff\xf3"),
        Version::Two => (4_194_291, b"\x00\x3f\xff\xf3"),
    }
}

/// Whether the store takes so many bytes and not one more.
pub(super) fn fill_up(rt: &impl Abort, alloc: Global, store: &mut Kept) -> bool {
    let long = word(rt, alloc, 1_024);
    let version = store.registry().version();
    for root in long_roots(version) {
        fill(rt, alloc, store, *root, &long);
    }
    let is_full = met(rt, alloc, store, &long, 1) == Some(Reply::Refused(Refusal::Full));
    let is_taken = met(rt, alloc, store, &long, 0) == Some(Reply::Changed);
    drop(long);
    let (size, _) = longest(version);
    is_full && is_taken && store.registry().size() == size
}

/// Whether a slot takes the longest registry of this version, which is found behind a crash.
fn keeps_longest(rt: &impl Abort, alloc: Global, version: Version) -> bool {
    let mut store = opened(rt, alloc, version);
    let is_filled = fill_up(rt, alloc, &mut store);
    store.checkpoint(alloc).expect(rt, "a checkpoint");
    let content = content_of(rt, alloc, store.into_disk().crash());
    let (size, head) = longest(version);
    let is_written = has_slot(&content, version, head);
    let store = open(rt, alloc, disk_of(rt, alloc, 0, &content));
    let is_found = store.registry().size() == size;
    drop(store);
    is_filled && is_written && is_found
}

/// Whether the length stands in the head of one of the slots.
fn has_slot(content: &[u8], version: Version, length: &[u8]) -> bool {
    [Part::SlotA, Part::SlotB].iter().any(|slot| {
        let at = place(version, *slot).saturating_add(9);
        stands(content, at, length)
    })
}

#[test]
fn takes_what_fits_a_slot(rt: HostRuntime) {
    for version in VERSIONS {
        check!(rt; keeps_longest(&rt, rt.alloc(), *version), version);
    }
}
