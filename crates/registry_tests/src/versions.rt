//! Registries of each version of the state file: a trigger's number of files, both encodings, the move from version 1 into version 2,
//! and the longest state of version 2.
use crate::checks::check;
use crate::filed::{command_first, command_second, filed_first, filed_second};
use crate::lines::{applied, apply, ask, is_shown};
use crate::plans::{LEAST, MORE, Plan, definition, made};
use crate::spelling::{is_spelled, takes};
use std::alloc::Global;
use std::process::Abort;
use wm_checkpoint::{Version1, Version2};
use wm_disk::Refusal;
use wm_names::RootPath;
use wm_registry::{Command, FiledCommand, FiledRegistry, Registry, Reply, Stdin, Trigger, Version};
use wm_wire::Wire;

/// How a trigger is met for whose number of files the state file has no place.
const OLD_VERSION: Reply = Reply::Refused(Refusal::OldVersion);

/// The least trigger with a number of files.
const COUNTED: Plan<'static> = Plan {
    max_files_stdin: Some(1),
    ..LEAST
};

/// The command that defines the least trigger for `/r`, in version 1, and in version 2 without and with a number.
const FIRST: &[u8] = b"\x03\0\0\0\x02/r\0\0\0\x01t\0\0\0\x01\0\0\0\x04true\0\0\0";

const SECOND: &[u8] = b"\x03\0\0\0\x02/r\0\0\0\x01t\0\0\0\x01\0\0\0\x04true\0\0\0\0";

const SECOND_COUNTED: &[u8] =
    b"\x03\0\0\0\x02/r\0\0\0\x01t\0\0\0\x01\0\0\0\x04true\0\0\0\x01\0\0\0\x01";

// Whether the command is encoded so in version 1.
fn is_first(rt: &impl Abort, alloc: Global, plan: Plan<'_>, want: &[u8]) -> bool {
    let command = command_first(rt, definition(rt, alloc, plan));
    let is_first = is_spelled(rt, alloc, &command, want);
    drop(command);
    is_first
}

// Whether the command is encoded so in version 2.
fn is_second(rt: &impl Abort, alloc: Global, plan: Plan<'_>, want: &[u8]) -> bool {
    let command = command_second(rt, definition(rt, alloc, plan));
    let is_second = is_spelled(rt, alloc, &command, want);
    drop(command);
    is_second
}

// Whether version 1 has a place for the command.
fn fits_first(rt: &impl Abort, alloc: Global, plan: Plan<'_>) -> bool {
    let command = definition(rt, alloc, plan);
    let fits = command.fits_version(Version::One);
    drop(command);
    fits
}

#[test]
fn encodes_commands_by_version(rt: HostRuntime) {
    check!(rt; is_first(&rt, rt.alloc(), LEAST, FIRST));
    check!(rt; is_second(&rt, rt.alloc(), LEAST, SECOND));
    check!(rt; is_second(&rt, rt.alloc(), COUNTED, SECOND_COUNTED));
    check!(rt; fits_first(&rt, rt.alloc(), LEAST) && !fits_first(&rt, rt.alloc(), COUNTED));
    // what one version has isn't whole in the other
    check!(rt; !takes::<FiledCommand<Version2>>(&rt, rt.alloc(), FIRST));
}

/// Incarnation 0, 2 as the next number, and the root `/r` of number 1 with the trigger `t`, in version 1, and in version 2
/// without and with a number.
const FIRST_STATE: &[u8] =
    b"\0\0\0\0\0\0\0\0\0\0\0\0\0\0\0\x02\0\0\0\x01\0\0\0\x02\x2f\x72\0\0\0\0\0\0\0\x01\0\0\0\x01\0\0\0\x01t\0\0\0\x01\0\0\0\x04true\0\0\0";

const SECOND_STATE: &[u8] =
    b"\0\0\0\0\0\0\0\0\0\0\0\0\0\0\0\x02\0\0\0\x01\0\0\0\x02\x2f\x72\0\0\0\0\0\0\0\x01\0\0\0\x01\0\0\0\x01t\0\0\0\x01\0\0\0\x04true\0\0\0\0";

const SECOND_STATE_COUNTED: &[u8] =
    b"\0\0\0\0\0\0\0\0\0\0\0\0\0\0\0\x02\0\0\0\x01\0\0\0\x02\x2f\x72\0\0\0\0\0\0\0\x01\0\0\0\x01\0\0\0\x01t\0\0\0\x01\0\0\0\x04true\0\0\0\x01\0\0\0\x01";

// A registry of the version with the root `/r` and the trigger.
fn with_trigger(rt: &impl Abort, alloc: Global, version: Version, plan: Plan<'_>) -> Registry {
    let mut registry = Registry::new(alloc, version);
    applied(rt, alloc, &mut registry, "watch /r");
    apply(alloc, &mut registry, definition(rt, alloc, plan));
    registry
}

// Whether the registry of version 1 with the trigger is encoded so, in as many bytes as it says.
fn is_first_state(rt: &impl Abort, alloc: Global, plan: Plan<'_>, want: &[u8]) -> bool {
    let registry = with_trigger(rt, alloc, Version::One, plan);
    let is_long = registry.size() == want.len() as u64;
    let filed = filed_first(rt, registry);
    let is_first = is_long && is_spelled(rt, alloc, &filed, want);
    drop(filed);
    is_first
}

// The same of version 2.
fn is_second_state(rt: &impl Abort, alloc: Global, plan: Plan<'_>, want: &[u8]) -> bool {
    let registry = with_trigger(rt, alloc, Version::Two, plan);
    let is_long = registry.size() == want.len() as u64;
    let filed = filed_second(rt, registry);
    let is_second = is_long && is_spelled(rt, alloc, &filed, want);
    drop(filed);
    is_second
}

#[test]
fn encodes_states_by_version(rt: HostRuntime) {
    check!(rt; is_first_state(&rt, rt.alloc(), LEAST, FIRST_STATE));
    check!(rt; is_second_state(&rt, rt.alloc(), LEAST, SECOND_STATE));
    check!(rt; is_second_state(&rt, rt.alloc(), COUNTED, SECOND_STATE_COUNTED));
    check!(rt; !takes::<FiledRegistry<Version2>>(&rt, rt.alloc(), FIRST_STATE));
}

// Whether the registry of version 1 is encoded so once it is one of version 2, in as many bytes as it says, and shows what it showed.
fn moves(rt: &impl Abort, alloc: Global, registry: Registry, (state, want): (&str, &[u8])) -> bool {
    let moved = filed_first(rt, registry).into_version_2();
    let is_kept = is_shown(rt, alloc, moved.registry(), state);
    let is_second = moved.registry().version() == Version::Two;
    let is_long = moved.registry().size() == want.len() as u64;
    let is_spelled = is_spelled(rt, alloc, &moved, want);
    drop(moved);
    is_kept && is_second && is_long && is_spelled
}

/// A registry with no roots, which no start has begun.
const EMPTY_STATE: &[u8] = b"\0\0\0\0\0\0\0\0\0\0\0\0\0\0\0\x01\0\0\0\0";

/// As [`SECOND_STATE`], with the trigger that has something of each.
const SECOND_STATE_MORE: &[u8] =
    b"\0\0\0\0\0\0\0\0\0\0\0\0\0\0\0\x02\0\0\0\x01\0\0\0\x02\x2f\x72\0\0\0\0\0\0\0\x01\0\0\0\x01\0\0\0\x02\xc3\xa9\0\0\0\x03\0\0\0\x04make\0\0\0\0\0\0\0\x04-j 4\x01\0\0\0\x02[]\x01\x01\0";

#[test]
fn moves_a_state_into_version_2(rt: HostRuntime) {
    let alloc = rt.alloc();
    let empty = Registry::new(alloc, Version::One);
    check!(rt; moves(&rt, alloc, empty, ("0 1", EMPTY_STATE)));
    let least = with_trigger(&rt, alloc, Version::One, LEAST);
    check!(rt; moves(&rt, alloc, least, ("0 2; /r 1 t=true", SECOND_STATE)));
    let more = with_trigger(&rt, alloc, Version::One, MORE);
    check!(rt; moves(&rt, alloc, more, ("0 2; /r 1 \u{e9}", SECOND_STATE_MORE)));
}

// How a trigger of that name for `/r` is met by the registry.
fn met(rt: &impl Abort, alloc: Global, registry: &Registry, plan: Plan<'_>) -> Reply {
    ask(registry, definition(rt, alloc, plan))
}

/// A version, a number of files, and how the trigger is met where `/r` isn't watched and where it is.
const MEETINGS: &[(Version, Option<u32>, Reply)] = &[
    (Version::One, None, Reply::Changed),
    (Version::One, Some(1), OLD_VERSION),
    (Version::One, Some(u32::MAX), OLD_VERSION),
    (Version::Two, None, Reply::Changed),
    (Version::Two, Some(1), Reply::Changed),
    (Version::Two, Some(u32::MAX), Reply::Changed),
];

// Whether the trigger is met so once its root is watched, and refused before.
fn is_met(rt: &impl Abort, alloc: Global, row: &(Version, Option<u32>, Reply)) -> bool {
    let (version, max_files_stdin, reply) = *row;
    let plan = Plan {
        max_files_stdin,
        ..LEAST
    };
    let mut registry = Registry::new(alloc, version);
    let unwatched = met(rt, alloc, &registry, plan) == Reply::Refused(Refusal::NotWatched);
    applied(rt, alloc, &mut registry, "watch /r");
    let watched = met(rt, alloc, &registry, plan) == reply;
    drop(registry);
    unwatched && watched
}

// The refusal of a trigger for no files.
fn refused_count(alloc: Global) -> Option<Refusal> {
    let none = Plan {
        max_files_stdin: Some(0),
        ..LEAST
    };
    match made(alloc, none) {
        Ok(trigger) => {
            drop(trigger);
            None
        }
        Err(refusal) => Some(refusal),
    }
}

#[test]
fn refuses_a_number_in_version_1(rt: HostRuntime) {
    for row in MEETINGS {
        check!(rt; is_met(&rt, rt.alloc(), row), (row.1, row.2));
    }
    check!(rt; refused_count(rt.alloc()) == Some(Refusal::BadTrigger));
}

// Defines 64 triggers of `/r`.
fn crowd(rt: &impl Abort, alloc: Global, registry: &mut Registry) {
    applied(rt, alloc, registry, "watch /r");
    for number in 0..64u32 {
        let line = format!(in alloc; "trigger /r {number} x").expect(rt, "memory");
        check!(rt; applied(rt, alloc, registry, line.as_str()) == Reply::Changed, number);
        drop(line);
    }
}

#[test]
fn refuses_it_before_a_trigger_too_many(rt: HostRuntime) {
    let mut registry = Registry::new(rt.alloc(), Version::One);
    crowd(&rt, rt.alloc(), &mut registry);
    let bare = met(&rt, rt.alloc(), &registry, LEAST);
    let counted = met(&rt, rt.alloc(), &registry, COUNTED);
    check!(rt; bare == Reply::Refused(Refusal::TooMany) && counted == OLD_VERSION);
    drop(registry);
}

// So many bytes.
fn word(rt: &impl Abort, alloc: Global, length: u32) -> String {
    let mut word = String::new(alloc);
    for _ in 0..length {
        word.push('w').expect(rt, "memory");
    }
    word
}

// What defines a trigger of the root with this name and these words.
fn trigger(rt: &impl Abort, alloc: Global, root: &str, name: &str, words: &[&str]) -> Command {
    let path = RootPath::read(alloc, root).expect(rt, "a path");
    let made = Trigger::new(alloc, name, words, None, false, Stdin::DevNull, None);
    Command::Trigger(path, made.expect(rt, "a trigger"))
}

// Watches the root and defines so many triggers of 16 words of 1,024 bytes, whose names have two bytes.
fn fill(
    rt: &impl Abort,
    alloc: Global,
    registry: &mut Registry,
    (root, count): (&str, u32),
    long: &str,
) {
    let watch = format!(in alloc; "watch {root}").expect(rt, "memory");
    check!(rt; applied(rt, alloc, registry, watch.as_str()) == Reply::Changed, root);
    drop(watch);
    for number in 0..count {
        let name = format!(in alloc; "{number:02}").expect(rt, "memory");
        let command = trigger(rt, alloc, root, name.as_str(), &[long; 16]);
        drop(name);
        check!(rt; apply(alloc, registry, command) == Reply::Changed, (root, number));
    }
}

/// Roots, and how many long triggers each has.
const LONG: &[(&str, u32)] = &[("/a", 64), ("/b", 64), ("/c", 64), ("/d", 62)];

// How the last trigger of `/d` is met, with 12 long words and one of so many bytes.
fn last(rt: &impl Abort, alloc: Global, registry: &mut Registry, long: &str, length: u32) -> Reply {
    let last = word(rt, alloc, length);
    let words = [
        long,
        long,
        long,
        long,
        long,
        long,
        long,
        long,
        long,
        long,
        long,
        long,
        last.as_str(),
    ];
    let command = trigger(rt, alloc, "/d", "62", &words);
    drop(last);
    apply(alloc, registry, command)
}

// Asserts that the registry takes 4,194,291 bytes and not one more.
fn fill_up(rt: &impl Abort, alloc: Global, registry: &mut Registry, long: &str) {
    for row in LONG {
        fill(rt, alloc, registry, *row, long);
    }
    check!(rt; last(rt, alloc, registry, long, 498) == Reply::Refused(Refusal::Full));
    check!(rt; last(rt, alloc, registry, long, 497) == Reply::Changed);
    check!(rt; registry.size() == 4_194_291, registry.size());
    check!(rt; applied(rt, alloc, registry, "watch /e") == Reply::Refused(Refusal::Full));
}

#[test]
fn takes_the_longest_state_of_version_2(rt: HostRuntime) {
    let long = word(&rt, rt.alloc(), 1024);
    let mut registry = Registry::new(rt.alloc(), Version::Two);
    fill_up(&rt, rt.alloc(), &mut registry, long.as_str());
    let filed = filed_second(&rt, registry);
    let mut bytes = Vec::new(rt.alloc());
    filed.put(&mut bytes).expect(&rt, "memory");
    check!(rt; bytes.len() == 4_194_291 && takes::<FiledRegistry<Version2>>(&rt, rt.alloc(), &bytes));
    check!(rt; !takes::<FiledRegistry<Version1>>(&rt, rt.alloc(), &bytes));
    drop(bytes);
    drop(filed);
    drop(long);
}
