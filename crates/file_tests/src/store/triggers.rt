//! Triggers with a number of files, for which a file of version 1 has no place.
use super::{Kept, edited, had, meet, open, open_bytes, opened, watch};
use crate::checks::check;
use crate::disks::{content_of, disk_of, stands};
use crate::versions::{Part, VERSIONS, place};
use std::alloc::Global;
use std::process::Abort;
use wm_disk::{Crashed, Refusal};
use wm_names::RootPath;
use wm_registry::{Command, Reply, Stdin, Trigger, Version};
use wm_store::Store;

/// What defines a trigger of `true` for a root, with this number of files.
pub(super) fn definition(
    rt: &impl Abort,
    alloc: Global,
    (root, name): (&str, &str),
    count: Option<u32>,
) -> Command {
    let path = RootPath::read(alloc, root).expect(rt, "a path");
    let made = Trigger::new(alloc, name, &["true"], None, false, Stdin::DevNull, count);
    Command::Trigger(path, made.expect(rt, "a trigger"))
}

/// The triggers of a batch.
const BATCH: &[((&str, &str), Option<u32>)] = &[
    (("/r", "t"), None),
    (("/r", "u"), Some(3)),
    (("/r", "t"), Some(1)),
    (("/s", "t"), Some(1)),
];

/// How they are met: `/s` isn't watched.
fn wanted(version: Version) -> [Reply; 4] {
    let old = Reply::Refused(Refusal::OldVersion);
    let unwatched = Reply::Refused(Refusal::NotWatched);
    match version {
        Version::One => [Reply::Changed, old, old, unwatched],
        Version::Two => [Reply::Changed, Reply::Changed, Reply::Replaced, unwatched],
    }
}

/// Defines the triggers in one batch.
fn define(rt: &impl Abort, alloc: Global, store: &mut Kept) -> Vec<Reply> {
    let mut commands = Vec::new(alloc);
    for (place, count) in BATCH {
        let command = definition(rt, alloc, *place, *count);
        commands.push(command).expect(rt, "memory");
    }
    meet(rt, alloc, store, commands).expect(rt, "replies")
}

/// A store that watches `/r`, and whether it met the triggers as it has to.
pub(super) fn defined(rt: &impl Abort, alloc: Global, version: Version) -> (Kept, bool) {
    let mut store = opened(rt, alloc, version);
    watch(rt, alloc, &mut store, &["/r"]).expect(rt, "a watch");
    let replies = define(rt, alloc, &mut store);
    let is_met = replies.as_slice() == wanted(version).as_slice();
    (store, is_met)
}

/// The names and numbers of the triggers that are found.
fn kept(version: Version) -> &'static [(&'static str, Option<u32>)] {
    match version {
        Version::One => &[("t", None)],
        Version::Two => &[("t", Some(1)), ("u", Some(3))],
    }
}

/// Whether `/r` has these triggers.
pub(super) fn has(store: &Kept, triggers: &[(&str, Option<u32>)]) -> bool {
    let Some((_, root)) = store.registry().roots().iter().next() else {
        return false;
    };
    let found = root.triggers.as_slice();
    found.len() == triggers.len()
        && found.iter().zip(triggers).all(|(found, (name, count))| found.name() == *name
            && found.max_files_stdin() == *count)
}

/// The records of the journal behind the first start, each with its gate, and the closed gate behind them.
fn journal(version: Version) -> &'static [u8] {
    match version {
        Version::One => {
            b"\xa5\x00\xa5\x01\0\0\0\x02/r\xa5\x03\0\0\0\x02/r\0\0\0\x01t\0\0\0\x01\0\0\0\x04true\0\0\0\x00"
        }
        Version::Two => {
            b"\xa5\x00\xa5\x01\0\0\0\x02/r\xa5\x03\0\0\0\x02/r\0\0\0\x01t\0\0\0\x01\0\0\0\x04true\0\0\0\0\xa5\x03\0\0\0\x02/r\0\0\0\x01u\0\0\0\x01\0\0\0\x04true\0\0\0\x01\0\0\0\x03\xa5\x03\0\0\0\x02/r\0\0\0\x01t\0\0\0\x01\0\0\0\x04true\0\0\0\x01\0\0\0\x01\x00"
        }
    }
}

/// Whether the accepted triggers stand in the journal, and are found behind a crash.
fn keeps(rt: &impl Abort, alloc: Global, version: Version) -> bool {
    let (store, is_met) = defined(rt, alloc, version);
    let has_now = has(&store, kept(version));
    let content = content_of(rt, alloc, store.into_disk().crash());
    let is_written = stands(&content, place(version, Part::JournalA), journal(version));
    let store = open_bytes(rt, alloc, 0, &content);
    let has_still = has(&store, kept(version)) && store.registry().version() == version;
    drop(store);
    is_met && has_now && is_written && has_still
}

#[test]
fn keeps_a_number_in_version_2(rt: HostRuntime) {
    for version in VERSIONS {
        check!(rt; keeps(&rt, rt.alloc(), *version), version);
    }
}

/// Whether a batch of one trigger with a number makes no call of a disk with a file of version 1.
fn is_idle(rt: &impl Abort, alloc: Global) -> bool {
    let mut store = opened(rt, alloc, Version::One);
    watch(rt, alloc, &mut store, &["/r"]).expect(rt, "a watch");
    let mut commands = Vec::new(alloc);
    let command = definition(rt, alloc, ("/r", "t"), Some(u32::MAX));
    commands.push(command).expect(rt, "memory");
    let replies = meet(rt, alloc, &mut store, commands).expect(rt, "replies");
    let is_refused = replies.as_slice() == [Reply::Refused(Refusal::OldVersion)].as_slice();
    let disk = store.into_disk();
    let is_idle = had(&disk, Version::One, (2, 2, 0));
    drop(disk);
    is_refused && is_idle
}

#[test]
fn writes_no_number_in_version_1(rt: HostRuntime) {
    check!(rt; is_idle(&rt, rt.alloc()));
}

/// Slot B under number 2: the registry of incarnation 1 in which `/r` has the triggers.
fn slot(version: Version) -> &'static [u8] {
    match version {
        Version::One => {
            b"\xa5\0\0\0\0\0\0\0\x02\0\0\0\x3a\0\0\0\0\0\0\0\x01\0\0\0\0\0\0\0\x02\0\0\0\x01\0\0\0\x02/r\0\0\0\0\0\0\0\x01\0\0\0\x01\0\0\0\x01t\0\0\0\x01\0\0\0\x04true\0\0\0"
        }
        Version::Two => {
            b"\xa5\0\0\0\0\0\0\0\x02\0\0\0\x58\0\0\0\0\0\0\0\x01\0\0\0\0\0\0\0\x02\0\0\0\x01\0\0\0\x02/r\0\0\0\0\0\0\0\x01\0\0\0\x02\0\0\0\x01t\0\0\0\x01\0\0\0\x04true\0\0\0\x01\0\0\0\x01\0\0\0\x01u\0\0\0\x01\0\0\0\x04true\0\0\0\x01\0\0\0\x03"
        }
    }
}

/// Whether a checkpoint writes the triggers so, and they are found behind a crash.
fn keeps_in_slot(rt: &impl Abort, alloc: Global, version: Version) -> bool {
    let (mut store, is_met) = defined(rt, alloc, version);
    store.checkpoint(alloc).expect(rt, "a checkpoint");
    let content = content_of(rt, alloc, store.into_disk().crash());
    let is_written = stands(&content, place(version, Part::SlotB), slot(version));
    let store = open(rt, alloc, disk_of(rt, alloc, 0, &content));
    let has = has(&store, kept(version));
    drop(store);
    is_met && is_written && has
}

#[test]
fn keeps_a_number_through_a_checkpoint(rt: HostRuntime) {
    for version in VERSIONS {
        check!(rt; keeps_in_slot(&rt, rt.alloc(), *version), version);
    }
}

/// Why a file of one version is refused that has slot B of a file of another.
fn refusal_of(
    rt: &impl Abort,
    alloc: Global,
    (version, other): (Version, Version),
) -> Option<Refusal> {
    let content = edited(rt, alloc, version, (Part::SlotB, 0), slot(other));
    match Store::open(alloc, disk_of(rt, alloc, 0, &content)) {
        Ok(store) => {
            drop(store);
            None
        }
        Err((refusal, disk)) => {
            drop(disk);
            Some(refusal)
        }
    }
}

/// The version of a file, that of the state in its slot B, and why an opening is refused.
const STATES: &[((Version, Version), Option<Refusal>)] = &[
    ((Version::One, Version::One), None),
    ((Version::One, Version::Two), Some(Refusal::Damaged)),
    ((Version::Two, Version::One), Some(Refusal::Damaged)),
    ((Version::Two, Version::Two), None),
];

#[test]
fn reads_triggers_by_the_version(rt: HostRuntime) {
    for (versions, wanted) in STATES {
        let refused = refusal_of(&rt, rt.alloc(), *versions);
        check!(rt; refused == *wanted, versions);
    }
}
