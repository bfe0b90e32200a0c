//! A migration that is cut at one of the calls of one of its two disks, and what a next start and a next migration find.
use super::migrations::{first_file, has_registry, other_file};
use super::{Kept, open};
use crate::checks::check;
use crate::disks::disk_of;
use std::alloc::Global;
use std::process::Abort;
use wm_disk::{Crashed, MemDisk, OneFault, Refusal};
use wm_registry::Version;
use wm_store::{Store, migrate};

/// The disk whose calls fail.
#[derive(Clone, Copy, Debug)]
enum Failing {
    Old,
    New,
}

/// How many calls of which disk pass before each fails, and what is left then: of a stop what was written, of a crash what its choice
/// says.
#[derive(Clone, Copy, Debug)]
struct Cut {
    failing: Failing,
    passing: u64,
    choice: Option<u64>,
}

/// The two files of a migration, on disks.
#[derive(Drop)]
struct Files {
    old: MemDisk,
    new: MemDisk,
}

/// What both disks hold at first.
type Contents<'a> = (&'a [u8], &'a [u8]);

/// The files, of which one disk is to fail.
fn files_of(rt: &impl Abort, alloc: Global, (old, new): Contents<'_>, cut: Cut) -> Files {
    let choice = cut.choice.unwrap_or(0);
    let mut old = disk_of(rt, alloc, choice, old);
    let mut new = disk_of(rt, alloc, choice, new);
    match cut.failing {
        Failing::Old => old.arm(cut.passing),
        Failing::New => new.arm(cut.passing),
    }
    Files { old, new }
}

/// Whether the migration is refused as a failure, which that disk alone counts, and once.
fn is_cut(alloc: Global, files: &mut Files, failing: Failing) -> bool {
    let answer = migrate(alloc, &mut files.old, &mut files.new);
    let failures = (files.old.failures(), files.new.failures());
    let wanted = match failing {
        Failing::Old => (1, 0),
        Failing::New => (0, 1),
    };
    answer == Err(Refusal::DeviceFailed) && failures == wanted
}

/// What is left of both.
fn left(files: Files, choice: Option<u64>) -> Files {
    let Files { old, new } = files;
    match choice {
        Some(_) => Files {
            old: old.crash(),
            new: new.crash(),
        },
        None => Files {
            old: old.stop(),
            new: new.stop(),
        },
    }
}

/// What a cut migration leaves.
fn cut_off(rt: &impl Abort, alloc: Global, contents: Contents<'_>, cut: Cut) -> Files {
    let mut files = files_of(rt, alloc, contents, cut);
    check!(rt; is_cut(alloc, &mut files, cut.failing), cut);
    left(files, cut.choice)
}

/// Whether the old file is retired behind the cut: only the sync behind its retired gate fails, and the gate is left open.
fn retires(cut: Cut) -> bool {
    match (cut.failing, cut.passing, cut.choice) {
        (Failing::Old, 4, None) => true,
        (Failing::Old, 4, Some(choice)) => choice == 1
            || choice == 2
            || choice == 0x5555_5555_5555_5555,
        _ => false,
    }
}

/// The disk of a store, which has to have the registry that is moved.
fn disk_with(rt: &impl Abort, store: Kept, version: Version, incarnation: u64) -> MemDisk {
    check!(rt; has_registry(&store, version, incarnation), (version, incarnation));
    store.into_disk()
}

/// Starts on the old file, or on the new one if the old one is retired. Tells whether it was.
fn begin(rt: &impl Abort, alloc: Global, files: Files) -> (Files, bool) {
    let Files { old, new } = files;
    match Store::open(alloc, old) {
        Ok(store) => {
            let old = disk_with(rt, store, Version::One, 2);
            (Files { old, new }, false)
        }
        Err((refusal, old)) => {
            check!(rt; refusal == Refusal::Retired);
            let new = disk_with(rt, open(rt, alloc, new), Version::Two, 2);
            (Files { old, new }, true)
        }
    }
}

/// Migrates, and starts on the new file, which has to have the registry.
fn finish(rt: &impl Abort, alloc: Global, files: Files, incarnation: u64) {
    let Files { mut old, mut new } = files;
    check!(rt; migrate(alloc, &mut old, &mut new) == Ok(()));
    drop(old);
    let disk = disk_with(rt, open(rt, alloc, new), Version::Two, incarnation);
    drop(disk);
}

/// A start on what the cut leaves finds the registry, and so does one behind a migration then.
fn assert_found(rt: &impl Abort, alloc: Global, contents: Contents<'_>, cut: Cut) {
    let files = cut_off(rt, alloc, contents, cut);
    let (files, is_retired) = begin(rt, alloc, files);
    check!(rt; is_retired == retires(cut), cut);
    finish(rt, alloc, files, 3);
}

/// A migration on what the cut leaves moves the registry.
fn assert_finished(rt: &impl Abort, alloc: Global, contents: Contents<'_>, cut: Cut) {
    let files = cut_off(rt, alloc, contents, cut);
    finish(rt, alloc, files, 2);
}

/// A stop, and crashes that leave what was durable, what was written, one byte, and every other bit.
const CHOICES: &[Option<u64>] = &[
    None,
    Some(0),
    Some(1),
    Some(2),
    Some(3),
    Some(0x5555_5555_5555_5555),
    Some(0xaaaa_aaaa_aaaa_aaaa),
];

/// Cuts the migration behind so many calls of one disk, in each of these ways.
fn assert_cut(
    rt: &impl Abort,
    alloc: Global,
    contents: Contents<'_>,
    (failing, passing): (Failing, u64),
    choices: &[Option<u64>],
) {
    for choice in choices {
        let cut = Cut {
            failing,
            passing,
            choice: *choice,
        };
        assert_found(rt, alloc, contents, cut);
        assert_finished(rt, alloc, contents, cut);
    }
}

/// A length, a sync and a reading, the retired gate and a sync.
#[test]
fn a_migration_is_cut_at_each_call_of_the_old_file(rt: HostRuntime) {
    let old = first_file(&rt, rt.alloc());
    for passing in 0..5u64 {
        assert_cut(
            &rt,
            rt.alloc(),
            (&old, &[]),
            (Failing::Old, passing),
            CHOICES,
        );
    }
}

/// The new disk holds another registry, which no start may find.
#[test]
fn a_migration_is_cut_in_the_zeros_of_the_new_file(rt: HostRuntime) {
    let alloc = rt.alloc();
    let old = first_file(&rt, alloc);
    let new = other_file(&rt, alloc);
    for tenth in 0..14u64 {
        let failing = (Failing::New, tenth * 10);
        assert_cut(
            &rt,
            alloc,
            (&old, &new),
            failing,
            &[None, Some(0x5555_5555_5555_5555)],
        );
    }
}

/// The sync behind the zeros, slot A, the header, a sync, the slot's gate, a sync, the header's gate and a sync.
#[test]
fn a_migration_is_cut_at_each_call_behind_the_zeros(rt: HostRuntime) {
    let old = first_file(&rt, rt.alloc());
    for passing in 136..145u64 {
        assert_cut(
            &rt,
            rt.alloc(),
            (&old, &[]),
            (Failing::New, passing),
            CHOICES,
        );
    }
}

/// A disk of which one call fails, behind so many.
fn faulty(rt: &impl Abort, alloc: Global, content: &[u8], passing: u64) -> OneFault<MemDisk> {
    OneFault::new(disk_of(rt, alloc, 0, content), passing)
}

/// Whether the store has the registry that is moved, in version 2.
fn is_moved(alloc: Global, new: OneFault<MemDisk>) -> bool {
    match Store::open(alloc, new) {
        Ok(store) => {
            let registry = store.registry();
            let is_moved = registry.version() == Version::Two
                && registry.incarnation() == 2
                && registry.roots().len() == 1;
            drop(store);
            is_moved
        }
        Err((_, disk)) => {
            drop(disk);
            false
        }
    }
}

/// Whether a migration is refused as a failure if the disks fail once behind so many calls, and the next one moves the registry.
fn fails_once(
    rt: &impl Abort,
    alloc: Global,
    content: &[u8],
    (passing_old, passing_new): (u64, u64),
) -> bool {
    let mut old = faulty(rt, alloc, content, passing_old);
    let mut new = faulty(rt, alloc, &[], passing_new);
    let failed = migrate(alloc, &mut old, &mut new) == Err(Refusal::DeviceFailed);
    let moved = migrate(alloc, &mut old, &mut new) == Ok(());
    drop(old);
    failed && moved && is_moved(alloc, new)
}

/// No call fails.
const NEVER: u64 = u64::MAX;

/// How many calls of the old disk and of the new one pass.
const FAULTS: &[(u64, u64)] = &[
    (0, NEVER),
    (1, NEVER),
    (2, NEVER),
    (3, NEVER),
    (4, NEVER),
    (NEVER, 0),
    (NEVER, 68),
    (NEVER, 136),
    (NEVER, 137),
    (NEVER, 138),
    (NEVER, 139),
    (NEVER, 140),
    (NEVER, 141),
    (NEVER, 142),
    (NEVER, 143),
    (NEVER, 144),
];

/// The device would do every call behind the one that failed.
#[test]
fn a_device_of_a_migration_fails_once(rt: HostRuntime) {
    let old = first_file(&rt, rt.alloc());
    for row in FAULTS {
        check!(rt; fails_once(&rt, rt.alloc(), &old, *row), row);
    }
}
