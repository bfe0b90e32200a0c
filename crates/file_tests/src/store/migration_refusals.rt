//! Files with no registry to move, and files that tell whether theirs was moved.
use super::migrations::{Held, READ, bytes_of, calls_since, first_file, leaves};
use crate::checks::check;
use crate::disks::{Calls, content_of, disk_of};
use std::alloc::Global;
use std::process::Abort;
use wm_disk::{Crashed, Refusal};
use wm_store::is_retired;

const NO_CALLS: Calls = (0, 0, 0);

/// An old and a new file without a registry to move or one that was moved: the new one is read only if the old one is retired.
const NOTHING_TO_MOVE: &[(Held, Held, Calls)] = &[
    (Held::FirstWith(12, 0xa5), Held::Nothing, READ),
    (Held::FirstWith(12, 0xa5), Held::Ones, READ),
    (Held::FirstWith(12, 0xa5), Held::SecondWith(0, 0), READ),
    (Held::FirstWith(12, 0xa5), Held::SecondWith(12, 0xa5), READ),
    (Held::FirstWith(12, 0xa5), Held::First, READ),
    (Held::FirstWith(0, 0), Held::Second, NO_CALLS),
    (Held::FirstWith(0, 0), Held::Nothing, NO_CALLS),
    (Held::FirstWith(4_108, 0x15), Held::Second, NO_CALLS),
    (Held::Nothing, Held::Second, NO_CALLS),
    (Held::Second, Held::Nothing, NO_CALLS),
    (Held::Second, Held::Second, NO_CALLS),
    (Held::SecondWith(12, 0xa5), Held::Second, NO_CALLS),
];

/// Whether the migration of such files is refused as damaged, and leaves them as they are.
fn refuses(rt: &impl Abort, alloc: Global, (old, new, new_calls): (Held, Held, Calls)) -> bool {
    let old = bytes_of(rt, alloc, old);
    let new = bytes_of(rt, alloc, new);
    leaves(rt, alloc, (&old, &new), Err(Refusal::Damaged), new_calls)
}

#[test]
fn finds_nothing_to_move(rt: HostRuntime) {
    for row in NOTHING_TO_MOVE {
        check!(rt; refuses(&rt, rt.alloc(), *row), row);
    }
}

/// A file, and whether the registry was moved out of it.
const RETIRED: &[(Held, Result<bool, Refusal>)] = &[
    (Held::First, Ok(false)),
    (Held::FirstWith(12, 0xa5), Ok(true)),
    (Held::FirstWith(12, 0xa4), Ok(false)),
    (Held::FirstWith(0, 0), Err(Refusal::Damaged)),
    (Held::Second, Err(Refusal::Damaged)),
    (Held::SecondWith(12, 0xa5), Err(Refusal::Damaged)),
    (Held::Nothing, Err(Refusal::Damaged)),
];

/// Whether that is told by a length, a sync and a reading, and the disk stays as it was.
fn tells(rt: &impl Abort, alloc: Global, (held, wanted): (Held, Result<bool, Refusal>)) -> bool {
    let content = bytes_of(rt, alloc, held);
    let mut disk = disk_of(rt, alloc, 0, &content);
    let is_told = is_retired(alloc, &mut disk) == wanted;
    let is_counted = calls_since(&disk) == READ;
    let after = content_of(rt, alloc, disk);
    is_told && is_counted && after.as_slice() == content.as_slice()
}

#[test]
fn tells_whether_a_registry_was_moved(rt: HostRuntime) {
    for row in RETIRED {
        check!(rt; tells(&rt, rt.alloc(), *row), row);
    }
}

/// Whether it isn't told if the disk lets so many calls pass.
fn fails_to_tell(rt: &impl Abort, alloc: Global, content: &[u8], passing: u64) -> bool {
    let mut disk = disk_of(rt, alloc, 0, content);
    disk.arm(passing);
    let failed = is_retired(alloc, &mut disk) == Err(Refusal::DeviceFailed);
    drop(disk);
    failed
}

#[test]
fn fails_to_tell_whether_a_registry_was_moved(rt: HostRuntime) {
    let content = first_file(&rt, rt.alloc());
    for passing in 0..3u64 {
        check!(rt; fails_to_tell(&rt, rt.alloc(), &content, passing), passing);
    }
}
