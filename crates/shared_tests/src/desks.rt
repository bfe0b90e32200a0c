//! A desk over a new file in memory, and the thread that commits what is submitted there.
ghost use Rattle.wm_groupcommit.specs.Seats.{IsFlusherOf};

use std::alloc::Global;
use std::process::Abort;
use std::sync::Wait;
use std::sync::atomic::{AtomicU64, Ordering};
use wm_disk::{Disk, MemDisk};
use wm_groupcommit::{ClosePermit, Desk, Flusher};
use wm_session::open_store;

/// A disk with a new file.
pub(crate) fn new_file(rt: &impl Abort, alloc: Global) -> MemDisk {
    let mut disk = MemDisk::new(alloc, 0);
    wm_store::format(alloc, &mut disk).expect(rt, "a file");
    disk
}

/// A desk over a new file, and the permit to close it.
pub(crate) fn new_desk(rt: &impl Abort, alloc: Global) -> (Desk<MemDisk>, ClosePermit) {
    let store = open_store(alloc, new_file(rt, alloc)).ok();
    let desk = Desk::new(alloc, store.expect(rt, "a store")).ok();
    desk.expect(rt, "a desk")
}

/// Commits what is submitted: whether it is told to end and nothing is left.
fn flush_some<R: Wait, D: Disk + Drop>(
    rt: &R,
    desk: &Desk<D>,
    flusher: &mut Flusher,
    is_ending: bool,
) -> bool
    requires { IsFlusherOf desk.now flusher.old }
    ensures { IsFlusherOf desk.now flusher.new }
{
    let Ok(flushed) = desk.flush_once(rt, flusher) else {
        return false;
    };
    let count = flushed.count();
    drop(flushed);
    if count > 0 {
        return false;
    }
    if !is_ending {
        desk.wait_for_calls(rt, flusher);
    }
    is_ending
}

/// Commits what is submitted, until it is told to end and nothing is left.
pub(crate) fn flush_until<R: Wait + Abort, D: Disk + Drop>(
    rt: &R,
    desk: &Desk<D>,
    ends: &AtomicU64,
) {
    let mut flusher = desk.flusher(rt).ok().expect(rt, "a flusher");
    for _ in rt.forever() {
        let is_ending = ends.load(Ordering::SeqCst) == 1;
        if flush_some(rt, desk, &mut flusher, is_ending) {
            break;
        }
    }
    drop(flusher);
}
