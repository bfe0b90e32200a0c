//! A session's front as the device fails under a command.
ghost use Rattle.std.specs.Prelude.{◌≡◌};

use crate::checks::check;
use crate::desks::{flush_until, new_file};
use crate::watched::Watched;
use std::alloc::{Alloc, Global};
use std::marker::Brand;
use std::process::Abort;
use std::sync::Wait;
use std::sync::atomic::{AtomicU64, Ordering};
use std::thread::{Threads, join};
use wm_disk::{Crashed, MemDisk};
use wm_front::{DeskSeat, Registrar, Roots, SharedFront};
use wm_groupcommit::{ClosePermit, Desk};
use wm_session::{Session, open_store};
use wm_share::{Naming, Opened};

/// What a start calls of the disk of a new file.
const START_CALLS: u64 = 7;

const FAILED: &str = "{\"error\":\"13 DeviceFailed\",\"version\":\"w1\"}\n";

const IS_DOWN: &str = "{\"error\":\"12 StoreFailed\",\"version\":\"w1\"}\n";

/// A desk over a new file whose disk fails from the first commit on, and the permit to close it.
fn failing_desk(rt: &impl Abort, alloc: Global) -> (Desk<MemDisk>, ClosePermit) {
    let mut disk = new_file(rt, alloc);
    disk.arm(START_CALLS);
    let store = open_store(alloc, disk).ok();
    let desk = Desk::new(alloc, store.expect(rt, "a store")).ok();
    desk.expect(rt, "a desk")
}

/// Checks what a session replies to the watch of a path, and whether the front reports a failure of the device then.
fn watches<T: Registrar, H: Roots<J, K>, J: Naming, K: Wait + Copy + Drop>(
    rt: &impl Abort,
    alloc: Global,
    session: &mut Session<SharedFront<'_, T, H, J, K>>,
    wanted: &str,
    has_failed: bool,
) {
    let mut out = Vec::new(alloc);
    let faults = session.line(alloc, 100, "[\"watch\",\"/r\"]\n".as_bytes(), &mut out);
    check!(rt; faults.is_ok());
    check!(rt; out.as_slice() == wanted.as_bytes());
    check!(rt; session.front.take_store_failure() == has_failed, wanted);
    check!(rt; !session.front.take_store_failure());
    drop(out);
}

/// A session over a desk whose disk fails.
fn watches_twice<J: Naming, R: Wait + Abort>(
    rt: &R,
    alloc: Global,
    desk: &Desk<MemDisk>,
    opened: Opened,
)
    requires { opened.seen.book ≡ J.book }
{
    let roots: Watched<J, &R> = Watched::new(alloc, rt, 0, opened);
    let front = SharedFront::new(rt, alloc, DeskSeat::new(desk), &roots);
    let mut session = Session::new(alloc, front);
    check!(rt; !session.front.take_store_failure());
    watches(rt, alloc, &mut session, FAILED, true);
    watches(rt, alloc, &mut session, IS_DOWN, false);
    drop(session);
    drop(roots);
}

/// As `watches_twice`, over a log of its own. Then the desk is closed.
fn watches_alone<R: Wait + Abort>(
    rt: &R,
    alloc: Global,
    desk: &Desk<MemDisk>,
    permit: ClosePermit,
    ends: &AtomicU64,
) {
    watches_twice::<Brand, _>(rt, alloc, desk, Opened::new());
    ends.store(1, Ordering::SeqCst);
    let closed = desk.close(rt, permit);
    drop(closed.ok());
}

/// A session in a thread, beside one that commits what it submits.
fn failure_is_reported<R: Threads + Wait + Abort + Sync>(rt: &R, alloc: Global) {
    let (desk, permit) = failing_desk(rt, alloc);
    let ends = AtomicU64::new(0);
    let (own, end) = (&desk, &ends);
    let ((), ()) = join(
        rt,
        || flush_until(rt, own, end),
        || watches_alone(rt, alloc, own, permit, end),
    );
    drop(desk.into_store());
}

#[test]
fn a_failure_of_the_device_is_reported_once(rt: HostRuntime) {
    failure_is_reported(&rt, rt.alloc());
}
