//! A device that fails under a desk.
use crate::checks::check;
use crate::desk::desks::{Kept, desk_over, flush_for, refusal_of, roots_of, watch};
use crate::store::opened;
use std::alloc::Global;
use std::process::Abort;
use std::sync::Wait;
use std::thread::join;
use wm_disk::Refusal;
use wm_registry::Version;

/// A desk over a new file, on a disk that fails at the first write of the second group.
fn faulty(rt: &impl Abort, alloc: Global) -> Kept {
    let mut store = opened(rt, alloc, Version::Two);
    store.arm(4);
    desk_over(rt, alloc, store)
}

/// Three seats watch a path each, one after the other.
fn three<R: Wait + Abort>(rt: &R, alloc: Global, desk: &Kept) -> [Option<Refusal>; 3] {
    [
        refusal_of(rt, desk, watch(rt, alloc, "/1")),
        refusal_of(rt, desk, watch(rt, alloc, "/2")),
        refusal_of(rt, desk, watch(rt, alloc, "/3")),
    ]
}

#[test]
fn a_device_fails(rt: HostRuntime) {
    let alloc = rt.alloc();
    let desk = faulty(&rt, alloc);
    let shared = &desk;
    let (total, [first, second, third]) = join(
        &rt,
        || flush_for(&rt, shared, 3),
        || three(&rt, alloc, shared),
    );
    let count = roots_of(desk);
    check!(rt; count == 1, count);
    check!(rt; total == 3, total);
    check!(rt; first.is_none());
    check!(rt; second == Some(Refusal::DeviceFailed));
    check!(rt; third == Some(Refusal::StoreFailed));
}
