//! Desks on disks in memory, what is submitted at them, and a flusher.

use crate::store::opened;
use std::alloc::Global;
use std::process::Abort;
use std::sync::Wait;
use wm_disk::{MemDisk, Refusal};
use wm_groupcommit::{ClosePermit, Desk, Receipt};
use wm_names::RootPath;
use wm_registry::{Command, Reply, Version};
use wm_store::Store;

/// A desk on a disk in memory.
pub(crate) type Kept = Desk<MemDisk>;

/// A desk over a store on a new file of version 2.
pub(crate) fn desk(rt: &impl Abort, alloc: Global) -> Kept {
    desk_over(rt, alloc, opened(rt, alloc, Version::Two))
}

/// A desk over a store on a new file of version 2, and the permit to close it.
pub(crate) fn desk_to_close(rt: &impl Abort, alloc: Global) -> (Kept, ClosePermit) {
    let store = opened(rt, alloc, Version::Two);
    Desk::new(alloc, store).ok().expect(rt, "a desk")
}

/// A desk over this store.
pub(crate) fn desk_over(rt: &impl Abort, alloc: Global, store: Store<MemDisk>) -> Kept {
    let (desk, permit) = Desk::new(alloc, store).ok().expect(rt, "a desk");
    drop(permit);
    desk
}

/// How many roots the desk's store watches at the end.
pub(crate) fn roots_of(desk: Kept) -> usize {
    let store = desk.into_store();
    let count = store.registry().roots().len();
    drop(store);
    count
}

/// Watches the path.
pub(crate) fn watch(rt: &impl Abort, alloc: Global, path: &str) -> Command {
    Command::Watch(RootPath::read(alloc, path).expect(rt, "a path"))
}

/// Ends the watch of the path.
pub(crate) fn unwatch(rt: &impl Abort, alloc: Global, path: &str) -> Command {
    Command::WatchDel(RootPath::read(alloc, path).expect(rt, "a path"))
}

/// Whether the command watches the path.
pub(crate) fn is_watch(command: &Command, path: &str) -> bool {
    match command {
        Command::Watch(watched) => watched.as_str() == path,
        _ => false,
    }
}

/// Submits a command from a new seat.
pub(crate) fn submit_one<R: Wait + Abort>(
    rt: &R,
    desk: &Kept,
    command: Command,
) -> Result<(Reply, Receipt), Refusal> {
    let mut seat = desk.seat(rt).ok().expect(rt, "a seat");
    let answer = desk.submit(rt, &mut seat, command);
    drop(seat);
    answer
}

/// What a command from a new seat is refused.
pub(crate) fn refusal_of<R: Wait + Abort>(
    rt: &R,
    desk: &Kept,
    command: Command,
) -> Option<Refusal> {
    submit_one(rt, desk, command).err()
}

/// Flushes until so many commands were answered, asleep while there are none, and tells how many were.
pub(crate) fn flush_for<R: Wait + Abort>(rt: &R, desk: &Kept, wanted: usize) -> usize {
    let mut flusher = desk.flusher(rt).ok().expect(rt, "a flusher");
    let mut total: usize = 0;
    for _ in rt.forever() {
        if total >= wanted {
            break;
        }
        if let Ok(flushed) = desk.flush_once(rt, &mut flusher) {
            let count = flushed.count();
            drop(flushed);
            if count == 0 {
                desk.wait_for_calls(rt, &mut flusher);
            }
            total = total.saturating_add(count);
        }
    }
    drop(flusher);
    total
}
