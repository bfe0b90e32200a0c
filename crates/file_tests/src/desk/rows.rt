//! One list of commands: what two seats are told of it, and eight threads.
ghost use Rattle.wm_groupcommit.specs.Seats.{IsSeatOf};

use crate::checks::check;
use crate::desk::desks::{
    Kept, desk, desk_to_close, flush_for, is_watch, refusal_of, unwatch, watch,
};
use crate::store::open;
use std::alloc::Global;
use std::process::Abort;
use std::sync::Wait;
use std::thread::{Threads, join};
use wm_disk::{Crashed, MemDisk, Refusal};
use wm_groupcommit::{ClosePermit, Receipt, Seat, Standing};
use wm_registry::{Command, Reply};
use wm_store::Store;

/// Whether the command that watches the path stands at that number.
fn stands_at(standing: &Standing, wanted: u64, path: &str) -> bool {
    match standing {
        Standing::Stands { number, command } => number.get() == wanted && is_watch(command, path),
        Standing::Unchanged { .. } => false,
    }
}

/// Whether it changed nothing after so many commands.
fn is_unchanged(standing: &Standing, wanted: u64) -> bool {
    match standing {
        Standing::Unchanged { after } => *after == wanted,
        Standing::Stands { .. } => false,
    }
}

/// Watches `/a` twice from a seat, and gives both receipts.
fn ask_twice<R: Wait + Abort>(
    rt: &R,
    alloc: Global,
    desk: &Kept,
    seat: &mut Seat,
) -> (Receipt, Receipt)
    requires { IsSeatOf desk.now seat.old }
{
    let a = watch(rt, alloc, "/a");
    let (reply, first) = desk.submit(rt, seat, a).expect(rt, "/a");
    check!(rt; reply == Reply::Changed);
    check!(rt; stands_at(first.standing(), 1, "/a"));
    let a = watch(rt, alloc, "/a");
    let (reply, again) = desk.submit(rt, seat, a).expect(rt, "/a again");
    check!(rt; reply == Reply::Unchanged);
    check!(rt; is_unchanged(again.standing(), 1));
    (first, again)
}

/// Ends the watch of `/b`, which isn't watched, and watches it, from another seat.
fn ask_other<R: Wait + Abort>(rt: &R, alloc: Global, desk: &Kept, seat: &mut Seat)
    requires { IsSeatOf desk.now seat.old }
    ensures { IsSeatOf desk.now seat.new }
{
    let b = unwatch(rt, alloc, "/b");
    let refused = desk.submit(rt, seat, b).err();
    check!(rt; refused == Some(Refusal::NotWatched));
    let b = watch(rt, alloc, "/b");
    let (_, second) = desk.submit(rt, seat, b).expect(rt, "/b");
    check!(rt; stands_at(second.standing(), 2, "/b"));
    drop(second);
}

/// Of the two receipts for `/a` the command of the first has to stand in the list, and none of the other.
fn assert_listed<R: Wait + Abort>(rt: &R, desk: &Kept, first: &Receipt, again: &Receipt) {
    let found = desk.stands(rt, first).expect(rt, "memory");
    let found = found.expect(rt, "a command for /a");
    check!(rt; is_watch(&found, "/a"));
    drop(found);
    let none = desk.stands(rt, again).expect(rt, "memory");
    check!(rt; none.is_none());
    drop(none);
}

/// A `Begin`, and the watch of `/c` behind the desk's closing.
fn ask_late<R: Wait + Abort>(
    rt: &R,
    alloc: Global,
    desk: &Kept,
    permit: ClosePermit,
    seat: &mut Seat,
)
    requires { IsSeatOf desk.now seat.old }
{
    let begin = desk.submit(rt, seat, Command::Begin).err();
    check!(rt; begin == Some(Refusal::BadArguments));
    let closed = desk.close(rt, permit);
    check!(rt; closed.is_ok());
    drop(closed);
    let c = watch(rt, alloc, "/c");
    let late = desk.submit(rt, seat, c).err();
    check!(rt; late == Some(Refusal::StoreFailed));
}

/// Six commands from two seats.
fn ask_both<R: Wait + Abort>(rt: &R, alloc: Global, desk: &Kept, permit: ClosePermit) {
    let mut one = desk.seat(rt).ok().expect(rt, "a seat");
    let mut two = desk.seat(rt).ok().expect(rt, "a second seat");
    let (first, again) = ask_twice(rt, alloc, desk, &mut one);
    ask_other(rt, alloc, desk, &mut two);
    assert_listed(rt, desk, &first, &again);
    ask_late(rt, alloc, desk, permit, &mut two);
    drop(first);
    drop(again);
    drop(two);
    drop(one);
}

#[test]
fn two_seats(rt: HostRuntime) {
    let alloc = rt.alloc();
    let (desk, permit) = desk_to_close(&rt, alloc);
    let shared = &desk;
    let (total, ()) = join(
        &rt,
        || flush_for(&rt, shared, 6),
        || ask_both(&rt, alloc, shared, permit),
    );
    drop(desk.into_store());
    check!(rt; total == 6, total);
}

/// The numbers at which the paths of a seat stand.
type Numbers = [u64; 32];

fn number_of(standing: &Standing) -> u64 {
    match standing {
        Standing::Stands { number, .. } => number.get(),
        Standing::Unchanged { .. } => 0,
    }
}

/// The watch of a path of a seat's own.
fn own_watch(rt: &impl Abort, alloc: Global, path: usize) -> Command {
    let text = format!(in alloc; "/{path}").expect(rt, "memory");
    watch(rt, alloc, &text)
}

/// Watches a path of a seat's own, and gives the number at which that stands, or 0 where it changes nothing.
fn watch_one<R: Wait + Abort>(
    rt: &R,
    alloc: Global,
    desk: &Kept,
    seat: &mut Seat,
    path: usize,
) -> u64
    requires { IsSeatOf desk.now seat.old }
    ensures { IsSeatOf desk.now seat.new }
{
    let command = own_watch(rt, alloc, path);
    let (_, receipt) = desk.submit(rt, seat, command).expect(rt, "a receipt");
    let number = number_of(receipt.standing());
    drop(receipt);
    number
}

/// Watches 32 paths from that number on, and gives the numbers at which they stand.
fn watch_all<R: Wait + Abort>(rt: &R, alloc: Global, desk: &Kept, first: usize) -> Numbers {
    let mut numbers = [0; 32];
    let mut seat = desk.seat(rt).ok().expect(rt, "a seat");
    for i in 0..32 {
        numbers[i] = watch_one(rt, alloc, desk, &mut seat, first.wrapping_add(i));
    }
    drop(seat);
    numbers
}

fn pair<R: Threads + Wait + Abort + Sync>(
    rt: &R,
    alloc: Global,
    desk: &Kept,
    first: usize,
) -> [Numbers; 2] {
    let (a, b) = join(
        rt,
        move || watch_all(rt, alloc, desk, first),
        move || watch_all(rt, alloc, desk, first.wrapping_add(32)),
    );
    [a, b]
}

fn four<R: Threads + Wait + Abort + Sync>(
    rt: &R,
    alloc: Global,
    desk: &Kept,
    first: usize,
) -> [Numbers; 4] {
    let ([a, b], [c, d]) = join(
        rt,
        move || pair(rt, alloc, desk, first),
        move || pair(rt, alloc, desk, first.wrapping_add(64)),
    );
    [a, b, c, d]
}

/// Eight threads with 32 paths each, and one path more behind them.
fn eight<R: Threads + Wait + Abort + Sync>(
    rt: &R,
    alloc: Global,
    desk: &Kept,
) -> ([Numbers; 8], Option<Refusal>) {
    let ([a, b, c, d], [e, f, g, h]) = join(
        rt,
        || four(rt, alloc, desk, 0),
        || four(rt, alloc, desk, 128),
    );
    let more = refusal_of(rt, desk, watch(rt, alloc, "/more"));
    ([a, b, c, d, e, f, g, h], more)
}

/// Whether the number wasn't seen yet; from now on it is.
fn is_new(seen: &mut Vec<bool>, number: u64) -> bool {
    let at = number as usize;
    if at >= seen.len() || seen[at] {
        return false;
    }
    seen[at] = true;
    true
}

/// Has to be a store with 256 roots, which a start finds behind a crash.
fn assert_outlasts(rt: &impl Abort, alloc: Global, store: Store<MemDisk>) {
    let count = store.registry().roots().len();
    check!(rt; count == 256, count);
    let store = open(rt, alloc, store.into_disk().crash());
    let count = store.registry().roots().len();
    check!(rt; count == 256, count);
    let incarnation = store.registry().incarnation();
    check!(rt; incarnation == 2, incarnation);
    drop(store);
}

/// The numbers have to be those up to 256, and those of each seat in their order.
fn assert_numbered(rt: &impl Abort, alloc: Global, numbers: &[Numbers]) {
    let mut seen = Vec::from_elem(alloc, false, 257).expect(rt, "memory");
    for of_seat in numbers {
        let mut last = 0;
        for number in of_seat {
            check!(rt; *number > last && *number <= 256);
            check!(rt; is_new(&mut seen, *number));
            last = *number;
        }
    }
}

#[test]
fn eight_threads_watch(rt: HostRuntime) {
    let alloc = rt.alloc();
    let desk = desk(&rt, alloc);
    let shared = &desk;
    let (total, (numbers, more)) = join(
        &rt,
        || flush_for(&rt, shared, 257),
        || eight(&rt, alloc, shared),
    );
    assert_outlasts(&rt, alloc, desk.into_store());
    assert_numbered(&rt, alloc, &numbers);
    check!(rt; total == 257, total);
    check!(rt; more == Some(Refusal::TooMany));
}
