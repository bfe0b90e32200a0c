//! What receipts tell after a hundred later commands, and how many commands were accepted.
ghost use Rattle.wm_groupcommit.specs.Seats.{IsSeatOf};

use crate::checks::check;
use crate::desk::desks::{Kept, desk, flush_for, is_watch, roots_of, watch};
use std::alloc::Global;
use std::process::Abort;
use std::sync::Wait;
use std::thread::join;
use wm_groupcommit::{Receipt, Seat, Standing};
use wm_names::RootPath;
use wm_registry::{Command, Registry, Reply, Root, Stdin, Trigger};

/// How often the trigger is defined.
const TIMES: usize = 100;

/// A trigger with one of two commands.
fn trigger(rt: &impl Abort, alloc: Global, is_first: bool) -> Trigger {
    let program = if is_first { "true" } else { "false" };
    let made = Trigger::new(alloc, "t", &[program], None, false, Stdin::DevNull, None);
    made.expect(rt, "a trigger")
}

/// Whether the command defines this trigger of `/a`.
fn defines(command: &Command, wanted: &Trigger) -> bool {
    match command {
        Command::Trigger(path, trigger) => path.as_str() == "/a" && trigger.is_same(wanted),
        _ => false,
    }
}

/// Defines the trigger of `/a`, in place of the one that is there.
fn define<R: Wait + Abort>(
    rt: &R,
    alloc: Global,
    desk: &Kept,
    seat: &mut Seat,
    is_first: bool,
) -> Receipt
    requires { IsSeatOf desk.now seat.old }
    ensures { IsSeatOf desk.now seat.new }
{
    let path = RootPath::read(alloc, "/a").expect(rt, "a path");
    let command = Command::Trigger(path, trigger(rt, alloc, is_first));
    let (reply, receipt) = desk.submit(rt, seat, command).expect(rt, "a receipt");
    check!(rt; reply == Reply::Changed || reply == Reply::Replaced);
    receipt
}

/// Watches `/a` and defines its trigger a hundred times, each time otherwise; the first two receipts and the last.
fn define_all<R: Wait + Abort>(rt: &R, alloc: Global, desk: &Kept) -> (Receipt, Receipt, Receipt) {
    let mut seat = desk.seat(rt).ok().expect(rt, "a seat");
    let a = watch(rt, alloc, "/a");
    let (_, watched) = desk.submit(rt, &mut seat, a).expect(rt, "/a");
    let first = define(rt, alloc, desk, &mut seat, true);
    let mut last = define(rt, alloc, desk, &mut seat, false);
    for i in 2..TIMES {
        last = define(rt, alloc, desk, &mut seat, i % 2 == 0);
    }
    drop(seat);
    (watched, first, last)
}

/// Whether the receipt's command defines this trigger of `/a`.
fn stands<R: Wait + Abort>(rt: &R, desk: &Kept, receipt: &Receipt, wanted: &Trigger) -> bool {
    let found = desk.stands(rt, receipt).expect(rt, "memory");
    let found = found.expect(rt, "a command");
    let stands = defines(&found, wanted);
    drop(found);
    stands
}

/// Whether the watch of `/a` stands.
fn watch_stands<R: Wait + Abort>(rt: &R, desk: &Kept, receipt: &Receipt) -> bool {
    let found = desk.stands(rt, receipt).expect(rt, "memory");
    let found = found.expect(rt, "a command");
    let stands = is_watch(&found, "/a");
    drop(found);
    stands
}

/// Whether the trigger's definition stands at that number, and then nothing is left of the receipt.
fn stood_at(receipt: Receipt, wanted: u64, trigger: &Trigger) -> bool {
    match receipt.into_standing() {
        Standing::Stands { number, command } => {
            number.get() == wanted && defines(&command, trigger)
        }
        Standing::Unchanged { .. } => false,
    }
}

/// Whether the root has that trigger alone.
fn is_alone(root: &Root, wanted: &Trigger) -> bool {
    let triggers = root.triggers.as_slice();
    triggers.len() == 1 && triggers[0].is_same(wanted)
}

/// Whether the only root has that trigger alone.
fn has_alone(registry: &Registry, wanted: &Trigger) -> bool {
    let roots = registry.roots();
    roots.len() == 1 && roots.iter().all(|(_, root)| is_alone(root, wanted))
}

/// The registry has to have the last definition, after 101 commands.
fn assert_registry<R: Wait + Abort>(rt: &R, desk: &Kept, last: &Trigger) {
    let copy = desk.registry(rt).expect(rt, "memory");
    let accepted = copy.count();
    check!(rt; accepted == 101, accepted);
    let registry = copy.into_registry();
    check!(rt; has_alone(&registry, last));
    drop(registry);
    let accepted = desk.accepted(rt).count();
    check!(rt; accepted == 101, accepted);
}

/// Asks for the first two and the last of the receipts.
fn ask_all<R: Wait + Abort>(rt: &R, alloc: Global, desk: &Kept) {
    let (watched, first, last) = define_all(rt, alloc, desk);
    let early = trigger(rt, alloc, true);
    let late = trigger(rt, alloc, false);
    check!(rt; watch_stands(rt, desk, &watched));
    check!(rt; stands(rt, desk, &first, &early));
    check!(rt; stands(rt, desk, &last, &late));
    assert_registry(rt, desk, &late);
    check!(rt; stood_at(first, 2, &early));
    check!(rt; stood_at(last, 101, &late));
    drop(watched);
    drop(early);
    drop(late);
}

#[test]
fn stands_after_a_hundred(rt: HostRuntime) {
    let alloc = rt.alloc();
    let desk = desk(&rt, alloc);
    check!(rt; desk.accepted(&rt).count() == 0);
    let shared = &desk;
    let (total, ()) = join(
        &rt,
        || flush_for(&rt, shared, 101),
        || ask_all(&rt, alloc, shared),
    );
    let count = roots_of(desk);
    check!(rt; total == 101, total);
    check!(rt; count == 1, count);
}
