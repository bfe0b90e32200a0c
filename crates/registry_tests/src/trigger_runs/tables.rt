//! The table of a root's triggers: what stands in it, and what may begin.
use crate::checks::check;
use crate::trigger_runs::making::{defined, named};
use std::alloc::Global;
use std::process::Abort;
use wm_triggers::{DefinedTrigger, DefinedTriggers, TriggerTable};

/// A name, and the number of the command that defined it.
type Named = (&'static str, u64);

/// Whether these definitions stand there, in this order.
fn are(all: &[DefinedTrigger], wanted: &[Named]) -> bool {
    all.len() == wanted.len()
        && all
            .iter()
            .zip(wanted)
            .all(|(one, wanted)| one.is(wanted.0, wanted.1))
}

/// Whether `b` of number 0 alone isn't there any longer.
fn tells_which_stand(all: &DefinedTriggers) -> bool {
    all.stands("a", 0) && all.stands("b", 7) && !all.stands("b", 0) && !all.stands("z", 0)
}

/// Asserts that a new definition takes the place of the old one, and that one of a new name stands last.
fn replace(rt: &impl Abort, alloc: Global, all: &mut DefinedTriggers) {
    all.define(7, named(rt, alloc, "b")).expect(rt, "memory");
    check!(rt; are(all.as_slice(), &[("a", 0), ("b", 7), ("c", 3)]));
    check!(rt; tells_which_stand(all));
    all.remove("a");
    all.remove("z");
    all.define(9, named(rt, alloc, "a")).expect(rt, "memory");
    check!(rt; are(all.as_slice(), &[("b", 7), ("c", 3), ("a", 9)]));
    check!(rt; all.len() == 3);
}

/// Whether a copy is the same, and stays so whatever happens to the other.
fn copies(rt: &impl Abort, alloc: Global, all: &mut DefinedTriggers) -> bool {
    let copy = all.copy(alloc).expect(rt, "memory");
    all.remove("c");
    let stays = are(copy.as_slice(), &[("b", 7), ("c", 3), ("a", 9)]);
    drop(copy);
    stays && are(all.as_slice(), &[("b", 7), ("a", 9)])
}

#[test]
fn replaces_in_its_place(rt: HostRuntime) {
    let alloc = rt.alloc();
    let mut all = defined(&rt, alloc, &[("a", 0), ("b", 0), ("c", 3)]);
    replace(&rt, alloc, &mut all);
    check!(rt; copies(&rt, alloc, &mut all));
    drop(all);
}

/// What happens to a table, and what it answers.
enum Step {
    Define(&'static str, u64),
    Remove(&'static str),
    /// The definition begins, or doesn't.
    Begin(&'static str, u64, bool),
    End,
    EndRoot,
    /// Who deletes may reply, or may not.
    Reply(bool),
}

use Step::{Begin, Define, End, EndRoot, Remove, Reply};

const ROWS: &[&[Step]] = &[
    // what stands begins again and again
    &[
        Define("a", 0),
        Reply(true),
        Begin("a", 0, true),
        Reply(true),
        End,
        Begin("a", 0, true),
        End,
        Reply(true),
    ],
    // what was never there doesn't
    &[Begin("a", 0, false), Reply(true)],
    &[
        Define("a", 4),
        Begin("a", 0, false),
        Begin("a", 5, false),
        Begin("b", 4, false),
    ],
    // what was deleted doesn't
    &[
        Define("a", 0),
        Remove("a"),
        Begin("a", 0, false),
        Reply(true),
    ],
    // while it starts its deletion has no reply
    &[
        Define("a", 0),
        Begin("a", 0, true),
        Remove("a"),
        Reply(false),
        End,
        Reply(true),
        Begin("a", 0, false),
    ],
    // it is defined anew with the same words
    &[
        Define("a", 1),
        Begin("a", 1, true),
        Remove("a"),
        Define("a", 3),
        Reply(false),
        End,
        Reply(true),
        Begin("a", 1, false),
        Begin("a", 3, true),
        Reply(true),
    ],
    // it is replaced
    &[
        Define("a", 1),
        Begin("a", 1, true),
        Define("a", 2),
        Reply(false),
        End,
        Reply(true),
        Begin("a", 1, false),
        Begin("a", 2, true),
    ],
    // the start of another keeps no reply back
    &[
        Define("a", 0),
        Define("b", 0),
        Begin("b", 0, true),
        Remove("a"),
        Reply(true),
        Define("a", 8),
        Reply(true),
    ],
    // one start at a time
    &[
        Define("a", 0),
        Define("b", 0),
        Begin("a", 0, true),
        Begin("b", 0, false),
        Begin("a", 0, false),
        End,
        Begin("b", 0, true),
    ],
    // the root isn't watched any longer
    &[
        Define("a", 0),
        Define("b", 2),
        Begin("a", 0, true),
        EndRoot,
        Reply(false),
        End,
        Reply(true),
        Begin("a", 0, false),
        Begin("b", 2, false),
        Define("c", 3),
        Begin("c", 3, false),
    ],
    &[EndRoot, Reply(true)],
];

/// Whether the definition begins.
fn begins(
    rt: &impl Abort,
    alloc: Global,
    table: &mut TriggerTable,
    name: &str,
    number: u64,
) -> bool {
    table.begin(DefinedTrigger {
        number,
        trigger: named(rt, alloc, name),
    })
}

/// Whether the table answers the step as it says.
fn is_met(rt: &impl Abort, alloc: Global, table: &mut TriggerTable, step: &Step) -> bool {
    match step {
        Define(name, number) => {
            let trigger = named(rt, alloc, name);
            return table.define(*number, trigger).is_ok();
        }
        Remove(name) => table.remove(name),
        Begin(name, number, wanted) => {
            return begins(rt, alloc, table, name, *number) == *wanted;
        }
        End => table.end(),
        EndRoot => table.end_root(),
        Reply(wanted) => return table.may_reply() == *wanted,
    }
    true
}

/// Asserts that a new table answers each step of the row as it says.
fn meet(rt: &impl Abort, alloc: Global, row: usize, steps: &[Step]) {
    let mut table = TriggerTable::new(alloc).expect(rt, "memory");
    for (i, step) in steps.iter().enumerate() {
        check!(rt; is_met(rt, alloc, &mut table, step), (row, i));
    }
    drop(table);
}

#[test]
fn begins_what_stands_alone(rt: HostRuntime) {
    for (i, row) in ROWS.iter().enumerate() {
        meet(&rt, rt.alloc(), i, row);
    }
}

/// Defines so many triggers of names of their own, and asserts that each finds its place.
fn define_many(rt: &impl Abort, alloc: Global, all: &mut DefinedTriggers, count: u32) {
    for i in 0..count {
        let name = format!(in alloc; "{i}").expect(rt, "memory");
        let trigger = named(rt, alloc, name.as_str());
        drop(name);
        check!(rt; all.define(0, trigger).is_ok(), i);
    }
}

#[test]
fn holds_more_than_it_has_room_for(rt: HostRuntime) {
    let mut all = defined(&rt, rt.alloc(), &[]);
    define_many(&rt, rt.alloc(), &mut all, 100);
    check!(rt; all.len() == 100 && all.stands("99", 0));
    drop(all);
}
