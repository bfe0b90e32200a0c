//! Tables of states, each with its exact bytes, and bytes that are no spelling.
use crate::checks::check;
use crate::filed::{filed_copy, filed_first};
use crate::spelling::{is_spelled, spells, taken};
use std::alloc::Global;
use std::process::Abort;
use wm_checkpoint::Version1;
use wm_names::RootPath;
use wm_registry::{FiledRegistry, Registry, Root, Version};

/// That of a new file: incarnation 0, 1 as the next root number, and no roots.
const FIRST: &[u8] = b"\0\0\0\0\0\0\0\0\0\0\0\0\0\0\0\x01\0\0\0\0";

/// Incarnation 1, 2 as the next number, and the root `/r` of number 1, without triggers.
const ONE: &[u8] =
    b"\0\0\0\0\0\0\0\x01\0\0\0\0\0\0\0\x02\0\0\0\x01\0\0\0\x02\x2f\x72\0\0\0\0\0\0\0\x01\0\0\0\0";

/// Incarnation 258, 4 as the next number, the root `/r` of number 3 with the triggers `t` and `u`, and
/// `/a/b` of number 1.
const TWO: &[u8] =
    b"\0\0\0\0\0\0\x01\x02\0\0\0\0\0\0\0\x04\0\0\0\x02\0\0\0\x02\x2f\x72\0\0\0\0\0\0\0\x03\0\0\0\x02\0\0\0\x01t\0\0\0\x01\0\0\0\x01p\0\0\0\0\0\0\x01u\0\0\0\x02\0\0\0\x01q\0\0\0\0\x01\0\0\0\x02*c\x01\x01\0\0\0\x04\x2fa\x2fb\0\0\0\0\0\0\0\x01\0\0\0\0";

/// The last incarnation and the last number.
const LATE: &[u8] = b"\x7f\xff\xff\xff\xff\xff\xff\xff\x7f\xff\xff\xff\xff\xff\xff\xff\0\0\0\0";

/// Incarnation 0, 259 as the next number, and the root `/r` of number 258 with the trigger `t`.
const NUMBERED: &[u8] =
    b"\0\0\0\0\0\0\0\0\0\0\0\0\0\0\x01\x03\0\0\0\x01\0\0\0\x02\x2f\x72\0\0\0\0\0\0\x01\x02\0\0\0\x01\0\0\0\x01t\0\0\0\x01\0\0\0\x01p\0\0\0";

/// Incarnation 0, 2 as the next number, and the root `/r` of number 1 with the triggers `a` and `b`.
const NAMED: &[u8] =
    b"\0\0\0\0\0\0\0\0\0\0\0\0\0\0\0\x02\0\0\0\x01\0\0\0\x02\x2f\x72\0\0\0\0\0\0\0\x01\0\0\0\x02\0\0\0\x01a\0\0\0\x01\0\0\0\x01x\0\0\0\0\0\0\x01b\0\0\0\x01\0\0\0\x01y\0\0\0";

/// The same with the trigger `c` behind the two.
const THREE: &[u8] =
    b"\0\0\0\0\0\0\0\0\0\0\0\0\0\0\0\x02\0\0\0\x01\0\0\0\x02\x2f\x72\0\0\0\0\0\0\0\x01\0\0\0\x03\0\0\0\x01a\0\0\0\x01\0\0\0\x01x\0\0\0\0\0\0\x01b\0\0\0\x01\0\0\0\x01y\0\0\0\0\0\0\x01c\0\0\0\x01\0\0\0\x01x\0\0\0";

/// What a state has.
struct State {
    name: &'static str,
    bytes: &'static [u8],
    size: u64,
    incarnation: u64,
    next: u64,
    roots: usize,
}

/// Each of the states.
const STATES: &[State] = &[
    State {
        name: "a new file's",
        bytes: FIRST,
        size: 20,
        incarnation: 0,
        next: 1,
        roots: 0,
    },
    State {
        name: "one root",
        bytes: ONE,
        size: 38,
        incarnation: 1,
        next: 2,
        roots: 1,
    },
    State {
        name: "two roots",
        bytes: TWO,
        size: 102,
        incarnation: 258,
        next: 4,
        roots: 2,
    },
    State {
        name: "the last counters",
        bytes: LATE,
        size: 20,
        incarnation: 0x7fff_ffff_ffff_ffff,
        next: 0x7fff_ffff_ffff_ffff,
        roots: 0,
    },
    State {
        name: "a root of number 258",
        bytes: NUMBERED,
        size: 55,
        incarnation: 0,
        next: 259,
        roots: 1,
    },
    State {
        name: "two triggers",
        bytes: NAMED,
        size: 72,
        incarnation: 0,
        next: 2,
        roots: 1,
    },
    State {
        name: "three triggers",
        bytes: THREE,
        size: 89,
        incarnation: 0,
        next: 2,
        roots: 1,
    },
];

// Whether the registry has what the state has.
fn is_of(registry: &Registry, state: &State) -> bool {
    registry.incarnation() == state.incarnation
        && registry.next_root() == state.next
        && registry.roots().len() == state.roots
        && registry.size() == state.size
}

// Whether the registry is the state, and spelled so, and no cut of that is a spelling.
fn is_state(
    rt: &impl Abort,
    alloc: Global,
    registry: &FiledRegistry<Version1>,
    state: &State,
) -> bool {
    is_of(registry.registry(), state) && is_spelled(rt, alloc, registry, state.bytes)
}

// Whether a copy of the registry is the state, and spelled so.
fn is_copied(rt: &impl Abort, alloc: Global, registry: &Registry, state: &State) -> bool {
    let copy = filed_copy(rt, alloc, registry);
    let is_state = is_state(rt, alloc, &copy, state);
    drop(copy);
    is_state
}

// Whether the state is taken from its bytes and spelled so, and a copy of it too.
fn is_kept(rt: &impl Abort, alloc: Global, state: &State) -> bool {
    match taken::<FiledRegistry<Version1>>(rt, alloc, state.bytes) {
        Some(registry) => {
            let is_kept = is_state(rt, alloc, &registry, state)
                && is_copied(rt, alloc, registry.registry(), state);
            drop(registry);
            is_kept
        }
        None => false,
    }
}

// Whether a new registry is spelled as the first.
fn spells_new(rt: &impl Abort, alloc: Global) -> bool {
    let registry = Registry::new(alloc, Version::One);
    let is_short = registry.size() == 20;
    let registry = filed_first(rt, registry);
    let spells = is_short && spells(rt, alloc, &registry, FIRST);
    drop(registry);
    spells
}

#[test]
fn spells_states(rt: HostRuntime) {
    check!(rt; spells_new(&rt, rt.alloc()));
    for state in STATES {
        check!(rt; is_kept(&rt, rt.alloc(), state), state.name);
    }
}

/// A state, and a root of it: its path, its number, how many triggers it has, and the last one's name.
type RootRow = (&'static [u8], &'static str, u64, usize, &'static str);

/// Roots of the states.
const ROOTS: &[RootRow] = &[
    (ONE, "/r", 1, 0, ""),
    (TWO, "/r", 3, 2, "u"),
    (TWO, "/a/b", 1, 0, ""),
    (NUMBERED, "/r", 258, 1, "t"),
];

// Whether the root has that number and so many triggers, of which the last has the name.
fn is_root(root: &Root, number: u64, count: usize, last: &str) -> bool {
    let named = match root.triggers.as_slice() {
        [.., trigger] => trigger.name() == last,
        [] => last.is_empty(),
    };
    root.number == number && root.triggers.len() == count && named
}

// Whether the registry has the row's root.
fn has_root(rt: &impl Abort, alloc: Global, registry: &Registry, row: &RootRow) -> bool {
    let (_, path, number, count, last) = *row;
    let path = RootPath::read(alloc, path).expect(rt, "a path");
    let has_root = match registry.roots().get(&path) {
        Some(root) => is_root(root, number, count, last),
        None => false,
    };
    drop(path);
    has_root
}

// Whether the row's root is taken with its state.
fn is_taken(rt: &impl Abort, alloc: Global, row: &RootRow) -> bool {
    match taken::<FiledRegistry<Version1>>(rt, alloc, row.0) {
        Some(registry) => {
            let has_root = has_root(rt, alloc, registry.registry(), row);
            drop(registry);
            has_root
        }
        None => false,
    }
}

#[test]
fn takes_roots(rt: HostRuntime) {
    for row in ROOTS {
        check!(rt; is_taken(&rt, rt.alloc(), row), (row.1, row.2));
    }
}

/// Bytes that are no state's.
pub(crate) const NO_STATES: &[(&str, &[u8])] = &[
    ("next 0", b"\0\0\0\0\0\0\0\0\0\0\0\0\0\0\0\0\0\0\0\0"),
    ("next 2^63", b"\0\0\0\0\0\0\0\0\x80\0\0\0\0\0\0\0\0\0\0\0"),
    (
        "incarnation 2^63",
        b"\x80\0\0\0\0\0\0\0\0\0\0\0\0\0\0\x01\0\0\0\0",
    ),
    (
        "number 0",
        b"\0\0\0\0\0\0\0\x01\0\0\0\0\0\0\0\x02\0\0\0\x01\0\0\0\x02\x2f\x72\0\0\0\0\0\0\0\0\0\0\0\0",
    ),
    (
        "number 2 of 2",
        b"\0\0\0\0\0\0\0\x01\0\0\0\0\0\0\0\x02\0\0\0\x01\0\0\0\x02\x2f\x72\0\0\0\0\0\0\0\x02\0\0\0\0",
    ),
    (
        "number 2^63",
        b"\0\0\0\0\0\0\0\x01\x7f\xff\xff\xff\xff\xff\xff\xff\0\0\0\x01\0\0\0\x02\x2f\x72\x80\0\0\0\0\0\0\0\0\0\0\0",
    ),
    (
        "one path twice",
        b"\0\0\0\0\0\0\0\x01\0\0\0\0\0\0\0\x03\0\0\0\x02\0\0\0\x02\x2f\x72\0\0\0\0\0\0\0\x01\0\0\0\0\0\0\0\x02\x2f\x72\0\0\0\0\0\0\0\x02\0\0\0\0",
    ),
    (
        "one number twice",
        b"\0\0\0\0\0\0\0\x01\0\0\0\0\0\0\0\x03\0\0\0\x02\0\0\0\x02\x2f\x72\0\0\0\0\0\0\0\x01\0\0\0\0\0\0\0\x02\x2f\x73\0\0\0\0\0\0\0\x01\0\0\0\0",
    ),
    (
        "one name twice",
        b"\0\0\0\0\0\0\0\x01\0\0\0\0\0\0\0\x02\0\0\0\x01\0\0\0\x02\x2f\x72\0\0\0\0\0\0\0\x01\0\0\0\x02\0\0\0\x01t\0\0\0\x01\0\0\0\x01p\0\0\0\0\0\0\x01t\0\0\0\x01\0\0\0\x01q\0\0\0",
    ),
    (
        "no name",
        b"\0\0\0\0\0\0\0\x01\0\0\0\0\0\0\0\x02\0\0\0\x01\0\0\0\x02\x2f\x72\0\0\0\0\0\0\0\x01\0\0\0\x01\0\0\0\0\0\0\0\x01\0\0\0\x01p\0\0\0",
    ),
    (
        "65 triggers",
        b"\0\0\0\0\0\0\0\x01\0\0\0\0\0\0\0\x02\0\0\0\x01\0\0\0\x02\x2f\x72\0\0\0\0\0\0\0\x01\0\0\0\x41",
    ),
    (
        "path r",
        b"\0\0\0\0\0\0\0\x01\0\0\0\0\0\0\0\x02\0\0\0\x01\0\0\0\x01\x72\0\0\0\0\0\0\0\x01\0\0\0\0",
    ),
    (
        "path /.",
        b"\0\0\0\0\0\0\0\x01\0\0\0\0\0\0\0\x02\0\0\0\x01\0\0\0\x02\x2f\x2e\0\0\0\0\0\0\0\x01\0\0\0\0",
    ),
    (
        "no path",
        b"\0\0\0\0\0\0\0\x01\0\0\0\0\0\0\0\x02\0\0\0\x01\0\0\0\0\0\0\0\0\0\0\0\x01\0\0\0\0",
    ),
    (
        "no UTF-8",
        b"\0\0\0\0\0\0\0\x01\0\0\0\0\0\0\0\x02\0\0\0\x01\0\0\0\x02\x2f\xff\0\0\0\0\0\0\0\x01\0\0\0\0",
    ),
    (
        "a path of 1,025 bytes",
        b"\0\0\0\0\0\0\0\x01\0\0\0\0\0\0\0\x02\0\0\0\x01\0\0\x04\x01\x2f\x72",
    ),
    (
        "257 roots",
        b"\0\0\0\0\0\0\0\0\0\0\0\0\0\0\x02\0\0\0\x01\x01",
    ),
    (
        "2^32 - 1 roots",
        b"\0\0\0\0\0\0\0\0\0\0\0\0\0\0\x02\0\xff\xff\xff\xff",
    ),
    (
        "one name twice, apart",
        b"\0\0\0\0\0\0\0\0\0\0\0\0\0\0\0\x02\0\0\0\x01\0\0\0\x02\x2f\x72\0\0\0\0\0\0\0\x01\0\0\0\x04\0\0\0\x01a\0\0\0\x01\0\0\0\x01x\0\0\0\0\0\0\x01b\0\0\0\x01\0\0\0\x01y\0\0\0\0\0\0\x01c\0\0\0\x01\0\0\0\x01x\0\0\0\0\0\0\x01b\0\0\0\x01\0\0\0\x01x\0\0\0",
    ),
];
