//! The spellings of triggers, and triggers that are and aren't defined in the same way.
use crate::checks::check;
use crate::lines::{applied, apply, ask};
use crate::plans::{LEAST, MORE, Plan, definition, is_of, made};
use crate::spelling::{is_spelled, taken};
use std::alloc::Global;
use std::process::Abort;
use wm_registry::{Registry, Reply, Stdin, Trigger, Version};

/// Triggers, each with its spelling by itself, which is that of version 2.
const SPELLINGS: &[(Plan<'static>, &[u8])] = &[
    (LEAST, b"\0\0\0\x01t\0\0\0\x01\0\0\0\x04true\0\0\0\0"),
    (
        MORE,
        b"\0\0\0\x02\xc3\xa9\0\0\0\x03\0\0\0\x04make\0\0\0\0\0\0\0\x04-j 4\x01\0\0\0\x02[]\x01\x01\0",
    ),
    (
        Plan {
            max_files_stdin: Some(1),
            ..LEAST
        },
        b"\0\0\0\x01t\0\0\0\x01\0\0\0\x04true\0\0\0\x01\0\0\0\x01",
    ),
    (
        Plan {
            max_files_stdin: Some(u32::MAX),
            ..LEAST
        },
        b"\0\0\0\x01t\0\0\0\x01\0\0\0\x04true\0\0\0\x01\xff\xff\xff\xff",
    ),
];

// Whether a copy of the trigger is of the plan.
fn is_copied(rt: &impl Abort, trigger: &Trigger, plan: Plan<'_>) -> bool {
    let copy = trigger.copy().expect(rt, "memory");
    let is_of = is_of(&copy, plan);
    drop(copy);
    is_of
}

// Whether the trigger and a copy of it are of the plan, and it is spelled so, and no cut of that is a
// spelling.
fn is_put(rt: &impl Abort, alloc: Global, plan: Plan<'_>, want: &[u8]) -> bool {
    let trigger = made(alloc, plan).expect(rt, "a trigger");
    let shown = is_of(&trigger, plan) && is_copied(rt, &trigger, plan);
    let is_put = shown && is_spelled(rt, alloc, &trigger, want);
    drop(trigger);
    is_put
}

// Whether a trigger of the plan is taken from the bytes.
fn is_taken(rt: &impl Abort, alloc: Global, plan: Plan<'_>, bytes: &[u8]) -> bool {
    match taken::<Trigger>(rt, alloc, bytes) {
        Some(trigger) => {
            let is_of = is_of(&trigger, plan);
            drop(trigger);
            is_of
        }
        None => false,
    }
}

#[test]
fn spells_triggers(rt: HostRuntime) {
    for (plan, want) in SPELLINGS {
        let put = is_put(&rt, rt.alloc(), *plan, want);
        check!(rt; put && is_taken(&rt, rt.alloc(), *plan, want), plan.name);
    }
}

/// Bytes that are no trigger's.
pub(crate) const NO_TRIGGERS: &[(&str, &[u8])] = &[
    (
        "an option byte of 2",
        b"\0\0\0\x01t\0\0\0\x01\0\0\0\x04true\x02\0\0\0",
    ),
    (
        "a truth byte of 2",
        b"\0\0\0\x01t\0\0\0\x01\0\0\0\x04true\0\x02\0\0",
    ),
    (
        "a byte for the standard input of 2",
        b"\0\0\0\x01t\0\0\0\x01\0\0\0\x04true\0\0\x02\0",
    ),
    (
        "a name that is no UTF-8",
        b"\0\0\0\x01\xff\0\0\0\x01\0\0\0\x04true\0\0\0\0",
    ),
    (
        "a word that is no UTF-8",
        b"\0\0\0\x01t\0\0\0\x01\0\0\0\x01\xff\0\0\0\0",
    ),
    (
        "an expression that is no UTF-8",
        b"\0\0\0\x01t\0\0\0\x01\0\0\0\x01a\x01\0\0\0\x01\xff\0\0\0",
    ),
    (
        "an option byte of 2 at the end",
        b"\0\0\0\x01t\0\0\0\x01\0\0\0\x04true\0\0\0\x02\0\0\0\x01",
    ),
    (
        "no files",
        b"\0\0\0\x01t\0\0\0\x01\0\0\0\x04true\0\0\0\x01\0\0\0\0",
    ),
];

/// The trigger that the others are compared with.
const PLAN: Plan<'static> = Plan {
    name: "t",
    command: &["a", "b"],
    expression: None,
    append_files: false,
    stdin: Stdin::DevNull,
    max_files_stdin: None,
};

/// Triggers, and how each is met where the first is there, and the first where it is there.
const MEETINGS: &[(&str, Plan<'static>, Reply)] = &[
    ("the same", PLAN, Reply::Unchanged),
    ("another name", Plan { name: "u", ..PLAN }, Reply::Changed),
    (
        "a word less",
        Plan {
            command: &["a"],
            ..PLAN
        },
        Reply::Replaced,
    ),
    (
        "another word",
        Plan {
            command: &["a", "c"],
            ..PLAN
        },
        Reply::Replaced,
    ),
    (
        "an empty expression",
        Plan {
            expression: Some(""),
            ..PLAN
        },
        Reply::Replaced,
    ),
    (
        "the names of the files",
        Plan {
            append_files: true,
            ..PLAN
        },
        Reply::Replaced,
    ),
    (
        "another standard input",
        Plan {
            stdin: Stdin::NamePerLine,
            ..PLAN
        },
        Reply::Replaced,
    ),
    (
        "a number of files",
        Plan {
            max_files_stdin: Some(2),
            ..PLAN
        },
        Reply::Replaced,
    ),
];

// Watches the root and defines the trigger.
fn define(rt: &impl Abort, alloc: Global, registry: &mut Registry, plan: Plan<'_>) {
    applied(rt, alloc, registry, "watch /r");
    apply(alloc, registry, definition(rt, alloc, plan));
}

// How the second trigger is met where the first is there.
fn met(rt: &impl Abort, alloc: Global, first: Plan<'_>, second: Plan<'_>) -> Reply {
    let second = definition(rt, alloc, second);
    let mut registry = Registry::new(alloc, Version::Two);
    define(rt, alloc, &mut registry, first);
    let reply = ask(&registry, second);
    drop(registry);
    reply
}

#[test]
fn tells_triggers_apart(rt: HostRuntime) {
    for (why, plan, reply) in MEETINGS {
        let forth = met(&rt, rt.alloc(), PLAN, *plan) == *reply;
        check!(rt; forth && met(&rt, rt.alloc(), *plan, PLAN) == *reply, why);
    }
}
