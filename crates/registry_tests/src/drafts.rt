//! A draft, as roots go from its front and from elsewhere.
use crate::checks::check;
use crate::lines::{apply_all, command, is_shown};
use crate::registries::Row;
use std::alloc::Global;
use std::process::Abort;
use wm_disk::Refusal;
use wm_registry::{Command, Draft, Registry, Reply, Version};

/// What the draft is of.
const FOUR: &[(&str, Reply)] = &[
    ("watch /a", Reply::Changed),
    ("watch /b", Reply::Changed),
    ("watch /c", Reply::Changed),
    ("watch /d", Reply::Changed),
];

/// What the draft is told.
const ROWS: &[Row] = &[
    ("watch-del /a", Reply::Changed, "0 5; /b 2; /c 3; /d 4"),
    ("watch-del /b", Reply::Changed, "0 5; /c 3; /d 4"),
    (
        "watch-del /a",
        Reply::Refused(Refusal::NotWatched),
        "0 5; /c 3; /d 4",
    ),
    ("watch-del /d", Reply::Changed, "0 5; /c 3"),
    ("watch-del /c", Reply::Changed, "0 5"),
    ("watch /a", Reply::Changed, "0 6; /a 5"),
];

// A draft of the four roots.
fn begun(rt: &impl Abort, alloc: Global) -> Draft {
    let mut registry = Registry::new(alloc, Version::One);
    apply_all(rt, alloc, &mut registry, FOUR);
    let draft = Draft::new(alloc, &registry).expect(rt, "memory");
    drop(registry);
    draft
}

// How the command is met.
fn apply(alloc: Global, draft: &mut Draft, command: Command) -> Reply {
    let reply = draft.apply(alloc, &command);
    drop(command);
    reply
}

// How the command would be met.
fn reply_to(draft: &mut Draft, command: Command) -> Reply {
    let reply = draft.reply_to(&command);
    drop(command);
    reply
}

// How the command of a line is met.
fn tell(rt: &impl Abort, alloc: Global, draft: &mut Draft, line: &str) -> Reply {
    apply(alloc, draft, command(rt, alloc, line))
}

// How the command of a line would be met.
fn ask(rt: &impl Abort, alloc: Global, draft: &mut Draft, line: &str) -> Reply {
    reply_to(draft, command(rt, alloc, line))
}

// Whether a copy of the draft is that registry.
fn is_left(rt: &impl Abort, alloc: Global, draft: &Draft, state: &str) -> bool {
    let copy = draft.copy(alloc).expect(rt, "memory");
    let is_shown = is_shown(rt, alloc, &copy, state);
    drop(copy);
    is_shown
}

// Asserts that the draft is told so and becomes that, and that the last root is watched then.
fn walk(rt: &impl Abort, alloc: Global, draft: &mut Draft) {
    for (line, reply, state) in ROWS {
        let met = tell(rt, alloc, draft, line) == *reply;
        check!(rt; met && is_left(rt, alloc, draft, state), (line, state));
    }
    check!(rt; ask(rt, alloc, draft, "watch /a") == Reply::Unchanged);
}

// Whether the draft becomes that registry.
fn is_left_at_last(rt: &impl Abort, alloc: Global, draft: Draft, state: &str) -> bool {
    let registry = draft.into_registry();
    let is_shown = is_shown(rt, alloc, &registry, state);
    drop(registry);
    is_shown
}

#[test]
fn takes_roots_out(rt: HostRuntime) {
    let mut draft = begun(&rt, rt.alloc());
    walk(&rt, rt.alloc(), &mut draft);
    check!(rt; is_left_at_last(&rt, rt.alloc(), draft, "0 6; /a 5"));
}
