//! What triggers are made of.
use std::alloc::Global;
use std::process::Abort;
use wm_disk::Refusal;
use wm_names::RootPath;
use wm_registry::{Command, Stdin, Trigger};

/// What a trigger is made of.
#[derive(Clone, Copy)]
pub(crate) struct Plan<'a> {
    pub(crate) name: &'a str,
    pub(crate) command: &'a [&'a str],
    pub(crate) expression: Option<&'a str>,
    pub(crate) append_files: bool,
    pub(crate) stdin: Stdin,
    pub(crate) max_files_stdin: Option<u32>,
}

/// The least trigger.
pub(crate) const LEAST: Plan<'static> = Plan {
    name: "t",
    command: &["true"],
    expression: None,
    append_files: false,
    stdin: Stdin::DevNull,
    max_files_stdin: None,
};

/// A trigger with something of each.
pub(crate) const MORE: Plan<'static> = Plan {
    name: "\u{e9}",
    command: &["make", "", "-j 4"],
    expression: Some("[]"),
    append_files: true,
    stdin: Stdin::NamePerLine,
    max_files_stdin: None,
};

/// The trigger of that plan.
pub(crate) fn made(alloc: Global, plan: Plan<'_>) -> Result<Trigger, Refusal> {
    Trigger::new(
        alloc,
        plan.name,
        plan.command,
        plan.expression,
        plan.append_files,
        plan.stdin,
        plan.max_files_stdin,
    )
}

/// The command that defines a trigger of that plan for `/r`.
pub(crate) fn definition(rt: &impl Abort, alloc: Global, plan: Plan<'_>) -> Command {
    let path = RootPath::read(alloc, "/r").expect(rt, "a path");
    Command::Trigger(path, made(alloc, plan).expect(rt, "a trigger"))
}

// Whether the words are those of the plan.
fn are_words_of(trigger: &Trigger, plan: Plan<'_>) -> bool {
    let words = trigger.command();
    words.len() == plan.command.len()
        && words
            .iter()
            .zip(plan.command)
            .all(|(word, want)| word.as_str() == *want)
}

// Whether the two are one.
fn is_same_stdin(first: Stdin, second: Stdin) -> bool {
    match (first, second) {
        (Stdin::DevNull, Stdin::DevNull) => true,
        (Stdin::NamePerLine, Stdin::NamePerLine) => true,
        _ => false,
    }
}

/// Whether the trigger shows what it was made of.
pub(crate) fn is_of(trigger: &Trigger, plan: Plan<'_>) -> bool {
    trigger.name() == plan.name
        && are_words_of(trigger, plan)
        && trigger.expression() == plan.expression
        && trigger.append_files() == plan.append_files
        && is_same_stdin(trigger.stdin(), plan.stdin)
        && trigger.max_files_stdin() == plan.max_files_stdin
}
