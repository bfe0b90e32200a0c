//! Commands as lines, and a registry as a line.
use crate::checks::check;
use std::alloc::Global;
use std::process::Abort;
use wm_names::RootPath;
use wm_registry::{Command, Registry, Reply, Root, Stdin, Trigger, TriggerName};

/// The command of a verb, a path, a trigger's name and its program.
pub(crate) fn named(
    rt: &impl Abort,
    alloc: Global,
    verb: &str,
    path: &str,
    name: &str,
    program: &str,
) -> Command {
    if verb == "begin" {
        return Command::Begin;
    }
    let path = RootPath::read(alloc, path).expect(rt, "a path");
    match verb {
        "watch" => Command::Watch(path),
        "watch-del" => Command::WatchDel(path),
        "trigger" => {
            let made = Trigger::new(alloc, name, &[program], None, false, Stdin::DevNull, None);
            Command::Trigger(path, made.expect(rt, "a trigger"))
        }
        _ => Command::TriggerDel(path, TriggerName::read(alloc, name).expect(rt, "a name")),
    }
}

/// The command that a line of those words names.
pub(crate) fn command(rt: &impl Abort, alloc: Global, line: &str) -> Command {
    let mut words = line.split(' ');
    let verb = words.next().unwrap_or("");
    let path = words.next().unwrap_or("");
    let name = words.next().unwrap_or("");
    named(rt, alloc, verb, path, name, words.next().unwrap_or(""))
}

// Appends a trigger's name and its word, where it has one.
fn show_trigger(rt: &impl Abort, line: &mut String, trigger: &Trigger) {
    write!(line, " {}", trigger.name()).expect(rt, "memory");
    if let [word] = trigger.command() {
        write!(line, "={}", word.as_str()).expect(rt, "memory");
    }
}

// Appends a root's path, its number and its triggers.
fn show_root(rt: &impl Abort, line: &mut String, path: &RootPath, root: &Root) {
    write!(line, "; {} {}", path.as_str(), root.number).expect(rt, "memory");
    for trigger in root.triggers.as_slice() {
        show_trigger(rt, line, trigger);
    }
}

// Appends the incarnation and the next root number, and each root's path, number and triggers.
fn show(rt: &impl Abort, line: &mut String, registry: &Registry) {
    write!(line, "{} {}", registry.incarnation(), registry.next_root()).expect(rt, "memory");
    for (path, root) in registry.roots().iter() {
        show_root(rt, line, path, root);
    }
}

/// Whether the registry is that.
pub(crate) fn is_shown(rt: &impl Abort, alloc: Global, registry: &Registry, state: &str) -> bool {
    let mut line = String::new(alloc);
    show(rt, &mut line, registry);
    let is_shown = line.as_str() == state;
    drop(line);
    is_shown
}

/// How the command is met, where it is applied.
pub(crate) fn apply(alloc: Global, registry: &mut Registry, command: Command) -> Reply {
    let reply = registry.apply(alloc, &command);
    drop(command);
    reply
}

/// How the command would be met.
pub(crate) fn ask(registry: &Registry, command: Command) -> Reply {
    let reply = registry.reply_to(&command);
    drop(command);
    reply
}

/// How the command of a line is met, where it is applied.
pub(crate) fn applied(
    rt: &impl Abort,
    alloc: Global,
    registry: &mut Registry,
    line: &str,
) -> Reply {
    apply(alloc, registry, command(rt, alloc, line))
}

/// How the command of a line would be met.
pub(crate) fn asked(rt: &impl Abort, alloc: Global, registry: &Registry, line: &str) -> Reply {
    ask(registry, command(rt, alloc, line))
}

/// Asserts that the commands are met so, one after another.
pub(crate) fn apply_all(
    rt: &impl Abort,
    alloc: Global,
    registry: &mut Registry,
    rows: &[(&str, Reply)],
) {
    for (line, reply) in rows {
        check!(rt; applied(rt, alloc, registry, line) == *reply, line);
    }
}

/// Asserts that the commands would be met so, each by the registry as it is.
pub(crate) fn ask_all(rt: &impl Abort, alloc: Global, registry: &Registry, rows: &[(&str, Reply)]) {
    for (line, reply) in rows {
        check!(rt; asked(rt, alloc, registry, line) == *reply, line);
    }
}
