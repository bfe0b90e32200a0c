//! Commands again, and whether two are one.
//! Tests: file_tests/src/desk/rows.rt.
ghost use Rattle.std.specs.Prelude.{◌≡◌, ◌≢◌, IfOk, MatchBool};
ghost use Rattle.std.specs.Option.{option_map};

use crate::queued::Call;
use std::alloc::Global;
use wm_disk::NoMemory;
use wm_registry::{Command, Stdin, Trigger};

/// The same command again. `NoMemory`.
pub fn copied(alloc: Global, command: &Command) -> Result<Command, NoMemory>
    ensures { IfOk result (λ c. c ≡ command.now) }
{
    match command {
        Command::Begin => Ok(Command::Begin),
        Command::Watch(path) => {
            let path = path.copy(alloc)?;
            Ok(Command::Watch(path))
        }
        Command::WatchDel(path) => {
            let path = path.copy(alloc)?;
            Ok(Command::WatchDel(path))
        }
        Command::Trigger(path, trigger) => {
            let path = path.copy(alloc)?;
            let trigger = trigger.copy()?;
            Ok(Command::Trigger(path, trigger))
        }
        Command::TriggerDel(path, name) => {
            let path = path.copy(alloc)?;
            let name = name.copy(alloc)?;
            Ok(Command::TriggerDel(path, name))
        }
    }
}

fn same_stdin(one: Stdin, other: Stdin) -> bool
    ensures { MatchBool result (one ≡ other) (one ≢ other) }
{
    match (one, other) {
        (Stdin::DevNull, Stdin::DevNull) => true,
        (Stdin::NamePerLine, Stdin::NamePerLine) => true,
        _ => false,
    }
}

fn same_text(one: Option<&str>, other: Option<&str>) -> bool
    ensures { MatchBool result (option_map (λ t. t.now) one.entry ≡ option_map (λ t. t.now) other.entry) (option_map (λ t. t.now) one.entry ≢ option_map (λ t. t.now) other.entry) }
{
    match (one, other) {
        (Some(one), Some(other)) => one == other,
        (None, None) => true,
        _ => false,
    }
}

fn same_trigger(one: &Trigger, other: &Trigger) -> bool
    ensures { MatchBool result (one.now ≡ other.now) (one.now ≢ other.now) }
{
    if one.name() != other.name() {
        return false;
    }
    if one.command() != other.command() {
        return false;
    }
    if !same_text(one.expression(), other.expression()) {
        return false;
    }
    if one.append_files() != other.append_files() {
        return false;
    }
    if one.max_files_stdin() != other.max_files_stdin() {
        return false;
    }
    same_stdin(one.stdin(), other.stdin())
}

/// Whether the two commands are one.
fn is_same(one: &Command, other: &Command) -> bool
    ensures { MatchBool result (one.now ≡ other.now) (one.now ≢ other.now) }
{
    match (one, other) {
        (Command::Begin, Command::Begin) => true,
        (Command::Watch(a), Command::Watch(b)) => a == b,
        (Command::WatchDel(a), Command::WatchDel(b)) => a == b,
        (Command::Trigger(a, s), Command::Trigger(b, t)) => a == b && same_trigger(s, t),
        (Command::TriggerDel(a, m), Command::TriggerDel(b, n)) => {
            a == b && m.as_str() == n.as_str()
        }
        _ => false,
    }
}

/// Whether the two calls are one.
pub fn is_same_call(one: &Call, other: &Call) -> bool
    ensures { MatchBool result (one.now ≡ other.now) (one.now ≢ other.now) }
{
    one.seat == other.seat && one.count == other.count && is_same(&one.command, &other.command)
}
