//! The first value of an object that isn't of its kind. Definitions: specs/RefusedValues. Tests: client_tests/src/parts.rt.
ghost use Rattle.std.specs.Prelude.{◌≡◌, IfSome, Some, false, is_some, option_map};
ghost use Rattle.serde_json.specs.View.{view};
ghost use Rattle.wm_lines.specs.Arguments.{count_of};
ghost use Rattle.wm_lines.specs.TriggerLines.{file_count_in, stdin_in};
ghost use Rattle.wm_parts.specs.RefusedValues.{has_kind, key_name, refused_at, refused_value, takes_kinds, value_said};

use crate::keys::Asking;
use serde_json::Value;
use wm_disk::MAX_COUNTER;

/// A key of an object whose value has a kind of its own.
#[derive(Clone, Copy, Debug, PartialEq, Eq)]
pub enum Key {
    Since,
    Fields,
    SyncTimeout,
    EmptyOnFreshInstance,
    Name,
    Command,
    AppendFiles,
    Stdin,
    MaxFilesStdin,
}

/// Whether a value is a whole number of those that counters have.
fn is_count(value: &Value) -> bool
    ensures { result ≡ is_some (count_of (view value.now)) }
{
    match value.as_u64() {
        Some(n) => n <= MAX_COUNTER,
        None => false,
    }
}

/// Whether a value names what a trigger's program may read.
fn is_stdin(value: &Value) -> bool
    ensures { result ≡ is_some (stdin_in (Some (view value.now))) }
{
    match value.as_str() {
        Some("/dev/null" | "NAME_PER_LINE") => true,
        _ => false,
    }
}

/// Whether a value is a whole number of 32 bits.
fn is_file_count(value: &Value) -> bool
    ensures { result ≡ is_some (file_count_in (Some (view value.now))) }
{
    match value.as_u64() {
        Some(n) => u32::try_from(n).is_ok(),
        None => false,
    }
}

impl Key {
    /// Its name.
    pub(crate) fn name(self) -> &'static str
        ensures { result.now ≡ key_name self }
    {
        match self {
            Key::Since => "since",
            Key::Fields => "fields",
            Key::SyncTimeout => "sync_timeout",
            Key::EmptyOnFreshInstance => "empty_on_fresh_instance",
            Key::Name => "name",
            Key::Command => "command",
            Key::AppendFiles => "append_files",
            Key::Stdin => "stdin",
            Key::MaxFilesStdin => "max_files_stdin",
        }
    }

    /// What is said of a value that can't be at this key.
    pub(crate) fn said(self) -> &'static str
        ensures { result.now ≡ value_said self }
    {
        match self {
            Key::Since => {
                "can't be 'since': this is a clock, a cursor or a time in seconds, as \"c:1:2:3\", \"n:build\" or 1700000000"
            }
            Key::Fields => {
                "can't be 'fields': this is a list of one or more fields, none of them twice, as [\"name\",\"size\"]"
            }
            Key::SyncTimeout => {
                "can't be 'sync_timeout': this is a whole number of milliseconds, as 1000"
            }
            Key::EmptyOnFreshInstance => {
                "can't be 'empty_on_fresh_instance': this is true or false"
            }
            Key::Name => "can't be 'name': this is a text, as \"build\"",
            Key::Command => "can't be 'command': this is a list of texts, as [\"make\",\"all\"]",
            Key::AppendFiles => "can't be 'append_files': this is true or false",
            Key::Stdin => "can't be 'stdin': this is \"/dev/null\" or \"NAME_PER_LINE\"",
            Key::MaxFilesStdin => {
                "can't be 'max_files_stdin': this is a whole number from 1 to 4294967295"
            }
        }
    }

    /// Whether a value is of the kind that a server wants at this key.
    fn has_kind(self, value: &Value) -> bool
        ensures { result ≡ has_kind self (view value.now) }
    {
        match self {
            Key::Since => value.is_string() || value.is_number(),
            Key::Fields | Key::Command => value.is_array(),
            Key::SyncTimeout => is_count(value),
            Key::EmptyOnFreshInstance | Key::AppendFiles => value.is_boolean(),
            Key::Name => value.is_string(),
            Key::Stdin => is_stdin(value),
            Key::MaxFilesStdin => is_file_count(value),
        }
    }
}

/// The value at a key of an object, if it isn't of its kind.
fn refused_at(object: &Value, key: Key) -> Option<(Key, &Value)>
    ensures { option_map (λ v. (v.0, view v.1.now)) result ≡ refused_at key (view object.now) }
{
    let value = object.get(key.name())?;
    if key.has_kind(value) {
        return None;
    }
    Some((key, value))
}

/// The first value of a query's object that isn't of its kind.
fn refused_of_query(object: &Value) -> Option<(Key, &Value)>
    ensures { option_map (λ v. (v.0, view v.1.now)) result ≡ refused_value Asking.Query (view object.now) }
{
    let flags = refused_at(object, Key::EmptyOnFreshInstance);
    let timeouts = refused_at(object, Key::SyncTimeout).or(flags);
    let fields = refused_at(object, Key::Fields).or(timeouts);
    refused_at(object, Key::Since).or(fields)
}

/// The first value of a trigger's object that isn't of its kind.
fn refused_of_trigger(object: &Value) -> Option<(Key, &Value)>
    ensures { option_map (λ v. (v.0, view v.1.now)) result ≡ refused_value Asking.Trigger (view object.now) }
{
    let counts = refused_at(object, Key::MaxFilesStdin);
    let inputs = refused_at(object, Key::Stdin).or(counts);
    let flags = refused_at(object, Key::AppendFiles).or(inputs);
    let commands = refused_at(object, Key::Command).or(flags);
    refused_at(object, Key::Name).or(commands)
}

/// The first value of an object that isn't of its kind: a server doesn't take it then.
pub(crate) fn refused_value(asking: Asking, object: &Value) -> Option<(Key, &Value)>
    ensures value { option_map (λ v. (v.0, view v.1.now)) result ≡ refused_value asking (view object.now) }
    ensures refused { IfSome result (λ _. takes_kinds asking (view object.now) ≡ false) }
{
    match asking {
        Asking::Query => refused_of_query(object),
        Asking::Trigger => refused_of_trigger(object),
    }
}
