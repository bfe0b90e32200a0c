//! The first key of an object that is refused. Definitions: specs/RefusedParts. Tests: client_tests/src/parts.rt.
ghost use Rattle.std.specs.Prelude.{◌≡◌, IfSome, false, option_map};
ghost use Rattle.serde_json.specs.Find.{as_object};
ghost use Rattle.serde_json.specs.View.{members_view, view};
ghost use Rattle.wm_parts.specs.RefusedParts.{is_key, is_query_key, is_trigger_key, keys_said, takes_keys, unknown_key, unknown_key_in};

use serde_json::{Map, Value};

/// Whose object it is.
#[derive(Clone, Copy, Debug, PartialEq, Eq)]
pub enum Asking {
    /// That of `query` or `subscribe`.
    Query,
    /// That of `trigger`.
    Trigger,
}

/// Whether a query's object may have a key.
fn is_query_key(key: &str) -> bool
    ensures { result ≡ is_query_key key.now }
{
    match key {
        "since" | "expression" | "fields" | "empty_on_fresh_instance" | "sync_timeout" => true,
        _ => false,
    }
}

/// Whether a trigger's object may have a key.
fn is_trigger_key(key: &str) -> bool
    ensures { result ≡ is_trigger_key key.now }
{
    match key {
        "name" | "command" | "expression" | "append_files" | "stdin" | "max_files_stdin" => true,
        _ => false,
    }
}

/// What is said of a key that an object may not have.
pub(crate) fn keys_said(asking: Asking) -> &'static str
    ensures { result.now ≡ keys_said asking }
{
    match asking {
        Asking::Query => {
            "is no key of such a request: these are since, expression, fields, empty_on_fresh_instance and sync_timeout"
        }
        Asking::Trigger => {
            "is no key of a trigger: these are name, command, expression, append_files, stdin and max_files_stdin"
        }
    }
}

/// Whether an object may have a key.
fn is_key(asking: Asking, key: &str) -> bool
    ensures { result ≡ is_key asking key.now }
{
    match asking {
        Asking::Query => is_query_key(key),
        Asking::Trigger => is_trigger_key(key),
    }
}

/// The first of an object's keys, in the order of their bytes, that it may not have.
fn unknown_key(asking: Asking, members: &Map<String, Value>) -> Option<&str>
    ensures { option_map (λ k. k.now) result ≡ unknown_key asking (members_view members.now.entries) }
{
    for (key, _value) in members {
        if !is_key(asking, key.as_str()) {
            return Some(key.as_str());
        }
    }
    None
}

/// The same of a value, whose keys the reader doesn't take then. `None` if it is no object.
pub(crate) fn unknown_key_in(asking: Asking, value: &Value) -> Option<&str>
    ensures key { option_map (λ k. k.now) result ≡ unknown_key_in asking (view value.now) }
    ensures refused { IfSome result (λ _. takes_keys asking (view value.now) ≡ false) }
{
    let members = value.as_object()?;
    unknown_key(asking, members)
}
