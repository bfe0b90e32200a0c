//! The keys of objects in lines. Their definitions are in specs/Keys.
//! Tests: session_tests/src/requests.
ghost use Rattle.std.specs.Prelude.{◌≡◌, ◌≤◌, is_some, option_map};
ghost use Rattle.serde_json.specs.Find.{get};
ghost use Rattle.serde_json.specs.View.{view};
ghost use Rattle.wm_lines.specs.Keys.{flag_in, has_keys as has_keys_lem, one_if};

use serde_json::Value;

/// Whether a value is an object with so many keys.
pub(crate) fn has_keys(value: &Value, n: usize) -> bool
    ensures { result ≡ has_keys_lem n (view value.now) }
{
    match value.as_object() {
        Some(members) => members.len() == n,
        None => false,
    }
}

/// One where an object has the key.
pub(crate) fn one_for(object: &Value, key: &str) -> usize
    ensures value { result ≡ one_if (is_some (get key.now (view object.now))) }
    ensures most { result ≤ 1 }
{
    usize::from(object.get(key).is_some())
}

/// A truth value that is false where it is missing.
pub(crate) fn flag(value: Option<&Value>) -> Option<bool>
    ensures { result ≡ flag_in (option_map (λ v. view v.now) value.entry) }
{
    match value {
        Some(value) => value.as_bool(),
        None => Some(false),
    }
}
