//! The arguments of a command, by their places in its array. Their definitions are in specs/Arguments.
//! Tests: session_tests/src/requests.
ghost use Rattle.std.specs.Prelude.{◌≡◌, ◌≢◌, Ok, Err, IfOk, IfErr, option_map, is_none};
ghost use Rattle.serde_json.specs.Find.{at};
ghost use Rattle.serde_json.specs.View.{view};
ghost use Rattle.wm_lines.specs.Arguments.{count_of, only_root, text_at as text_at_lem};

use serde_json::Value;
use std::alloc::Global;
use wm_disk::{MAX_COUNTER, Refusal};
use wm_names::RootPath;

/// The text at a place of an array.
pub(crate) fn text_at(value: &Value, place: usize) -> Option<&str>
    ensures { option_map (λ s. s.now) result ≡ text_at_lem place (view value.now) }
{
    match value.get(place) {
        Some(item) => item.as_str(),
        None => None,
    }
}

/// Whether an array has no item at a place.
pub(crate) fn has_items(value: &Value, place: usize) -> bool
    ensures { result ≡ is_none (at place (view value.now)) }
{
    value.get(place).is_none()
}

/// The whole number that a value is, of those that counters have.
pub(crate) fn count(value: &Value) -> Option<u64>
    ensures { result ≡ count_of (view value.now) }
{
    match value.as_u64() {
        Some(n) if n <= MAX_COUNTER => Some(n),
        _ => None,
    }
}

/// The root path that is the only argument.
pub(crate) fn only_root(alloc: Global, value: &Value) -> Result<RootPath, Refusal>
    ensures ok { IfOk result (λ path. only_root (view value.now) ≡ Ok path) }
    ensures refused { IfErr result (λ e. e ≢ Refusal.NoMemory → only_root (view value.now) ≡ Err e) }
{
    if !has_items(value, 2) {
        return Err(Refusal::BadArguments);
    }
    let Some(path) = text_at(value, 1) else {
        return Err(Refusal::BadArguments);
    };
    RootPath::read(alloc, path)
}
