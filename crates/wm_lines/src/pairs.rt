//! `observe`, and pairs of a path and what is there. Their definitions are in specs/PairLines.
//! Tests: session_tests/src/requests/observed.rt.
ghost use Rattle.std.specs.Prelude.{◌≡◌, ◌≢◌, Ok, Err, Some, None, true, false, option_map, IfOk, IfErr};
ghost use Rattle.std.specs.List.{list_all};
ghost use Rattle.serde_json.specs.View.{view};
ghost use Rattle.wm_names.specs.Paths.{is_rel_path};
ghost use Rattle.wm_lines.specs.PairLines.{by_text, observe_request, pair_of, pairs_of, pair_state};

use crate::arguments::{has_items, text_at};
use crate::metadata::meta;
use crate::request::Request;
use serde_json::Value;
use std::alloc::Global;
use wm_disk::Refusal;
use wm_names::{Meta, RelPath, RootPath};
use wm_view::Pairs;

/// What stands at a path: `null`, or metadata.
fn state(value: &Value) -> Option<Option<Meta>>
    ensures { result ≡ pair_state (view value.now) }
{
    if value.is_null() {
        return Some(None);
    }
    let meta = meta(value)?;
    Some(Some(meta))
}

/// A path's text, and what stands there.
pub(crate) fn pair(value: &Value) -> Option<(&str, Option<Meta>)>
    ensures { option_map (λ p. (p.0.now, p.1)) result ≡ pair_of (view value.now) }
{
    if !has_items(value, 2) {
        return None;
    }
    let text = text_at(value, 0)?;
    let state = state(value.get(1)?)?;
    Some((text, state))
}

/// The pairs of an array, with their paths as texts.
fn pairs(alloc: Global, value: &Value) -> Result<Vec<(&str, Option<Meta>)>, Refusal>
    ensures ok { IfOk result (λ v. pairs_of (view value.now) ≡ Some (by_text v.items)) }
    ensures refused { IfErr result (λ e. e ≢ Refusal.NoMemory → (e ≡ Refusal.BadArguments) × (pairs_of (view value.now) ≡ None)) }
{
    let Some(items) = value.as_array() else {
        return Err(Refusal::BadArguments);
    };
    let mut pairs = Vec::new(alloc);
    for item in items {
        let Some(pair) = pair(item) else {
            return Err(Refusal::BadArguments);
        };
        pairs.push(pair)?;
    }
    Ok(pairs)
}

/// The pairs with their paths read.
fn read_paths(
    alloc: Global,
    pairs: &[(&str, Option<Meta>)],
) -> Result<Vec<(RelPath, Option<Meta>)>, Refusal>
    ensures ok { IfOk result (λ v. (list_all (λ p. is_rel_path p.0) (by_text pairs.now) ≡ true) × (v.items ≡ by_text pairs.now)) }
    ensures refused { IfErr result (λ e. e ≢ Refusal.NoMemory → (e ≡ Refusal.BadPath) × (list_all (λ p. is_rel_path p.0) (by_text pairs.now) ≡ false)) }
{
    let mut read = Vec::with_capacity(alloc, pairs.len())?;
    for pair in pairs {
        let path = RelPath::read(alloc, pair.0)?;
        read.push((path, pair.1))?;
    }
    Ok(read)
}

/// `observe` with a root path and pairs.
pub(crate) fn observe(alloc: Global, value: &Value) -> Result<Request, Refusal>
    ensures ok { IfOk result (λ r. observe_request (view value.now) ≡ Ok r) }
    ensures refused { IfErr result (λ e. e ≢ Refusal.NoMemory → observe_request (view value.now) ≡ Err e) }
{
    if !has_items(value, 3) {
        return Err(Refusal::BadArguments);
    }
    let (Some(root), Some(listed)) = (text_at(value, 1), value.get(2)) else {
        return Err(Refusal::BadArguments);
    };
    let pairs = pairs(alloc, listed)?;
    let root = RootPath::read(alloc, root)?;
    let pairs = read_paths(alloc, &pairs)?;
    Ok(Request::Observe(root, Pairs::new(pairs)))
}
