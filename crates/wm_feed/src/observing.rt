//! The line that tells what stands at paths. Definitions: specs/Observes.antt.
//! Tests: feed_tests/src/observes.rt.
ghost use Rattle.std.specs.Prelude.{◌≡◌, IfOk, Some, map, string_bytes};
ghost use Rattle.serde_json.specs.Read.{read};
ghost use Rattle.serde_json.specs.View.{view, items_view, items_of};
ghost use Rattle.serde_json.specs.Written.{compact_text};
ghost use Rattle.wm_feed.specs.Observes.{meta_data, observe_data, pair_data, state_data};

use serde_json::{Value, json};
use std::alloc::{AllocError, Global};
use wm_disk::NoMemory;
use wm_names::{Meta, RelPath};

/// Metadata, as a line has it.
fn metadata(alloc: Global, meta: Meta) -> Result<Value, AllocError>
    ensures { IfOk result (λ v. view v ≡ meta_data meta) }
{
    json!(in alloc; {"mtime_ms": meta.mtime_ms, "size": meta.size, "type": meta.kind.letter()})
}

/// What stands at a path, as a line has it.
fn standing(alloc: Global, state: Option<Meta>) -> Result<Value, AllocError>
    ensures { IfOk result (λ v. view v ≡ state_data state) }
{
    match state {
        None => Ok(Value::Null),
        Some(meta) => metadata(alloc, meta),
    }
}

/// A path and what stands there, as a line has them.
fn pair(alloc: Global, path: &str, state: Option<Meta>) -> Result<Value, AllocError>
    ensures { IfOk result (λ v. view v ≡ pair_data (path.now, state)) }
{
    let state = standing(alloc, state)?;
    json!(in alloc; [path, state])
}

/// The pairs as values.
fn all(alloc: Global, pairs: &[(RelPath, Option<Meta>)]) -> Result<Vec<Value>, NoMemory>
    ensures { IfOk result (λ v. items_view v.items ≡ items_of (map pair_data pairs.now)) }
{
    let mut values = Vec::with_capacity(alloc, pairs.len())?;
    for one in pairs {
        values.push(pair(alloc, one.0.as_str(), one.1)?)?;
    }
    Ok(values)
}

/// The line as a value.
fn observe(alloc: Global, root: &str, pairs: &[(RelPath, Option<Meta>)]) -> Result<Value, NoMemory>
    ensures { IfOk result (λ v. view v ≡ observe_data root.now pairs.now) }
{
    let list = Value::Array(all(alloc, pairs)?);
    Ok(json!(in alloc; ["observe", root, list])?)
}

/// The text of the `observe` of these pairs, without a newline. `NoMemory`.
pub fn observe_line(
    alloc: Global,
    root: &str,
    pairs: &[(RelPath, Option<Meta>)],
) -> Result<String, NoMemory>
    ensures text { IfOk result (λ s. string_bytes s ≡ compact_text (observe_data root.now pairs.now)) }
    ensures reads { IfOk result (λ s. read (string_bytes s) ≡ Some (observe_data root.now pairs.now)) }
{
    let value = observe(alloc, root, pairs)?;
    let text = value.to_string(alloc)?;
    Ok(text)
}
