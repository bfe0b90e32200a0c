//! The metadata of a file, an object with three keys. Their definitions are in specs/Metadata.
//! Tests: session_tests/src/requests/observed.rt.
ghost use Rattle.std.specs.Prelude.{◌≡◌, option_and_then};
ghost use Rattle.serde_json.specs.Find.{get};
ghost use Rattle.serde_json.specs.View.{view};
ghost use Rattle.wm_lines.specs.Arguments.{count_of};
ghost use Rattle.wm_lines.specs.Metadata.{kind_in, meta_of};

use crate::arguments::count;
use crate::keys::has_keys;
use serde_json::Value;
use wm_names::{Kind, Meta};

/// The kind in metadata.
fn kind(value: &Value) -> Option<Kind>
    ensures { result ≡ kind_in (view value.now) }
{
    Kind::from_letter(value.get("type")?.as_str()?)
}

/// The number at a key.
fn count_at(value: &Value, key: &str) -> Option<u64>
    ensures { result ≡ option_and_then count_of (get key.now (view value.now)) }
{
    count(value.get(key)?)
}

/// The metadata that an object with three keys is.
pub(crate) fn meta(value: &Value) -> Option<Meta>
    ensures { result ≡ meta_of (view value.now) }
{
    if !has_keys(value, 3) {
        return None;
    }
    Some(Meta {
        kind: kind(value)?,
        size: count_at(value, "size")?,
        mtime_ms: count_at(value, "mtime_ms")?,
    })
}
