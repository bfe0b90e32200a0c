//! `age-out`, to forget what was deleted long ago. Its definition is in specs/AgeOutLines.
//! Tests: session_tests/src/requests.
ghost use Rattle.std.specs.Prelude.{◌≡◌, ◌≢◌, Ok, Err, IfOk, IfErr};
ghost use Rattle.serde_json.specs.View.{view};
ghost use Rattle.wm_lines.specs.AgeOutLines.{age_out_request};

use crate::arguments::{count, has_items, text_at};
use crate::request::Request;
use serde_json::Value;
use std::alloc::Global;
use wm_disk::Refusal;
use wm_names::RootPath;

/// `age-out` with a root path and an age in moments.
pub(crate) fn age_out(alloc: Global, value: &Value) -> Result<Request, Refusal>
    ensures ok { IfOk result (λ r. age_out_request (view value.now) ≡ Ok r) }
    ensures refused { IfErr result (λ e. e ≢ Refusal.NoMemory → age_out_request (view value.now) ≡ Err e) }
{
    if !has_items(value, 3) {
        return Err(Refusal::BadArguments);
    }
    let (Some(root), Some(age)) = (text_at(value, 1), value.get(2).and_then(count)) else {
        return Err(Refusal::BadArguments);
    };
    let root = RootPath::read(alloc, root)?;
    Ok(Request::AgeOut(root, age))
}
