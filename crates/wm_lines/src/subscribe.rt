//! `subscribe` and `unsubscribe`. Their definitions are in specs/SubscribeLines.
//! Tests: session_tests/src/requests/subscriptions.rt.
ghost use Rattle.std.specs.Prelude.{◌≡◌, ◌≢◌, Ok, Err, IfOk, IfErr};
ghost use Rattle.serde_json.specs.View.{view};
ghost use Rattle.wm_lines.specs.SubscribeLines.{subscribe_request, unsubscribe_request};

use crate::arguments::{has_items, text_at};
use crate::keys::flag;
use crate::query::{has_query_keys, has_query_kinds, inquiry_in};
use crate::request::Request;
use serde_json::Value;
use std::alloc::Global;
use wm_disk::Refusal;
use wm_names::RootPath;
use wm_subs::SubscriptionName;

/// `subscribe` with a root path, a name and an object.
pub(crate) fn subscribe(alloc: Global, value: &Value) -> Result<Request, Refusal>
    ensures ok { IfOk result (λ r. subscribe_request (view value.now) ≡ Ok r) }
    ensures refused { IfErr result (λ e. e ≢ Refusal.NoMemory → subscribe_request (view value.now) ≡ Err e) }
{
    if !has_items(value, 4) {
        return Err(Refusal::BadArguments);
    }
    let (Some(root), Some(name), Some(object)) = (
        text_at(value, 1),
        text_at(value, 2),
        value.get(3),
    ) else {
        return Err(Refusal::BadArguments);
    };
    if !object.is_object() || !has_query_keys(object) || !has_query_kinds(object) {
        return Err(Refusal::BadArguments);
    }
    let name = SubscriptionName::read(alloc, name)?;
    let Some(empty_on_fresh) = flag(object.get("empty_on_fresh_instance")) else {
        return Err(Refusal::BadArguments);
    };
    let root = RootPath::read(alloc, root)?;
    let inquiry = inquiry_in(alloc, object, empty_on_fresh)?;
    Ok(Request::Subscribe(root, name, inquiry))
}

/// `unsubscribe` with a root path and a name.
pub(crate) fn unsubscribe(alloc: Global, value: &Value) -> Result<Request, Refusal>
    ensures ok { IfOk result (λ r. unsubscribe_request (view value.now) ≡ Ok r) }
    ensures refused { IfErr result (λ e. e ≢ Refusal.NoMemory → unsubscribe_request (view value.now) ≡ Err e) }
{
    if !has_items(value, 3) {
        return Err(Refusal::BadArguments);
    }
    let (Some(root), Some(name)) = (text_at(value, 1), text_at(value, 2)) else {
        return Err(Refusal::BadArguments);
    };
    let name = SubscriptionName::read(alloc, name)?;
    let root = RootPath::read(alloc, root)?;
    Ok(Request::Unsubscribe(root, name))
}
