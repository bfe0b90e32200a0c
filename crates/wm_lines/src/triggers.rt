//! `trigger` and `trigger-del`. Their definitions are in specs/TriggerLines.
//! Tests: session_tests/src/requests.
ghost use Rattle.std.specs.Prelude.{◌≡◌, ◌≢◌, Ok, Err, Some, None, map, option_map, option_and_then, IfOk, IfErr};
ghost use Rattle.serde_json.specs.Find.{as_array, as_str, get};
ghost use Rattle.serde_json.specs.View.{items_view, view};
ghost use Rattle.wm_lines.specs.TriggerLines.{by_rules, definition_in, file_count_in, has_known_keys as has_known_keys_lem, stdin_in, stdin_named as stdin_named_lem, trigger_del_request, trigger_in as trigger_in_lem, trigger_request, words_in};

use crate::arguments::{has_items, text_at};
use crate::kept_expression::kept_text;
use crate::keys::{flag, has_keys, one_for};
use crate::request::Request;
use serde_json::Value;
use std::alloc::Global;
use wm_disk::Refusal;
use wm_expr::texts_of;
use wm_names::RootPath;
use wm_registry::{Stdin, Trigger, TriggerName};

/// What a text names that a program is to read.
fn stdin_named(text: &str) -> Option<Stdin>
    ensures { result ≡ stdin_named_lem text.now }
{
    match text {
        "/dev/null" => Some(Stdin::DevNull),
        "NAME_PER_LINE" => Some(Stdin::NamePerLine),
        _ => None,
    }
}

/// What a program is to read, `/dev/null` where it is missing.
fn stdin(value: Option<&Value>) -> Option<Stdin>
    ensures { result ≡ stdin_in (option_map (λ v. view v.now) value.entry) }
{
    match value {
        Some(value) => stdin_named(value.as_str()?),
        None => Some(Stdin::DevNull),
    }
}

/// The most names that a program is to read: a whole number of 32 bits, and none if it is missing.
fn file_count(value: Option<&Value>) -> Option<Option<u32>>
    ensures { result ≡ file_count_in (option_map (λ v. view v.now) value.entry) }
{
    match value {
        Some(value) => match u32::try_from(value.as_u64()?) {
            Ok(count) => Some(Some(count)),
            Err(_) => None,
        },
        None => Some(None),
    }
}

/// The items of an array.
fn items(value: Option<&Value>) -> Option<&Vec<Value>>
    ensures { option_map (λ v. items_view v.now.items) result ≡ option_and_then as_array (option_map (λ v. view v.now) value.entry) }
{
    value?.as_array()
}

/// The texts of an array.
fn words(alloc: Global, value: Option<&Value>) -> Result<Vec<&str>, Refusal>
    ensures ok { IfOk result (λ words. words_in (option_map (λ v. view v.now) value.entry) ≡ Some (map (λ w. w.now) words.items)) }
    ensures refused { IfErr result (λ e. e ≢ Refusal.NoMemory → (e ≡ Refusal.BadTrigger) × (words_in (option_map (λ v. view v.now) value.entry) ≡ None)) }
{
    let Some(items) = items(value) else {
        return Err(Refusal::BadTrigger);
    };
    texts_of(alloc, items, Refusal::BadTrigger)
}

/// Whether an object has as many keys as it has known ones: a name, a command, and perhaps the four
/// others.
fn has_known_keys(object: &Value) -> bool
    ensures { result ≡ has_known_keys_lem (view object.now) }
{
    let expressions = one_for(object, "expression");
    let flags = one_for(object, "append_files");
    let stdins = one_for(object, "stdin");
    let counts = one_for(object, "max_files_stdin");
    has_keys(object, 2 + (expressions + (flags + (stdins + counts))))
}

/// The text at a key.
fn text_named<'a>(object: &'a Value, key: &str) -> Option<&'a str>
    ensures { option_map (λ text. text.now) result ≡ option_and_then as_str (get key.now (view object.now)) }
{
    object.get(key)?.as_str()
}

/// The trigger that an object defines, with this text of its expression.
fn trigger_with(alloc: Global, object: &Value, expression: Option<&str>) -> Result<Trigger, Refusal>
    ensures ok { IfOk result (λ t. by_rules (definition_in (option_map (λ t. t.now) expression.entry) (view object.now)) ≡ Ok t) }
    ensures refused { IfErr result (λ e. e ≢ Refusal.NoMemory → by_rules (definition_in (option_map (λ t. t.now) expression.entry) (view object.now)) ≡ Err e) }
{
    if !has_known_keys(object) {
        return Err(Refusal::BadTrigger);
    }
    let (Some(name), Some(append_files), Some(stdin), Some(count)) = (
        text_named(object, "name"),
        flag(object.get("append_files")),
        stdin(object.get("stdin")),
        file_count(object.get("max_files_stdin")),
    ) else {
        return Err(Refusal::BadTrigger);
    };
    let words = words(alloc, object.get("command"))?;
    Trigger::new(alloc, name, &words, expression, append_files, stdin, count)
}

/// The trigger that an object defines.
fn trigger_in(alloc: Global, object: &Value) -> Result<Trigger, Refusal>
    ensures ok { IfOk result (λ t. trigger_in_lem (view object.now) ≡ Ok t) }
    ensures refused { IfErr result (λ e. e ≢ Refusal.NoMemory → trigger_in_lem (view object.now) ≡ Err e) }
{
    match object.get("expression") {
        Some(expression) => {
            let text = kept_text(alloc, expression)?;
            trigger_with(alloc, object, Some(text.as_str()))
        }
        None => trigger_with(alloc, object, None),
    }
}

/// `trigger` with a root path and an object.
pub(crate) fn trigger(alloc: Global, value: &Value) -> Result<Request, Refusal>
    ensures ok { IfOk result (λ r. trigger_request (view value.now) ≡ Ok r) }
    ensures refused { IfErr result (λ e. e ≢ Refusal.NoMemory → trigger_request (view value.now) ≡ Err e) }
{
    if !has_items(value, 3) {
        return Err(Refusal::BadArguments);
    }
    let (Some(root), Some(object)) = (text_at(value, 1), value.get(2)) else {
        return Err(Refusal::BadArguments);
    };
    if !object.is_object() {
        return Err(Refusal::BadArguments);
    }
    let root = RootPath::read(alloc, root)?;
    let trigger = trigger_in(alloc, object)?;
    Ok(Request::Trigger(root, trigger))
}

/// `trigger-del` with a root path and a name.
pub(crate) fn trigger_del(alloc: Global, value: &Value) -> Result<Request, Refusal>
    ensures ok { IfOk result (λ r. trigger_del_request (view value.now) ≡ Ok r) }
    ensures refused { IfErr result (λ e. e ≢ Refusal.NoMemory → trigger_del_request (view value.now) ≡ Err e) }
{
    if !has_items(value, 3) {
        return Err(Refusal::BadArguments);
    }
    let (Some(root), Some(name)) = (text_at(value, 1), text_at(value, 2)) else {
        return Err(Refusal::BadArguments);
    };
    let root = RootPath::read(alloc, root)?;
    let name = TriggerName::read(alloc, name)?;
    Ok(Request::TriggerDel(root, name))
}
