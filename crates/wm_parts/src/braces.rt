//! The first pattern with a brace, which has no meaning there. Definitions: specs/Braces. Tests: client_tests/src/hints.rt.
ghost use Rattle.std.specs.Prelude.{◌≡◌, ◌==◌, IfOk, option_and_then, option_map, string_bytes};
ghost use Rattle.std.specs.List.{list_any};
ghost use Rattle.serde_json.specs.Read.{read as read_text};
ghost use Rattle.serde_json.specs.View.{items_view, view};
ghost use Rattle.wm_explain.specs.Shown.{shown_text};
ghost use Rattle.wm_parts.specs.Braces.{braced, braced_behind, braced_in, braced_list, braced_text, braces_line, first_braced, has_brace};

use crate::lines::{named_line, value_of};
use crate::parts::object_of;
use crate::terms::holds_terms;
use serde_json::Value;
use std::alloc::Global;
use wm_disk::NoMemory;
use wm_expr::MAX_DEPTH;

/// Whether a text has an opening brace.
fn has_brace(text: &str) -> bool
    ensures { result ≡ has_brace text.now }
{
    text.as_bytes().iter().any(|byte| *byte == b'{')
}

/// The text that stands first, if it has a brace.
fn braced_text(parts: &[Value]) -> Option<&str>
    ensures { option_map (λ t. t.now) result ≡ braced_text (items_view parts.now) }
{
    let [first, ..] = parts else {
        return None;
    };
    let text = first.as_str()?;
    if has_brace(text) {
        return Some(text);
    }
    None
}

/// The first pattern with a brace in some terms, whose parts stand at most so deep.
#[cycle(braces)]
fn first_braced(parts: &[Value], levels: u8) -> Option<&str>
    ensures { option_map (λ t. t.now) result ≡ first_braced levels (items_view parts.now) }
{
    for part in parts {
        if let Some(text) = braced_term(part, levels) {
            return Some(text);
        }
    }
    None
}

/// The same of what stands behind a word.
#[cycle(braces)]
fn braced_behind<'a>(word: &str, parts: &'a [Value], levels: u8) -> Option<&'a str>
    ensures { option_map (λ t. t.now) result ≡ braced_behind levels word.now (items_view parts.now) }
{
    if word == "match" {
        return braced_text(parts);
    }
    if holds_terms(word) {
        return first_braced(parts, levels);
    }
    None
}

/// The same of a list.
#[cycle(braces)]
fn braced_list(items: &[Value], levels: u8) -> Option<&str>
    ensures { option_map (λ t. t.now) result ≡ braced_list levels (items_view items.now) }
{
    let [first, parts @ ..] = items else {
        return None;
    };
    match first.as_str() {
        Some(word) => braced_behind(word, parts, levels),
        None => None,
    }
}

/// The same of a term, whose parts stand at most so deep.
#[cycle(braces)]
fn braced_term(term: &Value, levels: u8) -> Option<&str>
    ensures { option_map (λ t. t.now) result ≡ braced levels (view term.now) }
{
    let below = levels.checked_sub(1)?;
    match term {
        Value::Array(items) => braced_list(items, below),
        _ => None,
    }
}

/// The first pattern with a brace in a request's expression.
fn braced_in(value: &Value) -> Option<&str>
    ensures { option_map (λ t. t.now) result ≡ braced_in (view value.now) }
{
    let (_asking, object) = object_of(value)?;
    braced_term(object.get("expression")?, MAX_DEPTH)
}

/// The line of a pattern with a brace.
fn braces_line(alloc: Global, pattern: &str) -> Result<String, NoMemory>
    ensures { IfOk result (λ line. string_bytes line ≡ braces_line pattern.now) }
{
    named_line(
        alloc,
        pattern,
        "has braces, which stand for themselves in a pattern: for a choice write a pattern each, as [\"anyof\",[\"match\",\"*.c\"],[\"match\",\"*.md\"]]",
    )
}

/// The line that says that a pattern of a request has a brace. `None` if none has one.
pub fn braces_hint(alloc: Global, json: &str) -> Result<Option<String>, NoMemory>
    ensures { IfOk result (λ r. option_map string_bytes r ≡ option_map braces_line (option_and_then braced_in (read_text json.now))) }
{
    let Ok(value) = value_of(alloc, json)? else {
        return Ok(None);
    };
    match braced_in(&value) {
        Some(pattern) => Ok(Some(braces_line(alloc, pattern)?)),
        None => Ok(None),
    }
}
