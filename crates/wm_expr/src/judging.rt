//! Judges, without memory, whether a JSON value is an expression, down to 32 levels and no further.
//! Definitions: specs/Readings.antt, specs/Within.antt.
//! Tests: view_tests/src/expressions/readings.rt.
ghost use Rattle.std.specs.Prelude.{◌≡◌, ◌+◌, is_some};
ghost use Rattle.serde_json.specs.View.{items_view, view};
ghost use Rattle.wm_expr.specs.Readings.{expression_of};
ghost use Rattle.wm_expr.specs.Within.{left_by, left_by_all, list_within, not_within, read_within, terms_within, word_within};

use crate::limits::{MAX_DEPTH, MAX_TERMS};
use crate::simple::{is_plain_term, is_simple_term};
use serde_json::Value;

/// What is left of so many terms behind those that the items are, where terms stand at most so deep in
/// one another.
#[cycle(judge)]
fn judge_terms(parts: &[Value], levels: u8, room: u16) -> Option<u16>
    ensures { result ≡ left_by_all room (terms_within levels (items_view parts.now)) }
{
    let mut left = room;
    for part in parts {
        left = judge_term(part, levels, left)?;
    }
    Some(left)
}

/// What is left of so many terms and one more behind `not` with its part.
#[cycle(judge)]
fn judge_not(parts: &[Value], levels: u8, room: u16) -> Option<u16>
    ensures { result ≡ left_by (room + 1) (not_within levels (items_view parts.now)) }
{
    match parts {
        [part] => judge_term(part, levels, room),
        [] => None,
        [_, _, ..] => None,
    }
}

/// The same behind the term that a word with its parts is, where terms stand at most one more deep in one
/// another.
#[cycle(judge)]
fn judge_word(word: &str, parts: &[Value], levels: u8, room: u16) -> Option<u16>
    ensures { result ≡ left_by (room + 1) (word_within levels word.now (items_view parts.now)) }
{
    match word {
        "not" => judge_not(parts, levels, room),
        "allof" | "anyof" => judge_terms(parts, levels, room),
        _ => is_simple_term(word, parts).then_some(room),
    }
}

/// The same behind the term that a list with these items is.
#[cycle(judge)]
fn judge_list(items: &[Value], levels: u8, room: u16) -> Option<u16>
    ensures { result ≡ left_by (room + 1) (list_within levels (items_view items.now)) }
{
    let [first, parts @ ..] = items else {
        return None;
    };
    judge_word(first.as_str()?, parts, levels, room)
}

/// What is left of so many terms behind those of the value, where it is a term, terms stand at most so
/// deep in one another, and there are so many.
#[cycle(judge)]
fn judge_term(value: &Value, levels: u8, room: u16) -> Option<u16>
    ensures { result ≡ left_by room (read_within levels (view value.now)) }
{
    let below = levels.checked_sub(1)?;
    let left = room.checked_sub(1)?;
    match value {
        Value::String(word) => is_plain_term(word).then_some(left),
        Value::Array(items) => judge_list(items, below, left),
        _ => None,
    }
}

/// Whether the value is an expression.
pub(crate) fn is_expression(value: &Value) -> bool
    ensures { result ≡ is_some (expression_of (view value.now)) }
{
    judge_term(value, MAX_DEPTH, MAX_TERMS).is_some()
}
