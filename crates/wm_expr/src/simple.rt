//! Reads and judges the terms that hold no other term, such as `name`, `size` and `match`.
//! Definitions: specs/Readings.antt. Tests: view_tests/src/expressions/readings.rt.
ghost use Rattle.std.specs.Prelude.{◌≡◌, ◌≢◌, Some, None, IfOk, IfErr, is_some, map, string_bytes, option_and_then, option_map};
ghost use Rattle.serde_json.specs.Data.{item};
ghost use Rattle.serde_json.specs.Find.{as_str};
ghost use Rattle.serde_json.specs.View.{items_view, view};
ghost use Rattle.wm_names.specs.Entries.{kind_of};
ghost use Rattle.wm_expr.specs.Limits.{depth};
ghost use Rattle.wm_expr.specs.Patterns.{is_pattern as is_pattern_lem};
ghost use Rattle.wm_expr.specs.Readings.{comparison_of, kept, match_term as match_term_lem, name_term as name_term_lem, one_or_many, plain_of, scope_of, simple_term as simple_term_lem, size_alone as size_alone_lem, size_of, size_term as size_term_lem, suffix_term as suffix_term_lem, type_term as type_term_lem};
ghost use Rattle.wm_expr.specs.Views.{term};

use crate::expr::{Comparison, Expr, Scope};
use crate::pattern::is_pattern;
use crate::texts::{are_texts, owned, texts_of};
use crate::words::{comparison_named, plain, scope_named};
use serde_json::Value;
use std::alloc::Global;
use wm_disk::{MAX_COUNTER, Refusal};
use wm_names::Kind;

/// The texts that a text or an array names.
fn names(alloc: Global, value: &Value) -> Result<Vec<String>, Refusal>
    ensures ok { IfOk result (λ names. one_or_many (view value.now) ≡ Some (map string_bytes names.items)) }
    ensures refused { IfErr result (λ e. e ≢ Refusal.NoMemory → (e ≡ Refusal.BadExpression) × (one_or_many (view value.now) ≡ None)) }
{
    match value {
        Value::String(text) => Ok(owned(alloc, &[text])?),
        Value::Array(items) => {
            let texts = texts_of(alloc, items, Refusal::BadExpression)?;
            Ok(owned(alloc, &texts)?)
        }
        _ => Err(Refusal::BadExpression),
    }
}

/// The part of a path that the rest of a term names, the basename where there is no rest.
fn scope(rest: &[Value]) -> Option<Scope>
    ensures { result ≡ scope_of (items_view rest.now) }
{
    match rest {
        [] => Some(Scope::Basename),
        [word] => scope_named(word.as_str()?),
        [_, _, ..] => None,
    }
}

/// The size that a value is.
fn size(value: &Value) -> Option<u64>
    ensures { result ≡ size_of (view value.now) }
{
    match value.as_u64() {
        Some(n) if n <= MAX_COUNTER => Some(n),
        _ => None,
    }
}

/// The size that is the rest of a term.
fn size_alone(rest: &[Value]) -> Option<u64>
    ensures { result ≡ size_alone_lem (items_view rest.now) }
{
    match rest {
        [number] => size(number),
        [] => None,
        [_, _, ..] => None,
    }
}

/// The kind that a value names.
fn kind(value: &Value) -> Option<Kind>
    ensures { result ≡ option_and_then kind_of (as_str (view value.now)) }
{
    value.as_str().and_then(Kind::from_letter)
}

/// The comparison that a value names.
fn comparison(value: &Value) -> Option<Comparison>
    ensures { result ≡ option_and_then comparison_of (as_str (view value.now)) }
{
    value.as_str().and_then(comparison_named)
}

/// The pattern that a value is.
fn pattern(value: &Value) -> Option<&str>
    ensures { option_map (λ text. text.now) result ≡ kept is_pattern_lem (as_str (view value.now)) }
{
    match value.as_str() {
        Some(text) if is_pattern(text) => Some(text),
        _ => None,
    }
}

/// `name` with names, and perhaps a part of the path.
fn name_term(alloc: Global, first: &Value, rest: &[Value]) -> Result<Expr, Refusal>
    ensures ok { IfOk result (λ e. name_term_lem (view first.now) (items_view rest.now) ≡ Some (term e)) }
    ensures flat { IfOk result (λ e. depth (term e) ≡ 1) }
    ensures refused { IfErr result (λ e. e ≢ Refusal.NoMemory → (e ≡ Refusal.BadExpression) × (name_term_lem (view first.now) (items_view rest.now) ≡ None)) }
{
    let Some(scope) = scope(rest) else {
        return Err(Refusal::BadExpression);
    };
    let names = names(alloc, first)?;
    Ok(Expr::Name(names, scope))
}

/// `suffix` with suffixes.
fn suffix_term(alloc: Global, first: &Value, rest: &[Value]) -> Result<Expr, Refusal>
    ensures ok { IfOk result (λ e. suffix_term_lem (view first.now) (items_view rest.now) ≡ Some (term e)) }
    ensures flat { IfOk result (λ e. depth (term e) ≡ 1) }
    ensures refused { IfErr result (λ e. e ≢ Refusal.NoMemory → (e ≡ Refusal.BadExpression) × (suffix_term_lem (view first.now) (items_view rest.now) ≡ None)) }
{
    match rest {
        [] => Ok(Expr::Suffix(names(alloc, first)?)),
        [_, ..] => Err(Refusal::BadExpression),
    }
}

/// `type` with a letter.
fn type_term(first: &Value, rest: &[Value]) -> Result<Expr, Refusal>
    ensures ok { IfOk result (λ e. type_term_lem (view first.now) (items_view rest.now) ≡ Some (term e)) }
    ensures flat { IfOk result (λ e. depth (term e) ≡ 1) }
    ensures refused { IfErr result (λ e. e ≢ Refusal.NoMemory → (e ≡ Refusal.BadExpression) × (type_term_lem (view first.now) (items_view rest.now) ≡ None)) }
{
    let Some(kind) = kind(first) else {
        return Err(Refusal::BadExpression);
    };
    match rest {
        [] => Ok(Expr::Type(kind)),
        [_, ..] => Err(Refusal::BadExpression),
    }
}

/// `size` with a comparison and a number.
fn size_term(first: &Value, rest: &[Value]) -> Result<Expr, Refusal>
    ensures ok { IfOk result (λ e. size_term_lem (view first.now) (items_view rest.now) ≡ Some (term e)) }
    ensures flat { IfOk result (λ e. depth (term e) ≡ 1) }
    ensures refused { IfErr result (λ e. e ≢ Refusal.NoMemory → (e ≡ Refusal.BadExpression) × (size_term_lem (view first.now) (items_view rest.now) ≡ None)) }
{
    let Some(op) = comparison(first) else {
        return Err(Refusal::BadExpression);
    };
    match size_alone(rest) {
        Some(n) => Ok(Expr::Size(op, n)),
        None => Err(Refusal::BadExpression),
    }
}

/// `match` with a pattern, and perhaps a part of the path.
fn match_term(alloc: Global, first: &Value, rest: &[Value]) -> Result<Expr, Refusal>
    ensures ok { IfOk result (λ e. match_term_lem (view first.now) (items_view rest.now) ≡ Some (term e)) }
    ensures flat { IfOk result (λ e. depth (term e) ≡ 1) }
    ensures refused { IfErr result (λ e. e ≢ Refusal.NoMemory → (e ≡ Refusal.BadExpression) × (match_term_lem (view first.now) (items_view rest.now) ≡ None)) }
{
    let (Some(text), Some(scope)) = (pattern(first), scope(rest)) else {
        return Err(Refusal::BadExpression);
    };
    let text = String::from_str(alloc, text)?;
    Ok(Expr::Match(text, scope))
}

/// A term that is a word alone.
pub(crate) fn plain_term(word: &str) -> Result<Expr, Refusal>
    ensures ok { IfOk result (λ e. plain_of word.now ≡ Some (term e)) }
    ensures flat { IfOk result (λ e. depth (term e) ≡ 1) }
    ensures refused { IfErr result (λ e. (e ≡ Refusal.BadExpression) × (plain_of word.now ≡ None)) }
{
    match plain(word) {
        Some(term) => Ok(term),
        None => Err(Refusal::BadExpression),
    }
}

/// A term that holds no other, by its word, the first value behind it and the rest.
fn worded_term(alloc: Global, word: &str, first: &Value, rest: &[Value]) -> Result<Expr, Refusal>
    ensures ok { IfOk result (λ e. simple_term_lem word.now (item (view first.now) (items_view rest.now)) ≡ Some (term e)) }
    ensures flat { IfOk result (λ e. depth (term e) ≡ 1) }
    ensures refused { IfErr result (λ e. e ≢ Refusal.NoMemory → (e ≡ Refusal.BadExpression) × (simple_term_lem word.now (item (view first.now) (items_view rest.now)) ≡ None)) }
{
    match word {
        "name" => name_term(alloc, first, rest),
        "suffix" => suffix_term(alloc, first, rest),
        "type" => type_term(first, rest),
        "size" => size_term(first, rest),
        "match" => match_term(alloc, first, rest),
        _ => Err(Refusal::BadExpression),
    }
}

/// A term that holds no other, by its word and what follows it.
pub(crate) fn simple_term(alloc: Global, word: &str, parts: &[Value]) -> Result<Expr, Refusal>
    ensures ok { IfOk result (λ e. simple_term_lem word.now (items_view parts.now) ≡ Some (term e)) }
    ensures flat { IfOk result (λ e. depth (term e) ≡ 1) }
    ensures refused { IfErr result (λ e. e ≢ Refusal.NoMemory → (e ≡ Refusal.BadExpression) × (simple_term_lem word.now (items_view parts.now) ≡ None)) }
{
    match parts {
        [] => plain_term(word),
        [first, rest @ ..] => worded_term(alloc, word, first, rest),
    }
}

/// Whether a text or an array names texts.
fn are_names(value: &Value) -> bool
    ensures { result ≡ is_some (one_or_many (view value.now)) }
{
    match value {
        Value::String(_) => true,
        Value::Array(items) => are_texts(items),
        _ => false,
    }
}

/// Whether these follow `name` in a term.
fn is_name_term(first: &Value, rest: &[Value]) -> bool
    ensures { result ≡ is_some (name_term_lem (view first.now) (items_view rest.now)) }
{
    are_names(first) && scope(rest).is_some()
}

/// Whether these follow `suffix` in a term.
fn is_suffix_term(first: &Value, rest: &[Value]) -> bool
    ensures { result ≡ is_some (suffix_term_lem (view first.now) (items_view rest.now)) }
{
    rest.is_empty() && are_names(first)
}

/// Whether these follow `type` in a term.
fn is_type_term(first: &Value, rest: &[Value]) -> bool
    ensures { result ≡ is_some (type_term_lem (view first.now) (items_view rest.now)) }
{
    rest.is_empty() && kind(first).is_some()
}

/// Whether these follow `size` in a term.
fn is_size_term(first: &Value, rest: &[Value]) -> bool
    ensures { result ≡ is_some (size_term_lem (view first.now) (items_view rest.now)) }
{
    comparison(first).is_some() && size_alone(rest).is_some()
}

/// Whether these follow `match` in a term.
fn is_match_term(first: &Value, rest: &[Value]) -> bool
    ensures { result ≡ is_some (match_term_lem (view first.now) (items_view rest.now)) }
{
    pattern(first).is_some() && scope(rest).is_some()
}

/// Whether a word alone is a term.
pub(crate) fn is_plain_term(word: &str) -> bool
    ensures { result ≡ is_some (plain_of word.now) }
{
    plain(word).is_some()
}

/// Whether a word with the first value behind it and the rest is a term that holds no other.
fn is_worded_term(word: &str, first: &Value, rest: &[Value]) -> bool
    ensures { result ≡ is_some (simple_term_lem word.now (item (view first.now) (items_view rest.now))) }
{
    match word {
        "name" => is_name_term(first, rest),
        "suffix" => is_suffix_term(first, rest),
        "type" => is_type_term(first, rest),
        "size" => is_size_term(first, rest),
        "match" => is_match_term(first, rest),
        _ => false,
    }
}

/// Whether a word with what follows it is a term that holds no other.
pub(crate) fn is_simple_term(word: &str, parts: &[Value]) -> bool
    ensures { result ≡ is_some (simple_term_lem word.now (items_view parts.now)) }
{
    match parts {
        [] => is_plain_term(word),
        [first, rest @ ..] => is_worded_term(word, first, rest),
    }
}
