//! The first term of an expression that is refused. Definitions: specs/RefusedTerms. Tests: client_tests/src/parts.rt.
ghost use Rattle.std.specs.Prelude.{◌≡◌, IfSome, None, is_some, option_map};
ghost use Rattle.serde_json.specs.View.{items_view, view};
ghost use Rattle.wm_expr.specs.Readings.{expression_of};
ghost use Rattle.wm_parts.specs.RefusedTerms.{behind_word, first_refused, holds_terms, terms_in, refused_term, refused_term_in};

use serde_json::Value;
use std::alloc::Global;
use wm_disk::Refusal;
use wm_expr::Expr;

/// Whether a value is an expression. Memory is taken only for one that is, so it is one if there is none left.
fn is_expression(alloc: Global, value: &Value) -> bool
    ensures { result ≡ is_some (expression_of (view value.now)) }
{
    match Expr::read(alloc, value) {
        Ok(_) => true,
        Err(refusal) => refusal == Refusal::NoMemory,
    }
}

/// Whether terms stand behind a word.
pub(crate) fn holds_terms(word: &str) -> bool
    ensures { result ≡ holds_terms word.now }
{
    match word {
        "not" | "allof" | "anyof" => true,
        _ => false,
    }
}

/// The terms behind the word that the first of some items is.
fn behind_word(items: &[Value]) -> &[Value]
    ensures { items_view result.now ≡ behind_word (items_view items.now) }
{
    let [first, parts @ ..] = items else {
        return &[];
    };
    match first.as_str() {
        Some(word) if holds_terms(word) => parts,
        _ => &[],
    }
}

/// The terms that stand in a value.
fn parts_of(value: &Value) -> &[Value]
    ensures { items_view result.now ≡ terms_in (view value.now) }
{
    match value {
        Value::Array(items) => behind_word(items),
        _ => &[],
    }
}

/// The first of some values that is no expression.
fn first_refused(alloc: Global, parts: &[Value]) -> Option<&Value>
    ensures value { option_map (λ v. view v.now) result ≡ first_refused (items_view parts.now) }
    ensures refused { IfSome result (λ v. expression_of (view v.now) ≡ None) }
{
    for part in parts {
        if !is_expression(alloc, part) {
            return Some(part);
        }
    }
    None
}

/// The term for which an expression is refused: it is none itself, each term in it is one, and it is in the first of the terms of each
/// list around it that is none.
pub fn refused_term(alloc: Global, value: &Value) -> &Value
    requires { expression_of (view value.now) ≡ None }
    ensures first { view result.now ≡ refused_term (view value.now) }
    ensures refused { expression_of (view result.now) ≡ None }
    ensures innermost { first_refused (terms_in (view result.now)) ≡ None }
{
    match first_refused(alloc, parts_of(value)) {
        Some(part) => refused_term(alloc, part),
        None => value,
    }
}

/// The term for which a value is refused as an expression. `None` if it is an expression.
pub(crate) fn term_in(alloc: Global, value: &Value) -> Option<&Value>
    ensures { option_map (λ v. view v.now) result ≡ refused_term_in (view value.now) }
{
    if is_expression(alloc, value) {
        return None;
    }
    Some(refused_term(alloc, value))
}
