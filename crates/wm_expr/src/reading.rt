//! Reads an expression from JSON, down to 32 levels and no further.
//! Definitions: specs/Readings.antt, specs/Within.antt.
//! Tests: view_tests/src/expressions/readings.rt.
ghost use Rattle.std.specs.Prelude.{◌≡◌, ◌≢◌, Some, None, true, IfOk, IfErr, IsErrOf, is_some, map};
ghost use Rattle.serde_json.specs.View.{items_view, view};
ghost use Rattle.wm_expr.specs.Readings.{each, expression_of};
ghost use Rattle.wm_expr.specs.Views.{term};
ghost use Rattle.wm_expr.specs.Within.{list_within, not_within, read_within, word_within};

use crate::expr::Expr;
use crate::judging::is_expression;
use crate::limits::MAX_DEPTH;
use crate::simple::{plain_term, simple_term};
use serde_json::Value;
use std::alloc::Global;
use wm_disk::Refusal;

/// The terms that the items are, where terms stand at most so deep in one another.
#[cycle(read)]
fn read_terms(alloc: Global, parts: &[Value], levels: u8) -> Result<Vec<Expr>, Refusal>
    ensures ok { IfOk result (λ terms. each (read_within levels) (items_view parts.now) ≡ Some (map term terms.items)) }
    ensures refused { IfErr result (λ e. e ≢ Refusal.NoMemory → (e ≡ Refusal.BadExpression) × (each (read_within levels) (items_view parts.now) ≡ None)) }
{
    let mut terms = Vec::new(alloc);
    for part in parts {
        let term = read_term(alloc, part, levels)?;
        terms.push(term)?;
    }
    Ok(terms)
}

/// `not` with its part.
#[cycle(read)]
fn read_not(alloc: Global, parts: &[Value], levels: u8) -> Result<Expr, Refusal>
    ensures ok { IfOk result (λ e. not_within levels (items_view parts.now) ≡ Some (term e)) }
    ensures refused { IfErr result (λ e. e ≢ Refusal.NoMemory → (e ≡ Refusal.BadExpression) × (not_within levels (items_view parts.now) ≡ None)) }
{
    match parts {
        [part] => Ok(Expr::Not(Box::new(alloc, read_term(alloc, part, levels)?)?)),
        [] => Err(Refusal::BadExpression),
        [_, _, ..] => Err(Refusal::BadExpression),
    }
}

/// The term that a word with its parts is, where terms stand at most one more deep in one another.
#[cycle(read)]
fn read_word(alloc: Global, word: &str, parts: &[Value], levels: u8) -> Result<Expr, Refusal>
    ensures ok { IfOk result (λ e. word_within levels word.now (items_view parts.now) ≡ Some (term e)) }
    ensures refused { IfErr result (λ e. e ≢ Refusal.NoMemory → (e ≡ Refusal.BadExpression) × (word_within levels word.now (items_view parts.now) ≡ None)) }
{
    match word {
        "not" => read_not(alloc, parts, levels),
        "allof" => Ok(Expr::AllOf(read_terms(alloc, parts, levels)?)),
        "anyof" => Ok(Expr::AnyOf(read_terms(alloc, parts, levels)?)),
        _ => simple_term(alloc, word, parts),
    }
}

/// The term that a list with these items is, where terms stand at most one more deep in one another.
#[cycle(read)]
fn read_list(alloc: Global, items: &[Value], levels: u8) -> Result<Expr, Refusal>
    ensures ok { IfOk result (λ e. list_within levels (items_view items.now) ≡ Some (term e)) }
    ensures refused { IfErr result (λ e. e ≢ Refusal.NoMemory → (e ≡ Refusal.BadExpression) × (list_within levels (items_view items.now) ≡ None)) }
{
    let [first, parts @ ..] = items else {
        return Err(Refusal::BadExpression);
    };
    let Some(word) = first.as_str() else {
        return Err(Refusal::BadExpression);
    };
    read_word(alloc, word, parts, levels)
}

/// The term that the value is, where terms stand at most so deep in one another.
#[cycle(read)]
fn read_term(alloc: Global, value: &Value, levels: u8) -> Result<Expr, Refusal>
    ensures ok { IfOk result (λ e. read_within levels (view value.now) ≡ Some (term e)) }
    ensures refused { IfErr result (λ e. e ≢ Refusal.NoMemory → (e ≡ Refusal.BadExpression) × (read_within levels (view value.now) ≡ None)) }
{
    let Some(below) = levels.checked_sub(1) else {
        return Err(Refusal::BadExpression);
    };
    match value {
        Value::String(word) => plain_term(word),
        Value::Array(items) => read_list(alloc, items, below),
        _ => Err(Refusal::BadExpression),
    }
}

impl Expr {
    /// The expression that the JSON value is. `BadExpression` where it is none, where its terms stand
    /// more than 32 deep in one another, or where there are more than 1,024 of them; `NoMemory` where
    /// the expression finds no room. The value isn't looked at below the depth of 32 terms, and memory is
    /// taken only where it is an expression.
    pub fn read(alloc: Global, value: &Value) -> Result<Expr, Refusal>
        ensures ok { IfOk result (λ e. expression_of (view value.now) ≡ Some (term e)) }
        ensures refused { IfErr result (λ e. e ≢ Refusal.NoMemory → (e ≡ Refusal.BadExpression) × (expression_of (view value.now) ≡ None)) }
        ensures memory { IsErrOf result Refusal.NoMemory → is_some (expression_of (view value.now)) ≡ true }
    {
        if !is_expression(value) {
            return Err(Refusal::BadExpression);
        }
        read_term(alloc, value, MAX_DEPTH)
    }
}
