//! Expressions that are kept with triggers, as texts. Their definitions are in specs/KeptExpressions.
//! Tests: session_tests/src/lines.
ghost use Rattle.std.specs.Prelude.{◌≡◌, ◌≢◌, Ok, Err, Some, option_map, string_bytes, IfOk, IfErr};
ghost use Rattle.std.specs.List.{list_all};
ghost use Rattle.serde_json.specs.Read.{read as read_text};
ghost use Rattle.serde_json.specs.View.{view};
ghost use Rattle.wm_lines.specs.KeptExpressions.{expression_in as expression_in_lem, has_expression as has_expression_lem, have_expressions as have_expressions_lem, kept_text as kept_text_lem};

use serde_json::Value;
use std::alloc::Global;
use wm_disk::{NoMemory, Refusal};
use wm_expr::Expr;
use wm_registry::{Registry, Trigger};

/// The text that is kept of an expression: its compact JSON.
pub(crate) fn kept_text(alloc: Global, value: &Value) -> Result<String, Refusal>
    ensures ok { IfOk result (λ text. kept_text_lem (Some (view value.now)) ≡ Ok (Some (string_bytes text))) }
    ensures refused { IfErr result (λ e. e ≢ Refusal.NoMemory → kept_text_lem (Some (view value.now)) ≡ Err e) }
{
    Expr::read(alloc, value)?;
    Ok(value.to_string(alloc)?)
}

/// The JSON value that a text is.
fn read(alloc: Global, text: &str) -> Result<Option<Value>, NoMemory>
    ensures { IfOk result (λ v. option_map view v ≡ read_text text.now) }
{
    match Value::from_str(alloc, text) {
        Ok(value) => Ok(Some(value)),
        Err(error) => {
            if error.is_memory() {
                Err(NoMemory)
            } else {
                Ok(None)
            }
        }
    }
}

/// The JSON value of a text that is an expression.
pub(crate) fn expression_in(alloc: Global, text: &str) -> Result<Option<Value>, NoMemory>
    ensures { IfOk result (λ v. option_map view v ≡ expression_in_lem text.now) }
{
    let Some(value) = read(alloc, text)? else {
        return Ok(None);
    };
    match Expr::read(alloc, &value) {
        Ok(_) => Ok(Some(value)),
        Err(refusal) => match refusal {
            Refusal::NoMemory => Err(NoMemory),
            _ => Ok(None),
        },
    }
}

/// Whether the text that is kept with a trigger is an expression, where one is kept.
fn has_expression(alloc: Global, trigger: &Trigger) -> Result<bool, NoMemory>
    ensures { IfOk result (λ b. b ≡ has_expression_lem trigger.now) }
{
    let Some(text) = trigger.expression() else {
        return Ok(true);
    };
    let value = expression_in(alloc, text)?;
    Ok(value.is_some())
}

/// Whether each of these triggers has an expression where it keeps a text of one.
fn all_have_expressions(alloc: Global, triggers: &[Trigger]) -> Result<bool, NoMemory>
    ensures { IfOk result (λ b. b ≡ list_all has_expression_lem triggers.now) }
{
    for trigger in triggers {
        if !has_expression(alloc, trigger)? {
            return Ok(false);
        }
    }
    Ok(true)
}

/// Whether each text that is kept with a trigger of the registry is an expression. An `Err` means that
/// memory ran out.
pub fn have_expressions(alloc: Global, registry: &Registry) -> Result<bool, NoMemory>
    ensures { IfOk result (λ b. b ≡ have_expressions_lem registry.now) }
{
    for root in registry.roots().values() {
        if !all_have_expressions(alloc, root.triggers.as_slice())? {
            return Ok(false);
        }
    }
    Ok(true)
}
