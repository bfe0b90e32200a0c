//! The texts of a JSON array, and copies of texts.
//! Definitions: specs/Readings.antt. Tests: view_tests/src/expressions/readings.rt.
ghost use Rattle.std.specs.Prelude.{◌≡◌, ◌≢◌, Some, None, IfOk, IfErr, is_some, map, string_bytes};
ghost use Rattle.serde_json.specs.Find.{as_str};
ghost use Rattle.serde_json.specs.View.{items_view};
ghost use Rattle.wm_expr.specs.Readings.{each};

use serde_json::Value;
use std::alloc::Global;
use wm_disk::{NoMemory, Refusal};

/// The texts of an array. The given refusal comes where an item is no text, and else `NoMemory` alone.
pub fn texts_of(alloc: Global, items: &[Value], refusal: Refusal) -> Result<Vec<&str>, Refusal>
    ensures ok { IfOk result (λ texts. each as_str (items_view items.now) ≡ Some (map (λ t. t.now) texts.items)) }
    ensures refused { IfErr result (λ e. e ≢ Refusal.NoMemory → (e ≡ refusal) × (each as_str (items_view items.now) ≡ None)) }
{
    let mut texts = Vec::new(alloc);
    for item in items {
        let Some(text) = item.as_str() else {
            return Err(refusal);
        };
        texts.push(text)?;
    }
    Ok(texts)
}

/// Whether each item is a text.
pub(crate) fn are_texts(items: &[Value]) -> bool
    ensures { result ≡ is_some (each as_str (items_view items.now)) }
{
    for item in items {
        if !item.is_string() {
            return false;
        }
    }
    true
}

/// Copies of the texts.
pub(crate) fn owned(alloc: Global, texts: &[&str]) -> Result<Vec<String>, NoMemory>
    ensures { IfOk result (λ copies. map string_bytes copies.items ≡ map (λ t. t.now) texts.now) }
{
    let mut copies = Vec::new(alloc);
    for text in texts {
        copies.push(String::from_str(alloc, text)?)?;
    }
    Ok(copies)
}
