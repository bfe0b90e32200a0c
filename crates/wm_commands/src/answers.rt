//! What a reply says. Definitions: specs/CommandAnswers. Tests: commands_tests/src/answers.rt.
ghost use Rattle.std.specs.Prelude.{◌≡◌, IfOk, IfSome, is_some, map, string_bytes};
ghost use Rattle.serde_json.specs.Data.{array, string};
ghost use Rattle.serde_json.specs.View.{items_of, items_view, view};
ghost use Rattle.wm_commands.specs.CommandAnswers.{IsAnswer, are_texts, is_answer};

use serde_json::Value;
use std::alloc::Global;
use wm_disk::NoMemory;

/// The answer to a question for names.
#[derive(Drop)]
pub struct Answer {
    /// The clock of the answer.
    pub clock: String,
    /// Whether it lists all that is there.
    pub is_fresh: bool,
    /// The names that it lists, below the root.
    pub names: Vec<String>,
}

/// The texts that values are. `None` if one is no text.
fn texts_of(alloc: Global, values: &[Value]) -> Result<Option<Vec<String>>, NoMemory>
    ensures texts { IfOk result (λ r. IfSome r (λ texts. map view values.now ≡ map string (map string_bytes texts.items))) }
    ensures found { IfOk result (λ r. is_some r ≡ are_texts (items_view values.now)) }
{
    let mut texts = Vec::with_capacity(alloc, values.len())?;
    for value in values {
        let Some(text) = value.as_str() else {
            return Ok(None);
        };
        texts.push(String::from_str(alloc, text)?)?;
    }
    Ok(Some(texts))
}

/// The answer that a reply is, to a question for names alone. `None` if it is none.
pub fn answer_of(alloc: Global, reply: &Value) -> Result<Option<Answer>, NoMemory>
    ensures answer { IfOk result (λ r. IfSome r (λ answer. IsAnswer (view reply.now) answer)) }
    ensures found { IfOk result (λ r. is_some r ≡ is_answer (view reply.now)) }
{
    let Some(clock) = reply.get("clock").and_then(Value::as_str) else {
        return Ok(None);
    };
    let Some(is_fresh) = reply.get("is_fresh_instance").and_then(Value::as_bool) else {
        return Ok(None);
    };
    let Some(files) = reply.get("files").and_then(Value::as_array) else {
        return Ok(None);
    };
    let Some(names) = texts_of(alloc, files)? else {
        return Ok(None);
    };
    let clock = String::from_str(alloc, clock)?;
    Ok(Some(Answer {
        clock,
        is_fresh,
        names,
    }))
}
