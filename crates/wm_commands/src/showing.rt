//! What is shown of a reply, and the status of a command. Definitions: specs/CommandAnswers. Tests: commands_tests/src/answers.rt.
ghost use Rattle.std.specs.Prelude.{◌≡◌, [], IfOk, false, map, option_map, string_bytes};
ghost use Rattle.serde_json.specs.Read.{read as read_text};
ghost use Rattle.serde_json.specs.View.{view};
ghost use Rattle.wm_commands.specs.CommandAnswers.{ShowsAnswer, ShowsBy, ShowsNothing, ShowsReply, answer_shown, ending_of, is_answer, is_refused, names_shown};

use crate::answers::{Answer, answer_of};
use crate::folders::reported_name;
use serde_json::Value;
use std::alloc::Global;
use wm_disk::NoMemory;

/// How an answer is shown.
#[derive(Clone, Copy, Debug, PartialEq, Eq)]
pub struct Style {
    /// The line is shown as the server sent it.
    pub is_json: bool,
    /// A zero byte stands behind each name, in place of a newline.
    pub is_nul: bool,
    /// The clock stands behind the names.
    pub is_clock: bool,
}

/// What goes to standard output, and the status.
#[derive(Drop)]
pub struct Shown {
    pub text: String,
    pub status: u8,
}

impl Style {
    /// What ends a name.
    fn ending(self) -> &'static str
        ensures { result.now ≡ ending_of self }
    {
        if self.is_nul { "\0" } else { "\n" }
    }
}

/// With this status nothing is shown.
fn nothing(alloc: Global, status: u8) -> Shown
    ensures { ShowsNothing status result }
{
    Shown {
        text: String::new(alloc),
        status,
    }
}

/// The names as they are reported from a folder, each with its ending.
fn names_shown(
    alloc: Global,
    style: Style,
    root: &str,
    dir: &str,
    names: &[String],
) -> Result<String, NoMemory>
    ensures { IfOk result (λ r. string_bytes r ≡ names_shown (ending_of style) root.now dir.now (map string_bytes names.now)) }
{
    let ending = style.ending();
    let mut text = String::new(alloc);
    for name in names {
        if let Some(reported) = reported_name(alloc, root, dir, name)? {
            text.push_str(&reported)?;
            text.push_str(ending)?;
        }
    }
    Ok(text)
}

/// The names of an answer, and its clock if that is asked for.
fn answer_shown(
    alloc: Global,
    style: Style,
    root: &str,
    dir: &str,
    answer: &Answer,
) -> Result<String, NoMemory>
    ensures { IfOk result (λ r. string_bytes r ≡ answer_shown style root.now dir.now answer.now) }
{
    let mut text = names_shown(alloc, style, root, dir, &answer.names)?;
    if style.is_clock {
        text.push_str(&answer.clock)?;
        text.push_str(style.ending())?;
    }
    Ok(text)
}

/// What is shown of the reply to a question for names.
fn answered(
    alloc: Global,
    style: Style,
    root: &str,
    dir: &str,
    reply: &Value,
) -> Result<Shown, NoMemory>
    ensures { IfOk result (λ shown. ShowsBy false false (is_answer (view reply.now)) [] (ShowsAnswer style root.now dir.now (view reply.now) shown) shown) }
{
    match answer_of(alloc, reply)? {
        Some(answer) => {
            let text = answer_shown(alloc, style, root, dir, &answer)?;
            Ok(Shown { text, status: 0 })
        }
        None => Ok(nothing(alloc, 3)),
    }
}

/// The value that a line is. `None` if it is none.
fn value_of(alloc: Global, line: &str) -> Result<Option<Value>, NoMemory>
    ensures { IfOk result (λ r. option_map view r ≡ read_text line.now) }
{
    match Value::from_str(alloc, line) {
        Ok(value) => Ok(Some(value)),
        Err(error) if error.is_memory() => Err(NoMemory),
        Err(_) => Ok(None),
    }
}

/// Whether a reply is a refusal.
fn is_refused(reply: &Value) -> bool
    ensures { result ≡ is_refused (view reply.now) }
{
    reply.get("error").is_some()
}

/// What is shown from a folder of the reply to a question about a root, and the status: 0; 1 for a refusal, 3 if the line is no reply to
/// that question. Nothing is shown then.
pub fn shown_of(
    alloc: Global,
    style: Style,
    root: &str,
    dir: &str,
    line: &str,
) -> Result<Shown, NoMemory>
    ensures { IfOk result (ShowsReply style root.now dir.now line.now (read_text line.now)) }
{
    let Some(reply) = value_of(alloc, line)? else {
        return Ok(nothing(alloc, 3));
    };
    if is_refused(&reply) {
        return Ok(nothing(alloc, 1));
    }
    if style.is_json {
        let text = String::from_str(alloc, line)?;
        return Ok(Shown { text, status: 0 });
    }
    answered(alloc, style, root, dir, &reply)
}
