//! The line that says a part. Definitions: specs/PartLines. Tests: client_tests/src/parts.rt.
ghost use Rattle.std.specs.Prelude.{◌≡◌, ◌++◌, IfOk, codes, false, option_map, string_bytes};
ghost use Rattle.std.specs.Result.{result_err, result_ok};
ghost use Rattle.serde_json.specs.Read.{read as read_text};
ghost use Rattle.serde_json.specs.View.{view};
ghost use Rattle.serde_json.specs.Written.{compact_text, has_float};
ghost use Rattle.wm_explain.specs.Shown.{shown_text};
ghost use Rattle.wm_lines.specs.RecrawlLines.{server_request_of_line};
ghost use Rattle.wm_parts.specs.PartLines.{IsLineOf, SaysOf, SaysPart, form_line, misformed_said, named_line, no_command, no_field, no_json, no_term, root_said, value_line};
ghost use Rattle.wm_parts.specs.RefusedParts.{keys_said, refused_root, refusing_part, part_seen};

use crate::keys::keys_said;
use crate::parts::{Part, part_in, refused_root};
use serde_json::Value;
use std::alloc::Global;
use wm_disk::{NoMemory, Refusal};
use wm_explain::shown;
use wm_lines::ServerRequest;

/// The line of a name, and what is said of it.
pub(crate) fn named_line(alloc: Global, name: &str, text: &str) -> Result<String, NoMemory>
    ensures { IfOk result (λ line. string_bytes line ≡ named_line (shown_text name.now) text.now) }
{
    let name = shown(alloc, name)?;
    Ok(format!(in alloc; "'{name}' {text}\n")?)
}

/// The line of a JSON value, and what is said of it.
fn value_line(alloc: Global, value: &Value, text: &str) -> Result<String, NoMemory>
    ensures { IfOk result (λ line. has_float (view value.now) ≡ false → string_bytes line ≡ value_line (shown_text (compact_text (view value.now))) text.now) }
{
    let value = value.to_string(alloc)?;
    let value = shown(alloc, &value)?;
    Ok(format!(in alloc; "{value} {text}\n")?)
}

/// The line that says how a request of the command is written.
fn form_line(alloc: Global, form: &str) -> Result<String, NoMemory>
    ensures { IfOk result (λ line. string_bytes line ≡ form_line form.now) }
{
    Ok(format!(in alloc; "such a request is written {form}\n")?)
}

/// The line of a request that is no JSON text; its reader stopped at this column.
pub(crate) fn no_json_line(alloc: Global, column: usize) -> Result<String, NoMemory>
    ensures { IfOk result (λ line. string_bytes line ≡ no_json column) }
{
    let text = format!(in alloc;
        "the request is no JSON text, as '[\"watch-list\"]' is in a shell: look at column {column}\n"
    )?;
    Ok(text)
}

/// What is said of a name that is no command's.
const NO_COMMAND: &str =
    "is no command: these are version, watch, watch-del, watch-list, clock, since, query, subscribe, unsubscribe, trigger, trigger-list, trigger-del, recrawl, observe, listing and age-out";

/// What is said of a term whose word isn't one of a term.
const NO_TERM: &str =
    "is no term of an expression: the words of terms are true, false, exists, empty, name, suffix, type, size, match, not, allof and anyof";

/// What is said of a value that names no field.
const NO_FIELD: &str =
    "is no field: these are name, exists, new, size, type, mtime_ms, cclock and oclock";

/// What is said of a path that can't be a root's.
fn root_said(path: &str) -> &'static str
    ensures { result.now ≡ root_said path.now }
{
    match path {
        "/" => "can't be watched: a root is a folder below it",
        _ => {
            "is no root's path: it begins with / and has no part that is empty, . or ..; realpath prints such a path"
        }
    }
}

/// The line of a term that is none, though there are terms of its word.
fn misformed_line(alloc: Global, term: &Value, form: &str) -> Result<String, NoMemory>
    ensures { IfOk result (λ line. has_float (view term.now) ≡ false → string_bytes line ≡ value_line (shown_text (compact_text (view term.now))) (misformed_said form.now)) }
{
    let said = format!(in alloc; "is no term of an expression: such a term is written {form}")?;
    value_line(alloc, term, &said)
}

/// The line of a part, with its newline.
fn line_of(alloc: Global, part: &Part<'_>) -> Result<String, NoMemory>
    ensures { IfOk result (λ line. IsLineOf (part_seen part.now) (string_bytes line)) }
{
    match part {
        Part::Command(name) => named_line(alloc, name, NO_COMMAND),
        Part::Root(path) => named_line(alloc, path, root_said(path)),
        Part::Key(asking, key) => named_line(alloc, key, keys_said(*asking)),
        Part::Value(key, value) => value_line(alloc, value, key.said()),
        Part::Term(value) => value_line(alloc, value, NO_TERM),
        Part::Misformed(value, form) => misformed_line(alloc, value, form),
        Part::Pattern(text) => named_line(
            alloc,
            text,
            "is no pattern of match: this has at most 1,024 bytes, and neither [ nor \\; * fits any bytes of a name, ? one byte, and ** any folders",
        ),
        Part::Letter(text) => named_line(
            alloc,
            text,
            "is no type of a file: these are f (a file), d (a folder), l (a link) and o (all else)",
        ),
        Part::Field(value) => value_line(alloc, value, NO_FIELD),
        Part::Form(form) => form_line(alloc, form),
    }
}

/// The line that says the part of a refused request.
pub(crate) fn said_of(
    alloc: Global,
    refusal: Refusal,
    value: &Value,
) -> Result<Option<String>, NoMemory>
    ensures { IfOk result (λ r. SaysOf (refusing_part refusal (view value.now)) (option_map string_bytes r)) }
{
    match part_in(alloc, refusal, value) {
        Some(part) => Ok(Some(line_of(alloc, &part)?)),
        None => Ok(None),
    }
}

/// The line that says that a text is no root's path. `None` if it is one.
pub fn root_explanation(alloc: Global, path: &str) -> Result<Option<String>, NoMemory>
    ensures { IfOk result (λ r. SaysOf (refused_root path.now) (option_map string_bytes r)) }
{
    match refused_root(alloc, path) {
        Some(part) => Ok(Some(line_of(alloc, &part)?)),
        None => Ok(None),
    }
}

/// The JSON value that a text is, or the column at which its reader stopped.
pub(crate) fn value_of(alloc: Global, json: &str) -> Result<Result<Value, usize>, NoMemory>
    ensures { IfOk result (λ r. option_map view (result_ok r) ≡ read_text json.now) }
{
    match Value::from_str(alloc, json) {
        Ok(value) => Ok(Ok(value)),
        Err(error) if error.is_memory() => Err(NoMemory),
        Err(error) => Ok(Err(error.column())),
    }
}

/// Why a server refuses a request, one line without its newline, as it reads it: the refusal. `None` if it takes the request.
fn refusal_of(alloc: Global, json: &str) -> Result<Option<Refusal>, NoMemory>
    ensures { IfOk result (λ r. r ≡ result_err (server_request_of_line (json.now ++ codes "\n"))) }
{
    let line = format!(in alloc; "{json}\n")?;
    match ServerRequest::read(alloc, line.as_bytes()) {
        Ok(_) => Ok(None),
        Err(Refusal::NoMemory) => Err(NoMemory),
        Err(refusal) => Ok(Some(refusal)),
    }
}

/// The line that says for which part a server refuses a request, which is one line without its newline. `None` if a server takes
/// it as it reads it, or refuses it for another cause. One that is no JSON text is said to be none, with a column that is only tested.
pub fn explanation(alloc: Global, json: &str) -> Result<Option<String>, NoMemory>
    ensures { IfOk result (λ r. SaysPart (result_err (server_request_of_line (json.now ++ codes "\n"))) (read_text json.now) (option_map string_bytes r)) }
{
    let Some(refusal) = refusal_of(alloc, json)? else {
        return Ok(None);
    };
    match value_of(alloc, json)? {
        Ok(value) => said_of(alloc, refusal, &value),
        Err(column) => Ok(Some(no_json_line(alloc, column)?)),
    }
}
