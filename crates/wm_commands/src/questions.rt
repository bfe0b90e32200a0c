//! The lines that ask a server for files. Definitions: specs/Questions. Tests: commands_tests/src/questions.rt.
ghost use Rattle.std.specs.Prelude.{◌≡◌, ◌++◌, ◌∷◌, [], IfOk, OnOk, codes, false, map, option_map, string_bytes};
ghost use Rattle.serde_json.specs.Data.{array, string};
ghost use Rattle.serde_json.specs.View.{items_of, view};
ghost use Rattle.serde_json.specs.Written.{compact_text, has_float};
ghost use Rattle.wm_commands.specs.Questions.{base_match, expression_data, fields_data, fits_in_pattern, has_slash, own_data, pattern_data, pattern_from, patterns_data, query_data, query_object, root_data, scope_data, since_said, subscribe_data, whole_match};

use crate::folders::behind;
use serde_json::{Value, json};
use std::alloc::{AllocError, Global};
use wm_disk::NoMemory;

/// Whether a folder's path can stand in a pattern: it has none of `*`, `?`, `[` and a backslash.
pub fn fits_in_pattern(folder: &str) -> bool
    ensures { result ≡ fits_in_pattern folder.now }
{
    let bytes = folder.as_bytes();
    !(bytes.contains(&b'*')
        || bytes.contains(&b'?')
        || bytes.contains(&b'[')
        || bytes.contains(&b'\\'))
}

/// Whether a pattern is one of paths.
fn has_slash(pattern: &str) -> bool
    ensures { result ≡ has_slash pattern.now }
{
    pattern.as_bytes().contains(&b'/')
}

/// A pattern that the whole path has to fit.
fn whole_match(alloc: Global, pattern: &str) -> Result<Value, AllocError>
    ensures { IfOk result (λ v. view v ≡ whole_match pattern.now) }
{
    json!(in alloc; ["match", pattern, "wholename"])
}

/// A pattern that the last component has to fit.
fn base_match(alloc: Global, pattern: &str) -> Result<Value, AllocError>
    ensures { IfOk result (λ v. view v ≡ base_match pattern.now) }
{
    json!(in alloc; ["match", pattern])
}

/// A pattern as it is from the root.
fn pattern_from(alloc: Global, below: Option<&str>, pattern: &str) -> Result<String, AllocError>
    ensures { IfOk result (λ s. string_bytes s ≡ pattern_from (option_map (λ b. b.now) below.entry) pattern.now) }
{
    match below {
        Some(below) => format!(in alloc; "{below}/{pattern}"),
        None => String::from_str(alloc, pattern),
    }
}

/// What a file has to fit by a pattern.
fn pattern_value(alloc: Global, below: Option<&str>, pattern: &str) -> Result<Value, AllocError>
    ensures { IfOk result (λ v. view v ≡ pattern_data (option_map (λ b. b.now) below.entry) pattern.now) }
{
    if has_slash(pattern) {
        let whole = pattern_from(alloc, below, pattern)?;
        whole_match(alloc, &whole)
    } else {
        base_match(alloc, pattern)
    }
}

/// Adds what a file has to fit to be in the folder.
fn add_scope(alloc: Global, below: Option<&str>, terms: &mut Vec<Value>) -> Result<(), AllocError>
    ensures { OnOk result (map view terms.new.items ≡ map view terms.old.items ++ scope_data (option_map (λ b. b.now) below.entry)) }
{
    let Some(below) = below else {
        return Ok(());
    };
    if fits_in_pattern(below) {
        let all = format!(in alloc; "{below}/**")?;
        terms.push(whole_match(alloc, &all)?)?;
    }
    Ok(())
}

/// The word `anyof`, and what a file has to fit by each of the patterns.
fn any_of(alloc: Global, below: Option<&str>, patterns: &[String]) -> Result<Value, AllocError>
    ensures { IfOk result (λ v. view v ≡ array (items_of (string (codes "anyof") ∷ map (pattern_data (option_map (λ b. b.now) below.entry)) (map string_bytes patterns.now)))) }
{
    let mut terms = Vec::with_capacity(alloc, patterns.len())?;
    terms.push(json!(in alloc; "anyof")?)?;
    for pattern in patterns {
        terms.push(pattern_value(alloc, below, pattern)?)?;
    }
    Ok(Value::Array(terms))
}

/// Adds what a file has to fit by the patterns, if there are any.
fn add_patterns(
    alloc: Global,
    below: Option<&str>,
    patterns: &[String],
    terms: &mut Vec<Value>,
) -> Result<(), AllocError>
    ensures { OnOk result (map view terms.new.items ≡ map view terms.old.items ++ patterns_data (option_map (λ b. b.now) below.entry) (map string_bytes patterns.now)) }
{
    if patterns.is_empty() {
        return Ok(());
    }
    terms.push(any_of(alloc, below, patterns)?)?;
    Ok(())
}

/// Adds the user's own expression, if there is one.
fn add_own(own: Option<Value>, terms: &mut Vec<Value>) -> Result<(), AllocError>
    ensures { OnOk result (map view terms.new.items ≡ map view terms.old.items ++ own_data (option_map view own)) }
{
    let Some(own) = own else {
        return Ok(());
    };
    terms.push(own)?;
    Ok(())
}

/// The word `allof` alone.
fn all_of(alloc: Global) -> Result<Vec<Value>, AllocError>
    ensures { IfOk result (λ v. map view v.items ≡ string (codes "allof") ∷ []) }
{
    let mut terms = Vec::new(alloc);
    terms.push(json!(in alloc; "allof")?)?;
    Ok(terms)
}

/// The expression of what stands in a folder, fits one of the patterns if there are any, and the user's own expression. The folder is
/// named by its path below the root; `None` is the root.
pub fn expression(
    alloc: Global,
    below: Option<&str>,
    patterns: &[String],
    own: Option<Value>,
) -> Result<Value, NoMemory>
    ensures { IfOk result (λ v. view v ≡ expression_data (option_map (λ b. b.now) below.entry) (map string_bytes patterns.now) (option_map view own)) }
{
    let mut terms = all_of(alloc)?;
    add_scope(alloc, below, &mut terms)?;
    add_patterns(alloc, below, patterns, &mut terms)?;
    add_own(own, &mut terms)?;
    Ok(Value::Array(terms))
}

/// The fields that are asked for.
fn fields(alloc: Global, is_json: bool) -> Result<Value, AllocError>
    ensures { IfOk result (λ v. view v ≡ fields_data is_json) }
{
    if is_json {
        json!(in alloc; ["name", "exists", "new", "size"])
    } else {
        json!(in alloc; ["name"])
    }
}

/// The members of a question.
fn members(
    alloc: Global,
    since: Option<&str>,
    expression: Value,
    is_json: bool,
) -> Result<Value, AllocError>
    ensures { IfOk result (λ v. view v ≡ query_object (option_map (λ c. c.now) since.entry) (fields_data is_json) (view expression)) }
{
    let fields = fields(alloc, is_json)?;
    match since {
        Some(since) => {
            json!(in alloc; {"expression": expression, "fields": fields, "since": since})
        }
        None => json!(in alloc; {"expression": expression, "fields": fields}),
    }
}

/// A question with these members.
fn query(alloc: Global, root: &str, members: Value) -> Result<Value, AllocError>
    ensures { IfOk result (λ v. view v ≡ query_data root.now (view members)) }
{
    json!(in alloc; ["query", root, members])
}

/// A subscription with these members.
fn subscribe(alloc: Global, root: &str, members: Value) -> Result<Value, AllocError>
    ensures { IfOk result (λ v. view v ≡ subscribe_data root.now (view members)) }
{
    json!(in alloc; ["subscribe", root, "wm", members])
}

/// The question for the files of a root that fit an expression, since a clock if there is one. One line without its newline.
pub fn query_line(
    alloc: Global,
    root: &str,
    since: Option<&str>,
    expression: Value,
    is_json: bool,
) -> Result<String, NoMemory>
    ensures { IfOk result (λ s. has_float (view expression) ≡ false → string_bytes s ≡ compact_text (query_data root.now (query_object (option_map (λ c. c.now) since.entry) (fields_data is_json) (view expression)))) }
{
    let members = members(alloc, since, expression, is_json)?;
    let line = query(alloc, root, members)?;
    let text = line.to_string(alloc)?;
    Ok(text)
}

/// The request to be told of the files of a root that fit an expression, at once and after each change. One line without its newline.
pub fn subscribe_line(
    alloc: Global,
    root: &str,
    since: Option<&str>,
    expression: Value,
    is_json: bool,
) -> Result<String, NoMemory>
    ensures { IfOk result (λ s. has_float (view expression) ≡ false → string_bytes s ≡ compact_text (subscribe_data root.now (query_object (option_map (λ c. c.now) since.entry) (fields_data is_json) (view expression)))) }
{
    let members = members(alloc, since, expression, is_json)?;
    let line = subscribe(alloc, root, members)?;
    let text = line.to_string(alloc)?;
    Ok(text)
}

/// The line of a command that takes a root alone.
pub fn root_line(alloc: Global, command: &str, root: &str) -> Result<String, NoMemory>
    ensures { IfOk result (λ s. string_bytes s ≡ compact_text (root_data command.now root.now)) }
{
    let line = json!(in alloc; [command, root])?;
    Ok(line.to_string(alloc)?)
}

/// The clock or cursor that a word names, as a query has it: `@NAME` is the cursor `n:NAME`, and any other word is a clock.
pub fn since_text(alloc: Global, word: &str) -> Result<String, NoMemory>
    ensures { IfOk result (λ s. string_bytes s ≡ since_said word.now) }
{
    match behind("@", word) {
        Some(name) => Ok(format!(in alloc; "n:{name}")?),
        None => Ok(String::from_str(alloc, word)?),
    }
}
