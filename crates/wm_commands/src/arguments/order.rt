//! What is asked of `wm`, by what clap found in the words.

use crate::arguments::verb::Verb;
use crate::patterns::pattern_fault;
use crate::questions::since_text;
use crate::showing::Style;
use clap::ArgMatches;
use serde_json::Value;
use std::alloc::Global;
use wm_arguments::{copied, is_set, number_of};
use wm_disk::NoMemory;

/// A command with its arguments.
#[derive(Drop)]
pub struct Order {
    pub verb: Verb,
    pub target: Target,
    pub question: Question,
    pub program: Program,
    pub style: Style,
}

/// What a command is about.
#[derive(Drop)]
pub struct Target {
    /// The socket that is named.
    pub socket: Option<String>,
    /// The folder that is named.
    pub dir: Option<String>,
}

/// Which files are asked for.
#[derive(Drop)]
pub struct Question {
    /// Any of these globs fits, and this expression.
    pub patterns: Vec<String>,
    pub own: Option<Value>,
    /// Since which clock, as a query has it.
    pub since: Option<String>,
    /// Nothing is waited for before the question.
    pub is_unsynced: bool,
}

/// What is run.
#[derive(Drop)]
pub struct Program {
    /// The program, and its words; none, if nothing is run.
    pub words: Vec<String>,
    /// For how many milliseconds nothing changes before a run.
    pub settle: u32,
}

/// Copies of the texts that clap found by a name.
fn all(alloc: Global, matches: &ArgMatches<'_>, name: &str) -> Result<Vec<String>, NoMemory> {
    let Some(texts) = matches.get_strs(name) else {
        return Ok(Vec::new(alloc));
    };
    let mut copies = Vec::with_capacity(alloc, texts.len())?;
    for text in texts {
        copies.push(String::from_str(alloc, text)?)?;
    }
    Ok(copies)
}

/// The clock since which is asked.
fn since_of(alloc: Global, matches: &ArgMatches<'_>) -> Result<Option<String>, NoMemory> {
    match matches.get_str("since") {
        Some(word) => Ok(Some(since_text(alloc, word)?)),
        None => Ok(None),
    }
}

/// The expression that a word is. `None` if it is no JSON.
fn own_of(alloc: Global, word: Option<&str>) -> Result<Option<Option<Value>>, NoMemory> {
    let Some(word) = word else {
        return Ok(Some(None));
    };
    match Value::from_str(alloc, word) {
        Ok(value) => Ok(Some(Some(value))),
        Err(error) if error.is_memory() => Err(NoMemory),
        Err(_) => Ok(None),
    }
}

/// For how many milliseconds nothing changes before a run, if nothing is told.
const DEFAULT_SETTLE: u32 = 50;

/// The style that is asked for.
fn style_of(matches: &ArgMatches<'_>) -> Style {
    Style {
        is_json: is_set(matches.get_str("json")),
        is_nul: is_set(matches.get_str("nul")),
        is_clock: is_set(matches.get_str("clock")),
    }
}

/// What is wrong with the first pattern that the server refuses. `None` if it refuses none.
fn refused_pattern(alloc: Global, patterns: &[String]) -> Result<Option<String>, NoMemory> {
    for pattern in patterns {
        if let Some(fault) = pattern_fault(pattern) {
            let (pattern, name) = (pattern.as_str(), fault.name());
            return Ok(Some(format!(in alloc;
                "'{pattern}': {name} can't stand in a PATTERN, which has * ? and **; write ? for any byte, or a PATTERN for each name"
            )?));
        }
    }
    Ok(None)
}

/// What a command is about.
fn target_of(alloc: Global, matches: &ArgMatches<'_>) -> Result<Target, NoMemory> {
    let socket = copied(alloc, matches.get_str("socket"))?;
    let dir = copied(alloc, matches.get_str("DIR"))?;
    Ok(Target { socket, dir })
}

/// Which files are asked for, or what is wrong with it.
fn question_of(
    alloc: Global,
    matches: &ArgMatches<'_>,
) -> Result<Result<Question, String>, NoMemory> {
    let Some(own) = own_of(alloc, matches.get_str("expr"))? else {
        let what = "the value of --expr is no JSON, as '[\"suffix\",\"c\"]'";
        return Ok(Err(String::from_str(alloc, what)?));
    };
    let patterns = all(alloc, matches, "PATTERN")?;
    if let Some(what) = refused_pattern(alloc, &patterns)? {
        return Ok(Err(what));
    }
    let since = since_of(alloc, matches)?;
    Ok(Ok(Question {
        patterns,
        own,
        since,
        is_unsynced: is_set(matches.get_str("no-sync")),
    }))
}

/// What is run, or what is wrong with it.
fn program_of(
    alloc: Global,
    matches: &ArgMatches<'_>,
) -> Result<Result<Program, String>, NoMemory> {
    let Some(settle) = number_of(matches.get_str("settle"), DEFAULT_SETTLE) else {
        let what = "MS isn't a whole number from 0 to 4294967295";
        return Ok(Err(String::from_str(alloc, what)?));
    };
    let words = all(alloc, matches, "COMMAND")?;
    Ok(Ok(Program { words, settle }))
}

/// What is asked for by what clap found behind a command, or what is wrong with it.
pub(crate) fn order_of(
    alloc: Global,
    verb: Verb,
    matches: &ArgMatches<'_>,
) -> Result<Result<Order, String>, NoMemory> {
    let question = match question_of(alloc, matches)? {
        Ok(question) => question,
        Err(what) => return Ok(Err(what)),
    };
    let program = match program_of(alloc, matches)? {
        Ok(program) => program,
        Err(what) => return Ok(Err(what)),
    };
    let target = target_of(alloc, matches)?;
    Ok(Ok(Order {
        verb,
        target,
        question,
        program,
        style: style_of(matches),
    }))
}
