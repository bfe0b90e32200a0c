//! A trigger: the program that is to be started where files change, within its limits.
//! Definitions: specs/Triggers.antt, specs/Endings.antt.
//! Tests: registry_tests/src/triggers.rt, registry_tests/src/trigger_lengths.rt.
ghost use Rattle.std.specs.Prelude.{◌≡◌, ◌≢◌, ◌↔◌, List, true, false, length, map, nat_le, IfOk, IfErr, IsErrOf};
ghost use Rattle.std.specs.List.{list_all};
ghost use Rattle.std.specs.Option.{option_map};
ghost use Rattle.wm_registry.specs.Endings.{count_fits, is_file_count as is_file_count_lem};
ghost use Rattle.wm_registry.specs.Limits.{max_word};
ghost use Rattle.wm_registry.specs.Spelling.{IsTrigger};
ghost use Rattle.wm_registry.specs.declared.version.Version.TheVariants.{Two};
ghost use Rattle.wm_registry.specs.Triggers.{has_program as has_program_lem, is_command as is_command_lem, is_expression_text, is_trigger, same_definition};

use crate::ending::{fits_version, is_file_count};
use crate::limits::{MAX_EXPRESSION, MAX_WORD, MAX_WORDS};
use crate::stdin::Stdin;
use crate::trigger_name::{TriggerName, is_name};
use crate::version::Version;
use std::alloc::Global;
use std::marker::Model;
use std::sync::Arc;
use wm_disk::{NoMemory, Refusal};
use wm_wire::{List, Optional, Text};

/// A word of a command.
pub type Word = Text<MAX_WORD>;

/// The words of a command.
pub(crate) type Words = List<Word, MAX_WORDS>;

/// The text of an expression, which may be missing.
pub(crate) type Expression = Optional<Text<MAX_EXPRESSION>>;

/// A program that is to be started where files of a root change: 1 to 16 words of at most 1,024 bytes,
/// the first of them not empty; perhaps an expression of at most 4,096 bytes, which chooses the files;
/// and perhaps the most files that the program's standard input names, at least 1. A trigger and its copies share their parts, also in several threads. Contracts see it as a
/// `Definition`.
#[derive(Drop)]
pub struct Trigger {
    pub(crate) parts: Arc<Parts>,
}

/// The parts of a trigger.
#[derive(Drop)]
pub(crate) struct Parts {
    pub(crate) name: TriggerName,
    pub(crate) command: Words,
    pub(crate) expression: Expression,
    pub(crate) append_files: bool,
    pub(crate) stdin: Stdin,
    pub(crate) max_files_stdin: Optional<u32>,
}

impl Model for Trigger {
    ghost use Rattle.wm_registry.specs.Endings.{is_file_count};
    ghost use Rattle.wm_registry.specs.Triggers.{Definition, has_program};
    ghost use Rattle.std.specs.Prelude.{◌≡◌, true};

    ghost Value = { Definition };

    ghost view = { λ t. record { name = t.parts.value.name; command = t.parts.value.command; expression = t.parts.value.expression; append_files = t.parts.value.append_files; stdin = t.parts.value.stdin; max_files_stdin = t.parts.value.max_files_stdin } };

    ghost invariant = { λ t. (has_program t.parts.value.command ≡ true) × (is_file_count t.parts.value.max_files_stdin ≡ true) };
}

/// Whether there is a first word, and it isn't empty.
pub(crate) fn has_program(words: &[Word]) -> bool
    ensures { result ≡ has_program_lem words.now }
{
    match words {
        [program, ..] => !program.as_str().is_empty(),
        [] => false,
    }
}

impl Trigger {
    ghost use Rattle.wm_registry.specs.Triggers.{definition};

    /// The trigger with this name, this command of a program and its words, this expression, and the
    /// most files whose names the program is to read, if there is such a number. `BadTrigger` where a
    /// rule is broken: the name has 1 to 64 bytes, the command 1 to 16 words of at most 1,024 bytes
    /// with the first not empty, the expression at most 4,096 bytes, and the number isn't 0. The rules
    /// come first, so that `NoMemory` is for a trigger that keeps them.
    pub fn new(
        alloc: Global,
        name: &str,
        command: &[&str],
        expression: Option<&str>,
        append_files: bool,
        stdin: Stdin,
        max_files_stdin: Option<u32>,
    ) -> Result<Trigger, Refusal>
        ensures ok { IfOk result (λ t. t ≡ definition name.now (map (λ w. w.now) command.now) (option_map (λ t. t.now) expression.entry) append_files stdin max_files_stdin) }
        ensures fits { IfOk result (IsTrigger Two) }
        ensures refused { IsErrOf result Refusal.BadTrigger ↔ (is_trigger (definition name.now (map (λ w. w.now) command.now) (option_map (λ t. t.now) expression.entry) append_files stdin max_files_stdin) ≡ false) }
        ensures kinds { IfErr result (λ e. e ≢ Refusal.NoMemory → e ≡ Refusal.BadTrigger) }
    {
        if !is_name(name)
            || !is_command(command)
            || !is_expression(expression)
            || !is_file_count(max_files_stdin)
        {
            return Err(Refusal::BadTrigger);
        }
        let name = TriggerName::read(alloc, name)?;
        let command = read_words(alloc, command)?;
        let expression = read_expression(alloc, expression)?;
        let max_files_stdin = read_count(max_files_stdin)?;
        let parts = Parts {
            name,
            command,
            expression,
            append_files,
            stdin,
            max_files_stdin,
        };
        Ok(Trigger::of(alloc, parts)?)
    }

    /// The trigger of these parts.
    pub(crate) fn of(alloc: Global, parts: Parts) -> Result<Trigger, NoMemory>
        requires program { has_program_lem parts.command ≡ true }
        requires count { is_file_count_lem parts.max_files_stdin ≡ true }
        ensures { IfOk result (λ t. t ≡ definition parts.name parts.command parts.expression parts.append_files parts.stdin parts.max_files_stdin) }
    {
        let parts = Arc::new(alloc, parts)?;
        Ok(Trigger { parts })
    }

    /// Its name.
    pub fn name(&self) -> &str
        ensures { result.now ≡ self.now.name }
    {
        self.parts.name.as_str()
    }

    /// The program and its words.
    pub fn command(&self) -> &[Word]
        ensures { result.now ≡ self.now.command }
    {
        self.parts.command.as_slice()
    }

    /// The text of its expression.
    pub fn expression(&self) -> Option<&str>
        ensures { option_map (λ t. t.now) result ≡ self.now.expression }
    {
        match self.parts.expression.as_option() {
            Some(text) => Some(text.as_str()),
            None => None,
        }
    }

    /// Whether the names of the files are to follow the words.
    pub fn append_files(&self) -> bool
        ensures { result ≡ self.now.append_files }
    {
        self.parts.append_files
    }

    /// What the program is to read.
    pub fn stdin(&self) -> Stdin
        ensures { result ≡ self.now.stdin }
    {
        self.parts.stdin
    }

    /// The most files whose names the program is to read from its standard input, the first ones of an
    /// answer: at least 1. `None` for all of them.
    pub fn max_files_stdin(&self) -> Option<u32>
        ensures { result ≡ self.now.max_files_stdin }
    {
        self.parts.max_files_stdin.as_option().copied()
    }

    /// Whether a file of the version has a place for it: a number of files has none in version 1.
    pub(crate) fn fits_version(&self, version: Version) -> bool
        ensures { result ≡ count_fits version self.now.max_files_stdin }
    {
        fits_version(version, self.max_files_stdin())
    }

    /// Whether the other is defined in the same way.
    pub fn is_same(&self, other: &Trigger) -> bool
        ensures { result ≡ same_definition self.now other.now }
    {
        self.name() == other.name()
            && self.command() == other.command()
            && self.expression() == other.expression()
            && self.parts.append_files == other.parts.append_files
            && self.parts.stdin.is_same(other.parts.stdin)
            && self.max_files_stdin() == other.max_files_stdin()
    }

    /// The same trigger again, which shares its parts. `NoMemory` comes only where they have 2^63 - 1
    /// owners already.
    pub fn copy(&self) -> Result<Trigger, NoMemory>
        ensures { IfOk result (λ t. t ≡ self.now) }
    {
        let parts = self.parts.clone()?;
        Ok(Trigger { parts })
    }
}

/// Whether these are 1 to 16 words of at most 1,024 bytes, the first of them not empty.
fn is_command(words: &[&str]) -> bool
    ensures { result ≡ is_command_lem (map (λ w. w.now) words.now) }
{
    match words {
        [program, ..] => !program.is_empty() && words.len() <= 16 && are_short(words),
        [] => false,
    }
}

/// Whether none of the words has more than 1,024 bytes.
fn are_short(words: &[&str]) -> bool
    ensures { result ≡ list_all (λ w. nat_le (length w.now) max_word) words.now }
{
    words.iter().all(|word| word.len() <= MAX_WORD as usize)
}

/// Whether there is no expression, or one of at most 4,096 bytes.
fn is_expression(text: Option<&str>) -> bool
    ensures { result ≡ is_expression_text (option_map (λ t. t.now) text.entry) }
{
    match text {
        Some(text) => text.len() <= MAX_EXPRESSION as usize,
        None => true,
    }
}

/// A command of these words, which are within the limits.
fn read_words(alloc: Global, words: &[&str]) -> Result<Words, NoMemory>
    requires { is_command_lem (map (λ w. w.now) words.now) ≡ true }
    ensures { IfOk result (λ l. l ≡ map (λ w. w.now) words.now) }
{
    let mut list = List::new(alloc);
    for word in words {
        let word = Text::new(alloc, word)?;
        if list.push(word).is_err() {
            return Err(NoMemory);
        }
    }
    Ok(list)
}

/// The expression with this text, which is within the limits.
fn read_expression(alloc: Global, text: Option<&str>) -> Result<Expression, NoMemory>
    requires { is_expression_text (option_map (λ t. t.now) text) ≡ true }
    ensures { IfOk result (λ e. e ≡ option_map (λ t. t.now) text.entry) }
{
    let Some(text) = text else {
        return Ok(Optional::none());
    };
    match Optional::some(Text::new(alloc, text)?) {
        Ok(expression) => Ok(expression),
        Err(_) => Err(NoMemory),
    }
}

/// The number, where there is one.
fn read_count(count: Option<u32>) -> Result<Optional<u32>, NoMemory>
    ensures { IfOk result (λ o. o ≡ count) }
{
    let Some(count) = count else {
        return Ok(Optional::none());
    };
    match Optional::some(count) {
        Ok(count) => Ok(count),
        Err(_) => Err(NoMemory),
    }
}
