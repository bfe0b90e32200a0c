//! The command of a run, and what its program reads.
//! Definitions: specs/Starting.antt. Tests: registry_tests/src/trigger_runs/commands.rt.
ghost use Rattle.std.specs.Prelude.{◌≡◌, ◌++◌, ℕ, List, Some, None, false, drop, option_map, IfOk, OnOk};
ghost use Rattle.std.specs.Process.{SameDir, SameEnv, clears_env, command_args, command_dir, command_program, command_var};
ghost use Rattle.wm_triggers.specs.Starting.{first_files as first_files_lem, input_for, path_lines, file_paths, launch_by, launch_for, program_in, words_for};

use crate::run::Run;
use std::alloc::Global;
use std::process::Command;
use wm_disk::NoMemory;
use wm_names::RootPath;
use wm_registry::{Stdin, Trigger, Word};
use wm_since::Listed;

/// The first word of a command, and an empty text where there is none.
fn program(words: &[Word]) -> &str
    ensures { result.now ≡ program_in words.now }
{
    match words {
        [program, ..] => program.as_str(),
        [] => "",
    }
}

/// The words behind the first.
fn behind_program(words: &[Word]) -> &[Word]
    ensures { result.now ≡ drop 1 words.now }
{
    match words {
        [_, rest @ ..] => rest,
        [] => words,
    }
}

/// Adds words to a command.
fn add_words(command: &mut Command, words: &[Word]) -> Result<(), NoMemory>
    ensures words { OnOk result (command_args command.new ≡ command_args command.old ++ words.now) }
    ensures program { OnOk result (command_program command.new ≡ command_program command.old) }
    ensures environment { OnOk result (SameEnv command.old command.new) }
    ensures folder { OnOk result (SameDir command.old command.new) }
{
    for word in words {
        command.arg(word.as_str())?;
    }
    Ok(())
}

/// Adds the paths of files to a command.
fn add_paths(command: &mut Command, files: &[Listed]) -> Result<(), NoMemory>
    ensures words { OnOk result (command_args command.new ≡ command_args command.old ++ file_paths files.now) }
    ensures program { OnOk result (command_program command.new ≡ command_program command.old) }
    ensures environment { OnOk result (SameEnv command.old command.new) }
    ensures folder { OnOk result (SameDir command.old command.new) }
{
    for file in files {
        command.arg(file.entry.path.as_str())?;
    }
    Ok(())
}

/// The command that starts the program of a run: in the root as its working folder and with the
/// environment of this process, the trigger's words, and behind them the paths of the files where
/// the trigger appends them. Its streams aren't set. `NoMemory`.
pub fn run_command(
    alloc: Global,
    root: &RootPath,
    trigger: &Trigger,
    run: &Run,
) -> Result<Command, NoMemory>
    ensures program { IfOk result (λ c. command_program c ≡ program_in trigger.now.command) }
    ensures words { IfOk result (λ c. command_args c ≡ words_for trigger.now run.now) }
    ensures folder { IfOk result (λ c. command_dir c ≡ Some root.now) }
    ensures environment { IfOk result (λ c. (clears_env c ≡ false) × ((name : List ℕ) → command_var c name ≡ None)) }
{
    let words = trigger.command();
    let mut command = Command::new(alloc, program(words))?;
    command.current_dir(root.as_str())?;
    add_words(&mut command, behind_program(words))?;
    if trigger.append_files() {
        add_paths(&mut command, run.files())?;
    }
    Ok(command)
}

/// The path of each file, and a newline behind it.
fn path_lines(alloc: Global, files: &[Listed]) -> Result<Vec<u8>, NoMemory>
    ensures { IfOk result (λ lines. lines.items ≡ path_lines (file_paths files.now)) }
{
    let mut lines = Vec::new(alloc);
    for file in files {
        lines.extend_from_slice(file.entry.path.as_str().as_bytes())?;
        lines.push(b'\n')?;
    }
    Ok(lines)
}

/// The first files, as many as the number says, and all of them if there is no number.
fn first_files(count: Option<u32>, files: &[Listed]) -> &[Listed]
    ensures { result.now ≡ first_files_lem count files.now }
{
    match count {
        Some(count) if (count as usize) < files.len() => &files[..count as usize],
        _ => files,
    }
}

/// What the program of a run reads, and `None` if it reads `/dev/null`: the path of each file, or of
/// the first ones alone, if the trigger says how many. `NoMemory`.
pub fn run_input(alloc: Global, trigger: &Trigger, run: &Run) -> Result<Option<Vec<u8>>, NoMemory>
    ensures { IfOk result (λ input. option_map (λ i. i.items) input ≡ input_for trigger.now run.now) }
{
    match trigger.stdin() {
        Stdin::DevNull => Ok(None),
        Stdin::NamePerLine => {
            let files = first_files(trigger.max_files_stdin(), run.files());
            let lines = path_lines(alloc, files)?;
            Ok(Some(lines))
        }
    }
}

/// What starts the program of a run: its command, and what it reads. `NoMemory`.
pub fn run_launch(
    alloc: Global,
    root: &RootPath,
    trigger: &Trigger,
    run: &Run,
) -> Result<(Command, Option<Vec<u8>>), NoMemory>
    ensures { IfOk result (λ made. launch_by made.0 (option_map (λ i. i.items) made.1) ≡ launch_for root.now trigger.now run.now) }
{
    let command = run_command(alloc, root, trigger, run)?;
    let input = run_input(alloc, trigger, run)?;
    Ok((command, input))
}
