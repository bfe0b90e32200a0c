//! The program of a trigger, and what is said if it isn't there. Definitions: specs/TriggerPrograms. Tests: client_tests/src/programs.rt.
ghost use Rattle.std.specs.Prelude.{◌≡◌, ◌==◌, IfOk, option_and_then, option_map, string_bytes};
ghost use Rattle.std.specs.List.{list_any};
ghost use Rattle.serde_json.specs.Read.{read as read_text};
ghost use Rattle.serde_json.specs.View.{view};
ghost use Rattle.wm_parts.specs.TriggerPrograms.{begins_in_root, is_by_path, is_whole_path, named_program, program_line, program_of, program_said, program_sought, sought_program};

use crate::keys::Asking;
use crate::lines::{named_line, value_of};
use crate::parts::{object_of, text_at};
use serde_json::Value;
use std::alloc::Global;
use wm_disk::NoMemory;

/// What was found in place of a trigger's program.
#[derive(Clone, Copy, Debug, PartialEq, Eq)]
pub enum ProgramFound {
    /// No program of its name is on the PATH of this process.
    OffPath,
    /// Nothing is at its path.
    Missing,
    /// Something is there that is no file, or isn't marked as a program.
    Unmarked,
}

/// The program that a request's object names.
fn program_of(asking: Asking, object: &Value) -> Option<&str>
    ensures { option_map (λ t. t.now) result ≡ program_of asking (view object.now) }
{
    match asking {
        Asking::Query => None,
        Asking::Trigger => text_at(object.get("command")?, 0),
    }
}

/// The program that a trigger's request names.
fn named_program(value: &Value) -> Option<&str>
    ensures { option_map (λ t. t.now) result ≡ named_program (view value.now) }
{
    let (asking, object) = object_of(value)?;
    program_of(asking, object)
}

/// Whether a program is named by a path.
fn is_by_path(program: &str) -> bool
    ensures { result ≡ is_by_path program.now }
{
    program.as_bytes().iter().any(|byte| *byte == b'/')
}

/// Whether a path begins at the system's root.
fn is_whole_path(program: &str) -> bool
    ensures { result ≡ is_whole_path program.now }
{
    program.as_bytes().starts_with(b"/")
}

/// Whether a program is named by a path that begins in the root.
fn begins_in_root(program: &str) -> bool
    ensures { result ≡ begins_in_root program.now }
{
    is_by_path(program) && !is_whole_path(program)
}

/// The name of a program, or its path from the system's root.
fn sought_program(alloc: Global, root: &str, program: &str) -> Result<String, NoMemory>
    ensures { IfOk result (λ r. string_bytes r ≡ sought_program root.now program.now) }
{
    if begins_in_root(program) {
        Ok(format!(in alloc; "{root}/{program}")?)
    } else {
        Ok(String::from_str(alloc, program)?)
    }
}

/// The name or the path of the program that a trigger's request names.
fn sought_in(alloc: Global, value: &Value) -> Result<Option<String>, NoMemory>
    ensures { IfOk result (λ r. option_map string_bytes r ≡ program_sought (view value.now)) }
{
    let Some(root) = text_at(value, 1) else {
        return Ok(None);
    };
    match named_program(value) {
        Some(program) => Ok(Some(sought_program(alloc, root, program)?)),
        None => Ok(None),
    }
}

/// The program that the request of a trigger names, one line without its newline: a name without a slash, which is looked for on the PATH, or
/// the path from the system's root. `None` if it names none.
pub fn program_sought(alloc: Global, json: &str) -> Result<Option<String>, NoMemory>
    ensures { IfOk result (λ r. option_map string_bytes r ≡ option_and_then program_sought (read_text json.now)) }
{
    match value_of(alloc, json)? {
        Ok(value) => sought_in(alloc, &value),
        Err(_) => Ok(None),
    }
}

/// What is said of a program in whose place this was found.
fn program_said(found: ProgramFound) -> &'static str
    ensures { result.now ≡ program_said found }
{
    match found {
        ProgramFound::OffPath => {
            "is no program on this PATH: the server looks on its own PATH, and its log says if a run couldn't be started"
        }
        ProgramFound::Missing => "isn't there: no run of the trigger can be started until it is",
        ProgramFound::Unmarked => {
            "is no file that is marked as a program (chmod +x): no run of the trigger can be started until it is"
        }
    }
}

/// The line of a trigger's program in whose place this was found.
pub fn program_line(alloc: Global, program: &str, found: ProgramFound) -> Result<String, NoMemory>
    ensures { IfOk result (λ line. string_bytes line ≡ program_line program.now found) }
{
    named_line(alloc, program, program_said(found))
}
