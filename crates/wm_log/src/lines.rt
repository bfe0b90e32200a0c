//! The line of an event. Definitions: specs/LogLines. Tests: leaf_tests/src/logs.rt.
ghost use Rattle.std.specs.Prelude.{◌≡◌, IfOk, option_map, string_bytes};
ghost use Rattle.wm_explain.specs.Shown.{shown_text};
ghost use Rattle.wm_disk.specs.Refusals.{refusal_text};
ghost use Rattle.wm_log.specs.LogLines.{IsLogLine, about, crawl_text, log_text, refused_text, spaced, of_trigger, unstarted_text, what_text, text_number};
ghost use Rattle.wm_log.specs.StartTexts.{start_fault_text};

use crate::event::{Event, What};
use crate::start_fault::StartFault;
use crate::time::time_text;
use std::alloc::Global;
use wm_disk::{NoMemory, Refusal};
use wm_explain::shown;

/// One text behind another.
fn joined(alloc: Global, first: &str, second: &str) -> Result<String, NoMemory>
    ensures { IfOk result (λ r. string_bytes r ≡ spaced first.now second.now) }
{
    Ok(format!(in alloc; "{first} {second}")?)
}

/// A text, and a name as it is shown.
fn named_text(alloc: Global, text: &str, name: &str) -> Result<String, NoMemory>
    ensures { IfOk result (λ r. string_bytes r ≡ spaced text.now (shown_text name.now)) }
{
    let name = shown(alloc, name)?;
    joined(alloc, text, &name)
}

/// A text, and a number.
fn with_number(alloc: Global, text: &str, number: u8) -> Result<String, NoMemory>
    ensures { IfOk result (λ r. string_bytes r ≡ text_number text.now number) }
{
    Ok(format!(in alloc; "{text} {number}")?)
}

/// How a trigger's program ended.
fn ended_text(alloc: Global, name: &str, how: &str, number: u8) -> Result<String, NoMemory>
    ensures { IfOk result (λ r. string_bytes r ≡ of_trigger (shown_text name.now) (text_number how.now number)) }
{
    let text = with_number(alloc, how, number)?;
    let name = shown(alloc, name)?;
    let said = joined(alloc, &name, &text)?;
    joined(alloc, "the trigger", &said)
}

/// A program that couldn't be started, and why.
fn fault_text(alloc: Global, fault: &StartFault) -> Result<String, NoMemory>
    ensures { IfOk result (λ r. string_bytes r ≡ start_fault_text fault.now) }
{
    let program = shown(alloc, &fault.program)?;
    let cause = fault.cause.text();
    Ok(format!(in alloc; "{program}: {cause}")?)
}

/// The trigger that couldn't be started, and why.
fn unstarted_text(alloc: Global, name: &str, fault: &StartFault) -> Result<String, NoMemory>
    ensures { IfOk result (λ r. string_bytes r ≡ unstarted_text name.now fault.now) }
{
    let text = named_text(alloc, "couldn't start the trigger", name)?;
    let fault = fault_text(alloc, fault)?;
    Ok(format!(in alloc; "{text}: {fault}")?)
}

/// A text, and why something was refused.
fn refused_text(alloc: Global, text: &str, refusal: Refusal) -> Result<String, NoMemory>
    ensures { IfOk result (λ r. string_bytes r ≡ refused_text text.now refusal) }
{
    let refusal = refusal.text();
    Ok(format!(in alloc; "{text}: {refusal}")?)
}

/// Why a crawl failed, and at which folder if there is one.
fn crawl_text(alloc: Global, refusal: Refusal, folder: &Option<String>) -> Result<String, NoMemory>
    ensures { IfOk result (λ r. string_bytes r ≡ crawl_text refusal (option_map string_bytes folder.now)) }
{
    match folder {
        Some(folder) => {
            let text = named_text(alloc, "a crawl failed at", folder)?;
            refused_text(alloc, &text, refusal)
        }
        None => refused_text(alloc, "a crawl failed", refusal),
    }
}

/// A text, and the tick of a root.
fn with_tick(alloc: Global, text: &str, tick: u64) -> Result<String, NoMemory>
    ensures { IfOk result (λ r. string_bytes r ≡ text_number text.now tick) }
{
    Ok(format!(in alloc; "{text} {tick}")?)
}

/// What is said of what happened.
fn what_text(alloc: Global, what: &What) -> Result<String, NoMemory>
    ensures { IfOk result (λ r. string_bytes r ≡ what_text what.now) }
{
    match what {
        What::TookSocket(path) => named_text(alloc, "took over the socket", path),
        What::CrawlFailed(refusal, folder) => crawl_text(alloc, *refusal, folder),
        What::NotStarted(name, fault) => unstarted_text(alloc, name, fault),
        What::Exited(name, status) => ended_text(alloc, name, "ended with status", *status),
        What::Killed(name, signal) => ended_text(alloc, name, "was ended by signal", *signal),
        What::SessionRefused(refusal) => refused_text(alloc, "refused a session", *refusal),
        What::CutOff => Ok(String::from_str(alloc, "cut off a client that didn't read")?),
        What::Forgot(tick) => with_tick(alloc, "forgot paths that were deleted up to tick", *tick),
        What::StoreFailed => Ok(String::from_str(
            alloc,
            "the state file failed; commands that change it are refused until a restart",
        )?),
    }
}

/// A text, behind the path of a root if there is one.
fn about(alloc: Global, root: &Option<String>, text: String) -> Result<String, NoMemory>
    ensures { IfOk result (λ r. string_bytes r ≡ about (option_map (λ p. shown_text (string_bytes p)) root.now) (string_bytes text)) }
{
    match root {
        Some(root) => {
            let root = shown(alloc, root)?;
            Ok(format!(in alloc; "{root}: {text}")?)
        }
        None => Ok(text),
    }
}

/// What is said of an event: its root if it has one, and what happened.
pub(crate) fn text_of(alloc: Global, event: &Event) -> Result<String, NoMemory>
    ensures { IfOk result (λ text. string_bytes text ≡ log_text event.now) }
{
    let text = what_text(alloc, &event.what)?;
    about(alloc, &event.root, text)
}

/// The line of an event of which this is said.
pub(crate) fn line_by(alloc: Global, event: &Event, text: &str) -> Result<String, NoMemory>
    requires { text.now ≡ log_text event.now }
    ensures { IfOk result (λ line. IsLogLine event.now (string_bytes line)) }
{
    let time = time_text(alloc, event.time)?;
    Ok(format!(in alloc; "{time} {text}\n")?)
}

/// The line of an event, with its newline: its time, its root if it has one, and what happened.
pub fn line_of(alloc: Global, event: &Event) -> Result<String, NoMemory>
    ensures { IfOk result (λ line. IsLogLine event.now (string_bytes line)) }
{
    let text = text_of(alloc, event)?;
    line_by(alloc, event, &text)
}
