//! The lines of a refusal that a server replied, of its log, and of a sync that no feed answered. Definitions: specs/Advice. Tests: client_tests/src/hints.rt.
ghost use Rattle.std.specs.Prelude.{◌≡◌, ◌++◌, IfOk, codes, string_bytes};
ghost use Rattle.serde_json.specs.Read.{read as read_text};
ghost use Rattle.serde_json.specs.View.{view};
ghost use Rattle.wm_explain.specs.Shown.{shown_text};
ghost use Rattle.wm_lines.specs.RecrawlLines.{server_request_of_line};
ghost use Rattle.wm_parts.specs.Advice.{Explains, SaysPartOr, SaysRead, advice_line, log_line, no_feed_line};
ghost use Rattle.wm_parts.specs.RefusedParts.{refusing_part};

use crate::advice::advice_of;
use crate::kinds::{RequestKind, kind_of, read};
use crate::lines::{no_json_line, said_of, value_of};
use serde_json::Value;
use std::alloc::Global;
use wm_disk::{NoMemory, Refusal};
use wm_explain::shown;

/// The line that says what to do at a refusal of a request of this kind.
pub fn advice_line(alloc: Global, refusal: Refusal, kind: RequestKind) -> Result<String, NoMemory>
    ensures { IfOk result (λ line. string_bytes line ≡ advice_line refusal kind) }
{
    let advice = advice_of(refusal, kind);
    Ok(format!(in alloc; "{advice}\n")?)
}

/// The line of the part for which a request is refused, or if there is none, of what to do.
fn part_or_advice(alloc: Global, refusal: Refusal, value: &Value) -> Result<String, NoMemory>
    ensures { IfOk result (λ line. SaysPartOr refusal (refusing_part refusal (view value.now)) (string_bytes line)) }
{
    match said_of(alloc, refusal, value)? {
        Some(line) => Ok(line),
        None => advice_line(alloc, refusal, RequestKind::Other),
    }
}

/// The line of a request that is refused as it is read.
fn read_line(alloc: Global, refusal: Refusal, json: &str) -> Result<String, NoMemory>
    ensures { IfOk result (λ line. SaysRead refusal (read_text json.now) (string_bytes line)) }
{
    match value_of(alloc, json)? {
        Ok(value) => part_or_advice(alloc, refusal, &value),
        Err(column) => no_json_line(alloc, column),
    }
}

/// The line of a refusal that a server replied to a request, which is one line without its newline: the part of the request that is the
/// cause, or else why such a request is refused, and what to do.
pub fn refusal_line(alloc: Global, refusal: Refusal, json: &str) -> Result<String, NoMemory>
    ensures { IfOk result (λ line. Explains refusal (server_request_of_line (json.now ++ codes "\n")) (read_text json.now) (string_bytes line)) }
{
    match read(alloc, json)? {
        Ok(request) => advice_line(alloc, refusal, kind_of(request)),
        Err(found) if found == refusal => read_line(alloc, refusal, json),
        Err(_) => advice_line(alloc, refusal, RequestKind::Other),
    }
}

/// The line that says what to do if no feed answered a sync in time.
pub fn no_feed_line(alloc: Global, socket: &str) -> Result<String, NoMemory>
    ensures { IfOk result (λ line. string_bytes line ≡ no_feed_line (shown_text socket.now)) }
{
    let socket = shown(alloc, socket)?;
    let text = format!(in alloc;
        "no feed answered in time: 'wm up' or 'wmfeed {socket}' starts one, and --sync-timeout gives it more time; without one send [\"recrawl\",ROOT], and then ask\n"
    )?;
    Ok(text)
}

/// The line that says where the log is of a server that `wm up` started.
pub fn log_line(alloc: Global, log: &str) -> Result<String, NoMemory>
    ensures { IfOk result (λ line. string_bytes line ≡ log_line (shown_text log.now)) }
{
    let log = shown(alloc, log)?;
    Ok(format!(in alloc; "the log of a server that 'wm up' started is {log}\n")?)
}
