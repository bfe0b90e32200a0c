//! What a line asks, and the table of the commands. Its definitions are in specs/Lines.
//! Tests: session_tests/src/requests.
ghost use Rattle.std.specs.Prelude.{◌≡◌, ◌≢◌, Ok, Err, Some, None, option_and_then, IfOk, IfErr};
ghost use Rattle.serde_json.specs.View.{view};
ghost use Rattle.wm_lines.specs.Arguments.{text_at as text_at_lem};
ghost use Rattle.wm_lines.specs.Lines.{command_of as command_of_lem, is_whole_line, plain_request, request_of, request_of_line, value_of_line};

use crate::age_out::age_out;
use crate::arguments::{has_items, only_root, text_at};
use crate::listing::listing;
use crate::pairs::observe;
use crate::query::{Inquiry, query};
use crate::since::since;
use crate::subscribe::{subscribe, unsubscribe};
use crate::triggers::{trigger, trigger_del};
use serde_json::Value;
use std::alloc::Global;
use wm_disk::Refusal;
use wm_names::RootPath;
use wm_protocol::MAX_LINE;
use wm_registry::{Trigger, TriggerName};
use wm_subs::SubscriptionName;
use wm_view::{Listing, Pairs};

/// What a line asks.
#[derive(Drop)]
pub enum Request {
    /// Which version of the lines this is.
    Version,
    /// That a root be watched.
    Watch(RootPath),
    /// That a root isn't watched any longer.
    WatchDel(RootPath),
    /// Which roots are watched.
    WatchList,
    /// That a root have a trigger.
    Trigger(RootPath, Trigger),
    /// Which triggers a root has.
    TriggerList(RootPath),
    /// That a root's trigger of that name go.
    TriggerDel(RootPath, TriggerName),
    /// What was observed below a root.
    Observe(RootPath, Pairs),
    /// What a reading found that began at this tick of a root.
    Listing(RootPath, u64, Listing),
    /// That what was deleted below a root so many moments ago be forgotten.
    AgeOut(RootPath, u64),
    /// The clock of a root.
    Clock(RootPath),
    /// What changed in a root, or is there.
    Query(RootPath, Inquiry),
    /// That what changes in a root be told in this session from now on, under that name.
    Subscribe(RootPath, SubscriptionName, Inquiry),
    /// That a root's subscription of that name end.
    Unsubscribe(RootPath, SubscriptionName),
}

/// Whether the line ends by its newline and isn't too long.
fn is_whole(line: &[u8]) -> bool
    ensures { result ≡ is_whole_line line.now }
{
    match line {
        [.., last] => *last == b'\n' && line.len() <= MAX_LINE,
        [] => false,
    }
}

/// The JSON value that a line is.
pub(crate) fn text_in(alloc: Global, line: &[u8]) -> Result<Value, Refusal>
    ensures ok { IfOk result (λ v. value_of_line line.now ≡ Some (view v)) }
    ensures refused { IfErr result (λ e. e ≢ Refusal.NoMemory → (e ≡ Refusal.BadLine) × (value_of_line line.now ≡ None)) }
{
    if !is_whole(line) {
        return Err(Refusal::BadLine);
    }
    match Value::from_slice(alloc, line) {
        Ok(value) => Ok(value),
        Err(error) => {
            if error.is_memory() {
                Err(Refusal::NoMemory)
            } else {
                Err(Refusal::BadLine)
            }
        }
    }
}

/// A command without arguments.
fn plain(value: &Value, request: Request) -> Result<Request, Refusal>
    ensures { result ≡ plain_request (view value.now) request }
{
    if has_items(value, 1) {
        return Ok(request);
    }
    drop(request);
    Err(Refusal::BadArguments)
}

/// A command, by its name.
#[derive(Clone, Copy)]
enum CommandName {
    Version,
    Watch,
    WatchDel,
    WatchList,
    Trigger,
    TriggerList,
    TriggerDel,
    Observe,
    Listing,
    AgeOut,
    Clock,
    Since,
    Query,
    Subscribe,
    Unsubscribe,
}

/// The command of a name.
fn command_of(name: &str) -> Option<CommandName>
    ensures { result ≡ command_of_lem name.now }
{
    match name {
        "version" => Some(CommandName::Version),
        "watch" => Some(CommandName::Watch),
        "watch-del" => Some(CommandName::WatchDel),
        "watch-list" => Some(CommandName::WatchList),
        "trigger" => Some(CommandName::Trigger),
        "trigger-list" => Some(CommandName::TriggerList),
        "trigger-del" => Some(CommandName::TriggerDel),
        "observe" => Some(CommandName::Observe),
        "listing" => Some(CommandName::Listing),
        "age-out" => Some(CommandName::AgeOut),
        "clock" => Some(CommandName::Clock),
        "since" => Some(CommandName::Since),
        "query" => Some(CommandName::Query),
        "subscribe" => Some(CommandName::Subscribe),
        "unsubscribe" => Some(CommandName::Unsubscribe),
        _ => None,
    }
}

/// The command that a JSON value names.
fn command_in(value: &Value) -> Option<CommandName>
    ensures { result ≡ option_and_then command_of_lem (text_at_lem 0 (view value.now)) }
{
    command_of(text_at(value, 0)?)
}

/// The request that a JSON value is: the table of the commands.
#[tactic(auto, unfolding(crate::specs::Lines::request_of))]
pub(crate) fn request_in(alloc: Global, value: &Value) -> Result<Request, Refusal>
    ensures ok { IfOk result (λ r. request_of (view value.now) ≡ Ok r) }
    ensures refused { IfErr result (λ e. e ≢ Refusal.NoMemory → request_of (view value.now) ≡ Err e) }
{
    let Some(command) = command_in(value) else {
        return Err(Refusal::BadCommand);
    };
    match command {
        CommandName::Version => plain(value, Request::Version),
        CommandName::Watch => Ok(Request::Watch(only_root(alloc, value)?)),
        CommandName::WatchDel => Ok(Request::WatchDel(only_root(alloc, value)?)),
        CommandName::WatchList => plain(value, Request::WatchList),
        CommandName::Trigger => trigger(alloc, value),
        CommandName::TriggerList => Ok(Request::TriggerList(only_root(alloc, value)?)),
        CommandName::TriggerDel => trigger_del(alloc, value),
        CommandName::Observe => observe(alloc, value),
        CommandName::Listing => listing(alloc, value),
        CommandName::AgeOut => age_out(alloc, value),
        CommandName::Clock => Ok(Request::Clock(only_root(alloc, value)?)),
        CommandName::Since => since(alloc, value),
        CommandName::Query => query(alloc, value),
        CommandName::Subscribe => subscribe(alloc, value),
        CommandName::Unsubscribe => unsubscribe(alloc, value),
    }
}

impl Request {
    /// The request that a line, with its newline, is. `BadLine` where it is cut, too long or no JSON
    /// text, `BadCommand`, `BadArguments`, `BadPath`, `BadClock`,
    /// `BadExpression`, `BadField` and `BadTrigger` as the commands have it, in this
    /// order; and `NoMemory`.
    pub fn read(alloc: Global, line: &[u8]) -> Result<Request, Refusal>
        ensures ok { IfOk result (λ r. request_of_line line.now ≡ Ok r) }
        ensures refused { IfErr result (λ e. e ≢ Refusal.NoMemory → request_of_line line.now ≡ Err e) }
    {
        let value = text_in(alloc, line)?;
        request_in(alloc, &value)
    }
}
