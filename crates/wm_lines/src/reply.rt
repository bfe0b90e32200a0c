//! The bytes of each reply, a line of JSON with its newline. Their definitions are in specs/Replies.
//! Tests: session_tests/src/lines.
ghost use Rattle.std.specs.Prelude.{◌≡◌, ◌++◌, ◌+◌, ◌≤◌, codes, false, map, option_map, vec_len, vec_capacity, IfOk, OnOk, OnErr, take};
ghost use Rattle.serde_json.specs.Written.{has_float};
ghost use Rattle.serde_json.specs.View.{items_of, items_view, members_view, view};
ghost use Rattle.wm_lines.specs.AnswerTexts.{answer_head, answer_tail, answer_text};
ghost use Rattle.wm_lines.specs.Replies.{clock_reply, command_reply, disposition_of, floor_reply, line_text, operation_reply, paths_of, refusal_reply, roots_reply, query_reply, stdin_text, trigger_data, trigger_del_reply, trigger_reply, triggers_reply, version_reply, watch_del_reply, watch_reply, with_some};
ghost use Rattle.serde_json.specs.Data.{number, string, unsigned};
ghost use Rattle.wm_lines.specs.KeptExpressions.{expression_shown as expression_shown_lem};

mod subscriptions;

use crate::kept_expression::expression_in;
use crate::progress::Progress;
use indexmap::IndexMap;
use serde_json::{Map, Value, json};
use std::alloc::{AllocError, Global};
pub use subscriptions::{put_due, put_unsubscribe, subscribe_line};
use wm_clock::{ClockId, put_number};
use wm_disk::{NoMemory, Refusal};
use wm_names::RootPath;
use wm_protocol::VERSION;
use wm_registry::{Command, Reply, Root, Stdin, Trigger, Word};
use wm_since::{Answer, Fields, render};
use wm_view::Op;

/// The most bytes of a refusal's line.
pub const REFUSAL_ROOM: usize = 64;

/// Appends the line of a refusal, for which there is room: [`REFUSAL_ROOM`] bytes are enough for each.
pub fn put_refusal(refusal: Refusal, out: &mut Vec<u8>)
    requires { vec_len out.old + REFUSAL_ROOM ≤ vec_capacity out.old }
    ensures { out.new.items ≡ out.old.items ++ line_text (refusal_reply refusal) }
{
    out.extend_from_slice(b"{\"error\":\"").unwrap();
    out.extend_from_slice(refusal.text().as_bytes()).unwrap();
    out.extend_from_slice(b"\",\"version\":\"w1\"}\n").unwrap();
}

/// The line of a reply, with its newline.
#[tactic(auto, unfolding(crate::specs::Replies::line_text))]
fn line_of(alloc: Global, value: &Value) -> Result<Vec<u8>, NoMemory>
    requires { has_float (view value.now) ≡ false }
    ensures { IfOk result (λ line. line.items ≡ line_text (view value.now)) }
{
    let mut line = value.to_vec(alloc)?;
    line.push(b'\n')?;
    Ok(line)
}

/// Appends a reply and a newline. Where memory runs out the bytes stay as they were.
fn put_line(alloc: Global, value: &Value, out: &mut Vec<u8>) -> Result<(), NoMemory>
    requires { has_float (view value.now) ≡ false }
    ensures ok { OnOk result (out.new.items ≡ out.old.items ++ line_text (view value.now)) }
    ensures err { OnErr result (out.new.items ≡ out.old.items) }
    ensures room { vec_capacity out.old ≤ vec_capacity out.new }
{
    let line = line_of(alloc, value)?;
    out.extend_from_slice(&line)?;
    Ok(())
}

/// The most bytes of the line of a clock or a floor.
pub const PROGRESS_ROOM: usize = 96;

/// Appends the line of a clock, for which there is room: [`PROGRESS_ROOM`] bytes are enough for each.
pub fn put_clock(clock: ClockId, out: &mut Vec<u8>)
    requires { vec_len out.old + PROGRESS_ROOM ≤ vec_capacity out.old }
    ensures value { out.new.items ≡ out.old.items ++ line_text (clock_reply clock) }
    ensures room { vec_capacity out.old ≤ vec_capacity out.new }
{
    out.extend_from_slice(b"{\"clock\":\"").unwrap();
    clock.put(out);
    out.extend_from_slice(b"\",\"version\":\"w1\"}\n").unwrap();
}

/// Appends the line of a floor, for which there is room.
pub fn put_floor(floor: u64, out: &mut Vec<u8>)
    requires { vec_len out.old + PROGRESS_ROOM ≤ vec_capacity out.old }
    ensures value { out.new.items ≡ out.old.items ++ line_text (floor_reply floor) }
    ensures room { vec_capacity out.old ≤ vec_capacity out.new }
{
    out.extend_from_slice(b"{\"floor\":").unwrap();
    put_number(floor, out);
    out.extend_from_slice(b",\"version\":\"w1\"}\n").unwrap();
}

/// Appends the line that tells where a view stands after an operation, for which there is room: an
/// age-out tells its floor, the others its clock. [`PROGRESS_ROOM`] bytes are enough for each.
pub fn put_progress(op: &Op, progress: Progress, out: &mut Vec<u8>)
    requires { vec_len out.old + PROGRESS_ROOM ≤ vec_capacity out.old }
    ensures value { out.new.items ≡ out.old.items ++ line_text (operation_reply op.now progress) }
    ensures room { vec_capacity out.old ≤ vec_capacity out.new }
{
    match op {
        Op::Observe(_, _) | Op::Recrawl(_, _, _) => put_clock(progress.clock, out),
        Op::AgeOut(_, _) => put_floor(progress.floor, out),
    }
}

fn version(alloc: Global) -> Result<Value, AllocError>
    ensures { IfOk result (λ v. view v ≡ version_reply) }
{
    json!(in alloc; {"version": VERSION})
}

/// Appends the reply to `version`. An `Err` means that memory ran out; nothing is appended then.
pub fn put_version(alloc: Global, out: &mut Vec<u8>) -> Result<(), NoMemory>
    ensures ok { OnOk result (out.new.items ≡ out.old.items ++ line_text version_reply) }
    ensures err { OnErr result (out.new.items ≡ out.old.items) }
    ensures room { vec_capacity out.old ≤ vec_capacity out.new }
{
    put_line(alloc, &version(alloc)?, out)
}

fn watch(alloc: Global, path: &str) -> Result<Value, AllocError>
    ensures { IfOk result (λ v. view v ≡ watch_reply path.now) }
{
    json!(in alloc; {"version": VERSION, "watch": path})
}

fn watch_del(alloc: Global, path: &str) -> Result<Value, AllocError>
    ensures { IfOk result (λ v. view v ≡ watch_del_reply path.now) }
{
    json!(in alloc; {"root": path, "version": VERSION, "watch-del": true})
}

fn trigger(alloc: Global, reply: Reply, name: &str) -> Result<Value, AllocError>
    ensures { IfOk result (λ v. view v ≡ trigger_reply (disposition_of reply) name.now) }
{
    let disposition = match reply {
        Reply::Changed => "created",
        Reply::Replaced => "replaced",
        Reply::Unchanged | Reply::Refused(_) => "already_defined",
    };
    json!(in alloc; {"disposition": disposition, "triggerid": name, "version": VERSION})
}

fn trigger_del(alloc: Global, is_deleted: bool, name: &str) -> Result<Value, AllocError>
    ensures { IfOk result (λ v. view v ≡ trigger_del_reply is_deleted name.now) }
{
    json!(in alloc; {"deleted": is_deleted, "trigger": name, "version": VERSION})
}

/// The reply to a command that met this reply of the registry.
fn command(alloc: Global, command: &Command, reply: Reply) -> Result<Value, AllocError>
    ensures { IfOk result (λ v. view v ≡ command_reply command.now reply) }
{
    match command {
        Command::Begin => version(alloc),
        Command::Watch(path) => watch(alloc, path.as_str()),
        Command::WatchDel(path) => watch_del(alloc, path.as_str()),
        Command::Trigger(_, definition) => trigger(alloc, reply, definition.name()),
        Command::TriggerDel(_, name) => trigger_del(alloc, reply.is_change(), name.as_str()),
    }
}

/// The line for a command that met this reply of the registry. A refusal is told by [`put_refusal`]. An
/// `Err` means that memory ran out.
pub fn line_to(alloc: Global, to: &Command, reply: Reply) -> Result<Vec<u8>, NoMemory>
    ensures { IfOk result (λ line. line.items ≡ line_text (command_reply to.now reply)) }
{
    let value = command(alloc, to, reply)?;
    line_of(alloc, &value)
}

/// The lines that an accepted command may be answered with, as a change, a replacement and no change, and room for each.
/// An `Err` means that memory ran out.
pub fn lines_to(
    alloc: Global,
    command: &Command,
    out: &mut Vec<u8>,
) -> Result<(Vec<u8>, Vec<u8>, Vec<u8>), NoMemory>
    ensures changed { IfOk result (λ lines. (lines.0.items ≡ line_text (command_reply command.now Reply.Changed)) × (vec_len out.new + vec_len lines.0 ≤ vec_capacity out.new)) }
    ensures replaced { IfOk result (λ lines. (lines.1.items ≡ line_text (command_reply command.now Reply.Replaced)) × (vec_len out.new + vec_len lines.1 ≤ vec_capacity out.new)) }
    ensures unchanged { IfOk result (λ lines. (lines.2.items ≡ line_text (command_reply command.now Reply.Unchanged)) × (vec_len out.new + vec_len lines.2 ≤ vec_capacity out.new)) }
    ensures items { out.new.items ≡ out.old.items }
    ensures room { vec_capacity out.old ≤ vec_capacity out.new }
{
    let changed = line_to(alloc, command, Reply::Changed)?;
    let replaced = line_to(alloc, command, Reply::Replaced)?;
    let unchanged = line_to(alloc, command, Reply::Unchanged)?;
    out.try_reserve(changed.len().max(replaced.len()).max(unchanged.len()))?;
    Ok((changed, replaced, unchanged))
}

fn word_list(alloc: Global, words: &[Word]) -> Result<Vec<Value>, AllocError>
    ensures { IfOk result (λ v. items_view v.items ≡ items_of (map (λ word. string word) words.now)) }
{
    let mut list = Vec::with_capacity(alloc, words.len())?;
    for word in words {
        list.push(Value::try_from_str(alloc, word.as_str())?)?;
    }
    Ok(list)
}

/// The text of an expression as JSON; a text that is none stays a text.
fn expression_shown(alloc: Global, text: &str) -> Result<Value, NoMemory>
    ensures { IfOk result (λ v. view v ≡ expression_shown_lem text.now) }
{
    match expression_in(alloc, text)? {
        Some(value) => Ok(value),
        None => Ok(Value::try_from_str(alloc, text)?),
    }
}

/// What a program reads, as a trigger names it.
fn stdin_shown(trigger: &Trigger) -> &'static str
    ensures { result.now ≡ stdin_text trigger.now.stdin }
{
    match trigger.stdin() {
        Stdin::DevNull => "/dev/null",
        Stdin::NamePerLine => "NAME_PER_LINE",
    }
}

/// The expression of a trigger, if it has one.
fn expression_of(alloc: Global, trigger: &Trigger) -> Result<Option<Value>, NoMemory>
    ensures { IfOk result (λ v. option_map view v ≡ option_map expression_shown_lem trigger.now.expression) }
{
    match trigger.expression() {
        Some(text) => Ok(Some(expression_shown(alloc, text)?)),
        None => Ok(None),
    }
}

/// The most names that a trigger's program reads, if there is such a number.
fn file_count_of(trigger: &Trigger) -> Option<Value>
    ensures { option_map view result ≡ option_map (λ n. number (unsigned n)) trigger.now.max_files_stdin }
{
    match trigger.max_files_stdin() {
        Some(count) => Some(Value::from(count)),
        None => None,
    }
}

/// Puts a value under a key, if there is one.
fn put_some(
    alloc: Global,
    members: &mut Map<String, Value>,
    key: &str,
    value: Option<Value>,
) -> Result<(), AllocError>
    ensures { OnOk result (members_view members.new.entries ≡ with_some key.now (option_map view value) (members_view members.old.entries)) }
{
    match value {
        Some(value) => serde_json::put(members, alloc, key, value),
        None => Ok(()),
    }
}

fn trigger_shown(alloc: Global, trigger: &Trigger) -> Result<Value, NoMemory>
    ensures { IfOk result (λ v. view v ≡ trigger_data trigger.now) }
{
    let append_files = Value::from(trigger.append_files());
    let words = Value::Array(word_list(alloc, trigger.command())?);
    let expression = expression_of(alloc, trigger)?;
    let name = Value::try_from_str(alloc, trigger.name())?;
    let stdin = Value::try_from_str(alloc, stdin_shown(trigger))?;
    let mut members = Map::new(alloc);
    serde_json::put(&mut members, alloc, "append_files", append_files)?;
    serde_json::put(&mut members, alloc, "command", words)?;
    put_some(alloc, &mut members, "expression", expression)?;
    put_some(
        alloc,
        &mut members,
        "max_files_stdin",
        file_count_of(trigger),
    )?;
    serde_json::put(&mut members, alloc, "name", name)?;
    serde_json::put(&mut members, alloc, "stdin", stdin)?;
    Ok(Value::Object(members))
}

fn triggers_shown(alloc: Global, triggers: &[Trigger]) -> Result<Vec<Value>, NoMemory>
    ensures { IfOk result (λ v. items_view v.items ≡ items_of (map trigger_data triggers.now)) }
{
    let mut list = Vec::with_capacity(alloc, triggers.len())?;
    for trigger in triggers {
        list.push(trigger_shown(alloc, trigger)?)?;
    }
    Ok(list)
}

fn trigger_list(alloc: Global, triggers: &[Trigger]) -> Result<Value, NoMemory>
    ensures { IfOk result (λ v. view v ≡ triggers_reply triggers.now) }
{
    let list = Value::Array(triggers_shown(alloc, triggers)?);
    Ok(json!(in alloc; {"triggers": list, "version": VERSION})?)
}

/// Appends the reply to `trigger-list`. An `Err` means that memory ran out; nothing is appended then.
pub fn put_triggers(alloc: Global, triggers: &[Trigger], out: &mut Vec<u8>) -> Result<(), NoMemory>
    ensures ok { OnOk result (out.new.items ≡ out.old.items ++ line_text (triggers_reply triggers.now)) }
    ensures err { OnErr result (out.new.items ≡ out.old.items) }
    ensures room { vec_capacity out.old ≤ vec_capacity out.new }
{
    put_line(alloc, &trigger_list(alloc, triggers)?, out)
}

fn paths(alloc: Global, roots: &IndexMap<RootPath, Root>) -> Result<Vec<Value>, AllocError>
    ensures { IfOk result (λ v. items_view v.items ≡ items_of (paths_of roots.now.entries)) }
{
    let mut list = Vec::with_capacity(alloc, roots.len())?;
    for path in roots.keys() {
        list.push(Value::try_from_str(alloc, path.as_str())?)?;
    }
    Ok(list)
}

fn watch_list(alloc: Global, roots: &IndexMap<RootPath, Root>) -> Result<Value, AllocError>
    ensures { IfOk result (λ v. view v ≡ roots_reply roots.now.entries) }
{
    let list = Value::Array(paths(alloc, roots)?);
    json!(in alloc; {"roots": list, "version": VERSION})
}

/// Appends the reply to `watch-list`. An `Err` means that memory ran out; nothing is appended then.
pub fn put_watch_list(
    alloc: Global,
    roots: &IndexMap<RootPath, Root>,
    out: &mut Vec<u8>,
) -> Result<(), NoMemory>
    ensures ok { OnOk result (out.new.items ≡ out.old.items ++ line_text (roots_reply roots.now.entries)) }
    ensures err { OnErr result (out.new.items ≡ out.old.items) }
    ensures room { vec_capacity out.old ≤ vec_capacity out.new }
{
    put_line(alloc, &watch_list(alloc, roots)?, out)
}

/// The most bytes of a question's reply before its files.
const HEAD_ROOM: usize = 96;

/// Appends the first part of a question's reply, up to its files, for which there is room.
fn put_head(clock: ClockId, out: &mut Vec<u8>)
    requires { vec_len out.old + HEAD_ROOM ≤ vec_capacity out.old }
    ensures value { out.new.items ≡ out.old.items ++ answer_head clock }
    ensures room { vec_capacity out.old ≤ vec_capacity out.new }
{
    out.extend_from_slice(b"{\"clock\":\"").unwrap();
    clock.put(out);
    out.extend_from_slice(b"\",\"files\":").unwrap();
}

/// The rest of a question's reply, after its files.
fn tail(is_fresh: bool) -> &'static [u8]
    ensures { result.now ≡ answer_tail is_fresh }
{
    if is_fresh {
        b",\"is_fresh_instance\":true,\"version\":\"w1\"}\n"
    } else {
        b",\"is_fresh_instance\":false,\"version\":\"w1\"}\n"
    }
}

/// Appends the parts of a question's reply. A failure may leave some of them.
fn put_parts(
    alloc: Global,
    answer: &Answer,
    fields: &Fields,
    out: &mut Vec<u8>,
) -> Result<(), NoMemory>
    ensures ok { OnOk result (out.new.items ≡ out.old.items ++ answer_text fields.now answer.now) }
    ensures err { OnErr result (take (vec_len out.old) out.new.items ≡ out.old.items) }
    ensures room { vec_capacity out.old ≤ vec_capacity out.new }
{
    out.reserve(HEAD_ROOM)?;
    put_head(answer.clock, out);
    render(alloc, answer, fields, out)?;
    out.extend_from_slice(tail(answer.fresh))?;
    Ok(())
}

/// Appends the reply to `query` and `since`. An `Err` means that memory ran out; nothing is appended then.
#[tactic(auto, using(crate::proofs::ReplyTexts::answer_line))]
pub fn put_answer(
    alloc: Global,
    answer: &Answer,
    fields: &Fields,
    out: &mut Vec<u8>,
) -> Result<(), NoMemory>
    ensures ok { OnOk result (out.new.items ≡ out.old.items ++ line_text (query_reply fields.now answer.now)) }
    ensures err { OnErr result (out.new.items ≡ out.old.items) }
    ensures room { vec_capacity out.old ≤ vec_capacity out.new }
{
    let len = out.len();
    let done = put_parts(alloc, answer, fields, out);
    if done.is_err() {
        out.truncate(len);
    }
    done
}
