//! The replies about subscriptions, and the line that is told unasked. Their definitions are in
//! specs/Replies. Tests: session_tests/src/lines/subscriptions.rt.
ghost use Rattle.std.specs.Prelude.{◌≡◌, ◌++◌, ◌+◌, ◌≤◌, take, vec_len, vec_capacity, IfOk, OnOk, OnErr};
ghost use Rattle.serde_json.specs.Data.{string};
ghost use Rattle.serde_json.specs.Written.{compact_text};
ghost use Rattle.serde_json.specs.View.{view};
ghost use Rattle.wm_lines.specs.AnswerTexts.{due_middle, due_tail, due_text};
ghost use Rattle.wm_lines.specs.Replies.{due_data, line_text, subscribe_reply, unsubscribe_reply};

use crate::expression::Expression;
use crate::reply::{HEAD_ROOM, line_of, put_head, put_line};
use serde_json::{Value, json};
use std::alloc::{AllocError, Global};
use wm_clock::ClockId;
use wm_disk::NoMemory;
use wm_protocol::VERSION;
use wm_since::{Answer, render};
use wm_subs::{Subscribed, SubscriptionName};

fn subscribe(alloc: Global, clock: ClockId, name: &str) -> Result<Value, NoMemory>
    ensures { IfOk result (λ v. view v ≡ subscribe_reply clock name.now) }
{
    let clock = clock.text(alloc)?;
    let clock = clock.as_str();
    Ok(json!(in alloc; {"clock": clock, "subscribe": name, "version": VERSION})?)
}

/// The line that `subscribe` is answered with, with the clock at which the view stands, and room for it. An `Err` means
/// that memory ran out.
pub fn subscribe_line(
    alloc: Global,
    clock: ClockId,
    name: &SubscriptionName,
    out: &mut Vec<u8>,
) -> Result<Vec<u8>, NoMemory>
    ensures line { IfOk result (λ line. line.items ≡ line_text (subscribe_reply clock name.now)) }
    ensures fits { IfOk result (λ line. vec_len out.new + vec_len line ≤ vec_capacity out.new) }
    ensures items { out.new.items ≡ out.old.items }
    ensures room { vec_capacity out.old ≤ vec_capacity out.new }
{
    let value = subscribe(alloc, clock, name.as_str())?;
    let line = line_of(alloc, &value)?;
    out.try_reserve(line.len())?;
    Ok(line)
}

fn unsubscribe(alloc: Global, is_deleted: bool, name: &str) -> Result<Value, AllocError>
    ensures { IfOk result (λ v. view v ≡ unsubscribe_reply is_deleted name.now) }
{
    json!(in alloc; {"deleted": is_deleted, "unsubscribe": name, "version": VERSION})
}

/// Appends the reply to `unsubscribe`. An `Err` means that memory ran out; nothing is appended then.
pub fn put_unsubscribe(
    alloc: Global,
    is_deleted: bool,
    name: &SubscriptionName,
    out: &mut Vec<u8>,
) -> Result<(), NoMemory>
    ensures ok { OnOk result (out.new.items ≡ out.old.items ++ line_text (unsubscribe_reply is_deleted name.now)) }
    ensures err { OnErr result (out.new.items ≡ out.old.items) }
    ensures room { vec_capacity out.old ≤ vec_capacity out.new }
{
    put_line(alloc, &unsubscribe(alloc, is_deleted, name.as_str())?, out)
}

/// Appends a text as JSON. Where memory runs out the bytes stay as they were.
fn put_text(alloc: Global, text: &str, out: &mut Vec<u8>) -> Result<(), NoMemory>
    ensures ok { OnOk result (out.new.items ≡ out.old.items ++ compact_text (string text.now)) }
    ensures err { OnErr result (out.new.items ≡ out.old.items) }
    ensures room { vec_capacity out.old ≤ vec_capacity out.new }
{
    let text = Value::try_from_str(alloc, text)?.to_vec(alloc)?;
    out.extend_from_slice(&text)?;
    Ok(())
}

/// What stands between the files and the root.
fn middle(is_fresh: bool) -> &'static [u8]
    ensures { result.now ≡ due_middle is_fresh }
{
    if is_fresh {
        b",\"is_fresh_instance\":true,\"root\":"
    } else {
        b",\"is_fresh_instance\":false,\"root\":"
    }
}

/// Makes what stands behind the files, with the newline.
fn tail(alloc: Global, is_fresh: bool, root: &str, name: &str) -> Result<Vec<u8>, NoMemory>
    ensures { IfOk result (λ t. t.items ≡ due_tail is_fresh root.now name.now) }
{
    let mut text = Vec::new(alloc);
    text.extend_from_slice(middle(is_fresh))?;
    put_text(alloc, root, &mut text)?;
    text.extend_from_slice(b",\"subscription\":")?;
    put_text(alloc, name, &mut text)?;
    text.extend_from_slice(b",\"unilateral\":true,\"version\":\"w1\"}\n")?;
    Ok(text)
}

/// Appends the parts of a line that is told unasked. A failure may leave some of them.
fn put_parts(
    alloc: Global,
    subscribed: &Subscribed<Expression>,
    answer: &Answer,
    out: &mut Vec<u8>,
) -> Result<(), NoMemory>
    ensures ok { OnOk result (out.new.items ≡ out.old.items ++ due_text subscribed.now answer.now) }
    ensures err { OnErr result (take (vec_len out.old) out.new.items ≡ out.old.items) }
    ensures room { vec_capacity out.old ≤ vec_capacity out.new }
{
    let name = subscribed.subscription.name();
    let tail = tail(alloc, answer.fresh, subscribed.root.as_str(), name.as_str())?;
    out.reserve(HEAD_ROOM)?;
    put_head(answer.clock, out);
    render(alloc, answer, &subscribed.fields, out)?;
    out.extend_from_slice(&tail)?;
    Ok(())
}

/// Appends the line that tells a subscription an answer. An `Err` means that memory ran out; nothing
/// is appended then.
#[tactic(auto, using(crate::proofs::ReplyTexts::due_line))]
pub fn put_due(
    alloc: Global,
    subscribed: &Subscribed<Expression>,
    answer: &Answer,
    out: &mut Vec<u8>,
) -> Result<(), NoMemory>
    ensures ok { OnOk result (out.new.items ≡ out.old.items ++ line_text (due_data subscribed.now answer.now)) }
    ensures err { OnErr result (out.new.items ≡ out.old.items) }
    ensures room { vec_capacity out.old ≤ vec_capacity out.new }
{
    let len = out.len();
    let done = put_parts(alloc, subscribed, answer, out);
    if done.is_err() {
        out.truncate(len);
    }
    done
}
