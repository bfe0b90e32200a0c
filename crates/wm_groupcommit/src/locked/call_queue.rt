//! The queue in which the seats put their calls and from which the flusher takes them.
//! Definitions: specs/CallQueues.antt. Tests: file_tests/src/desk/rows.rt.
ghost use Rattle.std.specs.Prelude.{◌≡◌, ◌≤◌, ◌<◌, ◌⊎◌, List, [], ◌∷◌, ◌++◌, length, vec_capacity, IfOk, IsTrue, OnErr, MatchResult};
ghost use Rattle.crossbeam_queue.specs.SegTies.{IsSegPassOf};
ghost use Rattle.crossbeam_queue.specs.SegBatches.{Holds};
ghost use Rattle.wm_registry.specs.Limits.{max_batch};
ghost use Rattle.wm_groupcommit.specs.CallQueues.{WasEmpty, call_view};

use super::call_rule::{CallView, Merges, Puts, Takes};
use crate::queued::Call;
use crossbeam_queue::{RuledSegQueue, SegBatch, SegPass};
use std::alloc::{AllocError, Global};
use std::sync::Wait;
use std::thread;
use wm_registry::MAX_BATCH;

/// The queue.
pub type CallQueue = RuledSegQueue<Call, CallView, Merges>;

/// What one seat, or the flusher, knows of it.
pub type CallPass = SegPass<Call, CallView>;

/// Calls that one step has taken from the queue. Only `pop` makes it, and it is given up as they are answered.
pub struct PoppedCalls {
    calls: Vec<Call>,
}

impl PoppedCalls {
    pub(super) fn calls(self) -> Vec<Call>
        ensures { result.items ≡ self.calls.items }
    {
        let PoppedCalls { calls } = self;
        calls
    }
}

/// A new place, which has put and taken nothing.
pub fn new_pass(queue: &CallQueue) -> CallPass
    ensures { IsSegPassOf queue.now result × (result.me.view.client ≡ call_view [] []) }
{
    queue.pass()
}

/// Whether no call was in it at one moment.
pub fn is_empty(queue: &CallQueue) -> bool
    ensures { IsTrue result → WasEmpty (call_view [] []) }
{
    let mut pass = new_pass(queue);
    queue.is_empty_as::<Takes>(&mut pass)
}

/// Puts a call at the back. It comes back where the queue finds no room for it.
pub fn push<R: Wait>(rt: &R, queue: &CallQueue, pass: &mut CallPass, call: Call) -> Result<(), Call>
    requires { IsSegPassOf queue.now pass.old }
    ensures queue { IsSegPassOf queue.now pass.new × (pass.new.id ≡ pass.old.id) }
    ensures pushed { MatchResult result (λ _. pass.new.me.view.client ≡ call_view (pass.old.me.view.client.pushed ++ call ∷ []) pass.old.me.view.client.popped) (λ x. (x ≡ call) × (pass.new.me.view.client ≡ pass.old.me.view.client)) }
{
    queue.push_as::<Puts, R>(rt, pass, call)
}

/// Takes as many calls from the front as a batch may have, in one step; none only if none was queued at one moment. An `Err` if there is no
/// memory for so many, and then nothing was taken.
pub fn pop<R: Wait>(
    rt: &R,
    alloc: Global,
    queue: &CallQueue,
    pass: &mut CallPass,
) -> Result<PoppedCalls, AllocError>
    requires { IsSegPassOf queue.now pass.old }
    ensures queue { IsSegPassOf queue.now pass.new × (pass.new.id ≡ pass.old.id) }
    ensures popped { IfOk result (λ p. pass.new.me.view.client ≡ call_view pass.old.me.view.client.pushed (pass.old.me.view.client.popped ++ p.calls.items)) }
    ensures few { IfOk result (λ p. length p.calls.items ≤ max_batch) }
    ensures some { IfOk result (λ p. (0 < length p.calls.items) ⊎ WasEmpty pass.old.me.view.client) }
    ensures err { OnErr result (pass.new.me.view.client ≡ pass.old.me.view.client) }
{
    let mut calls = Vec::with_capacity(alloc, MAX_BATCH)?;
    for _ in rt.forever() {
        let head = queue.head(pass);
        match queue.try_pop_batch::<Takes, R>(rt, pass, head, MAX_BATCH as u64) {
            Ok(Some(batch)) => {
                move_out(rt, queue, pass, batch, &mut calls);
                return Ok(PoppedCalls { calls });
            }
            Ok(None) => return Ok(PoppedCalls { calls }),
            Err(()) => thread::yield_now(),
        }
    }
    unreachable!()
}

// Moves the calls of the batch out.
fn move_out<R: Wait>(
    rt: &R,
    queue: &CallQueue,
    pass: &mut CallPass,
    mut batch: SegBatch<Call, CallView, Global>,
    calls: &mut Vec<Call>,
)
    requires pass { IsSegPassOf queue.now pass.old }
    requires batch { (batch.len ≤ max_batch) × ((xs : List Call) × Holds queue.now pass.old batch xs) }
    requires room { (calls.old.items ≡ []) × (max_batch ≤ vec_capacity calls.old) }
    ensures same { IsSegPassOf queue.now pass.new × (pass.new.id ≡ pass.old.id) × (pass.new.me.view.client ≡ pass.old.me.view.client) }
    ensures moved { (xs : List Call) → Holds queue.now pass.old batch xs → calls.new.items ≡ xs }
{
    let count = batch.len();
    for _i in 0..count {
        let call = queue.next_of(rt, pass, &mut batch);
        calls.push_reserved(call);
    }
    batch.finish();
}
