//! The place of the one who commits.
//! Definitions: specs/CallQueues.antt. Tests: file_tests/src/desk.
ghost use Rattle.std.specs.Prelude.{◌≡◌, ◌≤◌, ◌<◌, ◌⊎◌, [], ◌++◌, length, IfOk, OnErr};
ghost use Rattle.crossbeam_queue.specs.SegTies.{IsSegPassOf};
ghost use Rattle.wm_registry.specs.Limits.{max_batch};
ghost use Rattle.wm_groupcommit.specs.CallQueues.{WasEmpty, call_view};

use super::call_queue::{CallPass, CallQueue, PoppedCalls, new_pass, pop};
use std::alloc::{AllocError, Global};
use std::sync::Wait;

/// The place of the one who commits. The locked desk alone makes it, once.
#[derive(Drop)]
pub struct Flusher {
    pass: CallPass,
}

impl Flusher {
    /// That of a desk with this queue, which has taken nothing.
    pub(super) fn of(queue: &CallQueue) -> Flusher
        ensures { IsSegPassOf queue.now result.pass × (result.pass.me.view.client ≡ call_view [] []) }
    {
        Flusher {
            pass: new_pass(queue),
        }
    }

    /// Takes as many calls from the front of the queue as a batch may have, in one step; none only if none was queued at one moment. An `Err` if
    /// there is no memory for so many, and then nothing was taken.
    pub fn pop<R: Wait>(
        &mut self,
        rt: &R,
        alloc: Global,
        queue: &CallQueue,
    ) -> Result<PoppedCalls, AllocError>
        requires { IsSegPassOf queue.now self.old.pass }
        ensures queue { IsSegPassOf queue.now self.new.pass × (self.new.pass.id ≡ self.old.pass.id) }
        ensures popped { IfOk result (λ p. self.new.pass.me.view.client ≡ call_view self.old.pass.me.view.client.pushed (self.old.pass.me.view.client.popped ++ p.calls.items)) }
        ensures few { IfOk result (λ p. length p.calls.items ≤ max_batch) }
        ensures some { IfOk result (λ p. (0 < length p.calls.items) ⊎ WasEmpty self.old.pass.me.view.client) }
        ensures err { OnErr result (self.new.pass.me.view.client ≡ self.old.pass.me.view.client) }
    {
        pop(rt, alloc, queue, &mut self.pass)
    }
}
