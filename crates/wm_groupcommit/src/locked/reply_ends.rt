//! The flusher's end of a reply queue, and the seat's, which sleeps while it waits.
//! Definitions: specs/ReplyQueues.antt. Tests: file_tests/src/desk.
ghost use Rattle.std.specs.Prelude.{◌≡◌, Some, IfOk, IfSome, IfNone};
ghost use Rattle.std.specs.Arc.{arc_value};
ghost use Rattle.crossbeam_queue.specs.Passes.{view, IsPassOf};
ghost use Rattle.wm_groupcommit.specs.Books.{IsShownAt, Right};
ghost use Rattle.wm_groupcommit.specs.ReplyQueues.{HadNone, end_to, newcomer, IsLater, base_of, list_of, with_given, Took};

use super::deliveries::{
    Delivery, Drops, Gets, Gives, Numbered, ReplyPass, ReplyQueue, ReplyView, Roles,
};
use std::alloc::{AllocError, Global};
use std::marker::{Brand, Model};
use std::sync::{Arc, Wait};
use std::thread::Parker;

/// The flusher's end. Contracts see what this end knows.
#[derive(Drop)]
pub struct ReplySender {
    queue: Arc<ReplyQueue, Global>,
    pass: ReplyPass,
    // where the seat's thread sleeps
    sleeper: Arc<Parker, Global>,
}

impl Model for ReplySender {
    ghost use Rattle.std.specs.Prelude.{◌≡◌, true};
    ghost use Rattle.std.specs.Arc.{arc_value};
    ghost use Rattle.crossbeam_queue.specs.Passes.{IsPassOf};
    ghost use Rattle.wm_groupcommit.specs.declared.locked.deliveries.ReplyView.{ReplyView};

    ghost Value = { ReplyView };

    ghost view = { λ e. e.pass.me.0.client };

    ghost invariant = { λ e. IsPassOf (arc_value e.queue) e.pass × (e.pass.me.0.client.writes ≡ true) };
}

/// The seat's end. Contracts see what this end knows.
#[derive(Drop)]
pub struct ReplyReceiver {
    queue: Arc<ReplyQueue, Global>,
    pass: ReplyPass,
    sleeper: Arc<Parker, Global>,
}

impl Model for ReplyReceiver {
    ghost use Rattle.std.specs.Arc.{arc_value};
    ghost use Rattle.crossbeam_queue.specs.Passes.{IsPassOf};
    ghost use Rattle.wm_groupcommit.specs.declared.locked.deliveries.ReplyView.{ReplyView};

    ghost Value = { ReplyView };

    ghost view = { λ e. e.pass.me.0.client };

    ghost invariant = { λ e. IsPassOf (arc_value e.queue) e.pass };
}

/// The two ends of a new reply queue, for the seat with this number.
pub(super) fn reply_queue(
    alloc: Global,
    number: u64,
) -> Result<(ReplySender, ReplyReceiver), AllocError>
    ensures { IfOk result (λ r. (r.0 ≡ end_to number) × (r.1 ≡ newcomer number)) }
{
    ends_of::<Brand>(alloc, number)
}

fn ends_of<N: Numbered>(
    alloc: Global,
    _number: u64,
) -> Result<(ReplySender, ReplyReceiver), AllocError>
    requires { _number ≡ N.number }
    ensures { IfOk result (λ r. (r.0 ≡ end_to N.number) × (r.1 ≡ newcomer N.number)) }
{
    let (queue, mut pass) = ReplyQueue::ruled(alloc, 1)?;
    let mine = queue.another::<Roles<N>>(&mut pass);
    let queue = Arc::new(alloc, queue)?;
    let theirs = Arc::try_clone(&queue)?;
    let sleeper = Arc::new(alloc, Parker::new())?;
    let woken = Arc::try_clone(&sleeper)?;
    Ok((
        ReplySender {
            queue,
            pass,
            sleeper: woken,
        },
        ReplyReceiver {
            queue: theirs,
            pass: mine,
            sleeper,
        },
    ))
}

impl ReplySender {
    /// Hands an answer to a call of the seat over, and wakes the seat's thread. An earlier answer that the seat hasn't taken is dropped for it; a
    /// seat waits for each of its answers, so no run has one.
    pub(super) fn hand<R: Wait>(&mut self, rt: &R, delivery: Delivery)
        requires later { IsLater self.old (base_of delivery) (list_of delivery) }
        requires right { Right delivery.seen.value.base (list_of delivery) delivery.answer }
        requires own { self.old.seat ≡ Some delivery.answer.call.seat }
        requires shown { IsShownAt delivery.seen.value.base (list_of delivery) delivery.answer.at delivery.registry }
        ensures { self.new ≡ with_given self.old delivery }
    {
        let queue: &ReplyQueue = &self.queue;
        let untaken = queue.force_push_as::<Gives, Drops, R>(rt, &mut self.pass, delivery);
        drop(untaken);
        self.sleeper.unpark();
    }
}

impl ReplyReceiver {
    /// Takes an answer; none only if none was there at one moment.
    pub fn take<R: Wait>(&mut self, rt: &R) -> Option<Delivery>
        ensures some { IfSome result (λ x. Took self.old x self.new) }
        ensures none { IfNone result (self.new ≡ self.old) }
        ensures empty { IfNone result (HadNone self.old) }
    {
        let queue: &ReplyQueue = &self.queue;
        queue.pop_as::<Gets, R>(rt, &mut self.pass)
    }

    /// Sleeps until an answer was handed over since the last sleep.
    pub fn sleep<R: Wait>(&self, rt: &R) {
        self.sleeper.park(rt);
    }
}
