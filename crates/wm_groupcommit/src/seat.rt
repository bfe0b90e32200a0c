//! A seat, from which one thread submits, and what it makes of an answer.
//! Definitions: specs/Seats.antt, specs/Submits.antt. Tests: file_tests/src/desk.
ghost use Rattle.std.specs.Prelude.{◌≡◌, ◌<◌, Some, IfOk, IfErr};
ghost use Rattle.wm_groupcommit.specs.Books.{Right};
ghost use Rattle.wm_groupcommit.specs.Receipts.{mark_of, shown};
ghost use Rattle.wm_groupcommit.specs.Submits.{Settled, Declined};
ghost use Rattle.wm_registry.specs.Roots.{State};

use crate::locked::{CallPass, ReplyReceiver};
use crate::queued::{Answer, Call};
use crate::receipt::{Receipt, Standing};
use crate::same_commands::is_same_call;
use wm_disk::Refusal;
use wm_registry::Reply;

/// A place from which one thread submits.
#[derive(Drop)]
pub struct Seat {
    pub(crate) number: u64,
    // how many calls it has put into the queue
    pub(crate) calls: u64,
    // how many accepted commands it has seen or learnt of
    pub(crate) seen: u64,
    pub(crate) pass: CallPass,
    pub(crate) replies: ReplyReceiver,
    // its answers come to it alone
    ghost own: { replies.seat ≡ Some number },
}

/// How many accepted commands the standing tells of.
fn mark(standing: &Standing) -> u64
    ensures { result ≡ mark_of standing.now }
{
    match standing {
        Standing::Stands { number, .. } => number.get(),
        Standing::Unchanged { after } => *after,
    }
}

/// What a seat that has seen or learnt of so many commands makes of an answer to its call.
pub(crate) fn settle(
    seen: &mut u64,
    replies: &ReplyReceiver,
    call: Call,
    answer: Answer,
) -> Result<(Reply, Receipt), Refusal>
    requires right { (base : State) × Right base replies.now.list answer }
    ensures ok { IfOk result (λ r. Settled seen.old seen.new replies.now.list call answer r.0 r.1) }
    ensures err { IfErr result (λ e. (seen.new ≡ seen.old) × Declined seen.old call answer e) }
{
    let at = answer.at;
    let reply = answer.reply;
    if !is_same_call(&answer.call, &call) || at < *seen || at == u64::MAX {
        return Err(Refusal::StoreFailed);
    }
    if let Reply::Refused(refusal) = reply {
        return Err(refusal);
    }
    let receipt = Receipt::new(call, at, reply, replies);
    *seen = mark(receipt.standing());
    Ok((reply, receipt))
}

impl Seat {
    ghost use Rattle.wm_groupcommit.specs.Seats.{HasLearnt};

    /// From now on this seat is told of no fewer commands than the receipt, which is of the same desk, tells of.
    pub fn learn(&mut self, receipt: &Receipt)
        ensures { HasLearnt self.old self.new (mark_of (shown receipt.now)) }
    {
        let mark = mark(receipt.standing());
        if mark > self.seen {
            self.seen = mark;
        }
    }
}
