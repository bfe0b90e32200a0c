//! The rule of a seat's reply queue.
//! Definitions: specs/ReplyQueues.antt. Tests: file_tests/src/desk/rows.rt.

use super::shown::Shown;
use crate::history::History;
use crate::queued::{Answer, Call};
use crossbeam_queue::protocol::{Lesson, Outcome, Protocol, Split};
use crossbeam_queue::{Pass, RuledArrayQueue};
use std::collections::LinkedList;
use std::marker::{Brand, PhantomData};
use std::snapshot::Snapshot;
use wm_registry::Registry;

/// An answer, and the book as it was when it was handed over; for a seat that looks at the registry also a copy of that. The counter alone
/// makes it.
#[derive(Drop)]
pub struct Delivery {
    pub(super) answer: Answer,
    pub(super) seen: Snapshot<History>,
    pub(super) registry: Option<Registry>,
}

impl Delivery {
    ghost use Rattle.std.specs.Prelude.{◌≡◌};

    /// The answer.
    pub fn answer(self) -> Answer
        ensures { result ≡ self.answer }
    {
        let Delivery {
            answer,
            seen: _,
            registry: _,
        } = self;
        answer
    }

    /// The registry that is shown, if one is, and after how many commands it stood so: for one that was handed over.
    pub fn into_shown(self, shown: Shown) -> (Option<Registry>, u64)
        ensures { (result.0 ≡ self.registry) × (result.1 ≡ self.answer.at) }
    {
        let Shown { seat: _ } = shown;
        let Delivery {
            answer,
            seen: _,
            registry,
        } = self;
        (registry, answer.at)
    }
}

/// What an end of a reply queue knows: whether it is the flusher's, the number of the seat, the registry that the
/// desk found, the list of accepted commands, the answers that it has taken, and what it has handed over. No value of it is made.
pub struct ReplyView {
    pub writes: bool,
    pub seat: Option<u64>,
    pub base: Option<Registry>,
    pub list: LinkedList<Call>,
    pub got: LinkedList<Answer>,
    pub given: LinkedList<Delivery>,
}

/// Both ends are of one seat, and what is queued answers its calls. The flusher's end knows one list; the seat's has
/// seen a beginning of it, and has answers that are right for that.
pub struct Replies;

impl Protocol<Delivery, ReplyView> for Replies {
    ghost use Rattle.wm_groupcommit.specs.ReplyQueues.{unnamed, Replying};

    ghost holds = { Replying };

    ghost first = { unnamed };
}

/// The number of a seat. The call that makes the two ends picks it.
pub trait Numbered {
    ghost use Rattle.std.specs.Prelude.{ℕ};

    ghost number: { ℕ };
}

impl Numbered for Brand {
    ghost number = { 0 };
}

/// The flusher's end to the seat with this number, and the seat's own; neither knows anything yet.
pub struct Roles<N: Numbered> {
    of: PhantomData<N>,
}

impl<N: Numbered> Split<ReplyView> for Roles<N> {
    ghost use Rattle.wm_groupcommit.specs.ReplyQueues.{end_to, newcomer};

    ghost left = { λ v. end_to N.number };

    ghost right = { λ v. newcomer N.number };
}

/// The flusher's end hands an answer over.
pub struct Gives;

impl Outcome<Delivery, ReplyView> for Gives {
    ghost use Rattle.wm_groupcommit.specs.ReplyQueues.{Gave};

    ghost then = { Gave };
}

/// The flusher's end drops an answer that the seat hasn't taken.
pub struct Drops;

impl Outcome<Delivery, ReplyView> for Drops {
    ghost use Rattle.wm_groupcommit.specs.ReplyQueues.{Dropped};

    ghost then = { Dropped };
}

/// The seat's end takes an answer.
pub struct Gets;

impl Outcome<Delivery, ReplyView> for Gets {
    ghost use Rattle.wm_groupcommit.specs.ReplyQueues.{Took};

    ghost then = { Took };
}

impl Lesson<Delivery, ReplyView> for Gets {
    ghost use Rattle.wm_groupcommit.specs.ReplyQueues.{MayBeHanded};

    ghost fact = { MayBeHanded };
}

/// A reply queue.
pub type ReplyQueue = RuledArrayQueue<Delivery, ReplyView, Replies>;

/// What one end of a reply queue knows of it.
pub type ReplyPass = Pass<Delivery, ReplyView>;
