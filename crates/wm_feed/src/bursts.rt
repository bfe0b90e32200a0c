//! How long a batch is held back before it is sent: a burst of small changes is sent in fewer batches, and so each of them costs the
//! server less. Definitions: specs/Bursts.antt. Tests: feed_tests/src/bursts.rt.

ghost use Rattle.std.specs.Prelude.{◌≡◌};
ghost use Rattle.wm_feed.specs.Bursts.{answered_at, counted_batch, held_back, in_row as in_row_lem, none_in_row};

use crate::batch::Batch;
use std::marker::Model;

/// From which batch in a row on, each sent right behind the other, a batch is held back for so long, in milliseconds.
const MANY_SENT: u32 = 4;

const HELD: u64 = 3;

/// How long behind the last answer a batch may begin that is the next one in the row, in milliseconds.
const NEXT: u64 = 4;

/// How many batches were sent in a row, and when the last of them was answered.
#[derive(Drop)]
pub struct Burst {
    count: u32,
    at: u64,
}

impl Model for Burst {
    ghost use Rattle.wm_feed.specs.Bursts.{SentInRow};

    ghost Value = { SentInRow };

    ghost view = { λ b. record { count = b.count; at = b.at } };
}

impl Burst {
    /// No batch was sent yet.
    pub fn new() -> Burst
        ensures { result ≡ none_in_row }
    {
        Burst { count: 0, at: 0 }
    }

    /// How long a batch is held back from now on, in milliseconds, as the moment is. A client may wait for what is in it.
    pub fn held_back(&self, now: u64, is_awaited: bool, batch: &Batch) -> u64
        ensures { result ≡ held_back now is_awaited batch.now self.now }
    {
        if batch.is_empty() || is_awaited || self.count < MANY_SENT {
            return 0;
        }
        HELD.saturating_sub(now.saturating_sub(self.at))
    }

    /// How many batches are in the row with one that begins now.
    fn next_count(&self, now: u64, is_awaited: bool) -> u32
        ensures { result ≡ in_row_lem now is_awaited self.now }
    {
        if is_awaited || now.saturating_sub(self.at) > NEXT {
            0
        } else if self.count < MANY_SENT {
            self.count + 1
        } else {
            self.count
        }
    }

    /// Counts a batch that is sent now.
    pub fn count(&mut self, now: u64, is_awaited: bool)
        ensures { self.new ≡ counted_batch now is_awaited self.old }
    {
        self.count = self.next_count(now, is_awaited);
    }

    /// Notes when that batch was answered.
    pub fn answer(&mut self, now: u64)
        ensures { self.new ≡ answered_at now self.old }
    {
        self.at = now;
    }
}
