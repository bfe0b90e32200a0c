//! The accept queue: the sessions that were admitted and wait for a connection slot. Never are more there than slots.
//! Definitions: specs/AcceptQueues.antt. Tests: serve_tests/src/sessions.rt.
ghost use Rattle.std.specs.Prelude.{◌≡◌, [], not, ◌==◌, ◌&&◌, Err, OnOk, length, MatchOption};
ghost use Rattle.std.specs.Io.KnownBytes.{Appends};
ghost use Rattle.wm_lines.specs.Replies.{reply_bytes};
ghost use Rattle.wm_serve.specs.AcceptQueues.{IsAdmitted, IsFirstSession, closed_queue, empty_queue, left_queue, opened_queue, turned_away_by};

use crate::socket::admission_lines::send_turned_away;
use std::alloc::Global;
use std::io;
use std::io::Write;
use std::marker::Model;
use wm_disk::Refusal;

/// The sessions that wait for a slot, how many have one, and how many may be there at once.
#[derive(Drop)]
pub struct AcceptQueue<T> {
    waiting: Vec<T>,
    served: u64,
    slots: u64,
    is_closed: bool,
}

impl<T> Model for AcceptQueue<T> {
    ghost use Rattle.std.specs.Prelude.{◌≤◌, ◌+◌, length};
    ghost use Rattle.wm_serve.specs.AcceptQueues.{SessionQueue};

    ghost Value = { SessionQueue T };

    ghost view = { λ q. record { waiting = q.waiting.items; served = q.served; slots = q.slots; is_closed = q.is_closed } };

    ghost invariant = { λ q. length q.waiting.items + q.served ≤ q.slots };
}

/// A session that isn't admitted, since each slot is taken, or else memory ran out. Nobody can drop it: it is used up by being sent why.
pub struct TurnedAway<T> {
    is_full: bool,
    session: T,
}

/// The place of a session that has a slot: the queue alone makes it, and it is given up as the session leaves ([`AcceptQueue::leave`]).
pub struct ServedPlace {
    is_taken: (),
}

impl<T> TurnedAway<T> {
    /// A session of a queue that is full, or else that memory ran out for.
    fn of(is_full: bool, session: T) -> TurnedAway<T>
        ensures { result ≡ record { is_full = is_full; session = session } }
    {
        TurnedAway { is_full, session }
    }

    /// Why.
    pub fn refusal(&self) -> Refusal
        ensures { result ≡ turned_away_by self.now.is_full }
    {
        if self.is_full {
            Refusal::TooMany
        } else {
            Refusal::NoMemory
        }
    }
}

impl<T: Write> TurnedAway<T> {
    /// Sends the session why it isn't admitted, and hands it back to be closed.
    pub fn send(self) -> (T, io::Result<()>)
        ensures { OnOk result.1 (Appends (T.contents self.session) (T.contents result.0) (reply_bytes (Err (turned_away_by self.is_full)))) }
    {
        let TurnedAway {
            is_full,
            mut session,
        } = self;
        let sent = send_turned_away(is_full, &mut session);
        (session, sent)
    }
}

impl<T: Drop> AcceptQueue<T> {
    /// A queue of no slot: nobody is admitted yet.
    pub fn new(alloc: Global) -> AcceptQueue<T>
        ensures { result ≡ empty_queue }
    {
        AcceptQueue {
            waiting: Vec::new(alloc),
            served: 0,
            slots: 0,
            is_closed: false,
        }
    }

    /// So many sessions may be there at once, if no more might already.
    pub fn open(&mut self, slots: u64)
        ensures { self.new ≡ opened_queue slots self.old }
    {
        self.slots = self.slots.max(slots);
    }

    /// Admits a session, behind those that wait. It is turned away exactly if each slot is taken, or memory runs out: nothing changes then.
    pub fn admit(&mut self, session: T) -> Result<(), TurnedAway<T>>
        ensures { IsAdmitted session self.old self.new result }
    {
        if self.waiting.len() as u64 + self.served >= self.slots {
            return Err(TurnedAway::of(true, session));
        }
        if self.waiting.try_reserve(1).is_err() {
            return Err(TurnedAway::of(false, session));
        }
        self.waiting.push_reserved(session);
        Ok(())
    }

    /// Whether a slot has to wait: no session is there for it, and one may still come.
    pub fn must_wait(&self) -> bool
        ensures { result ≡ (length self.now.waiting == 0 && not self.now.is_closed) }
    {
        self.waiting.is_empty() && !self.is_closed
    }

    /// Gives a slot the session that came first, with its place. `None` if none waits.
    pub fn take(&mut self) -> Option<(T, ServedPlace)>
        ensures { MatchOption result ((self.old.waiting ≡ []) × (self.new ≡ self.old)) (λ taken. IsFirstSession taken.0 self.old self.new) }
    {
        if self.waiting.is_empty() {
            return None;
        }
        let session = self.waiting.remove(0);
        self.served += 1;
        Some((session, ServedPlace { is_taken: () }))
    }

    /// A session that had a slot has ended: its place is free.
    pub fn leave(&mut self, place: ServedPlace)
        ensures { self.new ≡ left_queue self.old }
    {
        let ServedPlace { is_taken: () } = place;
        self.served = self.served.saturating_sub(1);
    }

    /// No session comes any longer.
    pub fn close(&mut self)
        ensures { self.new ≡ closed_queue self.old }
    {
        self.is_closed = true;
    }
}
