//! A connection slot: the session that two threads share, one of its lines and one of the lines that are due to it.
//! Definitions: specs/SlotLines.antt. Tests: serve_tests/src/sessions.rt.
ghost use Rattle.std.specs.Prelude.{◌≡◌, None, MatchOption, OnOk};
ghost use Rattle.std.specs.Io.KnownBytes.{Appends};
ghost use Rattle.wm_serve.specs.SentLines.{sent_alone};
ghost use Rattle.wm_serve.specs.SlotLines.{AnswersInSlot, SendsDueInSlot};
ghost use Rattle.wm_workers.specs.SubscribedRoots.{AddsBitsOf};

use crate::slots::connection::{ClientEnd, Connection, HalfSent};
use crate::slots::lines::{UnansweredLine, UnsentReply};
use std::alloc::Global;
use std::io::Write;
use std::sync::{Mutex, Wait};
use std::time::Clock;
use std::{io, mem};
use wm_front::{SharedFront, drop_ended};
use wm_log::What;
use wm_root::{Seconds, WatchedRoot};
use wm_session::Front;
use wm_share::Naming;
use wm_workers::{ServerDesk, ServerRoots, took_too_long};

/// The front of a session of a server.
pub type ServerFront<'a, T, J, K> = SharedFront<'a, T, ServerRoots<T, J, K>, J, K>;

/// A session of a server with what its client's lines are written to.
#[derive(Drop)]
pub struct SlotSession<'a, T: ServerDesk, J: Naming, K: Wait + Clock + Copy + Drop, W: Drop> {
    pub connection: Connection<ServerFront<'a, T, J, K>, W>,
}

/// A session drops what it had of roots that have ended, and answers a line then: whether the reply was sent, and the roots that it has
/// subscriptions on now, as their bits. That the device failed is logged.
fn answer_on<'a, W: Write, R: Wait, T: ServerDesk, J: Naming, K: Wait + Clock + Copy + Drop>(
    one: &mut Connection<ServerFront<'a, T, J, K>, W>,
    rt: &R,
    alloc: Global,
    roots: &ServerRoots<T, J, K>,
    unanswered: UnansweredLine,
) -> (io::Result<()>, u64)
    ensures answered { OnOk result.0 (AnswersInSlot ⟦<SharedFront<'a, T, ServerRoots<T, J, K>, J, K> as Front>⟧.met one.old.session.front one.old.session.subscriptions unanswered.line.items (W.contents one.old.writer) (W.contents one.new.writer) one.new.session.front one.new.session.subscriptions) }
    ensures bits { AddsBitsOf 0 one.new.session.subscriptions result.1 }
{
    drop_ended(rt, alloc, &mut one.session);
    let sent = one.answer(alloc, roots.second(), unanswered);
    let bits = roots.subscribed_bits(rt, one.session.subscriptions());
    if one.session.front.take_store_failure() {
        roots.log.note(&roots.keeping, None, What::StoreFailed);
    }
    (sent, bits)
}

/// The session that is there, if one is, answers a line, as [`answer_on`].
fn answer_in<'a, W: Write + Drop, R: Wait, T: ServerDesk, J: Naming, K: Wait + Clock + Copy + Drop>(
    place: &mut Option<SlotSession<'a, T, J, K, W>>,
    rt: &R,
    alloc: Global,
    roots: &ServerRoots<T, J, K>,
    unanswered: UnansweredLine,
) -> (io::Result<()>, u64)
    ensures answered { MatchOption place.old (place.new ≡ None) (λ one. MatchOption place.new ⊥ (λ new. OnOk result.0 (AnswersInSlot ⟦<SharedFront<'a, T, ServerRoots<T, J, K>, J, K> as Front>⟧.met one.connection.session.front one.connection.session.subscriptions unanswered.line.items (W.contents one.connection.writer) (W.contents new.connection.writer) new.connection.session.front new.connection.session.subscriptions))) }
    ensures bits { MatchOption place.new (result.1 ≡ 0) (λ new. AddsBitsOf 0 new.connection.session.subscriptions result.1) }
{
    match place {
        Some(one) => answer_on(&mut one.connection, rt, alloc, roots, unanswered),
        None => {
            unanswered.leave(place);
            (Ok(()), 0)
        }
    }
}

/// A reply is sent alone to the session that is there, if one is.
fn send_in<W: Write + Drop, T: ServerDesk, J: Naming, K: Wait + Clock + Copy + Drop>(
    place: &mut Option<SlotSession<'_, T, J, K, W>>,
    reply: UnsentReply,
) -> io::Result<()>
    ensures { MatchOption place.old (place.new ≡ None) (λ one. MatchOption place.new ⊥ (λ new. (new.connection.session ≡ one.connection.session) × OnOk result (Appends (W.contents one.connection.writer) (W.contents new.connection.writer) (sent_alone (λ bytes. bytes.items) reply.line)))) }
{
    match place {
        Some(one) => one.connection.send(reply),
        None => {
            reply.leave(place);
            Ok(())
        }
    }
}

/// A session drops what it had of roots that have ended, and is sent what is due to it then.
fn send_due_on<'a, W: Write, R: Wait, T: ServerDesk, J: Naming, K: Wait + Clock + Copy + Drop>(
    one: &mut Connection<ServerFront<'a, T, J, K>, W>,
    rt: &R,
    alloc: Global,
) -> Result<(), HalfSent>
    ensures { OnOk result (SendsDueInSlot ⟦<SharedFront<'a, T, ServerRoots<T, J, K>, J, K> as Front>⟧.met one.old.session.front one.old.session.subscriptions (W.contents one.old.writer) (W.contents one.new.writer) one.new.session.front one.new.session.subscriptions) }
{
    drop_ended(rt, alloc, &mut one.session);
    one.send_due(alloc)
}

/// What is due to the session that is there, if one is, is sent. A client that doesn't read it is cut off.
fn update_in<R: Wait, T: ServerDesk, J: Naming, K: Wait + Clock + Copy + Drop>(
    place: &mut Option<SlotSession<'_, T, J, K, ClientEnd>>,
    rt: &R,
    alloc: Global,
    roots: &ServerRoots<T, J, K>,
) {
    let Some(one) = place else {
        return;
    };
    let Err(half) = send_due_on(&mut one.connection, rt, alloc) else {
        return;
    };
    if took_too_long(half.error()) {
        roots.log.note(&roots.keeping, None, What::CutOff);
    }
    one.connection.shut(half);
}

/// A slot for a session and its two threads.
#[derive(Drop)]
pub struct Slot<'a, T: ServerDesk, J: Naming, K: Wait + Clock + Copy + Drop> {
    pub number: usize,
    connection: Mutex<Option<SlotSession<'a, T, J, K, ClientEnd>>>,
}

impl<'a, T: ServerDesk, J: Naming, K: Wait + Clock + Copy + Drop> Slot<'a, T, J, K> {
    /// A slot without a session.
    pub fn new(number: usize) -> Slot<'a, T, J, K>
        ensures { result.number ≡ number }
    {
        Slot {
            number,
            connection: Mutex::new(None),
        }
    }

    /// A session has come, or the one that was there has ended: that comes back.
    pub fn replace<R: Wait>(
        &self,
        rt: &R,
        connection: Option<SlotSession<'a, T, J, K, ClientEnd>>,
    ) -> Option<SlotSession<'a, T, J, K, ClientEnd>> {
        mem::replace(&mut *self.connection.lock(rt), connection)
    }

    /// As [`answer_in`]. Lines may be due to the session from now on of the roots that it has subscriptions on.
    pub fn answer<R: Wait>(
        &self,
        rt: &R,
        alloc: Global,
        roots: &ServerRoots<T, J, K>,
        unanswered: UnansweredLine,
    ) -> io::Result<()> {
        let mut connection = self.connection.lock(rt);
        let (sent, bits) = answer_in(&mut *connection, rt, alloc, roots, unanswered);
        drop(connection);
        roots.flags.note(rt, self.number, bits);
        sent
    }

    /// As [`send_in`].
    pub fn send<R: Wait>(&self, rt: &R, reply: UnsentReply) -> io::Result<()> {
        send_in(&mut *self.connection.lock(rt), reply)
    }

    /// The session's viewer of a root, if it has one, catches up with what was published of it.
    pub fn catch_up<R: Wait>(&self, rt: &R, root: &WatchedRoot<J, K>) {
        if let Some(one) = &mut *self.connection.lock(rt) {
            one.connection.session.front.catch_up(root);
        }
    }

    /// As [`update_in`].
    pub fn send_updates<R: Wait>(&self, rt: &R, alloc: Global, roots: &ServerRoots<T, J, K>) {
        update_in(&mut *self.connection.lock(rt), rt, alloc, roots);
    }
}

/// Sends what is due to the sessions of a slot, whenever its thread is woken, until the server closes.
pub fn send_updates<R: Wait, T: ServerDesk, J: Naming, K: Wait + Clock + Copy + Drop>(
    rt: &R,
    alloc: Global,
    roots: &ServerRoots<T, J, K>,
    slot: &Slot<'_, T, J, K>,
) {
    for _ in rt.forever() {
        if !roots.flags.wait(rt, slot.number) {
            return;
        }
        slot.send_updates(rt, alloc, roots);
    }
    unreachable!()
}
