//! A server with its connection slots, as its threads are given it.
//! Tests: serve_tests/src/sessions.rt.
use crate::slots::sessions::serve_sessions;
use crate::slots::slot::{Slot, send_updates};
use crate::socket::accept_queue::TurnedAway;
use crate::socket::waiting_sessions::WaitingSessions;
use crate::threads::handle::ServerHandle;
use std::alloc::Global;
use std::os::unix::net::UnixStream;
use std::sync::Wait;
use std::time::Clock;
use wm_disk::NoMemory;
use wm_share::Naming;
use wm_workers::{EventLog, SLOTS, ServerDesk, ServerRoots};

/// The watched roots of a server, the sessions that wait for a slot, and the slots.
#[derive(Drop)]
pub struct Server<'a, T: ServerDesk, J: Naming, K: Wait + Clock + Copy + Drop> {
    roots: &'a ServerRoots<T, J, K>,
    waiting: WaitingSessions,
    slots: Vec<Slot<'a, T, J, K>>,
}

impl<'a, T: ServerDesk, J: Naming, K: Wait + Clock + Copy + Drop> Server<'a, T, J, K> {
    /// A server whose roots have begun, without a session.
    pub fn new(
        alloc: Global,
        roots: &'a ServerRoots<T, J, K>,
    ) -> Result<Server<'a, T, J, K>, NoMemory> {
        let mut slots = Vec::new(alloc);
        for number in 0..SLOTS {
            slots.try_reserve(1)?;
            slots.push_reserved(Slot::new(number));
        }
        Ok(Server {
            roots,
            waiting: WaitingSessions::new(alloc),
            slots,
        })
    }
}

impl<
    T: ServerDesk + Sync,
    J: Naming + Send + Sync,
    K: Wait + Clock + Copy + Drop + Send + Sync,
> ServerHandle for Server<'_, T, J, K> {
    fn log(&self) -> &EventLog {
        &self.roots.log
    }

    fn open_slots<R: Wait>(&self, rt: &R, slots: u64) {
        self.waiting.open(rt, slots);
    }

    fn admit<R: Wait>(&self, rt: &R, stream: UnixStream) -> Result<(), TurnedAway<UnixStream>> {
        self.waiting.admit(rt, stream)
    }

    fn serve_sessions<R: Wait>(&self, rt: &R, alloc: Global, slot: usize) {
        if let Some(slot) = self.slots.get(slot) {
            serve_sessions(rt, alloc, self.roots, &self.waiting, slot);
        }
    }

    fn send_updates<R: Wait>(&self, rt: &R, alloc: Global, slot: usize) {
        if let Some(slot) = self.slots.get(slot) {
            send_updates(rt, alloc, self.roots, slot);
        }
    }

    fn flush<R: Wait + Clock>(&self, rt: &R) {
        let _ended = self.roots.flush(rt);
    }

    fn close_slots<R: Wait>(&self, rt: &R) {
        self.waiting.close(rt);
    }

    fn close_workers<R: Wait>(&self, rt: &R) {
        self.roots.close_workers(rt);
    }
}
