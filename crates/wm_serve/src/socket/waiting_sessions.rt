//! Where sessions wait for a slot: the accept queue under its lock.
//! Tests: serve_tests/src/sessions.rt.
use crate::socket::accept_queue::{AcceptQueue, ServedPlace, TurnedAway};
use std::alloc::Global;
use std::os::unix::net::UnixStream;
use std::sync::{Condvar, Mutex, Wait};

/// Sessions on their way from the socket to a slot.
#[derive(Drop)]
pub struct WaitingSessions {
    queue: Mutex<AcceptQueue<UnixStream>>,
    came: Condvar,
}

impl WaitingSessions {
    /// No session may come yet.
    pub fn new(alloc: Global) -> WaitingSessions {
        WaitingSessions {
            queue: Mutex::new(AcceptQueue::new(alloc)),
            came: Condvar::new(),
        }
    }

    /// As [`AcceptQueue::open`].
    pub fn open<R: Wait>(&self, rt: &R, slots: u64) {
        self.queue.lock(rt).open(slots);
    }

    /// As [`AcceptQueue::admit`].
    pub fn admit<R: Wait>(&self, rt: &R, stream: UnixStream) -> Result<(), TurnedAway<UnixStream>> {
        let mut queue = self.queue.lock(rt);
        let admitted = queue.admit(stream);
        drop(queue);
        self.came.notify_one();
        admitted
    }

    /// Waits for a session, as of [`AcceptQueue::take`]. `None` once no session comes any longer, and none waits.
    pub fn next<R: Wait>(&self, rt: &R) -> Option<(UnixStream, ServedPlace)> {
        let mut queue = self
            .came
            .wait_while(rt, self.queue.lock(rt), |queue| queue.must_wait());
        queue.take()
    }

    /// As [`AcceptQueue::leave`].
    pub fn leave<R: Wait>(&self, rt: &R, place: ServedPlace) {
        self.queue.lock(rt).leave(place);
    }

    /// As [`AcceptQueue::close`].
    pub fn close<R: Wait>(&self, rt: &R) {
        self.queue.lock(rt).close();
        self.came.notify_all();
    }
}
