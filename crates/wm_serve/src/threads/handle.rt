//! What the threads of a server see of it: a bound in place of the types, so that little is proved of what crosses.
//! Tests: serve_tests/src/sessions.rt.
use crate::socket::accept_queue::TurnedAway;
use std::alloc::Global;
use std::marker::PhantomData;
use std::os::unix::net::UnixStream;
use std::sync::Wait;
use std::time::Clock;
use wm_workers::EventLog;

/// What the threads of a server share.
pub trait ServerHandle {
    /// What happens is logged here.
    fn log(&self) -> &EventLog;

    /// So many sessions may be there at once from now on.
    fn open_slots<R: Wait>(&self, rt: &R, slots: u64);

    /// Admits a session, or hands it back to be sent why not.
    fn admit<R: Wait>(&self, rt: &R, stream: UnixStream) -> Result<(), TurnedAway<UnixStream>>;

    /// Answers the lines of one session of a slot after the other, until no session comes any longer.
    fn serve_sessions<R: Wait>(&self, rt: &R, alloc: Global, slot: usize);

    /// Sends the sessions of a slot what is due to their subscriptions, until the server closes.
    fn send_updates<R: Wait>(&self, rt: &R, alloc: Global, slot: usize);

    /// Commits what is submitted, until the server closes and nothing is left.
    fn flush<R: Wait + Clock>(&self, rt: &R);

    /// No session comes any longer.
    fn close_slots<R: Wait>(&self, rt: &R);

    /// Each thread ends that isn't a session's; the flusher once the store is closed too.
    fn close_workers<R: Wait>(&self, rt: &R);
}

/// What the threads of a server are given: the server with its slots, and its watched roots, of views whose names are `J` and whose keepers wait with `K`.
#[derive(Drop)]
pub struct Handles<'a, H, W, J, K> {
    pub server: &'a H,
    pub workers: &'a W,
    pub of: PhantomData<(J, K)>,
}
