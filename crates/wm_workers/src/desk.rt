//! What a server asks of its desk: a bound in place of the type, so that little is proved of what stands below it.
//! Tests: serve_tests/src/sessions.rt.
ghost use Rattle.std.specs.Prelude.{◌≡◌, true};
ghost use Rattle.wm_groupcommit.specs.Seats.{IsFlusherOf};

use crate::roots::RootsState;
use std::sync::{Mutex, Wait};
use std::thread;
use std::time::{Clock, Duration};
use wm_disk::{Disk, NoMemory, Refusal};
use wm_front::Registrar;
use wm_groupcommit::{Desk, Flusher, RegistryCopy};

/// The desk of a server.
pub trait ServerDesk: Registrar {
    /// The registry as it is now, and how many commands had been accepted by then.
    fn registry<R: Wait>(&self, rt: &R) -> Result<RegistryCopy, NoMemory>;

    /// Commits what is submitted, until no worker is started any longer and nothing is left. `NoPlace` if another thread does.
    fn flush<R: Wait + Clock, H: Drop>(
        &self,
        rt: &R,
        state: &Mutex<RootsState<H>>,
    ) -> Result<(), Refusal>;
}

/// Commits what is submitted: whether the flusher ends, since nothing was left, after no worker was started any longer.
fn flush_once<R: Wait + Clock, D: Disk + Drop>(
    rt: &R,
    desk: &Desk<D>,
    flusher: &mut Flusher,
    is_closed: bool,
) -> bool
    requires { IsFlusherOf desk.now flusher.old }
    ensures flusher { IsFlusherOf desk.now flusher.new }
    ensures ends { result ≡ true → is_closed ≡ true }
{
    match desk.flush_once(rt, flusher) {
        Ok(flushed) => {
            if flushed.count() > 0 {
                return false;
            }
            if is_closed {
                return true;
            }
            desk.wait_for_calls(rt, flusher);
        }
        // Memory ran out: others may give some back.
        Err(_) => thread::sleep(rt, Duration::from_millis(20)),
    }
    false
}

impl<D: Disk + Drop> ServerDesk for Desk<D> {
    fn registry<R: Wait>(&self, rt: &R) -> Result<RegistryCopy, NoMemory> {
        Desk::registry(self, rt)
    }

    fn flush<R: Wait + Clock, H: Drop>(
        &self,
        rt: &R,
        state: &Mutex<RootsState<H>>,
    ) -> Result<(), Refusal> {
        let mut flusher = match self.flusher(rt) {
            Ok(flusher) => flusher,
            Err(none) => return Err(none.refusal()),
        };
        for _ in rt.forever() {
            let is_closed = state.lock(rt).unstarted.is_closed();
            if flush_once(rt, self, &mut flusher, is_closed) {
                return Ok(());
            }
        }
        unreachable!()
    }
}
