//! A line which says that an answer is waited for, if none comes for some seconds. Tests: tools/try/messages.py.

use std::alloc::{AllocError, Global};
use std::sync::Arc;
use std::sync::atomic::{AtomicBool, Ordering};
use std::thread;
use std::thread::Threads;
use std::time::Duration;

/// How many milliseconds an answer is waited for before that is said.
const SILENCE: u64 = 3_000;

/// What is said then.
const WAITS: &str = "wmctl waits for an answer: the server is busy, or it was stopped\n";

/// Whether an answer has come.
#[derive(Drop)]
pub struct Answered {
    is_there: Arc<AtomicBool>,
}

impl Answered {
    /// An answer that is waited for from now on. If it doesn't come in time, that is said on standard error. `None` if there is no memory or no
    /// thread for that.
    pub fn awaited<T: Threads>(threads: &T, rt: HostRuntime, alloc: Global) -> Option<Answered> {
        let is_there = Arc::new(alloc, AtomicBool::new(false)).ok()?;
        let seen: Result<Arc<AtomicBool>, AllocError> = is_there.clone();
        let seen = seen.ok()?;
        // The thread ends with the program.
        let started = thread::spawn(threads, move || {
            thread::sleep(&rt, Duration::from_millis(SILENCE));
            if !seen.load(Ordering::Acquire) {
                let _said = rt.eprint(WAITS);
            }
        });
        match started {
            Ok(_thread) => Some(Answered { is_there }),
            Err(_error) => None,
        }
    }

    /// The answer has come.
    pub fn note(&self) {
        self.is_there.store(true, Ordering::Release);
    }
}
