//! The workers of roots that are still to be started: two of each root, in the order in which the roots came.
//! Definitions: specs/UnstartedWorkers.antt. Tests: serve_tests/src/sessions.rt.
ghost use Rattle.std.specs.Prelude.{◌≡◌, true, false, MatchOption, MatchResult};
ghost use Rattle.wm_workers.specs.UnstartedWorkers.{awaits_worker, closed_workers, next_worker, no_workers, with_workers, worker_root, workers_after};

use std::alloc::Global;
use std::marker::Model;
use wm_disk::NoMemory;

/// A worker of the root of a number.
#[derive(Clone, Copy, Debug, PartialEq, Eq)]
pub enum Worker {
    /// Crawls it.
    Crawler(u64),
    /// Runs its triggers.
    Triggers(u64),
}

impl Worker {
    /// The number of its root.
    pub fn root(self) -> u64
        ensures { result ≡ worker_root self }
    {
        match self {
            Worker::Crawler(root) => root,
            Worker::Triggers(root) => root,
        }
    }
}

/// The workers that are still to be started, and whether none is started any longer.
#[derive(Drop)]
pub struct UnstartedWorkers {
    workers: Vec<Worker>,
    is_closed: bool,
}

impl Model for UnstartedWorkers {
    ghost use Rattle.wm_workers.specs.UnstartedWorkers.{WorkerList};

    ghost Value = { WorkerList };

    ghost view = { λ w. record { workers = w.workers.items; is_closed = w.is_closed } };
}

impl UnstartedWorkers {
    /// No worker is to be started yet.
    pub fn new(alloc: Global) -> UnstartedWorkers
        ensures { result ≡ no_workers }
    {
        UnstartedWorkers {
            workers: Vec::new(alloc),
            is_closed: false,
        }
    }

    /// Both workers of a root are to be started. `NoMemory`: nothing changes then.
    pub fn put(&mut self, root: u64) -> Result<(), NoMemory>
        ensures { MatchResult result (λ _. self.new ≡ with_workers root self.old) (λ _. self.new ≡ self.old) }
    {
        self.workers.try_reserve(2)?;
        self.workers.push_reserved(Worker::Crawler(root));
        self.workers.push_reserved(Worker::Triggers(root));
        Ok(())
    }

    /// Whether the supervisor has to wait: no worker is to be started, and one may still come.
    pub fn must_wait(&self) -> bool
        ensures { result ≡ awaits_worker self.now }
    {
        self.workers.is_empty() && !self.is_closed
    }

    /// The worker that is to be started next; none only if the server closes.
    pub fn next(&self) -> Option<Worker>
        requires { awaits_worker self.now ≡ false }
        ensures next { result ≡ next_worker self.now }
        ensures closed { MatchOption result (self.now.is_closed ≡ true) (λ _. self.now.is_closed ≡ false) }
    {
        if self.is_closed || self.workers.is_empty() {
            return None;
        }
        Some(self.workers[0])
    }

    /// The worker that came first was started: it isn't to be started any longer.
    pub fn started(&mut self)
        ensures { self.new ≡ workers_after self.old }
    {
        if !self.workers.is_empty() {
            self.workers.remove(0);
        }
    }

    /// No worker is started any longer.
    pub fn close(&mut self)
        ensures { self.new ≡ closed_workers self.old }
    {
        self.is_closed = true;
    }

    /// Whether no worker is started any longer.
    pub fn is_closed(&self) -> bool
        ensures { result ≡ self.now.is_closed }
    {
        self.is_closed
    }
}
