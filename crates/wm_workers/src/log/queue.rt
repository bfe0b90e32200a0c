//! The log of a server, under its lock: the threads of a server hand events to it, and one thread takes them out and writes them.
//! Tests: tools/try/log.py.
use crate::moments::unix_seconds;
use std::alloc::Global;
use std::sync::{Condvar, Mutex, Wait};
use std::time::Clock;
use wm_log::{Event, EventQueue, What};
use wm_names::RootPath;

/// The events that wait to be written. It keeps none before it is opened.
#[derive(Drop)]
pub struct EventLog {
    alloc: Global,
    queue: Mutex<EventQueue>,
    changed: Condvar,
}

impl EventLog {
    /// A log that keeps no events yet.
    pub fn new(alloc: Global) -> EventLog {
        EventLog {
            alloc,
            queue: Mutex::new(EventQueue::new(alloc)),
            changed: Condvar::new(),
        }
    }

    /// Keeps events from now on.
    pub fn open<R: Wait>(&self, rt: &R) {
        self.queue.lock(rt).open();
    }

    /// Keeps no more events. What waits is still written.
    pub fn close<R: Wait>(&self, rt: &R) {
        self.queue.lock(rt).close();
        self.changed.notify_all();
    }

    /// Keeps what happened now, as of [`EventQueue::push`]. One for which memory runs out is left out.
    pub fn note<R: Wait + Clock>(&self, rt: &R, root: Option<String>, what: What) {
        let mut queue = self.queue.lock(rt);
        let time = unix_seconds(rt);
        let _kept = queue.push(Event { time, root, what });
        drop(queue);
        self.changed.notify_one();
    }

    /// Keeps that paths of a root were forgotten, if this is the tick of the last deletion of them. Without memory it is left out.
    pub fn note_forgotten<R: Wait + Clock>(&self, rt: &R, root: &RootPath, forgot: Option<u64>) {
        let Some(tick) = forgot else {
            return;
        };
        if let Ok(root) = String::from_str(self.alloc, root.as_str()) {
            self.note(rt, Some(root), What::Forgot(tick));
        }
    }

    /// Waits for an event; `None` once the log is closed and nothing waits.
    pub fn next<R: Wait>(&self, rt: &R) -> Option<Event> {
        let mut queue = self
            .changed
            .wait_while(rt, self.queue.lock(rt), |queue| queue.must_wait());
        queue.take()
    }
}
