//! The events of a server that wait to be written. Definitions: specs/EventQueues. Tests: leaf_tests/src/logs.rt.
ghost use Rattle.std.specs.Prelude.{◌≡◌, ◌∷◌, ◌==◌, ◌&&◌, [], true, false, length, MatchOption, OnErr, OnOk};
ghost use Rattle.wm_log.specs.EventQueues.{queued_event, takes_event};

use crate::event::Event;
use std::alloc::Global;
use std::collections::VecDeque;
use std::marker::Model;
use wm_disk::NoMemory;

/// The most events that wait.
const MAX_EVENTS: usize = 1024;

/// The events that wait to be written, in their order. Contracts see the list, and whether it takes any more.
#[derive(Drop)]
pub struct EventQueue {
    events: VecDeque<Event>,
    is_open: bool,
}

impl Model for EventQueue {
    ghost use Rattle.wm_log.specs.EventQueues.{WaitingEvents};

    ghost Value = { WaitingEvents };

    ghost view = { λ q. record { events = q.events.items; is_open = q.is_open } };
}

impl EventQueue {
    /// A queue that takes no events yet.
    pub fn new(alloc: Global) -> EventQueue
        ensures { result ≡ record { events = []; is_open = false } }
    {
        EventQueue {
            events: VecDeque::new(alloc),
            is_open: false,
        }
    }

    /// Takes events from now on.
    pub fn open(&mut self)
        ensures { self.new ≡ record self.old { is_open = true } }
    {
        self.is_open = true;
    }

    /// Takes no more events; those that wait stay.
    pub fn close(&mut self)
        ensures { self.new ≡ record self.old { is_open = false } }
    {
        self.is_open = false;
    }

    /// Whether another event is taken: it is open, and fewer than 1024 wait.
    fn takes_event(&self) -> bool
        ensures { result ≡ takes_event self.now }
    {
        self.is_open && self.events.len() < MAX_EVENTS
    }

    /// Puts an event behind those that wait, if it is taken. `NoMemory` comes only then, and the event is gone.
    pub fn push(&mut self, event: Event) -> Result<(), NoMemory>
        ensures ok { OnOk result (self.new ≡ queued_event event self.old) }
        ensures same { OnErr result (self.new ≡ self.old) }
        ensures taken { OnErr result (takes_event self.old ≡ true) }
    {
        if self.takes_event() {
            self.events.push_back(event)?;
        }
        Ok(())
    }

    /// Whether who writes them has to wait: none is there, and one may still come.
    pub fn must_wait(&self) -> bool
        ensures { result ≡ (length self.now.events == 0 && self.now.is_open) }
    {
        self.events.is_empty() && self.is_open
    }

    /// The event that came first; `None` if none waits.
    pub fn take(&mut self) -> Option<Event>
        ensures { MatchOption result ((self.old.events ≡ []) × (self.new ≡ self.old)) (λ event. self.old ≡ record self.new { events = event ∷ self.new.events }) }
    {
        self.events.pop_front()
    }
}
