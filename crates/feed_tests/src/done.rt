//! What a feed did to a system in memory, and how much time went by.

use std::alloc::{AllocError, Global};
use std::cell::{Cell, RefCell};

/// What was done to a system.
#[derive(Drop)]
pub struct Done {
    alloc: Global,
    time: Cell<u64>,
    /// How many sessions were asked for.
    connected: Cell<usize>,
    /// The requests that were sent, and what was done between them, line by line.
    log: RefCell<Vec<u8>>,
    /// What was reported to the user.
    reported: RefCell<Vec<u8>>,
}

/// A text of bytes.
fn text_of(alloc: Global, bytes: &RefCell<Vec<u8>>) -> Result<String, AllocError> {
    match bytes.try_borrow() {
        Ok(bytes) => String::from_str(alloc, str::from_utf8(&bytes).unwrap_or("no text")),
        Err(_) => String::from_str(alloc, "borrowed"),
    }
}

/// Adds bytes to others.
fn add(all: &RefCell<Vec<u8>>, bytes: &[u8]) {
    if let Ok(mut all) = all.try_borrow_mut() {
        let _added = all.extend_from_slice(bytes);
    }
}

impl Done {
    /// Nothing yet.
    pub fn new(alloc: Global) -> Done {
        Done {
            alloc,
            time: Cell::new(0),
            connected: Cell::new(0),
            log: RefCell::new(Vec::new(alloc)),
            reported: RefCell::new(Vec::new(alloc)),
        }
    }

    /// Where its memory is.
    pub(crate) fn alloc(&self) -> Global {
        self.alloc
    }

    /// How much time went by, in milliseconds.
    pub fn now(&self) -> u64 {
        self.time.get()
    }

    /// So many milliseconds go by.
    pub(crate) fn pass(&self, millis: u64) {
        self.time.set(self.now().saturating_add(millis));
    }

    /// One more session is asked for; how many were before.
    pub(crate) fn connect(&self) -> usize {
        let connected = self.connected.get();
        self.connected.set(connected.saturating_add(1));
        connected
    }

    /// Adds bytes to the log.
    pub(crate) fn add(&self, bytes: &[u8]) {
        add(&self.log, bytes);
    }

    /// Adds a line to the log, or its end.
    pub(crate) fn note(&self, line: &str) {
        self.add(line.as_bytes());
        self.add(b"\n");
    }

    /// Whether a path was removed.
    pub(crate) fn is_removed(&self, path: &str) -> bool {
        let Ok(log) = self.log.try_borrow() else {
            return false;
        };
        log.split(|byte| *byte == b'\n').any(|line| line.strip_prefix(b"remove ")
            == Some(path.as_bytes()))
    }

    /// Adds what is reported to the user.
    pub(crate) fn report(&self, bytes: &[u8]) {
        add(&self.reported, bytes);
    }

    /// The log.
    pub fn log(&self) -> Result<String, AllocError> {
        text_of(self.alloc, &self.log)
    }

    /// What was reported to the user.
    pub fn reported(&self) -> Result<String, AllocError> {
        text_of(self.alloc, &self.reported)
    }
}
