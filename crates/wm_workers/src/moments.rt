//! The moment of an operation or of an event, by the system's clock.
//! Tests: tools/try/sessions.py.
use std::time::{Clock, SystemTime};

/// The unix seconds that it is now, by the clock of a system; 0 if it gives none.
pub fn unix_seconds<R: Clock>(rt: &R) -> u64 {
    match SystemTime::now(rt) {
        Ok(now) => match now.duration_since(SystemTime::UNIX_EPOCH) {
            Ok(since) => since.as_secs(),
            Err(_) => 0,
        },
        Err(_) => 0,
    }
}
