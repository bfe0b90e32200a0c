//! Writes the log of a server, which serves meanwhile. Tests: tools/try/log.py.
use super::queue::EventLog;
use std::alloc::Global;
use std::io;
use std::io::Print;
use std::sync::Wait;
use wm_log::{LogLimiter, write_event};

/// Writes each event, until the log is closed and nothing waits. What can't be written is left out.
pub fn write_log<R: Wait, L: Print>(rt: &R, alloc: Global, log: &EventLog, output: &L) {
    let mut writer = io::writer(output);
    let mut limiter = LogLimiter::new(alloc);
    for _ in rt.forever() {
        let Some(event) = log.next(rt) else {
            return;
        };
        let _written = write_event(alloc, &mut limiter, &event, &mut writer);
    }
}
