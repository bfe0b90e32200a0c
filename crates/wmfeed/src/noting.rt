//! A writer of faults that notes the cause that is reported. Tests: tools/try/messages.py.

use std::io;
use std::io::Write;
use wm_client::Stop;
use wm_disk::Refusal;

/// The causes that a further line explains.
const EXPLAINED: [Stop; 6] = [
    Stop::Unwatched,
    Stop::NoFolder,
    Stop::Unreached,
    Stop::ServerGone,
    Stop::Refused(Refusal::TooMany),
    Stop::Refused(Refusal::DeviceFailed),
];

/// The cause whose text this is, of those that are explained.
fn cause_in(bytes: &[u8]) -> Option<Stop> {
    for stop in EXPLAINED {
        if bytes == stop.text().as_bytes() {
            return Some(stop);
        }
    }
    None
}

/// A writer of faults.
#[derive(Drop)]
pub struct Faults<W> {
    writer: W,
    /// The last cause whose text was written in one call.
    pub stop: Option<Stop>,
}

impl<W: Write> Faults<W> {
    /// A writer to which nothing was written.
    pub fn new(writer: W) -> Faults<W> {
        Faults { writer, stop: None }
    }
}

impl<W: Write> Write for Faults<W> {
    fn write(&mut self, bytes: &[u8]) -> io::Result<usize> {
        self.stop = cause_in(bytes).or(self.stop);
        self.writer.write(bytes)
    }

    fn flush(&mut self) -> io::Result<()> {
        self.writer.flush()
    }
}
