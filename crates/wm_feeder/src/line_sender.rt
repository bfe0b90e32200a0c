//! The socket of a session as requests are written to it: each line by one call, so that the server wakes once for it.
//! Tests: tools/try/feed.

use std::alloc::Global;
use std::io;
use std::io::Write;
use std::os::unix::net::UnixStream;

/// A socket to which whole lines are written.
#[derive(Drop)]
pub struct LineSender {
    socket: UnixStream,
    /// What was written of a line that hasn't ended.
    line: Vec<u8>,
}

impl LineSender {
    /// To a socket.
    pub(crate) fn new(alloc: Global, socket: UnixStream) -> LineSender {
        LineSender {
            socket,
            line: Vec::new(alloc),
        }
    }
}

impl Write for LineSender {
    /// Keeps the bytes, and sends all that was kept once a line ends.
    fn write(&mut self, bytes: &[u8]) -> io::Result<usize> {
        self.line.extend_from_slice(bytes)?;
        if bytes.ends_with(b"\n") {
            self.flush()?;
        }
        Ok(bytes.len())
    }

    fn flush(&mut self) -> io::Result<()> {
        let sent = (&self.socket).write_all(&self.line);
        self.line.clear();
        sent
    }
}
