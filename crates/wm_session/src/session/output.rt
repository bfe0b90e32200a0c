//! A writer that notes whether a call of it has failed. Its definitions are in specs/session/Streams.
//! Tests: session_tests/src/ends.rt.
ghost use Rattle.std.specs.Prelude.{◌≡◌, true, false, OnOk, OnErr};
ghost use Rattle.std.specs.Io.KnownBytes.{Appends};
ghost use Rattle.wm_session.specs.session.Streams.{writer_closed, writer_failed, writer_of};

use std::io;
use std::io::{ErrorKind, Write};

/// A writer, with notes of whether a call of it has failed, and whether one did since nobody reads it any
/// more, as a closed pipe.
#[derive(Drop)]
pub struct Output<W> {
    writer: W,
    has_failed: bool,
    is_closed: bool,
}

impl<W: Write> Output<W> {
    /// A writer that hasn't failed yet.
    pub fn new(writer: W) -> Output<W>
        ensures writer { writer_of result ≡ writer }
        ensures whole { writer_failed result ≡ false }
        ensures open { writer_closed result ≡ false }
    {
        Output {
            writer,
            has_failed: false,
            is_closed: false,
        }
    }

    /// Whether a call of it has failed since nobody reads it any more.
    pub fn is_closed(&self) -> bool
        ensures { result ≡ writer_closed self.now }
    {
        self.is_closed
    }

    /// Writes all the bytes.
    pub fn put(&mut self, bytes: &[u8]) -> io::Result<()>
        ensures bytes { OnOk result (Appends (W.contents (writer_of self.old)) (W.contents (writer_of self.new)) bytes.now) }
        ensures failed { OnErr result (writer_failed self.new ≡ true) }
        ensures whole { OnOk result (writer_failed self.new ≡ writer_failed self.old) }
    {
        match self.writer.write_all(bytes) {
            Ok(()) => Ok(()),
            Err(e) => {
                self.has_failed = true;
                if e.kind() == ErrorKind::BrokenPipe {
                    self.is_closed = true;
                }
                Err(e)
            }
        }
    }
}
