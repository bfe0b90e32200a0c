//! A writer that notes what it was given. Tests: tools/try/messages.py.

use std::io;
use std::io::Write;
use wm_disk::Refusal;
use wm_explain::refusal_said;

/// A writer, with notes of whether anything was written, and of the last refusal whose text was.
#[derive(Drop)]
pub struct Noted<W> {
    writer: W,
    /// Whether anything was written.
    pub is_used: bool,
    /// The last refusal whose text was written in one call.
    pub refusal: Option<Refusal>,
}

impl<W: Write> Noted<W> {
    /// A writer to which nothing was written.
    pub fn new(writer: W) -> Noted<W> {
        Noted {
            writer,
            is_used: false,
            refusal: None,
        }
    }
}

impl<W: Write> Write for Noted<W> {
    fn write(&mut self, bytes: &[u8]) -> io::Result<usize> {
        self.is_used = true;
        if let Ok(text) = str::from_utf8(bytes) {
            self.refusal = refusal_said(text).or(self.refusal);
        }
        self.writer.write(bytes)
    }

    fn flush(&mut self) -> io::Result<()> {
        self.writer.flush()
    }
}
