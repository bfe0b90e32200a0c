//! Writers that note what they were given. Tests: tools/try/messages.py.

use crate::explaining::answer_text;
use crate::waiting::Answered;
use std::alloc::Global;
use std::io;
use std::io::Write;
use wm_client::{Request, refusal_of};
use wm_disk::Refusal;

/// A writer of replies, which are written a line in a call.
#[derive(Drop)]
pub struct Replies<'a, W> {
    rt: &'a HostRuntime,
    alloc: Global,
    request: Option<Request>,
    answered: Option<Answered>,
    writer: W,
    is_used: bool,
    /// Which refusal the first reply is.
    pub refusal: Option<Refusal>,
}

impl<'a, W: Write> Replies<'a, W> {
    /// A writer to which nothing was written. If there is a request, what is to be said of it goes to standard error behind the first
    /// reply, if that is no refusal. The first reply is noted for who waits for it.
    pub fn new(
        rt: &'a HostRuntime,
        alloc: Global,
        request: Option<Request>,
        answered: Option<Answered>,
        writer: W,
    ) -> Replies<'a, W> {
        Replies {
            rt,
            alloc,
            request,
            answered,
            writer,
            is_used: false,
            refusal: None,
        }
    }

    /// Says what is to be said behind the first reply, once.
    fn say_further(&mut self) {
        let Some(request) = self.request.take() else {
            return;
        };
        if self.refusal.is_some() {
            return;
        }
        if let Ok(text) = answer_text(self.rt, self.alloc, &request) {
            // If it can't be said, the reply is there all the same.
            let _said = self.rt.eprint(text.as_str());
        }
    }
}

impl<W: Write> Write for Replies<'_, W> {
    fn write(&mut self, bytes: &[u8]) -> io::Result<usize> {
        if !self.is_used {
            self.is_used = true;
            if let Some(answered) = &self.answered {
                answered.note();
            }
            self.refusal = refusal_of(bytes);
        }
        let count = self.writer.write(bytes)?;
        if count == bytes.len() {
            self.say_further();
        }
        Ok(count)
    }

    fn flush(&mut self) -> io::Result<()> {
        self.writer.flush()
    }
}

/// A writer of faults.
#[derive(Drop)]
pub struct Faults<W> {
    writer: W,
    /// Whether it was written that no feed answered.
    pub lacks_feed: bool,
}

impl<W: Write> Faults<W> {
    /// A writer to which nothing was written.
    pub fn new(writer: W) -> Faults<W> {
        Faults {
            writer,
            lacks_feed: false,
        }
    }
}

impl<W: Write> Write for Faults<W> {
    fn write(&mut self, bytes: &[u8]) -> io::Result<usize> {
        if bytes == b"wmctl: no feed\n".as_slice() {
            self.lacks_feed = true;
        }
        self.writer.write(bytes)
    }

    fn flush(&mut self) -> io::Result<()> {
        self.writer.flush()
    }
}
