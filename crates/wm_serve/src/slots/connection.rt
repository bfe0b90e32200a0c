//! A session with the end of its client's stream, and its outgoing buffer. Nothing else writes to a client.
//! Definitions: specs/SentLines.antt. Tests: serve_tests/src/sessions.rt.
ghost use Rattle.std.specs.Prelude.{◌≡◌, OnOk};
ghost use Rattle.std.specs.Io.KnownBytes.{Appends};
ghost use Rattle.wm_serve.specs.SentLines.{SendsDue, SendsReply, sent_alone};

use crate::slots::lines::{UnansweredLine, UnsentReply, answer_line, send, send_due};
use std::alloc::Global;
use std::io;
use std::io::Write;
use std::net::Shutdown;
use std::os::unix::net::UnixStream;
use std::sync::Arc;
use wm_session::{Front, Session};

/// The end of a client's stream that lines are sent to.
#[derive(Drop)]
pub struct ClientEnd {
    stream: Arc<UnixStream>,
}

impl ClientEnd {
    /// That of a stream. `None` if too many hold it.
    pub fn of(stream: &Arc<UnixStream>) -> Option<ClientEnd> {
        let stream = Arc::try_clone(stream).ok()?;
        Some(ClientEnd { stream })
    }
}

impl Write for ClientEnd {
    fn write(&mut self, buf: &[u8]) -> io::Result<usize> {
        (&*self.stream).write(buf)
    }

    fn flush(&mut self) -> io::Result<()> {
        Ok(())
    }
}

/// A session with what sends its client lines.
#[derive(Drop)]
pub struct Connection<F, W> {
    pub session: Session<F>,
    writer: W,
    outgoing: Vec<u8>,
}

/// The lines that were due to a session couldn't be sent: a part of one may be. Nobody can drop it: its stream is shut, so that nothing
/// follows that part.
pub struct HalfSent {
    error: io::Error,
}

impl HalfSent {
    /// Why.
    pub fn error(&self) -> &io::Error
        ensures { result.now ≡ self.now.error }
    {
        &self.error
    }
}

impl<F, W> Connection<F, W> {
    /// A session that has answered nothing yet, and what it writes to.
    pub fn new(alloc: Global, session: Session<F>, writer: W) -> Connection<F, W>
        ensures { (result.session ≡ session) × (result.writer ≡ writer) }
    {
        Connection {
            session,
            writer,
            outgoing: Vec::new(alloc),
        }
    }
}

impl<F: Drop, W: Drop> Connection<F, W> {
    /// The session, once its client is gone.
    pub fn into_session(self) -> Session<F>
        ensures { result ≡ self.session }
    {
        let Connection {
            session,
            writer: _,
            outgoing: _,
        } = self;
        session
    }
}

impl<F: Front, W: Write> Connection<F, W> {
    /// Answers a line, and sends the reply with what is due behind it, as of [`answer_line`].
    pub fn answer(
        &mut self,
        alloc: Global,
        moment: u64,
        unanswered: UnansweredLine,
    ) -> io::Result<()>
        ensures { OnOk result (SendsReply F.met self.old.session.front self.old.session.subscriptions moment unanswered.line.items (W.contents self.old.writer) (W.contents self.new.writer) self.new.session.front self.new.session.subscriptions) }
    {
        answer_line(
            alloc,
            &mut self.session,
            moment,
            unanswered,
            &mut self.outgoing,
            &mut self.writer,
        )
    }

    /// Sends a reply alone, as of [`send`].
    pub fn send(&mut self, reply: UnsentReply) -> io::Result<()>
        ensures session { self.new.session ≡ self.old.session }
        ensures sent { OnOk result (Appends (W.contents self.old.writer) (W.contents self.new.writer) (sent_alone (λ bytes. bytes.items) reply.line)) }
    {
        send(reply, &mut self.writer)
    }

    /// Sends what is due to the session's subscriptions, as of [`send_due`].
    pub fn send_due(&mut self, alloc: Global) -> Result<(), HalfSent>
        ensures { OnOk result (SendsDue F.met self.old.session.front self.old.session.subscriptions (W.contents self.old.writer) (W.contents self.new.writer) self.new.session.front self.new.session.subscriptions) }
    {
        match send_due(
            alloc,
            &mut self.session,
            &mut self.outgoing,
            &mut self.writer,
        ) {
            Ok(()) => Ok(()),
            Err(error) => Err(HalfSent { error }),
        }
    }
}

impl<F> Connection<F, ClientEnd> {
    /// Shuts the stream, so that nothing goes either way any longer.
    pub fn shut(&self, half: HalfSent) {
        let HalfSent { error: _ } = half;
        let _shut = self.writer.stream.shutdown(Shutdown::Both);
    }
}
