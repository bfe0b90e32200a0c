//! The lines of a client: each is read off its stream, and is answered once. An answer uses its line up.
//! Definitions: specs/ClientLines.antt, specs/SentLines.antt. Tests: serve_tests/src/sessions.rt.
ghost use Rattle.std.specs.Prelude.{◌≡◌, ℕ, List, None, Some, IfOk, OnOk};
ghost use Rattle.std.specs.Io.KnownBytes.{Appends};
ghost use Rattle.std.specs.Result.{IsErr};
ghost use Rattle.wm_lines.specs.Replies.{reply_bytes};
ghost use Rattle.wm_serve.specs.ClientLines.{ReadsNext};
ghost use Rattle.wm_serve.specs.CrawlOutcomes.{IsCrawlOutcome, outcome_end};
ghost use Rattle.wm_serve.specs.SentLines.{SendsDue, SendsReply, crawl_reply, no_memory_bytes, sent_alone};

use std::alloc::Global;
use std::io;
use std::io::{BufRead, Write};
use wm_disk::{NoMemory, Refusal};
use wm_lines::Progress;
use wm_lines::reply::{PROGRESS_ROOM, REFUSAL_ROOM, put_clock, put_refusal};
use wm_root::Crawled;
use wm_session::input::{LineRead, read_line};
use wm_session::run::NO_MEMORY;
use wm_session::{Front, Input, Session};

/// A line that was read, and is to be answered. Nobody can drop it: its answer uses it up.
pub struct UnansweredLine {
    line: Vec<u8>,
}

/// The reply to a line that is to be sent alone, or that memory ran out for it. Nobody can drop it: the send uses it up.
pub struct UnsentReply {
    line: Result<Vec<u8>, NoMemory>,
}

/// What comes next of a client.
pub enum NextLine {
    Line(UnansweredLine),
    /// Memory ran out for a line, which is answered so.
    Lost(UnsentReply),
    End,
}

/// Reads the next line.
pub fn next_line<R: BufRead>(alloc: Global, reader: &mut R) -> io::Result<NextLine>
    ensures { IfOk result (λ next. (rest : List ℕ) → R.remaining reader.old ≡ Some rest → ReadsNext rest next) }
{
    let mut line = Vec::new(alloc);
    match read_line(&mut Input::new(&mut *reader), &mut line) {
        Ok(LineRead::End) => Ok(NextLine::End),
        Ok(LineRead::Lost) => Ok(NextLine::Lost(UnsentReply::lost())),
        Ok(LineRead::Kept) => Ok(NextLine::Line(UnansweredLine { line })),
        Err(error) => Err(error),
    }
}

/// Makes the reply to a request for a crawl. `NoMemory`.
fn crawl_line(alloc: Global, ended: Result<Progress, Refusal>) -> Result<Vec<u8>, NoMemory>
    ensures { IfOk result (λ line. line.items ≡ reply_bytes (crawl_reply ended)) }
{
    let mut line = Vec::new(alloc);
    line.try_reserve(PROGRESS_ROOM.max(REFUSAL_ROOM))?;
    match ended {
        Ok(progress) => put_clock(progress.clock, &mut line),
        Err(refusal) => put_refusal(refusal, &mut line),
    }
    Ok(line)
}

/// How a crawl ended, or why no root was asked for it.
fn crawl_end(outcome: Result<Crawled, Refusal>) -> Result<Progress, Refusal>
    ensures { result ≡ outcome_end outcome }
{
    match outcome {
        Ok(crawled) => crawled.into_ended(),
        Err(refusal) => Err(refusal),
    }
}

impl UnansweredLine {
    /// The line.
    pub fn line(&self) -> &[u8]
        ensures { result.now ≡ self.now.line.items }
    {
        &self.line
    }

    /// The reply to a line that asks for a crawl, or that isn't read: how the root said that the crawl ended, or why none was asked.
    pub fn crawl_reply(self, alloc: Global, outcome: Result<Crawled, Refusal>) -> UnsentReply
        requires { IsCrawlOutcome self.line.items outcome }
        ensures { IfOk result.line (λ bytes. bytes.items ≡ reply_bytes (crawl_reply (outcome_end outcome))) }
    {
        let UnansweredLine { line: _ } = self;
        UnsentReply {
            line: crawl_line(alloc, crawl_end(outcome)),
        }
    }

    /// It stays unanswered, since no session is in its slot any longer.
    pub fn leave<C>(self, _slot: &Option<C>)
        requires { _slot.now ≡ None }
    {
        let UnansweredLine { line: _ } = self;
    }
}

impl UnsentReply {
    /// That memory ran out for a line.
    fn lost() -> UnsentReply
        ensures { IsErr result.line }
    {
        UnsentReply {
            line: Err(NoMemory),
        }
    }

    /// It isn't sent, since no session is in its slot any longer.
    pub fn leave<C>(self, _slot: &Option<C>)
        requires { _slot.now ≡ None }
    {
        let UnsentReply { line: _ } = self;
    }
}

/// Sends that memory ran out for a line.
pub fn send_no_memory<W: Write>(writer: &mut W) -> io::Result<()>
    ensures { OnOk result (Appends (W.contents writer.old) (W.contents writer.new) no_memory_bytes) }
{
    writer.write_all(NO_MEMORY.as_bytes())
}

/// Sends a reply, or that memory ran out for it.
pub fn send<W: Write>(reply: UnsentReply, writer: &mut W) -> io::Result<()>
    ensures { OnOk result (Appends (W.contents writer.old) (W.contents writer.new) (sent_alone (λ bytes. bytes.items) reply.line)) }
{
    let UnsentReply { line } = reply;
    match line {
        Ok(bytes) => writer.write_all(&bytes),
        Err(NoMemory) => send_no_memory(writer),
    }
}

/// Answers a line, and sends the reply with what is due behind it. If memory runs out for the reply, a line that says so is sent,
/// and the session is as it was. An `Err` means that the writer failed: then a part may be sent.
pub fn answer_line<F: Front, W: Write>(
    alloc: Global,
    session: &mut Session<F>,
    moment: u64,
    unanswered: UnansweredLine,
    outgoing: &mut Vec<u8>,
    writer: &mut W,
) -> io::Result<()>
    ensures { OnOk result (SendsReply F.met session.old.front session.old.subscriptions moment unanswered.line.items (W.contents writer.old) (W.contents writer.new) session.new.front session.new.subscriptions) }
{
    let UnansweredLine { line } = unanswered;
    outgoing.clear();
    match session.line(alloc, moment, &line, outgoing) {
        Ok(_) => writer.write_all(outgoing),
        Err(NoMemory) => send_no_memory(writer),
    }
}

/// Sends what is due to a session's subscriptions. If the writer fails a part may be sent.
pub fn send_due<F: Front, W: Write>(
    alloc: Global,
    session: &mut Session<F>,
    outgoing: &mut Vec<u8>,
    writer: &mut W,
) -> io::Result<()>
    ensures { OnOk result (SendsDue F.met session.old.front session.old.subscriptions (W.contents writer.old) (W.contents writer.new) session.new.front session.new.subscriptions) }
{
    outgoing.clear();
    let _whole = session.tell_due(alloc, outgoing);
    writer.write_all(outgoing)
}
