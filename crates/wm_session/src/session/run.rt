//! The lines of a reader, each with its moment and its reply. Its definitions are in specs/session/Runs.
//! Tests: session_tests/src/ends.rt, session_tests/src/lines.
ghost use Rattle.std.specs.Prelude.{◌≡◌, ◌+◌, ◌-◌, ◌^◌, ◌<◌, ◌≤◌, ℕ, List, Some, Err, true, IfOk, OnOk, OnErr};
ghost use Rattle.std.specs.Io.KnownBytes.{Appends};
ghost use Rattle.wm_disk.specs.Counters.{max_counter};
ghost use Rattle.wm_registry.specs.declared.command.Command.{Command};
ghost use Rattle.wm_session.specs.session.Asked.{asked_by};
ghost use Rattle.wm_lines.specs.Lines.{request_of_line};
ghost use Rattle.wm_session.specs.session.Reading.{IsReadOf};
ghost use Rattle.wm_lines.specs.Replies.{reply_bytes};
ghost use Rattle.wm_session.specs.session.Streams.{IsCutOff, StandAsBefore, reader_of, writer_failed, writer_of};
ghost use Rattle.wm_session.specs.session.Faults.{seen};
ghost use Rattle.wm_session.specs.session.Stands.{standing};
ghost use Rattle.wm_session.specs.session.Runs.{HandlesPrefix, Served, ServedCleanly, Serves, Untold};

use crate::session::Session;
use crate::session::front::OwnFront;
use crate::session::input::{Input, LineRead, read_line};
use crate::session::output::Output;
use std::alloc::Global;
use std::io;
use std::io::{BufRead, ErrorKind, Write};
use std::marker::Model;
use wm_disk::{NoMemory, Refusal};

/// Tells the moments of lines, as a reader tells its bytes.
pub trait Moments {
    /// The moment of each line; the first line has the index 0.
    ghost moment: { Self → ℕ → ℕ };

    /// Which line comes next.
    ghost place: { Self → ℕ };

    /// The moment of the next line.
    fn next(&mut self) -> u64
        requires { place self.old < 2 ^ 64 - 1 }
        ensures value { result ≡ moment self.old (place self.old) }
        ensures same { moment self.new ≡ moment self.old }
        ensures place { place self.new ≡ place self.old + 1 };
}

/// Each line's moment is its number, counted from 1.
#[derive(Drop)]
pub struct LineNumbers {
    told: u64,
}

impl Model for LineNumbers {
    ghost Value = { ℕ };

    ghost view = { λ n. n.told };
}

impl Moments for LineNumbers {
    ghost moment = { λ _ k. k + 1 };

    ghost place = { λ n. n };

    fn next(&mut self) -> u64 {
        self.told += 1;
        self.told
    }
}

impl LineNumbers {
    /// Before the first line.
    pub fn new() -> LineNumbers
        ensures { result ≡ 0 }
    {
        LineNumbers { told: 0 }
    }
}

/// The line of the refusal `16 NoMemory`.
pub const NO_MEMORY: &str = "{\"error\":\"16 NoMemory\",\"version\":\"w1\"}\n";

/// Answers a line with `16 NoMemory`, which is one fault.
fn answer_no_memory<W: Write>(writer: &mut Output<W>) -> io::Result<u64>
    ensures told { IfOk result (λ n. (n ≡ 1) × Appends (W.contents (writer_of writer.old)) (W.contents (writer_of writer.new)) (reply_bytes (Err Refusal.NoMemory))) }
    ensures failed { OnErr result (writer_failed writer.new ≡ true) }
    ensures whole { OnOk result (writer_failed writer.new ≡ writer_failed writer.old) }
{
    writer.put(NO_MEMORY.as_bytes())?;
    Ok(1)
}

/// Answers a line that was kept, and tells how many faults were met: none or one.
fn answer_kept<F: OwnFront, W: Write>(
    alloc: Global,
    session: &mut Session<F>,
    moment: u64,
    line: &[u8],
    writer: &mut Output<W>,
) -> io::Result<u64>
    ensures failed { OnErr result (writer_failed writer.new ≡ true) }
    ensures whole { OnOk result (writer_failed writer.new ≡ writer_failed writer.old) }
    ensures served { IfOk result (λ n. Serves (standing F.front_state session.old) moment line.now n (W.contents (writer_of writer.old)) (W.contents (writer_of writer.new)) (standing F.front_state session.new)) }
    ensures few { IfOk result (λ n. n ≤ 1) }
    ensures untold { OnErr result (Untold (standing F.front_state session.old) moment line.now (standing F.front_state session.new)) }
    ensures later { F.leads_to session.old.front (asked_by (request_of_line line.now)) session.new.front }
{
    let mut reply = Vec::new(alloc);
    match session.line(alloc, moment, line, &mut reply) {
        Ok(faults) => {
            writer.put(&reply)?;
            Ok(faults)
        }
        Err(NoMemory) => answer_no_memory(writer),
    }
}

/// Answers a line as far as it was read, and tells how many faults were met: none or one.
fn serve_line<F: OwnFront, W: Write>(
    alloc: Global,
    session: &mut Session<F>,
    moment: u64,
    read: LineRead,
    line: &[u8],
    writer: &mut Output<W>,
) -> io::Result<u64>
    ensures failed { OnErr result (writer_failed writer.new ≡ true) }
    ensures whole { OnOk result (writer_failed writer.new ≡ writer_failed writer.old) }
    ensures served { IfOk result (λ n. (whole : List ℕ) → IsReadOf read line.now whole →
        Serves (standing F.front_state session.old) moment whole n (W.contents (writer_of writer.old)) (W.contents (writer_of writer.new)) (standing F.front_state session.new)) }
    ensures few { IfOk result (λ n. n ≤ 1) }
    ensures untold { OnErr result ((whole : List ℕ) → IsReadOf read line.now whole → Untold (standing F.front_state session.old) moment whole (standing F.front_state session.new)) }
    ensures later { (asked : List Command) × F.leads_to session.old.front asked session.new.front }
    ensures asked { (whole : List ℕ) → IsReadOf read line.now whole → F.leads_to session.old.front (asked_by (request_of_line whole)) session.new.front }
{
    let faults = match read {
        LineRead::Kept => answer_kept(alloc, session, moment, line, writer)?,
        _ => answer_no_memory(writer)?,
    };
    Ok(faults)
}

/// Answers the lines of a reader to a writer, each before the next is read, until the reader ends. It
/// tells how many lines met a fault: were answered `DeviceFailed` or `NoMemory`, or found no memory for a
/// line that is due after them. It holds one
/// line and one reply. An `Err` is that of the call of the reader or of the writer that failed, or comes
/// after 2^64 - 1 lines.
pub fn run<F: OwnFront, M: Moments, R: BufRead, W: Write>(
    alloc: Global,
    session: &mut Session<F>,
    moments: &mut M,
    reader: &mut Input<R>,
    writer: &mut Output<W>,
) -> io::Result<u64>
    requires moments { M.place moments.old ≡ 0 }

    // It breaks off only where a call of the reader or of the writer failed in it.
    ensures failed { OnErr result (IsCutOff reader.new writer.new) }
    ensures whole { OnOk result (StandAsBefore reader.old reader.new writer.old writer.new) }

    // Each line is answered as it is defined, or by a fault.
    ensures served { IfOk result (λ faults. (input : List ℕ) → R.remaining (reader_of reader.old) ≡ Some input →
        Served (standing F.front_state session.old) (M.moment moments.old) 0 input faults
        (W.contents (writer_of writer.old)) (W.contents (writer_of writer.new)) (standing F.front_state session.new)) }

    // Without a fault, and where the slot's number isn't spent, the bytes and the state are the defined ones.
    ensures clean { IfOk result (λ faults. faults ≡ 0 → (F.front_state session.new.front).number < max_counter → (input : List ℕ) → R.remaining (reader_of reader.old) ≡ Some input →
        ServedCleanly (seen (standing F.front_state session.old)) (M.moment moments.old) 0 input
        (W.contents (writer_of writer.old)) (W.contents (writer_of writer.new)) (seen (standing F.front_state session.new))) }

    // A prefix of the lines was met, also where the reader or the writer fails.
    ensures met { (input : List ℕ) → R.remaining (reader_of reader.old) ≡ Some input → (asked : List Command)
        × HandlesPrefix (standing F.front_state session.old) (M.moment moments.old) input asked (standing F.front_state session.new)
        × F.leads_to session.old.front asked session.new.front }
    ensures later { (asked : List Command) × F.leads_to session.old.front asked session.new.front }
{
    let mut faults = 0u64;
    let mut line = Vec::new(alloc);
    reader.count_anew();
    for _ in 0..u64::MAX {
        let read = read_line(reader, &mut line)?;
        if read == LineRead::End {
            return Ok(faults);
        }
        let moment = moments.next();
        let found = serve_line(alloc, session, moment, read, &line, writer)?;
        faults += found;
    }
    Err(io::Error::from(ErrorKind::Other))
}
