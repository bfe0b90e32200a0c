//! The `lines` command: the lines of a reader over a state file. Its definitions are in specs/program:
//! Endings, Programs.
//! Tests: session_tests/src/ends.rt, session_tests/src/lines/failures.rt.
ghost use Rattle.std.specs.Prelude.{◌≡◌, ℕ, List, Some, true, OnOk, OnErr};
ghost use Rattle.std.specs.Io.KnownBytes.{Appends};
ghost use Rattle.wm_session.specs.local.Stores.{Later};
ghost use Rattle.wm_server.specs.program.Endings.{Ends, EndsBy, LeavesAnytime, Tells, status_of};
ghost use Rattle.wm_server.specs.program.Programs.{IsTold, LinesAnswered, LinesServed, message_of};
ghost use Rattle.wm_session.specs.session.Streams.{reader_of, writer_failed, writer_of};

use std::alloc::Global;
use std::io;
use std::io::{BufRead, Write};
use wm_disk::{Disk, Refusal};
use wm_session::run::{LineNumbers, run};
use wm_session::{Input, LocalFront, Output, Session};

/// How a session over a file ended.
#[derive(Clone, Copy, Debug, PartialEq, Eq)]
pub enum Ending {
    /// The reader ended, and the file was closed.
    Served,
    /// The start or the close was refused.
    Refused(Refusal),
    /// The reader or the writer failed; the file was closed.
    Broken,
    /// The writer failed since nobody reads what it writes; the file was closed.
    Unread,
}

/// Answers the lines of a reader to a writer over the state file on a disk, and closes the file at the
/// reader's end, or where the reader or the writer fails. The disk is handed back.
pub fn serve_lines<D: Disk + Drop, R: BufRead, W: Write>(
    alloc: Global,
    disk: D,
    reader: &mut Input<R>,
    writer: &mut Output<W>,
) -> (Ending, D)
    ensures served { result.0 ≡ Ending.Served → D.honest result.1 → (input : List ℕ) → R.remaining (reader_of reader.old) ≡ Some input →
        LinesServed D.Disk disk input (W.contents (writer_of writer.old)) (W.contents (writer_of writer.new)) result.1 }
    ensures answered { result.0 ≡ Ending.Served → (input : List ℕ) → R.remaining (reader_of reader.old) ≡ Some input → LinesAnswered input (W.contents (writer_of writer.old)) (W.contents (writer_of writer.new)) }
    ensures refused { Ends D.Disk result.0 (R.remaining (reader_of reader.old)) disk result.1 }
    ensures any_moment { LeavesAnytime D.Disk (R.remaining (reader_of reader.old)) disk result.1 }
    ensures cause { EndsBy result.0 reader.old reader.new writer.old writer.new }
    ensures later { Later D.Disk disk result.1 }
{
    let front = match LocalFront::open(alloc, disk) {
        Ok(front) => front,
        Err((refusal, disk)) => return (Ending::Refused(refusal), disk),
    };
    let mut session = Session::new(alloc, front);
    let ran = run(alloc, &mut session, &mut LineNumbers::new(), reader, writer);
    let (closed, disk) = session.front.close();
    match (closed, ran) {
        (Err(refusal), _) => (Ending::Refused(refusal), disk),
        (Ok(()), Err(_)) if writer.is_closed() => (Ending::Unread, disk),
        (Ok(()), Err(_)) => (Ending::Broken, disk),
        (Ok(()), Ok(_)) => (Ending::Served, disk),
    }
}

/// Tells on `faults` why a program was refused: its name, and the refusal's number and name. An `Err` is
/// that of a call of the writer, which may have written a part.
pub fn tell<E: Write>(refusal: Refusal, faults: &mut Output<E>) -> io::Result<()>
    ensures told { OnOk result (Appends (E.contents (writer_of faults.old)) (E.contents (writer_of faults.new)) (message_of refusal)) }
    ensures failed { OnErr result (writer_failed faults.new ≡ true) }
{
    faults.put(b"watchmand: ")?;
    faults.put(refusal.text().as_bytes())?;
    faults.put(b"\n")?;
    Ok(())
}

/// The status of a program that was refused, which it tells on `faults`.
pub fn refuse<E: Write>(refusal: Refusal, faults: &mut Output<E>) -> u8
    ensures status { result ≡ 1 }
    ensures told { IsTold E.contents refusal faults.old faults.new }
{
    // Where even this can't be told, the status still tells that it was refused.
    let _told = tell(refusal, faults);
    1
}

/// All of `watchmand lines` on a disk, with its status: 0, or 1 with the reason told on `faults`. A
/// reader or writer that failed is told as `DeviceFailed`, but of a writer that nobody reads any more, as
/// a closed pipe, nothing is told.
pub fn lines_on<D: Disk + Drop, R: BufRead, W: Write, E: Write>(
    alloc: Global,
    disk: D,
    reader: &mut Input<R>,
    writer: &mut Output<W>,
    faults: &mut Output<E>,
) -> (u8, D)
    ensures served { result.0 ≡ 0 → D.honest result.1 → (input : List ℕ) → R.remaining (reader_of reader.old) ≡ Some input →
        LinesServed D.Disk disk input (W.contents (writer_of writer.old)) (W.contents (writer_of writer.new)) result.1 }
    ensures answered { result.0 ≡ 0 → (input : List ℕ) → R.remaining (reader_of reader.old) ≡ Some input → LinesAnswered input (W.contents (writer_of writer.old)) (W.contents (writer_of writer.new)) }
    ensures quiet { result.0 ≡ 0 → faults.new ≡ faults.old }
    ensures refused { (ending : Ending) × (result.0 ≡ status_of ending) × Ends D.Disk ending (R.remaining (reader_of reader.old)) disk result.1
        × EndsBy ending reader.old reader.new writer.old writer.new × Tells E.contents ending faults.old faults.new }
    ensures any_moment { LeavesAnytime D.Disk (R.remaining (reader_of reader.old)) disk result.1 }
    ensures later { Later D.Disk disk result.1 }
{
    let (ending, disk) = serve_lines(alloc, disk, reader, writer);
    match ending {
        Ending::Served => (0, disk),
        Ending::Refused(refusal) => (refuse(refusal, faults), disk),
        Ending::Broken => (refuse(Refusal::DeviceFailed, faults), disk),
        Ending::Unread => (1, disk),
    }
}
