//! Lines off a reader, each in bounded memory. Their definitions are in specs/session: Inputs, Reading.
//! Tests: session_tests/src/lines/limits.rt, session_tests/src/ends.rt.
ghost use Rattle.std.specs.Prelude.{◌≡◌, ◌≤◌, ◌<◌, ◌+◌, ◌-◌, ◌^◌, ℕ, List, Some, true, false, length, vec_len, IfOk, OnOk, OnErr};
ghost use Rattle.wm_session.specs.session.Inputs.{KeepsPart, SplitsAt, max_kept};
ghost use Rattle.wm_session.specs.session.Reading.{ReadsLine, TakesPart};
ghost use Rattle.wm_session.specs.session.Streams.{lines_read, reader_failed, reader_of};

use std::io;
use std::io::{BufRead, ErrorKind};
use wm_protocol::MAX_LINE;

/// A reader, with the number of lines that a session has read off it, and a note of whether a call of it
/// has failed.
#[derive(Drop)]
pub struct Input<R> {
    reader: R,
    lines: u64,
    has_failed: bool,
}

impl<R: BufRead> Input<R> {
    /// A reader that hasn't failed yet, before its first line.
    pub fn new(reader: R) -> Input<R>
        ensures reader { reader_of result ≡ reader }
        ensures first { lines_read result ≡ 0 }
        ensures whole { reader_failed result ≡ false }
    {
        Input {
            reader,
            lines: 0,
            has_failed: false,
        }
    }

    /// Counts the lines from here on.
    pub(crate) fn count_anew(&mut self)
        ensures reader { reader_of self.new ≡ reader_of self.old }
        ensures first { lines_read self.new ≡ 0 }
        ensures whole { reader_failed self.new ≡ reader_failed self.old }
    {
        self.lines = 0;
    }
}

/// What was read of a line.
#[derive(Clone, Copy, Debug, PartialEq, Eq)]
pub enum LineRead {
    /// The line was kept, with its newline if it has one; of one that is longer than a line may be,
    /// its first part.
    Kept,
    /// The line was skipped, since no room was found for it.
    Lost,
    /// The input has ended.
    End,
}

/// What was taken off a reader of a line.
#[derive(Clone, Copy, Debug, PartialEq, Eq)]
enum Part {
    /// Some bytes, perhaps none, with no newline among them.
    Open,
    /// The bytes up to and with a newline.
    Closed,
    /// None: the input has ended.
    End,
}

/// What is kept of a line: one byte more than a line may have, so that a longer one is seen to be.
const MAX_KEPT: usize = MAX_LINE + 1;

/// The number of bytes up to and with the first newline, and whether there is one.
fn through_newline(bytes: &[u8]) -> (usize, bool)
    ensures bound { result.0 ≤ length bytes.now }
    ensures splits { SplitsAt bytes.now result.0 result.1 }
{
    for (i, byte) in bytes.iter().enumerate() {
        if *byte == b'\n' {
            return (i + 1, true);
        }
    }
    (bytes.len(), false)
}

/// Keeps of a part of a line what a line may have and one byte more. Where no room is found the line
/// is lost.
fn keep(line: &mut Vec<u8>, part: &[u8], is_lost: &mut bool)
    requires { vec_len line.old ≤ max_kept }
    ensures bound { vec_len line.new ≤ max_kept }
    ensures kept { KeepsPart line.old.items part.now is_lost.old line.new.items is_lost.new }
{
    let room = MAX_KEPT - line.len();
    let kept = part.split_at(room.min(part.len())).0;
    if line.extend_from_slice(kept).is_err() {
        *is_lost = true;
    }
}

/// Takes off a reader what it holds of a line, and keeps it. An `Err` is a call of the reader that failed.
fn take_part<R: BufRead>(reader: &mut R, line: &mut Vec<u8>, is_lost: &mut bool) -> io::Result<Part>
    requires { vec_len line.old ≤ max_kept }
    ensures bound { vec_len line.new ≤ max_kept }
    ensures taken { IfOk result (λ part. (rest : List ℕ) → R.remaining reader.old ≡ Some rest →
        TakesPart rest part (line.old.items, is_lost.old) (line.new.items, is_lost.new) (R.remaining reader.new)) }
{
    let shown = match reader.fill_buf() {
        Ok(shown) => shown,
        Err(e) if e.kind() == ErrorKind::Interrupted => return Ok(Part::Open),
        Err(e) => return Err(e),
    };
    if shown.is_empty() {
        return Ok(Part::End);
    }
    let (len, is_closed) = through_newline(shown);
    keep(line, shown.split_at(len).0, is_lost);
    reader.consume(len);
    Ok(if is_closed { Part::Closed } else { Part::Open })
}

/// Reads the next line into `line`, with its newline if it has one. Of a line that is longer than a
/// line may be the first part is kept, and the rest is skipped. An `Err` is a call of the reader that failed, or
/// comes of a reader that was interrupted for ever.
fn line_off<R: BufRead>(reader: &mut R, line: &mut Vec<u8>) -> io::Result<LineRead>
    ensures { IfOk result (λ read. (rest : List ℕ) → R.remaining reader.old ≡ Some rest → ReadsLine rest read line.new.items (R.remaining reader.new)) }
{
    line.clear();
    let mut is_lost = false;
    for _ in 0..u64::MAX {
        let part = take_part(reader, line, &mut is_lost)?;
        match part {
            Part::Open => {}
            Part::Closed if is_lost => return Ok(LineRead::Lost),
            Part::Closed => return Ok(LineRead::Kept),
            Part::End if is_lost => return Ok(LineRead::Lost),
            Part::End if line.is_empty() => return Ok(LineRead::End),
            Part::End => return Ok(LineRead::Kept),
        }
    }
    Err(io::Error::from(ErrorKind::Other))
}

/// Reads the next line off an input, as far as it may be kept. An `Err` is a call of the reader that failed,
/// or comes of a reader that was interrupted for ever; the input notes it, and `line` may hold a part.
pub fn read_line<R: BufRead>(input: &mut Input<R>, line: &mut Vec<u8>) -> io::Result<LineRead>
    requires { lines_read input.old < 2 ^ 64 - 1 }
    ensures read { IfOk result (λ read. (rest : List ℕ) → R.remaining (reader_of input.old) ≡ Some rest → ReadsLine rest read line.new.items (R.remaining (reader_of input.new))) }
    ensures counted { lines_read input.new ≡ lines_read input.old + 1 }
    ensures failed { OnErr result (reader_failed input.new ≡ true) }
    ensures whole { OnOk result (reader_failed input.new ≡ reader_failed input.old) }
{
    input.lines += 1;
    match line_off(&mut input.reader, line) {
        Ok(read) => Ok(read),
        Err(e) => {
            input.has_failed = true;
            Err(e)
        }
    }
}
