//! A talk with a server: one request, its reply, and lines that come after it. Definitions: specs/Talks.
//! Tests: client_tests/src/wmctl/talks.rt.
ghost use Rattle.std.specs.Prelude.{◌≡◌, ◌≢◌, ◌∷◌, ◌++◌, [], ℕ, true, false, codes, length, List, Some, IfErr, IfOk, Ok};
ghost use Rattle.std.specs.Io.BufRead.{drop_through, take_through};
ghost use Rattle.std.specs.Io.KnownBytes.{Appends};
ghost use Rattle.wm_client.specs.Talks.{AppendsStart, HasLines, Prints, PrintsBefore, PrintsLines, PrintsReply, PrintsSome, has_come_whole, lines_first};
ghost use Rattle.wm_protocol.specs.Protocol.{is_refusal_line};

use std::alloc::Global;
use std::io::{BufRead, ErrorKind, Write};
use wm_disk::NoMemory;
use wm_protocol::is_refusal;

/// How a talk ended.
#[derive(Clone, Copy, Debug, PartialEq, Eq)]
pub enum TalkEnd {
    /// The reply and each line that was asked for were printed.
    Told,
    /// The reply is a refusal. It was printed, and no further line was awaited.
    Refused,
    /// The socket ended before a whole line had come.
    NoReply,
    /// A read of the socket failed.
    ReadFailed,
    /// A write of the request failed, and what came all the same is no refusal, so no reply to it. It wasn't printed.
    Unsent,
    /// What came couldn't be printed.
    Unprinted,
}

/// Sends a request, one line without its newline, and prints the reply and so many lines that come after it.
///
/// If a write fails, the server may have refused the session before it closed the socket (`17 TooMany`): the next line is read all
/// the same, and printed if it is a refusal. `Err` comes if a line that came has no room in memory; what came before it was printed.
pub fn talk<S: Write, R: BufRead, W: Write>(
    alloc: Global,
    json: &str,
    follow: u32,
    sender: &mut S,
    replies: &mut R,
    printer: &mut W,
) -> Result<TalkEnd, NoMemory>
    ensures sent { result ≡ Ok TalkEnd.Told → Appends (S.contents sender.old) (S.contents sender.new) (json.now ++ codes "\n") }
    ensures whole { IfOk result (PrintsReply follow (W.contents printer.old) (W.contents printer.new)) }
    ensures told { IfOk result (λ end. (input : List ℕ) → R.remaining replies.old ≡ Some input → Prints follow input (W.contents printer.old) (W.contents printer.new) end) }
    ensures short { IfErr result (λ _. (input : List ℕ) → R.remaining replies.old ≡ Some input → PrintsSome follow input (W.contents printer.old) (W.contents printer.new)) }
{
    let is_sent = send(json, sender);
    let mut line = Vec::new(alloc);
    match read_line(replies, &mut line)? {
        TalkEnd::Told => {}
        other => return Ok(other),
    }
    let is_refused = is_refusal(&line);
    if !is_refused && !is_sent {
        return Ok(TalkEnd::Unsent);
    }
    if !print(&line, printer) {
        return Ok(TalkEnd::Unprinted);
    }
    if is_refused {
        return Ok(TalkEnd::Refused);
    }
    print_lines(follow, replies, &mut line, printer)
}

/// Sends a request and its newline. `false` if a write failed: what was sent is a start of them.
pub(crate) fn send<S: Write>(json: &str, sender: &mut S) -> bool
    ensures sent { result ≡ true → Appends (S.contents sender.old) (S.contents sender.new) (json.now ++ codes "\n") }
    ensures start { AppendsStart (S.contents sender.old) (S.contents sender.new) (json.now ++ codes "\n") }
{
    send_bytes(json.as_bytes(), sender) && send_bytes(b"\n", sender)
}

/// Sends bytes. `false` if a write failed: what was sent is a start of them.
fn send_bytes<S: Write>(bytes: &[u8], sender: &mut S) -> bool
    ensures sent { result ≡ true → Appends (S.contents sender.old) (S.contents sender.new) bytes.now }
    ensures start { AppendsStart (S.contents sender.old) (S.contents sender.new) bytes.now }
{
    let mut sent = 0;
    for _ in 0..u64::MAX {
        if sent >= bytes.len() {
            return true;
        }
        match sender.write(bytes.split_at(sent).1) {
            Ok(0) => return false,
            Ok(count) => sent += count,
            Err(error) if error.kind() == ErrorKind::Interrupted => {}
            Err(_) => return false,
        }
    }
    false
}

/// Prints so many lines that come.
fn print_lines<R: BufRead, W: Write>(
    count: u32,
    replies: &mut R,
    line: &mut Vec<u8>,
    printer: &mut W,
) -> Result<TalkEnd, NoMemory>
    ensures whole { result ≡ Ok TalkEnd.Told → (lines : List (List ℕ)) × PrintsLines lines (W.contents printer.old) (W.contents printer.new) × (length lines ≡ count) }
    ensures told { result ≡ Ok TalkEnd.Told → (input : List ℕ) → R.remaining replies.old ≡ Some input → HasLines count input × Appends (W.contents printer.old) (W.contents printer.new) (lines_first count input) }
    ensures alone { IfOk result (λ end. (end ≢ TalkEnd.Refused) × (end ≢ TalkEnd.Unsent)) }
    ensures some { IfOk result (λ end. end ≢ TalkEnd.Told → end ≢ TalkEnd.Unprinted → (input : List ℕ) → R.remaining replies.old ≡ Some input → PrintsBefore count input (W.contents printer.old) (W.contents printer.new)) }
    ensures lacking { result ≡ Ok TalkEnd.NoReply → (input : List ℕ) → R.remaining replies.old ≡ Some input → HasLines count input → ⊥ }
    ensures short { IfErr result (λ _. (input : List ℕ) → R.remaining replies.old ≡ Some input → PrintsBefore count input (W.contents printer.old) (W.contents printer.new)) }
{
    for _ in 0..count {
        match print_line(replies, line, printer)? {
            TalkEnd::Told => {}
            other => return Ok(other),
        }
    }
    Ok(TalkEnd::Told)
}

/// Prints the next line that comes.
fn print_line<R: BufRead, W: Write>(
    replies: &mut R,
    line: &mut Vec<u8>,
    printer: &mut W,
) -> Result<TalkEnd, NoMemory>
    ensures whole { result ≡ Ok TalkEnd.Told → PrintsLines (line.new.items ∷ []) (W.contents printer.old) (W.contents printer.new) }
    ensures told { result ≡ Ok TalkEnd.Told → (input : List ℕ) → R.remaining replies.old ≡ Some input →
        (has_come_whole (take_through 10 input) ≡ true) × Appends (W.contents printer.old) (W.contents printer.new) (take_through 10 input) × (R.remaining replies.new ≡ Some (drop_through 10 input)) }
    ensures alone { IfOk result (λ end. (end ≢ TalkEnd.Refused) × (end ≢ TalkEnd.Unsent)) }
    ensures quiet { IfOk result (λ end. end ≢ TalkEnd.Told → end ≢ TalkEnd.Unprinted → W.contents printer.new ≡ W.contents printer.old) }
    ensures lacking { result ≡ Ok TalkEnd.NoReply → (input : List ℕ) → R.remaining replies.old ≡ Some input → has_come_whole (take_through 10 input) ≡ false }
    ensures short { IfErr result (λ _. W.contents printer.new ≡ W.contents printer.old) }
{
    match read_line(replies, line)? {
        TalkEnd::Told => {}
        other => return Ok(other),
    }
    if print(line, printer) {
        Ok(TalkEnd::Told)
    } else {
        Ok(TalkEnd::Unprinted)
    }
}

/// Prints a line. `false` if that failed.
pub(crate) fn print<W: Write>(line: &[u8], printer: &mut W) -> bool
    ensures { result ≡ true → Appends (W.contents printer.old) (W.contents printer.new) line.now }
{
    printer.write_all(line).is_ok()
}

/// Reads the next line that comes.
pub(crate) fn read_line<R: BufRead>(
    replies: &mut R,
    line: &mut Vec<u8>,
) -> Result<TalkEnd, NoMemory>
    ensures whole { result ≡ Ok TalkEnd.Told → has_come_whole line.new.items ≡ true }
    ensures told { result ≡ Ok TalkEnd.Told → (input : List ℕ) → R.remaining replies.old ≡ Some input → (line.new.items ≡ take_through 10 input) × (R.remaining replies.new ≡ Some (drop_through 10 input)) }
    ensures alone { IfOk result (λ end. (end ≢ TalkEnd.Refused) × (end ≢ TalkEnd.Unsent) × (end ≢ TalkEnd.Unprinted)) }
    ensures lacking { result ≡ Ok TalkEnd.NoReply → (input : List ℕ) → R.remaining replies.old ≡ Some input → has_come_whole (take_through 10 input) ≡ false }
{
    line.clear();
    if let Err(error) = replies.read_until(b'\n', line) {
        if error.kind() == ErrorKind::OutOfMemory {
            return Err(NoMemory);
        }
        return Ok(TalkEnd::ReadFailed);
    }
    if line.ends_with(b"\n") {
        Ok(TalkEnd::Told)
    } else {
        Ok(TalkEnd::NoReply)
    }
}
