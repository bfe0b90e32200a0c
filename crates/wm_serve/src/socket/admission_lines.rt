//! The lines of admission: why a session isn't admitted, and that the server is ready.
//! Definitions: specs/AdmissionLines.antt. Tests: serve_tests/src/sessions.rt.
ghost use Rattle.std.specs.Prelude.{◌≡◌, ◌⊎◌, ◌<◌, Err, IfErr, OnOk};
ghost use Rattle.std.specs.Io.KnownBytes.{Appends};
ghost use Rattle.wm_lines.specs.Replies.{reply_bytes};
ghost use Rattle.wm_serve.specs.AcceptQueues.{turned_away_by};
ghost use Rattle.wm_serve.specs.AdmissionLines.{ready_bytes};

use crate::slots::lines::send_no_memory;
use std::io;
use std::io::Write;
use wm_disk::Refusal;

const TOO_MANY: &str = "{\"error\":\"17 TooMany\",\"version\":\"w1\"}\n";

const READY: &str = "ready\n";

/// Sends that each slot is taken.
fn send_too_many<W: Write>(writer: &mut W) -> io::Result<()>
    ensures { OnOk result (Appends (W.contents writer.old) (W.contents writer.new) (reply_bytes (Err Refusal.TooMany))) }
{
    writer.write_all(TOO_MANY.as_bytes())
}

/// Sends a session why it isn't admitted: that each slot is taken, or that memory ran out.
pub fn send_turned_away<W: Write>(is_full: bool, writer: &mut W) -> io::Result<()>
    ensures { OnOk result (Appends (W.contents writer.old) (W.contents writer.new) (reply_bytes (Err (turned_away_by is_full)))) }
{
    if is_full {
        send_too_many(writer)
    } else {
        send_no_memory(writer)
    }
}

/// Writes that the server is ready.
fn write_ready<W: Write>(writer: &mut W) -> io::Result<()>
    ensures { OnOk result (Appends (W.contents writer.old) (W.contents writer.new) ready_bytes) }
{
    writer.write_all(READY.as_bytes())
}

/// Reports that the server is ready, if it has a slot. `NoMemory` if it has none: nothing is written then; and `DeviceFailed` if the
/// writer fails.
pub fn report_ready<W: Write>(slots: u64, writer: &mut W) -> Result<(), Refusal>
    ensures ready { OnOk result ((0 < slots) × Appends (W.contents writer.old) (W.contents writer.new) ready_bytes) }
    ensures refused { IfErr result (λ e. ((e ≡ Refusal.NoMemory) × (slots ≡ 0) × (writer.new ≡ writer.old)) ⊎ ((e ≡ Refusal.DeviceFailed) × (0 < slots))) }
{
    if slots == 0 {
        return Err(Refusal::NoMemory);
    }
    match write_ready(writer) {
        Ok(()) => Ok(()),
        Err(_) => Err(Refusal::DeviceFailed),
    }
}
