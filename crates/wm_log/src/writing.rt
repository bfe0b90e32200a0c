//! How an event is written. Definitions: specs/LogLines, specs/LogLimits. Tests: leaf_tests/src/logs.rt.
ghost use Rattle.std.specs.Prelude.{◌≡◌, ◌⊎◌, ℕ, List, true, IfErr, MatchBool, OnOk};
ghost use Rattle.std.specs.Io.KnownBytes.{Appends};
ghost use Rattle.wm_log.specs.LogLimits.{after_logging, passes_limit};
ghost use Rattle.wm_log.specs.LogLines.{IsLogLine, log_text};

use crate::event::Event;
use crate::limiter::LogLimiter;
use crate::lines::{line_by, text_of};
use std::alloc::Global;
use std::io::Write;
use wm_disk::Refusal;

/// Writes a text to its end. `DeviceFailed` if the writer fails.
fn write_text<W: Write>(text: &str, writer: &mut W) -> Result<(), Refusal>
    ensures written { OnOk result (Appends (W.contents writer.old) (W.contents writer.new) text.now) }
    ensures failed { IfErr result (λ e. e ≡ Refusal.DeviceFailed) }
{
    match writer.write_all(text.as_bytes()) {
        Ok(()) => Ok(()),
        Err(_) => Err(Refusal::DeviceFailed),
    }
}

/// Writes the line of an event, if the limiter lets what it says through, and else nothing. `NoMemory`, and `DeviceFailed` if the writer fails: then
/// a part of the line may be written.
pub fn write_event<W: Write>(
    alloc: Global,
    limiter: &mut LogLimiter,
    event: &Event,
    writer: &mut W,
) -> Result<(), Refusal>
    ensures written { OnOk result (MatchBool (passes_limit event.now.time (log_text event.now) limiter.old)
        ((line : List ℕ) × IsLogLine event.now line × Appends (W.contents writer.old) (W.contents writer.new) line) (writer.new ≡ writer.old)) }
    ensures counted { OnOk result (limiter.new ≡ after_logging event.now.time (log_text event.now) limiter.old) }
    ensures refused { IfErr result (λ e. (e ≡ Refusal.NoMemory) ⊎ ((e ≡ Refusal.DeviceFailed) × (passes_limit event.now.time (log_text event.now) limiter.old ≡ true))) }
{
    let text = text_of(alloc, event)?;
    let line = line_by(alloc, event, &text)?;
    if limiter.passes(alloc, event.time, &text)? {
        write_text(&line, writer)?;
    }
    Ok(())
}
