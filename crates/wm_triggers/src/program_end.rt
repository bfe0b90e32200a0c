//! How a program ended.
//! Definitions: specs/ProgramEnds.antt. Tests: registry_tests/src/trigger_runs/programs.rt.
ghost use Rattle.std.specs.Prelude.{◌≡◌};
ghost use Rattle.wm_triggers.specs.ProgramEnds.{IsProgramEnd};

use std::os::unix::process::ExitStatusExt;
use std::process::ExitStatus;

/// How a program ended that was started.
#[derive(Clone, Copy, Debug, PartialEq, Eq)]
pub enum ProgramEnd {
    /// With this status.
    Exited(u8),
    /// By this signal.
    Killed(u8),
    /// The system doesn't say how.
    Unknown,
}

/// How a program of this status ended.
pub(crate) fn end_of(status: &ExitStatus) -> ProgramEnd
    ensures { IsProgramEnd status.now result }
{
    if let Some(code) = status.code() {
        return match u8::try_from(code) {
            Ok(code) => ProgramEnd::Exited(code),
            Err(_) => ProgramEnd::Unknown,
        };
    }
    match status.signal() {
        Some(signal) => match u8::try_from(signal) {
            Ok(signal) => ProgramEnd::Killed(signal),
            Err(_) => ProgramEnd::Unknown,
        },
        None => ProgramEnd::Unknown,
    }
}
