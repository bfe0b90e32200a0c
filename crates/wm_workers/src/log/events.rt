//! Which results are logged, and as what.
//! Definitions: specs/LogEvents.antt. Tests: tools/try/log.py.
ghost use Rattle.std.specs.Prelude.{◌≡◌, ◌⊎◌, ◌↔◌, IsTrue, IfOk, string_bytes};
ghost use Rattle.std.specs.IoError.{error_kind};
ghost use Rattle.wm_workers.specs.LogEvents.{IsLoggedCrawl, IsLoggedRun};

use std::alloc::Global;
use std::io;
use std::io::ErrorKind;
use wm_disk::{NoMemory, Refusal};
use wm_explain::StartCause;
use wm_lines::Progress;
use wm_log::{StartFault, What};
use wm_triggers::{NotRun, ProgramEnd};

/// A program that couldn't be started, and why.
fn fault_of(alloc: Global, program: &str, cause: StartCause) -> Result<StartFault, NoMemory>
    ensures program { IfOk result (λ fault. string_bytes fault.program ≡ program.now) }
    ensures cause { IfOk result (λ fault. fault.cause ≡ cause) }
{
    let program = String::from_str(alloc, program)?;
    Ok(StartFault { program, cause })
}

/// What is logged of a run of the trigger of a name: that its program couldn't be started, and why, or ended other than with 0. A start that
/// wasn't permitted isn't logged: its definition doesn't stand any longer.
pub fn run_event(
    alloc: Global,
    name: &str,
    program: &str,
    ended: &Result<ProgramEnd, NotRun>,
) -> Result<Option<What>, NoMemory>
    ensures { IfOk result (IsLoggedRun name.now program.now ended.now) }
{
    match ended {
        Ok(ProgramEnd::Exited(0)) => Ok(None),
        Ok(ProgramEnd::Exited(status)) => {
            let name = String::from_str(alloc, name)?;
            Ok(Some(What::Exited(name, *status)))
        }
        Ok(ProgramEnd::Killed(signal)) => {
            let name = String::from_str(alloc, name)?;
            Ok(Some(What::Killed(name, *signal)))
        }
        Ok(ProgramEnd::Unknown) => Ok(None),
        Err(NotRun::NotPermitted) => Ok(None),
        Err(NotRun::DeviceFailed(cause)) => {
            let name = String::from_str(alloc, name)?;
            let fault = fault_of(alloc, program, *cause)?;
            Ok(Some(What::NotStarted(name, fault)))
        }
        Err(NotRun::NoMemory) => {
            let name = String::from_str(alloc, name)?;
            let fault = fault_of(alloc, program, StartCause::NoMemory)?;
            Ok(Some(What::NotStarted(name, fault)))
        }
    }
}

/// Why a crawl failed, if that is logged: not if its root isn't watched any longer, nor if it was of a part and no whole one came before.
pub fn crawl_failure(ended: &Result<Progress, Refusal>) -> Option<Refusal>
    ensures { IsLoggedCrawl ended.now result }
{
    match ended {
        Ok(_) => None,
        Err(Refusal::NotWatched) => None,
        Err(Refusal::NotReady) => None,
        Err(refusal) => Some(*refusal),
    }
}

/// Whether a call of a socket failed since it took too long.
pub fn took_too_long(error: &io::Error) -> bool
    ensures { IsTrue result ↔ ((error_kind error.now ≡ ErrorKind.WouldBlock) ⊎ (error_kind error.now ≡ ErrorKind.TimedOut)) }
{
    matches!(error.kind(), ErrorKind::WouldBlock | ErrorKind::TimedOut)
}
