//! Why no program ran.
//! Definitions: specs/StartErrors.antt. Tests: registry_tests/src/trigger_runs/starters.rt.
ghost use Rattle.std.specs.IoError.{error_kind};
ghost use Rattle.std.specs.Prelude.{◌≡◌, ◌↔◌, IsTrue};
ghost use Rattle.wm_triggers.specs.StartErrors.{IsOwnMemory, IsStartCause, cause_of_kind};

use std::alloc::AllocFailed;
use std::io;
use std::io::ErrorKind;
use wm_disk::NoMemory;
use wm_explain::StartCause;

/// Why no program ran.
#[derive(Clone, Copy, Debug, PartialEq, Eq)]
pub enum NotRun {
    /// The permit refused the start: none was tried.
    NotPermitted,
    /// The start was tried, and failed for this cause.
    DeviceFailed(StartCause),
    /// Memory of this process ran out.
    NoMemory,
}

/// Why a start failed, by the kind of its error.
fn cause_of_kind(kind: ErrorKind) -> StartCause
    ensures { result ≡ cause_of_kind kind }
{
    match kind {
        ErrorKind::NotFound | ErrorKind::NotADirectory => StartCause::NoFile,
        ErrorKind::PermissionDenied => StartCause::NoPermission,
        ErrorKind::ArgumentListTooLong => StartCause::TooLong,
        ErrorKind::WouldBlock => StartCause::NoProcess,
        ErrorKind::OutOfMemory => StartCause::NoMemory,
        _ => StartCause::Refused,
    }
}

/// Why a start failed.
fn cause_of(error: &io::Error) -> StartCause
    ensures { IsStartCause error.now result }
{
    match error.raw_os_error() {
        Some(8) => StartCause::NoProgram,
        _ => cause_of_kind(error.kind()),
    }
}

/// Whether memory of this process ran out, and not that of the system.
fn is_own_memory(error: &io::Error) -> bool
    ensures { IsTrue result ↔ IsOwnMemory error.now }
{
    error.kind() == ErrorKind::OutOfMemory && error.raw_os_error().is_none()
}

impl From<NoMemory> for NotRun {
    ghost use Rattle.wm_triggers.specs.declared.not_run.NotRun.TheVariants.{NoMemory as out_of_memory};

    ghost from_gives = { λ _ e. e ≡ out_of_memory };

    fn from(_error: NoMemory) -> NotRun {
        NotRun::NoMemory
    }
}

impl<T: Drop> From<AllocFailed<T>> for NotRun {
    ghost use Rattle.wm_triggers.specs.declared.not_run.NotRun.TheVariants.{NoMemory as out_of_memory};

    ghost from_gives = { λ _ e. e ≡ out_of_memory };

    fn from(_error: AllocFailed<T>) -> NotRun {
        NotRun::NoMemory
    }
}

impl From<io::Error> for NotRun {
    ghost use Rattle.std.specs.Prelude.{◌≡◌, ◌⊎◌};
    ghost use Rattle.wm_explain.specs.declared.start_cause.StartCause.{StartCause};
    ghost use Rattle.wm_triggers.specs.StartErrors.{IsOwnMemory, IsStartCause};
    ghost use Rattle.wm_triggers.specs.declared.not_run.NotRun.TheVariants.{DeviceFailed as start_failed, NoMemory as out_of_memory};

    ghost from_gives = { λ error e. ((e ≡ out_of_memory) × IsOwnMemory error) ⊎ ((cause : StartCause) × (e ≡ start_failed cause) × IsStartCause error cause × ¬ IsOwnMemory error) };

    fn from(error: io::Error) -> NotRun {
        if is_own_memory(&error) {
            NotRun::NoMemory
        } else {
            NotRun::DeviceFailed(cause_of(&error))
        }
    }
}
