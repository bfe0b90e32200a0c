//! A text that is shown in place of what the words ask for. Definitions: specs/Parses.
ghost use Rattle.std.specs.Prelude.{◌≡◌, IfOk, Some};
ghost use Rattle.clap.specs.Values.{kind_of};
ghost use Rattle.wm_arguments.specs.Parses.{status_for};

use clap::Error;
use clap::error::ErrorKind;
use std::alloc::Global;
use wm_disk::NoMemory;

/// A text that is shown, and the status with which the program ends: help or the version (0) on standard output, a usage error (2)
/// on standard error.
#[derive(Drop)]
pub struct Shown {
    pub text: String,
    pub status: u8,
    /// It is a usage error because of an option that the command doesn't have.
    pub is_unknown_argument: bool,
}

/// A usage error in these words. `NoMemory`.
pub fn usage_error(alloc: Global, what: &str) -> Result<Shown, NoMemory>
    ensures { IfOk result (λ shown. shown.status ≡ 2) }
{
    let text = format!(in alloc; "error: {what}\n\nFor more information, try '--help'.\n")?;
    Ok(Shown {
        text,
        status: 2,
        is_unknown_argument: false,
    })
}

/// What is shown for an error of the parse. Running out of memory is no fault of the words: it is an `Err`.
pub(crate) fn shown_for(alloc: Global, error: &Error) -> Result<Shown, NoMemory>
    ensures { IfOk result (λ shown. status_for (kind_of error.now) ≡ Some shown.status) }
{
    if error.kind() == ErrorKind::OutOfMemory {
        return Err(NoMemory);
    }
    let status = if error.use_stderr() { 2 } else { 0 };
    let text = error.to_string(alloc)?;
    Ok(Shown {
        text,
        status,
        is_unknown_argument: error.kind() == ErrorKind::UnknownArgument,
    })
}
