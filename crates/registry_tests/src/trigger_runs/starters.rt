//! Errors of a start, and a starter that starts nothing.
use crate::checks::check;
use crate::trigger_runs::making::{Unasked, root, run_with, trigger_for};
use std::alloc::Global;
use std::io;
use std::io::ErrorKind;
use std::process::{Abort, Command};
use wm_explain::StartCause;
use wm_triggers::{NotRun, Permit, ProgramEnd, Starter};

/// Errors of Linux, and why a program wasn't started by each.
const CAUSES: &[(i32, StartCause)] = &[
    // EPERM
    (1, StartCause::NoPermission),
    // ENOENT
    (2, StartCause::NoFile),
    // EIO
    (5, StartCause::Refused),
    // E2BIG
    (7, StartCause::TooLong),
    // ENOEXEC
    (8, StartCause::NoProgram),
    // EAGAIN
    (11, StartCause::NoProcess),
    // ENOMEM
    (12, StartCause::NoMemory),
    // EACCES
    (13, StartCause::NoPermission),
    // ENOTDIR
    (20, StartCause::NoFile),
];

#[test]
fn an_error_of_the_system_has_a_cause(rt: HostRuntime) {
    for (number, cause) in CAUSES {
        let not_run = NotRun::from(io::Error::from_raw_os_error(*number));
        check!(rt; not_run == NotRun::DeviceFailed(*cause), number);
    }
}

/// A starter that starts nothing, for want of memory: the system's, or this process's.
#[derive(Drop)]
struct Full {
    is_system: bool,
}

impl Starter for Full {
    ghost has_run = { λ starter launch end. Unit {0} };

    ghost has_failed = { λ starter launch cause. Unit {0} };

    fn start_and_wait<P: Permit>(
        &self,
        command: Command,
        input: Option<Vec<u8>>,
        _permit: &P,
    ) -> Result<(ProgramEnd, P::Ended), NotRun> {
        drop(command);
        drop(input);
        let error = if self.is_system {
            // ENOMEM
            io::Error::from_raw_os_error(12)
        } else {
            io::Error::from(ErrorKind::OutOfMemory)
        };
        Err(NotRun::from(error))
    }
}

/// How a starter refuses a run.
fn refused_by<S: Starter>(rt: &impl Abort, alloc: Global, starter: &S) -> Option<NotRun> {
    let root = root(rt, alloc, "/r");
    let trigger = trigger_for(rt, alloc, None);
    let run = run_with(rt, alloc, &["a.c"]);
    let refused = starter.run(alloc, &root, &trigger, &run, Unasked).err();
    drop(run);
    drop(trigger);
    drop(root);
    refused
}

#[test]
fn memory_of_the_system_fails_the_start(rt: HostRuntime) {
    let refused = refused_by(&rt, rt.alloc(), &Full { is_system: false });
    check!(rt; refused == Some(NotRun::NoMemory));
    let refused = refused_by(&rt, rt.alloc(), &Full { is_system: true });
    check!(rt; refused == Some(NotRun::DeviceFailed(StartCause::NoMemory)));
}
