//! The programs of the operating system.
//! Tests: registry_tests/src/trigger_runs/programs.rt, registry_tests/src/trigger_runs/permits.rt.
use crate::not_run::NotRun;
use crate::permit::Permit;
use crate::program_end::{ProgramEnd, end_of};
use crate::starter::Starter;
use std::io::Write;
use std::process::{Child, Command, OpenProcess, Processes, Stdio};

/// Starts the programs of the operating system. Their standard output and error are those of this process, and they have none of
/// its other open files. No contract can say what they do.
#[derive(Drop)]
pub struct SystemStarter<R> {
    processes: R,
}

impl<R: Processes> SystemStarter<R> {
    /// A starter of the programs of this system.
    pub fn new(processes: R) -> SystemStarter<R> {
        SystemStarter { processes }
    }
}

/// Writes the input and waits for the program's end: how it ended. A program may end without having read it all.
fn finish<P: OpenProcess + Drop>(mut child: Child<P>, input: Option<Vec<u8>>) -> ProgramEnd {
    if let (Some(mut stdin), Some(bytes)) = (child.stdin.take(), input) {
        let _written = stdin.write_all(&bytes);
    }
    match child.wait() {
        Ok(status) => end_of(&status),
        Err(_) => ProgramEnd::Unknown,
    }
}

impl<R: Processes> Starter for SystemStarter<R> {
    ghost has_run = { λ starter launch end. Unit {0} };

    ghost has_failed = { λ starter launch cause. Unit {0} };

    fn start_and_wait<P: Permit>(
        &self,
        mut command: Command,
        input: Option<Vec<u8>>,
        permit: &P,
    ) -> Result<(ProgramEnd, P::Ended), NotRun> {
        let stdin = if input.is_some() {
            Stdio::piped()
        } else {
            Stdio::null()
        };
        command.stdin(stdin);
        let Some(given) = permit.begin() else {
            return Err(NotRun::NotPermitted);
        };
        let spawned = command.spawn(&self.processes);
        let ended = permit.end(given);
        Ok((finish(spawned?, input), ended))
    }
}
