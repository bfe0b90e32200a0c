//! A starter whose programs' ends are logged.
//! Tests: tools/try/log.py.
ghost use Rattle.std.specs.Prelude.{◌≡◌, None, Some, IfOk, MatchOption, string_bytes};
ghost use Rattle.wm_triggers.specs.Starting.{program_in};
ghost use Rattle.wm_workers.specs.LogEvents.{IsLoggedRun};
ghost use Rattle.wm_workers.specs.LoggedParts.{starter_behind};

use crate::log::{EventLog, run_event};
use std::alloc::Global;
use std::process::Command;
use std::sync::Wait;
use std::time::Clock;
use wm_disk::NoMemory;
use wm_log::What;
use wm_names::RootPath;
use wm_registry::Trigger;
use wm_triggers::{NotRun, Permit, ProgramEnd, Run, Starter};

/// What starts programs, a log, and what its times are read by.
#[derive(Drop)]
pub struct LoggedStarter<'p, 'l, S, K> {
    starter: &'p S,
    log: &'l EventLog,
    clock: K,
}

/// The program of a trigger, and an empty text if its command has no word.
fn program_of(trigger: &Trigger) -> &str
    ensures { result.now ≡ program_in trigger.now.command }
{
    match trigger.command() {
        [program, ..] => program.as_str(),
        [] => "",
    }
}

/// What is logged of a run of a trigger of a root, with the path of the root.
fn event_of(
    alloc: Global,
    root: &RootPath,
    trigger: &Trigger,
    ended: &Result<ProgramEnd, NotRun>,
) -> Result<Option<(String, What)>, NoMemory>
    ensures { let is_logged = IsLoggedRun trigger.now.name (program_in trigger.now.command) ended.now in
        IfOk result (λ event. MatchOption event (is_logged None) (λ logged. (string_bytes logged.0 ≡ root.now) × is_logged (Some logged.1))) }
{
    match run_event(alloc, trigger.name(), program_of(trigger), ended)? {
        Some(what) => Ok(Some((String::from_str(alloc, root.as_str())?, what))),
        None => Ok(None),
    }
}

impl<'p, 'l, S: Starter, K: Wait + Clock> LoggedStarter<'p, 'l, S, K> {
    /// This starter, whose programs' ends are logged.
    pub fn new(starter: &'p S, log: &'l EventLog, clock: K) -> LoggedStarter<'p, 'l, S, K>
        ensures { starter_behind result ≡ starter.now }
    {
        LoggedStarter {
            starter,
            log,
            clock,
        }
    }
}

impl<S: Starter, K: Wait + Clock> Starter for LoggedStarter<'_, '_, S, K> {
    ghost has_run = { λ logged launch end. S.has_run (starter_behind logged) launch end };

    ghost has_failed = { λ logged launch cause. S.has_failed (starter_behind logged) launch cause };

    fn start_and_wait<P: Permit>(
        &self,
        command: Command,
        input: Option<Vec<u8>>,
        permit: &P,
    ) -> Result<(ProgramEnd, P::Ended), NotRun> {
        self.starter.start_and_wait(command, input, permit)
    }

    fn run<P: Permit + Drop>(
        &self,
        alloc: Global,
        root: &RootPath,
        trigger: &Trigger,
        run: &Run,
        permit: P,
    ) -> Result<(ProgramEnd, P::Ended), NotRun> {
        let ran = self.starter.run(alloc, root, trigger, run, permit);
        let ended = match &ran {
            Ok((end, _)) => Ok(*end),
            Err(not_run) => Err(*not_run),
        };
        // what memory runs out for isn't logged
        if let Ok(Some((root, what))) = event_of(alloc, root, trigger, &ended) {
            self.log.note(&self.clock, Some(root), what);
        }
        ran
    }
}
