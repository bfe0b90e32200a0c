//! What starts the programs of runs. Many threads may start programs by one starter.
//! Definitions: specs/Starting.antt. Tests: registry_tests/src/trigger_runs/starters.rt.
ghost use Rattle.std.specs.Prelude.{option_map, IfOk, IsErrOf};
ghost use Rattle.wm_explain.specs.declared.start_cause.StartCause.{StartCause};
ghost use Rattle.wm_triggers.specs.declared.not_run.NotRun.TheVariants.{DeviceFailed};
ghost use Rattle.wm_triggers.specs.declared.program_end.ProgramEnd.{ProgramEnd};
ghost use Rattle.wm_triggers.specs.Starting.{Launch, launch_by, launch_for};

use crate::not_run::NotRun;
use crate::permit::Permit;
use crate::program_end::ProgramEnd;
use crate::run::Run;
use crate::starting::run_launch;
use std::alloc::Global;
use std::process::Command;
use wm_names::RootPath;
use wm_registry::Trigger;

/// Starts programs, and waits for the end of each. The permit of a start is asked right before it and told right after it: that
/// the start is over comes with the program's end. `NotPermitted` if the permit refuses the start.
pub trait Starter {
    /// A program that was started so has ended so.
    ghost has_run: { Self → Launch → ProgramEnd → Type 0 };

    /// The start of such a program was tried, and failed for this cause.
    ghost has_failed: { Self → Launch → StartCause → Type 0 };

    /// Starts the command's program, which reads the input, or `/dev/null` if there is none, and waits for its end, however it
    /// ends.
    fn start_and_wait<P: Permit>(
        &self,
        command: Command,
        input: Option<Vec<u8>>,
        permit: &P,
    ) -> Result<(ProgramEnd, P::Ended), NotRun>
        ensures ran { IfOk result (λ ran. has_run self.now (launch_by command (option_map (λ i. i.items) input)) ran.0) }
        ensures permitted { IfOk result (λ ran. P.shows_ended permit.now ran.1) }
        ensures failed { (cause : StartCause) → IsErrOf result (DeviceFailed cause) → has_failed self.now (launch_by command (option_map (λ i. i.items) input)) cause };

    /// Starts the trigger's program for the files of its run: with just the words, the working folder and the input of the run and
    /// the environment of this process.
    fn run<P: Permit + Drop>(
        &self,
        alloc: Global,
        root: &RootPath,
        trigger: &Trigger,
        run: &Run,
        permit: P,
    ) -> Result<(ProgramEnd, P::Ended), NotRun>
        ensures ran { IfOk result (λ ran. has_run self.now (launch_for root.now trigger.now run.now) ran.0) }
        ensures permitted { IfOk result (λ ran. P.shows_ended permit ran.1) }
        ensures failed { (cause : StartCause) → IsErrOf result (DeviceFailed cause) → has_failed self.now (launch_for root.now trigger.now run.now) cause }
    {
        let (command, input) = run_launch(alloc, root, trigger, run)?;
        self.start_and_wait(command, input, &permit)
    }
}
