//! Runs of triggers: which run is due by what is there, and how its program is started.
//!
//! A [`TriggerRun`] keeps the clock of the last run that was started, and asks what changed since then. [`TriggerRun::run_of`] makes
//! the [`Run`] of the answer, if the answer lists a file (specs/Due.antt). No change of the matching files goes without a run
//! (specs/Applying.antt). A [`Starter`] starts the program of a run, with the words and the input that specs/Starting.antt has, and
//! waits for its end: many threads start programs by one, and [`SystemStarter`] starts those of the operating system. It says how the
//! program ended, a [`ProgramEnd`] (specs/ProgramEnds.antt), or why none ran, a [`NotRun`] (specs/StartErrors.antt).
//!
//! A [`TriggerTable`] has the definitions of a root, each with its command's number, and says which
//! of them may begin ([`every_table`]); a [`Permit`] asks it right before a start. [`TriggerRuns`]
//! are the runs of a root's triggers from round to round.
//!
//! Tests: registry_tests/src/trigger_runs.
#![tactic(auto)]

mod defined_trigger;
mod defined_triggers;
mod definition_runs;
mod laws;
mod not_run;
mod permit;
mod program_end;
mod run;
mod starter;
mod starting;
mod system_starter;
mod trigger_run;
mod trigger_runs;
mod trigger_table;

pub use defined_trigger::DefinedTrigger;
pub use defined_triggers::DefinedTriggers;
pub use definition_runs::DefinitionRuns;
pub use laws::every_table;
pub use not_run::NotRun;
pub use permit::Permit;
pub use program_end::ProgramEnd;
pub use run::Run;
pub use starter::Starter;
pub use starting::{run_command, run_input};
pub use system_starter::SystemStarter;
pub use trigger_run::TriggerRun;
pub use trigger_runs::TriggerRuns;
pub use trigger_table::TriggerTable;
