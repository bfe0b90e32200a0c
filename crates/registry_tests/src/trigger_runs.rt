//! Runs of triggers (`wm_triggers`): which run is due, its command and its input, and programs that are really started.
mod commands;
mod making;
mod permits;
mod programs;
mod rounds;
mod runs;
mod starters;
mod tables;
