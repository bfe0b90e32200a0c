//! The workers that run the triggers of the roots.
mod programs;
mod rounds;
mod worker;

pub use programs::LoggedStarter;
pub use worker::run_triggers;
