//! What the command-line arguments of all programs have in common, over clap.
//!
//! | Of | Definitions |
//! |---|---|
//! | [`program`] is the command of a program, and [`needed`], [`optional`], [`option`] and [`flag`] are its arguments | specs/ArgumentRules.antt |
//! | [`word_of`] and [`subcommand_of`] are what clap found | |
//! | [`is_set`], [`number_in`], [`number_of`] and [`copied`] read what clap found for one | specs/ArgumentValues.antt |
//! | [`parsed`] is the parse of the words; [`Shown`] is what is shown in place of what they ask for, as after a usage error ([`usage_error`]) | specs/Parses.antt |
//!
//! Tests: those of the programs' arguments, as client_tests/src/wmctl/words.rt.
#![tactic(auto)]

mod parses;
mod rules;
mod shown;
mod values;
mod words;

pub use parses::parsed;
pub use rules::{flag, needed, option, optional, program};
pub use shown::{Shown, usage_error};
pub use values::{copied, is_set, number_in, number_of};
pub use words::{subcommand_of, word_of};
