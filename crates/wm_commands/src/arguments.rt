//! What the command-line arguments of `wm` ask for, as clap finds it in them.
//!
//! [`Words`] is a text that is shown, or an [`Order`]: a command with its arguments. [`Verb`] is the command (specs/Verbs.antt). No
//! contract says which words ask for what beside it; that is tested (commands_tests/src/words.rt).

mod order;
mod shared;
mod verb;
mod words;

pub use order::{Order, Program, Question, Target};
pub use verb::Verb;
pub use words::Words;
