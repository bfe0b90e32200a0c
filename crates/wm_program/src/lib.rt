//! All of `watchmand`: its words, and what meets them.
//!
//! [`Words`] is what its words ask for (specs/ProgramWords.antt). [`watchmand`] does it on a [`ProgramHost`] (specs/ProgramRuns.antt):
//! `format`, `lines` and `migrate` by `wm_server`, and `serve` by what its caller hands in, which is `wm_serve`'s.
//!
//! Tests: serve_tests/src/words.rt; of the built program tools/pages.py and tools/try/serve.py.
#![tactic(auto)]

mod program;
mod words;

pub use program::{ProgramHost, watchmand};
pub use words::Words;
