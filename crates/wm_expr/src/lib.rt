//! Expressions: tests on files, read from JSON.
//!
//! [`Expr::read`] takes just the JSON values that are expressions (specs/Readings.antt), and
//! [`Expr::holds`] answers as they are meant (specs/Meanings.antt).
//!
//! Tests: view_tests/src/expressions.
#![tactic(auto)]

mod component;
mod copying;
mod expr;
mod judging;
mod laws;
mod limits;
mod meaning;
mod pattern;
mod reading;
mod simple;
mod step;
mod texts;
mod words;

pub use expr::{Comparison, Expr, Scope};
pub use laws::{every_expression, worked_rows};
pub use limits::{MAX_DEPTH, MAX_TERMS};
pub use pattern::MAX_PATTERN;
pub use texts::texts_of;
