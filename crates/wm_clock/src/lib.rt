//! Clock ids: states of a root, and the texts that name them.
//!
//! A [`ClockId`] has one text, `c:I:R:T`. A [`ClockSpec`] is what a client may ask from: by a text such a
//! clock, a clock of another instance, or a cursor, `n:` and a [`CursorName`]; by a number a moment in
//! Unix seconds.
//!
//! Tests: leaf_tests/src/clocks.
#![tactic(auto)]

mod clock_id;
mod clock_spec;
mod cursor_name;
mod laws;
mod number;

pub use clock_id::{ClockId, MAX_CLOCK_TEXT};
pub use clock_spec::ClockSpec;
pub use cursor_name::{CursorName, MAX_CURSOR_NAME};
pub use laws::clock_laws;
pub use number::{MAX_DIGITS, put_number};
