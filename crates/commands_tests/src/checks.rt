//! What a test asks: each is a call here, since a branch of its own, as `assert!` has it, costs a test's proof a second.

use std::fmt::Debug;
use std::process::Abort;

/// Fails the test where this doesn't hold.
pub fn asks(rt: &impl Abort, holds: bool, what: &str) {
    assert!(rt; holds, "doesn't hold: {what}");
}

/// As [`asks`], of a row of a table.
pub fn asks_of(rt: &impl Abort, holds: bool, what: &str, row: &impl Debug) {
    assert!(rt; holds, "doesn't hold: {what}, of {row:?}");
}

/// Fails the test where the condition doesn't hold, and names the row that stands behind it.
macro_rules! check {
    ($rt:expr; $holds:expr) => {
        $crate::checks::asks(&$rt, $holds, stringify!($holds))
    };
    ($rt:expr; $holds:expr, $row:expr) => {
        $crate::checks::asks_of(&$rt, $holds, stringify!($holds), &$row)
    };
}

pub(crate) use check;
