//! How deep an expression may be, and how many terms it may have.
//! Definitions: specs/Limits.antt. Tests: view_tests/src/expressions/readings.rt.

/// How deep the terms of an expression may stand in one another.
pub const MAX_DEPTH: u8 = 32;

/// How many terms an expression may have.
pub const MAX_TERMS: u16 = 1024;
