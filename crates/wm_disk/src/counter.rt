//! The greatest value of every counter.
//! Definition: specs/Counters.antt.

/// The greatest value of every counter, as of the numbers in lines and clocks: 2^63 - 1.
pub const MAX_COUNTER: u64 = (1 << 63) - 1;
