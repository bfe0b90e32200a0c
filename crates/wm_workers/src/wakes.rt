//! What wakes the threads that send sessions the lines that are due.
mod flags;
mod state;

pub use flags::{SLOTS, WakeFlags};
pub use state::{bit_of, with_bit};
