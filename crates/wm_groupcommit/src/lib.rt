//! A desk at which many threads submit commands and one flusher commits them to a store in batches.
//!
//! There is one list of the accepted commands, in the order of the store. [`Desk::submit`] answers a
//! command as the registry does after a prefix of this list, and a [`Receipt`] tells where the command
//! stands in it.
#![tactic(auto)]

mod book;
mod desk;
mod history;
mod locked;
mod queued;
mod receipt;
mod same_commands;
mod seat;

pub use desk::Desk;
pub use locked::{
    Accepted, ClosePermit, Closed, Flushed, Flusher, NoFlusher, NoSeat, RegistryCopy, Unclosed,
};
pub use receipt::{CommandNumber, Receipt, Standing};
pub use seat::Seat;
