//! A disk as a store sees it, and the numbered refusals of the whole server.
//!
//! A [`Disk`] tells what a read gives, what a crash may leave, and how often it has failed. Its laws on
//! reads and crashes bind only while it is honest; the law on the count of failures binds always.
//! [`MemDisk`] is a disk in memory that is honest always, and [`OneFault`] a disk of which one call fails.
//!
//! Tests: leaf_tests/src/disks.
#![tactic(auto)]

mod counter;
mod disk;
mod fault;
mod memory;
mod refusal;

pub use counter::MAX_COUNTER;
pub use disk::{Crashed, Disk};
pub use fault::OneFault;
pub use memory::MemDisk;
pub use refusal::{DeviceFailed, NoMemory, Refusal};
