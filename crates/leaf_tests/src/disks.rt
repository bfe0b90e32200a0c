//! Disks in memory, and the refusals of the whole server.
mod faults;
mod memory;
mod refusals;
