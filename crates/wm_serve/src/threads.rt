//! The threads of a server: what they are given of it, and how they start and end.

pub mod handle;
pub mod server;
pub mod start;
