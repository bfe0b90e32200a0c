//! Connection slots: the sessions that two threads share each, their lines and their replies.

pub mod connection;
pub mod lines;
pub mod requests;
pub mod sessions;
pub mod slot;
