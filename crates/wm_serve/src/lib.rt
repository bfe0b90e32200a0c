//! The socket server: sessions in threads over one desk and the watched roots of `wm_workers`.
//!
//! [`serve`] opens a state file and serves a Unix socket. Sessions come in by [`socket`] and are served in [`slots`]: a thread for the lines of
//! each, and one for what is due to it. [`threads`] starts them all, which see the server as a [`ServerHandle`](threads::handle::ServerHandle).
#![tactic(auto)]

mod server;
mod slots;
mod socket;
mod threads;

pub use server::{Served, ServerPaths, Settings, Tools, serve};
