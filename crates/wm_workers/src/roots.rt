//! The watched roots of a server, and how they follow the accepted commands.
mod begin;
mod begun;
mod followed;
mod following;
mod found;
mod server_roots;
mod state;
mod table;
mod turn;

pub use server_roots::ServerRoots;
pub use state::RootsState;
