//! The watched roots of a server, the workers of each root, what wakes its sessions, and its log.
//!
//! [`ServerRoots`] has the table of the watched roots. It follows each accepted command in its turn, and stands by path and number as the
//! registry does (roots/). Each root has a worker that crawls it (crawls/) and one that runs its triggers (triggers/); [`supervise`]
//! starts them. A change of a root wakes each session that has a subscription on it, by [`WakeFlags`]. What happens is handed to an
//! [`EventLog`], which one thread writes.
//!
//! What lies under a lock is decided by state machines with exact clauses: `RootsState` and its parts, `WakeState`.
#![tactic(auto)]

mod crawls;
mod desk;
mod log;
mod moments;
mod roots;
mod supervisor;
mod triggers;
mod unstarted;
mod wakes;

pub use desk::ServerDesk;
pub use log::{EventLog, took_too_long, write_log};
pub use moments::unix_seconds;
pub use roots::{RootsState, ServerRoots};
pub use supervisor::{Workers, supervise};
pub use unstarted::Worker;
pub use wakes::{SLOTS, WakeFlags};
