//! A server on a disk, its views and its clients, driven event by event.
//!
//! [`drive`] takes a formatted disk and a list of [`Event`]s: starts, batches of commands, checkpoints,
//! crashes, stops, failures of the disk, operations on views, and clients that ask, receive answers and
//! lose them. [`drive_two`] takes two disks: one with a state file of version 1, and one into which an
//! [`Event::Migrate`] moves it. The contract of each is the promise of the whole server on one thread:
//!
//! - The world that comes back stands at the end of a run over just these events. How a world goes on is a
//!   relation with one row for each kind of event (specs/Steps.antt), on plain lists of commands, histories
//!   and clients (specs/Worlds.antt); no disk and no program stands in it.
//! - A crash at any moment within an event, so within any write, leaves a content that means the registry
//!   after what was acknowledged and a prefix of what is in flight (`Passes`, specs/Passes.antt). A crash
//!   within a migration may leave a retired file too, but only beside a new one that means the registry.
//! - In each state of the run (`Holds`, specs/Headline.antt) every content that a crash may leave means the
//!   registry after a prefix of the accepted commands that holds each acknowledged one, and each client has
//!   exactly the matching files of its root in the view at its last clock. Behind a migration that was cut
//!   the file in use may be retired beside a new one that means the registry; behind one that is done it
//!   stays retired, and the new file is the one in use.
//! - No clock text names two moments of a run, on either file.
//!
//! [`every_run`] has what holds of every such run, of both: nothing that is kept was invented, what was
//! acknowledged stays, and what a restart finds (specs/Laws.antt).
//!
//! Not promised: when a device fails (a cut row asks that the count of failures rose, but a disk may fail
//! at any call), and that memory suffices: `16` ends a drive. A clean close is a [`Event::Stop`] here; the
//! file itself is `wm_store`'s and `wm_file`'s affair.
//!
//! Tests: session_tests/src/world.
#![tactic(auto)]

mod connection;
mod driving;
mod event;
mod laws;
mod migrating;
mod other;
mod starting;
mod views;
mod world;

pub use connection::Connection;
pub use driving::{drive, drive_two};
pub use event::Event;
pub use laws::every_run;
pub use world::World;
