//! A root's view for many threads: one keeper changes it, and viewers answer from what was published and
//! never wait for it.
//!
//! The definition is the list of the operations that were published on a root (specs/PublishedLists.antt).
//! [`RootKeeper::publish`] makes it longer by the operations that were handed in. [`Viewer::answer`] is the
//! answer of `wm_since` on the history of a list that begins with all that this viewer had seen, or had
//! learnt from a [`Told`]. A list that was seen is a beginning of each later one.
#![tactic(auto)]

mod book;
mod entry;
mod front;
mod keeper;
mod pool;
mod share_id;
mod shares;
mod shown;
mod step;
mod told;
mod viewer;

pub use book::Naming;
pub use entry::Entry;
pub use front::Front;
pub use keeper::{Listed, RootKeeper};
pub use pool::{MAX_VIEWERS, Pool};
pub use share_id::ShareId;
pub use shares::{Opened, Shares};
pub use shown::Shown;
pub use step::Step;
pub use told::Told;
pub use viewer::Viewer;
