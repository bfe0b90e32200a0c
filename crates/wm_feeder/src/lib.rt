//! The feed of `wmfeed`: it sends a server what inotifywait reports of a folder.
//!
//! [`feed_by`] feeds a server over a [`System`], which is all that a feed asks of the system that it runs on; [`Inotify`] is that of the
//! program, and its `Feeder`, which is lent an [`Explainer`]. The rest of the program is `wmfeed` of `wm_client`. What a record means, what a
//! few ask for together and the line that sends it stand in `wm_feed`, with their contracts. What a reply is taken for has
//! private clauses (server.rt); what asks the system has none.
#![tactic(auto)]

mod asking;
mod checks;
mod crawling;
mod feed;
mod feeding;
mod feeds;
mod folders;
mod gathering;
mod inotify;
mod inotifywait;
mod line_sender;
mod looking;
mod pause;
mod ready;
mod root;
mod root_feed;
mod said;
mod sending;
mod server;
mod syncing;
mod system;
mod unwatched;
mod watch;

pub use feeding::{Order, feed_by};
pub use inotify::Inotify;
pub use inotifywait::{Inotifywait, RecordSocket};
pub use line_sender::LineSender;
pub use system::{Explainer, Records, System, Watcher};
