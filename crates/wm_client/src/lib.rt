//! What `wmctl` does: it sends one request to a server's socket and prints what is replied; and all that `wmfeed` does
//! but the feed itself.
//!
//! [`Words`] is what the words of `wmctl` ask for (specs/ClientWords.antt), [`talk`] sends a request and
//! prints the reply (specs/Talks.antt), [`synced_talk`] does so once a feed has removed a file (specs/Syncs.antt), which it makes by a
//! [`SyncSystem`] (specs/Waits.antt; [`SyncFiles`] is the operating system's), and [`wmctl`] is all of the program, with the status that it
//! may end with (specs/Statuses.antt). [`negative_said`] is what is said of a negative number behind an option (specs/Negatives.antt).
//! [`refusal_of`] says which refusal a reply is (specs/RefusalLines.antt).
//! [`FeedWords`] is what the words of `wmfeed` ask for (specs/FeedWords.antt), and [`wmfeed`] all of that program over a [`Feeder`], with its
//! status (specs/Ends.antt).
#![tactic(auto)]

mod feed_words;
mod feeding;
mod negative;
mod program;
mod refused;
mod root_number;
mod showing;
mod stop;
mod sync_files;
mod sync_system;
mod syncing;
mod talking;
mod timer;
mod words;

pub use feed_words::FeedWords;
pub use feeding::{Feeder, wmfeed};
pub use negative::negative_said;
pub use program::wmctl;
pub use refused::refusal_of;
pub use root_number::root_number_of;
pub use stop::Stop;
pub use sync_files::SyncFiles;
pub use sync_system::SyncSystem;
pub use syncing::{SyncEnd, synced_talk};
pub use talking::{TalkEnd, talk};
pub use words::{Request, Sync, Words};
