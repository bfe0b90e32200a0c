//! What inotifywait reports of folders, as values: what a record means, what a few of them ask for together, and the line that tells
//! a server what was found. Nothing here talks to the system.
//!
//! | Of records | Definitions |
//! |---|---|
//! | [`Flow`] cuts bytes that come in pieces into records | specs/Flows.antt |
//! | [`read_number`] reads the number of the watch in front of a record | specs/Numbers.antt |
//! | [`read_record`] says what a record means | specs/Records.antt |
//! | [`read_sync`] says which sync a record reports, and [`Syncs`] when each of them is released | specs/Syncs.antt, specs/Releases.antt |
//! | [`Words`] has what inotifywait says beside its records | specs/Words.antt |
//!
//! | Of paths and roots | Definitions |
//! |---|---|
//! | [`Batch`] has the paths to look at, each once, and the folders to crawl | specs/Batches.antt |
//! | [`Burst`] says how long a batch is held back | specs/Bursts.antt |
//! | [`steps_of`] orders what is asked of the server for a batch | specs/Steps.antt |
//! | [`observe_line`] is the line that tells what stands at paths | specs/Observes.antt |
//! | [`unshown`] finds the paths at which an event changed nothing that is known | specs/Renewed.antt |
//! | [`Renames`] has the places that the name of a folder may stand for | specs/Renames.antt |
//! | [`Checks`] has the folders that are to be checked for a watch | specs/Checks.antt |
//! | [`add_watched`] reads what the system reports of watches | specs/Watched.antt |
//! | [`Orphans`] has names at which no folder is, and [`Lasting`] what was found twice | specs/Orphans.antt, specs/Lasting.antt |
//! | [`to_begin`] and [`is_listed`] compare the roots that are fed with those that are listed | specs/Roots.antt |
//!
//! What holds of every record and every batch stands in specs/Laws.antt.
#![tactic(auto)]

mod batch;
mod bursts;
mod checks;
mod flow;
mod lasting;
mod laws;
mod numbered;
mod observing;
mod orphans;
mod paths;
mod record;
mod renames;
mod renewed;
mod roots;
mod steps;
mod sync;
mod syncs;
mod watched;
mod words;

pub use batch::{Batch, MAX_PATHS};
pub use bursts::Burst;
pub use checks::Checks;
pub use flow::Flow;
pub use lasting::Lasting;
pub use laws::every_record;
pub use numbered::read_number;
pub use observing::observe_line;
pub use orphans::Orphans;
pub use record::{Change, Told, read_record};
pub use renames::Renames;
pub use renewed::unshown;
pub use roots::{is_listed, to_begin};
pub use steps::{MAX_CRAWLS, MAX_OBSERVED, Step, steps_of};
pub use sync::{Synced, read_sync};
pub use syncs::Syncs;
pub use watched::add_watched;
pub use words::{Words, is_for_user};
