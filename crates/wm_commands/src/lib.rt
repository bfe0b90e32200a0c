//! What the arguments of `wm` ask for ([`arguments`]), and what its commands decide, as functions of values: nothing here talks to the
//! system.
//!
//! | Of | Definitions |
//! |---|---|
//! | [`holder_of`] is the watched root that holds a folder, [`reported_name`] how a file of the root is named from there, [`named_root`] the root that a path means | specs/Folders.antt |
//! | [`expression`], [`query_line`] and [`subscribe_line`] ask for files, by patterns and an expression | specs/Questions.antt |
//! | [`has_braces`], [`braces_in`] and [`pattern_fault`] find what a pattern can't say | specs/Patterns.antt |
//! | [`Answer`] is what a reply says, [`shown_of`] what is shown of it, and the status | specs/CommandAnswers.antt |
//! | [`Runs`] says when a command is started and for what, [`Settle`] when a change has settled | specs/CommandRuns.antt |
//! | [`Claim`] is for which server the files of a state folder are, [`StartFault`] why a program ended at its start | specs/Claims.antt, specs/Starts.antt |
//! | [`up_step`] says what `wm up` does by what it found at the socket ([`Presence`]) and in the processes ([`ServerProcess`]) | specs/Presences.antt |
//! | [`Feeding`] is how a root is fed, [`FeedSeen`] what the looks at that have seen so far, [`FeedNews`] what is said of it | specs/Feedings.antt |
//! | [`RootSeen`] is what is at the path of a root, [`crawl_step`] what a wait for its crawl does then, [`folder_note`] what is said of a folder that can't be read, [`more_unnamed`] how many of them aren't named | specs/RootLooks.antt |
//! | [`is_crawl_due`] and [`is_reply_due`] say when it is said that a wait goes on | specs/Progresses.antt |
//! | [`HomeWord`] is what a shell replaces in a word, if no quotes keep it from that | specs/HomeWords.antt |
//! | [`Verb`](arguments::Verb) is a command, by its name | specs/Verbs.antt |
//! | [`advice_of`] is what to do at a refusal, [`is_advised`] whether that is said, [`root_status`] what a refusal tells of a root | |
#![tactic(auto)]

mod advice;
mod answers;
pub mod arguments;
mod claims;
mod feeding;
mod folders;
mod home_words;
mod patterns;
mod presence;
mod progress;
mod questions;
mod root_looks;
mod runs;
mod settle;
mod showing;
mod starts;

pub use advice::{
    NO_ROOT_ADVICE, NO_SESSION, READ_ADVICE, advice_of, is_advised, root_status, unreadable_advice,
};
pub use answers::{Answer, answer_of};
pub use claims::Claim;
pub use feeding::{FeedNews, FeedSeen, Feeding, feed_advice};
pub use folders::{holder_of, name_in, named_root, reported_name};
pub use home_words::HomeWord;
pub use patterns::{Braces, PatternFault, braces_in, has_braces, pattern_fault};
pub use presence::{Presence, ServerProcess, StartStep, UpStep, start_step, up_step};
pub use progress::{is_crawl_due, is_reply_due};
pub use questions::{
    expression, fits_in_pattern, query_line, root_line, since_text, subscribe_line,
};
pub use root_looks::{
    CrawlStep, FolderNote, MOST_NAMED, RootSeen, crawl_step, folder_note, more_unnamed,
};
pub use runs::Runs;
pub use settle::Settle;
pub use showing::{Shown, Style, shown_of};
pub use starts::StartFault;
