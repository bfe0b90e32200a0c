//! What the system shows of a file or a socket after a program was refused, and the line that explains it (`wm_explain`).
//!
//! Nothing here changes a file. [`found_file`] opens a file, and [`found_socket`] connects to a socket, to see whether that can be done.
//!
//! As what a file begins follows from its first bytes alone ([`head_in`]; specs/Heads.antt), and the line of a file or a socket that another
//! has from what was found ([`advice_at`]; specs/Hindrances.antt).
//!
//! What clients say of a root, of a folder that can't be read and of a socket follows from what was found there ([`root_line`],
//! [`fed_line`], [`unread_line`], [`more_line`], [`server_line`]; specs/Places.antt). [`unreached_line`] looks at a socket, and
//! [`unread_below`] for folders.
//!
//! Tests: leaf_tests/src/heads.rt, leaf_tests/src/advice.rt, leaf_tests/src/places.rt; of the built programs tools/try/messages.py.
#![tactic(auto)]

mod advice;
mod explained;
mod findings;
mod heads;
mod hindered;
mod locks;
mod looks;
mod noted;
mod places;
mod unread;

pub use advice::{Hindrance, advice_at};
pub use explained::{file_line, is_wanted, socket_line};
pub use findings::{found_file, found_socket};
pub use heads::head_in;
pub use looks::{found_without_folder, is_own, is_unreadable, unreached_line};
pub use noted::Noted;
pub use places::{
    NO_INOTIFYWAIT, RootFound, Unfed, fed_line, more_line, root_line, server_line, unread_line,
};
pub use unread::unread_below;
