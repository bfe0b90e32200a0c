//! What changed in a root since a clock or a moment, and a client who keeps a list of files by answers
//! since clocks.
//!
//! An answer is defined on the root's history (specs/Answers.antt), so [`answer`] says what it means,
//! and not only what a view's summary makes of it. A [`Mirror`] asks since clocks and applies answers
//! (specs/Clients.antt), and [`every_client`] ties the two: a mirror that had exactly the matching files at
//! its last clock has exactly those at the answer's (specs/Matching.antt). The crate `wm_world` has that
//! over whole runs.
//!
//! [`render`] writes an answer's files as JSON, with the [`Fields`] that were asked for (specs/Fields.antt,
//! specs/Rendered.antt). [`Cursors`] keeps for a name the clock up to which its client was told
//! (specs/Cursors.antt).
//!
//! Tests: view_tests/src/answers.
#![tactic(auto)]

mod answering;
mod cursors;
mod field;
mod fields;
mod laws;
mod listed;
mod mirror;
mod query;
mod rendering;
mod test;

pub use answering::answer;
pub use cursors::{Cursors, MAX_CURSORS};
pub use field::Field;
pub use fields::Fields;
pub use laws::{cursor_laws, every_answer, every_client};
pub use listed::{Listed, ListedFiles};
pub use mirror::Mirror;
pub use query::{Answer, Query, Since};
pub use rendering::render;
pub use test::{Every, Test};
