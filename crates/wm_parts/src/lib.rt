//! The further lines by which clients explain a reply, or why there is none.
//!
//! [`part_in`] finds which part of a refused request is the cause: a command's name, a root's path, a key or its value, a term of an
//! expression or the text in it, or a field; if it is none of them, as when parts are missing, the form of such a request. It looks at the
//! request's JSON value, by the refusal and by the readers that a server takes (`wm_lines`, `wm_expr`, `wm_since`). [`explanation`] reads a
//! request as a server does, and says its part in a line. [`refusal_line`] says why the refusal came that a server replied, and what to do:
//! the request's part, or else an advice by the kind of the request ([`advice_line`]).
//!
//! [`braces_hint`] is about a pattern that lists nothing, [`no_feed_line`] about a sync for which no feed answered, and [`log_line`] about a
//! server's log. [`program_sought`] is the program that a trigger names, and [`program_line`] what is said if it isn't there. Nothing here
//! talks to the system.
//!
//! | Of | Definitions |
//! |---|---|
//! | the first term that is refused | specs/RefusedTerms.antt |
//! | the first value that isn't of its kind, and the forms of requests | specs/RefusedValues.antt |
//! | the first field and the first key that are refused, and the part of a request | specs/RefusedParts.antt |
//! | the line of a part | specs/PartLines.antt |
//! | the kind of a request, and its root | specs/RequestKinds.antt |
//! | the advice at a refusal, and the line of a refusal | specs/Advice.antt |
//! | the first pattern with a brace | specs/Braces.antt |
//! | the program of a trigger, and its line | specs/TriggerPrograms.antt |
//!
//! Tests: client_tests/src/parts.rt, client_tests/src/hints.rt, client_tests/src/programs.rt.
#![tactic(auto)]

mod advice;
mod braces;
mod fields;
mod forms;
mod inner;
mod keys;
mod kinds;
mod lines;
mod parts;
mod programs;
mod refusals;
mod terms;
mod values;

pub use braces::braces_hint;
pub use keys::Asking;
pub use kinds::{RequestKind, request_kind, root_asked};
pub use lines::{explanation, root_explanation};
pub use parts::{Part, part_in};
pub use programs::{ProgramFound, program_line, program_sought};
pub use refusals::{advice_line, log_line, no_feed_line, refusal_line};
pub use terms::refused_term;
pub use values::Key;
