//! Request lines as values: what a line asks, and the bytes of each reply.
//!
//! A line is a [`Request`] or is refused (`request_of_line` of specs/Lines.antt). Of each reply [`reply`]
//! writes the bytes that specs/Replies.antt has, of which [`every_reply`] says that a client knows a refusal
//! by its line (specs/ReplyLaws.antt). Nothing here keeps a state: what a line does to one is
//! defined where it is met, in the crate above.
//!
//! Tests: session_tests/src/requests (what is read), session_tests/src/lines (what is replied).
#![tactic(auto)]

mod age_out;
mod arguments;
mod expression;
mod kept_expression;
mod keys;
mod laws;
mod listing;
mod metadata;
mod pairs;
mod progress;
mod query;
mod recrawl;
pub mod reply;
mod request;
mod since;
mod subscribe;
mod triggers;

pub use expression::Expression;
pub use kept_expression::have_expressions;
pub use laws::every_reply;
pub use progress::Progress;
pub use query::Inquiry;
pub use recrawl::ServerRequest;
pub use request::Request;
