//! How values are spelled as bytes.
//!
//! A type that is [`Wire`] has one spelling a value, and no spelling begins another, so spellings that
//! follow each other are told apart with no mark between them. Numbers are big-endian; a text is its
//! number of bytes in 32 bits and then the bytes, a list its number of items in 32 bits and then the items,
//! a pair its parts in order, and a value that may be missing a byte and then the value.
//!
//! Tests: leaf_tests/src/spellings.
#![tactic(auto)]

mod list;
mod number;
mod optional;
mod pair;
mod text;
mod truth;
mod wire;

pub use list::{List, NotPushed};
pub use optional::Optional;
pub use pair::Pair;
pub use text::{Text, put_text, take_text};
pub use wire::Wire;
