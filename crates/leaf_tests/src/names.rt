//! Paths, and what is said of a file.
use std::alloc::Global;
use std::process::Abort;
use std::string::String;

mod entries;
mod rel_paths;
mod root_paths;
mod subtrees;
mod text_orders;

// The text with an `a` for each byte that it lacks of so many.
fn long(rt: &impl Abort, alloc: Global, start: &str, len: usize) -> String {
    let mut text = String::from_str(alloc, start).expect(rt, "memory");
    for _ in start.len()..len {
        text.push('a').expect(rt, "memory");
    }
    text
}
