//! What a person is told of the words of a command that mean something else than may be thought.

use crate::failure::Failure;
use crate::server::Server;
use wm_commands::{Braces, braces_in, has_braces};

/// The patterns that are written in place of one with braces.
fn written_out(server: &Server<'_>, braces: Braces<'_>) -> Result<String, Failure> {
    let alloc = server.rt.alloc();
    let mut text = String::new(alloc);
    for part in braces.list.split(',') {
        let (front, back) = (braces.front, braces.back);
        text.push_str(&format!(in alloc; " '{front}{part}{back}'")?)?;
    }
    Ok(text)
}

/// Says on standard error of each pattern with braces that they stand for themselves, and what to write.
pub fn note_braces(server: &Server<'_>, patterns: &[String]) -> Result<(), Failure> {
    for pattern in patterns {
        let pattern = pattern.as_str();
        if !has_braces(pattern) {
            continue;
        }
        let written = match braces_in(pattern) {
            Some(braces) => written_out(server, braces)?,
            None => String::from_str(server.rt.alloc(), " one for each name")?,
        };
        eprintln!(server.rt;
            "wm: '{pattern}': braces stand for themselves in a PATTERN; write{written} in its place"
        )?;
    }
    Ok(())
}
