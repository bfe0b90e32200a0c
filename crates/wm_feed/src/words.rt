//! What inotifywait says beside its records. Definitions: specs/Words.antt. Tests: feed_tests/src/words.rt.

ghost use Rattle.std.specs.Prelude.{◌≡◌, ◌∷◌, [], List, ℕ, false, string_bytes, IfOk, MatchOption, OnOk};
ghost use Rattle.wm_feed.specs.Words.{Said, ended, is_complaint as is_complaint_lem, is_for_user as is_for_user_lem, line_as_text, nothing_said, with_byte, with_bytes};

use std::alloc::Global;
use std::marker::Model;
use wm_disk::NoMemory;

/// The most bytes of a line that are kept.
const MAX_LINE: usize = 4_096;

/// What is said once each folder is watched.
const ESTABLISHED: &[u8] = b"Watches established.";

/// A line that was said. Contracts see its bytes.
#[derive(Drop)]
struct Line {
    bytes: Vec<u8>,
}

impl Model for Line {
    ghost use Rattle.std.specs.Prelude.{List, ℕ};

    ghost Value = { List ℕ };

    ghost view = { λ l. l.bytes.items };
}

impl Line {
    /// Its text; one that is no text is told as such.
    fn text(&self, alloc: Global) -> Result<String, NoMemory>
        ensures { IfOk result (λ s. string_bytes s ≡ line_as_text self.now) }
    {
        match str::from_utf8(&self.bytes) {
            Ok(text) => Ok(String::from_str(alloc, text)?),
            Err(_) => Ok(String::from_str(alloc, "(a line that is no text)")?),
        }
    }
}

/// What inotifywait said, cut into lines.
#[derive(Drop)]
pub struct Words {
    line: Vec<u8>,
    /// Whole lines that weren't taken.
    lines: Vec<Line>,
    is_established: bool,
}

impl Model for Words {
    ghost use Rattle.wm_feed.specs.Words.{Said};

    ghost Value = { Said };

    ghost view = { λ w. record { line = w.line.items; lines = w.lines.items; is_established = w.is_established } };
}

/// Whether a line is a complaint, and no greeting.
fn is_complaint(line: &[u8]) -> bool
    ensures { result ≡ is_complaint_lem line.now }
{
    !line.is_empty() && !line.starts_with(b"Setting up watches.")
}

/// Whether a complaint is for a user. That a folder was gone before it could be watched isn't, or a file in it: inotifywait says so of
/// folders too that are there and stay without a watch.
pub fn is_for_user(line: &[u8]) -> bool
    ensures { result ≡ is_for_user_lem line.now }
{
    !line.ends_with(b"No such file or directory")
}

impl Words {
    /// Nothing was said.
    pub fn new(alloc: Global) -> Words
        ensures { result ≡ nothing_said }
    {
        Words {
            line: Vec::new(alloc),
            lines: Vec::new(alloc),
            is_established: false,
        }
    }

    /// A line ended.
    fn end_line(&mut self) -> Result<(), NoMemory>
        ensures { OnOk result (self.new ≡ ended self.old) }
    {
        if self.line.as_slice() == ESTABLISHED {
            self.is_established = true;
        } else if is_complaint(&self.line) {
            let bytes = self.line.clone()?;
            self.lines.push(Line { bytes })?;
        }
        self.line.clear();
        Ok(())
    }

    /// A byte was said.
    fn push_byte(&mut self, byte: u8) -> Result<(), NoMemory>
        ensures { OnOk result (self.new ≡ with_byte self.old byte) }
    {
        if byte == b'\n' {
            return self.end_line();
        }
        if self.line.len() < MAX_LINE {
            self.line.push(byte)?;
        }
        Ok(())
    }

    /// Adds what was said. `NoMemory`: some of it may be missing.
    pub fn push(&mut self, bytes: &[u8]) -> Result<(), NoMemory>
        ensures { OnOk result (self.new ≡ with_bytes bytes.now self.old) }
    {
        for byte in bytes {
            self.push_byte(*byte)?;
        }
        Ok(())
    }

    /// Whether it was said since this was last asked that each folder is watched.
    pub fn take_established(&mut self) -> bool
        ensures told { result ≡ self.old.is_established }
        ensures rest { self.new ≡ record { line = self.old.line; lines = self.old.lines; is_established = false } }
    {
        let is_established = self.is_established;
        self.is_established = false;
        is_established
    }

    /// The next complaint; one that is no text is told as such. `NoMemory`: the line is dropped.
    pub fn take_line(&mut self, alloc: Global) -> Result<Option<String>, NoMemory>
        ensures { IfOk result (λ o. MatchOption o ((self.old.lines ≡ []) × (self.new ≡ self.old)) (λ s. (line : List ℕ) × (self.old ≡ record { line = self.new.line; lines = line ∷ self.new.lines; is_established = self.new.is_established }) × (string_bytes s ≡ line_as_text line))) }
    {
        if self.lines.is_empty() {
            return Ok(None);
        }
        let line = self.lines.remove(0);
        let text = line.text(alloc)?;
        Ok(Some(text))
    }
}
