//! Bytes that came, cut into records.
//! Definitions: specs/Flows.antt. Tests: feed_tests/src/flows.rt.
ghost use Rattle.std.specs.Prelude.{◌≡◌, ◌≤◌, ◌++◌, ◌-◌, ◌∷◌, [], List, ℕ, Some, length, nat_lt, MatchBool, MatchOption, OnOk, OnErr};
ghost use Rattle.memchr.specs.Find.{FindsNeedle};
ghost use Rattle.wm_feed.specs.Flows.{StandsNowhere, IsSplitBehind, record_end};

use memchr::memmem;
use std::alloc::Global;
use std::marker::Model;
use wm_disk::NoMemory;

/// The most bytes that may wait for the end of a record.
const MAX_RECORD: usize = 65_536;

/// How a record ends.
const RECORD_END: &[u8] = b"\0\n";

/// Bytes that came and weren't taken yet. Contracts see these bytes.
#[derive(Drop)]
pub struct Flow {
    bytes: Vec<u8>,
    /// How many of them were taken.
    taken: usize,
}

impl Model for Flow {
    ghost use Rattle.std.specs.Prelude.{List, ℕ, drop, length, ◌≤◌};

    ghost Value = { List ℕ };

    ghost view = { λ f. drop f.taken f.bytes.items };

    ghost invariant = { λ f. f.taken ≤ length f.bytes.items };
}

/// The place behind the mark where it stands first.
fn behind(bytes: &[u8], mark: &[u8]) -> Option<usize>
    ensures { MatchOption result (StandsNowhere mark.now bytes.now) (λ n. (length mark.now ≤ n) × (n ≤ length bytes.now) × FindsNeedle bytes.now mark.now 0 (Some (n - length mark.now))) }
{
    match memmem::find(bytes, mark) {
        Some(place) => Some(place + mark.len()),
        None => None,
    }
}

impl Flow {
    /// Nothing came yet.
    pub fn new(alloc: Global) -> Flow
        ensures { result ≡ [] }
    {
        Flow {
            bytes: Vec::new(alloc),
            taken: 0,
        }
    }

    /// What wasn't taken yet.
    fn rest(&self) -> &[u8]
        ensures { result.now ≡ self.now }
    {
        &self.bytes[self.taken..]
    }

    /// Adds bytes behind those that weren't taken. Without memory nothing is added.
    pub fn push(&mut self, bytes: &[u8]) -> Result<(), NoMemory>
        ensures ok { OnOk result (self.new ≡ self.old ++ bytes.now) }
        ensures err { OnErr result (self.new ≡ self.old) }
    {
        self.bytes.drain(..self.taken);
        self.taken = 0;
        self.bytes.extend_from_slice(bytes)?;
        Ok(())
    }

    /// Takes all through the mark where it stands first; `false` where it hasn't come, and nothing is taken then.
    pub fn skip_through(&mut self, mark: &[u8]) -> bool
        ensures { MatchBool result ((front : List ℕ) × IsSplitBehind mark.now self.old front self.new) (StandsNowhere mark.now self.old × (self.new ≡ self.old)) }
    {
        match behind(self.rest(), mark) {
            Some(place) => {
                self.taken += place;
                true
            }
            None => false,
        }
    }

    /// Whether more bytes wait than may wait for the end of a record.
    pub fn is_lost(&self) -> bool
        ensures { result ≡ nat_lt 65536 (length self.now) }
    {
        self.rest().len() > MAX_RECORD
    }

    /// The next record, without its newline: it ends with a zero byte and a newline, which stand together nowhere else.
    pub fn record(&self) -> Option<&[u8]>
        ensures { MatchOption result (StandsNowhere record_end self.now) (λ r. (rest : List ℕ) × IsSplitBehind record_end self.now (r.now ++ 10 ∷ []) rest) }
    {
        let rest = self.rest();
        match behind(rest, RECORD_END) {
            Some(place) => Some(&rest[..place - 1]),
            None => None,
        }
    }

    /// Takes the next record with its newline, and tells whether there was one.
    pub fn take_record(&mut self) -> bool
        ensures { MatchBool result ((front : List ℕ) × IsSplitBehind record_end self.old front self.new) (StandsNowhere record_end self.old × (self.new ≡ self.old)) }
    {
        self.skip_through(RECORD_END)
    }
}
