//! A crawl of a root that was asked for. Definitions: specs/AskedCrawls.antt. Tests: serve_tests/src/crawls.rt.
ghost use Rattle.std.specs.Prelude.{◌≡◌, ◌∷◌, [], true, MatchBool};
ghost use Rattle.wm_root.specs.AskedCrawls.{collected, ended_crawl, end_stage, is_at_rest, is_open, is_pending, is_same_part, new_crawl, one_more_waits, running, serves, stage_outcome, waits_for};
ghost use Rattle.wm_root.specs.declared.asked_crawl.Stage.TheVariants.{Waiting};

use std::mem;
use wm_disk::Refusal;
use wm_lines::Progress;
use wm_names::Subtree;

/// How far a crawl is.
#[derive(Drop)]
pub(crate) enum Stage {
    /// It is asked for, of this part.
    Waiting(Subtree),
    /// The crawler has it.
    Running,
    /// It has ended so, and those who wait for it don't know yet.
    Done(Progress),
    Refused(Refusal),
}

impl Stage {
    pub(crate) fn is_at_rest(&self) -> bool
        ensures { result ≡ is_at_rest self.now }
    {
        match self {
            Stage::Waiting(_) => true,
            Stage::Running | Stage::Done(_) | Stage::Refused(_) => false,
        }
    }

    /// Whether it is asked for of the part.
    fn waits_for(&self, subtree: &Subtree) -> bool
        ensures { result ≡ waits_for subtree.now self.now }
    {
        match self {
            Stage::Waiting(part) => is_same_part(part, subtree),
            Stage::Running | Stage::Done(_) | Stage::Refused(_) => false,
        }
    }

    fn is_open(&self) -> bool
        ensures { result ≡ is_open self.now }
    {
        match self {
            Stage::Waiting(_) | Stage::Running => true,
            Stage::Done(_) | Stage::Refused(_) => false,
        }
    }

    fn ended(ended: Result<Progress, Refusal>) -> Stage
        ensures { result ≡ end_stage ended }
    {
        match ended {
            Ok(progress) => Stage::Done(progress),
            Err(refusal) => Stage::Refused(refusal),
        }
    }

    fn outcome(&self) -> Result<Progress, Refusal>
        ensures { result ≡ stage_outcome self.now }
    {
        match self {
            Stage::Done(progress) => Ok(*progress),
            Stage::Refused(refusal) => Err(*refusal),
            Stage::Waiting(_) | Stage::Running => Err(Refusal::NotWatched),
        }
    }
}

/// Whether the two are one part.
fn is_same_part(one: &Subtree, other: &Subtree) -> bool
    ensures { result ≡ is_same_part one.now other.now }
{
    match (one, other) {
        (Subtree::Whole, Subtree::Whole) => true,
        (Subtree::Below(top), Subtree::Below(other)) => top.same(other),
        _ => false,
    }
}

/// A crawl that was asked for.
#[derive(Drop)]
pub(crate) struct AskedCrawl {
    pub(crate) ticket: u64,
    pub(crate) stage: Stage,
    /// How many sessions wait for its end.
    waiters: u64,
}

impl AskedCrawl {
    pub(crate) fn new(ticket: u64, subtree: Subtree, waiters: u64) -> AskedCrawl
        ensures { result ≡ new_crawl ticket subtree waiters }
    {
        AskedCrawl {
            ticket,
            stage: Stage::Waiting(subtree),
            waiters,
        }
    }

    /// Whether who asks for the part now may wait for this one.
    pub(crate) fn serves(&self, subtree: &Subtree) -> bool
        ensures { result ≡ serves subtree.now self.now }
    {
        self.stage.waits_for(subtree)
    }

    pub(crate) fn is_pending(&self, ticket: u64) -> bool
        ensures { result ≡ is_pending ticket self.now }
    {
        self.ticket == ticket && self.stage.is_open()
    }

    /// One more waits for it. Its ticket.
    pub(crate) fn join(&mut self) -> u64
        ensures ticket { result ≡ self.old.ticket }
        ensures joined { one_more_waits self.old ≡ self.new ∷ [] }
    {
        self.waiters = self.waiters.saturating_add(1);
        self.ticket
    }

    /// It runs: its ticket, and its part, which it has no longer.
    pub(crate) fn run(&mut self) -> (u64, Subtree)
        requires { is_at_rest self.old.stage ≡ true }
        ensures part { (result.0 ≡ self.old.ticket) × (self.old.stage ≡ Waiting result.1) }
        ensures runs { running self.old ≡ self.new ∷ [] }
    {
        match mem::replace(&mut self.stage, Stage::Running) {
            Stage::Waiting(subtree) => (self.ticket, subtree),
            Stage::Running | Stage::Done(_) | Stage::Refused(_) => unreachable!(),
        }
    }

    /// It has ended so. Whether anybody waits for it.
    pub(crate) fn end(&mut self, ended: Result<Progress, Refusal>) -> bool
        ensures { MatchBool result (ended_crawl ended self.old ≡ self.new ∷ []) (ended_crawl ended self.old ≡ []) }
    {
        self.stage = Stage::ended(ended);
        self.waiters != 0
    }

    /// How it ended, for one of those who wait for it, and whether others still do.
    pub(crate) fn collect(&mut self) -> (Result<Progress, Refusal>, bool)
        ensures outcome { result.0 ≡ stage_outcome self.old.stage }
        ensures left { MatchBool result.1 (collected self.old ≡ self.new ∷ []) (collected self.old ≡ []) }
    {
        self.waiters = self.waiters.saturating_sub(1);
        (self.stage.outcome(), self.waiters != 0)
    }
}
