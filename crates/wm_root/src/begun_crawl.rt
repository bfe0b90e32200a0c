//! A crawl of a root that has begun, until its end is reported to the root.
//! Definitions: specs/AskedCrawls.antt. Tests: serve_tests/src/crawls.rt.
ghost use Rattle.std.specs.Prelude.{◌≡◌, Err};

use std::marker::Model;
use wm_disk::Refusal;
use wm_lines::Progress;
use wm_names::Subtree;

/// A crawl of the root of a number that has begun, as it was asked for: the root makes it, and nobody can drop it. It is tried by
/// `WatchedRoot::read`, and used up when its end is reported to the root. Contracts see its ticket, its part, and how it ended when it was
/// tried last.
pub struct BegunCrawl {
    root: u64,
    ticket: u64,
    subtree: Subtree,
    ended: Result<Progress, Refusal>,
}

impl Model for BegunCrawl {
    ghost use Rattle.wm_root.specs.AskedCrawls.{CrawlBegun};

    ghost Value = { CrawlBegun };

    ghost view = { λ b. record { root = b.root; ticket = b.ticket; part = b.subtree; ended = b.ended } };
}

impl BegunCrawl {
    /// The crawl of a ticket, of a part of the root of a number. It is `NoMemory` unless it is tried.
    pub(crate) fn at(root: u64, ticket: u64, subtree: Subtree) -> BegunCrawl
        ensures { result ≡ record { root = root; ticket = ticket; part = subtree; ended = Err Refusal.NoMemory } }
    {
        BegunCrawl {
            root,
            ticket,
            subtree,
            ended: Err(Refusal::NoMemory),
        }
    }

    /// Its part.
    pub fn subtree(&self) -> &Subtree
        ensures { result.now ≡ self.now.part }
    {
        &self.subtree
    }

    /// How it ended when it was tried last: `NoMemory` if it wasn't tried, `BadClock` if it is to be tried again.
    pub fn ended(&self) -> Result<Progress, Refusal>
        ensures { result ≡ self.now.ended }
    {
        self.ended
    }

    /// It was tried, and ended so.
    pub(crate) fn end(&mut self, ended: Result<Progress, Refusal>)
        ensures { self.new ≡ record self.old { ended = ended } }
    {
        self.ended = ended;
    }

    /// Its ticket, and how it ended when it was tried last.
    pub(crate) fn into_end(self) -> (u64, Result<Progress, Refusal>)
        ensures { (result.0 ≡ self.ticket) × (result.1 ≡ self.ended) }
    {
        let BegunCrawl {
            root: _,
            ticket,
            subtree: _,
            ended,
        } = self;
        (ticket, ended)
    }
}
