//! The crawls of a root that were asked for, which the lock of `Work` protects.
//! Definitions: specs/AskedCrawls.antt. Tests: serve_tests/src/crawls.rt.
ghost use Rattle.std.specs.Prelude.{◌≡◌, ◌⊎◌, ◌+◌, ◌++◌, ◌∷◌, ◌^◌, ◌-◌, ◌%◌, ◌<◌, ◌==◌, [], true, false, cond, not, Ok, None, IfOk, IfErr, IfSome, MatchOption, MatchResult};
ghost use Rattle.std.specs.List.{find, list_any};
ghost use Rattle.wm_names.specs.declared.subtree.Subtree.TheVariants.{Whole};
ghost use Rattle.wm_root.specs.declared.asked_crawl.Stage.TheVariants.{Waiting};
ghost use Rattle.wm_root.specs.AskedCrawls.{collected, ended_crawl, has_ticket, is_pending, is_waiting, IsFirstWaiting, IsWithoutWork, new_crawl, one_more_waits, running, serves, crawl_outcome, with_changed, with_crawl, with_first};

use crate::asked_crawl::AskedCrawl;
use crate::begun_crawl::BegunCrawl;
use crate::crawl_places::{place_of, place_to_join, place_waiting, remove_at};
use std::alloc::Global;
use std::marker::Model;
use std::snapshot::Snapshot;
use wm_disk::{NoMemory, Refusal};
use wm_lines::Progress;
use wm_names::Subtree;

/// The ticket of a crawl, for one who asked for it and waits for its end: nobody can drop it. It is used up by how the crawl ended.
/// Contracts see its number, and the part that was asked for.
pub(crate) struct Ticket {
    number: u64,
    part: Snapshot<Subtree>,
}

impl Model for Ticket {
    ghost use Rattle.wm_root.specs.AskedCrawls.{AskedTicket};

    ghost Value = { AskedTicket };

    ghost view = { λ t. record { number = t.number; part = t.part.value } };
}

impl Ticket {
    /// Its number.
    pub(crate) fn number(&self) -> u64
        ensures { result ≡ self.now.number }
    {
        self.number
    }
}

/// How a crawl ended, for one who asked for it and waited: the root makes it for a ticket, and nobody can drop it, so that it is what the
/// reply reports. Contracts see the root's number and the part with it.
pub struct Crawled {
    root: u64,
    part: Snapshot<Subtree>,
    ended: Result<Progress, Refusal>,
}

impl Model for Crawled {
    ghost use Rattle.wm_root.specs.AskedCrawls.{AwaitedEnd};

    ghost Value = { AwaitedEnd };

    ghost view = { λ c. record { root = c.root; part = c.part.value; ended = c.ended } };
}

impl Crawled {
    /// How it ended.
    pub fn into_ended(self) -> Result<Progress, Refusal>
        ensures { result ≡ self.ended }
    {
        let Crawled {
            root: _,
            part: _,
            ended,
        } = self;
        ended
    }
}

/// The crawls of a root that were asked for, and what else its workers wait for. No ticket is given twice.
#[derive(Drop)]
pub(crate) struct Asked {
    crawls: Vec<AskedCrawl>,
    /// The last ticket that was given.
    last_ticket: u64,
    /// How often the view or the triggers may have changed.
    changes: u64,
    has_ended: bool,
}

impl Model for Asked {
    ghost use Rattle.wm_root.specs.AskedCrawls.{AskedState, TicketsRise};

    ghost Value = { AskedState };

    ghost view = { λ a. record { crawls = a.crawls.items; last_ticket = a.last_ticket; changes = a.changes; has_ended = a.has_ended } };

    ghost invariant = { λ a. TicketsRise 0 a.crawls.items a.last_ticket };
}

impl Asked {
    /// One crawl of the whole root is asked for, and nobody waits for it. `NoMemory`.
    pub(crate) fn new(alloc: Global) -> Result<Asked, NoMemory>
        ensures { IfOk result (λ asked. asked ≡ record { crawls = new_crawl 1 Whole 0 ∷ []; last_ticket = 1; changes = 1; has_ended = false }) }
    {
        let mut crawls = Vec::new(alloc);
        crawls.push(AskedCrawl::new(1, Subtree::Whole, 0))?;
        Ok(Asked {
            crawls,
            last_ticket: 1,
            changes: 1,
            has_ended: false,
        })
    }

    /// Whether the view or the triggers may have changed since they had so often.
    pub(crate) fn has_changed(&self, seen: Option<u64>) -> bool
        ensures { MatchOption seen (result ≡ true) (λ seen. result ≡ not (seen == self.now.changes)) }
    {
        match seen {
            Some(seen) => seen != self.changes,
            None => true,
        }
    }

    /// How often the view or the triggers may have changed, counted modulo 2^64; `None` if the root has ended.
    pub(crate) fn next_change(&self) -> Option<u64>
        ensures { MatchOption result (self.now.has_ended ≡ true) (λ count. (self.now.has_ended ≡ false) × (count ≡ self.now.changes)) }
    {
        if self.has_ended {
            None
        } else {
            Some(self.changes)
        }
    }

    /// Whether the root isn't watched any longer, or the server closes.
    pub(crate) fn has_ended(&self) -> bool
        ensures { result ≡ self.now.has_ended }
    {
        self.has_ended
    }

    /// The view or the triggers may have changed.
    pub(crate) fn note_change(&mut self)
        ensures { self.new ≡ record self.old { changes = (self.old.changes + 1) % 2 ^ 64 } }
    {
        self.changes = self.changes.wrapping_add(1);
    }

    /// The root isn't watched any longer, or the server closes.
    pub(crate) fn end_root(&mut self)
        ensures { self.new ≡ record self.old { has_ended = true } }
    {
        self.has_ended = true;
    }

    /// Whether the crawl of this ticket has still to end.
    pub(crate) fn is_pending(&self, ticket: u64) -> bool
        ensures { result ≡ list_any (is_pending ticket) self.now.crawls }
    {
        self.crawls.iter().any(|crawl| crawl.is_pending(ticket))
    }

    /// Whether a crawl waits for the crawler.
    pub(crate) fn has_waiting(&self) -> bool
        ensures { result ≡ list_any is_waiting self.now.crawls }
    {
        self.crawls.iter().any(|crawl| crawl.stage.is_at_rest())
    }

    /// Asks for a crawl of a part, and returns its ticket: one more waits for its end. One that hasn't begun yet serves all who ask for
    /// the same part, and else there is a new one. `NoMemory`, and `Exhausted` after 2^64 - 1 tickets; nothing changes then.
    pub(crate) fn ask(&mut self, subtree: &Subtree) -> Result<Ticket, Refusal>
        ensures joined { IfSome (find (serves subtree.now) self.old.crawls) (λ crawl. (result ≡ Ok (record { number = crawl.ticket; part = subtree.now })) × (self.new ≡ with_changed (serves subtree.now) one_more_waits self.old)) }
        ensures added { find (serves subtree.now) self.old.crawls ≡ None → IfOk result (λ ticket. (ticket ≡ record { number = self.old.last_ticket + 1; part = subtree.now }) × (self.new ≡ with_crawl ticket.number subtree.now self.old)) }
        ensures refused { IfErr result (λ e. (self.new ≡ self.old) × ((e ≡ Refusal.NoMemory) ⊎ ((e ≡ Refusal.Exhausted) × (self.old.last_ticket ≡ 2 ^ 64 - 1)))) }
    {
        match place_to_join(&self.crawls, subtree) {
            Some(place) => {
                let number = self.crawls[place].join();
                Ok(Ticket {
                    number,
                    part: Snapshot::of(subtree),
                })
            }
            None => self.add(subtree),
        }
    }

    /// A new crawl of a part, for which one waits, and its ticket. It is refused as `ask` is.
    fn add(&mut self, subtree: &Subtree) -> Result<Ticket, Refusal>
        ensures added { IfOk result (λ ticket. (ticket ≡ record { number = self.old.last_ticket + 1; part = subtree.now }) × (self.new ≡ with_crawl ticket.number subtree.now self.old)) }
        ensures refused { IfErr result (λ e. (self.new ≡ self.old) × ((e ≡ Refusal.NoMemory) ⊎ ((e ≡ Refusal.Exhausted) × (self.old.last_ticket ≡ 2 ^ 64 - 1)))) }
    {
        let Some(number) = self.last_ticket.checked_add(1) else {
            return Err(Refusal::Exhausted);
        };
        let part = Snapshot::of(subtree);
        let subtree = subtree.copy()?;
        self.crawls.push(AskedCrawl::new(number, subtree, 1))?;
        self.last_ticket = number;
        Ok(Ticket { number, part })
    }

    /// Begins the first crawl that waits: its ticket, and its part, which is given away.
    fn begin(&mut self) -> Option<(u64, Subtree)>
        ensures first { MatchOption (find is_waiting self.old.crawls) (result ≡ None) (λ crawl. MatchOption result ⊥ (λ begun. (begun.0 ≡ crawl.ticket) × (crawl.stage ≡ Waiting begun.1))) }
        ensures begun { self.new ≡ record self.old { crawls = with_first is_waiting running self.old.crawls } }
    {
        match place_waiting(&self.crawls) {
            Some(place) => Some(self.crawls[place].run()),
            None => None,
        }
    }

    /// Begins the first crawl of the root, which has this number, that waits. `None` if none waits or the root has ended.
    pub(crate) fn next_crawl(&mut self, root: u64) -> Option<BegunCrawl>
        ensures root { IfSome result (λ begun. begun.root ≡ root) }
        ensures begun { MatchOption result (IsWithoutWork self.old) (λ begun. (self.old.has_ended ≡ false) × IsFirstWaiting begun.ticket begun.part self.old.crawls) }
        ensures runs { self.new ≡ record self.old { crawls = cond self.old.has_ended self.old.crawls (with_first is_waiting running self.old.crawls) } }
    {
        if self.has_ended {
            return None;
        }
        match self.begin() {
            Some((ticket, subtree)) => Some(BegunCrawl::at(root, ticket, subtree)),
            None => None,
        }
    }

    /// The crawl of a ticket has ended so. It goes if nobody waits for it.
    fn end(&mut self, ticket: u64, ended: Result<Progress, Refusal>)
        ensures { self.new ≡ record self.old { crawls = with_first (has_ticket ticket) (ended_crawl ended) self.old.crawls } }
    {
        match place_of(&self.crawls, ticket) {
            Some(place) => {
                if !self.crawls[place].end(ended) {
                    remove_at(&mut self.crawls, place);
                }
            }
            None => {}
        }
    }

    /// How the crawl of a ticket ended, for one who waited for it. `NotWatched` if it hasn't ended.
    fn collect(&mut self, ticket: u64) -> Result<Progress, Refusal>
        ensures outcome { result ≡ crawl_outcome (find (has_ticket ticket) self.old.crawls) }
        ensures left { self.new ≡ record self.old { crawls = with_first (has_ticket ticket) collected self.old.crawls } }
    {
        match place_of(&self.crawls, ticket) {
            Some(place) => {
                let (ended, is_awaited) = self.crawls[place].collect();
                if is_awaited {
                    ended
                } else {
                    remove_at(&mut self.crawls, place);
                    ended
                }
            }
            None => Err(Refusal::NotWatched),
        }
    }

    /// A crawl that had begun has ended as it was tried last. It goes if nobody waits for it.
    pub(crate) fn crawled(&mut self, begun: BegunCrawl)
        ensures { self.new ≡ record self.old { crawls = with_first (has_ticket begun.ticket) (ended_crawl begun.ended) self.old.crawls } }
    {
        let (ticket, ended) = begun.into_end();
        self.end(ticket, ended);
    }

    /// As `collect`, for who asked for a part of the root, which has this number, and waited until the crawl ended, or the root.
    pub(crate) fn collected(&mut self, root: u64, ticket: Ticket) -> Crawled
        requires { (list_any (is_pending ticket.number) self.old.crawls ≡ false) ⊎ (self.old.has_ended ≡ true) }
        ensures outcome { result ≡ record { root = root; part = ticket.part; ended = crawl_outcome (find (has_ticket ticket.number) self.old.crawls) } }
        ensures left { self.new ≡ record self.old { crawls = with_first (has_ticket ticket.number) collected self.old.crawls } }
    {
        let Ticket { number, part } = ticket;
        Crawled {
            root,
            part,
            ended: self.collect(number),
        }
    }
}
