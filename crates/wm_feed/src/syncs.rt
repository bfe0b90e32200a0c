//! When a sync is released. A sync is a file that a client makes, and it is released by the file's removal. Several processes may watch
//! a root. A sync is ready once each of them has reported it and the server has answered each batch that has something of what came
//! before. Definitions: specs/Syncs.antt, specs/Releases.antt. Tests: feed_tests/src/syncs.rt.

ghost use Rattle.std.specs.Prelude.{◌≡◌, [], map, string_bytes, nat_lt, length, IfOk, OnOk, OnErr};
ghost use Rattle.std.specs.List.{list_all, list_any};
ghost use Rattle.std.specs.Str.{bytes_eq};
ghost use Rattle.wm_feed.specs.Once.{with_text_once};
ghost use Rattle.wm_feed.specs.Releases.{released_names};
ghost use Rattle.wm_feed.specs.Syncs.{forgotten, is_sync_answered, is_sync_ready as is_ready_lem, is_sync_told, kept_of, last_batch as last_batch_lem, no_syncs, ready_names, was_answered, was_told, with_answered, with_lost, with_sent, with_told};

use crate::batch::Batch;
use crate::checks::Checks;
use crate::orphans::Orphans;
use std::alloc::Global;
use std::marker::Model;
use wm_disk::NoMemory;

/// The most pairs of a sync and a watch: what is told beyond that is dropped.
const MAX_SYNCS: usize = 4_096;

/// A sync, a watch that reported it, and the last batch that has something of what came before. Contracts see the bytes of its name.
#[derive(Drop)]
struct Sync {
    name: String,
    watch: u64,
    batch: u64,
}

impl Model for Sync {
    ghost use Rattle.std.specs.Prelude.{string_bytes};
    ghost use Rattle.wm_feed.specs.Syncs.{SyncTold};

    ghost Value = { SyncTold };

    ghost view = { λ s. record { name = string_bytes s.name; watch = s.watch; batch = s.batch } };
}

impl Sync {
    /// A sync that a watch reported behind a batch.
    fn new(alloc: Global, name: &str, watch: u64, batch: u64) -> Result<Sync, NoMemory>
        ensures { IfOk result (λ s. s ≡ record { name = name.now; watch = watch; batch = batch }) }
    {
        let name = String::from_str(alloc, name)?;
        Ok(Sync { name, watch, batch })
    }

    /// Its name.
    fn name(&self) -> &str
        ensures { result.now ≡ self.now.name }
    {
        self.name.as_str()
    }

    /// Whether it is this sync, told by this watch.
    fn is(&self, name: &str, watch: u64) -> bool
        ensures { result ≡ is_sync_told name.now watch self.now }
    {
        self.watch == watch && self.name.as_str() == name
    }

    /// Whether it is this sync, reported by this watch behind a batch up to this one.
    fn is_answered(&self, name: &str, watch: u64, answered: u64) -> bool
        ensures { result ≡ is_sync_answered answered name.now watch self.now }
    {
        self.is(name, watch) && self.batch <= answered
    }
}

/// The syncs that were reported and not forgotten, each with the watches that reported it, and the batches: each has a number.
#[derive(Drop)]
pub struct Syncs {
    told: Vec<Sync>,
    sent: u64,
    answered: u64,
}

impl Model for Syncs {
    ghost use Rattle.wm_feed.specs.Syncs.{SyncsKept};

    ghost Value = { SyncsKept };

    ghost view = { λ s. record { told = s.told.items; sent = s.sent; answered = s.answered } };
}

/// Whether a name is among these.
fn is_name(name: &str, names: &[String]) -> bool
    ensures { result ≡ list_any (λ one. bytes_eq (string_bytes one) name.now) names.now }
{
    names.iter().any(|one| one.as_str() == name)
}

/// Adds a name, unless it is among them.
fn add_name(alloc: Global, names: &mut Vec<String>, name: &str) -> Result<(), NoMemory>
    ensures { OnOk result (map string_bytes names.new.items ≡ with_text_once name.now (map string_bytes names.old.items)) }
{
    if is_name(name, names) {
        return Ok(());
    }
    names.push(String::from_str(alloc, name)?)?;
    Ok(())
}

impl Syncs {
    /// None was reported yet, and the crawl by which a feed begins isn't answered.
    pub fn new(alloc: Global) -> Syncs
        ensures { result ≡ no_syncs }
    {
        Syncs {
            told: Vec::new(alloc),
            sent: 1,
            answered: 0,
        }
    }

    /// Whether any was reported and isn't forgotten.
    pub fn are_any(&self) -> bool
        ensures { result ≡ nat_lt 0 (length self.now.told) }
    {
        self.told.len() > 0
    }

    /// A batch is sent: all that was gathered until now.
    pub fn send(&mut self)
        ensures { self.new ≡ with_sent self.old }
    {
        self.sent = self.sent.saturating_add(1);
    }

    /// The server has answered the batch that was sent last, and so all before it.
    pub fn answer(&mut self)
        ensures { self.new ≡ with_answered self.old }
    {
        self.answered = self.sent;
    }

    /// More may have happened than was sent: no sync is ready until a batch is answered again.
    pub fn lose(&mut self)
        ensures { self.new ≡ with_lost self.old }
    {
        self.answered = 0;
    }

    /// The last batch that has something of what came so far.
    fn last_batch(&self, gathered: &Batch) -> u64
        ensures { result ≡ last_batch_lem gathered.now self.now }
    {
        if gathered.is_empty() {
            self.sent
        } else {
            self.sent.saturating_add(1)
        }
    }

    /// Whether a watch reported a sync.
    fn is_told(&self, name: &str, watch: u64) -> bool
        ensures { result ≡ was_told name.now watch self.now.told }
    {
        self.told.iter().any(|one| one.is(name, watch))
    }

    /// Keeps that a watch reported a sync, behind what is gathered for the next batch. At most 4,096 such pairs are kept: beyond that
    /// the sync is dropped, and the client that waits for it times out. `NoMemory`: nothing was kept.
    pub fn told(
        &mut self,
        alloc: Global,
        name: &str,
        watch: u64,
        gathered: &Batch,
    ) -> Result<(), NoMemory>
        ensures ok { OnOk result (self.new ≡ with_told name.now watch gathered.now self.old) }
        ensures err { OnErr result (self.new ≡ self.old) }
    {
        if self.is_told(name, watch) || self.told.len() >= MAX_SYNCS {
            return Ok(());
        }
        let sync = Sync::new(alloc, name, watch, self.last_batch(gathered))?;
        self.told.push(sync)?;
        Ok(())
    }

    /// Whether a watch reported a sync, and all that came before is answered.
    fn is_answered(&self, name: &str, watch: u64) -> bool
        ensures { result ≡ was_answered self.now.answered name.now watch self.now.told }
    {
        self.told
            .iter()
            .any(|one| one.is_answered(name, watch, self.answered))
    }

    /// Whether that is so for each of these watches.
    fn is_answered_for_all(&self, name: &str, watches: &[u64]) -> bool
        ensures { result ≡ list_all (λ watch. was_answered self.now.answered name.now watch self.now.told) watches.now }
    {
        watches.iter().all(|watch| self.is_answered(name, *watch))
    }

    /// Whether that is so for each of these watches, and there is one.
    fn is_ready(&self, name: &str, watches: &[u64]) -> bool
        ensures { result ≡ is_ready_lem self.now.answered name.now watches.now self.now.told }
    {
        watches.len() > 0 && self.is_answered_for_all(name, watches)
    }

    /// The syncs that each of these watches reported and whose batches are answered, each once, in the order in which they were
    /// reported first. None is ready if there is no watch. `NoMemory`.
    pub fn ready(&self, alloc: Global, watches: &[u64]) -> Result<Vec<String>, NoMemory>
        ensures { IfOk result (λ v. map string_bytes v.items ≡ ready_names watches.now self.now) }
    {
        let mut ready = Vec::new(alloc);
        for one in &self.told {
            if self.is_ready(one.name(), watches) {
                add_name(alloc, &mut ready, one.name())?;
            }
        }
        Ok(ready)
    }

    /// The syncs to release now, whose files are to be removed: those that are ready, once no folder is to be checked for a watch and
    /// no name stands for an unknown folder. A folder may also have no watch if one moved, or if a process begins to watch. `NoMemory`.
    pub fn released(
        &self,
        alloc: Global,
        watches: &[u64],
        checks: &Checks,
        orphans: &Orphans,
        is_moved: bool,
    ) -> Result<Vec<String>, NoMemory>
        ensures { IfOk result (λ v. map string_bytes v.items ≡ released_names watches.now checks.now orphans.now is_moved self.now) }
    {
        if is_moved || checks.are_any() || orphans.are_any() {
            return Ok(Vec::new(alloc));
        }
        self.ready(alloc, watches)
    }

    /// Forgets the syncs but for those of these names: the clients of the others took their files away.
    pub fn keep(&mut self, names: &[String])
        ensures { self.new ≡ kept_of (map string_bytes names.now) self.old }
    {
        self.told.retain(|one| is_name(one.name(), names));
    }

    /// Forgets the syncs of these names, whichever watches reported them.
    pub fn forget(&mut self, names: &[String])
        ensures { self.new ≡ forgotten (map string_bytes names.now) self.old }
    {
        self.told.retain(|one| !is_name(one.name(), names));
    }
}
