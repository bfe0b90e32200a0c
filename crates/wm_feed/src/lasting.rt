//! What was found twice, with some time between: what is found once may be on its way. Definitions: specs/Lasting.antt.
//! Tests: feed_tests/src/lasting.rt.

ghost use Rattle.std.specs.Prelude.{◌≡◌, length, nat_lt, IfOk, OnOk};
ghost use Rattle.std.specs.List.{filter};
ghost use Rattle.wm_feed.specs.Laws.{is_asked_path};
ghost use Rattle.wm_feed.specs.Lasting.{found_last, is_early as is_early_lem, lasting, nothing_found};

use crate::paths::{listed, set_of};
use std::alloc::Global;
use std::collections::BTreeSet;
use std::marker::Model;
use wm_disk::NoMemory;
use wm_names::RelPath;

/// What was found last, and when.
#[derive(Drop)]
pub struct Lasting {
    found: BTreeSet<RelPath>,
    since: u64,
}

impl Model for Lasting {
    ghost use Rattle.wm_feed.specs.Lasting.{FoundLast};

    ghost Value = { FoundLast };

    ghost view = { λ l. record { paths = l.found.keys; since = l.since } };
}

/// Whether a path was found.
fn is_found(path: &RelPath, found: &BTreeSet<RelPath>) -> bool
    ensures { result ≡ is_asked_path path.now found.now.keys }
{
    found.contains(path)
}

/// The paths that both have.
fn both(
    alloc: Global,
    found: &BTreeSet<RelPath>,
    last: &BTreeSet<RelPath>,
) -> Result<BTreeSet<RelPath>, NoMemory>
    ensures { IfOk result (λ s. s.keys ≡ filter (λ p. is_asked_path p last.now.keys) found.now.keys) }
{
    let found = listed(alloc, found)?;
    let mut both = Vec::new(alloc);
    for path in &found {
        if is_found(path, last) {
            both.push(path.copy()?)?;
        }
    }
    set_of(alloc, &both)
}

impl Lasting {
    /// Nothing was found.
    pub fn new(alloc: Global) -> Lasting
        ensures { result ≡ nothing_found }
    {
        Lasting {
            found: BTreeSet::new(alloc),
            since: 0,
        }
    }

    /// Whether something was found and is found now, and the time between isn't over.
    fn is_early(&self, found: &BTreeSet<RelPath>, now: u64, wait: u64) -> bool
        ensures { result ≡ is_early_lem now wait found.now.keys self.now }
    {
        self.found.len() > 0 && found.len() > 0 && now.saturating_sub(self.since) < wait
    }

    /// What is found now and was found at least so long before; then what is found now counts as found last. Both times have one unit.
    /// `NoMemory`: what was found last stays.
    pub fn take(
        &mut self,
        alloc: Global,
        found: BTreeSet<RelPath>,
        now: u64,
        wait: u64,
    ) -> Result<BTreeSet<RelPath>, NoMemory>
        ensures both { IfOk result (λ s. s.keys ≡ lasting now wait found.keys self.old) }
        ensures last { IfOk result (λ s. self.new ≡ found_last now wait found.keys self.old) }
    {
        if self.is_early(&found, now, wait) {
            return Ok(BTreeSet::new(alloc));
        }
        let lasts = both(alloc, &found, &self.found)?;
        self.found = found;
        self.since = now;
        Ok(lasts)
    }
}
