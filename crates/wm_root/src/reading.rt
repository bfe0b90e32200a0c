//! A reading of a root by its crawler: what is observed meanwhile, and what is handed in at its end.
//! Definitions: specs/Readings.antt, specs/Overlays.antt. Tests: serve_tests/src/crawls.rt.
ghost use Rattle.std.specs.Prelude.{◌≡◌, ◌≢◌, None, Some, IsSome, IfOk, IfErr, MatchResult, OnErr, true, false};
ghost use Rattle.wm_view.specs.Listings.{Found};
ghost use Rattle.wm_view.specs.declared.op.Op.TheVariants.{Recrawl};
ghost use Rattle.wm_crawler.specs.Crawls.{FailsIn, IsCrawl, IsReadable};
ghost use Rattle.wm_root.specs.Overlays.{IsOverlaid, Noted};
ghost use Rattle.wm_root.specs.Readings.{IsPartRead, IsNotedIf, IsUnread, Notes, notes_of, pairs_in};

use crate::observed::Observed;
use std::alloc::Global;
use std::marker::Model;
use std::thread::Threads;
use wm_crawler::{Folders, Turnstile, crawl_root};
use wm_disk::{NoMemory, Refusal};
use wm_names::{Meta, RelPath, RootPath, Subtree};
use wm_view::{Listing, Op, Pairs};

/// What a crawl reads with: the folders of the roots, what is passed before each reading of one, and how many threads read.
#[derive(Drop)]
pub struct CrawlTools<'a, F, G> {
    pub folders: &'a F,
    pub turnstile: &'a G,
    /// 1 to 16.
    pub workers: usize,
}

/// A reading that has begun. What is observed from then on is noted until the reading's listing is handed in, or the reading is
/// given up: nobody can drop it.
pub(crate) struct Begun {
    number: u64,
    /// The tick at which the root was when the reading began.
    tick: u64,
}

/// What a reading of a root found, all of it since the reading began: only a crawl makes it of a [`Begun`], and it is to be handed in.
pub(crate) struct Reading {
    begun: Begun,
    listing: Listing,
}

impl Model for Reading {
    ghost use Rattle.wm_root.specs.Readings.{Read};

    ghost Value = { Read };

    ghost view = { λ r. record { number = r.begun.number; begun_at = r.begun.tick; listing = r.listing } };
}

impl Begun {
    /// The reading of this number of a root that is at this tick.
    pub(crate) fn at(number: u64, tick: u64) -> Begun
        ensures { result ≡ record { number = number; tick = tick } }
    {
        Begun { number, tick }
    }

    /// It is given up.
    pub(crate) fn give_up(self) {
        let Begun { number: _, tick: _ } = self;
    }

    /// Crawls a part of the root of this path, as `crawl_root` does, which begins after this reading did. A crawl that is refused hands
    /// the reading back.
    pub(crate) fn crawl<R: Threads + Sync, F: Folders + Sync, G: Turnstile + Sync>(
        self,
        rt: &R,
        alloc: Global,
        tools: &CrawlTools<'_, F, G>,
        root: &RootPath,
        subtree: &Subtree,
    ) -> Result<Reading, (Refusal, Begun)>
        ensures begun { IfOk result (λ found. (found.number ≡ self.number) × (found.begun_at ≡ self.tick)) }
        ensures files { IfOk result (λ found. IsPartRead subtree.now (F.stays tools.now.folders.now) (IsCrawl (F.content tools.now.folders.now root.now) subtree.now) found) }
        ensures whole { IfOk result (λ _. F.stays tools.now.folders.now → IsReadable (F.content tools.now.folders.now root.now) subtree.now) }
        ensures refused { IfErr result (λ e. e.0 ≢ Refusal.NoMemory → (e.0 ≡ Refusal.DeviceFailed) × FailsIn (F.may_fail tools.now.folders.now root.now) subtree.now) }
        ensures given_back { IfErr result (λ e. e.1 ≡ self) }
    {
        let crawled = crawl_root(
            rt,
            alloc,
            tools.folders,
            root,
            subtree,
            tools.workers,
            tools.turnstile,
        );
        match crawled {
            Ok(listing) => Ok(Reading {
                begun: self,
                listing,
            }),
            Err(refusal) => Err((refusal, self)),
        }
    }
}

/// The same pair again, whose path shares its text.
fn copied(pair: &(RelPath, Option<Meta>)) -> Result<(RelPath, Option<Meta>), NoMemory>
    ensures { IfOk result (λ copy. copy ≡ pair.now) }
{
    let path = pair.0.copy()?;
    Ok((path, pair.1))
}

/// The same pairs again.
fn copied_all(
    alloc: Global,
    pairs: &[(RelPath, Option<Meta>)],
) -> Result<Vec<(RelPath, Option<Meta>)>, NoMemory>
    ensures { IfOk result (λ copies. copies.items ≡ pairs.now) }
{
    let mut copies = Vec::new(alloc);
    for pair in pairs {
        let copy = copied(pair)?;
        copies.push(copy)?;
    }
    Ok(copies)
}

/// The pairs of an observation again; none of another operation.
pub(crate) fn observed_in(alloc: Global, op: &Op) -> Result<Option<Pairs>, NoMemory>
    ensures pairs { IfOk result (λ pairs. pairs ≡ pairs_in op.now) }
    ensures memory { OnErr result (IsSome (pairs_in op.now)) }
{
    match op {
        Op::Observe(_, pairs) => {
            let copies = copied_all(alloc, pairs.as_slice())?;
            Ok(Some(Pairs::new(copies)))
        }
        Op::Recrawl(_, _, _) => Ok(None),
        Op::AgeOut(_, _) => Ok(None),
    }
}

/// Notes what an observation observes.
fn note_pairs(alloc: Global, observed: &mut Observed, pairs: &Pairs)
    ensures { Notes (Some pairs.now) observed.old observed.new }
{
    observed.note(alloc, pairs);
}

/// Notes what an operation observes. Without memory for it the reading has to be done again.
fn note(alloc: Global, observed: &mut Observed, pairs: Result<Option<Pairs>, NoMemory>)
    ensures { MatchResult pairs (λ pairs. Notes pairs observed.old observed.new) (λ _. observed.new.incomplete ≡ true) }
{
    match pairs {
        Ok(Some(pairs)) => {
            note_pairs(alloc, observed, &pairs);
            drop(pairs);
        }
        Ok(None) => {}
        Err(NoMemory) => observed.give_up(alloc),
    }
}

/// Notes what an accepted operation observes, if a reading is under way.
pub(crate) fn note_if(
    alloc: Global,
    reading: &mut Option<Observed>,
    pairs: Result<Option<Pairs>, NoMemory>,
)
    ensures { IsNotedIf pairs reading.old reading.new }
{
    match reading {
        Some(observed) => note(alloc, observed, pairs),
        None => drop(pairs),
    }
}

/// What was noted for a reading: nothing if another one has begun last. No reading is under way then.
pub(crate) fn take_notes(
    notes: &mut Option<Observed>,
    last_reading: u64,
    found: &Reading,
) -> Option<Observed>
    ensures notes { result ≡ notes_of found.now.number last_reading notes.old }
    ensures over { notes.new ≡ None }
{
    let taken = notes.take();
    if found.begun.number == last_reading {
        taken
    } else {
        None
    }
}

/// The operation of a reading's end: its listing with what was observed meanwhile. `BadClock` if an observation was left out, or no
/// reading is under way: it has to be done again; and `NoMemory`.
pub(crate) fn recrawl_by(
    alloc: Global,
    observed: Option<Observed>,
    moment: u64,
    found: Reading,
) -> Result<Op, Refusal>
    ensures op { IfOk result (λ op. (noted : Noted) × (listing : Found) × (observed ≡ Some noted) × (noted.incomplete ≡ false) × IsOverlaid noted found.listing listing × (op ≡ Recrawl moment found.begun_at listing)) }
    ensures refused { IfErr result (IsUnread observed) }
{
    let Reading { begun, listing } = found;
    let Begun { number: _, tick } = begun;
    let Some(observed) = observed else {
        return Err(Refusal::BadClock);
    };
    let listing = observed.overlaid(alloc, listing)?;
    Ok(Op::Recrawl(moment, tick, listing))
}
