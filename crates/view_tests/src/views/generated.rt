//! Operations that are drawn at random, for one seed always the same.
use super::reference::{POOL, Reference};
use rand_core::{Rng, SeedableRng};
use rand_xoshiro::SplitMix64;
use std::alloc::Global;
use std::process::Abort;
use wm_names::{Kind, Meta, RelPath, Subtree};
use wm_view::{Listing, Op, Pairs};

/// What operations and their parts are drawn by.
#[derive(Drop)]
pub struct Dice {
    random: SplitMix64,
}

/// How many of the operations are observations, recrawls and age-outs, by weight.
pub type Mix = (u64, u64, u64);

impl Dice {
    pub fn new(seed: u64) -> Dice {
        Dice {
            random: SplitMix64::seed_from_u64(seed),
        }
    }

    /// A number below this one; 0 below 0.
    fn below(&mut self, end: u64) -> u64 {
        self.random.next_u64() % end.max(1)
    }

    /// True once in so many times.
    fn once_in(&mut self, times: u64) -> bool {
        self.below(times) == 0
    }

    /// A moment, a time or an age.
    fn moment(&mut self) -> u64 {
        if self.once_in(16) {
            u64::MAX
        } else {
            self.below(12)
        }
    }

    fn meta(&mut self) -> Meta {
        let kind = if self.once_in(4) {
            Kind::Folder
        } else {
            Kind::File
        };
        Meta {
            kind,
            size: self.below(3),
            mtime_ms: self.below(2),
        }
    }

    fn state(&mut self) -> Option<Meta> {
        if self.once_in(3) {
            None
        } else {
            Some(self.meta())
        }
    }

    fn path(&mut self, rt: &impl Abort, alloc: Global) -> RelPath {
        let place = self.below(POOL.len() as u64) as usize;
        let text = POOL.get(place).copied().unwrap_or("a");
        RelPath::read(alloc, text).expect(rt, "a path")
    }

    /// Up to seven pairs, and once in a while more than an observation may have, mostly before the first listing.
    fn pairs(&mut self, rt: &impl Abort, alloc: Global, reference: &Reference) -> Pairs {
        let times = if reference.tick() == 0 { 10 } else { 100 };
        let count = if self.once_in(times) {
            65_537
        } else {
            self.below(8)
        };
        let mut pairs = Vec::new(alloc);
        for _ in 0..count {
            pairs
                .push((self.path(rt, alloc), self.state()))
                .expect(rt, "memory");
        }
        Pairs::new(pairs)
    }

    fn part(&mut self, rt: &impl Abort, alloc: Global) -> Subtree {
        if self.once_in(2) {
            Subtree::Whole
        } else {
            Subtree::Below(self.path(rt, alloc))
        }
    }

    /// What a listing finds at the path: mostly what is there.
    fn found(&mut self, reference: &Reference, path: usize) -> Option<Meta> {
        if self.once_in(4) {
            self.state()
        } else {
            reference.present(path)
        }
    }

    fn listing(&mut self, rt: &impl Abort, alloc: Global, reference: &Reference) -> Listing {
        let mut listing = Listing::new(alloc, self.part(rt, alloc));
        for (place, text) in POOL.iter().enumerate() {
            let path = RelPath::read(alloc, text).expect(rt, "a path");
            let found = self.found(reference, place);
            if let Some(meta) = found
                && listing.subtree().covers(&path)
            {
                listing.add(path, meta).expect(rt, "an entry");
            } else {
                drop(path);
            }
        }
        listing
    }

    /// Where a reading began: mostly between the floor and the tick, now and then outside.
    fn begun_at(&mut self, reference: &Reference) -> u64 {
        let floor = reference.floor();
        let tick = reference.tick();
        match self.below(12) {
            0 => 0,
            1 => floor.saturating_sub(1),
            2 => tick.saturating_add(1),
            3 => u64::MAX,
            4 => floor,
            5 | 6 | 7 => tick,
            _ => floor.saturating_add(self.below(tick.saturating_sub(floor))),
        }
    }

    /// The next operation on a root that stands as the reference does. Before the first listing there are more
    /// recrawls.
    pub fn op(&mut self, rt: &impl Abort, alloc: Global, mix: Mix, reference: &Reference) -> Op {
        let (observations, recrawls, age_outs) = mix;
        let listings = observations.saturating_add(recrawls);
        let is_listing = reference.tick() == 0 && self.once_in(3);
        let drawn = if is_listing {
            observations
        } else {
            self.below(listings.saturating_add(age_outs))
        };
        if drawn < observations {
            return Op::Observe(self.moment(), self.pairs(rt, alloc, reference));
        }
        if drawn < listings {
            let begun_at = self.begun_at(reference);
            let listing = self.listing(rt, alloc, reference);
            return Op::Recrawl(self.moment(), begun_at, listing);
        }
        Op::AgeOut(self.moment(), self.moment())
    }
}
