//! A root as its history defines it: every map that it ever was is kept, and all that is asked is found anew
//! in these. Its paths are those of a pool, so that a map is an array with a place for each of them.
use std::alloc::Global;
use std::process::Abort;
use wm_disk::{NoMemory, Refusal};
use wm_names::{Meta, Subtree};
use wm_view::{Known, Listing, Op, Pairs};

/// How many paths there may be.
pub const PATHS: usize = 12;

/// The paths, in the order of their bytes.
pub static POOL: [&str; PATHS] = [
    "a", "a-b", "a.c", "a/b", "a/b-c", "a/b/c", "a/b/c/d", "a/bc", "a/c", "a0", "b", "b/a",
];

/// The most pairs of an observation.
const MAX_PAIRS: usize = 65_536;

/// What is at each path of the pool.
type Files = [Option<Meta>; PATHS];

/// A path of the pool, and what is known of it.
pub type Listed = (&'static str, Known);

/// The moment of the operation that made a tick, and the map from then on.
#[derive(Drop)]
struct Tick {
    moment: u64,
    files: Files,
}

/// Every map that a root ever was, the oldest first.
#[derive(Drop)]
pub struct Reference {
    ticks: Vec<Tick>,
    floor: u64,
    moment_floor: Option<u64>,
    forgotten: [bool; PATHS],
}

/// Where a path stands in the pool.
fn place_of(path: &str) -> Option<usize> {
    POOL.iter().position(|text| *text == path)
}

/// What a map has at a path.
fn at(files: &Files, path: usize) -> Option<Meta> {
    match files.get(path) {
        Some(state) => *state,
        None => None,
    }
}

/// Puts it there.
fn put(files: &mut Files, path: usize, state: Option<Meta>) {
    if let Some(place) = files.get_mut(path) {
        *place = state;
    }
}

/// Whether the path stands in this part of the root.
fn covers(subtree: &Subtree, path: &str) -> bool {
    match subtree {
        Subtree::Whole => true,
        Subtree::Below(top) => match path.strip_prefix(top.as_str()) {
            Some(rest) => rest.starts_with('/'),
            None => false,
        },
    }
}

/// What the listing has at the path.
fn found_at(listing: &Listing, path: &str) -> Option<Meta> {
    for entry in listing.files() {
        if entry.0.as_str() == path {
            return Some(entry.1);
        }
    }
    None
}

impl Reference {
    /// A root that wasn't listed yet.
    pub fn new(alloc: Global) -> Reference {
        Reference {
            ticks: Vec::new(alloc),
            floor: 0,
            moment_floor: None,
            forgotten: [false; PATHS],
        }
    }

    /// How many maps there were.
    pub fn tick(&self) -> u64 {
        self.ticks.len() as u64
    }

    /// The tick from which on all changes can be told.
    pub fn floor(&self) -> u64 {
        self.floor
    }

    /// The latest change moment of a path that an age-out named, if one did.
    pub fn moment_floor(&self) -> Option<u64> {
        self.moment_floor
    }

    /// The moment of the first listing, and 0 before it.
    pub fn ready_moment(&self) -> u64 {
        self.moment_of(1)
    }

    /// What made a tick; nothing for tick 0, at which the map is empty.
    fn made(&self, tick: u64) -> Option<&Tick> {
        let place = (tick as usize).checked_sub(1)?;
        self.ticks.get(place)
    }

    /// The moment of a tick, and 0 if there is none yet.
    fn moment_of(&self, tick: u64) -> u64 {
        match self.made(tick) {
            Some(made) => made.moment,
            None => 0,
        }
    }

    /// What is at the path at a tick.
    fn state(&self, tick: u64, path: usize) -> Option<Meta> {
        match self.made(tick) {
            Some(made) => at(&made.files, path),
            None => None,
        }
    }

    /// What is there now.
    pub fn present(&self, path: usize) -> Option<Meta> {
        self.state(self.tick(), path)
    }

    /// Whether the path changed at a tick.
    fn differs(&self, tick: u64, path: usize) -> bool {
        self.state(tick, path) != self.state(tick.saturating_sub(1), path)
    }

    /// Whether it came into being then.
    fn appears(&self, tick: u64, path: usize) -> bool {
        self.state(tick, path).is_some() && self.state(tick.saturating_sub(1), path).is_none()
    }

    /// The last tick at which it changed, 0 where there is none.
    fn last_change(&self, path: usize) -> u64 {
        let mut last = 0;
        for tick in 1..=self.tick() {
            if self.differs(tick, path) {
                last = tick;
            }
        }
        last
    }

    /// The last tick at which it came into being, 0 where there is none.
    fn creation(&self, path: usize) -> u64 {
        let mut last = 0;
        for tick in 1..=self.tick() {
            if self.appears(tick, path) {
                last = tick;
            }
        }
        last
    }

    /// The moment of its last change.
    fn change_moment(&self, path: usize) -> u64 {
        self.moment_of(self.last_change(path))
    }

    /// The last metadata that it had; nothing where it never existed.
    fn last_meta(&self, path: usize) -> Option<Meta> {
        let mut last = None;
        for made in &self.ticks {
            let state = at(&made.files, path);
            if state.is_some() {
                last = state;
            }
        }
        last
    }

    fn is_forgotten(&self, path: usize) -> bool {
        self.forgotten.get(path) == Some(&true)
    }

    /// What is known of the path, where it existed once and isn't forgotten.
    fn known(&self, path: usize) -> Option<Known> {
        if self.is_forgotten(path) {
            return None;
        }
        let meta = self.last_meta(path)?;
        Some(Known {
            exists: self.present(path).is_some(),
            kind: meta.kind,
            size: meta.size,
            mtime_ms: meta.mtime_ms,
            last: self.last_change(path),
            created: self.creation(path),
            moment: self.change_moment(path),
            created_moment: self.moment_of(self.creation(path)),
        })
    }

    /// What is known, in the order of the paths.
    fn all_known(&self, rt: &impl Abort, alloc: Global) -> Vec<Listed> {
        let mut all = Vec::new(alloc);
        for (path, text) in POOL.iter().enumerate() {
            if let Some(known) = self.known(path) {
                all.push((*text, known)).expect(rt, "memory");
            }
        }
        all
    }

    /// What changed after the tick, the latest change first, at one tick in the order of the paths.
    pub fn changed_after(&self, rt: &impl Abort, alloc: Global, since: u64) -> Vec<Listed> {
        let all = self.all_known(rt, alloc);
        let mut changed = Vec::new(alloc);
        for tick in (0..=self.tick()).rev() {
            for listed in &all {
                if since < tick && listed.1.last == tick {
                    changed.push(*listed).expect(rt, "memory");
                }
            }
        }
        changed
    }

    /// What changed last at the moment or later, in the same order.
    pub fn changed_from(&self, rt: &impl Abort, alloc: Global, moment: u64) -> Vec<Listed> {
        let mut changed = self.changed_after(rt, alloc, 0);
        changed.retain(|listed| moment <= listed.1.moment);
        changed
    }

    /// Whether what changed at the moment or later can't be told: there was no listing yet at the moment, or the
    /// path of such a change is forgotten.
    pub fn is_fresh_from(&self, moment: u64) -> bool {
        let is_forgotten = match self.moment_floor {
            Some(floor) => moment <= floor,
            None => false,
        };
        moment < self.ready_moment() || is_forgotten
    }

    /// What exists, in the same order.
    pub fn existing(&self, rt: &impl Abort, alloc: Global) -> Vec<Listed> {
        let mut existing = self.changed_after(rt, alloc, 0);
        existing.retain(|listed| listed.1.exists);
        existing
    }

    /// The map now.
    fn newest(&self) -> Files {
        match self.made(self.tick()) {
            Some(made) => made.files,
            None => [None; PATHS],
        }
    }

    /// Adds a tick with this map. What comes back is no longer forgotten.
    fn grow(&mut self, moment: u64, files: Files) -> Result<(), NoMemory> {
        self.ticks.push(Tick { moment, files })?;
        for (path, forgotten) in self.forgotten.iter_mut().enumerate() {
            if at(&files, path).is_some() {
                *forgotten = false;
            }
        }
        Ok(())
    }

    /// Adds a tick where the map is another.
    fn next_map(&mut self, moment: u64, files: Files) -> Result<(), NoMemory> {
        if files == self.newest() {
            return Ok(());
        }
        self.grow(moment, files)
    }

    fn observe(&mut self, moment: u64, pairs: &Pairs) -> Result<(), Refusal> {
        if self.ticks.is_empty() {
            return Err(Refusal::NotReady);
        }
        if pairs.as_slice().len() > MAX_PAIRS {
            return Err(Refusal::TooMany);
        }
        let mut files = self.newest();
        for pair in pairs.as_slice() {
            if let Some(path) = place_of(pair.0.as_str()) {
                put(&mut files, path, pair.1);
            }
        }
        self.next_map(moment, files)?;
        Ok(())
    }

    /// The map that a listing makes of the present one: it speaks of what stands in its part, and didn't
    /// change since the reading began.
    fn recrawled(&self, begun_at: u64, listing: &Listing) -> Files {
        let mut files = self.newest();
        for (path, text) in POOL.iter().enumerate() {
            if covers(listing.subtree(), text) && self.last_change(path) <= begun_at {
                put(&mut files, path, found_at(listing, text));
            }
        }
        files
    }

    fn recrawl(&mut self, moment: u64, begun_at: u64, listing: &Listing) -> Result<(), Refusal> {
        let files = self.recrawled(begun_at, listing);
        if self.ticks.is_empty() {
            return match listing.subtree() {
                Subtree::Whole if begun_at == 0 => Ok(self.grow(moment, files)?),
                _ => Err(Refusal::NotReady),
            };
        }
        if begun_at < self.floor || self.tick() < begun_at {
            return Err(Refusal::BadClock);
        }
        self.next_map(moment, files)?;
        Ok(())
    }

    /// Whether the path existed once, and is gone for so long.
    fn is_aged(&self, path: usize, time: u64, age: u64) -> bool {
        let is_gone = self.last_meta(path).is_some() && self.present(path).is_none();
        is_gone
            && match self.change_moment(path).checked_add(age) {
                Some(then) => then <= time,
                None => false,
            }
    }

    fn forget(&mut self, path: usize) {
        let moment = self.change_moment(path);
        self.floor = self.floor.max(self.last_change(path));
        self.moment_floor = match self.moment_floor {
            Some(floor) => Some(floor.max(moment)),
            None => Some(moment),
        };
        if let Some(forgotten) = self.forgotten.get_mut(path) {
            *forgotten = true;
        }
    }

    fn age_out(&mut self, time: u64, age: u64) -> Result<(), Refusal> {
        if self.ticks.is_empty() {
            return Err(Refusal::NotReady);
        }
        for path in 0..PATHS {
            if self.is_aged(path, time, age) {
                self.forget(path);
            }
        }
        Ok(())
    }

    /// Does what the operation says. A refusal changes nothing.
    pub fn perform(&mut self, op: &Op) -> Result<(), Refusal> {
        match op {
            Op::Observe(moment, pairs) => self.observe(*moment, pairs),
            Op::Recrawl(moment, begun_at, listing) => self.recrawl(*moment, *begun_at, listing),
            Op::AgeOut(time, age) => self.age_out(*time, *age),
        }
    }
}
