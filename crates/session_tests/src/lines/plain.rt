//! A root by its plain definition: whole maps, one a tick, from which each answer is computed anew.
use std::alloc::Global;
use std::process::Abort;

/// The paths that may be there, in the order of their bytes.
pub(super) const PATHS: [&str; 6] = ["a", "b", "d", "d/x", "d/y", "e"];

/// The size of each path, where it is there.
pub(super) type Map = [Option<u64>; 6];

/// A root of the first start, and the first to be watched.
#[derive(Drop)]
pub(super) struct Plain {
    // one a tick, and the moment at which each came
    maps: Vec<Map>,
    moments: Vec<u64>,
    floor: usize,
}

impl Plain {
    pub(super) fn new(alloc: Global) -> Plain {
        Plain {
            maps: Vec::new(alloc),
            moments: Vec::new(alloc),
            floor: 0,
        }
    }

    pub(super) fn tick(&self) -> usize {
        self.maps.len()
    }

    pub(super) fn floor(&self) -> usize {
        self.floor
    }

    /// The map at a tick; before the first there is nothing.
    pub(super) fn map_at(&self, tick: usize) -> Map {
        match self.maps.get(tick.wrapping_sub(1)) {
            Some(map) => *map,
            None => [None; 6],
        }
    }

    /// The state of a path at a tick.
    fn state_at(&self, tick: usize, path: usize) -> Option<u64> {
        match self.map_at(tick).get(path) {
            Some(state) => *state,
            None => None,
        }
    }

    /// The last tick at which a path's state changed; 0 where it never did.
    pub(super) fn last_change(&self, path: usize) -> usize {
        let mut last = 0;
        for tick in 1..self.tick().saturating_add(1) {
            if self.state_at(tick, path) != self.state_at(tick.saturating_sub(1), path) {
                last = tick;
            }
        }
        last
    }

    /// The last tick at which a path came into being; 0 where it never did.
    fn creation(&self, path: usize) -> usize {
        let mut last = 0;
        for tick in 1..self.tick().saturating_add(1) {
            let before = self.state_at(tick.saturating_sub(1), path);
            if before.is_none() && self.state_at(tick, path).is_some() {
                last = tick;
            }
        }
        last
    }

    /// The size that was last known of a path.
    fn last_size(&self, path: usize) -> u64 {
        let mut size = 0;
        for tick in 1..self.tick().saturating_add(1) {
            size = self.state_at(tick, path).unwrap_or(size);
        }
        size
    }

    /// A map at a moment: a tick more where it is another one, or the first.
    pub(super) fn publish(&mut self, rt: &impl Abort, moment: u64, map: Map) {
        if self.maps.is_empty() || map != self.map_at(self.tick()) {
            self.maps.push(map).expect(rt, "memory");
            self.moments.push(moment).expect(rt, "memory");
        }
    }

    /// Forgets the deleted paths whose last change is so long ago.
    pub(super) fn age_out(&mut self, now: u64, age: u64) {
        for path in 0..PATHS.len() {
            let changed = self.last_change(path);
            let Some(moment) = self.moments.get(changed.wrapping_sub(1)) else {
                continue;
            };
            if self.state_at(changed, path).is_none() && moment.saturating_add(age) <= now {
                self.floor = self.floor.max(changed);
            }
        }
    }

    /// Whether a question since this tick of the root is fresh.
    pub(super) fn is_fresh(&self, since: usize) -> bool {
        since == 0 || since < self.floor || self.tick() < since
    }

    /// The reply to a question since this tick, of the paths at the chosen places.
    pub(super) fn reply(
        &self,
        rt: &impl Abort,
        alloc: Global,
        since: usize,
        chosen: &[usize],
    ) -> String {
        let is_fresh = self.is_fresh(since);
        let mut files = String::new(alloc);
        for tick in (1..self.tick().saturating_add(1)).rev() {
            for (path, name) in PATHS.iter().enumerate() {
                let exists = self.state_at(self.tick(), path).is_some();
                let is_told = if is_fresh { exists } else { since < tick };
                if self.last_change(path) == tick && is_told && chosen.contains(&path) {
                    let comma = if files.is_empty() { "" } else { "," };
                    let is_new = is_fresh || since < self.creation(path);
                    let size = self.last_size(path);
                    write!(
                        files,
                        "{comma}{{\"exists\":{exists},\"name\":\"{name}\",\"new\":{is_new},\"size\":{size}}}"
                    )
                    .expect(rt, "memory");
                }
            }
        }
        let tick = self.tick();
        let reply = format!(in alloc;
            "{{\"clock\":\"c:1:1:{tick}\",\"files\":[{files}],\"is_fresh_instance\":{is_fresh},\"version\":\"w1\"}}"
        ).expect(rt, "memory");
        drop(files);
        reply
    }
}
