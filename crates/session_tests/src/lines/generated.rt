//! Generated sessions, whose replies are those of the plain definition.
use super::plain::{Map, PATHS, Plain};
use crate::ends::{assert_answers, put_row};
use std::alloc::Global;
use std::process::Abort;

const NOT_READY: &str = r#"{"error":"6 NotReady","version":"w1"}"#;

const BAD_CLOCK: &str = r#"{"error":"7 BadClock","version":"w1"}"#;

/// The places of all paths.
const ALL: [usize; 6] = [0, 1, 2, 3, 4, 5];

/// The places of the paths below `d`.
const BELOW: [usize; 2] = [3, 4];

/// A session that grows by a line and its reply at a time.
#[derive(Drop)]
struct Generated {
    input: String,
    output: String,
    root: Plain,
    // the tick up to which the cursor was told
    cursor: usize,
    // of the next line
    moment: u64,
    random: u64,
}

impl Generated {
    fn new(rt: &impl Abort, alloc: Global, seed: u64) -> Generated {
        let mut session = Generated {
            input: String::new(alloc),
            output: String::new(alloc),
            root: Plain::new(alloc),
            cursor: 0,
            moment: 1,
            random: seed,
        };
        session.row(rt, r#"["watch","/r"]"#, r#"{"version":"w1","watch":"/r"}"#);
        session
    }

    /// A pseudo-random number below the bound: the next of a linear congruence.
    fn below(&mut self, bound: usize) -> usize {
        self.random = self
            .random
            .wrapping_mul(6_364_136_223_846_793_005)
            .wrapping_add(1_442_695_040_888_963_407);
        (self.random >> 33) as usize % bound.max(1)
    }

    fn row(&mut self, rt: &impl Abort, line: &str, reply: &str) {
        put_row(rt, line, reply, &mut self.input, &mut self.output);
        self.moment = self.moment.saturating_add(1);
    }

    /// The reply with the root's clock.
    fn clock(&self, rt: &impl Abort, alloc: Global) -> String {
        format!(in alloc;
            "{{\"clock\":\"c:1:1:{}\",\"version\":\"w1\"}}",
            self.root.tick()
        )
        .expect(rt, "memory")
    }

    fn observe(&mut self, rt: &impl Abort, alloc: Global) {
        let mut map = self.root.map_at(self.root.tick());
        let mut line = String::from_str(alloc, r#"["observe","/r",["#).expect(rt, "memory");
        self.put_pairs(rt, &mut map, &mut line);
        line.push_str("]]").expect(rt, "memory");
        let reply = self.observed(rt, alloc, map);
        self.row(rt, &line, &reply);
        drop(line);
        drop(reply);
    }

    /// One pair to three.
    fn put_pairs(&mut self, rt: &impl Abort, map: &mut Map, line: &mut String) {
        for place in 0..self.below(3).saturating_add(1) {
            let path = self.below(PATHS.len());
            let state = self.state();
            put_pair(rt, line, place, path, state);
            set(map, path, state);
        }
    }

    /// What an observation is answered, after which the root's map is this.
    fn observed(&mut self, rt: &impl Abort, alloc: Global, map: Map) -> String {
        if self.root.tick() == 0 {
            return String::from_str(alloc, NOT_READY).expect(rt, "memory");
        }
        self.root.publish(rt, self.moment, map);
        self.clock(rt, alloc)
    }

    /// A listing of the whole root, or of what stands below `d`.
    fn listing(&mut self, rt: &impl Abort, alloc: Global) {
        let tick = self.root.tick();
        // the first listing is a whole one
        let is_part = self.below(2) == 0 && tick > 0;
        let begun_at = if tick == 0 {
            0
        } else {
            self.below(tick.saturating_add(2))
        };
        let top = if is_part { "d" } else { "" };
        let line = format!(in alloc; "[\"listing\",\"/r\",{begun_at},\"{top}\",[");
        let mut line = line.expect(rt, "memory");
        let found = self.put_found(rt, is_part, &mut line);
        line.push_str("]]").expect(rt, "memory");
        let reply = self.listed(rt, alloc, is_part, begun_at, &found);
        self.row(rt, &line, &reply);
        drop(line);
        drop(reply);
    }

    /// What a listing finds.
    fn put_found(&mut self, rt: &impl Abort, is_part: bool, line: &mut String) -> Map {
        let mut found: Map = [None; 6];
        let mut count = 0;
        for path in 0..PATHS.len() {
            if is_part && !BELOW.contains(&path) {
                continue;
            }
            let state = self.state();
            if state.is_some() {
                put_pair(rt, line, count, path, state);
                count = 1;
            }
            set(&mut found, path, state);
        }
        found
    }

    /// What a listing is answered.
    fn listed(
        &mut self,
        rt: &impl Abort,
        alloc: Global,
        is_part: bool,
        begun_at: usize,
        found: &Map,
    ) -> String {
        let tick = self.root.tick();
        if tick == 0 && (is_part || begun_at > 0) {
            return String::from_str(alloc, NOT_READY).expect(rt, "memory");
        }
        if begun_at < self.root.floor() || tick < begun_at {
            return String::from_str(alloc, BAD_CLOCK).expect(rt, "memory");
        }
        let map = self.map_with(is_part, begun_at, found);
        self.root.publish(rt, self.moment, map);
        self.clock(rt, alloc)
    }

    /// The root's map, with what was found of each path that didn't change after the listing began.
    fn map_with(&self, is_part: bool, begun_at: usize, found: &Map) -> Map {
        let mut map = self.root.map_at(self.root.tick());
        for (path, state) in found.iter().enumerate() {
            let is_below = !is_part || BELOW.contains(&path);
            if is_below && self.root.last_change(path) <= begun_at {
                set(&mut map, path, *state);
            }
        }
        map
    }

    fn age_out(&mut self, rt: &impl Abort, alloc: Global) {
        let age = self.below(12) as u64;
        let line = format!(in alloc; "[\"age-out\",\"/r\",{age}]").expect(rt, "memory");
        let reply = self.aged_out(rt, alloc, age);
        self.row(rt, &line, &reply);
        drop(line);
        drop(reply);
    }

    /// What an age-out of this age is answered.
    fn aged_out(&mut self, rt: &impl Abort, alloc: Global, age: u64) -> String {
        if self.root.tick() == 0 {
            return String::from_str(alloc, NOT_READY).expect(rt, "memory");
        }
        self.root.age_out(self.moment, age);
        let floor = self.root.floor();
        format!(in alloc; "{{\"floor\":{floor},\"version\":\"w1\"}}").expect(rt, "memory")
    }

    /// A question since a clock, of all files or of those below `d`.
    fn since(&mut self, rt: &impl Abort, alloc: Global) {
        let now = self.root.tick();
        let tick = self.below(now.saturating_add(3));
        let is_part = self.below(2) == 0;
        let line = if is_part {
            format!(in alloc;
                "[\"query\",\"/r\",{{\"expression\":[\"match\",\"d/*\",\"wholename\"],\"since\":\"c:1:1:{tick}\"}}]"
            )
        } else {
            format!(in alloc; "[\"since\",\"/r\",\"c:1:1:{tick}\"]")
        };
        let line = line.expect(rt, "memory");
        let reply = self.answered(rt, alloc, tick, is_part);
        self.row(rt, &line, &reply);
        drop(line);
        drop(reply);
    }

    /// What a question since this tick is answered.
    fn answered(&self, rt: &impl Abort, alloc: Global, tick: usize, is_part: bool) -> String {
        if self.root.tick() == 0 {
            return String::from_str(alloc, NOT_READY).expect(rt, "memory");
        }
        let chosen: &[usize] = if is_part { &BELOW } else { &ALL };
        self.root.reply(rt, alloc, tick, chosen)
    }

    /// A question by the one cursor.
    fn since_cursor(&mut self, rt: &impl Abort, alloc: Global) {
        let line = r#"["since","/r","n:x"]"#;
        if self.root.tick() == 0 {
            self.row(rt, line, NOT_READY);
            return;
        }
        let reply = self.root.reply(rt, alloc, self.cursor, &ALL);
        self.cursor = self.root.tick();
        self.row(rt, line, &reply);
        drop(reply);
    }

    /// A line of any kind, and its reply.
    fn grow(&mut self, rt: &impl Abort, alloc: Global) {
        match self.below(8) {
            0 | 1 | 2 => self.observe(rt, alloc),
            3 | 4 => self.listing(rt, alloc),
            5 => self.age_out(rt, alloc),
            6 => self.since_cursor(rt, alloc),
            _ => self.since(rt, alloc),
        }
    }

    /// Nothing in one of three cases, else a size.
    fn state(&mut self) -> Option<u64> {
        if self.below(3) == 0 {
            None
        } else {
            Some(self.below(3) as u64)
        }
    }
}

fn set(map: &mut Map, path: usize, state: Option<u64>) {
    if let Some(place) = map.get_mut(path) {
        *place = state;
    }
}

fn put_pair(rt: &impl Abort, line: &mut String, place: usize, path: usize, state: Option<u64>) {
    let comma = if place == 0 { "" } else { "," };
    let name = PATHS.get(path).copied().unwrap_or("");
    let written = match state {
        Some(size) => write!(
            line,
            "{comma}[\"{name}\",{{\"mtime_ms\":0,\"size\":{size},\"type\":\"f\"}}]"
        ),
        None => write!(line, "{comma}[\"{name}\",null]"),
    };
    written.expect(rt, "memory");
}

/// The session takes so many lines more.
fn grow_by(rt: &impl Abort, alloc: Global, session: &mut Generated, lines: u32) {
    for _ in 0..lines {
        session.grow(rt, alloc);
    }
}

/// Asserts that a session of this seed is answered as it says.
fn assert_seed(rt: &impl Abort, alloc: Global, seed: u64) {
    let mut session = Generated::new(rt, alloc, seed);
    grow_by(rt, alloc, &mut session, 40);
    let input = session.input.as_str();
    assert_answers(rt, alloc, input, session.output.as_str(), input);
    drop(session);
}

#[test]
fn answers_as_the_plain_definition(rt: HostRuntime) {
    for seed in 0..100u64 {
        assert_seed(&rt, rt.alloc(), seed);
    }
}
