//! Clients of a root, whose steps are drawn: each looks at its folder, and later reports what it saw.
use super::model::{PATHS, POOL, RootModel, Seen, UNSEEN, covers};
use crate::checks::check;
use crate::roots::{is_told, meet_line};
use std::alloc::Global;
use std::mem;
use std::process::Abort;
use std::sync::Wait;
use wm_disk::Refusal;
use wm_front::Viewers;
use wm_root::WatchedRoot;
use wm_share::Naming;

/// How many clients there are.
const CLIENTS: usize = 3;

/// What a client saw and hasn't reported yet.
#[derive(Clone, Copy)]
struct Held {
    seen: Seen,
    /// Of a listing its part and the tick of the root when it was read.
    listing: Option<(bool, u64)>,
}

const NOTHING: Held = Held {
    seen: UNSEEN,
    listing: None,
};

/// The clients over one session, the folder, and the model.
#[derive(Drop)]
pub struct Clients<J: Naming> {
    random: u64,
    held: [Held; CLIENTS],
    pub model: RootModel,
    /// Whether the last reading of the folder failed.
    pub has_failed: bool,
    viewers: Viewers<J>,
}

/// The line with what was seen: pairs of an observation, or the files of a listing.
fn put_seen(rt: &impl Abort, alloc: Global, seen: &Seen, is_listing: bool, line: &mut String) {
    for (path, state) in POOL.iter().zip(seen) {
        let comma = if line.as_str().ends_with("[") {
            ""
        } else {
            ","
        };
        let kind = if *path == "d" { "d" } else { "f" };
        let pair = match state {
            Some(Some(size)) => format!(in alloc;
                "{comma}[\"{path}\",{{\"mtime_ms\":0,\"size\":{size},\"type\":\"{kind}\"}}]"
            ),
            Some(None) if !is_listing => format!(in alloc; "{comma}[\"{path}\",null]"),
            _ => continue,
        };
        let pair = pair.expect(rt, "memory");
        line.push_str(pair.as_str()).expect(rt, "memory");
    }
}

/// The line that reports what a client saw.
fn line_of(rt: &impl Abort, alloc: Global, held: &Held) -> String {
    let mut line = match held.listing {
        Some((is_whole, tick)) => {
            let part = if is_whole { "" } else { "d" };
            format!(in alloc; "[\"listing\",\"/r\",{tick},\"{part}\",[").expect(rt, "memory")
        }
        None => String::from_str(alloc, "[\"observe\",\"/r\",[").expect(rt, "memory"),
    };
    put_seen(rt, alloc, &held.seen, held.listing.is_some(), &mut line);
    line.push_str("]]\n").expect(rt, "memory");
    line
}

impl<J: Naming> Clients<J> {
    /// Clients that saw nothing yet.
    pub fn new(alloc: Global, seed: u64) -> Clients<J> {
        Clients {
            random: seed,
            held: [NOTHING; CLIENTS],
            model: RootModel::new(),
            has_failed: false,
            viewers: Viewers::new(alloc),
        }
    }

    /// A pseudo-random number below the bound: the next of a linear congruence.
    pub fn below(&mut self, bound: usize) -> usize {
        self.random = self
            .random
            .wrapping_mul(6_364_136_223_846_793_005)
            .wrapping_add(1_442_695_040_888_963_407);
        (self.random >> 33) as usize % bound.max(1)
    }

    /// True once in so many times.
    pub fn once_in(&mut self, times: usize) -> bool {
        self.below(times) == 0
    }

    /// A file is written, or is gone. Sizes are few, so that earlier ones come back.
    fn change_folder(&mut self) {
        let path = self.below(PATHS);
        let state = match self.below(3) {
            0 => None,
            size => Some(size as u64),
        };
        if path != 2 {
            self.model.change_folder(path, state);
        }
    }

    /// What is in the folder, of the paths that stand in the part.
    fn look(&self, is_whole: bool) -> Seen {
        let mut seen = UNSEEN;
        for (path, place) in seen.iter_mut().enumerate() {
            if covers(is_whole, path) {
                *place = Some(self.model.folder(path));
            }
        }
        seen
    }

    /// A client looks at one path, or reads a listing.
    fn hold(&mut self, is_listing: bool) {
        let is_whole = self.below(3) > 0;
        let (path, client) = (self.below(PATHS), self.below(CLIENTS));
        let mut held = Held {
            seen: self.look(is_whole),
            listing: Some((is_whole, self.model.tick())),
        };
        if !is_listing {
            held.seen = UNSEEN;
            held.listing = None;
            if let Some(place) = held.seen.get_mut(path) {
                *place = Some(self.model.folder(path));
            }
        }
        if let Some(place) = self.held.get_mut(client) {
            *place = held;
        }
    }
}

/// Asserts that a line gets the reply.
fn assert_told<J: Naming, R: Wait + Abort, K: Wait + Drop>(
    rt: &R,
    alloc: Global,
    root: &WatchedRoot<J, K>,
    viewers: &mut Viewers<J>,
    line: &str,
    told: &str,
) {
    let mut out = Vec::new(alloc);
    let met = meet_line(rt, alloc, root, viewers, line, &mut out);
    check!(rt; is_told(met, &out, told), (line, told));
}

impl<J: Naming> Clients<J> {
    /// Reports what was seen, and asserts that the reply has the clock of the model, or the refusal.
    fn report<R: Wait + Abort, K: Wait + Drop>(
        &mut self,
        rt: &R,
        alloc: Global,
        root: &WatchedRoot<J, K>,
        held: &Held,
    ) {
        let line = line_of(rt, alloc, held);
        let done = match held.listing {
            Some((is_whole, tick)) => self.model.list(is_whole, tick, &held.seen),
            None => self.model.observe(&held.seen),
        };
        let tick = self.model.tick();
        let clock = format!(in alloc; "{{\"clock\":\"c:1:5:{tick}\",\"version\":\"w1\"}}\n");
        let clock = clock.expect(rt, "memory");
        let told = match &done {
            Ok(()) => clock.as_str(),
            Err(refusal) => refusal.text(),
        };
        assert_told(rt, alloc, root, &mut self.viewers, line.as_str(), told);
    }

    /// What is gone is forgotten.
    fn age_out<R: Wait + Abort, K: Wait + Drop>(
        &mut self,
        rt: &R,
        alloc: Global,
        root: &WatchedRoot<J, K>,
    ) {
        let done = self.model.age_out();
        let floor = self.model.floor();
        let reply = format!(in alloc; "{{\"floor\":{floor},\"version\":\"w1\"}}\n");
        let reply = reply.expect(rt, "memory");
        let told = match &done {
            Ok(()) => reply.as_str(),
            Err(refusal) => refusal.text(),
        };
        let line = "[\"age-out\",\"/r\",0]\n";
        assert_told(rt, alloc, root, &mut self.viewers, line, told);
    }

    /// Asserts that the view is the model's.
    pub fn assert_view<R: Wait + Abort, K: Wait + Drop>(
        &mut self,
        rt: &R,
        alloc: Global,
        root: &WatchedRoot<J, K>,
    ) {
        let line = "[\"query\",\"/r\",{\"fields\":[\"name\",\"size\"]}]\n";
        let answer = self.model.answer(rt, alloc);
        let told = if self.model.tick() == 0 {
            Refusal::NotReady.text()
        } else {
            answer.as_str()
        };
        assert_told(rt, alloc, root, &mut self.viewers, line, told);
    }

    /// The next report of a client, if it has one.
    fn report_next<R: Wait + Abort, K: Wait + Drop>(
        &mut self,
        rt: &R,
        alloc: Global,
        root: &WatchedRoot<J, K>,
    ) {
        let client = self.below(CLIENTS);
        let Some(place) = self.held.get_mut(client) else {
            return;
        };
        let held = mem::replace(place, NOTHING);
        if held.seen != UNSEEN {
            self.report(rt, alloc, root, &held);
        }
    }

    /// Some steps: the folder changes, a client looks at it, or reports what it saw.
    pub fn steps<R: Wait + Abort, K: Wait + Drop>(
        &mut self,
        rt: &R,
        alloc: Global,
        root: &WatchedRoot<J, K>,
    ) {
        for _ in 0..self.below(4) {
            match self.below(20) {
                0..=4 => self.change_folder(),
                5..=8 => self.hold(false),
                9..=11 => self.hold(true),
                12 => self.age_out(rt, alloc, root),
                _ => self.report_next(rt, alloc, root),
            }
        }
    }
}
