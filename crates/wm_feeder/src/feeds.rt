//! The feeds of roots by one session with the server and one stream of records. Tests: feed_tests, tools/try/feed.

use crate::feed::Turn;
use crate::root::{Root, is_for_now};
use crate::root_feed::RootFeed;
use crate::server::Server;
use crate::system::{Records, System};
use crate::watch::{Got, got_of};
use std::alloc::Global;
use std::io::Read;
use std::time::Duration;
use wm_client::Stop;
use wm_feed::{Flow, is_listed, read_number, to_begin};
use wm_names::RootPath;

/// The most bytes of a reading, and how many readings are taken together at most.
const ROOM: usize = 65_536;

const READINGS: u64 = 16;

/// The longest that a feed waits for records, and how long a root rests that can't be fed, in milliseconds.
const IDLE: u64 = 1_000;

const UNFED: u64 = 1_000;

/// The feeds of roots.
#[derive(Drop)]
pub(crate) struct Feeds<'a, Y: System> {
    system: &'a Y,
    alloc: Global,
    /// The path of the folder of all syncs.
    syncs: String,
    is_every_event: bool,
    records: Y::Records,
    room: Vec<u8>,
    flow: Flow,
    started: u64,
    pub(crate) roots: Vec<RootFeed<'a, Y>>,
}

impl<'a, Y: System> Feeds<'a, Y> {
    /// Of no root yet. `Unwatched` if inotifywait can't be started, and `NoMemory`.
    pub(crate) fn new(
        system: &'a Y,
        alloc: Global,
        socket: &str,
        is_every_event: bool,
    ) -> Result<Feeds<'a, Y>, Stop> {
        Ok(Feeds {
            system,
            alloc,
            syncs: format!(in alloc; "{socket}.sync")?,
            is_every_event,
            records: system.records(alloc)?,
            room: vec![in alloc; 0u8; ROOM]?,
            flow: Flow::new(alloc),
            started: 0,
            roots: Vec::new(alloc),
        })
    }

    /// Feeds one root more.
    pub(crate) fn add(&mut self, path: RootPath) -> Result<(), Stop> {
        let root = Root::new(self.system, self.alloc, path, self.is_every_event)?;
        self.roots.push(RootFeed::new(root))?;
        Ok(())
    }

    /// Feeds just the roots that are listed.
    pub(crate) fn follow(&mut self, listed: &[RootPath]) -> Result<(), Stop> {
        let mut fed = Vec::new(self.alloc);
        for one in &self.roots {
            fed.push(one.root.path.copy(self.alloc)?)?;
        }
        for (place, root) in fed.iter().enumerate().rev() {
            if !is_listed(root, listed) && place < self.roots.len() {
                self.roots.remove(place).end();
            }
        }
        for root in to_begin(self.alloc, &fed, listed)? {
            self.add(root)?;
        }
        Ok(())
    }

    /// Ends the feed of the root at a place.
    pub(crate) fn end(&mut self, place: usize) {
        if place < self.roots.len() {
            self.roots.remove(place).end();
        }
    }

    /// Reports to the user why the root at a place can't be fed, and lets it rest: longer each time if its crawl was refused. One that
    /// isn't watched any longer goes with the next list.
    pub(crate) fn rest(&mut self, place: usize, stop: Stop) -> Result<(), Stop> {
        let Some(one) = self.roots.get_mut(place) else {
            return Ok(());
        };
        if stop != Stop::WatchGone {
            one.root.tell_cause(stop)?;
        }
        let millis = match stop {
            Stop::Refused(refusal) if is_for_now(refusal) => one.root.rest(),
            _ => UNFED,
        };
        one.pause(millis);
        Ok(())
    }

    /// Each root is to be crawled, since the server was away.
    pub(crate) fn recrawl_all(&mut self) {
        for one in self.roots.iter_mut() {
            one.recrawl();
        }
    }

    /// Hands each root the records that came of it; whether each record has a number. One that has none was torn apart by another one.
    fn take(&mut self) -> bool {
        for _ in 0..u64::MAX {
            let Some(record) = self.flow.record() else {
                break;
            };
            let Some((number, record)) = read_number(record) else {
                return false;
            };
            for one in self.roots.iter_mut() {
                one.take(number, record);
            }
            self.flow.take_record();
        }
        !self.flow.is_lost()
    }

    /// Reads once, and waits for so long if nothing has come.
    fn read_once(&mut self, patience: Option<Duration>) -> Result<Got, Stop> {
        if self.records.set_patience(patience).is_err() {
            return Err(Stop::Unwatched);
        }
        let read = self.records.read(&mut self.room);
        if let Ok(n) = &read {
            self.flow.push(&self.room[..(*n).min(self.room.len())])?;
        }
        Ok(got_of(read))
    }

    /// How long to wait for records, in milliseconds.
    fn patience(&self) -> u64 {
        let mut least = IDLE;
        for one in &self.roots {
            least = least.min(one.patience());
        }
        least.max(1)
    }

    /// How long what came is still gathered, in milliseconds.
    fn gathers(&self) -> u64 {
        let now = self.system.now();
        let mut least = u64::MAX;
        for one in &self.roots {
            let gathers = one.gathers(now);
            if gathers > 0 {
                least = least.min(gathers);
            }
        }
        if least == u64::MAX { 0 } else { least }
    }

    /// Reads the records that have come, and waits for them if none have, as long as no root has anything to do. In a rush the stream is
    /// read anew some milliseconds later, and not for each record.
    pub(crate) fn read(&mut self, most: u64) -> Result<(), Stop> {
        let gathers = self.gathers();
        if gathers == 0 {
            return self.read_within(self.patience().min(most));
        }
        self.system.sleep(Duration::from_millis(gathers));
        self.read_within(0)
    }

    /// Reads the records that have come, and waits for them if none have, at most so many milliseconds.
    pub(crate) fn read_within(&mut self, millis: u64) -> Result<(), Stop> {
        let patience = if millis == 0 {
            None
        } else {
            Some(Duration::from_millis(millis))
        };
        let mut got = self.read_once(patience)?;
        for _ in 0..READINGS {
            match got {
                Got::Some if self.take() => {}
                Got::Some => self.doubt_all(),
                Got::Nothing => return Ok(()),
                Got::End => return Err(Stop::Unwatched),
            }
            got = self.read_once(None)?;
        }
        if !self.take() {
            self.doubt_all();
        }
        Ok(())
    }

    /// The stream has no record, or no end of one, where one has to be.
    fn doubt_all(&mut self) {
        self.flow = Flow::new(self.alloc);
        for one in self.roots.iter_mut() {
            one.doubt();
        }
    }

    /// What is to be done for the root at a place after a reading.
    pub(crate) fn turn_one(&mut self, server: &mut Server<Y>, place: usize) -> Result<(), Stop> {
        let mut turn = Turn {
            server,
            records: &self.records,
            syncs: self.syncs.as_str(),
            started: &mut self.started,
        };
        match self.roots.get_mut(place) {
            Some(one) => one.turn(&mut turn),
            None => Ok(()),
        }
    }
}
