//! The feed of one root: one watch after the other. Tests: feed_tests, tools/try/feed.

use crate::feed::{Feed, Turn};
use crate::root::Root;
use crate::syncing::SyncFolders;
use crate::system::System;
use wm_client::Stop;
use wm_names::Subtree;

/// How many watches in a row may come to nothing: inotifywait ends, a crawl is refused, or a folder stays without a watch. How long the
/// next one waits for each, in milliseconds.
const MAX_FAULTS: u32 = 10;

const FAULT: u64 = 50;

/// How long a root that isn't there waits until it is looked for again, in milliseconds.
const ABSENT: u64 = 200;

/// A root, and its feed if it is watched.
#[derive(Drop)]
pub(crate) struct RootFeed<'a, Y: System> {
    pub(crate) root: Root<'a, Y>,
    feed: Option<Feed<Y>>,
    sync_folders: SyncFolders,
    /// When the next watch may begin.
    begin_at: u64,
    faults: u32,
    /// Whether it was sent that no folder is at the root's path.
    is_emptied: bool,
    /// Why the watch has to end.
    stop: Option<Stop>,
}

impl<'a, Y: System> RootFeed<'a, Y> {
    /// A root that isn't watched yet.
    pub(crate) fn new(root: Root<'a, Y>) -> RootFeed<'a, Y> {
        RootFeed {
            sync_folders: SyncFolders::new(root.alloc),
            root,
            feed: None,
            begin_at: 0,
            faults: 0,
            is_emptied: false,
            stop: None,
        }
    }

    /// Takes a record, if it is of this root's watch.
    pub(crate) fn take(&mut self, number: u64, record: &[u8]) {
        if self.stop.is_some() {
            return;
        }
        let Some(feed) = &mut self.feed else {
            return;
        };
        if feed.has_watch(number) {
            if let Err(stop) = feed.take(&self.root, number, record) {
                self.stop = Some(stop);
            }
        }
    }

    /// More may have changed than was reported.
    pub(crate) fn doubt(&mut self) {
        self.stop = Some(Stop::Doubt);
    }

    /// The server was away: the root is to be crawled.
    pub(crate) fn recrawl(&mut self) {
        if let Some(feed) = &mut self.feed {
            feed.doubt_answers();
        }
    }

    /// Begins a watch, once the server knows the root and a folder is at its path. As long as there is none, nothing is below it.
    fn begin(&mut self, turn: &mut Turn<'_, Y>) -> Result<(), Stop> {
        let now = self.root.system.now();
        if now < self.begin_at {
            return Ok(());
        }
        let Some(number) = self.root.number(turn.server)? else {
            self.begin_at = now.saturating_add(self.root.unready_wait());
            return Ok(());
        };
        let Some(identity) = self.root.system.identity(self.root.path.as_str()) else {
            self.begin_at = now.saturating_add(ABSENT);
            if !self.is_emptied {
                self.root.crawl(turn.server, &Subtree::Whole)?;
                self.is_emptied = true;
            }
            return Ok(());
        };
        self.is_emptied = false;
        let sync_folder = self.sync_folders.make(&self.root, turn.syncs, number)?;
        self.feed = Some(Feed::start(&self.root, turn, identity, number, sync_folder)?);
        Ok(())
    }

    /// Whether a watch that stopped so is a fault. A doubt is none, unless a folder stayed without a watch.
    fn is_fault(feed: &Feed<Y>, stop: Stop) -> bool {
        !feed.is_seen && (feed.is_missed || stop != Stop::Doubt)
    }

    /// Ends the watch, and counts the faults in a row.
    fn end_watch(&mut self, stop: Stop) {
        let is_fault = match &mut self.feed {
            Some(feed) => {
                feed.end();
                if feed.is_seen {
                    self.faults = 0;
                }
                RootFeed::is_fault(feed, stop)
            }
            None => stop != Stop::Doubt,
        };
        self.feed = None;
        if is_fault {
            self.faults = self.faults.saturating_add(1);
        }
        let wait = u64::from(self.faults).saturating_mul(FAULT);
        self.begin_at = self.root.system.now().saturating_add(wait);
    }

    /// How a feed ends whose watches end again and again. What is there now is crawled once more: the refusal of that crawl is the cause, or
    /// else the one that ended the last watch, if one did.
    fn give_up(&mut self, turn: &mut Turn<'_, Y>, last: Stop) -> Stop {
        self.faults = 0;
        let cause = match self.root.crawl(turn.server, &Subtree::Whole) {
            Err(Stop::RefusedForNow(refusal)) => Stop::RefusedForNow(refusal),
            _ => last,
        };
        match cause {
            Stop::RefusedForNow(refusal) => Stop::Refused(refusal),
            _ => Stop::Unwatchable,
        }
    }

    /// What is to be done after a reading, by the watch, or by the next one.
    fn go_on(&mut self, turn: &mut Turn<'_, Y>) -> Result<(), Stop> {
        if let Some(stop) = self.stop.take() {
            return Err(stop);
        }
        self.sync_folders.remove_old(&self.root)?;
        match &mut self.feed {
            Some(feed) => feed.turn(&mut self.root, turn),
            None => self.begin(turn),
        }
    }

    /// What is to be done after a reading. An error is a cause for the feed of this root to stop, or for all.
    pub(crate) fn turn(&mut self, turn: &mut Turn<'_, Y>) -> Result<(), Stop> {
        let Err(stop) = self.go_on(turn) else {
            return Ok(());
        };
        if !matches!(stop, Stop::Doubt | Stop::RefusedForNow(_) | Stop::Ended) {
            return Err(stop);
        }
        self.end_watch(stop);
        if self.faults >= MAX_FAULTS {
            return Err(self.give_up(turn, stop));
        }
        Ok(())
    }

    /// Lets a root that can't be fed rest.
    pub(crate) fn pause(&mut self, millis: u64) {
        self.end_watch(Stop::Doubt);
        self.begin_at = self.root.system.now().saturating_add(millis);
    }

    /// How long what came is still gathered, in milliseconds.
    pub(crate) fn gathers(&self, now: u64) -> u64 {
        match &self.feed {
            Some(feed) => feed.gathers(now),
            None => 0,
        }
    }

    /// How long the feed may wait for records, in milliseconds.
    pub(crate) fn patience(&self) -> u64 {
        match &self.feed {
            Some(feed) => feed.patience(),
            None => self.begin_at.saturating_sub(self.root.system.now()),
        }
    }

    /// Ends the feed of the root, and removes the folder of its syncs.
    pub(crate) fn end(&mut self) {
        if let Some(feed) = &mut self.feed {
            feed.end();
        }
        self.feed = None;
        self.sync_folders.remove_but(&self.root, None);
    }
}
