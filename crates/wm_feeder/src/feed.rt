//! The feed of a root under one watch: its records until a doubt. Tests: feed_tests, tools/try/feed.

use crate::gathering::Gathering;
use crate::ready::UNREADY;
use crate::root::Root;
use crate::server::Server;
use crate::system::System;
use crate::watch::{Got, Watch};
use std::collections::BTreeSet;
use std::mem;
use wm_client::Stop;
use wm_feed::{Batch, Burst, Lasting, Synced, Syncs, read_record, read_sync};
use wm_names::{RelPath, Subtree};

/// How long no record may come before the server is asked whether the root is still watched, how long it may be until the root's path
/// is looked at, and until inotifywait is heard, in milliseconds.
pub(crate) const IDLE: u64 = 1_000;

const UNHEARD: u64 = 100;

/// How long after a complaint of inotifywait the making of the folder that it may be of is reported at the latest, in milliseconds.
const COMPLAINED: u64 = 1_000;

/// The device and the number of a folder.
pub(crate) type Identity = (u64, u64);

/// What a feed uses in a turn.
#[derive(Drop)]
pub(crate) struct Turn<'a, Y: System> {
    pub(crate) server: &'a mut Server<Y>,
    pub(crate) records: &'a Y::Records,
    /// The path of the folder of all syncs.
    pub(crate) syncs: &'a str,
    /// How many inotifywaits were started.
    pub(crate) started: &'a mut u64,
}

/// A feed of a root.
#[derive(Drop)]
pub(crate) struct Feed<Y: System> {
    /// What is watched, and the number of the root's view.
    identity: Identity,
    number: u64,
    /// The folder of the root's syncs, if it could be made.
    pub(crate) sync_folder: Option<String>,
    pub(crate) watches: Vec<Watch<Y>>,
    pub(crate) gathering: Gathering,
    pub(crate) batch: Batch,
    pub(crate) syncs: Syncs,
    /// Whether the root was crawled since each folder was seen to be watched.
    pub(crate) is_crawled: bool,
    /// Whether each folder was seen to be watched, and whether one stayed without a watch.
    pub(crate) is_seen: bool,
    pub(crate) is_missed: bool,
    /// The folders that were seen to have no watch, and the names that stood for no folder.
    pub(crate) missing: Lasting,
    pub(crate) nameless: Lasting,
    /// The folders that further inotifywaits watch, and how many those are; the folders that another one begins to watch; and how often
    /// in a row one more ended at once.
    pub(crate) rewatched: BTreeSet<RelPath>,
    pub(crate) more: u32,
    pub(crate) adding: Vec<RelPath>,
    pub(crate) failures: u32,
    /// Until when a folder may have no watch though its making is reported.
    doubted_until: u64,
    /// When the root's path was last looked at, inotifywait heard, a record taken, and the server asked.
    seen_at: u64,
    heard_at: u64,
    pub(crate) came_at: u64,
    asked_at: u64,
    /// When it is time for a look though no moment is quiet.
    pub(crate) check_at: u64,
    /// The batches that were sent in a row.
    burst: Burst,
}

/// Starts one more inotifywait on folders, and on that of the root's syncs.
pub(crate) fn start_watch<Y: System>(
    root: &Root<'_, Y>,
    turn: &mut Turn<'_, Y>,
    sync_folder: &Option<String>,
    folders: &[String],
) -> Result<Watch<Y>, Stop> {
    let mut all = Vec::new(root.alloc);
    if let Some(folder) = sync_folder {
        all.push(String::from_str(root.alloc, folder.as_str())?)?;
    }
    for folder in folders {
        all.push(String::from_str(root.alloc, folder.as_str())?)?;
    }
    *turn.started = turn.started.saturating_add(1);
    Watch::start(root, turn.records, *turn.started, &all)
}

impl<Y: System> Feed<Y> {
    /// A feed under a watch that begins, of a root whose view has this number.
    pub(crate) fn start(
        root: &Root<'_, Y>,
        turn: &mut Turn<'_, Y>,
        identity: Identity,
        number: u64,
        sync_folder: Option<String>,
    ) -> Result<Feed<Y>, Stop> {
        let alloc = root.alloc;
        let folder = root.whole("")?;
        let watch = start_watch(root, turn, &sync_folder, &[folder])?;
        let mut watches = Vec::new(alloc);
        watches.push(watch)?;
        let now = root.system.now();
        Ok(Feed {
            identity,
            number,
            sync_folder,
            watches,
            gathering: Gathering::new(alloc),
            batch: Batch::new(alloc),
            syncs: Syncs::new(alloc),
            is_crawled: false,
            is_seen: false,
            is_missed: false,
            missing: Lasting::new(alloc),
            nameless: Lasting::new(alloc),
            rewatched: BTreeSet::new(alloc),
            more: 0,
            adding: Vec::new(alloc),
            failures: 0,
            doubted_until: 0,
            seen_at: now,
            heard_at: 0,
            came_at: now,
            asked_at: now,
            check_at: 0,
            burst: Burst::new(),
        })
    }

    /// Whether a watch is one of this feed's.
    pub(crate) fn has_watch(&self, number: u64) -> bool {
        self.watches.iter().any(|watch| watch.number() == number)
    }

    /// Whether each inotifywait watches its folders.
    pub(crate) fn is_established(&self) -> bool {
        self.watches.iter().all(|watch| watch.is_established())
    }

    /// Adds a record of a watch to what is to be sent, or to the syncs.
    pub(crate) fn take(
        &mut self,
        root: &Root<'_, Y>,
        number: u64,
        record: &[u8],
    ) -> Result<(), Stop> {
        if let Some(folder) = &self.sync_folder {
            match read_sync(folder.as_str(), record) {
                Synced::Elsewhere => {}
                Synced::Nothing => return Ok(()),
                Synced::Asked(name) => {
                    return Ok(self.syncs.told(root.alloc, name, number, &self.batch)?);
                }
            }
        }
        self.came_at = root.system.now();
        let told = read_record(root.path.as_str(), record);
        self.gathering
            .take(root.alloc, &mut self.batch, told, number)?;
        if self.came_at < self.doubted_until {
            self.gathering.checks.forget_made();
        }
        Ok(())
    }

    /// Whether the root's path still leads to what is watched.
    fn check_root(&mut self, root: &Root<'_, Y>) -> Result<(), Stop> {
        let now = root.system.now();
        if now.saturating_sub(self.seen_at) < IDLE {
            return Ok(());
        }
        self.seen_at = now;
        if root.system.identity(root.path.as_str()) == Some(self.identity) {
            Ok(())
        } else {
            Err(Stop::Doubt)
        }
    }

    /// Hears what one inotifywait says: a complaint may be of a folder that it can't watch. One more that ends before it watches its
    /// folders ends alone.
    fn hear_one(&mut self, root: &mut Root<'_, Y>, place: usize) -> Result<(), Stop> {
        let Some(watch) = self.watches.get_mut(place) else {
            return Ok(());
        };
        match watch.hear(root)? {
            Got::Some => {
                self.gathering.check_all();
                self.doubted_until = root.system.now().saturating_add(COMPLAINED);
            }
            Got::Nothing => {}
            Got::End if place > 0 && !watch.is_established() => {
                watch.end();
                self.watches.remove(place);
                self.adding.clear();
                self.failures = self.failures.saturating_add(1);
            }
            Got::End => return Err(Stop::Ended),
        }
        Ok(())
    }

    /// Hears what inotifywait says beside its records, now and then, and always while one begins or a client waits: it complains of a
    /// folder before it reports what happens next.
    fn hear(&mut self, root: &mut Root<'_, Y>) -> Result<(), Stop> {
        let now = root.system.now();
        let is_awaited = !self.is_established() || self.syncs.are_any();
        if !is_awaited && now.saturating_sub(self.heard_at) < UNHEARD {
            return Ok(());
        }
        self.heard_at = now;
        for place in 0..self.watches.len() {
            self.hear_one(root, place)?;
        }
        Ok(())
    }

    /// Has the root crawled, once each folder is watched and the server knows the root.
    fn crawl(&mut self, root: &mut Root<'_, Y>, turn: &mut Turn<'_, Y>) -> Result<(), Stop> {
        let now = root.system.now();
        if !self.is_established() || now.saturating_sub(self.asked_at) < UNREADY {
            return Ok(());
        }
        if root.system.identity(root.path.as_str()) != Some(self.identity) {
            return Err(Stop::Doubt);
        }
        self.asked_at = now;
        match root.number(turn.server)? {
            None => {
                let wait = root.unready_wait().saturating_sub(UNREADY);
                self.asked_at = now.saturating_add(wait);
                return Ok(());
            }
            Some(number) if number != self.number => return Err(Stop::Doubt),
            Some(_) => {}
        }
        self.take_waiting_syncs(root, 0)?;
        self.check_closed(root)?;
        self.batch = Batch::new(root.alloc);
        self.syncs.send();
        root.crawl(turn.server, &Subtree::Whole)?;
        root.observe_nothing(turn.server)?;
        self.syncs.answer();
        self.is_crawled = true;
        Ok(())
    }

    /// Has the folders checked that couldn't be read until something happened to them.
    fn check_closed(&mut self, root: &mut Root<'_, Y>) -> Result<(), Stop> {
        for folder in self.batch.folders() {
            if root.closed.remove(folder) {
                self.gathering.checks.ask_for(folder.copy()?)?;
            }
        }
        Ok(())
    }

    /// The root is to be crawled: what the server answered until now isn't all that happened.
    pub(crate) fn doubt_answers(&mut self) {
        self.is_crawled = false;
        self.syncs.lose();
    }

    /// How long what came is still gathered, in milliseconds.
    pub(crate) fn gathers(&self, now: u64) -> u64 {
        self.burst.held_back(now, self.syncs.are_any(), &self.batch)
    }

    /// Sends what came, if anything did.
    fn send(&mut self, root: &mut Root<'_, Y>, turn: &mut Turn<'_, Y>) -> Result<(), Stop> {
        let now = root.system.now();
        if self.batch.is_empty() || self.gathers(now) > 0 {
            return Ok(());
        }
        self.burst.count(now, self.syncs.are_any());
        self.check_closed(root)?;
        let batch = mem::replace(&mut self.batch, Batch::new(root.alloc));
        self.syncs.send();
        root.send(turn.server, &batch, &mut self.gathering.orphans)?;
        self.syncs.answer();
        let now = root.system.now();
        self.burst.answer(now);
        self.asked_at = now;
        Ok(())
    }

    /// Asks whether the root is still watched, if it wasn't asked about for long. A root that was watched anew has another view.
    fn ask_if_idle(&mut self, root: &mut Root<'_, Y>, turn: &mut Turn<'_, Y>) -> Result<(), Stop> {
        let now = root.system.now();
        if now.saturating_sub(self.asked_at) < IDLE {
            return Ok(());
        }
        self.asked_at = now;
        match root.number(turn.server)? {
            None => self.doubt_answers(),
            Some(number) if number != self.number => return Err(Stop::Doubt),
            Some(_) => {}
        }
        Ok(())
    }

    /// What is to be done after a reading.
    pub(crate) fn turn(
        &mut self,
        root: &mut Root<'_, Y>,
        turn: &mut Turn<'_, Y>,
    ) -> Result<(), Stop> {
        self.check_root(root)?;
        self.hear(root)?;
        if !self.is_crawled {
            return self.crawl(root, turn);
        }
        self.add_established(root)?;
        self.send(root, turn)?;
        self.check_if_due(root, turn)?;
        self.release_syncs(root)?;
        self.ask_if_idle(root, turn)
    }

    /// How long the feed may wait for records, in milliseconds.
    pub(crate) fn patience(&self) -> u64 {
        if !self.is_established() {
            5
        } else if !self.is_crawled {
            UNREADY
        } else {
            self.patience_of_checks()
        }
    }

    /// Ends its inotifywaits.
    pub(crate) fn end(&mut self) {
        for watch in self.watches.iter_mut() {
            watch.end();
        }
    }
}
