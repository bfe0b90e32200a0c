//! Folders that inotifywait missed, which further inotifywaits watch. Tests: feed_tests, tools/try/feed.

use crate::feed::{Feed, Turn, start_watch};
use crate::root::Root;
use crate::system::System;
use std::collections::BTreeSet;
use std::mem;
use wm_client::Stop;
use wm_names::RelPath;

/// How many inotifywaits more watch a root before one takes their place, how often in a row one may end at once, and how many folders
/// each is given.
const MAX_MORE: u32 = 4;

const MAX_FAILURES: u32 = 3;

const MAX_FOLDERS: usize = 4_096;

impl<Y: System> Root<'_, Y> {
    /// The folders of these that have no other one above them, so many of them, and their whole paths.
    fn tops_of(&self, missed: &BTreeSet<RelPath>) -> Result<(Vec<RelPath>, Vec<String>), Stop> {
        let mut tops: Vec<RelPath> = Vec::new(self.alloc);
        let mut folders = Vec::new(self.alloc);
        for path in missed {
            let is_below = match tops.last() {
                Some(top) => path.under(top),
                None => false,
            };
            if !is_below && tops.len() < MAX_FOLDERS {
                folders.push(self.whole(path.as_str())?)?;
                tops.push(path.copy()?)?;
            }
        }
        Ok((tops, folders))
    }
}

impl<Y: System> Feed<Y> {
    /// Adds the folders that further inotifywaits watch, where they stand now: one more takes the place of the others then.
    fn add_rewatched(
        &self,
        root: &Root<'_, Y>,
        missed: &mut BTreeSet<RelPath>,
    ) -> Result<(), Stop> {
        for name in &self.rewatched {
            for place in self.gathering.places(root.alloc, name)? {
                let text = root.whole(place.as_str())?;
                if root.system.folder(text.as_str()).is_some() {
                    missed.insert(place)?;
                }
            }
        }
        Ok(())
    }

    /// Starts one more inotifywait for folders that were missed. Where many do so already, one takes the place of all of them. One that
    /// ends at once again and again is a fault.
    pub(crate) fn watch_missed(
        &mut self,
        root: &Root<'_, Y>,
        turn: &mut Turn<'_, Y>,
        mut missed: BTreeSet<RelPath>,
    ) -> Result<(), Stop> {
        if self.failures >= MAX_FAILURES {
            self.is_missed = true;
            return Err(Stop::Doubt);
        }
        if self.more >= MAX_MORE {
            self.add_rewatched(root, &mut missed)?;
        }
        let (tops, folders) = root.tops_of(&missed)?;
        let watch = start_watch(root, turn, &self.sync_folder, &folders)?;
        self.watches.push(watch)?;
        self.adding = tops;
        Ok(())
    }

    /// Goes on once the inotifywait that was started last watches its folders: what stands there is crawled, and they are checked.
    pub(crate) fn add_established(&mut self, root: &Root<'_, Y>) -> Result<(), Stop> {
        if self.adding.is_empty() || !self.is_established() {
            return Ok(());
        }
        self.gathering.checks.forget_made();
        for top in mem::replace(&mut self.adding, Vec::new(root.alloc)) {
            self.gathering.checks.ask_for(top.copy()?)?;
            self.batch.add_folder(&top)?;
            self.rewatched.insert(top)?;
        }
        self.failures = 0;
        if self.more >= MAX_MORE {
            self.end_between();
            self.more = 0;
        }
        self.more = self.more.saturating_add(1);
        let last = self.watches.len().saturating_sub(1);
        self.take_waiting_syncs(root, last)?;
        self.forget_withdrawn_syncs(root)
    }

    /// Ends all but the one that was started first, on the root, and the one that was started last.
    fn end_between(&mut self) {
        for _ in 0..u64::MAX {
            if self.watches.len() < 3 {
                break;
            }
            self.watches.remove(1).end();
        }
    }
}
