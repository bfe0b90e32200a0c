//! Looks for folders that inotifywait doesn't watch, and for names that stand for no folder. Tests: feed_tests, tools/try/feed.

use crate::feed::{Feed, IDLE, Turn};
use crate::root::Root;
use crate::system::System;
use std::collections::BTreeSet;
use wm_client::Stop;
use wm_names::RelPath;

/// How long no record may come before folders are looked for that have no watch, or no name, in milliseconds; how long they may be
/// so; and how long it may be until they are looked for though no moment is quiet, at least, and in times of what the last look took.
const UNSEEN: u64 = 20;

const MISSING: u64 = 60;

const BUSY: u64 = 100;

const TIMES: u64 = 20;

/// The same times while a client waits for a sync.
const SYNCED: u64 = 2;

const MISSING_SYNCED: u64 = 5;

impl<Y: System> Feed<Y> {
    /// Whether a folder is at one of the places that a name may stand for, or was removed or renamed there. One that left and wasn't reported
    /// to arrive may still be in the root, in a folder that isn't watched yet, so it isn't known where it is.
    fn is_known(&self, root: &Root<'_, Y>, name: &RelPath) -> Result<bool, Stop> {
        for place in &self.gathering.places(root.alloc, name)? {
            let text = root.whole(place.as_str())?;
            if root.system.folder(text.as_str()).is_some()
                || self.gathering.orphans.has_ended(place)
            {
                return Ok(true);
            }
        }
        Ok(false)
    }

    /// How long a folder may have no watch, and a name stand for no folder.
    fn may_miss(&self) -> u64 {
        if self.syncs.are_any() {
            MISSING_SYNCED
        } else {
            MISSING
        }
    }

    /// Looks whether each name by which something was reported stands for a folder, or for one that was removed or renamed since. Of any
    /// other it isn't known where that happened.
    fn check_orphans(&mut self, root: &Root<'_, Y>) -> Result<(), Stop> {
        let alloc = root.alloc;
        let mut unknown = BTreeSet::new(alloc);
        for name in &self.gathering.orphans.unexplained(alloc)? {
            if !self.is_known(root, name)? {
                unknown.insert(name.copy()?)?;
            }
        }
        if unknown.is_empty() {
            self.gathering.orphans.clear();
        }
        let now = root.system.now();
        if self.nameless.take(alloc, unknown, now, MISSING)?.is_empty() {
            Ok(())
        } else {
            Err(Stop::Doubt)
        }
    }

    /// Looks whether the folders that are to be checked are watched.
    fn check_folders(&mut self, root: &Root<'_, Y>, turn: &mut Turn<'_, Y>) -> Result<(), Stop> {
        let missed = root.missed(turn.server, &self.watches, &self.gathering.checks)?;
        if missed.is_empty() {
            self.gathering.checks.clear();
            self.is_seen = true;
        }
        let now = root.system.now();
        let wait = self.may_miss();
        let missed = self.missing.take(root.alloc, missed, now, wait)?;
        if missed.is_empty() {
            return Ok(());
        }
        self.watch_missed(root, turn, missed)
    }

    /// Looks for names and folders, and says when to do so next though no moment is quiet.
    fn check(&mut self, root: &Root<'_, Y>, turn: &mut Turn<'_, Y>) -> Result<(), Stop> {
        let begun = root.system.now();
        if self.gathering.orphans.are_any() {
            self.check_orphans(root)?;
        }
        if self.gathering.checks.are_any() {
            self.check_folders(root, turn)?;
        }
        let now = root.system.now();
        let took = now.saturating_sub(begun);
        self.check_at = now.saturating_add(took.saturating_mul(TIMES).max(BUSY));
        Ok(())
    }

    /// Whether there are folders or names to look for.
    pub(crate) fn has_checks(&self) -> bool {
        self.gathering.checks.are_any() || self.gathering.orphans.are_any()
    }

    /// Looks for folders and names in a quiet moment, now and then in a busy one, and at once if a client waits for a sync. Folders
    /// that moved may have taken a watch from another one.
    pub(crate) fn check_if_due(
        &mut self,
        root: &Root<'_, Y>,
        turn: &mut Turn<'_, Y>,
    ) -> Result<(), Stop> {
        // The folders of a batch that isn't sent yet aren't in the server's list.
        if !self.adding.is_empty() || !self.batch.is_empty() {
            return Ok(());
        }
        let now = root.system.now();
        let quiet = now.saturating_sub(self.came_at);
        let is_synced = self.syncs.are_any();
        if self.gathering.is_moved() && (is_synced || quiet >= IDLE) {
            self.gathering.check_all();
        }
        if self.has_checks() && (is_synced || quiet >= UNSEEN || now >= self.check_at) {
            self.check(root, turn)?;
        }
        Ok(())
    }

    /// How long the feed may wait for records once the root is crawled, in milliseconds.
    pub(crate) fn patience_of_checks(&self) -> u64 {
        if self.syncs.are_any() {
            SYNCED
        } else if self.has_checks() {
            UNSEEN
        } else {
            IDLE
        }
    }
}
