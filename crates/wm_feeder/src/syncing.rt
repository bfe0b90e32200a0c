//! Syncs: a client makes a file in the folder of a root's syncs, and the feed removes it once what happened in the root before is with
//! the server. Tests: feed_tests, tools/try/feed.

use crate::feed::Feed;
use crate::root::Root;
use crate::system::System;
use std::alloc::Global;
use wm_client::Stop;

/// How long a folder that can't be removed stays until it is tried again, in milliseconds.
const OLD: u64 = 1_000;

/// The folders that a feed made for a root's syncs, and that may be there still: that of the root's view, and before it those of its
/// earlier views, in which clients wait.
#[derive(Drop)]
pub(crate) struct SyncFolders {
    made: Vec<String>,
    /// When the earlier ones are tried again.
    try_at: u64,
}

impl SyncFolders {
    /// None was made yet.
    pub(crate) fn new(alloc: Global) -> SyncFolders {
        SyncFolders {
            made: Vec::new(alloc),
            try_at: 0,
        }
    }

    /// Makes the folder of the view of this number, and removes those of earlier views; its path, or `None` if it can't be made.
    pub(crate) fn make<Y: System>(
        &mut self,
        root: &Root<'_, Y>,
        syncs: &str,
        number: u64,
    ) -> Result<Option<String>, Stop> {
        let folder = format!(in root.alloc; "{syncs}/{number}")?;
        self.remove_but(root, Some(folder.as_str()));
        self.try_at = root.system.now().saturating_add(OLD);
        if !root.system.make_folder(syncs) || !root.system.make_folder(folder.as_str()) {
            return Ok(None);
        }
        if !self.made.contains(&folder) {
            self.made
                .push(String::from_str(root.alloc, folder.as_str())?)?;
        }
        Ok(Some(folder))
    }

    /// Removes those of earlier views, now and then: in one of them a client may have waited.
    pub(crate) fn remove_old<Y: System>(&mut self, root: &Root<'_, Y>) -> Result<(), Stop> {
        let now = root.system.now();
        if self.made.len() < 2 || now < self.try_at {
            return Ok(());
        }
        self.try_at = now.saturating_add(OLD);
        let Some(last) = self.made.last() else {
            return Ok(());
        };
        let kept = String::from_str(root.alloc, last.as_str())?;
        self.remove_but(root, Some(kept.as_str()));
        Ok(())
    }

    /// Removes all but one. Each stays if a file is in it: a client waits for what isn't with the server.
    pub(crate) fn remove_but<Y: System>(&mut self, root: &Root<'_, Y>, kept: Option<&str>) {
        for folder in &self.made {
            if kept != Some(folder.as_str()) {
                root.system.remove(folder.as_str());
            }
        }
        self.made.retain(|one| {
            kept == Some(one.as_str()) || root.system.folder(one.as_str()).is_some()
        });
    }
}

impl<Y: System> Root<'_, Y> {
    /// Removes files of a folder.
    fn remove_files(&self, folder: &str, names: &[String]) -> Result<(), Stop> {
        for name in names {
            let path = format!(in self.alloc; "{folder}/{name}")?;
            self.system.remove(path.as_str());
        }
        Ok(())
    }
}

impl<Y: System> Feed<Y> {
    /// Takes the syncs that wait in their folder as reported by the watches from this place on.
    pub(crate) fn take_waiting_syncs(
        &mut self,
        root: &Root<'_, Y>,
        first: usize,
    ) -> Result<(), Stop> {
        let Some(folder) = &self.sync_folder else {
            return Ok(());
        };
        let Some(names) = root.system.names(root.alloc, folder.as_str())? else {
            return Ok(());
        };
        for watch in self.watches.iter().skip(first) {
            for name in &names {
                self.syncs
                    .told(root.alloc, name.as_str(), watch.number(), &self.batch)?;
            }
        }
        Ok(())
    }

    /// Forgets the syncs whose clients took their files away: an inotifywait that began since doesn't report them.
    pub(crate) fn forget_withdrawn_syncs(&mut self, root: &Root<'_, Y>) -> Result<(), Stop> {
        let Some(folder) = &self.sync_folder else {
            return Ok(());
        };
        let Some(names) = root.system.names(root.alloc, folder.as_str())? else {
            return Ok(());
        };
        self.syncs.keep(&names);
        Ok(())
    }

    /// Removes the files of the syncs that are released.
    pub(crate) fn release_syncs(&mut self, root: &Root<'_, Y>) -> Result<(), Stop> {
        if !self.syncs.are_any() {
            return Ok(());
        }
        let Some(folder) = &self.sync_folder else {
            return Ok(());
        };
        let mut numbers = Vec::new(root.alloc);
        for watch in &self.watches {
            numbers.push(watch.number())?;
        }
        let is_moved = self.gathering.is_moved() || !self.adding.is_empty();
        let released = self.syncs.released(
            root.alloc,
            &numbers,
            &self.gathering.checks,
            &self.gathering.orphans,
            is_moved,
        )?;
        root.remove_files(folder.as_str(), &released)?;
        self.syncs.forget(&released);
        Ok(())
    }
}
