//! Which of the folders that are to be checked inotifywait doesn't watch, by the system's list of its watches.
//! Tests: feed_tests, tools/try/feed.

use crate::asking::FOLDERS;
use crate::root::Root;
use crate::server::Server;
use crate::system::System;
use crate::watch::Watch;
use std::collections::BTreeSet;
use wm_client::Stop;
use wm_disk::Refusal;
use wm_feed::Checks;
use wm_names::RelPath;

/// Folders that are still to be read, and those that have to be watched.
#[derive(Drop)]
struct Walk {
    unread: Vec<RelPath>,
    unsure: Vec<RelPath>,
}

impl Walk {
    /// Goes on with a folder. One whose making was reported is watched.
    fn enter(&mut self, checks: &Checks, path: RelPath) -> Result<(), Stop> {
        if !checks.is_made(&path) {
            self.unsure.push(path.copy()?)?;
        }
        self.unread.push(path)?;
        Ok(())
    }
}

impl<Y: System> Root<'_, Y> {
    /// Whether a path below the root is a folder that isn't watched, though it can be.
    fn is_missed(&self, path: &RelPath, watched: &BTreeSet<u64>) -> Result<bool, Stop> {
        let text = self.whole(path.as_str())?;
        match self.system.folder(text.as_str()) {
            Some(number) if !watched.contains(&number) => {
                Ok(self.system.names(self.alloc, text.as_str())?.is_some())
            }
            _ => Ok(false),
        }
    }

    /// Goes on with the folders in a folder. A name that no view holds is passed over.
    fn read_folder(&self, walk: &mut Walk, checks: &Checks, folder: &RelPath) -> Result<(), Stop> {
        let folder = folder.as_str();
        let text = self.whole(folder)?;
        let Some(names) = self.system.names(self.alloc, text.as_str())? else {
            return Ok(());
        };
        for name in &names {
            let whole = format!(in self.alloc; "{text}/{name}")?;
            if self.system.folder(whole.as_str()).is_none() {
                continue;
            }
            let path = format!(in self.alloc; "{folder}/{name}")?;
            match RelPath::read(self.alloc, path.as_str()) {
                Ok(path) => walk.enter(checks, path)?,
                Err(Refusal::NoMemory) => return Err(Stop::NoMemory),
                Err(_) => {}
            }
        }
        Ok(())
    }

    /// The folders in the parts that are to be checked, but for those whose making there was reported.
    fn unsure_of(&self, checks: &Checks) -> Result<Vec<RelPath>, Stop> {
        let mut walk = Walk {
            unread: Vec::new(self.alloc),
            unsure: Vec::new(self.alloc),
        };
        let mut last: Option<RelPath> = None;
        for part in checks.parts() {
            let is_done = match &last {
                Some(top) => part.under(top),
                None => false,
            };
            if is_done {
                continue;
            }
            walk.enter(checks, part.copy()?)?;
            last = Some(part.copy()?);
        }
        for _ in 0..u64::MAX {
            let Some(folder) = walk.unread.pop() else {
                break;
            };
            self.read_folder(&mut walk, checks, &folder)?;
        }
        Ok(walk.unsure)
    }

    /// The numbers of all files that are watched.
    fn watched_by(&self, watches: &[Watch<Y>]) -> Result<BTreeSet<u64>, Stop> {
        let mut all = BTreeSet::new(self.alloc);
        for watch in watches {
            for number in &self.system.watched(self.alloc, watch.process())? {
                all.insert(*number)?;
            }
        }
        Ok(all)
    }

    /// The folders that are to be checked and aren't watched, though they can be. The list of watches is read only where a folder
    /// may have been missed.
    pub(crate) fn missed(
        &self,
        server: &mut Server<Y>,
        watches: &[Watch<Y>],
        checks: &Checks,
    ) -> Result<BTreeSet<RelPath>, Stop> {
        let unsure = if checks.is_all() {
            self.list(server, FOLDERS)?
        } else {
            self.unsure_of(checks)?
        };
        let mut missed = BTreeSet::new(self.alloc);
        if unsure.is_empty() {
            return Ok(missed);
        }
        let watched = self.watched_by(watches)?;
        for path in &unsure {
            if self.is_missed(path, &watched)? {
                missed.insert(path.copy()?)?;
            }
        }
        Ok(missed)
    }
}
