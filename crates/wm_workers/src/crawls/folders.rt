//! Folders that note which of them couldn't be read, for the log.
//! Definitions: specs/LoggedParts.antt. Tests: tools/try/log.py.
ghost use Rattle.std.specs.Prelude.{◌≡◌};
ghost use Rattle.wm_workers.specs.LoggedParts.{folders_behind};

use super::failed_place::note_first;
use crate::log::{EventLog, crawl_failure};
use std::alloc::Global;
use std::sync::{Mutex, Wait};
use std::time::Clock;
use wm_crawler::{Dir, Folders};
use wm_disk::Refusal;
use wm_lines::Progress;
use wm_log::What;
use wm_names::{Meta, RelPath, RootPath, Subtree};

/// Folders, and the first path of theirs that couldn't be read.
#[derive(Drop)]
pub struct NotedFolders<'r, 'a, R: Wait, F> {
    rt: &'r R,
    folders: &'a F,
    failed: Mutex<Option<String>>,
}

impl<'r, 'a, R: Wait, F: Folders> NotedFolders<'r, 'a, R, F> {
    /// These folders, of which none has failed.
    pub fn new(rt: &'r R, folders: &'a F) -> NotedFolders<'r, 'a, R, F>
        ensures { folders_behind result ≡ folders.now }
    {
        NotedFolders {
            rt,
            folders,
            failed: Mutex::new(None),
        }
    }

    /// Notes a place that couldn't be read, if it is the first one. Without memory for its path it isn't noted.
    fn note(&self, alloc: Global, root: &RootPath, place: &Subtree) {
        note_first(&mut *self.failed.lock(self.rt), alloc, root, place);
    }

    /// Notes a path of which the system can't say what stands there.
    fn note_path(&self, alloc: Global, root: &RootPath, path: &RelPath) {
        if let Ok(path) = path.copy() {
            self.note(alloc, root, &Subtree::Below(path));
        }
    }

    /// Notes the first of these paths of which the system can't say what stands there, if it still can't.
    fn note_one_of(&self, alloc: Global, root: &RootPath, paths: &[RelPath]) {
        for path in paths {
            let read = self.folders.meta(alloc, root, path);
            if matches!(read, Err(Refusal::DeviceFailed)) {
                self.note_path(alloc, root, path);
                return;
            }
        }
    }
}

impl<R: Wait + Clock, F: Folders> NotedFolders<'_, '_, R, F> {
    /// Logs how a crawl of a root by these folders failed, if it did, as of [`crawl_failure`], and at which of their places.
    pub fn log_end(
        &self,
        alloc: Global,
        log: &EventLog,
        root: &RootPath,
        ended: &Result<Progress, Refusal>,
    ) {
        let Some(refusal) = crawl_failure(ended) else {
            return;
        };
        let place = self.failed.lock(self.rt).take();
        // what memory runs out for isn't logged
        if let Ok(root) = String::from_str(alloc, root.as_str()) {
            log.note(self.rt, Some(root), What::CrawlFailed(refusal, place));
        }
    }
}

impl<R: Wait, F: Folders> Folders for NotedFolders<'_, '_, R, F> {
    ghost content = { λ n. F.content (folders_behind n) };

    ghost stays = { λ n. F.stays (folders_behind n) };

    ghost may_fail = { λ n. F.may_fail (folders_behind n) };

    fn read_dir(
        &self,
        alloc: Global,
        root: &RootPath,
        folder: &Subtree,
    ) -> Result<Option<Dir>, Refusal> {
        let read = self.folders.read_dir(alloc, root, folder);
        if matches!(read, Err(Refusal::DeviceFailed)) {
            self.note(alloc, root, folder);
        }
        read
    }

    fn meta(
        &self,
        alloc: Global,
        root: &RootPath,
        path: &RelPath,
    ) -> Result<Option<Meta>, Refusal> {
        let read = self.folders.meta(alloc, root, path);
        if matches!(read, Err(Refusal::DeviceFailed)) {
            self.note_path(alloc, root, path);
        }
        read
    }

    fn metas(
        &self,
        alloc: Global,
        root: &RootPath,
        paths: &[RelPath],
    ) -> Result<Vec<Option<Meta>>, Refusal> {
        let read = self.folders.metas(alloc, root, paths);
        if matches!(read, Err(Refusal::DeviceFailed)) {
            self.note_one_of(alloc, root, paths);
        }
        read
    }
}
