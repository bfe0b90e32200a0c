//! What stands at paths of a folder now, as a crawl would report it. Tests: feed_tests, tools/try/feed.

use std::alloc::Global;
use wm_client::Stop;
use wm_crawler::Tree;
use wm_disk::Refusal;
use wm_names::{Kind, Meta, RelPath};

/// Looks paths up, and keeps what it saw of the last path's folder.
#[derive(Drop)]
pub(crate) struct Looking<'a, T> {
    tree: &'a T,
    folder: String,
    is_real: bool,
    /// The folders of paths that aren't there.
    pub(crate) unreal: Vec<RelPath>,
}

impl<'a, T: Tree> Looking<'a, T> {
    /// Nothing is looked up yet.
    pub(crate) fn new(alloc: Global, tree: &'a T) -> Looking<'a, T> {
        Looking {
            tree,
            folder: String::new(alloc),
            is_real: true,
            unreal: Vec::new(alloc),
        }
    }

    /// Looks whether a folder is there.
    fn enter(&mut self, alloc: Global, folder: &str) -> Result<(), Stop> {
        self.is_real = self.are_folders(alloc, folder)?;
        if !self.is_real {
            if let Ok(path) = RelPath::read(alloc, folder) {
                self.unreal.push(path)?;
            }
        }
        self.folder.clear();
        self.folder.push_str(folder)?;
        Ok(())
    }

    /// What stands at a path; of a link, the link itself.
    fn meta(&self, alloc: Global, text: &str) -> Result<Option<Meta>, Stop> {
        let path = match RelPath::read(alloc, text) {
            Ok(path) => path,
            Err(Refusal::NoMemory) => return Err(Stop::NoMemory),
            Err(_) => return Ok(None),
        };
        match self.tree.meta(alloc, &path) {
            Ok(meta) => Ok(meta),
            Err(Refusal::NoMemory) => Err(Stop::NoMemory),
            Err(_) => Err(Stop::Doubt),
        }
    }

    /// Whether each part of a path is a folder, and no link to one.
    fn are_folders(&self, alloc: Global, folder: &str) -> Result<bool, Stop> {
        for (place, byte) in folder.as_bytes().iter().enumerate() {
            if *byte == b'/' && !self.is_folder(alloc, folder, place)? {
                return Ok(false);
            }
        }
        self.is_folder(alloc, folder, folder.len())
    }

    /// Whether the first bytes of a path name a folder.
    fn is_folder(&self, alloc: Global, folder: &str, length: usize) -> Result<bool, Stop> {
        let Some(text) = folder.get(..length) else {
            return Ok(false);
        };
        match self.meta(alloc, text)? {
            Some(meta) => Ok(meta.kind == Kind::Folder),
            None => Ok(false),
        }
    }

    /// What stands at a path. What is reached through a link only isn't there, as for a crawl.
    pub(crate) fn look(&mut self, alloc: Global, path: &RelPath) -> Result<Option<Meta>, Stop> {
        let text = path.as_str();
        if let Some((folder, _)) = text.rsplit_once('/') {
            if folder != self.folder.as_str() {
                self.enter(alloc, folder)?;
            }
            if !self.is_real {
                return Ok(None);
            }
        }
        self.meta(alloc, text)
    }
}
