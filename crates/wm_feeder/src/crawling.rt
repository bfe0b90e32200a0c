//! Crawls, also around folders that the server can't read: what stands beside them is sent, and they are reported to the user, once.
//! Tests: feed_tests, tools/try/feed.

use crate::asking::ALL;
use crate::root::{Root, stop_of};
use crate::server::{Asked, Server};
use crate::system::System;
use std::collections::BTreeSet;
use wm_client::Stop;
use wm_crawler::Tree;
use wm_disk::Refusal;
use wm_names::{Kind, Meta, RelPath, Subtree};

/// A crawl that goes around what can't be read.
#[derive(Drop)]
struct Detour {
    /// The parts that are still to be crawled.
    parts: Vec<Subtree>,
    /// The paths of the folders that were read here, empty for the root, and what stands in them.
    read: BTreeSet<String>,
    there: BTreeSet<RelPath>,
}

/// The path of the folder that a path stands in, empty for the root.
fn folder_of(path: &RelPath) -> &str {
    match path.as_str().rsplit_once('/') {
        Some((folder, _)) => folder,
        None => "",
    }
}

impl<Y: System> Root<'_, Y> {
    /// Crawls a part of the root. A folder in it that can't be read is passed over.
    pub(crate) fn crawl(&mut self, server: &mut Server<Y>, part: &Subtree) -> Result<(), Stop> {
        match self.recrawl(server, part)? {
            Asked::Told => {}
            Asked::Refused(Refusal::DeviceFailed) => self.crawl_around(server, part)?,
            Asked::Refused(refusal) => return Err(stop_of(refusal)),
        }
        self.pause = 0;
        Ok(())
    }

    /// Crawls a part that can't be crawled at once: each folder in it that can't be is read here.
    pub(crate) fn crawl_around(
        &mut self,
        server: &mut Server<Y>,
        part: &Subtree,
    ) -> Result<(), Stop> {
        let mut detour = Detour {
            parts: Vec::new(self.alloc),
            read: BTreeSet::new(self.alloc),
            there: BTreeSet::new(self.alloc),
        };
        self.read_part(server, &mut detour, part)?;
        for _ in 0..u64::MAX {
            let Some(part) = detour.parts.pop() else {
                break;
            };
            match self.recrawl(server, &part)? {
                Asked::Told => {}
                Asked::Refused(Refusal::DeviceFailed) => self.read_part(
                    server,
                    &mut detour,
                    &part,
                )?,
                Asked::Refused(refusal) => return Err(stop_of(refusal)),
            }
        }
        self.tell_gone(server, &detour)
    }

    /// Reads a folder that the server can't crawl, sends what stands in it, and has its folders crawled.
    fn read_part(
        &mut self,
        server: &mut Server<Y>,
        detour: &mut Detour,
        part: &Subtree,
    ) -> Result<(), Stop> {
        let folder = match part {
            Subtree::Whole => "",
            Subtree::Below(path) => path.as_str(),
        };
        let text = self.whole(folder)?;
        let Some(names) = self.system.names(self.alloc, text.as_str())? else {
            return self.pass_over(part);
        };
        let mut pairs = Vec::new(self.alloc);
        for name in &names {
            let path = match part.join(self.alloc, name.as_str()) {
                Ok(path) => path,
                Err(Refusal::NoMemory) => return Err(Stop::NoMemory),
                Err(_) => continue,
            };
            let Ok(meta) = self.files.meta(self.alloc, &path) else {
                continue;
            };
            self.enter(detour, &path, meta)?;
            pairs.push((path, meta))?;
        }
        detour.read.insert(String::from_str(self.alloc, folder)?)?;
        self.observe(server, &pairs)
    }

    /// Goes on with an entry of a folder that was read.
    fn enter(
        &mut self,
        detour: &mut Detour,
        path: &RelPath,
        meta: Option<Meta>,
    ) -> Result<(), Stop> {
        let Some(meta) = meta else {
            return Ok(());
        };
        detour.there.insert(path.copy()?)?;
        if meta.kind == Kind::Folder {
            detour.parts.push(Subtree::Below(path.copy()?))?;
        }
        Ok(())
    }

    /// Passes a folder over, and names it to the user.
    fn pass_over(&mut self, part: &Subtree) -> Result<(), Stop> {
        let Subtree::Below(path) = part else {
            return Err(Stop::RefusedForNow(Refusal::DeviceFailed));
        };
        let text = self.whole(path.as_str())?;
        let line = format!(in self.alloc; "wmfeed: {text}: the folder can't be read")?;
        self.said.tell(self.system, line)?;
        self.closed.insert(path.copy()?)?;
        Ok(())
    }

    /// Sends what is gone from the folders that were read here.
    fn tell_gone(&mut self, server: &mut Server<Y>, detour: &Detour) -> Result<(), Stop> {
        let mut pairs = Vec::new(self.alloc);
        for path in self.list(server, ALL)? {
            if detour.read.contains(folder_of(&path)) && !detour.there.contains(&path) {
                pairs.push((path, None))?;
            }
        }
        self.observe(server, &pairs)
    }
}
