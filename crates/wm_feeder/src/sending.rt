//! A batch sent to the server, in the order of its steps. Tests: feed_tests, tools/try/feed.

use crate::asking::{clock_of, quoted};
use crate::looking::Looking;
use crate::root::{Root, stop_of};
use crate::server::{Asked, Server};
use crate::system::System;
use std::collections::BTreeSet;
use wm_client::Stop;
use wm_feed::{Batch, Orphans, Step, steps_of, unshown};
use wm_names::{Meta, RelPath};

/// Paths with what stands there.
type Pairs = Vec<(RelPath, Option<Meta>)>;

impl<Y: System> Root<'_, Y> {
    /// What stands at paths now. What can't be known of a path, in a folder that can't be read, is left out.
    fn look(&self, paths: &[RelPath], orphans: &mut Orphans) -> Result<Pairs, Stop> {
        let mut looking = Looking::new(self.alloc, &self.files);
        let mut pairs = Vec::new(self.alloc);
        for path in paths {
            match looking.look(self.alloc, path) {
                Ok(meta) => pairs.push((path.copy()?, meta))?,
                Err(Stop::Doubt) => {}
                Err(stop) => return Err(stop),
            }
        }
        for folder in looking.unreal {
            orphans.add(folder)?;
        }
        Ok(pairs)
    }

    /// The paths that changed in the view since a clock.
    fn changed_since(
        &self,
        server: &mut Server<Y>,
        clock: &str,
    ) -> Result<BTreeSet<RelPath>, Stop> {
        let clock = quoted(self.alloc, clock)?;
        let members = format!(in self.alloc; "{{\"fields\":[\"name\"],\"since\":{clock}}}")?;
        let mut changed = BTreeSet::new(self.alloc);
        for path in self.list(server, members.as_str())? {
            changed.insert(path)?;
        }
        Ok(changed)
    }

    /// Sends pairs, and of those that show nothing new that they are gone and there again.
    fn observe_every(&self, server: &mut Server<Y>, pairs: &Pairs) -> Result<(), Stop> {
        if let Asked::Refused(refusal) = self.ask(server, "clock")? {
            return Err(stop_of(refusal));
        }
        let clock = clock_of(self.alloc, server.reply())?;
        self.observe(server, pairs)?;
        let changed = self.changed_since(server, clock.as_str())?;
        let renewed = unshown(self.alloc, pairs, &changed)?;
        let mut gone = Vec::new(self.alloc);
        for (path, _) in &renewed {
            gone.push((path.copy()?, None))?;
        }
        self.observe(server, &gone)?;
        self.observe(server, &renewed)
    }

    /// Looks paths up and sends what stands there.
    fn tell(
        &self,
        server: &mut Server<Y>,
        paths: &[RelPath],
        orphans: &mut Orphans,
    ) -> Result<(), Stop> {
        let pairs = self.look(paths, orphans)?;
        if self.is_every_event {
            self.observe_every(server, &pairs)
        } else {
            self.observe(server, &pairs)
        }
    }

    /// Sends what a batch asks for, step by step. The names of folders that aren't there are orphans.
    pub(crate) fn send(
        &mut self,
        server: &mut Server<Y>,
        batch: &Batch,
        orphans: &mut Orphans,
    ) -> Result<(), Stop> {
        for step in steps_of(self.alloc, batch)? {
            match step {
                Step::Crawl(part) => self.crawl(server, &part)?,
                Step::Observe(paths) => self.tell(server, &paths, orphans)?,
            }
        }
        for folder in batch.folders() {
            orphans.end(folder)?;
        }
        Ok(())
    }
}
