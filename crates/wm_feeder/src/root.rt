//! A watched root as a feed knows it, and what a feed asks the server of it. Definitions: specs/ForNow.antt.
//! Tests: feed_tests, tools/try/feed.
ghost use Rattle.std.specs.Prelude.{◌≡◌, true, false, Err, IfOk};
ghost use Rattle.wm_disk.specs.declared.refusal.Refusal.{Refusal};
ghost use Rattle.wm_client.specs.RefusalLines.{is_refused_by};
ghost use Rattle.wm_protocol.specs.Protocol.{is_refusal_line};
ghost use Rattle.wm_feeder.specs.ForNow.{is_for_now as is_for_now_lem};

use crate::pause::next_pause;
use crate::said::Said;
use crate::server::{Asked, Server};
use crate::system::System;
use serde_json::json;
use std::alloc::Global;
use std::collections::BTreeSet;
use wm_client::Stop;
use wm_disk::Refusal;
use wm_feed::observe_line;
use wm_names::{Meta, RelPath, RootPath, Subtree};
use wm_protocol::MAX_LINE;

/// The most pairs of a line, and of one in place of a line that was too long: a pair has at most some 6,300
/// bytes, by a path of 1,024 bytes of which each takes six.
const MANY: usize = 4_096;

const FEW: usize = 128;

/// A watched root.
#[derive(Drop)]
pub(crate) struct Root<'a, Y: System> {
    pub(crate) system: &'a Y,
    pub(crate) alloc: Global,
    pub(crate) path: RootPath,
    pub(crate) files: Y::Files,
    pub(crate) said: Said,
    /// The folders that couldn't be read.
    pub(crate) closed: BTreeSet<RelPath>,
    /// Whether an event that shows nothing new is sent all the same.
    pub(crate) is_every_event: bool,
    /// Since when the server hasn't crawled the root, or when a crawl was last asked for.
    pub(crate) unready_at: Option<u64>,
    /// How long the root rests since its crawl was refused, in milliseconds; 0 if the last crawl wasn't.
    pub(crate) pause: u64,
}

/// Whether the same request may be accepted later: the root isn't crawled yet, a crawl was overtaken by too many observations, the
/// device failed, or memory ran out.
pub(crate) fn is_for_now(refusal: Refusal) -> bool
    ensures { result ≡ is_for_now_lem refusal }
{
    matches!(
        refusal,
        Refusal::NotReady | Refusal::BadClock | Refusal::DeviceFailed | Refusal::NoMemory
    )
}

/// What a refusal of what has to be accepted leads to.
pub(crate) fn stop_of(refusal: Refusal) -> Stop {
    if is_for_now(refusal) {
        Stop::RefusedForNow(refusal)
    } else {
        Stop::Refused(refusal)
    }
}

/// Asks for what has to be accepted, or has to be tried anew.
pub(crate) fn hand_over<Y: System>(
    alloc: Global,
    server: &mut Server<Y>,
    request: &str,
) -> Result<(), Stop>
    ensures accepted { IfOk result (λ _. is_refusal_line server.new.reply.items ≡ false) }
    ensures later { (r : Refusal) → result ≡ Err (Stop.RefusedForNow r) → (is_for_now_lem r ≡ true) × (is_refused_by r server.new.reply.items ≡ true) }
    ensures refused { (r : Refusal) → result ≡ Err (Stop.Refused r) → (is_for_now_lem r ≡ false) × (is_refused_by r server.new.reply.items ≡ true) }
{
    match server.ask(alloc, request)? {
        Asked::Told => Ok(()),
        Asked::Refused(refusal) if is_for_now(refusal) => Err(Stop::RefusedForNow(refusal)),
        Asked::Refused(refusal) => Err(Stop::Refused(refusal)),
    }
}

impl<'a, Y: System> Root<'a, Y> {
    /// A root of which nothing is known yet.
    pub(crate) fn new(
        system: &'a Y,
        alloc: Global,
        path: RootPath,
        is_every_event: bool,
    ) -> Result<Root<'a, Y>, Stop> {
        let files = system.files(path.copy(alloc)?);
        Ok(Root {
            system,
            alloc,
            path,
            files,
            said: Said::new(alloc),
            closed: BTreeSet::new(alloc),
            is_every_event,
            unready_at: None,
            pause: 0,
        })
    }

    /// The whole path of a path below the root, or of the root where it is empty.
    pub(crate) fn whole(&self, path: &str) -> Result<String, Stop> {
        let root = self.path.as_str();
        Ok(format!(in self.alloc; "{root}/{path}")?)
    }

    /// Names the root to the user, and why it isn't fed, and explains that, once.
    pub(crate) fn tell_cause(&mut self, stop: Stop) -> Result<(), Stop> {
        let cause = stop.text();
        let line = format!(in self.alloc; "wmfeed: {}: {cause}", self.path.as_str())?;
        if self.said.tell(self.system, line)? {
            self.system.explain(self.alloc, self.path.as_str(), stop);
        }
        Ok(())
    }

    /// How long the root rests now, in milliseconds, as its crawl was refused once more.
    pub(crate) fn rest(&mut self) -> u64 {
        self.pause = next_pause(self.pause);
        self.pause
    }

    /// Asks by a command of one argument.
    pub(crate) fn ask(&self, server: &mut Server<Y>, command: &str) -> Result<Asked, Stop> {
        let request = json!(in self.alloc; [command, self.path.as_str()])?.to_string(self.alloc)?;
        server.ask(self.alloc, request.as_str())
    }

    /// Asks the server to crawl a part of the root.
    pub(crate) fn recrawl(&self, server: &mut Server<Y>, part: &Subtree) -> Result<Asked, Stop> {
        let root = self.path.as_str();
        let value = match part {
            Subtree::Whole => json!(in self.alloc; ["recrawl", root])?,
            Subtree::Below(path) => json!(in self.alloc; ["recrawl", root, path.as_str()])?,
        };
        let request = value.to_string(self.alloc)?;
        server.ask(self.alloc, request.as_str())
    }

    /// Sends an observation without a pair. A server keeps two copies of a view, and the second takes a crawl in with the next operation:
    /// so that is this one, and not the first change.
    pub(crate) fn observe_nothing(&self, server: &mut Server<Y>) -> Result<(), Stop> {
        let line = observe_line(self.alloc, self.path.as_str(), &[])?;
        hand_over(self.alloc, server, line.as_str())
    }

    /// Sends pairs, in lines of so many.
    pub(crate) fn observe(
        &self,
        server: &mut Server<Y>,
        pairs: &[(RelPath, Option<Meta>)],
    ) -> Result<(), Stop> {
        for part in pairs.chunks(MANY) {
            let line = observe_line(self.alloc, self.path.as_str(), part)?;
            if line.len() < MAX_LINE {
                hand_over(self.alloc, server, line.as_str())?;
            } else {
                self.observe_few(server, part)?;
            }
        }
        Ok(())
    }

    /// Sends pairs, in short lines.
    fn observe_few(
        &self,
        server: &mut Server<Y>,
        pairs: &[(RelPath, Option<Meta>)],
    ) -> Result<(), Stop> {
        for part in pairs.chunks(FEW) {
            let line = observe_line(self.alloc, self.path.as_str(), part)?;
            hand_over(self.alloc, server, line.as_str())?;
        }
        Ok(())
    }
}
