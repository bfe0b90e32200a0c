//! Whether the server knows a root, and what is done if it can't crawl it. Tests: feed_tests, tools/try/feed.

use crate::asking::quoted;
use crate::root::{Root, hand_over, is_for_now};
use crate::server::{Asked, Server};
use crate::system::System;
use wm_client::{Stop, root_number_of};
use wm_disk::Refusal;
use wm_names::Subtree;

/// How long the server's first crawl of a root is waited for before one is asked for, in milliseconds.
const UNCRAWLED: u64 = 1_000;

/// How long a root that isn't ready waits until it is asked for again, and one whose crawl was refused, in milliseconds.
pub(crate) const UNREADY: u64 = 10;

const REFUSED: u64 = 1_000;

impl<Y: System> Root<'_, Y> {
    /// The number of the root's view; `None` if the server hasn't crawled the root yet.
    pub(crate) fn number(&mut self, server: &mut Server<Y>) -> Result<Option<u64>, Stop> {
        match self.ask(server, "clock")? {
            Asked::Told => {}
            Asked::Refused(refusal) if is_for_now(refusal) => {
                self.crawl_if_unready(server)?;
                return Ok(None);
            }
            Asked::Refused(refusal) => return Err(Stop::Refused(refusal)),
        }
        self.unready_at = None;
        match root_number_of(self.alloc, server.reply())? {
            Some(number) => Ok(Some(number)),
            None => Err(Stop::Unreadable),
        }
    }

    /// How long it waits until it is asked for again.
    pub(crate) fn unready_wait(&self) -> u64 {
        if self.pause == 0 { UNREADY } else { REFUSED }
    }

    /// Asks for a crawl of a root that isn't ready for long, and of one whose crawl was refused once it has rested.
    fn crawl_if_unready(&mut self, server: &mut Server<Y>) -> Result<(), Stop> {
        let now = self.system.now();
        let Some(since) = self.unready_at else {
            self.unready_at = Some(now);
            return Ok(());
        };
        if now.saturating_sub(since) < self.pause.max(UNCRAWLED) {
            return Ok(());
        }
        self.unready_at = Some(now);
        match self.recrawl(server, &Subtree::Whole)? {
            Asked::Told => {
                self.pause = 0;
                Ok(())
            }
            Asked::Refused(refusal) => self.crawl_refused(server, refusal),
        }
    }

    /// Goes around a folder that can't be read, if it isn't the root itself; else the root rests, and the refusal is reported to the user.
    fn crawl_refused(&mut self, server: &mut Server<Y>, refusal: Refusal) -> Result<(), Stop> {
        if refusal == Refusal::DeviceFailed && self.is_readable()? {
            return self.list_around(server);
        }
        self.rest();
        self.tell_cause(Stop::Refused(refusal))
    }

    /// Whether the folder at the root's path can be read.
    fn is_readable(&self) -> Result<bool, Stop> {
        let names = self.system.names(self.alloc, self.path.as_str())?;
        Ok(names.is_some())
    }

    /// Lists a root that the server can't crawl, since a folder in it can't be read: nothing at first, and then all around that folder.
    fn list_around(&mut self, server: &mut Server<Y>) -> Result<(), Stop> {
        let root = quoted(self.alloc, self.path.as_str())?;
        let request = format!(in self.alloc; "[\"listing\",{root},0,\"\",[]]")?;
        hand_over(self.alloc, server, request.as_str())?;
        self.crawl_around(server, &Subtree::Whole)?;
        self.pause = 0;
        Ok(())
    }
}
