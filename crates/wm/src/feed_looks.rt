//! Looks at the feed of a root while a change is waited for.

use crate::failure::Failure;
use crate::feeds::is_feed_in;
use crate::processes::{Role, process_that};
use crate::programs::has_inotifywait;
use crate::server::Server;
use std::fs;
use wm_clock::ClockSpec;
use wm_commands::{FeedNews, FeedSeen, Feeding};
use wm_disk::Refusal;

/// What was seen of the feed of a root.
#[derive(Drop)]
pub struct FeedLooks {
    /// The root's number. `None` if it isn't known, so that nothing is looked at.
    root: Option<u64>,
    /// The number of the process of the feed that was seen last.
    process: Option<String>,
    /// Whether a feed was seen that ran.
    has_run: bool,
    seen: FeedSeen,
}

/// The number of the root that a clock has. `None` if it has none.
fn root_of(server: &Server<'_>, clock: &str) -> Result<Option<u64>, Failure> {
    match ClockSpec::read(server.rt.alloc(), clock) {
        Ok(ClockSpec::Clock(clock)) => Ok(Some(clock.root)),
        Err(Refusal::NoMemory) => Err(Failure::NoMemory),
        Ok(_) | Err(_) => Ok(None),
    }
}

impl FeedLooks {
    /// One look at which feed runs. What is waited for was asked behind a sync.
    pub fn begin(server: &Server<'_>) -> Result<FeedLooks, Failure> {
        let process = process_that(server.rt, Role::Feed, server.socket)?;
        Ok(FeedLooks {
            root: None,
            has_run: process.is_some(),
            process,
            seen: FeedSeen::Present,
        })
    }

    /// The root is the one that a clock has.
    pub fn set_root(&mut self, server: &Server<'_>, clock: Option<&str>) -> Result<(), Failure> {
        self.root = match clock {
            Some(clock) => root_of(server, clock)?,
            None => None,
        };
        Ok(())
    }

    /// Whether a feed runs. The one that was seen last is looked at first.
    fn is_running(&mut self, server: &Server<'_>) -> Result<bool, Failure> {
        if let Some(number) = &self.process {
            let process = format!(in server.rt.alloc(); "/proc/{number}")?;
            if is_feed_in(server.rt, &process, server.socket, false)? {
                return Ok(true);
            }
        }
        self.process = process_that(server.rt, Role::Feed, server.socket)?;
        let is_running = self.process.is_some();
        self.has_run = self.has_run || is_running;
        Ok(is_running)
    }

    /// Looks once, and says on standard error if the feed of the root is missing, or is back.
    pub fn look(&mut self, server: &Server<'_>, path: &str) -> Result<(), Failure> {
        let Some(root) = self.root else {
            return Ok(());
        };
        let is_running = self.is_running(server)?;
        let feeding = Feeding::of(is_running, is_ready(server, root)?);
        let is_fed = feeding == Feeding::Fed;
        if self.seen.is_news(is_fed) {
            tell(server, path, FeedNews::of(feeding, self.has_run))?;
        }
        self.seen = self.seen.after(is_fed);
        Ok(())
    }
}

/// Says on standard error what is new of the feed of a root.
fn tell(server: &Server<'_>, path: &str, news: FeedNews) -> Result<(), Failure> {
    let text = news.text();
    match news.advice(has_inotifywait(server.rt)?) {
        Some(advice) => eprintln!(server.rt; "wm: {path}: {text}; {advice}")?,
        None => eprintln!(server.rt; "wm: {path}: {text}")?,
    }
    Ok(())
}

/// Whether a feed has made its folder for the syncs of the root of a number.
pub fn is_ready(server: &Server<'_>, root: u64) -> Result<bool, Failure> {
    let socket = server.socket;
    let folder = format!(in server.rt.alloc(); "{socket}.sync/{root}")?;
    Ok(fs::metadata(server.rt, folder.as_str()).is_ok())
}
