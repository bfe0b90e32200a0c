//! Replies that are waited for, and what is said meanwhile.

use crate::failure::Failure;
use crate::server::{Reply, Server};
use std::io::{BufRead, BufReader, IsTerminal, Write};
use std::time::{Duration, Instant};
use wm_commands::{is_crawl_due, is_reply_due};

/// How long a read waits before it may be said that the wait goes on, in milliseconds.
const TICK: u64 = 250;

/// What is waited for.
#[derive(Clone, Copy)]
enum Awaited {
    /// A crawl of this name.
    Crawl(&'static str),
    /// An answer, which may be late for this cause.
    Answer(&'static str),
}

/// A wait for the server, and what was said of it.
#[derive(Drop)]
pub struct Waiting {
    begun: Instant,
    /// At which second it was said last that the wait goes on.
    told: Option<u64>,
    awaited: Awaited,
}

impl Waiting {
    /// A wait that begins now.
    fn begin(server: &Server<'_>, awaited: Awaited) -> Result<Waiting, Failure> {
        Ok(Waiting {
            begun: Instant::now(server.rt)?,
            told: None,
            awaited,
        })
    }

    /// A wait for an answer about a root.
    pub fn for_answer(server: &Server<'_>) -> Result<Waiting, Failure> {
        Waiting::begin(
            server,
            Awaited::Answer("a crawl may go on, or another question"),
        )
    }

    /// A wait for an answer about no root, for which the server waits for no crawl.
    pub fn for_roots(server: &Server<'_>) -> Result<Waiting, Failure> {
        Waiting::begin(server, Awaited::Answer("it is busy, or it was stopped"))
    }

    /// A wait for a crawl.
    pub fn for_crawl(server: &Server<'_>, name: &'static str) -> Result<Waiting, Failure> {
        Waiting::begin(server, Awaited::Crawl(name))
    }

    /// Says on standard error that a crawl goes on, if it is time.
    fn tell_crawl(&mut self, server: &Server<'_>, root: &str, name: &str) -> Result<(), Failure> {
        let is_terminal = server.rt.stderr().is_terminal();
        let seconds = self.begun.elapsed(server.rt)?.as_secs();
        if !is_crawl_due(is_terminal, self.told, seconds) {
            return Ok(());
        }
        self.told = Some(seconds);
        if is_terminal {
            eprintln!(server.rt; "wm: {root}: the {name} goes on, {seconds} s so far")?;
        } else {
            eprintln!(server.rt;
                "wm: {root}: the {name} goes on; the answer comes once the crawl has ended"
            )?;
        }
        Ok(())
    }

    /// Says on standard error that an answer about a root or a server is waited for, if it is time.
    fn tell_answer(
        &mut self,
        server: &Server<'_>,
        about: &str,
        cause: &str,
    ) -> Result<(), Failure> {
        let waited = self.begun.elapsed(server.rt)?;
        let millis = u64::try_from(waited.as_millis()).unwrap_or(u64::MAX);
        if !is_reply_due(self.told.is_some(), millis) {
            return Ok(());
        }
        self.told = Some(waited.as_secs());
        eprintln!(server.rt; "wm: {about}: the server's answer is waited for: {cause}")?;
        Ok(())
    }

    /// Says on standard error that the wait goes on, if it is time.
    pub fn tell(&mut self, server: &Server<'_>, about: &str) -> Result<(), Failure> {
        match self.awaited {
            Awaited::Crawl(name) => self.tell_crawl(server, about, name),
            Awaited::Answer(cause) => self.tell_answer(server, about, cause),
        }
    }

    /// Sends a request about a root or the server over a connection of its own, and says meanwhile that its reply is waited for.
    pub fn ask(&mut self, server: &Server<'_>, about: &str, json: &str) -> Result<Reply, Failure> {
        let alloc = server.rt.alloc();
        let request = format!(in alloc; "{json}\n")?;
        let stream = server.connected()?;
        stream.set_read_timeout(Some(Duration::from_millis(TICK)))?;
        let mut sender = &stream;
        // A server that refuses the session says so.
        let _written = sender.write_all(request.as_bytes());
        let mut replies = BufReader::new(alloc, &stream)?;
        let line = self.told_line(server, about, &mut replies)?;
        server.reply_in(&stream, &mut replies, &line)
    }

    /// The same, and the line of the reply. A refusal is a failure.
    pub fn line(
        &mut self,
        server: &Server<'_>,
        about: &str,
        json: &str,
    ) -> Result<String, Failure> {
        match self.ask(server, about, json)? {
            Reply::Line(line) => Ok(line),
            Reply::Refused(refusal, line) => {
                Err(server.explained(server.refused(about, refusal, &line), json))
            }
            Reply::NoSession => Err(server.no_session()),
        }
    }

    /// The next line that comes, with what is said meanwhile.
    fn told_line<R: BufRead>(
        &mut self,
        server: &Server<'_>,
        about: &str,
        replies: &mut R,
    ) -> Result<Vec<u8>, Failure> {
        let mut line = Vec::new(server.rt.alloc());
        for _ in 0..u64::MAX {
            if server.is_read(replies, &mut line)? {
                break;
            }
            self.tell(server, about)?;
        }
        Ok(line)
    }
}
