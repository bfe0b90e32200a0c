//! Requests to the server, and their replies.

use crate::failure::{Failure, cause_of, failed};
use serde_json::Value;
use std::alloc::Global;
use std::io::{BufRead, BufReader, ErrorKind, IsTerminal, Write};
use std::os::unix::net::UnixStream;
use std::time::{Duration, Instant};
use std::{io, process};
use wm_client::{Request, Sync, SyncEnd, SyncFiles, TalkEnd, refusal_of, synced_talk};
use wm_commands::{NO_SESSION, Presence, advice_of, is_advised};
use wm_disk::Refusal;
use wm_findings::is_wanted;
use wm_parts::explanation;

/// The server at a socket.
#[derive(Clone, Copy)]
pub struct Server<'a> {
    pub rt: &'a HostRuntime,
    pub socket: &'a str,
}

/// How a request ended.
#[derive(Drop)]
pub enum Reply {
    /// The line of a reply, which is no refusal.
    Line(String),
    /// A refusal, with its line.
    Refused(Option<Refusal>, String),
    /// The server refused the session, since all of its sessions are taken.
    NoSession,
}

/// For how many milliseconds a feed is waited for.
const PATIENCE: u32 = 3_000;

/// How long an answer of a server is waited for that may be about to end, in milliseconds.
const ANSWER: u64 = 2_000;

/// How long it is looked whether a server closes a session that it refused, in milliseconds.
const CLOSE: u64 = 500;

impl Server<'_> {
    /// The failure of a server that can't be reached, for this cause.
    pub fn lost(&self, cause: &str) -> Failure {
        let socket = self.socket;
        match format!(in self.rt.alloc();
            "{socket}: no server answers ({cause}); 'wm up' starts one"
        ) {
            Ok(text) => failed(3, text),
            Err(_) => Failure::NoMemory,
        }
    }

    /// A connection of its own.
    pub fn connected(&self) -> Result<UnixStream, Failure> {
        match UnixStream::connect(self.rt, self.socket) {
            Ok(stream) => Ok(stream),
            Err(error) => Err(self.unreached(&error)),
        }
    }

    /// The failure of a connection that the system refused.
    fn unreached(&self, error: &io::Error) -> Failure {
        let cause = cause_of(error);
        match error.kind() {
            ErrorKind::NotFound | ErrorKind::ConnectionRefused => self.lost(cause),
            _ => {
                let socket = self.socket;
                match format!(in self.rt.alloc();
                    "{socket}: {cause}; --socket or WATCHMAND_SOCKET names another socket"
                ) {
                    Ok(text) => failed(3, text),
                    Err(_) => Failure::NoMemory,
                }
            }
        }
    }

    /// What is at the socket. The failure is that of a path where nothing can be.
    pub fn presence(&self) -> Result<Presence, Failure> {
        let stream = match UnixStream::connect(self.rt, self.socket) {
            Ok(stream) => stream,
            Err(error) => {
                return match error.kind() {
                    ErrorKind::NotFound | ErrorKind::ConnectionRefused => Ok(Presence::Absent),
                    _ => Err(self.unreached(&error)),
                };
            }
        };
        if self.is_answered(&stream)? {
            Ok(Presence::Answered)
        } else {
            Ok(Presence::Silent)
        }
    }

    /// Whether a line comes over a connection. A server that refuses the session sends one too.
    fn is_answered(&self, stream: &UnixStream) -> Result<bool, Failure> {
        let alloc = self.rt.alloc();
        stream.set_read_timeout(Some(Duration::from_millis(ANSWER)))?;
        let mut sender = stream;
        let _written = sender.write_all(b"[\"version\"]\n");
        let mut lines = BufReader::new(alloc, stream)?;
        let mut line = Vec::new(alloc);
        match lines.read_until(b'\n', &mut line) {
            Ok(_) => Ok(line.ends_with(b"\n")),
            Err(error) if error.kind() == ErrorKind::OutOfMemory => Err(Failure::NoMemory),
            Err(_) => Ok(false),
        }
    }

    /// Sends a request behind a sync of a root. `None` if no feed synced it in time.
    pub fn ask_synced(&self, root: &str, json: String) -> Result<Option<Reply>, Failure> {
        let alloc = self.rt.alloc();
        let sync = Sync {
            root: String::from_str(alloc, root)?,
            timeout: PATIENCE,
        };
        let request = Request {
            socket: String::from_str(alloc, self.socket)?,
            json,
            follow: 0,
            sync: Some(sync),
        };
        self.talk(&request)
    }

    /// Sends a request over a connection of its own, behind its sync. `None` if no feed synced the root in time.
    fn talk(&self, request: &Request) -> Result<Option<Reply>, Failure> {
        let alloc = self.rt.alloc();
        let stream = self.connected()?;
        let mut replies = BufReader::new(alloc, &stream)?;
        let mut printed = Vec::new(alloc);
        let system = SyncFiles {
            rt: self.rt,
            process: process::id(self.rt.process()),
            begun: Instant::now(self.rt)?,
        };
        let end = synced_talk(
            alloc,
            request,
            &system,
            &mut &stream,
            &mut replies,
            &mut printed,
        )?;
        if refusal_of(&printed) == Some(Refusal::TooMany)
            && self.is_closed(&stream, &mut replies)?
        {
            return Ok(Some(Reply::NoSession));
        }
        self.reply(end, &printed)
    }

    /// Whether the server closes a connection behind a refusal: it refused the session, and no request.
    fn is_closed<R: BufRead>(&self, stream: &UnixStream, replies: &mut R) -> Result<bool, Failure> {
        stream.set_read_timeout(Some(Duration::from_millis(CLOSE)))?;
        let mut line = Vec::new(self.rt.alloc());
        match replies.read_until(b'\n', &mut line) {
            Ok(count) => Ok(count == 0),
            Err(error) => Ok(error.kind() != ErrorKind::WouldBlock),
        }
    }

    /// The reply of a talk that ended so, after it printed these bytes. `None` if no feed synced the root in time.
    fn reply(&self, end: SyncEnd, printed: &[u8]) -> Result<Option<Reply>, Failure> {
        let line = self.text(printed)?;
        match end {
            SyncEnd::Talked(TalkEnd::Told) => Ok(Some(Reply::Line(line))),
            SyncEnd::Talked(TalkEnd::Refused) | SyncEnd::Unsynced(TalkEnd::Refused) => {
                Ok(Some(Reply::Refused(refusal_of(printed), line)))
            }
            SyncEnd::NoFeed => Ok(None),
            _ => Err(self.lost("it ended before it replied")),
        }
    }

    /// The reply of a line that came over a connection.
    pub fn reply_in<R: BufRead>(
        &self,
        stream: &UnixStream,
        replies: &mut R,
        line: &[u8],
    ) -> Result<Reply, Failure> {
        let text = self.text(line)?;
        if !line.starts_with(b"{\"error\":") {
            return Ok(Reply::Line(text));
        }
        let refusal = refusal_of(line);
        if refusal == Some(Refusal::TooMany) && self.is_closed(stream, replies)? {
            return Ok(Reply::NoSession);
        }
        Ok(Reply::Refused(refusal, text))
    }

    /// The text of what was printed.
    fn text(&self, printed: &[u8]) -> Result<String, Failure> {
        match str::from_utf8(printed) {
            Ok(text) => Ok(String::from_str(self.rt.alloc(), text)?),
            Err(_) => Err(self.lost("its reply is no text")),
        }
    }

    /// The failure of a refusal, about a folder.
    pub fn refused(&self, about: &str, refusal: Option<Refusal>, line: &str) -> Failure {
        let Some(refusal) = refusal else {
            return match format!(in self.rt.alloc(); "{about}: the server refused: {line}") {
                Ok(text) => failed(1, text),
                Err(_) => Failure::NoMemory,
            };
        };
        let (name, advice) = (refusal.text(), advice_of(refusal));
        match refusal {
            Refusal::NotReady | Refusal::NoMemory | Refusal::TooMany | Refusal::NoPlace => {
                match format!(in self.rt.alloc(); "{about}: the server refused: {name}; {advice}") {
                    Ok(text) => Failure::Later { text },
                    Err(_) => Failure::NoMemory,
                }
            }
            _ => match format!(in self.rt.alloc(); "{about}: the server refused: {name}") {
                Ok(text) => Failure::Refused { text, refusal },
                Err(_) => Failure::NoMemory,
            },
        }
    }

    /// The failure of a session that was refused.
    pub fn no_session(&self) -> Failure {
        let socket = self.socket;
        match format!(in self.rt.alloc(); "{socket}: {NO_SESSION}") {
            Ok(text) => Failure::Later { text },
            Err(_) => Failure::NoMemory,
        }
    }

    /// Reads on in a line. `false` if it isn't whole yet, and the connection's time for a read is over.
    pub fn is_read<R: BufRead>(&self, lines: &mut R, line: &mut Vec<u8>) -> Result<bool, Failure> {
        match lines.read_until(b'\n', line) {
            Ok(0) => Err(self.lost("it ended")),
            Ok(_) if !line.ends_with(b"\n") => Err(self.lost("it ended")),
            Ok(_) => Ok(true),
            Err(error) if error.kind() == ErrorKind::WouldBlock => Ok(false),
            Err(error) if error.kind() == ErrorKind::OutOfMemory => Err(Failure::NoMemory),
            Err(_) => Err(self.lost("it ended")),
        }
    }

    /// The line that says which part of a request is the cause of its refusal. `None` if that isn't wanted, or isn't found.
    fn cause_line(&self, json: &str) -> Option<String> {
        if !is_wanted(self.rt, self.rt.stderr().is_terminal()) {
            return None;
        }
        match explanation(self.rt.alloc(), json) {
            Ok(line) => line,
            Err(_) => None,
        }
    }

    /// The failure of a request that was refused, with a line behind it that says which part is the cause, if that is wanted and found.
    pub fn explained(&self, failure: Failure, json: &str) -> Failure {
        let Failure::Refused { text, refusal } = failure else {
            return failure;
        };
        let Some(line) = self.cause_line(json) else {
            return Failure::Refused { text, refusal };
        };
        let line = line.trim_end();
        let explained = if is_advised(refusal, true) {
            let advice = advice_of(refusal);
            format!(in self.rt.alloc(); "{text}; {advice}\n{line}")
        } else {
            format!(in self.rt.alloc(); "{text}\n{line}")
        };
        match explained {
            Ok(text) => failed(1, text),
            Err(_) => Failure::NoMemory,
        }
    }

    /// The value that the line of a reply is.
    pub fn value(&self, line: &str) -> Result<Value, Failure> {
        match Value::from_str(self.rt.alloc(), line) {
            Ok(value) => Ok(value),
            Err(_) => Err(self.lost("its reply is no JSON")),
        }
    }
}

/// A request of one word.
pub fn bare(alloc: Global, command: &str) -> Result<String, Failure> {
    Ok(format!(in alloc; "[\"{command}\"]")?)
}
