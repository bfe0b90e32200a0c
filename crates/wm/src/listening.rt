//! A subscription that waits for a change below a folder.

use crate::failure::Failure;
use crate::feed_looks::FeedLooks;
use crate::place::{Place, expression_of};
use crate::server::Server;
use serde_json::Value;
use std::io::{BufRead, BufReader, Write};
use std::os::unix::net::UnixStream;
use std::time::{Duration, Instant};
use wm_client::refusal_of;
use wm_commands::arguments::Order;
use wm_commands::{Answer, Settle, answer_of, reported_name, subscribe_line};
use wm_disk::Refusal;

/// How often it is looked whether a change has settled, in milliseconds.
const TICK: u64 = 10;

/// How often it is looked whether the root is fed while nothing changes, in milliseconds.
const LOOK: u64 = 1_500;

/// The names of an answer as they are reported from the place's folder, those outside of it left out.
pub fn from_dir(server: &Server<'_>, place: &Place, answer: Answer) -> Result<Answer, Failure> {
    let alloc = server.rt.alloc();
    let mut names = Vec::new(alloc);
    for name in &answer.names {
        if let Some(reported) = reported_name(alloc, &place.root, &place.dir, name)? {
            names.push(reported)?;
        }
    }
    Ok(Answer {
        clock: answer.clock,
        is_fresh: answer.is_fresh,
        names,
    })
}

/// The answer that a line has. `None` if it has none.
pub fn read_answer(
    server: &Server<'_>,
    place: &Place,
    line: &[u8],
) -> Result<Option<Answer>, Failure> {
    let alloc = server.rt.alloc();
    let Ok(text) = str::from_utf8(line) else {
        return Ok(None);
    };
    let Ok(value) = Value::from_str(alloc, text) else {
        return Ok(None);
    };
    match answer_of(alloc, &value)? {
        Some(answer) => Ok(Some(from_dir(server, place, answer)?)),
        None => Ok(None),
    }
}

/// The names that the line of an answer lists, below the root. `None` if it is no answer.
pub fn read_names(server: &Server<'_>, line: &str) -> Result<Option<Vec<String>>, Failure> {
    let alloc = server.rt.alloc();
    let Ok(value) = Value::from_str(alloc, line) else {
        return Ok(None);
    };
    match answer_of(alloc, &value)? {
        Some(answer) => Ok(Some(answer.names)),
        None => Ok(None),
    }
}

/// Whether a line says that something changed below the folder.
fn is_change(server: &Server<'_>, place: &Place, line: &[u8]) -> Result<bool, Failure> {
    match read_answer(server, place, line)? {
        Some(answer) => Ok(answer.is_fresh || !answer.names.is_empty()),
        None => Ok(false),
    }
}

/// Waits for a change below the place's folder since a clock, until it has settled.
pub fn await_change(
    server: &Server<'_>,
    place: &Place,
    order: &Order,
    since: Option<&str>,
    feed: &mut FeedLooks,
) -> Result<(), Failure> {
    let alloc = server.rt.alloc();
    feed.set_root(server, since)?;
    let expression = expression_of(server, place, order)?;
    let json = subscribe_line(alloc, &place.root, since, expression, false)?;
    let request = format!(in alloc; "{json}\n")?;
    let stream = server.connected()?;
    stream.set_read_timeout(Some(Duration::from_millis(LOOK)))?;
    let mut sender = &stream;
    // A server that refuses the session says so.
    let _written = sender.write_all(request.as_bytes());
    let mut lines = BufReader::new(alloc, &stream)?;
    match read_changes(server, place, order, &stream, &mut lines, feed) {
        Err(failure) => Err(server.explained(failure, &json)),
        Ok(()) => Ok(()),
    }
}

/// Reads the lines of a subscription until a change has settled. Before the first change it is looked now and then whether the root is fed.
fn read_changes<R: BufRead>(
    server: &Server<'_>,
    place: &Place,
    order: &Order,
    stream: &UnixStream,
    lines: &mut R,
    feed: &mut FeedLooks,
) -> Result<(), Failure> {
    let begun = Instant::now(server.rt)?;
    let mut settle = Settle {
        millis: u64::from(order.program.settle),
        last: None,
    };
    let mut line = Vec::new(server.rt.alloc());
    for _ in 0..u64::MAX {
        if is_read(server, place, lines, &mut line)? {
            if is_change(server, place, &line)? {
                settle.change(millis_since(server, begun)?);
                stream.set_read_timeout(Some(Duration::from_millis(TICK)))?;
            }
            line.clear();
        } else if settle.last.is_none() {
            feed.look(server, &place.root)?;
        }
        if settle.is_settled(millis_since(server, begun)?) {
            return Ok(());
        }
    }
    Ok(())
}

/// How many milliseconds have passed.
fn millis_since(server: &Server<'_>, begun: Instant) -> Result<u64, Failure> {
    let now = Instant::now(server.rt)?;
    Ok(u64::try_from(now.duration_since(begun).as_millis()).unwrap_or(u64::MAX))
}

/// Reads on in a line. `false` if it isn't whole yet; a refusal is a failure.
fn is_read<R: BufRead>(
    server: &Server<'_>,
    place: &Place,
    lines: &mut R,
    line: &mut Vec<u8>,
) -> Result<bool, Failure> {
    let is_whole = server.is_read(lines, line)?;
    if is_whole && line.starts_with(b"{\"error\":") {
        let refusal = refusal_of(line);
        if refusal == Some(Refusal::TooMany) {
            return Err(server.no_session());
        }
        let text = str::from_utf8(line).unwrap_or("");
        return Err(server.refused(&place.root, refusal, text));
    }
    Ok(is_whole)
}
