//! A feed of one root, and one of all roots. Tests: feed_tests, tools/try/feed.

use crate::asking::watched_roots;
use crate::feeds::Feeds;
use crate::server::{Asked, Server};
use crate::system::System;
use serde_json::json;
use std::alloc::Global;
use wm_client::Stop;
use wm_names::RootPath;

/// How long a feed waits for records at most; until it asks anew which roots are watched, if it feeds all of them; and until it tries
/// again to find the server; in milliseconds.
const IDLE: u64 = 1_000;

const LISTED: u64 = 500;

const AWAY: u64 = 200;

/// What is to be fed.
#[derive(Clone, Copy)]
pub struct Order<'a> {
    /// The path of the server's socket.
    pub socket: &'a str,
    /// The root, or each watched root.
    pub root: Option<&'a RootPath>,
    /// Whether a path is sent also if its event shows nothing new.
    pub is_every_event: bool,
}

/// Whether a stop is one of the session, and not of a root.
fn is_of_session(stop: Stop) -> bool {
    matches!(stop, Stop::ServerGone | Stop::Unreadable | Stop::NoMemory)
}

/// What is to be done for the one root, and a reading.
fn turn_root<Y: System>(feeds: &mut Feeds<'_, Y>, server: &mut Server<Y>) -> Result<(), Stop> {
    feeds.turn_one(server, 0)?;
    feeds.read(IDLE)
}

/// Lets the server watch a root, and feeds it, until there is a cause to stop.
fn feed_root<Y: System>(
    system: &Y,
    alloc: Global,
    order: &Order<'_>,
    root: &RootPath,
) -> Result<(), Stop> {
    let mut server = Server::connect(alloc, system, order.socket)?;
    let request = json!(in alloc; ["watch", root.as_str()])?.to_string(alloc)?;
    if let Asked::Refused(refusal) = server.ask(alloc, request.as_str())? {
        return Err(Stop::Refused(refusal));
    }
    let mut feeds = Feeds::new(system, alloc, order.socket, order.is_every_event)?;
    feeds.add(root.copy(alloc)?)?;
    for _ in 0..u64::MAX {
        if let Err(stop) = turn_root(&mut feeds, &mut server) {
            feeds.end(0);
            return Err(stop);
        }
    }
    Ok(())
}

/// What is to be done for each root after a reading. An error is one of the session.
fn turn_all<Y: System>(feeds: &mut Feeds<'_, Y>, server: &mut Server<Y>) -> Result<(), Stop> {
    for place in 0..feeds.roots.len() {
        if let Err(stop) = feeds.turn_one(server, place) {
            if is_of_session(stop) {
                return Err(stop);
            }
            feeds.rest(place, stop)?;
        }
    }
    Ok(())
}

/// Feeds all roots over a session, until it ends.
fn feed_session<Y: System>(
    system: &Y,
    alloc: Global,
    feeds: &mut Feeds<'_, Y>,
    server: &mut Server<Y>,
) -> Result<(), Stop> {
    let mut list_at = 0;
    for _ in 0..u64::MAX {
        let now = system.now();
        if now >= list_at {
            let listed = watched_roots(alloc, server)?;
            feeds.follow(&listed)?;
            list_at = now.saturating_add(LISTED);
        }
        turn_all(feeds, server)?;
        feeds.read(LISTED)?;
    }
    Ok(())
}

/// Feeds the server, if it is there, until the session ends.
fn feed_while_there<Y: System>(
    system: &Y,
    alloc: Global,
    feeds: &mut Feeds<'_, Y>,
    socket: &str,
) -> Result<(), Stop> {
    let mut server = Server::connect(alloc, system, socket)?;
    feeds.recrawl_all();
    feed_session(system, alloc, feeds, &mut server)
}

/// Whether a stop of a session is to be reported behind the last one that was: a server that isn't there any longer ended before.
fn is_news(told: Option<Stop>, stop: Stop) -> bool {
    match told {
        Some(Stop::ServerGone) => !matches!(stop, Stop::ServerGone | Stop::Unreached),
        Some(told) => told != stop,
        None => true,
    }
}

/// Reports why there is no session with the server, and explains it.
fn tell_session<Y: System>(
    system: &Y,
    alloc: Global,
    socket: &str,
    stop: Stop,
) -> Result<(), Stop> {
    let line = format!(in alloc; "wmfeed: {socket}: {}", stop.text())?;
    system.tell(line.as_str());
    system.explain(alloc, socket, stop);
    Ok(())
}

/// Feeds all roots of the server, which is waited for while it isn't there.
fn feed_all<Y: System>(system: &Y, alloc: Global, order: &Order<'_>) -> Result<(), Stop> {
    let mut feeds = Feeds::new(system, alloc, order.socket, order.is_every_event)?;
    let mut told: Option<Stop> = None;
    for _ in 0..u64::MAX {
        if let Err(stop) = feed_while_there(system, alloc, &mut feeds, order.socket) {
            if stop == Stop::Unwatched {
                return Err(stop);
            }
            if is_news(told, stop) {
                tell_session(system, alloc, order.socket, stop)?;
                told = Some(stop);
            }
        }
        // What came while the server is away is kept by each root; the stream is read, so that no inotifywait waits.
        if let Err(Stop::Unwatched) = feeds.read_within(AWAY) {
            return Err(Stop::Unwatched);
        }
    }
    Ok(())
}

/// Feeds the server at the socket of a path with what changes below a root, or below each watched root, over a system, until there is a
/// cause to stop.
///
/// A feed of all roots ends only if it can't begin, or can't read its stream of records any longer: `Unwatched` if inotifywait can't be
/// started, and `NoMemory`. Of one root:
/// `NoFolder` if no folder is at the root's path when it begins: the server isn't asked to watch it. One that goes later is waited for.
/// `WatchGone` if the root isn't watched any longer; `Refused` by the refusal of a request that isn't one for now, of one that ended
/// the last of ten watches, or of the crawl behind them; `Unwatched` if inotifywait can't be started, `Unwatchable` if ten watches in a
/// row came to nothing, as inotifywait ended or a folder stayed without a watch; `Unreached`, `ServerGone`, `Unreadable` and
/// `NoMemory`. What was sent until then is with the server.
pub fn feed_by<Y: System>(system: &Y, alloc: Global, order: &Order<'_>) -> Stop {
    let ended = match order.root {
        None => feed_all(system, alloc, order),
        Some(root) if system.identity(root.as_str()).is_none() => Err(Stop::NoFolder),
        Some(root) => feed_root(system, alloc, order, root),
    };
    match ended {
        Ok(()) => Stop::Unwatchable,
        Err(stop) => stop,
    }
}
