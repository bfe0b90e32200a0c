//! The sessions of a slot, one after the other: their lines and their replies.
//! Definitions: specs/CrawlOutcomes.antt. Tests: serve_tests/src/sessions.rt, serve_tests/src/crawls.rt.
ghost use Rattle.std.specs.Prelude.{MatchResult};
ghost use Rattle.wm_serve.specs.CrawlOutcomes.{HasCrawled, IsCrawlOutcome, IsCrawlRead, IsUnasked};

use crate::slots::connection::{ClientEnd, Connection};
use crate::slots::lines::{NextLine, UnansweredLine, next_line};
use crate::slots::requests::crawl_asked;
use crate::slots::slot::{Slot, SlotSession};
use crate::socket::waiting_sessions::WaitingSessions;
use std::alloc::Global;
use std::io;
use std::io::{BufRead, BufReader};
use std::net::Shutdown;
use std::os::unix::net::UnixStream;
use std::sync::{Arc, Wait};
use std::time::{Clock, Duration};
use wm_disk::Refusal;
use wm_front::{DeskSeat, Roots, SharedFront, Viewers};
use wm_log::What;
use wm_names::{RootPath, Subtree};
use wm_root::Crawled;
use wm_session::Session;
use wm_share::Naming;
use wm_workers::{ServerDesk, ServerRoots, took_too_long};

/// How long a client may leave a reply unread before its session ends.
const WRITE_SECONDS: u64 = 10;

/// Asks the root of a path for a crawl of a part, and waits for its end. Then the slot's session catches up with what was published of the
/// root.
fn crawl<R: Wait, T: ServerDesk, J: Naming, K: Wait + Clock + Copy + Drop>(
    rt: &R,
    alloc: Global,
    roots: &ServerRoots<T, J, K>,
    slot: &Slot<'_, T, J, K>,
    path: &RootPath,
    subtree: &Subtree,
) -> Result<Crawled, Refusal>
    ensures { MatchResult result (HasCrawled path.now subtree.now) IsUnasked }
{
    let root = roots.find(rt, alloc, path)?;
    let crawled = root.crawl(rt, subtree);
    slot.catch_up(rt, &root);
    drop(root);
    crawled
}

/// What a line comes to that asks for a crawl, or that isn't read, as it was read.
fn crawl_outcome<R: Wait, T: ServerDesk, J: Naming, K: Wait + Clock + Copy + Drop>(
    rt: &R,
    alloc: Global,
    roots: &ServerRoots<T, J, K>,
    slot: &Slot<'_, T, J, K>,
    line: &[u8],
    asked: Result<(RootPath, Subtree), Refusal>,
) -> Result<Crawled, Refusal>
    requires { IsCrawlRead line.now asked }
    ensures { IsCrawlOutcome line.now result }
{
    match asked {
        Ok((path, subtree)) => crawl(rt, alloc, roots, slot, &path, &subtree),
        Err(refusal) => Err(refusal),
    }
}

/// Answers a line that was read. A crawl is awaited without the session, so that what is due is sent meanwhile.
fn serve_line<R: Wait, T: ServerDesk, J: Naming, K: Wait + Clock + Copy + Drop>(
    rt: &R,
    alloc: Global,
    roots: &ServerRoots<T, J, K>,
    slot: &Slot<'_, T, J, K>,
    unanswered: UnansweredLine,
) -> io::Result<()> {
    let Some(asked) = crawl_asked(alloc, unanswered.line()) else {
        return slot.answer(rt, alloc, roots, unanswered);
    };
    let outcome = crawl_outcome(rt, alloc, roots, slot, unanswered.line(), asked);
    slot.send(rt, unanswered.crawl_reply(alloc, outcome))
}

/// Answers the lines of a reader until they end, it fails, or a reply can't be sent.
fn serve_lines<B: BufRead, R: Wait, T: ServerDesk, J: Naming, K: Wait + Clock + Copy + Drop>(
    rt: &R,
    alloc: Global,
    roots: &ServerRoots<T, J, K>,
    slot: &Slot<'_, T, J, K>,
    reader: &mut B,
) -> io::Result<()> {
    for _ in rt.forever() {
        match next_line(alloc, reader)? {
            NextLine::End => return Ok(()),
            NextLine::Lost(reply) => slot.send(rt, reply)?,
            NextLine::Line(unanswered) => serve_line(rt, alloc, roots, slot, unanswered)?,
        }
    }
    unreachable!()
}

/// A client's stream, and its end for what is sent. `None` if memory runs out.
fn both_ends(alloc: Global, stream: UnixStream) -> Option<(Arc<UnixStream>, ClientEnd)> {
    let stream = Arc::new(alloc, stream).ok()?;
    let writer = ClientEnd::of(&stream)?;
    Some((stream, writer))
}

/// Releases the viewers of a session, each to its root if that is there still.
fn release<R: Wait, T: ServerDesk, J: Naming, K: Wait + Clock + Copy + Drop>(
    rt: &R,
    roots: &ServerRoots<T, J, K>,
    viewers: Viewers<J>,
) {
    for viewer in viewers.into_vec() {
        match roots.root_numbered(rt, viewer.share().root) {
            Some(root) => root.release_viewer(rt, viewer),
            None => drop(viewer),
        }
    }
}

/// The session of a slot has ended. Its seat comes back, and its viewers are released.
fn end_session<'a, R: Wait, T: ServerDesk, J: Naming, K: Wait + Clock + Copy + Drop>(
    rt: &R,
    roots: &'a ServerRoots<T, J, K>,
    slot: &Slot<'a, T, J, K>,
) -> DeskSeat<'a, T> {
    roots.flags.note(rt, slot.number, 0);
    let Some(SlotSession { connection }) = slot.replace(rt, None) else {
        return DeskSeat::new(&roots.desk);
    };
    let (seat, viewers) = connection.into_session().into_front().into_parts();
    release(rt, roots, viewers);
    seat
}

/// One session in a slot, until its lines end, its socket fails, or a reply can't be sent. A client that was cut off is logged. The seat
/// comes back.
fn serve_session<'a, R: Wait, T: ServerDesk, J: Naming, K: Wait + Clock + Copy + Drop>(
    rt: &R,
    alloc: Global,
    roots: &'a ServerRoots<T, J, K>,
    slot: &Slot<'a, T, J, K>,
    seat: DeskSeat<'a, T>,
    stream: UnixStream,
) -> DeskSeat<'a, T> {
    let _set = stream.set_write_timeout(Some(Duration::from_secs(WRITE_SECONDS)));
    let Some((stream, writer)) = both_ends(alloc, stream) else {
        return seat;
    };
    let Ok(mut reader) = BufReader::new(alloc, &*stream) else {
        return seat;
    };
    let front = SharedFront::new(roots.keeping, alloc, seat, roots);
    let connection = Connection::new(alloc, Session::new(alloc, front), writer);
    drop(slot.replace(rt, Some(SlotSession { connection })));
    if let Err(error) = serve_lines(rt, alloc, roots, slot, &mut reader) {
        if took_too_long(&error) {
            roots.log.note(&roots.keeping, None, What::CutOff);
        }
    }
    drop(reader);
    let _shut = stream.shutdown(Shutdown::Both);
    end_session(rt, roots, slot)
}

/// Answers the lines of one session of a slot after the other, until no session comes any longer.
pub fn serve_sessions<'a, R: Wait, T: ServerDesk, J: Naming, K: Wait + Clock + Copy + Drop>(
    rt: &R,
    alloc: Global,
    roots: &'a ServerRoots<T, J, K>,
    waiting: &WaitingSessions,
    slot: &Slot<'a, T, J, K>,
) {
    let mut seat = DeskSeat::new(&roots.desk);
    for _ in rt.forever() {
        let Some((stream, place)) = waiting.next(rt) else {
            drop(seat);
            return;
        };
        seat = serve_session(rt, alloc, roots, slot, seat, stream);
        waiting.leave(rt, place);
    }
    unreachable!()
}
