//! All of `wmctl`, with its status. Definitions: specs/Statuses.
//! Tests: client_tests/src/wmctl/sockets.rt.
ghost use Rattle.std.specs.Prelude.{◌≡◌, map, IfOk, MatchResult};
ghost use Rattle.wm_client.specs.ClientWords.{request_wanted_of};
ghost use Rattle.wm_client.specs.Statuses.{EndsAsWanted, TalksAsAsked, status_of_sync};
ghost use Rattle.wm_client.specs.Waits.{GoneIn};

use crate::showing::{show, tell};
use crate::sync_system::SyncSystem;
use crate::syncing::{SyncEnd, synced_talk};
use crate::talking::TalkEnd;
use crate::words::{Request, Words};
use std::alloc::Global;
use std::io;
use std::io::{BufReader, Write};
use std::net::Net;
use std::os::unix::net::UnixStream;
use wm_disk::NoMemory;

/// Runs `wmctl` with the words after its own name, and returns its status: 0; 1 if the reply is a refusal, also one that
/// came though the request couldn't be sent, memory ran out, or the reply, help or the version can't be printed; 2 if the
/// words aren't understood; 3 if the socket failed, or ended before the reply and each further line had come, which is
/// reported on `faults` as `wmctl: no reply`, and if no feed removed the file of a sync in time, which is reported as
/// `wmctl: no feed`.
pub fn wmctl<N: Net, Y: SyncSystem, W: Write, E: Write>(
    alloc: Global,
    net: &N,
    system: &Y,
    words: &[&str],
    printer: &mut W,
    faults: &mut E,
) -> u8
    ensures ends { EndsAsWanted (GoneIn Y.made_in Y.gone system.now) (map (λ word. word.now) words.now) result (W.contents printer.old) (W.contents printer.new) }
    ensures quiet { result ≡ 0 → faults.new ≡ faults.old }
{
    match Words::read(alloc, words) {
        Ok(Words::Shown { text, status }) => show(text.as_str(), status, printer, faults),
        Ok(Words::Talk(request)) => end(talk_at(alloc, net, system, &request, printer), faults),
        Err(NoMemory) => end(Err(NoMemory), faults),
    }
}

/// A talk over the socket of a path.
fn talk_at<N: Net, Y: SyncSystem, W: Write>(
    alloc: Global,
    net: &N,
    system: &Y,
    request: &Request,
    printer: &mut W,
) -> Result<SyncEnd, NoMemory>
    ensures { IfOk result (TalksAsAsked (GoneIn Y.made_in Y.gone system.now) (request_wanted_of request.now) (W.contents printer.old) (W.contents printer.new)) }
{
    let Ok(stream) = UnixStream::connect(net, request.socket.as_str()) else {
        return Ok(SyncEnd::Talked(TalkEnd::NoReply));
    };
    let Ok(mut replies) = BufReader::new(alloc, &stream) else {
        return Err(NoMemory);
    };
    synced_talk(alloc, request, system, &mut &stream, &mut replies, printer)
}

/// The status of a talk, with what is reported of it on `faults`.
fn end<E: Write>(ended: Result<SyncEnd, NoMemory>, faults: &mut E) -> u8
    ensures status { MatchResult ended (λ e. result ≡ status_of_sync e) (λ _. result ≡ 1) }
    ensures quiet { result ≡ 0 → faults.new ≡ faults.old }
{
    let (status, told) = match ended {
        Ok(SyncEnd::Talked(end) | SyncEnd::Unsynced(end)) => match end {
            TalkEnd::Told => return 0,
            TalkEnd::Refused => return 1,
            TalkEnd::NoReply | TalkEnd::ReadFailed | TalkEnd::Unsent => (3, "wmctl: no reply\n"),
            TalkEnd::Unprinted => (1, "wmctl: the reply can't be printed\n"),
        },
        Ok(SyncEnd::Unreadable) => (3, "wmctl: no reply\n"),
        Ok(SyncEnd::NoFeed) => (3, "wmctl: no feed\n"),
        Err(NoMemory) => (1, "wmctl: 16 NoMemory\n"),
    };
    // If even this can't be told, the status tells it.
    let _told = tell(told, faults);
    status
}
