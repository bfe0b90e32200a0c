//! A request that may wait for a sync. Definitions: specs/Syncs. Tests: client_tests/src/wmctl/syncs.rt.
ghost use Rattle.std.specs.Prelude.{◌≡◌, ◌⊎◌, ◌++◌, ◌<◌, ℕ, true, List, None, Some, IfOk, IfSome, Ok, codes, string_bytes, option_map};
ghost use Rattle.std.specs.Io.BufRead.{drop_through, take_through};
ghost use Rattle.std.specs.Io.KnownBytes.{Appends};
ghost use Rattle.wm_client.specs.ClientWords.{request_wanted_of, sync_wanted_of};
ghost use Rattle.wm_disk.specs.declared.refusal.Refusal.TheVariants.{NotReady};
ghost use Rattle.wm_client.specs.Asks.{Asks, AsksWhole, TellsRoot};
ghost use Rattle.wm_client.specs.RefusalLines.{is_refused_by};
ghost use Rattle.wm_client.specs.Statuses.{TalksAsAsked};
ghost use Rattle.wm_client.specs.Syncs.{IsAfterWaits, PrintsAsAsked, SendsInOrder, SendsStarts, WaitsAsAsked, clock_request};
ghost use Rattle.wm_client.specs.Talks.{AppendsStart};
ghost use Rattle.wm_client.specs.Waits.{GaveUpIn, GoneIn, HasPassed};

use crate::refused::is_of;
use crate::root_number::{clock_request, root_number_of, sync_folder};
use crate::sync_system::SyncSystem;
use crate::talking::{TalkEnd, print, read_line, send, talk};
use crate::timer::{RETRY, Timer};
use crate::words::Request;
use std::alloc::Global;
use std::io::{BufRead, Write};
use wm_disk::{NoMemory, Refusal};
use wm_protocol::is_refusal;

/// How a request ended that may have waited for a sync.
#[derive(Clone, Copy, Debug, PartialEq, Eq)]
pub enum SyncEnd {
    /// There was nothing to wait for, or it was waited for, and the talk ended so.
    Talked(TalkEnd),
    /// The talk about the root's number ended so. The request wasn't sent.
    Unsynced(TalkEnd),
    /// The reply has no root's number. The request wasn't sent.
    Unreadable,
    /// No feed removed a file in time. The request wasn't sent.
    NoFeed,
}

/// What the question about a root's number came to.
#[derive(Clone, Copy)]
pub(crate) enum Asked {
    Root(u64),
    Unreadable,
    Ended(TalkEnd),
}

/// Sends a request, behind a sync if one is wanted, and prints the reply and so many lines that come after it, as [`talk`].
///
/// A sync asks the server for the root's number, each hundredth of a second while the root isn't ready (`6 NotReady`), makes a file
/// in the folder beside the socket that has this number, and waits until a feed has removed it. Another refusal is printed in
/// place of the reply, and so is `6 NotReady` once the sync's time is over. `Err` comes if memory runs out.
pub fn synced_talk<Y: SyncSystem, S: Write, R: BufRead, W: Write>(
    alloc: Global,
    request: &Request,
    system: &Y,
    sender: &mut S,
    replies: &mut R,
    printer: &mut W,
) -> Result<SyncEnd, NoMemory>
    ensures order { SendsInOrder (GoneIn Y.made_in Y.gone system.now) (string_bytes request.now.socket) (option_map sync_wanted_of request.now.sync) (S.contents sender.old) (S.contents sender.new) }
    ensures told { IfOk result (λ end. (input : List ℕ) → R.remaining replies.old ≡ Some input → PrintsAsAsked (GoneIn Y.made_in Y.gone system.now) (string_bytes request.now.socket) (option_map sync_wanted_of request.now.sync) request.now.follow input (W.contents printer.old) (W.contents printer.new) end) }
    ensures whole { IfOk result (TalksAsAsked (GoneIn Y.made_in Y.gone system.now) (request_wanted_of request.now) (W.contents printer.old) (W.contents printer.new)) }
    ensures over { IfOk result (WaitsAsAsked (Y.passed system.now) (GaveUpIn Y.made_in Y.removed Y.none_in system.now) (string_bytes request.now.socket) (option_map sync_wanted_of request.now.sync) (W.contents printer.old) (W.contents printer.new)) }
{
    if let Some(sync) = &request.sync {
        let mut timer = Timer::start(system, sync.timeout);
        let root = match ask_root(alloc, &sync.root, &mut timer, sender, replies, printer)? {
            Asked::Root(root) => root,
            Asked::Unreadable => return Ok(SyncEnd::Unreadable),
            Asked::Ended(end) => return Ok(SyncEnd::Unsynced(end)),
        };
        let folder = sync_folder(alloc, &request.socket, root)?;
        if !timer.sync(alloc, &folder)? {
            return Ok(SyncEnd::NoFeed);
        }
    }
    let end = talk(
        alloc,
        &request.json,
        request.follow,
        sender,
        replies,
        printer,
    )?;
    Ok(SyncEnd::Talked(end))
}

/// Asks for a root's number until the root is ready, or the time is over. A refusal that is no longer waited out is printed.
fn ask_root<Y: SyncSystem, S: Write, R: BufRead, W: Write>(
    alloc: Global,
    root: &str,
    timer: &mut Timer<'_, Y>,
    sender: &mut S,
    replies: &mut R,
    printer: &mut W,
) -> Result<Asked, NoMemory>
    ensures system { timer.new.system.now ≡ timer.old.system.now }
    ensures limit { timer.new.limit ≡ timer.old.limit }
    ensures starts { SendsStarts (clock_request root.now ++ codes "\n") (S.contents sender.old) (S.contents sender.new) }
    ensures told { IfOk result (λ asked. (input : List ℕ) → R.remaining replies.old ≡ Some input → (k : ℕ) × (rest : List ℕ) × IsAfterWaits k input rest × Asks rest (W.contents printer.old) (W.contents printer.new) (R.remaining replies.new) asked) }
    ensures whole { IfOk result (AsksWhole (HasPassed (Y.passed timer.old.system.now) timer.old.limit) (W.contents printer.old) (W.contents printer.new)) }
{
    let clock = clock_request(alloc, root)?;
    loop {
        if let Some(asked) = ask_once(alloc, &clock, timer, sender, replies, printer)? {
            return Ok(asked);
        }
    }
}

/// Asks for a root's number once. `None` if the root isn't ready yet, and the time isn't over.
fn ask_once<Y: SyncSystem, S: Write, R: BufRead, W: Write>(
    alloc: Global,
    clock: &str,
    timer: &mut Timer<'_, Y>,
    sender: &mut S,
    replies: &mut R,
    printer: &mut W,
) -> Result<Option<Asked>, NoMemory>
    ensures system { timer.new.system.now ≡ timer.old.system.now }
    ensures limit { timer.new.limit ≡ timer.old.limit }
    ensures start { AppendsStart (S.contents sender.old) (S.contents sender.new) (clock.now ++ codes "\n") }
    ensures later { result ≡ Ok None → (timer.old.waited < timer.old.limit) × (timer.old.waited < timer.new.waited) × (W.contents printer.new ≡ W.contents printer.old) }
    ensures again { result ≡ Ok None → (input : List ℕ) → R.remaining replies.old ≡ Some input → (is_refused_by NotReady (take_through 10 input) ≡ true) × (R.remaining replies.new ≡ Some (drop_through 10 input)) }
    ensures told { IfOk result (λ r. IfSome r (λ asked. (input : List ℕ) → R.remaining replies.old ≡ Some input → Asks input (W.contents printer.old) (W.contents printer.new) (R.remaining replies.new) asked)) }
    ensures whole { IfOk result (λ r. IfSome r (AsksWhole (HasPassed (Y.passed timer.old.system.now) timer.old.limit) (W.contents printer.old) (W.contents printer.new))) }
{
    let is_sent = send(clock, sender);
    let mut line = Vec::new(alloc);
    match read_line(replies, &mut line)? {
        TalkEnd::Told => {}
        other => return Ok(Some(Asked::Ended(other))),
    }
    if is_refusal(&line) {
        if is_of(Refusal::NotReady, &line) && timer.pause(RETRY) {
            return Ok(None);
        }
        return Ok(Some(Asked::Ended(print_refusal(&line, printer))));
    }
    if !is_sent {
        return Ok(Some(Asked::Ended(TalkEnd::Unsent)));
    }
    Ok(Some(root_in(alloc, &line)?))
}

/// Prints a line that is a refusal.
fn print_refusal<W: Write>(line: &[u8], printer: &mut W) -> TalkEnd
    ensures { ((result ≡ TalkEnd.Refused) × Appends (W.contents printer.old) (W.contents printer.new) line.now) ⊎ (result ≡ TalkEnd.Unprinted) }
{
    if print(line, printer) {
        TalkEnd::Refused
    } else {
        TalkEnd::Unprinted
    }
}

/// The root's number in a line.
fn root_in(alloc: Global, line: &[u8]) -> Result<Asked, NoMemory>
    ensures { IfOk result (TellsRoot line.now) }
{
    match root_number_of(alloc, line)? {
        Some(root) => Ok(Asked::Root(root)),
        None => Ok(Asked::Unreadable),
    }
}
