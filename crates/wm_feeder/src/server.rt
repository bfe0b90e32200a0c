//! A session with the server, one request at a time. Definitions: specs/RefusalLines of wm_client.
//! Tests: feed_tests, tools/try/feed.
ghost use Rattle.std.specs.Prelude.{◌≡◌, ◌≢◌, ◌⊎◌, true, false, None, Ok, IfErr, IfOk};
ghost use Rattle.wm_disk.specs.declared.refusal.Refusal.{Refusal};
ghost use Rattle.wm_disk.specs.declared.refusal.Refusal.TheVariants as refusals;
ghost use Rattle.wm_client.specs.RefusalLines.{IsRefusalOf, is_refused_by};
ghost use Rattle.wm_protocol.specs.Protocol.{is_refusal_line};

use crate::system::System;
use std::alloc::Global;
use wm_client::{Stop, TalkEnd, refusal_of, talk};
use wm_disk::Refusal;

/// What a request was answered.
#[derive(Clone, Copy, Debug, PartialEq, Eq)]
pub(crate) enum Asked {
    /// The reply is in [`Server::reply`].
    Told,
    /// The reply is this refusal.
    Refused(Refusal),
}

/// A session with the server.
#[derive(Drop)]
pub(crate) struct Server<Y: System> {
    sender: Y::Sender,
    replies: Y::Replies,
    reply: Vec<u8>,
}

impl<Y: System> Server<Y> {
    /// A session over the socket of a path.
    pub(crate) fn connect(alloc: Global, system: &Y, socket: &str) -> Result<Server<Y>, Stop>
        ensures { IfErr result (λ stop. (stop ≡ Stop.Unreached) ⊎ (stop ≡ Stop.NoMemory)) }
    {
        let (sender, replies) = system.connect(alloc, socket)?;
        Ok(Server {
            sender,
            replies,
            reply: Vec::new(alloc),
        })
    }

    /// Sends a request and reads its reply. A refusal that comes though the request couldn't be sent is its reply,
    /// as the first line of a session for which the server has no place.
    ///
    /// It fails if the server ended, memory ran out, the root isn't watched any longer, or the reply is a refusal that isn't known.
    pub(crate) fn ask(&mut self, alloc: Global, request: &str) -> Result<Asked, Stop>
        ensures told { result ≡ Ok Asked.Told → is_refusal_line self.new.reply.items ≡ false }
        ensures refused { (r : Refusal) → result ≡ Ok (Asked.Refused r) → (is_refused_by r self.new.reply.items ≡ true) × (r ≢ refusals.NotWatched) }
        ensures failed { IfErr result (λ stop. (stop ≡ Stop.ServerGone) ⊎ (stop ≡ Stop.NoMemory) ⊎ ((stop ≡ Stop.WatchGone) × (is_refused_by refusals.NotWatched self.new.reply.items ≡ true))
            ⊎ ((stop ≡ Stop.Unreadable) × IsRefusalOf self.new.reply.items None)) }
    {
        self.reply.clear();
        let Ok(end) = talk(
            alloc,
            request,
            0,
            &mut self.sender,
            &mut self.replies,
            &mut self.reply,
        ) else {
            return Err(Stop::NoMemory);
        };
        match end {
            TalkEnd::Told => Ok(Asked::Told),
            TalkEnd::Refused => self.refused(),
            TalkEnd::NoReply | TalkEnd::ReadFailed | TalkEnd::Unsent => Err(Stop::ServerGone),
            TalkEnd::Unprinted => Err(Stop::NoMemory),
        }
    }

    /// Which refusal the reply is.
    fn refused(&self) -> Result<Asked, Stop>
        ensures refused { IfOk result (λ asked. (r : Refusal) × (asked ≡ Asked.Refused r) × (is_refused_by r self.now.reply.items ≡ true) × (r ≢ refusals.NotWatched)) }
        ensures failed { IfErr result (λ stop. ((stop ≡ Stop.WatchGone) × (is_refused_by refusals.NotWatched self.now.reply.items ≡ true))
            ⊎ ((stop ≡ Stop.Unreadable) × IsRefusalOf self.now.reply.items None)) }
    {
        match refusal_of(&self.reply) {
            Some(Refusal::NotWatched) => Err(Stop::WatchGone),
            Some(refusal) => Ok(Asked::Refused(refusal)),
            None => Err(Stop::Unreadable),
        }
    }

    /// The last reply, with its newline.
    pub(crate) fn reply(&self) -> &[u8] {
        &self.reply
    }
}
