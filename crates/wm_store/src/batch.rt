//! A batch from its first accepted command on: each command is met on a copy of the registry,
//! and the accepted ones are committed in groups.
//! Definitions: specs/Batches.antt, specs/UnderWay.antt. Tests: file_tests/src/store/calls.rt.
ghost use Rattle.std.specs.Prelude.{◌≡◌, ◌⊎◌, ◌+◌, ◌≤◌, ◌<◌, ◌++◌, true, false, [], length, map, take, drop, Option, Some, None, IfOk, IfErr, OnOk, OnErr, IfSome, vec_len};
ghost use Rattle.wm_disk.specs.declared.refusal.Refusal.TheVariants.{NoMemory as no_memory, Exhausted as exhausted};
ghost use Rattle.wm_disk.specs.Moments.{LeavesOnly};
ghost use Rattle.wm_checkpoint.specs.Meanings.{MeansPrefix};
ghost use Rattle.wm_registry.specs.Commands.{FitsVersion};
ghost use Rattle.wm_registry.specs.MachineLaws.{watches_in};
ghost use Rattle.wm_checkpoint.specs.Kept.{disk_of, state_of, has_failed, Keeps};
ghost use Rattle.wm_registry.specs.Registry.{after_command, is_change, reply_to};
ghost use Rattle.wm_store.specs.Room.{group_bound};
ghost use Rattle.wm_store.specs.UnderWay.{AreIdle, IsUnmoved, HasRoom, IsAsked, IsCutAtEnd, IsCutBatch, IsCutBehind, IsCutFor, IsDone, IsFinished, IsGroupDone, IsMetToo, IsNew, IsPushed, IsReady, IsRefused, IsRoomMade, UsesKeeper, refused_for_memory};

use std::alloc::Global;
use wm_checkpoint::Keeper;
use wm_disk::{DeviceFailed, Disk, NoMemory, Refusal};
use wm_registry::{Command, Draft, Filed, FiledCommand, FiledRegistry, Registry, Reply, Watches};

/// A batch on a file of this version, as far as its commands were met.
#[derive(Drop)]
pub(crate) struct Batch<V: Filed> {
    // the registry that the commands so far have made
    next: Draft,
    // the accepted commands that aren't committed yet, and how many bytes they take in the journal
    group: Vec<FiledCommand<V>>,
    size: u64,
    // the replies so far, and how many stood there when the group began
    replies: Vec<Reply>,
    first: usize,
    // why the rest of the batch is refused
    refused: Option<Refusal>,
    // the registry before the batch, once a group of it was committed
    before: Option<Registry>,
}

impl<V: Filed> Batch<V> {
    /// A batch of so many commands on this registry, which accepted none of the first, those that have
    /// these replies.
    pub(crate) fn new(
        alloc: Global,
        registry: &Registry,
        replies: Vec<Reply>,
        len: usize,
    ) -> Result<Self, NoMemory>
        ensures { IfOk result (IsNew registry.now replies len) }
    {
        let next = Draft::new(alloc, registry)?;
        let group = Vec::with_capacity(alloc, len)?;
        Ok(Batch {
            next,
            group,
            size: 0,
            replies,
            first: 0,
            refused: None,
            before: None,
        })
    }

    /// Meets the next command. An error is a failure of the device, and ends the batch.
    fn take<D: Disk + Drop>(
        &mut self,
        alloc: Global,
        keeper: &mut Keeper<D, Watches<V>, V>,
        command: Command,
    ) -> Result<(), DeviceFailed>
        requires ready { IsReady D.Disk V.sizes V.version keeper.old self.old }
        requires refused { (self.old.refused ≡ None) ⊎ (self.old.refused ≡ Some no_memory) ⊎ (self.old.refused ≡ Some exhausted) }
        requires room { HasRoom self.old }
        ensures met { OnOk result (IsMetToo D.Disk V.sizes V.version command keeper.old self.old keeper.new self.new) }
        ensures cut { OnErr result (IsCutFor D.Disk V.sizes V.version command keeper.old self.old keeper.new self.new) }
        ensures keeper { UsesKeeper D.Disk V.sizes V.version 1 keeper.old keeper.new result }
    {
        let Ok(refusal) = self.admit(alloc, keeper, &command) else {
            return Err(DeviceFailed);
        };
        let reply = answer(alloc, &mut self.next, refusal, &command);
        self.push(command, reply);
        Ok(())
    }

    /// Why a command is refused before the registry is asked. Where it is to be accepted, the journal
    /// then has room for it.
    fn admit<D: Disk + Drop>(
        &mut self,
        alloc: Global,
        keeper: &mut Keeper<D, Watches<V>, V>,
        command: &Command,
    ) -> Result<Option<Refusal>, DeviceFailed>
        requires ready { IsReady D.Disk V.sizes V.version keeper.old self.old }
        requires refused { (self.old.refused ≡ None) ⊎ (self.old.refused ≡ Some no_memory) ⊎ (self.old.refused ≡ Some exhausted) }
        ensures goes_on { OnOk result (IsUnmoved D.Disk V.sizes V.version keeper.old self.old keeper.new self.new) }
        ensures asked { IfOk result (λ o. o ≡ None → IsAsked D.Disk V.sizes V.version command.now keeper.old self.old keeper.new self.new) }
        ensures refused { IfOk result (λ o. (r : Refusal) → o ≡ Some r → IsRefused D.Disk V.sizes V.version command.now keeper.old self.old keeper.new self.new r) }
        ensures cut { OnErr result (IsCutFor D.Disk V.sizes V.version command.now keeper.old self.old keeper.new self.new) }
        ensures keeper { UsesKeeper D.Disk V.sizes V.version 1 keeper.old keeper.new result }
    {
        if let Command::Begin = command {
            return Ok(Some(Refusal::BadArguments));
        }
        if let Some(refusal) = self.refused {
            return Ok(Some(refusal));
        }
        if self.size + command.size_as(V::kept_version()) + 1 <= keeper.room() {
            return Ok(None);
        }
        if !self.next.reply_to(command).is_change() {
            return Ok(None);
        }
        match self.make_room(alloc, keeper) {
            Ok(()) => Ok(self.refused),
            Err(_) => Err(DeviceFailed),
        }
    }

    /// Keeps a reply, and the command where it is accepted.
    fn push(&mut self, command: Command, reply: Reply)
        requires room { HasRoom self.old }
        requires len { vec_len self.old.group ≤ vec_len self.old.replies }
        requires small { self.old.size ≤ group_bound }
        requires placed { is_change reply ≡ true → FitsVersion V.version command }
        ensures { IsPushed V.version command reply self.old self.new }
    {
        self.replies.push_reserved(reply);
        if !reply.is_change() {
            return;
        }
        self.size += command.size_as(V::kept_version()) + 1;
        self.group.push_reserved(FiledCommand::new(command));
    }

    /// Commits the group and makes a checkpoint; or refuses the rest of the batch.
    fn make_room<D: Disk + Drop>(
        &mut self,
        alloc: Global,
        keeper: &mut Keeper<D, Watches<V>, V>,
    ) -> Result<(), DeviceFailed>
        requires ready { IsReady D.Disk V.sizes V.version keeper.old self.old }
        requires open_yet { self.old.refused ≡ None }
        ensures goes_on { OnOk result (IsUnmoved D.Disk V.sizes V.version keeper.old self.old keeper.new self.new) }
        ensures made { OnOk result (IsRoomMade D.Disk V.sizes V.version keeper.old self.old keeper.new self.new) }
        ensures cut { OnErr result (IsCutBehind D.Disk V.sizes V.version keeper.old self.old keeper.new self.new.before) }
        ensures keeper { UsesKeeper D.Disk V.sizes V.version 1 keeper.old keeper.new result }
    {
        if self.group.is_empty() {
            return self.switch(alloc, keeper);
        }
        let Ok(()) = self.commit_so_far(alloc, keeper) else {
            return Err(DeviceFailed);
        };
        match self.refused {
            Some(_) => Ok(()),
            None => self.switch(alloc, keeper),
        }
    }

    /// Makes a checkpoint; or refuses the rest of the batch.
    fn switch<D: Disk + Drop>(
        &mut self,
        alloc: Global,
        keeper: &mut Keeper<D, Watches<V>, V>,
    ) -> Result<(), DeviceFailed>
        requires ready { IsReady D.Disk V.sizes V.version keeper.old self.old }
        requires open_yet { self.old.refused ≡ None }
        requires none { self.old.group.items ≡ [] }
        ensures goes_on { OnOk result (IsUnmoved D.Disk V.sizes V.version keeper.old self.old keeper.new self.new) }
        ensures made { OnOk result (IsRoomMade D.Disk V.sizes V.version keeper.old self.old keeper.new self.new) }
        ensures cut { OnErr result (IsCutBehind D.Disk V.sizes V.version keeper.old self.old keeper.new self.new.before) }
        ensures keeper { UsesKeeper D.Disk V.sizes V.version 1 keeper.old keeper.new result }
    {
        match keeper.checkpoint(alloc) {
            Ok(()) => Ok(()),
            Err(refusal) => match refusal {
                Refusal::Exhausted | Refusal::NoMemory => {
                    self.refused = Some(refusal);
                    Ok(())
                }
                _ => Err(DeviceFailed),
            },
        }
    }

    /// Commits the group in the midst of the batch; or refuses the rest of the batch where memory ran out.
    fn commit_so_far<D: Disk + Drop>(
        &mut self,
        alloc: Global,
        keeper: &mut Keeper<D, Watches<V>, V>,
    ) -> Result<(), DeviceFailed>
        requires ready { IsReady D.Disk V.sizes V.version keeper.old self.old }
        requires open_yet { self.old.refused ≡ None }
        ensures goes_on { OnOk result (IsUnmoved D.Disk V.sizes V.version keeper.old self.old keeper.new self.new) }
        ensures made { OnOk result (IsGroupDone D.Disk V.sizes V.version keeper.old self.old keeper.new self.new) }
        ensures cut { OnErr result (IsCutBehind D.Disk V.sizes V.version keeper.old self.old keeper.new self.new.before) }
        ensures keeper { UsesKeeper D.Disk V.sizes V.version 0 keeper.old keeper.new result }
    {
        let Ok(next) = self.next.copy(alloc) else {
            self.refused = Some(Refusal::NoMemory);
            return Ok(());
        };
        let Ok(()) = self.remember(alloc, keeper.state().registry()) else {
            self.refused = Some(Refusal::NoMemory);
            return Ok(());
        };
        match keeper.commit(alloc, &self.group, FiledRegistry::new(next)) {
            Ok(()) => {
                self.group.clear();
                self.size = 0;
                self.first = self.replies.len();
                Ok(())
            }
            Err(refusal) => match refusal {
                Refusal::NoMemory => {
                    self.refused = Some(Refusal::NoMemory);
                    Ok(())
                }
                _ => Err(DeviceFailed),
            },
        }
    }

    /// Keeps the registry before the batch, where it isn't kept yet.
    fn remember(&mut self, alloc: Global, registry: &Registry) -> Result<(), NoMemory>
        ensures same { self.new ≡ record self.old { before = self.new.before } }
        ensures ok { OnOk result (((self.old.before ≡ None) × (self.new.before ≡ Some registry.now)) ⊎ ((s : Registry) × (self.old.before ≡ Some s) × (self.new.before ≡ Some s))) }
        ensures err { OnErr result (self.new ≡ self.old) }
    {
        if self.before.is_some() {
            return Ok(());
        }
        match registry.copy(alloc) {
            Ok(registry) => {
                self.before = Some(registry);
                Ok(())
            }
            Err(NoMemory) => Err(NoMemory),
        }
    }

    /// Commits the last group, and gives the replies; or the registry before the batch, where one of its
    /// groups had been committed when the device failed.
    fn finish<D: Disk + Drop>(
        self,
        alloc: Global,
        keeper: &mut Keeper<D, Watches<V>, V>,
    ) -> Result<Vec<Reply>, Option<Registry>>
        requires ready { IsReady D.Disk V.sizes V.version keeper.old self }
        requires first { self.first ≤ vec_len self.replies }
        ensures done { IfOk result (λ replies. IsFinished D.Disk V.sizes V.version keeper.old self keeper.new replies.items) }
        ensures cut { IfErr result (λ before. IsCutAtEnd D.Disk V.sizes V.version keeper.old self keeper.new before) }
        ensures keeper { UsesKeeper D.Disk V.sizes V.version 0 keeper.old keeper.new result }
    {
        let mut replies = self.replies;
        let group = self.group;
        if group.is_empty() {
            return Ok(replies);
        }
        let next = FiledRegistry::new(self.next.into_registry());
        match keeper.commit(alloc, &group, next) {
            Ok(()) => Ok(replies),
            Err(refusal) => match refusal {
                Refusal::NoMemory => {
                    refuse_from(&mut replies, self.first);
                    Ok(replies)
                }
                _ => Err(self.before),
            },
        }
    }
}

/// Answers a command: with this refusal, or as the registry has it.
fn answer(alloc: Global, next: &mut Draft, refusal: Option<Refusal>, command: &Command) -> Reply
    ensures refused { IfSome refusal (λ r. (result ≡ Reply.Refused r) × (next.new ≡ next.old)) }
    ensures asked { refusal ≡ None → ((result ≡ Reply.Refused no_memory) × (next.new ≡ next.old)) ⊎ ((result ≡ reply_to next.old command.now) × (next.new ≡ after_command next.old command.now)) }
{
    match refusal {
        Some(refusal) => Reply::Refused(refusal),
        None => next.apply(alloc, command),
    }
}

/// The reply in place of another, where memory ran out: `16`, but to a `Begin`.
fn refuse_for_memory(reply: Reply) -> Reply
    ensures { result ≡ refused_for_memory reply }
{
    match reply {
        Reply::Refused(Refusal::BadArguments) => reply,
        _ => Reply::Refused(Refusal::NoMemory),
    }
}

/// Turns the replies from a place on into `16 NoMemory`, but those to a `Begin`.
fn refuse_from(replies: &mut Vec<Reply>, first: usize)
    requires { first ≤ vec_len replies.old }
    ensures { replies.new.items ≡ take first replies.old.items ++ map refused_for_memory (drop first replies.old.items) }
{
    for reply in &mut replies[first..] {
        *reply = refuse_for_memory(*reply);
    }
}

/// Meets the commands of a batch that aren't answered yet, and gives the replies to all; or the registry
/// before the batch, where one of its groups had been committed when the device failed.
pub(crate) fn run<D: Disk + Drop, V: Filed>(
    alloc: Global,
    keeper: &mut Keeper<D, Watches<V>, V>,
    batch: Batch<V>,
    commands: Vec<Command>,
) -> Result<Vec<Reply>, Option<Registry>>
    requires kept { Keeps (watches_in V.sizes V.version) keeper.old }
    requires whole { has_failed keeper.old ≡ false }
    requires version { (state_of keeper.old).version ≡ V.version }
    requires idle { AreIdle (state_of keeper.old) commands.items batch.replies }
    requires new { IsNew (state_of keeper.old) batch.replies (length commands.items) batch }
    requires standing { D.honest (disk_of keeper.old) → LeavesOnly D.moment D.left_since (disk_of keeper.old) (disk_of keeper.old) (MeansPrefix (watches_in V.sizes V.version) (state_of keeper.old) []) }
    ensures done { IfOk result (λ replies. IsDone D.Disk V.sizes V.version keeper.old commands.items keeper.new replies.items) }
    ensures cut { IfErr result (λ before. IsCutBatch D.Disk V.sizes V.version keeper.old commands.items keeper.new before) }
    ensures keeper { UsesKeeper D.Disk V.sizes V.version (length commands.items) keeper.old keeper.new result }
{
    let mut batch = batch;
    let answered = batch.replies.len();
    for command in commands.into_iter().skip(answered) {
        let Ok(()) = batch.take(alloc, keeper, command) else {
            return Err(batch.before);
        };
    }
    batch.finish(alloc, keeper)
}
