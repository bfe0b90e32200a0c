//! A registry on a disk whose file has one version: it takes batches of commands, and is closed.
//! Definitions: Stored, Calls, Openings, Batches and Checkpoints of specs/.
//! Tests: file_tests/src/store.
ghost use Rattle.std.specs.Prelude.{◌≡◌, ◌⊎◌, ◌≤◌, ◌+◌, true, false, List, [], length, IfOk, IfErr, OnOk, OnErr, IsErrOf};
ghost use Rattle.wm_disk.specs.Calls.{EachLeft, LeavesAtAnyMoment};
ghost use Rattle.wm_disk.specs.Counters.{max_counter};
ghost use Rattle.wm_disk.specs.declared.refusal.Refusal.TheVariants.{DeviceFailed as device_failed, NoMemory as no_memory, Exhausted as exhausted, Damaged as damaged, Retired as retired, StoreFailed as store_failed};
ghost use Rattle.wm_checkpoint.specs.Kept.{disk_of, state_of, has_failed, slot_number_of, room_left, Keeps};
ghost use Rattle.wm_checkpoint.specs.Numbers.{IsNumberedTo};
ghost use Rattle.wm_registry.specs.Limits.{max_batch};
ghost use Rattle.wm_registry.specs.MachineLaws.{watches_in};
ghost use Rattle.wm_store.specs.Batches.{IsBatch, IsCommitted, accepted_of};
ghost use Rattle.wm_store.specs.Beginnings.{IsBegunFrom, IsUnbegun};
ghost use Rattle.wm_store.specs.Calls.{CallsForStore, CallsStore, IsWorking};
ghost use Rattle.wm_store.specs.Checkpoints.{IsMeantThroughout, IsCheckpointed};
ghost use Rattle.wm_store.specs.Takings.{IsFoundBy, TakesUp};
ghost use Rattle.wm_store.specs.Meant.{MeansRegistry};
ghost use Rattle.wm_store.specs.Stored.{IsStored};
ghost use Rattle.wm_registry.specs.Versions.{sizes_of};

use crate::batch::{Batch, run};
use crate::begin::begin_in;
use crate::idle::idle_replies;
use std::alloc::Global;
use std::marker::Model;
use wm_checkpoint::Keeper;
use wm_disk::{Disk, Refusal};
use wm_registry::{Command, Filed, Registry, Reply, Watches};

/// A registry, and the disk that means it. Contracts see it as a `Stored`.
#[derive(Drop)]
pub(crate) struct FiledStore<D: Disk + Drop, V: Filed> {
    pub(crate) keeper: Keeper<D, Watches<V>, V>,
    // the registry before a batch that failed, where a group of its commands had been committed
    before: Option<Registry>,
    closed: bool,
}

impl<D: Disk + Drop, V: Filed> Model for FiledStore<D, V> {
    ghost use Rattle.std.specs.Prelude.{◌≡◌, false, None};
    ghost use Rattle.std.specs.Option.{unwrap_or};
    ghost use Rattle.wm_checkpoint.specs.Kept.{disk_of, state_of, has_failed, slot_number_of, room_left, Keeps};
    ghost use Rattle.wm_registry.specs.MachineLaws.{watches_in};
    ghost use Rattle.wm_store.specs.Stored.{Stored, IsStored};

    ghost Value = { Stored D };

    ghost view = { λ s. record { disk = disk_of s.keeper; registry = unwrap_or s.before (state_of s.keeper); failed = has_failed s.keeper; closed = s.closed; number = slot_number_of s.keeper; room = room_left s.keeper } };

    ghost invariant = { λ s. Keeps (watches_in V.sizes V.version) s.keeper × (has_failed s.keeper ≡ false → s.before ≡ None)
        × IsStored D.Disk (record { disk = disk_of s.keeper; registry = unwrap_or s.before (state_of s.keeper); failed = has_failed s.keeper; closed = s.closed; number = slot_number_of s.keeper; room = room_left s.keeper }) };
}

impl<D: Disk + Drop, V: Filed> FiledStore<D, V> {
    /// The registry: after a call that failed, that before the call.
    pub(crate) fn registry(&self) -> &Registry
        ensures value { result.now ≡ self.now.registry }
        ensures stored { IsStored D.Disk self.now }
    {
        match &self.before {
            Some(registry) => registry,
            None => self.keeper.state().registry(),
        }
    }

    /// The disk.
    pub(crate) fn into_disk(self) -> D
        ensures value { result ≡ self.disk }
        ensures stored { IsStored D.Disk self }
    {
        self.keeper.into_disk()
    }

    /// Meets the commands in their order, and answers them when all that it accepted are durable: each as
    /// the registry has it, but a `Begin` is refused `3 BadArguments`, since opening alone begins an
    /// incarnation. `16 NoMemory` is the reply to a command for which memory ran out, to those
    /// behind one whose checkpoint found none, and to all of a group whose commit found none; `15 Exhausted`
    /// to all commands from the first on that needs a checkpoint where the slot's number stands at 2^63 - 1.
    /// The commands are written in groups, each as large as the journal's room; where the next one
    /// doesn't fit, the state goes into the other slot first. The registry is copied once a command is to
    /// be accepted, and not before. A batch of which none is accepted makes no call of the disk, unless a
    /// checkpoint came before a command without memory.
    ///
    /// `12 StoreFailed` where a call before was answered `13` or the store is closed, and `16 NoMemory`
    /// where there is no room for the replies or for a copy of the registry: no call of the disk, and
    /// nothing changed. `13 DeviceFailed` where the device failed: the registry is as it was, and the disk
    /// means that after a prefix of the commands that the batch accepts.
    pub(crate) fn commit_batch(
        &mut self,
        alloc: Global,
        commands: Vec<Command>,
    ) -> Result<Vec<Reply>, Refusal>
        requires { length commands.items ≤ max_batch }
        ensures committed { IfOk result (λ r. IsCommitted D.Disk self.old self.new commands.items r.items) }
        // What the batch accepts is in flight; the device fails only where that is something.
        ensures cut { IfErr result (λ e. self.old.failed ≡ false → (replies : List Reply) × IsBatch D.Disk self.old self.new commands.items replies × (e ≡ device_failed → accepted_of commands.items replies ≡ [] → ⊥)) }
        ensures unchanged { OnErr result (self.new.registry ≡ self.old.registry) }
        // No slot that stands open in what a crash may leave then has a greater number.
        ensures numbered { self.old.failed ≡ false → D.honest self.new.disk → EachLeft D.Disk self.new.disk (IsNumberedTo (sizes_of self.old.registry.version) (self.old.number + length commands.items)) }
        ensures number { (self.old.number ≤ self.new.number) × (self.new.number ≤ self.old.number + length commands.items) }
        ensures calls { CallsStore D.Disk self.old self.new result }
        ensures kinds { IfErr result (λ e. (e ≡ device_failed) ⊎ (e ≡ no_memory) ⊎ (e ≡ store_failed)) }
    {
        if self.closed || self.keeper.has_failed() {
            return Err(Refusal::StoreFailed);
        }
        let registry = self.keeper.state().registry();
        let Ok(replies) = idle_replies(alloc, registry, &commands) else {
            return Err(Refusal::NoMemory);
        };
        if replies.len() == commands.len() {
            return Ok(replies);
        }
        let Ok(batch) = Batch::new(alloc, registry, replies, commands.len()) else {
            return Err(Refusal::NoMemory);
        };
        match run(alloc, &mut self.keeper, batch, commands) {
            Ok(replies) => Ok(replies),
            Err(before) => {
                self.before = before;
                Err(Refusal::DeviceFailed)
            }
        }
    }

    /// Puts the registry into the other slot, with an empty journal. `12 StoreFailed` as in
    /// [`FiledStore::commit_batch`]; `15 Exhausted` where the slot's number is 2^63 - 1 or more and `16
    /// NoMemory` when out of memory, with no call of the disk and nothing changed; `13 DeviceFailed`
    /// where the device failed, and then the disk means the same registry.
    pub(crate) fn checkpoint(&mut self, alloc: Global) -> Result<(), Refusal>
        ensures checkpointed { OnOk result (IsCheckpointed D.Disk self.old self.new) }
        ensures number { OnErr result (self.new.number ≡ self.old.number) }
        ensures registry { self.new.registry ≡ self.old.registry }
        ensures throughout { self.old.failed ≡ false → IsMeantThroughout D.Disk self.old self.new }
        ensures exhausted { IsErrOf result exhausted → (max_counter ≤ self.old.number) × (self.new ≡ self.old) }
        ensures spent { self.old.failed ≡ false → self.old.closed ≡ false → max_counter ≤ self.old.number → IsErrOf result exhausted }
        ensures calls { CallsStore D.Disk self.old self.new result }
        ensures kinds { IfErr result (λ e. (e ≡ device_failed) ⊎ (e ≡ no_memory) ⊎ (e ≡ exhausted) ⊎ (e ≡ store_failed)) }
    {
        if self.closed {
            return Err(Refusal::StoreFailed);
        }
        self.keeper.checkpoint(alloc)
    }

    /// Makes all durable with a last sync; every later call is answered `12`. `12 StoreFailed` as in
    /// [`FiledStore::commit_batch`]; `13 DeviceFailed` where the sync failed, and then the disk means the same
    /// registry.
    pub(crate) fn close(&mut self) -> Result<(), Refusal>
        ensures closed { OnOk result (self.new.closed ≡ true) }
        ensures room { self.new.room ≡ self.old.room }
        ensures registry { (self.new.registry ≡ self.old.registry) × (self.new.number ≡ self.old.number) }
        ensures means { D.honest self.new.disk → OnOk result (EachLeft D.Disk self.new.disk (MeansRegistry self.new.registry)) }
        // A crash at any moment of the call leaves the registry.
        ensures any_moment { self.old.failed ≡ false → LeavesAtAnyMoment D.Disk self.old.disk self.new.disk (MeansRegistry self.old.registry) }
        ensures calls { CallsStore D.Disk self.old self.new result }
        ensures kinds { IfErr result (λ e. (e ≡ device_failed) ⊎ (e ≡ store_failed)) }
    {
        if self.closed {
            return Err(Refusal::StoreFailed);
        }
        match self.keeper.sync() {
            Ok(()) => {
                self.closed = true;
                Ok(())
            }
            Err(refusal) => Err(refusal),
        }
    }
}

/// Begins the next incarnation of a registry that was found.
fn begin<D: Disk + Drop, V: Filed>(
    alloc: Global,
    keeper: Keeper<D, Watches<V>, V>,
) -> Result<FiledStore<D, V>, (Refusal, D)>
    requires kept { Keeps (watches_in V.sizes V.version) keeper }
    requires whole { has_failed keeper ≡ false }
    ensures begun { IfOk result (λ s. IsBegunFrom D.Disk V.sizes V.version keeper s) }
    ensures works { IfOk result (λ s. IsWorking D.Disk s) }
    ensures unbegun { IfErr result (λ e. IsUnbegun D.Disk V.sizes V.version keeper e.0 e.1) }
    ensures calls { CallsForStore D.Disk (disk_of keeper) result }
    ensures kinds { IfErr result (λ e. (e.0 ≡ device_failed) ⊎ (e.0 ≡ no_memory) ⊎ (e.0 ≡ exhausted)) }
{
    let mut keeper = keeper;
    match begin_in(alloc, &mut keeper) {
        Ok(()) => Ok(FiledStore {
            keeper,
            before: None,
            closed: false,
        }),
        Err(refusal) => Err((refusal, keeper.into_disk())),
    }
}

/// Takes up the registry that a keeper found, and begins the next incarnation.
pub(crate) fn take_up<D: Disk + Drop, V: Filed>(
    alloc: Global,
    keeper: Keeper<D, Watches<V>, V>,
) -> Result<FiledStore<D, V>, (Refusal, D)>
    requires kept { Keeps (watches_in V.sizes V.version) keeper }
    requires whole { has_failed keeper ≡ false }
    ensures { (old : D) → IsFoundBy D.Disk V.sizes V.version old keeper → TakesUp D.Disk old result }
{
    begin(alloc, keeper)
}
