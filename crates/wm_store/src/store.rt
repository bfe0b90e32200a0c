//! A registry on a disk: it is opened, takes batches of commands, and is closed. The version of its file is the registry's.
//! Definitions: Stored, Meant, Calls, Openings, Batches and Checkpoints of specs/.
//! Tests: file_tests/src/store.
ghost use Rattle.std.specs.Prelude.{◌≡◌, ◌⊎◌, ◌≤◌, ◌+◌, true, false, List, [], length, IfOk, IfErr, OnOk, OnErr, IsErrOf};
ghost use Rattle.wm_disk.specs.Calls.{EachLeft, LeavesAtAnyMoment};
ghost use Rattle.wm_disk.specs.Counters.{max_counter};
ghost use Rattle.wm_disk.specs.declared.refusal.Refusal.TheVariants.{DeviceFailed as device_failed, NoMemory as no_memory, Exhausted as exhausted, Damaged as damaged, Retired as retired, StoreFailed as store_failed};
ghost use Rattle.wm_checkpoint.specs.Numbers.{IsNumberedTo};
ghost use Rattle.wm_registry.specs.Limits.{max_batch};
ghost use Rattle.wm_store.specs.Batches.{IsBatch, IsCommitted, accepted_of};
ghost use Rattle.wm_store.specs.Calls.{CallsForStore, CallsStore, IsWorking};
ghost use Rattle.wm_store.specs.Checkpoints.{IsMeantThroughout, IsCheckpointed};
ghost use Rattle.wm_store.specs.Openings.{IsBegun, IsLeftBy, IsRefusedFor};
ghost use Rattle.wm_store.specs.Meant.{MeansRegistry};
ghost use Rattle.wm_store.specs.Stored.{IsStored};
ghost use Rattle.wm_registry.specs.Versions.{sizes_of};

use crate::filed_store::{FiledStore, take_up};
use std::alloc::Global;
use std::marker::Model;
use wm_checkpoint::{EitherKeeper, Version1, Version2};
use wm_disk::{Disk, Refusal};
use wm_registry::{Command, Registry, Reply, Version, Watches};

/// A registry, and the disk that means it. Contracts see it as a `Stored`.
#[derive(Drop)]
pub struct Store<D: Disk + Drop> {
    pub(crate) kept: KeptStore<D>,
}

/// A store by the version of its file.
#[derive(Drop)]
pub(crate) enum KeptStore<D: Disk + Drop> {
    One(FiledStore<D, Version1>),
    Two(FiledStore<D, Version2>),
}

impl<D: Disk + Drop> Model for Store<D> {
    ghost use Rattle.wm_store.specs.KeptStores.{stored_in};
    ghost use Rattle.wm_store.specs.Stored.{Stored};

    ghost Value = { Stored D };

    ghost view = { λ s. stored_in s.kept };
}

impl<D: Disk + Drop> Store<D> {
    /// Takes up the registry that the disk means, and begins the next incarnation, which is durable before
    /// the answer. A refusal hands the disk back: `14 Damaged` where it means no registry and `20 Retired`
    /// where its file is retired, with nothing written; `15 Exhausted` where the incarnation stands at
    /// 2^63 - 1, or the slot's number where the `Begin` needs a checkpoint; `13 DeviceFailed` where the
    /// device failed; `16 NoMemory` when out of memory. After `15` and `16` the disk means the registry
    /// that it meant, and after `13` that, or that with one more `Begin`, once its first sync succeeded.
    pub fn open(alloc: Global, disk: D) -> Result<Store<D>, (Refusal, D)>
        ensures begun { IfOk result (λ s. D.honest s.disk → IsBegun D.Disk disk s) }
        ensures works { IfOk result (λ s. IsWorking D.Disk s) }
        ensures why { IfErr result (λ e. D.honest e.1 → IsRefusedFor D.Disk disk e.1 e.0) }
        ensures left { IfErr result (λ e. D.honest e.1 → IsLeftBy D.Disk disk e.1 e.0) }
        ensures calls { CallsForStore D.Disk disk result }
        ensures kinds { IfErr result (λ e. (e.0 ≡ device_failed) ⊎ (e.0 ≡ no_memory) ⊎ (e.0 ≡ exhausted) ⊎ (e.0 ≡ damaged) ⊎ (e.0 ≡ retired)) }
    {
        match EitherKeeper::<D, Watches<Version1>, Watches<Version2>>::open(alloc, disk) {
            Ok(EitherKeeper::One(keeper)) => match take_up(alloc, keeper) {
                Ok(store) => Ok(Store {
                    kept: KeptStore::One(store),
                }),
                Err(e) => Err(e),
            },
            Ok(EitherKeeper::Two(keeper)) => match take_up(alloc, keeper) {
                Ok(store) => Ok(Store {
                    kept: KeptStore::Two(store),
                }),
                Err(e) => Err(e),
            },
            Err((refusal, disk)) => Err((refusal, disk)),
        }
    }

    /// The registry: after a call that failed, that before the call.
    pub fn registry(&self) -> &Registry
        ensures value { result.now ≡ self.now.registry }
        ensures stored { IsStored D.Disk self.now }
    {
        match &self.kept {
            KeptStore::One(store) => store.registry(),
            KeptStore::Two(store) => store.registry(),
        }
    }

    /// The version of its file, which no call changes.
    pub fn version(&self) -> Version
        ensures value { result ≡ self.now.registry.version }
        ensures stored { IsStored D.Disk self.now }
    {
        self.registry().version()
    }

    /// The disk.
    pub fn into_disk(self) -> D
        ensures value { result ≡ self.disk }
        ensures stored { IsStored D.Disk self }
    {
        match self.kept {
            KeptStore::One(store) => store.into_disk(),
            KeptStore::Two(store) => store.into_disk(),
        }
    }

    /// Meets the commands in their order, and answers them when all that it accepted are durable: each as
    /// the registry has it, but a `Begin` is refused `3 BadArguments`, since opening alone begins an
    /// incarnation. `16 NoMemory` is the reply to a command for which memory ran out, to those
    /// behind one whose checkpoint found none, and to all of a group whose commit found none; `15 Exhausted`
    /// to all commands from the first on that needs a checkpoint where the slot's number stands at 2^63 - 1.
    /// The commands are written in groups, each as large as the journal's room; where the next one
    /// doesn't fit, the state goes into the other slot first. The registry is copied once a command is to
    /// be accepted, and not before. A batch of which none is accepted makes no call of the disk, unless a
    /// checkpoint came before a command without memory.
    ///
    /// `12 StoreFailed` where a call before was answered `13` or the store is closed, and `16 NoMemory`
    /// where there is no room for the replies or for a copy of the registry: no call of the disk, and
    /// nothing changed. `13 DeviceFailed` where the device failed: the registry is as it was, and the disk
    /// means that after a prefix of the commands that the batch accepts.
    pub fn commit_batch(
        &mut self,
        alloc: Global,
        commands: Vec<Command>,
    ) -> Result<Vec<Reply>, Refusal>
        requires { length commands.items ≤ max_batch }
        ensures committed { IfOk result (λ r. IsCommitted D.Disk self.old self.new commands.items r.items) }
        // What the batch accepts is in flight; the device fails only where that is something.
        ensures cut { IfErr result (λ e. self.old.failed ≡ false → (replies : List Reply) × IsBatch D.Disk self.old self.new commands.items replies × (e ≡ device_failed → accepted_of commands.items replies ≡ [] → ⊥)) }
        ensures unchanged { OnErr result (self.new.registry ≡ self.old.registry) }
        // No slot that stands open in what a crash may leave then has a greater number.
        ensures numbered { self.old.failed ≡ false → D.honest self.new.disk → EachLeft D.Disk self.new.disk (IsNumberedTo (sizes_of self.old.registry.version) (self.old.number + length commands.items)) }
        ensures number { (self.old.number ≤ self.new.number) × (self.new.number ≤ self.old.number + length commands.items) }
        ensures calls { CallsStore D.Disk self.old self.new result }
        ensures kinds { IfErr result (λ e. (e ≡ device_failed) ⊎ (e ≡ no_memory) ⊎ (e ≡ store_failed)) }
    {
        match &mut self.kept {
            KeptStore::One(store) => store.commit_batch(alloc, commands),
            KeptStore::Two(store) => store.commit_batch(alloc, commands),
        }
    }

    /// Puts the registry into the other slot, with an empty journal. `12 StoreFailed` as in
    /// [`Store::commit_batch`]; `15 Exhausted` where the slot's number is 2^63 - 1 or more and `16
    /// NoMemory` when out of memory, with no call of the disk and nothing changed; `13 DeviceFailed`
    /// where the device failed, and then the disk means the same registry.
    pub fn checkpoint(&mut self, alloc: Global) -> Result<(), Refusal>
        ensures checkpointed { OnOk result (IsCheckpointed D.Disk self.old self.new) }
        ensures number { OnErr result (self.new.number ≡ self.old.number) }
        ensures registry { self.new.registry ≡ self.old.registry }
        ensures throughout { self.old.failed ≡ false → IsMeantThroughout D.Disk self.old self.new }
        ensures exhausted { IsErrOf result exhausted → (max_counter ≤ self.old.number) × (self.new ≡ self.old) }
        ensures spent { self.old.failed ≡ false → self.old.closed ≡ false → max_counter ≤ self.old.number → IsErrOf result exhausted }
        ensures calls { CallsStore D.Disk self.old self.new result }
        ensures kinds { IfErr result (λ e. (e ≡ device_failed) ⊎ (e ≡ no_memory) ⊎ (e ≡ exhausted) ⊎ (e ≡ store_failed)) }
    {
        match &mut self.kept {
            KeptStore::One(store) => store.checkpoint(alloc),
            KeptStore::Two(store) => store.checkpoint(alloc),
        }
    }

    /// Makes all durable with a last sync; every later call is answered `12`. `12 StoreFailed` as in
    /// [`Store::commit_batch`]; `13 DeviceFailed` where the sync failed, and then the disk means the same
    /// registry.
    pub fn close(&mut self) -> Result<(), Refusal>
        ensures closed { OnOk result (self.new.closed ≡ true) }
        ensures room { self.new.room ≡ self.old.room }
        ensures registry { (self.new.registry ≡ self.old.registry) × (self.new.number ≡ self.old.number) }
        ensures means { D.honest self.new.disk → OnOk result (EachLeft D.Disk self.new.disk (MeansRegistry self.new.registry)) }
        // A crash at any moment of the call leaves the registry.
        ensures any_moment { self.old.failed ≡ false → LeavesAtAnyMoment D.Disk self.old.disk self.new.disk (MeansRegistry self.old.registry) }
        ensures calls { CallsStore D.Disk self.old self.new result }
        ensures kinds { IfErr result (λ e. (e ≡ device_failed) ⊎ (e ≡ store_failed)) }
    {
        match &mut self.kept {
            KeptStore::One(store) => store.close(),
            KeptStore::Two(store) => store.close(),
        }
    }
}
