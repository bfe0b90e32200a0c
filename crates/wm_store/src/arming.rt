//! Plans failures of a store's disk, for tests and for the world.
//! Tests: file_tests/src/store/cuts.rt.
ghost use Rattle.std.specs.Prelude.{◌≡◌, Some};
ghost use Rattle.wm_disk.specs.Calls.{OnlyReads};

use crate::filed_store::FiledStore;
use crate::store::{KeptStore, Store};
use wm_disk::{Crashed, Disk};
use wm_registry::Filed;

impl<D: Crashed + Drop, V: Filed> FiledStore<D, V> {
    /// So many calls of the disk pass, and then each call fails and has no effect.
    pub(crate) fn arm(&mut self, calls: u64)
        ensures registry { (self.new.registry ≡ self.old.registry) × (self.new.number ≡ self.old.number) }
        ensures room { self.new.room ≡ self.old.room }
        ensures up { (self.new.failed ≡ self.old.failed) × (self.new.closed ≡ self.old.closed) }
        ensures plan { D.plan self.new.disk ≡ Some calls }
        ensures reads { D.honest self.new.disk → OnlyReads D.Disk self.old.disk self.new.disk }
        ensures honest { D.honest self.new.disk → D.honest self.old.disk }
        ensures count { D.failures self.new.disk ≡ D.failures self.old.disk }
    {
        self.keeper.arm(calls);
    }
}

impl<D: Crashed + Drop> Store<D> {
    /// So many calls of the disk pass, and then each call fails and has no effect.
    pub fn arm(&mut self, calls: u64)
        ensures registry { (self.new.registry ≡ self.old.registry) × (self.new.number ≡ self.old.number) }
        ensures room { self.new.room ≡ self.old.room }
        ensures up { (self.new.failed ≡ self.old.failed) × (self.new.closed ≡ self.old.closed) }
        ensures plan { D.plan self.new.disk ≡ Some calls }
        ensures reads { D.honest self.new.disk → OnlyReads D.Disk self.old.disk self.new.disk }
        ensures honest { D.honest self.new.disk → D.honest self.old.disk }
        ensures count { D.failures self.new.disk ≡ D.failures self.old.disk }
    {
        match &mut self.kept {
            KeptStore::One(store) => store.arm(calls),
            KeptStore::Two(store) => store.arm(calls),
        }
    }
}
