//! Makes room for all changes of an operation before the first is written, so that writing them
//! (settling.rt) takes no memory and can't fail.
//! Definitions: specs/KnownPaths.antt. Tests: view_tests/src/views.
ghost use Rattle.std.specs.Prelude.{◌≡◌, ◌≤◌, ◌<◌, OnOk, is_some, true};
ghost use Rattle.std.specs.BTreeMap.{get};
ghost use Rattle.wm_disk.specs.Counters.{max_counter};
ghost use Rattle.wm_names.specs.Paths.{path_cmp};
ghost use Rattle.wm_view.specs.KnownPaths.{IsSound, HasChangeRoom, HaveRoom, KeepsChangeRoom, IsPlaced, IsAmongGone, told};

use crate::known::Known;
use crate::known_paths::{KnownPaths, unknown};
use std::alloc::Global;
use std::collections::BTreeMap;
use wm_disk::{MAX_COUNTER, NoMemory};
use wm_names::RelPath;

impl KnownPaths {
    /// Room for what is known of the path.
    fn add_entry(&mut self, alloc: Global, path: &RelPath) -> Result<(), NoMemory>
        requires { IsSound self.old }
        ensures same { told self.new ≡ told self.old }
        ensures sound { IsSound self.new }
        ensures kept { KeepsChangeRoom self.old self.new }
        ensures room { OnOk result (is_some (get path_cmp self.new.known path.now) ≡ true) }
    {
        if self.known.contains_key(path) {
            return Ok(());
        }
        let path = path.copy()?;
        self.known.insert(path, unknown())?;
        Ok(())
    }

    /// Room for the path's place at the tick.
    fn add_place(&mut self, alloc: Global, tick: u64, path: &RelPath) -> Result<(), NoMemory>
        requires sound { IsSound self.old }
        requires tick { tick ≤ max_counter }
        ensures same { told self.new ≡ told self.old }
        ensures sound { IsSound self.new }
        ensures kept { KeepsChangeRoom self.old self.new }
        ensures entries { self.new.known ≡ self.old.known }
        ensures room { OnOk result (IsPlaced self.new tick path.now) }
    {
        let path = path.copy()?;
        self.order.insert((MAX_COUNTER - tick, path))?;
        Ok(())
    }

    /// Room for the path among those that are gone.
    fn add_gone(&mut self, alloc: Global, path: &RelPath) -> Result<(), NoMemory>
        requires { IsSound self.old }
        ensures same { told self.new ≡ told self.old }
        ensures sound { IsSound self.new }
        ensures kept { KeepsChangeRoom self.old self.new }
        ensures entries { self.new.known ≡ self.old.known }
        ensures places { self.new.order ≡ self.old.order }
        ensures room { OnOk result (IsAmongGone self.new path.now) }
    {
        let path = path.copy()?;
        self.gone.insert(path)?;
        Ok(())
    }

    /// Room for a change of the path at the tick.
    fn make_room_for(
        &mut self,
        alloc: Global,
        tick: u64,
        path: &RelPath,
        exists: bool,
    ) -> Result<(), NoMemory>
        requires sound { IsSound self.old }
        requires tick { tick ≤ max_counter }
        ensures same { told self.new ≡ told self.old }
        ensures sound { IsSound self.new }
        ensures kept { KeepsChangeRoom self.old self.new }
        ensures room { OnOk result (HasChangeRoom self.new tick path.now exists) }
    {
        self.add_entry(alloc, path)?;
        self.add_place(alloc, tick, path)?;
        if !exists {
            self.add_gone(alloc, path)?;
        }
        Ok(())
    }

    pub(super) fn make_room(
        &mut self,
        alloc: Global,
        tick: u64,
        changes: &BTreeMap<RelPath, Known>,
    ) -> Result<(), NoMemory>
        requires sound { IsSound self.old }
        requires tick { tick ≤ max_counter }
        ensures same { told self.new ≡ told self.old }
        ensures sound { IsSound self.new }
        ensures room { OnOk result (HaveRoom self.new tick changes.now.entries) }
    {
        for (path, known) in changes {
            self.make_room_for(alloc, tick, path, known.exists)?;
        }
        Ok(())
    }
}
