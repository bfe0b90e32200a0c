//! Writes the changes of an operation for which room.rt made room; or, where there was too
//! little memory, takes that room back.
//! Definitions: specs/KnownPaths.antt. Tests: view_tests/src/views.
ghost use Rattle.std.specs.Prelude.{◌≡◌, ◌≤◌, ◌<◌, true, Some, None, ◌≢◌, IfSome};
ghost use Rattle.std.specs.FinMap.{find, put};
ghost use Rattle.wm_disk.specs.Counters.{max_counter};
ghost use Rattle.wm_names.specs.Paths.{path_cmp};
ghost use Rattle.wm_view.specs.Steps.{known_or};
ghost use Rattle.wm_view.specs.KnownPaths.{IsSound, HasChangeRoom, HaveRoom, KeepsChangeRoom, KeepsOtherRoom, AreAt, told, after_changes};

use crate::known::Known;
use crate::known_paths::{KnownPaths, unknown};
use std::collections::BTreeMap;
use wm_disk::MAX_COUNTER;
use wm_names::RelPath;

impl KnownPaths {
    /// Writes what is known of the path, for which there is room, and tells the tick of its last change before.
    fn write(&mut self, path: &RelPath, known: Known) -> u64
        requires sound { IsSound self.old }
        requires room { HasChangeRoom self.old known.last path.now known.exists }
        requires tick { (0 < known.last) × (known.last ≤ max_counter) }
        ensures value { told self.new ≡ put path_cmp path.now known (told self.old) }
        ensures sound { IsSound self.new }
        ensures kept { KeepsChangeRoom self.old self.new }
    {
        match self.known.get_mut(path) {
            Some(place) => {
                let last = place.last;
                *place = known;
                last
            }
            None => 0,
        }
    }

    /// Takes out of the gone a path, where it exists.
    fn drop_gone(&mut self, path: &RelPath, exists: bool)
        requires sound { IsSound self.old }
        requires there { exists ≡ true → IfSome (find path_cmp path.now (told self.old)) (λ x. x.exists ≡ true) }
        ensures same { told self.new ≡ told self.old }
        ensures sound { IsSound self.new }
        ensures kept { KeepsOtherRoom path.now self.old self.new }
    {
        if exists {
            self.gone.remove(path);
        }
    }

    /// Takes out a place that isn't that of the path's last change.
    fn drop_place(&mut self, last: u64, path: RelPath)
        requires sound { IsSound self.old }
        requires tick { last ≤ max_counter }
        requires other { IfSome (find path_cmp path (told self.old)) (λ x. x.last ≢ last) }
        ensures same { told self.new ≡ told self.old }
        ensures sound { IsSound self.new }
        ensures kept { KeepsOtherRoom path self.old self.new }
    {
        self.order.remove(&(MAX_COUNTER - last, path));
    }

    /// Takes out a path that has room only.
    fn drop_entry(&mut self, path: &RelPath)
        requires sound { IsSound self.old }
        requires room { find path_cmp path.now (told self.old) ≡ None }
        ensures same { told self.new ≡ told self.old }
        ensures sound { IsSound self.new }
    {
        self.known.remove(path);
    }

    fn settle_one(&mut self, path: RelPath, known: Known)
        requires sound { IsSound self.old }
        requires room { HasChangeRoom self.old known.last path known.exists }
        requires tick { (0 < known.last) × (known.last ≤ max_counter) }
        ensures value { told self.new ≡ put path_cmp path known (told self.old) }
        ensures sound { IsSound self.new }
        ensures kept { KeepsOtherRoom path self.old self.new }
    {
        let last = self.write(&path, known);
        self.drop_gone(&path, known.exists);
        if last < known.last {
            self.drop_place(last, path);
        }
    }

    pub(super) fn settle(&mut self, tick: u64, changes: BTreeMap<RelPath, Known>)
        requires sound { IsSound self.old }
        requires room { HaveRoom self.old tick changes.entries }
        requires at { AreAt tick changes.entries }
        requires tick { (0 < tick) × (tick ≤ max_counter) }
        ensures value { told self.new ≡ after_changes (told self.old) changes.entries }
        ensures sound { IsSound self.new }
    {
        for (path, known) in changes {
            self.settle_one(path, known);
        }
    }

    fn take_back_one(&mut self, tick: u64, path: RelPath)
        requires sound { IsSound self.old }
        requires tick { (0 < tick) × (tick ≤ max_counter) }
        ensures same { told self.new ≡ told self.old }
        ensures sound { IsSound self.new }
    {
        let known = self.known_or(&path);
        self.drop_gone(&path, known.exists);
        if known.last == 0 {
            self.drop_entry(&path);
        }
        if known.last < tick {
            self.drop_place(tick, path);
        }
    }

    pub(super) fn take_back(&mut self, tick: u64, changes: BTreeMap<RelPath, Known>)
        requires sound { IsSound self.old }
        requires tick { (0 < tick) × (tick ≤ max_counter) }
        ensures same { told self.new ≡ told self.old }
        ensures sound { IsSound self.new }
    {
        for (path, _) in changes {
            self.take_back_one(tick, path);
        }
    }
}
