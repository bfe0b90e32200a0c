//! How the watched roots begin, as the registry has them.
//! Definitions: specs/BegunRoots.antt. Tests: serve_tests/src/restarts.rt.
ghost use Rattle.std.specs.Prelude.{IfOk};
ghost use Rattle.std.specs.Arc.{arc_value};
ghost use Rattle.wm_workers.specs.BegunRoots.{AreRootsBegun, IsRootBegun, root_id};

use super::server_roots::ServerRoots;
use super::table::RootRow;
use crate::desk::ServerDesk;
use std::alloc::Global;
use std::sync::{Arc, Wait};
use std::time::Clock;
use wm_disk::NoMemory;
use wm_names::RootPath;
use wm_registry::{Registry, Root, Trigger};
use wm_root::WatchedRoot;
use wm_share::Naming;

/// Defines the triggers of a root, one after the other, by the command of a number. `NoMemory`.
fn define_all<R: Wait, J: Naming, K: Wait + Drop>(
    rt: &R,
    root: &WatchedRoot<J, K>,
    number: u64,
    triggers: &[Trigger],
) -> Result<(), NoMemory> {
    for trigger in triggers {
        let trigger = trigger.copy()?;
        root.define(rt, number, trigger)?;
    }
    Ok(())
}

impl<T: ServerDesk, J: Naming, K: Wait + Clock + Copy + Drop> ServerRoots<T, J, K> {
    /// Has the roots of the registry at the start. `NoMemory`, and then the table is as it was.
    pub fn begin<R: Wait>(&self, rt: &R, alloc: Global) -> Result<(), NoMemory> {
        let copy = self.desk.registry(rt)?;
        let count = copy.count();
        let registry = copy.into_registry();
        let all = self.begun_rows(rt, alloc, &registry)?;
        self.state
            .lock(rt)
            .begin(all, registry.next_root(), registry.incarnation(), count);
        drop(registry);
        self.changed.notify_all();
        Ok(())
    }

    /// The roots of a registry, each in its row and with its triggers.
    fn begun_rows<R: Wait>(
        &self,
        rt: &R,
        alloc: Global,
        registry: &Registry,
    ) -> Result<Vec<RootRow<Arc<WatchedRoot<J, K>>>>, NoMemory>
        ensures { IfOk result (λ all. AreRootsBegun (λ root. root_id (arc_value root)) registry.now.incarnation registry.now.roots all.items) }
    {
        let mut all = Vec::new(alloc);
        for (path, root) in registry.roots().iter() {
            all.push(self.begun_row(rt, alloc, registry.incarnation(), 0, path, root)?)?;
        }
        Ok(all)
    }

    /// The row of a root of a registry, which is of the incarnation, with its triggers, by the command of a number. `NoMemory`.
    pub(super) fn begun_row<R: Wait>(
        &self,
        rt: &R,
        alloc: Global,
        incarnation: u64,
        number: u64,
        path: &RootPath,
        root: &Root,
    ) -> Result<RootRow<Arc<WatchedRoot<J, K>>>, NoMemory>
        ensures { IfOk result (IsRootBegun (λ root. root_id (arc_value root)) incarnation (path.now, root.now)) }
    {
        let watched = self.new_root(rt, alloc, path, incarnation, root.number)?;
        define_all(rt, &watched, number, root.triggers.as_slice())?;
        Ok(RootRow {
            path: path.copy(alloc)?,
            number: root.number,
            watched: Some(watched),
        })
    }
}
