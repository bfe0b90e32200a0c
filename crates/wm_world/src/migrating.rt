//! Migrates the state file of a world into the disk beside it, and plans the failures of that disk.
//! Definitions: specs/Steps.antt, specs/Passes.antt. Tests: session_tests/src/world/two_files.rt.
ghost use Rattle.std.specs.Prelude.{◌≡◌, IfOk};
ghost use Rattle.wm_world.specs.Steps.{migrated};
ghost use Rattle.wm_world.specs.Refinement.{Simulates};
ghost use Rattle.wm_world.specs.Passes.{MigratesIfFit, OtherArmed};

use crate::other::Other;
use crate::starting;
use crate::world::{Server, World};
use std::alloc::Global;
use wm_disk::{Crashed, NoMemory};
use wm_registry::every_registry;
use wm_store::{every_file, migrate};

impl<D: Crashed + Drop> World<D> {
    /// The state file is migrated into the disk beside it, while the server is down and there is a disk into
    /// which it may be.
    pub(crate) fn migrate(self, alloc: Global) -> Result<World<D>, NoMemory>
        ensures { IfOk result (Simulates D.Disk migrated (MigratesIfFit D.Disk) self) }
    {
        let World { server, shown } = self;
        let (mut old, other) = match server {
            Server::Up(store, other) => return Ok(World {
                server: Server::Up(store, other),
                shown,
            }),
            Server::Down(disk, other) => (disk, other),
        };
        let mut new = match other {
            Other::Nothing => return Ok(World {
                server: Server::Down(old, Other::Nothing),
                shown,
            }),
            Other::Old(disk) => return Ok(World {
                server: Server::Down(old, Other::Old(disk)),
                shown,
            }),
            Other::New(disk) => disk,
        };
        every_file();
        every_registry();
        match migrate(alloc, &mut old, &mut new) {
            Ok(()) => Ok(World {
                server: Server::Down(new, Other::Old(old)),
                shown,
            }),
            Err(refusal) => {
                starting::unless_memory(refusal)?;
                Ok(World {
                    server: Server::Down(old, Other::New(new)),
                    shown,
                })
            }
        }
    }

    /// So many calls of the disk that isn't in use pass, and then each fails.
    pub(crate) fn arm_other(&mut self, calls: u64)
        ensures { Simulates D.Disk (λ w v. v ≡ w) (OtherArmed D.Disk D.plan calls) self.old self.new }
    {
        match &mut self.server {
            Server::Up(_store, other) => other.arm(calls),
            Server::Down(_disk, other) => other.arm(calls),
        }
    }
}
