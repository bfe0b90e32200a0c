//! The registry as the state that a keeper keeps in a file of each version: wm_checkpoint applies and copies it
//! by this.
//! Definitions: specs/MachineLaws.antt. Tests: registry_tests/src/registries.rt.
ghost use Rattle.wm_registry.specs.Registry.{after_command, changes as changes_lem, reply_to};
ghost use Rattle.wm_registry.specs.Versions.{max_state_bytes};
ghost use Rattle.wm_registry.specs.MachineLaws.{alive_registry, idle_registry, small_registry};

use crate::command::FiledCommand;
use crate::reply::Reply;
use crate::version::Filed;
use crate::wire::FiledRegistry;
use std::alloc::Global;
use std::marker::PhantomData;
use wm_checkpoint::Machine;
use wm_disk::{NoMemory, Refusal};

/// The watches in a file of this version.
pub struct Watches<V: Filed> {
    file: PhantomData<V>,
}

impl<V: Filed> Machine for Watches<V> {
    type State = FiledRegistry<V>;

    type Command = FiledCommand<V>;

    type Reply = Reply;

    ghost after = { after_command };

    ghost changes = { changes_lem };

    ghost reply = { reply_to };

    ghost longest = { max_state_bytes V.version };

    fn apply(
        alloc: Global,
        state: &mut FiledRegistry<V>,
        command: &FiledCommand<V>,
    ) -> Result<(Reply, bool), NoMemory> {
        match state.registry.apply(alloc, command.command()) {
            Reply::Refused(Refusal::NoMemory) => Err(NoMemory),
            reply => Ok((reply, reply.is_change())),
        }
    }

    fn copy(alloc: Global, state: &FiledRegistry<V>) -> Result<FiledRegistry<V>, NoMemory> {
        let registry = state.registry.copy(alloc)?;
        Ok(FiledRegistry::new(registry))
    }

    ghost idle = { idle_registry };

    ghost alive = { alive_registry V.version };

    ghost small = { small_registry V.version };
}
