//! Answers the first commands of a batch, as long as the registry accepts none: it isn't copied for them.
//! Definitions: specs/Batches.antt, specs/UnderWay.antt. Tests: file_tests/src/store/calls.rt.
ghost use Rattle.std.specs.Prelude.{◌≡◌, IfOk};
ghost use Rattle.wm_store.specs.Batches.{in_batch};
ghost use Rattle.wm_store.specs.UnderWay.{AreIdle};

use std::alloc::Global;
use wm_disk::{NoMemory, Refusal};
use wm_registry::{Command, Registry, Reply};

/// How a command of a batch is answered where no other one was accepted before it.
fn reply_in_batch(registry: &Registry, command: &Command) -> Reply
    ensures { result ≡ in_batch registry.now command.now }
{
    match command {
        Command::Begin => Reply::Refused(Refusal::BadArguments),
        _ => registry.reply_to(command),
    }
}

/// The replies to the first commands of a batch, up to the first one that the registry accepts, with room
/// for those to the others.
pub(crate) fn idle_replies(
    alloc: Global,
    registry: &Registry,
    commands: &[Command],
) -> Result<Vec<Reply>, NoMemory>
    ensures { IfOk result (AreIdle registry.now commands.now) }
{
    let mut replies = Vec::with_capacity(alloc, commands.len())?;
    for command in commands {
        let reply = reply_in_batch(registry, command);
        if reply.is_change() {
            return Ok(replies);
        }
        replies.push_reserved(reply);
    }
    Ok(replies)
}
