//! A client as the world has it: what it holds, and the one answer on its way to it.
//! Definitions: specs/Steps.antt, specs/Worlds.antt. Tests: session_tests/src/world/clients.rt.
ghost use Rattle.std.specs.Prelude.{◌≡◌, OnOk, is_some, map};
ghost use Rattle.wm_world.specs.Worlds.{without_answer};
ghost use Rattle.wm_world.specs.Steps.{receiving};
ghost use Rattle.wm_world.specs.Refinement.{asking_by};

use crate::views::view_at;
use std::alloc::Global;
use wm_disk::{NoMemory, Refusal};
use wm_expr::Expr;
use wm_registry::Registry;
use wm_since::{Answer, Mirror, answer};
use wm_view::View;

/// A client, and the answer on its way to it.
#[derive(Drop)]
pub struct Connection {
    /// The client's list, and whether its question is open.
    pub mirror: Mirror<Expr>,
    /// The answer to the open question.
    pub answer: Option<Answer>,
}

/// Asks what changed since the client's last answer, where no question is open.
pub(crate) fn ask(
    alloc: Global,
    registry: &Registry,
    views: &[View],
    client: &mut Connection,
) -> Result<(), NoMemory>
    ensures { OnOk result (client.new ≡ asking_by registry.now views.now client.old) }
{
    if client.mirror.open() {
        return Ok(());
    }
    let Some(view) = view_at(registry, views, client.mirror.root()) else {
        return Ok(());
    };
    let query = client.mirror.ask(alloc)?;
    match answer(alloc, view, &query) {
        Ok(answer) => {
            client.answer = Some(answer);
            Ok(())
        }
        Err(Refusal::NoMemory) => Err(NoMemory),
        Err(_) => {
            client.mirror.lost();
            Ok(())
        }
    }
}

/// Takes the answer on its way, where there is one.
pub(crate) fn receive(alloc: Global, client: &mut Connection) -> Result<(), NoMemory>
    ensures { OnOk result (client.old.mirror.asked ≡ is_some client.old.answer → client.new ≡ receiving client.old) }
{
    let Some(answer) = &client.answer else {
        return Ok(());
    };
    match client.mirror.apply(alloc, answer) {
        Ok(()) => {
            client.answer = None;
            Ok(())
        }
        Err(Refusal::NoMemory) => Err(NoMemory),
        Err(_) => Ok(()),
    }
}

/// The answer on its way is lost, and the question is closed.
pub(crate) fn lose(client: &mut Connection)
    ensures { client.new ≡ without_answer client.old }
{
    client.mirror.lost();
    client.answer = None;
}

/// Each answer on its way is lost.
pub(crate) fn lose_all(clients: &mut Vec<Connection>)
    ensures { clients.new.items ≡ map without_answer clients.old.items }
{
    for client in clients.iter_mut() {
        lose(client);
    }
}
