//! A copy of a registry on which the commands of a batch are tried, one after another.
//! Definitions: specs/Registry.antt, specs/Roots.antt. Tests: registry_tests/src/drafts.rt.
ghost use Rattle.std.specs.Prelude.{◌≡◌, ◌≢◌, ◌≤◌, ◌+◌, true, length, IfOk};
ghost use Rattle.std.specs.Bool.{OnTrue, OnFalse};
ghost use Rattle.wm_registry.specs.declared.command.Command.TheVariants as commands;
ghost use Rattle.wm_registry.specs.Registry.{after_command, is_change, reply_to};
ghost use Rattle.wm_registry.specs.Roots.{without_first};
ghost use Rattle.wm_registry.specs.Spelling.{IsState, state_spelling};

use crate::command::Command;
use crate::registry::Registry;
use crate::reply::Reply;
use crate::root;
use std::alloc::Global;
use std::marker::Model;
use wm_disk::{NoMemory, Refusal};
use wm_names::RootPath;

/// A registry under commands that are tried one after another. Roots that go from the front one after
/// another are taken out together, since each that goes alone moves all behind it. Contracts see the
/// registry.
#[derive(Drop)]
pub struct Draft {
    registry: Registry,
    // how many of its first roots are gone, and how many bytes the spelling has less without them
    gone: usize,
    less: u64,
}

impl Model for Draft {
    ghost use Rattle.std.specs.Prelude.{◌≡◌, ◌≤◌, ◌+◌, length};
    ghost use Rattle.wm_registry.specs.Roots.{State, without_first};
    ghost use Rattle.wm_registry.specs.Spelling.{IsState, state_spelling};

    ghost Value = { State };

    ghost view = { λ d. without_first d.gone d.registry };

    ghost invariant = { λ d. (d.gone ≤ length d.registry.roots) × IsState (without_first d.gone d.registry) × (d.less + length (state_spelling (without_first d.gone d.registry)) ≡ length (state_spelling d.registry)) };
}

/// Takes the roots that are gone out of the registry.
fn remove_gone(registry: &mut Registry, gone: &mut usize, less: &mut u64)
    requires within { gone.old ≤ length registry.old.roots }
    requires state { IsState (without_first gone.old registry.old) }
    requires size { less.old + length (state_spelling (without_first gone.old registry.old)) ≡ length (state_spelling registry.old) }
    ensures registry { registry.new ≡ without_first gone.old registry.old }
    ensures gone { gone.new ≡ 0 }
    ensures less { less.new ≡ 0 }
{
    if *gone > 0 {
        registry.remove_prefix(*gone, *less);
    }
    *gone = 0;
    *less = 0;
}

impl Draft {
    ghost use Rattle.wm_registry.specs.Roots.{without_root};

    /// A draft of this registry. `NoMemory` where its copy finds no room.
    pub fn new(alloc: Global, registry: &Registry) -> Result<Draft, NoMemory>
        ensures { IfOk result (λ d. d ≡ registry.now) }
    {
        let registry = registry.copy(alloc)?;
        Ok(Draft {
            registry,
            gone: 0,
            less: 0,
        })
    }

    /// Takes the first root out, where it is at the path, and tells whether it did.
    fn removes_first(&mut self, path: &RootPath) -> bool
        ensures did { OnTrue result ((reply_to self.old (commands.WatchDel path.now) ≡ Reply.Changed) × (self.new ≡ after_command self.old (commands.WatchDel path.now))) }
        ensures not { OnFalse result (self.new ≡ self.old) }
    {
        // the size tells the proof that the registry is within its limits
        let _size = self.registry.size();
        let Some((first, root)) = self.registry.roots().get_index(self.gone) else {
            return false;
        };
        if path != first {
            return false;
        }
        self.less += root::root_size(self.registry.version(), path, root);
        self.gone += 1;
        true
    }

    /// As [`Registry::apply`].
    pub fn apply(&mut self, alloc: Global, command: &Command) -> Reply
        ensures reply { result ≢ Reply.Refused Refusal.NoMemory → result ≡ reply_to self.old command.now }
        ensures state { result ≢ Reply.Refused Refusal.NoMemory → self.new ≡ after_command self.old command.now }
        ensures memory { result ≡ Reply.Refused Refusal.NoMemory → self.new ≡ self.old }
        ensures asked { result ≡ Reply.Refused Refusal.NoMemory → is_change (reply_to self.old command.now) ≡ true }
    {
        if let Command::WatchDel(path) = command {
            if self.removes_first(path) {
                return Reply::Changed;
            }
        }
        remove_gone(&mut self.registry, &mut self.gone, &mut self.less);
        let reply = self.registry.apply(alloc, command);
        // the size tells the proof that the new state is within its limits
        let _size = self.registry.size();
        reply
    }

    /// As [`Registry::reply_to`].
    pub fn reply_to(&mut self, command: &Command) -> Reply
        ensures reply { result ≡ reply_to self.old command.now }
        ensures same { self.new ≡ self.old }
    {
        remove_gone(&mut self.registry, &mut self.gone, &mut self.less);
        self.registry.reply_to(command)
    }

    /// The registry so far. `NoMemory` where its copy finds no room.
    pub fn copy(&self, alloc: Global) -> Result<Registry, NoMemory>
        ensures { IfOk result (λ r. r ≡ self.now) }
    {
        let mut copy = self.registry.copy(alloc)?;
        let (mut gone, mut less) = (self.gone, self.less);
        remove_gone(&mut copy, &mut gone, &mut less);
        Ok(copy)
    }

    /// The registry.
    pub fn into_registry(self) -> Registry
        ensures { result ≡ self }
    {
        let mut draft = self;
        remove_gone(&mut draft.registry, &mut draft.gone, &mut draft.less);
        draft.registry
    }
}
