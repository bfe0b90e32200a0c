//! Makes the change that a command asks for, where meeting.rt would accept it.
//! Definitions: specs/Registry.antt. Tests: registry_tests/src/registries.rt.
ghost use Rattle.std.specs.Prelude.{◌≡◌, ◌≢◌, ◌≤◌, ◌+◌, length, true, OnOk, OnErr};
ghost use Rattle.wm_registry.specs.Roots.{without_first};
ghost use Rattle.wm_registry.specs.Spelling.{IsState, state_spelling};
ghost use Rattle.wm_registry.specs.declared.command.Command.TheVariants as commands;
ghost use Rattle.wm_registry.specs.Registry.{after_command, changed, is_change, reply_to};

use crate::path_spelling::path_size;
use crate::registry::Registry;
use crate::reply::Reply;
use crate::root::{self, Root, triggers_size};
use crate::roots::put_new;
use crate::trigger::Trigger;
use crate::trigger_name::TriggerName;
use std::alloc::Global;
use wm_disk::{NoMemory, Refusal};
use wm_names::RootPath;
use wm_wire::List;

impl Registry {
    /// Begins the next incarnation, where it isn't the last.
    pub(crate) fn begin(&mut self) -> Reply
        ensures reply { result ≡ reply_to self.old commands.Begin }
        ensures state { self.new ≡ after_command self.old commands.Begin }
    {
        let reply = self.reply_to_begin();
        if reply.is_change() {
            self.incarnation += 1;
        }
        reply
    }

    /// Watches a root, by one look-up where another may come.
    pub(crate) fn watch(&mut self, alloc: Global, path: &RootPath) -> Reply
        ensures reply { result ≢ Reply.Refused Refusal.NoMemory → result ≡ reply_to self.old (commands.Watch path.now) }
        ensures state { result ≢ Reply.Refused Refusal.NoMemory → self.new ≡ after_command self.old (commands.Watch path.now) }
        ensures memory { result ≡ Reply.Refused Refusal.NoMemory → self.new ≡ self.old }
        ensures asked { result ≡ Reply.Refused Refusal.NoMemory → is_change (reply_to self.old (commands.Watch path.now)) ≡ true }
    {
        let reply = self.reply_to_another(path);
        if !reply.is_change() {
            return self.reply_to_watch(path);
        }
        let root = Root {
            number: self.next,
            triggers: List::new(alloc),
        };
        match put_new(alloc, &mut self.roots, path, root) {
            Ok(true) => {
                self.next += 1;
                self.size += path_size(path) + 12;
                reply
            }
            Ok(false) => Reply::Unchanged,
            Err(NoMemory) => Reply::Refused(Refusal::NoMemory),
        }
    }

    /// Takes a root out, where it is there.
    pub(crate) fn unwatch(&mut self, path: &RootPath) -> Reply
        ensures reply { result ≡ reply_to self.old (commands.WatchDel path.now) }
        ensures state { self.new ≡ after_command self.old (commands.WatchDel path.now) }
    {
        match self.roots.shift_remove(path) {
            Some(root) => {
                self.size -= root::root_size(self.version, path, &root);
                Reply::Changed
            }
            None => Reply::Refused(Refusal::NotWatched),
        }
    }

    /// Takes the first roots out, without which the spelling has so many bytes less.
    pub(crate) fn remove_prefix(&mut self, count: usize, less: u64)
        requires within { count ≤ length self.old.roots }
        requires state { IsState (without_first count self.old) }
        requires size { less + length (state_spelling (without_first count self.old)) ≡ length (state_spelling self.old) }
        ensures { self.new ≡ without_first count self.old }
    {
        drop(self.roots.drain(..count));
        self.size -= less;
    }

    /// Defines a trigger that is to be accepted.
    pub(crate) fn define(
        &mut self,
        alloc: Global,
        path: &RootPath,
        trigger: &Trigger,
    ) -> Result<(), NoMemory>
        requires { is_change (reply_to self.old (commands.Trigger path.now trigger.now)) ≡ true }
        ensures ok { OnOk result (self.new ≡ changed self.old (commands.Trigger path.now trigger.now)) }
        ensures err { OnErr result (self.new ≡ self.old) }
    {
        let trigger = trigger.copy()?;
        if let Some(root) = self.roots.get_mut(path) {
            let before = triggers_size(self.version, &root.triggers);
            root::define(&mut root.triggers, trigger)?;
            self.size = self.size - before + triggers_size(self.version, &root.triggers);
        }
        Ok(())
    }

    /// Takes a trigger out, where it is there.
    pub(crate) fn forget(&mut self, path: &RootPath, name: &TriggerName)
        ensures { self.new ≡ changed self.old (commands.TriggerDel path.now name.now) }
    {
        if let Some(root) = self.roots.get_mut(path) {
            let before = triggers_size(self.version, &root.triggers);
            root::forget(&mut root.triggers, name.as_str());
            self.size = self.size - before + triggers_size(self.version, &root.triggers);
        }
    }
}
