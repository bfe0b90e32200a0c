//! How a command would be met, which changes nothing; the limits of a registry are kept here.
//! Definitions: specs/Registry.antt.
//! Tests: registry_tests/src/room.rt, registry_tests/src/registries.rt.
ghost use Rattle.std.specs.Prelude.{◌≡◌, ◌+◌, ◌-◌, ◌^◌, ◌<◌, ◌≤◌, if◌then◌else◌, false, length, nat_lt, Some};
ghost use Rattle.wm_registry.specs.declared.command.Command.TheVariants as commands;
ghost use Rattle.wm_registry.specs.Registry.{reply_to as reply_to_lem, reply_to_trigger as reply_to_trigger_lem};
ghost use Rattle.wm_registry.specs.Roots.{is_watched, root_at};
ghost use Rattle.wm_registry.specs.Spelling.{state_spelling};
ghost use Rattle.wm_registry.specs.Triggers.{has_trigger};
ghost use Rattle.wm_registry.specs.Versions.{max_state_bytes};

use crate::command::Command;
use crate::limits::{MAX_ROOTS, MAX_TRIGGERS};
use crate::path_spelling::path_size;
use crate::registry::Registry;
use crate::reply::Reply;
use crate::root::{self, Root};
use crate::trigger::Trigger;
use wm_disk::{MAX_COUNTER, Refusal};
use wm_names::RootPath;

/// How the name of a trigger that is to go is met.
fn reply_to_trigger_del(root: &Root, name: &str) -> Reply
    ensures { result ≡ (if has_trigger name.now root.now.triggers then Reply.Changed else Reply.Unchanged) }
{
    match root::place_of(root.triggers.as_slice(), name) {
        Some(_) => Reply::Changed,
        None => Reply::Unchanged,
    }
}

impl Registry {
    /// How a command would be met. `NotWatched` where its root isn't watched, `OldVersion` where a
    /// trigger has a number of files and the version is 1, `TooMany` where `MAX_ROOTS` roots are watched
    /// or the root has `MAX_TRIGGERS` triggers, `Exhausted` where the incarnation or the next root number
    /// is spent, `Full` where the new registry's spelling would have more bytes than the version's
    /// `max_state_bytes`.
    pub fn reply_to(&self, command: &Command) -> Reply
        ensures { result ≡ reply_to_lem self.now command.now }
    {
        match command {
            Command::Begin => self.reply_to_begin(),
            Command::Watch(path) => self.reply_to_watch(path),
            Command::WatchDel(path) => {
                if self.roots.contains_key(path) {
                    Reply::Changed
                } else {
                    Reply::Refused(Refusal::NotWatched)
                }
            }
            Command::Trigger(path, trigger) => match self.roots.get(path) {
                Some(root) => self.reply_to_trigger(path, root, trigger),
                None => Reply::Refused(Refusal::NotWatched),
            },
            Command::TriggerDel(path, name) => match self.roots.get(path) {
                Some(root) => reply_to_trigger_del(root, name.as_str()),
                None => Reply::Refused(Refusal::NotWatched),
            },
        }
    }

    /// The reply, where so many bytes may come to the spelling and so many go.
    fn unless_full(&self, more: u64, less: u64, reply: Reply) -> Reply
        requires more { more < 2 ^ 33 }
        requires less { less ≤ length (state_spelling self.now) }
        ensures { result ≡ (if nat_lt (max_state_bytes self.now.version) (length (state_spelling self.now) + more - less) then Reply.Refused Refusal.Full else reply) }
    {
        if self.size + more - less > self.version.max_state_bytes() {
            Reply::Refused(Refusal::Full)
        } else {
            reply
        }
    }

    pub(crate) fn reply_to_begin(&self) -> Reply
        ensures { result ≡ reply_to_lem self.now commands.Begin }
    {
        if self.incarnation < MAX_COUNTER {
            Reply::Changed
        } else {
            Reply::Refused(Refusal::Exhausted)
        }
    }

    pub(crate) fn reply_to_watch(&self, path: &RootPath) -> Reply
        ensures { result ≡ reply_to_lem self.now (commands.Watch path.now) }
    {
        if self.roots.contains_key(path) {
            return Reply::Unchanged;
        }
        self.reply_to_another(path)
    }

    /// The reply to a watch, where no root is at its path.
    pub(crate) fn reply_to_another(&self, path: &RootPath) -> Reply
        ensures { is_watched path.now self.now ≡ false → result ≡ reply_to_lem self.now (commands.Watch path.now) }
    {
        if self.roots.len() >= MAX_ROOTS as usize {
            return Reply::Refused(Refusal::TooMany);
        }
        if self.next >= MAX_COUNTER {
            return Reply::Refused(Refusal::Exhausted);
        }
        self.unless_full(path_size(path) + 12, 0, Reply::Changed)
    }

    fn reply_to_trigger(&self, path: &RootPath, root: &Root, trigger: &Trigger) -> Reply
        requires { root_at path.now self.now ≡ Some root.now }
        ensures { result ≡ reply_to_trigger_lem self.now path.now trigger.now root.now }
    {
        if !trigger.fits_version(self.version) {
            return Reply::Refused(Refusal::OldVersion);
        }
        let triggers = root.triggers.as_slice();
        if root::is_defined(triggers, trigger) {
            return Reply::Unchanged;
        }
        match root::place_of(triggers, trigger.name()) {
            Some(place) => {
                let old = triggers[place].size_as(self.version);
                self.unless_full(trigger.size_as(self.version), old, Reply::Replaced)
            }
            None => {
                if triggers.len() >= MAX_TRIGGERS as usize {
                    return Reply::Refused(Refusal::TooMany);
                }
                self.unless_full(trigger.size_as(self.version), 0, Reply::Changed)
            }
        }
    }
}
