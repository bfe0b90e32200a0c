//! The watched roots with the counters beside them, and the one call that changes them.
//! Definitions: specs/Registry.antt, specs/Roots.antt. Tests: registry_tests/src/registries.rt.
ghost use Rattle.std.specs.Prelude.{◌≡◌, ◌≢◌, [], true, length, IfOk, OnOk};

use crate::command::Command;
use crate::limits::MAX_BATCH;
use crate::reply::Reply;
use crate::root::Root;
use crate::roots::put_new;
use crate::version::Version;
use indexmap::IndexMap;
use std::alloc::Global;
use std::marker::Model;
use wm_disk::{NoMemory, Refusal};
use wm_names::RootPath;

/// The watched roots in order of watching, each with its triggers, the next root number, the
/// incarnation, which is how often the server has begun, and the version of the state file, which no
/// command changes. Contracts see it as a `State`.
#[derive(Drop)]
pub struct Registry {
    pub(crate) version: Version,
    pub(crate) incarnation: u64,
    pub(crate) next: u64,
    pub(crate) roots: IndexMap<RootPath, Root>,
    // how many bytes the spelling has in a file of the version
    pub(crate) size: u64,
}

impl Model for Registry {
    ghost use Rattle.std.specs.Prelude.{◌≡◌, length};
    ghost use Rattle.wm_registry.specs.Roots.{State};
    ghost use Rattle.wm_registry.specs.Spelling.{IsState, state_spelling};

    ghost Value = { State };

    ghost view = { λ r. record { version = r.version; incarnation = r.incarnation; next = r.next; roots = r.roots.entries } };

    ghost invariant = { λ r. IsState (record { version = r.version; incarnation = r.incarnation; next = r.next; roots = r.roots.entries }) × (r.size ≡ length (state_spelling (record { version = r.version; incarnation = r.incarnation; next = r.next; roots = r.roots.entries }))) };
}

/// The same roots again.
fn copied(
    alloc: Global,
    roots: &IndexMap<RootPath, Root>,
) -> Result<IndexMap<RootPath, Root>, NoMemory>
    ensures { IfOk result (λ m. m.entries ≡ roots.now.entries) }
{
    // a batch's new roots fit too
    let mut copy = IndexMap::with_capacity(alloc, roots.len().saturating_add(MAX_BATCH))?;
    put_copies(alloc, roots, &mut copy)?;
    Ok(copy)
}

/// Puts the same roots again into a map that has none yet.
fn put_copies(
    alloc: Global,
    roots: &IndexMap<RootPath, Root>,
    copy: &mut IndexMap<RootPath, Root>,
) -> Result<(), NoMemory>
    requires { copy.old.entries ≡ [] }
    ensures { OnOk result (copy.new.entries ≡ roots.now.entries) }
{
    for (path, root) in roots.iter() {
        // each path is new, since none is there twice
        put_new(alloc, copy, path, root.copy(alloc)?)?;
    }
    Ok(())
}

impl Registry {
    ghost use Rattle.wm_registry.specs.Registry.{after_command, empty_registry, is_change, reply_to};
    ghost use Rattle.wm_registry.specs.Spelling.{IsState, state_spelling};

    /// The registry of a new file of the version: no roots, incarnation 0, and 1 as the next root number.
    pub fn new(alloc: Global, version: Version) -> Registry
        ensures { result ≡ empty_registry version }
    {
        Registry {
            version,
            incarnation: 0,
            next: 1,
            roots: IndexMap::new(alloc),
            size: 20,
        }
    }

    /// The version of the state file.
    pub fn version(&self) -> Version
        ensures { result ≡ self.now.version }
    {
        self.version
    }

    /// How many bytes the spelling has in a file of the version.
    pub fn size(&self) -> u64
        ensures exact { result ≡ length (state_spelling self.now) }
        ensures fits { IsState self.now }
    {
        self.size
    }

    /// How often the server has begun.
    pub fn incarnation(&self) -> u64
        ensures { result ≡ self.now.incarnation }
    {
        self.incarnation
    }

    /// The number of the next root.
    pub fn next_root(&self) -> u64
        ensures { result ≡ self.now.next }
    {
        self.next
    }

    /// The roots by their paths, in order of watching.
    pub fn roots(&self) -> &IndexMap<RootPath, Root>
        ensures { result.now.entries ≡ self.now.roots }
    {
        &self.roots
    }

    /// The same registry again. `NoMemory`.
    pub fn copy(&self, alloc: Global) -> Result<Registry, NoMemory>
        ensures { IfOk result (λ r. r ≡ self.now) }
    {
        let roots = copied(alloc, &self.roots)?;
        Ok(Registry {
            version: self.version,
            incarnation: self.incarnation,
            next: self.next,
            roots,
            size: self.size,
        })
    }

    /// Applies a command, and tells how it was met: as [`Registry::reply_to`] tells before, or
    /// `NoMemory` when out of memory. A refusal changes nothing.
    pub fn apply(&mut self, alloc: Global, command: &Command) -> Reply
        ensures reply { result ≢ Reply.Refused Refusal.NoMemory → result ≡ reply_to self.old command.now }
        ensures state { result ≢ Reply.Refused Refusal.NoMemory → self.new ≡ after_command self.old command.now }
        ensures memory { result ≡ Reply.Refused Refusal.NoMemory → self.new ≡ self.old }
        ensures asked { result ≡ Reply.Refused Refusal.NoMemory → is_change (reply_to self.old command.now) ≡ true }
    {
        match command {
            Command::Begin => self.begin(),
            Command::Watch(path) => self.watch(alloc, path),
            Command::WatchDel(path) => self.unwatch(path),
            Command::Trigger(path, trigger) => {
                let reply = self.reply_to(command);
                if !reply.is_change() {
                    return reply;
                }
                match self.define(alloc, path, trigger) {
                    Ok(()) => reply,
                    Err(NoMemory) => Reply::Refused(Refusal::NoMemory),
                }
            }
            Command::TriggerDel(path, name) => {
                let reply = self.reply_to(command);
                if reply.is_change() {
                    self.forget(path, name);
                }
                reply
            }
        }
    }
}
