//! Names of folders by which something was told, and at which no folder is. One that was removed or renamed is told to be so later;
//! of any other it isn't known which folder the name stands for. Definitions: specs/Orphans.antt. Tests: feed_tests/src/orphans.rt.

ghost use Rattle.std.specs.Prelude.{◌≡◌, length, nat_lt, IfOk, OnOk};
ghost use Rattle.wm_feed.specs.Steps.{is_below_any};
ghost use Rattle.wm_feed.specs.Orphans.{is_explained as is_explained_lem, no_orphans, unexplained, with_end, with_name};

use crate::paths::{listed, set_of};
use std::alloc::Global;
use std::collections::BTreeSet;
use std::marker::Model;
use wm_disk::NoMemory;
use wm_names::RelPath;

/// The most names, and the most folders that something happened to, which are kept: what is more is passed over.
const MAX_ORPHANS: usize = 65_536;

/// Names at which no folder is, and the folders that something happened to since.
#[derive(Drop)]
pub struct Orphans {
    names: BTreeSet<RelPath>,
    ended: BTreeSet<RelPath>,
}

impl Model for Orphans {
    ghost use Rattle.wm_feed.specs.Orphans.{Unplaced};

    ghost Value = { Unplaced };

    ghost view = { λ s. record { names = s.names.keys; ended = s.ended.keys } };
}

/// Whether a path stands below one of these folders.
fn is_below(path: &RelPath, folders: &BTreeSet<RelPath>) -> bool
    ensures { result ≡ is_below_any path.now folders.now.keys }
{
    folders.iter().any(|folder| path.under(folder))
}

/// Whether something happened to a folder, or to one that it stands in.
fn is_explained(path: &RelPath, ended: &BTreeSet<RelPath>) -> bool
    ensures { result ≡ is_explained_lem path.now ended.now.keys }
{
    ended.contains(path) || is_below(path, ended)
}

impl Orphans {
    /// None yet.
    pub fn new(alloc: Global) -> Orphans
        ensures { result ≡ no_orphans }
    {
        Orphans {
            names: BTreeSet::new(alloc),
            ended: BTreeSet::new(alloc),
        }
    }

    /// Whether there is any.
    pub fn are_any(&self) -> bool
        ensures { result ≡ nat_lt 0 (length self.now.names) }
    {
        self.names.len() > 0
    }

    /// Adds a name.
    pub fn add(&mut self, name: RelPath) -> Result<(), NoMemory>
        ensures { OnOk result (self.new ≡ with_name name self.old) }
    {
        if self.names.len() < MAX_ORPHANS {
            self.names.insert(name)?;
        }
        Ok(())
    }

    /// Something happened to a folder: it may have been removed or renamed, with those below it.
    pub fn end(&mut self, folder: &RelPath) -> Result<(), NoMemory>
        ensures { OnOk result (self.new ≡ with_end folder.now self.old) }
    {
        if self.are_any() && self.ended.len() < MAX_ORPHANS {
            self.ended.insert(folder.copy()?)?;
        }
        Ok(())
    }

    /// The names that nothing explains. `NoMemory`.
    pub fn unexplained(&self, alloc: Global) -> Result<BTreeSet<RelPath>, NoMemory>
        ensures { IfOk result (λ s. s.keys ≡ unexplained self.now) }
    {
        let names = listed(alloc, &self.names)?;
        let mut left = Vec::new(alloc);
        for name in &names {
            if !is_explained(name, &self.ended) {
                left.push(name.copy()?)?;
            }
        }
        set_of(alloc, &left)
    }

    /// Whether something happened to the folder at a path, or to one that it stood in, since a name was first added.
    pub fn has_ended(&self, path: &RelPath) -> bool
        ensures { result ≡ is_explained_lem path.now self.now.ended }
    {
        is_explained(path, &self.ended)
    }

    /// Forgets all of them.
    pub fn clear(&mut self)
        ensures { self.new ≡ no_orphans }
    {
        self.names.clear();
        self.ended.clear();
    }
}
