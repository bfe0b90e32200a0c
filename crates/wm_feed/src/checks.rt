//! Which folders are to be checked for a watch. Between its reading of a new folder and its watch of it, inotifywait misses a folder
//! that is made there. One of whose making it tells is watched. Definitions: specs/Checks.antt. Tests: feed_tests/src/checked_folders.rt.

ghost use Rattle.std.specs.Prelude.{◌≡◌, OnOk};
ghost use Rattle.wm_feed.specs.Records.{tells_of};
ghost use Rattle.wm_feed.specs.Checks.{all_checked, checked_by, was_made, is_any_checked, none_made, nothing_checked, with_made, with_moved, with_new, with_part};
ghost use Rattle.wm_feed.specs.Batches.{entry_path};

use crate::batch::path_in;
use crate::record::{Change, Told};
use std::alloc::Global;
use std::collections::BTreeSet;
use std::marker::Model;
use wm_disk::NoMemory;
use wm_names::RelPath;

/// The most parts, and the most folders that were made: of more all folders are checked.
const MAX_PARTS: usize = 4_096;

const MAX_MADE: usize = 65_536;

/// Parts of a root in which each folder is to be checked, but for those that were told to be made there.
#[derive(Drop)]
pub struct Checks {
    is_all: bool,
    parts: BTreeSet<RelPath>,
    made: BTreeSet<RelPath>,
}

impl Model for Checks {
    ghost use Rattle.wm_feed.specs.Checks.{Checked};

    ghost Value = { Checked };

    ghost view = { λ c. record { is_all = c.is_all; parts = c.parts.keys; made = c.made.keys } };
}

impl Checks {
    /// All folders.
    pub fn all(alloc: Global) -> Checks
        ensures { result ≡ all_checked nothing_checked }
    {
        Checks {
            is_all: true,
            parts: BTreeSet::new(alloc),
            made: BTreeSet::new(alloc),
        }
    }

    /// Whether any folder is to be checked.
    pub fn are_any(&self) -> bool
        ensures { result ≡ is_any_checked self.now }
    {
        self.is_all || self.parts.len() > 0
    }

    /// Whether all folders are.
    pub fn is_all(&self) -> bool
        ensures { result ≡ self.now.is_all }
    {
        self.is_all
    }

    /// The parts: each of these folders, and those below it.
    pub fn parts(&self) -> &BTreeSet<RelPath>
        ensures { result.now.keys ≡ self.now.parts }
    {
        &self.parts
    }

    /// Whether a folder was told to be made.
    pub fn is_made(&self, path: &RelPath) -> bool
        ensures { result ≡ was_made path.now self.now.made }
    {
        self.made.contains(path)
    }

    /// All folders are to be checked.
    pub fn ask_for_all(&mut self)
        ensures { self.new ≡ all_checked self.old }
    {
        self.is_all = true;
    }

    /// Each was checked.
    pub fn clear(&mut self)
        ensures { self.new ≡ nothing_checked }
    {
        self.is_all = false;
        self.parts.clear();
        self.made.clear();
    }

    /// A folder and those below it are to be checked.
    pub fn ask_for(&mut self, path: RelPath) -> Result<(), NoMemory>
        ensures { OnOk result (self.new ≡ with_part path self.old) }
    {
        if self.parts.len() < MAX_PARTS {
            self.parts.insert(path)?;
        } else {
            self.is_all = true;
        }
        Ok(())
    }

    /// Adds a folder that was made.
    fn add_made(&mut self, path: &RelPath) -> Result<(), NoMemory>
        ensures { OnOk result (self.new ≡ with_made path.now self.old) }
    {
        if self.made.len() < MAX_MADE {
            self.made.insert(path.copy()?)?;
        }
        Ok(())
    }

    /// No folder is known any longer to have been made where it is.
    pub fn forget_made(&mut self)
        ensures { self.new ≡ none_made self.old }
    {
        self.made.clear();
    }

    /// Adds what a record tells. A folder that was made or came is a part. One that moves takes others with it, and one that is removed
    /// may be made anew with others, so that what was made is no longer known by its name. Where the folder may be at several places, what is made there may have been missed.
    pub fn add(&mut self, alloc: Global, told: Told<'_>, is_certain: bool) -> Result<(), NoMemory>
        ensures { OnOk result (self.new ≡ checked_by is_certain (tells_of told.entry) self.old) }
    {
        let Told::Entry {
            folder,
            name,
            change,
        } = told
        else {
            return Ok(());
        };
        match change {
            Change::Content | Change::File | Change::Folder => Ok(()),
            Change::Left(_) | Change::Came(_) => self.add_moved(alloc, folder, name),
            Change::Made => self.add_new(alloc, folder, name, is_certain),
            Change::Removed => {
                self.forget_made();
                Ok(())
            }
        }
    }

    /// Adds a folder that moved.
    fn add_moved(&mut self, alloc: Global, folder: &str, name: &str) -> Result<(), NoMemory>
        ensures { OnOk result (self.new ≡ with_moved (entry_path folder.now name.now) self.old) }
    {
        self.forget_made();
        match path_in(alloc, folder, name)? {
            Some(path) => self.ask_for(path),
            None => Ok(()),
        }
    }

    /// Adds a folder that was made.
    fn add_new(
        &mut self,
        alloc: Global,
        folder: &str,
        name: &str,
        is_certain: bool,
    ) -> Result<(), NoMemory>
        ensures { OnOk result (self.new ≡ with_new is_certain (entry_path folder.now name.now) self.old) }
    {
        let Some(path) = path_in(alloc, folder, name)? else {
            return Ok(());
        };
        if is_certain {
            self.add_made(&path)?;
        }
        self.ask_for(path)
    }
}
