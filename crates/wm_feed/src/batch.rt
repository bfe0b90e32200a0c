//! What a few records ask for together: paths to look at, each once, and folders to crawl.
//! Definitions: specs/Batches.antt. Tests: feed_tests/src/batches.rt.
ghost use Rattle.std.specs.Prelude.{◌≡◌, Some, None, OnOk, IfOk, string_bytes, if◌then◌else◌};
ghost use Rattle.wm_names.specs.Paths.{is_rel_path};
ghost use Rattle.wm_feed.specs.Records.{change_in, tells_of};
ghost use Rattle.wm_feed.specs.Batches.{asks_nothing, gathered_by, entry_path, nothing_asked, with_content, with_holder, with_folder, with_folder_text, with_asked_path, with_text};

use crate::record::{Change, Told};
use std::alloc::Global;
use std::collections::BTreeSet;
use std::marker::Model;
use wm_disk::{NoMemory, Refusal};
use wm_names::RelPath;

/// The most paths of a batch, and the most folders: of more the root is crawled.
pub const MAX_PATHS: usize = 65_536;

/// Paths to look at, each once, and folders whose content is to be crawled.
#[derive(Drop)]
pub struct Batch {
    paths: BTreeSet<RelPath>,
    folders: BTreeSet<RelPath>,
    is_whole: bool,
}

impl Model for Batch {
    ghost use Rattle.wm_feed.specs.Batches.{Gathered};

    ghost Value = { Gathered };

    ghost view = { λ b. record { paths = b.paths.keys; folders = b.folders.keys; is_whole = b.is_whole } };
}

impl Batch {
    /// Nothing is asked for.
    pub fn new(alloc: Global) -> Batch
        ensures { result ≡ nothing_asked }
    {
        Batch {
            paths: BTreeSet::new(alloc),
            folders: BTreeSet::new(alloc),
            is_whole: false,
        }
    }

    /// The paths to look at, in their order, each once.
    pub fn paths(&self) -> &BTreeSet<RelPath>
        ensures { result.now.keys ≡ self.now.paths }
    {
        &self.paths
    }

    /// The folders to be crawled, beside their own paths.
    pub fn folders(&self) -> &BTreeSet<RelPath>
        ensures { result.now.keys ≡ self.now.folders }
    {
        &self.folders
    }

    /// Whether the whole root is to be crawled: more was told than a batch holds, or a doubt.
    pub fn is_whole(&self) -> bool
        ensures { result ≡ self.now.is_whole }
    {
        self.is_whole
    }

    /// Whether nothing is asked for.
    pub fn is_empty(&self) -> bool
        ensures { result ≡ asks_nothing self.now }
    {
        self.paths.is_empty() && self.folders.is_empty() && !self.is_whole
    }

    /// Adds a path, where there is room.
    fn put(&mut self, path: RelPath) -> Result<(), NoMemory>
        ensures { OnOk result (self.new ≡ with_asked_path path self.old) }
    {
        if self.paths.len() < MAX_PATHS {
            self.paths.insert(path)?;
        } else {
            self.is_whole = true;
        }
        Ok(())
    }

    /// Adds a folder, where there is room.
    fn put_folder(&mut self, path: RelPath) -> Result<(), NoMemory>
        ensures { OnOk result (self.new ≡ with_folder path self.old) }
    {
        if self.folders.len() < MAX_PATHS {
            self.folders.insert(path)?;
        } else {
            self.is_whole = true;
        }
        Ok(())
    }

    /// Adds the path of a text.
    fn put_text(&mut self, alloc: Global, text: &str) -> Result<(), NoMemory>
        ensures { OnOk result (self.new ≡ with_text text.now self.old) }
    {
        match path_of(alloc, text)? {
            Some(path) => self.put(path),
            None => Ok(()),
        }
    }

    /// Adds the folder of a text.
    fn put_folder_text(&mut self, alloc: Global, text: &str) -> Result<(), NoMemory>
        ensures { OnOk result (self.new ≡ with_folder_text text.now self.old) }
    {
        match path_of(alloc, text)? {
            Some(path) => self.put_folder(path),
            None => Ok(()),
        }
    }

    /// Adds the content of an entry, where it is a folder.
    fn put_content(&mut self, alloc: Global, change: Change<'_>, text: &str) -> Result<(), NoMemory>
        ensures { OnOk result (self.new ≡ with_content (change_in change.entry) text.now self.old) }
    {
        match change {
            Change::Content | Change::File => Ok(()),
            _ => self.put_folder_text(alloc, text),
        }
    }

    /// Adds the folder of an entry, unless the entry's content alone changed.
    fn put_holder(
        &mut self,
        alloc: Global,
        change: Change<'_>,
        folder: &str,
    ) -> Result<(), NoMemory>
        ensures { OnOk result (self.new ≡ with_holder (change_in change.entry) folder.now self.old) }
    {
        match change {
            Change::Content => Ok(()),
            _ => self.put_text(alloc, folder),
        }
    }

    /// Adds a folder, with what is in it.
    pub fn add_folder(&mut self, folder: &RelPath) -> Result<(), NoMemory>
        ensures { OnOk result (self.new ≡ with_folder folder.now (with_asked_path folder.now self.old)) }
    {
        self.put(folder.copy()?)?;
        self.put_folder(folder.copy()?)
    }

    /// Adds what a record tells: an entry and its folder, to be crawled too where the entry is one. A
    /// doubt asks for the whole root. Without memory some of it may be missing.
    pub fn add(&mut self, alloc: Global, told: Told<'_>) -> Result<(), NoMemory>
        ensures { OnOk result (self.new ≡ gathered_by (tells_of told.entry) self.old) }
    {
        match told {
            Told::Nothing => Ok(()),
            Told::Doubt => {
                self.is_whole = true;
                Ok(())
            }
            Told::Folder { folder } => self.put_text(alloc, folder),
            Told::Entry {
                folder,
                name,
                change,
            } => {
                let path = join(alloc, folder, name)?;
                self.put_holder(alloc, change, folder)?;
                self.put_text(alloc, path.as_str())?;
                self.put_content(alloc, change, path.as_str())
            }
        }
    }
}

/// The path that a text is, where it is one.
pub(crate) fn path_of(alloc: Global, text: &str) -> Result<Option<RelPath>, NoMemory>
    ensures { IfOk result (λ p. p ≡ (if is_rel_path text.now then Some text.now else None)) }
{
    match RelPath::read(alloc, text) {
        Ok(path) => Ok(Some(path)),
        Err(Refusal::NoMemory) => Err(NoMemory),
        Err(_) => Ok(None),
    }
}

/// The text of an entry's path.
fn join(alloc: Global, folder: &str, name: &str) -> Result<String, NoMemory>
    ensures { IfOk result (λ s. string_bytes s ≡ entry_path folder.now name.now) }
{
    let mut text = String::from_str(alloc, folder)?;
    if !folder.is_empty() {
        text.push('/')?;
    }
    text.push_str(name)?;
    Ok(text)
}

/// The path of a name in a folder, where it is one.
pub(crate) fn path_in(alloc: Global, folder: &str, name: &str) -> Result<Option<RelPath>, NoMemory>
    ensures { IfOk result (λ p. p ≡ (if is_rel_path (entry_path folder.now name.now) then Some (entry_path folder.now name.now) else None)) }
{
    let text = join(alloc, folder, name)?;
    path_of(alloc, text.as_str())
}
