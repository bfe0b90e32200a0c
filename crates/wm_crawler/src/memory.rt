//! A tree in memory, which stays as it was made. Tests make trees of it.
//! Definitions: specs/MemTrees.antt. Tests: crawler_tests/src/crawls.rt.
ghost use Rattle.std.specs.Prelude.{◌≡◌, ◌++◌, ◌∷◌, [], ⊤, Some, None, IfSome, IfNone, OnOk, OnErr};
ghost use Rattle.wm_crawler.specs.MemTrees.{same_place as same_place_lem, told_of, folder_told, file_told};

use crate::dir::Dir;
use crate::tree::Tree;
use std::alloc::Global;
use std::marker::Model;
use wm_disk::{NoMemory, Refusal};
use wm_names::{Meta, RelPath, Subtree};

/// A tree in memory: folders with what they hold, and what stands at paths. Of what it isn't told nothing
/// is there. Where it is told of one place several times, the first counts.
#[derive(Drop)]
pub struct MemTree {
    folders: Vec<(Subtree, Option<Dir>)>,
    files: Vec<(RelPath, Option<Meta>)>,
}

impl Model for MemTree {
    ghost use Rattle.wm_crawler.specs.MemTrees.{MemTreeValue};

    ghost Value = { MemTreeValue };

    ghost view = { λ t. record { folders = t.folders.items; files = t.files.items } };
}

/// Whether the two are one place.
fn same_place(place: &Subtree, other: &Subtree) -> bool
    ensures { result ≡ same_place_lem place.now other.now }
{
    match (place, other) {
        (Subtree::Whole, Subtree::Whole) => true,
        (Subtree::Below(path), Subtree::Below(other)) => path.same(other),
        (Subtree::Whole, Subtree::Below(_)) => false,
        (Subtree::Below(_), Subtree::Whole) => false,
    }
}

impl MemTree {
    /// A tree of nothing: not even its root is there.
    pub fn new(alloc: Global) -> MemTree
        ensures { result ≡ record { folders = []; files = [] } }
    {
        MemTree {
            folders: Vec::new(alloc),
            files: Vec::new(alloc),
        }
    }

    /// Tells what a folder holds. Without memory nothing is changed.
    pub fn hold(&mut self, folder: Subtree, dir: Dir) -> Result<(), NoMemory>
        ensures ok { OnOk result (self.new ≡ record self.old { folders = self.old.folders ++ (folder, Some dir) ∷ [] }) }
        ensures err { OnErr result (self.new ≡ self.old) }
    {
        self.folders.push((folder, Some(dir)))?;
        Ok(())
    }

    /// Makes a folder one that can't be read. Without memory nothing is changed.
    pub fn close(&mut self, folder: Subtree) -> Result<(), NoMemory>
        ensures ok { OnOk result (self.new ≡ record self.old { folders = self.old.folders ++ (folder, None) ∷ [] }) }
        ensures err { OnErr result (self.new ≡ self.old) }
    {
        self.folders.push((folder, None))?;
        Ok(())
    }

    /// Tells what stands at a path. Without memory nothing is changed.
    pub fn put(&mut self, path: RelPath, meta: Meta) -> Result<(), NoMemory>
        ensures ok { OnOk result (self.new ≡ record self.old { files = self.old.files ++ (path, Some meta) ∷ [] }) }
        ensures err { OnErr result (self.new ≡ self.old) }
    {
        self.files.push((path, Some(meta)))?;
        Ok(())
    }

    /// Makes a path one of which nothing can be told. Without memory nothing is changed.
    pub fn hide(&mut self, path: RelPath) -> Result<(), NoMemory>
        ensures ok { OnOk result (self.new ≡ record self.old { files = self.old.files ++ (path, None) ∷ [] }) }
        ensures err { OnErr result (self.new ≡ self.old) }
    {
        self.files.push((path, None))?;
        Ok(())
    }
}

/// What a folder holds, or that it can't be read; `None` where no folder is there.
fn folder_in<'a>(folders: &'a [(Subtree, Option<Dir>)], folder: &Subtree) -> Option<&'a Option<Dir>>
    ensures missing { IfNone result (folder_told folder.now folders.now ≡ Some None) }
    ensures found { IfSome result (λ d. folder_told folder.now folders.now ≡ told_of d.now) }
{
    for entry in folders {
        if same_place(folder, &entry.0) {
            return Some(&entry.1);
        }
    }
    None
}

/// What stands at a path, or that it can't be told; `None` where nothing is there.
fn file_in(files: &[(RelPath, Option<Meta>)], path: &RelPath) -> Option<Option<Meta>>
    ensures missing { IfNone result (file_told path.now files.now ≡ Some None) }
    ensures found { IfSome result (λ m. file_told path.now files.now ≡ told_of m) }
{
    for entry in files {
        if path.same(&entry.0) {
            return Some(entry.1);
        }
    }
    None
}

impl Tree for MemTree {
    ghost use Rattle.wm_crawler.specs.MemTrees.{content_of, MayNotTell};

    ghost content = { λ t. content_of t };

    ghost stays = { λ _. ⊤ };

    ghost may_fail = { λ t place. MayNotTell t place };

    fn read_dir(&self, alloc: Global, folder: &Subtree) -> Result<Option<Dir>, Refusal> {
        match folder_in(&self.folders, folder) {
            Some(Some(dir)) => {
                let dir = dir.copy(alloc)?;
                Ok(Some(dir))
            }
            Some(None) => Err(Refusal::DeviceFailed),
            None => Ok(None),
        }
    }

    fn meta(&self, _alloc: Global, path: &RelPath) -> Result<Option<Meta>, Refusal> {
        match file_in(&self.files, path) {
            Some(Some(meta)) => Ok(Some(meta)),
            Some(None) => Err(Refusal::DeviceFailed),
            None => Ok(None),
        }
    }
}
