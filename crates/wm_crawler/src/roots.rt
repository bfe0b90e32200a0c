//! The folders of watched roots, and the crawl of one of them.
//! Definitions: specs/Trees.antt, specs/Crawls.antt. Tests: crawler_tests/src/folders.rt.
ghost use Rattle.std.specs.Prelude.{◌≡◌, ◌≢◌, Some, map, length, IfOk, IfErr};
ghost use Rattle.wm_disk.specs.declared.refusal.Refusal.TheVariants.{DeviceFailed, NoMemory as no_memory};
ghost use Rattle.wm_names.specs.declared.subtree.Subtree.{Subtree as Place};
ghost use Rattle.wm_names.specs.declared.subtree.Subtree.TheVariants.{Below};
ghost use Rattle.wm_names.specs.Paths.{Path};
ghost use Rattle.wm_crawler.specs.Crawls.{FailsIn, IsCrawl, IsReadable};
ghost use Rattle.wm_crawler.specs.FileSystems.{content_below, place_path};
ghost use Rattle.wm_crawler.specs.SystemRoots.{files_behind};
ghost use Rattle.wm_crawler.specs.Trees.{AreMetas, Content, SomeFails};

use crate::crawling::{MAX_WORKERS, crawl};
use crate::dir::Dir;
use crate::file_system::FileSystem;
use crate::folder_tree::{meta_below, metas_below, read_folder};
use crate::gate::Turnstile;
use crate::tree::Tree;
use std::alloc::Global;
use std::thread::Threads;
use wm_disk::Refusal;
use wm_names::{Meta, RelPath, RootPath, Subtree};
use wm_view::Listing;

/// The folders of watched roots. Where they stay as they are, they answer as their roots' contents say.
pub trait Folders {
    /// What stands below the root of a path.
    ghost content: { Self → Path → Content };

    /// The folders stay as they are.
    ghost stays: { Self → Type 0 };

    /// The places of which a reading may fail, below the root of a path.
    ghost may_fail: { Self → Path → Place → Type 0 };

    /// As `Tree::read_dir` of the root.
    fn read_dir(
        &self,
        alloc: Global,
        root: &RootPath,
        folder: &Subtree,
    ) -> Result<Option<Dir>, Refusal>
        ensures read { IfOk result (λ d. stays self.now → (content self.now root.now).held folder.now ≡ Some d) }
        ensures refused { IfErr result (λ e. e ≢ no_memory → (e ≡ DeviceFailed) × may_fail self.now root.now folder.now) };

    /// As `Tree::meta` of the root.
    fn meta(&self, alloc: Global, root: &RootPath, path: &RelPath) -> Result<Option<Meta>, Refusal>
        ensures read { IfOk result (λ m. stays self.now → (content self.now root.now).meta path.now ≡ Some m) }
        ensures refused { IfErr result (λ e. e ≢ no_memory → (e ≡ DeviceFailed) × may_fail self.now root.now (Below path.now)) };

    /// As `Tree::metas` of the root.
    fn metas(
        &self,
        alloc: Global,
        root: &RootPath,
        paths: &[RelPath],
    ) -> Result<Vec<Option<Meta>>, Refusal>
        ensures each { IfOk result (λ v. length v.items ≡ length paths.now) }
        ensures read { IfOk result (λ v. stays self.now → AreMetas (content self.now root.now) paths.now v.items) }
        ensures refused { IfErr result (λ e. e ≢ no_memory → (e ≡ DeviceFailed) × SomeFails (may_fail self.now root.now) (map Below paths.now)) };
}

/// The folders of a system of files.
#[derive(Drop)]
pub struct SystemFolders<F> {
    files: F,
}

impl<F: FileSystem> SystemFolders<F> {
    /// The folders by these files of the system.
    pub fn new(files: F) -> SystemFolders<F>
        ensures { files_behind result ≡ files }
    {
        SystemFolders { files }
    }
}

impl<F: FileSystem> Folders for SystemFolders<F> {
    ghost content = { λ s root. content_below (F.names_at (files_behind s)) (F.stat_at (files_behind s)) root };

    ghost stays = { λ s. F.stays (files_behind s) };

    ghost may_fail = { λ s root place. F.may_fail (files_behind s) (place_path root place) };

    fn read_dir(
        &self,
        alloc: Global,
        root: &RootPath,
        folder: &Subtree,
    ) -> Result<Option<Dir>, Refusal> {
        read_folder(&self.files, alloc, root, folder)
    }

    fn meta(
        &self,
        alloc: Global,
        root: &RootPath,
        path: &RelPath,
    ) -> Result<Option<Meta>, Refusal> {
        meta_below(&self.files, alloc, root, path)
    }

    fn metas(
        &self,
        alloc: Global,
        root: &RootPath,
        paths: &[RelPath],
    ) -> Result<Vec<Option<Meta>>, Refusal> {
        metas_below(&self.files, alloc, root, paths)
    }
}

/// One root as a tree.
#[derive(Drop)]
struct Rooted<'a, F> {
    folders: &'a F,
    root: RootPath,
}

impl<F: Folders> Tree for Rooted<'_, F> {
    ghost content = { λ t. F.content t.folders.now t.root };

    ghost stays = { λ t. F.stays t.folders.now };

    ghost may_fail = { λ t. F.may_fail t.folders.now t.root };

    fn read_dir(&self, alloc: Global, folder: &Subtree) -> Result<Option<Dir>, Refusal> {
        self.folders.read_dir(alloc, &self.root, folder)
    }

    fn meta(&self, alloc: Global, path: &RelPath) -> Result<Option<Meta>, Refusal> {
        self.folders.meta(alloc, &self.root, path)
    }

    fn metas(&self, alloc: Global, paths: &[RelPath]) -> Result<Vec<Option<Meta>>, Refusal> {
        self.folders.metas(alloc, &self.root, paths)
    }
}

/// Reads everything below a part of a root, as `crawl` does, by so many threads: of 1 to `MAX_WORKERS`, the nearest
/// to what is asked for. How many names were left out isn't told. `DeviceFailed` where a folder couldn't be read or a
/// path not be told, and `NoMemory`.
pub fn crawl_root<R: Threads + Sync, F: Folders + Sync, G: Turnstile + Sync>(
    rt: &R,
    alloc: Global,
    folders: &F,
    root: &RootPath,
    subtree: &Subtree,
    workers: usize,
    gate: &G,
) -> Result<Listing, Refusal>
    ensures part { IfOk result (λ listing. listing.subtree ≡ subtree.now) }
    ensures files { IfOk result (λ listing. F.stays folders.now → IsCrawl (F.content folders.now root.now) subtree.now listing.files) }
    ensures whole { IfOk result (λ _. F.stays folders.now → IsReadable (F.content folders.now root.now) subtree.now) }
    ensures refused { IfErr result (λ e. e ≢ no_memory → (e ≡ DeviceFailed) × FailsIn (F.may_fail folders.now root.now) subtree.now) }
{
    let root = root.copy(alloc)?;
    let tree = Rooted { folders, root };
    let workers = workers.max(1).min(MAX_WORKERS);
    let crawled = crawl(rt, alloc, &tree, subtree, workers, gate)?;
    Ok(crawled.listing)
}
