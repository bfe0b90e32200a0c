//! What a crawl reads.
//! Definitions: specs/Trees.antt. Tests: crawler_tests/src/crawls.rt.
ghost use Rattle.std.specs.Prelude.{◌≡◌, ◌≢◌, Some, map, length, IfOk, IfErr};
ghost use Rattle.wm_disk.specs.declared.refusal.Refusal.TheVariants.{DeviceFailed, NoMemory};
ghost use Rattle.wm_names.specs.declared.subtree.Subtree.{Subtree as Place};
ghost use Rattle.wm_names.specs.declared.subtree.Subtree.TheVariants.{Below};
ghost use Rattle.wm_crawler.specs.Trees.{Content, AreMetas, SomeFails};

use crate::dir::Dir;
use std::alloc::Global;
use wm_disk::Refusal;
use wm_names::{Meta, RelPath, Subtree};

/// A tree of files below a root. Where it stays as it is, it answers as its content says.
pub trait Tree {
    ghost content: { Self → Content };

    /// The tree stays as it is.
    ghost stays: { Self → Type 0 };

    /// The places of which a reading may fail: the root, or what a path names.
    ghost may_fail: { Self → Place → Type 0 };

    /// What the root, or a folder in it, holds. `None` where no folder is there; a link isn't followed.
    /// `DeviceFailed` where it can't be read, and `NoMemory`.
    fn read_dir(&self, alloc: Global, folder: &Subtree) -> Result<Option<Dir>, Refusal>
        ensures read { IfOk result (λ d. stays self.now → (content self.now).held folder.now ≡ Some d) }
        ensures refused { IfErr result (λ e. e ≢ NoMemory → (e ≡ DeviceFailed) × may_fail self.now folder.now) };

    /// What is known of a path, and `None` where nothing is there. A link isn't followed.
    /// `DeviceFailed` where it can't be told, and `NoMemory`.
    fn meta(&self, alloc: Global, path: &RelPath) -> Result<Option<Meta>, Refusal>
        ensures read { IfOk result (λ m. stays self.now → (content self.now).meta path.now ≡ Some m) }
        ensures refused { IfErr result (λ e. e ≢ NoMemory → (e ≡ DeviceFailed) × may_fail self.now (Below path.now)) };

    /// What is known of each of the paths, as `meta` tells it. A tree that takes less work for many paths
    /// together than for one after another has a body of its own. `DeviceFailed` where one of them can't be
    /// told, and `NoMemory`.
    fn metas(&self, alloc: Global, paths: &[RelPath]) -> Result<Vec<Option<Meta>>, Refusal>
        ensures each { IfOk result (λ v. length v.items ≡ length paths.now) }
        ensures read { IfOk result (λ v. stays self.now → AreMetas (content self.now) paths.now v.items) }
        ensures refused { IfErr result (λ e. e ≢ NoMemory → (e ≡ DeviceFailed) × SomeFails (may_fail self.now) (map Below paths.now)) }
    {
        let mut metas = Vec::with_capacity(alloc, paths.len())?;
        for path in paths {
            let there = self.meta(alloc, path)?;
            metas.push(there)?;
        }
        Ok(metas)
    }
}
