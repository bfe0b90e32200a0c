//! The part of a root that a listing is about: all of it, or what is below one folder.
//! Definitions: specs/Entries.antt. Tests: leaf_tests/src/names/subtrees.rt.
ghost use Rattle.std.specs.Prelude.{◌≡◌, ◌≢◌, ◌↔◌, true, false, IfOk, IfErr, IsErrOf};
ghost use Rattle.wm_names.specs.Entries.{covers, is_fit, is_whole, join};

use crate::components::is_free_of;
use crate::rel_path::RelPath;
use std::alloc::Global;
use wm_disk::{NoMemory, Refusal};

/// Part of a root: all of it, or what stands below one path.
#[derive(Drop)]
pub enum Subtree {
    /// The whole root.
    Whole,
    /// What stands below this path, at any depth; the path itself doesn't.
    Below(RelPath),
}

impl Subtree {
    /// The same part again; its path shares the text. `NoMemory` comes only where the text has 2^63 - 1
    /// owners already.
    pub fn copy(&self) -> Result<Subtree, NoMemory>
        ensures { IfOk result (λ s. s ≡ self.now) }
    {
        match self {
            Subtree::Whole => Ok(Subtree::Whole),
            Subtree::Below(top) => {
                let top = top.copy()?;
                Ok(Subtree::Below(top))
            }
        }
    }

    /// Whether the path stands in this part.
    pub fn covers(&self, path: &RelPath) -> bool
        ensures { result ≡ covers self.now path.now }
    {
        match self {
            Subtree::Whole => true,
            Subtree::Below(top) => path.under(top),
        }
    }

    /// The path of a name in the folder that this part is of. `BadPath` where the name isn't one component or
    /// the path would be too long, and `NoMemory`.
    pub fn join(&self, alloc: Global, name: &str) -> Result<RelPath, Refusal>
        ensures ok { IfOk result (λ p. (p ≡ join self.now name.now) × (is_fit self.now name.now ≡ true)) }
        ensures refused { IsErrOf result Refusal.BadPath ↔ (is_fit self.now name.now ≡ false) }
        ensures kinds { IfErr result (λ e. e ≢ Refusal.NoMemory → e ≡ Refusal.BadPath) }
    {
        match self {
            Subtree::Whole => {
                if is_free_of(name.as_bytes(), b'/') {
                    RelPath::read(alloc, name)
                } else {
                    Err(Refusal::BadPath)
                }
            }
            Subtree::Below(folder) => folder.join(alloc, name),
        }
    }

    /// Whether this is the whole root.
    pub fn is_whole(&self) -> bool
        ensures { result ≡ is_whole self.now }
    {
        match self {
            Subtree::Whole => true,
            Subtree::Below(_) => false,
        }
    }
}
