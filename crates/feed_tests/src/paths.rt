//! What stands at paths below a root, in memory.
ghost use Rattle.std.specs.Prelude.{⊤};

use std::alloc::Global;
use wm_crawler::{Dir, Tree};
use wm_disk::Refusal;
use wm_names::{Kind, Meta, RelPath, RootPath, Subtree};

/// What stands at the paths below a root.
#[derive(Drop)]
pub struct Paths {
    pub(crate) root: RootPath,
    pub(crate) paths: &'static [(&'static str, Kind, u64, u64)],
    pub(crate) folders: &'static [(&'static str, u64)],
}

impl Paths {
    /// Whether a whole path is that of a path below the root.
    fn is_at(&self, whole: &str, path: &RelPath) -> bool {
        match whole.as_bytes().strip_prefix(self.root.as_str().as_bytes()) {
            Some([b'/', rest @ ..]) => rest == path.as_str().as_bytes(),
            _ => false,
        }
    }
}

impl Tree for Paths {
    ghost use Rattle.wm_crawler.specs.Trees.{nothing_known};

    ghost content = { λ _. nothing_known };

    ghost stays = { λ _. ⊥ };

    ghost may_fail = { λ _ _. ⊤ };

    fn read_dir(&self, _alloc: Global, _folder: &Subtree) -> Result<Option<Dir>, Refusal> {
        Ok(None)
    }

    /// A folder of which the number alone is known has 4,096 bytes and the time 22.
    fn meta(&self, _alloc: Global, path: &RelPath) -> Result<Option<Meta>, Refusal> {
        for (text, kind, size, mtime_ms) in self.paths {
            if self.is_at(text, path) {
                return Ok(Some(Meta {
                    kind: *kind,
                    size: *size,
                    mtime_ms: *mtime_ms,
                }));
            }
        }
        for (text, _) in self.folders {
            if self.is_at(text, path) {
                return Ok(Some(Meta {
                    kind: Kind::Folder,
                    size: 4_096,
                    mtime_ms: 22,
                }));
            }
        }
        Ok(None)
    }
}
