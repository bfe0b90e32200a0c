//! The first place below a root that a crawl couldn't read, for the log.
//! Definitions: specs/LoggedParts.antt. Tests: tools/try/log.py.
ghost use Rattle.std.specs.Prelude.{◌≡◌, IfOk, string_bytes};
ghost use Rattle.wm_workers.specs.LoggedParts.{NotesFirst, whole_path as whole_path_lem};

use std::alloc::Global;
use wm_disk::NoMemory;
use wm_names::{RootPath, Subtree};

/// The whole path of a place below a root.
fn whole_path(alloc: Global, root: &RootPath, place: &Subtree) -> Result<String, NoMemory>
    ensures { IfOk result (λ path. string_bytes path ≡ whole_path_lem root.now place.now) }
{
    let mut text = String::from_str(alloc, root.as_str())?;
    if let Subtree::Below(path) = place {
        text.push('/')?;
        text.push_str(path.as_str())?;
    }
    Ok(text)
}

/// Notes a place that couldn't be read by its whole path, if it is the first one. Without memory for its path it isn't noted.
pub fn note_first(failed: &mut Option<String>, alloc: Global, root: &RootPath, place: &Subtree)
    ensures { NotesFirst (λ path. string_bytes path) root.now place.now failed.old failed.new }
{
    if failed.is_none() {
        *failed = whole_path(alloc, root, place).ok();
    }
}
