//! The listing of what was found.
//! Definitions: specs/Levels.antt. Tests: crawler_tests/src/crawls.rt.
ghost use Rattle.std.specs.Prelude.{◌≡◌, IfOk, OnOk, cond, ◌&&◌, Some, None};
ghost use Rattle.wm_names.specs.Paths.{Path, same_path};
ghost use Rattle.wm_names.specs.Entries.{covers};
ghost use Rattle.wm_view.specs.Files.{at};
ghost use Rattle.wm_crawler.specs.Levels.{first_at, or_else};

use std::alloc::Global;
use wm_disk::{NoMemory, Refusal};
use wm_names::{Meta, RelPath, Subtree};
use wm_view::Listing;

/// Adds a file, unless it is listed or doesn't belong there.
fn add(listing: &mut Listing, path: RelPath, meta: Meta) -> Result<(), NoMemory>
    ensures subtree { OnOk result (listing.new.subtree ≡ listing.old.subtree) }
    ensures files { OnOk result ((p : Path) → at listing.new.files p ≡ or_else (at listing.old.files p) (cond (covers listing.old.subtree path && same_path p path) (Some meta) None)) }
{
    match listing.add(path, meta) {
        Ok(()) => Ok(()),
        // it stands outside the part
        Err(Refusal::BadPath) => Ok(()),
        // it is listed already
        Err(Refusal::BadArguments) => Ok(()),
        Err(_) => Err(NoMemory),
    }
}

/// The listing with these files; of several at one path the first counts.
pub(crate) fn listed(
    alloc: Global,
    subtree: Subtree,
    files: Vec<(RelPath, Meta)>,
) -> Result<Listing, NoMemory>
    ensures subtree { IfOk result (λ l. l.subtree ≡ subtree) }
    ensures files { IfOk result (λ l. (p : Path) → at l.files p ≡ cond (covers subtree p) (first_at p files.items) None) }
{
    let mut listing = Listing::new(alloc, subtree);
    for (path, meta) in files {
        add(&mut listing, path, meta)?;
    }
    Ok(listing)
}
