//! A listing with what was observed since its reading began.
//! Definitions: specs/Overlays.antt. Tests: view_tests/src/views/overlays.rt.
ghost use Rattle.std.specs.Prelude.{◌≡◌, Some, None, true, IfOk, OnOk, cond, option_map, unwrap_or};
ghost use Rattle.std.specs.BTreeMap.{IsOrdered};
ghost use Rattle.std.specs.FinMap.{find};
ghost use Rattle.std.specs.Option.{option_or};
ghost use Rattle.wm_names.specs.Entries.{covers};
ghost use Rattle.wm_names.specs.Paths.{Path, path_cmp, same_path};
ghost use Rattle.wm_view.specs.Files.{at};
ghost use Rattle.wm_root.specs.Overlays.{IsOverlaid, noted};

use std::alloc::Global;
use std::collections::BTreeMap;
use wm_disk::{NoMemory, Refusal};
use wm_names::{Meta, RelPath, Subtree};
use wm_view::Listing;

/// The listing, with the observed states in place of what was read of their paths.
pub(crate) fn overlay(
    alloc: Global,
    mut states: BTreeMap<RelPath, Option<Meta>>,
    listing: &Listing,
) -> Result<Listing, NoMemory>
    requires { IsOrdered path_cmp states }
    ensures { IfOk result (λ l. IsOverlaid (noted states.entries) listing.now l) }
{
    add_read(&mut states, listing.files())?;
    let subtree = listing.subtree().copy()?;
    listed(alloc, subtree, &states)
}

/// Adds what was read of each path of which no state is there. Of two of one path the first counts.
fn add_read(
    states: &mut BTreeMap<RelPath, Option<Meta>>,
    read: &[(RelPath, Meta)],
) -> Result<(), NoMemory>
    requires { IsOrdered path_cmp states.old }
    ensures files { OnOk result ((p : Path) → find path_cmp p states.new.entries ≡ option_or (find path_cmp p states.old.entries) (option_map Some (at read.now p))) }
    ensures ordered { IsOrdered path_cmp states.new }
{
    for file in read {
        if states.contains_key(&file.0) {
            continue;
        }
        let path = file.0.copy()?;
        states.insert(path, Some(file.1))?;
    }
    Ok(())
}

/// The listing of the paths that exist and are in the part.
fn listed(
    alloc: Global,
    subtree: Subtree,
    states: &BTreeMap<RelPath, Option<Meta>>,
) -> Result<Listing, NoMemory>
    requires { IsOrdered path_cmp states.now }
    ensures part { IfOk result (λ l. l.subtree ≡ subtree) }
    ensures files { IfOk result (λ l. (p : Path) → covers subtree p ≡ true → at l.files p ≡ unwrap_or (find path_cmp p states.now.entries) None) }
{
    let mut listing = Listing::new(alloc, subtree);
    for (path, state) in states {
        if let Some(meta) = state {
            add(&mut listing, path, *meta)?;
        }
    }
    Ok(listing)
}

/// Adds a path, unless it is outside the part or is there already.
fn add(listing: &mut Listing, path: &RelPath, meta: Meta) -> Result<(), NoMemory>
    ensures part { listing.new.subtree ≡ listing.old.subtree }
    ensures files { OnOk result ((p : Path) → covers listing.old.subtree p ≡ true → at listing.new.files p ≡ option_or (at listing.old.files p) (cond (same_path p path.now) (Some meta) None)) }
{
    let path = path.copy()?;
    match listing.add(path, meta) {
        Ok(()) => Ok(()),
        Err(Refusal::BadPath) => Ok(()),
        Err(Refusal::BadArguments) => Ok(()),
        Err(_) => Err(NoMemory),
    }
}
